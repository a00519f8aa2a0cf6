ghost use Rattle.std.specs.Prelude.{◌≡◌, ◌<◌, ◌≤◌, ◌^◌, ◌++◌, length, replicate, IfOk, OnOk};
ghost use Rattle.std.specs.List.{AllByRecursion};
ghost use Rattle.cell_store.specs.Values.{homes, values_of};
ghost use Rattle.app_laws.specs.Applications.{AreFitStarts};
ghost use Rattle.hook_app.specs.Hooked.{FitTogether};
ghost use Rattle.hook_app.specs.OneLocation.{own_set};
ghost use Rattle.mtx_reader.specs.Patterns.{IsPattern};
ghost use Rattle.mtx_reader.specs.Places.{IsWithin};
ghost use Rattle.level_walk.specs.declared.level.Level.TheVariants.{Unset};
ghost use Rattle.level_walk.specs.Levels.{first_visits, level_text, level_texts, levelling, start_levels, vertex_sets, visit_of, walking};
ghost use Rattle.level_walk.specs.Walks.{edges_from, vertex_count};

use crate::Level;
use crate::edges::{edge_ends, edges_between};
use cell_store::Store;
use hook_app::Deed;
use kdg_text::{NoRoom, Text, push_u64};
use mtx_reader::Pattern;
use rw_sets::{Access, RwSet};
use std::alloc::Global;
use std::marker::Model;
use task_order::{Body, Start, StartList};

/// A search for the breadth-first levels of a directed graph. The graph has an edge from I to J for
/// each place in row I and column J of a pattern, and as many vertices, counted from 1, as the greater
/// of its numbers of rows and columns. Vertex `v` has its level in cell `v - 1`.
///
/// A task visits a vertex, at the priority of the level that it brings. Where the vertex has a level
/// already, nothing happens. Else it gets that one, a line `visit V L` says so, and, as long as L is
/// below 4,096, a task visits each vertex to which an edge leads from it, at the next level.
#[derive(Drop)]
pub struct Walk {
    pub(crate) alloc: Global,
    pattern: Pattern,
    from: u32,
    /// For each number from 0 to that of the last vertex, how many edges begin at a vertex up to it.
    ends: Vec<u32>,
}

impl Model for Walk {
    ghost use Rattle.level_walk.specs.Walks.{Search};
    ghost use Rattle.level_walk.specs.Edges.{IsIndexed};

    ghost Value = { Search };

    ghost view = { λ w. record { pattern = w.pattern; from = w.from } };

    ghost invariant = { λ w. IsIndexed w.pattern w.from w.ends.items };
}

impl Deed for Walk {
    ghost use Rattle.level_walk.specs.Levels.{walking};

    type Val = Level;

    ghost meaning = { λ search. walking search.pattern };

    // Most visits find that their vertex was reached before, and do nothing.
    fn task_nanos(&self) -> Option<u64> {
        Some(300)
    }
}

impl Walk {
    /// The search from a vertex through the graph of a pattern.
    pub fn new(alloc: Global, pattern: Pattern, from: u32) -> Result<Walk, NoRoom>
        requires pattern { IsPattern pattern }
        requires from { 1 ≤ from }
        ensures { IfOk result (λ walk. walk ≡ record { pattern = pattern; from = from }) }
    {
        let vertices = count_of(&pattern);
        let ends = edge_ends(alloc, pattern.places.items(), vertices)?;
        Ok(Walk {
            alloc,
            pattern,
            from,
            ends,
        })
    }

    /// The vertex from which it is searched.
    pub fn from(&self) -> u32
        ensures from { result ≡ self.now.from }
        ensures some { 1 ≤ self.now.from }
    {
        self.from
    }

    /// How many vertices the graph has, each with a cell and a set, which belong together with what tasks
    /// do and with a lookahead of 1. Takes no memory.
    pub fn count(&self) -> u32
        ensures count { result ≡ vertex_count self.now.pattern }
        ensures sound { IsPattern self.now.pattern }
        ensures together { FitTogether (walking self.now.pattern) (vertex_count self.now.pattern) (vertex_sets (vertex_count self.now.pattern)) 1 }
    {
        count_of(&self.pattern)
    }

    /// The cells at the start: no vertex has a level.
    pub fn first_cells(&self) -> Result<Vec<Level>, NoRoom>
        ensures cells { IfOk result (λ cells. cells.items ≡ start_levels self.now.pattern) }
        ensures fit { IfOk result (λ cells. (levelling self.now.pattern).is_fit_cells cells.items) }
    {
        self.unset_levels(self.count())
    }

    /// That many cells of vertices without a level.
    pub fn unset_levels(&self, count: u32) -> Result<Vec<Level>, NoRoom>
        ensures { IfOk result (λ cells. cells.items ≡ replicate count Unset) }
    {
        Ok(Vec::from_elem(self.alloc, Level::Unset, count as usize)?)
    }

    /// The first task, which visits the start at level 0. There is none where the start isn't a vertex.
    pub fn first_tasks(&self) -> Result<StartList, NoRoom>
        ensures tasks { IfOk result (λ tasks. tasks ≡ first_visits self.now.pattern self.now.from) }
        ensures fit { IfOk result (AreFitStarts (levelling self.now.pattern)) }
        ensures few { IfOk result (λ tasks. length tasks < 2 ^ 32) }
    {
        let mut first = StartList::new(self.alloc);
        if self.from <= self.count() {
            first.push(visit_of(0, self.from))?;
        }
        Ok(first)
    }

    /// The sets that tasks declare, one for each vertex, which writes its cell.
    pub fn sets(&self) -> Result<Vec<RwSet>, NoRoom>
        ensures { IfOk result (λ sets. sets.items ≡ vertex_sets (vertex_count self.now.pattern)) }
    {
        let mut sets = Vec::new(self.alloc);
        for loc in 0..self.count() {
            sets.push(own_set(self.alloc, loc)?)?;
        }
        Ok(sets)
    }

    /// A line `level V L` for each vertex V with its level L, or `level V none` where it has none.
    pub fn print_finals(&self, store: &Store<Level>) -> Result<Text, NoRoom>
        requires home { store.now ≡ homes (values_of store.now) }
        ensures { IfOk result (λ text. text ≡ level_texts 1 (values_of store.now)) }
    {
        let mut text = Text::new(self.alloc);
        for loc in 0..store.len() {
            push_level(&mut text, loc + 1, *store.value(loc))?;
        }
        Ok(text)
    }

    /// The edges that begin at a vertex, by the vertices to which they lead.
    pub fn edges_from(&self, vertex: u32) -> &[(u32, u32)]
        requires some { 1 ≤ vertex }
        requires vertex { vertex ≤ vertex_count self.now.pattern }
        ensures edges { result.now ≡ edges_from self.now.pattern vertex }
        ensures few { length result.now ≤ 16_785_409 }
        ensures to_vertices { AllByRecursion (IsWithin (vertex_count self.now.pattern) (vertex_count self.now.pattern)) result.now }
    {
        let first = self.ends[vertex as usize - 1] as usize;
        let last = self.ends[vertex as usize] as usize;
        edges_between(self.pattern.places.items(), first, last)
    }
}

/// How many vertices the graph of a pattern has.
fn count_of(pattern: &Pattern) -> u32
    ensures { result ≡ vertex_count pattern.now }
{
    if pattern.rows < pattern.cols {
        pattern.cols
    } else {
        pattern.rows
    }
}

/// A visit to a vertex, which brings a level.
pub(crate) fn visit_of(level: u32, vertex: u32) -> Start
    requires { 1 ≤ vertex }
    ensures { result ≡ visit_of level vertex }
{
    let body = Body {
        kind: 0,
        at: vertex - 1,
        arg: 0,
    };
    Start {
        prio: u64::from(level),
        body,
    }
}

/// The set that writes one cell.
pub(crate) fn own_set(alloc: Global, loc: u32) -> Result<RwSet, NoRoom>
    ensures { IfOk result (λ set. set ≡ own_set loc) }
{
    let mut set = RwSet::new(alloc);
    set.add(loc, Access::Write)?;
    Ok(set)
}

/// Appends the line of a vertex.
fn push_level(text: &mut Text, vertex: u32, level: Level) -> Result<(), NoRoom>
    ensures { OnOk result (text.new ≡ text.old ++ level_text vertex level) }
{
    text.push_all(b"level ")?;
    push_u64(text, u64::from(vertex))?;
    match level {
        Level::Unset => text.push_all(b" none\n"),
        Level::At(level) => {
            text.push_byte(b' ')?;
            push_u64(text, u64::from(level))?;
            text.push_byte(b'\n')
        }
    }
}
