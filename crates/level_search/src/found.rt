//! What visits leave of a search.

ghost use Rattle.std.specs.Prelude.{◌≡◌, ◌≤◌, ◌↔◌, [], ◌++◌, length, IfOk, IsTrue, OnOk};
ghost use Rattle.std.specs.List.{AllByRecursion};
ghost use Rattle.level_walk.specs.Levels.{start_levels};
ghost use Rattle.level_walk.specs.Walks.{vertex_count};
ghost use Rattle.level_search.specs.Turns.{IsVertex, after_visit, first_vertices, next_vertices, visited};

use kdg_text::{NoRoom, Text};
use level_walk::{Level, MOST_LEVEL, Walk, push_visit};
use std::alloc::Global;
use std::marker::Model;
use std::mem;

/// What the visits so far have found.
#[derive(Drop)]
pub(crate) struct Found {
    /// The level of each vertex that has one.
    pub(crate) levels: Vec<Level>,
    /// The lines of the vertices that got their levels.
    pub(crate) lines: Text,
    /// The visits of the next level, each by its vertex, in order.
    next: Vec<u32>,
}

impl Model for Found {
    ghost use Rattle.level_search.specs.Turns.{Left};

    ghost Value = { Left };

    ghost view = { λ f. record { levels = f.levels.items; lines = f.lines; next = f.next.items } };
}

impl Found {
    /// Before the first visit.
    pub(crate) fn new(alloc: Global, walk: &Walk) -> Result<Found, NoRoom>
        ensures { IfOk result (λ found. found ≡ record { levels = start_levels walk.now.pattern; lines = []; next = first_vertices walk.now.pattern walk.now.from }) }
    {
        let levels = walk.first_cells()?;
        let mut next = Vec::new(alloc);
        if walk.from() <= walk.count() {
            next.push(walk.from())?;
        }
        Ok(Found {
            levels,
            lines: Text::new(alloc),
            next,
        })
    }

    /// Whether no vertex is visited next.
    pub(crate) fn is_done(&self) -> bool
        ensures { IsTrue result ↔ (self.now.next ≡ []) }
    {
        self.next.is_empty()
    }

    /// Takes the visits of the next level out.
    pub(crate) fn take_next(&mut self, alloc: Global) -> Vec<u32>
        ensures taken { result.items ≡ self.old.next }
        ensures left { self.new ≡ record { levels = self.old.levels; lines = self.old.lines; next = [] } }
    {
        mem::replace(&mut self.next, Vec::new(alloc))
    }

    /// Has visits of one level act in turn.
    pub(crate) fn visit_all(
        &mut self,
        walk: &Walk,
        level: u32,
        vertices: &[u32],
    ) -> Result<(), NoRoom>
        requires vertices { AllByRecursion (IsVertex walk.now.pattern) vertices.now }
        requires levels { length self.old.levels ≡ vertex_count walk.now.pattern }
        ensures { OnOk result (self.new ≡ visited walk.now.pattern level self.old vertices.now) }
    {
        for vertex in vertices {
            self.visit(walk, level, *vertex)?;
        }
        Ok(())
    }

    /// A visit to a vertex, which brings a level. Where the vertex has a level already, nothing happens.
    fn visit(&mut self, walk: &Walk, level: u32, vertex: u32) -> Result<(), NoRoom>
        requires vertex { IsVertex walk.now.pattern vertex }
        requires levels { length self.old.levels ≡ vertex_count walk.now.pattern }
        ensures { OnOk result (self.new ≡ after_visit walk.now.pattern level self.old vertex) }
    {
        let loc = vertex as usize - 1;
        match self.levels[loc] {
            Level::At(_) => Ok(()),
            Level::Unset => {
                self.levels[loc] = Level::At(level);
                push_visit(&mut self.lines, vertex, level)?;
                push_vertices(&mut self.next, walk, vertex, level)
            }
        }
    }
}

/// Adds the vertices that are visited after this one, as long as there is a next level.
fn push_vertices(next: &mut Vec<u32>, walk: &Walk, vertex: u32, level: u32) -> Result<(), NoRoom>
    requires vertex { IsVertex walk.now.pattern vertex }
    ensures { OnOk result (next.new.items ≡ next.old.items ++ next_vertices walk.now.pattern vertex level) }
{
    if level >= MOST_LEVEL {
        return Ok(());
    }
    for (_, after) in walk.edges_from(vertex) {
        next.push(*after)?;
    }
    Ok(())
}
