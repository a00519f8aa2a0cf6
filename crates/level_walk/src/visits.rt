ghost use Rattle.std.specs.Prelude.{◌≡◌, ◌≤◌, ◌++◌, IfOk, OnOk};
ghost use Rattle.cell_store.specs.declared.cell.Cell.TheVariants.{Home};
ghost use Rattle.cell_store.specs.Cells.{cell_in};
ghost use Rattle.hook_app.specs.Kept.{IsAnswered, IsAsked};
ghost use Rattle.level_walk.specs.declared.level.Level.TheVariants.{Unset};
ghost use Rattle.level_walk.specs.Levels.{child_at, next_children, vertex_sets, visit_text, walking};
ghost use Rattle.level_walk.specs.Walks.{vertex_count};

use crate::walk::{own_set, visit_of};
use crate::{Level, Walk};
use app_laws::{Child, ChildList, Effect};
use cell_store::Bundle;
use kdg_text::{NoRoom, Text, push_u64};
use std::alloc::Global;
use task_order::{Start, Task};

/// The greatest level: no task goes beyond it.
pub const MOST_LEVEL: u32 = 4096;

/// Does what a task does: visits its vertex. Where memory runs out, the bundle comes back as it was.
pub fn visit(
    walk: &Walk,
    task: &Task,
    bundle: Bundle<Level>,
) -> Result<Effect<Level>, Bundle<Level>>
    requires { IsAsked (walking walk.now.pattern) (vertex_sets (vertex_count walk.now.pattern)) task.now bundle }
    ensures { IsAnswered (walking walk.now.pattern) (vertex_sets (vertex_count walk.now.pattern)) task.now bundle result }
{
    match bundle.value(task.body.at) {
        Level::At(_) => Ok(Effect {
            bundle,
            children: ChildList::new(walk.alloc),
            text: Text::new(walk.alloc),
        }),
        Level::Unset => set_level(walk, task, bundle),
    }
}

/// The first visit to a vertex. All memory is taken before its cell is written.
fn set_level(
    walk: &Walk,
    task: &Task,
    bundle: Bundle<Level>,
) -> Result<Effect<Level>, Bundle<Level>>
    requires asked { IsAsked (walking walk.now.pattern) (vertex_sets (vertex_count walk.now.pattern)) task.now bundle }
    requires unset { cell_in bundle task.now.body.at ≡ Home Unset }
    ensures { IsAnswered (walking walk.now.pattern) (vertex_sets (vertex_count walk.now.pattern)) task.now bundle result }
{
    let alloc = walk.alloc;
    let vertex = task.body.at + 1;
    let level = task.key.prio as u32;
    let Ok(children) = next_children(walk, vertex, level) else {
        return Err(bundle);
    };
    let Ok(text) = visit_text(alloc, vertex, level) else {
        return Err(bundle);
    };
    let mut bundle = bundle;
    bundle.put(task.body.at, Level::At(level));
    Ok(Effect {
        bundle,
        children,
        text,
    })
}

/// A visit at the next level to each vertex to which an edge leads, as long as there is a next level.
fn next_children(walk: &Walk, vertex: u32, level: u32) -> Result<ChildList, NoRoom>
    requires some { 1 ≤ vertex }
    requires vertex { vertex ≤ vertex_count walk.now.pattern }
    ensures { IfOk result (λ children. children ≡ next_children walk.now.pattern vertex level) }
{
    let mut children = ChildList::new(walk.alloc);
    if level >= MOST_LEVEL {
        return Ok(children);
    }
    for (_, next) in walk.edges_from(vertex) {
        let child = child_at(walk.alloc, level + 1, *next)?;
        children.push(child).map_err(|_| NoRoom)?;
    }
    Ok(children)
}

/// A visit to a vertex as a child, with its set.
fn child_at(alloc: Global, level: u32, vertex: u32) -> Result<Child, NoRoom>
    requires { 1 ≤ vertex }
    ensures { IfOk result (λ child. child ≡ child_at level vertex) }
{
    let Start { prio, body } = visit_of(level, vertex);
    let set = own_set(alloc, body.at)?;
    Ok(Child { prio, body, set })
}

/// The line of a vertex that gets its level.
fn visit_text(alloc: Global, vertex: u32, level: u32) -> Result<Text, NoRoom>
    ensures { IfOk result (λ text. text ≡ visit_text vertex level) }
{
    let mut text = Text::new(alloc);
    push_visit(&mut text, vertex, level)?;
    Ok(text)
}

/// Appends the line of a vertex that gets its level. After `NoRoom` a part of it may stand there.
pub fn push_visit(text: &mut Text, vertex: u32, level: u32) -> Result<(), NoRoom>
    ensures { OnOk result (text.new ≡ text.old ++ visit_text vertex level) }
{
    text.push_all(b"visit ")?;
    push_u64(text, u64::from(vertex))?;
    text.push_byte(b' ')?;
    push_u64(text, u64::from(level))?;
    text.push_byte(b'\n')
}
