ghost use Rattle.std.specs.Prelude.{◌≡◌, ◌≢◌, ◌+◌, ◌<◌, ◌≤◌, ◌^◌, ◌++◌, length, IfOk, IfErr, OnOk};
ghost use Rattle.app_laws.specs.Applications.{AreFitStarts};
ghost use Rattle.cell_store.specs.Values.{AreAllHome, values_of};
ghost use Rattle.spring_mesh.specs.Files.{IsMesh, IsNode, IsSpring};
ghost use Rattle.spring_mesh.specs.LineForms.{latest};
ghost use Rattle.spring_mesh.specs.Meaning.{IsFitCells, children_of, ends_of, finals_of, first_from, first_step, mesh_steps, mass_at, node_line, second_from, spring_at, start_tasks, value_piece};

use crate::motion::{brought_to, ends_after};
use crate::{MeshFile, MeshNode, Spring};
use app_laws::{App, Child, ChildList, Effect, SetAnswer};
use cell_store::{Bundle, Held, Seen, Store, home_laws, location_laws, value_laws};
use kdg_text::{NoRoom, Steps, Text, push_i64, push_u64};
use rw_sets::{Access, RwSet};
use std::alloc::Global;
use std::marker::Model;
use std::sync::ledger::Ledger;
use task_order::{Body, PendingTasks, Start, StartList, Task};

impl Held for MeshNode {
    fn copy(&self) -> Result<MeshNode, NoRoom> {
        Ok(*self)
    }
}

/// A mesh whose springs move its nodes. Node `i` is in cell `i`, and a task is a step of the spring
/// `at`, at the time that is its priority.
#[derive(Drop)]
pub struct Mesh {
    alloc: Global,
    file: MeshFile,
}

impl Model for Mesh {
    ghost use Rattle.spring_mesh.specs.declared.file.MeshFile.{MeshFile};
    ghost use Rattle.spring_mesh.specs.Files.{IsMesh};

    ghost Value = { MeshFile };

    ghost view = { λ m. m.file };

    ghost invariant = { λ m. IsMesh m.file };
}

impl Mesh {
    /// The mesh of a file, which takes no memory.
    pub fn new(alloc: Global, file: MeshFile) -> Mesh
        requires { IsMesh file }
        ensures { result ≡ file }
    {
        Mesh { alloc, file }
    }

    /// The cells at the start: the nodes as the file has them.
    pub fn first_cells(&self) -> Result<Vec<MeshNode>, NoRoom>
        ensures cells { IfOk result (λ cells. cells.items ≡ self.now.nodes) }
        ensures fit { IfOk result (λ cells. IsFitCells self.now cells.items) }
    {
        let mut cells = Vec::new(self.alloc);
        cells.extend_from_slice(self.file.nodes.items())?;
        Ok(cells)
    }

    /// The first tasks: for each spring its first step, unless that would come after the end.
    pub fn first_tasks(&self) -> Result<StartList, NoRoom>
        ensures tasks { IfOk result (λ tasks. tasks ≡ start_tasks self.now) }
        ensures fit { IfOk result (AreFitStarts (mesh_steps self.now)) }
        ensures few { IfOk result (λ tasks. length tasks < 2 ^ 32) }
    {
        first_steps(self.alloc, &self.file)
    }

    /// A line `node I X Y VX VY` for each node, counted from 1, as it is at the end.
    pub fn print_finals(&self, store: &Store<MeshNode>) -> Result<Text, NoRoom>
        requires home { AreAllHome store.now }
        requires fit { IsFitCells self.now (values_of store.now) }
        ensures { IfOk result (λ text. text ≡ finals_of self.now (values_of store.now)) }
    {
        value_laws::<MeshNode>();
        let mut text = Text::new(self.alloc);
        for number in 0..store.len() {
            match store.peek(number) {
                Seen::At(node) => {
                    let node = brought_to(node, self.file.end);
                    push_node(&mut text, u64::from(number) + 1, &node)?;
                }
                Seen::Out => unreachable!(),
            }
        }
        Ok(text)
    }

    /// The spring of a task.
    #[inline(always)]
    fn spring(&self, body: &Body) -> &Spring
        requires { body.now.at < length self.now.springs }
        ensures { result.now ≡ spring_at self.now body.now.at }
    {
        &self.file.springs.items()[body.at as usize]
    }

    /// The mass of a node.
    #[inline(always)]
    fn mass(&self, number: u32) -> i64
        requires { number < length self.now.masses }
        ensures { result ≡ mass_at self.now number }
    {
        self.file.masses.items()[number as usize]
    }

    /// The ends of a spring after a step at a time, where these are the ends before it.
    #[inline(always)]
    fn stepped(
        &self,
        time: u64,
        spring: &Spring,
        a: &MeshNode,
        b: &MeshNode,
    ) -> (MeshNode, MeshNode)
        requires mesh { IsMesh self.now }
        requires time { time ≤ latest }
        requires spring { IsSpring (length self.now.nodes) spring.now }
        requires a { IsNode a.now }
        requires b { IsNode b.now }
        ensures first { result.0 ≡ first_from self.now time spring.now a.now b.now }
        ensures second { result.1 ≡ second_from self.now time spring.now a.now b.now }
    {
        let masses = (self.mass(spring.a), self.mass(spring.b));
        let first = brought_to(a, time);
        let second = brought_to(b, time);
        ends_after(spring, masses, &first, &second)
    }
}

/// The first steps of the springs, unless they would come after the end.
fn first_steps(alloc: Global, file: &MeshFile) -> Result<StartList, NoRoom>
    requires { IsMesh file.now }
    ensures { IfOk result (λ tasks. tasks ≡ start_tasks file.now) }
{
    let mut starts = StartList::new(alloc);
    for (number, spring) in file.springs.items().iter().enumerate() {
        if spring.h <= file.end {
            starts.push(first_step(number as u32, spring.h))?;
        }
    }
    Ok(starts)
}

/// A spring's first step.
fn first_step(spring: u32, time: u64) -> Start
    ensures { result ≡ record { prio = time; body = record { kind = 0; at = spring; arg = 0 } } }
{
    Start {
        prio: time,
        body: Body {
            kind: 0,
            at: spring,
            arg: 0,
        },
    }
}

/// Writes a node's line.
fn push_node(text: &mut Text, number: u64, node: &MeshNode) -> Result<(), NoRoom>
    requires { IsNode node.now }
    ensures { OnOk result (text.new ≡ text.old ++ node_line number node.now) }
{
    text.push_all(b"node ")?;
    push_u64(text, number)?;
    push_value(text, node.x)?;
    push_value(text, node.y)?;
    push_value(text, node.vx)?;
    push_value(text, node.vy)?;
    text.push_all(b"\n")
}

/// Writes a space and a number.
fn push_value(text: &mut Text, value: i64) -> Result<(), NoRoom>
    ensures { OnOk result (text.new ≡ text.old ++ value_piece value) }
{
    text.push_all(b" ")?;
    push_i64(text, value)
}

impl App for Mesh {
    ghost use Rattle.std.specs.Prelude.{true};
    ghost use Rattle.app_laws.specs.Applications.{IsFitTask, IsTaken, IsEffect};
    ghost use Rattle.spring_mesh.specs.Lawful as lawful;
    ghost use Rattle.spring_mesh.specs.Meaning.{mesh_steps};

    type Val = MeshNode;

    type Horizon = ();

    ghost meaning = { mesh_steps };

    ghost tells = { λ app horizon tasks. Unit {0} };

    fn cells(&self) -> u32 {
        self.file.nodes.items().len() as u32
    }

    #[inline(always)]
    fn sets<L: Ledger>(
        &self,
        body: &Body,
        _store: &Store<MeshNode>,
        steps: &mut Steps<L>,
    ) -> Result<SetAnswer, NoRoom> {
        steps.tick();
        let spring = self.spring(body);
        Ok(SetAnswer::Known(ends_of(self.alloc, spring)))
    }

    ghost has_fixed_sets = { λ _. true };

    fn sets_are_fixed(&self) -> bool {
        true
    }

    fn ignores_paths(&self) -> bool {
        true
    }

    fn task_nanos(&self) -> Option<u64> {
        Some(100)
    }

    fn horizon(&self, _alloc: Global) -> Result<(), NoRoom> {
        Ok(())
    }

    fn touch(&self, _horizon: &mut (), _body: &Body) {}

    fn safe<P: PendingTasks>(&self, _task: &Task, _pending: &P, _horizon: &mut ()) -> bool {
        true
    }

    #[inline(always)]
    fn run(
        &self,
        task: &Task,
        bundle: Bundle<MeshNode>,
    ) -> Result<Effect<MeshNode>, Bundle<MeshNode>>
        requires fit { IsFitTask (mesh_steps self.now) task.now }
        requires cells { IsTaken (mesh_steps self.now) task.now bundle }
        ensures effect { IfOk result (IsEffect (mesh_steps self.now) task.now bundle) }
        ensures returned { IfErr result (λ back. back ≡ bundle) }
    {
        location_laws::<MeshNode>();
        value_laws::<MeshNode>();
        let time = task.key.prio;
        let spring = self.spring(&task.body);
        let Ok(children) = children(self.alloc, self.file.end, task, spring) else {
            return Err(bundle);
        };
        let mut bundle = bundle;
        let (a, b) = (bundle.value(spring.a), bundle.value(spring.b));
        let (first, second) = self.stepped(time, spring, &a, &b);
        bundle.put(spring.a, first);
        bundle.put(spring.b, second);
        Ok(Effect {
            bundle,
            children,
            text: Text::new(self.alloc),
        })
    }

    fn works_at_home(&self) -> bool {
        true
    }

    #[inline(always)]
    fn run_at_home(
        &self,
        task: &Task,
        store: &mut Store<MeshNode>,
    ) -> Result<(ChildList, Text), NoRoom> {
        location_laws::<MeshNode>();
        value_laws::<MeshNode>();
        home_laws::<MeshNode>();
        let time = task.key.prio;
        let spring = self.spring(&task.body);
        let children = children(self.alloc, self.file.end, task, spring)?;
        let (a, b) = (store.value(spring.a), store.value(spring.b));
        let (first, second) = self.stepped(time, spring, a, b);
        store.put(spring.a, first);
        store.put(spring.b, second);
        Ok((children, Text::new(self.alloc)))
    }

    ghost lawful = { lawful.are_lawful };
}

/// Both ends of a spring, written. The set stands in place.
#[inline(always)]
fn ends_of(alloc: Global, spring: &Spring) -> RwSet
    requires { spring.now.a ≢ spring.now.b }
    ensures { result ≡ ends_of spring.now }
{
    RwSet::of_two(alloc, (spring.a, Access::Write), (spring.b, Access::Write))
}

/// The spring's next step with its set, unless it would come after the end.
#[inline(always)]
fn children(alloc: Global, end: u64, task: &Task, spring: &Spring) -> Result<ChildList, NoRoom>
    requires time { task.now.key.prio ≤ latest }
    requires period { spring.now.h ≤ latest }
    requires two { spring.now.a ≢ spring.now.b }
    ensures { IfOk result (λ children. children ≡ children_of end task.now.key.prio task.now.body spring.now) }
{
    let mut children = ChildList::new(alloc);
    let prio = task.key.prio + spring.h;
    if prio <= end {
        let child = Child {
            prio,
            body: task.body,
            set: ends_of(alloc, spring),
        };
        children.push(child).map_err(|_| NoRoom)?;
    }
    Ok(children)
}
