ghost use Rattle.std.specs.Prelude.{◌≡◌, ◌+◌, ◌<◌, ◌^◌, IfOk, IfErr};
ghost use Rattle.app_laws.specs.Applications.{IsFitTask, IsTaken, IsEffect};
ghost use Rattle.example_app.specs.Introduction.{introductions, children_of, contact_after, line_of, meeting_set};

use app_laws::{App, Child, ChildList, Effect, SetAnswer};
use cell_store::{Bundle, Seen, Store, location_laws, value_laws};
use kdg_text::{NoRoom, Steps, Text, push_u64};
use rw_sets::{Access, RwSet};
use std::alloc::Global;
use std::marker::Model;
use std::sync::ledger::Ledger;
use task_order::{Body, PendingTasks, Task};

/// People, each with one contact among them, who introduce their contacts to each other.
///
/// The cell at a person's number has the number of that person's contact. A task at `at` and
/// `arg` is a meeting of these two, the hosts. Their contacts are the guests, and become each
/// other's contact; a line `GUEST GUEST` says so. So a task reads the cells of its hosts and
/// writes those of its guests, and who the guests of a later task are may change by it. Where
/// `kind` is not 0, two meetings of the kind below follow: at once of the first guest and the
/// second host, and a moment later of the first host and the second guest.
#[derive(Drop)]
pub struct Introductions {
    alloc: Global,
    people: u32,
}

impl Model for Introductions {
    ghost use Rattle.std.specs.Prelude.{ℕ, ◌<◌, ◌^◌};

    ghost Value = { ℕ };

    ghost view = { λ a. a.people };

    ghost invariant = { λ a. a.people < 2 ^ 32 };
}

impl Introductions {
    /// So many people.
    pub fn new(alloc: Global, people: u32) -> Introductions
        ensures { result ≡ people }
    {
        Introductions { alloc, people }
    }
}

impl App for Introductions {
    ghost use Rattle.example_app.specs.Lawful as lawful;

    type Val = u64;

    type Horizon = ();

    ghost meaning = { introductions };

    ghost tells = { λ app horizon tasks. Unit {0} };

    fn cells(&self) -> u32 {
        self.people
    }

    fn sets<L: Ledger>(
        &self,
        body: &Body,
        store: &Store<u64>,
        steps: &mut Steps<L>,
    ) -> Result<SetAnswer, NoRoom> {
        steps.tick();
        let alloc = self.alloc;
        let (first, second) = (body.at, body.arg as u32);
        let guest = match store.peek(first) {
            Seen::At(guest) => *guest as u32,
            Seen::Out => return Ok(SetAnswer::Out(first)),
        };
        let other = match store.peek(second) {
            Seen::At(other) => *other as u32,
            Seen::Out => return Ok(SetAnswer::Out(second)),
        };
        let set = meeting_set(alloc, (first, second), (guest, other))?;
        Ok(SetAnswer::Known(set))
    }

    fn sets_are_fixed(&self) -> bool {
        false
    }

    fn ignores_paths(&self) -> bool {
        true
    }

    fn horizon(&self, _alloc: Global) -> Result<(), NoRoom> {
        Ok(())
    }

    fn touch(&self, _horizon: &mut (), _body: &Body) {}

    fn safe<P: PendingTasks>(&self, _task: &Task, _pending: &P, _horizon: &mut ()) -> bool {
        true
    }

    fn run(&self, task: &Task, bundle: Bundle<u64>) -> Result<Effect<u64>, Bundle<u64>>
        requires fit { IsFitTask (introductions self.now) task.now }
        requires cells { IsTaken (introductions self.now) task.now bundle }
        ensures effect { IfOk result (IsEffect (introductions self.now) task.now bundle) }
        ensures returned { IfErr result (λ back. back ≡ bundle) }
    {
        location_laws::<u64>();
        value_laws::<u64>();
        let alloc = self.alloc;
        let mut bundle = bundle;
        let guest = *bundle.get(task.body.at) as u32;
        let other = *bundle.get(task.body.arg as u32) as u32;
        let Ok(children) = children(alloc, task, guest, other) else {
            return Err(bundle);
        };
        let Ok(text) = line(alloc, guest, other) else {
            return Err(bundle);
        };
        *bundle.get_mut(guest) = u64::from(other);
        *bundle.get_mut(other) = u64::from(guest);
        Ok(Effect {
            bundle,
            children,
            text,
        })
    }

    ghost lawful = { lawful.are_lawful };
}

/// The set of a meeting of these hosts, whose contacts are these guests.
fn meeting_set(alloc: Global, hosts: (u32, u32), guests: (u32, u32)) -> Result<RwSet, NoRoom>
    ensures { IfOk result (λ set. set ≡ meeting_set hosts.0 hosts.1 guests.0 guests.1) }
{
    let mut set = RwSet::new(alloc);
    set.add(hosts.0, Access::Read)?;
    set.add(hosts.1, Access::Read)?;
    set.add(guests.0, Access::Write)?;
    set.add(guests.1, Access::Write)?;
    Ok(set)
}

/// Whom a person knows who knew `before`, when the guests have met.
fn contact_after(guest: u32, other: u32, person: u32, before: u32) -> u32
    ensures { result ≡ contact_after guest other person before }
{
    if person == other {
        guest
    } else if person == guest {
        other
    } else {
        before
    }
}

/// The meetings that follow one, each with its set once the guests have met.
fn children(alloc: Global, task: &Task, guest: u32, other: u32) -> Result<ChildList, NoRoom>
    requires fits { task.now.body.arg < 2 ^ 32 }
    requires in_time { task.now.key.prio + task.now.body.kind < 2 ^ 64 }
    ensures { IfOk result (λ children. children ≡ children_of task.now.key.prio task.now.body guest other) }
{
    let mut children = ChildList::new(alloc);
    if task.body.kind == 0 {
        return Ok(children);
    }
    let kind = task.body.kind - 1;
    let (first, second) = (task.body.at, task.body.arg as u32);
    let at_once = Child {
        prio: task.key.prio,
        body: Body {
            kind,
            at: guest,
            arg: task.body.arg,
        },
        set: meeting_set(
            alloc,
            (guest, second),
            (other, contact_after(guest, other, second, other)),
        )?,
    };
    children.push(at_once).map_err(|_| NoRoom)?;
    let later = Child {
        prio: task.key.prio + 1,
        body: Body {
            kind,
            at: first,
            arg: u64::from(other),
        },
        set: meeting_set(
            alloc,
            (first, other),
            (contact_after(guest, other, first, guest), guest),
        )?,
    };
    children.push(later).map_err(|_| NoRoom)?;
    Ok(children)
}

/// The line that two guests have met.
fn line(alloc: Global, guest: u32, other: u32) -> Result<Text, NoRoom>
    ensures { IfOk result (λ text. text ≡ line_of guest other) }
{
    let mut text = Text::new(alloc);
    push_u64(&mut text, u64::from(guest))?;
    text.push_byte(b' ')?;
    push_u64(&mut text, u64::from(other))?;
    text.push_byte(b'\n')?;
    Ok(text)
}
