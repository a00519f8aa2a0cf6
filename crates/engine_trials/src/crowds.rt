//! A round that has work enough for threads.

ghost use Rattle.std.specs.Prelude.{◌≤◌, ◌<◌, ◌^◌, length, IfOk};
ghost use Rattle.app_laws.specs.Applications.{AreFitStarts};
ghost use Rattle.example_app.specs.Introduction.{AreContacts, introductions};

use super::meetings::meeting;
use super::outcomes::{Aim, are_alike, serial_finals};
use super::rounds::rounds_meet;
use app_laws::{App, Finals};
use example_app::Introductions;
use graph_update::OverCause;
use kdg_text::NoRoom;
use std::alloc::Global;
use std::test::Fail;
use std::thread::Threads;
use task_order::{Start, StartList};

/// People in groups of four, who each know the next but one, and the last two of them the first
/// two of the next group.
fn many_contacts(alloc: Global) -> Result<Vec<u64>, NoRoom>
    ensures { IfOk result (λ contacts. AreContacts 16400 contacts.items) }
{
    let mut contacts = Vec::new(alloc);
    for person in 0..16400u64 {
        contacts.push((person + 2) % 16400)?;
    }
    Ok(contacts)
}

/// In each group the first two meet, and introduce the other two. Two further meetings follow in
/// turn, since all three have a guest in common.
fn many_meetings(alloc: Global) -> Result<StartList, NoRoom>
    ensures fit { IfOk result (AreFitStarts (introductions 16400)) }
    ensures few { IfOk result (λ first. length first < 2 ^ 32) }
{
    let mut first = StartList::new(alloc);
    for group in 0..4100u32 {
        first.push(meeting(1, 1, 4 * group, 4 * u64::from(group) + 1))?;
    }
    Ok(first)
}

/// What a run came to.
#[derive(Drop)]
struct Model<'a> {
    finals: &'a Finals<u64>,
}

impl Aim<u64> for Model<'_> {
    fn is_met(&self, finals: &Finals<u64>) -> bool {
        are_alike(finals, self.finals)
    }
}

/// Whether the serial run has so many tasks, and rounds at a gate that is open and at one that isn't come to the
/// same.
fn all_have_tasks<R: Threads + Sync, A: App<Val = u64> + Sync>(
    rt: &R,
    alloc: Global,
    app: &A,
    cells: &[u64],
    first: &[Start],
    count: u64,
) -> Result<bool, OverCause>
    requires fit_cells { (A.meaning app.now).is_fit_cells cells.now }
    requires fit_first { AreFitStarts (A.meaning app.now) first.now }
    requires few { length first.now < 2 ^ 32 }
    requires count { count ≤ 1_000_000_000 }
{
    let finals = serial_finals(alloc, app, cells, first, count)?;
    let model = Model { finals: &finals };
    let alike = rounds_meet(rt, alloc, app, cells, first, count, &model);
    let has_tasks = finals.count == count;
    drop(finals);
    Ok(alike? && has_tasks)
}

/// Whether all runs of the crowd have so many tasks, and come to the same.
fn crowds_have_tasks<R: Threads + Sync>(rt: &R, alloc: Global) -> Result<bool, OverCause> {
    let app = Introductions::new(alloc, 16400);
    let (cells, first) = (many_contacts(alloc)?, many_meetings(alloc)?);
    all_have_tasks(rt, alloc, &app, &cells, first.items(), 12300)
}

/// Rounds of thousands of jobs are performed by threads.
#[test]
fn many_meet_at_once(rt: HostRuntime) -> Result<(), Fail> {
    assert!(rt; crowds_have_tasks(&rt, rt.alloc())?);
    Ok(())
}
