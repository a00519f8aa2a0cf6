ghost use Rattle.std.specs.Prelude.{◌≤◌};

use crate::inputs::{circuit, mesh};
use crate::meeting::{Meeting, meet_at_start};
use crate::outcomes::{Trial, runs_are_serial};
use std::alloc::Global;
use std::sync::Wait;
use std::test::Fail;
use std::thread::Threads;

/// Runs by two workers, and by four.
const TRIALS: [Trial; 2] = [
    Trial {
        runs: 100,
        workers: 2,
    },
    Trial {
        runs: 100,
        workers: 4,
    },
];

/// Whether each run of the circuit comes to what its serial run comes to.
fn circuits_are_serial<R: Threads + Wait + Sync>(
    rt: &R,
    alloc: Global,
    trial: Trial,
) -> Result<bool, Fail>
    requires { trial.workers ≤ 64 }
{
    let circuit = circuit(alloc)?;
    let are_serial = runs_are_serial(rt, alloc, &circuit, trial);
    drop(circuit);
    Ok(are_serial?)
}

#[test]
fn circuits_run_as_in_turn(rt: HostRuntime) -> Result<(), Fail> {
    for trial in TRIALS {
        assert!(rt; circuits_are_serial(&rt, rt.alloc(), trial)?);
    }
    Ok(())
}

/// Whether each run of the mesh comes to what its serial run comes to.
fn meshes_are_serial<R: Threads + Wait + Sync>(
    rt: &R,
    alloc: Global,
    trial: Trial,
) -> Result<bool, Fail>
    requires { trial.workers ≤ 64 }
{
    let mesh = mesh(alloc)?;
    let are_serial = runs_are_serial(rt, alloc, &mesh, trial);
    drop(mesh);
    Ok(are_serial?)
}

#[test]
fn meshes_run_as_in_turn(rt: HostRuntime) -> Result<(), Fail> {
    for trial in TRIALS {
        assert!(rt; meshes_are_serial(&rt, rt.alloc(), trial)?);
    }
    Ok(())
}

/// What two threads meet at a hall over the circuit. There is nothing where it has too many first tasks.
fn circuit_meeting<R: Threads + Sync>(rt: &R, alloc: Global) -> Result<Option<Meeting>, Fail> {
    let circuit = circuit(alloc)?;
    let meeting = meet_at_start(rt, alloc, &circuit);
    drop(circuit);
    Ok(meeting?)
}

/// A second thread meets the one that has the turn, and the engine comes back as it was.
#[test]
fn a_second_thread_meets_the_first(rt: HostRuntime) -> Result<(), Fail> {
    let Some(meeting) = circuit_meeting(&rt, rt.alloc())? else {
        panic!(rt; "too many first tasks");
    };
    assert!(rt; meeting.holders == [None, Some(0), None]);
    assert!(rt; meeting.after == meeting.before);
    Ok(())
}
