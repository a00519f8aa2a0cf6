ghost use Rattle.std.specs.Prelude.{◌≡◌, ◌<◌, ◌≤◌, ◌^◌, length, IfOk};
ghost use Rattle.app_laws.specs.Applications.{AreFitStarts};
ghost use Rattle.example_app.specs.Introduction.{AreContacts, introductions};

use super::*;
use app_laws::{Finals, SerialFault, lawful, orderly_laws, serial};
use cell_store::{Seen, Store};
use kdg_text::NoRoom;
use std::alloc::Global;
use std::test::Fail;
use task_order::{Body, Start, StartList};

/// A meeting of two hosts.
fn meeting(prio: u64, kind: u8, at: u32, arg: u64) -> Start
    ensures { result ≡ record { prio = prio; body = record { kind = kind; at = at; arg = arg } } }
{
    Start {
        prio,
        body: Body { kind, at, arg },
    }
}

/// Each of six people knows the next one.
fn contacts(alloc: Global) -> Result<Vec<u64>, NoRoom>
    ensures { IfOk result (λ contacts. AreContacts 6 contacts.items) }
{
    Ok(vec![in alloc; 1, 2, 3, 4, 5, 0]?)
}

/// The first three meetings.
fn meetings(alloc: Global) -> Result<StartList, NoRoom>
    ensures fit { IfOk result (AreFitStarts (introductions 6)) }
    ensures few { IfOk result (λ first. length first < 2 ^ 32) }
{
    let mut first = StartList::new(alloc);
    first.push(meeting(5, 1, 0, 3))?;
    first.push(meeting(5, 0, 1, 2))?;
    first.push(meeting(6, 0, 4, 0))?;
    Ok(first)
}

fn run(alloc: Global, budget: u64) -> Result<Finals<u64>, SerialFault>
    requires { budget ≤ 1_000_000_000 }
{
    let app = Introductions::new(alloc, 6);
    serial(alloc, &app, contacts(alloc)?, meetings(alloc)?, budget)
}

/// Whom a person knows, where the person's cell is home.
fn contact_of(store: &Store<u64>, person: u32) -> Option<u64> {
    if person >= store.len() {
        return None;
    }
    match store.peek(person) {
        Seen::At(contact) => Some(*contact),
        Seen::Out => None,
    }
}

/// Guests are introduced as their hosts know them by then: the third and the fourth meeting find
/// other guests than before the first.
#[test]
fn meetings_run_in_key_order(rt: HostRuntime) -> Result<(), Fail> {
    let finals = run(rt.alloc(), 5)?;
    assert_eq!(rt;
        finals.text.bytes(),
        b"1 4\n4 4\n4 3\n1 3\n3 1\n".as_slice()
    );
    assert_eq!(rt; finals.count, 5);
    for (person, contact) in [(0, 1), (1, 3), (2, 3), (3, 1), (4, 3), (5, 0)] {
        assert_eq!(rt; contact_of(&finals.store, person), Some(contact));
    }
    Ok(())
}

#[test]
fn one_meeting_less_is_over_budget(rt: HostRuntime) -> Result<(), Fail> {
    let fault = run(rt.alloc(), 4).err();
    assert_eq!(rt;
        fault,
        Some(SerialFault::Budget {
            created: 5,
            limit: 4
        })
    );
    Ok(())
}

#[test]
fn laws_hold_of_introductions() {
    lawful::<Introductions>();
    orderly_laws::<Introductions>();
}
