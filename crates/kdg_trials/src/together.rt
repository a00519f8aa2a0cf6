//! Two workers that perform tasks at once.

use crate::answering::answer_at;
use crate::decks::{C17, C17_PRINT};
use kdg_prog::Status;
use outer_edge::Gate;
use std::sync::atomic::AtomicU64;
use std::sync::atomic::Ordering::SeqCst;
use std::test::Fail;
use std::thread;
use task_order::Key;

/// How often a worker looks whether another one has come.
const LOOKS: u64 = 20_000_000;

/// Whoever comes first is held until a second one has come, or for some seconds.
#[derive(Drop)]
struct Together {
    /// How many have come.
    come: AtomicU64,
    /// How many of them saw that another one was there.
    met: AtomicU64,
}

impl Gate for Together {
    fn choose(&self, _seed: u64, _worker: u32, _turn: u64) -> u64 {
        0
    }

    fn pass(&self, _worker: u32, _key: &Key) {
        if self.come.fetch_add(1, SeqCst) > 0 {
            return;
        }
        for _ in 0..LOOKS {
            if self.come.load(SeqCst) > 1 {
                self.met.store(1, SeqCst);
                return;
            }
            thread::yield_now();
        }
    }
}

#[test]
fn two_tasks_are_performed_at_once(rt: HostRuntime) -> Result<(), Fail> {
    let gate = Together {
        come: AtomicU64::new(0),
        met: AtomicU64::new(0),
    };
    let words = "sim --mode free --workers 2";
    let (answered, sink) = answer_at(&rt, rt.alloc(), &gate, words, C17, 4096)?;
    assert!(rt; answered == Status::Ok && sink.held() == C17_PRINT.as_bytes());
    assert!(rt; gate.met.load(SeqCst) == 1);
    Ok(())
}
