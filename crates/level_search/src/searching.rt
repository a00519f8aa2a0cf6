//! The search.

ghost use Rattle.std.specs.Prelude.{◌≡◌, ◌≤◌, IfOk, IfSome, IfNone, None};
ghost use Rattle.cell_store.specs.Values.{values_of};
ghost use Rattle.app_laws.specs.Applications.{AreFitStarts};
ghost use Rattle.app_laws.specs.Execution.{run_to_end, start_of};
ghost use Rattle.app_laws.specs.Serial.{IsRun};
ghost use Rattle.commuting.specs.Rounds.{TakesRounds};
ghost use Rattle.level_walk.specs.Levels.{first_visits, levelling, start_levels};
ghost use Rattle.level_search.specs.Turns.{first_state};

use crate::counting::most_to_one;
use crate::found::Found;
use crate::laws::basis;
use app_laws::Finals;
use cell_store::{Store, value_laws};
use kdg_text::NoRoom;
use level_walk::{Level, Walk};
use std::alloc::Global;

/// Searches a graph level by level, in the calling thread. What it leaves is what the visits come to as tasks, one
/// after the other: the levels, the lines and the number of tasks. With it comes the number of rounds in which they
/// would act. There is no answer where more than `limit` tasks would be created.
pub fn search(
    alloc: Global,
    walk: &Walk,
    limit: u64,
) -> Result<Option<(Finals<Level>, u64)>, NoRoom>
    requires { limit ≤ 1_000_000_000 }
    ensures run { IfOk result (λ found. IfSome found (λ ended. IsRun (levelling walk.now.pattern).act limit (start_of (start_levels walk.now.pattern) (first_visits walk.now.pattern walk.now.from)) ended.0)) }
    ensures rounds { IfOk result (λ found. IfSome found (λ ended. TakesRounds (levelling walk.now.pattern) ended.1 (first_state walk.now.pattern walk.now.from))) }
    ensures start { IfOk result (λ found. IfSome found (λ _. (levelling walk.now.pattern).is_fit_cells (start_levels walk.now.pattern) × AreFitStarts (levelling walk.now.pattern) (first_visits walk.now.pattern walk.now.from))) }
    ensures fit { IfOk result (λ found. IfSome found (λ ended. (levelling walk.now.pattern).is_fit_cells (values_of ended.0.store))) }
    ensures over { IfOk result (λ found. IfNone found (run_to_end (levelling walk.now.pattern).act limit (start_of (start_levels walk.now.pattern) (first_visits walk.now.pattern walk.now.from)) ≡ None)) }
{
    basis();
    value_laws::<Level>();
    let count = walk.count();
    let _from: u32 = walk.from();
    let mut found = Found::new(alloc, walk)?;
    let mut level = 0u32;
    let mut ended = 0u64;
    let mut rounds = 0u64;
    while !found.is_done() {
        let visits = found.take_next(alloc);
        if visits.len() as u64 > limit - ended {
            return Ok(None);
        }
        rounds += most_to_one(alloc, count, &visits)?;
        found.visit_all(walk, level, &visits)?;
        ended += visits.len() as u64;
        level += 1;
    }
    let store = Store::new(alloc, found.levels)?;
    let finals = Finals {
        store,
        text: found.lines,
        count: ended,
    };
    Ok(Some((finals, rounds)))
}
