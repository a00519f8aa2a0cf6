ghost use Rattle.kdg_prog.specs.RoundCount.{FewRoundsAreCounted, RoundsToTheEndAreCounted};

use app_laws::{App, execution_laws};
use commuting::round_laws;

/// The number of rounds that a print tells is the number that the execution takes.
pub fn round_count_laws<A: App>()
    ensures few { (app : A) → FewRoundsAreCounted (A.meaning app) }
    ensures to_the_end { (app : A) → RoundsToTheEndAreCounted (A.meaning app) }
{
    execution_laws::<A::Val>();
    round_laws::<A>();
}
