ghost use Rattle.level_walk.specs.Laws.{LevelsAreShortest, LogsAreVisits};

use crate::Level;
use app_laws::execution_laws;

/// Where the sequential execution of a search ends, each vertex has the length of a shortest walk from
/// the start to it, and none exactly where there is no walk. All that was written are lines of first
/// visits.
pub fn levels_are_shortest()
    ensures shortest { LevelsAreShortest }
    ensures logs { LogsAreVisits }
{
    execution_laws::<Level>();
}
