//! What the calls of an engine make of its execution and of the jobs in hand.

ghost use Rattle.run_laws.specs.Moves.{ClaimAnswersMove, DrainsMove, EndsMove, GivingUpMoves, MarksStay, MovesFollow, RefusalsMove, StaysAreMoves};

use app_laws::App;

/// What each call of an engine leaves is a move from what was there, which says what jobs are in hand
/// and which keys ended; and one move after the other is a move.
pub fn move_laws<A: App>()
    ensures stays { (app : A) → StaysAreMoves (A.meaning app) }
    ensures follow { (app : A) → MovesFollow (A.meaning app) }
    ensures claims { (app : A) → ClaimAnswersMove (A.meaning app) }
    ensures ends { (app : A) → EndsMove (A.meaning app) }
    ensures refusals { (app : A) → RefusalsMove (A.meaning app) }
    ensures drains { (app : A) → DrainsMove (A.meaning app) }
    ensures gives_up { (app : A) → GivingUpMoves (A.meaning app) }
    ensures marks { (app : A) → MarksStay (A.meaning app) }
{}
