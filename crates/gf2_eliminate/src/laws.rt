ghost use Rattle.std.specs.Prelude.{ℕ};
ghost use Rattle.app_laws.specs.Applications.{IsLawful};
ghost use Rattle.gf2_eliminate.specs.Elimination.{elimination};

/// Elimination has the laws of an application: the task of a column declares the lines that it
/// needs and touches no other, and which these are moves only within the merge with the set of the
/// task that moves it.
pub fn elimination_laws()
    ensures { (rows columns : ℕ) → IsLawful (elimination rows columns) }
{}
