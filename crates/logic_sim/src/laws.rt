ghost use Rattle.app_laws.specs.Applications.{FixedSetsAreKnown, IsLawful, PathsAreIgnored};
ghost use Rattle.logic_sim.specs.Event.{Simulation};
ghost use Rattle.logic_sim.specs.Gaps.{GapsTell};
ghost use Rattle.logic_sim.specs.Meaning.{simulation};

/// A circuit has the laws of an application: its events declare the cells that they read and write,
/// and touch no other. These sets are fixed, and paths give events their order and tell nothing else.
/// What may come to a signal before a limit is told by the gaps between signals.
pub fn circuit_laws()
    ensures lawful { (c : Simulation) → IsLawful (simulation c) }
    ensures fixed { (c : Simulation) → FixedSetsAreKnown (simulation c) }
    ensures paths { (c : Simulation) → PathsAreIgnored (simulation c) }
    ensures gaps { (c : Simulation) → GapsTell c }
{}
