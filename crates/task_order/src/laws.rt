ghost use Rattle.task_order.specs.Laws.{EarlierIsIrreflexive, EarlierIsTransitive, EarlierIsConnected, EarlierIsTurned, EqualIsReflexive, AscendingKeysAreDistinct, TasksDetermineAscending, DistinctInAnyOrder, PutsCommute, PutsKeepAscending, PutsAddOne, PutsKeepTasks, PutsKeepNewKeys, EarliestGoesFirst, LatestGoesLast, PutsGoBetween, PutAllOfNone, PutAllOfJoined, PutAllCommutesWithPut, PutAllInAnyOrder, PutAllKeepsAscending, PutAllAddsEach, PutAllKeepsTasks, BeforeIsFront, BeforeIsEarlier, BeforeStaysAscending, BeforeSkipsLater, BeforeTakesEarlier, WithoutForgetsPut, PutRestoresWithout, WithoutCommutesWithPut, WithoutCommutes, WithoutOfNewKey, WithoutStaysAscending, WithoutKeepsOthers, WithoutMakesNew, LowerBeginningsComeFirst};

/// Being earlier is a strict total order of the keys.
pub fn earlier_laws()
    ensures irreflexive { EarlierIsIrreflexive }
    ensures transitive { EarlierIsTransitive }
    ensures connected { EarlierIsConnected }
    ensures turned { EarlierIsTurned }
    ensures equal { EqualIsReflexive }
{}

/// In an ascending list each key stands once, and its tasks determine it. Whether keys differ
/// doesn't depend on the order.
pub fn ascending_laws()
    ensures distinct { AscendingKeysAreDistinct }
    ensures determined { TasksDetermineAscending }
    ensures any_order { DistinctInAnyOrder }
{}

/// A task that is put in takes its place by its key, whatever was put in before it.
pub fn put_in_laws()
    ensures commutes { PutsCommute }
    ensures ascending { PutsKeepAscending }
    ensures length { PutsAddOne }
    ensures tasks { PutsKeepTasks }
    ensures new_keys { PutsKeepNewKeys }
    ensures earliest_first { EarliestGoesFirst }
    ensures latest_last { LatestGoesLast }
    ensures between { PutsGoBetween }
{}

/// Several tasks with different keys may be put in in any order.
pub fn put_all_laws()
    ensures none { PutAllOfNone }
    ensures joined { PutAllOfJoined }
    ensures commutes { PutAllCommutesWithPut }
    ensures any_order { PutAllInAnyOrder }
    ensures ascending { PutAllKeepsAscending }
    ensures length { PutAllAddsEach }
    ensures tasks { PutAllKeepsTasks }
{}

/// The tasks before a key are the front of a list, which only earlier tasks change.
pub fn before_laws()
    ensures front { BeforeIsFront }
    ensures earlier { BeforeIsEarlier }
    ensures ascending { BeforeStaysAscending }
    ensures skips_later { BeforeSkipsLater }
    ensures takes_earlier { BeforeTakesEarlier }
{}

/// Taking a task out undoes putting it in, and leaves all others.
pub fn without_laws()
    ensures forgets_put { WithoutForgetsPut }
    ensures restored { PutRestoresWithout }
    ensures commutes_with_put { WithoutCommutesWithPut }
    ensures commutes { WithoutCommutes }
    ensures new_key { WithoutOfNewKey }
    ensures ascending { WithoutStaysAscending }
    ensures others { WithoutKeepsOthers }
    ensures makes_new { WithoutMakesNew }
{}

/// Paths never compare the other way round than their beginnings.
pub fn beginning_laws()
    ensures { LowerBeginningsComeFirst }
{}
