ghost use Rattle.rw_sets.specs.Laws.{LookupsDetermineSets, AscendingByParts, SameIsEqual, LookupsFindPairs, MergesAscend, MergesJoinLookups, MergesWriteWhatOneDoes, MergesCommute, MergesAssociate, MergesAreIdempotent, MergesWithNothing, PairsAreNamed, PairsAreWritten, PairsInAnyOrder, PairsByParts, ConflictsAreMutual, ConflictsGrow, MergesConflictByParts, ConflictsAreDecided, NothingConflictsWithEmpty, IndependentWithoutConflict, IndependenceIsDecided, IndependenceIsMutual, WithinIsReflexive, WithinIsTransitive, WithinIsAntisymmetric, WithinByMembers, EmptyIsWithinAll, MergesHoldBoth, MergesAreLeast};

/// A set is its look-up, and its look-up finds its pairs.
pub fn lookup_laws()
    ensures determine_sets { LookupsDetermineSets }
    ensures equality { SameIsEqual }
    ensures ascending { AscendingByParts }
    ensures find_pairs { LookupsFindPairs }
{}

/// A merge is the one set that has at each location the access of both, whatever their order.
pub fn merge_laws()
    ensures ascending { MergesAscend }
    ensures by_location { MergesJoinLookups }
    ensures written { MergesWriteWhatOneDoes }
    ensures commutative { MergesCommute }
    ensures associative { MergesAssociate }
    ensures idempotent { MergesAreIdempotent }
    ensures with_nothing { MergesWithNothing }
{}

/// What a set has after pairs in any order were merged into it.
pub fn pair_laws()
    ensures named { PairsAreNamed }
    ensures written { PairsAreWritten }
    ensures in_any_order { PairsInAnyOrder }
    ensures by_parts { PairsByParts }
{}

/// Conflict is mutual, grows with the sets, and meets a merge where it meets one of its parts.
pub fn conflict_laws()
    ensures mutual { ConflictsAreMutual }
    ensures grows { ConflictsGrow }
    ensures by_parts { MergesConflictByParts }
    ensures decided { ConflictsAreDecided }
    ensures empty { NothingConflictsWithEmpty }
{}

/// Sets are independent, so that neither has what the other writes, exactly where they don't conflict.
pub fn independence_laws()
    ensures without_conflict { IndependentWithoutConflict }
    ensures decided { IndependenceIsDecided }
    ensures mutual { IndependenceIsMutual }
{}

/// Lying within a set is a partial order, in which a merge is the least set that holds both.
pub fn within_laws()
    ensures reflexive { WithinIsReflexive }
    ensures transitive { WithinIsTransitive }
    ensures antisymmetric { WithinIsAntisymmetric }
    ensures by_members { WithinByMembers }
    ensures empty { EmptyIsWithinAll }
    ensures merge_holds_both { MergesHoldBoth }
    ensures merge_is_least { MergesAreLeast }
{}
