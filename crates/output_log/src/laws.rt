ghost use Rattle.output_log.specs.Laws.{PutsKeepOrder, PutsCommute, LastPutsAppend, PutsMeetOnePart, PutsTakeOneKey, EarlierEntriesComeFirst, PartsKeepOrder, AllAreBeforeEnd, TextsFollow, JoinsWithNone, JoinsWithOne, JoinsTakePuts, JoinsCommute, JoinsAssociate, JoinsKeepOrder, JoinsHaveAll, JoinsAddLengths, JoinsHaveTheKeysOfBoth, PartsJoin, LaterJoinsFollow, SilentJoinsAddNoText};

use task_order::key_order;

/// An entry that is put into a log comes to the same place whatever was put in before it.
pub fn put_laws()
    ensures order { PutsKeepOrder }
    ensures commutative { PutsCommute }
    ensures last { LastPutsAppend }
    ensures one_part { PutsMeetOnePart }
    ensures one_key { PutsTakeOneKey }
{
    key_order();
}

/// A log is its entries before a bound, followed by the others.
pub fn part_laws()
    ensures first { EarlierEntriesComeFirst }
    ensures order { PartsKeepOrder }
    ensures end { AllAreBeforeEnd }
    ensures texts { TextsFollow }
{}

/// The join of two logs by key has the entries of both, in order, however they are told apart.
pub fn join_laws()
    ensures none { JoinsWithNone }
    ensures one { JoinsWithOne }
    ensures puts { JoinsTakePuts }
    ensures commutative { JoinsCommute }
    ensures associative { JoinsAssociate }
    ensures order { JoinsKeepOrder }
    ensures all { JoinsHaveAll }
    ensures length { JoinsAddLengths }
    ensures keys { JoinsHaveTheKeysOfBoth }
    ensures parts { PartsJoin }
    ensures later { LaterJoinsFollow }
    ensures silent { SilentJoinsAddNoText }
{
    key_order();
}
