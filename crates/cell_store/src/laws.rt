ghost use Rattle.cell_store.specs.Laws.{LookupsDetermineCells, LookupsDetermineParts, TakenByLocation, GivenByLocation, PartsByLocation, WritesByLocation, ShellsByLocation, GivesBackWhatWasTaken, TakesBackWhatWasGiven, GivingForgetsTaking, TakingForgetsGiving, RegainsWhatWasGiven, IndependentOrder, IndependentTake, IndependentGive, WritesAtHome, HomesByLocation, HomesAreValues, AgreementLasts, GivesNewValues, ValueChanges};

/// What is taken and given, one location at a time.
pub fn location_laws<V>()
    ensures determine_cells { LookupsDetermineCells V }
    ensures determine_parts { LookupsDetermineParts V }
    ensures taken { TakenByLocation V }
    ensures given { GivenByLocation V }
    ensures parts { PartsByLocation V }
    ensures writes { WritesByLocation V }
    ensures shells { ShellsByLocation V }
{}

/// What is given back as it was taken changes nothing, nor what is taken back as it was given.
pub fn return_laws<V>()
    ensures gives_back { GivesBackWhatWasTaken V }
    ensures takes_back { TakesBackWhatWasGiven V }
    ensures giving_forgets { GivingForgetsTaking V }
    ensures taking_forgets { TakingForgetsGiving V }
    ensures regains { RegainsWhatWasGiven V }
{}

/// Sets without a conflict can be taken and given in any order, and leave each other's cells as they are.
pub fn independence_laws<V>()
    ensures order { IndependentOrder V }
    ensures take { IndependentTake V }
    ensures give { IndependentGive V }
{}

/// A write of a cell that is home is the write of the part that has it.
pub fn home_laws<V>()
    ensures { WritesAtHome V }
{}

/// Cells that are all home are their values, and agree with them while some are out.
pub fn value_laws<V>()
    ensures homes { HomesByLocation V }
    ensures values { HomesAreValues V }
    ensures agreement { AgreementLasts V }
    ensures new_values { GivesNewValues V }
    ensures changes { ValueChanges V }
{}
