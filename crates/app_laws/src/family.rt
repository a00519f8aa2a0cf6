ghost use Rattle.app_laws.specs.Family.{ChildrenAreApart, SiblingsAreApart, ChildrenAreNew, ChildrenGoOn, FirstTasksAreApart};

/// First tasks' paths are apart, and where no path is a prefix of another, a task's children keep
/// it so in its place. Their paths are new.
pub fn family_laws()
    ensures apart { ChildrenAreApart }
    ensures siblings { SiblingsAreApart }
    ensures new { ChildrenAreNew }
    ensures go_on { ChildrenGoOn }
    ensures first { FirstTasksAreApart }
{}
