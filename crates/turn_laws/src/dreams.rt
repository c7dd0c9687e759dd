//! Laws of lists of supposed entries and of dreams, each the contract of a function that does
//! nothing.
ghost use Rattle.turn_laws.specs.DreamLaws.{SupposedListsAreOne, MoreAreTooMany, ListsHaveSupport, PlansIgnoreNames, DreamsAreOne, ADreamAsks};

/// There is one list of supposed entries after so many passes.
pub fn supposed_lists_are_one()
    ensures { SupposedListsAreOne }
{}

/// Where more entries than so many are supposed, the list has more.
pub fn more_are_too_many()
    ensures { MoreAreTooMany }
{}

/// Each entry of the list has support among those before it.
pub fn lists_have_support()
    ensures { ListsHaveSupport }
{}

/// Whether a plan is valid doesn't rest on the names of objects.
pub fn plans_ignore_names()
    ensures { PlansIgnoreNames }
{}

/// What a dream uses determines its entries.
pub fn dreams_are_one()
    ensures { DreamsAreOne }
{}

/// Behind a dream something is asked.
pub fn a_dream_asks()
    ensures { ADreamAsks }
{}
