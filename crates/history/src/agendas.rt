// What is on a page is pinned by its relation.
ghost use Rattle.history.specs.Laws.{OneList, SameMembers};
ghost use Rattle.history.specs.StepLaws.{LawOfAgenda};

// The choice of occurrences gives exactly one list in order.
pub fn one_list()
    ensures { OneList }
{}

// Where the occurrences come from, and in which order, does not matter.
pub fn members_alone()
    ensures { SameMembers }
{}

// The agenda of the plans is the agenda of the history.
pub fn agendas_are_explained()
    ensures { LawOfAgenda }
{}
