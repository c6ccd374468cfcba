// After each call the fed history explains what the diary holds.
ghost use Rattle.history.specs.StepLaws.{LawOfBlank, LawOfChange, LawOfEnter, LawOfCommit, LawOfUndo, LawOfDrafts, LawOfCheck};

// An empty diary has no history.
pub fn blank_is_explained()
    ensures { LawOfBlank }
{}

// Any change, and so an enter and the commit of each edit, adds its item.
pub fn changes_are_explained()
    ensures any { LawOfChange }
    ensures enter { LawOfEnter }
    ensures commit { LawOfCommit }
{}

// An undo takes the newest item away, whichever it is.
pub fn undo_is_explained()
    ensures { LawOfUndo }
{}

// Drafts change nothing until their commit.
pub fn drafts_are_explained()
    ensures drafts { LawOfDrafts }
    ensures check { LawOfCheck }
{}
