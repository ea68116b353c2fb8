//! Facts about the definitions, for readers: the functions do nothing.
ghost use Rattle.bz_change.specs.Changes.{RenamedBack};
ghost use Rattle.bz_change.specs.Laws.{EntriesAddedAgain, EntriesAddedAreThere, EntriesSetAreThere, EntriesRemovedAgain, ListAddedTwice, SelectKeepsComments};

/// Renaming there and back gives the arguments before.
#[tactic(auto, using(crate::proofs::LawRenaming::renamed_back))]
pub fn renamed_back()
    ensures { RenamedBack }
{}

/// Adding entries whose keys are there changes nothing.
#[tactic(auto, using(crate::proofs::LawDicts::adding_again))]
pub fn adding_entries_again()
    ensures { EntriesAddedAgain }
{}

/// The key of each entry that was added is there afterwards.
#[tactic(auto, using(crate::proofs::LawDicts::added_there))]
pub fn added_entries_are_there()
    ensures { EntriesAddedAreThere }
{}

/// The key of each entry that was set is there afterwards.
#[tactic(auto, using(crate::proofs::LawDicts::set_there))]
pub fn set_entries_are_there()
    ensures { EntriesSetAreThere }
{}

/// Removing the keys of what was added to an absent attribute gives the arguments before.
#[tactic(auto, using(crate::proofs::LawDicts::removing_again))]
pub fn removing_entries_again()
    ensures { EntriesRemovedAgain }
{}

/// Adding values to the list of a key twice is adding them once.
#[tactic(auto, using(crate::proofs::LawLists::added_twice))]
pub fn adding_to_a_list_again()
    ensures { ListAddedTwice }
{}

/// A `select` in the place of no value takes no comment away.
#[tactic(auto, using(crate::proofs::LawLists::select_keeps))]
pub fn selects_keep_comments()
    ensures { SelectKeepsComments }
{}
