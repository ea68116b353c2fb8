//! Facts about the definitions, for readers: the functions do nothing.
ghost use Rattle.bz_list.specs.Laws.{AddedAgain, AddedIsThere, RemovedAgain, RemovedIsGone, RemovedTwice};

/// Adding what is there changes nothing.
#[tactic(auto, using(crate::proofs::LawAdded::adding_again))]
pub fn adding_again()
    ensures { AddedAgain }
{}

/// What was added is an item of the attribute's lists afterwards.
#[tactic(auto, using(crate::proofs::LawAdded::added_is_there))]
pub fn added_is_there()
    ensures { AddedIsThere }
{}

/// Removing what was added to an absent attribute gives the arguments before.
#[tactic(auto, using(crate::proofs::LawAdded::removing_again))]
pub fn removing_again()
    ensures { RemovedAgain }
{}

/// What was removed is gone afterwards from all lists that the command looks at.
#[tactic(auto, using(crate::proofs::LawRemoved::removed_is_gone))]
pub fn removed_is_gone()
    ensures { RemovedIsGone }
{}

/// Removing twice is removing once.
#[tactic(auto, using(crate::proofs::LawRemoved::removing_twice))]
pub fn removing_twice()
    ensures { RemovedTwice }
{}
