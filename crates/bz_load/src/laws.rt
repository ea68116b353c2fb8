//! Facts about the definitions, for readers: the functions do nothing.
ghost use Rattle.bz_load.specs.Laws.{LoadsKeepComments, FixedAgain, LoadedAgain, LoadsStayProper, MovedAgain, ReplacedAgain, ReplacedAlone, UnusedAgain};
ghost use Rattle.bz_load.specs.UsageLaws.{ReposAddedAgain, ReposKeepComments, ReposThereAndBack, UsagesStayProper};
ghost use Rattle.bz_load.specs.Worked.{WorkedLoads, WorkedReplacements};
ghost use Rattle.bz_load.specs.WorkedUsages.{WorkedUsages};

/// Worked rows: what the commands on loads make of small files.
pub fn worked_loads()
    ensures loads { WorkedLoads }
    ensures replacements { WorkedReplacements }
{}

/// What the commands on loads make of proper items is proper.
#[tactic(auto, using(crate::proofs::LawReplaced::loads_stay_proper))]
pub fn loads_stay_proper()
    ensures { LoadsStayProper }
{}

/// Loading the same symbols once more changes nothing.
#[tactic(auto, using(crate::proofs::LawAgain::loaded_again))]
pub fn loading_again()
    ensures { LoadedAgain }
{}

/// Symbols that are replaced are loaded from the path alone.
pub fn loading_alone()
    ensures { ReplacedAlone }
{}

/// Replacing the same symbols once more changes nothing.
#[tactic(auto, using(crate::proofs::ReplacedAgain::replaced_again))]
pub fn replacing_again()
    ensures { ReplacedAgain }
{}

/// Dropping unused symbols twice is dropping them once.
#[tactic(auto, using(crate::proofs::LawAgain::unused_again))]
pub fn dropping_again()
    ensures { UnusedAgain }
{}

/// Moving the only package twice is moving it once.
#[tactic(auto, using(crate::proofs::LawAgain::moved_again))]
pub fn moving_again()
    ensures { MovedAgain }
{}

/// Mending twice is mending once, where there is no second package and no load goes.
#[tactic(auto, using(crate::proofs::LawAgain::fixed_again))]
pub fn fixing_again()
    ensures { FixedAgain }
{}

/// The commands on loads lose no comment, and make none.
#[tactic(auto, using(crate::proofs::LawReplaced::comments_stay))]
pub fn comments_stay()
    ensures { LoadsKeepComments }
{}

/// Worked rows: what the commands on repositories make of small files.
pub fn worked_usages()
    ensures { WorkedUsages }
{}

/// What the commands on repositories make of proper items is proper.
#[tactic(auto, using(crate::proofs::ProperUsages::usages_stay_proper))]
pub fn usages_stay_proper()
    ensures { UsagesStayProper }
{}

/// Repositories that are added lose no comment, and make none.
#[tactic(auto, using(crate::proofs::LawUsages::repos_keep_comments))]
pub fn repos_keep_comments()
    ensures { ReposKeepComments }
{}

/// Adding the same repositories once more changes nothing.
#[tactic(auto, using(crate::proofs::LawRepos::repos_added_again))]
pub fn adding_repos_again()
    ensures { ReposAddedAgain }
{}

/// Removing what was added, where there was no call, gives back what there was.
pub fn repos_there_and_back()
    ensures { ReposThereAndBack }
{}
