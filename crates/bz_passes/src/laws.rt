//! Facts about the definitions, for readers: the functions do nothing.
ghost use Rattle.bz_passes.specs.Joined.{TidiedAlone, TidiedApart};
ghost use Rattle.bz_passes.specs.Laws.{BuildStays, FlagsSettle, LevelKeepsComments, LevelKeepsProgram, LevelStays, ProperStays, SortingIsTheOne, TidySettles, TidyStays, TidyingKeepsComments};
ghost use Rattle.bz_passes.specs.Lists.{MarksMove};
ghost use Rattle.bz_passes.specs.Programs.{KeptProgramsKeepTokens, TidyingKeepsProgram};
ghost use Rattle.bz_passes.specs.Rows.{WorkedPasses, WorkedPrograms};

/// Worked rows of the passes.
pub fn worked_passes()
    ensures { WorkedPasses }
{}

/// Worked rows of what is the same program, and of what isn't.
pub fn worked_programs()
    ensures { WorkedPrograms }
{}

/// What is tidy stays as it is.
#[tactic(auto, using(crate::proofs::Cases::tidy_stays))]
pub fn tidy_stays()
    ensures { TidyStays }
{}

/// What is tidy is settled: its flags are what the layout makes of them.
#[tactic(auto, using(crate::proofs::Cases::tidy_settles))]
pub fn tidy_settles()
    ensures { TidySettles }
{}

/// What is level stays as it is.
#[tactic(auto, using(crate::proofs::Inner::flags_settled))]
pub fn level_stays()
    ensures { LevelStays }
{}

/// Each comment is in what is level as often as before.
pub fn level_keeps_comments()
    ensures { LevelKeepsComments }
{}

/// What is level is the same program.
#[tactic(auto, using(crate::proofs::SameSyntax::flags_program))]
pub fn level_keeps_program()
    ensures { LevelKeepsProgram }
{}

/// What the layout breaks stays broken once flags are settled.
pub fn flags_settle()
    ensures { FlagsSettle }
{}

/// Each comment is in the tidy file value as often as before.
pub fn comments_stay()
    ensures { TidyingKeepsComments }
{}

/// What is sorted is the one list in order that has the same items, with ties in their old order; where only some items are
/// compared, each longest run of them is.
#[tactic(auto, using(crate::proofs::Stable::sorting_is_the_one))]
pub fn sorting_is_the_one()
    ensures { SortingIsTheOne }
{}

/// A list is sorted as if its items were put in order, repeats dropped, and the `keep sorted` comments moved then: from
/// its old first item to the new one.
#[tactic(auto, using(crate::proofs::Listed::marks_move))]
pub fn marks_move()
    ensures { MarksMove }
{}

/// Items of a BUILD file that are after others are tidied apart, where the first of them is no load that is sorted with its neighbours.
#[tactic(auto, using(crate::proofs::Cases::tidied_apart))]
pub fn tidied_apart()
    ensures { TidiedApart }
{}

/// An item of a BUILD file is tidied by itself as it is in a file of its own.
#[tactic(auto, using(crate::proofs::Cases::tidied_alone))]
pub fn tidied_alone()
    ensures { TidiedAlone }
{}

/// Tidying a proper file value gives a proper file value.
pub fn proper_stays()
    ensures { ProperStays }
{}

/// What a BUILD file can say stays so when it is tidied.
#[tactic(auto, using(crate::proofs::Cases::build_stays))]
pub fn build_stays()
    ensures { BuildStays }
{}

/// Tidying keeps the program of a file value: no more is changed than the marks of quotes, labels that mean the same, repeats in
/// lists that are sorted, and the order of the items of these, of named arguments, of the symbols of a load and of loads.
#[tactic(auto, using(crate::proofs::Cases::program_stays))]
pub fn program_stays()
    ensures { TidyingKeepsProgram }
{}

/// Where a program is kept, each token that is no string occurs as often: no name, number, keyword or mark is lost, and none comes.
#[tactic(auto, using(crate::proofs::TokensKept::tokens_kept))]
pub fn tokens_stay()
    ensures { KeptProgramsKeepTokens }
{}
