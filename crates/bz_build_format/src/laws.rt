//! Facts about the definitions, for readers and for the proofs of other crates: the functions do nothing.
ghost use Rattle.bz_build_format.specs.Fixed.{BzlFixedPoint, FixedPoint, FormattingKeepsTokens, FormattingKeepsWords, TreeProgramsKeepTokens, WritingKeepsProgram};
ghost use Rattle.bz_build_format.specs.TreePrograms.{ViewsKeepPrograms};

use bz_grammar::laws::{one_bzl_reading, one_reading};
use bz_hosts::{build_views, comments_kept, views_are_proper};
use bz_layout::{build_layout_is_build, layout_is_accepted, layout_reads_back};
use bz_passes::{
    build_stays, comments_stay, level_keeps_comments, level_keeps_program, level_stays,
    program_stays, proper_stays, tidy_settles, tidy_stays, tokens_stay,
};

/// A formatted text is formatted to itself, its value is that of the text it was made of, tidied, each comment is in it
/// as often as in that text, and the program of that text is kept, with each token of it that is no string as often.
pub fn formatted_once()
    ensures { FixedPoint }
{
    one_reading();
    views_are_proper();
    build_views();
    comments_kept();
    layout_is_accepted();
    build_layout_is_build();
    layout_reads_back();
    proper_stays();
    build_stays();
    tidy_settles();
    tidy_stays();
    comments_stay();
    program_stays();
    tokens_stay();
    views_keep_programs();
}

/// The program of the value of a tree is that of the tree: nothing is lost but gaps, brackets and the marks between parts.
#[tactic(auto, using(crate::proofs::SeenPrograms::views_keep_programs))]
pub fn views_keep_programs()
    ensures { ViewsKeepPrograms }
{}

/// Each token of a text is in its program as often, and in the formatted text as often as in the text, but for strings, commas,
/// semicolons, brackets and newlines.
#[tactic(auto, using(crate::proofs::TreeWords::tree_tokens, crate::proofs::TreeWords::formatted_tokens))]
pub fn tokens_kept()
    ensures program { TreeProgramsKeepTokens }
    ensures formatted { FormattingKeepsTokens }
{
    formatted_once();
}

/// The text that is written of a proper value of a BUILD file, as of what a command makes of one, keeps the value's program.
pub fn writing_keeps_program()
    ensures { WritingKeepsProgram }
{
    one_reading();
    layout_is_accepted();
    build_layout_is_build();
    layout_reads_back();
    proper_stays();
    build_stays();
    tidy_settles();
    program_stays();
}

/// A formatted text is formatted to itself, it says what the text says that it was made of, levelled, each comment is in it
/// as often as in that text, and the program is the same.
pub fn formatted_suites_once()
    ensures { BzlFixedPoint }
{
    one_bzl_reading();
    level_stays();
    comments_kept();
    level_keeps_comments();
    level_keeps_program();
    views_keep_programs();
}

/// The formatted text of a text that may have suites has the same tokens in the same order, but for commas, semicolons, colons, brackets and newlines.
#[tactic(auto, using(crate::proofs::TreeWords::formatted_words))]
pub fn words_kept()
    ensures { FormattingKeepsWords }
{
    formatted_suites_once();
}
