//! Laws of leaves: the contract of each function is a law, and there is nothing to run.
ghost use Rattle.bz_lex.specs.Laws.{CodedLeaves, OneLexing};

/// No text has two lists of leaves.
pub fn one_lexing()
    ensures { OneLexing }
{}

/// The leaves of a text of characters are texts of characters, and leaves that are such spell one.
pub fn coded_leaves()
    ensures { CodedLeaves }
{}
