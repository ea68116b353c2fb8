//! Laws of legal trees: the contract of each function is a law, and there is nothing to run.
ghost use Rattle.bz_grammar.specs.Joined.{BzlLinesJoin, LinesJoin};
ghost use Rattle.bz_grammar.specs.Laws.{EachStatementHasALine, GapsByNodes, KindOfNumber, LegalByNodes, OneFile, OneReading, OneBzlReading, OneTree};
ghost use Rattle.bz_grammar.specs.Split.{LinesSplit};
ghost use Rattle.bz_grammar.specs.Worked.{WorkedLines};

use crate::tree::Tree;

/// No text has two legal trees.
pub fn one_tree(tree: &Tree, other: &Tree)
    ensures { OneTree tree.now other.now }
{
    let _root = &tree.root;
    let _other = &other.root;
}

/// No text reads as two trees of BUILD files.
pub fn one_reading()
    ensures { OneReading }
{}

/// No .bzl text reads as two trees.
pub fn one_bzl_reading()
    ensures { OneBzlReading }
{}

/// No leaves are those of two files whose statements have their indents.
pub fn one_file()
    ensures { OneFile }
{}

/// A tree is legal by its nodes exactly where it is legal by its leaves in a row.
pub fn legal_by_nodes()
    ensures gaps { GapsByNodes }
    ensures legal { LegalByNodes }
{}

/// A text of whole lines and a text after it read as the lines of both, in the grammar of BUILD files and in that of `.bzl` files.
pub fn lines_join()
    ensures build { LinesJoin }
    ensures bzl { BzlLinesJoin }
{}

/// The lines in front of a part of a legal file are a legal file, and so is what is after them.
pub fn lines_split()
    ensures { LinesSplit }
{}

/// The lines of a tree are those of its statements, wherever in it they are.
pub fn each_statement_has_a_line()
    ensures { EachStatementHasALine }
{}

/// The lines of the statements of one small text.
pub fn worked_lines()
    ensures { WorkedLines }
{}

/// Each kind is the kind of its number.
pub fn kind_of_number()
    ensures { KindOfNumber }
{}
