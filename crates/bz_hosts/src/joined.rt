//! Where a text may be cut: after a line, so that what follows is read and viewed by itself.
ghost use Rattle.std.specs.Prelude.{IsTrue};
ghost use Rattle.bz_hosts.specs.Joined.{EndsWithLine};
ghost use Rattle.bz_hosts.specs.SuitesJoined.{BeginsBare, EndsInLine, EndsInNewline};

use crate::before::gap_at;
use crate::rest::comment_in;
use bz_grammar::{Part, Tree};
use bz_value::past_first_line;

/// Whether the text of the tree ends with the newline of its last line, which is a line feed, and leaves nothing to what follows: a text
/// after it is read and viewed by itself.
pub fn ends_with_line(tree: &Tree) -> bool
    ensures { IsTrue result → EndsWithLine tree.now }
{
    let Some((Part::Leaf(end), lines)) = tree.root.parts.as_slice().split_last() else {
        return false;
    };
    let Some((Part::Node(line), _)) = lines.split_last() else {
        return false;
    };
    let Some((Part::Leaf(newline), _)) = line.parts.as_slice().split_last() else {
        return false;
    };
    if !end.gap.as_slice().is_empty() {
        return false;
    }
    newline.token.as_slice() == b"\n".as_slice()
        && past_first_line(newline.gap.as_slice()).is_empty()
}

/// Whether the last token of a part is a line feed.
fn ends_in_newline(part: &Part) -> bool
    ensures { IsTrue result → EndsInNewline part.now }
{
    match part {
        Part::Leaf(leaf) => leaf.token.as_slice() == b"\n".as_slice(),
        Part::Node(node) => match node.parts.as_slice().split_last() {
            Some((last, _)) => ends_in_newline(last),
            None => false,
        },
    }
}

/// Whether a file ends with the newline of its last statement.
pub(crate) fn ends_in_line(parts: &[Part]) -> bool
    ensures { IsTrue result → EndsInLine parts.now }
{
    let Some((Part::Leaf(end), lines)) = parts.split_last() else {
        return false;
    };
    let Some((line, _)) = lines.split_last() else {
        return false;
    };
    end.gap.as_slice().is_empty() && ends_in_newline(line)
}

/// Whether no comment is before the first token of a file.
#[tactic(auto, using(crate::proofs::JoinedFiles::bare_so))]
pub fn begins_bare(tree: &Tree) -> bool
    ensures { IsTrue result → BeginsBare tree.now }
{
    comment_in(gap_at(tree.root.parts.as_slice(), 0)).is_none()
}
