//! Whether a step leads to a legal tree, by the statements that it touches: only these are read anew. What can't be read for want of memory is
//! not found to be legal.
ghost use Rattle.std.specs.Prelude.{◌≡◌, ◌≤◌, [], ◌∷◌, IsTrue, length};
ghost use Rattle.std.specs.List.{AllByRecursion};
ghost use Rattle.bz_resume.specs.Words.{Node, LegalBuild, spell_node, limit, file_with, bare_end, swap_node, IsTree};
ghost use Rattle.bz_resume.specs.private.Alone.{AreAlone, AreLined, AreTouchedAlone, EndsLine, IsAlone, IsAloneAt, IsHeldAlone, IsTouchedAlone};

use bz_edit::Edit;
use bz_grammar::{Class, Node, Part, Tree};
use bz_tree::parse;
use std::alloc::Global;

/// Whether the part is the end of a text, with nothing before it.
fn is_bare_end(part: &Part) -> bool
    ensures { IsTrue result → part.now ≡ bare_end }
{
    match part {
        Part::Leaf(leaf) => leaf.class == Class::End
            && leaf.gap.len() == 0
            && leaf.token.len() == 0,
        Part::Node(_) => false,
    }
}

/// Whether a tree is that of a file which has this part alone.
fn has_alone(tree: &Tree, part: &Part) -> bool
    ensures { IsTrue result → tree.now ≡ file_with (part.now ∷ bare_end ∷ []) }
{
    match tree.root.parts.as_slice() {
        [own, end] => own.equals(part) && is_bare_end(end),
        _ => false,
    }
}

/// The bytes of the longest statement that is read beside the tree that holds it: two trees take most of the memory of a run.
const STATEMENT_LIMIT: usize = 1 << 20;

/// Whether a text reads as a file that has this part alone.
fn reads_alone(alloc: Global, text: &[u8], part: &Part) -> bool
    ensures { IsTrue result → LegalBuild (file_with (part.now ∷ bare_end ∷ [])) }
{
    match parse(alloc, text) {
        Ok(tree) => has_alone(&tree, part),
        Err(_) => false,
    }
}

/// Whether a statement is found to be a legal file by itself: its text is read.
fn is_alone(part: &Part) -> bool
    ensures { IsTrue result → IsAlone part.now }
{
    let Part::Node(node) = part else {
        return false;
    };
    let alloc = node.parts.alloc();
    let mut text = Vec::new(alloc);
    if node.spell_into(&mut text).is_err() || text.len() > STATEMENT_LIMIT {
        return false;
    }
    reads_alone(alloc, text.as_slice(), part)
}

/// Whether a statement ends with a line feed of its own.
fn ends_line(part: &Part) -> bool
    ensures { IsTrue result → EndsLine part.now }
{
    let Part::Node(node) = part else {
        return false;
    };
    let Some((last, _)) = node.parts.as_slice().split_last() else {
        return false;
    };
    match last {
        Part::Leaf(leaf) => leaf.token.as_slice() == b"\n".as_slice(),
        Part::Node(_) => false,
    }
}

/// Whether each statement of a file ends with a line feed of its own.
fn are_lined(parts: &[Part]) -> bool
    ensures { IsTrue result → AreLined parts.now }
{
    match parts.split_last() {
        Some((Part::Leaf(_), lines)) => lines.iter().all(ends_line),
        _ => false,
    }
}

/// Whether the statement of a number is found to be a legal file by itself, as that of another number is known to be.
fn is_alone_at(parts: &[Part], at: usize, known: usize) -> bool
    requires { IsAloneAt parts.now known }
    ensures { IsTrue result → IsAloneAt parts.now at }
{
    at == known || bz_items::at(parts, at).is_some_and(is_alone)
}

/// Whether all edits are made in statements, each of which is found to be a legal file by itself now. Edits of one statement follow
/// one another, so it is read once.
fn are_made_alone(parts: &[Part], edits: &[Edit]) -> bool
    ensures { IsTrue result → AllByRecursion (IsTouchedAlone parts.now) edits.now }
{
    let mut known = parts.len();
    for edit in edits {
        match edit.path.as_slice() {
            [at, ..] if is_alone_at(parts, *at as usize, known) => known = *at as usize,
            _ => return false,
        }
    }
    true
}

/// Whether each of the parts is found to be a legal file by itself.
fn are_alone(parts: &[Part]) -> bool
    ensures { IsTrue result → AreAlone parts.now }
{
    parts.iter().all(is_alone)
}

/// Whether an edit puts statements into the file, each of which is found to be a legal file by itself.
fn is_held_alone(edit: &Edit) -> bool
    ensures { IsTrue result → IsHeldAlone edit.now }
{
    edit.path.is_empty() && are_alone(edit.held.as_slice())
}

/// Whether what a step touches is found to be legal by itself.
fn are_touched_alone(parts: &[Part], edits: &[Edit]) -> bool
    ensures { IsTrue result → AreTouchedAlone parts.now edits.now }
{
    match edits {
        [first, ..] if first.path.is_empty() => edits.iter().all(is_held_alone),
        _ => are_made_alone(parts, edits),
    }
}

/// Whether the tree to which a step led from a legal one is found to be legal by what the step touched: each statement ends with
/// a line feed of its own, and those that were touched are legal by themselves. `false` says nothing.
pub(crate) fn is_led_to(node: &Node, edits: &[Edit]) -> bool
    ensures { (from : Node) → IsTree from → node.now ≡ swap_node edits.now from → length (spell_node node.now) ≤ limit → IsTrue result → IsTree node.now }
{
    let parts = node.parts.as_slice();
    if !are_lined(parts) {
        return false;
    }
    are_touched_alone(parts, edits)
}
