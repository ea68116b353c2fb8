//! Copies what many texts say, for tests/scenes/hostile_texts.py: with ample memory each copy is there, and equal to what was copied.
use bz_edit::{advance, exchange_node};
use bz_grammar::{Node, Part, Tree};
use bz_hosts::view;
use bz_tree::parse;
use bz_value::{File, Item};
use std::alloc::Global;

/// What is between two texts: no accepted text has it.
const NUL: u8 = 0;

/// Whether two nodes are equal.
pub(crate) fn are_equal(node: Node, other: Node) -> bool {
    Part::Node(node).equals(&Part::Node(other))
}

/// Whether a tree and its root are copied; `None`: a copy is not there.
fn is_tree_copied(tree: &Tree) -> Option<bool> {
    let is_copied = tree.copy().ok()?.equals(tree);
    Some(is_copied && are_equal(tree.root.copy().ok()?, tree.root.copy().ok()?))
}

/// Whether the expression of a statement is copied.
fn is_statement_copied(item: &Item) -> Option<bool> {
    match item {
        Item::Stmt(expression) => Some(expression.copy().ok()?.equals(expression)),
        Item::Block(_) => Some(true),
    }
}

/// Whether a value is copied, and each of its statements.
fn is_value_copied(file: &File) -> Option<bool> {
    let mut is_copied = file.copy().ok()?.equals(file);
    for item in file.items.as_slice() {
        is_copied = is_copied && is_statement_copied(item)?;
    }
    Some(is_copied)
}

/// Whether a copy of the step that leads back to the last tree does so.
fn is_step_copied(last: &Tree, tree: &Tree) -> Option<bool> {
    let mut next = last.copy().ok()?;
    let mut step = advance(&mut next, tree.copy().ok()?).ok()?.copy().ok()?;
    let mut root = tree.root.copy().ok()?;
    let is_exchanged = exchange_node(&mut root, &mut step).is_ok();
    Some(is_exchanged && are_equal(root, last.root.copy().ok()?))
}

/// Whether all that a tree says is copied, and the step from it to the tree before it.
fn is_copied(alloc: Global, last: &Tree, tree: &Tree) -> Option<bool> {
    let is_value = is_value_copied(&view(alloc, tree).ok()?)?;
    Some(is_value && is_tree_copied(tree)? && is_step_copied(last, tree)?)
}

/// Prints of each text, a line each, whether it is refused, or all that it says is copied.
pub(crate) fn answer_copies(rt: &HostRuntime, bytes: &[u8]) -> Option<()> {
    let alloc = rt.alloc();
    let mut last = parse(alloc, b"").ok()?;
    for text in bytes.split(|byte| *byte == NUL) {
        let Ok(tree) = parse(alloc, text) else {
            println!(rt; "refused").ok()?;
            continue;
        };
        let word = match is_copied(alloc, &last, &tree) {
            Some(true) => "copied",
            Some(false) => "another copy",
            None => "no copy",
        };
        println!(rt; "{word}").ok()?;
        last = tree;
    }
    Some(())
}
