//! The view of a tree as a file value, of one that stays and of one that is given up.
ghost use Rattle.std.specs.Prelude.{◌≡◌, ◌<◌, ◌+◌, [], ◌++◌, map, drop, length, true, IfOk, IsTrue, OnOk};
ghost use Rattle.bz_hosts.specs.Words.{is_kind as has_kind, Node, times, Bytes, all_but_last, groups_of, last_group, lines_of};
ghost use Rattle.bz_hosts.specs.Kept.{occurrences};
ghost use Rattle.bz_hosts.specs.Seen.{blocks, seen, statements_in};
ghost use Rattle.bz_hosts.specs.Suites.{indented_lines_before, stated};
ghost use Rattle.bz_hosts.specs.SuitesJoined.{EndsWithStatement, lines_at_end};
ghost use Rattle.bz_hosts.specs.View.{items_from, view_of};
ghost use Rattle.bz_hosts.specs.private.FileParts.{MovesOn};

use crate::before::{gap_at, gap_of_last, is_followed};
use crate::commented::push_statement;
use crate::expr::push_expr;
use crate::groups::push_groups;
use crate::headers::is_kind;
use crate::joined::ends_in_line;
use crate::moved::{DEPTH, drop_row, give_back, push_moved};
use crate::rest::{Rest, is_spent};
use crate::suites::{gap_after, items_of, push_part};
use bz_grammar::{Kind, Part, Tree};
use bz_items::{Items, Memory, Text};
use bz_value::{File, Item, past_first_line};
use std::alloc::Global;
use std::mem;

/// The file value of a tree: its statements without gaps, those of suites too, each comment at its host, and as often in the value as
/// in the tree's gaps. The error: memory was refused.
pub fn view(alloc: Global, tree: &Tree) -> Result<File, Memory>
    ensures value { IfOk result (λ file. file ≡ view_of tree.now) }
    ensures comments { IfOk result (λ file. (text : Bytes) → times text file ≡ occurrences text tree.now) }
{
    let items = items_of(alloc, tree.root.parts.as_slice())?;
    Ok(File { items })
}

/// What `into_view` gives, and whether the text of the tree ends with the newline of a statement that leaves no line to what follows: then
/// one that `begins_bare` may follow it. The error: memory was refused.
#[tactic(auto, using(crate::proofs::JoinedFiles::ends_with_statement))]
pub fn into_front(alloc: Global, tree: Tree) -> Result<(File, bool), Memory>
    ensures file { IfOk result (λ seen. seen.0 ≡ view_of tree) }
    ensures ends { IfOk result (λ seen. IsTrue seen.1 → EndsWithStatement tree) }
{
    let Tree { root } = tree;
    let ends = ends_in_line(root.parts.as_slice());
    let (items, is_spent) = into_items(alloc, root.parts)?;
    Ok((File { items }, is_spent && ends))
}

/// The file value that `view` makes, of a tree that is given up: the tokens of its lines are moved, and each line of it is dropped as
/// soon as its items are made, a long one piece by piece, so that the whole tree is not held beside the whole value. The error: memory
/// was refused.
pub fn into_view(alloc: Global, tree: Tree) -> Result<File, Memory>
    ensures value { IfOk result (λ file. file ≡ view_of tree) }
    ensures comments { IfOk result (λ file. (text : Bytes) → times text file ≡ occurrences text tree) }
{
    let Tree { root } = tree;
    let (items, _) = into_items(alloc, root.parts)?;
    Ok(File { items })
}

/// Whether a part is a line of statements.
fn is_line(part: &Part) -> bool
    ensures { IsTrue result → (node : Node) × (part.now ≡ Part.Node node) × (has_kind node.kind Kind.Line ≡ true) }
{
    match part {
        Part::Leaf(_) => false,
        Part::Node(node) => is_kind(node.kind, Kind::Line),
    }
}

/// Takes the parts out of a node.
fn take_parts(part: &mut Part, alloc: Global) -> Items<Part>
    ensures { (node : Node) → part.old ≡ Part.Node node → result ≡ node.parts }
{
    match part {
        Part::Leaf(_) => Items::new(alloc),
        Part::Node(node) => mem::replace(&mut node.parts, Items::new(alloc)),
    }
}

/// Of this many items or fewer the room beside them is let be.
const FEW: usize = 64;

/// The same items, without the room beside them, which is as much again after a growth.
pub(crate) fn without_room(items: Items<Item>) -> Items<Item>
    ensures { result ≡ items }
{
    let mut made = items.into_vec();
    if made.capacity() > FEW {
        made.shrink_to_fit();
    }
    Items::from_vec(made)
}

/// Appends the statements of a line, the first with these comments above it.
pub(crate) fn push_statements(
    parts: &[Part],
    above: Items<Text>,
    items: &mut Items<Item>,
) -> Result<(), Memory>
    ensures { OnOk result (items.new ≡ items.old ++ statements_in above (map seen parts.now)) }
{
    let mut before = above;
    let mut exprs = Vec::with_capacity(items.alloc(), 1)?;
    let mut at = 0;
    while is_followed(parts, at) {
        push_expr(&parts[at], false, &mut before, &mut exprs)?;
        push_statement(parts, at + 1, &mut before, &mut exprs, items)?;
        at += 2;
    }
    Ok(())
}

/// What `items_of` gives of parts that are given up, and whether no line is left before the end. Each line is dropped before the next one
/// is looked at. The error: memory was refused.
fn into_items(alloc: Global, parts: Items<Part>) -> Result<(Items<Item>, bool), Memory>
    ensures items { IfOk result (λ seen. seen.0 ≡ items_from (indented_lines_before (map stated parts) []) parts) }
    ensures left { IfOk result (λ seen. IsTrue seen.1 → lines_at_end (indented_lines_before (map stated parts) []) parts ≡ []) }
{
    let mut items = Items::from_vec(Vec::with_capacity(alloc, parts.len())?);
    let mut parts = parts.into_vec();
    if parts.is_empty() {
        return Ok((items, true));
    }
    let gap = gap_at(parts.as_slice(), 0);
    let (mut above, mut spent) = push_before(&[], gap, parts.len() == 1, &mut items)?;
    let mut at = 0;
    while is_followed(parts.as_slice(), at) {
        let (next, is_spent) = push_moved_part(&mut parts, at, above, &mut items)?;
        above = next;
        spent = is_spent;
        at += 1;
    }
    push_part(&parts[at], above, &[], &mut items)?;
    drop_row(parts);
    Ok((without_room(items), spent))
}

/// Appends the groups of comment lines of two gaps that follow each other before a part; gives the comments right above it, and of the last
/// part whether no line is before it.
fn push_before(
    left: &[u8],
    gap: &[u8],
    is_last: bool,
    items: &mut Items<Item>,
) -> Result<(Items<Text>, bool), Memory>
    ensures items { OnOk result (items.new ≡ items.old ++ blocks (all_but_last (groups_of (lines_of left.now ++ lines_of gap.now)))) }
    ensures above { IfOk result (λ next. next.0 ≡ last_group (groups_of (lines_of left.now ++ lines_of gap.now))) }
    ensures spent { IfOk result (λ next. IsTrue next.1 → lines_of left.now ++ lines_of gap.now ≡ []) }
{
    let above = push_groups(left, gap, items)?;
    Ok((above, is_last && is_spent(Rest { left, gap })))
}

/// Appends the items of the part with this index, where these comments are above it, and the groups before the next part; gives for that
/// what `push_before` gives. A line is given up.
fn push_moved_part(
    parts: &mut Vec<Part>,
    at: usize,
    above: Items<Text>,
    items: &mut Items<Item>,
) -> Result<(Items<Text>, bool), Memory>
    requires { at + 1 < length parts.old.items }
    ensures count { OnOk result (length parts.new.items ≡ length parts.old.items) }
    ensures rest { OnOk result (drop (at + 1) parts.new.items ≡ drop (at + 1) parts.old.items) }
    ensures turn { IfOk result (λ next. MovesOn parts.old.items at above next.0 next.1 items.old items.new) }
{
    let is_last = parts.len() - at == 2;
    if is_line(&parts[at]) {
        let line = take_parts(&mut parts[at], items.alloc());
        // what the Newline leaves, mostly nothing
        let left = Text::from_slice(items.alloc(), past_first_line(gap_of_last(line.as_slice())))?;
        push_moved_statements(line, above, items)?;
        let gap = gap_after(parts.as_slice(), at + 1, &[]);
        let next = push_before(left.as_slice(), gap, is_last, items)?;
        return Ok(next);
    }
    let gap = gap_after(parts.as_slice(), at + 1, &[]);
    let rest = push_part(&parts[at], above, gap, items)?;
    let next = push_before(rest.left, rest.gap, is_last, items)?;
    Ok(next)
}

/// Appends the statements of a line, which are given up, the first with these comments above it.
fn push_moved_statements(
    parts: Items<Part>,
    above: Items<Text>,
    items: &mut Items<Item>,
) -> Result<(), Memory>
    ensures { OnOk result (items.new ≡ items.old ++ statements_in above (map seen parts)) }
{
    let mut left = parts.into_vec();
    let mut above = above;
    let mut exprs = Vec::with_capacity(items.alloc(), 1)?;
    let mut at = 0;
    while is_followed(left.as_slice(), at) {
        push_moved(&mut left[at], DEPTH, false, &mut above, &mut exprs)?;
        push_statement(left.as_slice(), at + 1, &mut above, &mut exprs, items)?;
        at = give_back(at + 2, &mut left);
    }
    drop_row(left);
    Ok(())
}
