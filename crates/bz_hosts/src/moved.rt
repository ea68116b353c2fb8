//! The expression of a part that is given up: its tokens are moved into it, and what was walked over of a long row is given back
//! on the way, so that a row and what is made of it are not held at once as wholes.
ghost use Rattle.std.specs.Prelude.{◌≡◌, ◌∷◌, [], ◌++◌, ◌-◌, ◌<◌, ◌≤◌, length, map, drop, false, IfOk, OnOk};
ghost use Rattle.bz_hosts.specs.Words.{no_comments, frame};
ghost use Rattle.bz_hosts.specs.Seen.{form_of_frame, loose_in, loose_of, row_exprs, seen, seq_in};

use crate::before::{breaks_from, is_followed, is_operator_in};
use crate::commented::comment_last;
use crate::expr::{form_of, head_of, push_form, token_of};
use crate::marks::{breaks_after, breaks_operator, opens, push_gap};
use bz_grammar::{Node, Part};
use bz_items::{Items, Memory, Text};
use bz_value::{EndComments, Expr, Seq, is_binary, is_sequence, lead_of};
use std::alloc::Global;
use std::mem;

/// At least this many parts are given back at once.
const MANY: usize = 4096;

/// In what is nested deeper than this in a statement, nothing is given up before the whole is: hardly a file is as deep, and the walk that
/// gives up takes half as much more of the stack for each level as the one that looks.
pub(crate) const DEPTH: usize = 32;

/// Gives back what was walked over of a row, where it is long and a quarter of what is there. Returned: the index that the part with
/// this index has then, which is not the first.
#[inline(always)]
pub(crate) fn give_back(at: usize, parts: &mut Vec<Part>) -> usize
    requires later { 0 < at }
    requires within { at ≤ length parts.old.items }
    ensures rest { drop result parts.new.items ≡ drop at parts.old.items }
    ensures left { length parts.new.items - result ≡ length parts.old.items - at }
    ensures within { result ≤ length parts.new.items }
    ensures later { 0 < result }
{
    let gone = at - 1;
    if gone < MANY || gone < parts.len() / 4 {
        return at;
    }
    let kept = parts.len() - gone;
    parts.rotate_left(gone);
    parts.truncate(kept);
    parts.shrink_to_fit();
    1
}

/// Drops what is left of a row that was walked over. One by one, since hardly a token has anything to give back, which costs a third of
/// what it costs to drop the row as a whole.
pub(crate) fn drop_row(row: Vec<Part>) {
    let mut left = row;
    while let Some(part) = left.pop() {
        drop(part);
    }
}

/// Appends the expression of a part that is given up, without comments of its own; of a token, which is moved, with this break. What is
/// loose in the part is appended to `loose`. The error: memory was refused.
#[cycle(moved)]
#[inline(always)]
pub(crate) fn push_moved(
    part: &mut Part,
    depth: usize,
    line_break: bool,
    loose: &mut Items<Text>,
    exprs: &mut Vec<Expr>,
) -> Result<(), Memory>
    ensures exprs { OnOk result (exprs.new.items ≡ exprs.old.items ++ (seen part.old).make no_comments line_break ∷ []) }
    ensures loose { OnOk result (loose.new ≡ loose.old ++ (seen part.old).loose) }
{
    match part {
        Part::Leaf(leaf) => {
            exprs.reserve(1)?;
            let text = mem::replace(&mut leaf.token, Text::from_slice(loose.alloc(), &[])?);
            exprs.push_reserved(token_of(leaf.class, text, line_break));
            Ok(())
        }
        Part::Node(node) => {
            push_form_moved(node, depth, loose, exprs)?;
            Ok(())
        }
    }
}

#[cycle(moved)]
fn push_form_moved(
    node: &mut Node,
    depth: usize,
    loose: &mut Items<Text>,
    exprs: &mut Vec<Expr>,
) -> Result<(), Memory>
    ensures exprs { OnOk result (exprs.new.items ≡ exprs.old.items ++ Expr.Form (form_of_frame (frame node.old.kind) node.old.kind (map seen node.old.parts) no_comments) ∷ []) }
    ensures loose { OnOk result (loose.new ≡ loose.old ++ loose_of (frame node.old.kind) node.old.kind (map seen node.old.parts)) }
{
    if depth == 0 {
        return push_form(node, loose, exprs);
    }
    exprs.reserve(1)?;
    let kind = node.kind;
    let parts = mem::replace(&mut node.parts, Items::new(loose.alloc()));
    if is_sequence(kind) {
        let lead = lead_of(kind);
        let head = head_of(parts.as_slice(), lead, loose)?;
        let seq = seq_moved(loose.alloc(), parts, depth - 1, lead + 1)?;
        exprs.push_reserved(form_of(kind, head, seq, false));
        return Ok(());
    }
    let open_break = opens(kind, parts.as_slice());
    let row = row_moved(parts, depth - 1, is_binary(kind), loose)?;
    let seq = Seq {
        items: Items::new(loose.alloc()),
        end: EndComments::empty(),
        split: false,
    };
    exprs.push_reserved(form_of(kind, row, seq, open_break));
    Ok(())
}

/// All parts of a row, with the breaks of its operators where it has some.
#[cycle(moved)]
fn row_moved(
    parts: Items<Part>,
    depth: usize,
    binary: bool,
    loose: &mut Items<Text>,
) -> Result<Items<Expr>, Memory>
    ensures exprs { IfOk result (λ exprs. exprs ≡ row_exprs binary false false (map seen parts)) }
    ensures loose { OnOk result (loose.new ≡ loose.old ++ loose_in (map seen parts)) }
{
    let mut exprs = Vec::with_capacity(loose.alloc(), parts.len())?;
    let mut left = parts.into_vec();
    let mut operator = false;
    let mut newline = false;
    let mut at = 0;
    while at < left.len() {
        let inside = operator;
        operator = is_operator_in(binary, &left[at]);
        newline = breaks_operator(operator, left.as_slice(), at, inside, newline);
        let line_break = breaks_after(operator, newline, left.as_slice(), at + 1);
        push_moved(&mut left[at], depth, line_break, loose, &mut exprs)?;
        push_gap(left.as_slice(), at + 1, loose)?;
        at = give_back(at + 1, &mut left);
    }
    drop_row(left);
    Ok(Items::from_vec(exprs))
}

/// The sequence whose items are from this index on, after the opening bracket.
#[cycle(moved)]
fn seq_moved(alloc: Global, parts: Items<Part>, depth: usize, from: usize) -> Result<Seq, Memory>
    requires { 0 < from }
    ensures { IfOk result (λ seq. seq ≡ seq_in (map seen (drop from parts))) }
{
    let split = breaks_from(parts.as_slice(), from);
    let mut items = Vec::with_capacity(alloc, parts.len() / 2)?;
    // the comments above the next item; what is loose in the item goes there too
    let mut above = Items::new(alloc);
    push_gap(parts.as_slice(), from, &mut above)?;
    let mut left = parts.into_vec();
    let mut at = from;
    while is_followed(left.as_slice(), at) {
        push_moved(&mut left[at], depth, false, &mut above, &mut items)?;
        comment_last(left.as_slice(), at + 1, &mut above, &mut items)?;
        at = give_back(at + 2, &mut left);
    }
    drop_row(left);
    Ok(Seq {
        items: Items::from_vec(items),
        end: EndComments::new(alloc, above)?,
        split,
    })
}
