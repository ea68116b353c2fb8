//! An expression that becomes a host.
ghost use Rattle.std.specs.Prelude.{◌≡◌, [], ◌∷◌, ◌++◌, ◌<◌, false, List, length, map, drop, OnOk};
ghost use Rattle.bz_hosts.specs.Words.{Part, Expr, suffix_in as suffix_decoded};
ghost use Rattle.bz_hosts.specs.Seen.{plain, seen};
ghost use Rattle.bz_hosts.specs.private.Walks.{above_after, item_gap, line_gap};

use crate::before::is_quiet_at;
use crate::marks::{gap_after_statement, gaps_after_item};
use bz_grammar::Part;
use bz_items::{Items, Memory, Text};
use bz_value::{Comments, Expr, Item, push_all, push_others, suffix_in};
use std::alloc::AllocError;
use std::mem;

/// Makes the last item a host: with these comments above it, and the suffix after it, where this index is that of its comma or of
/// the closing bracket. What is above the next item, or at the end, is left `above` then. The error: memory was refused.
pub(crate) fn comment_last(
    parts: &[Part],
    at: usize,
    above: &mut Items<Text>,
    items: &mut Vec<Expr>,
) -> Result<(), Memory>
    requires { at < length parts.now }
    ensures above { OnOk result (above.new ≡ above_after (map seen (drop at parts.now))) }
    ensures items { OnOk result ((xs : List Expr) (x : Part) → items.old.items ≡ xs ++ plain (seen x) ∷ []
        → items.new.items ≡ xs ++ (seen x).make (record { before = above.old; suffix = suffix_decoded (item_gap (map seen (drop at parts.now))) }) false ∷ []) }
{
    if above.is_empty() && is_quiet_at(parts, at) && is_quiet_at(parts, at + 1) {
        return Ok(());
    }
    let (between, after) = gaps_after_item(parts, at);
    let alloc = above.alloc();
    let mut next = Items::new(alloc);
    push_all(alloc, between, &mut next)?;
    push_others(alloc, after, &mut next)?;
    let suffix = suffix_in(alloc, after)?;
    let comments = Comments::new(alloc, mem::replace(above, next), suffix)?;
    items.reserve(1)?;
    let Some(expr) = items.pop() else {
        return Err(AllocError);
    };
    items.push_reserved(expr.with_comments(comments));
    Ok(())
}

/// Appends the last expression as a statement: with these comments above it, of which none are left, and the suffix after it, where this index
/// is that of its semicolon or of the Newline. The error: memory was refused.
pub(crate) fn push_statement(
    parts: &[Part],
    at: usize,
    above: &mut Items<Text>,
    exprs: &mut Vec<Expr>,
    items: &mut Items<Item>,
) -> Result<(), Memory>
    requires { at < length parts.now }
    ensures above { OnOk result (above.new ≡ []) }
    ensures exprs { OnOk result ((x : Part) → exprs.old.items ≡ plain (seen x) ∷ [] → exprs.new.items ≡ []) }
    ensures items { OnOk result ((x : Part) → exprs.old.items ≡ plain (seen x) ∷ []
        → items.new ≡ items.old ++ Item.Stmt ((seen x).make (record { before = above.old; suffix = suffix_decoded (line_gap (map seen (drop at parts.now))) }) false) ∷ []) }
{
    let alloc = above.alloc();
    let suffix = suffix_in(alloc, gap_after_statement(parts, at))?;
    let comments = Comments::new(alloc, mem::replace(above, Items::new(alloc)), suffix)?;
    let Some(expr) = exprs.pop() else {
        return Err(AllocError);
    };
    items.push(Item::Stmt(expr.with_comments(comments)))?;
    Ok(())
}
