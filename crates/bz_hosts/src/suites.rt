//! What statements are read as, those with suites too, and the items of a file.
ghost use Rattle.std.specs.Prelude.{◌≡◌, ◌++◌, ◌<◌, [], ◌∷◌, List, map, drop, length, IfOk, OnOk, false};
ghost use Rattle.bz_hosts.specs.Words.{indent, Part, lines_of};
ghost use Rattle.bz_hosts.specs.Seen.{seen, statements_in};
ghost use Rattle.bz_hosts.specs.private.FileParts.{part_read};
ghost use Rattle.bz_hosts.specs.private.Gathered.{gathered};
ghost use Rattle.bz_hosts.specs.View.{items_from};
ghost use Rattle.bz_hosts.specs.Suites.{branches, exprs_in, line_read, indented_lines_before, stated, walked};

use crate::before::{gap_at, gap_before, gap_of_last};
use crate::groups::{push_block, push_groups};
use crate::headers::{colon_from, headed_suite, is_kind};
use crate::rest::{Rest, comments, rest_of_gap, take_end};
use crate::viewing::{push_statements, without_room};
use bz_grammar::{Kind, Part, Tree};
use bz_items::{Items, Memory, Text};
use bz_value::{EndComments, Expr, Form, Item, is_header, past_first_line};
use std::alloc::Global;

/// How many spaces and tabs are at the end of a gap.
fn indent_len(gap: &[u8]) -> usize
    ensures { result ≡ length (indent gap.now) }
{
    let mut at = gap.len();
    'blanks: while at > 0 {
        let byte = gap[at - 1];
        if byte != b' ' && byte != b'\t' {
            return gap.split_at(at).1.len();
        }
        at -= 1;
    }
    gap.len()
}

/// The gap of the part with this index; past the last part the one after all of them.
#[tactic(auto, using(crate::proofs::Stated::lines_of_part))]
pub(crate) fn gap_after<'a>(parts: &'a [Part], at: usize, after: &'a [u8]) -> &'a [u8]
    ensures { lines_of result.now ≡ indented_lines_before (map stated (drop at parts.now)) (lines_of after.now) }
{
    match parts.get(at) {
        Some(part) => gap_before(part),
        None => after,
    }
}

/// The parts after the first.
fn after_first_part(parts: &[Part]) -> &[Part]
    ensures { result.now ≡ drop 1 parts.now }
{
    parts.split_first().map_or(&[], |(_, rest)| rest)
}

/// Appends the statements among items.
fn push_exprs(items: Items<Item>, out: &mut Items<Expr>) -> Result<(), Memory>
    ensures { OnOk result (out.new ≡ out.old ++ exprs_in items) }
{
    for item in items.into_vec() {
        if let Item::Stmt(expr) = item {
            out.push(expr)?;
        }
    }
    Ok(())
}

/// Appends the statements of a line as items, the first with these comments above it; gives the lines that are left before what
/// follows.
fn push_line_items<'a>(
    parts: &'a [Part],
    above: Items<Text>,
    after: &'a [u8],
    items: &mut Items<Item>,
) -> Result<Rest<'a>, Memory>
    ensures items { OnOk result (items.new ≡ items.old ++ statements_in above (map seen parts.now)) }
    ensures rest { IfOk result (λ rest. lines_of rest.left.now ++ lines_of rest.gap.now ≡ (line_read (map seen parts.now) above (lines_of after.now)).1) }
{
    push_statements(parts, above, items)?;
    Ok(Rest {
        left: past_first_line(gap_of_last(parts)),
        gap: after,
    })
}

/// The same, as statements.
fn push_line<'a>(
    parts: &'a [Part],
    above: Items<Text>,
    after: &'a [u8],
    out: &mut Items<Expr>,
) -> Result<Rest<'a>, Memory>
    ensures out { OnOk result (out.new ≡ out.old ++ (line_read (map seen parts.now) above (lines_of after.now)).0) }
    ensures rest { IfOk result (λ rest. lines_of rest.left.now ++ lines_of rest.gap.now ≡ (line_read (map seen parts.now) above (lines_of after.now)).1) }
{
    let mut items = Items::new(out.alloc());
    let rest = push_line_items(parts, above, after, &mut items)?;
    push_exprs(items, out)?;
    Ok(rest)
}

/// Appends a statement with these comments above it; gives the lines that are left of those after it.
#[cycle(stated)]
#[tactic(auto, using(crate::proofs::Stated::line_of, crate::proofs::Stated::compound_of, crate::proofs::Branches::as_one))]
fn push_statement<'a>(
    part: &'a Part,
    above: Items<Text>,
    after: &'a [u8],
    out: &mut Items<Expr>,
) -> Result<Rest<'a>, Memory>
    ensures out { OnOk result (out.new ≡ out.old ++ ((stated part.now).statement above (lines_of after.now)).0) }
    ensures rest { IfOk result (λ rest. lines_of rest.left.now ++ lines_of rest.gap.now ≡ ((stated part.now).statement above (lines_of after.now)).1) }
{
    let Part::Node(node) = part else {
        return Ok(rest_of_gap(after));
    };
    let parts = node.parts.as_slice();
    if is_kind(node.kind, Kind::Line) {
        let rest = push_line(parts, above, after, out)?;
        return Ok(rest);
    }
    if !is_header(node.kind) {
        return Ok(rest_of_gap(after));
    }
    let mut own = Items::new(out.alloc());
    let rest = push_branches(node.kind, parts, above, after, &mut own)?;
    push_gathered(own, out)?;
    Ok(rest)
}

/// Appends the first of these suites, with the others as its alternatives.
#[tactic(auto, using(crate::proofs::Branches::gather_first, crate::proofs::Branches::gather_more, crate::proofs::Branches::gather_done))]
fn push_gathered(suites: Items<Form>, out: &mut Items<Expr>) -> Result<(), Memory>
    ensures { OnOk result (out.new ≡ out.old ++ gathered (map Expr.Form suites)) }
{
    let mut forms = suites.into_vec().into_iter();
    let Some(mut first) = forms.next() else {
        return Ok(());
    };
    for form in forms {
        first.parts.push(Expr::Form(form))?;
    }
    out.push(Expr::Form(first))?;
    Ok(())
}

/// Appends the suites of a statement, each with its header.
#[cycle(stated)]
fn push_branches<'a>(
    kind: Kind,
    parts: &'a [Part],
    above: Items<Text>,
    after: &'a [u8],
    own: &mut Items<Form>,
) -> Result<Rest<'a>, Memory>
    ensures own { OnOk result (map Expr.Form own.new ≡ map Expr.Form own.old ++ (branches false kind [] above (lines_of after.now) (map stated parts.now) (lines_of after.now)).0) }
    ensures rest { IfOk result (λ rest. lines_of rest.left.now ++ lines_of rest.gap.now ≡ (branches false kind [] above (lines_of after.now) (map stated parts.now) (lines_of after.now)).1) }
{
    let mut above = above;
    let mut rest = rest_of_gap(after);
    let mut from = 0;
    while let Some(colon) = colon_from(parts, from) {
        let Some(suite) = parts.get(colon + 1) else {
            return Ok(rest);
        };
        let mut form = headed_suite(own.alloc(), kind, &parts[from..colon], above, suite)?;
        let mut end = Items::new(own.alloc());
        let following = gap_after(parts, colon + 2, after);
        rest = push_suite(suite, following, &mut form.seq.items, &mut end)?;
        form.seq.end = EndComments::new(own.alloc(), end)?;
        own.push(form)?;
        above = comments(own.alloc(), rest)?;
        from = colon + 2;
    }
    Ok(rest)
}

/// Appends the statements of a suite, or of a line in its place, and its end comments; gives the lines that are left of those
/// after it.
#[cycle(stated)]
#[tactic(auto, using(crate::proofs::Stated::line_as_suite, crate::proofs::Stated::suite_of, crate::proofs::Stated::margin_is))]
fn push_suite<'a>(
    part: &'a Part,
    after: &'a [u8],
    statements: &mut Items<Expr>,
    end: &mut Items<Text>,
) -> Result<Rest<'a>, Memory>
    ensures statements { OnOk result (statements.new ≡ statements.old ++ ((stated part.now).suite (lines_of after.now)).0.0) }
    ensures end { OnOk result (end.new ≡ end.old ++ ((stated part.now).suite (lines_of after.now)).0.1) }
    ensures rest { IfOk result (λ rest. lines_of rest.left.now ++ lines_of rest.gap.now ≡ ((stated part.now).suite (lines_of after.now)).1) }
{
    let Part::Node(node) = part else {
        return Ok(rest_of_gap(after));
    };
    let parts = node.parts.as_slice();
    if is_kind(node.kind, Kind::Line) {
        let rest = push_line(parts, Items::new(statements.alloc()), after, statements)?;
        return Ok(rest);
    }
    if !is_kind(node.kind, Kind::Suite) {
        return Ok(rest_of_gap(after));
    }
    let own = after_first_part(parts);
    let rest = push_all_statements(own, after, statements)?;
    let margin = indent_len(gap_at(own, 0));
    let rest = take_end(statements.alloc(), margin, rest, end)?;
    Ok(rest)
}

/// Appends the statements of a suite; gives the lines that are left of those after it.
#[cycle(stated)]
#[tactic(auto, using(crate::proofs::Stated::lines_first))]
fn push_all_statements<'a>(
    parts: &'a [Part],
    after: &'a [u8],
    out: &mut Items<Expr>,
) -> Result<Rest<'a>, Memory>
    ensures out { OnOk result (out.new ≡ out.old ++ (walked (indented_lines_before (map stated parts.now) []) (map stated parts.now) (lines_of after.now)).0) }
    ensures rest { IfOk result (λ rest. lines_of rest.left.now ++ lines_of rest.gap.now ≡ (walked (indented_lines_before (map stated parts.now) []) (map stated parts.now) (lines_of after.now)).1) }
{
    let mut rest = rest_of_gap(gap_at(parts, 0));
    for at in 0..parts.len() {
        let above = comments(out.alloc(), rest)?;
        let following = gap_after(parts, at + 1, after);
        rest = push_statement(&parts[at], above, following, out)?;
    }
    Ok(rest)
}

/// Appends statements of the file as items.
fn push_items(statements: Items<Expr>, items: &mut Items<Item>) -> Result<(), Memory>
    ensures { OnOk result (items.new ≡ items.old ++ map Item.Stmt statements) }
{
    for statement in statements.into_vec() {
        items.push(Item::Stmt(statement))?;
    }
    Ok(())
}

/// The items of the statements of a file and of its end. The error: memory was refused.
#[tactic(auto, using(crate::proofs::Stated::lines_first, crate::proofs::Colons::part_here, crate::proofs::FileSteps::turned))]
pub(crate) fn items_of(alloc: Global, parts: &[Part]) -> Result<Items<Item>, Memory>
    ensures { IfOk result (λ items. items ≡ items_from (indented_lines_before (map stated parts.now) []) parts.now) }
{
    // most files have an item a line
    let mut items = Items::from_vec(Vec::with_capacity(alloc, parts.len())?);
    let mut rest = rest_of_gap(gap_at(parts, 0));
    for at in 0..parts.len() {
        let above = push_groups(rest.left, rest.gap, &mut items)?;
        let after = gap_after(parts, at + 1, &[]);
        rest = push_part(&parts[at], above, after, &mut items)?;
    }
    Ok(without_room(items))
}

/// Appends the items of a part of a file: of a statement with these comments above it, or of the end, where they are a block; gives the
/// lines that are left of those after it.
#[tactic(auto, using(crate::proofs::FileSteps::end_read, crate::proofs::FileSteps::node_read))]
pub(crate) fn push_part<'a>(
    part: &'a Part,
    above: Items<Text>,
    after: &'a [u8],
    items: &mut Items<Item>,
) -> Result<Rest<'a>, Memory>
    ensures items { OnOk result (items.new ≡ items.old ++ (part_read part.now above (lines_of after.now)).0) }
    ensures left { IfOk result (λ left. lines_of left.left.now ++ lines_of left.gap.now ≡ (part_read part.now above (lines_of after.now)).1) }
{
    let Part::Node(node) = part else {
        push_block(above, items)?;
        return Ok(rest_of_gap(&[]));
    };
    // a line is by far the most frequent one, so its statements are made in their place
    if is_kind(node.kind, Kind::Line) {
        let left = push_line_items(node.parts.as_slice(), above, after, items)?;
        return Ok(left);
    }
    let mut statements = Items::new(items.alloc());
    let left = push_statement(part, above, after, &mut statements)?;
    push_items(statements, items)?;
    Ok(left)
}
