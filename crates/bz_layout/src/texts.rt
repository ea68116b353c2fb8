//! The layout of an expression and of an item, as text.
ghost use Rattle.std.specs.Prelude.{◌≡◌, ◌&&◌, false, length, nat_eq, OnOk, IfOk, MatchOption};
ghost use Rattle.bz_layout.specs.Drafts.{pushed};
ghost use Rattle.bz_layout.specs.Layout.{is_tuple};
ghost use Rattle.bz_value.specs.declared.value.Expr.TheVariants as e;
ghost use Rattle.bz_value.specs.declared.value.Item.TheVariants as i;
ghost use Rattle.bz_value.specs.Frames.{frame, has_brackets, sequence};
ghost use Rattle.bz_layout.specs.Written as written;
ghost use Rattle.bz_layout.specs.private.Writings.{writings, row_text, comma_below, comma_text, space_text, joined_text, stacked_text, body_text};

use crate::breaks::{Lines, holds_suite, is_bare, is_broken_in, is_closed};
use crate::dotted::push_dotted;
use crate::draft::Draft;
use crate::gaps::{deeper_margin, item_margin};
use crate::row_gaps::{is_assignment, push_row_gap};
use crate::spaces::blank_before;
use bz_grammar::Kind;
use bz_items::{Memory, Text};
use bz_value::{Expr, Form, Item, is_suite};
use std::alloc::{AllocError, Global};

/// Appends the layout of an expression at a margin, as lines are counted. The error: a growth was refused.
pub fn push_expr(out: &mut Draft, expr: &Expr, margin: usize) -> Result<(), Memory>
    ensures { OnOk result (out.new ≡ pushed out.old (written.text_of expr.now margin)) }
{
    push_expr_in(out, Lines::Counted, expr, margin)
}

/// Appends the layout of an expression at a margin. The error: a growth was refused.
#[cycle(push)]
#[inline(always)]
fn push_expr_in(out: &mut Draft, lines: Lines, expr: &Expr, margin: usize) -> Result<(), Memory>
    ensures { OnOk result (out.new ≡ pushed out.old (written.text_in lines expr.now margin)) }
{
    match expr {
        Expr::Token(token) => out.push_bytes(token.text.as_slice()),
        Expr::Form(form) => push_form(out, lines, form, margin),
    }
}

/// The brackets of the nodes of a kind; `None` where they have none.
fn brackets_of(kind: Kind) -> Option<(u8, u8)>
    ensures { MatchOption result (has_brackets (frame kind) ≡ false) (λ brackets. frame kind ≡ sequence brackets.0 brackets.1) }
{
    match kind {
        Kind::Call | Kind::Load | Kind::Tuple | Kind::Def => Some((b'(', b')')),
        Kind::List => Some((b'[', b']')),
        Kind::Dict => Some((b'{', b'}')),
        _ => None,
    }
}

/// Appends the space between two parts before a bracket.
#[inline(always)]
#[tactic(auto, using(crate::proofs::Pushing::pushed_none))]
fn push_space(out: &mut Draft, others: &[Expr]) -> Result<(), Memory>
    ensures { OnOk result (out.new ≡ pushed out.old (space_text others.now)) }
{
    match others {
        [] => Ok(()),
        _ => out.push(b' '),
    }
}

#[cycle(push)]
#[tactic(auto, using(crate::proofs::Pushing::pushed_twice, crate::proofs::Writing::row_form, crate::proofs::Writing::suite_form, crate::proofs::Writing::sequence_form, crate::proofs::Writing::head_next, crate::proofs::Writing::head_end, crate::proofs::Writing::rest_here))]
fn push_form(out: &mut Draft, lines: Lines, form: &Form, margin: usize) -> Result<(), Memory>
    ensures { OnOk result (out.new ≡ pushed out.old (written.text_in lines (e.Form form.now) margin)) }
{
    let Some((opener, closer)) = brackets_of(form.kind) else {
        if is_suite(form.kind) {
            return push_suite(out, lines, form, margin);
        }
        return push_row(out, lines, form, margin);
    };
    let head = form.parts.as_slice();
    for (i, expr) in head.iter().enumerate() {
        push_expr_in(out, lines, expr, margin)?;
        push_space(out, &head[i + 1..])?;
    }
    out.push(opener)?;
    push_body(out, lines, form, margin, closer)
}

/// Appends the row of the parts of a form at a margin. The error: a growth was refused.
#[cycle(push)]
#[tactic(auto, using(crate::proofs::Pushing::pushed_twice, crate::proofs::Writing::row_next, crate::proofs::Writing::row_end, crate::proofs::Writing::rest_here))]
fn push_row(out: &mut Draft, lines: Lines, form: &Form, margin: usize) -> Result<(), Memory>
    ensures { OnOk result (out.new ≡ pushed out.old (row_text lines form.now.kind form.now.open_break margin margin form.now.parts)) }
{
    let row = form.parts.as_slice();
    if let [name, sign, value] = row
        && is_assignment(form, name, sign, value)
    {
        push_expr_in(out, lines, name, margin)?;
        out.push_bytes(b" = ")?;
        return push_expr_in(out, lines, value, margin);
    }
    if push_dotted(out, form, margin)? {
        return Ok(());
    }
    let mut inner = margin;
    for (i, part) in row.iter().enumerate() {
        push_expr_in(out, lines, part, inner)?;
        inner = push_row_gap(out, form, margin, part, &row[i + 1..])?;
    }
    Ok(())
}

/// Appends what is in the sequence of a form at a margin, and this closing bracket. The error: a growth was
/// refused.
#[cycle(push)]
fn push_body(
    out: &mut Draft,
    lines: Lines,
    form: &Form,
    margin: usize,
    closer: u8,
) -> Result<(), Memory>
    ensures { OnOk result (out.new ≡ pushed out.old (body_text lines form.now margin closer)) }
{
    if is_broken_in(lines, form) {
        return push_stacked(out, lines, form, margin, closer);
    }
    push_joined(out, lines, form, margin, closer)
}

/// What is between an item on one line and the others that follow: a lone item may have a comma.
fn comma_after(others: &[Expr], one: bool) -> &'static [u8]
    ensures { result.now ≡ comma_text one others.now }
{
    match others {
        [] if one => b",",
        [] => b"",
        _ => b", ",
    }
}

/// Appends items joined by a comma and a space, and the closing bracket; a tuple of one ends with a comma.
#[cycle(push)]
#[tactic(auto, using(crate::proofs::Pushing::pushed_twice, crate::proofs::Writing::joined_next, crate::proofs::Writing::rest_here))]
fn push_joined(
    out: &mut Draft,
    lines: Lines,
    form: &Form,
    margin: usize,
    closer: u8,
) -> Result<(), Memory>
    ensures { OnOk result (out.new ≡ pushed out.old (joined_text lines margin closer (is_tuple form.now.kind && nat_eq (length form.now.seq.items) 1) form.now.seq.items)) }
{
    let items = form.seq.items.as_slice();
    let mut one = matches!(form.kind, Kind::Tuple) && items.len() == 1;
    for (i, item) in items.iter().enumerate() {
        push_expr_in(out, lines, item, margin)?;
        out.push_bytes(comma_after(&items[i + 1..], one))?;
        one = false;
    }
    out.push(closer)
}

/// The comma after an item of a broken sequence of the kind, before the others, if there is one.
#[inline(always)]
fn comma_before(lines: Lines, kind: Kind, item: &Expr, others: &[Expr]) -> &'static [u8]
    ensures { result.now ≡ comma_below lines kind item.now others.now }
{
    if is_bare(lines, kind, item, others) {
        return b"";
    }
    b","
}

/// Appends items on lines of their own, each with its comments above it, a comma and its suffix, end comments, and the closing bracket. The
/// last item may have no comma, and the closing bracket right after it.
#[cycle(push)]
#[tactic(auto, using(crate::proofs::Pushing::pushed_twice, crate::proofs::Writing::stacked_end))]
fn push_stacked(
    out: &mut Draft,
    lines: Lines,
    form: &Form,
    margin: usize,
    closer: u8,
) -> Result<(), Memory>
    ensures { OnOk result (out.new ≡ pushed out.old (stacked_text lines form.now.kind margin closer form.now.seq.end form.now.seq.items)) }
{
    let inner = item_margin(lines, form.kind, margin)?;
    let items = form.seq.items.as_slice();
    for (i, item) in items.iter().enumerate() {
        out.push_new_line(inner)?;
        out.push_above(item.comments().before(), inner)?;
        push_expr_in(out, lines, item, inner)?;
        let others = &items[i + 1..];
        if is_closed(lines, form, item, others) {
            return out.push(closer);
        }
        out.push_bytes(comma_before(lines, form.kind, item, others))?;
        out.push_after(item.comments().suffix())?;
    }
    out.push_ended(form.seq.end.as_slice(), inner, margin)?;
    out.push(closer)
}

/// Appends a header with its suite and the alternatives at a margin.
#[cycle(push)]
#[inline(never)]
#[tactic(auto, using(crate::proofs::Pushing::pushed_twice, crate::proofs::Writing::suite_none))]
fn push_suite(out: &mut Draft, lines: Lines, form: &Form, margin: usize) -> Result<(), Memory>
    ensures { OnOk result (out.new ≡ pushed out.old (written.suite_text form.now.comments.suffix margin (writings lines form.now.parts) (writings lines form.now.seq.items) form.now.seq.end)) }
{
    let Some((head, others)) = form.parts.as_slice().split_first() else {
        return Ok(());
    };
    let inner = deeper_margin(margin)?;
    push_expr_in(out, lines, head, margin)?;
    out.push(b':')?;
    out.push_after(form.comments.suffix())?;
    out.push(b'\n')?;
    push_statements(out, lines, form.seq.items.as_slice(), inner)?;
    out.push_lines(form.seq.end.as_slice(), inner)?;
    push_statements(out, lines, others, margin)
}

/// Appends statements at a margin, on lines of their own.
#[cycle(push)]
#[tactic(auto, using(crate::proofs::Pushing::pushed_twice, crate::proofs::Writing::statements_next, crate::proofs::Writing::statements_end))]
fn push_statements(
    out: &mut Draft,
    lines: Lines,
    exprs: &[Expr],
    margin: usize,
) -> Result<(), Memory>
    ensures { OnOk result (out.new ≡ pushed out.old (written.statements_text margin (writings lines exprs.now))) }
{
    for expr in exprs {
        out.push_margin(margin)?;
        out.push_above(expr.comments().before(), margin)?;
        push_expr_in(out, lines, expr, margin)?;
        push_end(out, expr)?;
    }
    Ok(())
}

/// Appends the end of a statement: its suffix and a newline; nothing after a suite, which ends with a line of its own.
#[inline(always)]
#[tactic(auto, using(crate::proofs::Pushing::pushed_none, crate::proofs::Pushing::pushed_twice, crate::proofs::Writing::suite_end, crate::proofs::Writing::plain_end))]
fn push_end(out: &mut Draft, expr: &Expr) -> Result<(), Memory>
    ensures { OnOk result (out.new ≡ pushed out.old (written.line_end expr.now)) }
{
    if holds_suite(expr) {
        return Ok(());
    }
    let comments = expr.comments();
    out.push_after(comments.suffix())?;
    out.push(b'\n')
}

/// Appends a statement on lines of its own: its comments above it, its suffix, a newline.
#[tactic(auto, using(crate::proofs::Pushing::pushed_twice))]
pub fn push_statement_in(out: &mut Draft, lines: Lines, expr: &Expr) -> Result<(), Memory>
    ensures { OnOk result (out.new ≡ pushed out.old (written.item_text_in lines (i.Stmt expr.now))) }
{
    out.push_above(expr.comments().before(), 0)?;
    push_expr_in(out, lines, expr, 0)?;
    push_end(out, expr)
}

/// The layout of an expression at margin 0, as text, as lines are counted. The error: a growth was refused.
pub fn expr_text(alloc: Global, expr: &Expr) -> Result<Text, Memory>
    ensures { IfOk result (λ text. text ≡ written.text_of expr.now 0) }
{
    let mut out = Draft::new(Vec::new(alloc), usize::MAX);
    push_expr_in(&mut out, Lines::Counted, expr, 0)?;
    Ok(Text::from_vec(out.into_bytes().ok_or(AllocError)?))
}

/// Appends an item of a file, with its newlines.
pub fn push_item_in(out: &mut Draft, lines: Lines, item: &Item) -> Result<(), Memory>
    ensures { OnOk result (out.new ≡ pushed out.old (written.item_text_in lines item.now)) }
{
    match item {
        Item::Block(texts) => out.push_above(texts.as_slice(), 0),
        Item::Stmt(expr) => push_statement_in(out, lines, expr),
    }
}

/// The layout of an item of a file, with its newlines, as lines are counted. The error: a growth was refused.
pub fn item_text(alloc: Global, item: &Item) -> Result<Text, Memory>
    ensures { IfOk result (λ text. text ≡ written.item_text item.now) }
{
    let mut out = Draft::new(Vec::new(alloc), usize::MAX);
    push_item_in(&mut out, Lines::Counted, item)?;
    Ok(Text::from_vec(out.into_bytes().ok_or(AllocError)?))
}

/// Appends the layout of items. The error: a growth was refused.
#[tactic(auto, using(crate::proofs::Pushing::pushed_twice, crate::proofs::Writing::layout_next, crate::proofs::Writing::layout_end, crate::proofs::Writing::rest_here))]
pub fn push_items_in(out: &mut Draft, lines: Lines, items: &[Item]) -> Result<(), Memory>
    ensures { OnOk result (out.new ≡ pushed out.old (written.layout_in lines items.now)) }
{
    for (i, item) in items.iter().enumerate() {
        push_item_in(out, lines, item)?;
        out.push_bytes(blank_before(lines, Some(item), &items[i + 1..]))?;
    }
    Ok(())
}
