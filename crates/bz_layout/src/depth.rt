//! Whether a value or its layout is too deep. No walk goes deeper than the bound, and no tree is made for it.
ghost use Rattle.std.specs.Prelude.{◌≤◌, ◌↔◌, IsTrue, max, suc};
ghost use Rattle.bz_layout.specs.private.Depths.{depth_expr, depth_form, depth_line, deepest_of, deepest_line, depth_items};
ghost use Rattle.bz_layout.specs.private.Windows.{come_items};
ghost use Rattle.bz_value.specs.Windows.{AreWithin};

use crate::breaks::holds_suite;
use crate::line_windows::split_window;
use bz_value::{Expr, Form, Item, Window, is_sequence, is_suite};

/// Whether what is laid out of the expression has at most this depth.
#[cycle(within)]
#[tactic(auto, using(crate::proofs::Deep::depth_Form))]
fn is_within(expr: &Expr, depth: usize) -> bool
    ensures { IsTrue result ↔ (depth_expr expr.now ≤ depth) }
{
    match expr {
        Expr::Token(_) => true,
        Expr::Form(form) => is_form_within(form, depth),
    }
}

/// Whether what is laid out of the form has at most this depth.
#[cycle(within)]
#[tactic(auto, using(crate::proofs::Deep::depth_of_row, crate::proofs::Deep::depth_of_sequence, crate::proofs::Deep::depth_of_suite))]
fn is_form_within(form: &Form, depth: usize) -> bool
    ensures { IsTrue result ↔ (depth_form form.now ≤ depth) }
{
    if is_suite(form.kind) {
        return is_suite_within(form, depth);
    }
    depth > 0
        && are_within(form.parts.as_slice(), depth - 1)
        && (!is_sequence(form.kind) || are_within(form.seq.items.as_slice(), depth - 1))
}

/// Whether what is laid out of a suite with its header has at most this depth: the suite is a node in that of its header.
#[cycle(within)]
fn is_suite_within(form: &Form, depth: usize) -> bool
    ensures { IsTrue result ↔ (max (deepest_of form.now.parts) (suc (suc (deepest_line form.now.seq.items))) ≤ depth) }
{
    depth > 1
        && are_within(form.parts.as_slice(), depth)
        && are_lines_within(form.seq.items.as_slice(), depth - 2)
}

/// Whether what is laid out of each of the expressions has at most this depth.
#[cycle(within)]
#[tactic(auto, using(crate::proofs::Deep::token_next))]
fn are_within(exprs: &[Expr], depth: usize) -> bool
    ensures { IsTrue result ↔ (deepest_of exprs.now ≤ depth) }
{
    for expr in exprs {
        // No call for a token.
        let Expr::Form(form) = expr else {
            continue;
        };
        if !is_form_within(form, depth) {
            return false;
        }
    }
    true
}

/// Whether each of the statements has at most this depth with its line.
#[cycle(within)]
#[tactic(auto, using(crate::proofs::Deep::deepest_next))]
fn are_lines_within(exprs: &[Expr], depth: usize) -> bool
    ensures { IsTrue result ↔ (deepest_line exprs.now ≤ depth) }
{
    for expr in exprs {
        if !is_line_within(expr, depth) {
            return false;
        }
    }
    true
}

/// Whether a statement has at most this depth with its line.
#[cycle(within)]
fn is_line_within(expr: &Expr, depth: usize) -> bool
    ensures { IsTrue result ↔ (depth_line expr.now ≤ depth) }
{
    if holds_suite(expr) {
        return is_within(expr, depth);
    }
    depth > 0 && is_within(expr, depth - 1)
}

/// Whether the lines of the items have at most this depth.
#[tactic(auto, using(crate::proofs::Measured::depth_next))]
pub fn are_items_within(items: &[Item], depth: usize) -> bool
    ensures { IsTrue result ↔ (depth_items items.now ≤ depth) }
{
    for item in items {
        if let Item::Stmt(expr) = item
            && !is_line_within(expr, depth)
        {
            return false;
        }
    }
    true
}

/// Whether the lines of the items that came have at most this depth.
#[tactic(auto, using(crate::proofs::LineWindows::within_next))]
pub fn are_windows_within(items: &[Item], windows: &[Window], depth: usize) -> bool
    requires { AreWithin windows.now items.now }
    ensures { IsTrue result ↔ (depth_items (come_items windows.now items.now) ≤ depth) }
{
    let mut rest = items;
    for window in windows {
        let (_stay, come, past) = split_window(rest, window);
        if !are_items_within(come, depth) {
            return false;
        }
        rest = past;
    }
    true
}
