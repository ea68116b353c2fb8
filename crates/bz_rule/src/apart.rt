//! Letting go of values. A drop calls itself for each form in another, and the function of a call may be 32,000 names joined by
//! dots, each in the next: more than a stack holds.
ghost use Rattle.std.specs.Prelude.{◌≡◌, ◌<◌, IfSome};
ghost use Rattle.bz_rule.specs.private.Named.{fronts, fronts_among};

use bz_value::{Expr, File, Form, Item};

/// What is nested deeper than this in an argument is dropped as a whole.
const DEPTH: usize = 64;

/// Drops expressions one by one: hardly a token has anything to give back, so that this costs a part of what it costs to drop them as wholes.
#[cycle(apart)]
fn drop_all(exprs: Vec<Expr>, depth: usize) {
    let mut left = exprs;
    while let Some(x) = left.pop() {
        if let Some(form) = x.into_form() {
            drop_form(form, depth);
        }
    }
}

#[cycle(apart)]
fn drop_form(form: Form, depth: usize) {
    if depth == 0 {
        drop(form);
        return;
    }
    let (parts, items) = form.into_rows();
    drop_all(parts.into_vec(), depth - 1);
    drop_all(items.into_vec(), depth - 1);
}

/// The first of some parts; the others are dropped.
fn first_of(parts: Vec<Expr>) -> Option<Expr>
    ensures { IfSome result (λ part. fronts part ≡ fronts_among parts.items) }
{
    parts.into_iter().next()
}

/// The first part of a form; what else is in it is dropped.
#[tactic(auto, using(crate::proofs::Forms::fronts_Form))]
fn first_part(x: Expr) -> Option<Expr>
    ensures { IfSome result (λ part. fronts part < fronts x) }
{
    let form = x.into_form()?;
    let (parts, items) = form.into_rows();
    drop_all(items.into_vec(), DEPTH);
    first_of(parts.into_vec())
}

/// Drops a statement from the outside to the inside of its first parts, so that none of them is dropped in another.
fn take_statement_apart(x: Expr) {
    let mut at = x;
    while let Some(part) = first_part(at) {
        at = part;
    }
}

/// Drops a file value whose statements may begin with any number of forms, each in the next.
pub fn take_apart(file: File) {
    let File { items } = file;
    let mut left = items.into_vec();
    while let Some(item) = left.pop() {
        match item {
            Item::Block(_block) => {}
            Item::Stmt(x) => take_statement_apart(x),
        }
    }
}
