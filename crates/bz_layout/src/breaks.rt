//! Which sequences the layout breaks.
ghost use Rattle.std.specs.Prelude.{◌≡◌, ◌&&◌, ◌||◌, length, nat_le};
ghost use Rattle.bz_layout.specs.Words.{has_kind, has_suite, is_kind};
ghost use Rattle.bz_layout.specs.Layout as layout;

use bz_grammar::Kind;
use bz_value::{Expr, Form, is_suite};

/// Which sequences are broken, and how.
#[derive(Clone, Copy)]
pub enum Lines {
    /// A list or a dict of two items is broken, a call of two of which one has a name, and what was written on several lines and has an item.
    Counted,
    /// What was written on several lines is broken, and nothing else without comments.
    Written,
}

/// Whether the expression is a form of this kind.
pub fn is_of_kind(kind: Kind, expr: &Expr) -> bool
    ensures { result ≡ has_kind kind expr.now }
{
    matches!(expr, Expr::Form(form) if form.kind.number() == kind.number())
}

/// Whether the expression is a suite with its header.
pub fn holds_suite(expr: &Expr) -> bool
    ensures { result ≡ has_suite expr.now }
{
    matches!(expr, Expr::Form(form) if is_suite(form.kind))
}

fn has_comment(expr: &Expr) -> bool
    ensures { result ≡ layout.has_comment expr.now }
{
    let comments = expr.comments();
    !comments.before().is_empty() || comments.suffix().is_some()
}

fn have_comment(items: &[Expr]) -> bool
    ensures { result ≡ layout.has_comments items.now }
{
    items.iter().any(has_comment)
}

fn have_named(items: &[Expr]) -> bool
    ensures { result ≡ layout.has_named items.now }
{
    items.iter().any(|item| is_of_kind(Kind::Named, item) || is_of_kind(Kind::Star, item))
}

/// Whether a sequence of this many items is broken whatever they are.
fn is_long(kind: Kind, items: &[Expr]) -> bool
    ensures { result ≡ (nat_le 2 (length items.now) && (layout.is_listed kind || (layout.is_call kind && layout.has_named items.now))) }
{
    items.len() >= 2
        && (matches!(kind, Kind::List | Kind::Dict)
            || matches!(kind, Kind::Call) && have_named(items))
}

/// Whether the lines are those that were written.
fn is_written(lines: Lines) -> bool
    ensures { result ≡ layout.is_written lines }
{
    matches!(lines, Lines::Written)
}

/// Whether the items of a broken sequence of the kind are the parameters of a function, eight further.
pub fn has_far_items(lines: Lines, kind: Kind) -> bool
    ensures { result ≡ (layout.is_written lines && is_kind kind Kind.Def) }
{
    is_written(lines) && matches!(kind, Kind::Def)
}

/// Whether no comma is after an item of a broken sequence of the kind, before the others.
pub fn is_bare(lines: Lines, kind: Kind, item: &Expr, others: &[Expr]) -> bool
    ensures { result ≡ layout.is_bare lines kind item.now others.now }
{
    is_written(lines)
        && matches!(kind, Kind::Call)
        && is_of_kind(Kind::Star, item)
        && others.is_empty()
}

/// Whether the closing bracket is right after an item of the form's broken sequence, where these others follow.
pub fn is_closed(lines: Lines, form: &Form, item: &Expr, others: &[Expr]) -> bool
    ensures { result ≡ layout.is_closed lines form.now.kind item.now others.now form.now.seq.end }
{
    has_far_items(lines, form.kind)
        && item.comments().suffix().is_none()
        && others.is_empty()
        && form.seq.end.is_empty()
}

/// Whether the items of the form's sequence are on lines of their own, as lines are counted.
pub fn is_broken(form: &Form) -> bool
    ensures { result ≡ layout.is_broken form.now.kind form.now.seq.split form.now.seq.items form.now.seq.end }
{
    let items = form.seq.items.as_slice();
    // The flag first: where it is settled, no item need be looked at.
    form.seq.split && !items.is_empty()
        || have_comment(items)
        || !form.seq.end.is_empty()
        || is_long(form.kind, items)
}

/// Whether the items of the form's sequence are on lines of their own.
pub fn is_broken_in(lines: Lines, form: &Form) -> bool
    ensures { result ≡ layout.is_broken_in lines form.now.kind form.now.seq.split form.now.seq.items form.now.seq.end }
{
    match lines {
        Lines::Counted => is_broken(form),
        Lines::Written => {
            form.seq.split || have_comment(form.seq.items.as_slice()) || !form.seq.end.is_empty()
        }
    }
}
