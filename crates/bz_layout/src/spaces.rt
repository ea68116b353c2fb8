//! The single spaces between the parts of a row, and the blank lines between items.
ghost use Rattle.std.specs.Prelude.{◌≡◌, ◌∷◌, [], if◌then◌else◌};
ghost use Rattle.std.specs.Option.{option_copied};
ghost use Rattle.bz_layout.specs.Words.{line_feed, root};
ghost use Rattle.bz_grammar.specs.Shapes as shapes;
ghost use Rattle.bz_layout.specs.Appended.{gap_below_in};
ghost use Rattle.bz_layout.specs.Spaces as spaces;
ghost use Rattle.bz_layout.specs.Written as written;

use crate::breaks::{Lines, is_of_kind};
use bz_grammar::{Class, Kind};
use bz_value::{Expr, Item};

/// Whether the mark is a bracket, a comma or a colon.
fn is_lone_mark(mark: &[u8]) -> bool
    ensures { result ≡ spaces.lone (shapes.this Class.Mark mark.now) }
{
    matches!(mark, b"(" | b")" | b"[" | b"]" | b"{" | b"}" | b"," | b":")
}

/// Whether the mark of a row of the kind has no space at either side.
fn is_tight(kind: Kind, mark: &[u8]) -> bool
    ensures { result ≡ spaces.is_tight kind mark.now }
{
    match kind {
        Kind::Unary | Kind::Star => true,
        Kind::Param => is_lone_mark(mark) || matches!(mark, b"." | b"*" | b"**"),
        _ => is_lone_mark(mark) || matches!(mark, b"."),
    }
}

/// Whether a space is after the mark in a row of the kind.
fn is_mark_spaced(kind: Kind, mark: &[u8]) -> bool
    ensures { result ≡ spaces.space_after kind (shapes.this Class.Mark mark.now) }
{
    match mark {
        b"," => true,
        b":" => matches!(kind, Kind::Entry | Kind::Lambda),
        _ => !is_tight(kind, mark),
    }
}

/// Whether a space is after the expression.
fn has_space_after(kind: Kind, expr: &Expr) -> bool
    ensures { result ≡ spaces.is_spaced_after kind (root expr.now) }
{
    let Expr::Token(token) = expr else {
        return false;
    };
    let text = token.text.as_slice();
    match token.class {
        Class::Mark => is_mark_spaced(kind, text),
        Class::Keyword => !matches!(text, b"load"),
        _ => false,
    }
}

/// Whether a space is before the expression.
fn has_space_before(kind: Kind, expr: &Expr) -> bool
    ensures { result ≡ spaces.is_spaced_before kind (root expr.now) }
{
    match expr {
        Expr::Token(token) if token.class == Class::Mark => !is_tight(kind, token.text.as_slice()),
        Expr::Token(token) => token.class == Class::Keyword,
        Expr::Form(_) => false,
    }
}

/// Whether the expression is a bracket, a comma or a colon.
pub fn is_lone(expr: &Expr) -> bool
    ensures { result ≡ spaces.is_lone (root expr.now) }
{
    matches!(expr, Expr::Token(token) if token.class == Class::Mark && is_lone_mark(token.text.as_slice()))
}

/// Whether the expression is no token of its row: a node, or a name, a number or a string.
fn is_value(expr: &Expr) -> bool
    ensures { result ≡ spaces.is_value (root expr.now) }
{
    match expr {
        Expr::Token(token) => matches!(token.class, Class::Name | Class::Number | Class::String),
        Expr::Form(_) => true,
    }
}

fn is_number(expr: &Expr) -> bool
    ensures { result ≡ spaces.is_number_leaf (root expr.now) }
{
    matches!(expr, Expr::Token(token) if matches!(token.class, Class::Number))
}

/// Whether the expression is this mark.
pub fn has_mark(mark: &[u8], expr: &Expr) -> bool
    ensures { result ≡ shapes.has_token (shapes.one_mark mark.now) (root expr.now) }
{
    matches!(expr, Expr::Token(token) if token.class == Class::Mark && token.text.as_slice() == mark)
}

/// Whether one space is between two neighbours in a row of the kind.
pub fn is_spaced(kind: Kind, left: &Expr, right: &Expr) -> bool
    ensures { result ≡ spaces.is_spaced kind (root left.now) (root right.now) }
{
    has_space_after(kind, left) && !is_lone(right)
        || has_space_before(kind, right)
        || is_value(left) && is_value(right)
        // `1.` is a number
        || is_number(left) && has_mark(b".", right)
}

/// Whether a statement is right below another, with no blank line between, as lines are counted.
fn are_close(above: &Expr, below: &Expr) -> bool
    ensures { (if result then [] else (line_feed ∷ [])) ≡ written.gap_between (Item.Stmt above.now) (Item.Stmt below.now) }
{
    below.comments().before().is_empty()
        && (is_of_kind(Kind::Load, above) && is_of_kind(Kind::Load, below)
            || is_of_kind(Kind::Assign, above) && is_of_kind(Kind::Assign, below))
}

/// Whether an item is right below another, with no blank line between.
fn is_close(lines: Lines, above: &Item, below: &Item) -> bool
    ensures { (if result then [] else (line_feed ∷ [])) ≡ written.gap_between_in lines above.now below.now }
{
    match (lines, above, below) {
        (_, Item::Block(_), _) | (Lines::Counted, _, Item::Block(_)) => false,
        (Lines::Written, Item::Stmt(_), _) => true,
        (Lines::Counted, Item::Stmt(above), Item::Stmt(below)) => are_close(above, below),
    }
}

/// What is between an item, where there is one, and those that follow: a blank line, or nothing.
pub fn blank_before(lines: Lines, item: Option<&Item>, others: &[Item]) -> &'static [u8]
    ensures { result.now ≡ gap_below_in lines (option_copied item.entry) others.now }
{
    match (item, others) {
        (None, _) | (_, []) => b"",
        (Some(above), [below, ..]) if is_close(lines, above, below) => b"",
        _ => b"\n",
    }
}
