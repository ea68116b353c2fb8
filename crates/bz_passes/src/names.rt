//! Names joined by dots, as a call may begin with. Quotes and flags, which go over all parts of a value, leave them as they are, and newer kinds are not in them;
//! and there may be too many of them, each in the next, for a walk that calls itself.
ghost use Rattle.std.specs.Prelude.{◌≡◌, ◌<◌, false, IsTrue, IfSome, map};
ghost use Rattle.std.specs.List.{list_any};
ghost use Rattle.bz_passes.specs.Words.{with_flags, fronts, fronts_among};
ghost use Rattle.bz_passes.specs.Newer.{has_newer_node};
ghost use Rattle.bz_passes.specs.Passes.{quotes_in};

use bz_grammar::{Class, Kind};
use bz_value::Expr;

/// Whether the expression is a token and no string: it stays.
fn is_plain(x: &Expr) -> bool
    ensures quotes { IsTrue result → quotes_in x.now ≡ x.now }
    ensures flags { IsTrue result → with_flags x.now ≡ x.now }
    ensures newer { IsTrue result → has_newer_node x.now ≡ false }
{
    matches!(x, Expr::Token(token) if token.class.number() != Class::String.number())
}

/// The first of three parts, where the other two stay.
fn front_in(parts: &[Expr]) -> Option<&Expr>
    ensures quotes { IfSome result (λ front. quotes_in front.now ≡ front.now → map quotes_in parts.now ≡ parts.now) }
    ensures flags { IfSome result (λ front. with_flags front.now ≡ front.now → map with_flags parts.now ≡ parts.now) }
    ensures newer { IfSome result (λ front. has_newer_node front.now ≡ false → list_any has_newer_node parts.now ≡ false) }
    ensures smaller { IfSome result (λ front. fronts front.now ≡ fronts_among parts.now) }
{
    match parts {
        [front, dot, last] if is_plain(dot) && is_plain(last) => Some(front),
        _ => None,
    }
}

/// What is before the last dot of names joined by dots, where the rest stays.
#[tactic(auto, using(crate::proofs::Parts::quoted_stays, crate::proofs::Parts::flags_stay, crate::proofs::Parts::fronts_of_Form, crate::proofs::NewerNodes::old_Form))]
fn front_of(x: &Expr) -> Option<&Expr>
    ensures quotes { IfSome result (λ front. quotes_in front.now ≡ front.now → quotes_in x.now ≡ x.now) }
    ensures flags { IfSome result (λ front. with_flags front.now ≡ front.now → with_flags x.now ≡ x.now) }
    ensures newer { IfSome result (λ front. has_newer_node front.now ≡ false → has_newer_node x.now ≡ false) }
    ensures smaller { IfSome result (λ front. fronts front.now < fronts x.now) }
{
    match x {
        Expr::Form(form) if form.kind == Kind::Dot && form.seq.items.is_empty() => {
            front_in(form.parts.as_slice())
        }
        _ => None,
    }
}

/// Whether the expression is names joined by dots: it stays.
fn is_still(x: &Expr) -> bool
    ensures quotes { IsTrue result → quotes_in x.now ≡ x.now }
    ensures flags { IsTrue result → with_flags x.now ≡ x.now }
    ensures newer { IsTrue result → has_newer_node x.now ≡ false }
{
    let mut at = x;
    while let Some(front) = front_of(at) {
        at = front;
    }
    is_plain(at)
}

/// Whether these parts of a form of this kind are what a call of names joined by dots begins with: they stay.
pub(crate) fn are_called_names(kind: Kind, parts: &[Expr]) -> bool
    ensures quotes { IsTrue result → map quotes_in parts.now ≡ parts.now }
    ensures flags { IsTrue result → map with_flags parts.now ≡ parts.now }
    ensures newer { IsTrue result → list_any has_newer_node parts.now ≡ false }
{
    match parts {
        [function] => kind == Kind::Call && is_still(function),
        _ => false,
    }
}
