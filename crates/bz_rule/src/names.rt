//! Names joined by dots.
ghost use Rattle.std.specs.Prelude.{◌≡◌, ◌≢◌, ◌<◌, MatchOption, IfSome, [], ◌∷◌, ◌++◌, false, Option, Some, None, is_some};
ghost use Rattle.bz_items.specs.Characters.{Bytes, full_stop};
ghost use Rattle.bz_token.specs.declared.class.Class.TheVariants as c;
ghost use Rattle.bz_rule.specs.Rules.{is_text, text_in, dotted, joined, dotted_name};
ghost use Rattle.bz_rule.specs.private.Named.{each_named, fronts, fronts_among};

use crate::parts::{is_text, text_in};
use bz_grammar::{Class, Kind};
use bz_value::Expr;

// What is before this end of a text.
fn before<'a>(text: &'a [u8], end: &[u8]) -> Option<&'a [u8]>
    ensures { MatchOption result ((front : Bytes) → text.entry.now ≢ front ++ end.now) (λ front. text.entry.now ≡ front.now ++ end.now) }
{
    text.strip_suffix(end)
}

// What is before a dot at the end of a text.
fn before_dot(text: &[u8]) -> Option<&[u8]>
    ensures { MatchOption result ((front : Bytes) → text.now ≢ front ++ full_stop ∷ []) (λ front. text.now ≡ front.now ++ full_stop ∷ []) }
{
    match text.split_last() {
        Some((last, front)) if *last == b'.' => Some(front),
        _ => None,
    }
}

// What is before a dot and the last name in a text that ends in them: it is the text that is left to names before them.
fn before_name<'a>(text: &'a [u8], name: &[u8]) -> Option<&'a [u8]>
    ensures { MatchOption result ((front : Option Bytes) → is_text text.entry.now (dotted front (Some name.now)) ≡ false)
        (λ left. (front : Option Bytes) → is_text text.entry.now (dotted front (Some name.now)) ≡ is_text left.now front) }
{
    match before(text, name) {
        Some(front) => before_dot(front),
        None => None,
    }
}

// Names joined by dots, taken apart at the last dot.
#[derive(Clone, Copy)]
struct Joined<'a> {
    front: &'a Expr,
    last: &'a [u8],
}

// The parts of names joined by dots: what is before the last dot may still be no name.
fn cut_row(parts: &[Expr]) -> Option<Joined<'_>>
    ensures name { MatchOption result (joined (each_named parts.now) ≡ None)
        (λ names. joined (each_named parts.now) ≡ dotted (dotted_name names.front.now) (Some names.last.now)) }
    ensures front { IfSome result (λ names. fronts names.front.now ≡ fronts_among parts.now) }
{
    match parts {
        [front, _, last] => match text_in(Class::Name, last) {
            Some(last) => Some(Joined { front, last }),
            None => None,
        },
        _ => None,
    }
}

// The same, of an expression. One that is not joined is a name by itself, or none.
#[tactic(auto, using(crate::proofs::Forms::dotted_name_Form, crate::proofs::Forms::fronts_Form))]
fn cut(expr: &Expr) -> Option<Joined<'_>>
    ensures name { MatchOption result (dotted_name expr.now ≡ text_in c.Name expr.now)
        (λ names. dotted_name expr.now ≡ dotted (dotted_name names.front.now) (Some names.last.now)) }
    ensures front { IfSome result (λ names. fronts names.front.now < fronts expr.now) }
{
    match expr {
        Expr::Token(_) => None,
        Expr::Form(form) if form.kind == Kind::Dot => cut_row(form.parts.as_slice()),
        Expr::Form(_) => None,
    }
}

/// Whether the expression is a name, or names joined by dots, of this text. However many names there are, no call goes
/// deeper.
pub fn is_dotted(text: &[u8], expr: &Expr) -> bool
    ensures { result ≡ is_text text.now (dotted_name expr.now) }
{
    let mut left = text;
    let mut at = expr;
    while let Some(names) = cut(at) {
        let Some(before) = before_name(left, names.last) else {
            return false;
        };
        left = before;
        at = names.front;
    }
    is_text(left, text_in(Class::Name, at))
}

/// Whether the expression is a name, or names joined by dots. However many names there are, no call goes
/// deeper.
pub fn is_named(expr: &Expr) -> bool
    ensures { result ≡ is_some (dotted_name expr.now) }
{
    let mut at = expr;
    while let Some(names) = cut(at) {
        at = names.front;
    }
    text_in(Class::Name, at).is_some()
}
