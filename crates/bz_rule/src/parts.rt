//! Parts of a value: a form of one kind, the text of a token of one class.
ghost use Rattle.std.specs.Prelude.{◌≡◌, Option};
ghost use Rattle.std.specs.Option.{option_copied};
ghost use Rattle.bz_rule.specs.Rules.{form_in, text_in, only, is_text};

use bz_grammar::{Class, Kind};
use bz_value::{Expr, Form};

/// The form, where the expression is one of this kind.
#[tactic(auto, using(crate::proofs::Forms::form_in_Form))]
pub fn form_in(kind: Kind, expr: &Expr) -> Option<&Form>
    ensures { option_copied result ≡ form_in kind expr.now }
{
    match expr {
        Expr::Form(form) if form.kind.number() == kind.number() => Some(form),
        _ => None,
    }
}

/// The text of the token, where the expression is one of this class.
pub fn text_in(class: Class, expr: &Expr) -> Option<&[u8]>
    ensures { option_copied result ≡ text_in class expr.now }
{
    match expr {
        Expr::Token(token) if token.class.number() == class.number() => Some(token.text.as_slice()),
        _ => None,
    }
}

/// The expression of a list of one.
pub fn only(exprs: &[Expr]) -> Option<&Expr>
    ensures { option_copied result ≡ only exprs.now }
{
    match exprs {
        [expr] => Some(expr),
        _ => None,
    }
}

/// Whether there is a text, and it is this one.
pub fn is_text(text: &[u8], found: Option<&[u8]>) -> bool
    ensures { result ≡ is_text text.now (option_copied found.entry) }
{
    match found {
        Some(other) => other == text,
        None => false,
    }
}
