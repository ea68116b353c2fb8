//! Rules: statements that call a name, or names joined by dots.
ghost use Rattle.std.specs.Prelude.{◌≡◌, Option};
ghost use Rattle.std.specs.Option.{option_copied, option_map};
ghost use Rattle.bz_rule.specs.Rules.{called, call_of, is_rule_of_kind, value_after, value_named, attribute, name_in, has_name};
ghost use Rattle.bz_rule.specs.Seen.{seen};

use crate::names::{is_dotted, is_named};
use crate::parts::{form_in, is_text, only, text_in};
use crate::plain::body;
use bz_grammar::{Class, Kind};
use bz_value::{Expr, Form, Item};

/// A statement that is a call: what is called, and the arguments. It is a rule where that is a name, or names joined by
/// dots.
#[derive(Clone, Copy)]
pub struct Call<'a> {
    pub function: &'a Expr,
    pub arguments: &'a [Expr],
}

fn called(call: &Form) -> Option<Call<'_>>
    ensures { option_map seen result ≡ called call.now }
{
    Some(Call {
        function: only(call.parts.as_slice())?,
        arguments: call.seq.items.as_slice(),
    })
}

/// The call that a statement is, if it is one by itself.
pub fn call_of(item: &Item) -> Option<Call<'_>>
    ensures { option_map seen result ≡ call_of item.now }
{
    match item {
        Item::Block(_) => None,
        Item::Stmt(statement) => {
            let bare = form_in(Kind::Bare, statement)?;
            let call = form_in(Kind::Call, only(bare.parts.as_slice())?)?;
            called(call)
        }
    }
}

fn value_after<'a>(name: &[u8], row: &'a [Expr]) -> Option<&'a Expr>
    ensures { option_copied result ≡ value_after name.now row.now }
{
    match row {
        [left, _, value] if is_text(name, text_in(Class::Name, left)) => Some(value),
        _ => None,
    }
}

/// The value of a named argument of this name, if the expression is one.
pub fn value_named<'a>(name: &[u8], expr: &'a Expr) -> Option<&'a Expr>
    ensures { option_copied result ≡ value_named name.now expr.now }
{
    let argument = form_in(Kind::Named, expr)?;
    value_after(name, argument.parts.as_slice())
}

/// The value of the first argument of this name.
pub fn attribute<'a>(name: &[u8], arguments: &'a [Expr]) -> Option<&'a Expr>
    ensures { option_copied result ≡ attribute name.now arguments.now }
{
    for argument in arguments {
        if let Some(value) = value_named(name, argument) {
            return Some(value);
        }
    }
    None
}

/// The name of a rule: the body of its attribute `name`, where that is a plain string.
pub fn name_of<'a>(call: &Call<'a>) -> Option<&'a [u8]>
    ensures { option_copied result ≡ name_in (seen call.now).arguments }
{
    body(text_in(Class::String, attribute(b"name", call.arguments)?)?)
}

/// Whether the item is a rule of this kind.
#[tactic(auto, using(crate::proofs::Named::kind_of_call))]
pub fn is_rule_of_kind(kind: &[u8], item: &Item) -> bool
    ensures { result ≡ is_rule_of_kind kind.now item.now }
{
    match call_of(item) {
        Some(call) => is_dotted(kind, call.function),
        None => false,
    }
}

/// Whether the item is a rule of this name.
#[tactic(auto, using(crate::proofs::Named::name_of_call))]
pub fn has_name(name: &[u8], item: &Item) -> bool
    ensures { result ≡ has_name name.now item.now }
{
    match call_of(item) {
        Some(call) => is_named(call.function) && is_text(name, name_of(&call)),
        None => false,
    }
}
