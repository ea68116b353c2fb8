//! The arguments of a rule, changed. An attribute is a named argument; of several with one name the first is meant.
ghost use Rattle.std.specs.Prelude.{◌≡◌, OnOk, None, Some, true};
ghost use Rattle.std.specs.List.{position};
ghost use Rattle.bz_grammar.specs.declared.kind.Kind.TheVariants as kinds;
ghost use Rattle.bz_attribute.specs.Words.{Expr, Bytes, attribute, value_named, on_row, on_third};
ghost use Rattle.bz_attribute.specs.Attributes.{is_attribute, has_attribute, is_other_attribute, with_value, with_new, without, put};

use crate::making::{argument_of, token};
use crate::readings::{first_of_kind, has_kind};
use bz_grammar::{Class, Kind};
use bz_items::{Items, Memory, Text};
use bz_rule::{attribute, value_named};
use bz_value::Expr;
use std::alloc::Global;
use std::mem;

/// Whether the expression is a named argument of this name.
pub fn is_attribute(name: &[u8], x: &Expr) -> bool
    ensures { result ≡ is_attribute name.now x.now }
{
    value_named(name, x).is_some()
}

/// Whether there is an attribute of this name.
pub fn has_attribute(name: &[u8], arguments: &[Expr]) -> bool
    ensures { result ≡ has_attribute name.now arguments.now }
{
    attribute(name, arguments).is_some()
}

/// Whether the expression is a named argument, but not `name`: what `*` means.
pub fn is_other_attribute(x: &Expr) -> bool
    ensures { result ≡ is_other_attribute x.now }
{
    has_kind(Kind::Named, x) && !is_attribute(b"name", x)
}

/// Where the first attribute of the name is.
pub fn place_of(name: &[u8], arguments: &[Expr]) -> Option<usize>
    ensures { result ≡ position (is_attribute name.now) arguments.now }
{
    arguments.iter().position(|x| is_attribute(name, x))
}

/// Exchanges an expression for the value of a node of this kind: of a named argument, or of an entry of a dict.
pub fn swap_value(kind: Kind, other: &mut Expr, x: &mut Expr)
    ensures there { x.new ≡ on_row kind (on_third (λ _. other.old)) x.old }
    ensures other { (name : Bytes) → kind ≡ kinds.Named → is_attribute name x.old ≡ true → Some other.new ≡ value_named name x.old }
{
    if !has_kind(kind, x) {
        return;
    }
    if let Expr::Form(form) = x {
        if let [_, _, third, ..] = form.parts.as_mut_slice() {
            mem::swap(third, other);
        }
    }
}

/// Exchanges an expression for the value of the first attribute of the name.
fn swap_first(name: &[u8], other: &mut Expr, arguments: &mut Items<Expr>)
    ensures arguments { arguments.new ≡ with_value name.now other.old arguments.old }
    ensures other { has_attribute name.now arguments.old ≡ true → Some other.new ≡ attribute name.now arguments.old }
{
    for x in arguments.as_mut_slice().iter_mut() {
        if is_attribute(name, x) {
            swap_value(Kind::Named, other, x);
            return;
        }
    }
}

/// Takes the value of the attribute out. What is in its place until `set_value` puts a value there, or `remove_first`
/// takes the attribute away, is of no matter.
#[tactic(auto, using(crate::proofs::ArgumentForms::with_value_twice, crate::proofs::ArgumentForms::without_value))]
pub fn take_value(alloc: Global, name: &[u8], arguments: &mut Items<Expr>) -> Option<Expr>
    ensures value { result ≡ attribute name.now arguments.old }
    ensures place { (other : Expr) → with_value name.now other arguments.new ≡ with_value name.now other arguments.old }
    ensures gone { without name.now arguments.new ≡ without name.now arguments.old }
    ensures none { result ≡ None → arguments.new ≡ arguments.old }
{
    if !has_attribute(name, arguments.as_slice()) {
        return None;
    }
    let mut taken = token(Class::Name, Text::from_vec(Vec::new(alloc)));
    swap_first(name, &mut taken, arguments);
    Some(taken)
}

/// The value becomes the attribute's.
pub fn set_value(name: &[u8], mut value: Expr, arguments: &mut Items<Expr>)
    ensures { arguments.new ≡ with_value name.now value arguments.old }
{
    swap_first(name, &mut value, arguments);
}

/// A new attribute, before the first starred argument, else last.
#[tactic(auto, using(crate::proofs::ArgumentPlaces::inserted_where))]
pub fn add_attribute(
    alloc: Global,
    name: &[u8],
    value: Expr,
    arguments: &mut Items<Expr>,
) -> Result<(), Memory>
    ensures { OnOk result (arguments.new ≡ with_new name.now value arguments.old) }
{
    let argument = argument_of(alloc, name, value)?;
    let mut all = mem::replace(arguments, Items::new(alloc)).into_vec();
    let at = first_of_kind(Kind::Star, all.as_slice()).unwrap_or(all.len());
    all.insert(at, argument)?;
    *arguments = Items::from_vec(all);
    Ok(())
}

/// The first attribute of the name goes.
#[tactic(auto, using(crate::proofs::ArgumentPlaces::removed_there, crate::proofs::ArgumentPlaces::removed_nowhere))]
pub fn remove_first(name: &[u8], arguments: &mut Items<Expr>)
    ensures { arguments.new ≡ without name.now arguments.old }
{
    let Some(at) = place_of(name, arguments.as_slice()) else {
        return;
    };
    let alloc = arguments.alloc();
    let mut all = mem::replace(arguments, Items::new(alloc)).into_vec();
    drop(all.remove(at));
    *arguments = Items::from_vec(all);
}

/// The value replaces the attribute's, or becomes it.
pub fn put(
    alloc: Global,
    name: &[u8],
    value: Expr,
    arguments: &mut Items<Expr>,
) -> Result<(), Memory>
    ensures { OnOk result (arguments.new ≡ put name.now value arguments.old) }
{
    if has_attribute(name, arguments.as_slice()) {
        set_value(name, value, arguments);
        return Ok(());
    }
    add_attribute(alloc, name, value, arguments)
}
