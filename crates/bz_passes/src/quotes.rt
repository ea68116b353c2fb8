//! Quotes: strings take double quote marks.
ghost use Rattle.std.specs.Prelude.{◌≡◌, OnOk, map};
ghost use Rattle.bz_passes.specs.Passes.{quotes_in};

use crate::names::are_called_names;
use crate::strings::double_quoted;
use bz_grammar::{Class, Kind};
use bz_items::{Items, Memory};
use bz_value::Expr;
use std::alloc::Global;

/// Gives every string of an expression double quote marks, where it may have them. The error: memory was refused; part of
/// the expression is then changed.
#[cycle(quote)]
#[tactic(auto, using(crate::proofs::Parts::quoted_Form))]
#[inline(always)]
pub(crate) fn quote(alloc: Global, x: &mut Expr) -> Result<(), Memory>
    ensures { OnOk result (x.new ≡ quotes_in x.old) }
{
    match x {
        Expr::Token(token) if token.class == Class::String => double_quoted(alloc, &mut token.text),
        Expr::Token(_) => Ok(()),
        Expr::Form(form) => {
            quote_each(alloc, form.kind, &mut form.parts)?;
            quote_each(alloc, form.kind, &mut form.seq.items)
        }
    }
}

/// The same for parts of a form of this kind. Names joined by dots that are called are passed over.
#[cycle(quote)]
fn quote_each(alloc: Global, kind: Kind, exprs: &mut Items<Expr>) -> Result<(), Memory>
    ensures { OnOk result (exprs.new ≡ map quotes_in exprs.old) }
{
    if are_called_names(kind, exprs.as_slice()) {
        return Ok(());
    }
    for x in exprs.as_mut_slice().iter_mut() {
        quote(alloc, x)?;
    }
    Ok(())
}
