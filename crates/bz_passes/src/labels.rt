//! Labels: in the label attributes of a rule plain strings lose a repeated name.
ghost use Rattle.std.specs.Prelude.{◌≡◌, OnOk};
ghost use Rattle.bz_passes.specs.Changes.{labels_changed};
ghost use Rattle.bz_passes.specs.Passes.{labelled};

use crate::strings::shortened;
use bz_grammar::Class;
use bz_items::{Items, Memory};
use bz_value::Expr;
use std::alloc::Global;

fn shorten_label(alloc: Global, x: &mut Expr) -> Result<(), Memory>
    ensures { OnOk result (x.new ≡ labelled x.old) }
{
    match x {
        Expr::Token(token) if token.class == Class::String => shortened(alloc, &mut token.text),
        _ => Ok(()),
    }
}

/// Takes a repeated name off each label among the items of a list, where it has labels. The error: memory was refused; some items
/// are then changed.
pub(crate) fn shorten_labels(has_labels: bool, items: &mut Items<Expr>) -> Result<(), Memory>
    ensures { OnOk result (items.new ≡ labels_changed has_labels items.old) }
{
    if !has_labels {
        return Ok(());
    }
    let alloc = items.alloc();
    for x in items.as_mut_slice().iter_mut() {
        shorten_label(alloc, x)?;
    }
    Ok(())
}
