//! Flags: a sequence is split where the layout breaks it.
ghost use Rattle.std.specs.Prelude.{◌≡◌, map};
ghost use Rattle.bz_layout.specs.Flags.{with_flags};

use crate::names::are_called_names;
use bz_grammar::Kind;
use bz_items::Items;
use bz_layout::is_broken;
use bz_value::{Expr, is_sequence};

/// Settles the flags of an expression: each of its sequences is split exactly where the layout breaks it. It takes no memory.
#[cycle(settle)]
#[tactic(auto, using(crate::proofs::Parts::split_by_kind, crate::proofs::Parts::flags_Form))]
pub(crate) fn settle(x: &mut Expr)
    ensures { x.new ≡ with_flags x.old }
{
    if let Expr::Form(form) = x {
        if is_sequence(form.kind) {
            form.seq.split = is_broken(form);
        }
        settle_each(form.kind, &mut form.parts);
        settle_each(form.kind, &mut form.seq.items);
    }
}

/// The same for parts of a form of this kind. Names joined by dots that are called are passed over.
#[cycle(settle)]
fn settle_each(kind: Kind, exprs: &mut Items<Expr>)
    ensures { exprs.new ≡ map with_flags exprs.old }
{
    if are_called_names(kind, exprs.as_slice()) {
        return;
    }
    for x in exprs.as_mut_slice().iter_mut() {
        settle(x);
    }
}
