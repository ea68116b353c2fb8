//! Whether a value has suites, or other nodes of the newer kinds, which BUILD files have not.
ghost use Rattle.std.specs.Prelude.{◌≡◌};
ghost use Rattle.std.specs.List.{list_any};
ghost use Rattle.bz_passes.specs.Newer.{has_newer as has_so, has_newer_node as is_so};

use crate::names::are_called_names;
use bz_grammar::Kind;
use bz_value::{Expr, Item};

/// Whether an expression has such a node. It takes no memory.
#[cycle(find)]
#[tactic(auto, using(crate::proofs::NewerNodes::newer_found))]
fn has_newer_node(x: &Expr) -> bool
    ensures { result ≡ is_so x.now }
{
    match x {
        Expr::Token(_) => false,
        Expr::Form(form) => {
            form.kind.number() >= Kind::Def.number()
                || have_newer_nodes(form.kind, form.parts.as_slice())
                || have_newer_nodes(form.kind, form.seq.items.as_slice())
        }
    }
}

/// Whether one of these parts of a form of this kind has. Names joined by dots that are called have none.
#[cycle(find)]
fn have_newer_nodes(kind: Kind, exprs: &[Expr]) -> bool
    ensures { result ≡ list_any is_so exprs.now }
{
    if are_called_names(kind, exprs) {
        return false;
    }
    for x in exprs {
        if has_newer_node(x) {
            return true;
        }
    }
    false
}

/// Whether one of the items of a file has such a node. It takes no memory.
pub(crate) fn has_newer(items: &[Item]) -> bool
    ensures { result ≡ has_so items.now }
{
    items
        .iter()
        .any(|item| matches!(item, Item::Stmt(x) if has_newer_node(x)))
}
