//! The symbols of a load.
ghost use Rattle.std.specs.Prelude.{◌≡◌, OnOk};
ghost use Rattle.bz_passes.specs.Sorting.{sort_by};
ghost use Rattle.bz_passes.specs.Passes.{symbol_precedes, symbols_in};
ghost use Rattle.bz_rule.specs.Values.{on_rest};

use bz_grammar::Kind;
use bz_items::Memory;
use bz_rule::local_name;
use bz_value::Expr;
use std::alloc::Global;

/// Sorts the items of a load after its path by local name; equal ones stay in their old order. The error: a growth was refused.
fn sort_rest(alloc: Global, items: &mut [Expr]) -> Result<(), Memory>
    ensures { OnOk result (items.new ≡ on_rest (sort_by symbol_precedes) items.old) }
{
    if let [_, symbols @ ..] = items {
        symbols.sort_by(alloc, |x, y| local_name(x).cmp(local_name(y)))?;
    }
    Ok(())
}

/// Sorts the symbols of a load; any other statement stays. The error: a growth was refused; the statement is then as before.
pub(crate) fn sort_symbols(alloc: Global, x: &mut Expr) -> Result<(), Memory>
    ensures { OnOk result (x.new ≡ symbols_in x.old) }
{
    match x {
        Expr::Form(form) if form.kind == Kind::Load => {
            sort_rest(alloc, form.seq.items.as_mut_slice())
        }
        _ => Ok(()),
    }
}
