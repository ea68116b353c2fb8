//! What `set_select` makes of the arguments of a rule.
ghost use Rattle.std.specs.Prelude.{◌≡◌, IfOk};
ghost use Rattle.std.specs.List.{list_all, zip};
ghost use Rattle.bz_change.specs.Changes.{each_same, is_set};
ghost use Rattle.bz_change.specs.Dicts.{is_dict_set, is_entry_set, is_select_set, select_of, set_select};
ghost use Rattle.bz_change.specs.private.Outcomes.{IsOutcome};

use crate::dicts::{Change, Edit, new_dict};
use crate::whole::{are_tokens, is_set};
use bz_attribute::{Slot, has_kind, items_of, new_token, parts_of, put, sequence};
use bz_command_syntax::Entry;
use bz_grammar::{Class, Kind};
use bz_items::{Items, Memory};
use bz_rule::attribute;
use bz_value::{Expr, Refusal};

/// Whether each expression differs from what is set beside it only in comments and flags.
fn each_is_set(new: &[Expr], exprs: &[Expr]) -> bool
    ensures { result ≡ list_all (λ pair. is_set pair.0 pair.1) (zip new.now exprs.now) }
{
    new.iter().zip(exprs).all(|(new, x)| is_set(new, x))
}

/// The same of an entry.
#[tactic(auto, using(crate::proofs::SettingsTexts::each_beside))]
fn is_entry_set(new: &Expr, x: &Expr) -> bool
    ensures { result ≡ is_entry_set new.now x.now }
{
    let (own, parts) = (parts_of(new), parts_of(x));
    has_kind(Kind::Entry, x) && own.len() == parts.len() && each_is_set(own, parts)
}

fn each_entry_is_set(new: &[Expr], exprs: &[Expr]) -> bool
    ensures { result ≡ list_all (λ pair. is_entry_set pair.0 pair.1) (zip new.now exprs.now) }
{
    new.iter().zip(exprs).all(|(new, x)| is_entry_set(new, x))
}

/// The same of a dict.
#[tactic(auto, using(crate::proofs::SettingsTexts::each_beside))]
fn is_dict_set(new: &Expr, x: &Expr) -> bool
    ensures { result ≡ is_dict_set new.now x.now }
{
    let (own, items) = (items_of(new), items_of(x));
    has_kind(Kind::Dict, x) && own.len() == items.len() && each_entry_is_set(own, items)
}

fn each_dict_is_set(new: &[Expr], exprs: &[Expr]) -> bool
    ensures { result ≡ list_all (λ pair. is_dict_set pair.0 pair.1) (zip new.now exprs.now) }
{
    new.iter().zip(exprs).all(|(new, x)| is_dict_set(new, x))
}

/// The same of the arguments of a call.
#[tactic(auto, using(crate::proofs::SettingsTexts::each_beside))]
fn are_dicts_set(new: &[Expr], exprs: &[Expr]) -> bool
    ensures { result ≡ each_same is_dict_set new.now exprs.now }
{
    new.len() == exprs.len() && each_dict_is_set(new, exprs)
}

/// The same of a `select`.
fn is_select_set(new: &Expr, x: &Expr) -> bool
    ensures { result ≡ is_select_set new.now x.now }
{
    has_kind(Kind::Call, x)
        && are_tokens(parts_of(new), parts_of(x))
        && are_dicts_set(items_of(new), items_of(x))
}

/// A `select` of these entries.
fn select_of(slot: Slot<'_>, entries: &[Entry]) -> Result<Expr, Memory>
    ensures { IfOk result (λ select. select ≡ select_of slot.entry.current.now slot.entry.attribute.now entries.now) }
{
    let alloc = slot.alloc;
    let change = Change::Select;
    let mut dicts = Items::new(alloc);
    dicts.push(new_dict(slot, Edit::Put { change, entries })?)?;
    let mut names = Items::new(alloc);
    names.push(new_token(alloc, Class::Name, b"select")?)?;
    Ok(sequence(alloc, Kind::Call, names, dicts))
}

/// The attribute's value becomes a `select` of these entries.
pub(crate) fn set_select(
    slot: Slot<'_>,
    entries: &[Entry],
    arguments: &mut Items<Expr>,
) -> Result<(), Refusal>
    ensures { IsOutcome result arguments.new (set_select slot.entry.current.now slot.entry.attribute.now entries.now arguments.old) }
{
    let new = select_of(slot, entries)?;
    let value = attribute(slot.attribute, arguments.as_slice());
    if value.is_some_and(|value| is_select_set(&new, value)) {
        drop(new);
        return Ok(());
    }
    put(slot.alloc, slot.attribute, new, arguments)?;
    Ok(())
}
