//! Names with places, in a map.
ghost use Rattle.std.specs.Prelude.{◌≡◌, [], bytes_eq, IfOk, OnOk};
ghost use Rattle.std.specs.Option.{option_copied};
ghost use Rattle.bz_items.specs.Characters.{Bytes};
ghost use Rattle.bz_rule.specs.Rules.{has_name};
ghost use Rattle.bz_rule.specs.Index.{places_from, places_of};
ghost use Rattle.bz_rule.specs.Held.{AddsPlace, held, held_name};

use crate::{call_of, is_named, name_of};
use bz_items::Memory;
use bz_value::Item;
use std::alloc::Global;
use std::collections::HashMap;

/// Names, each with the places of the items of this name.
pub(crate) type Places = HashMap<Vec<u8>, Vec<usize>>;

/// The name of an item, where it is a rule that has one.
#[tactic(auto, using(crate::proofs::NamedItems::name_of_call))]
pub fn held_name(item: &Item) -> Option<&[u8]>
    ensures { option_copied result ≡ held_name item.now }
{
    match call_of(item) {
        Some(call) if is_named(call.function) => name_of(&call),
        _ => None,
    }
}

/// The places of a name.
#[tactic(auto, using(crate::proofs::Entries::held_at))]
pub(crate) fn places_of<'a>(places: &'a Places, name: &[u8]) -> &'a [usize]
    ensures { result.now ≡ places_of name.now (held places.entry.now.entries) }
{
    match places.get(name) {
        Some(found) => found.as_slice(),
        None => &[],
    }
}

/// The first place of a name that has none.
fn insert_first(alloc: Global, places: &mut Places, name: &[u8], at: usize) -> Result<(), Memory>
    requires { places_of name.now (held places.old.entries) ≡ [] }
    ensures { OnOk result (AddsPlace (bytes_eq name.now) at places.old.entries places.new.entries) }
{
    let key = Vec::from_slice(alloc, name)?;
    let first = Vec::from_slice(alloc, &[at])?;
    places.insert(key, first)?;
    Ok(())
}

/// One place more of a name.
fn push_place(alloc: Global, places: &mut Places, name: &[u8], at: usize) -> Result<(), Memory>
    ensures { OnOk result (AddsPlace (bytes_eq name.now) at places.old.entries places.new.entries) }
{
    match places.get_mut(name) {
        Some(found) => {
            found.push(at)?;
            Ok(())
        }
        None => insert_first(alloc, places, name, at),
    }
}

/// The place of an item, where it has a name.
fn push_item(alloc: Global, places: &mut Places, item: &Item, at: usize) -> Result<(), Memory>
    ensures { OnOk result (AddsPlace (λ name. has_name name item.now) at places.old.entries places.new.entries) }
{
    match held_name(item) {
        Some(name) => push_place(alloc, places, name, at),
        None => Ok(()),
    }
}

/// The places of all names of the items. The error: memory was refused.
pub(crate) fn all_places(alloc: Global, items: &[Item]) -> Result<Places, Memory>
    ensures { IfOk result (λ places. (name : Bytes) → places_of name (held places.entries) ≡ places_from 0 name items.now) }
{
    let mut places = HashMap::new(alloc);
    for (at, item) in items.iter().enumerate() {
        push_item(alloc, &mut places, item, at)?;
    }
    Ok(places)
}
