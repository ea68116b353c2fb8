//! The index of the names of a file.
ghost use Rattle.std.specs.Prelude.{◌≡◌, List, IfOk};
ghost use Rattle.bz_value.specs.declared.value.Item.{Item};
ghost use Rattle.bz_rule.specs.Index.{IsIndexOf, places_from};

use crate::places::{Places, all_places, places_of};
use bz_items::Memory;
use bz_value::Item;
use std::alloc::Global;
use std::marker::Model;

/// The names of the rules of a file, each with its places among the items, from 0. It takes memory for each name once, and for
/// each rule that has one a place.
pub struct Names {
    places: Places,
}

impl Drop for Names {
    fn drop(self) {
        let Names { places: _ } = self;
    }
}

impl Model for Names {
    ghost use Rattle.bz_rule.specs.Index.{Index};
    ghost use Rattle.bz_rule.specs.Held.{held};

    ghost Value = { Index };

    ghost view = { λ names. record { places = held names.places.entries } };
}

impl Names {
    /// The index of the items, each of which is read once. The error: memory was refused.
    pub fn of(alloc: Global, items: &[Item]) -> Result<Names, Memory>
        ensures { IfOk result (λ names. IsIndexOf names items.now) }
    {
        Ok(Names {
            places: all_places(alloc, items)?,
        })
    }

    /// The places of the rules of this name, in their order.
    pub fn places(&self, name: &[u8]) -> &[usize]
        ensures { (items : List Item) → IsIndexOf self.now items → result.now ≡ places_from 0 name.now items }
    {
        places_of(&self.places, name)
    }
}
