//! Commands on the bodies of strings: in the items of lists, or in a value itself.
ghost use Rattle.std.specs.Prelude.{◌≡◌, IfOk, OnOk, map};
ghost use Rattle.std.specs.Option.{option_map_or};
ghost use Rattle.bz_list.specs.Words.{with_text, on_value};
ghost use Rattle.bz_list.specs.Changes.{in_attributes};
ghost use Rattle.bz_list.specs.private.Listing.{item_changed_by, value_changed_by, other_changed_by};

use crate::editing::Edit;
use bz_attribute::{
    Slot, body_of, first_text, has_kind, is_item, is_other_attribute, parts_of, place_of, set_text,
    string_text,
};
use bz_command_syntax::{Attributes, Pattern, Selects, quoted};
use bz_grammar::Kind;
use bz_items::{Items, Memory, Text};
use bz_label::bytes::{is_label_attribute, shortened};
use bz_value::Expr;
use std::alloc::Global;

/// What is done to an item.
#[derive(Clone, Copy)]
pub(crate) enum Change<'a> {
    /// A value becomes another one.
    Replace {
        old: &'a Text,
        new: &'a Text,
    },
    /// In the body each match of the pattern is replaced by the template.
    Substitute {
        pattern: &'a Pattern,
        template: &'a Text,
    },
    /// The body becomes shorter where the attribute is a label attribute: an item comes from another attribute.
    Shorten,
}

impl Change<'_> {
    /// The text that an item gets; `None` where it stays: it is no plain string, it is not meant or its body stays.
    #[tactic(auto, using(crate::proofs::ListedForms::no_body))]
    fn new_text(self, slot: Slot<'_>, x: &Expr) -> Result<Option<Text>, Memory>
        ensures { IfOk result (λ text. option_map_or (λ new. with_text new x.now) text x.now ≡ item_changed_by self.entry slot.entry.current.now slot.entry.attribute.now x.now) }
    {
        let Some(body) = body_of(x) else {
            return Ok(None);
        };
        match self {
            Change::Replace { old, new } => {
                if !is_item(slot.current, slot.attribute, old.as_slice(), x) {
                    return Ok(None);
                }
                Ok(Some(string_text(slot, new.as_slice())?))
            }
            Change::Substitute { pattern, template } => {
                let new = pattern.substituted(slot.alloc, template.as_slice(), body)?;
                if new.as_slice() == body {
                    return Ok(None);
                }
                let text = string_text(slot, new.as_slice())?;
                Ok(Some(text))
            }
            Change::Shorten => {
                let short = shortened(slot.current, body);
                if is_label_attribute(slot.attribute) && short != body {
                    return Ok(Some(quoted(slot.alloc, short)?));
                }
                Ok(None)
            }
        }
    }

    /// Changes an item.
    pub(crate) fn on_item(self, slot: Slot<'_>, x: &mut Expr) -> Result<(), Memory>
        ensures { OnOk result (x.new ≡ item_changed_by self.entry slot.entry.current.now slot.entry.attribute.now x.old) }
    {
        if let Some(text) = self.new_text(slot, x)? {
            set_text(text, x);
        }
        Ok(())
    }

    /// Changes each item.
    pub(crate) fn on_items(self, slot: Slot<'_>, items: &mut Items<Expr>) -> Result<(), Memory>
        ensures { OnOk result (items.new ≡ map (item_changed_by self.entry slot.entry.current.now slot.entry.attribute.now) items.old) }
    {
        for x in items.as_mut_slice().iter_mut() {
            self.on_item(slot, x)?;
        }
        Ok(())
    }

    /// Changes a value, and the items of its lists.
    fn on_value(self, slot: Slot<'_>, selects: Selects, value: &mut Expr) -> Result<(), Memory>
        ensures { OnOk result (value.new ≡ value_changed_by selects self.entry slot.entry.current.now slot.entry.attribute.now value.old) }
    {
        self.on_item(slot, value)?;
        let mut none = Items::new(slot.alloc);
        Edit::Change(self).on_lists(slot, selects, value, &mut none)?;
        Ok(())
    }

    /// Changes the value of a named argument, and the items of its lists; any other argument stays.
    fn on_argument(self, slot: Slot<'_>, selects: Selects, x: &mut Expr) -> Result<(), Memory>
        ensures { OnOk result (x.new ≡ on_value (value_changed_by selects self.entry slot.entry.current.now slot.entry.attribute.now) x.old) }
    {
        if !has_kind(Kind::Named, x) {
            return Ok(());
        }
        if let Expr::Form(form) = x {
            if let [_, _, value, ..] = form.parts.as_mut_slice() {
                self.on_value(slot, selects, value)?;
            }
        }
        Ok(())
    }

    /// Changes an attribute that `*` means; any other argument stays.
    fn on_other(
        self,
        alloc: Global,
        current: &[u8],
        selects: Selects,
        x: &mut Expr,
    ) -> Result<(), Memory>
        ensures { OnOk result (x.new ≡ other_changed_by selects self.entry current.now x.old) }
    {
        if !is_other_attribute(x) {
            return Ok(());
        }
        let name = Text::from_slice(alloc, first_text(parts_of(x)))?;
        self.on_argument(Slot::new(alloc, current, name.as_slice()), selects, x)?;
        Ok(())
    }

    /// Changes the attributes that are meant.
    #[tactic(auto, using(crate::proofs::ListedForms::named_there, crate::proofs::ListedForms::named_nowhere))]
    pub(crate) fn on_attributes(
        self,
        alloc: Global,
        current: &[u8],
        attributes: &Attributes,
        selects: Selects,
        arguments: &mut Items<Expr>,
    ) -> Result<(), Memory>
        ensures { OnOk result (arguments.new ≡ in_attributes attributes.now (value_changed_by selects self.entry current.now) arguments.old) }
    {
        let Attributes::Named(name) = attributes else {
            for x in arguments.as_mut_slice().iter_mut() {
                self.on_other(alloc, current, selects, x)?;
            }
            return Ok(());
        };
        let Some(at) = place_of(name.as_slice(), arguments.as_slice()) else {
            return Ok(());
        };
        let slot = Slot::new(alloc, current, name.as_slice());
        self.on_argument(slot, selects, arguments.at_mut(at))?;
        Ok(())
    }
}
