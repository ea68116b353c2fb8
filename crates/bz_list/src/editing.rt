//! The lists of a value, edited in their places: items go, or each is changed.
ghost use Rattle.std.specs.Prelude.{◌≡◌, ◌++◌, OnOk, map};
ghost use Rattle.std.specs.List.{filter, flat_map};
ghost use Rattle.bz_grammar.specs.declared.kind.Kind.TheVariants as kinds;
ghost use Rattle.bz_list.specs.Words.{entries_of, items_in, listed as as_listed, on_branches, on_lists, on_operand, on_operands};
ghost use Rattle.bz_list.specs.private.Listing.{chooses, edited, entry_edited, entry_items, is_left, items_edited, operand_items, takes};
ghost use Rattle.bz_command_syntax.specs.declared.command.Selects.TheVariants as choices;

use crate::known::{Chosen, is_chosen};
use crate::replacing::Change;
use bz_attribute::{Slot, has_kind, is_select};
use bz_command_syntax::Selects;
use bz_grammar::Kind;
use bz_items::{Items, Memory};
use bz_value::Expr;
use std::mem;

/// Whether memory was given for a step.
pub(crate) type Done = Result<(), Memory>;

/// What is done to the items of each list.
#[derive(Clone, Copy)]
pub(crate) enum Edit<'a> {
    /// Those that a command is meant for go.
    Take(&'a Chosen),
    /// Each is changed.
    Change(Change<'a>),
}

/// Takes the items that the command is meant for.
fn take_in(
    slot: Slot<'_>,
    chosen: &Chosen,
    items: &mut Items<Expr>,
    taken: &mut Items<Expr>,
) -> Done
    ensures left { OnOk result (items.new ≡ filter (is_left slot.entry.current.now slot.entry.attribute.now chosen.now) items.old) }
    ensures taken { OnOk result (taken.new ≡ taken.old ++ filter (chooses slot.entry.current.now slot.entry.attribute.now chosen.now) items.old) }
{
    for x in mem::replace(items, Items::new(slot.alloc)).into_vec() {
        if is_chosen(slot, chosen, &x)? {
            taken.push(x)?;
        } else {
            items.push(x)?;
        }
    }
    Ok(())
}

/// An edit of the lists of an attribute. Each function puts the items that go after those that are taken already.
impl Edit<'_> {
    /// Edits the items of a list.
    fn on_items(self, slot: Slot<'_>, items: &mut Items<Expr>, taken: &mut Items<Expr>) -> Done
        ensures left { OnOk result (items.new ≡ items_edited self.entry slot.entry.current.now slot.entry.attribute.now items.old) }
        ensures taken { OnOk result (taken.new ≡ taken.old ++ filter (takes self.entry slot.entry.current.now slot.entry.attribute.now) items.old) }
    {
        match self {
            Edit::Take(chosen) => take_in(slot, chosen, items, taken),
            Edit::Change(change) => change.on_items(slot, items),
        }
    }

    /// Edits a list; any other expression stays.
    fn on_list(self, slot: Slot<'_>, x: &mut Expr, taken: &mut Items<Expr>) -> Done
        ensures left { OnOk result (x.new ≡ edited self.entry slot.entry.current.now slot.entry.attribute.now x.old) }
        ensures taken { OnOk result (taken.new ≡ taken.old ++ filter (takes self.entry slot.entry.current.now slot.entry.attribute.now) (as_listed x.old)) }
    {
        if !has_kind(Kind::List, x) {
            return Ok(());
        }
        if let Expr::Form(form) = x {
            self.on_items(slot, &mut form.seq.items, taken)?;
        }
        Ok(())
    }

    /// Edits the lists of a value but for those in the branches of `select`.
    #[tactic(auto, using(crate::proofs::EditedLists::sum_taken, crate::proofs::EditedLists::own_items_in))]
    fn on_own_lists(self, slot: Slot<'_>, x: &mut Expr, taken: &mut Items<Expr>) -> Done
        ensures left { OnOk result (x.new ≡ on_operands (edited self.entry slot.entry.current.now slot.entry.attribute.now) x.old) }
        ensures taken { OnOk result (taken.new ≡ taken.old ++ filter (takes self.entry slot.entry.current.now slot.entry.attribute.now) (items_in choices.Skipped x.old)) }
    {
        if !has_kind(Kind::Sum, x) {
            self.on_list(slot, x, taken)?;
            return Ok(());
        }
        if let Expr::Form(form) = x {
            for operand in form.parts.as_mut_slice().iter_mut() {
                self.on_list(slot, operand, taken)?;
            }
        }
        Ok(())
    }

    /// Edits the lists of the value of an entry.
    fn on_entry(self, slot: Slot<'_>, entry: &mut Expr, taken: &mut Items<Expr>) -> Done
        ensures left { OnOk result (entry.new ≡ entry_edited self.entry slot.entry.current.now slot.entry.attribute.now entry.old) }
        ensures taken { OnOk result (taken.new ≡ taken.old ++ filter (takes self.entry slot.entry.current.now slot.entry.attribute.now) (entry_items entry.old)) }
    {
        if !has_kind(Kind::Entry, entry) {
            return Ok(());
        }
        if let Expr::Form(form) = entry {
            if let [_, _, value, ..] = form.parts.as_mut_slice() {
                self.on_own_lists(slot, value, taken)?;
            }
        }
        Ok(())
    }

    /// The same of each entry.
    fn on_entries(self, slot: Slot<'_>, entries: &mut Items<Expr>, taken: &mut Items<Expr>) -> Done
        ensures left { OnOk result (entries.new ≡ map (entry_edited self.entry slot.entry.current.now slot.entry.attribute.now) entries.old) }
        ensures taken { OnOk result (taken.new ≡ taken.old ++ filter (takes self.entry slot.entry.current.now slot.entry.attribute.now) (flat_map entry_items entries.old)) }
    {
        for entry in entries.as_mut_slice().iter_mut() {
            self.on_entry(slot, entry, taken)?;
        }
        Ok(())
    }

    /// Edits the lists in the branches of a `select`; any other expression stays.
    fn on_branches(self, slot: Slot<'_>, x: &mut Expr, taken: &mut Items<Expr>) -> Done
        ensures left { OnOk result (x.new ≡ on_branches (on_operands (edited self.entry slot.entry.current.now slot.entry.attribute.now)) x.old) }
        ensures taken { OnOk result (taken.new ≡ taken.old ++ filter (takes self.entry slot.entry.current.now slot.entry.attribute.now) (flat_map entry_items (entries_of x.old))) }
    {
        if !is_select(x) {
            return Ok(());
        }
        if let Expr::Form(call) = x {
            if let [dict, ..] = call.seq.items.as_mut_slice() {
                if let Expr::Form(form) = dict {
                    self.on_entries(slot, &mut form.seq.items, taken)?;
                }
            }
        }
        Ok(())
    }

    /// Edits an operand that is a list, and the lists in its branches.
    #[tactic(auto, using(crate::proofs::EditedLists::list_operand, crate::proofs::EditedLists::other_operand, crate::proofs::EditedLists::list_items, crate::proofs::EditedLists::other_items))]
    fn on_operand(self, slot: Slot<'_>, x: &mut Expr, taken: &mut Items<Expr>) -> Done
        ensures left { OnOk result (x.new ≡ on_operand choices.Entered (edited self.entry slot.entry.current.now slot.entry.attribute.now) x.old) }
        ensures taken { OnOk result (taken.new ≡ taken.old ++ filter (takes self.entry slot.entry.current.now slot.entry.attribute.now) (operand_items x.old)) }
    {
        if has_kind(Kind::List, x) {
            self.on_list(slot, x, taken)?;
            return Ok(());
        }
        self.on_branches(slot, x, taken)?;
        Ok(())
    }

    /// Edits all lists of a value.
    #[tactic(auto, using(crate::proofs::EditedLists::all_taken, crate::proofs::EditedLists::alone_items))]
    fn on_all_lists(self, slot: Slot<'_>, x: &mut Expr, taken: &mut Items<Expr>) -> Done
        ensures left { OnOk result (x.new ≡ on_lists choices.Entered (items_edited self.entry slot.entry.current.now slot.entry.attribute.now) x.old) }
        ensures taken { OnOk result (taken.new ≡ taken.old ++ filter (takes self.entry slot.entry.current.now slot.entry.attribute.now) (items_in choices.Entered x.old)) }
    {
        if !has_kind(Kind::Sum, x) {
            self.on_operand(slot, x, taken)?;
            return Ok(());
        }
        if let Expr::Form(form) = x {
            for operand in form.parts.as_mut_slice().iter_mut() {
                self.on_operand(slot, operand, taken)?;
            }
        }
        Ok(())
    }

    /// Edits the lists of a value.
    pub(crate) fn on_lists(
        self,
        slot: Slot<'_>,
        selects: Selects,
        x: &mut Expr,
        taken: &mut Items<Expr>,
    ) -> Done
        ensures left { OnOk result (x.new ≡ on_lists selects (items_edited self.entry slot.entry.current.now slot.entry.attribute.now) x.old) }
        ensures taken { OnOk result (taken.new ≡ taken.old ++ filter (takes self.entry slot.entry.current.now slot.entry.attribute.now) (items_in selects x.old)) }
    {
        match selects {
            Selects::Skipped => self.on_own_lists(slot, x, taken),
            Selects::Entered => self.on_all_lists(slot, x, taken),
        }
    }
}
