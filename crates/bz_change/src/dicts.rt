//! What each command on dicts makes of the arguments of a rule: entries that are added, set and removed, and their values.
ghost use Rattle.std.specs.Prelude.{◌≡◌, ◌⊎◌, [], take, Ok, Err, IfOk, OnOk, IfErr, true, false};
ghost use Rattle.std.specs.List.{position};
ghost use Rattle.std.specs.Option.{option_copied};
ghost use Rattle.bz_grammar.specs.declared.kind.Kind.TheVariants as kinds;
ghost use Rattle.bz_rule.specs.Values.{has_kind as is_of, on_items};
ghost use Rattle.bz_change.specs.Words.{on_first_that};
ghost use Rattle.bz_value.specs.declared.refusal.Refusal.TheVariants.{NotADict};
ghost use Rattle.bz_change.specs.Dicts.{as_token, dict_list_add, dict_of, dict_remove, dicts_changed, entries_put, entry_put, entry_changed, entry_made, entry_with, has_key, key_of, list_put, on_dict, has_list_value, on_entry, refuses_items, takes_no_items, value_again, value_made, value_replaced, where_there, without_entries};
ghost use Rattle.bz_change.specs.private.Edits.{edited, value_edited};
ghost use Rattle.bz_change.specs.private.Outcomes.{IsOutcome, AreIndexed};

use crate::selects::set_select;
use crate::whole::{setting_of, single_setting};
use bz_attribute::{
    Slot, add_attribute, body_of, has_attribute, has_kind, has_lists, has_text, insert_text,
    is_item, items_of, new_token, node, parts_of, remove_first, sequence, set_text, set_value,
    string_of, string_text, take_value, token,
};
use bz_command_syntax::{DictOperation, Entry, Selects, quoted};
use bz_grammar::{Class, Kind};
use bz_items::{Items, Memory, Text};
use bz_label::bytes::is_list_attribute;
use bz_list::{add_strings, is_spelled, list_of_strings};
use bz_rule::attribute;
use bz_value::{Expr, Refusal};
use std::alloc::Global;
use std::collections::{BTreeMap, BTreeSet};
use std::{mem, slice};

/// The keys of a dict, each with the place of its first entry.
type Places = BTreeMap<Vec<u8>, usize>;

/// What becomes of an entry whose key is there.
#[derive(Clone, Copy)]
pub(crate) enum Change {
    /// It stays.
    Add,
    /// It gets the new value.
    Set,
    /// It is one of a `select` that is made: in a list attribute its list gets the new value as well, else it is the new one.
    Select,
}

/// What is done to the value of an entry.
#[derive(Clone, Copy)]
pub(crate) enum ValueChange<'a> {
    /// It becomes the string of a word.
    Set(&'a Text),
    /// It gets a further value of a `select`.
    Again(&'a Text),
    /// Words go to its first list.
    Extend(&'a [Text]),
    /// It becomes another one, where it is this one.
    Replace { old: &'a Text, new: &'a Text },
}

/// What is done to the entries of a dict.
#[derive(Clone, Copy)]
pub(crate) enum Edit<'a> {
    /// Entries are put to them, one after the other.
    Put {
        change: Change,
        entries: &'a [Entry],
    },
    /// Words go to the list of a key.
    Extend {
        key: &'a Text,
        words: &'a [Text],
    },
    /// The value of a key becomes another one, where it is this one.
    Replace {
        key: &'a Text,
        old: &'a Text,
        new: &'a Text,
    },
}

/// The key of an entry, where it is a plain string.
fn key_of(x: &Expr) -> Option<&[u8]>
    ensures { option_copied result ≡ key_of x.now }
{
    match parts_of(x) {
        [key, ..] if has_kind(Kind::Entry, x) => body_of(key),
        _ => None,
    }
}

/// Puts the keys of the entries from a place on to their places, each where it is the first of its key.
fn index(alloc: Global, from: usize, items: &[Expr], places: &mut Places) -> Result<(), Memory>
    requires { AreIndexed places.old (take from items.now) }
    ensures { OnOk result (AreIndexed places.new items.now) }
{
    for at in from..items.len() {
        let Some(key) = key_of(&items[at]) else {
            continue;
        };
        if places.contains_key(key) {
            continue;
        }
        let copy = Vec::from_slice(alloc, key)?;
        places.insert(copy, at)?;
    }
    Ok(())
}

/// An entry of this key and this value.
fn entry_with(alloc: Global, key: &[u8], value: Expr) -> Result<Expr, Memory>
    ensures { IfOk result (λ x. x ≡ entry_with key.now value) }
{
    let mut parts = Vec::with_capacity(alloc, 3)?;
    parts.push_reserved(token(Class::String, quoted(alloc, key)?));
    parts.push_reserved(new_token(alloc, Class::Mark, b":")?);
    parts.push_reserved(value);
    Ok(node(alloc, Kind::Entry, Items::from_vec(parts)))
}

/// The value that a new entry gets.
fn value_made(slot: Slot<'_>, change: Change, word: &Text) -> Result<Expr, Memory>
    ensures { IfOk result (λ value. value ≡ value_made change slot.entry.current.now slot.entry.attribute.now word.now) }
{
    match change {
        Change::Add | Change::Set => string_of(slot, word.as_slice()),
        Change::Select => setting_of(slot, slice::from_ref(word)),
    }
}

/// The entry that is put into the dict of an attribute.
fn entry_made(slot: Slot<'_>, change: Change, entry: &Entry) -> Result<Expr, Memory>
    ensures { IfOk result (λ x. x ≡ entry_made change slot.entry.current.now slot.entry.attribute.now entry.now) }
{
    let value = value_made(slot, change, &entry.value)?;
    entry_with(slot.alloc, entry.key.as_slice(), value)
}

/// A token becomes another one, and keeps its comments.
fn become_token(mut new: Expr, x: &mut Expr)
    ensures { x.new ≡ as_token new x.old }
{
    if let (Expr::Token(new), Expr::Token(token)) = (&mut new, x) {
        token.class = new.class;
        mem::swap(&mut token.text, &mut new.text);
    }
}

/// A plain string that means the old value becomes the new one, and so does a name or a number that is spelled so.
fn replace_value(slot: Slot<'_>, old: &[u8], new: &[u8], value: &mut Expr) -> Result<(), Memory>
    ensures { OnOk result (value.new ≡ value_replaced slot.entry.current.now slot.entry.attribute.now old.now new.now value.old) }
{
    if is_item(slot.current, slot.attribute, old, value) {
        set_text(string_text(slot, new)?, value);
        return Ok(());
    }
    if is_spelled(old, value) {
        become_token(single_setting(slot, new)?, value);
    }
    Ok(())
}

/// The value of a key that comes again in a `select`.
fn value_again(slot: Slot<'_>, word: &Text, value: &mut Expr) -> Result<(), Memory>
    ensures { OnOk result (value.new ≡ value_again slot.entry.current.now slot.entry.attribute.now word.now value.old) }
{
    if is_list_attribute(slot.attribute) {
        return add_strings(slot, slice::from_ref(word), value);
    }
    let mut new = setting_of(slot, slice::from_ref(word))?;
    mem::swap(value, &mut new);
    Ok(())
}

impl ValueChange<'_> {
    /// Changes a value.
    fn on_value(self, slot: Slot<'_>, value: &mut Expr) -> Result<(), Memory>
        ensures { OnOk result (value.new ≡ value_edited self.entry slot.entry.current.now slot.entry.attribute.now value.old) }
    {
        match self {
            ValueChange::Set(word) => {
                let mut new = string_of(slot, word.as_slice())?;
                mem::swap(value, &mut new);
                Ok(())
            }
            ValueChange::Again(word) => value_again(slot, word, value),
            ValueChange::Extend(words) => add_strings(slot, words, value),
            ValueChange::Replace { old, new } => {
                replace_value(slot, old.as_slice(), new.as_slice(), value)
            }
        }
    }

    /// Changes the value of an entry; any other expression stays.
    fn on_entry(self, slot: Slot<'_>, x: &mut Expr) -> Result<(), Memory>
        ensures { OnOk result (x.new ≡ on_entry (value_edited self.entry slot.entry.current.now slot.entry.attribute.now) x.old) }
    {
        if !has_kind(Kind::Entry, x) {
            return Ok(());
        }
        if let Expr::Form(form) = x {
            if let [_, _, value, ..] = form.parts.as_mut_slice() {
                self.on_value(slot, value)?;
            }
        }
        Ok(())
    }
}

/// An entry whose key is there stays or gets another value.
fn change_entry(slot: Slot<'_>, change: Change, entry: &Entry, x: &mut Expr) -> Result<(), Memory>
    ensures { OnOk result (x.new ≡ entry_changed change slot.entry.current.now slot.entry.attribute.now entry.now x.old) }
{
    match change {
        Change::Add => Ok(()),
        Change::Set => ValueChange::Set(&entry.value).on_entry(slot, x),
        Change::Select => ValueChange::Again(&entry.value).on_entry(slot, x),
    }
}

/// Puts an entry to those of a dict: the first of its key, where that is there, stays or gets another value; else it goes last.
#[tactic(auto, using(crate::proofs::KeyPlaces::put_there, crate::proofs::KeyPlaces::put_nowhere))]
fn put_entry(
    slot: Slot<'_>,
    change: Change,
    entry: &Entry,
    items: &mut Items<Expr>,
) -> Result<(), Memory>
    ensures { OnOk result (items.new ≡ entry_put change slot.entry.current.now slot.entry.attribute.now entry.now items.old) }
{
    let Some(at) = place_of_key(entry.key.as_slice(), items.as_slice()) else {
        items.push(entry_made(slot, change, entry)?)?;
        return Ok(());
    };
    change_entry(slot, change, entry, items.at_mut(at))?;
    Ok(())
}

/// As `put_entries` says, by an index of the keys.
fn put_indexed(
    slot: Slot<'_>,
    change: Change,
    entries: &[Entry],
    items: &mut Items<Expr>,
) -> Result<(), Memory>
    ensures { OnOk result (items.new ≡ entries_put change slot.entry.current.now slot.entry.attribute.now entries.now items.old) }
{
    let mut places = BTreeMap::new(slot.alloc);
    index(slot.alloc, 0, items.as_slice(), &mut places)?;
    for entry in entries {
        let Some(&at) = places.get(entry.key.as_slice()) else {
            let from = items.len();
            items.push(entry_made(slot, change, entry)?)?;
            index(slot.alloc, from, items.as_slice(), &mut places)?;
            continue;
        };
        change_entry(slot, change, entry, items.at_mut(at))?;
    }
    Ok(())
}

/// Puts entries to those of a dict, one after the other: the first of a key that is there stays or gets another value, one of another
/// key goes last. A single one is sought among the items, since an index of these takes far longer to make.
fn put_entries(
    slot: Slot<'_>,
    change: Change,
    entries: &[Entry],
    items: &mut Items<Expr>,
) -> Result<(), Memory>
    ensures { OnOk result (items.new ≡ entries_put change slot.entry.current.now slot.entry.attribute.now entries.now items.old) }
{
    match entries {
        [entry] => put_entry(slot, change, entry, items),
        _ => put_indexed(slot, change, entries, items),
    }
}

/// Whether the expression is an entry of this key.
fn has_key(key: &[u8], x: &Expr) -> bool
    ensures { result ≡ has_key key.now x.now }
{
    match key_of(x) {
        Some(own) => own == key,
        None => false,
    }
}

/// Where the first entry of a key is.
fn place_of_key(key: &[u8], items: &[Expr]) -> Option<usize>
    ensures { result ≡ position (has_key key.now) items.now }
{
    items.iter().position(|x| has_key(key, x))
}

/// Changes the value of the first entry of a key.
#[tactic(auto, using(crate::proofs::KeyPlaces::entry_there, crate::proofs::KeyPlaces::entry_nowhere))]
fn change_at_key(
    slot: Slot<'_>,
    key: &[u8],
    change: ValueChange<'_>,
    items: &mut Items<Expr>,
) -> Result<(), Memory>
    ensures { OnOk result (items.new ≡ on_first_that (has_key key.now) (on_entry (value_edited change.entry slot.entry.current.now slot.entry.attribute.now)) items.old) }
{
    let Some(at) = place_of_key(key, items.as_slice()) else {
        return Ok(());
    };
    change.on_entry(slot, items.at_mut(at))?;
    Ok(())
}

/// Puts words to the list of a key; where it is not there, a new entry goes last.
#[tactic(auto, using(crate::proofs::KeyPlaces::key_there, crate::proofs::KeyPlaces::key_nowhere))]
fn put_list(
    slot: Slot<'_>,
    key: &[u8],
    words: &[Text],
    items: &mut Items<Expr>,
) -> Result<(), Memory>
    ensures { OnOk result (items.new ≡ list_put slot.entry.current.now slot.entry.attribute.now key.now words.now items.old) }
{
    if place_of_key(key, items.as_slice()).is_some() {
        change_at_key(slot, key, ValueChange::Extend(words), items)?;
        return Ok(());
    }
    let list = list_of_strings(slot, words)?;
    items.push(entry_with(slot.alloc, key, list)?)?;
    Ok(())
}

impl Edit<'_> {
    /// Changes the entries of a dict.
    fn on_entries(self, slot: Slot<'_>, items: &mut Items<Expr>) -> Result<(), Memory>
        ensures { OnOk result (items.new ≡ edited self.entry slot.entry.current.now slot.entry.attribute.now items.old) }
    {
        match self {
            Edit::Put { change, entries } => put_entries(slot, change, entries, items),
            Edit::Extend { key, words } => put_list(slot, key.as_slice(), words, items),
            Edit::Replace { key, old, new } => {
                change_at_key(
                    slot,
                    key.as_slice(),
                    ValueChange::Replace { old, new },
                    items,
                )
            }
        }
    }
}

/// The same for a value, which is to be a dict.
fn edit_value(slot: Slot<'_>, edit: Edit<'_>, x: &mut Expr) -> Result<(), Refusal>
    ensures ok { OnOk result ((x.new ≡ on_items kinds.Dict (edited edit.entry slot.entry.current.now slot.entry.attribute.now) x.old) × (is_of kinds.Dict x.old ≡ true)) }
    ensures err { IfErr result (λ refusal. ((refusal ≡ NotADict) × (is_of kinds.Dict x.old ≡ false)) ⊎ (refusal ≡ Refusal.Memory)) }
{
    match x {
        Expr::Form(form) if form.kind == Kind::Dict => {
            edit.on_entries(slot, &mut form.seq.items)?;
            Ok(())
        }
        _ => Err(Refusal::NotADict),
    }
}

/// A dict of what is put to no entries.
pub(crate) fn new_dict(slot: Slot<'_>, edit: Edit<'_>) -> Result<Expr, Memory>
    ensures { IfOk result (λ dict. dict ≡ dict_of (edited edit.entry slot.entry.current.now slot.entry.attribute.now [])) }
{
    let alloc = slot.alloc;
    let mut items = Items::new(alloc);
    edit.on_entries(slot, &mut items)?;
    Ok(sequence(alloc, Kind::Dict, Items::new(alloc), items))
}

/// Changes the entries of an attribute's dict; where the attribute is absent, it gets a new dict.
fn change_dict(slot: Slot<'_>, edit: Edit<'_>, arguments: &mut Items<Expr>) -> Result<(), Refusal>
    ensures { IsOutcome result arguments.new (on_dict slot.entry.attribute.now (edited edit.entry slot.entry.current.now slot.entry.attribute.now) arguments.old) }
{
    let Some(mut value) = take_value(slot.alloc, slot.attribute, arguments) else {
        let dict = new_dict(slot, edit)?;
        add_attribute(slot.alloc, slot.attribute, dict, arguments)?;
        return Ok(());
    };
    if let Err(refusal) = edit_value(slot, edit, &mut value) {
        drop(value);
        return Err(refusal);
    }
    set_value(slot.attribute, value, arguments);
    Ok(())
}

/// Whether the value of an entry is a list, or a sum with one.
fn has_list_value(x: &Expr) -> bool
    ensures { result ≡ has_list_value x.now }
{
    match parts_of(x) {
        [_, _, value, ..] if has_kind(Kind::Entry, x) => has_lists(Selects::Skipped, value),
        _ => false,
    }
}

/// Whether the first entry of a key has another value.
fn takes_no_items(key: &[u8], items: &[Expr]) -> bool
    ensures { result ≡ takes_no_items key.now items.now }
{
    for x in items {
        if has_key(key, x) {
            return !has_list_value(x);
        }
    }
    false
}

/// The same of a value that is a dict.
fn refuses_items(key: &[u8], value: &Expr) -> bool
    ensures { result ≡ refuses_items key.now value.now }
{
    has_kind(Kind::Dict, value) && takes_no_items(key, items_of(value))
}

/// Puts words to the list of a key in the attribute's dict.
fn dict_list_add(
    slot: Slot<'_>,
    key: &Text,
    words: &[Text],
    arguments: &mut Items<Expr>,
) -> Result<(), Refusal>
    ensures { IsOutcome result arguments.new (dict_list_add slot.entry.current.now slot.entry.attribute.now key.now words.now arguments.old) }
{
    let value = attribute(slot.attribute, arguments.as_slice());
    if value.is_some_and(|value| refuses_items(key.as_slice(), value)) {
        return Err(Refusal::NotAList);
    }
    change_dict(slot, Edit::Extend { key, words }, arguments)
}

/// The value of a key in the attribute's dict becomes another one, where it is this one.
fn dict_replace_if_equal(
    slot: Slot<'_>,
    edit: Edit<'_>,
    arguments: &mut Items<Expr>,
) -> Result<(), Refusal>
    ensures { IsOutcome result arguments.new (where_there slot.entry.attribute.now (edited edit.entry slot.entry.current.now slot.entry.attribute.now) arguments.old) }
{
    if !has_attribute(slot.attribute, arguments.as_slice()) {
        return Ok(());
    }
    change_dict(slot, edit, arguments)
}

/// Takes all entries of these keys from those of a dict.
fn remove_entries(keys: &[Text], items: &mut Items<Expr>) -> Result<(), Memory>
    ensures { OnOk result (items.new ≡ without_entries keys.now items.old) }
{
    let alloc = items.alloc();
    let mut chosen = BTreeSet::new(alloc);
    for key in keys {
        insert_text(alloc, &mut chosen, key.as_slice())?;
    }
    let mut all = mem::replace(items, Items::new(alloc)).into_vec();
    all.retain(|x| !key_of(x).is_some_and(|key| has_text(&chosen, key)));
    *items = Items::from_vec(all);
    Ok(())
}

/// The same for a value, which is to be a dict.
fn remove_from(keys: &[Text], x: &mut Expr) -> Result<(), Refusal>
    ensures ok { OnOk result ((x.new ≡ on_items kinds.Dict (without_entries keys.now) x.old) × (is_of kinds.Dict x.old ≡ true)) }
    ensures err { IfErr result (λ refusal. ((refusal ≡ NotADict) × (is_of kinds.Dict x.old ≡ false)) ⊎ (refusal ≡ Refusal.Memory)) }
{
    match x {
        Expr::Form(form) if form.kind == Kind::Dict => {
            remove_entries(keys, &mut form.seq.items)?;
            Ok(())
        }
        _ => Err(Refusal::NotADict),
    }
}

/// Takes all entries of these keys from the attribute's dict. The attribute goes where its dict had entries and has none left.
fn dict_remove(name: &[u8], keys: &[Text], arguments: &mut Items<Expr>) -> Result<(), Refusal>
    ensures { IsOutcome result arguments.new (dict_remove name.now keys.now arguments.old) }
{
    let Some(mut value) = take_value(arguments.alloc(), name, arguments) else {
        return Ok(());
    };
    let was_empty = items_of(&value).is_empty();
    if let Err(refusal) = remove_from(keys, &mut value) {
        drop(value);
        return Err(refusal);
    }
    if items_of(&value).is_empty() && !was_empty {
        drop(value);
        remove_first(name, arguments);
        return Ok(());
    }
    set_value(name, value, arguments);
    Ok(())
}

/// What an operation on dicts makes of the arguments of a rule. `current` is the path of the file's package. Errors: `NotADict`: the
/// attribute's value is no dict; `Memory`: a growth was refused. After an error part of the arguments may be lost.
pub fn change_dicts(
    alloc: Global,
    operation: &DictOperation,
    current: &[u8],
    arguments: &mut Items<Expr>,
) -> Result<(), Refusal>
    ensures ok { OnOk result (dicts_changed operation.now current.now arguments.old ≡ Ok arguments.new) }
    ensures err { IfErr result (λ refusal. (dicts_changed operation.now current.now arguments.old ≡ Err refusal) ⊎ (refusal ≡ Refusal.Memory)) }
{
    match operation {
        DictOperation::Add { attribute, entries } => {
            let slot = Slot::new(alloc, current, attribute.as_slice());
            let (change, entries) = (Change::Add, entries.as_slice());
            change_dict(slot, Edit::Put { change, entries }, arguments)
        }
        DictOperation::Set { attribute, entries } => {
            let slot = Slot::new(alloc, current, attribute.as_slice());
            let (change, entries) = (Change::Set, entries.as_slice());
            change_dict(slot, Edit::Put { change, entries }, arguments)
        }
        DictOperation::Remove { attribute, keys } => {
            dict_remove(attribute.as_slice(), keys.as_slice(), arguments)
        }
        DictOperation::ReplaceIfEqual {
            attribute,
            key,
            old,
            new,
        } => {
            let slot = Slot::new(alloc, current, attribute.as_slice());
            dict_replace_if_equal(slot, Edit::Replace { key, old, new }, arguments)
        }
        DictOperation::ListAdd {
            attribute,
            key,
            values,
        } => {
            let slot = Slot::new(alloc, current, attribute.as_slice());
            dict_list_add(slot, key, values.as_slice(), arguments)
        }
        DictOperation::Select { attribute, entries } => {
            let slot = Slot::new(alloc, current, attribute.as_slice());
            set_select(slot, entries.as_slice(), arguments)
        }
    }
}
