//! Values of an attribute, to check whether a word means one of them.
ghost use Rattle.std.specs.Prelude.{◌≡◌, IfOk, OnOk, Some, not, false};
ghost use Rattle.std.specs.Bool.{OnFalse};
ghost use Rattle.std.specs.List.{flat_map};
ghost use Rattle.std.specs.Option.{option_copied, option_map_or};
ghost use Rattle.bz_list.specs.Words.{label_of, body_of as plain, is_some_item, listed as as_listed};
ghost use Rattle.bz_list.specs.Changes.{is_moved};
ghost use Rattle.bz_list.specs.private.KnownValues.{parts_of_key, word_key, knows_word, with_known, with_all};
ghost use Rattle.bz_list.specs.private.Listing.{chooses};

use bz_attribute::{Slot, body_of, has_kind, items_of};
use bz_command_syntax::Values;
use bz_grammar::Kind;
use bz_items::{Memory, Text};
use bz_label::bytes::{Parts, is_label_attribute, label_parts};
use bz_value::Expr;
use std::collections::BTreeSet;

/// Whether a word means a label in an attribute, and the parts of that label; any other word is a name alone.
pub(crate) fn meaning<'a>(slot: Slot<'a>, word: &'a [u8]) -> (bool, Parts<'a>)
    ensures { word_key slot.entry.current.now slot.entry.attribute.now word.entry.now ≡ (result.0, label_of result.1) }
{
    let alone = Parts {
        repository: &[],
        package: &[],
        name: word,
    };
    if !is_label_attribute(slot.attribute) {
        return (false, alone);
    }
    match label_parts(slot.current, word) {
        Some(parts) => (true, parts),
        None => (false, alone),
    }
}

/// The items of a list; of any other expression none.
pub(crate) fn listed(x: &Expr) -> &[Expr]
    ensures { result.now ≡ as_listed x.now }
{
    if has_kind(Kind::List, x) {
        return items_of(x);
    }
    &[]
}

/// By what a word is known: the three parts of the label that it means, or else itself as a name alone.
#[derive(PartialEq, Eq, PartialOrd, Ord, Drop)]
pub(crate) struct Key {
    is_label: bool,
    repository: Vec<u8>,
    package: Vec<u8>,
    name: Vec<u8>,
}

/// Values of an attribute. In a label attribute words that mean one label are one value.
pub(crate) type Known = BTreeSet<Key>;

/// The items that a command is meant for: those that are known, or all.
pub(crate) type Chosen = Option<Known>;

/// The key of a word in an attribute.
fn key_of(slot: Slot<'_>, word: &[u8]) -> Result<Key, Memory>
    ensures { IfOk result (λ key. parts_of_key key ≡ word_key slot.entry.current.now slot.entry.attribute.now word.now) }
{
    let (is_label, parts) = meaning(slot, word);
    Ok(Key {
        is_label,
        repository: Vec::from_slice(slot.alloc, parts.repository)?,
        package: Vec::from_slice(slot.alloc, parts.package)?,
        name: Vec::from_slice(slot.alloc, parts.name)?,
    })
}

/// The word is one of the known values from now on. The answer is whether it is a new one; where there is no word, it is.
#[tactic(auto, using(crate::proofs::KnownSteps::key_found, crate::proofs::KnownSteps::key_inserted, crate::proofs::KnownSteps::key_again))]
pub(crate) fn insert(known: &mut Known, slot: Slot<'_>, word: Option<&[u8]>) -> Result<bool, Memory>
    ensures is_new { IfOk result (λ is_new. is_new ≡ not (option_map_or (knows_word slot.entry.current.now slot.entry.attribute.now known.old) (option_copied word.entry) false)) }
    ensures more { OnOk result (knows_word slot.entry.current.now slot.entry.attribute.now known.new ≡ with_known slot.entry.current.now slot.entry.attribute.now (option_copied word.entry) (knows_word slot.entry.current.now slot.entry.attribute.now known.old)) }
    ensures again { IfOk result (λ is_new. OnFalse is_new (knows_word slot.entry.current.now slot.entry.attribute.now known.new ≡ knows_word slot.entry.current.now slot.entry.attribute.now known.old)) }
{
    let Some(word) = word else {
        return Ok(true);
    };
    let key = key_of(slot, word)?;
    Ok(known.insert(key)?)
}

/// The items that are one of these words.
#[tactic(auto, using(crate::proofs::KnownSteps::none_known))]
pub(crate) fn words_chosen(slot: Slot<'_>, words: &[Text]) -> Result<Chosen, Memory>
    ensures { IfOk result (λ chosen. chooses slot.entry.current.now slot.entry.attribute.now chosen ≡ is_some_item slot.entry.current.now slot.entry.attribute.now words.now) }
{
    let mut known = BTreeSet::new(slot.alloc);
    for word in words {
        insert(&mut known, slot, Some(word.as_slice()))?;
    }
    Ok(Some(known))
}

/// The items of the lists among these expressions as values.
#[tactic(auto, using(crate::proofs::KnownSteps::lists_next, crate::proofs::KnownSteps::none_known))]
pub(crate) fn items_known(slot: Slot<'_>, operands: &[Expr]) -> Result<Known, Memory>
    ensures { IfOk result (λ known. knows_word slot.entry.current.now slot.entry.attribute.now known ≡ with_all slot.entry.current.now slot.entry.attribute.now plain (flat_map as_listed operands.now) (λ word. false)) }
{
    let mut known = BTreeSet::new(slot.alloc);
    for x in operands {
        for item in listed(x) {
            insert(&mut known, slot, body_of(item))?;
        }
    }
    Ok(known)
}

/// The items that are moved.
pub(crate) fn values_chosen(slot: Slot<'_>, values: &Values) -> Result<Chosen, Memory>
    ensures { IfOk result (λ chosen. chooses slot.entry.current.now slot.entry.attribute.now chosen ≡ is_moved slot.entry.current.now slot.entry.attribute.now values.now) }
{
    match values {
        Values::All => Ok(None),
        Values::These(words) => words_chosen(slot, words.as_slice()),
    }
}

/// Whether the command is meant for an item.
#[tactic(auto, using(crate::proofs::KnownSteps::key_found))]
pub(crate) fn is_chosen(slot: Slot<'_>, chosen: &Chosen, x: &Expr) -> Result<bool, Memory>
    ensures { IfOk result (λ found. found ≡ chooses slot.entry.current.now slot.entry.attribute.now chosen.now x.now) }
{
    let Some(known) = chosen else {
        return Ok(true);
    };
    let Some(text) = body_of(x) else {
        return Ok(false);
    };
    let key = key_of(slot, text)?;
    Ok(known.contains(&key))
}
