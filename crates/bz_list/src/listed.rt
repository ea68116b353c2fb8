//! Items that are added to the lists of an attribute, removed from them and moved to another one, and the table of all commands on values.
ghost use Rattle.std.specs.Prelude.{◌≡◌, ◌⊎◌, ◌↔◌, IsTrue, ◌++◌, ◌∷◌, [], ℕ, List, Ok, Err, IfOk, OnOk, IfErr, map, not, false};
ghost use Rattle.std.specs.List.{filter, flat_map, list_any};
ghost use Rattle.std.specs.Option.{option_map_or};
ghost use Rattle.bz_command_syntax.specs.declared.command.Selects.TheVariants as choices;
ghost use Rattle.bz_grammar.specs.declared.kind.Kind.TheVariants as kinds;
ghost use Rattle.bz_list.specs.Words.{is_empty, attribute as value_there, has_kind as is_of, on_items, on_lists, on_first_that, fresh, is_item as is_item_of, items_in, list_of as list_made, listed as as_listed, with_more, string_of as string_made};
ghost use Rattle.bz_list.specs.Changes.{argument_left, is_spelled, equals_word, move, remove_everywhere, remove_if_equal, remove_values, strings_added, tells_change, values_changed, with_items_added, with_strings};
ghost use Rattle.bz_list.specs.private.KnownValues.{knows_word};
ghost use Rattle.bz_list.specs.private.Listing.{added_by, added_to, chooses, chosen_in, is_item_ending, is_left, new_items, new_strings, put_back, value_with, without_chosen};

use crate::editing::{Done, Edit};
use crate::known::{
    Chosen, Known, insert, items_known, listed, meaning, values_chosen, words_chosen,
};
use crate::replacing::Change;
use bz_attribute::{
    Slot, add_attribute, append_to, body_of, first_of_kind, first_text, has_kind, has_lists,
    is_empty_list, is_item, is_no_list, is_other_attribute, list_of, operands_of, parts_of, plus,
    remove_first, set_value, string_of, take_value,
};
use bz_command_syntax::{Attributes, Selects, ValueOperation, Values};
use bz_grammar::{Class, Kind};
use bz_items::{Items, Memory, Text};
use bz_rule::{attribute, inside, text_of};
use bz_value::{Expr, Refusal};
use std::alloc::Global;
use std::mem;

/// What is added to an attribute.
#[derive(Drop)]
enum Added<'a> {
    /// Words that become strings.
    Words(&'a [Text]),
    /// Items that another attribute had.
    Moved(Items<Expr>),
}

/// Puts the string of a word after the others, unless the word is known.
#[tactic(auto, using(crate::proofs::AddedItems::one_more))]
fn push_string(slot: Slot<'_>, word: &[u8], known: &mut Known, items: &mut Items<Expr>) -> Done
    ensures { (rest : List (List ℕ)) → OnOk result (items.new ++ new_strings slot.entry.current.now slot.entry.attribute.now (knows_word slot.entry.current.now slot.entry.attribute.now known.new) rest ≡ items.old ++ new_strings slot.entry.current.now slot.entry.attribute.now (knows_word slot.entry.current.now slot.entry.attribute.now known.old) (word.now ∷ rest)) }
{
    if insert(known, slot, Some(word))? {
        items.push(string_of(slot, word)?)?;
    }
    Ok(())
}

/// Puts an item after the others as it comes to the attribute, unless it is known.
#[tactic(auto, using(crate::proofs::AddedItems::one_more))]
fn push_moved(slot: Slot<'_>, mut x: Expr, known: &mut Known, items: &mut Items<Expr>) -> Done
    ensures { (rest : List Expr) → OnOk result (items.new ++ new_items slot.entry.current.now slot.entry.attribute.now (knows_word slot.entry.current.now slot.entry.attribute.now known.new) rest ≡ items.old ++ new_items slot.entry.current.now slot.entry.attribute.now (knows_word slot.entry.current.now slot.entry.attribute.now known.old) (x ∷ rest)) }
{
    if !insert(known, slot, body_of(&x))? {
        return Ok(());
    }
    Change::Shorten.on_item(slot, &mut x)?;
    items.push(x)
}

/// The items that are added to those that are known, each once and as it comes to the attribute.
fn added_items(slot: Slot<'_>, added: Added<'_>, mut known: Known) -> Result<Items<Expr>, Memory>
    ensures { IfOk result (λ items. items ≡ added_to slot.entry.current.now slot.entry.attribute.now added.entry (knows_word slot.entry.current.now slot.entry.attribute.now known)) }
{
    let mut items = Items::new(slot.alloc);
    match added {
        Added::Words(words) => {
            for word in words {
                push_string(slot, word.as_slice(), &mut known, &mut items)?;
            }
        }
        Added::Moved(moved) => {
            for x in moved.into_vec() {
                push_moved(slot, x, &mut known, &mut items)?;
            }
        }
    }
    Ok(items)
}

/// Whether a word means an item. What the item ends with is looked at first: most others end otherwise.
fn is_item_ending(slot: Slot<'_>, word: &[u8], end: &[u8], x: &Expr) -> bool
    ensures { result ≡ is_item_ending slot.entry.current.now slot.entry.attribute.now word.now end.now x.now }
{
    inside(1, text_of(x)).ends_with(end) && is_item(slot.current, slot.attribute, word, x)
}

/// Whether a word means an item of a list.
fn is_in_list(slot: Slot<'_>, word: &[u8], end: &[u8], x: &Expr) -> bool
    ensures { result ≡ list_any (is_item_ending slot.entry.current.now slot.entry.attribute.now word.now end.now) (as_listed x.now) }
{
    let mut items = listed(x).iter();
    items.any(|item| is_item_ending(slot, word, end, item))
}

/// The same of the lists among these expressions.
fn is_in_lists(slot: Slot<'_>, word: &[u8], end: &[u8], operands: &[Expr]) -> bool
    ensures { result ≡ list_any (λ x. list_any (is_item_ending slot.entry.current.now slot.entry.attribute.now word.now end.now) (as_listed x)) operands.now }
{
    operands.iter().any(|x| is_in_list(slot, word, end, x))
}

/// Whether a word means an item of the lists among these expressions. Each text that means the same ends with the name
/// of the label that the word is, or with the word itself.
fn is_there(slot: Slot<'_>, word: &[u8], operands: &[Expr]) -> bool
    ensures { result ≡ list_any (is_item_of slot.entry.current.now slot.entry.attribute.now word.now) (flat_map as_listed operands.now) }
{
    let (_, parts) = meaning(slot, word);
    is_in_lists(slot, word, parts.name, operands)
}

/// The string of a word that is added alone to the items of lists: no set of these is made.
#[tactic(auto, using(crate::proofs::AddedItems::one_fresh))]
fn one_beside(slot: Slot<'_>, word: &[u8], operands: &[Expr]) -> Result<Items<Expr>, Memory>
    ensures { IfOk result (λ items. items ≡ map (string_made slot.entry.current.now slot.entry.attribute.now) (fresh slot.entry.current.now slot.entry.attribute.now (flat_map as_listed operands.now) [] (word.now ∷ []))) }
{
    let mut items = Items::new(slot.alloc);
    if !is_there(slot, word, operands) {
        items.push(string_of(slot, word)?)?;
    }
    Ok(items)
}

/// The items that are added to those of the lists among these expressions.
#[tactic(auto, using(crate::proofs::AddedItems::added_there))]
fn added_beside(slot: Slot<'_>, added: Added<'_>, operands: &[Expr]) -> Result<Items<Expr>, Memory>
    ensures { IfOk result (λ items. items ≡ added_by slot.entry.current.now slot.entry.attribute.now added.entry (flat_map as_listed operands.now)) }
{
    if let Added::Words([word]) = &added {
        return one_beside(slot, word.as_slice(), operands);
    }
    let known = items_known(slot, operands)?;
    let items = added_items(slot, added, known)?;
    Ok(items)
}

/// Puts all of `more` after the items of the first list among the operands of a sum.
#[tactic(auto, using(crate::proofs::ListedForms::changed_there, crate::proofs::ListedForms::changed_nowhere))]
fn append_to_first(more: &mut Vec<Expr>, operands: &mut Items<Expr>) -> Done
    ensures { OnOk result (operands.new ≡ on_first_that (is_of kinds.List) (on_items kinds.List (λ items. items ++ more.old.items)) operands.old) }
{
    if let Some(at) = first_of_kind(Kind::List, operands.as_slice()) {
        append_to(Kind::List, more, operands.at_mut(at))?;
    }
    Ok(())
}

/// The same for the first list of a value.
fn append_to_value(more: &mut Vec<Expr>, value: &mut Expr) -> Done
    ensures { OnOk result (value.new ≡ with_more more.old.items value.old) }
{
    match value {
        Expr::Form(form) if form.kind == Kind::Sum => append_to_first(more, &mut form.parts),
        _ => append_to(Kind::List, more, value),
    }
}

/// A value with items at the end of its first list, and whether it is the same; one that is no list becomes a sum with a new one.
#[tactic(auto, using(crate::proofs::ListedForms::no_items))]
fn grown(slot: Slot<'_>, more: Items<Expr>, mut value: Expr) -> Result<(Expr, bool), Memory>
    ensures value { (added : List Expr → List Expr) → more ≡ added (items_in choices.Skipped value) → IfOk result (λ made. made.0 ≡ value_with added value) }
    ensures same { IfOk result (λ made. IsTrue made.1 ↔ (made.0 ≡ value)) }
{
    if has_lists(Selects::Skipped, &value) {
        let same = more.is_empty();
        append_to_value(&mut more.into_vec(), &mut value)?;
        return Ok((value, same));
    }
    let sum = plus(slot.alloc, value, list_of(slot.alloc, more))?;
    Ok((sum, false))
}

/// Adds items to an attribute. The answer: whether the arguments stay the same.
#[tactic(auto, using(crate::proofs::ListedForms::added_found))]
fn add_items(slot: Slot<'_>, added: Added<'_>, arguments: &mut Items<Expr>) -> Result<bool, Refusal>
    ensures ok { OnOk result (with_items_added slot.entry.attribute.now (added_by slot.entry.current.now slot.entry.attribute.now added.entry) arguments.old ≡ Ok arguments.new) }
    ensures same { IfOk result (λ same. IsTrue same ↔ (arguments.new ≡ arguments.old)) }
    ensures err { IfErr result (λ refusal. (with_items_added slot.entry.attribute.now (added_by slot.entry.current.now slot.entry.attribute.now added.entry) arguments.old ≡ Err refusal) ⊎ (refusal ≡ Refusal.Memory)) }
{
    let Some(value) = take_value(slot.alloc, slot.attribute, arguments) else {
        let list = list_of(slot.alloc, added_beside(slot, added, &[])?);
        add_attribute(slot.alloc, slot.attribute, list, arguments)?;
        return Ok(false);
    };
    if is_no_list(&value) {
        return Err(Refusal::NotAList);
    }
    let more = added_beside(slot, added, operands_of(&value))?;
    let (value, same) = grown(slot, more, value)?;
    set_value(slot.attribute, value, arguments);
    Ok(same)
}

/// Puts what is left of a value back; where items were taken and it is an empty list, the attribute goes.
fn put_back(name: &[u8], taken: &[Expr], value: Expr, arguments: &mut Items<Expr>)
    ensures { arguments.new ≡ put_back name.now (not (is_empty taken.now)) value arguments.old }
{
    if !taken.is_empty() && is_empty_list(&value) {
        remove_first(name, arguments);
    } else {
        set_value(name, value, arguments);
    }
}

/// Takes the items that the command is meant for from the attribute's lists, and the attribute where its value is empty then.
fn take_items(
    slot: Slot<'_>,
    selects: Selects,
    chosen: &Chosen,
    arguments: &mut Items<Expr>,
) -> Result<Items<Expr>, Memory>
    ensures left { OnOk result (arguments.new ≡ without_chosen selects slot.entry.attribute.now (chooses slot.entry.current.now slot.entry.attribute.now chosen.now) (value_there slot.entry.attribute.now arguments.old) arguments.old) }
    ensures taken { IfOk result (λ taken. taken ≡ chosen_in selects (chooses slot.entry.current.now slot.entry.attribute.now chosen.now) (value_there slot.entry.attribute.now arguments.old)) }
{
    let mut taken = Items::new(slot.alloc);
    let Some(mut value) = take_value(slot.alloc, slot.attribute, arguments) else {
        return Ok(taken);
    };
    Edit::Take(chosen).on_lists(slot, selects, &mut value, &mut taken)?;
    put_back(slot.attribute, taken.as_slice(), value, arguments);
    Ok(taken)
}

/// Items that are one of the words go; the attribute goes where its whole value is then an empty list. The answer: whether the arguments
/// stay the same.
fn remove_values(
    slot: Slot<'_>,
    selects: Selects,
    words: &[Text],
    arguments: &mut Items<Expr>,
) -> Result<bool, Refusal>
    ensures ok { OnOk result (remove_values selects slot.entry.current.now slot.entry.attribute.now words.now arguments.old ≡ Ok arguments.new) }
    ensures same { IfOk result (λ same. IsTrue same ↔ (arguments.new ≡ arguments.old)) }
    ensures err { IfErr result (λ refusal. (remove_values selects slot.entry.current.now slot.entry.attribute.now words.now arguments.old ≡ Err refusal) ⊎ (refusal ≡ Refusal.Memory)) }
{
    let Some(value) = attribute(slot.attribute, arguments.as_slice()) else {
        return Ok(true);
    };
    if is_no_list(value) {
        return Err(Refusal::NotAList);
    }
    let chosen = words_chosen(slot, words)?;
    let taken = take_items(slot, selects, &chosen, arguments)?;
    Ok(taken.is_empty())
}

/// What is left of one argument without the items that are one of the words, where `*` means it.
fn argument_left(
    alloc: Global,
    current: &[u8],
    selects: Selects,
    words: &[Text],
    x: Expr,
) -> Result<Items<Expr>, Memory>
    ensures { IfOk result (λ left. left ≡ argument_left selects current.now words.now x) }
{
    let mut left = Items::new(alloc);
    if !is_other_attribute(&x) {
        left.push(x)?;
        return Ok(left);
    }
    let name = Text::from_slice(alloc, first_text(parts_of(&x)))?;
    left.push(x)?;
    let slot = Slot::new(alloc, current, name.as_slice());
    let chosen = words_chosen(slot, words)?;
    take_items(slot, selects, &chosen, &mut left)?;
    Ok(left)
}

/// Items that are one of the words go from the lists of all attributes but `name`, and each attribute whose whole value is then an empty list.
fn remove_everywhere(
    alloc: Global,
    current: &[u8],
    selects: Selects,
    words: &[Text],
    arguments: &mut Items<Expr>,
) -> Done
    ensures { OnOk result (remove_everywhere selects current.now words.now arguments.old ≡ Ok arguments.new) }
{
    let mut all = Vec::new(alloc);
    for x in mem::replace(arguments, Items::new(alloc)).into_vec() {
        let mut left = argument_left(alloc, current, selects, words, x)?.into_vec();
        all.append(&mut left)?;
    }
    *arguments = Items::from_vec(all);
    Ok(())
}

/// Whether the expression is a name or a number that is spelled so.
pub fn is_spelled(word: &[u8], x: &Expr) -> bool
    ensures { result ≡ is_spelled word.now x.now }
{
    match x {
        Expr::Token(token) if token.class == Class::Name || token.class == Class::Number => {
            token.text.as_slice() == word
        }
        _ => false,
    }
}

/// Whether a value is a plain string that means the same as the word, or a name or a number that is spelled so.
fn equals_word(slot: Slot<'_>, word: &[u8], x: &Expr) -> bool
    ensures { result ≡ equals_word slot.entry.current.now slot.entry.attribute.now word.now x.now }
{
    is_item(slot.current, slot.attribute, word, x) || is_spelled(word, x)
}

/// Whether the attribute is there and has this value.
fn has_value(slot: Slot<'_>, word: &[u8], arguments: &[Expr]) -> bool
    ensures { result ≡ option_map_or (equals_word slot.entry.current.now slot.entry.attribute.now word.now) (value_there slot.entry.attribute.now arguments.now) false }
{
    match attribute(slot.attribute, arguments) {
        Some(value) => equals_word(slot, word, value),
        None => false,
    }
}

/// The attribute goes where it has this value.
fn remove_if_equal(slot: Slot<'_>, word: &[u8], arguments: &mut Items<Expr>)
    ensures { remove_if_equal slot.entry.current.now slot.entry.attribute.now word.now arguments.old ≡ Ok arguments.new }
{
    if has_value(slot, word, arguments.as_slice()) {
        remove_first(slot.attribute, arguments);
    }
}

/// Puts the strings of words, each once, after the items of the first list of a value, unless they are items of its lists. The error: a growth
/// was refused.
pub fn add_strings(slot: Slot<'_>, words: &[Text], value: &mut Expr) -> Result<(), Memory>
    ensures { OnOk result (value.new ≡ with_strings slot.entry.current.now slot.entry.attribute.now words.now value.old) }
{
    let more = added_beside(slot, Added::Words(words), operands_of(value))?;
    append_to_value(&mut more.into_vec(), value)
}

/// A new list of the strings of words, each once. The error: a growth was refused.
pub fn list_of_strings(slot: Slot<'_>, words: &[Text]) -> Result<Expr, Memory>
    ensures { IfOk result (λ list. list ≡ list_made (strings_added slot.entry.current.now slot.entry.attribute.now words.now [])) }
{
    let items = added_beside(slot, Added::Words(words), &[])?;
    Ok(list_of(slot.alloc, items))
}

/// Items leave one attribute and are added to another.
fn move_values(
    from: Slot<'_>,
    to: &[u8],
    values: &Values,
    arguments: &mut Items<Expr>,
) -> Result<(), Refusal>
    ensures ok { OnOk result (move from.entry.current.now from.entry.attribute.now to.now values.now arguments.old ≡ Ok arguments.new) }
    ensures err { IfErr result (λ refusal. (move from.entry.current.now from.entry.attribute.now to.now values.now arguments.old ≡ Err refusal) ⊎ (refusal ≡ Refusal.Memory)) }
{
    let Some(value) = attribute(from.attribute, arguments.as_slice()) else {
        return Err(Refusal::NoAttribute);
    };
    if !has_lists(Selects::Skipped, value) {
        return Err(Refusal::NotAList);
    }
    let chosen = values_chosen(from, values)?;
    let taken = take_items(from, Selects::Skipped, &chosen, arguments)?;
    if taken.is_empty() {
        return Ok(());
    }
    let to = Slot {
        attribute: to,
        ..from
    };
    add_items(to, Added::Moved(taken), arguments)?;
    Ok(())
}

/// Whether the answer of `change_values` says exactly whether the arguments stay the same.
pub fn tells_change(operation: &ValueOperation) -> bool
    ensures { result ≡ tells_change operation.now }
{
    matches!(
        operation,
        ValueOperation::Add { .. }
            | ValueOperation::Remove {
                attributes: Attributes::Named(_),
                ..
            }
    )
}

/// What an operation on the values of attributes makes of the arguments of a rule. `current` is the path of the file's package. The
/// answer: whether the arguments are known to stay the same. Errors: the refusal of the operation; `Memory`: a growth was refused. After an
/// error part of the arguments may be lost.
pub fn change_values(
    alloc: Global,
    operation: &ValueOperation,
    current: &[u8],
    arguments: &mut Items<Expr>,
) -> Result<bool, Refusal>
    ensures ok { OnOk result (values_changed operation.now current.now arguments.old ≡ Ok arguments.new) }
    ensures same { IsTrue (tells_change operation.now) → IfOk result (λ same. IsTrue same ↔ (arguments.new ≡ arguments.old)) }
    ensures err { IfErr result (λ refusal. (values_changed operation.now current.now arguments.old ≡ Err refusal) ⊎ (refusal ≡ Refusal.Memory)) }
{
    match operation {
        ValueOperation::Add { attribute, values } => {
            let slot = Slot::new(alloc, current, attribute.as_slice());
            add_items(slot, Added::Words(values.as_slice()), arguments)
        }
        ValueOperation::Remove {
            attributes: Attributes::Named(attribute),
            values,
            selects,
        } => {
            let slot = Slot::new(alloc, current, attribute.as_slice());
            remove_values(slot, *selects, values.as_slice(), arguments)
        }
        ValueOperation::Remove {
            attributes: Attributes::All,
            values,
            selects,
        } => {
            remove_everywhere(alloc, current, *selects, values.as_slice(), arguments)?;
            Ok(false)
        }
        ValueOperation::Replace {
            attributes,
            old,
            new,
            selects,
        } => {
            let change = Change::Replace { old, new };
            change.on_attributes(alloc, current, attributes, *selects, arguments)?;
            Ok(false)
        }
        ValueOperation::Substitute {
            attributes,
            pattern,
            template,
            selects,
        } => {
            let change = Change::Substitute { pattern, template };
            change.on_attributes(alloc, current, attributes, *selects, arguments)?;
            Ok(false)
        }
        ValueOperation::Move { from, to, values } => {
            let from = Slot::new(alloc, current, from.as_slice());
            move_values(from, to.as_slice(), values, arguments)?;
            Ok(false)
        }
        ValueOperation::RemoveIfEqual { attribute, value } => {
            let slot = Slot::new(alloc, current, attribute.as_slice());
            remove_if_equal(slot, value.as_slice(), arguments);
            Ok(false)
        }
    }
}
