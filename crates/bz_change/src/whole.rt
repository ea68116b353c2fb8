//! What each command on whole attributes makes of the arguments of a rule.
ghost use Rattle.std.specs.Prelude.{◌≡◌, ◌⊎◌, Ok, Err, OnOk, IfOk, IfErr, false, not, map};
ghost use Rattle.std.specs.List.{filter, list_all, zip};
ghost use Rattle.std.specs.Option.{option_copied, option_map_or};
ghost use Rattle.std.specs.Char.{is_ascii_digit};
ghost use Rattle.bz_grammar.specs.declared.kind.Kind.TheVariants as kinds;
ghost use Rattle.bz_change.specs.Words.{attribute, on_first, on_row, with_text, is_other_attribute};
ghost use Rattle.bz_change.specs.Changes.{attributes_changed, each_same, is_set, is_token, remove, rename, set, setting, single_setting};
ghost use Rattle.bz_change.specs.private.Outcomes.{IsOutcome};

use bz_attribute::{
    Slot, has_attribute, has_kind, is_other_attribute, items_of, list_of, new_token, place_of, put,
    remove_first, set_text, string_of,
};
use bz_command_syntax::{AttributeOperation, Attributes};
use bz_grammar::{Class, Kind};
use bz_items::{Items, Memory, Text};
use bz_label::bytes::is_list_attribute;
use bz_rule::attribute;
use bz_value::{Expr, Refusal};
use std::alloc::Global;
use std::mem;

/// Whether all bytes of the word are decimal digits.
fn are_digits(word: &[u8]) -> bool
    ensures { result ≡ list_all is_ascii_digit word.now }
{
    word.iter().all(u8::is_ascii_digit)
}

/// What `set` makes of one word where the attribute is no list attribute: a token.
pub(crate) fn single_setting(slot: Slot<'_>, word: &[u8]) -> Result<Expr, Memory>
    ensures { IfOk result (λ new. new ≡ single_setting slot.entry.current.now slot.entry.attribute.now word.now) }
{
    if word == b"True".as_slice() || word == b"False".as_slice() || word == b"None".as_slice() {
        return new_token(slot.alloc, Class::Name, word);
    }
    if !word.is_empty() && are_digits(word) {
        return new_token(slot.alloc, Class::Number, word);
    }
    string_of(slot, word)
}

/// What `set` makes of these words in an attribute: a token, or a list of strings.
pub(crate) fn setting_of(slot: Slot<'_>, words: &[Text]) -> Result<Expr, Memory>
    ensures { IfOk result (λ new. new ≡ setting slot.entry.current.now slot.entry.attribute.now words.now) }
{
    if let [word] = words
        && !is_list_attribute(slot.attribute)
    {
        return single_setting(slot, word.as_slice());
    }
    let mut strings = Vec::with_capacity(slot.alloc, words.len())?;
    for word in words {
        strings.push(string_of(slot, word.as_slice())?)?;
    }
    Ok(list_of(slot.alloc, Items::from_vec(strings)))
}

/// Whether both expressions are tokens of one class and text.
fn is_token(new: &Expr, x: &Expr) -> bool
    ensures { result ≡ is_token new.now x.now }
{
    let (Expr::Token(new), Expr::Token(x)) = (new, x) else {
        return false;
    };
    x.class == new.class && x.text.as_slice() == new.text.as_slice()
}

/// Whether each expression is the token beside it.
fn each_is_token(tokens: &[Expr], exprs: &[Expr]) -> bool
    ensures { result ≡ list_all (λ pair. is_token pair.0 pair.1) (zip tokens.now exprs.now) }
{
    tokens
        .iter()
        .zip(exprs)
        .all(|(token, x)| is_token(token, x))
}

/// The same, and they are as many.
#[tactic(auto, using(crate::proofs::SettingsTexts::each_beside))]
pub(crate) fn are_tokens(tokens: &[Expr], exprs: &[Expr]) -> bool
    ensures { result ≡ each_same is_token tokens.now exprs.now }
{
    tokens.len() == exprs.len() && each_is_token(tokens, exprs)
}

/// Whether the value differs from what is set only in comments and flags.
pub(crate) fn is_set(new: &Expr, value: &Expr) -> bool
    ensures { result ≡ is_set new.now value.now }
{
    if !has_kind(Kind::List, new) {
        return is_token(new, value);
    }
    has_kind(Kind::List, value) && are_tokens(items_of(new), items_of(value))
}

/// The attribute's value becomes these words.
fn set(slot: Slot<'_>, words: &[Text], arguments: &mut Items<Expr>) -> Result<(), Refusal>
    ensures { IsOutcome result arguments.new (set slot.entry.current.now slot.entry.attribute.now words.now arguments.old) }
{
    let new = setting_of(slot, words)?;
    let value = attribute(slot.attribute, arguments.as_slice());
    if value.is_some_and(|value| is_set(&new, value)) {
        drop(new);
        return Ok(());
    }
    put(slot.alloc, slot.attribute, new, arguments)?;
    Ok(())
}

/// Whole attributes go.
fn remove(attributes: &Attributes, arguments: &mut Items<Expr>)
    ensures { remove attributes.now arguments.old ≡ Ok arguments.new }
{
    match attributes {
        Attributes::All => {
            let alloc = arguments.alloc();
            let mut all = mem::replace(arguments, Items::new(alloc)).into_vec();
            all.retain(|x| !is_other_attribute(x));
            *arguments = Items::from_vec(all);
        }
        Attributes::Named(name) => remove_first(name.as_slice(), arguments),
    }
}

/// A named argument gets this name.
fn set_name(name: Text, argument: &mut Expr)
    ensures { argument.new ≡ on_row kinds.Named (on_first (with_text name)) argument.old }
{
    match argument {
        Expr::Form(form) if form.kind == Kind::Named => match form.parts.as_mut_slice() {
            [first, ..] => set_text(name, first),
            [] => drop(name),
        },
        _ => drop(name),
    }
}

/// The attribute gets another name.
#[tactic(auto, using(crate::proofs::SettingsTexts::attribute_there, crate::proofs::SettingsTexts::attribute_nowhere))]
fn rename(from: &[u8], to: &[u8], arguments: &mut Items<Expr>) -> Result<(), Refusal>
    ensures { IsOutcome result arguments.new (rename from.now to.now arguments.old) }
{
    let at = place_of(from, arguments.as_slice()).ok_or(Refusal::NoAttribute)?;
    if has_attribute(to, arguments.as_slice()) {
        return Err(Refusal::AttributeExists);
    }
    let name = Text::from_slice(arguments.alloc(), to)?;
    set_name(name, arguments.at_mut(at));
    Ok(())
}

/// What an operation on whole attributes makes of the arguments of a rule. `current` is the path of the file's package, `found` the
/// value that is copied. Errors: the refusal of the operation; `Memory`: a growth was refused. After an error part of the arguments
/// may be lost.
pub fn change_attributes(
    alloc: Global,
    operation: &AttributeOperation,
    current: &[u8],
    found: Option<&Expr>,
    arguments: &mut Items<Expr>,
) -> Result<(), Refusal>
    ensures ok { OnOk result (attributes_changed operation.now current.now (option_copied found.entry) arguments.old ≡ Ok arguments.new) }
    ensures err { IfErr result (λ refusal. (attributes_changed operation.now current.now (option_copied found.entry) arguments.old ≡ Err refusal) ⊎ (refusal ≡ Refusal.Memory)) }
{
    match operation {
        AttributeOperation::SetIfAbsent { attribute, .. }
        | AttributeOperation::CopyNoOverwrite { attribute, .. }
            if has_attribute(attribute.as_slice(), arguments.as_slice()) => { Ok(()) }
        AttributeOperation::Set { attribute, values }
        | AttributeOperation::SetIfAbsent { attribute, values } => {
            let slot = Slot::new(alloc, current, attribute.as_slice());
            set(slot, values.as_slice(), arguments)
        }
        AttributeOperation::Remove { attributes } => {
            remove(attributes, arguments);
            Ok(())
        }
        AttributeOperation::Rename { from, to } => {
            rename(from.as_slice(), to.as_slice(), arguments)
        }
        AttributeOperation::CopyNoOverwrite { attribute, .. }
        | AttributeOperation::Copy { attribute, .. } => {
            let value = found.ok_or(Refusal::NoSource)?;
            put(alloc, attribute.as_slice(), value.copy()?, arguments)?;
            Ok(())
        }
    }
}
