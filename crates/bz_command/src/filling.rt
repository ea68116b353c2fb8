//! What a command makes of rules one by one, so that it can be looked at before all of them are made: where it can be past the limit of a text.
ghost use Rattle.std.specs.Prelude.{◌≡◌, ◌⊎◌, Err, Ok, IfErr, IfOk, IfSome};
ghost use Rattle.std.specs.Option.{option_copied};
ghost use Rattle.bz_rule.specs.Index.{marked_places};
ghost use Rattle.bz_command.specs.Effect.{effect, meant, on_each, on_one, source_of};
ghost use Rattle.bz_command.specs.private.Looks.{changes_each};

use crate::ruling::{Work, on_one, source_of};
use crate::targets::{is_any, meant};
use bz_command_syntax::{
    AttributeOperation, Command, CommentOperation, DictOperation, Entry, Operation, RuleOperation,
    ValueOperation,
};
use bz_grammar::LENGTH_LIMIT;
use bz_items::{Memory, Text};
use bz_layout::{Draft, push_expr};
use bz_value::{Expr, File, Item, Refusal};
use std::alloc::Global;

/// What a word of a command takes beside its bytes, where it is on a line of its own: a margin, quotation marks, a comma.
const BESIDE_A_WORD: usize = 16;

/// How many texts' limits a bound may be past that is far above what is made of most files.
const FAR_PAST: usize = 8;

/// Whether an operation changes the rules that it is meant for one by one.
fn changes_each(operation: &Operation) -> bool
    ensures { result ≡ changes_each operation.now }
{
    match operation {
        Operation::Rule(operation) => matches!(operation, RuleOperation::SetKind { .. }),
        Operation::Comment(operation) => !matches!(operation, CommentOperation::Print { .. }),
        Operation::Attribute(_) | Operation::Value(_) | Operation::Dict(_) => true,
        Operation::Load(_) | Operation::Print { .. } => false,
    }
}

/// The value that a command copies, from a file as it is.
pub fn copied<'a>(command: &Command, file: &'a File) -> Option<&'a Expr>
    ensures { option_copied result ≡ source_of command.now file.now }
{
    source_of(&command.operation, file.items.as_slice())
}

/// What a command that changes rules one by one makes of an item that it is meant for, where `found` of the work is the value that it
/// copies. Errors: the one with which it is refused; `Memory`: a growth was refused.
pub fn changed_copy(work: Work<'_, '_>, item: &Item) -> Result<Item, Refusal>
    ensures ok { IfOk result (λ new. on_one work.entry.command.now work.entry.current.now (option_copied work.entry.found) item.now ≡ Ok new) }
    ensures err { IfErr result (λ refusal. (on_one work.entry.command.now work.entry.current.now (option_copied work.entry.found) item.now ≡ Err refusal) ⊎ (refusal ≡ Refusal.Memory)) }
{
    let command = work.command;
    let mut new = item.copy()?;
    on_one(work, &command.operation, &mut new)?;
    Ok(new)
}

/// How many bytes a word takes.
fn word_size(word: &Text) -> usize {
    word.len().saturating_add(BESIDE_A_WORD)
}

fn words_size(words: &[Text]) -> usize {
    words.iter().fold(0, |size: usize, word| size.saturating_add(word_size(word)))
}

fn entries_size(entries: &[Entry]) -> usize {
    entries.iter().fold(0, |size: usize, entry| {
        let size = size.saturating_add(word_size(&entry.key));
        size.saturating_add(word_size(&entry.value))
    })
}

/// How many bytes a value takes, where that is not past the limit of a text; no value takes none.
fn value_size(alloc: Global, value: Option<&Expr>) -> Result<usize, Memory> {
    let Some(value) = value else {
        return Ok(0);
    };
    let mut out = Draft::new(Vec::new(alloc), LENGTH_LIMIT);
    push_expr(&mut out, value, 0)?;
    match out.into_bytes() {
        Some(text) => Ok(text.len()),
        None => Ok(LENGTH_LIMIT),
    }
}

/// How many bytes the words of an operation and the value that it copies take in a rule, where they are put in there once.
fn size_in_each(work: Work<'_, '_>, operation: &Operation) -> Result<usize, Memory> {
    let (name, size) = match operation {
        Operation::Attribute(
            AttributeOperation::Copy { attribute, .. }
            | AttributeOperation::CopyNoOverwrite { attribute, .. },
        ) => (attribute, value_size(work.alloc, work.found)?),
        Operation::Attribute(
            AttributeOperation::Set { attribute, values }
            | AttributeOperation::SetIfAbsent { attribute, values },
        )
        | Operation::Value(ValueOperation::Add { attribute, values }) => {
            (attribute, words_size(values.as_slice()))
        }
        Operation::Dict(
            DictOperation::Add { attribute, entries }
            | DictOperation::Set { attribute, entries }
            | DictOperation::Select { attribute, entries },
        ) => (attribute, entries_size(entries.as_slice())),
        Operation::Dict(
            DictOperation::ListAdd {
                attribute,
                key,
                values,
            },
        ) => (
            attribute,
            words_size(values.as_slice()).saturating_add(word_size(key)),
        ),
        Operation::Dict(DictOperation::ReplaceIfEqual { new, .. }) => (new, 0),
        Operation::Attribute(AttributeOperation::Rename { to, .. })
        | Operation::Value(ValueOperation::Move { to, .. }) => (to, 0),
        Operation::Rule(RuleOperation::SetKind { kind }) => (kind, 0),
        Operation::Comment(CommentOperation::Add { text, .. }) => (text, 0),
        _ => return Ok(0),
    };
    Ok(size.saturating_add(word_size(name)))
}

/// Whether an operation might make more of a file of this many items and bytes than a text can have, by its words alone: so that of
/// most commands no rule is changed twice. Words that are put into a rule once are counted for each item. What is put in for each
/// match in a rule is counted for each byte, of which few files have that many matches.
fn might_be_past(
    work: Work<'_, '_>,
    operation: &Operation,
    count: usize,
    len: usize,
) -> Result<bool, Memory> {
    match operation {
        Operation::Value(
            ValueOperation::Replace { new, .. } | ValueOperation::Substitute { template: new, .. },
        ) => Ok(new.len().saturating_mul(len) / FAR_PAST > LENGTH_LIMIT),
        _ => {
            let size = size_in_each(work, operation)?;
            Ok(size.saturating_mul(count) > LENGTH_LIMIT)
        }
    }
}

/// The places of the items that a command is meant for which changes rules one by one, of a file that has about this many bytes, from 0 in
/// their order. `None` where it is no such command, where it is meant for none, and where what it makes can hardly be past the limit of a
/// text; so that says nothing. The error: a growth was refused.
pub fn places_if_large(
    work: Work<'_, '_>,
    file: &File,
    len: usize,
) -> Result<Option<Vec<usize>>, Memory>
    ensures each { IfOk result (λ made. IfSome made (λ _. effect work.entry.command.now work.entry.target.now work.entry.current.now work.entry.lines.now file.now ≡ on_each work.entry.command.now work.entry.current.now (meant work.entry.target.now.which work.entry.lines.now file.now) file.now)) }
    ensures places { IfOk result (λ made. IfSome made (λ places. places.items ≡ marked_places 0 (meant work.entry.target.now.which work.entry.lines.now file.now))) }
{
    let command = work.command;
    let operation = &command.operation;
    let items = file.items.as_slice();
    if !changes_each(operation) || !might_be_past(work, operation, items.len(), len)? {
        return Ok(None);
    }
    let places = meant(work.alloc, &work.target.which, work.lines, None, items)?;
    if !is_any(places.as_slice()) {
        return Ok(None);
    }
    Ok(Some(places))
}
