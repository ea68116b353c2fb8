//! Which of the rules that a target means refuses a command.
ghost use Rattle.std.specs.Prelude.{◌≡◌, ◌&&◌, ◌||◌, IfOk, None, false, is_err, is_some, option_map, string_bytes};
ghost use Rattle.std.specs.Option.{option_copied};
ghost use Rattle.bz_grammar.specs.Legal.{Reads};
ghost use Rattle.bz_grammar.specs.Statements.{lines_of};
ghost use Rattle.bz_grammar.specs.declared.tree.Node.{Node};
ghost use Rattle.bz_hosts.specs.View.{view_of};
ghost use Rattle.bz_command.specs.Effect.{is_rule, on_one, printed_one};
ghost use Rattle.bz_hint.specs.Refusing.{first_refusing, named_at, is_meant, refuses, refusing_rule};
ghost use Rattle.bz_hint.specs.private.Shown.{rule_seen};

use crate::names::rule_name;
use bz_command::{Command, Refusal, Work, changed_copy, copied, printed_of};
use bz_grammar::ReadFault;
use bz_grammar::laws::one_reading;
use bz_hosts::view;
use bz_items::Memory;
use bz_label::{Target, Which};
use bz_rule::{call_of, has_name, is_named, is_rule_of_kind};
use bz_tree::parse;
use bz_value::Item;
use std::alloc::{AllocError, Global};

/// A rule that refuses a command.
pub(crate) struct Refusing {
    /// The line on which it begins, from 1.
    pub(crate) line: u32,
    /// Its name, where it has one.
    pub(crate) name: Option<String>,
}

impl Drop for Refusing {
    fn drop(self) {
        let Refusing { line: _, name: _ } = self;
    }
}

#[tactic(auto, using(crate::proofs::Rules::rule_of_call))]
fn is_rule(item: &Item) -> bool
    ensures { result ≡ is_rule item.now }
{
    match call_of(item) {
        Some(call) => is_named(call.function),
        None => false,
    }
}

// Whether a target that may mean several rules, or is a name, means this one.
fn is_meant(which: &Which, item: &Item) -> bool
    ensures { result ≡ is_meant which.now item.now }
{
    match which {
        Which::All => is_rule(item),
        Which::Kind(kind) => is_rule_of_kind(kind.as_slice(), item),
        Which::Name(name) => has_name(name.as_slice(), item),
        Which::Line(_) | Which::Package => false,
    }
}

// Whether what a command changes in an item is refused. The error: memory was.
fn refuses_change(work: Work<'_, '_>, item: &Item) -> Result<bool, Memory>
    ensures { IfOk result (λ refused. refused ≡ is_err (on_one work.entry.command.now work.entry.current.now (option_copied work.entry.found) item.now)) }
{
    match changed_copy(work, item) {
        Ok(_) => Ok(false),
        Err(Refusal::Memory) => Err(AllocError),
        Err(_) => Ok(true),
    }
}

// Whether what a command prints of an item is refused. The error: memory was.
fn refuses_printing(work: Work<'_, '_>, item: &Item) -> Result<bool, Memory>
    ensures { IfOk result (λ refused. refused ≡ is_err (printed_one work.entry.command.now work.entry.current.now None item.now)) }
{
    match printed_of(work, item) {
        Ok(_) => Ok(false),
        Err(Refusal::Memory) => Err(AllocError),
        Err(_) => Ok(true),
    }
}

// Whether a rule is meant and refuses the command. The error: memory was refused.
fn refuses(work: Work<'_, '_>, item: &Item) -> Result<bool, Memory>
    ensures { IfOk result (λ refused. refused ≡ refuses work.entry.command.now work.entry.target.now.which work.entry.current.now (option_copied work.entry.found) item.now) }
{
    if !is_meant(&work.target.which, item) {
        return Ok(false);
    }
    if refuses_change(work, item)? {
        return Ok(true);
    }
    refuses_printing(work, item)
}

// A rule that refuses, by its line.
fn rule_at(alloc: Global, line: u32, item: &Item) -> Result<Refusing, Memory>
    ensures { IfOk result (λ rule. rule_seen rule ≡ named_at line item.now) }
{
    let name = match rule_name(item) {
        Some(name) => Some(String::from_utf8_lossy(alloc, name)?),
        None => None,
    };
    Ok(Refusing { line, name })
}

// The first of the items that refuses the command. The error: memory was refused.
fn first_refusing(work: Work<'_, '_>, items: &[Item]) -> Result<Option<Refusing>, Memory>
    ensures { IfOk result (λ found. option_map rule_seen found
        ≡ first_refusing (refuses work.entry.command.now work.entry.target.now.which work.entry.current.now (option_copied work.entry.found)) work.entry.lines.now items.now) }
{
    let mut at = 0;
    for item in items {
        if let Item::Block(_) = item {
            continue;
        }
        if at >= work.lines.len() {
            return Ok(None);
        }
        if refuses(work, item)? {
            return Ok(Some(rule_at(work.alloc, work.lines[at], item)?));
        }
        at += 1;
    }
    Ok(None)
}

/// The first rule of this text, a BUILD file's, that refuses a command, among those that a target means which may mean several or is a name; none where
/// none does, or the text is no BUILD file's. `current` is the path of the file's package. The error: memory was refused.
pub(crate) fn refusing_rule(
    alloc: Global,
    text: &[u8],
    command: &Command,
    target: &Target,
    current: &[u8],
) -> Result<Option<Refusing>, Memory>
    ensures { (n : Node) → Reads text.now n → IfOk result (λ found. option_map rule_seen found
        ≡ refusing_rule command.now target.now.which current.now (lines_of n) (view_of n)) }
{
    match command.prepared(alloc)? {
        Some(prepared) => Ok(refusing_prepared(alloc, text, &prepared, target, current)?),
        None => Ok(refusing_prepared(alloc, text, command, target, current)?),
    }
}

// The same of a command of which the pattern is compiled already, where it has one.
fn refusing_prepared(
    alloc: Global,
    text: &[u8],
    command: &Command,
    target: &Target,
    current: &[u8],
) -> Result<Option<Refusing>, Memory>
    ensures { (n : Node) → Reads text.now n → IfOk result (λ found. option_map rule_seen found
        ≡ refusing_rule command.now target.now.which current.now (lines_of n) (view_of n)) }
{
    let tree = match parse(alloc, text) {
        Ok(tree) => tree,
        Err(ReadFault::Memory) => return Err(AllocError),
        Err(_) => return Ok(None),
    };
    one_reading();
    let file = view(alloc, &tree)?;
    let lines = tree.lines(alloc)?;
    let work = Work {
        alloc,
        command,
        target,
        current,
        lines: &lines,
        found: copied(command, &file),
    };
    let found = first_refusing(work, file.items.as_slice())?;
    Ok(found)
}
