//! Reading a text as the tree that spells it.
ghost use Rattle.std.specs.Prelude.{◌≡◌, ◌≢◌, ◌↔◌, ◌≤◌, ◌<◌, [], ℕ, min, length, true, false, IfOk, IfErr, IsTrue, IsUtf8};
ghost use Rattle.std.specs.Str.{IsValidUpTo};
ghost use Rattle.bz_lex.specs.Faults.{is_of_leaves};
ghost use Rattle.bz_lex.specs.Positions.{line_at, column_of};
ghost use Rattle.bz_lex.specs.Stops.{IsFaultAt};
ghost use Rattle.bz_grammar.specs.Legal.{Reads, ReadsBzl, NoTree, NoBzlTree};
ghost use Rattle.bz_grammar.specs.Spell.{limit};
ghost use Rattle.bz_grammar.specs.Joined.{file_with};
ghost use Rattle.bz_grammar.specs.Faults.{IsOfText, IsOther};
ghost use Rattle.bz_tree.specs.private.Dialects.{IsIndentedAt, NoTreeIn, ReadsIn, is_wrong};

use crate::parser::Parser;
use crate::stack::Stack;
use bz_grammar::{Kind, Tree};
use bz_lex::{
    DEPTH_LIMIT, LENGTH_LIMIT, ReadFault, Reason, fault_at, lexical_fault, line_and_column,
};
use bz_states::{Leaves, ParseHalt, deeper_at, line_indent};
use std::alloc::Global;
use std::str::from_utf8;

/// Which files a text is read as one of. A BUILD file has no functions, no branches and no loops, and no line with an indent.
#[derive(Clone, Copy)]
enum Dialect {
    Build,
    Bzl,
}

/// Reads the text of a BUILD file as the legal tree that spells it.
///
/// Errors: `TooLarge` for a text past `LENGTH_LIMIT`; `NotUtf8` with the length of the longest beginning that is;
/// `BadCharacter`, `OpenString`, `Indented`, `Unexpected` or `TooDeep` (a tree past `DEPTH_LIMIT`) with line and column of the
/// first fault where no legal tree spells the text; `Memory` where a growth was refused.
pub fn parse(alloc: Global, text: &[u8]) -> Result<Tree, ReadFault>
    ensures ok { IfOk result (λ tree. Reads text.now tree) }
    ensures too_large { (result ≡ Err ReadFault.TooLarge) ↔ (limit < length text.now) }
    ensures not_utf8 { (at : ℕ) → ((result ≡ Err (ReadFault.NotUtf8 at)) ↔ ((length text.now ≤ limit) × IsValidUpTo text.now at)) }
    ensures refused { IfErr result (λ fault. IsOfText fault → NoTree text.now) }
    ensures placed { IfErr result (λ fault. is_of_leaves fault ≡ true → IsFaultAt (λ blanks. blanks ≢ []) text.now fault) }
{
    tree_of(alloc, Dialect::Build, text)
}

/// Reads the text of a `.bzl` file as the legal tree that spells it. The errors are those of `parse`; `Indented` reports the first
/// token of a line at an indent where no statement may begin: no deeper than the header right before it, or that of no open suite.
pub fn parse_bzl(alloc: Global, text: &[u8]) -> Result<Tree, ReadFault>
    ensures ok { IfOk result (λ tree. ReadsBzl text.now tree) }
    ensures too_large { (result ≡ Err ReadFault.TooLarge) ↔ (limit < length text.now) }
    ensures not_utf8 { (at : ℕ) → ((result ≡ Err (ReadFault.NotUtf8 at)) ↔ ((length text.now ≤ limit) × IsValidUpTo text.now at)) }
    ensures refused { IfErr result (λ fault. IsOfText fault → NoBzlTree text.now) }
    ensures placed { IfErr result (λ fault. is_of_leaves fault ≡ true → IsFaultAt (λ _. Unit {0}) text.now fault) }
{
    tree_of(alloc, Dialect::Bzl, text)
}

/// The tree of a text, or its fault.
fn tree_of(alloc: Global, dialect: Dialect, text: &[u8]) -> Result<Tree, ReadFault>
    ensures ok { IfOk result (λ tree. ReadsIn dialect text.now tree) }
    ensures too_large { (result ≡ Err ReadFault.TooLarge) ↔ (limit < length text.now) }
    ensures not_utf8 { (at : ℕ) → ((result ≡ Err (ReadFault.NotUtf8 at)) ↔ ((length text.now ≤ limit) × IsValidUpTo text.now at)) }
    ensures refused { IfErr result (λ fault. IsOfText fault → NoTreeIn dialect text.now) }
    ensures placed { IfErr result (λ fault. is_of_leaves fault ≡ true → IsFaultAt (is_wrong dialect) text.now fault) }
{
    if text.len() > LENGTH_LIMIT {
        return Err(ReadFault::TooLarge);
    }
    if let Err(fault) = from_utf8(text) {
        return Err(ReadFault::NotUtf8 {
            at: fault.valid_up_to(),
        });
    }
    match parts_of(alloc, dialect, text) {
        Ok(parts) => Ok(Tree {
            root: parts.into_node(Kind::File),
        }),
        Err(fault) => Err(fault),
    }
}

/// What the file holds of a text of characters within the limit, or the fault that is first in it.
fn parts_of(alloc: Global, dialect: Dialect, text: &[u8]) -> Result<Stack, ReadFault>
    requires within { length text.now ≤ limit }
    requires coded { IsUtf8 text.now }
    ensures ok { IfOk result (λ parts. ReadsIn dialect text.now (file_with parts)) }
    ensures other { IfErr result (λ fault. IsOther fault) }
    ensures refused { IfErr result (λ fault. IsOfText fault → NoTreeIn dialect text.now) }
    ensures placed { IfErr result (λ fault. is_of_leaves fault ≡ true → IsFaultAt (is_wrong dialect) text.now fault) }
{
    let mut parser = Parser::new(alloc, text);
    match parser.file() {
        Ok(()) => match dialect {
            Dialect::Build if parser.stack.holds_newer() => {
                let first = first_newer(alloc, text, text.len());
                Err(unexpected_at(text, first.unwrap_or(0)))
            }
            Dialect::Build => Ok(parser.stack),
            Dialect::Bzl => Ok(parser.stack),
        },
        Err(ParseHalt::Memory) => Err(ReadFault::Memory),
        Err(ParseHalt::Unexpected) => Err(fault_before(alloc, dialect, text, &parser.leaves)),
    }
}

/// The fault for which no file goes on with the next of these leaves of a text.
fn fault_before(alloc: Global, dialect: Dialect, text: &[u8], leaves: &Leaves) -> ReadFault
    requires { length text.now ≤ limit }
    ensures other { IsOther result }
    ensures placed { is_of_leaves result ≡ true → IsFaultAt (is_wrong dialect) text.now result }
{
    if let Dialect::Build = dialect {
        if let Some(at) = first_newer(alloc, text, leaves.offset()) {
            return unexpected_at(text, at);
        }
    }
    if let Some(at) = leaves.too_deep_at() {
        return match first_too_deep(alloc, text) {
            Ok(first) => too_deep(text, first.unwrap_or(at)),
            Err(_) => ReadFault::Memory,
        };
    }
    let at = leaves.halted_at();
    if let Some(fault) = lexical_fault(text, at) {
        return fault;
    }
    if is_indented(dialect, text, at, leaves) {
        return fault_at(text, at, Reason::Indented);
    }
    unexpected_at(text, at)
}

/// Whether a line begins at this byte that has an indent which no line may have there.
fn is_indented(dialect: Dialect, text: &[u8], at: usize, leaves: &Leaves) -> bool
    requires { length text.now ≤ limit }
    ensures { IsTrue result → IsIndentedAt (is_wrong dialect) text.now at }
{
    match line_indent(text, at) {
        Some(blanks) => match dialect {
            Dialect::Build => !blanks.is_empty(),
            Dialect::Bzl => !leaves.is_at_indent(),
        },
        None => false,
    }
}

/// The byte at which the first token begins that no BUILD file has, among those that begin in this many bytes of a text.
fn first_newer(alloc: Global, text: &[u8], until: usize) -> Option<usize>
    requires { length text.now ≤ limit }
{
    let mut leaves = Leaves::new(alloc, text);
    leaves.newer_within(until)
}

/// The byte at which the first node begins that is too deep, by a reading with room for twice the depth: what is after a
/// node may put it deeper. Where the text is no file further on, the lines in front of that place decide. The error, `Memory`
/// alone: a growth was refused.
fn first_too_deep(alloc: Global, text: &[u8]) -> Result<Option<usize>, ParseHalt>
    requires { length text.now ≤ limit }
{
    let mut parser = Parser::new(alloc, text);
    parser.read_so_far(2 * DEPTH_LIMIT)?;
    Ok(deeper_at(parser.stack.as_slice(), DEPTH_LIMIT))
}

fn too_deep(text: &[u8], at: usize) -> ReadFault
    ensures other { IsOther result }
    ensures kind { is_of_leaves result ≡ false }
{
    let (line, column) = line_and_column(text, at.min(text.len()));
    ReadFault::TooDeep { line, column }
}

/// The fault `Unexpected` with line and column, from 1, of the byte at `at` (past the last one: of the end).
pub fn unexpected_at(text: &[u8], at: usize) -> ReadFault
    ensures answered { result ≡ ReadFault.Unexpected (min (line_at text.now (min at (length text.now))) u32.MAX) (min (column_of text.now (min at (length text.now))) u32.MAX) }
{
    let (line, column) = line_and_column(text, at.min(text.len()));
    ReadFault::Unexpected { line, column }
}
