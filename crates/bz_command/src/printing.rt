//! What commands print of the rules that they are meant for: comments, or fields on one line and the values of attributes among them. And
//! which commands depend on the lines on which statements begin.
ghost use Rattle.std.specs.Prelude.{◌≡◌, ◌⊎◌, ◌++◌, None, Ok, Err, OnOk, IfOk, IfErr, decimal, is_some, length, map, option_map};
ghost use Rattle.std.specs.List.{list_all, list_any};
ghost use Rattle.bz_token.specs.declared.class.Class.TheVariants as c;
ghost use Rattle.bz_command.specs.Words.{item_text, each_named};
ghost use Rattle.bz_rule.specs.Rules as r;
ghost use Rattle.bz_command.specs.Effect.{before_rest, printed_one, printed_rules};
ghost use Rattle.bz_command.specs.Laws.{looks_at_lines, prints_line, prints_lines};
ghost use Rattle.bz_command.specs.Prints.{in_brackets, is_string, printed_body, printed_field, printed_item, printed_label, printed_value, spaced, without_last};
ghost use Rattle.bz_command.specs.private.Looks.{marks_by, places_by};
ghost use Rattle.bz_command.specs.private.Steps.{seen_rule, space_between, text_or_nothing};

use crate::ruling::Work;
use crate::targets::{arguments_of, line_at, lines_after};
use bz_attribute::{body_of, has_kind, items_of};
use bz_command_syntax::{Command, CommentOperation, Field, Operation};
use bz_comment::print_comments;
use bz_grammar::{Class, Kind};
use bz_items::{Memory, Text};
use bz_label::{Target, Which};
use bz_layout::{expr_text, item_text};
use bz_rule::{attribute, call_of, held_name, text_in};
use bz_value::{Expr, Item, Refusal};
use itoa::Buffer;
use std::alloc::Global;

/// Appends a space, where others follow.
fn push_space<T>(out: &mut Vec<u8>, others: &[T]) -> Result<(), Memory>
    ensures { OnOk result (out.new.items ≡ out.old.items ++ space_between others.now) }
{
    if !others.is_empty() {
        out.push(b' ')?;
    }
    Ok(())
}

fn is_string(item: &Expr) -> bool
    ensures { result ≡ is_string item.now }
{
    body_of(item).is_some()
}

/// Whether all items are plain strings.
fn are_strings(items: &[Expr]) -> bool
    ensures { result ≡ list_all is_string items.now }
{
    items.iter().all(|item| is_string(item))
}

/// Appends a list of plain strings: their bodies in square brackets, with a space between two of them.
#[tactic(auto, using(crate::proofs::Pieces::bodies_next))]
fn push_strings(out: &mut Vec<u8>, items: &[Expr]) -> Result<(), Memory>
    ensures { OnOk result (out.new.items ≡ out.old.items ++ in_brackets (map printed_body items.now)) }
{
    out.push(b'[')?;
    for (i, item) in items.iter().enumerate() {
        out.extend_from_slice(body_of(item).unwrap_or(&[]))?;
        push_space(out, &items[i + 1..])?;
    }
    out.push(b']')?;
    Ok(())
}

/// Appends what a value prints: a plain string its body, a list of plain strings their bodies in square brackets, any other
/// value its layout. The error: a growth was refused.
#[tactic(auto, using(crate::proofs::Pieces::string_printed, crate::proofs::Pieces::strings_printed, crate::proofs::Pieces::layout_printed))]
fn push_value(alloc: Global, value: &Expr, out: &mut Vec<u8>) -> Result<(), Memory>
    ensures { OnOk result (out.new.items ≡ out.old.items ++ printed_value value.now) }
{
    if let Some(body) = body_of(value) {
        out.extend_from_slice(body)?;
        return Ok(());
    }
    let items = items_of(value);
    if has_kind(Kind::List, value) && are_strings(items) {
        return push_strings(out, items);
    }
    let text = expr_text(alloc, value)?;
    out.extend_from_slice(text.as_slice())?;
    Ok(())
}

/// Appends the text of an item without its last newline.
fn push_item(alloc: Global, item: &Item, out: &mut Vec<u8>) -> Result<(), Memory>
    ensures { OnOk result (out.new.items ≡ out.old.items ++ without_last (item_text item.now)) }
{
    let text = item_text(alloc, item)?;
    let bytes = text.as_slice();
    let end = bytes.len().saturating_sub(1);
    out.extend_from_slice(&bytes[..end])?;
    Ok(())
}

/// A rule that is printed: its package, the line on which it begins, where it is on one, its item, and its kind as a text without blanks.
#[derive(Clone, Copy)]
struct Subject<'a> {
    alloc: Global,
    current: &'a [u8],
    line: Option<u32>,
    item: &'a Item,
    kind: &'a [u8],
    arguments: &'a [Expr],
}

/// What is printed where a field has no value.
const MISSING: &[u8] = b"(missing)";

/// Appends the label of a rule in a package, or where it has no name that this is missing.
fn push_label(current: &[u8], item: &Item, out: &mut Vec<u8>) -> Result<(), Memory>
    ensures { OnOk result (out.new.items ≡ out.old.items ++ printed_label current.now item.now) }
{
    let Some(name) = held_name(item) else {
        return Ok(out.extend_from_slice(MISSING)?);
    };
    out.extend_from_slice(b"//")?;
    out.extend_from_slice(current)?;
    out.push(b':')?;
    out.extend_from_slice(name)?;
    Ok(())
}

/// Appends a field.
fn push_field(subject: Subject<'_>, field: &Field, out: &mut Vec<u8>) -> Result<(), Memory>
    ensures { OnOk result (out.new.items ≡ out.old.items ++ printed_field subject.entry.current.now (option_map decimal subject.entry.line) subject.entry.item.now (seen_rule subject.entry) field.now) }
{
    match field {
        Field::Kind => Ok(out.extend_from_slice(subject.kind)?),
        Field::StartLine => match subject.line {
            Some(line) => Ok(out.extend_from_slice(Buffer::new().format(line).as_bytes())?),
            None => Ok(out.extend_from_slice(MISSING)?),
        },
        Field::Rule => push_item(subject.alloc, subject.item, out),
        Field::Label => push_label(subject.current, subject.item, out),
        Field::Attribute(name) => match attribute(name.as_slice(), subject.arguments) {
            Some(value) => push_value(subject.alloc, value, out),
            None => Ok(out.extend_from_slice(MISSING)?),
        },
    }
}

/// Appends the fields, with a space between two of them.
#[tactic(auto, using(crate::proofs::Pieces::fields_next))]
fn push_fields(subject: Subject<'_>, fields: &[Field], out: &mut Vec<u8>) -> Result<(), Memory>
    ensures { OnOk result (out.new.items ≡ out.old.items ++ spaced (map (printed_field subject.entry.current.now (option_map decimal subject.entry.line) subject.entry.item.now (seen_rule subject.entry)) fields.now)) }
{
    for (i, field) in fields.iter().enumerate() {
        push_field(subject, field, out)?;
        push_space(out, &fields[i + 1..])?;
    }
    Ok(())
}

/// Appends the text of a name, or of names joined by dots, and returns whether the expression is one; else it appends nothing.
/// The error: a growth was refused.
#[cycle(dotted)]
#[tactic(auto, using(crate::proofs::Pieces::dotted_Form))]
fn push_dotted(out: &mut Vec<u8>, expr: &Expr) -> Result<bool, Memory>
    ensures named { IfOk result (λ named. named ≡ is_some (r.dotted_name expr.now)) }
    ensures text { OnOk result (out.new.items ≡ out.old.items ++ text_or_nothing (r.dotted_name expr.now)) }
{
    match expr {
        Expr::Token(_) => {
            let Some(name) = text_in(Class::Name, expr) else {
                return Ok(false);
            };
            out.extend_from_slice(name)?;
            Ok(true)
        }
        Expr::Form(form) if form.kind == Kind::Dot => push_joined(out, form.parts.as_slice()),
        Expr::Form(_) => Ok(false),
    }
}

/// Appends the text of names joined by dots that has these parts, and returns whether they are such parts.
#[cycle(dotted)]
fn push_joined(out: &mut Vec<u8>, parts: &[Expr]) -> Result<bool, Memory>
    ensures named { IfOk result (λ named. named ≡ is_some (r.joined (each_named parts.now))) }
    ensures text { OnOk result (out.new.items ≡ out.old.items ++ text_or_nothing (r.joined (each_named parts.now))) }
{
    let [front, _, last] = parts else {
        return Ok(false);
    };
    let Some(name) = text_in(Class::Name, last) else {
        return Ok(false);
    };
    if !push_dotted(out, front)? {
        return Ok(false);
    }
    out.push(b'.')?;
    out.extend_from_slice(name)?;
    Ok(true)
}

/// Appends what a rule prints for these fields: one line, with one space between two fields. An item that is no rule prints nothing.
fn push_rule(
    alloc: Global,
    current: &[u8],
    line: Option<u32>,
    item: &Item,
    fields: &[Field],
    out: &mut Vec<u8>,
) -> Result<(), Memory>
    ensures { OnOk result (out.new.items ≡ out.old.items ++ printed_item current.now (option_map decimal line) item.now fields.now) }
{
    let Some(call) = call_of(item) else {
        return Ok(());
    };
    let mut kind = Vec::new(alloc);
    if !push_dotted(&mut kind, call.function)? {
        return Ok(());
    }
    let subject = Subject {
        alloc,
        current,
        line,
        item,
        kind: kind.as_slice(),
        arguments: call.arguments,
    };
    push_fields(subject, fields, out)?;
    out.push(b'\n')?;
    Ok(())
}

/// Appends what a command prints of one rule, which begins on this line.
fn push(work: Work<'_, '_>, at: Option<u32>, item: &Item, out: &mut Vec<u8>) -> Result<(), Refusal>
    ensures ok { OnOk result (before_rest (Ok out.old.items) (printed_one work.entry.command.now work.entry.current.now (option_map decimal at) item.now) ≡ Ok out.new.items) }
    ensures err { IfErr result (λ refusal. (printed_one work.entry.command.now work.entry.current.now (option_map decimal at) item.now ≡ Err refusal) ⊎ (refusal ≡ Refusal.Memory)) }
{
    let (alloc, command) = (work.alloc, work.command);
    match &command.operation {
        Operation::Comment(CommentOperation::Print { host }) => {
            let Item::Stmt(x) = item else {
                return Ok(());
            };
            let own = x.comments();
            let text = print_comments(alloc, work.current, host, own, arguments_of(item))?;
            out.extend_from_slice(text.as_slice())?;
        }
        Operation::Print { fields } => push_rule(
            alloc,
            work.current,
            at,
            item,
            fields.as_slice(),
            out,
        )?,
        Operation::Comment(CommentOperation::Add { .. } | CommentOperation::Remove { .. })
        | Operation::Rule(_)
        | Operation::Attribute(_)
        | Operation::Value(_)
        | Operation::Dict(_)
        | Operation::Load(_) => {}
    }
    Ok(())
}

/// What a command prints of an item that it is meant for; of the line on which it begins nothing is known. Errors: the one with which it is
/// refused; `Memory`: a growth was refused.
pub fn printed_of(work: Work<'_, '_>, item: &Item) -> Result<Text, Refusal>
    ensures ok { IfOk result (λ text. printed_one work.entry.command.now work.entry.current.now None item.now ≡ Ok text) }
    ensures err { IfErr result (λ refusal. (printed_one work.entry.command.now work.entry.current.now None item.now ≡ Err refusal) ⊎ (refusal ≡ Refusal.Memory)) }
{
    let mut out = Vec::new(work.alloc);
    push(work, None, item, &mut out)?;
    Ok(Text::from_vec(out))
}

/// What a command prints of the rules that it is meant for, which are at these places. The first that refuses decides.
pub fn print_rules(work: Work<'_, '_>, places: &[usize], items: &[Item]) -> Result<Text, Refusal>
    requires { places.now ≡ places_by work items.now }
    ensures ok { IfOk result (λ text. printed_rules work.entry.command.now work.entry.current.now work.entry.lines.now (marks_by work.entry items.now) items.now ≡ Ok text) }
    ensures err { IfErr result (λ refusal. (printed_rules work.entry.command.now work.entry.current.now work.entry.lines.now (marks_by work.entry items.now) items.now ≡ Err refusal) ⊎ (refusal ≡ Refusal.Memory)) }
{
    let mut all = Vec::new(work.alloc);
    let mut left = work.lines;
    let mut past = 0;
    for at in places {
        let item = &items[*at];
        let (line, following) = line_at(lines_after(left, items, past, *at), item);
        push(work, line, item, &mut all)?;
        left = following;
        past = *at + 1;
    }
    Ok(Text::from_vec(all))
}

/// Whether a field is the line on which the rule begins.
fn prints_line(field: &Field) -> bool
    ensures { result ≡ prints_line field.now }
{
    matches!(field, Field::StartLine)
}

/// Whether one of the fields is.
fn any_prints_line(fields: &[Field]) -> bool
    ensures { result ≡ list_any prints_line fields.now }
{
    fields.iter().any(|field| prints_line(field))
}

/// Whether an operation prints such a field.
fn prints_lines(operation: &Operation) -> bool
    ensures { result ≡ prints_lines operation.now }
{
    match operation {
        Operation::Print { fields } => any_prints_line(fields.as_slice()),
        _ => false,
    }
}

/// Whether a command on a target depends on the lines on which statements begin.
pub fn looks_at_lines(command: &Command, target: &Target) -> bool
    ensures { result ≡ looks_at_lines command.now target.now }
{
    prints_lines(&command.operation) || matches!(target.which, Which::Line(_))
}
