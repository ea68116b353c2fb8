//! File values: what a text says, its layout, the layout of it tidied or after a command, and formatted texts.
use crate::commands::read_command;
use crate::labels::read_target;
use crate::trees::{Grammar, read, unread};
use bz_build_format::{FormatFault, format_bzl, set};
use bz_command::{Outcome, run};
use bz_command_syntax::Command;
use bz_grammar::Tree;
use bz_hosts::view;
use bz_items::{Memory, Text};
use bz_label::Target;
use bz_layout::SetFault;
use bz_passes::tidy;
use bz_value::{Comments, Expr, File, Form, Item, Refusal};
use sheets::{Case, CaseFault, Page};
use std::alloc::Global;

/// Answers a question about the value of a text. Whether it is one.
pub(crate) fn answer(case: &Case, page: &mut Page) -> Result<bool, CaseFault> {
    match case.question.as_str() {
        "view" => show_value(case, page)?,
        "layout" | "formatted" | "bzl_tidied" | "bzl_formatted" => settled(case, page)?,
        "bzl_run" => page.text("<", layout_after(case)?.as_slice())?,
        _ => return Ok(false),
    }
    Ok(true)
}

/// A copy of what a text says.
fn value_of(alloc: Global, grammar: Grammar, text: &[u8]) -> Result<File, CaseFault> {
    let file = view(alloc, &read(alloc, grammar, text)?)?;
    let copy = file.copy()?;
    if !copy.equals(&file) {
        return Err(CaseFault::Sheet("another copy"));
    }
    Ok(copy)
}

/// Writes the items of a value, each on a line.
fn show_value(case: &Case, page: &mut Page) -> Result<(), CaseFault> {
    let alloc = case.alloc;
    let file = value_of(alloc, Grammar::Build, case.given_text(0)?)?;
    for item in file.items.as_slice() {
        let mut shown = Vec::new(alloc);
        match item {
            Item::Block(comments) => show_comments(comments.as_slice(), &mut shown)?,
            Item::Stmt(statement) => show_expr(alloc, statement, &mut shown)?,
        }
        page.answer(shown.as_slice())?;
    }
    Ok(())
}

/// Each comment is in angle brackets.
fn show_comments(comments: &[Text], out: &mut Vec<u8>) -> Result<(), Memory> {
    for comment in comments {
        out.extend_from_slice(b"<")?;
        out.extend_from_slice(comment.as_slice())?;
        out.extend_from_slice(b">")?;
    }
    Ok(())
}

/// The comment on the last line of a host is after it.
fn show_suffix(comments: &Comments, out: &mut Vec<u8>) -> Result<(), Memory> {
    if let Some(suffix) = comments.suffix() {
        out.extend_from_slice(b"<")?;
        out.extend_from_slice(suffix.as_slice())?;
        out.extend_from_slice(b">")?;
    }
    Ok(())
}

/// The comments above a token or a form are in front of it. Before an operator that ends its line is `break`.
#[cycle(expr)]
fn show_expr(alloc: Global, expr: &Expr, out: &mut Vec<u8>) -> Result<(), Memory> {
    match expr {
        Expr::Token(token) => {
            show_comments(token.comments.before(), out)?;
            if token.line_break {
                out.extend_from_slice(b"break ")?;
            }
            out.extend_from_slice(token.text.as_slice())?;
            show_suffix(&token.comments, out)
        }
        Expr::Form(form) => show_form(alloc, form, out),
    }
}

/// A form is its kind, `split` or `open` where it is, and in brackets its parts with a space between two of them. Of a
/// sequence these are what is before its bracket and a colon, the items, and the comments below the last one.
#[cycle(expr)]
pub(crate) fn show_form(alloc: Global, form: &Form, out: &mut Vec<u8>) -> Result<(), Memory> {
    show_comments(form.comments.before(), out)?;
    let kind = form.kind;
    let split = if form.seq.split { " split" } else { "" };
    let open = if form.open_break { " open" } else { "" };
    out.extend_from_slice(format!(in alloc; "{kind:?}{split}{open}(")?.as_bytes())?;
    show_exprs(alloc, form.parts.as_slice(), out)?;
    if bz_value::is_sequence(kind) && !form.parts.is_empty() {
        out.extend_from_slice(b": ")?;
    }
    show_exprs(alloc, form.seq.items.as_slice(), out)?;
    show_comments(form.seq.end.as_slice(), out)?;
    out.extend_from_slice(b")")?;
    show_suffix(&form.comments, out)
}

#[cycle(expr)]
fn show_exprs(alloc: Global, exprs: &[Expr], out: &mut Vec<u8>) -> Result<(), Memory> {
    let mut is_first = true;
    for expr in exprs {
        if !is_first {
            out.extend_from_slice(b" ")?;
        }
        is_first = false;
        show_expr(alloc, expr, out)?;
    }
    Ok(())
}

/// `set`, of which nothing has to be known here.
fn tree_of(alloc: Global, file: &File) -> Result<Tree, SetFault> {
    set(alloc, file)
}

/// `tidy`, of which nothing has to be known here.
fn tidied(alloc: Global, file: File) -> Result<File, Memory> {
    tidy(alloc, file)
}

/// The layout of a value.
fn layout_of(alloc: Global, file: &File) -> Result<Vec<u8>, CaseFault> {
    let mut layout = Vec::new(alloc);
    match tree_of(alloc, file) {
        Ok(tree) => tree.spell_into(&mut layout)?,
        Err(SetFault::Memory) => return Err(CaseFault::Memory),
        Err(fault) => return Err(CaseFault::Refused(format!(in alloc; "{fault}")?)),
    }
    Ok(layout)
}

/// The layout of what a text says, tidied.
fn tidied_layout(alloc: Global, grammar: Grammar, text: &[u8]) -> Result<Vec<u8>, CaseFault> {
    layout_of(alloc, &tidied(alloc, value_of(alloc, grammar, text)?)?)
}

/// `format_bzl`; a fault is the answer of the case.
fn formatted(alloc: Global, text: &[u8]) -> Result<Text, CaseFault> {
    match format_bzl(alloc, text) {
        Ok(new) => Ok(new),
        Err(FormatFault::Unread(fault)) => Err(unread(alloc, &fault)?),
        Err(FormatFault::Memory) => Err(CaseFault::Memory),
        Err(fault) => Err(CaseFault::Refused(format!(in alloc; "{fault}")?)),
    }
}

/// What a question makes of a text.
fn made(case: &Case, text: &[u8]) -> Result<Vec<u8>, CaseFault> {
    let alloc = case.alloc;
    match case.question.as_str() {
        "layout" => layout_of(alloc, &value_of(alloc, Grammar::Build, text)?),
        "formatted" => tidied_layout(alloc, Grammar::Build, text),
        "bzl_tidied" => tidied_layout(alloc, Grammar::Bzl, text),
        _ => Ok(formatted(alloc, text)?.as_slice().to_vec(alloc)?),
    }
}

/// Writes what a question makes of a text; and, where it makes another text of that in its turn, that it does.
fn settled(case: &Case, page: &mut Page) -> Result<(), CaseFault> {
    let new = made(case, case.given_text(0)?)?;
    page.text("<", new.as_slice())?;
    if made(case, new.as_slice())?.as_slice() != new.as_slice() {
        page.answer(b"and another text of that")?;
    }
    Ok(())
}

/// `run` in the topmost package, without lines, of which nothing has to be known here.
fn ran(alloc: Global, command: &Command, target: &Target, file: &File) -> Result<Outcome, Refusal> {
    run(alloc, command, target, b"", &[], file)
}

/// The layout of what the command of the second text, which ends with its target, makes of what the first one says.
fn layout_after(case: &Case) -> Result<Vec<u8>, CaseFault> {
    let alloc = case.alloc;
    let Some((command, target)) = case.text(1)?.rsplit_once(' ') else {
        return Err(CaseFault::Sheet("no command"));
    };
    let command = read_command(alloc, command)?;
    let target = read_target(alloc, target)?;
    let file = value_of(alloc, Grammar::Bzl, case.given_text(0)?)?;
    match ran(alloc, &command, &target, &file) {
        Ok(outcome) => layout_of(alloc, outcome.file.as_ref().unwrap_or(&file)),
        Err(Refusal::Memory) => Err(CaseFault::Memory),
        Err(fault) => Err(CaseFault::Refused(format!(in alloc; "{} {fault}", fault.number())?)),
    }
}
