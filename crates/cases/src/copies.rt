//! Values that no text has: each part with every comment that it can have.
use crate::values::show_form;
use bz_grammar::{Class, Kind};
use bz_items::{Items, Memory, Text};
use bz_value::{Comments, EndComments, Expr, Form, Item, Seq, Token, push_others};
use sheets::{Case, CaseFault, Page};
use std::alloc::Global;

/// Writes a copy of a form that has the comments of the first text but for that of its first line above, and the second text
/// after; then whether all copies are equal to what was copied, and to nothing else.
pub(crate) fn answer(case: &Case, page: &mut Page) -> Result<(), CaseFault> {
    let form = form_of(case.alloc, case.given_text(0)?, case.given_text(1)?)?;
    let item = Item::Stmt(Expr::Form(form));
    let answered = answer_of(case.alloc, &item, page);
    // By a call: by the end of its scope, each form of the item would be a path of this proof.
    drop(item);
    answered
}

/// Writes a copy of the form that is an item, and whether all copies of it are equal to it.
fn answer_of(alloc: Global, item: &Item, page: &mut Page) -> Result<(), CaseFault> {
    let Item::Stmt(Expr::Form(form)) = item else {
        return Err(CaseFault::Sheet("no form"));
    };
    page.answer(shown_copy(alloc, form)?.as_slice())?;
    let answer: &[u8] = if is_copied(form)? && item.copy()?.equals(item) {
        b"copied"
    } else {
        b"another copy"
    };
    Ok(page.answer(answer)?)
}

/// The comments of a gap but for that of its first line, and one after.
fn comments_of(alloc: Global, gap: &[u8], following: &[u8]) -> Result<Comments, Memory> {
    let mut above = Items::new(alloc);
    push_others(alloc, gap, &mut above)?;
    let suffix = Text::from_slice(alloc, following)?;
    Comments::new(alloc, above, Some(suffix))
}

fn token_of(alloc: Global, gap: &[u8], following: &[u8]) -> Result<Token, Memory> {
    Ok(Token {
        class: Class::Name,
        text: Text::from_slice(alloc, b"f")?,
        line_break: true,
        comments: comments_of(alloc, gap, following)?,
    })
}

/// A list of one token, with each comment that either may have.
fn form_of(alloc: Global, gap: &[u8], following: &[u8]) -> Result<Form, Memory> {
    let mut items = Items::new(alloc);
    items.push(Expr::Token(token_of(alloc, gap, following)?))?;
    let comments = comments_of(alloc, gap, following)?;
    let mut end = Items::new(alloc);
    end.push(Text::from_slice(alloc, b"# end")?)?;
    Ok(Form {
        kind: Kind::List,
        parts: Items::new(alloc),
        seq: Seq {
            items,
            end: EndComments::new(alloc, end)?,
            split: true,
        },
        open_break: true,
        comments,
    })
}

/// A copy of a form as it is shown.
fn shown_copy(alloc: Global, form: &Form) -> Result<Vec<u8>, Memory> {
    let mut shown = Vec::new(alloc);
    show_form(alloc, &form.copy()?, &mut shown)?;
    Ok(shown)
}

/// Whether a form is equal to its copy, its sequence is copied, and its comments are not none.
fn is_copied(form: &Form) -> Result<bool, Memory> {
    let _copy = form.seq.copy()?;
    Ok(form.copy()?.equals(form) && !Comments::empty().equals(&form.comments))
}
