//! Tokens, places and classes.
use crate::trees::known;
use bz_items::Memory;
use bz_lex::{Class, lex, line_and_column};
use bz_token::token;
use sheets::{Case, CaseFault, Page, number_of};
use std::alloc::Global;

/// Answers a question about tokens. Whether it is one.
pub(crate) fn answer(case: &Case, page: &mut Page) -> Result<bool, CaseFault> {
    let answer = match case.question.as_str() {
        "token" => token_of(case.alloc, case.given_text(0)?)?,
        "tokens" => tokens_of(case.alloc, case.text(0)?)?,
        "place" => place_in(case)?,
        "class" => class_of(case)?,
        _ => return Ok(false),
    };
    page.answer(answer.as_bytes())?;
    Ok(true)
}

/// The class and the length of the token at the front of a text.
fn token_of(alloc: Global, text: &[u8]) -> Result<String, Memory> {
    match token(text) {
        Some(found) => format!(in alloc; "{:?} {}", found.class, found.len),
        None => String::from_str(alloc, "none"),
    }
}

/// `lex`, of which nothing has to be known here.
fn lexed(alloc: Global, text: &str) -> Result<Vec<&str>, CaseFault> {
    known(alloc, lex(alloc, text))
}

/// The tokens of a text, a space between two of them.
fn tokens_of(alloc: Global, text: &str) -> Result<String, CaseFault> {
    let tokens = lexed(alloc, text)?;
    let mut shown = String::new(alloc);
    let mut blank = "";
    for token in tokens.as_slice() {
        shown.push_str(blank)?;
        shown.push_str(token)?;
        blank = " ";
    }
    Ok(shown)
}

/// The line and the column of a byte of a text.
fn place_in(case: &Case) -> Result<String, CaseFault> {
    let text = case.given_text(0)?;
    let offset = number_of::<usize>(case.argument()?)?;
    if offset > text.len() {
        return Err(CaseFault::Sheet("an offset past the end"));
    }
    let (line, column) = line_and_column(text, offset);
    Ok(format!(in case.alloc; "{line}:{column}")?)
}

/// The class of this number, and the number of it.
fn class_of(case: &Case) -> Result<String, CaseFault> {
    match Class::of(number_of::<u8>(case.text(0)?)?) {
        Some(class) => Ok(format!(in case.alloc; "{class:?} {}", class.number())?),
        None => Ok(String::from_str(case.alloc, "none")?),
    }
}
