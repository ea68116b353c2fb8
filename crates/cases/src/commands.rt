//! Commands, and the words that they are made of.
use bz_command_syntax::{Command, CommandFault, is_identifier, is_kind_name, quoted, read_words};
use bz_items::{Memory, Text};
use sheets::{Case, CaseFault, Page};
use std::alloc::Global;

/// Answers a question about a command or a word. Whether it is one.
pub(crate) fn answer(case: &Case, page: &mut Page) -> Result<bool, CaseFault> {
    let text = case.given_text(0)?;
    match case.question.as_str() {
        "command" => {
            let _command = read_command(case.alloc, case.text(0)?)?;
            page.answer(b"read")?;
        }
        "split" => split(case.alloc, text, page)?,
        "quoted" => page.answer(as_string(case.alloc, text)?.as_slice())?,
        "identifier" => page.yes_or_no(is_identifier(text))?,
        "rule_kind" => page.yes_or_no(is_kind_name(text))?,
        _ => return Ok(false),
    }
    Ok(true)
}

/// `Command::read`; a fault is the answer of the case.
pub(crate) fn read_command(alloc: Global, text: &str) -> Result<Command, CaseFault> {
    match Command::read(alloc, text) {
        Ok(command) => Ok(command),
        Err(CommandFault::Memory) => Err(CaseFault::Memory),
        Err(fault) => Err(CaseFault::Refused(format!(in alloc; "{} {fault}", fault.number())?)),
    }
}

/// `read_words`, of which nothing has to be known here.
fn words_of(alloc: Global, text: &[u8]) -> Result<Vec<Text>, Memory> {
    read_words(alloc, text)
}

/// Writes the words of a text, each on a line.
fn split(alloc: Global, text: &[u8], page: &mut Page) -> Result<(), Memory> {
    for word in words_of(alloc, text)?.as_slice() {
        page.answer(word.as_slice())?;
    }
    Ok(())
}

/// `quoted`, of which nothing has to be known here.
fn as_string(alloc: Global, word: &[u8]) -> Result<Text, Memory> {
    quoted(alloc, word)
}
