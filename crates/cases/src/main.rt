//! Answers cases: texts of BUILD files, labels or command lines, and what the libraries make of each. A new case is a line or
//! two of data, and costs no proof.
//!
//! Standard input is a sheet of cases, which is copied to standard output with the answers put in: the file `stdin` beside
//! `src` holds the cases, and `stdout` the same sheet with the answers that are wanted, worked out by hand, so it can be
//! read and checked by eye alone. `rt run < stdin | diff - stdout` compares them. The library `sheets` says how a sheet is
//! written; the runs of the engines are requested by the sheet of the program `runs`.
//!
//! The questions, with what they are about and what is answered:
//!
//! | Question | About | Answer |
//! |---|---|---|
//! | `tree` | a text | its tree, or the number and the text of its fault |
//! | `expression` | a text of one expression | the tree, without the File, Line and Bare around it |
//! | `statement` | a text of one line without its newline, and with one | the tree, without the File and the Line around it |
//! | `spelling` | a text | how many bytes its tree spells, or its fault |
//! | `accepted` | a text | whether it has a tree |
//! | `equal` | two texts | whether their trees are equal |
//! | `lines` | a text | the line of each statement |
//! | `bzl_lines` | a text of a .bzl file | the line of each statement, those of suites too |
//! | `kind`, `class` | a number | the kind of node or the class of leaf that has it, and its number |
//! | `view` | a text | its file value, an item a line |
//! | `copies` | a gap, and a comment | a copy of a form that has the comments of the gap, but for that of its first line, above, and the comment after; whether all copies are equal |
//! | `layout` | a text | the layout of its file value, which has that layout in its turn |
//! | `formatted` | a text | the layout of its file value tidied, which is formatted to that in its turn |
//! | `bzl` | a text of a .bzl file | its tree, or the number and the text of its fault |
//! | `bzl_formatted` | a text of a .bzl file | its formatted text, which is formatted to itself |
//! | `bzl_tidied` | a text of a .bzl file | the layout of its file value tidied, which is its own layout tidied |
//! | `bzl_run` | a text of a .bzl file, and a command with its target | the layout of what the command makes of its file value, or the refusal |
//! | `splice PLACE COUNT` | two texts | the first with this many of its bytes, from the place on, exchanged for the second; the bytes that were there; and the result from its last byte on |
//! | `token` | a text | the class and the bytes of the token that it begins with |
//! | `tokens` | a text | its tokens, or its fault |
//! | `leaves` | a text | class, gap and token of each leaf, and the fault |
//! | `place OFFSET` | a text | line and column of the byte at the offset |
//! | `label PACKAGE` | a text | repository, package and name of the label that it is in the package |
//! | `same PACKAGE` | two texts | whether they mean the same in the package |
//! | `shorten PACKAGE` | a text | its shorter form in the package, and in a package that isn't known |
//! | `order` | keys | whether each comes before all that are after it |
//! | `target` | a text | package and rules of the target that it is |
//! | `priority` | an attribute | where it is in a rule |
//! | `sorted KIND` | an attribute | whether its lists are sorted in a rule of the kind |
//! | `labels`, `lists` | an attribute | whether its texts are labels, whether one value of it becomes a list |
//! | `command` | a text | whether it is read as a command, which is copied, or its fault |
//! | `split` | a text | the words that it is made of |
//! | `quoted` | a text | the string that says it |
//! | `identifier`, `rule_kind` | a text | whether it is an identifier, whether it is one or several joined by dots |
//! | `session PACKAGE` | actions, and a text | the reply to each, the place in the history, and the present text |
//! | `weights PACKAGE` | the same | the weight of each step between two texts, in their order |
//! | `journal PACKAGE` | the same | the reply to each action, which is kept with its line as its note; the journal; of the session that it is resumed as its listing and its notes |
//! | `laws` | nothing | that all laws were called |
//!
//! An action is `COMMAND TARGET`, `format`, `undo N` or `redo N`.
//!
//! With words after its name the program answers no sheet: it does one piece of work on the text that is standard input, and
//! prints what that took. The module `measuring` says which.
#![tactic(auto)]

mod commands;
mod copies;
mod copying;
mod journals;
mod labels;
mod laws;
mod lists;
mod measuring;
mod sessions;
mod tokens;
mod trees;
mod values;

use anyhow::Result;
use sheets::{Case, CaseFault, Page, Questions, answer, input};
use std::env;
use std::process::ExitCode;

/// The questions of the sheet, by the module that answers.
#[derive(Clone, Copy)]
struct Cases;

impl Questions for Cases {
    fn answer(self, case: &Case, page: &mut Page) -> Result<(), CaseFault> {
        match case.question.as_str() {
            "splice" => return lists::answer(case, page),
            "copies" => return copies::answer(case, page),
            "session" => return sessions::answer(case, page),
            "weights" => return sessions::answer_weights(case, page),
            "journal" => return journals::answer(case, page),
            "laws" => return laws::answer(case, page),
            _ => {}
        }
        if tokens::answer(case, page)?
            || trees::answer(case, page)?
            || values::answer(case, page)?
            || labels::answer(case, page)?
            || commands::answer(case, page)?
        {
            return Ok(());
        }
        Err(CaseFault::Sheet("no such question"))
    }
}

fn main(rt: HostRuntime) -> Result<ExitCode> {
    let mut words = env::args(&rt)?.skip(1);
    let Some(word) = words.next() else {
        answer(&rt, Cases)?;
        return Ok(ExitCode::SUCCESS);
    };
    let bytes = input(&rt)?;
    match measuring::measure(&rt, word.as_str(), words.next(), &bytes) {
        Some(()) => Ok(ExitCode::SUCCESS),
        None => Ok(ExitCode::FAILURE),
    }
}
