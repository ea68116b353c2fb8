//! Sheets of cases: texts with questions, which are copied with the answers put in. A program that answers sheets says which
//! questions there are.
//!
//! The beginning of a line of a sheet says what it is:
//!
//! - nothing or `#`: a remark;
//! - `>`: a case, with its text; the answer comes after the last line of the case;
//! - `&`: a further text of the case; right below a question, a text that goes with each of its cases, after their own;
//! - `|`: the next line of the text above;
//! - anything else: a question, about all cases below it, up to the next one, and after a space its argument.
//!
//! After a mark is a space and then the text; a mark alone is an empty line. The lines of a text are joined by
//! newlines, so that a text ends in a newline where its last line is `|` alone. What cannot be seen or written is
//! between two backquotes, on the sheet and in answers: `n`, `r`, `t` and `s` are a newline, a carriage return, a tab, and a
//! space at the end of a line, `xFF` is a byte and `uFEFF` a character by their numbers in hexadecimal, `197*TEXT` the
//! text 197 times, and nothing at all a backquote.
//!
//! An answer begins with `=`. After `!` is a line of standard error, and after `<` a text on standard output or a
//! layout, written as the texts of cases are. A line that begins with `?` says why there is no answer.
#![tactic(auto)]

mod case;
mod escape;
mod page;
mod process;
mod sheet;

pub use case::{Case, CaseFault, number_of, utf8_of};
pub use page::Page;
pub use process::{answer, input};
pub use sheet::{Questions, answer_sheet};
