//! The lines on standard error that speak of files. Its faults are passed over.
ghost use Rattle.std.specs.Prelude.{◌≡◌, ◌++◌, List, ℕ, IfSome, OnOk, OnErr, decimal};
ghost use Rattle.bz_streams.specs.Faults.{AppendsUnlessFailed};
ghost use Rattle.bz_streams.specs.Excerpts.{fault_excerpt, fault_sense};
ghost use Rattle.bz_streams.specs.Options.{option_hint_text};
ghost use Rattle.bz_streams.specs.Reported.{spot_line, said_line, named_line, fault_word, fault_line};

use crate::excerpt::{fault_excerpt, fault_place, fault_sense};
use crate::options::report_above_hint;
use crate::pieces::report_above;
use crate::{LinePiece, OptionHint, Sink};
use bz_lex::ReadFault;
use itoa::Buffer;
use std::alloc::{AllocError, Global};
use std::fmt::Display;

/// The name by which standard input is reported.
pub const STDIN: &str = "<stdin>";

const END: LinePiece<'static> = LinePiece::Own("\n");

fn report_spot<'a, E: Sink>(
    err: &mut E,
    file: &'a str,
    line: &'a str,
    column: &'a str,
    word: &'a str,
    below: &[u8],
)
    ensures { AppendsUnlessFailed (E.faults err.old) (E.faults err.new) (E.contents err.old) (E.contents err.new)
        (spot_line file.entry.now line.entry.now column.entry.now word.entry.now ++ below.now) }
{
    let (file, line) = (LinePiece::Outside(file), LinePiece::Own(line));
    let (column, word) = (LinePiece::Own(column), LinePiece::Own(word));
    let (colon, space) = (LinePiece::Own(":"), LinePiece::Own(": "));
    report_above(
        err,
        &[file, colon, line, colon, column, space, word, END],
        below,
    );
}

// Reports where a file is not accepted, and why.
fn report_place<'a, E: Sink>(
    err: &mut E,
    file: &'a str,
    line: u32,
    column: u32,
    word: &'a str,
    below: &[u8],
)
    ensures { AppendsUnlessFailed (E.faults err.old) (E.faults err.new) (E.contents err.old) (E.contents err.new)
        (spot_line file.entry.now (decimal line) (decimal column) word.entry.now ++ below.now) }
{
    let mut lines = Buffer::new();
    let mut columns = Buffer::new();
    let line = lines.format(line);
    let column = columns.format(column);
    report_spot(err, file, line, column, word, below);
}

// Reports a word on a file, after these words of our own, and below it what it means.
fn report_word<'a, E: Sink>(
    err: &mut E,
    file: &'a str,
    says: &'a str,
    word: &'a str,
    sense: &'a str,
    below: &[u8],
)
    ensures { AppendsUnlessFailed (E.faults err.old) (E.faults err.new) (E.contents err.old) (E.contents err.new)
        ((said_line file.entry.now says.entry.now word.entry.now ++ sense.entry.now) ++ below.now) }
{
    let (file, says) = (LinePiece::Outside(file), LinePiece::Own(says));
    let (word, sense) = (LinePiece::Own(word), LinePiece::Own(sense));
    report_above(err, &[file, says, word, END, sense], below);
}

/// Reports a word on a file: writes `FILE: WORD` and a newline to `err`, up to its first fault. It takes no memory itself.
#[tactic(auto, using(crate::proofs::Written::nothing_below))]
pub fn report_named<'a, E: Sink>(err: &mut E, file: &'a str, word: &'a str)
    ensures { AppendsUnlessFailed (E.faults err.old) (E.faults err.new) (E.contents err.old) (E.contents err.new)
        (named_line file.entry.now word.entry.now) }
{
    report_word(err, file, ": ", word, "", b"");
}

fn fault_word(fault: &ReadFault) -> &'static str
    ensures { result.now ≡ fault_word fault.now }
{
    match fault {
        ReadFault::NotUtf8 { .. } => "NotUtf8",
        ReadFault::TooLarge => "TooLarge",
        ReadFault::BadCharacter { .. } => "BadCharacter",
        ReadFault::OpenString { .. } => "OpenString",
        ReadFault::Indented { .. } => "Indented",
        ReadFault::Unexpected { .. } => "Unexpected",
        ReadFault::TooDeep { .. } => "TooDeep",
        ReadFault::Memory => "Memory",
    }
}

// Reports why a file is not accepted, and these bytes below that.
fn report_fault_above<E: Sink>(err: &mut E, file: &str, fault: &ReadFault, below: &[u8])
    ensures { AppendsUnlessFailed (E.faults err.old) (E.faults err.new) (E.contents err.old) (E.contents err.new)
        (fault_line file.now fault.now ++ below.now) }
{
    let word = fault_word(fault);
    match fault_place(fault) {
        Some((line, column)) => report_place(err, file, line, column, word, below),
        None => match fault {
            ReadFault::NotUtf8 { at } => {
                let mut places = Buffer::new();
                let at = places.format(*at);
                report_word(err, file, ": NotUtf8 at ", at, fault_sense(fault), below);
            }
            _ => report_word(err, file, ": ", word, fault_sense(fault), below),
        },
    }
}

/// Reports why a file is not accepted: writes `FILE:LINE:COLUMN: NAME` to `err`, `FILE: NotUtf8 at BYTE` or, where the
/// fault has no place, `FILE: NAME`, and a newline, and a line on what these two mean, up to its first fault. It takes no memory itself.
#[tactic(auto, using(crate::proofs::Written::nothing_below))]
pub fn report_fault<E: Sink>(err: &mut E, file: &str, fault: &ReadFault)
    ensures { AppendsUnlessFailed (E.faults err.old) (E.faults err.new) (E.contents err.old) (E.contents err.new)
        (fault_line file.now fault.now) }
{
    report_fault_above(err, file, fault, b"");
}

/// Reports why a file that holds this text is not accepted: as `report_fault`, and where the fault has a place the line of the text
/// below that, a caret below the place, and what the fault means, each after four spaces, and each ended by a newline; up to the first fault of `err`.
/// A control character of the line is written as a space. A line of more than 200 bytes is left out, with its caret. The caret is
/// after as many spaces as there are characters before the place. It takes no memory itself.
pub fn report_fault_in<E: Sink>(err: &mut E, file: &str, text: &[u8], fault: &ReadFault)
    ensures { AppendsUnlessFailed (E.faults err.old) (E.faults err.new) (E.contents err.old) (E.contents err.new)
        (fault_line file.now fault.now ++ fault_excerpt text.now fault.now) }
{
    let below = fault_excerpt(text, fault);
    report_fault_above(err, file, fault, below.as_slice());
}

/// Reports a fault that is found in words, as clap finds them, by its own text, and this hint of the program of this name below it, up to the
/// first fault of `err`. The error: there was no memory for that text; nothing is then printed.
pub fn report_clap_hinted<'a, E: Sink, T: Display>(
    alloc: Global,
    err: &mut E,
    error: &T,
    program: &'a str,
    hint: OptionHint<'a>,
) -> Result<(), AllocError>
    ensures ok { OnOk result ((text : List ℕ) × AppendsUnlessFailed (E.faults err.old) (E.faults err.new)
        (E.contents err.old) (E.contents err.new) (text ++ option_hint_text program.entry.now hint.entry)) }
    ensures text { OnOk result (IfSome (T.output error.now) (λ text. AppendsUnlessFailed (E.faults err.old) (E.faults err.new)
        (E.contents err.old) (E.contents err.new) (text ++ option_hint_text program.entry.now hint.entry))) }
    ensures err { OnErr result (err.new ≡ err.old) }
{
    let text = error.to_string(alloc)?;
    report_above_hint(err, text.as_str(), program, hint);
    Ok(())
}
