//! Names of a text that have a character outside of ASCII, and notes on a line. They take no memory.
ghost use Rattle.std.specs.Prelude.{◌≡◌, decimal};
ghost use Rattle.bz_streams.specs.Brackets.{is_outside, within_after};
ghost use Rattle.bz_streams.specs.Faults.{AppendsUnlessFailed};
ghost use Rattle.std.specs.List.{list_any};
ghost use Rattle.bz_streams.specs.Beginnings.{is_beyond_ascii};
ghost use Rattle.bz_streams.specs.Names.{note_line, odd_line_from, odd_name_line};

use crate::brackets::Within;
use crate::{LinePiece, Sink, report_pieces};
use itoa::Buffer;

// Whether a text, as hardly one has, has a byte outside of ASCII. Each byte is looked at, so that many are at once.
fn is_beyond_ascii(text: &[u8]) -> bool
    ensures { result ≡ list_any is_beyond_ascii text.now }
{
    let mut found = false;
    for &byte in text {
        found |= byte >= 128;
    }
    found
}

// The line of the first byte outside of ASCII that is in no string and no comment.
fn line_of_odd_name(text: &[u8]) -> Option<usize>
    ensures { result ≡ odd_name_line text.now }
{
    let mut within = Within::Outside;
    let mut line = 1;
    for &byte in text {
        within = within.after(byte);
        if byte >= 128 && within.is_outside() {
            return Some(line);
        }
        if byte == b'\n' {
            line += 1;
        }
    }
    None
}

/// The line, from 1, of the first byte outside of ASCII that is in no string and no comment of a text, if there is one. Of a text that is
/// accepted it is in a name.
pub fn odd_name_line(text: &[u8]) -> Option<usize>
    ensures { result ≡ odd_name_line text.now }
{
    if !is_beyond_ascii(text) {
        return None;
    }
    line_of_odd_name(text)
}

fn report_on_line<'a, E: Sink>(
    err: &mut E,
    program: &'a str,
    file: &'a str,
    line: &'a str,
    words: &'a str,
)
    ensures { AppendsUnlessFailed (E.faults err.old) (E.faults err.new) (E.contents err.old) (E.contents err.new)
        (note_line program.entry.now file.entry.now line.entry.now words.entry.now) }
{
    report_pieces(
        err,
        &[
            LinePiece::Own(program),
            LinePiece::Own(": note: "),
            LinePiece::Outside(file),
            LinePiece::Own(":"),
            LinePiece::Own(line),
            LinePiece::Own(": "),
            LinePiece::Own(words),
            LinePiece::Own("\n"),
        ],
    );
}

/// Reports a note on a line of a file: writes `PROGRAM: note: FILE:LINE: WORDS` and a newline to `err`, up to its first fault.
pub fn report_note<'a, E: Sink>(
    err: &mut E,
    program: &'a str,
    file: &'a str,
    line: usize,
    words: &'a str,
)
    ensures { AppendsUnlessFailed (E.faults err.old) (E.faults err.new) (E.contents err.old) (E.contents err.new)
        (note_line program.entry.now file.entry.now (decimal line) words.entry.now) }
{
    let mut numbers = Buffer::new();
    let line = numbers.format(line);
    report_on_line(err, program, file, line, words);
}
