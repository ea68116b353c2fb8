//! What is printed of a text below the line on its fault. It takes no memory.
ghost use Rattle.std.specs.Prelude.{◌≡◌, ◌≤◌, ◌+◌, ◌++◌, length, option_map, replicate, true};
ghost use Rattle.std.specs.List.{slice_get, slice_split};
ghost use Rattle.arrayvec.specs.ArrayVec.{array_vec_len};
ghost use Rattle.bz_streams.specs.Controls.{printable};
ghost use Rattle.bz_streams.specs.Beginnings.{beginning};
ghost use Rattle.bz_streams.specs.Excerpts.{line_numbered, is_last_line, is_narrow, excerpt, fault_place, fault_sense, place_excerpt, fault_excerpt};
ghost use Rattle.bz_streams.specs.Brackets.{inside_line, bracket_line};
ghost use Rattle.bz_items.specs.Characters.{space};
ghost use Rattle.bz_lex.specs.Positions.{is_newline};

use crate::beginning::{beginning, from_column};
use crate::brackets::{Bracket, bracket_at};
use crate::controls::next_control;
use arrayvec::ArrayVec;
use bz_lex::ReadFault;
use itoa::Buffer;

// The most bytes of a line that is printed.
const WIDEST: usize = 200;

// The most bytes of an excerpt: two lines of that width, two margins of four, a caret, a space, what is there and two newlines; and below
// that 104 of a bracket, or of what the fault means.
const LONGEST: usize = 567;

const SPACES: [u8; WIDEST] = [b' '; WIDEST];

pub(crate) type Excerpt = ArrayVec<u8, LONGEST>;

fn is_newline(byte: u8) -> bool
    ensures { result ≡ is_newline byte }
{
    byte == b'\n'
}

fn line_after(text: &[u8], count: usize) -> Option<&[u8]>
    ensures { option_map (λ line. line.now) result ≡ slice_get (slice_split is_newline text.now) count }
{
    let mut lines = text.split(|byte| is_newline(*byte));
    lines.nth(count)
}

fn line_numbered(text: &[u8], number: usize) -> &[u8]
    ensures { result.now ≡ line_numbered text.now number }
{
    match line_after(text, number.saturating_sub(1)) {
        Some(line) => line,
        None => &[],
    }
}

fn is_last_line(text: &[u8], number: usize) -> bool
    ensures { result ≡ is_last_line text.now number }
{
    line_after(text, number).is_none()
}

fn put(text: &mut Excerpt, bytes: &[u8])
    requires { array_vec_len text.old + length bytes.now ≤ 567 }
    ensures items { text.new.items ≡ text.old.items ++ bytes.now }
    ensures len { array_vec_len text.new ≡ array_vec_len text.old + length bytes.now }
{
    text.try_extend_from_slice(bytes).unwrap();
}

fn put_printable(text: &mut Excerpt, line: &[u8])
    requires { array_vec_len text.old + length line.now ≤ 567 }
    ensures items { text.new.items ≡ text.old.items ++ printable line.now }
    ensures len { array_vec_len text.new ≤ array_vec_len text.old + length line.now }
{
    let mut left = line;
    while let Some((plain, _, rest)) = next_control(left) {
        put(text, plain);
        text.push(b' ');
        left = rest;
    }
    put(text, left);
}

fn put_spaces(text: &mut Excerpt, count: usize)
    requires room { array_vec_len text.old + count ≤ 567 }
    requires narrow { count ≤ 200 }
    ensures items { text.new.items ≡ text.old.items ++ replicate count space }
    ensures len { array_vec_len text.new ≡ array_vec_len text.old + count }
{
    put(text, &SPACES[..count]);
}

fn is_narrow(line: &[u8], column: usize) -> bool
    ensures value { result ≡ is_narrow line.now column }
    ensures line { result ≡ true → length line.now ≤ 200 }
    ensures column { result ≡ true → column ≤ 201 }
{
    line.len() <= WIDEST && column <= WIDEST + 1
}

// The words on what is at this rest of a line.
fn put_beginning(text: &mut Excerpt, rest: &[u8], last: bool)
    requires { array_vec_len text.old ≤ 412 }
    ensures items { text.new.items ≡ text.old.items ++ beginning rest.now last }
    ensures len { array_vec_len text.new ≤ array_vec_len text.old + 51 }
{
    let (words, shown, end) = beginning(rest, last);
    put(text, words.as_bytes());
    put(text, shown);
    put(text, end.as_bytes());
}

fn excerpt(line: &[u8], column: usize, last: bool) -> Excerpt
    ensures items { result.items ≡ excerpt line.now column last }
    ensures len { array_vec_len result ≤ 463 }
{
    let mut text = ArrayVec::new();
    if !is_narrow(line, column) {
        return text;
    }
    put(&mut text, b"    ");
    put_printable(&mut text, line);
    put(&mut text, b"\n    ");
    put_spaces(&mut text, column.saturating_sub(1));
    put(&mut text, b"^ ");
    put_beginning(&mut text, from_column(line, column), last);
    put(&mut text, b"\n");
    text
}

/// The line and the column of a fault that has a place.
pub(crate) fn fault_place(fault: &ReadFault) -> Option<(u32, u32)>
    ensures { result ≡ fault_place fault.now }
{
    match fault {
        ReadFault::BadCharacter { line, column }
        | ReadFault::OpenString { line, column }
        | ReadFault::Indented { line, column }
        | ReadFault::Unexpected { line, column }
        | ReadFault::TooDeep { line, column } => Some((*line, *column)),
        ReadFault::NotUtf8 { .. } | ReadFault::TooLarge | ReadFault::Memory => None,
    }
}

/// What a fault means, in a line of its own, or nothing.
pub(crate) fn fault_sense(fault: &ReadFault) -> &'static str
    ensures text { result.now ≡ fault_sense fault.now }
    ensures len { length result.now ≤ 104 }
{
    match fault {
        ReadFault::NotUtf8 { .. } => {
            "    the byte after that many is not UTF-8: save the file as text in UTF-8\n"
        }
        ReadFault::TooLarge => "    a text that is read has at most 67,108,864 bytes\n",
        ReadFault::BadCharacter { .. } => {
            "    no name, number, string or operator begins with this character\n"
        }
        ReadFault::OpenString { .. } => {
            "    the string that begins here is not closed; with one quotation mark it ends on its own line\n"
        }
        ReadFault::Indented { .. } => {
            "    a statement begins at the left margin or, in a suite, with the indentation of that suite\n"
        }
        ReadFault::Unexpected { .. } | ReadFault::Memory => "",
        ReadFault::TooDeep { .. } => "    what begins here is nested deeper than 500 levels\n",
    }
}

// The line of a place and a caret below it, and what the fault there means.
fn sense_excerpt(text: &[u8], line: usize, column: usize, sense: &str) -> Excerpt
    requires { length sense.now ≤ 104 }
    ensures items { result.items ≡ excerpt (line_numbered text.now line) column (is_last_line text.now line) ++ sense.now }
    ensures len { array_vec_len result ≤ 463 + length sense.now }
{
    let last = is_last_line(text, line);
    let mut below = excerpt(line_numbered(text, line), column, last);
    put(&mut below, sense.as_bytes());
    below
}

// The line of the place of a fault, a caret below it, and what it means; nothing where it has no place, and no line where that is too long.
fn place_excerpt(text: &[u8], fault: &ReadFault) -> Excerpt
    ensures items { result.items ≡ place_excerpt text.now fault.now }
    ensures len { array_vec_len result ≤ 463 + length (fault_sense fault.now) }
{
    match fault_place(fault) {
        Some((line, column)) => {
            sense_excerpt(text, line as usize, column as usize, fault_sense(fault))
        }
        None => ArrayVec::new(),
    }
}

// The line on a bracket that a place is inside of.
fn put_inside(text: &mut Excerpt, bracket: Bracket)
    requires { array_vec_len text.old ≤ 463 }
    ensures { text.new.items ≡ text.old.items ++ inside_line bracket }
{
    let mut lines = Buffer::new();
    let mut columns = Buffer::new();
    put(text, b"    inside the '");
    put(text, &[bracket.byte]);
    put(text, b"' at ");
    put(text, lines.format(bracket.line).as_bytes());
    put(text, b":");
    put(text, columns.format(bracket.column).as_bytes());
    put(text, b"\n");
}

// The same of a place of this line, where the bracket is on another one.
fn put_bracket(text: &mut Excerpt, line: usize, bracket: Option<Bracket>)
    requires { array_vec_len text.old ≤ 463 }
    ensures { text.new.items ≡ text.old.items ++ bracket_line line bracket }
{
    match bracket {
        Some(bracket) if bracket.line != line => put_inside(text, bracket),
        _ => {}
    }
}

/// The line of the place of a fault and a caret below it; nothing where the fault has no place or the line is too long. Below that what
/// the fault means, or the innermost bracket that is open there, where something else was to be there and the bracket is on another line.
pub(crate) fn fault_excerpt(text: &[u8], fault: &ReadFault) -> Excerpt
    ensures { result.items ≡ fault_excerpt text.now fault.now }
{
    let mut below = place_excerpt(text, fault);
    if let ReadFault::Unexpected { line, column } = fault {
        let bracket = bracket_at(text, *line as usize, *column as usize);
        put_bracket(&mut below, *line as usize, bracket);
    }
    below
}
