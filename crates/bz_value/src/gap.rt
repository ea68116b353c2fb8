//! What a gap says, line by line. All that reads a gap uses `first_line`.
ghost use Rattle.std.specs.Prelude.{◌≡◌, ◌+◌, ◌-◌, [], ◌∷◌, ◌++◌, ◌<◌, ◌≤◌, nat_lt, take, drop, length, IfSome, MatchOption, OnOk, IfOk};
ghost use Rattle.std.specs.Option.{option_copied};
ghost use Rattle.bz_token.specs.Bytes.{is_blank};
ghost use Rattle.bz_value.specs.Gaps.{all_in, after_first_line, has_newline, lines_of, others_in, rest_of_line, suffix_in, trimmed};

use bz_items::{Items, Memory, Text};
use memchr::memchr;
use std::alloc::Global;

/// A line of a gap: how many spaces and tabs are right before its comment, 0 without one; its comment, kept from its `#` on
/// without blanks at its end; whether an unescaped newline ends it; and the gap after it.
#[derive(Clone, Copy)]
pub struct Line<'a> {
    pub indent: usize,
    pub comment: Option<&'a [u8]>,
    pub newline: bool,
    pub rest: &'a [u8],
}

/// How many bytes are before the first newline: all of them, where there is none.
fn line_len(text: &[u8]) -> usize
    ensures within { result ≤ length text.now }
    ensures words { (rest_of_line text.now).words ≡ take result text.now }
    ensures newline { (rest_of_line text.now).newline ≡ nat_lt result (length text.now) }
    ensures lines { (rest_of_line text.now).lines ≡ lines_of (drop (result + 1) text.now) }
{
    match memchr(b'\n', text) {
        Some(at) => at,
        None => text.len(),
    }
}

/// What is after the newline that ends the first line, which has this many bytes.
fn after_line(text: &[u8], len: usize) -> &[u8]
    requires { len ≤ length text.now }
    ensures { result.now ≡ drop (len + 1) text.now }
{
    match &text[len..] {
        [] => &[],
        [_, rest @ ..] => rest,
    }
}

/// Whether the byte is a space, a tab or a carriage return.
fn is_blank_byte(byte: u8) -> bool
    ensures { result ≡ is_blank byte }
{
    byte == b' ' || byte == b'\t' || byte == b'\r'
}

/// The text without spaces, tabs and carriage returns at its end.
pub fn trim_end(text: &[u8]) -> &[u8]
    ensures { result.now ≡ trimmed text.now }
{
    let mut end = text.len();
    while end > 0 && is_blank_byte(text[end - 1]) {
        end -= 1;
    }
    &text[..end]
}

/// The first line of a gap; `None` of a gap that says nothing.
pub fn first_line(gap: &[u8]) -> Option<Line<'_>>
    ensures line { MatchOption result (lines_of gap.now ≡ []) (λ line. lines_of gap.now ≡ record { indent = line.indent; comment = option_copied line.comment; newline = line.newline } ∷ lines_of line.rest.now) }
    ensures shorter { IfSome result (λ line. length line.rest.now < length gap.now) }
{
    let mut rest = gap;
    // the rest, and the spaces and tabs right before it
    let mut indented = gap;
    while let [first, tail @ ..] = rest {
        match *first {
            b'#' => {
                let len = line_len(tail);
                return Some(Line {
                    indent: indented.len() - rest.len(),
                    comment: Some(trim_end(&rest[..len + 1])),
                    newline: len < tail.len(),
                    rest: after_line(tail, len),
                });
            }
            b'\n' => {
                return Some(Line {
                    indent: 0,
                    comment: None,
                    newline: true,
                    rest: tail,
                });
            }
            // a backslash is in a gap only before the newline that it escapes
            b'\\' => {
                return Some(Line {
                    indent: 0,
                    comment: None,
                    newline: false,
                    rest: after_line(tail, line_len(tail)),
                });
            }
            b' ' | b'\t' => rest = tail,
            _ => {
                rest = tail;
                indented = tail;
            }
        }
    }
    None
}

/// The gap after its first line.
pub fn past_first_line(gap: &[u8]) -> &[u8]
    ensures { lines_of result.now ≡ after_first_line (lines_of gap.now) }
{
    match first_line(gap) {
        None => &[],
        Some(line) => line.rest,
    }
}

/// Whether an unescaped newline is in the gap.
pub fn has_newline(gap: &[u8]) -> bool
    ensures { result ≡ has_newline gap.now }
{
    let mut rest = gap;
    while let Some(line) = first_line(rest) {
        if line.newline {
            return true;
        }
        rest = line.rest;
    }
    false
}

/// The comment on the line that the gap begins on. The error: memory was refused.
pub fn suffix_in(alloc: Global, gap: &[u8]) -> Result<Option<Text>, Memory>
    ensures { IfOk result (λ suffix. suffix ≡ suffix_in gap.now) }
{
    let Some(line) = first_line(gap) else {
        return Ok(None);
    };
    match line.comment {
        None => Ok(None),
        Some(comment) => Ok(Some(Text::from_slice(alloc, comment)?)),
    }
}

/// Appends the comments of a gap in their order. The error: memory was refused.
pub fn push_all(alloc: Global, gap: &[u8], comments: &mut Items<Text>) -> Result<(), Memory>
    ensures { OnOk result (comments.new ≡ comments.old ++ all_in gap.now) }
{
    let mut rest = gap;
    while let Some(line) = first_line(rest) {
        if let Some(comment) = line.comment {
            comments.push(Text::from_slice(alloc, comment)?)?;
        }
        rest = line.rest;
    }
    Ok(())
}

/// Appends the comments of a gap but for that of its first line. The error: memory was refused.
pub fn push_others(alloc: Global, gap: &[u8], comments: &mut Items<Text>) -> Result<(), Memory>
    ensures { OnOk result (comments.new ≡ comments.old ++ others_in gap.now) }
{
    push_all(alloc, past_first_line(gap), comments)
}
