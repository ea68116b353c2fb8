//! Where a text may be cut into chunks.
ghost use Rattle.std.specs.Prelude.{◌≤◌, ◌<◌, length};

use bz_grammar::ReadFault;
use memchr::{memchr, memrchr};

/// This many bytes a chunk has at least: most are one statement. So few nodes and values are there at a time that the allocator has at hand
/// what the chunk before gave back; with 32 KB it searches for nearly each, which takes a tenth of the whole time.
pub(crate) const CHUNK: usize = 128;

/// How often a chunk that ends within a statement is tried again, at twice the length.
pub(crate) const TRIES: usize = 20;

/// Whether a text that is not read may be where more is after it: a string is open, or the end is not expected.
pub(crate) fn may_go_on(fault: &ReadFault, text: &[u8]) -> bool {
    match fault {
        ReadFault::OpenString { .. } => true,
        ReadFault::Unexpected { line, .. } => {
            *line as usize > text.iter().filter(|byte| **byte == b'\n').count()
        }
        _ => false,
    }
}

/// Whether a statement begins with these bytes, at the begin of a line, that is neither a load nor goes on with an `if`.
fn begins_statement(text: &[u8]) -> bool {
    match text {
        [b'l', b'o', b'a', b'd', ..] | [b'e', b'l', ..] => false,
        [first, ..] => first.is_ascii_alphabetic() || *first == b'_',
        [] => false,
    }
}

/// The place after the last line of code of these lines, 0 where they have none; `bare`: where a comment is after it.
fn code_end(text: &[u8], bare: bool) -> usize
    ensures { result ≤ length text.now }
{
    let mut left = text;
    while let [before @ .., _newline] = left {
        let (_, line) = left.split_at(memrchr(b'\n', before).map_or(0, |at| at + 1));
        match line.iter().find(|byte| !byte.is_ascii_whitespace()) {
            Some(b'#') if bare => return 0,
            Some(b'#') | None => left = &left[..left.len() - line.len()],
            Some(_) => return left.len(),
        }
    }
    0
}

/// A place after which a chunk may begin that has some `from` bytes before it: right after a line that is neither blank nor a
/// comment, where the next such line begins as a statement does (`bare`: with no comment between them); or else the end of the text. It is a
/// guess: brackets and strings that are open there are not looked for.
pub(crate) fn chunk_end(text: &[u8], from: usize, bare: bool) -> usize
    ensures bound { result ≤ length text.now }
    ensures some { 0 < length text.now → 0 < result }
{
    let mut at = from;
    while at < text.len() {
        at = match memchr(b'\n', &text[at..]) {
            Some(count) => at + count + 1,
            None => text.len(),
        };
        if begins_statement(&text[at..]) {
            let end = code_end(&text[..at], bare);
            if end > 0 {
                return end;
            }
        }
    }
    text.len()
}
