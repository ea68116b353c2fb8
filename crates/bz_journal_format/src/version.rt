//! The first line of another version.
ghost use Rattle.std.specs.Prelude.{◌≡◌, ◌↔◌, IsTrue};
ghost use Rattle.std.specs.List.{list_all};
ghost use Rattle.bz_token.specs.Bytes.{is_digit};
ghost use Rattle.bz_journal_format.specs.Texts.{IsOtherNumber, IsOtherVersion};

use crate::{split_line, strip_mark};

/// Whether all bytes are decimal digits.
fn are_digits(text: &[u8]) -> bool
    ensures { result ≡ list_all is_digit text.now }
{
    text.iter().all(|byte| *byte >= b'0' && *byte <= b'9')
}

/// Whether these are the digits, without leading zeros, of another number than 1 and 2.
fn is_other_number(text: &[u8]) -> bool
    ensures { IsTrue result ↔ IsOtherNumber text.now }
{
    if text.is_empty() || !are_digits(text) {
        return false;
    }
    if text[0] == b'0' && text.len() != 1 {
        return false;
    }
    text != b"1".as_slice() && text != b"2".as_slice()
}

/// Whether the first line is that of another version.
pub fn is_other_version(input: &[u8]) -> bool
    ensures { IsTrue result ↔ IsOtherVersion input.now }
{
    let Some(line) = strip_mark(input, b"bzjournal ") else {
        return false;
    };
    let Some((number, _)) = split_line(line) else {
        return false;
    };
    is_other_number(number)
}
