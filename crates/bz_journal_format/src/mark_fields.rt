//! Fields: each function takes one from the front of the bytes, and gives what is after it. None of them allocates.
ghost use Rattle.std.specs.Prelude.{◌≡◌, ◌∷◌, ◌<◌, ◌≤◌, ◌^◌, [], ℕ, Bool, nat_eq, position, IfOk, MatchOption, Some, None};
ghost use Rattle.bz_items.specs.Characters.{line_feed};
ghost use Rattle.bz_journal_format.specs.Outcomes.{Gives};
ghost use Rattle.bz_journal_format.specs.Readers.{after_mark, counted_at, digest_at, digits_at, field_at, ended_line_at, number_at, up_to};

use crate::pushing::hex_digits;
use crate::unread::Unread;
use hex::FromHex;

/// What is after a mark; `None` where other bytes are in its place.
#[tactic(auto, unfolding(crate::specs::Readers::after_mark))]
pub fn strip_mark<'a>(input: &'a [u8], mark: &[u8]) -> Option<&'a [u8]>
    ensures { MatchOption result (after_mark mark.now input.now ≡ None) (λ rest. after_mark mark.now input.now ≡ Some rest.now) }
{
    input.strip_prefix(mark)
}

/// What is after a mark. The error is `Damaged`: other bytes are in its place.
pub fn read_mark<'a>(input: &'a [u8], mark: &[u8]) -> Result<&'a [u8], Unread>
    ensures { Gives (λ rest. rest.now) result (after_mark mark.now input.now) }
{
    match strip_mark(input, mark) {
        Some(rest) => Ok(rest),
        None => Err(Unread::Damaged),
    }
}

/// The first `count` bytes, and those after them. The error is `Damaged`: there are fewer.
#[tactic(auto, unfolding(crate::specs::Readers::field_at))]
pub fn read_field(input: &[u8], count: u32) -> Result<(&[u8], &[u8]), Unread>
    ensures { Gives (λ x. (x.0.now, x.1.now)) result (field_at count input.now) }
{
    let count = count as usize;
    if input.len() < count {
        return Err(Unread::Damaged);
    }
    Ok(input.split_at(count))
}

/// Where the first newline is.
fn line_end(text: &[u8]) -> Option<usize>
    ensures { result ≡ position (λ b. nat_eq b line_feed) text.now }
{
    text.iter().position(|byte| *byte == b'\n')
}

/// The bytes before the first newline, and those after it; `None` where no newline is there.
#[tactic(auto, using(crate::proofs::MarkLines::line_ends, crate::proofs::MarkLines::no_line_ends))]
pub fn split_line(input: &[u8]) -> Option<(&[u8], &[u8])>
    ensures { MatchOption result (ended_line_at input.now ≡ None) (λ x. ended_line_at input.now ≡ Some (x.0.now, x.1.now)) }
{
    let Some(end) = line_end(input) else {
        return None;
    };
    let (line, _) = input.split_at(end);
    let (_, rest) = input.split_at(end + 1);
    Some((line, rest))
}

/// A number below 2^32 in decimal digits without leading zeros, with the byte `stop` right after it; `numbers_exact` says
/// what is read where that byte is no digit. The error is `Damaged`: no such number is there.
#[tactic(auto, unfolding(crate::specs::Readers::number_at, crate::specs::Readers::after_mark))]
pub fn read_number(input: &[u8], stop: u8) -> Result<(u32, &[u8]), Unread>
    ensures { Gives (λ x. (x.0, x.1.now)) result (number_at stop input.now) }
{
    match input {
        [] => Err(Unread::Damaged),
        [b'0', rest @ ..] => match rest {
            [byte, rest @ ..] if *byte == stop => Ok((0, rest)),
            _ => Err(Unread::Damaged),
        },
        [byte, rest @ ..] => {
            if *byte < b'0' || *byte > b'9' {
                return Err(Unread::Damaged);
            }
            read_digits(rest, (*byte - b'0') as u32, stop)
        }
    }
}

/// The number whose first digits are those of `begun`, by the digits up to the stop.
#[tactic(auto, unfolding(crate::specs::Readers::digits_at))]
fn read_digits(input: &[u8], begun: u32, stop: u8) -> Result<(u32, &[u8]), Unread>
    ensures { Gives (λ x. (x.0, x.1.now)) result (digits_at stop begun input.now) }
{
    let mut value = begun;
    let mut rest = input;
    'digits: while let [byte, tail @ ..] = rest {
        if *byte == stop {
            return Ok((value, tail));
        }
        if *byte < b'0' || *byte > b'9' {
            return Err(Unread::Damaged);
        }
        let next = value as u64 * 10 + (*byte - b'0') as u64;
        if next > u32::MAX as u64 {
            return Err(Unread::Damaged);
        }
        value = next as u32;
        rest = tail;
    }
    Err(Unread::Damaged)
}

/// A number as `read_number` reads it that is at most `limit`. The error is `Damaged`: none is there.
pub fn read_number_up_to(input: &[u8], limit: u32, stop: u8) -> Result<(u32, &[u8]), Unread>
    ensures value { Gives (λ x. (x.0, x.1.now)) result (up_to limit stop input.now) }
    ensures within { IfOk result (λ x. x.0 ≤ limit) }
{
    let (number, rest) = read_number(input, stop)?;
    if number > limit {
        return Err(Unread::Damaged);
    }
    Ok((number, rest))
}

/// Bytes with their number before them, and those after them. The error is `Damaged`: no number is there, or fewer
/// bytes than it says.
#[tactic(auto, unfolding(crate::specs::Readers::counted_at))]
pub fn read_counted(input: &[u8], stop: u8) -> Result<(&[u8], &[u8]), Unread>
    ensures { Gives (λ x. (x.0.now, x.1.now)) result (counted_at stop input.now) }
{
    let (count, rest) = read_number(input, stop)?;
    read_field(rest, count)
}

/// A digest of 32 bytes in 64 digits of lower case, and what is after the newline that ends it. The error is
/// `Damaged`: no such line is there.
#[tactic(auto, unfolding(crate::specs::Readers::digest_at))]
pub fn read_digest(input: &[u8]) -> Result<([u8; 32], &[u8]), Unread>
    ensures { Gives (λ x. (x.0, x.1.now)) result (digest_at input.now) }
{
    let (text, rest) = read_field(input, 64)?;
    let Ok(digest) = <[u8; 32]>::from_hex(text) else {
        return Err(Unread::Damaged);
    };
    let rest = read_mark(rest, b"\n")?;
    // Digits of upper case are detected by writing the digest again.
    if hex_digits(&digest).as_slice() != text {
        return Err(Unread::Damaged);
    }
    Ok((digest, rest))
}
