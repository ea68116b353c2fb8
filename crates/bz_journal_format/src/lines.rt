//! Reading the lines of a record.
ghost use Rattle.std.specs.Prelude.{◌≡◌, ◌↔◌, IsTrue};
ghost use Rattle.bz_journal_format.specs.Outcomes.{Gives};
ghost use Rattle.bz_journal_format.specs.private.Reading.{lines_at, record_at};
ghost use Rattle.bz_journal_format.specs.Texts.{end_line};

use crate::content::{Record, Version};
use crate::entries::{read_digests, read_entries};
use crate::fields::{read_short_text, version_line};
use crate::limits::STEP_LIMIT;
use crate::{Unread, hex_digits, read_counted, read_mark, read_number_up_to, strip_mark};
use bz_items::{Items, Text};
use sha2::{Digest, Sha256};
use std::alloc::Global;

/// All lines but the last.
#[tactic(auto, unfolding(crate::specs::private::Reading::lines_at, crate::specs::private::Reading::counted_lines_at))]
fn read_lines(
    alloc: Global,
    version: Version,
    depth: u32,
    input: &[u8],
) -> Result<(Record, &[u8]), Unread>
    ensures { Gives (λ x. (x.0, x.1.now)) result (lines_at version depth input.now) }
{
    let rest = read_mark(input, version_line(version))?;
    let rest = read_mark(rest, b"package ")?;
    let (name, rest) = read_short_text(rest)?;
    let rest = read_mark(rest, b"\ntext ")?;
    let (text, rest) = read_counted(rest, b'\n')?;
    let rest = read_mark(rest, b"\nsteps ")?;
    let (count, rest) = read_number_up_to(rest, STEP_LIMIT, b' ')?;
    let rest = read_mark(rest, b"now ")?;
    let (cursor, rest) = read_number_up_to(rest, count, b' ')?;
    let rest = read_mark(rest, b"before ")?;
    let (before, rest) = read_number_up_to(rest, count, b'\n')?;
    let (digests, rest) = read_digests(alloc, count + 1, rest)?;
    let (steps, rest) = read_entries(alloc, version, depth, count, rest)?;
    let record = Record {
        package: Text::from_slice(alloc, name)?,
        text: Text::from_slice(alloc, text)?,
        cursor,
        before,
        digests: Items::from_vec(digests),
        steps: Items::from_vec(steps),
    };
    Ok((record, rest))
}

/// Whether these bytes are the last line after those lines.
fn is_end(input: &[u8], lines: &[u8]) -> bool
    ensures { IsTrue result ↔ (input.now ≡ end_line lines.now) }
{
    let digest = Sha256::digest(lines);
    let digits = hex_digits(&digest);
    let Some(rest) = strip_mark(input, b"end ") else {
        return false;
    };
    let Some(rest) = strip_mark(rest, &digits) else {
        return false;
    };
    rest == b"\n".as_slice()
}

/// The record that has these bytes in this version.
#[tactic(auto, using(crate::proofs::Marks::equal_bytes, crate::proofs::Marks::other_bytes), unfolding(crate::specs::private::Reading::record_at))]
pub fn read_in(alloc: Global, version: Version, depth: u32, input: &[u8]) -> Result<Record, Unread>
    ensures { Gives (λ r. r) result (record_at version depth input.now) }
{
    let (record, rest) = read_lines(alloc, version, depth, input)?;
    let lines = &input[..input.len().saturating_sub(rest.len())];
    if !is_end(rest, lines) {
        return Err(Unread::Damaged);
    }
    Ok(record)
}
