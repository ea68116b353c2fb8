//! Edits, entries and digests.
ghost use Rattle.std.specs.Prelude.{◌≡◌, ◌-◌, ◌+◌, ◌<◌, ℕ};
ghost use Rattle.bz_journal_format.specs.Outcomes.{Gives};
ghost use Rattle.bz_journal_format.specs.Readers.{after_mark, listed_at, number_at, repeated};
ghost use Rattle.bz_items.specs.Characters.{space};
ghost use Rattle.bz_journal_format.specs.private.Reading.{digest_line_at, edit_at, entry_at, held_at};

use crate::content::{RecordedStep, Version};
use crate::fields::{read_digest_line, read_note};
use crate::parts::read_parts;
use crate::{Unread, read_mark, read_number};
use bz_edit::Edit;
use bz_items::{Items, Text};
use std::alloc::Global;

/// This many numbers of parts, in a list of just their number.
fn read_path(alloc: Global, count: u32, input: &[u8]) -> Result<(Vec<u32>, &[u8]), Unread>
    ensures { Gives (λ x. (x.0.items, x.1.now)) result (repeated (number_at space) count input.now) }
{
    let mut path = Vec::new(alloc);
    let mut rest = input;
    'several: for _ in 0..count {
        let (entry, after) = read_number(rest, b' ')?;
        path.push(entry)?;
        rest = after;
    }
    path.shrink_to_fit();
    Ok((path, rest))
}

/// An edit of which the held parts are at most so deep.
#[tactic(auto, unfolding(crate::specs::private::Reading::edit_at, crate::specs::Readers::listed_at))]
fn read_edit(alloc: Global, depth: u32, input: &[u8]) -> Result<(Edit, &[u8]), Unread>
    ensures { Gives (λ x. (x.0, x.1.now)) result (edit_at depth input.now) }
{
    let rest = read_mark(input, b"edit ")?;
    let (count, rest) = read_number(rest, b' ')?;
    let (path, rest) = read_path(alloc, count, rest)?;
    let (at, rest) = read_number(rest, b' ')?;
    let (count, rest) = read_number(rest, b' ')?;
    let (holds, rest) = read_number(rest, b'\n')?;
    let (held, rest) = read_parts(alloc, depth, holds, rest)?;
    let edit = Edit {
        path: Items::from_vec(path),
        at,
        count,
        held: Items::from_vec(held),
    };
    Ok((edit, rest))
}

/// This many edits, in a list of just their number.
fn read_edits(
    alloc: Global,
    depth: u32,
    count: u32,
    input: &[u8],
) -> Result<(Vec<Edit>, &[u8]), Unread>
    ensures { Gives (λ x. (x.0.items, x.1.now)) result (repeated (edit_at depth) count input.now) }
{
    let mut edits = Vec::new(alloc);
    let mut rest = input;
    'several: for _ in 0..count {
        let (edit, after) = read_edit(alloc, depth, rest)?;
        edits.push(edit)?;
        rest = after;
    }
    edits.shrink_to_fit();
    Ok((edits, rest))
}

/// A note and the edits of a step.
#[tactic(auto, unfolding(crate::specs::private::Reading::entry_at, crate::specs::Readers::listed_at))]
fn read_entry(
    alloc: Global,
    version: Version,
    depth: u32,
    input: &[u8],
) -> Result<(RecordedStep, &[u8]), Unread>
    ensures { Gives (λ x. (x.0, x.1.now)) result (entry_at version depth input.now) }
{
    let rest = read_mark(input, b"step ")?;
    let (count, rest) = read_number(rest, b'\n')?;
    let (note, rest) = read_note(version, rest)?;
    let (edits, rest) = read_edits(alloc, depth, count, rest)?;
    let note = Text::from_slice(alloc, note)?;
    let edits = Items::from_vec(edits);
    Ok((RecordedStep { note, edits }, rest))
}

/// This many entries.
pub fn read_entries(
    alloc: Global,
    version: Version,
    depth: u32,
    count: u32,
    input: &[u8],
) -> Result<(Vec<RecordedStep>, &[u8]), Unread>
    ensures { Gives (λ x. (x.0.items, x.1.now)) result (repeated (entry_at version depth) count input.now) }
{
    let mut entries = Vec::new(alloc);
    let mut rest = input;
    'several: for _ in 0..count {
        let (entry, after) = read_entry(alloc, version, depth, rest)?;
        entries.push(entry)?;
        rest = after;
    }
    Ok((entries, rest))
}

/// This many lines with a digest.
pub fn read_digests(
    alloc: Global,
    count: u32,
    input: &[u8],
) -> Result<(Vec<[u8; 32]>, &[u8]), Unread>
    ensures { Gives (λ x. (x.0.items, x.1.now)) result (repeated digest_line_at count input.now) }
{
    let mut digests = Vec::new(alloc);
    let mut rest = input;
    'several: for _ in 0..count {
        let (digest, after) = read_digest_line(rest)?;
        digests.push(digest)?;
        rest = after;
    }
    Ok((digests, rest))
}
