//! The fields that only records have. Each function takes its field from the front of the bytes, and gives what is
//! after it.
ghost use Rattle.std.specs.Prelude.{◌≡◌, ◌∷◌, ◌<◌, ◌≤◌, ◌^◌, [], ℕ};
ghost use Rattle.bz_journal_format.specs.Outcomes.{Gives};
ghost use Rattle.bz_journal_format.specs.Readers.{counted_at, tested};
ghost use Rattle.bz_items.specs.Characters.{space};
ghost use Rattle.bz_journal_format.specs.private.Reading.{digest_line_at, is_short_text, leaf_at, note_at, numbered_class_at, numbered_kind_at};
ghost use Rattle.bz_journal_format.specs.Texts.{version_line};

use crate::content::Version;
use crate::limits::SHORT_LIMIT;
use crate::{Unread, read_counted, read_digest, read_field, read_mark, read_number};
use bz_grammar::{Kind, Leaf};
use bz_items::{Gap, Text};
use bz_token::Class;
use std::alloc::Global;

/// The class of a number.
#[tactic(auto, unfolding(crate::specs::private::Reading::numbered_class_at))]
fn read_class(input: &[u8]) -> Result<(Class, &[u8]), Unread>
    ensures { Gives (λ x. (x.0, x.1.now)) result (numbered_class_at input.now) }
{
    let (number, rest) = read_number(input, b' ')?;
    if number > 255 {
        return Err(Unread::Damaged);
    }
    match Class::of(number as u8) {
        Some(class) => Ok((class, rest)),
        None => Err(Unread::Damaged),
    }
}

/// The kind of a number.
#[tactic(auto, using(crate::proofs::Numbers::past_kinds), unfolding(crate::specs::private::Reading::numbered_kind_at))]
pub fn read_kind(input: &[u8]) -> Result<(Kind, &[u8]), Unread>
    ensures { Gives (λ x. (x.0, x.1.now)) result (numbered_kind_at input.now) }
{
    let (number, rest) = read_number(input, b' ')?;
    if number > 255 {
        return Err(Unread::Damaged);
    }
    match Kind::of(number as u8) {
        Some(kind) => Ok((kind, rest)),
        None => Err(Unread::Damaged),
    }
}

/// A line with a digest.
#[tactic(auto, unfolding(crate::specs::private::Reading::digest_line_at))]
pub fn read_digest_line(input: &[u8]) -> Result<([u8; 32], &[u8]), Unread>
    ensures { Gives (λ x. (x.0, x.1.now)) result (digest_line_at input.now) }
{
    let rest = read_mark(input, b"digest ")?;
    read_digest(rest)
}

/// What follows the first word of a leaf.
#[tactic(auto, unfolding(crate::specs::private::Reading::leaf_at))]
pub fn read_leaf(alloc: Global, input: &[u8]) -> Result<(Leaf, &[u8]), Unread>
    ensures { Gives (λ x. (x.0, x.1.now)) result (leaf_at input.now) }
{
    let (class, rest) = read_class(input)?;
    let (gap, rest) = read_number(rest, b' ')?;
    let (token, rest) = read_number(rest, b'\n')?;
    let (gap, rest) = read_field(rest, gap)?;
    let (token, rest) = read_field(rest, token)?;
    let rest = read_mark(rest, b"\n")?;
    let leaf = Leaf {
        class,
        gap: Gap::from_slice(alloc, gap)?,
        token: Text::from_slice(alloc, token)?,
    };
    Ok((leaf, rest))
}

/// The name of a package, or a note, with its length before it.
#[tactic(auto, using(crate::proofs::Marks::no_text, crate::proofs::Marks::is_text), unfolding(crate::specs::private::Reading::is_short_text, crate::specs::Readers::tested))]
pub fn read_short_text(input: &[u8]) -> Result<(&[u8], &[u8]), Unread>
    ensures { Gives (λ x. (x.0.now, x.1.now)) result (tested is_short_text (counted_at space) input.now) }
{
    let (text, rest) = read_counted(input, b' ')?;
    if text.len() > SHORT_LIMIT {
        return Err(Unread::Damaged);
    }
    match str::from_utf8(text) {
        Ok(_) => Ok((text, rest)),
        Err(_) => Err(Unread::Damaged),
    }
}

/// The first line of a version.
pub fn version_line(version: Version) -> &'static [u8]
    ensures { result.now ≡ version_line version }
{
    match version {
        Version::One => b"bzjournal 1\n",
        Version::Two => b"bzjournal 2\n",
    }
}

/// The line of a note, where the version has one.
#[tactic(auto, unfolding(crate::specs::private::Reading::note_at))]
pub fn read_note(version: Version, input: &[u8]) -> Result<(&[u8], &[u8]), Unread>
    ensures { Gives (λ x. (x.0.now, x.1.now)) result (note_at version input.now) }
{
    match version {
        Version::One => Ok((b"", input)),
        Version::Two => {
            let rest = read_mark(input, b"note ")?;
            let (note, rest) = read_short_text(rest)?;
            let rest = read_mark(rest, b"\n")?;
            Ok((note, rest))
        }
    }
}
