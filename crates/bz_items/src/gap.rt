ghost use Rattle.std.specs.Prelude.{◌≡◌, ◌∷◌, ℕ, [], length, take, drop, ◌+◌, ◌≤◌, replicate, IfOk, IfSome, IsTrue, ◌↔◌, ◌⊎◌};
ghost use Rattle.bz_items.specs.Characters.{line_feed, space};
ghost use Rattle.bz_items.specs.Gaps.{gap_bytes};

use crate::{Memory, Text};
use std::alloc::Global;
use std::marker::Model;

/// A newline and as many spaces as a `u8` counts.
const LINE: &[u8] =
    b"\n                                                                                                                                                                                                                                                               ";

/// What a gap is, its usual forms by how many spaces they have.
#[derive(Drop)]
enum Form {
    Spaces(u8),
    /// A newline, and spaces after it.
    Line(u8),
    Other(Box<Text>),
}

/// The bytes between two tokens, which contracts see as the list of them. Most are some spaces, or a newline and some
/// spaces, and take no memory from the allocator.
pub struct Gap {
    form: Form,
    alloc: Global,
}

impl Drop for Gap {
    #[inline(always)]
    fn drop(self) {
        let Gap { form: _, alloc: _ } = self;
    }
}

impl Model for Gap {
    ghost use Rattle.std.specs.Prelude.{ℕ, List};
    ghost use Rattle.bz_items.specs.Gaps.{gap_bytes};

    ghost Value = { List ℕ };

    ghost view = { λ gap. gap_bytes gap.form };
}

/// The longest line, with which each begins, and after its newline all that are spaces alone.
fn longest_line() -> &'static [u8]
    ensures is_long { length result.now ≡ 256 }
    ensures line { (count : ℕ) → count ≤ 255 → take (count + 1) result.now ≡ line_feed ∷ replicate count space }
    ensures spaces { (count : ℕ) → count ≤ 255 → take count (drop 1 result.now) ≡ replicate count space }
{
    LINE
}

/// How many spaces these bytes are; `None` if others are among them, or too many for a `u8`.
fn count_spaces(bytes: &[u8]) -> Option<u8>
    ensures { IfSome result (λ count. bytes.now ≡ replicate count space) }
{
    if bytes.iter().all(|byte| *byte == b' ') {
        return u8::try_from(bytes.len()).ok();
    }
    None
}

/// The form of a gap of these bytes. The error: a growth was refused.
fn form_of(alloc: Global, bytes: &[u8]) -> Result<Form, Memory>
    ensures { IfOk result (λ form. gap_bytes form ≡ bytes.now) }
{
    if let [b'\n', after @ ..] = bytes {
        if let Some(count) = count_spaces(after) {
            return Ok(Form::Line(count));
        }
    }
    if let Some(count) = count_spaces(bytes) {
        return Ok(Form::Spaces(count));
    }
    let text = Text::from_slice(alloc, bytes)?;
    Ok(Form::Other(Box::new(alloc, text)?))
}

impl Gap {
    /// No bytes. It takes no memory.
    pub fn none(alloc: Global) -> Gap
        ensures { result ≡ [] }
    {
        Gap {
            form: Form::Spaces(0),
            alloc,
        }
    }

    /// A newline and this many spaces after it, where these are at most 255. It takes no memory.
    pub fn line(alloc: Global, spaces: usize) -> Option<Gap>
        ensures { IfSome result (λ gap. gap ≡ line_feed ∷ replicate spaces space) }
    {
        let count = u8::try_from(spaces).ok()?;
        Some(Gap {
            form: Form::Line(count),
            alloc,
        })
    }

    /// A copy of these bytes. The error: a growth was refused.
    #[inline(always)]
    pub fn from_slice(alloc: Global, bytes: &[u8]) -> Result<Gap, Memory>
        ensures { IfOk result (λ gap. gap ≡ bytes.now) }
    {
        let form = match bytes {
            [] => Form::Spaces(0),
            [b' '] => Form::Spaces(1),
            _ => form_of(alloc, bytes)?,
        };
        Ok(Gap { form, alloc })
    }

    /// The bytes, in their order.
    pub fn as_slice(&self) -> &[u8]
        ensures { result.now ≡ self.now }
    {
        match &self.form {
            Form::Spaces(count) => {
                let (_, spaces) = longest_line().split_at(1);
                spaces.split_at(usize::from(*count)).0
            }
            Form::Line(count) => longest_line().split_at(usize::from(*count) + 1).0,
            Form::Other(text) => text.as_slice(),
        }
    }

    /// How many bytes there are.
    pub fn len(&self) -> usize
        ensures { result ≡ length self.now }
    {
        match &self.form {
            Form::Spaces(count) => usize::from(*count),
            Form::Line(count) => usize::from(*count) + 1,
            Form::Other(text) => text.len(),
        }
    }

    /// An equal gap. The error: a growth was refused.
    pub fn copy(&self) -> Result<Gap, Memory>
        ensures { IfOk result (λ gap. gap ≡ self.now) }
    {
        let form = match &self.form {
            Form::Spaces(count) => Form::Spaces(*count),
            Form::Line(count) => Form::Line(*count),
            Form::Other(text) => Form::Other(Box::new(self.alloc, text.copy()?)?),
        };
        Ok(Gap {
            form,
            alloc: self.alloc,
        })
    }

    /// Whether the other gap has the same bytes.
    pub fn equals(&self, other: &Gap) -> bool
        ensures { IsTrue result ↔ (self.now ≡ other.now) }
    {
        self.as_slice() == other.as_slice()
    }

    /// Whether the gap is known to be spaces, or a newline and spaces.
    pub fn is_spacing(&self) -> bool
        ensures { IsTrue result → (count : ℕ) × ((self.now ≡ replicate count space) ⊎ (self.now ≡ line_feed ∷ replicate count space)) }
    {
        !matches!(&self.form, Form::Other(_))
    }

    /// Whether the gap is known to be a newline and spaces.
    pub fn is_line(&self) -> bool
        ensures { IsTrue result → (count : ℕ) × (self.now ≡ line_feed ∷ replicate count space) }
    {
        matches!(&self.form, Form::Line(_))
    }
}
