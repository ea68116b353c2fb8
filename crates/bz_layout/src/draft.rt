//! A text that is written up to a limit.
ghost use Rattle.std.specs.Prelude.{ℕ, ◌≡◌, ◌∷◌, [], ◌<◌, ◌≤◌, ◌++◌, length, replicate, OnOk, MatchOption};
ghost use Rattle.std.specs.Option.{option_copied};
ghost use Rattle.bz_items.specs.Characters.{Bytes, space};
ghost use Rattle.bz_layout.specs.Drafts.{drafted, pushed};
ghost use Rattle.bz_layout.specs.Layout.{new_line_at, margin_lines, suffix_text, ended};
ghost use Rattle.bz_layout.specs.Written.{at_margin, indented_lines};

use bz_items::{Memory, Text};
use std::alloc::AllocError;
use std::marker::Model;

/// A text that is being written. Of one that is longer than its limit only this is known.
#[derive(Drop)]
pub struct Draft {
    text: Vec<u8>,
    limit: usize,
}

impl Model for Draft {
    ghost use Rattle.bz_layout.specs.Drafts.{Drafted, drafted};

    ghost Value = { Drafted };

    ghost view = { λ draft. drafted draft.limit draft.text.items };
}

impl Draft {
    /// A draft that begins with a text, up to this many bytes.
    pub fn new(text: Vec<u8>, limit: usize) -> Draft
        ensures { result ≡ drafted limit text.items }
    {
        Draft { text, limit }
    }

    /// The text; none where it is longer than the limit.
    #[tactic(auto, using(crate::proofs::Pushing::longer_is))]
    pub fn into_bytes(self) -> Option<Vec<u8>>
        ensures { (limit : ℕ) (front bytes : Bytes) → self ≡ pushed (drafted limit front) bytes
            → MatchOption result (limit < length (front ++ bytes)) (λ text. (text.items ≡ front ++ bytes) × (length text.items ≤ limit)) }
    {
        let Draft { text, limit } = self;
        if text.len() > limit {
            return None;
        }
        Some(text)
    }

    /// Appends a byte. The error: a growth was refused.
    #[inline(always)]
    #[tactic(auto, using(crate::proofs::Pushing::appended))]
    pub fn push(&mut self, byte: u8) -> Result<(), Memory>
        ensures { OnOk result (self.new ≡ pushed self.old (byte ∷ [])) }
    {
        self.text.push(byte)?;
        Ok(())
    }

    /// Appends bytes. The error: a growth was refused.
    #[inline(always)]
    #[tactic(auto, using(crate::proofs::Pushing::appended))]
    pub fn push_bytes(&mut self, bytes: &[u8]) -> Result<(), Memory>
        ensures { OnOk result (self.new ≡ pushed self.old bytes.now) }
    {
        self.text.extend_from_slice(bytes)
    }

    /// Appends the spaces of a margin. They are left out where the text is longer than its limit already: margins make a layout longer
    /// than its value by far. The error: a growth was refused.
    #[tactic(auto, using(crate::proofs::Pushing::appended, crate::proofs::Pushing::past, std::proofs::lemmas::Grind::common_steps))]
    pub fn push_margin(&mut self, margin: usize) -> Result<(), Memory>
        ensures { OnOk result (self.new ≡ pushed self.old (replicate margin space)) }
    {
        if self.text.len() > self.limit {
            return Ok(());
        }
        let end = self.text.len().checked_add(margin).ok_or(AllocError)?;
        self.text.resize(end, b' ')
    }

    /// Appends a newline and the spaces of a margin. The error: a growth was refused.
    #[tactic(auto, using(crate::proofs::Pushing::pushed_twice))]
    pub fn push_new_line(&mut self, margin: usize) -> Result<(), Memory>
        ensures { OnOk result (self.new ≡ pushed self.old (new_line_at margin)) }
    {
        self.push(b'\n')?;
        self.push_margin(margin)
    }

    /// Appends comments, each on its own line at the margin, above an item. The error: a growth was refused.
    #[tactic(auto, using(crate::proofs::Pushing::pushed_twice, crate::proofs::Writing::above_next, crate::proofs::Writing::above_end))]
    pub fn push_above(&mut self, texts: &[Text], margin: usize) -> Result<(), Memory>
        ensures { OnOk result (self.new ≡ pushed self.old (margin_lines margin texts.now)) }
    {
        for text in texts {
            self.push_bytes(text.as_slice())?;
            self.push_new_line(margin)?;
        }
        Ok(())
    }

    /// Appends comment lines at a margin. The error: a growth was refused.
    #[tactic(auto, using(crate::proofs::Pushing::pushed_twice, crate::proofs::Writing::lines_next, crate::proofs::Writing::lines_end))]
    pub fn push_lines(&mut self, texts: &[Text], margin: usize) -> Result<(), Memory>
        ensures { OnOk result (self.new ≡ pushed self.old (indented_lines (at_margin margin texts.now))) }
    {
        for text in texts {
            self.push_margin(margin)?;
            self.push_bytes(text.as_slice())?;
            self.push(b'\n')?;
        }
        Ok(())
    }

    /// Appends the end comments of a sequence at their margin, and the line of its closing bracket. The error: a growth was refused.
    #[tactic(auto, using(crate::proofs::Pushing::pushed_twice, crate::proofs::Writing::ended_next))]
    pub fn push_ended(&mut self, texts: &[Text], inner: usize, margin: usize) -> Result<(), Memory>
        ensures { OnOk result (self.new ≡ pushed self.old (ended inner margin texts.now)) }
    {
        for text in texts {
            self.push_new_line(inner)?;
            self.push_bytes(text.as_slice())?;
        }
        self.push_new_line(margin)
    }

    /// Appends a suffix after two spaces. The error: a growth was refused.
    #[tactic(auto, using(crate::proofs::Pushing::pushed_none, crate::proofs::Pushing::pushed_twice))]
    pub fn push_after(&mut self, suffix: Option<&Text>) -> Result<(), Memory>
        ensures { OnOk result (self.new ≡ pushed self.old (suffix_text (option_copied suffix.entry))) }
    {
        if let Some(text) = suffix {
            self.push_bytes(b"  ")?;
            self.push_bytes(text.as_slice())?;
        }
        Ok(())
    }
}
