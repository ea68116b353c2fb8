//! The comments at the end of a sequence.
ghost use Rattle.std.specs.Prelude.{◌≡◌, [], ◌↔◌, IfOk, IsTrue};

use crate::texts::copy_texts;
use bz_items::{Items, Memory, Text};
use std::alloc::Global;
use std::marker::Model;

/// The comments below the last item of a sequence, in the order of the text, which contracts see as the list of them. Hardly a
/// sequence has some, so they are not in the value itself.
pub struct EndComments {
    held: Option<Box<Items<Text>>>,
}

impl Drop for EndComments {
    #[inline(always)]
    fn drop(self) {
        let EndComments { held: _ } = self;
    }
}

impl Model for EndComments {
    ghost use Rattle.std.specs.Prelude.{List};
    ghost use Rattle.bz_items.specs.Characters.{Bytes};
    ghost use Rattle.bz_value.specs.Comments.{lines_held};

    ghost Value = { List Bytes };

    ghost view = { λ comments. lines_held comments.held };
}

impl EndComments {
    /// No comments, which take no memory.
    pub fn empty() -> EndComments
        ensures { result ≡ [] }
    {
        EndComments { held: None }
    }

    /// These comments. The error: memory was refused.
    pub fn new(alloc: Global, lines: Items<Text>) -> Result<EndComments, Memory>
        ensures { IfOk result (λ comments. comments ≡ lines) }
    {
        if lines.is_empty() {
            return Ok(EndComments::empty());
        }
        let held = Box::new(alloc, lines)?;
        Ok(EndComments { held: Some(held) })
    }

    /// The comments, in the order of the text.
    pub fn as_slice(&self) -> &[Text]
        ensures { result.now ≡ self.now }
    {
        match &self.held {
            None => &[],
            Some(held) => held.as_slice(),
        }
    }

    /// Whether there is no comment.
    pub fn is_empty(&self) -> bool
        ensures { IsTrue result ↔ (self.now ≡ []) }
    {
        self.as_slice().is_empty()
    }

    /// Equal comments. The error: memory was refused.
    pub fn copy(&self) -> Result<EndComments, Memory>
        ensures { IfOk result (λ comments. comments ≡ self.now) }
    {
        match &self.held {
            None => Ok(EndComments::empty()),
            Some(held) => {
                let alloc = held.alloc();
                EndComments::new(alloc, copy_texts(alloc, held.as_slice())?)
            }
        }
    }
}
