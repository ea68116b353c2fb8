//! The comments of a host.
ghost use Rattle.std.specs.Prelude.{◌≡◌, ◌↔◌, IsTrue, IfOk};
ghost use Rattle.std.specs.Option.{option_copied};
ghost use Rattle.bz_value.specs.Comments.{HostComments, no_comments};

use crate::texts::{copy_texts, same_texts};
use bz_items::{Items, Memory, Text};
use std::alloc::Global;
use std::marker::Model;

#[derive(Drop)]
struct Held {
    before: Items<Text>,
    suffix: Option<Text>,
}

/// The comments of a host: those above it, in the order of the text, and the one on its last line. Each is kept from its
/// `#` on, without blanks at its end. They are kept by a pointer, since most expressions have none.
pub struct Comments {
    held: Option<Box<Held>>,
}

impl Drop for Comments {
    #[inline(always)]
    fn drop(self) {
        let Comments { held: _ } = self;
    }
}

impl Model for Comments {
    ghost use Rattle.bz_value.specs.Comments.{HostComments, held_by};

    ghost Value = { HostComments };

    ghost view = { λ comments. held_by comments.held };
}

impl Comments {
    /// No comments, which take no memory.
    pub fn empty() -> Comments
        ensures { result ≡ no_comments }
    {
        Comments { held: None }
    }

    /// These comments. The error: memory was refused.
    pub fn new(alloc: Global, before: Items<Text>, suffix: Option<Text>) -> Result<Comments, Memory>
        ensures { IfOk result (λ comments. comments ≡ record { before = before; suffix = suffix }) }
    {
        if before.is_empty() && suffix.is_none() {
            return Ok(Comments::empty());
        }
        let held = Box::new(alloc, Held { before, suffix })?;
        Ok(Comments { held: Some(held) })
    }

    /// The comments above the host, in the order of the text.
    pub fn before(&self) -> &[Text]
        ensures { result.now ≡ self.now.before }
    {
        match &self.held {
            None => &[],
            Some(held) => held.before.as_slice(),
        }
    }

    /// The comment on the last line of the host.
    pub fn suffix(&self) -> Option<&Text>
        ensures { option_copied result ≡ self.now.suffix }
    {
        match &self.held {
            None => None,
            Some(held) => held.suffix.as_ref(),
        }
    }

    /// Whether there is no comment.
    pub fn is_none(&self) -> bool
        ensures { IsTrue result ↔ (self.now ≡ no_comments) }
    {
        self.before().is_empty() && self.suffix().is_none()
    }

    /// Equal comments. The error: memory was refused.
    pub fn copy(&self) -> Result<Comments, Memory>
        ensures { IfOk result (λ comments. comments ≡ self.now) }
    {
        match &self.held {
            None => Ok(Comments::empty()),
            Some(held) => {
                let alloc = held.before.alloc();
                let before = copy_texts(alloc, held.before.as_slice())?;
                let suffix = match &held.suffix {
                    None => None,
                    Some(text) => Some(text.copy()?),
                };
                Comments::new(alloc, before, suffix)
            }
        }
    }

    /// Whether the other host has the same comments.
    pub fn equals(&self, other: &Comments) -> bool
        ensures { IsTrue result ↔ (self.now ≡ other.now) }
    {
        same_texts(self.before(), other.before()) && same_suffix(self.suffix(), other.suffix())
    }
}

fn same_suffix(a: Option<&Text>, b: Option<&Text>) -> bool
    ensures { IsTrue result ↔ (option_copied a.entry ≡ option_copied b.entry) }
{
    match (a, b) {
        (None, None) => true,
        (Some(a), Some(b)) => a.equals(b),
        _ => false,
    }
}
