//! The lines of digests and steps, which most of a journal is, kept from the bytes of one record for those of the next.
ghost use Rattle.std.specs.Prelude.{◌≡◌, ◌≤◌, ◌+◌, List, length, IfOk};
ghost use Rattle.bz_edit.specs.declared.edit.Edit.{Edit};
ghost use Rattle.bz_items.specs.Characters.{Bytes};
ghost use Rattle.bz_journal_format.specs.FirstLines.{AreAllLines, AreFirstLines};

use crate::content::{Content, Version};
use crate::writing::{push_digests, push_entries};
use bz_items::Memory;
use std::alloc::Global;

/// The lines of the first digests and of the first steps of a record, for the bytes of a further one that begins with these.
#[derive(Drop)]
pub struct KeptLines {
    /// How many digests these are.
    pub(crate) digests: usize,
    pub(crate) digest_lines: Vec<u8>,
    /// How many steps these are.
    pub(crate) steps: usize,
    pub(crate) step_lines: Vec<u8>,
}

impl KeptLines {
    /// None yet.
    pub fn new(alloc: Global) -> KeptLines
        ensures { (v : Version) (digests notes : List Bytes) (steps : List (List Edit)) → AreFirstLines v digests notes steps result }
    {
        let digest_lines = Vec::new(alloc);
        let step_lines = Vec::new(alloc);
        KeptLines {
            digests: 0,
            digest_lines,
            steps: 0,
            step_lines,
        }
    }

    /// Drops them where they are of more steps than this many, or of more digests than one more.
    pub fn drop_past(&mut self, steps: u32)
        ensures few { (self.new.steps ≤ steps) × (self.new.digests ≤ steps + 1) }
        ensures first { (v : Version) (digests notes : List Bytes) (steps : List (List Edit)) → AreFirstLines v digests notes steps self.old → AreFirstLines v digests notes steps self.new }
    {
        let steps = steps as usize;
        let past = self.steps > steps || self.digests > steps + 1;
        if past {
            *self = KeptLines::new(*self.step_lines.allocator());
        }
    }

    /// With the lines of those that follow. The error: a growth was refused.
    pub(crate) fn with_all(self, version: Version, content: &Content) -> Result<KeptLines, Memory>
        requires noted { length content.now.notes.now ≡ length content.now.steps.now }
        requires first { AreFirstLines version content.now.digests.now content.now.notes.now content.now.steps.now self }
        ensures { IfOk result (AreAllLines version content.now.digests.now content.now.notes.now content.now.steps.now) }
    {
        let KeptLines {
            digests,
            mut digest_lines,
            steps,
            mut step_lines,
        } = self;
        push_digests(&mut digest_lines, digests, content.digests)?;
        push_entries(&mut step_lines, version, steps, content)?;
        Ok(KeptLines {
            digests: content.digests.len(),
            digest_lines,
            steps: content.steps.len(),
            step_lines,
        })
    }
}
