use bz_edit::{Edit, Step};
use bz_items::{Items, Text};

/// How a record is written.
#[derive(Clone, Copy, PartialEq, Eq)]
pub enum Version {
    /// Without notes.
    One,
    /// Each step with its note.
    Two,
}

/// The edits of a step, with its note. Nothing says yet that they make one.
#[derive(Drop)]
pub struct RecordedStep {
    /// What made the step: UTF-8, of at most 65,536 bytes, and empty in version 1.
    pub note: Text,
    pub edits: Items<Edit>,
}

/// What a journal says. Nothing says yet that its places are there, or that its digests are those of its texts.
#[derive(Drop)]
pub struct Record {
    /// The name of the file's package: UTF-8, of at most 65,536 bytes.
    pub package: Text,
    /// The text at the cursor.
    pub text: Text,
    /// How many steps are before the present text.
    pub cursor: u32,
    /// The cursor before the last action that moved it.
    pub before: u32,
    /// The SHA-256 digest of each text: one more than steps.
    pub digests: Items<[u8; 32]>,
    pub steps: Items<RecordedStep>,
}

/// What a journal is to say, borrowed to be written.
#[derive(Clone, Copy)]
pub struct Content<'a> {
    /// The path of the file's package.
    pub package: &'a [u8],
    /// The text at the cursor.
    pub text: &'a [u8],
    /// How many steps are before the present text.
    pub cursor: u32,
    /// The cursor before the last action that moved it.
    pub before: u32,
    /// The SHA-256 digest of each text: one more than steps.
    pub digests: &'a [[u8; 32]],
    /// The note of each step.
    pub notes: &'a [Text],
    pub steps: &'a [Step],
}
