//! A session's journal, written.
ghost use Rattle.std.specs.Prelude.{◌≡◌, ◌++◌, OnOk, OnErr};
ghost use Rattle.bz_resume.specs.Journals.{journal_text};
ghost use Rattle.bz_resume.specs.Saved.{CanSave, IsSaved, saved_history};

use bz_edit::laws::texts_kept;
use bz_grammar::Tree;
use bz_items::Memory;
use bz_journal_format::{Content, KeptLines, Version, record_bytes};

/// What is borrowed of a session to save it.
#[derive(Clone, Copy)]
pub struct Saved<'a> {
    /// The tree of the present text.
    pub tree: &'a Tree,
    /// What its journal says.
    pub content: Content<'a>,
}

/// Appends the journal of a session, in version 2. The error: a growth was refused; `out` is then as before.
pub fn save_into(saved: &Saved, out: &mut Vec<u8>) -> Result<(), Memory>
    requires { CanSave saved.now }
    ensures ok { OnOk result (out.new.items ≡ out.old.items ++ journal_text (saved_history saved.now) saved.now.content.steps.now) }
    ensures err { OnErr result (out.new.items ≡ out.old.items) }
    ensures journal { IsSaved saved.now }
{
    texts_kept();
    let alloc = *out.allocator();
    let bytes = record_bytes(
        alloc,
        Version::Two,
        &saved.content,
        &mut KeptLines::new(alloc),
    )?;
    out.extend_from_slice(bytes.as_slice())?;
    Ok(())
}
