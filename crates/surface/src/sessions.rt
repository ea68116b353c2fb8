//! A session and its journal by the names of bz_journal.
use bz_command::{Command, Refusal};
use bz_journal::{
    Action, FileFault, FileKind, Files, KeepFault, MemoryFiles, Reply, ResumeFault, Session,
};
use bz_label::Target;
use std::alloc::Global;

/// The text that the session begins with.
const TEXT: &[u8] = b"a(name = \"x\")\n";

/// A session that is saved, and resumed from what was saved.
fn resumed(alloc: Global, session: &Session) -> Option<u32> {
    let mut journal = Vec::new(alloc);
    session.save_into(&mut journal).ok()?;
    let mut text = Vec::new(alloc);
    session.text_into(&mut text).ok()?;
    let again: Result<Session, ResumeFault> = Session::resume(alloc, &journal, &text);
    Some(again.ok()?.cursor())
}

/// An action that is done, kept beside the file, and taken back.
pub(crate) fn outcome(alloc: Global) -> Option<String> {
    let mut session = Session::open(alloc, "p", TEXT).ok()?;
    let command = Command::read(alloc, "set size small").ok()?;
    let target = Target::read(alloc, "//p:x").ok()?;
    let mut files = MemoryFiles::of(alloc, &[("BUILD", TEXT)]).ok()?;
    let mut held = Vec::new(alloc);
    let read: Result<(), FileFault> = files.read_most(
        "BUILD",
        FileKind::Regular,
        TEXT.len(),
        &mut held,
    );
    read.ok()?;
    let action = Action::Do(&command, &target);
    let kept: Result<Reply, KeepFault> = session.keep(&action, "BUILD", &mut files);
    let is_changed = matches!(kept, Ok(Reply::Changed));
    let stayed: Result<Reply, Refusal> = session.act(&Action::Undo(0));
    stayed.ok()?;
    let mut replies: Vec<Result<Reply, Refusal>> = Vec::new(alloc);
    session
        .run(
            &[Action::Undo(1), Action::Redo(1), Action::Format],
            &mut replies,
        )
        .ok()?;
    let again = resumed(alloc, &session)?;
    format!(in alloc;
        "changed {is_changed}, {} replies, {} steps, resumed at {again}, {} bytes beside",
        replies.len(),
        session.steps(),
        files
            .bytes_at("BUILD.journal")
            .map_or(0, |bytes| bytes.len())
    )
    .ok()
}
