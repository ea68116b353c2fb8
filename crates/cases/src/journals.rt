//! Journals: what a session saves after actions with notes, and that it goes on from there.
use crate::sessions::{opened, request_of, show_reply};
use bz_files::MemoryFiles;
use bz_items::Memory;
use bz_journal::{Action, KeepFault, Reply, ResumeFault, Session};
use bz_resume::PairFault;
use bz_value::Refusal;
use sheets::{Case, CaseFault, Page};
use std::alloc::Global;

/// The name of the file that is kept.
const FILE: &str = "BUILD";

/// Writes the answers to the actions of a case, each kept with its line as its note, in files in memory; then the journal that is
/// there; and of the session that it is resumed as its listing, and the note of each step.
pub(crate) fn answer(case: &Case, page: &mut Page) -> Result<(), CaseFault> {
    let mut session = opened(case)?;
    play(case, &mut session, page)
}

/// Does the actions of a case in a session, each kept in files in memory, and writes what came of it.
fn play(case: &Case, session: &mut Session, page: &mut Page) -> Result<(), CaseFault> {
    let given = [(FILE, case.last_text()?)];
    let mut files = MemoryFiles::of(case.alloc, &given).map_err(Memory::from)?;
    for place in 1..case.texts.len() {
        let reply = kept_line(case.alloc, session, case.text(place - 1)?, &mut files)?;
        show_reply(case.alloc, &reply, page)?;
    }
    show_journal(&files, page)?;
    show_resumed(case.alloc, session, page)
}

/// What keeping the action that a line names answers. The request is dropped here, and nothing else is, so that this can be checked.
fn kept_line(
    alloc: Global,
    session: &mut Session,
    line: &str,
    files: &mut MemoryFiles,
) -> Result<Result<Reply, Refusal>, CaseFault> {
    let request = request_of(alloc, line)?;
    kept(session, &request.action(), line, files)
}

/// What keeping an action answers. The error: memory was refused.
fn kept(
    session: &mut Session,
    action: &Action<'_>,
    note: &str,
    files: &mut MemoryFiles,
) -> Result<Result<Reply, Refusal>, CaseFault> {
    match session.keep_noted(action, note, FILE, files) {
        Ok(reply) => Ok(Ok(reply)),
        Err(KeepFault::Refused(refusal)) => Ok(Err(refusal)),
        Err(KeepFault::Pair(PairFault::Memory)) => Err(CaseFault::Memory),
        Err(KeepFault::Pair(_)) => Err(CaseFault::Sheet("the pair was not written")),
    }
}

fn show_journal(files: &MemoryFiles, page: &mut Page) -> Result<(), CaseFault> {
    match files.bytes_at("BUILD.journal") {
        Some(journal) => Ok(page.text("<", journal)?),
        None => Ok(page.answer(b"no journal")?),
    }
}

/// Writes the listing of the session that this one is saved and resumed as, and the notes of its steps.
fn show_resumed(alloc: Global, session: &Session, page: &mut Page) -> Result<(), CaseFault> {
    let again = match session.saved_and_resumed(alloc) {
        Ok(again) => again,
        Err(ResumeFault::Memory) => return Err(CaseFault::Memory),
        Err(_) => return Err(CaseFault::Sheet("the journal is not resumed")),
    };
    page.text("<", again.listing(alloc)?.as_slice())?;
    Ok(show_notes(&again, page)?)
}

fn show_notes(session: &Session, page: &mut Page) -> Result<(), Memory> {
    for step in 0..session.steps() {
        if let Some(note) = session.note(step) {
            page.answer(note.as_bytes())?;
        }
    }
    Ok(())
}
