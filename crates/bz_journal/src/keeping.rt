//! Actions whose history outlives the run: a file and its journal, kept.
ghost use Rattle.std.specs.Prelude.{◌≡◌, IfOk, IfSome};
ghost use Rattle.bz_journal.specs.Clauses.{Action, AreFirstDigests, Bytes, HasActed, IsWrittenSince, KeepsPair, SessionState, present, session_history};

use crate::action::Reply;
use crate::course::Course;
use crate::digests::{complete, learn};
use bz_files::Files;
use bz_items::Memory;
use bz_journal_format::{Version, record_bytes};
use bz_resume::{Content, PairFault, keep};
use bz_value::Refusal;
use std::alloc::Global;

/// Why an action was not kept.
#[derive(Clone, Copy)]
pub enum KeepFault {
    /// The action is refused; session and files are as before.
    Refused(Refusal),
    /// The action is done in the session, and the journal and the file were not both replaced.
    Pair(PairFault),
}

/// What is written of a session: its journal, and its present text.
#[derive(Drop)]
pub(crate) struct Written {
    pub(crate) journal: Vec<u8>,
    pub(crate) text: Vec<u8>,
}

/// The present text of a course: the one that is at hand, or else what its tree spells. The error: a growth was refused.
pub(crate) fn own_text(course: &Course, text: Option<Vec<u8>>) -> Result<Vec<u8>, Memory>
    requires { IfSome text (λ own. own.items ≡ present (session_history course.now)) }
    ensures { IfOk result (λ own. own.items ≡ present (session_history course.now)) }
{
    if let Some(text) = text {
        return Ok(text);
    }
    let mut text = Vec::new(course.alloc());
    course.present().spell_into(&mut text)?;
    Ok(text)
}

/// What is written of a course, where its cursor is another one than this: the journal in version 2, and the present text. What the next
/// journal has again is kept. The error: a growth was refused.
pub(crate) fn written_since(
    course: &mut Course,
    digests: &mut Vec<[u8; 32]>,
    from: u32,
) -> Result<Option<Written>, Memory>
    requires { AreFirstDigests digests.old.items (session_history course.old).texts }
    ensures first { AreFirstDigests digests.new.items (session_history course.new).texts }
    ensures written { IsWrittenSince course.new from result }
    ensures stays { course.new ≡ course.old }
{
    if course.cursor() == from {
        return Ok(None);
    }
    let text = own_text(course, None);
    learn(course, digests, &text);
    let text = text?;
    complete(course, digests)?;
    course.holds();
    let alloc = course.alloc();
    let content = Content {
        package: course.package.as_bytes(),
        text: text.as_slice(),
        cursor: course.cursor,
        before: course.before,
        digests: digests.as_slice(),
        notes: course.notes.as_slice(),
        steps: course.steps.as_slice(),
    };
    let journal = record_bytes(alloc, Version::Two, &content, &mut course.kept)?;
    Ok(Some(Written { journal, text }))
}

/// Keeps an answer: where something is to be written, replaces the journal and then the file, which is still to hold the text `before`.
pub(crate) fn persist<F: Files>(
    alloc: Global,
    answer: Result<Reply, Refusal>,
    before: Result<Vec<u8>, Memory>,
    written: &Result<Option<Written>, Memory>,
    file: &str,
    files: &mut F,
) -> Result<Reply, KeepFault>
    ensures { (s t : SessionState) (action : Action) (note : Bytes) → IfOk before (λ text. text.items ≡ present (session_history s))
        → IsWrittenSince t s.cursor written.now → HasActed action note s answer t → KeepsPair F.Files action note file.now s result t files.old files.new }
{
    let reply = match answer {
        Ok(reply) => reply,
        Err(refusal) => return Err(KeepFault::Refused(refusal)),
    };
    let Ok(written) = written else {
        return Err(KeepFault::Pair(PairFault::Memory));
    };
    let Some(written) = written else {
        return Ok(reply);
    };
    let Ok(before) = before else {
        return Err(KeepFault::Pair(PairFault::Memory));
    };
    match keep(alloc, files, file, &before, &written.journal, &written.text) {
        Ok(()) => Ok(reply),
        Err(fault) => Err(KeepFault::Pair(fault)),
    }
}
