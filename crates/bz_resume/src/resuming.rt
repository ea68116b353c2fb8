//! Resuming a journal.
ghost use Rattle.std.specs.Prelude.{◌≡◌, ◌↔◌, List, IfOk, IsTrue, Err};
ghost use Rattle.bz_resume.specs.Words.{Edit, IsOtherVersion};
ghost use Rattle.bz_resume.specs.declared.fault.ResumeFault.TheVariants as f;
ghost use Rattle.bz_resume.specs.Journals.{BeginsNoJournal, History, Journal, NoJournal};
ghost use Rattle.bz_resume.specs.Resumed.{IsKnown, IsResumed, IsStale};

use crate::fault::ResumeFault;
use crate::opening::open;
use crate::resumed::Resumed;
use crate::standing::stand;
use bz_journal_format::{RecordFault, read_record};
use std::alloc::Global;

/// What a journal says, at the text that the file has now.
///
/// Errors: `Version` exactly where the first line names another version; `Damaged` only where the bytes are no journal;
/// `Stale` only where they are one, and the file has neither the text at its cursor nor the one at the cursor before;
/// `Memory` where a growth was refused.
pub fn resume(alloc: Global, journal: &[u8], text: &[u8]) -> Result<Resumed, ResumeFault>
    ensures ok { IfOk result (IsResumed journal.now text.now) }
    ensures version { (result ≡ Err f.Version) ↔ IsOtherVersion journal.now }
    ensures damaged { (result ≡ Err f.Damaged) → NoJournal journal.now }
    ensures stale { (result ≡ Err f.Stale) → IsStale journal.now text.now }
    ensures known { (h : History) (es : List (List Edit)) → Journal journal.now h es → IsKnown h es text.now result }
{
    let record = match read_record(alloc, journal) {
        Ok(record) => record,
        Err(RecordFault::Memory) => return Err(ResumeFault::Memory),
        Err(RecordFault::Damaged) => return Err(ResumeFault::Damaged),
        Err(RecordFault::Version) => return Err(ResumeFault::Version),
    };
    let before = record.before as usize;
    let Some(mut resumed) = open(alloc, record)? else {
        return Err(ResumeFault::Damaged);
    };
    let cursor = resumed.cursor;
    let steps = resumed.steps.as_mut_slice();
    match stand(&mut resumed.tree, steps, cursor, before, text)? {
        Some(cursor) => {
            resumed.cursor = cursor;
            Ok(resumed)
        }
        None => Err(ResumeFault::Stale),
    }
}

/// Whether no journal, and none of another version, begins with these bytes, as their first ones show. So who has read so much of a long
/// file need not read the rest. `false` says nothing.
pub fn begins_no_journal(front: &[u8]) -> bool
    ensures { IsTrue result → BeginsNoJournal front.now }
{
    if front.len() < 10 {
        return false;
    }
    let first = &front[..10];
    first != b"bzjournal ".as_slice()
}
