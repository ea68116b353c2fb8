//! A file and its journal, replaced so that a stop at any moment leaves a pair that goes on.
ghost use Rattle.std.specs.Prelude.{◌≡◌, ◌≢◌, ◌⊎◌, ◌≤◌, ◌↔◌, true, Some, Result, Ok, Err, IfOk, IfErr, OnOk, IsOk, IsErrOf, string_bytes};
ghost use Rattle.std.specs.FinMap.{get};
ghost use Rattle.bz_resume.specs.Words.{GoesThrough, IsUntouched, Read, Rises, with_act};
ghost use Rattle.bz_resume.specs.Pair.{journal_name};
ghost use Rattle.bz_resume.specs.Resuming.{KeepsHeld};

use crate::PairFault;
use bz_files::{FileFault, FileKind, Files, rewrite_pair};
use bz_items::Memory;
use std::alloc::Global;

/// The name of the journal of the file with this name, which is that name with `.journal` at its end. The error: a growth was
/// refused.
pub fn journal_name(alloc: Global, file: &str) -> Result<String, Memory>
    ensures { IfOk result (λ name. string_bytes name ≡ journal_name file.now) }
{
    format!(in alloc; "{file}.journal")
}

// What a read of a file says that gave these bytes, where the file is to hold others.
fn compared(read: Result<(), FileFault>, held: &[u8], standing: &[u8]) -> Result<(), PairFault>
    ensures ok { OnOk result (IsOk read × (held.now ≡ standing.now)) }
    ensures changed { IsErrOf result PairFault.Changed ↔ (IsErrOf read FileFault.Absent) ⊎ (IsOk read × held.now ≢ standing.now) }
    ensures open { IsErrOf result PairFault.Open ↔ IsErrOf read FileFault.Open }
    ensures memory { IsErrOf result PairFault.Memory → (IsErrOf read FileFault.Memory) ⊎ (IsErrOf read FileFault.Write) }
    ensures kinds { IfErr result (λ fault. fault ≢ PairFault.Write) }
{
    match read {
        Ok(()) => {}
        Err(FileFault::Absent) => return Err(PairFault::Changed),
        Err(FileFault::Open) => return Err(PairFault::Open),
        Err(FileFault::Write) => return Err(PairFault::Memory),
        Err(FileFault::Memory) => return Err(PairFault::Memory),
    }
    if held == standing {
        return Ok(());
    }
    Err(PairFault::Changed)
}

// Reads a file, which is to hold this text: of a longer one no more than the byte that shows it. Errors: `Changed`: it holds another or
// isn't there; `Open`: it could not be read; `Memory`: a growth was refused.
fn check_file<F: Files>(
    alloc: Global,
    files: &mut F,
    file: &str,
    standing: &[u8],
) -> Result<(), PairFault>
    ensures ok { F.honest files.old ≡ true → OnOk result (get (F.folder files.old) file.now ≡ Some standing.now) }
    ensures changed { F.honest files.old ≡ true → IsErrOf result PairFault.Changed → get (F.folder files.old) file.now ≢ Some standing.now }
    ensures reads { F.honest files.old ≡ true → GoesThrough F.folder F.moment F.since IsUntouched IsUntouched files.old files.new }
    ensures acts { (read : Result (Unit {0}) FileFault) × (F.acts files.new ≡ with_act (F.acts files.old) (Read file.now FileKind.Regular read))
        × (IsOk result → read ≡ Ok tt) × (IsErrOf result PairFault.Memory → read ≡ Err FileFault.Memory) }
    ensures kinds { IfErr result (λ fault. fault ≢ PairFault.Write) }
    ensures cause { IsErrOf result PairFault.Open → Rises (F.faults files.old) (F.faults files.new) }
    ensures rest { (IsErrOf result PairFault.Open → ⊥) → F.faults files.new ≡ F.faults files.old }
    ensures count { F.faults files.old ≤ F.faults files.new }
    ensures honest { F.honest files.new ≡ F.honest files.old }
{
    let mut held = Vec::new(alloc);
    let read = files.read_most(file, FileKind::Regular, standing.len() + 1, &mut held);
    compared(read, held.as_slice(), standing)
}

/// Keeps what an action has led to, from one history to another: gives the journal of the file with this name the bytes `stored`,
/// the journal of the new history, and then the file its present text, `text`, where the file still holds the text `standing`,
/// at which the action was begun. A stop at any moment leaves a file that goes on with the texts of the one history or of the
/// other. Errors: `Changed`: the file holds another text or isn't there; `Open`: it could not be read; `Memory`: a growth was
/// refused; at these nothing was replaced at any moment. `Write`: one of the two could not be replaced, or the file changed after
/// the read.
pub fn keep<F: Files>(
    alloc: Global,
    files: &mut F,
    file: &str,
    standing: &[u8],
    stored: &[u8],
    text: &[u8],
) -> Result<(), PairFault>
    ensures { KeepsHeld F.Files file.now standing.now stored.now text.now result files.old files.new }
{
    if let Err(fault) = check_file(alloc, files, file, standing) {
        return Err(fault);
    }
    let Ok(journal) = journal_name(alloc, file) else {
        return Err(PairFault::Memory);
    };
    match rewrite_pair(files, journal.as_str(), stored, file, standing, text) {
        Ok(()) => Ok(()),
        Err(_) => Err(PairFault::Write),
    }
}
