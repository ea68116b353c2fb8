//! The file of a package, which is read and opened.
ghost use Rattle.std.specs.Prelude.{◌≡◌, ◌≢◌, ◌⊎◌, ◌≤◌, ℕ, None, Some, true, codes, is_some, length};
ghost use Rattle.std.specs.FinMap.{get};
ghost use Rattle.bz_buildozer.specs.Words.{journal_name, Counts, named_line};
ghost use Rattle.bz_buildozer.specs.Calls.{ReportsLine, AreCutBy};
ghost use Rattle.bz_buildozer.specs.Journals.{TakesBeside};
ghost use Rattle.bz_buildozer.specs.Keeps.{ReadsFiles};
ghost use Rattle.bz_buildozer.specs.Opens.{Takes};
ghost use Rattle.bz_buildozer.specs.Found as f;
ghost use Rattle.bz_buildozer.specs.Run.{FileUntil, MeansUntil, TakesUntil};
ghost use Rattle.bz_buildozer.specs.Unread.{RunActs, ActsAreAmong, ActsGrow};
ghost use Rattle.bz_buildozer.specs.private.Taking.{Brings, InputUntil, NamedUntil, base_of};
ghost use Rattle.bz_buildozer.specs.private.Settling.{settled_in};
ghost use Rattle.bz_buildozer.specs.private.ShownFiles.{taken_in};

use crate::reading::{
    Taken, bytes_of, fail, fail_absent, fail_unedited, journal_bytes, misplaced, name_in, unnamed,
    unresumed,
};
use crate::script::INPUT;
use crate::settling::{Settled, folder_of};
use crate::used::Opened;
use bz_files::{FileFault, Files};
use bz_items::Text;
use bz_journal::{Past, Session};
use bz_lex::ReadFault;
use bz_resume::journal_name;
use bz_streams::{
    Cut, InputFault, MOST, STDIN, Sink, Source, read_most, report_fault_in, report_named,
};
use std::alloc::Global;

// Opens a file with what was read of it, or reports its fault: `NAME:LINE:COLUMN: FAULT` and below it the line of the text with a caret,
// `NAME: NotUtf8 at BYTE` or `NAME: FAULT`. The name and the package are taken as given. It is cut where memory was refused, which is
// reported as `NAME: Memory`.
fn open_text<E: Sink>(package: &str, name: &str, text: Vec<u8>, err: &mut E) -> Taken
    requires { length «package».now ≤ 65536 }
    ensures whole { result.cut ≡ Cut.Whole → Brings E.Sink (Takes «package».now name.now text.items) (taken_in result) err.old err.new }
    ensures cut { (result.cut ≡ Cut.Whole) ⊎ ((result.cut ≡ Cut.Memory) × (taken_in result ≡ None)) }
    ensures told { result.cut ≡ Cut.Memory → ReportsLine E.Sink err.old err.new (named_line name.now (codes "Memory")) }
{
    let alloc = *text.allocator();
    let Ok(called) = String::from_str(alloc, name) else {
        return fail(err, name, "Memory", Cut::Memory);
    };
    match Past::open(alloc, package, text.as_slice()) {
        Ok(past) => Taken {
            file: Some(Opened::new(called, Text::from_vec(text), past)),
            cut: Cut::Whole,
        },
        Err(fault) => match fault {
            ReadFault::Memory => fail(err, name, "Memory", Cut::Memory),
            _ => {
                report_fault_in(err, name, &text, &fault);
                Taken {
                    file: None,
                    cut: Cut::Whole,
                }
            }
        },
    }
}

// Opens a file as its journal says, whose bytes these are, or reports why no history goes on with it, and what may be done. It is cut
// where memory was refused.
fn open_resumed<E: Sink>(
    package: &str,
    name: &str,
    text: Vec<u8>,
    journal: &str,
    bytes: &[u8],
    err: &mut E,
) -> Taken
    requires { journal.now ≡ journal_name name.now }
    ensures whole { result.cut ≡ Cut.Whole
        → Brings E.Sink (TakesBeside (Some bytes.now) «package».now name.now text.items) (taken_in result) err.old err.new }
    ensures cut { (result.cut ≡ Cut.Whole) ⊎ ((result.cut ≡ Cut.Memory) × (taken_in result ≡ None)) }
    ensures told { result.cut ≡ Cut.Memory → ReportsLine E.Sink err.old err.new (named_line journal.now (codes "Memory (8)")) }
{
    let alloc = *text.allocator();
    let session = match Session::resume(alloc, bytes, text.as_slice()) {
        Ok(session) => session,
        Err(fault) => return unresumed(err, journal, &fault),
    };
    if session.package() != package {
        return misplaced(err, journal, session.package());
    }
    match String::from_str(alloc, name) {
        Ok(name) => Taken {
            file: Some(Opened::new(name, Text::from_vec(text), Past::new(session))),
            cut: Cut::Whole,
        },
        Err(_) => fail(err, journal, "Memory (8)", Cut::Memory),
    }
}

// Opens a file with what was read of it, and resumes its journal where journals are kept and it is there.
fn open_found<F: Files, E: Sink>(
    package: &str,
    name: &str,
    text: Vec<u8>,
    journals: bool,
    files: &mut F,
    err: &mut E,
) -> Taken
    requires { length «package».now ≤ 65536 }
    ensures takes { (acts : RunActs) → ActsAreAmong (F.acts files.old) (F.acts files.new) acts → Brings E.Sink (λ file lines. F.honest files.old ≡ true
        → TakesUntil result.cut journals acts (F.folder files.old) «package».now name.now text.items file lines) (taken_in result) err.old err.new }
    ensures files { ReadsFiles F.Files result.cut files.old files.new }
    ensures grows { ActsGrow (F.acts files.old) (F.acts files.new) }
{
    if !journals {
        return open_text(package, name, text, err);
    }
    let alloc = *text.allocator();
    let Ok(journal) = journal_name(alloc, name) else {
        return fail(err, name, "Memory", Cut::Memory);
    };
    let journal = journal.as_str();
    match journal_bytes(alloc, files, journal) {
        Ok(bytes) => open_resumed(package, name, text, journal, bytes.as_slice(), err),
        Err(FileFault::Absent) => open_text(package, name, text, err),
        Err(FileFault::Memory) => fail(err, journal, "Memory", Cut::Memory),
        Err(_) => fail(err, journal, "cannot open", Cut::Files),
    }
}

// The name of a package's file below the package: the first one, or the second.
fn base_of(second: bool) -> &'static str
    ensures { result.now ≡ base_of second }
{
    if second { "BUILD" } else { "BUILD.bazel" }
}

/// Reads and opens the file of a package: `BUILD.bazel`, else `BUILD`; the second one alone where the first was tried. Of a file no more is
/// read than one byte past the limit of a text. Where journals are kept, `FILE.journal` is read too, and resumed where it is there. A fault
/// is reported by one line for each file: those of the text, below which its line is, `NAME: cannot open` where neither is there or one could
/// not be read, and `NAME: Memory` where memory was refused; of a journal `NAME.journal: cannot open`, or `NAME.journal: FAULT (NUMBER)`.
/// Where neither is there, what a package is is printed below the line. Cuts: `Memory` and `Files`,
/// the first that came; the second file may be open after a `Files` of the first.
pub(crate) fn open_named<F: Files, E: Sink>(
    alloc: Global,
    package: &str,
    second: bool,
    journals: bool,
    files: &mut F,
    err: &mut E,
) -> Taken
    requires { length «package».now ≤ 65536 }
    ensures opens { (acts : RunActs) → ActsAreAmong (F.acts files.old) (F.acts files.new) acts → Brings E.Sink (λ file lines. F.honest files.old ≡ true
        → NamedUntil second result.cut journals acts (F.folder files.old) «package».now file lines) (taken_in result) err.old err.new }
    ensures files { ReadsFiles F.Files result.cut files.old files.new }
    ensures grows { ActsGrow (F.acts files.old) (F.acts files.new) }
{
    let Ok(name) = name_in(alloc, package, base_of(second)) else {
        return unnamed(err, package);
    };
    let name = name.as_str();
    match bytes_of(alloc, files, name, MOST) {
        Ok(text) => open_found(package, name, text, journals, files, err),
        Err(FileFault::Memory) => fail(err, name, "Memory", Cut::Memory),
        Err(FileFault::Absent) if !second => open_named(alloc, package, true, journals, files, err),
        Err(FileFault::Absent) => fail_absent(err, name, package),
        Err(_) if second => fail(err, name, "cannot open", Cut::Files),
        Err(_) => {
            report_named(err, name, "cannot open");
            let Taken { file, cut: _ } = open_named(alloc, package, true, journals, files, err);
            Taken {
                file,
                cut: Cut::Files,
            }
        }
    }
}

// Reads and opens the file of this name, which is there and is no package's, as `open_named` does; its labels are those of its folder.
fn open_own<F: Files, E: Sink>(
    alloc: Global,
    own: &str,
    journals: bool,
    files: &mut F,
    err: &mut E,
) -> Taken
    requires { length own.now ≤ 65536 }
    ensures opens { (acts : RunActs) → ActsAreAmong (F.acts files.old) (F.acts files.new) acts → Brings E.Sink (λ file lines. F.honest files.old ≡ true
        → is_some (get (F.folder files.old) own.now) ≡ true → FileUntil result.cut journals acts (F.folder files.old) own.now file lines) (taken_in result) err.old err.new }
    ensures files { ReadsFiles F.Files result.cut files.old files.new }
    ensures grows { ActsGrow (F.acts files.old) (F.acts files.new) }
{
    let package = folder_of(own);
    match bytes_of(alloc, files, own, MOST) {
        Ok(text) => open_found(package, own, text, journals, files, err),
        Err(FileFault::Memory) => fail(err, own, "Memory", Cut::Memory),
        Err(FileFault::Absent) => fail(err, own, "cannot open", Cut::Whole),
        Err(_) => fail(err, own, "cannot open", Cut::Files),
    }
}

/// Reads and opens what a path means: the file of a package as `open_named` does, or the file of this name. That a file isn't edited is
/// reported, and why: no file is open then.
pub(crate) fn open_settled<F: Files, E: Sink>(
    alloc: Global,
    path: &str,
    settled: Settled<'_>,
    journals: bool,
    files: &mut F,
    err: &mut E,
) -> Taken
    requires { length (f.key_of path.now (settled_in settled)) ≤ 65536 }
    ensures opens { (acts : RunActs) → ActsAreAmong (F.acts files.old) (F.acts files.new) acts → Brings E.Sink (λ file lines. F.honest files.old ≡ true
        → settled_in settled.entry ≡ f.settled (F.folder files.old) path.now
        → MeansUntil result.cut journals acts (F.folder files.old) path.now (settled_in settled.entry) file lines) (taken_in result) err.old err.new }
    ensures files { ReadsFiles F.Files result.cut files.old files.new }
    ensures grows { ActsGrow (F.acts files.old) (F.acts files.new) }
{
    match settled {
        Settled::Package(package) => open_named(alloc, package, false, journals, files, err),
        Settled::File(name) => open_own(alloc, name, journals, files, err),
        Settled::Refused(why) => fail_unedited(err, path, why),
    }
}

/// Reads and opens standard input. Cuts: `Read` and `Memory`, which are reported.
pub(crate) fn open_input<R: Source, E: Sink>(alloc: Global, input: &mut R, err: &mut E) -> Taken
    ensures takes { Brings E.Sink (InputUntil result.cut (R.remaining input.old)) (taken_in result) err.old err.new }
    ensures works { R.sound input.old ≡ true → result.cut ≢ Cut.Read }
    ensures sound { R.sound input.new ≡ R.sound input.old }
    ensures cut { (files : ℕ) → AreCutBy result.cut (R.faults input.old) (R.faults input.new) files files }
    ensures read_faults { Counts (R.faults input.old) (R.faults input.new) }
{
    match read_most(alloc, input, MOST) {
        Ok(text) => open_text(INPUT, STDIN, text, err),
        Err(InputFault::Read) => fail(err, STDIN, "cannot open", Cut::Read),
        Err(InputFault::Memory) => fail(err, STDIN, "Memory", Cut::Memory),
    }
}
