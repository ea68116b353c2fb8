//! What opening a file takes: its name, its bytes, and the lines on why it isn't open.
ghost use Rattle.std.specs.Prelude.{◌≡◌, ◌≢◌, ◌⊎◌, ◌<◌, ◌≤◌, ◌++◌, [], ◌∷◌, codes, eqb, flat_map, take, true, Some, None, Err, IfOk, IfErr, IsErrOf, IsTrue, length, string_bytes};
ghost use Rattle.std.specs.List.{ends_with};
ghost use Rattle.std.specs.FinMap.{get};
ghost use Rattle.bz_buildozer.specs.Words.{BeginsNoJournal, Bytes, ReadsRegular, Rises, AppendsUnlessFailed, Reports, line_piece_text, named_line};
ghost use Rattle.bz_files.specs.Orders.{Read, with_act};
ghost use Rattle.bz_buildozer.specs.Found.{in_package};
ghost use Rattle.bz_buildozer.specs.Journals.{deleted_lines, fault_lines, of_package, of_resuming, shown_package};
ghost use Rattle.bz_buildozer.specs.Keeps.{KeepsFolder};
ghost use Rattle.bz_buildozer.specs.Reported.{package_hint, unedited_lines};
ghost use Rattle.bz_buildozer.specs.Run.{wanting_name};
ghost use Rattle.bz_buildozer.specs.private.Settling.{unedited_in};
ghost use Rattle.bz_buildozer.specs.private.Taking.{IsEnoughOf, LastReadFailed, slash_after};

use crate::script::INPUT;
use crate::settling::Unedited;
use crate::used::Opened;
use bz_files::{FileFault, FileKind, Files};
use bz_items::Memory;
use bz_journal::ResumeFault;
use bz_resume::begins_no_journal;
use bz_streams::{Cut, LinePiece, STDIN, Sink, report_named, report_pieces};
use std::alloc::Global;

/// What came of reading the file of a package.
#[derive(Drop)]
pub(crate) struct Taken {
    /// The file, where it is open.
    pub(crate) file: Option<Opened>,
    /// The first failure, or that there was none.
    pub(crate) cut: Cut,
}

/// A file of a package, by its path below the current folder. The error: memory was refused.
pub(crate) fn name_in(alloc: Global, package: &str, base: &str) -> Result<String, Memory>
    ensures { IfOk result (λ name. string_bytes name ≡ in_package «package».now base.now) }
{
    if package.is_empty() {
        return String::from_str(alloc, base);
    }
    let mut name = String::from_str(alloc, package)?;
    name.push_str("/")?;
    name.push_str(base)?;
    Ok(name)
}

/// The first bytes of a file: all, or `most` of them where it has more. Errors: those of the read.
pub(crate) fn bytes_of<F: Files>(
    alloc: Global,
    files: &mut F,
    name: &str,
    most: usize,
) -> Result<Vec<u8>, FileFault>
    ensures found { F.honest files.old ≡ true → IfOk result (λ text. (bytes : Bytes)
        × (get (F.folder files.old) name.now ≡ Some bytes) × (text.items ≡ take most bytes)) }
    ensures absent { F.honest files.old ≡ true → IsErrOf result FileFault.Absent → get (F.folder files.old) name.now ≡ None }
    ensures folder { F.honest files.old ≡ true → F.folder files.new ≡ F.folder files.old }
    ensures time { F.honest files.old ≡ true → KeepsFolder F.Files files.old files.new }
    ensures regular { ReadsRegular (F.acts files.old) (F.acts files.new) }
    ensures failed { IfErr result (λ fault. F.acts files.new ≡ with_act (F.acts files.old) (Read name.now FileKind.Regular (Err fault))) }
    ensures kinds { IfErr result (λ fault. fault ≢ FileFault.Write) }
    ensures cause { IsErrOf result FileFault.Open → Rises (F.faults files.old) (F.faults files.new) }
    ensures kept { (IsErrOf result FileFault.Open → ⊥) → F.faults files.new ≡ F.faults files.old }
    ensures count { F.faults files.old ≤ F.faults files.new }
    ensures honest { F.honest files.new ≡ F.honest files.old }
{
    let mut text = Vec::new(alloc);
    files.read_most(name, FileKind::Regular, most, &mut text)?;
    Ok(text)
}

// This many bytes of a journal are read first.
const FRONT: usize = 65_536;

// Whether the first bytes of a journal, as many as are read first, are all that need be read of it.
fn is_enough(front: &[u8]) -> bool
    ensures { IsTrue result → (length front.now < 65536) ⊎ BeginsNoJournal front.now }
{
    front.len() < FRONT || begins_no_journal(front)
}

/// What is to be read of a journal, which may be of any length: all bytes of the file, or the first ones alone where no journal begins with
/// these. Errors: those of the reads.
pub(crate) fn journal_bytes<F: Files>(
    alloc: Global,
    files: &mut F,
    name: &str,
) -> Result<Vec<u8>, FileFault>
    ensures found { F.honest files.old ≡ true → IfOk result (λ read. (bytes : Bytes)
        × (get (F.folder files.old) name.now ≡ Some bytes) × IsEnoughOf bytes read.items) }
    ensures absent { F.honest files.old ≡ true → IsErrOf result FileFault.Absent → get (F.folder files.old) name.now ≡ None }
    ensures folder { F.honest files.old ≡ true → F.folder files.new ≡ F.folder files.old }
    ensures time { F.honest files.old ≡ true → KeepsFolder F.Files files.old files.new }
    ensures regular { ReadsRegular (F.acts files.old) (F.acts files.new) }
    ensures failed { IfErr result (λ fault. LastReadFailed (F.acts files.old) (F.acts files.new) name.now fault) }
    ensures kinds { IfErr result (λ fault. fault ≢ FileFault.Write) }
    ensures cause { IsErrOf result FileFault.Open → Rises (F.faults files.old) (F.faults files.new) }
    ensures kept { (IsErrOf result FileFault.Open → ⊥) → F.faults files.new ≡ F.faults files.old }
    ensures count { F.faults files.old ≤ F.faults files.new }
    ensures honest { F.honest files.new ≡ F.honest files.old }
{
    let front = bytes_of(alloc, files, name, FRONT)?;
    if is_enough(front.as_slice()) {
        return Ok(front);
    }
    let all = bytes_of(alloc, files, name, usize::MAX)?;
    Ok(all)
}

/// Reports a word on a file, and no file is open.
pub(crate) fn fail<E: Sink>(err: &mut E, name: &str, word: &str, cut: Cut) -> Taken
    ensures taken { result ≡ record { file = None; cut = cut } }
    ensures reported { AppendsUnlessFailed (E.faults err.old) (E.faults err.new) (E.contents err.old) (E.contents err.new)
        (named_line name.now word.now) }
{
    report_named(err, name, word);
    Taken { file: None, cut }
}

// Whether a package is written as all those below another one.
fn ends_in_dots(package: &str) -> bool
    ensures { result ≡ ends_with eqb «package».now (codes "/...") }
{
    package.ends_with("/...")
}

// What a package is, or which program takes all packages below one.
fn package_hint(package: &str) -> &'static str
    ensures { result.now ≡ package_hint «package».now }
{
    if package == "..." || ends_in_dots(package) {
        "buildozer: ... is no package here: see buildozer-tree\n"
    } else {
        "buildozer: a package is a directory below the working directory, which is to be the root of the workspace\n"
    }
}

/// Reports that no file of a package is there, by the name of one, and below it what a package is.
pub(crate) fn fail_absent<E: Sink>(err: &mut E, name: &str, package: &str) -> Taken
    ensures taken { result ≡ record { file = None; cut = Cut.Whole } }
    ensures reported { AppendsUnlessFailed (E.faults err.old) (E.faults err.new) (E.contents err.old) (E.contents err.new)
        (named_line name.now (codes "cannot open") ++ package_hint «package».now) }
{
    let hint = package_hint(package);
    report_pieces(
        err,
        &[
            LinePiece::Outside(name),
            LinePiece::Own(": cannot open\n"),
            LinePiece::Own(hint),
        ],
    );
    Taken {
        file: None,
        cut: Cut::Whole,
    }
}

// Reports a word on a journal, and by these pieces what may be done; no file is open.
fn fail_with_hint<E: Sink>(err: &mut E, journal: &str, word: &str, hint: &[LinePiece<'_>]) -> Taken
    ensures taken { result ≡ record { file = None; cut = Cut.Whole } }
    ensures reported { Reports (E.faults err.old) (E.faults err.new) (E.contents err.old) (E.contents err.new)
        (named_line journal.now word.now ∷ flat_map line_piece_text hint.now ∷ []) }
{
    let taken = fail(err, journal, word, Cut::Whole);
    report_pieces(err, hint);
    taken
}

// Reports a word on a journal, and below it this, and that it may be deleted; no file is open.
fn fail_deleted<'a, E: Sink>(err: &mut E, journal: &'a str, word: &str, says: &'a str) -> Taken
    ensures taken { result ≡ record { file = None; cut = Cut.Whole } }
    ensures reported { Reports (E.faults err.old) (E.faults err.new) (E.contents err.old) (E.contents err.new)
        (deleted_lines journal.entry.now word.now says.entry.now) }
{
    fail_with_hint(
        err,
        journal,
        word,
        &[
            LinePiece::Own(says),
            LinePiece::Outside(journal),
            LinePiece::Own(" to begin a new history\n"),
        ],
    )
}

/// Reports why a journal is not resumed, and below that what it means and what may be done; no file is open.
pub(crate) fn unresumed<E: Sink>(err: &mut E, journal: &str, fault: &ResumeFault) -> Taken
    ensures file { result.file ≡ None }
    ensures whole { result.cut ≡ Cut.Whole → fault.now ≢ ResumeFault.Memory }
    ensures cut { (result.cut ≡ Cut.Whole) ⊎ (result.cut ≡ Cut.Memory) }
    ensures told { result.cut ≡ Cut.Memory → AppendsUnlessFailed (E.faults err.old) (E.faults err.new) (E.contents err.old) (E.contents err.new)
        (named_line journal.now (codes "Memory (8)")) }
    ensures reported { Reports (E.faults err.old) (E.faults err.new) (E.contents err.old) (E.contents err.new)
        (fault_lines journal.now (of_resuming fault.now)) }
{
    match fault {
        ResumeFault::Memory => fail(err, journal, "Memory (8)", Cut::Memory),
        ResumeFault::Damaged => fail_deleted(
            err,
            journal,
            "Damaged (71)",
            "buildozer: this is no journal, or was changed since it was written: delete ",
        ),
        ResumeFault::Version => fail_deleted(
            err,
            journal,
            "Version (72)",
            "buildozer: a program of another version wrote it: use that one, or delete ",
        ),
        ResumeFault::Stale => fail_deleted(
            err,
            journal,
            "Stale (73)",
            "buildozer: the file changed since the last run with --journal: restore it, or delete ",
        ),
    }
}

/// Reports that a file isn't edited, and below it why; no file is open.
pub(crate) fn fail_unedited<E: Sink>(err: &mut E, name: &str, why: Unedited<'_>) -> Taken
    ensures taken { result ≡ record { file = None; cut = Cut.Whole } }
    ensures reported { Reports (E.faults err.old) (E.faults err.new) (E.contents err.old) (E.contents err.new)
        (unedited_lines name.now (unedited_in why.entry)) }
{
    match why {
        Unedited::Beside(package) => fail_with_hint(
            err,
            name,
            "cannot open",
            &[
                LinePiece::Own("buildozer: the file of //"),
                LinePiece::Outside(package),
                LinePiece::Own(" is its BUILD.bazel\n"),
            ],
        ),
        Unedited::Kept => fail_with_hint(
            err,
            name,
            "cannot open",
            &[LinePiece::Own(
                "buildozer: no journal is edited, and no new file that waits to be renamed\n",
            )],
        ),
        Unedited::Bzl => fail_with_hint(
            err,
            name,
            "cannot open",
            &[LinePiece::Own(
                "buildozer: a .bzl file is not edited: to format it, see buildifier\n",
            )],
        ),
    }
}

// As much of the path of a package as is printed.
#[tactic(auto, using(crate::proofs::ShownPackages::path_cut))]
fn shown_package(path: &str) -> &str
    ensures { result.now ≡ shown_package path.now }
{
    if path.len() <= 200 {
        return path;
    }
    let end = path.floor_char_boundary(200);
    &path[..end]
}

/// Reports that a journal was written for this package, which is another one, and what may be done; no file is open.
pub(crate) fn misplaced<'a, E: Sink>(err: &mut E, journal: &'a str, package: &'a str) -> Taken
    ensures taken { result ≡ record { file = None; cut = Cut.Whole } }
    ensures reported { Reports (E.faults err.old) (E.faults err.new) (E.contents err.old) (E.contents err.new)
        (fault_lines journal.entry.now (of_package «package».entry.now)) }
{
    fail_with_hint(
        err,
        journal,
        "Damaged (71)",
        &[
            LinePiece::Own("buildozer: "),
            LinePiece::Outside(journal),
            LinePiece::Own(" was written for //"),
            LinePiece::Outside(shown_package(package)),
            LinePiece::Own(": move it back there, or delete it to begin a new history\n"),
        ],
    )
}

// What is between the path of a package and the name of a file in it.
fn slash_after(package: &str) -> &'static str
    ensures { result.now ≡ slash_after «package».now }
{
    if package.is_empty() { "" } else { "/" }
}

/// Reports that memory was refused before a file of the package had its name. No file is open.
pub(crate) fn unnamed<E: Sink>(err: &mut E, package: &str) -> Taken
    ensures taken { result ≡ record { file = None; cut = Cut.Memory } }
    ensures told { Reports (E.faults err.old) (E.faults err.new) (E.contents err.old) (E.contents err.new) (wanting_name «package».now) }
{
    if package == INPUT {
        return fail(err, STDIN, "Memory", Cut::Memory);
    }
    let slash = slash_after(package);
    report_pieces(
        err,
        &[
            LinePiece::Outside(package),
            LinePiece::Own(slash),
            LinePiece::Own("BUILD: Memory\n"),
        ],
    );
    Taken {
        file: None,
        cut: Cut::Memory,
    }
}
