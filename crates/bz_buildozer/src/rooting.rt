//! The root of the workspace, above the current folder.
ghost use Rattle.std.specs.Prelude.{◌≡◌, ◌⊎◌, ◌++◌, ◌||◌, [], true, codes, is_some, map, option_map, string_bytes, IfOk, OnErr, OnOk};
ghost use Rattle.std.specs.FinMap.{get};
ghost use Rattle.bz_buildozer.specs.Words.{requested_in};
ghost use Rattle.bz_buildozer.specs.Calls.{ReportsLines};
ghost use Rattle.bz_buildozer.specs.Found.{is_root, root_above, root_from};
ghost use Rattle.bz_buildozer.specs.Outcome.{AreOfInputAndSome};
ghost use Rattle.bz_buildozer.specs.Reported.{root_note};
ghost use Rattle.bz_buildozer.specs.Steps.{names_file};

use crate::step::names_file;
use bz_command_line::Requested;
use bz_files::Files;
use bz_items::Memory;
use bz_streams::{LinePiece, Sink, report_pieces};
use std::alloc::Global;

// How many folders above the current one are looked at.
const MOST_ABOVE: usize = 16;

// Whether a folder has this file. The error: memory was refused.
fn has_mark<F: Files>(alloc: Global, files: &F, path: &str, mark: &str) -> Result<bool, Memory>
    ensures { F.honest files.now ≡ true → IfOk result (λ is. is ≡ is_some (get (F.folder files.now) (path.now ++ mark.now))) }
{
    let mut name = String::from_str(alloc, path)?;
    name.push_str(mark)?;
    Ok(files.has_file(name.as_str()))
}

// Whether a folder has one of these two files. The error: memory was refused.
fn has_either<F: Files>(
    alloc: Global,
    files: &F,
    path: &str,
    mark: &str,
    other: &str,
) -> Result<bool, Memory>
    ensures { F.honest files.now ≡ true → IfOk result (λ has. has ≡ (is_some (get (F.folder files.now) (path.now ++ mark.now))
        || is_some (get (F.folder files.now) (path.now ++ other.now)))) }
{
    if has_mark(alloc, files, path, mark)? {
        return Ok(true);
    }
    has_mark(alloc, files, path, other)
}

// Whether a folder is the root of a workspace. The error: memory was refused.
fn is_root<F: Files>(alloc: Global, files: &F, path: &str) -> Result<bool, Memory>
    ensures { F.honest files.now ≡ true → IfOk result (λ is. is ≡ is_root (F.folder files.now) path.now) }
{
    if has_either(alloc, files, path, "MODULE.bazel", "REPO.bazel")? {
        return Ok(true);
    }
    has_either(alloc, files, path, "WORKSPACE.bazel", "WORKSPACE")
}

/// The path of the root above the current folder, where that isn't one itself. The error: memory was refused.
pub(crate) fn root_above<F: Files>(alloc: Global, files: &F) -> Result<Option<String>, Memory>
    ensures { F.honest files.now ≡ true → IfOk result (λ root. option_map string_bytes root ≡ root_above (F.folder files.now)) }
{
    if is_root(alloc, files, "")? {
        return Ok(None);
    }
    root_from(alloc, files)
}

// The path of the first root among the folders above the current one. The error: memory was refused.
fn root_from<F: Files>(alloc: Global, files: &F) -> Result<Option<String>, Memory>
    ensures { F.honest files.now ≡ true → IfOk result (λ root. option_map string_bytes root ≡ root_from 16 (F.folder files.now) (codes "../")) }
{
    let mut path = String::from_str(alloc, "../")?;
    for _ in 0..MOST_ABOVE {
        if is_root(alloc, files, path.as_str())? {
            return Ok(Some(path));
        }
        path.push_str("../")?;
    }
    Ok(None)
}

// Reports where the root is above the current folder, if it is there.
fn report_root<E: Sink>(err: &mut E, root: Option<&str>)
    ensures { ReportsLines E.Sink err.old err.new (root_note true (option_map (λ s. s.now) root.entry)) }
{
    let Some(root) = root else {
        return;
    };
    report_pieces(
        err,
        &[
            LinePiece::Own("buildozer: note: the root of the workspace is "),
            LinePiece::Own(root),
            LinePiece::Own(", and packages are those below the working directory\n"),
        ],
    );
}

/// Reports where the root of the workspace is, if the run is in a folder below it and rules of a file are meant: its packages are those below the
/// current folder all the same. The error: memory was refused, and nothing is reported.
pub(crate) fn note_root<F: Files, E: Sink>(
    alloc: Global,
    lines: &[Requested<'_>],
    files: &F,
    err: &mut E,
) -> Result<(), Memory>
    ensures ok { OnOk result ((F.honest files.now ≡ true) ⊎ AreOfInputAndSome (map requested_in lines.now)
        → ReportsLines E.Sink err.old err.new (root_note (names_file (map requested_in lines.now)) (root_above (F.folder files.now)))) }
    ensures err { OnErr result (err.new ≡ err.old) }
{
    if !names_file(lines) {
        return Ok(());
    }
    let root = root_above(alloc, files)?;
    report_root(err, root.as_deref());
    Ok(())
}
