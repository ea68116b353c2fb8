//! What the path before a target's colon means: a package, or a file.
ghost use Rattle.std.specs.Prelude.{◌≡◌, ◌≤◌, ℕ, List, length, true, bytes_eq, eqb, is_some, IfOk};
ghost use Rattle.std.specs.FinMap.{get};
ghost use Rattle.std.specs.List.{ends_with};
ghost use Rattle.bz_buildozer.specs.Found as s;
ghost use Rattle.bz_buildozer.specs.Found.{first_name, in_package};
ghost use Rattle.bz_buildozer.specs.private.Settling.{settled_in};

use crate::reading::name_in;
use crate::script::INPUT;
use bz_files::Files;
use bz_items::Memory;
use std::alloc::Global;

/// Why a file isn't edited.
#[derive(Clone, Copy)]
pub(crate) enum Unedited<'a> {
    /// It is the `BUILD` beside the `BUILD.bazel` of this package.
    Beside(&'a str),
    /// It is a journal, or a new file that waits to be renamed.
    Kept,
    /// It is a .bzl file.
    Bzl,
}

/// What the path before a target's colon means.
#[derive(Clone, Copy)]
pub(crate) enum Settled<'a> {
    /// The package of this path: its file is `BUILD.bazel`, else `BUILD`.
    Package(&'a str),
    /// The file of this name, which is no package's.
    File(&'a str),
    /// A file that isn't edited.
    Refused(Unedited<'a>),
}

/// What a run knows it by.
pub(crate) fn key_of<'a>(path: &'a str, settled: Settled<'a>) -> &'a str
    ensures { result.now ≡ s.key_of path.entry.now (settled_in settled.entry) }
{
    match settled {
        Settled::Package(package) => package,
        Settled::File(name) => name,
        Settled::Refused(_) => path,
    }
}

/// The folder of a file, as the path of a package is written.
pub(crate) fn folder_of(name: &str) -> &str
    ensures { result.now ≡ s.folder_of name.now }
{
    match name.rsplit_once('/') {
        Some((folder, _)) => folder,
        None => "",
    }
}

// Whether a name ends in this.
fn ends_in(name: &str, end: &str) -> bool
    ensures { result ≡ ends_with eqb name.now end.now }
{
    name.ends_with(end)
}

// Whether a name is one of a journal, or of a new file.
fn is_kept_name(name: &str) -> bool
    ensures { result ≡ s.is_kept_name name.now }
{
    ends_in(name, ".journal") || ends_in(name, ".bznew")
}

// Whether neither a path nor its folder is the package that means standard input.
fn is_elsewhere(path: &str) -> bool
    ensures { result ≡ s.is_elsewhere path.now }
{
    !(path == INPUT || folder_of(path) == INPUT)
}

// Whether a path may be that of a file.
fn may_be_file(path: &str) -> bool
    ensures { result ≡ s.may_be_file path.now }
{
    !path.is_empty() && is_elsewhere(path)
}

// Whether a folder has this file of a package. The error: memory was refused.
fn has_in<F: Files>(alloc: Global, files: &F, package: &str, base: &str) -> Result<bool, Memory>
    ensures { F.honest files.now ≡ true → IfOk result (λ has. has ≡ is_some (get (F.folder files.now) (in_package «package».now base.now))) }
{
    let name = name_in(alloc, package, base)?;
    Ok(files.has_file(name.as_str()))
}

// Whether a file of a package is there. The error: memory was refused.
fn has_package<F: Files>(alloc: Global, files: &F, package: &str) -> Result<bool, Memory>
    ensures { F.honest files.now ≡ true → IfOk result (λ has. has ≡ s.has_package (F.folder files.now) «package».now) }
{
    if has_in(alloc, files, package, "BUILD.bazel")? {
        return Ok(true);
    }
    has_in(alloc, files, package, "BUILD")
}

// Whether a file of this name is there, or may come to be there in a run.
fn is_there<F: Files>(files: &F, path: &str) -> bool
    ensures { F.honest files.now ≡ true → result ≡ s.is_there (F.folder files.now) path.now }
{
    is_kept_name(path) || files.has_file(path)
}

// Whether a path is that of a file, and of no package. The error: memory was refused.
fn is_file<F: Files>(alloc: Global, files: &F, path: &str) -> Result<bool, Memory>
    ensures { F.honest files.now ≡ true → IfOk result (λ is. is ≡ s.is_file (F.folder files.now) path.now) }
{
    if !may_be_file(path) || !is_there(files, path) {
        return Ok(false);
    }
    let has = has_package(alloc, files, path)?;
    Ok(!has)
}

// Whether a path is that of this file of a package. The error: memory was refused.
fn is_named(alloc: Global, path: &str, package: &str, base: &str) -> Result<bool, Memory>
    ensures { IfOk result (λ is. is ≡ bytes_eq path.now (in_package «package».now base.now)) }
{
    let name = name_in(alloc, package, base)?;
    Ok(path == name.as_str())
}

// What the `BUILD` of a package means. The error: memory was refused.
fn settle_second<'a, F: Files>(
    alloc: Global,
    files: &F,
    package: &'a str,
) -> Result<Settled<'a>, Memory>
    ensures means { F.honest files.now ≡ true → IfOk result (λ is. settled_in is
        ≡ s.settled_second (is_some (get (F.folder files.now) (first_name «package».entry.now))) «package».entry.now) }
    ensures fits { (path : List ℕ) → length «package».entry.now ≤ length path → IfOk result (λ is. length (s.key_of path (settled_in is)) ≤ length path) }
{
    if has_in(alloc, files, package, "BUILD.bazel")? {
        return Ok(Settled::Refused(Unedited::Beside(package)));
    }
    Ok(Settled::Package(package))
}

// What the path of a file means. The error: memory was refused.
fn settle_file<'a, F: Files>(alloc: Global, files: &F, path: &'a str) -> Result<Settled<'a>, Memory>
    ensures means { F.honest files.now ≡ true → IfOk result (λ is. settled_in is ≡ s.settled_file (F.folder files.now) path.entry.now) }
    ensures fits { IfOk result (λ is. length (s.key_of path.entry.now (settled_in is)) ≤ length path.entry.now) }
{
    if is_kept_name(path) {
        return Ok(Settled::Refused(Unedited::Kept));
    }
    let folder = folder_of(path);
    if is_named(alloc, path, folder, "BUILD.bazel")? {
        return Ok(Settled::Package(folder));
    }
    if is_named(alloc, path, folder, "BUILD")? {
        return settle_second(alloc, files, folder);
    }
    if ends_in(path, ".bzl") {
        return Ok(Settled::Refused(Unedited::Bzl));
    }
    Ok(Settled::File(path))
}

/// What the path before a target's colon means, as the folder is. Nothing is read. The error: memory was refused.
pub(crate) fn settle<'a, F: Files>(
    alloc: Global,
    files: &F,
    path: &'a str,
) -> Result<Settled<'a>, Memory>
    ensures means { F.honest files.now ≡ true → IfOk result (λ is. settled_in is ≡ s.settled (F.folder files.now) path.entry.now) }
    ensures fits { IfOk result (λ is. length (s.key_of path.entry.now (settled_in is)) ≤ length path.entry.now) }
{
    if is_file(alloc, files, path)? {
        return settle_file(alloc, files, path);
    }
    Ok(Settled::Package(path))
}
