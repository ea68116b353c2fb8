//! New files, which then take the place of others. A run holds the name of one by a lock.
ghost use Rattle.std.specs.Prelude.{◌≡◌, IfOk, string_bytes};
ghost use Rattle.bz_files.specs.Folder.{new_name};

use crate::flushing::unless_missing;
use crate::rights::{Rights, rights_at};
use std::alloc::{AllocError, Global};
use std::fs::{File, Metadata, OpenOptions, TryLockError};
use std::io::{ErrorKind, Write};
use std::os::unix::fs::{MetadataExt, OpenOptionsExt};
use std::{fs, io};

// How often a name is tried that another run takes or gives up meanwhile.
const TRIES: usize = 10;

/// A file that was not there before, and the name of the file whose place it is to take. Nobody else holds its lock as long as it is open,
/// and whoever meets its own name then lets it be.
#[derive(Drop)]
pub(crate) struct Fresh {
    name: String,
    own: String,
    file: File,
    made: Metadata,
}

// The name under which the bytes of a file are written before it is replaced.
fn new_name(alloc: Global, name: &str) -> Result<String, AllocError>
    ensures { IfOk result (λ text. string_bytes text ≡ new_name name.now) }
{
    format!(in alloc; "{name}.bznew")
}

// Whether it is this file that has the name.
fn has_name<R: std::rt::Files<File = File>>(
    system: &R,
    name: &str,
    file: &Metadata,
) -> io::Result<bool> {
    match fs::symlink_metadata(system, name) {
        Ok(named) => Ok(file.dev() == named.dev() && file.ino() == named.ino()),
        Err(error) if error.kind() == ErrorKind::NotFound => Ok(false),
        Err(error) => Err(error),
    }
}

// Removes a file, if it is this one that has the name.
fn remove<R: std::rt::Files<File = File>>(system: &R, name: &str, file: &File) -> io::Result<()> {
    if has_name(system, name, &file.metadata()?)? {
        fs::remove_file(system, name)?;
    }
    Ok(())
}

// Takes the lock of a file, where nobody else holds it. Where the file system has no locks nobody does.
fn takes_lock(file: &File) -> io::Result<bool> {
    match file.try_lock() {
        Ok(()) => Ok(true),
        Err(TryLockError::WouldBlock) => Ok(false),
        Err(TryLockError::Error(error)) if error.kind() == ErrorKind::Unsupported => Ok(true),
        Err(TryLockError::Error(error)) => Err(error),
    }
}

// Whether the lock of a file that was just created could be taken, and the file still has its name: another run may have taken it
// for a left one in between.
fn is_held<R: std::rt::Files<File = File>>(
    system: &R,
    name: &str,
    file: &File,
) -> io::Result<bool> {
    Ok(takes_lock(file)? && has_name(system, name, &file.metadata()?)?)
}

// Opens a file for its lock. Some file systems lock only what may be written; and a pipe doesn't wait then.
fn open_for_lock<R: std::rt::Files<File = File>>(system: &R, name: &str) -> io::Result<File> {
    match OpenOptions::new().read(true).write(true).open(system, name) {
        Err(error) if error.kind() == ErrorKind::PermissionDenied => fs::open(system, name),
        opened => opened,
    }
}

// Removes what has the name of a new file: what is no regular file, as a link; or one that a run has left. The error: it can't be
// removed, or is another run's, which holds its lock.
fn clear<R: std::rt::Files<File = File>>(system: &R, name: &str) -> io::Result<()> {
    if !fs::symlink_metadata(system, name)?.is_file() {
        return fs::remove_file(system, name);
    }
    let file = open_for_lock(system, name)?;
    if takes_lock(&file)? {
        remove(system, name, &file)
    } else {
        Err(io::Error::from(ErrorKind::WouldBlock))
    }
}

// Creates a file of this name that only its owner may read, and takes its lock. What has the name, or had it in between, is cleared, and it
// is tried again. The error: another run holds one of that name, or what is there can't be removed, or it can't be created.
fn create_anew<R: std::rt::Files<File = File>>(system: &R, name: &str) -> io::Result<File> {
    let mut how = OpenOptions::new();
    how.write(true).create_new(true).mode(0o600);
    for _ in 0..TRIES {
        match how.open(system, name) {
            Ok(file) => match is_held(system, name, &file) {
                Ok(true) => return Ok(file),
                Ok(false) => {}
                Err(error) => {
                    let _ = remove(system, name, &file);
                    return Err(error);
                }
            },
            Err(error) if error.kind() == ErrorKind::AlreadyExists => {}
            Err(error) => return Err(error),
        }
        match clear(system, name) {
            Err(error) if error.kind() != ErrorKind::NotFound => return Err(error),
            _ => {}
        }
    }
    Err(io::Error::from(ErrorKind::WouldBlock))
}

// Writes a new file down to the disk. Who may do something with it then is who these rights let, and the file of that name too, where there is one.
fn fill<R: std::rt::Files<File = File>>(
    system: &R,
    name: &str,
    mut file: &File,
    bytes: &[u8],
    rights: Rights,
) -> io::Result<Metadata> {
    file.write_all(bytes)?;
    rights.within(rights_at(system, name)?).give(file)?;
    unless_missing(file.sync_all())?;
    file.metadata()
}

impl Fresh {
    /// Creates the new file of a name, with these bytes, and has others do with it what these rights and those of the file of that name let.
    /// The error: it could not be made, or another run holds it; then none is left.
    pub(crate) fn create<R: std::rt::Files<File = File>>(
        alloc: Global,
        system: &R,
        name: &str,
        bytes: &[u8],
        rights: Rights,
    ) -> io::Result<Fresh> {
        let own = new_name(alloc, name)?;
        let name = String::from_str(alloc, name)?;
        let file = create_anew(system, own.as_str())?;
        match fill(system, name.as_str(), &file, bytes, rights) {
            Ok(made) => Ok(Fresh {
                name,
                own,
                file,
                made,
            }),
            Err(error) => {
                let _ = remove(system, own.as_str(), &file);
                Err(error)
            }
        }
    }

    /// Takes the place of its file. Right before that its own name is still this file's, and right after it this file has the place: so a folder
    /// that is exchanged meanwhile is seen.
    pub(crate) fn take_place<R: std::rt::Files<File = File>>(&self, system: &R) -> io::Result<()> {
        if has_name(system, self.own.as_str(), &self.made)? {
            fs::rename(system, self.own.as_str(), self.name.as_str())?;
            if self.has_place(system) {
                return Ok(());
            }
        }
        Err(io::Error::from(ErrorKind::NotFound))
    }

    // Whether it is this file that was renamed, as far as can be seen: it has the name, or none, where another has taken its place since.
    fn has_place<R: std::rt::Files<File = File>>(&self, system: &R) -> bool {
        let is_there = has_name(system, self.name.as_str(), &self.made);
        is_there.unwrap_or(true) || self.file.metadata().map_or(true, |it| it.nlink() == 0)
    }

    /// Removes the file, if it still has its own name.
    pub(crate) fn remove<R: std::rt::Files<File = File>>(&self, system: &R) {
        let _ = remove(system, self.own.as_str(), &self.file);
    }
}
