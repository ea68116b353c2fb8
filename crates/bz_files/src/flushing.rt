//! What makes writes last, also where power is lost.
use std::fs::File;
use std::io::ErrorKind;
use std::{fs, io};

/// How a flush ended. Not every file system has this call, or lets this file be flushed: then nothing more can be done, and that is no
/// failure.
pub(crate) fn unless_missing(ended: io::Result<()>) -> io::Result<()> {
    match ended {
        Err(error)
            if error.kind() == ErrorKind::Unsupported || error.kind() == ErrorKind::InvalidInput =>
            { Ok(()) }
        other => other,
    }
}

// The folder in which a file lies.
fn folder_above(name: &str) -> &str {
    match name.rsplit_once('/') {
        Some(("", _)) => "/",
        Some((folder, _)) => folder,
        None => ".",
    }
}

/// Flushes the names in a file's folder down to the disk. Who may write in a folder may still not open it: that is no failure.
pub(crate) fn flush_folder<R: std::rt::Files<File = File>>(
    system: &R,
    name: &str,
) -> io::Result<()> {
    match fs::open(system, folder_above(name)) {
        Err(error) if error.kind() == ErrorKind::PermissionDenied => Ok(()),
        opened => unless_missing(opened.and_then(|folder| folder.sync_all())),
    }
}
