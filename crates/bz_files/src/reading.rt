//! How files of the system are read.
ghost use Rattle.std.specs.Prelude.{◌≡◌, ◌++◌, take, IfSome, OnOk, OnErr};
ghost use Rattle.std.specs.Io.{StartsWith};

use crate::{FileKind, FileStamp};
use std::alloc::Global;
use std::fs::File;
use std::io::{ErrorKind, Read};
use std::{fs, io};

/// Opens what has a name, if it is of this kind. A pipe or a device is no regular file and isn't opened as one, since that may wait, or do
/// something: so it is looked at before. One that takes the name in between is opened, since no call opens without waiting; it is looked
/// at again, and not read.
pub(crate) fn open_kind<R: std::rt::Files<File = File>>(
    system: &R,
    name: &str,
    kind: FileKind,
) -> io::Result<File> {
    if kind == FileKind::Any {
        return fs::open(system, name);
    }
    if fs::metadata(system, name)?.is_file() {
        let file = fs::open(system, name)?;
        if file.metadata()?.is_file() {
            return Ok(file);
        }
    }
    Err(io::Error::from(ErrorKind::InvalidInput))
}

/// Adds the first bytes that a reader has left: all, or `most` of them where it has more; at an error nothing. No others are requested of it.
pub(crate) fn read_first<F: Read + Drop>(file: F, most: usize, into: &mut Vec<u8>) -> io::Result<()>
    ensures found { OnOk result (IfSome (F.remaining file) (λ bytes. into.new.items ≡ into.old.items ++ take most bytes)) }
    ensures ok { OnOk result (StartsWith into.new.items into.old.items) }
    ensures err { OnErr result (into.new.items ≡ into.old.items) }
{
    let start = into.len();
    match file.take(most as u64).read_to_end(into) {
        Ok(_) => Ok(()),
        Err(error) => {
            into.truncate(start);
            Err(error)
        }
    }
}

/// The stamp of the regular file that has a name, where it has these bytes, and after they were read the same stamp as before. All that is
/// owned on the way ends here, and not in a method whose clauses would be proved at each such end.
pub(crate) fn read_again<R: std::rt::Files<File = File>>(
    alloc: Global,
    system: &R,
    name: &str,
    held: &[u8],
) -> io::Result<Option<FileStamp>> {
    let file = open_kind(system, name, FileKind::Regular)?;
    let first = FileStamp::of(&file.metadata()?);
    let mut bytes = Vec::new(alloc);

    // Of a longer file no more is read than the byte that shows it.
    file.take(held.len() as u64 + 1).read_to_end(&mut bytes)?;
    let seen = FileStamp::of(&fs::metadata(system, name)?);
    Ok((bytes.as_slice() == held && seen == first).then_some(seen))
}
