//! What is seen of a file beside its bytes.
use crate::rights::Rights;
use std::fs::Metadata;
use std::os::unix::fs::MetadataExt;

/// Which file has a name, how long it is and of which time, and who may do what with it. A file in memory has the default of all that.
#[derive(Clone, Copy, Default, PartialEq, Eq)]
pub struct FileStamp {
    device: u64,
    number: u64,
    size: u64,
    seconds: i64,
    nanoseconds: i64,
    pub(crate) rights: Rights,
}

impl FileStamp {
    pub(crate) fn of(metadata: &Metadata) -> FileStamp {
        FileStamp {
            device: metadata.dev(),
            number: metadata.ino(),
            size: metadata.size(),
            seconds: metadata.mtime(),
            nanoseconds: metadata.mtime_nsec(),
            rights: Rights::of(metadata),
        }
    }
}
