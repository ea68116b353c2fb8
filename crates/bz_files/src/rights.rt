//! Who may do what with a file.
use std::fs::{File, Metadata, Permissions};
use std::io::ErrorKind;
use std::os::unix::fs::{MetadataExt, PermissionsExt, fchown};
use std::{fs, io};

/// Who owns a file, and what its owner, its group and others may do with it. The bits that give rights to who runs it are left out.
#[derive(Clone, Copy, Default, PartialEq, Eq)]
pub(crate) struct Rights {
    owner: u32,
    group: u32,
    bits: u32,
}

impl Rights {
    pub(crate) fn of(metadata: &Metadata) -> Rights {
        Rights {
            owner: metadata.uid(),
            group: metadata.gid(),
            bits: metadata.mode() & 0o777,
        }
    }

    /// These rights, but for what another file, if there is one, doesn't let do.
    pub(crate) fn within(self, other: Option<Rights>) -> Rights {
        let bits = other.map_or(self.bits, |other| self.bits & other.bits);
        Rights { bits, ..self }
    }

    // What may be done where the group is another one: nothing by that one, and what its members, who are among others then, may do
    // is no more than before.
    fn without_group(self) -> u32 {
        (self.bits & 0o700) | (self.bits & (self.bits >> 3) & 0o007)
    }

    /// Gives a new file these rights, as far as the system lets. Nobody but its owner may do anything with it before.
    pub(crate) fn give(self, file: &File) -> io::Result<()> {
        let made = file.metadata()?;
        let has_group = made.gid() == self.group || fchown(file, None, Some(self.group)).is_ok();
        if made.uid() != self.owner {
            let _ = fchown(file, Some(self.owner), None);
        }
        let bits = if has_group {
            self.bits
        } else {
            self.without_group()
        };
        file.set_permissions(Permissions::from_mode(bits))
    }
}

/// The rights of a regular file, where there is one of that name.
pub(crate) fn rights_at<R: std::rt::Files<File = File>>(
    system: &R,
    name: &str,
) -> io::Result<Option<Rights>> {
    match fs::metadata(system, name) {
        Ok(metadata) if metadata.is_file() => Ok(Some(Rights::of(&metadata))),
        Ok(_) => Err(io::Error::from(ErrorKind::InvalidInput)),
        Err(error) if error.kind() == ErrorKind::NotFound => Ok(None),
        Err(error) => Err(error),
    }
}
