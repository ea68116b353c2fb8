//! How files are replaced: one whole, or a journal and then its file, over the calls of `Files` alone.
ghost use Rattle.std.specs.Prelude.{◌≡◌, Some, true, OnOk};
ghost use Rattle.std.specs.FinMap.{get};
ghost use Rattle.bz_files.specs.Folder.{IsReplaced, IsReplacing};
ghost use Rattle.bz_files.specs.Orders.{KeepsOrder, WasSeen, place_acts, journal_acts, rewrite_acts, pair_acts};
ghost use Rattle.bz_files.specs.declared.stamp.FileStamp.{FileStamp};
ghost use Rattle.bz_files.specs.Pair.{PutsFiles, PutsNewest, AreReplaced, IsChecking, RewritesHeld};

use crate::{FileFault, FileStamp, Files};

// A file that was looked at: its name, the bytes that it holds, and what else was seen of it.
#[derive(Clone, Copy)]
struct Seen<'a> {
    file: &'a str,
    held: &'a [u8],
    stamp: FileStamp,
}

// The newest of the new files that wait takes the place of its file, where the file that was looked at is still as it was seen. In any
// case it waits no more.
fn place<F: Files>(files: &mut F, seen: Seen<'_>) -> Result<(), FileFault>
    requires { WasSeen seen.file.now seen.held.now seen.stamp (F.acts files.old) }
    ensures there { F.honest files.old ≡ true → OnOk result (get (F.folder files.old) seen.entry.file.now ≡ Some seen.entry.held.now) }
    ensures acts { PutsNewest F.Files IsReplacing IsReplaced result files.old files.new }
    ensures ordered { KeepsOrder (place_acts seen.entry.file.now seen.entry.held.now seen.entry.stamp) result (F.acts files.old) (F.acts files.new) }
{
    match files.look(seen.file, seen.held, Some(seen.stamp)) {
        Ok(_) => files.take_place(),
        Err(fault) => {
            files.give_up();
            Err(fault)
        }
    }
}

// Gives the journal of a file its bytes, where the file is still as it was seen. What had taken its place in that folder before lasts before
// the journal does, and the journal when this ends.
fn put_journal<F: Files>(
    files: &mut F,
    journal: &str,
    stored: &[u8],
    seen: Seen<'_>,
) -> Result<(), FileFault>
    requires { WasSeen seen.file.now seen.held.now seen.stamp (F.acts files.old) }
    ensures acts { PutsFiles F.Files (IsReplacing journal.now stored.now) (IsReplaced journal.now stored.now) result files.old files.new }
    ensures ordered { KeepsOrder (journal_acts journal.now stored.now seen.entry.file.now seen.entry.held.now seen.entry.stamp) result
        (F.acts files.old) (F.acts files.new) }
{
    files.flush(seen.file)?;
    files.create(journal, stored, seen.stamp)?;
    place(files, seen)?;
    files.flush(seen.file)
}

/// Gives a file that still holds `held` these bytes, whole or not at all: it is looked at before anything is made, and right before it is
/// replaced. After an `Err` it may be either; where it holds something else, or is not there, nothing is written. Errors: `Write`: it holds
/// something else, is not there, or could not be read or written; `Memory`: a growth was refused. Each is counted.
pub fn rewrite<F: Files>(
    files: &mut F,
    name: &str,
    held: &[u8],
    bytes: &[u8],
) -> Result<(), FileFault>
    ensures rewrites { RewritesHeld F.Files name.now held.now (IsReplacing name.now bytes.now) (IsReplaced name.now bytes.now) result files.old files.new }
    ensures ordered { (stamp : FileStamp) × KeepsOrder (rewrite_acts name.now held.now bytes.now stamp) result (F.acts files.old) (F.acts files.new) }
{
    let stamp = files.look(name, held, None)?;
    files.create(name, bytes, stamp)?;
    let file = name;
    place(files, Seen { file, held, stamp })
}

/// Gives a journal the bytes `stored`, and then its file, which still holds `held`, the bytes `text`, each whole or not at
/// all: the file is looked at before anything is made, and right before each of both is replaced. At each moment both are as before, the journal alone is new,
/// or both are; where the file holds something else, or is not there, nothing is written. The journal lasts before the file is replaced.
/// Errors: `Write`: it holds something else, is not there, could not be read, or one of the two could not be written; `Memory`: a
/// growth was refused. Each is counted.
pub fn rewrite_pair<F: Files>(
    files: &mut F,
    journal: &str,
    stored: &[u8],
    file: &str,
    held: &[u8],
    text: &[u8],
) -> Result<(), FileFault>
    ensures rewrites { RewritesHeld F.Files file.now held.now (IsChecking held.now journal.now stored.now file.now text.now)
        (AreReplaced journal.now stored.now file.now text.now) result files.old files.new }
    ensures ordered { (stamp : FileStamp)
        × KeepsOrder (pair_acts journal.now stored.now file.now held.now text.now stamp) result (F.acts files.old) (F.acts files.new) }
{
    let stamp = files.look(file, held, None)?;
    files.create(file, text, stamp)?;
    let seen = Seen { file, held, stamp };
    match put_journal(files, journal, stored, seen) {
        Ok(()) => place(files, seen),
        Err(fault) => {
            files.give_up();
            Err(fault)
        }
    }
}
