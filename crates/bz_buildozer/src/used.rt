//! The packages that a run has used, and their files.
ghost use Rattle.std.specs.Prelude.{◌≡◌, ◌≤◌, ◌<◌, map, length, string_bytes, true, false, IfErr};
ghost use Rattle.std.specs.Option.{option_map};
ghost use Rattle.bz_buildozer.specs.Words.{past_history, IsRefused, IsWriteOrOpen};
ghost use Rattle.bz_files.specs.Faults.{Rises};
ghost use Rattle.bz_buildozer.specs.Keeps.{file_left};
ghost use Rattle.bz_buildozer.specs.Sessions.{History, Keeps, KeepsFile, action_in};
ghost use Rattle.bz_buildozer.specs.Found.{opened_with, with_opened};
ghost use Rattle.bz_buildozer.specs.Unread.{ActsGrow};
ghost use Rattle.bz_buildozer.specs.private.ShownFiles.{IsCourse, opened_in, used_in};

use crate::step::OneStep;
use bz_files::Files;
use bz_items::Text;
use bz_journal::{Action, KeepFault, Past, Reply};

/// A file that is open.
pub(crate) struct Opened {
    /// The path of the file below the current folder.
    pub(crate) name: String,
    /// The text that was read.
    pub(crate) read: Text,
    /// What became of it: its texts so far.
    pub(crate) past: Past,
    /// Whether its journal and it were written in this run.
    pub(crate) written: bool,
    /// Whether it is left alone: the two could not both be written.
    pub(crate) left: bool,
}

impl Drop for Opened {
    fn drop(self) {
        let Opened {
            name: _,
            read: _,
            past: _,
            written: _,
            left: _,
        } = self;
    }
}

impl Opened {
    /// A file of this name as it was read, with its texts so far.
    pub(crate) fn new(name: String, read: Text, past: Past) -> Opened
        ensures { opened_in result ≡ opened_with (string_bytes name) read (past_history past) }
    {
        Opened {
            name,
            read,
            past,
            written: false,
            left: false,
        }
    }

    /// Does an action with a note, of a run of one step or of more: where it is the only one less is kept of the file, and what it does is
    /// the same. Where journals are kept, the journal and the file are, and what became of the two is marked.
    pub(crate) fn act<F: Files>(
        &mut self,
        journals: bool,
        action: &Action<'_>,
        note: &str,
        once: OneStep,
        files: &mut F,
    ) -> Result<Reply, KeepFault>
        ensures acts { (history : History) × Keeps (action_in action.now) note.now (opened_in self.old).history result history
            × (opened_in self.new ≡ file_left journals result history (opened_in self.old))
            × (journals ≡ true → KeepsFile F.Files (opened_in self.old).name (opened_in self.old).history history result files.old files.new)
            × (journals ≡ false → (files.new ≡ files.old) × IfErr result IsRefused) }
        ensures course { once.holds ≡ false → IsCourse self.old.past → IsCourse self.new.past }
        ensures cause { IsWriteOrOpen result → Rises (F.faults files.old) (F.faults files.new) }
        ensures rest { (IsWriteOrOpen result → ⊥) → F.faults files.new ≡ F.faults files.old }
        ensures count { F.faults files.old ≤ F.faults files.new }
        ensures grows { ActsGrow (F.acts files.old) (F.acts files.new) }
        ensures honest { F.honest files.new ≡ F.honest files.old }
    {
        if !journals {
            return match self.past.act_noted(action, note, once.holds()) {
                Ok(reply) => Ok(reply),
                Err(refusal) => Err(KeepFault::Refused(refusal)),
            };
        }
        let from = self.past.cursor();
        match self
            .past
            .keep_noted(action, note, self.name.as_str(), files)
        {
            Ok(reply) => {
                self.written |= self.past.cursor() != from;
                Ok(reply)
            }
            Err(KeepFault::Refused(refusal)) => Err(KeepFault::Refused(refusal)),
            Err(KeepFault::Pair(fault)) => {
                self.left = true;
                Err(KeepFault::Pair(fault))
            }
        }
    }
}

/// A package that a run has used.
pub(crate) struct Used {
    /// The path of the package.
    pub(crate) package: Text,
    /// Its file; none where it could not be opened.
    pub(crate) file: Option<Opened>,
}

impl Drop for Used {
    fn drop(self) {
        let Used {
            package: _,
            file: _,
        } = self;
    }
}

/// The package with this number has this file from now on.
pub(crate) fn put_file(used: &mut Vec<Used>, place: usize, file: Option<Opened>)
    requires { place < length used.old.items }
    ensures { map used_in used.new.items ≡ with_opened place (option_map opened_in file) (map used_in used.old.items) }
{
    used[place].file = file;
}
