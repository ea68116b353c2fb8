//! The packages of a run, each found by its path in one step.
ghost use Rattle.std.specs.Prelude.{◌≡◌, ◌≢◌, ◌≤◌, ◌<◌, ℕ, [], ◌∷◌, ◌++◌, List, Option, map, length, true, false, Some, None, IsSome, IfSome, OnOk, OnErr, IfOk};
ghost use Rattle.std.specs.Option.{option_map};
ghost use Rattle.bz_buildozer.specs.Words.{Rises, Counts, action_in, IsWriteOrOpen};
ghost use Rattle.bz_buildozer.specs.Calls.{AreCutOver, IsLeft, MayRun, ReadsNothing, ReportsLines, UsesSome, world_with};
ghost use Rattle.bz_buildozer.specs.Run.{Uses};
ghost use Rattle.bz_buildozer.specs.Steps.{input_package};
ghost use Rattle.bz_buildozer.specs.private.ShownFiles.{opened_in, used_in};
ghost use Rattle.bz_buildozer.specs.Keeps.{KeepsAt, KeepsFolder, ReadsFiles};
ghost use Rattle.bz_buildozer.specs.Unread.{RunActs, ActsGrow, ActsAreAmong};
ghost use Rattle.bz_buildozer.specs.Found as p;
ghost use Rattle.bz_buildozer.specs.Found.{file_at, package_number, with_opened};

use crate::opening::{open_input, open_settled};
use crate::reading::{Taken, unnamed};
use crate::script::INPUT;
use crate::settling::{key_of, settle};
use crate::step::OneStep;
use crate::used::{Opened, Used, put_file};
use bz_files::Files;
use bz_items::{Memory, Text, at};
use bz_journal::{Action, KeepFault, Reply};
use bz_streams::{Cut, Sink, Source};
use indexmap::IndexSet;
use std::alloc::Global;
use std::marker::Model;

/// What came of opening a package.
#[derive(Clone, Copy)]
pub(crate) struct Opening {
    /// The number of the package, where its file is open.
    pub(crate) place: Option<usize>,
    /// The first failure, or that there was none.
    pub(crate) cut: Cut,
}

// Whether a package is standard input: no journals are kept, and it has that path.
fn reads_input(journals: bool, package: &str) -> bool
    ensures yes { result ≡ true → (journals ≡ false) × («package».now ≡ input_package) }
    ensures other { result ≡ false → journals ≡ false → «package».now ≡ input_package → ⊥ }
{
    !journals && package == INPUT
}

/// The packages that a run has used, in order of first use, each found by its path in one step.
pub(crate) struct Workspace {
    names: IndexSet<Vec<u8>>,
    used: Vec<Used>,
}

impl Drop for Workspace {
    fn drop(self) {
        let Workspace { names: _, used: _ } = self;
    }
}

impl Model for Workspace {
    ghost use Rattle.std.specs.Prelude.{◌≡◌, List, map};
    ghost use Rattle.bz_buildozer.specs.Unread.{RunActs, ActsGrow, ActsAreAmong};
    ghost use Rattle.bz_buildozer.specs.Found as p;
    ghost use Rattle.bz_buildozer.specs.private.ShownFiles.{texts_of_keys, packages_of, used_in};

    ghost Value = { List p.Used };

    ghost view = { λ workspace. map used_in workspace.used.items };

    ghost invariant = { λ workspace. texts_of_keys workspace.names.keys ≡ packages_of (map used_in workspace.used.items) };
}

impl Workspace {
    /// No packages.
    pub(crate) fn new(alloc: Global) -> Workspace
        ensures { result ≡ [] }
    {
        Workspace {
            names: IndexSet::new(alloc),
            used: Vec::new(alloc),
        }
    }

    // The number of a package, from 0; `None` where it was not used. It takes one step however many there are.
    fn place(&self, package: &[u8]) -> Option<usize>
        ensures { result ≡ package_number «package».now self.now }
    {
        self.names.get_index_of(package)
    }

    // The package, which was not used before, is the last one from now on, with no file. Returned: its number. The error:
    // memory was refused, and all is as before.
    fn add(&mut self, package: &[u8]) -> Result<usize, Memory>
        requires { package_number «package».now self.old ≡ None }
        ensures place { IfOk result (λ place. place ≡ length self.old) }
        ensures ok { OnOk result (self.new ≡ self.old ++ record { «package» = «package».now; file = None } ∷ []) }
        ensures err { OnErr result (self.new ≡ self.old) }
    {
        let place = self.used.len();
        let alloc = *self.used.allocator();
        let key = Vec::from_slice(alloc, package)?;
        let package = Text::from_slice(alloc, package)?;
        self.used.reserve(1)?;
        self.names.insert(key)?;
        let used = Used {
            package,
            file: None,
        };
        self.used.push(used).unwrap();
        Ok(place)
    }

    // The number of a package, where its file is open.
    fn opened_at(&self, place: usize) -> Option<usize>
        ensures at { result ≡ option_map (λ _. place) (file_at place self.now) }
        ensures there { IfSome result (λ at. IsSome (file_at at self.now)) }
    {
        match at(&self.used, place) {
            Some(used) if used.file.is_some() => Some(place),
            Some(_) => None,
            None => None,
        }
    }

    // The package with this number has this file from now on, or none. Returned: its number, where it has one.
    fn put(&mut self, place: usize, file: Option<Opened>) -> Option<usize>
        requires { place < length self.old }
        ensures put { self.new ≡ with_opened place (option_map opened_in file) self.old }
        ensures place { result ≡ option_map (λ _. place) (option_map opened_in file) }
        ensures there { IfSome result (λ at. IsSome (file_at at self.new)) }
    {
        put_file(&mut self.used, place, file);
        self.opened_at(place)
    }

    // What a path means that isn't known yet, and isn't standard input: the package or the file is used again, or is read as `open_settled` says.
    fn open_file<F: Files, E: Sink>(
        &mut self,
        path: &str,
        journals: bool,
        files: &mut F,
        err: &mut E,
    ) -> Opening
        requires fits { length path.now ≤ 65536 }
        requires new { package_number path.now self.old ≡ None }
        requires other { journals ≡ false → path.now ≡ input_package → ⊥ }
        ensures uses { F.honest files.old ≡ true → (known : Option (List ℕ)) (acts : RunActs) (remaining : Option (List ℕ))
            → IsLeft known self.old remaining → ActsAreAmong (F.acts files.old) (F.acts files.new) acts → (lines : List (List ℕ))
            × Uses result.cut journals (world_with F.Files files.old known acts) path.now self.old result.place lines self.new
            × IsLeft known self.new remaining × ReportsLines E.Sink err.old err.new lines }
        ensures some { journals ≡ true → F.honest files.old ≡ true → UsesSome (F.folder files.old) path.now result.place self.old self.new }
        ensures there { IfSome result.place (λ at. IsSome (file_at at self.new)) }
        ensures files { ReadsFiles F.Files result.cut files.old files.new }
        ensures grows { ActsGrow (F.acts files.old) (F.acts files.new) }
    {
        let alloc = *self.used.allocator();
        let Ok(settled) = settle(alloc, files, path) else {
            return Opening {
                place: None,
                cut: unnamed(err, path).cut,
            };
        };
        let key = key_of(path, settled);
        if let Some(place) = self.place(key.as_bytes()) {
            let place = self.opened_at(place);
            return Opening {
                place,
                cut: Cut::Whole,
            };
        }
        let Ok(place) = self.add(key.as_bytes()) else {
            return Opening {
                place: None,
                cut: unnamed(err, path).cut,
            };
        };
        let Taken { file, cut } = open_settled(alloc, path, settled, journals, files, err);
        let place = self.put(place, file);
        Opening { place, cut }
    }

    /// What the path before a target's colon means: what was used is not read again; else it is read as `open_settled` says, or as `open_input`
    /// where it is standard input and no journals are kept, and it is a used one from then on, whatever comes. Where there is no file, that
    /// was reported at its first use. Where memory was refused for the package itself, that is reported.
    pub(crate) fn open<R: Source, F: Files, E: Sink>(
        &mut self,
        package: &str,
        journals: bool,
        input: &mut R,
        files: &mut F,
        err: &mut E,
    ) -> Opening
        requires { length «package».now ≤ 65536 }
        ensures uses { MayRun journals (F.honest files.old) («package».now ≡ input_package) → (known : Option (List ℕ)) (acts : RunActs)
            → IsLeft known self.old (R.remaining input.old) → ActsAreAmong (F.acts files.old) (F.acts files.new) acts → (lines : List (List ℕ))
            × Uses result.cut journals (world_with F.Files files.old known acts) «package».now self.old result.place lines self.new
            × IsLeft known self.new (R.remaining input.new) × ReportsLines E.Sink err.old err.new lines }
        ensures some { journals ≡ true → F.honest files.old ≡ true → UsesSome (F.folder files.old) «package».now result.place self.old self.new }
        ensures time { journals ≡ true → F.honest files.old ≡ true → KeepsFolder F.Files files.old files.new }
        ensures there { IfSome result.place (λ at. IsSome (file_at at self.new)) }
        ensures folder { MayRun journals (F.honest files.old) («package».now ≡ input_package) → F.folder files.new ≡ F.folder files.old }
        ensures unread { journals ≡ true → ReadsNothing R.Source result.cut input.old input.new }
        ensures works { R.sound input.old ≡ true → result.cut ≢ Cut.Read }
        ensures sound { R.sound input.new ≡ R.sound input.old }
        ensures cut { AreCutOver R.Source F.Files result.cut input.old input.new files.old files.new }
        ensures read_faults { Counts (R.faults input.old) (R.faults input.new) }
        ensures counts { Counts (F.faults files.old) (F.faults files.new) }
        ensures grows { ActsGrow (F.acts files.old) (F.acts files.new) }
        ensures honest { F.honest files.new ≡ F.honest files.old }
    {
        if let Some(place) = self.place(package.as_bytes()) {
            return Opening {
                place: self.opened_at(place),
                cut: Cut::Whole,
            };
        }
        if !reads_input(journals, package) {
            return self.open_file(package, journals, files, err);
        }
        let Ok(place) = self.add(package.as_bytes()) else {
            return Opening {
                place: None,
                cut: unnamed(err, package).cut,
            };
        };
        let alloc = *self.used.allocator();
        let Taken { file, cut } = open_input(alloc, input, err);
        let place = self.put(place, file);
        Opening { place, cut }
    }

    /// Does an action with a note in the open file of the package with this number, as the only one of a run of one step, or as one of more.
    /// Where journals are kept and the text is another one then, the file's journal and it are
    /// replaced. Errors: those of `Session::act_noted`, and of `Session::keep_noted` where journals are kept.
    pub(crate) fn act<F: Files>(
        &mut self,
        journals: bool,
        place: usize,
        action: &Action<'_>,
        note: &str,
        once: OneStep,
        files: &mut F,
    ) -> Result<Reply, KeepFault>
        requires { IsSome (file_at place self.old) }
        ensures acts { KeepsAt journals F.Files place (action_in action.now) note.now self.old result self.new files.old files.new }
        ensures cause { IsWriteOrOpen result → Rises (F.faults files.old) (F.faults files.new) }
        ensures rest { (IsWriteOrOpen result → ⊥) → F.faults files.new ≡ F.faults files.old }
        ensures count { F.faults files.old ≤ F.faults files.new }
        ensures grows { ActsGrow (F.acts files.old) (F.acts files.new) }
        ensures honest { F.honest files.new ≡ F.honest files.old }
    {
        match &mut self.used[place].file {
            Some(opened) => opened.act(journals, action, note, once, files),
            None => unreachable!(),
        }
    }

    /// The packages that were used, in order of first use.
    pub(crate) fn used(&self) -> &[Used]
        ensures { map used_in result.now ≡ self.now }
    {
        self.used.as_slice()
    }
}
