//! Files in memory, which can be made to fail.
ghost use Rattle.std.specs.List.{list_any};
ghost use Rattle.std.specs.Str.{bytes_eq};
ghost use Rattle.std.specs.Prelude.{◌≢◌, ◌⊎◌, ◌↔◌, ℕ, false, IsTrue, IfSome, IsSome, ◌≡◌, ◌≤◌, ◌<◌, ◌+◌, ◌-◌, ◌^◌, [], ◌∷◌, ◌++◌, true, length, take, map, option_map, Some, None, OnOk, OnErr, IfOk, string_bytes};
ghost use Rattle.std.specs.FinMap.{empty, get};
ghost use Rattle.bz_files.specs.Faults.{Rises};
ghost use Rattle.bz_files.specs.Folder.{with_file, folder_of};
ghost use Rattle.bz_files.specs.Log.{folder_after, shown_entry, StoodSince, stands_now, only_stands, folder_in, plan_in, waiting_in, moments_in, folder_then};
ghost use Rattle.bz_files.specs.Failing.{no_plan, IsNextCall, IsToFail, IsToFailAfter, IsUnreadable};

use crate::{FileFault, FileKind, FileStamp, Files};
use std::alloc::{AllocError, Global};

// A file that was written.
struct Entry {
    name: String,
    bytes: Vec<u8>,
}

impl Drop for Entry {
    fn drop(self) {
        let Entry { name: _, bytes: _ } = self;
    }
}

/// Files in memory, which keep each write, and whose calls can be made to fail. A new file is no part of the folder until it takes
/// its place.
#[derive(Drop)]
pub struct MemoryFiles {
    alloc: Global,
    log: Vec<Entry>,
    // the new files that wait, the newest last
    waiting: Vec<Entry>,
    unreadable: Vec<String>,
    calls: u64,
    fails_at: Option<u64>,
    fails_after: Option<u64>,
    stops_at: Option<u64>,
    faults: u64,
}

fn found<'a>(log: &'a [Entry], name: &str) -> Option<&'a [u8]>
    ensures { option_map (λ bytes. bytes.now) result ≡ get (folder_after log.now) name.now }
{
    let mut bytes: Option<&[u8]> = None;
    for entry in log {
        if name == entry.name.as_str() {
            bytes = Some(entry.bytes.as_slice());
        }
    }
    bytes
}

// The first items of a list, or all where it has fewer.
fn first_of<T>(items: &[T], count: usize) -> &[T]
    ensures { result.now ≡ take count items.now }
{
    items.get(..count).unwrap_or(items)
}

fn new_entry(alloc: Global, name: &str, bytes: &[u8]) -> Result<Entry, AllocError>
    ensures { IfOk result (λ entry. (string_bytes entry.name ≡ name.now) × (entry.bytes.items ≡ bytes.now)) }
{
    let name = String::from_str(alloc, name)?;
    let bytes = Vec::from_slice(alloc, bytes)?;
    Ok(Entry { name, bytes })
}

// One more, up to the greatest number.
pub(crate) fn one_more(count: u64) -> u64
    ensures rises { Rises count result }
    ensures least { count ≤ result }
    ensures next { count < 2 ^ 64 - 1 → result ≡ count + 1 }
{
    count.saturating_add(1)
}

impl MemoryFiles {
    /// No files, and no call that fails.
    pub fn new(alloc: Global) -> MemoryFiles
        ensures held { folder_in result ≡ empty }
        ensures plan { plan_in result ≡ no_plan }
        ensures fresh { (result.faults ≡ 0) × (waiting_in result ≡ []) }
    {
        MemoryFiles {
            alloc,
            log: Vec::new(alloc),
            waiting: Vec::new(alloc),
            unreadable: Vec::new(alloc),
            calls: 0,
            fails_at: None,
            fails_after: None,
            stops_at: None,
            faults: 0,
        }
    }

    /// These files by their names, the last of each name, and no call that fails. The error: memory was refused.
    pub fn of(alloc: Global, files: &[(&str, &[u8])]) -> Result<MemoryFiles, AllocError>
        ensures held { IfOk result (λ made. folder_in made ≡ folder_of (map (λ file. (file.0.now, file.1.now)) files.now)) }
        ensures plan { IfOk result (λ made. plan_in made ≡ no_plan) }
        ensures fresh { IfOk result (λ made. (made.faults ≡ 0) × (waiting_in made ≡ [])) }
    {
        let mut made = MemoryFiles::new(alloc);
        for &(name, bytes) in files {
            made.log.push(new_entry(alloc, name, bytes)?)?;
        }
        Ok(made)
    }

    /// Makes the k-th call from now on fail, counted from 1.
    pub fn fail_at(&mut self, k: u64)
        ensures { self.new ≡ record self.old { calls = 0; fails_at = Some k } }
    {
        self.calls = 0;
        self.fails_at = Some(k);
    }

    /// Makes the k-th call from now on, counted from 1, answer `Write` where it is a `take_place`, but only when the file is
    /// replaced. Every other one goes on.
    pub fn fail_after(&mut self, k: u64)
        ensures { self.new ≡ record self.old { calls = 0; fails_after = Some k } }
    {
        self.calls = 0;
        self.fails_after = Some(k);
    }

    /// Makes each call from the k-th from now on fail, counted from 1.
    pub fn stop_at(&mut self, k: u64)
        ensures { self.new ≡ record self.old { calls = 0; stops_at = Some k } }
    {
        self.calls = 0;
        self.stops_at = Some(k);
    }

    /// Makes each read of this name answer `Open`, and each look at it `Write`. The error: memory was refused, and nothing has changed.
    pub fn refuse(&mut self, name: &str) -> Result<(), AllocError>
        ensures same { self.new ≡ record self.old { unreadable = self.new.unreadable } }
        ensures ok { OnOk result (plan_in self.new ≡ record (plan_in self.old) { unreadable = (plan_in self.old).unreadable ++ name.now ∷ [] }) }
        ensures err { OnErr result (plan_in self.new ≡ plan_in self.old) }
    {
        let name = String::from_str(self.alloc, name)?;
        self.unreadable.push(name)?;
        Ok(())
    }

    /// The bytes of a file, where there is one.
    pub fn bytes_at(&self, name: &str) -> Option<&[u8]>
        ensures { option_map (λ bytes. bytes.now) result ≡ get (folder_in self.now) name.now }
    {
        found(&self.log, name)
    }

    /// How many moments there were before this one: how many files were written.
    pub fn moments(&self) -> usize
        ensures { result ≡ moments_in self.now }
    {
        self.log.len()
    }

    /// The bytes of a file at a moment, where there was one; at a moment that is still to come those of now.
    pub fn bytes_then(&self, moment: usize, name: &str) -> Option<&[u8]>
        ensures { option_map (λ bytes. bytes.now) result ≡ get (folder_then self.now moment) name.now }
    {
        found(first_of(&self.log, moment), name)
    }

    fn is_unreadable(&self, name: &str) -> bool
        ensures { result ≡ list_any (λ other. bytes_eq (string_bytes other) name.now) self.now.unreadable.items }
    {
        self.unreadable.iter().any(|other| other.as_str() == name)
    }

    // Whether a read of this name is to fail.
    fn refuses(&self, name: &str) -> bool
        ensures { IsTrue result ↔ IsUnreadable name.now (plan_in self.now) }
    {
        self.is_unreadable(name)
    }

    // A failure is counted.
    fn failed(&mut self, fault: FileFault) -> FileFault
        ensures same { self.new ≡ record self.old { faults = self.new.faults } }
        ensures fault { result ≡ fault }
        ensures rises { Rises self.old.faults self.new.faults }
        ensures count { self.old.faults ≤ self.new.faults }
    {
        self.faults = one_more(self.faults);
        fault
    }

    // The next call is counted. Whether it may go on.
    fn goes_on(&mut self) -> bool
        ensures same { self.new ≡ record self.old { calls = self.new.calls } }
        ensures next { IsNextCall (plan_in self.old) (plan_in self.new) }
        ensures goes { IsTrue result → IsToFail (plan_in self.new) → ⊥ }
        ensures fails { (IsTrue result → ⊥) → IsToFail (plan_in self.new) }
    {
        self.calls = one_more(self.calls);
        let fails = self.fails_at == Some(self.calls);
        let stops = self.stops_at.is_some_and(|k| k <= self.calls);
        !fails && !stops
    }

    // The next call is counted, which reads this file. Whether it may go on.
    fn reads(&mut self, name: &str) -> bool
        ensures same { self.new ≡ record self.old { calls = self.new.calls } }
        ensures next { IsNextCall (plan_in self.old) (plan_in self.new) }
        ensures goes { IsTrue result → (IsToFail (plan_in self.new)) ⊎ IsUnreadable name.now (plan_in self.new) → ⊥ }
        ensures fails { (IsTrue result → ⊥) → (IsToFail (plan_in self.new)) ⊎ IsUnreadable name.now (plan_in self.new) }
    {
        self.goes_on() && !self.refuses(name)
    }

    // Whether the call that was counted last is one that fails when its work is done.
    fn fails_now(&self) -> bool
        ensures { IsTrue result ↔ IsToFailAfter (plan_in self.now) }
    {
        self.fails_after == Some(self.calls)
    }

    // Whether there is a file that holds these bytes.
    fn contains(&self, name: &str, held: &[u8]) -> bool
        ensures { IsTrue result ↔ (get (folder_in self.now) name.now ≡ Some held.now) }
    {
        self.bytes_at(name) == Some(held)
    }

    // One new file more.
    fn make(&mut self, name: &str, bytes: &[u8]) -> Result<(), AllocError>
        ensures same { self.new ≡ record self.old { waiting = self.new.waiting } }
        ensures ok { OnOk result (waiting_in self.new ≡ waiting_in self.old ++ (name.now, bytes.now) ∷ []) }
        ensures err { OnErr result (waiting_in self.new ≡ waiting_in self.old) }
    {
        self.waiting.push(new_entry(self.alloc, name, bytes)?)?;
        Ok(())
    }
}

impl Files for MemoryFiles {
    ghost folder = { λ m. folder_after m.log.items };

    ghost moment = { λ m. length m.log.items };

    ghost since = { λ m t now. StoodSince m.log.items t now };

    ghost faults = { λ m. m.faults };

    ghost waiting = { λ m. map shown_entry m.waiting.items };

    ghost acts = { λ _. None };

    ghost plan = { λ m. Some (plan_in m) };

    ghost honest = { λ _. true };

    ghost counts_now = { λ m t le. stands_now m.log.items t le };

    ghost only_now = { λ m now stood. only_stands m.log.items now stood };

    fn read_most(
        &mut self,
        name: &str,
        _kind: FileKind,
        most: usize,
        into: &mut Vec<u8>,
    ) -> Result<(), FileFault> {
        if !self.reads(name) {
            return Err(self.failed(FileFault::Open));
        }
        match self.bytes_at(name) {
            None => Err(FileFault::Absent),
            Some(bytes) => match into.extend_from_slice(first_of(bytes, most)) {
                Ok(()) => Ok(()),
                Err(_) => Err(FileFault::Memory),
            },
        }
    }

    fn has_file(&self, name: &str) -> bool {
        self.bytes_at(name).is_some()
    }

    fn look(
        &mut self,
        name: &str,
        held: &[u8],
        _before: Option<FileStamp>,
    ) -> Result<FileStamp, FileFault> {
        let can_read = self.reads(name);
        if !can_read {
            return Err(self.failed(FileFault::Write));
        }
        if !self.contains(name, held) {
            return Err(self.failed(FileFault::Write));
        }
        Ok(FileStamp::default())
    }

    fn create(&mut self, name: &str, bytes: &[u8], _seen: FileStamp) -> Result<(), FileFault> {
        if !self.goes_on() {
            return Err(self.failed(FileFault::Write));
        }
        match self.make(name, bytes) {
            Ok(()) => Ok(()),
            Err(_) => Err(self.failed(FileFault::Memory)),
        }
    }

    fn take_place(&mut self) -> Result<(), FileFault> {
        let newest = self.waiting.pop();
        if !self.goes_on() {
            return Err(self.failed(FileFault::Write));
        }
        let Some(entry) = newest else {
            return Err(self.failed(FileFault::Write));
        };
        if self.log.reserve(1).is_err() {
            return Err(self.failed(FileFault::Memory));
        }
        self.log.push_reserved(entry);
        if self.fails_now() {
            return Err(self.failed(FileFault::Write));
        }
        Ok(())
    }

    fn flush(&mut self, _name: &str) -> Result<(), FileFault> {
        if !self.goes_on() {
            return Err(self.failed(FileFault::Write));
        }
        Ok(())
    }

    fn give_up(&mut self) {
        let _ = self.waiting.pop();
    }
}
