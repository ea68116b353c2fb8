//! Runs of the programs over readers, writers and files in memory.
use bz_buildifier::{Cut, Exit, MemorySink, MemorySource, buildifier};
use bz_buildozer::buildozer;
use bz_files::MemoryFiles;
use std::alloc::Global;

/// Which program runs.
#[derive(Clone, Copy)]
pub(crate) enum Program {
    Buildozer,
    Buildifier,
}

/// How many bytes the reader gives and the writers take at a time, and which call of each fails, from 1; at 0 none does.
#[derive(Clone, Copy)]
pub(crate) struct Devices {
    pub(crate) step: usize,
    pub(crate) read: u64,
    pub(crate) write: u64,
    pub(crate) error: u64,
}

/// Devices that never fail.
pub(crate) const SOUND: Devices = Devices {
    step: 4096,
    read: 0,
    write: 0,
    error: 0,
};

/// The same, a byte at a time.
pub(crate) const BYTEWISE: Devices = Devices { step: 1, ..SOUND };

/// What a run leaves.
#[derive(Drop)]
pub(crate) struct Left {
    exit: Exit,
    out: MemorySink,
    err: MemorySink,
}

impl Left {
    /// Whether the run ended so.
    pub(crate) fn ended(&self, cut: Cut, status: u8) -> bool {
        self.exit == Exit { status, cut }
    }

    /// Whether the run ended so, with this on standard output.
    pub(crate) fn is(&self, cut: Cut, status: u8, output: &[u8]) -> bool {
        self.ended(cut, status) && self.out.bytes() == output
    }

    /// What is on standard error.
    pub(crate) fn errors(&self) -> &[u8] {
        self.err.bytes()
    }
}

/// A run of a program. The tests call this in place of the engines, whose clauses would go with each line after the call.
pub(crate) fn run(
    alloc: Global,
    program: Program,
    words: &[&str],
    input: &[u8],
    devices: Devices,
    files: &mut MemoryFiles,
) -> Left {
    let mut source = MemorySource::new(input, devices.step, devices.read);
    let mut out = MemorySink::new(alloc, devices.step, devices.write);
    let mut err = MemorySink::new(alloc, devices.step, devices.error);
    let exit = match program {
        Program::Buildozer => buildozer(alloc, words, &mut source, &mut out, &mut err, files),
        Program::Buildifier => buildifier(alloc, words, &mut source, &mut out, &mut err, files),
    };
    Left { exit, out, err }
}

/// A run of buildozer that has no files.
pub(crate) fn edit(alloc: Global, words: &[&str], input: &str, devices: Devices) -> Left {
    let mut files = MemoryFiles::new(alloc);
    run(
        alloc,
        Program::Buildozer,
        words,
        input.as_bytes(),
        devices,
        &mut files,
    )
}
