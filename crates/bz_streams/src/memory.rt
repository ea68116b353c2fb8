//! Readers and writers in memory, which can be made to fail.
ghost use Rattle.std.specs.Prelude.{◌≡◌, ◌<◌, ◌==◌, [], Some};

use crate::{PortFault, Sink, Source};
use std::alloc::Global;

/// Bytes in memory, which come a few at a time, and whose reads can be made to fail.
#[derive(Drop)]
pub struct MemorySource<'a> {
    bytes: &'a [u8],
    step: usize,
    fails_at: u64,
    calls: u64,
    faults: u64,
    ghost gives: { 0 < step },
}

impl<'a> MemorySource<'a> {
    ghost use Rattle.bz_streams.specs.Ports.{left_in, source_turns, first_turn};

    /// Gives at most `step` bytes a read (0 counts as 1), and fails at the read numbered `fails_at`, from 1; at 0 it
    /// never fails.
    pub fn new(bytes: &'a [u8], step: usize, fails_at: u64) -> MemorySource<'a>
        ensures held { left_in result ≡ bytes.now }
        ensures set { source_turns result ≡ first_turn step fails_at }
    {
        MemorySource {
            bytes,
            step: step.max(1),
            fails_at,
            calls: 0,
            faults: 0,
        }
    }
}

impl Source for MemorySource<'_> {
    ghost remaining = { λ s. Some s.bytes.now };

    ghost faults = { λ s. s.faults };

    ghost sound = { λ s. s.fails_at == 0 };

    fn read(&mut self, into: &mut [u8]) -> Result<usize, PortFault> {
        self.calls = self.calls.saturating_add(1);
        if self.calls == self.fails_at {
            self.faults = self.faults.saturating_add(1);
            return Err(PortFault);
        }
        let n = self.bytes.len().min(into.len()).min(self.step);
        let (front, back) = self.bytes.split_at(n);
        into[..n].copy_from_slice(front);
        self.bytes = back;
        Ok(n)
    }
}

/// A writer into memory, which takes a few bytes at a time, and whose writes can be made to fail.
#[derive(Drop)]
pub struct MemorySink {
    bytes: Vec<u8>,
    step: usize,
    fails_at: u64,
    calls: u64,
    faults: u64,
    ghost takes: { 0 < step },
}

impl MemorySink {
    ghost use Rattle.bz_streams.specs.Ports.{written_in, sink_turns, first_turn};

    /// Takes at most `step` bytes a write (0 counts as 1), and fails at the write numbered `fails_at`, from 1; at 0 it
    /// fails only where memory is refused.
    pub fn new(alloc: Global, step: usize, fails_at: u64) -> MemorySink
        ensures held { written_in result ≡ [] }
        ensures set { sink_turns result ≡ first_turn step fails_at }
    {
        MemorySink {
            bytes: Vec::new(alloc),
            step: step.max(1),
            fails_at,
            calls: 0,
            faults: 0,
        }
    }

    /// What was written.
    pub fn bytes(&self) -> &[u8]
        ensures { result.now ≡ written_in self.now }
    {
        self.bytes.as_slice()
    }
}

impl Sink for MemorySink {
    ghost contents = { λ s. Some s.bytes.items };

    ghost faults = { λ s. s.faults };

    fn write(&mut self, bytes: &[u8]) -> Result<usize, PortFault> {
        self.calls = self.calls.saturating_add(1);
        let n = bytes.len().min(self.step);
        if self.calls == self.fails_at || self.bytes.extend_from_slice(&bytes[..n]).is_err() {
            self.faults = self.faults.saturating_add(1);
            return Err(PortFault);
        }
        Ok(n)
    }
}
