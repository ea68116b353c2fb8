//! Readers and writers that fail, and those of std's.
use crate::run::{BYTEWISE, Devices, Left, edit};
use crate::worked::{INPUT, WITHOUT_X};
use bz_buildifier::{Cut, Device, Sink, Source};
use std::alloc::Global;

/// How many reads of a byte there are: one for each of the input, and one at its end.
const READS: u64 = 53;

fn deleted(alloc: Global, devices: Devices) -> Left {
    edit(alloc, &["--", "delete", "-:x"], INPUT, devices)
}

/// Whether standard output stays empty where the read of this number fails, and has the whole text where there is none.
fn fails_at_read(alloc: Global, read: u64) -> bool {
    let left = deleted(alloc, Devices { read, ..BYTEWISE });
    if read > READS {
        return left.is(Cut::Whole, 0, WITHOUT_X.as_bytes());
    }
    left.is(Cut::Read, 2, b"")
}

/// Whether standard output has what was written where the write of this number fails, after this many of a byte, and has the
/// whole text where there is none.
fn fails_at_write(alloc: Global, written: usize, write: u64) -> bool {
    let text = WITHOUT_X.as_bytes();
    let left = deleted(alloc, Devices { write, ..BYTEWISE });
    match text.get(..written) {
        Some(front) if front.len() < text.len() => left.is(Cut::Write, 2, front),
        _ => left.is(Cut::Whole, 0, text),
    }
}

#[test]
fn failing_devices(rt: HostRuntime) {
    for (made, call) in (0..54).zip(1..) {
        assert!(rt; fails_at_read(rt.alloc(), call), "at read {call}");
        assert!(rt; fails_at_write(rt.alloc(), made, call), "at write {call}");
    }
}

/// Whether a read into the four bytes gives this many, and then these are there.
fn gives(source: &mut Device<&[u8]>, text: &mut [u8], count: usize, whole: &[u8]) -> bool {
    source.read(text) == Ok(count) && *text == *whole
}

/// Whether a device passes on what a reader of std's gives, also after its end, which is no fault.
fn passes_on_reads() -> bool {
    let mut text = [0u8; 4];
    let mut source = Device::new(b"abcdef".as_slice());
    for (count, whole) in [(4, b"abcd"), (2, b"efcd"), (0, b"efcd"), (0, b"efcd")] {
        if !gives(&mut source, &mut text, count, whole) {
            return false;
        }
    }
    true
}

/// Whether a device passes on what a writer of std's takes.
fn passes_on_writes(alloc: Global) -> bool {
    Device::new(Vec::new(alloc)).write(b"abc") == Ok(3)
}

#[test]
fn devices(rt: HostRuntime) {
    assert!(rt; passes_on_reads() && passes_on_writes(rt.alloc()));
}
