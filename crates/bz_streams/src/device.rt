//! Any reader or writer of std's.
ghost use Rattle.std.specs.Prelude.{◌≡◌, ◌≢◌, ◌≤◌, Ok, IfErr, IsErr, MatchResult, false};
ghost use Rattle.std.specs.Io.{ReadsAtMost, WritesAtMost};
ghost use Rattle.std.specs.Io.KnownBytes.{ReadConsumes, WriteAppends};
ghost use Rattle.std.specs.IoError.{error_kind};

use crate::{PortFault, Sink, Source};
use std::io;
use std::io::{ErrorKind, Read, Write};

// One read, tried again where a signal interrupts it.
fn read_again<R: Read>(reader: &mut R, into: &mut [u8]) -> io::Result<usize>
    ensures bound { ReadsAtMost result into.new }
    ensures bytes { ReadConsumes (R.remaining reader.old) (R.remaining reader.new) result into.new }
    ensures again { IfErr result (λ e. error_kind e ≢ ErrorKind.Interrupted) }
{
    for _ in 0..u64::MAX {
        match reader.read(into) {
            Err(error) if error.kind() == ErrorKind::Interrupted => {}
            given => return given,
        }
    }
    Err(io::Error::from(ErrorKind::TimedOut))
}

// One write, tried again where a signal interrupts it.
fn write_again<W: Write>(writer: &mut W, bytes: &[u8]) -> io::Result<usize>
    ensures bound { WritesAtMost result bytes.now }
    ensures bytes { WriteAppends (W.contents writer.old) (W.contents writer.new) result bytes.now }
    ensures again { IfErr result (λ e. error_kind e ≢ ErrorKind.Interrupted) }
{
    for _ in 0..u64::MAX {
        match writer.write(bytes) {
            Err(error) if error.kind() == ErrorKind::Interrupted => {}
            taken => return taken,
        }
    }
    Err(io::Error::from(ErrorKind::TimedOut))
}

/// A reader or a writer of std's, with the count of its faults. A call that a signal interrupts is tried again, and is no fault.
#[derive(Drop)]
pub struct Device<T> {
    device: T,
    faults: u64,
}

impl<T> Device<T> {
    ghost use Rattle.bz_streams.specs.Ports.{device_in, device_faults};
    ghost use Rattle.bz_streams.specs.Faults.{Rises};

    /// A device that has not failed yet.
    pub fn new(device: T) -> Device<T>
        ensures held { device_in result ≡ device }
        ensures fresh { device_faults result ≡ 0 }
    {
        Device { device, faults: 0 }
    }

    // A fault is counted.
    fn failed(&mut self) -> PortFault
        ensures held { device_in self.new ≡ device_in self.old }
        ensures rises { Rises (device_faults self.old) (device_faults self.new) }
        ensures count { device_faults self.old ≤ device_faults self.new }
    {
        self.faults = self.faults.saturating_add(1);
        PortFault
    }

    // A failure of the device's is counted; all else that it gives, an end too, is passed on.
    fn counted(&mut self, given: io::Result<usize>) -> Result<usize, PortFault>
        ensures given { MatchResult given (λ n. (result ≡ Ok n) × (self.new ≡ self.old))
            (λ _. IsErr result × Rises (device_faults self.old) (device_faults self.new)) }
        ensures held { device_in self.new ≡ device_in self.old }
        ensures count { device_faults self.old ≤ device_faults self.new }
    {
        match given {
            Ok(n) => Ok(n),
            Err(_) => Err(self.failed()),
        }
    }
}

impl<R: Read> Source for Device<R> {
    ghost remaining = { λ d. R.remaining d.device };

    ghost faults = { λ d. d.faults };

    ghost sound = { λ _. false };

    fn read(&mut self, into: &mut [u8]) -> Result<usize, PortFault> {
        let given = read_again(&mut self.device, into);
        self.counted(given)
    }
}

impl<W: Write> Sink for Device<W> {
    ghost contents = { λ d. W.contents d.device };

    ghost faults = { λ d. d.faults };

    fn write(&mut self, bytes: &[u8]) -> Result<usize, PortFault> {
        match write_again(&mut self.device, bytes) {
            Ok(n) if n > 0 || bytes.is_empty() => Ok(n),
            _ => Err(self.failed()),
        }
    }
}
