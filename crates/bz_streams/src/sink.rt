//! Writers that count their faults.
ghost use Rattle.std.specs.Prelude.{◌≡◌, ◌≤◌, ◌<◌, ℕ, List, Option, IfOk, OnOk, OnErr, IsOk, IsErr, length, drop};
ghost use Rattle.std.specs.Io.{WritesAtMost};
ghost use Rattle.std.specs.Io.KnownBytes.{WriteAppends, Appends};
ghost use Rattle.bz_streams.specs.Faults.{Rises, AppendsSome, AppendsPart};

use crate::PortFault;

/// A writer that counts its faults.
pub trait Sink {
    // The bytes that the writer holds, where they are known.
    ghost contents: { Self → Option (List ℕ) };

    // How often a write has failed, up to the greatest number.
    ghost faults: { Self → ℕ };

    /// Writes some bytes from the front and answers how many; none only where there are none.
    fn write(&mut self, bytes: &[u8]) -> Result<usize, PortFault>
        ensures bound { WritesAtMost result bytes.now }
        ensures goes_on { 0 < length bytes.now → IfOk result (λ n. 0 < n) }
        ensures bytes { WriteAppends (contents self.old) (contents self.new) result bytes.now }
        ensures cause { IsErr result → Rises (faults self.old) (faults self.new) }
        ensures steady { IsOk result → faults self.new ≡ faults self.old }
        ensures count { faults self.old ≤ faults self.new };
}

fn after(bytes: &[u8], n: usize) -> &[u8]
    requires { n ≤ length bytes.now }
    ensures { result.now ≡ drop n bytes.now }
{
    &bytes[n..]
}

/// Writes all of these bytes, as many calls as that takes. The error: a write failed, which the writer counted; a
/// beginning of the bytes, and not all of them, is then on it. Nothing is tried again.
#[tactic(auto, using(crate::proofs::Written::begins))]
pub fn write_whole<S: Sink>(sink: &mut S, bytes: &[u8]) -> Result<(), PortFault>
    ensures ok { OnOk result (Appends (S.contents sink.old) (S.contents sink.new) bytes.now) }
    ensures err { OnErr result (AppendsSome (S.contents sink.old) (S.contents sink.new) bytes.now) }
    ensures part { OnErr result (AppendsPart (S.contents sink.old) (S.contents sink.new) bytes.now) }
    ensures cause { IsErr result → Rises (S.faults sink.old) (S.faults sink.new) }
    ensures steady { IsOk result → S.faults sink.new ≡ S.faults sink.old }
    ensures count { S.faults sink.old ≤ S.faults sink.new }
{
    let mut rest = bytes;
    while !rest.is_empty() {
        match sink.write(rest) {
            Ok(written) => rest = after(rest, written),
            Err(fault) => return Err(fault),
        }
    }
    Ok(())
}
