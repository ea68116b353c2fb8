//! Readers that count their faults.
ghost use Rattle.std.specs.Prelude.{◌≡◌, ◌≤◌, ◌+◌, ◌<◌, ◌++◌, Bool, ℕ, List, Option, IfOk, IfSome, IsOk, IsErr, IsErrOf, take, length, true, vec_len};
ghost use Rattle.std.specs.Io.{ReadsAtMost};
ghost use Rattle.std.specs.Io.KnownBytes.{ReadConsumes, Consumes, IsAtEnd};
ghost use Rattle.bz_streams.specs.Faults.{Rises};

use bz_lex::LENGTH_LIMIT;
use std::alloc::Global;

/// A read or a write failed.
#[derive(Clone, Copy, PartialEq, Eq)]
pub struct PortFault;

/// A reader that counts its faults.
pub trait Source {
    // The bytes that are left, where they are known.
    ghost remaining: { Self → Option (List ℕ) };

    // How often a read has failed, up to the greatest number.
    ghost faults: { Self → ℕ };

    // Whether it never fails.
    ghost sound: { Self → Bool };

    /// Reads some bytes and answers how many; none only at the end, or where there is no room.
    fn read(&mut self, into: &mut [u8]) -> Result<usize, PortFault>
        ensures bound { ReadsAtMost result into.new }
        ensures bytes { ReadConsumes (remaining self.old) (remaining self.new) result into.new }
        ensures cause { IsErr result → Rises (faults self.old) (faults self.new) }
        ensures steady { IsOk result → faults self.new ≡ faults self.old }
        ensures count { faults self.old ≤ faults self.new }
        ensures works { sound self.old ≡ true → IsOk result }
        ensures sound { sound self.new ≡ sound self.old };
}

/// Why no bytes came.
#[derive(Clone, Copy, PartialEq, Eq)]
pub enum InputFault {
    /// Memory was refused.
    Memory,
    /// The reader failed.
    Read,
}

/// The length of the longest text in bytes, and one byte more, by which a longer one is known.
pub const MOST: usize = LENGTH_LIMIT + 1;

const CHUNK: usize = 16_384;

// Appends what one read gives, at most as many bytes as the chunk has; what these were does not matter. Gives how many came.
fn read_chunk<S: Source>(
    source: &mut S,
    bytes: &mut Vec<u8>,
    chunk: &mut [u8],
) -> Result<usize, InputFault>
    ensures within { vec_len bytes.new ≤ vec_len bytes.old + length chunk.old }
    ensures read { IfOk result (λ n. (got : List ℕ) × (bytes.new.items ≡ bytes.old.items ++ got)
        × (length got ≡ n) × Consumes (S.remaining source.old) (S.remaining source.new) got) }
    ensures end { IfOk result (λ n. n ≡ 0 → 0 < length chunk.old → IsAtEnd (S.remaining source.new)) }
    ensures fault { IsErrOf result InputFault.Read → Rises (S.faults source.old) (S.faults source.new) }
    ensures steady { (IsErrOf result InputFault.Read → ⊥) → S.faults source.new ≡ S.faults source.old }
    ensures count { S.faults source.old ≤ S.faults source.new }
    ensures works { S.sound source.old ≡ true → IsErrOf result InputFault.Read → ⊥ }
    ensures sound { S.sound source.new ≡ S.sound source.old }
{
    match source.read(chunk) {
        Err(_) => Err(InputFault::Read),
        Ok(n) => match bytes.extend_from_slice(&chunk[..n]) {
            Ok(()) => Ok(n),
            Err(_) => Err(InputFault::Memory),
        },
    }
}

/// The first bytes that the source has left: all, or `most` of them where it has more. The errors: Memory, where memory
/// was refused to keep them; Read, where a read failed, which the source counted. What was read before is then lost.
pub fn read_most<S: Source>(
    alloc: Global,
    source: &mut S,
    most: usize,
) -> Result<Vec<u8>, InputFault>
    ensures ok { IfOk result (λ bytes. IfSome (S.remaining source.old) (λ all. bytes.items ≡ take most all)) }
    ensures taken { IfOk result (λ bytes. Consumes (S.remaining source.old) (S.remaining source.new) bytes.items) }
    ensures fault { IsErrOf result InputFault.Read → Rises (S.faults source.old) (S.faults source.new) }
    ensures steady { (IsErrOf result InputFault.Read → ⊥) → S.faults source.new ≡ S.faults source.old }
    ensures count { S.faults source.old ≤ S.faults source.new }
    ensures works { S.sound source.old ≡ true → IsErrOf result InputFault.Read → ⊥ }
    ensures sound { S.sound source.new ≡ S.sound source.old }
{
    let mut bytes = Vec::new(alloc);
    let mut chunk = [0u8; CHUNK];
    while bytes.len() < most {
        let room = (most - bytes.len()).min(CHUNK);
        if read_chunk(source, &mut bytes, &mut chunk[..room])? == 0 {
            break;
        }
    }
    Ok(bytes)
}
