//! Fields as they are written.
ghost use Rattle.std.specs.Prelude.{◌≡◌, ◌∷◌, ◌++◌, [], OnOk};
ghost use Rattle.hex.specs.Hex.{encode_lower};
ghost use Rattle.bz_journal_format.specs.Spellings.{counted_text, numeral};

use bz_items::Memory;
use itoa::Buffer;

/// Appends a number in decimal digits, and the byte after it. The error: a growth was refused; `out` may then hold the
/// digits.
pub fn push_number(out: &mut Vec<u8>, number: usize, stop: u8) -> Result<(), Memory>
    ensures { OnOk result (out.new.items ≡ out.old.items ++ numeral stop number) }
{
    let mut buffer = Buffer::new();
    out.extend_from_slice(buffer.format(number).as_bytes())?;
    out.push(stop)?;
    Ok(())
}

/// Appends bytes with their number before them. The error: a growth was refused; `out` may then hold a part of it.
pub fn push_counted(out: &mut Vec<u8>, bytes: &[u8], stop: u8) -> Result<(), Memory>
    ensures { OnOk result (out.new.items ≡ out.old.items ++ counted_text stop bytes.now) }
{
    push_number(out, bytes.len(), stop)?;
    out.extend_from_slice(bytes)?;
    Ok(())
}

/// The 64 digits of a digest, in lower case.
pub fn hex_digits(digest: &[u8; 32]) -> [u8; 64]
    ensures { result ≡ encode_lower digest.now }
{
    let mut digits = [0; 64];
    let _ = hex::encode_to_slice(digest, &mut digits);
    digits
}
