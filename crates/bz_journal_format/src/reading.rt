ghost use Rattle.std.specs.Prelude.{◌≡◌, ◌↔◌, Err, IfOk};
ghost use Rattle.bz_journal_format.specs.declared.content.Record.{Record};
ghost use Rattle.bz_journal_format.specs.declared.fault.RecordFault.TheVariants as f;
ghost use Rattle.bz_journal_format.specs.Texts.{IsRead, IsOtherVersion};

use crate::Unread;
use crate::content::{Record, Version};
use crate::fault::RecordFault;
use crate::lines::read_in;
use crate::version::is_other_version;
use bz_grammar::DEPTH_LIMIT;
use std::alloc::Global;

/// The record that has these bytes, in either version.
///
/// Errors: `Version` exactly where the first line names another version; `Damaged` only where no record has these bytes;
/// `Memory` where a growth was refused.
#[tactic(auto, using(crate::proofs::Finds::found, crate::proofs::Finds::no_record))]
pub fn read_record(alloc: Global, bytes: &[u8]) -> Result<Record, RecordFault>
    ensures ok { IfOk result (IsRead bytes.now) }
    ensures version { (result ≡ Err f.Version) ↔ IsOtherVersion bytes.now }
    ensures damaged { (result ≡ Err f.Damaged) → (r : Record) → IsRead bytes.now r → ⊥ }
{
    if is_other_version(bytes) {
        return Err(RecordFault::Version);
    }
    match read_in(alloc, Version::Two, DEPTH_LIMIT, bytes) {
        Ok(read) => return Ok(read),
        Err(Unread::Memory) => return Err(RecordFault::Memory),
        Err(Unread::Damaged) => {}
    }
    match read_in(alloc, Version::One, DEPTH_LIMIT, bytes) {
        Ok(read) => Ok(read),
        Err(Unread::Memory) => Err(RecordFault::Memory),
        Err(Unread::Damaged) => Err(RecordFault::Damaged),
    }
}
