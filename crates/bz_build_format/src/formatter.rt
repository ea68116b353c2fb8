//! The formatted text of a text.
ghost use Rattle.std.specs.Prelude.{◌≡◌, ◌≢◌, ◌⊎◌, IfOk};
ghost use Rattle.bz_build_format.specs.Faults.{FormatsTo, FormatsBzlTo};
ghost use Rattle.bz_build_format.specs.Fixed.{IsFormatted, IsFormattedBzl};
ghost use Rattle.bz_build_format.specs.private.Chunks.{of_kind};

use crate::chunks::{FileKind, chunks_formatted, seen};
use crate::laws::{formatted_once, formatted_suites_once};
use bz_grammar::ReadFault;
use bz_hosts::views_are_proper;
use bz_items::Text;
use bz_layout::{
    SetFault, flags_keep_layout, layout_is_accepted, layout_is_too_deep, layout_reads_back,
    text_of_items,
};
use std::alloc::Global;
use thiserror::Error;

/// Why there is no formatted text.
#[derive(Debug, Drop, Error)]
pub enum FormatFault {
    /// The text is not accepted.
    #[error("{0}")]
    Unread(ReadFault),
    /// The formatted text would be longer than `LENGTH_LIMIT`.
    #[error("TooLarge")]
    TooLarge,
    /// The tree of the formatted text would be deeper than `DEPTH_LIMIT`.
    #[error("TooDeep")]
    TooDeep,
    /// A growth was refused.
    #[error("Memory")]
    Memory,
}

/// Why there is no formatted text of a text that is not read.
fn of_read_fault(fault: ReadFault) -> FormatFault
    ensures { ((result ≡ FormatFault.Unread fault) × (fault ≢ ReadFault.Memory)) ⊎ (result ≡ FormatFault.Memory) }
{
    match fault {
        ReadFault::Memory => FormatFault::Memory,
        fault => FormatFault::Unread(fault),
    }
}

/// The formatted text of a text of a file of this kind, or why there is none.
fn formatted(alloc: Global, kind: FileKind, text: &[u8]) -> Result<Text, FormatFault>
    ensures { (of_kind kind).formats text.now result }
{
    views_are_proper();
    flags_keep_layout();
    layout_is_accepted();
    layout_is_too_deep();
    layout_reads_back();
    if let Some(formatted) = chunks_formatted(alloc, kind, text) {
        return match formatted.into_bytes() {
            Some(bytes) => Ok(Text::from_vec(bytes)),
            None => Err(FormatFault::TooLarge),
        };
    }
    let file = match seen(alloc, kind, text) {
        Ok((file, _, _)) => file,
        Err(fault) => return Err(of_read_fault(fault)),
    };
    match text_of_items(alloc, file.items.as_slice(), text.len()) {
        Ok(formatted) => Ok(formatted),
        Err(SetFault::TooLarge) => Err(FormatFault::TooLarge),
        Err(SetFault::TooDeep) => Err(FormatFault::TooDeep),
        Err(SetFault::Memory) => Err(FormatFault::Memory),
    }
}

/// The formatted text of a text: its value tidied and laid out, which keeps the program; to format it once more gives it
/// again. Errors: `Unread` where the text is not accepted, with the fault of reading it; `TooLarge` and `TooDeep` where the
/// formatted text would be past a limit; `Memory`: a growth was refused.
pub fn format(alloc: Global, text: &[u8]) -> Result<Text, FormatFault>
    ensures formats { FormatsTo text.now result }
    ensures fixed { IfOk result (λ formatted. IsFormatted text.now formatted) }
{
    formatted_once();
    formatted(alloc, FileKind::Build, text)
}

/// The formatted text of a .bzl text: what it says, laid out. (It would be levelled first, which changes no byte of a layout, and isn't
/// done.) The program is the same, and to format it once more gives it again. Errors: as of `format`.
pub fn format_bzl(alloc: Global, text: &[u8]) -> Result<Text, FormatFault>
    ensures formats { FormatsBzlTo text.now result }
    ensures fixed { IfOk result (λ formatted. IsFormattedBzl text.now formatted) }
{
    formatted_suites_once();
    formatted(alloc, FileKind::Suites, text)
}
