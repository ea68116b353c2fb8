//! Labels.
ghost use Rattle.std.specs.Prelude.{◌≡◌, ◌↔◌, IfOk, Err};
ghost use Rattle.bz_label.specs.Labels.{IsLabel};
ghost use Rattle.bz_label.specs.Forms.{label_of};
ghost use Rattle.bz_label.specs.Faults.{label_fault_number};
ghost use Rattle.bz_label.specs.declared.label.Label.{Label};

use crate::form::{Parts, label_parts};
use bz_items::{Memory, Text};
use std::alloc::Global;
use thiserror::Error;

/// A label: the repository's part as written, the package and the name.
#[derive(Drop)]
pub struct Label {
    /// Nothing, `@`, `@@`, `@REPO` or `@@REPO`.
    pub repository: Text,
    /// Empty, or non-empty pieces joined by slashes; of `:NAME` and `NAME` the current package.
    pub package: Text,
    /// Without a name of its own the last piece of the package, or the repository's name.
    pub name: Text,
}

/// Why a text gave no label.
#[derive(Debug, Drop, Error)]
pub enum LabelFault {
    /// The text is not a label.
    #[error("BadLabel")]
    BadLabel,
    /// Memory was refused.
    #[error("Memory")]
    Memory,
}

impl From<Memory> for LabelFault {
    ghost use Rattle.bz_label.specs.declared.label.LabelFault.TheVariants as fault;

    ghost from_gives = { λ _ made. made ≡ fault.Memory };

    fn from(_refused: Memory) -> LabelFault {
        LabelFault::Memory
    }
}

impl LabelFault {
    /// The fault's number in messages: 11 or 8.
    pub fn number(&self) -> u8
        ensures { result ≡ label_fault_number self.now }
    {
        match self {
            LabelFault::BadLabel => 11,
            LabelFault::Memory => 8,
        }
    }
}

fn copied(alloc: Global, parts: Parts) -> Result<Label, Memory>
    ensures { IfOk result (λ label. label ≡ label_of parts.entry) }
{
    Ok(Label {
        repository: Text::from_slice(alloc, parts.repository)?,
        package: Text::from_slice(alloc, parts.package)?,
        name: Text::from_slice(alloc, parts.name)?,
    })
}

impl Label {
    /// The label that the text is, read in the current package, which `:NAME` and `NAME` are in. `BadLabel` exactly
    /// where it is none; `Memory` where room for the three parts was refused.
    pub fn read(alloc: Global, current: &str, text: &str) -> Result<Label, LabelFault>
        ensures ok { IfOk result (IsLabel current.now text.now) }
        ensures bad { (result ≡ Err LabelFault.BadLabel)
            ↔ ((label : Label) → IsLabel current.now text.now label → ⊥) }
    {
        let Some(parts) = label_parts(current.as_bytes(), text.as_bytes()) else {
            return Err(LabelFault::BadLabel);
        };
        Ok(copied(alloc, parts)?)
    }
}
