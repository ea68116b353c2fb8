use std::alloc::AllocError;
use thiserror::Error;

/// Why a journal was not resumed.
#[derive(Clone, Copy, Debug, PartialEq, Eq, Error)]
pub enum ResumeFault {
    /// A growth was refused.
    #[error("Memory")]
    Memory,
    /// The bytes are no journal.
    #[error("Damaged")]
    Damaged,
    /// The first line names another version.
    #[error("Version")]
    Version,
    /// The text of the file is neither the one at the cursor nor the one at the cursor before.
    #[error("Stale")]
    Stale,
}

impl From<AllocError> for ResumeFault {
    ghost use Rattle.std.specs.Prelude.{◌≡◌};
    ghost use Rattle.bz_resume.specs.declared.fault.ResumeFault.TheVariants as f;

    ghost from_gives = { λ _ fault. fault ≡ f.Memory };

    fn from(_refused: AllocError) -> ResumeFault {
        ResumeFault::Memory
    }
}
