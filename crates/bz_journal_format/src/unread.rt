use std::alloc::{AllocError, AllocFailed};
use thiserror::Error;

/// Why something was not read from the front of the bytes.
#[derive(Clone, Copy, Debug, PartialEq, Eq, Error)]
pub enum Unread {
    /// A growth was refused.
    #[error("Memory")]
    Memory,
    /// The bytes don't begin with it.
    #[error("Damaged")]
    Damaged,
}

impl From<AllocError> for Unread {
    ghost use Rattle.std.specs.Prelude.{◌≡◌};
    ghost use Rattle.bz_journal_format.specs.declared.unread.Unread.TheVariants as u;

    ghost from_gives = { λ _ unread. unread ≡ u.Memory };

    fn from(_refused: AllocError) -> Unread {
        Unread::Memory
    }
}

impl<T: Drop> From<AllocFailed<T>> for Unread {
    ghost use Rattle.std.specs.Prelude.{◌≡◌};
    ghost use Rattle.bz_journal_format.specs.declared.unread.Unread.TheVariants as u;

    ghost from_gives = { λ _ unread. unread ≡ u.Memory };

    fn from(_refused: AllocFailed<T>) -> Unread {
        Unread::Memory
    }
}
