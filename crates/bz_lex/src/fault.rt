ghost use Rattle.std.specs.Prelude.{◌≡◌, length, min, true};
ghost use Rattle.bz_lex.specs.Faults.{is_of_leaves, fault_of};
ghost use Rattle.bz_lex.specs.Positions.{line_at, column_of};

use crate::front::Reason;
use crate::position::line_and_column;
use std::alloc::AllocError;
use thiserror::Error;

/// Why a text is not accepted. Lines and columns count from 1, columns in characters.
#[derive(Debug, PartialEq, Eq, Drop, Error)]
pub enum ReadFault {
    /// The bytes are not UTF-8; `at` is the length of the longest beginning that is.
    #[error("NotUtf8 at {at}")]
    NotUtf8 { at: usize },
    /// The text is longer than `LENGTH_LIMIT`.
    #[error("TooLarge")]
    TooLarge,
    /// No lexeme, blank or comment begins here.
    #[error("{line}:{column}: BadCharacter")]
    BadCharacter { line: u32, column: u32 },
    /// A string that begins here is not closed.
    #[error("{line}:{column}: OpenString")]
    OpenString { line: u32, column: u32 },
    /// The spaces and tabs right before the first token of a line are no indent that it may have there: in a BUILD file, any.
    #[error("{line}:{column}: Indented")]
    Indented { line: u32, column: u32 },
    /// No file goes on with this token here.
    #[error("{line}:{column}: Unexpected")]
    Unexpected { line: u32, column: u32 },
    /// The tree of the text is deeper than `DEPTH_LIMIT`.
    #[error("{line}:{column}: TooDeep")]
    TooDeep { line: u32, column: u32 },
    /// A growth was refused.
    #[error("Memory")]
    Memory,
}

impl ReadFault {
    ghost use Rattle.std.specs.Prelude.{◌≡◌};
    ghost use Rattle.bz_lex.specs.Faults.{fault_number};

    /// The number of the refusal, as the tools report it.
    pub fn number(&self) -> u8
        ensures { result ≡ fault_number self.now }
    {
        match self {
            ReadFault::NotUtf8 { .. } => 1,
            ReadFault::TooLarge => 2,
            ReadFault::BadCharacter { .. } => 3,
            ReadFault::OpenString { .. } => 4,
            ReadFault::Indented { .. } => 5,
            ReadFault::Unexpected { .. } => 6,
            ReadFault::TooDeep { .. } => 7,
            ReadFault::Memory => 8,
        }
    }
}

impl From<AllocError> for ReadFault {
    ghost use Rattle.std.specs.Prelude.{◌≡◌};
    ghost use Rattle.bz_lex.specs.declared.fault.ReadFault.TheVariants as f;

    ghost from_gives = { λ _ fault. fault ≡ f.Memory };

    fn from(_refused: AllocError) -> ReadFault {
        ReadFault::Memory
    }
}

/// The fault of this reason at the byte at `at` (past the last one: at the end), by line and column.
pub fn fault_at(text: &[u8], at: usize, reason: Reason) -> ReadFault
    ensures kind { is_of_leaves result ≡ true }
    ensures answered { result ≡ fault_of reason (min (line_at text.now (min at (length text.now))) u32.MAX) (min (column_of text.now (min at (length text.now))) u32.MAX) }
{
    let (line, column) = line_and_column(text, at.min(text.len()));
    match reason {
        Reason::BadCharacter => ReadFault::BadCharacter { line, column },
        Reason::OpenString => ReadFault::OpenString { line, column },
        Reason::Indented => ReadFault::Indented { line, column },
        Reason::Unexpected => ReadFault::Unexpected { line, column },
    }
}
