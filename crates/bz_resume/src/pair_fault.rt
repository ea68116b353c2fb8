//! What can go wrong while a file and its journal are replaced.

/// Why a file and its journal were not both replaced.
#[derive(Clone, Copy, PartialEq, Eq)]
pub enum PairFault {
    /// Memory was refused, and nothing was replaced.
    Memory,
    /// The file could not be read, and nothing was replaced.
    Open,
    /// The file holds another text, or isn't there, and nothing was replaced.
    Changed,
    /// The journal or the file could not be replaced. The journal may be new already, and the file too.
    Write,
}
