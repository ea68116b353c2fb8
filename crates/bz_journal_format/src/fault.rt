use thiserror::Error;

/// Why bytes are no record.
#[derive(Clone, Copy, Debug, PartialEq, Eq, Error)]
pub enum RecordFault {
    /// A growth was refused.
    #[error("Memory")]
    Memory,
    /// No record has these bytes.
    #[error("Damaged")]
    Damaged,
    /// The first line names another version.
    #[error("Version")]
    Version,
}
