/// The most bytes of a package's name, and of a note.
pub const SHORT_LIMIT: usize = 65_536;

/// The most steps of a record.
pub const STEP_LIMIT: u32 = 100_000;
