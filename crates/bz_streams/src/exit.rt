//! How runs of the programs end.
ghost use Rattle.std.specs.Prelude.{◌≡◌};
ghost use Rattle.bz_streams.specs.Exits.{first_cut};

/// The first failure of a run.
#[derive(Clone, Copy, Debug, PartialEq, Eq)]
pub enum Cut {
    /// There was none.
    Whole,
    /// Memory was refused.
    Memory,
    /// Standard input failed.
    Read,
    /// Standard output failed.
    Write,
    /// A file could not be opened, read or written.
    Files,
}

/// How a run ended.
#[derive(Clone, Copy, PartialEq, Eq)]
pub struct Exit {
    /// The status for the process.
    pub status: u8,
    /// The first failure, or that there was none.
    pub cut: Cut,
}

/// The first failure of two parts of a run, one after the other.
pub fn first_cut(first: Cut, later: Cut) -> Cut
    ensures { result ≡ first_cut first later }
{
    match first {
        Cut::Whole => later,
        _ => first,
    }
}
