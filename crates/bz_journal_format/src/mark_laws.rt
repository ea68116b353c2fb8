//! Laws of the readers: the contract of each function is a law, and there is nothing to run.
ghost use Rattle.bz_journal_format.specs.Laws.{CountedExact, DigestsExact, FieldsExact, LinesExact, NumbersExact};

/// Numbers below 2^32 are read from their digits and a stop that is no digit, whatever follows, and nothing else is.
pub fn numbers_exact()
    ensures { NumbersExact }
{}

/// So are fields of a given number of bytes.
pub fn fields_exact()
    ensures { FieldsExact }
{}

/// So are bytes with their number before them.
pub fn counted_exact()
    ensures { CountedExact }
{}

/// So are lines, up to their newline.
pub fn lines_exact()
    ensures { LinesExact }
{}

/// So are digests.
pub fn digests_exact()
    ensures { DigestsExact }
{}
