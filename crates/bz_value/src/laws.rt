//! Facts about the definitions, for readers and for the proofs of other crates: the functions do nothing.

ghost use Rattle.bz_value.specs.BuildValues.{BuildValuesAreProper};
ghost use Rattle.bz_value.specs.Worked.{WorkedGaps};

/// A value is proper by the grammar of BUILD files exactly where it is proper and has none of the kinds that BUILD files have not.
#[tactic(auto, using(crate::proofs::BuildValues::build_values_proper))]
pub fn build_values_are_proper()
    ensures { BuildValuesAreProper }
{}

/// Worked rows of gaps: for each a gap, and what it says.
pub fn worked_gaps()
    ensures { WorkedGaps }
{}
