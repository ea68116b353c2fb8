//! Tidying: the seven passes over the value of a BUILD file, and the one over any value. The work is in the crate below; this one has
//! their names in one place.
#![tactic(auto)]

pub use bz_passes::{level, tidy};
