//! The program buildozer as an engine over any reader, writers and files: what the words of a command line, the bytes of
//! standard input and a folder mean, and what a run of them leaves.
#![tactic(auto)]

mod acting;
mod ending;
mod engine;
mod laws;
mod opening;
mod reading;
mod reported;
mod rooting;
mod run;
mod running;
mod script;
mod settling;
mod step;
mod used;
mod workspace;

pub use bz_streams::{Cut, Exit};
pub use engine::buildozer;
pub use laws::{
    fronts_are_reported_alike, held_files_go_on, one_thing_comes_of_a_journal, outcomes_are_exact,
    output_cuts_nothing_else, packages_are_apart, still_is_same, worked_refusals, worked_runs,
};
