//! Commands: which rules of a file a target means, and what each command makes of a file value.
#![tactic(auto)]

mod filling;
mod hashes;
mod laws;
mod outcome;
mod printing;
mod ruling;
mod running;
mod targets;

pub use bz_command_syntax::{Command, CommandFault};
pub use bz_load::LoadedPaths;
pub use bz_value::Refusal;
pub use filling::{changed_copy, copied, places_if_large};
pub use hashes::{hashes_of, hashes_over};
pub use laws::{
    commands_are_listed, comments_stay, effects_stay_proper, lines_matter, worked_command_effects,
    worked_effects,
};
pub use outcome::{Outcome, Ran};
pub use printing::{looks_at_lines, printed_of};
pub use ruling::{Work, looks_for_load, puts_rule};
pub use running::{Known, run, run_in, run_named};
