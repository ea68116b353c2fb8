//! The program buildifier as an engine over any reader, writers and files: what the words of a command line mean, and what
//! a run of them does.
#![tactic(auto)]

mod effect;
mod file_type;
mod format_line;
mod formatting;
mod laws;
mod mode;

pub use bz_streams::{Cut, Device, Exit, MemorySink, MemorySource, PortFault, Sink, Source};
pub use formatting::buildifier;
pub use laws::{cut_runs_are_begun, outcomes_agree, whole_runs_are_exact, worked_formats};
