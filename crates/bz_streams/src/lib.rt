//! What both programs share: readers and writers that count their faults, the lines that are printed on them, the words of
//! the process, what clap finds among the words of a line, and how runs end.
#![tactic(auto)]

mod beginning;
mod brackets;
mod controls;
mod device;
mod excerpt;
mod exit;
mod laws;
mod memory;
mod names;
mod near;
mod options;
mod pieces;
mod process;
mod reported;
mod sink;
mod source;
mod words;

pub use device::Device;
pub use exit::{Cut, Exit, first_cut};
pub use laws::{lines_are_whole, nearest_is_least, no_controls, worked_reports};
pub use memory::{MemorySink, MemorySource};
pub use names::{odd_name_line, report_note};
pub use near::nearest;
pub use options::{OptionHint, option_hint};
pub use pieces::{LinePiece, report_pieces};
pub use process::process_words;
pub use reported::{STDIN, report_clap_hinted, report_fault, report_fault_in, report_named};
pub use sink::{Sink, write_whole};
pub use source::{InputFault, MOST, PortFault, Source, read_most};
pub use words::{argument_text, argument_texts};

/// The version of both programs, which `--version` prints.
pub const VERSION: &str = "1.0.0";
