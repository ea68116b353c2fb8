//! The formatted text of a BUILD file: its value, tidied and laid out; and of a file that may have suites: what it says, laid out.
//! Parts of a tree that come anew, read of their texts: as few lines as differ.
#![tactic(auto)]

mod chunks;
mod cut;
mod ends;
mod formatter;
mod laws;
mod reading;
mod writing;

pub use formatter::{FormatFault, format, format_bzl};
pub use laws::{
    formatted_once, formatted_suites_once, tokens_kept, views_keep_programs, words_kept,
    writing_keeps_program,
};
pub use reading::{is_mostly_other, read_text, read_windows};
pub use writing::{reads_back, set, written_text};
