//! What helps where a command is refused: the name of a rule that is near to one which the file doesn't have, which of several rules
//! refuses it, and how a comment's text is written; and what is noted of a command that changed a file.
#![tactic(auto)]

mod names;
mod notes;
mod refusing;
mod reporting;

pub use notes::report_notes;
pub use reporting::report_hint;
