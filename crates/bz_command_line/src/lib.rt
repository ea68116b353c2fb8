//! What a line of buildozer requests: options, commands and targets, among the words or in a file of lines.
#![tactic(auto)]

mod line;
mod pattern;
mod reported;
mod requested;
mod script;
mod verb;

pub use line::{CommandLine, Given, LineFault, Options, read_line, worked_command_lines};
pub use pattern::PatternFault;
pub use reported::{report_line_usage, report_script, report_usage};
pub use requested::{Request, Requested, UsageFault, read_group};
pub use script::{ScriptFault, read_script};
pub use verb::{COMMENT_TEXT_LINE, OperandFault, Refused, Verb};
