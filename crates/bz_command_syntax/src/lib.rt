//! The words of commands, and the commands that they are.
#![tactic(auto)]

mod command;
mod fault;
mod forms;
mod laws;
mod pattern;
mod prepared;
mod profile;
mod table;
mod template;
mod words;

pub use command::{
    AttributeOperation, Attributes, Command, CommentOperation, DictOperation, Entry, Field, Fixes,
    Host, LoadOperation, Operation, Repo, RuleOperation, RulePlace, Selects, Symbol, Usages,
    ValueOperation, Values,
};
pub use fault::CommandFault;
pub use forms::{as_text, is_identifier, is_kind_name};
pub use laws::{
    identifiers_are_names, text_stays_text, worked_commands, worked_identifiers, worked_strings,
    worked_templates, worked_words,
};
pub use pattern::Pattern;
pub use profile::Profile;
pub use table::{COMMAND_NAMES, TEXT_LIMIT, command_form};
pub use template::has_escaped_digit;
pub use words::{quoted, read_words};
