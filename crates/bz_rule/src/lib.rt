//! The rules of a BUILD file: their kinds, attributes and names, read off file values.
#![tactic(auto)]

mod apart;
mod index;
mod laws;
mod names;
mod parts;
mod places;
mod plain;
mod quote_marks;
mod rules;

pub use apart::take_apart;
pub use index::Names;
pub use laws::worked_bodies;
pub use names::{is_dotted, is_named};
pub use parts::{form_in, is_text, only, text_in};
pub use places::held_name;
pub use plain::body;
pub use quote_marks::{between, first_text, inside, local_name, marks_of, text_of};
pub use rules::{Call, attribute, call_of, has_name, is_rule_of_kind, name_of, value_named};
