//! The lexemes of BUILD files, by class, and the longest one at the front of a text.
#![tactic(auto)]

mod class;
mod scan;
mod state;
mod theorems;

pub use class::Class;
pub use scan::{Found, opens_string, token};
pub use theorems::{
    begins, by_characters, class_of_number, cuts, each_keyword, each_mark, each_number, one_token,
    opens_after_prefix, separated, single,
};
