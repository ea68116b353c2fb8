//! What the commands on the values of attributes, in lists or alone, make of the arguments of a rule.
#![tactic(auto)]

mod editing;
mod known;
mod laws;
mod listed;
mod replacing;

pub use laws::{added_is_there, adding_again, removed_is_gone, removing_again, removing_twice};
pub use listed::{add_strings, change_values, is_spelled, list_of_strings, tells_change};
