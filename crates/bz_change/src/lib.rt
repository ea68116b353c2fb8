//! What the commands on whole attributes and on dicts make of the arguments of a rule.
#![tactic(auto)]

mod dicts;
mod laws;
mod selects;
mod whole;

pub use dicts::change_dicts;
pub use laws::{
    added_entries_are_there, adding_entries_again, adding_to_a_list_again, removing_entries_again,
    renamed_back, selects_keep_comments, set_entries_are_there,
};
pub use whole::change_attributes;
