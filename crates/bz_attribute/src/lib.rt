//! The attributes of a rule: new parts of a file value, a rule's arguments with an attribute put in or taken away, and the
//! lists that a value is.
#![tactic(auto)]

mod arguments;
mod making;
mod readings;
mod sets;

pub use arguments::{
    add_attribute, has_attribute, is_attribute, is_other_attribute, place_of, put, remove_first,
    set_value, swap_value, take_value,
};
pub use bz_rule::first_text;
pub use making::{
    Slot, append_to, function_of, list_of, new_token, node, plus, rule_made, sequence, set_text,
    string_of, string_text, token,
};
pub use readings::{
    body_of, entries_of, first_of_kind, has_kind, has_lists, is_empty_list, is_item, is_no_list,
    is_select, items_of, operands_in, operands_of, parts_of,
};
pub use sets::{has_text, insert_text};
