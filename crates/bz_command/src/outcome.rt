//! What a command makes of a file value, and where that differs from the one that it was.

use bz_items::{Items, Text};
use bz_value::{File, Window};

/// What a command makes of a file value: the new value, or `None` where it is unchanged; and what is printed.
#[derive(Drop)]
pub struct Outcome {
    pub file: Option<File>,
    pub printed: Text,
}

/// What a command made of a file value in place.
#[derive(Drop)]
pub struct Ran {
    /// Where its items are others; none where it is the same.
    pub windows: Items<Window>,
    /// Whether each of its items is known to have the name that it had, or none where it had none.
    pub same_names: bool,
    /// What it printed of the rules.
    pub printed: Text,
}
