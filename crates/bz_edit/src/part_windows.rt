//! Parts of a tree's root that others take the place of.

use bz_grammar::Part;
use bz_items::Items;

/// Parts that are to take the place of others, which follow one another, among those of a tree's root.
#[derive(Drop)]
pub struct PartWindow {
    /// How many parts stay before them, since the window before or from the beginning.
    pub from: usize,
    /// How many parts give way to them.
    pub gone: usize,
    pub parts: Items<Part>,
}
