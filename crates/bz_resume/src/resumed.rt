use bz_edit::Step;
use bz_grammar::Tree;
use bz_items::{Items, Text};

/// What a journal is resumed as: the texts of a file as one tree and the steps that lead to the others, and what is known of them.
#[derive(Drop)]
pub struct Resumed {
    /// The path of the file's package.
    pub package: Text,
    /// The tree of the present text.
    pub tree: Tree,
    /// The steps between the texts, in the order in which these came: those before the present text lead back, the others
    /// forward.
    pub steps: Items<Step>,
    /// The SHA-256 of each text.
    pub digests: Items<[u8; 32]>,
    /// The note of each step.
    pub notes: Items<Text>,
    /// The number of the present text, from 0.
    pub cursor: usize,
}
