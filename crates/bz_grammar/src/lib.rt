//! Trees: kinds, the table of shapes, legal trees, and the law that no text has two of them.
#![tactic(auto)]

mod kind;
pub mod laws;
mod older;
mod same;
mod statement;
mod tree;

pub use bz_lex::{Class, DEPTH_LIMIT, LENGTH_LIMIT, Leaf, ReadFault};
pub use kind::Kind;
pub use older::have_newer;
pub use statement::first_of;
pub use tree::{Node, Part, Tree, copy_all, length_with};
