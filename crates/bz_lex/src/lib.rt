//! Leaves: a gap and the token after it, and where each may be; reading a text as leaves.
#![tactic(auto)]

mod fault;
mod front;
mod gap;
pub mod laws;
mod leaf;
mod limits;
mod place;
mod position;
mod source;

pub use bz_token::Class;
pub use fault::{ReadFault, fault_at};
pub use front::{Front, Reason, leaf_front};
pub use leaf::Leaf;
pub use limits::{DEPTH_LIMIT, LENGTH_LIMIT};
pub use place::Place;
pub use position::line_and_column;
pub use source::{lex, lexical_fault};
