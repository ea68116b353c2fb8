//! Lists and texts that contracts see as lists: what a tree, a file value or a history keeps its parts in.
//!
//! A clause sees neither pointer nor capacity, so a copy is equal to what it copies.
#![tactic(auto)]

mod gap;
mod items;
mod short;
mod text;

pub use gap::Gap;
pub use items::{Items, at};
pub use text::Text;

/// Why a growth did not happen: memory was refused.
pub type Memory = std::alloc::AllocError;
