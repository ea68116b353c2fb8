//! Labels, the tables and the order of attributes and keys, and the targets of commands.
//!
//! What a call makes is a `Text` of `bz_items`; the calls that take no memory are in `bytes`. A package is named by its path, and
//! the root package by the empty text.
#![tactic(auto)]

pub mod bytes;
mod form;
mod label;
pub mod laws;
mod piece;
mod target;

pub use bytes::{is_sorted, key_cmp, priority, same, shortened as shorten};
pub use label::{Label, LabelFault};
pub use target::{Target, TargetFault, Which};
