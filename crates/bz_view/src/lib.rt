//! File values: what a tree says, and the tree that says what a value does. The work is in the crates below; this one has their names
//! in one place.
#![tactic(auto)]

pub use bz_build_format::set;
pub use bz_hosts::view;
pub use bz_layout::SetFault;
pub use bz_value::{Comments, Expr, File, Form, Item, Seq, Token};
