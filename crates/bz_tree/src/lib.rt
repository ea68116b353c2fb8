//! The parser: a text is read as the one legal tree that spells it, or refused with its first fault.
#![tactic(auto)]

mod expressions;
mod indented;
mod parser;
mod parsing;
mod stack;

pub use bz_grammar::{
    Class, DEPTH_LIMIT, Kind, LENGTH_LIMIT, Leaf, Node, Part, ReadFault, Tree, laws,
};
pub use bz_lex::lex;
pub use parsing::{parse, parse_bzl, unexpected_at};
