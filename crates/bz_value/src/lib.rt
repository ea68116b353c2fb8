//! File values: what a BUILD file says, without its gaps, each comment at its host.
#![tactic(auto)]

mod comments;
mod copy;
mod end_comments;
mod frame;
mod gap;
mod laws;
mod refusal;
mod same;
mod texts;
mod value;
mod windows;

pub use comments::Comments;
pub use end_comments::EndComments;
pub use frame::{
    is_binary, is_comprehension, is_header, is_operator_class, is_sequence, is_statement, is_suite,
    lead_of,
};
pub use gap::{
    Line, first_line, has_newline, past_first_line, push_all, push_others, suffix_in, trim_end,
};
pub use laws::{build_values_are_proper, worked_gaps};
pub use refusal::Refusal;
pub use value::{Expr, File, Form, Item, Seq, Token};
pub use windows::Window;
