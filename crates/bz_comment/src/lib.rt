//! The comments of a rule, of its attributes and of the items of its lists: a comment put above, all comments taken away, and
//! the comments as they are printed.
#![tactic(auto)]

mod changing;
mod hosts;
mod laws;

pub use changing::{Change, change_own};
pub use hosts::{change_comments, print_comments};
pub use laws::{
    comment_loses_none, comment_taken_away, own_comment_loses_none, own_comment_taken_away,
    worked_comments,
};
