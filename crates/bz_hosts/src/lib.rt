//! The view of a tree as a file value, and the hosts of comments by their places.
#![tactic(auto)]

mod before;
mod commented;
mod expr;
mod groups;
mod headers;
mod joined;
mod laws;
mod marks;
mod moved;
mod rest;
mod suites;
mod viewing;

pub use joined::{begins_bare, ends_with_line};
pub use laws::{
    build_views, comments_kept, hosts_by_place, suites_join, views_are_proper, views_join,
    worked_hosts, worked_suites, worked_views,
};
pub use viewing::{into_front, into_view, view};
