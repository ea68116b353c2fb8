//! Edits of trees: the least step between two trees, exchange by steps, and trails: one tree, and the steps that lead from it to the trees
//! of other texts, as a list of whole texts.
#![tactic(auto)]

mod crossing;
mod edit;
mod exchanging;
mod front;
pub mod laws;
mod moves;
mod order;
mod part_windows;
mod place;
mod plan;
mod step;
mod uneven;
mod windows;

pub use crossing::copy_steps;
pub use edit::{Edit, EditFault};
pub use exchanging::{all_even, exchange, exchange_node};
pub use moves::{go_back, go_forward, put_after, take_up};
pub use part_windows::PartWindow;
pub use place::{all_places, swap_each};
pub use step::{Step, weight};
pub use windows::{advance, advance_windows};
