//! Journals: a session's written, and a stranger's resumed, or refused.
#![tactic(auto)]

mod fault;
pub mod laws;
mod opening;
mod outlining;
mod pair;
mod pair_fault;
mod placing;
mod reading;
mod replaying;
mod resumed;
mod resuming;
mod saving;
mod splitting;
mod standing;
mod touching;

pub use bz_journal_format::Content;
pub use fault::ResumeFault;
pub use pair::{journal_name, keep};
pub use pair_fault::PairFault;
pub use resumed::Resumed;
pub use resuming::{begins_no_journal, resume};
pub use saving::{Saved, save_into};
