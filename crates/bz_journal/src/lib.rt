//! Editing a BUILD file with exact undo: a history of whole texts, and the session that keeps it as one tree and steps.
#![tactic(auto)]

mod action;
mod alone;
mod answering;
mod course;
mod digest;
mod digests;
mod doing;
mod filling;
mod keeping;
mod lasting;
mod laws;
mod listing;
mod making;
mod meaning;
mod moving;
mod naming;
mod past;
mod session;
mod staying;

pub use action::{Action, Reply};
pub use bz_files::{DiskFiles, FileFault, FileKind, Files, MemoryFiles};
pub use bz_resume::ResumeFault;
pub use keeping::KeepFault;
pub use laws::{
    alike_goes_on, history_kept, past_holds, session_holds, stopped_is_resumed, worked_histories,
};
pub use past::Past;
pub use session::Session;
