//! The form of a journal, as data: what its bytes are, a writer that appends just these, and a reader that takes just these.
//! Whether its steps lead from text to text is no question of this crate.
#![tactic(auto)]

mod content;
mod entries;
mod fault;
mod fields;
mod kept;
pub mod laws;
mod limits;
mod lines;
mod mark_fields;
pub mod mark_laws;
mod parts;
mod pushing;
mod reading;
mod unread;
mod version;
mod writing;

pub use content::{Content, Record, RecordedStep, Version};
pub use fault::RecordFault;
pub use kept::KeptLines;
pub use limits::{SHORT_LIMIT, STEP_LIMIT};
pub use mark_fields::{
    read_counted, read_digest, read_field, read_mark, read_number, read_number_up_to, split_line,
    strip_mark,
};
pub use pushing::{hex_digits, push_counted, push_number};
pub use reading::read_record;
pub use unread::Unread;
pub use writing::record_bytes;
