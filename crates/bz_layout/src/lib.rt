//! The layout of a file value, as text, and where it differs from that of another, window by window.
#![tactic(auto)]

mod breaks;
mod changed;
mod depth;
mod dotted;
mod draft;
mod gaps;
mod laws;
mod line_windows;
mod row_gaps;
mod setting;
mod spaces;
mod texts;
mod writer;

pub use breaks::{Lines, is_broken};
pub use changed::{Laid, text_windows};
pub use draft::Draft;
pub use laws::{
    build_layout_is_build, flags_keep_layout, flags_keep_layout_in, layout_is_accepted,
    layout_is_accepted_in, layout_is_too_deep, layout_is_too_deep_in, layout_reads_back,
    layout_reads_back_in, layouts_join, worked_rows, written_rows,
};
pub use setting::{SetFault, append_items, text_of_items, text_of_items_in};
pub use texts::{expr_text, item_text, push_expr};
pub use writer::TextWindow;
