//! The seven passes over file values that come before the layout.
#![tactic(auto)]

mod arguments;
mod borders;
mod flags;
mod labels;
mod laws;
mod leveling;
mod lists;
mod loads;
mod marks;
mod names;
mod newer;
mod quotes;
mod repeats;
mod runs;
mod strings;
mod symbols;
mod tidying;
mod walk;
mod windows;

pub use borders::begins_with_load;
pub use laws::{
    build_stays, comments_stay, flags_settle, level_keeps_comments, level_keeps_program,
    level_stays, marks_move, program_stays, proper_stays, sorting_is_the_one, tidied_alone,
    tidied_apart, tidy_settles, tidy_stays, tokens_stay, worked_passes, worked_programs,
};
pub use leveling::level;
pub use tidying::{tidy, tidy_build};
pub use windows::tidy_windows;
