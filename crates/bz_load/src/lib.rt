//! The loads of a file: symbols that are loaded too, or from one path alone, paths in which a pattern is replaced, symbols that nothing uses, and the package after the loads.
#![tactic(auto)]

mod adding;
mod fixing;
mod gathering;
mod laws;
mod paths;
mod readings;
mod renaming;
mod replacing;
mod usages;
mod windows;

pub use adding::{WithLoad, new_load};
pub use fixing::fix;
pub use laws::{
    adding_repos_again, comments_stay, dropping_again, fixing_again, loading_again, loading_alone,
    loads_stay_proper, moving_again, replacing_again, repos_keep_comments, repos_there_and_back,
    usages_stay_proper, worked_loads, worked_usages,
};
pub use paths::LoadedPaths;
pub use renaming::substitute_load;
pub use replacing::replace_load;
pub use usages::{use_repo_add, use_repo_remove};
pub use windows::{Growing, put_window, window_between, windows_of};
