//! Which items of a file came in the place of others.

/// Items that came in the place of others, which are there no more, counted in items.
#[derive(Clone, Copy)]
pub struct Window {
    /// How many items stay before them, since the window before or from the beginning.
    pub from: usize,
    /// How many were taken out.
    pub gone: usize,
    /// How many were put in.
    pub come: usize,
}
