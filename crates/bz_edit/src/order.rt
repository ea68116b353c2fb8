//! Which edits may follow one another.
ghost use Rattle.std.specs.Prelude.{◌≡◌};
ghost use Rattle.bz_edit.specs.private.Tests.{may_follow as follows, all_follow as follow_all, counts_fit as fit_counts};

use crate::edit::Edit;

/// Whether an edit may be before another in a step.
fn may_follow(edit: &Edit, next: &Edit) -> bool
    ensures { result ≡ follows edit.now next.now }
{
    let even = edit.count as usize == edit.held.len();
    let next_even = next.count as usize == next.held.len();
    let end = edit.at as u64 + edit.count as u64;
    let mut path = edit.path.as_slice();
    let mut other = next.path.as_slice();
    while let Some((&i, rest)) = path.split_first() {
        let Some((&j, others)) = other.split_first() else {
            return next_even && i < next.at;
        };
        if i != j {
            return i < j;
        }
        path = rest;
        other = others;
    }
    match other.first() {
        Some(&j) => even && end <= j as u64,
        None => even && next_even && (edit.at < next.at && end <= next.at as u64),
    }
}

/// Whether each edit may be followed by the next one.
pub fn all_follow(edits: &[Edit]) -> bool
    ensures { result ≡ follow_all edits.now }
{
    edits.is_sorted_by(|edit, next| may_follow(edit, next))
}

/// Whether each number of parts fits the type that it is kept in.
pub fn counts_fit(edits: &[Edit]) -> bool
    ensures { result ≡ fit_counts edits.now }
{
    edits.iter().all(|edit| (edit.count as usize).max(edit.held.len()) <= u32::MAX as usize)
}
