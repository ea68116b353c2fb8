//! What was looked up and outlives a change: an index of names, where each item that changed has the name that is listed at its place; hashes of
//! names and paths of loads, with those of what came.
ghost use Rattle.std.specs.Prelude.{◌≡◌, ◌<◌, ◌+◌, ◌^◌, List, IfSome, IsTrue, length, map};
ghost use Rattle.bz_journal.specs.Clauses.{AreListed, AreOver, HasListedName, HaveListedNames, HaveListedNamesIn, IsIndexOf, Item, item_hash};

use bz_command::{LoadedPaths, hashes_over};
use bz_items::Items;
use bz_rule::{Names, held_name};
use bz_value::{Item, Window};
use std::alloc::Global;

/// Whether an item has the name that is listed at its place.
fn is_listed(index: &Names, at: usize, item: &Item) -> bool
    ensures { IsTrue result → HasListedName index.now at item.now }
{
    match held_name(item) {
        Some(name) => index.places(name).contains(&at),
        None => false,
    }
}

/// The same of items from a place on.
fn are_listed(index: &Names, from: usize, items: &[Item]) -> bool
    requires { from + length items.now < 2 ^ 63 }
    ensures { IsTrue result → HaveListedNames index.now from items.now }
{
    for at in 0..items.len() {
        if !is_listed(index, from + at, &items[at]) {
            return false;
        }
    }
    true
}

/// Whether in each window there are as many items as were, each of the name that is listed at its place.
fn all_listed(index: &Names, windows: &[Window], items: &[Item]) -> bool
    ensures { IsTrue result → HaveListedNamesIn index.now 0 windows.now items.now }
{
    let mut at = 0;
    let mut left = items;
    for window in windows {
        let count = window.come;
        if window.gone != count || window.from > left.len() || count > left.len() - window.from {
            return false;
        }
        let come = &left[window.from..window.from + count];
        if !are_listed(index, at + window.from, come) {
            return false;
        }
        at += window.from + count;
        left = &left[window.from + count..];
    }
    true
}

/// The index, where it is that of these items too, which are other ones than those that it is of in these windows alone.
pub(crate) fn outlives(names: Option<Names>, windows: &[Window], items: &[Item]) -> Option<Names>
    ensures { (before : List Item) → AreOver windows.now before items.now → IfSome names (λ index. IsIndexOf index before)
        → IfSome result (λ index. IsIndexOf index items.now) }
{
    match names {
        Some(index) if all_listed(&index, windows, items) => Some(index),
        _ => None,
    }
}

/// The hashes of the names of these items, which are other ones than those of which they are in these windows alone; none where they are to be made anew.
pub(crate) fn hashed(
    alloc: Global,
    hashes: Option<Items<u64>>,
    windows: &[Window],
    items: &[Item],
) -> Option<Items<u64>>
    ensures { (before : List Item) → AreOver windows.now before items.now → IfSome hashes (λ hashes. hashes ≡ map item_hash before)
        → IfSome result (λ hashes. hashes ≡ map item_hash items.now) }
{
    match hashes {
        Some(hashes) => hashes_over(alloc, hashes, windows, items),
        None => None,
    }
}

/// The paths from which these items load too, which are other ones than those of which they are in these windows alone; none where memory was refused.
pub(crate) fn followed(
    alloc: Global,
    paths: Option<LoadedPaths>,
    windows: &[Window],
    items: &[Item],
) -> Option<LoadedPaths>
    ensures { (before : List Item) → AreOver windows.now before items.now → IfSome paths (λ loaded. AreListed loaded before)
        → IfSome result (λ loaded. AreListed loaded items.now) }
{
    let Some(mut loaded) = paths else {
        return None;
    };
    match loaded.follow_windows(alloc, windows, items) {
        Ok(()) => Some(loaded),
        Err(_) => None,
    }
}
