//! Where windows of items begin and end: whether loads are sorted across, and wider windows that no load is sorted into or out of.
ghost use Rattle.std.specs.Prelude.{◌≡◌, ◌≤◌, ◌<◌, ◌+◌, ◌-◌, ◌∷◌, [], false, drop, length, take, IfOk, IsTrue, OnOk};
ghost use Rattle.bz_value.specs.Windows.{AreWithin};
ghost use Rattle.bz_passes.specs.Joined.{begins_with_load as begins_so};
ghost use Rattle.bz_passes.specs.private.Borders.{AreLoads, AreSetApart, all_joined, any_touched as any_so, ends_with_load as ends_so, touches as touches_so};

use crate::runs::InRuns;
use bz_items::{Items, Memory};
use bz_value::{Item, Window};
use std::alloc::AllocError;

/// Whether the first item is a load that is sorted with its neighbours.
pub fn begins_with_load(items: &[Item]) -> bool
    ensures load { result ≡ begins_so items.now }
    ensures some { IsTrue result → 0 < length items.now }
{
    items.first().is_some_and(|first| first.is_comparable())
}

/// Whether the item before a place is one.
fn is_past_load(items: &[Item], at: usize) -> bool
    requires { at ≤ length items.now }
    ensures load { result ≡ ends_so (take at items.now) }
    ensures some { IsTrue result → 0 < at }
{
    if at == 0 {
        return false;
    }
    items[at - 1].is_comparable()
}

/// Whether such loads are on both sides of a place.
fn touches(items: &[Item], at: usize) -> bool
    requires { at ≤ length items.now }
    ensures { result ≡ touches_so at items.now }
{
    is_past_load(items, at) && begins_with_load(items.split_at(at).1)
}

/// Whether they are on both sides of where any window begins or ends.
fn any_touched(items: &[Item], windows: &[Window]) -> bool
    requires { AreWithin windows.now items.now }
    ensures { result ≡ false → any_so windows.now items.now ≡ false }
{
    let mut left = items;
    for window in windows {
        let end = window.from + window.come;
        if touches(left, window.from) || touches(left, end) {
            return true;
        }
        left = left.split_at(end).1;
    }
    false
}

/// Where the loads begin that are sorted together and reach up to the end; the end itself where none do.
pub(crate) fn start_of_run(items: &[Item]) -> usize
    ensures bound { result ≤ length items.now }
    ensures whole { ends_so (take result items.now) ≡ false }
    ensures loads { AreLoads (drop result items.now) }
{
    let mut start = items.len();
    while is_past_load(items, start) {
        start -= 1;
    }
    start
}

/// Where the loads end that are sorted together and begin at a place; that place itself where none do.
fn end_of_run(items: &[Item], at: usize) -> usize
    requires { at ≤ length items.now }
    ensures bound { (at ≤ result) × (result ≤ length items.now) }
    ensures whole { begins_so (drop result items.now) ≡ false }
{
    let mut end = at;
    while begins_with_load(items.split_at(end).1) {
        end += 1;
    }
    end
}

/// The sum. The error: no list is that long.
fn sum(count: usize, other: usize) -> Result<usize, Memory>
    ensures { IfOk result (λ all. all ≡ count + other) }
{
    count.checked_add(other).ok_or(AllocError)
}

/// All windows from the first to the last, and the items between them, as one. The error: no list is that long.
fn joined(first: Window, others: &[Window]) -> Result<Window, Memory>
    ensures { IfOk result (λ all. all ≡ all_joined first others.now) }
{
    let mut all = first;
    for next in others {
        all.gone = sum(sum(all.gone, next.from)?, next.gone)?;
        all.come = sum(sum(all.come, next.from)?, next.come)?;
    }
    Ok(all)
}

/// The window that is wider by the loads that are sorted together and reach into it. The error: no list is that long.
fn widened(items: &[Item], window: Window) -> Result<Window, Memory>
    requires { window.from + window.come ≤ length items.now }
    ensures { IfOk result (λ wide. AreSetApart (window ∷ []) (wide ∷ []) items.now) }
{
    let start = start_of_run(items.split_at(window.from).0);
    let come = end_of_run(items, window.from + window.come) - start;
    let gone = sum(window.gone, come - window.come)?;
    Ok(Window {
        from: start,
        gone,
        come,
    })
}

/// Makes the windows ones that no load is sorted into or out of. Where loads are on both sides of a border, that is one window from
/// the first to the last, wider by these loads. The error: memory was refused; the windows are then as before.
pub(crate) fn set_apart(items: &[Item], windows: &mut Items<Window>) -> Result<(), Memory>
    requires { AreWithin windows.old items.now }
    ensures { OnOk result (AreSetApart windows.old windows.new items.now) }
{
    if !any_touched(items, windows.as_slice()) {
        return Ok(());
    }
    let Some((first, others)) = windows.as_slice().split_first() else {
        return Ok(());
    };
    let all = joined(*first, others)?;
    let wide = widened(items, all)?;
    *windows = Items::from_vec(Vec::from_slice(windows.alloc(), &[wide])?);
    Ok(())
}
