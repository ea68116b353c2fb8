//! Tidying a file in which items came in the place of others of a tidy one.
ghost use Rattle.std.specs.Prelude.{◌≡◌, ◌≤◌, ◌<◌, ◌+◌, ◌∷◌, List, Ok, false, true, drop, length, take, IfSome, OnOk};
ghost use Rattle.bz_passes.specs.Words.{AreOver, AreWithin, Item, AreBuild};
ghost use Rattle.bz_passes.specs.Passes.{tidied as tidied_all};
ghost use Rattle.bz_passes.specs.private.Borders.{AreTidied, IsStillToTidy, tidied_over, AreInOrder, IsMoved, IsPlaceBack, IsPlaceOf, one_at};

use crate::borders::{set_apart, start_of_run};
use crate::runs::precedes;
use crate::tidying::tidy_items;
use bz_items::{Items, Memory};
use bz_value::{File, Item, Window};
use std::alloc::Global;
use std::mem;

/// Tidies what came in each window as if it were alone. The other items are not touched. The error: memory was refused; part of an
/// item may then be lost.
fn tidy_each(alloc: Global, windows: &[Window], items: &mut [Item]) -> Result<(), Memory>
    requires { AreWithin windows.now items.old }
    ensures { OnOk result (items.new ≡ tidied_over windows.now items.old) }
{
    let mut start = 0;
    for window in windows {
        let from = start + window.from;
        let end = from + window.come;
        tidy_items(alloc, &mut items[from..end])?;
        start = end;
    }
    Ok(())
}

/// The same in a file. The error: memory was refused; the file has no items then.
fn tidy_in(alloc: Global, windows: &[Window], file: &mut File) -> Result<(), Memory>
    requires within { AreWithin windows.now file.old }
    requires build { AreBuild file.old }
    ensures made { OnOk result (file.new ≡ tidied_over windows.now file.old) }
    ensures build { OnOk result (AreBuild file.new) }
{
    let mut items = mem::replace(&mut file.items, Items::new(alloc));
    tidy_each(alloc, windows, items.as_mut_slice())?;
    file.items = items;
    Ok(())
}

/// The place among others, which are in order, of an item that is after them: before those at their end that it precedes. One look at
/// each load at the end, and comparisons by halving; where it doesn't precede the last one, no more than that is compared.
fn place_back(item: &Item, others: &[Item]) -> usize
    ensures bound { result ≤ length others.now }
    ensures place { AreInOrder others.now → IsPlaceBack item.now result others.now }
{
    if !others.last().is_some_and(|last| precedes(item, last)) {
        return others.len();
    }
    let start = start_of_run(others);
    let (_, loads) = others.split_at(start);
    start + loads.partition_point(|other| !precedes(item, other))
}

/// The place to which the item at this place is to be moved; none where it isn't known to be one before it.
fn place_of_single(file: &File, from: usize) -> Option<usize>
    requires { from < length file.now }
    ensures { IfSome result (λ to. (to ≤ from) × ((item : Item) (rest : List Item) → drop from file.now ≡ item ∷ rest → AreInOrder (take from file.now) → IsPlaceOf item to (take from file.now) rest)) }
{
    let (front, rest) = file.items.as_slice().split_at(from);
    let (item, rest) = rest.split_first()?;
    if rest.first().is_some_and(|first| precedes(first, item)) {
        return None;
    }
    Some(place_back(item, front))
}

/// Moves the item at a place of a file to one before it. The error: memory was refused; the file has no items then.
fn move_back(alloc: Global, file: &mut File, from: usize, to: usize) -> Result<(), Memory>
    requires order { to ≤ from }
    requires within { from < length file.old }
    ensures { OnOk result (IsMoved from to file.old file.new) }
{
    let mut items = mem::replace(&mut file.items, Items::new(alloc)).into_vec();
    let item = items.remove(from);
    items.insert(to, item)?;
    file.items = Items::from_vec(items);
    Ok(())
}

/// The only window, where one item came in it.
fn single(windows: &[Window]) -> Option<Window>
    ensures { IfSome result (λ window. (windows.now ≡ one_at window.from window.gone) × (window.come ≡ 1)) }
{
    match windows {
        [window] if window.come == 1 => Some(*window),
        _ => None,
    }
}

/// Tidies the one item that came in the only window by itself, and moves it to its place among the loads before it, and the window
/// with it: then the answer is true. Where its place isn't known, it is tidied and stays, and where there are other windows
/// nothing is done. The error: memory was refused; the file has no items then.
fn tidy_single(alloc: Global, file: &mut File, windows: &mut Items<Window>) -> Result<bool, Memory>
    requires within { AreWithin windows.old file.old }
    requires build { AreBuild file.old }
    ensures done { result ≡ Ok true → AreTidied windows.old windows.new file.old file.new }
    ensures left { result ≡ Ok false → IsStillToTidy windows.old windows.new file.old file.new }
    ensures build { result ≡ Ok false → AreBuild file.new }
{
    let Some(window) = single(windows.as_slice()) else {
        return Ok(false);
    };
    tidy_in(alloc, windows.as_slice(), file)?;
    let Some(to) = place_of_single(file, window.from) else {
        return Ok(false);
    };
    if to == window.from {
        return Ok(true);
    }
    if window.gone != 0 {
        return Ok(false);
    }
    move_back(alloc, file, window.from, to)?;
    *windows.at_mut(0) = Window { from: to, ..window };
    Ok(true)
}

/// Tidies a BUILD file in which, at these windows, items came in the place of those of a tidy one: what came is tidied, window by window, and
/// what is elsewhere is not touched, since it is tidy and stays where it is. A load that came alone is moved to its place. Other
/// windows next to loads that are sorted with theirs become one, which holds these too. The windows are then where the file
/// differs from the tidy one. The error: memory was refused; the file has no items then.
pub fn tidy_windows(
    alloc: Global,
    file: &mut File,
    windows: &mut Items<Window>,
) -> Result<(), Memory>
    requires within { AreWithin windows.old file.old }
    requires build { AreBuild file.old }
    ensures within { OnOk result (AreWithin windows.new file.new) }
    ensures tidied { OnOk result ((before : List Item) → AreBuild before → tidied_all before ≡ before → AreOver windows.old before file.old → file.new ≡ tidied_all file.old) }
    ensures over { OnOk result ((before : List Item) → AreBuild before → tidied_all before ≡ before → AreOver windows.old before file.old → AreOver windows.new before file.new) }
{
    if tidy_single(alloc, file, windows)? {
        return Ok(());
    }
    set_apart(file.items.as_slice(), windows)?;
    tidy_in(alloc, windows.as_slice(), file)?;
    Ok(())
}
