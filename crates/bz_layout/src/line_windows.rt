//! Windows that count the lines of what was taken out. Of the items that were there only the lines of the tree are known.
ghost use Rattle.std.specs.Prelude.{◌≡◌, ◌+◌, ◌≤◌, ◌∷◌, [], drop, length, take, List, IfSome};
ghost use Rattle.bz_layout.specs.private.Windows as counts;
ghost use Rattle.bz_layout.specs.Words.{AreOver, AreWithin, Item};

use bz_value::{Item, Window};

/// How many lines the items have, the end not counted.
#[tactic(auto, using(crate::proofs::Windows::counted))]
pub fn count_lines(items: &[Item]) -> usize
    ensures { result ≡ counts.line_count_in items.now }
{
    items
        .iter()
        .filter(|item| matches!(item, Item::Stmt(_)))
        .count()
}

/// The items that stay before a window, those of it that came, and those past it.
pub fn split_window<'a>(items: &'a [Item], window: &Window) -> (&'a [Item], &'a [Item], &'a [Item])
    requires { window.now.from + window.now.come ≤ length items.now }
    ensures stay { result.0.now ≡ take window.now.from items.now }
    ensures come { result.1.now ≡ take window.now.come (drop window.now.from items.now) }
    ensures past { result.2.now ≡ drop (window.now.from + window.now.come) items.now }
{
    let (stay, others) = items.split_at(window.from);
    let (come, past) = others.split_at(window.come);
    (stay, come, past)
}

/// How many lines the items have; where it is said that each is one, they are not looked at.
pub fn lines_in(each_is_line: bool, items: &[Item]) -> usize
    ensures { counts.HaveLines each_is_line items.now → result ≡ counts.line_count_in items.now }
{
    if each_is_line {
        items.len()
    } else {
        count_lines(items)
    }
}

/// How many items there were where there are this many now; none where no list has as many.
pub fn old_count(windows: &[Window], items: usize) -> Option<usize>
    ensures { IfSome result (λ count. count ≡ counts.old_count windows.now items) }
{
    let mut count = items;
    for window in windows {
        count = count.checked_sub(window.come)?.checked_add(window.gone)?;
    }
    Some(count)
}

/// How many lines there were, if each item that was taken out had one; none where no list has as many.
#[tactic(auto, using(crate::proofs::LineWindows::within_next))]
pub fn old_lines(items: &[Item], windows: &[Window]) -> Option<usize>
    requires { AreWithin windows.now items.now }
    ensures { IfSome result (λ count. count ≡ counts.old_lines windows.now items.now) }
{
    let mut count: usize = 0;
    let mut rest = items;
    for window in windows {
        let (stay, _come, past) = split_window(rest, window);
        count = count
            .checked_add(count_lines(stay))?
            .checked_add(window.gone)?;
        rest = past;
    }
    count.checked_add(count_lines(rest))
}

/// How many items are before the end of the last window.
#[tactic(auto, using(crate::proofs::LineWindows::within_next))]
fn come_end(items: &[Item], windows: &[Window]) -> usize
    requires { AreWithin windows.now items.now }
    ensures end { result ≡ counts.come_end windows.now }
    ensures within { result ≤ length items.now }
{
    let mut rest = items;
    for window in windows {
        rest = split_window(rest, window).2;
    }
    items.len() - rest.len()
}

/// All windows as one, which counts lines, if the tree had this many.
pub fn all_as_one(items: &[Item], windows: &[Window], lines: usize) -> Window
    requires { AreWithin windows.now items.now }
    ensures within { result.from + result.come ≤ length items.now }
    ensures over { (before : List Item) → counts.line_count_in before ≡ lines → AreOver windows.now before items.now → counts.AreLinesOver (result ∷ []) before items.now }
{
    let from = windows.first().map_or(0, |first| first.from);
    let end = come_end(items, windows);
    let past_front = lines.saturating_sub(count_lines(&items[..from]));
    Window {
        from,
        gone: past_front.saturating_sub(count_lines(&items[end..])),
        come: end - from,
    }
}
