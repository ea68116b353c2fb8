//! Whether a tree stays the same one with other parts in it.
ghost use Rattle.std.specs.Prelude.{◌≡◌, ◌↔◌, ◌≤◌, IsTrue, drop, length, take};
ghost use Rattle.bz_edit.specs.Windows.{AreThere, window_parts};

use bz_edit::PartWindow;
use bz_grammar::Part;

/// Whether the parts have these from a place on.
fn has_there(parts: &[Part], at: usize, others: &[Part]) -> bool
    requires { at ≤ length parts.now }
    ensures { IsTrue result ↔ (take (length others.now) (drop at parts.now) ≡ others.now) }
{
    let (_passed, rest) = parts.split_at(at);
    if others.len() > rest.len() {
        return false;
    }
    for place in 0..others.len() {
        if !rest[place].equals(&others[place]) {
            return false;
        }
    }
    true
}

/// Whether parts stay the same with these windows. Where as many parts came as went only those of the windows are looked at.
pub(crate) fn stay(windows: &[PartWindow], parts: &[Part]) -> bool
    requires { AreThere windows.now parts.now }
    ensures { IsTrue result ↔ (window_parts windows.now parts.now ≡ parts.now) }
{
    let mut old = 0;
    let mut new = 0;
    for window in windows {
        let between = &parts[old..old + window.from];
        if new != old && !has_there(parts, new, between) {
            return false;
        }
        new += window.from;
        if !has_there(parts, new, window.parts.as_slice()) {
            return false;
        }
        new += window.parts.len();
        old += window.from + window.gone;
    }
    old == new
}
