//! What changes a trail.
ghost use Rattle.std.specs.Prelude.{◌≡◌, ◌-◌, ◌+◌, ◌≤◌, ◌<◌, ◌++◌, ◌∷◌, [], true, take, length, vec_len, vec_capacity, OnOk, OnErr, IsOk};
ghost use Rattle.bz_grammar.specs.Spell.{spell_node};
ghost use Rattle.bz_edit.specs.Windows.{AreThere, with_windows};
ghost use Rattle.bz_edit.specs.Shown.{Moves, TakesUp};
ghost use Rattle.bz_edit.specs.Trails.{IsTrail, IsTree, trail_at, steps_back, steps_forward, are_even};

use crate::crossing::cross_all;
use crate::part_windows::PartWindow;
use crate::step::Step;
use crate::windows::advance_windows;
use bz_grammar::Tree;
use bz_items::{Items, Memory};

/// Puts an item after the first n, in the place of those that follow.
pub fn put_after<T: Drop>(items: &mut Vec<T>, n: usize, item: T)
    requires room { vec_len items.old < vec_capacity items.old }
    ensures { items.new.items ≡ take n items.old.items ++ item ∷ [] }
{
    items.truncate(n);
    items.push(item).unwrap();
}

/// Takes up the tree with the parts of the windows in the place of those that they say, which spells another text: the texts after
/// the present one are cut, and its text is appended and is the present one. The error: a growth was refused; tree and steps are
/// then as before.
#[tactic(auto, using(crate::proofs::Turn::as_tree))]
pub fn take_up(
    tree: &mut Tree,
    steps: &mut Vec<Step>,
    cursor: usize,
    windows: Items<PartWindow>,
) -> Result<(), Memory>
    requires trail { IsTrail (trail_at tree.old steps.old.items cursor) }
    requires there { AreThere windows tree.old.parts }
    requires next { IsTree (with_windows windows tree.old) }
    requires other { spell_node (with_windows windows tree.old) ≡ spell_node tree.old → ⊥ }
    ensures ok { OnOk result (TakesUp (trail_at tree.old steps.old.items cursor) (with_windows windows tree.old) (trail_at tree.new steps.new.items (cursor + 1))) }
    ensures err { OnErr result ((tree.new ≡ tree.old) × (steps.new.items ≡ steps.old.items)) }
{
    steps.reserve(1)?;
    let step = advance_windows(tree, windows)?;
    let _edits = &step.edits;
    put_after(steps, cursor, step);
    Ok(())
}

/// Back by n steps. Where each of their edits holds as many parts as it covers, it takes no memory. The error: a growth was
/// refused; tree and steps are then as before.
pub fn go_back(tree: &mut Tree, steps: &mut [Step], cursor: usize, n: usize) -> Result<(), Memory>
    requires trail { IsTrail (trail_at tree.old steps.old cursor) }
    requires within { n ≤ cursor }
    ensures ok { OnOk result (Moves (trail_at tree.old steps.old cursor) (trail_at tree.new steps.new (cursor - n))) }
    ensures even { are_even (take n (steps_back (trail_at tree.old steps.old cursor))) ≡ true → IsOk result }
    ensures err { OnErr result ((tree.new ≡ tree.old) × (steps.new ≡ steps.old)) }
{
    let passed = &mut steps[cursor - n..cursor];
    passed.reverse();
    let answer = cross_all(tree, passed);
    passed.reverse();
    answer
}

/// Forward by n steps. Where each of their edits holds as many parts as it covers, it takes no memory. The error: a growth
/// was refused; tree and steps are then as before.
pub fn go_forward(
    tree: &mut Tree,
    steps: &mut [Step],
    cursor: usize,
    n: usize,
) -> Result<(), Memory>
    requires trail { IsTrail (trail_at tree.old steps.old cursor) }
    requires within { cursor + n ≤ length steps.old }
    ensures ok { OnOk result (Moves (trail_at tree.old steps.old cursor) (trail_at tree.new steps.new (cursor + n))) }
    ensures even { are_even (take n (steps_forward (trail_at tree.old steps.old cursor))) ≡ true → IsOk result }
    ensures err { OnErr result ((tree.new ≡ tree.old) × (steps.new ≡ steps.old)) }
{
    cross_all(tree, &mut steps[cursor..cursor + n])
}
