//! Where a trail matches the text of a file.
ghost use Rattle.std.specs.Prelude.{◌≡◌, ◌≤◌, IfOk, OnOk, length};
ghost use Rattle.std.specs.Str.{bytes_eq};
ghost use Rattle.bz_resume.specs.Words.{spell_node, IsTrail, trail_at, Moves};
ghost use Rattle.bz_resume.specs.private.Agreement.{HasStood};

use bz_edit::laws::texts_kept;
use bz_edit::{Step, go_back, go_forward};
use bz_grammar::Tree;
use bz_items::Memory;

/// Whether the tree spells this text. The error: a growth was refused.
fn spells(tree: &Tree, text: &[u8]) -> Result<bool, Memory>
    ensures { IfOk result (λ spelled. spelled ≡ bytes_eq text.now (spell_node tree.now)) }
{
    let mut own = Vec::new(tree.root.parts.alloc());
    tree.spell_into(&mut own)?;
    Ok(text == own.as_slice())
}

/// To the text of a number. The error: a growth was refused; tree and steps are then as before.
fn go_to(tree: &mut Tree, steps: &mut [Step], cursor: usize, to: usize) -> Result<(), Memory>
    requires trail { IsTrail (trail_at tree.old steps.old cursor) }
    requires within { to ≤ length steps.old }
    ensures { OnOk result (Moves (trail_at tree.old steps.old cursor) (trail_at tree.new steps.new to)) }
{
    if to <= cursor {
        go_back(tree, steps, cursor, cursor - to)
    } else {
        go_forward(tree, steps, cursor, to - cursor)
    }
}

/// Goes where the trail matches a text, and gives the number of that one; `None` where it matches it nowhere. The error: a growth
/// was refused.
pub(crate) fn stand(
    tree: &mut Tree,
    steps: &mut [Step],
    cursor: usize,
    before: usize,
    text: &[u8],
) -> Result<Option<usize>, Memory>
    requires trail { IsTrail (trail_at tree.old steps.old cursor) }
    requires within { before ≤ length steps.old }
    ensures { IfOk result (HasStood (trail_at tree.old steps.old cursor) before text.now tree.new steps.new) }
{
    texts_kept();
    if spells(tree, text)? {
        return Ok(Some(cursor));
    }
    go_to(tree, steps, cursor, before)?;
    if spells(tree, text)? {
        return Ok(Some(before));
    }
    Ok(None)
}
