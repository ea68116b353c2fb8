//! Steps made on a node that may be left half changed where memory is refused, so that neither of the two is copied as a whole.
ghost use Rattle.std.specs.Prelude.{◌≡◌, IsTrue, true, IfOk, OnOk};
ghost use Rattle.bz_resume.specs.Words.{spell_node, IsStep, all_there, swap_node};

use bz_edit::{Step, all_places, swap_each};
use bz_grammar::Node;
use bz_items::Memory;

/// The node becomes the one that a step makes of it, whose places are in the node. The error: a growth was refused; the node is
/// then somewhere between.
fn swap_by_copy(node: &mut Node, step: &Step) -> Result<(), Memory>
    requires { all_there step.now node.old ≡ true }
    ensures { OnOk result (node.new ≡ swap_node step.now node.old) }
{
    let made = step.copy()?;
    let _places = made.edits.as_slice();
    let mut edits = made.into_edits().into_vec();
    swap_each(node, edits.as_mut_slice())?;
    Ok(())
}

/// The node becomes the one that a step makes of it, and `text` its text. `false`: a place of the step is not in the node. The error: a growth
/// was refused; the node is then somewhere between.
pub(crate) fn go_on(node: &mut Node, text: &mut Vec<u8>, step: &Step) -> Result<bool, Memory>
    ensures step { IsStep step.now }
    ensures there { IfOk result (λ there. there ≡ all_there step.now node.old) }
    ensures node { IfOk result (λ there. IsTrue there → node.new ≡ swap_node step.now node.old) }
    ensures text { IfOk result (λ there. IsTrue there → text.new.items ≡ spell_node node.new) }
{
    if !all_places(node, step.edits.as_slice()) {
        return Ok(false);
    }
    swap_by_copy(node, step)?;
    text.clear();
    node.spell_into(text)?;
    Ok(true)
}
