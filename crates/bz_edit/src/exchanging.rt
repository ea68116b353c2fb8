//! Exchange by steps.
ghost use Rattle.std.specs.Prelude.{◌≡◌, ◌≤◌, length, true, false, ◌↔◌, IsOk, OnOk, OnErr, Err};
ghost use Rattle.bz_grammar.specs.Legal.{Legal};
ghost use Rattle.bz_grammar.specs.Spell.{spell_node, limit};
ghost use Rattle.bz_edit.specs.Steps.{swap_node, all_there, turned_all, all_even as even_all};

use crate::edit::{Edit, EditFault};
use crate::place::{all_places, swap_each};
use crate::step::Step;
use bz_grammar::{Node, Tree};
use bz_items::{Items, Memory};

/// Whether each edit holds as many parts as it covers.
pub fn all_even(edits: &[Edit]) -> bool
    ensures { result ≡ even_all edits.now }
{
    edits
        .iter()
        .all(|edit| edit.count as usize == edit.held.len())
}

/// Over a step whose places are in the node. Even edits take no memory. The error: a growth was refused; node and step are then
/// somewhere between.
pub(crate) fn cross_one(node: &mut Node, step: &mut Step) -> Result<(), Memory>
    requires short { length (spell_node node.old) ≤ limit }
    requires there { all_there step.old node.old ≡ true }
    ensures node { OnOk result (node.new ≡ swap_node step.old node.old) }
    ensures step { OnOk result (step.new ≡ turned_all node.old step.old) }
    ensures even { even_all step.old ≡ true → IsOk result }
{
    let none = Items::new(step.edits.alloc());
    let mut edits = std::mem::replace(&mut step.edits, none);
    swap_each(node, edits.as_mut_slice())?;
    step.edits = edits;
    Ok(())
}

/// What is held and what is at the places change sides. A step whose edits all hold as many parts as they cover takes
/// no memory. It and one of one edit are made in place, others on copies, which are then put in place. The errors: a place is not in
/// the node, or a growth was refused; node and step are then as before.
pub fn exchange_node(node: &mut Node, step: &mut Step) -> Result<(), EditFault>
    requires { length (spell_node node.old) ≤ limit }
    ensures node { OnOk result (node.new ≡ swap_node step.old node.old) }
    ensures step { OnOk result (step.new ≡ turned_all node.old step.old) }
    ensures err { OnErr result ((node.new ≡ node.old) × (step.new ≡ step.old)) }
    ensures bad_place { (result ≡ Err EditFault.BadPlace) ↔ (all_there step.old node.old ≡ false) }
    ensures even { even_all step.old ≡ true → all_there step.old node.old ≡ true → IsOk result }
{
    if !all_places(node, step.edits.as_slice()) {
        return Err(EditFault::BadPlace);
    }
    if all_even(step.edits.as_slice()) || step.edits.len() == 1 {
        swap_each(node, step.edits.as_mut_slice())?;
        return Ok(());
    }
    let mut trial = node.copy()?;
    let mut turned = step.copy()?;
    cross_one(&mut trial, &mut turned)?;
    *node = trial;
    *step = turned;
    Ok(())
}

/// The same on a tree. The caller owes a step that makes a legal tree within the limit, where its places are all there.
pub fn exchange(tree: &mut Tree, step: &mut Step) -> Result<(), EditFault>
    requires { all_there step.old tree.old ≡ true → Legal (swap_node step.old tree.old) × (length (spell_node (swap_node step.old tree.old)) ≤ limit) }
    ensures tree { OnOk result (tree.new ≡ swap_node step.old tree.old) }
    ensures step { OnOk result (step.new ≡ turned_all tree.old step.old) }
    ensures err { OnErr result ((tree.new ≡ tree.old) × (step.new ≡ step.old)) }
    ensures bad_place { (result ≡ Err EditFault.BadPlace) ↔ (all_there step.old tree.old ≡ false) }
    ensures even { even_all step.old ≡ true → all_there step.old tree.old ≡ true → IsOk result }
{
    exchange_node(&mut tree.root, step)
}
