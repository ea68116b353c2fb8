//! Places in a tree, and what is there exchanged.
ghost use Rattle.std.specs.Prelude.{◌≡◌, [], ◌+◌, ◌<◌, ◌≤◌, true, length, OnOk, OnErr, IsOk};
ghost use Rattle.bz_edit.specs.Places.{has_place as place_there, covered, parts_put};
ghost use Rattle.bz_edit.specs.Steps.{swap_node, all_there, AllApart, all_even, CountsFit, turned_all};

use crate::edit::Edit;
use bz_grammar::{Node, Part};
use bz_items::{Items, Memory};

/// Whether a place is in the tree.
fn has_place(node: &Node, path: &[u32], at: u32, count: u32) -> bool
    ensures { result ≡ place_there path.now at count node.now }
{
    match path {
        [] => at as usize + count as usize <= node.parts.len(),
        [first, rest @ ..] => match bz_items::at(node.parts.as_slice(), *first as usize) {
            Some(Part::Node(child)) => has_place(child, rest, at, count),
            _ => false,
        },
    }
}

/// Exchanges what is held with the parts at a place that is there. As many parts take no memory. The error: a growth was
/// refused; both are then as before.
pub fn swap_at(
    node: &mut Node,
    path: &[u32],
    at: usize,
    count: usize,
    held: &mut Items<Part>,
) -> Result<(), Memory>
    requires { place_there path.now at count node.old ≡ true }
    ensures node { OnOk result (node.new ≡ parts_put path.now at count held.old node.old) }
    ensures held { OnOk result (held.new ≡ covered path.now at count node.old) }
    ensures err { OnErr result ((node.new ≡ node.old) × (held.new ≡ held.old)) }
    ensures in_place { count ≡ length held.old → IsOk result }
{
    match path {
        [] => Ok(node.parts.splice(at, count, held)?),
        [first, rest @ ..] => match node.parts.at_mut(*first as usize) {
            Part::Leaf(_) => unreachable!(),
            Part::Node(child) => swap_at(child, rest, at, count, held),
        },
    }
}

/// Whether all places are in the tree.
pub fn all_places(node: &Node, edits: &[Edit]) -> bool
    ensures { result ≡ all_there edits.now node.now }
{
    edits.iter().all(|edit| has_place(node, edit.path.as_slice(), edit.at, edit.count))
}

/// Makes all edits; where each holds as many parts as it covers, it takes no memory. The error: a growth was refused; node and
/// edits are then somewhere between, and one edit alone and its node as before.
pub fn swap_each(node: &mut Node, edits: &mut [Edit]) -> Result<(), Memory>
    requires apart { AllApart edits.old }
    requires counts { CountsFit edits.old }
    requires there { all_there edits.old node.old ≡ true }
    ensures node { OnOk result (node.new ≡ swap_node edits.old node.old) }
    ensures edits { OnOk result (edits.new ≡ turned_all node.old edits.old) }
    ensures even { all_even edits.old ≡ true → IsOk result }
    ensures alone { length edits.old ≤ 1 → OnErr result ((node.new ≡ node.old) × (edits.new ≡ edits.old)) }
{
    for i in 0..edits.len() {
        let edit = &mut edits[i];
        let held = edit.held.len();
        let path = edit.path.as_slice();
        let (at, count) = (edit.at as usize, edit.count as usize);
        swap_at(node, path, at, count, &mut edit.held)?;
        edit.count = held as u32;
    }
    Ok(())
}
