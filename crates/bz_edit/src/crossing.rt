//! Over steps, from tree to tree.
ghost use Rattle.std.specs.Prelude.{◌≡◌, true, IfOk, OnOk, OnErr, IsOk};
ghost use Rattle.bz_edit.specs.Trails.{IsTree, LeadOn, reached, crossed, are_even as even_steps};

use crate::edit::EditFault;
use crate::exchanging::{all_even, cross_one, exchange};
use crate::step::Step;
use bz_grammar::{Node, Tree};
use bz_items::{Items, Memory};
use std::alloc::{AllocError, Global};

/// Whether each step is even.
fn are_even(steps: &[Step]) -> bool
    ensures { result ≡ even_steps steps.now }
{
    steps.iter().all(|step| all_even(step.edits.as_slice()))
}

/// Equal steps. The error: a growth was refused.
pub fn copy_steps(alloc: Global, steps: &[Step]) -> Result<Items<Step>, Memory>
    ensures { IfOk result (λ copied. copied ≡ steps.now) }
{
    let mut copied = Items::new(alloc);
    for step in steps {
        copied.push(step.copy()?)?;
    }
    Ok(copied)
}

/// Over steps, the first one first. Even ones take no memory. The error: a growth was refused; root and steps are then somewhere
/// between.
fn cross_each(root: &mut Node, steps: &mut [Step]) -> Result<(), Memory>
    requires tree { IsTree root.old }
    requires lead { LeadOn root.old steps.old }
    ensures root { OnOk result (root.new ≡ reached root.old steps.old) }
    ensures steps { OnOk result (steps.new ≡ crossed root.old steps.old) }
    ensures even { even_steps steps.old ≡ true → IsOk result }
{
    for i in 0..steps.len() {
        let step = &mut steps[i];
        cross_one(root, step)?;
    }
    Ok(())
}

/// Over steps, the first one first. Even ones take no memory; if some are uneven, tree and steps are copied once, and the copies are
/// then put in place. The error: a growth was refused; tree and steps are then as before.
#[tactic(auto, using(crate::proofs::Turn::as_tree))]
pub(crate) fn cross_all(tree: &mut Tree, steps: &mut [Step]) -> Result<(), Memory>
    requires tree { IsTree tree.old }
    requires lead { LeadOn tree.old steps.old }
    ensures tree { OnOk result (tree.new ≡ reached tree.old steps.old) }
    ensures steps { OnOk result (steps.new ≡ crossed tree.old steps.old) }
    ensures err { OnErr result ((tree.new ≡ tree.old) × (steps.new ≡ steps.old)) }
    ensures even { even_steps steps.old ≡ true → IsOk result }
{
    if let [step] = steps {
        return match exchange(tree, step) {
            Ok(()) => Ok(()),
            Err(EditFault::Memory) => Err(AllocError),
            Err(EditFault::BadPlace) => unreachable!(),
        };
    }
    if are_even(steps) {
        let _ = cross_each(&mut tree.root, steps);
        return Ok(());
    }
    let mut root = tree.root.copy()?;
    let mut turned = copy_steps(tree.root.parts.alloc(), steps)?;
    cross_each(&mut root, turned.as_mut_slice())?;
    *tree = Tree { root };
    steps.swap_with_slice(turned.as_mut_slice());
    Ok(())
}
