//! Over the steps of a stranger, each of which is tested. No more than one tree is held at a time.
ghost use Rattle.std.specs.Prelude.{◌≡◌, ◌<◌, ◌∷◌, [], ◌↔◌, IsTrue, IfOk, IfSome, MatchOption, length};
ghost use Rattle.bz_resume.specs.Words.{sha256, Node, Reads, spell_node, swap_node, IsTree};
ghost use Rattle.bz_resume.specs.private.Agreement.{StepAgrees, StepsAgree, as_taken};

use crate::outlining::outline_of;
use crate::placing::go_on;
use crate::reading::read;
use crate::touching::is_led_to;
use bz_edit::Step;
use bz_grammar::{LENGTH_LIMIT, Node, Tree};
use bz_items::{Items, Memory};
use sha2::{Digest, Sha256};
use std::alloc::Global;

/// Which way steps are taken: on from the first one, or back from the last one.
#[derive(Clone, Copy)]
pub(crate) enum Way {
    On,
    Back,
}

/// Whether a node is a legal tree within the limit, by its spelling. The node is dropped while its spelling is read, since two
/// trees take most of the memory of a run; it is the same again after that, where it is a tree. The error: a growth was refused.
fn is_tree(node: &mut Node, text: &[u8]) -> Result<bool, Memory>
    requires { text.now ≡ spell_node node.old }
    ensures fine { IfOk result (λ fine. IsTrue fine ↔ IsTree node.old) }
    ensures node { IfOk result (λ fine. IsTrue fine → node.new ≡ node.old) }
{
    let alloc = node.parts.alloc();
    let outline = outline_of(node)?;
    node.parts = Items::new(alloc);
    let Some(tree) = read(alloc, text)? else {
        return Ok(false);
    };
    let Tree { root } = tree;
    *node = root;
    let own = outline_of(node)?;
    Ok(own.as_slice() == outline.as_slice())
}

/// Whether a text has a digest.
pub(crate) fn has_digest(text: &[u8], digest: &[u8; 32]) -> bool
    ensures { IsTrue result ↔ (sha256 text.now ≡ digest.now) }
{
    let own = Sha256::digest(text);
    own.as_slice() == digest.as_slice()
}

/// The same of the node to which a step led from a tree: first by what the step touched, and by the whole text only where that
/// says nothing.
fn is_next_tree(node: &mut Node, step: &Step, text: &[u8]) -> Result<bool, Memory>
    requires { text.now ≡ spell_node node.old }
    ensures fine { (from : Node) → IsTree from → node.old ≡ swap_node step.now from → IfOk result (λ fine. IsTrue fine ↔ IsTree node.old) }
    ensures node { IfOk result (λ fine. IsTrue fine → node.new ≡ node.old) }
{
    if text.len() <= LENGTH_LIMIT as usize && is_led_to(node, step.edits.as_slice()) {
        return Ok(true);
    }
    is_tree(node, text)
}

/// Whether a step leads from a tree to another text, with this digest; the node is then the next tree, and `text` its text. `next` is room
/// for a text. The error: a growth was refused.
fn goes_on(
    node: &mut Node,
    text: &mut Vec<u8>,
    next: &mut Vec<u8>,
    step: &Step,
    digest: &[u8; 32],
) -> Result<bool, Memory>
    requires tree { IsTree node.old }
    requires text { text.old.items ≡ spell_node node.old }
    ensures agrees { IfOk result (λ agrees. IsTrue agrees ↔ StepAgrees step.now node.old digest.now) }
    ensures node { IfOk result (λ agrees. IsTrue agrees → node.new ≡ swap_node step.now node.old) }
    ensures text { IfOk result (λ agrees. IsTrue agrees → text.new.items ≡ spell_node node.new) }
{
    if !go_on(node, next, step)? {
        return Ok(false);
    }
    if next.as_slice() == text.as_slice() {
        return Ok(false);
    }
    if !has_digest(next, digest) {
        return Ok(false);
    }
    if !is_next_tree(node, step, next)? {
        return Ok(false);
    }
    std::mem::swap(text, next);
    Ok(true)
}

/// What is taken first this way, and what is left then.
fn taken<T>(way: Way, items: &[T]) -> Option<(&T, &[T])>
    ensures first { MatchOption result (as_taken way items.now ≡ []) (λ cut. as_taken way items.now ≡ cut.0.now ∷ as_taken way cut.1.now) }
    ensures fewer { IfSome result (λ cut. length cut.1.now < length items.now) }
{
    match way {
        Way::On => items.split_first(),
        Way::Back => items.split_last(),
    }
}

/// Whether the steps, taken this way, lead from a tree with this text to texts with these digests; what the tree and the text are
/// then is not said. The error: a growth was refused.
fn lead_on(
    way: Way,
    node: &mut Node,
    text: &mut Vec<u8>,
    steps: &[Step],
    digests: &[[u8; 32]],
) -> Result<bool, Memory>
    requires tree { IsTree node.old }
    requires text { text.old.items ≡ spell_node node.old }
    ensures { IfOk result (λ agrees. IsTrue agrees ↔ StepsAgree node.old (as_taken way steps.now) (as_taken way digests.now)) }
{
    let mut next = Vec::new(node.parts.alloc());
    let mut steps = steps;
    let mut digests = digests;
    while let Some((step, later)) = taken(way, steps) {
        let Some((digest, others)) = taken(way, digests) else {
            return Ok(false);
        };
        if !goes_on(node, text, &mut next, step, digest)? {
            return Ok(false);
        }
        steps = later;
        digests = others;
    }
    Ok(taken(way, digests).is_none())
}

/// Whether the steps, taken this way, lead from the tree of a text to texts with these digests. The tree is read here and used up,
/// so that its owner need not hold it meanwhile.
pub(crate) fn agree(
    alloc: Global,
    text: &[u8],
    way: Way,
    steps: &[Step],
    digests: &[[u8; 32]],
) -> Result<bool, Memory>
    ensures { IfOk result (λ agrees. (n : Node) → Reads text.now n → IsTrue agrees ↔ StepsAgree n (as_taken way steps.now) (as_taken way digests.now)) }
{
    if steps.is_empty() {
        return Ok(digests.is_empty());
    }
    let Some(tree) = read(alloc, text)? else {
        return Ok(false);
    };
    let Tree { root } = tree;
    let mut node = root;
    let mut own = Vec::from_slice(alloc, text)?;
    let agrees = lead_on(way, &mut node, &mut own, steps, digests)?;
    Ok(agrees)
}
