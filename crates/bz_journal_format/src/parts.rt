//! What is held: parts inside each other, at most as deep as it is said.
ghost use Rattle.std.specs.Prelude.{◌≡◌, ◌-◌, ◌+◌, ◌<◌, ℕ};
ghost use Rattle.bz_journal_format.specs.Outcomes.{Gives};
ghost use Rattle.bz_journal_format.specs.Readers.{after_mark, number_at, repeated};
ghost use Rattle.bz_journal_format.specs.private.Reading.{choice, held_at, leaf_at, node_at, nodes_at, numbered_kind_at};

use crate::fields::{read_kind, read_leaf};
use crate::{Unread, read_mark, read_number, strip_mark};
use bz_grammar::{Node, Part};
use bz_items::Items;
use std::alloc::Global;

/// A part of which at most this many nodes are inside each other.
#[cycle(held)]
#[tactic(auto, unfolding(crate::specs::private::Reading::choice))]
fn read_part(alloc: Global, depth: u32, input: &[u8]) -> Result<(Part, &[u8]), Unread>
    ensures { Gives (λ x. (x.0, x.1.now)) result (held_at depth input.now) }
{
    if let Some(rest) = strip_mark(input, b"leaf ") {
        let (leaf, rest) = read_leaf(alloc, rest)?;
        return Ok((Part::Leaf(leaf), rest));
    }
    let rest = read_mark(input, b"node ")?;
    let (node, rest) = read_node(alloc, depth, rest)?;
    Ok((Part::Node(node), rest))
}

/// What follows the first word of a node.
#[cycle(held)]
#[tactic(auto, using(crate::proofs::Inner::one_less), unfolding(crate::specs::private::Reading::nodes_at))]
fn read_node(alloc: Global, depth: u32, input: &[u8]) -> Result<(Node, &[u8]), Unread>
    ensures { Gives (λ x. (x.0, x.1.now)) result (nodes_at depth input.now) }
{
    if depth == 0 {
        return Err(Unread::Damaged);
    }
    read_node_of(alloc, depth - 1, input)
}

/// What follows the first word of a node of which the parts are at most so deep.
#[cycle(held)]
#[tactic(auto, unfolding(crate::specs::private::Reading::node_at, crate::specs::Readers::listed_at))]
fn read_node_of(alloc: Global, depth: u32, input: &[u8]) -> Result<(Node, &[u8]), Unread>
    ensures { Gives (λ x. (x.0, x.1.now)) result (node_at (held_at depth) input.now) }
{
    let (kind, rest) = read_kind(input)?;
    let (count, rest) = read_number(rest, b'\n')?;
    let (parts, rest) = read_parts(alloc, depth, count, rest)?;
    let parts = Items::from_vec(parts);
    Ok((Node { kind, parts }, rest))
}

/// This many parts, in a list of just their number: a step of a long text has thousands of such lists, most of one part.
#[cycle(held)]
pub fn read_parts(
    alloc: Global,
    depth: u32,
    count: u32,
    input: &[u8],
) -> Result<(Vec<Part>, &[u8]), Unread>
    ensures { Gives (λ x. (x.0.items, x.1.now)) result (repeated (held_at depth) count input.now) }
{
    let mut parts = Vec::new(alloc);
    let mut rest = input;
    'parts: for _ in 0..count {
        let (part, after) = read_part(alloc, depth, rest)?;
        parts.push(part)?;
        rest = after;
    }
    parts.shrink_to_fit();
    Ok((parts, rest))
}
