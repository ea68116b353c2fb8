//! Where a text nests too deep. It is reported with the fault; no clause speaks of the place.
ghost use Rattle.std.specs.Prelude.{◌≡◌};

use crate::leaves::Leaves;
use crate::state::{LAMBDA, NOT, PartNonterminal, Precedence, UNARY, precedence_at};
use crate::token::TokenSet;
use bz_grammar::{Part, first_of};

/// Marks where the part, right before the next leaf, holds the first node inside more than this many levels.
pub fn mark_deep_part(part: &Part, depth: u32, leaves: &mut Leaves)
    ensures { leaves.new ≡ leaves.old }
{
    let levels = depth as u64;
    let mut length = 0;
    let _ = finds_deeper(part, u64::MAX, &mut length);
    let mut at = leaves.offset().saturating_sub(length);
    let _ = finds_deeper(part, levels, &mut at);
    leaves.mark_too_deep(at);
}

/// The byte at which the first token of the first node begins that is inside more than this many nodes, itself and the file
/// counted, if there is one: in the statements with which a file begins, where it isn't read to its end.
pub fn deeper_at(parts: &[Part], limit: u32) -> Option<usize> {
    let mut at = 0;
    let room = (limit as u64).saturating_sub(1);
    for part in parts {
        if matches!(part, Part::Leaf(_)) {
            return None;
        }
        if finds_deeper(part, room, &mut at) {
            return Some(at);
        }
    }
    None
}

/// Marks the next leaf where it begins a node of this sort, for which there is no room.
pub fn mark_next(nonterminal: PartNonterminal, leaves: &mut Leaves)
    ensures { leaves.new ≡ leaves.old }
{
    if let Some(at) = leaves.next_at()
        && begins_node(nonterminal, leaves)
    {
        leaves.mark_too_deep(at);
    }
}

/// Whether the part has a node inside more than this many levels; `at`, the byte at which the part begins, is then the byte at
/// which that node's first token begins, else the byte after the part.
#[cycle(deep)]
fn finds_deeper(part: &Part, levels: u64, at: &mut usize) -> bool {
    match part {
        Part::Leaf(leaf) => {
            *at = at
                .saturating_add(leaf.gap.len())
                .saturating_add(leaf.token.len());
            false
        }
        Part::Node(node) => {
            if levels == 0 {
                *at = at.saturating_add(first_gap(node.parts.as_slice()));
                return true;
            }
            finds_deeper_in(node.parts.as_slice(), levels - 1, at)
        }
    }
}

#[cycle(deep)]
fn finds_deeper_in(parts: &[Part], levels: u64, at: &mut usize) -> bool {
    for part in parts {
        if finds_deeper(part, levels, at) {
            return true;
        }
    }
    false
}

/// How long the gap is before the first token of the parts.
fn first_gap(parts: &[Part]) -> usize {
    first_of(parts).map_or(0, |leaf| leaf.gap.len())
}

/// Whether a node of this sort begins with the next leaf and not with a leaf of it.
fn begins_node(nonterminal: PartNonterminal, leaves: &Leaves) -> bool {
    match nonterminal {
        PartNonterminal::Level(n) => begins_level(n, leaves),
        PartNonterminal::Argument => leaves.next_is(TokenSet::Stars)
            || begins_level(LAMBDA, leaves),
        PartNonterminal::Loaded => leaves.next_is(TokenSet::Name),
        PartNonterminal::Entry => leaves.next_is(TokenSet::Simple) || begins_level(LAMBDA, leaves),
        PartNonterminal::Clause => leaves.next_is(TokenSet::Clauses),
        PartNonterminal::FirstClause => leaves.next_is(TokenSet::For),
        PartNonterminal::Small | PartNonterminal::Line => leaves.next_is(TokenSet::Statements),
        PartNonterminal::Param => leaves.next_is(TokenSet::Stars),
    }
}

fn begins_level(n: u8, leaves: &Leaves) -> bool {
    leaves.next_is(TokenSet::OpenRound)
        || leaves.next_is(TokenSet::OpenSquare)
        || leaves.next_is(TokenSet::OpenCurly)
        || (n >= UNARY && leaves.next_is(TokenSet::Signs))
        || (n >= NOT && leaves.next_is(TokenSet::Not))
        || (n >= LAMBDA && leaves.next_is(TokenSet::Lambda))
}

/// Whether a node of this sort goes on with the next leaf after a leaf of it.
pub fn goes_on(nonterminal: PartNonterminal, leaves: &Leaves) -> bool {
    match nonterminal {
        PartNonterminal::Level(n) => level_goes_on(n, leaves),
        PartNonterminal::Argument => leaves.next_is(TokenSet::Equals)
            || level_goes_on(LAMBDA, leaves),
        PartNonterminal::Param => leaves.next_is(TokenSet::Equals),
        _ => false,
    }
}

fn level_goes_on(n: u8, leaves: &Leaves) -> bool {
    if leaves.next_is(TokenSet::Suffixes) {
        return true;
    }
    for rank in 0..n {
        if let Precedence::Infix(token, _) = precedence_at(rank)
            && leaves.next_is(token)
        {
            return true;
        }
    }
    false
}
