//! What is before a part of a tree.
ghost use Rattle.std.specs.Prelude.{◌≡◌, ◌&&◌, ◌+◌, ◌<◌, ◌≤◌, [], map, drop, length, false, IsTrue, MatchOption};
ghost use Rattle.bz_hosts.specs.Words.{has_newline, is_operator};
ghost use Rattle.bz_hosts.specs.Seen.{begins_seen_operator, first_seen_gap, is_split, last_gap, plain, seen};
ghost use Rattle.bz_hosts.specs.private.Walks.{is_unsigned};

use bz_grammar::Part;
use bz_items::Gap;
use bz_value::{has_newline, is_operator_class};

/// Whether the gap has no number sign, with which each comment begins.
#[inline(always)]
#[tactic(auto, using(crate::proofs::UnsignedGaps::spacing_quiet))]
fn is_quiet(gap: &Gap) -> bool
    ensures { result ≡ is_unsigned gap.now }
{
    if gap.is_spacing() {
        return true;
    }
    gap.as_slice().iter().all(|byte| *byte != b'#')
}

/// Whether an unescaped newline is in the gap.
#[inline(always)]
#[tactic(auto, using(crate::proofs::UnsignedGaps::spacing_breaks))]
fn breaks(gap: &Gap) -> bool
    ensures { result ≡ has_newline gap.now }
{
    let bytes = gap.as_slice();
    if gap.is_spacing() {
        return matches!(bytes, [b'\n', ..]);
    }
    has_newline(bytes)
}

/// The gap before the first token of the part with this index, if there is one.
fn first_gap_at(parts: &[Part], at: usize) -> Option<&Gap>
    ensures { MatchOption result ([] ≡ first_seen_gap (map seen (drop at parts.now))) (λ gap. gap.now ≡ first_seen_gap (map seen (drop at parts.now))) }
{
    match parts.get(at) {
        None => None,
        Some(Part::Leaf(leaf)) => Some(&leaf.gap),
        Some(Part::Node(node)) => first_gap_at(node.parts.as_slice(), 0),
    }
}

/// The gap before the first token of a part.
pub(crate) fn gap_before(part: &Part) -> &[u8]
    ensures { result.now ≡ (seen part.now).gap }
{
    match part {
        Part::Leaf(leaf) => leaf.gap.as_slice(),
        Part::Node(node) => gap_at(node.parts.as_slice(), 0),
    }
}

/// The gap before the part with this index; past the last part there is none.
pub(crate) fn gap_at(parts: &[Part], at: usize) -> &[u8]
    ensures { result.now ≡ first_seen_gap (map seen (drop at parts.now)) }
{
    first_gap_at(parts, at).map_or(&[], |gap| gap.as_slice())
}

/// Whether it is seen at a glance that no comment is before the part with this index.
#[inline(always)]
pub(crate) fn is_quiet_at(parts: &[Part], at: usize) -> bool
    ensures { result ≡ is_unsigned (first_seen_gap (map seen (drop at parts.now))) }
{
    match first_gap_at(parts, at) {
        None => true,
        Some(gap) => is_quiet(gap),
    }
}

/// The gap before the last of these parts.
pub(crate) fn gap_of_last(parts: &[Part]) -> &[u8]
    ensures { result.now ≡ last_gap (map seen parts.now) }
{
    match parts {
        [] => &[],
        [.., last] => gap_before(last),
    }
}

/// Whether an unescaped newline is before the part with this index.
pub(crate) fn breaks_before(parts: &[Part], at: usize) -> bool
    ensures { result ≡ has_newline (first_seen_gap (map seen (drop at parts.now))) }
{
    first_gap_at(parts, at).is_some_and(breaks)
}

/// Whether an unescaped newline is before a part from this index on.
pub(crate) fn breaks_from(parts: &[Part], from: usize) -> bool
    ensures { result ≡ is_split (map seen (drop from parts.now)) }
{
    for at in from..parts.len() {
        if breaks_before(parts, at) {
            return true;
        }
    }
    false
}

/// Whether a part follows the one with this index.
pub(crate) fn is_followed(parts: &[Part], at: usize) -> bool
    ensures yes { IsTrue result → at + 1 < length parts.now }
    ensures no { result ≡ false → length parts.now ≤ at + 1 }
{
    at < parts.len() && parts.len() - at > 1
}

/// Whether the part is a token of an operator, where the row that it is in is one of operands and operators.
pub(crate) fn is_operator_in(binary: bool, part: &Part) -> bool
    ensures { result ≡ (binary && is_operator (plain (seen part.now))) }
{
    binary && matches!(part, Part::Leaf(leaf) if is_operator_class(leaf.class))
}

/// Whether the part with this index is a token of an operator.
pub(crate) fn is_operator_at(parts: &[Part], at: usize) -> bool
    ensures { result ≡ begins_seen_operator (map seen (drop at parts.now)) }
{
    parts.get(at).is_some_and(|part| is_operator_in(true, part))
}
