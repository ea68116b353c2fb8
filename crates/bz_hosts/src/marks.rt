//! What the gaps between the parts of a row say.
ghost use Rattle.std.specs.Prelude.{◌≡◌, ◌++◌, ◌<◌, ◌&&◌, ◌||◌, not, map, drop, length, if◌then◌else◌, OnOk};
ghost use Rattle.bz_hosts.specs.Words.{is_comprehension, all_in, has_newline, others_in};
ghost use Rattle.bz_hosts.specs.Seen.{begins_seen_operator, first_seen_gap, is_open, seen};
ghost use Rattle.bz_hosts.specs.private.Walks.{above_after, item_gap, line_gap};

use crate::before::{breaks_before, gap_at, gap_of_last, is_followed, is_operator_at, is_quiet_at};
use bz_grammar::{Kind, Part};
use bz_items::{Items, Memory, Text};
use bz_value::{is_comprehension, push_all};

/// Appends the comments of the gap before the part with this index. The error: memory was refused.
#[tactic(auto, using(crate::proofs::UnsignedGaps::gap_quiet))]
#[inline(always)]
pub fn push_gap(parts: &[Part], at: usize, comments: &mut Items<Text>) -> Result<(), Memory>
    ensures { OnOk result (comments.new ≡ comments.old ++ all_in (first_seen_gap (map seen (drop at parts.now)))) }
{
    if is_quiet_at(parts, at) {
        return Ok(());
    }
    push_all(comments.alloc(), gap_at(parts, at), comments)
}

/// Whether the part with this index is a token of an operator and an unescaped newline is before that: `newline`, where the
/// part before is a token of the same operator.
pub fn breaks_operator(
    operator: bool,
    parts: &[Part],
    at: usize,
    inside: bool,
    newline: bool,
) -> bool
    ensures { result ≡ (operator && (if inside then newline else has_newline (first_seen_gap (map seen (drop at parts.now))))) }
{
    // what is before an operand is not looked for: it can be deep in there
    if inside || !operator {
        return operator && newline;
    }
    breaks_before(parts, at)
}

/// Whether a token of an operator breaks after which the part with this index is: it is the operator's last token,
/// and a newline is before the operator or before this part.
pub fn breaks_after(operator: bool, newline: bool, parts: &[Part], at: usize) -> bool
    ensures { result ≡ ((operator && not (begins_seen_operator (map seen (drop at parts.now)))) && (newline || has_newline (first_seen_gap (map seen (drop at parts.now))))) }
{
    operator && !is_operator_at(parts, at) && (newline || breaks_before(parts, at))
}

/// Whether a comprehension of these parts is open: an unescaped newline is right after its bracket.
pub fn opens(kind: Kind, parts: &[Part]) -> bool
    ensures { result ≡ (is_comprehension kind && is_open (map seen parts.now)) }
{
    is_comprehension(kind) && breaks_before(parts, 1)
}

/// After an item of a sequence, where this index is that of its comma or of the closing bracket: the gap before its comma, if
/// it has one, and the gap that its suffix is in, which is the one after its comma then.
#[tactic(auto, using(crate::proofs::RowSteps::gap_later, crate::proofs::RowSteps::gap_last, crate::proofs::RowSteps::above_later, crate::proofs::RowSteps::above_last))]
pub fn gaps_after_item(parts: &[Part], at: usize) -> (&[u8], &[u8])
    ensures suffix { result.1.now ≡ item_gap (map seen (drop at parts.now)) }
    ensures above { all_in result.0.now ++ others_in result.1.now ≡ above_after (map seen (drop at parts.now)) }
{
    let gap = gap_at(parts, at);
    if is_followed(parts, at) {
        return (gap, gap_at(parts, at + 1));
    }
    (&[], gap)
}

/// After a statement, where this index is that of its semicolon or of the Newline: the gap that its suffix is in, which
/// is that of the Newline. The suffix of another statement of the line is none, and so is what an empty gap says.
#[tactic(auto, using(crate::proofs::LineSteps::suffix_none, crate::proofs::LineSteps::suffix_last))]
pub fn gap_after_statement(parts: &[Part], at: usize) -> &[u8]
    requires { at < length parts.now }
    ensures { result.now ≡ line_gap (map seen (drop at parts.now)) }
{
    if parts.len() - at > 2 {
        return &[];
    }
    gap_of_last(parts)
}
