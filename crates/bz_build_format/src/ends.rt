//! How much of a text is what parts spell, at its beginning and at its end.
ghost use Rattle.std.specs.Prelude.{◌≡◌, ◌≢◌, ◌<◌, ◌≤◌, IfSome, MatchOption, length};
ghost use Rattle.bz_build_format.specs.Words.{Bytes, spell_leaf, spell_part};
ghost use Rattle.bz_build_format.specs.private.Lines.{at_side, joined_at, spelled_parts};

use bz_grammar::{Part, length_with};
use bz_lex::Leaf;

/// The beginning or the end of a text, or of parts.
#[derive(Clone, Copy)]
pub(crate) enum Side {
    Front,
    Back,
}

/// What is left of a text without this at a side of it; none where something else is there.
fn rest_of<'a>(side: Side, end: &[u8], text: &'a [u8]) -> Option<&'a [u8]>
    ensures { MatchOption result ((rest : Bytes) → text.entry.now ≢ joined_at side end.now rest) (λ rest. text.entry.now ≡ joined_at side end.now rest.now) }
{
    match side {
        Side::Front => text.strip_prefix(end),
        Side::Back => text.strip_suffix(end),
    }
}

/// What is left of a text without what a leaf spells at a side of it; none where something else is there.
#[tactic(auto, using(crate::proofs::Nodes::after_leaf, crate::proofs::Nodes::before_leaf))]
fn rest_of_leaf<'a>(side: Side, leaf: &Leaf, text: &'a [u8]) -> Option<&'a [u8]>
    ensures { IfSome result (λ rest. text.now ≡ joined_at side (spell_leaf leaf.now) rest.now) }
{
    let (gap, token) = (leaf.gap.as_slice(), leaf.token.as_slice());
    let (first, last) = match side {
        Side::Front => (gap, token),
        Side::Back => (token, gap),
    };
    let rest = rest_of(side, first, text)?;
    let rest = rest_of(side, last, rest)?;
    Some(rest)
}

/// What is left of a text without what a part spells at a side of it; none where something else is there.
#[cycle(rest)]
#[tactic(auto)]
pub(crate) fn rest_of_part<'a>(side: Side, part: &Part, text: &'a [u8]) -> Option<&'a [u8]>
    ensures { IfSome result (λ rest. text.now ≡ joined_at side (spell_part part.now) rest.now) }
{
    match part {
        Part::Leaf(leaf) => rest_of_leaf(side, leaf, text),
        Part::Node(node) => {
            let (count, rest) = same(side, node.parts.as_slice(), text);
            if count < node.parts.len() {
                return None;
            }
            Some(rest)
        }
    }
}

/// How many parts a text has in common with these at a side of both, and what is left of it without them.
#[cycle(rest)]
#[tactic(auto)]
pub(crate) fn same<'a>(side: Side, parts: &[Part], text: &'a [u8]) -> (usize, &'a [u8])
    ensures within { result.0 ≤ length parts.now }
    ensures text { text.now ≡ joined_at side (spelled_parts (at_side side result.0 parts.now)) result.1.now }
{
    let mut rest = text;
    for passed in 0..parts.len() {
        let at = match side {
            Side::Front => passed,
            Side::Back => parts.len() - 1 - passed,
        };
        let Some(next) = rest_of_part(side, &parts[at], rest) else {
            return (passed, rest);
        };
        rest = next;
    }
    (parts.len(), rest)
}

/// Whether a text may have parts at a side of it. Where these are one line, as of a statement that a command changed, the line is not looked
/// through unless a line of the text ends where it would end.
fn may_have(side: Side, parts: &[Part], text: &[u8]) -> bool {
    if parts.len() != 1 {
        return true;
    }
    let Some(len) = length_with(parts, 0) else {
        return false;
    };
    let end = match side {
        Side::Front => len,
        Side::Back => text.len().saturating_sub(len),
    };
    text.get(..end)
        .is_some_and(|before| before.is_empty() || before.ends_with(b"\n"))
}

/// As `same` says, but that a line is looked through only where it may be there.
#[tactic(auto)]
pub(crate) fn shared<'a>(side: Side, parts: &[Part], text: &'a [u8]) -> (usize, &'a [u8])
    ensures within { result.0 ≤ length parts.now }
    ensures text { text.now ≡ joined_at side (spelled_parts (at_side side result.0 parts.now)) result.1.now }
{
    if !may_have(side, parts, text) {
        return (0, text);
    }
    same(side, parts, text)
}
