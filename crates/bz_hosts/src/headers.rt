//! Headers: what is before a suite, up to the colon.
ghost use Rattle.std.specs.Prelude.{◌≡◌, ◌≤◌, ◌<◌, ◌-◌, ◌+◌, ◌++◌, ◌∷◌, [], List, map, take, drop, length, MatchOption, IfOk, Bool, false};
ghost use Rattle.bz_hosts.specs.Words.{is_kind, Bytes, GapLine, frame, Kind};
ghost use Rattle.bz_hosts.specs.Seen.{plain, seen, seen_node};
ghost use Rattle.bz_hosts.specs.Suites.{branches, with_suite, stated};

use crate::before::gap_before;
use crate::expr::push_parts;
use crate::rest::comment_in;
use bz_grammar::{Class, Kind, Part};
use bz_items::{Items, Memory, Text};
use bz_value::{Comments, EndComments, Form, Seq};
use std::alloc::Global;

/// Whether a kind is another one.
pub(crate) fn is_kind(kind: Kind, other: Kind) -> bool
    ensures { result ≡ is_kind kind other }
{
    kind.number() == other.number()
}

/// Whether a part is a colon.
fn is_colon(part: &Part) -> bool
    ensures { result ≡ (stated part.now).is_colon }
{
    match part {
        Part::Leaf(leaf) => leaf.class == Class::Mark && leaf.token.as_slice() == b":".as_slice(),
        Part::Node(_) => false,
    }
}

/// The place of the first colon among the parts, from one on.
#[tactic(auto, using(crate::proofs::Colons::no_colon_at))]
pub(crate) fn colon_from(parts: &[Part], from: usize) -> Option<usize>
    requires { from ≤ length parts.now }
    ensures { MatchOption result
        ((first : Bool) (kind : Kind) → (above : List Bytes) → (left after : List GapLine) → branches first kind [] above left (map stated (drop from parts.now)) after ≡ ([], left))
        (λ at. (from ≤ at) × (at < length parts.now)
        × ((first : Bool) (kind : Kind) → (above : List Bytes) → (left after : List GapLine) → branches first kind [] above left (map stated (drop from parts.now)) after
        ≡ with_suite first kind (map seen (take (at - from) (drop from parts.now))) above left (map stated (drop (at + 1) parts.now)) after)) }
{
    for at in from..parts.len() {
        if is_colon(&parts[at]) {
            return Some(at);
        }
    }
    None
}

/// The comment on the line of a header, which is in the gap of its suite's newline. The error: memory was refused.
#[tactic(auto, using(crate::proofs::Stated::suffix_of))]
fn suffix_before(alloc: Global, suite: &Part) -> Result<Option<Text>, Memory>
    ensures { IfOk result (λ suffix. suffix ≡ (stated suite.now).suffix) }
{
    let Part::Node(node) = suite else {
        return Ok(None);
    };
    if !is_kind(node.kind, Kind::Suite) {
        return Ok(None);
    }
    let Some(comment) = comment_in(gap_before(suite)) else {
        return Ok(None);
    };
    Ok(Some(Text::from_slice(alloc, comment)?))
}

/// A suite with nothing in it yet but its header, of these parts up to the colon, with the comments above it and the one on its
/// line. The error: memory was refused.
#[inline(never)]
pub(crate) fn headed_suite(
    alloc: Global,
    kind: Kind,
    parts: &[Part],
    above: Items<Text>,
    suite: &Part,
) -> Result<Form, Memory>
    ensures { IfOk result (λ form. form ≡ record {
      kind = Kind.Suite;
      parts = plain (seen_node (frame kind) kind (map seen parts.now)) ∷ [];
      seq = record { items = []; end = []; split = false };
      open_break = false;
      comments = record { before = above ++ (seen_node (frame kind) kind (map seen parts.now)).loose; suffix = (stated suite.now).suffix };
    }) }
{
    let suffix = suffix_before(alloc, suite)?;
    let mut above = above;
    let mut header = Vec::new(alloc);
    push_parts(kind, parts, &mut above, &mut header)?;
    Ok(Form {
        kind: Kind::Suite,
        parts: Items::from_vec(header),
        seq: Seq {
            items: Items::new(alloc),
            end: EndComments::empty(),
            split: false,
        },
        open_break: false,
        comments: Comments::new(alloc, above, suffix)?,
    })
}
