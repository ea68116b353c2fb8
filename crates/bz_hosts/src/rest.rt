//! Lines of a text that are before a part of a tree: those of two gaps that follow each other.
ghost use Rattle.std.specs.Prelude.{◌≡◌, ◌∷◌, ◌++◌, ◌+◌, ◌<◌, [], length, IfOk, IfSome, OnOk, IsTrue, MatchOption, Some};
ghost use Rattle.std.specs.Option.{option_copied};
ghost use Rattle.bz_value.specs.Gaps.{all_in, lines_of, comments_in};
ghost use Rattle.bz_hosts.specs.Suites.{after_end, end_comments, only_comment};

use bz_items::{Items, Memory, Text};
use bz_value::{Line, first_line, push_all};
use std::alloc::Global;

/// The lines of two gaps: what the gap of a Newline says after its first line, and the gap of the leaf after it.
#[derive(Clone, Copy)]
pub(crate) struct Rest<'a> {
    pub left: &'a [u8],
    pub gap: &'a [u8],
}

/// The first comment of a gap.
pub(crate) fn comment_in(gap: &[u8]) -> Option<&[u8]>
    ensures { MatchOption result (all_in gap.now ≡ []) (λ comment. only_comment (all_in gap.now) ≡ Some comment.now) }
{
    let mut rest = gap;
    while let Some(line) = first_line(rest) {
        if line.comment.is_some() {
            return line.comment;
        }
        rest = line.rest;
    }
    None
}

/// The lines of one gap.
pub(crate) fn rest_of_gap(gap: &[u8]) -> Rest<'_>
    ensures { lines_of result.left.now ++ lines_of result.gap.now ≡ lines_of gap.now }
{
    Rest { left: &[], gap }
}

/// The comments of the lines. The error: memory was refused.
#[tactic(auto, using(crate::proofs::BlankLines::comments_append))]
pub(crate) fn comments(alloc: Global, rest: Rest<'_>) -> Result<Items<Text>, Memory>
    ensures { IfOk result (λ texts. texts ≡ comments_in (lines_of rest.entry.left.now ++ lines_of rest.entry.gap.now)) }
{
    let mut texts = Items::new(alloc);
    push_all(alloc, rest.left, &mut texts)?;
    push_all(alloc, rest.gap, &mut texts)?;
    Ok(texts)
}

/// The first of the lines, and the gap that follows what is after it in its own.
fn first_of(rest: Rest<'_>) -> Option<(Line<'_>, &[u8])>
    ensures line { MatchOption result (lines_of rest.entry.left.now ++ lines_of rest.entry.gap.now ≡ [])
        (λ found. lines_of rest.entry.left.now ++ lines_of rest.entry.gap.now ≡ record { indent = found.0.indent; comment = option_copied found.0.comment; newline = found.0.newline } ∷ (lines_of found.0.rest.now ++ lines_of found.1.now)) }
    ensures shorter { IfSome result (λ found. length found.0.rest.now + length found.1.now < length rest.entry.left.now + length rest.entry.gap.now) }
{
    if let Some(line) = first_line(rest.left) {
        return Some((line, rest.gap));
    }
    let Some(line) = first_line(rest.gap) else {
        return None;
    };
    Some((line, &[]))
}

/// Whether no line is left.
pub(crate) fn is_spent(rest: Rest<'_>) -> bool
    ensures { IsTrue result → lines_of rest.entry.left.now ++ lines_of rest.entry.gap.now ≡ [] }
{
    first_of(rest).is_none()
}

/// Appends the end comments of a suite with an indent of this length among the lines; gives the lines after them. The error:
/// memory was refused.
pub(crate) fn take_end<'a>(
    alloc: Global,
    margin: usize,
    rest: Rest<'a>,
    end: &mut Items<Text>,
) -> Result<Rest<'a>, Memory>
    ensures end { OnOk result (end.new ≡ end.old ++ end_comments margin (lines_of rest.entry.left.now ++ lines_of rest.entry.gap.now)) }
    ensures rest { IfOk result (λ following. lines_of following.left.now ++ lines_of following.gap.now ≡ after_end margin (lines_of rest.entry.left.now ++ lines_of rest.entry.gap.now)) }
{
    let mut left = rest;
    while let Some((line, gap)) = first_of(left) {
        if let Some(comment) = line.comment {
            if line.indent < margin {
                return Ok(left);
            }
            end.push(Text::from_slice(alloc, comment)?)?;
        }
        left = Rest {
            left: line.rest,
            gap,
        };
    }
    Ok(left)
}
