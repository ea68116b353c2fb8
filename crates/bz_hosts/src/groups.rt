//! Groups of comment lines at file level.
ghost use Rattle.std.specs.Prelude.{◌≡◌, [], ◌∷◌, ◌++◌, List, OnOk, IfOk};
ghost use Rattle.bz_value.specs.Gaps.{GapLine, all_but_last, groups_of, last_group, lines_of};
ghost use Rattle.bz_hosts.specs.Seen.{blocks};
ghost use Rattle.bz_hosts.specs.private.Walks.{prepend};

use bz_items::{Items, Memory, Text};
use bz_value::{Item, first_line};

/// Appends comment lines on their own, if there are any.
pub(crate) fn push_block(lines: Items<Text>, items: &mut Items<Item>) -> Result<(), Memory>
    ensures { OnOk result (items.new ≡ items.old ++ blocks (lines ∷ [])) }
{
    if !lines.is_empty() {
        items.push(Item::Block(lines))?;
    }
    Ok(())
}

/// Goes on with a group over the lines of a gap: appends the groups that end there, and returns the last one.
fn push_lines(
    gap: &[u8],
    group: Items<Text>,
    items: &mut Items<Item>,
) -> Result<Items<Text>, Memory>
    ensures { IfOk result (λ last. (more : List GapLine) → (items.new ++ blocks (all_but_last (prepend last (groups_of more))) ≡ items.old ++ blocks (all_but_last (prepend group (groups_of (lines_of gap.now ++ more)))))
        × (last_group (prepend last (groups_of more)) ≡ last_group (prepend group (groups_of (lines_of gap.now ++ more))))) }
{
    let mut last = group;
    let mut rest = gap;
    while let Some(line) = first_line(rest) {
        rest = line.rest;
        match line.comment {
            Some(comment) => last.push(Text::from_slice(items.alloc(), comment)?)?,
            None => {
                push_block(last, items)?;
                last = Items::new(items.alloc());
            }
        }
    }
    Ok(last)
}

/// Appends the groups of comment lines of two gaps that follow each other, but for those right above what follows them, and
/// returns those.
pub(crate) fn push_groups(
    left: &[u8],
    gap: &[u8],
    items: &mut Items<Item>,
) -> Result<Items<Text>, Memory>
    ensures blocks { OnOk result (items.new ≡ items.old ++ blocks (all_but_last (groups_of (lines_of left.now ++ lines_of gap.now)))) }
    ensures last { IfOk result (λ last. last ≡ last_group (groups_of (lines_of left.now ++ lines_of gap.now))) }
{
    let group = push_lines(left, Items::new(items.alloc()), items)?;
    let last = push_lines(gap, group, items)?;
    Ok(last)
}
