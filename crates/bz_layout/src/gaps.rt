//! Gaps: margins and comments, and the gap that items leave to what follows.
ghost use Rattle.std.specs.Prelude.{◌≡◌, ◌++◌, ◌+◌, ◌-◌, ◌≤◌, drop, length, OnOk, IfOk};
ghost use Rattle.bz_items.specs.Characters.{Bytes};
ghost use Rattle.bz_layout.specs.LaidOut.{before_next, left_gap};
ghost use Rattle.bz_layout.specs.Layout as layout;
ghost use Rattle.bz_layout.specs.Written.{comment_lines};
ghost use Rattle.bz_layout.specs.private.Windows.{statement_gap};

use crate::breaks::{Lines, has_far_items};
use crate::spaces::blank_before;
use bz_grammar::Kind;
use bz_items::{Memory, Text};
use bz_value::Item;
use std::alloc::AllocError;

/// The margin of what is inside a broken sequence. The error: no text is that wide.
pub fn deeper_margin(margin: usize) -> Result<usize, Memory>
    ensures { IfOk result (λ inner. inner ≡ margin + 4) }
{
    margin.checked_add(4).ok_or(AllocError)
}

/// The margin of the items of a broken sequence of the kind. The error: no text is that wide.
pub fn item_margin(lines: Lines, kind: Kind, margin: usize) -> Result<usize, Memory>
    ensures { IfOk result (λ inner. inner ≡ layout.item_margin lines kind margin) }
{
    if has_far_items(lines, kind) {
        return margin.checked_add(8).ok_or(AllocError);
    }
    deeper_margin(margin)
}

/// Appends comment lines, each with its newline. The error: a growth was refused.
pub fn push_comments(out: &mut Vec<u8>, texts: &[Text]) -> Result<(), Memory>
    ensures { OnOk result (out.new.items ≡ out.old.items ++ comment_lines texts.now) }
{
    for text in texts {
        out.extend_from_slice(text.as_slice())?;
        out.push(b'\n')?;
    }
    Ok(())
}

/// Makes of the gap before an item the one before what follows. The error: a growth was refused.
pub fn leave_gap(gap: &mut Vec<u8>, item: &Item, others: &[Item]) -> Result<(), Memory>
    ensures { OnOk result (gap.new.items ≡ left_gap gap.old.items item.now ++ before_next item.now others.now) }
{
    match item {
        Item::Block(texts) => push_comments(gap, texts.as_slice())?,
        Item::Stmt(_) => gap.clear(),
    }
    gap.extend_from_slice(blank_before(Lines::Counted, Some(item), others))
}

/// From which of the first items on they decide what gap is after them: a statement leaves nothing of the one before it.
fn last_statement(items: &[Item], count: usize) -> usize
    requires { count ≤ length items.now }
    ensures within { result ≤ count }
    ensures gap { (gap : Bytes) → statement_gap gap (count - result) (drop result items.now) ≡ statement_gap gap count items.now }
{
    let mut place = count;
    while place > 0 {
        place -= 1;
        if let Item::Stmt(_) = &items[place] {
            return place;
        }
    }
    0
}

/// Makes of the gap before the first of the items the one before what follows this many. The error: a growth was refused.
#[tactic(auto, using(crate::proofs::Windows::gap_next, crate::proofs::Writing::rest_here))]
pub fn pass_over(gap: &mut Vec<u8>, items: &[Item], count: usize) -> Result<(), Memory>
    requires { count ≤ length items.now }
    ensures { OnOk result (gap.new.items ≡ statement_gap gap.old.items count items.now) }
{
    let from = last_statement(items, count);
    for at in from..count {
        leave_gap(gap, &items[at], &items[at + 1..])?;
    }
    Ok(())
}
