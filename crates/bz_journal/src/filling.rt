//! Whether what a command makes is past the limit of a text, seen rule by rule before all of it is made.
ghost use Rattle.std.specs.Prelude.{◌≡◌, ◌⊎◌, ◌≤◌, Err, IfErr, IfOk, IsTrue, length};
ghost use Rattle.bz_journal.specs.Clauses.{AreBuild, AreProperMade, Grows, IsProperItem, Overfills, alone_length, effect, item_made_by, items_made_by, layout, marked_places, meant};

use bz_command::{Work, changed_copy, copied, places_if_large};
use bz_grammar::LENGTH_LIMIT;
use bz_items::Items;
use bz_layout::{SetFault, item_text, text_of_items};
use bz_passes::tidy;
use bz_rule::take_apart;
use bz_value::{File, Item, Refusal};
use std::alloc::Global;

/// At least how many bytes the layout of a file has: where that is too deep, those of its first item. Errors: `Memory`.
#[tactic(auto, using(crate::proofs::HeldAlone::first_below))]
fn length_of(alloc: Global, file: &File) -> Result<usize, Refusal>
    ensures size { IfOk result (λ size. size ≤ length (layout file.now)) }
    ensures err { IfErr result (λ refusal. refusal ≡ Refusal.Memory) }
{
    match text_of_items(alloc, file.items.as_slice(), 0) {
        Ok(text) => Ok(text.len()),
        Err(SetFault::TooLarge) => Ok(LENGTH_LIMIT + 1),
        Err(SetFault::TooDeep) => match file.items.as_slice().split_first() {
            Some((item, _others)) => Ok(item_text(alloc, item)?.len()),
            None => Ok(0),
        },
        Err(SetFault::Memory) => Err(Refusal::Memory),
    }
}

/// At least how many bytes an item has in a file of its own, once that is tidied; none where it doesn't count. Errors: `Memory`.
#[tactic(auto, unfolding(crate::specs::private::Filling::alone_length))]
fn length_alone(alloc: Global, counts: bool, item: Item) -> Result<usize, Refusal>
    requires { IsProperItem item }
    ensures size { IfOk result (λ size. size ≤ alone_length item) }
    ensures err { IfErr result (λ refusal. refusal ≡ Refusal.Memory) }
{
    let mut items = Items::new(alloc);
    items.push(item)?;
    let file = File { items };
    if !counts {
        take_apart(file);
        return Ok(0);
    }
    let tidied = tidy(alloc, file)?;
    let size = length_of(alloc, &tidied);
    take_apart(tidied);
    size
}

/// Whether a command makes another item of one that it is meant for, and at least how many bytes that has in a file of its own, where it counts.
/// Errors: the one with which the item is refused; `Memory`.
#[tactic(auto, unfolding(crate::specs::private::Filling::item_made))]
fn try_on(work: Work<'_, '_>, counts: bool, item: &Item) -> Result<(bool, usize), Refusal>
    requires { IfOk (item_made_by work item.now) IsProperItem }
    ensures ok { IfOk result (λ made. Grows made.1 made.0 item.now (item_made_by work.entry item.now)) }
    ensures err { IfErr result (λ refusal. (item_made_by work.entry item.now ≡ Err refusal) ⊎ (refusal ≡ Refusal.Memory)) }
{
    let new = changed_copy(work, item)?;
    let differs = !new.equals(item);
    let size = length_alone(work.alloc, counts, new)?;
    Ok((differs, size))
}

/// Whether what a command makes of the items that it is meant for, which are at these places, is something else, and past the limit of a text even
/// one by one. Each is made, measured and dropped; past the limit they are only made, since the first that refuses decides.
fn are_past(work: Work<'_, '_>, places: &[usize], items: &[Item]) -> Result<bool, Refusal>
    requires places { places.now ≡ marked_places 0 (meant work.target.now.which work.lines.now items.now) }
    requires proper { AreProperMade (item_made_by work) items.now }
    requires build { IfOk (items_made_by work items.now) AreBuild }
    ensures ok { IfOk result (λ past. IsTrue past → Overfills items.now (items_made_by work.entry items.now)) }
    ensures err { IfErr result (λ refusal. (items_made_by work.entry items.now ≡ Err refusal) ⊎ (refusal ≡ Refusal.Memory)) }
{
    let mut left = LENGTH_LIMIT + 1;
    let mut differs = false;
    for at in places {
        let (other, size) = try_on(work, left > 0, &items[*at])?;
        differs |= other;
        left = left.saturating_sub(size);
    }
    Ok(differs && left == 0)
}

/// Whether what a command makes of a file, which has about this many bytes, is past the limit of a text: then it need not be made. `false` says
/// nothing. Errors: the effect's refusal; `Memory`: a growth was refused.
pub(crate) fn overfills(work: Work<'_, '_>, len: usize, file: &File) -> Result<bool, Refusal>
    requires { IfOk (effect work.command.now work.target.now work.current.now work.lines.now file.now) AreBuild }
    ensures ok { IfOk result (λ over. IsTrue over → Overfills file.now (effect work.entry.command.now work.entry.target.now work.entry.current.now work.entry.lines.now file.now)) }
    ensures err { IfErr result (λ refusal. (effect work.entry.command.now work.entry.target.now work.entry.current.now work.entry.lines.now file.now ≡ Err refusal) ⊎ (refusal ≡ Refusal.Memory)) }
{
    let command = work.command;
    // What is read of the command, so that its words are known to be proper.
    let _operation = &command.operation;
    let work = Work {
        found: copied(command, file),
        ..work
    };
    let Some(places) = places_if_large(work, file, len)? else {
        return Ok(false);
    };
    are_past(work, places.as_slice(), file.items.as_slice())
}
