ghost use Rattle.std.specs.Prelude.{◌≡◌, ◌<◌, ◌≤◌, ◌++◌, IfOk, IfSome, IsTrue, false, length};
ghost use Rattle.bz_grammar.specs.Spell.{depth_of, limit, depth_limit};
ghost use Rattle.bz_layout.specs.Appended.{gap_below};
ghost use Rattle.bz_layout.specs.Drafts.{pushed};
ghost use Rattle.bz_layout.specs.LaidOut.{laid_out, laid_out_in};
ghost use Rattle.bz_layout.specs.Written.{layout, layout_in};

use crate::breaks::Lines;
use crate::depth::are_items_within;
use crate::draft::Draft;
use crate::spaces::blank_before;
use crate::texts::push_items_in;
use bz_grammar::{DEPTH_LIMIT, LENGTH_LIMIT};
use bz_items::Text;
use bz_value::Item;
use std::alloc::{AllocError, Global};
use thiserror::Error;

/// Why a file value is not written.
#[derive(Debug, Drop, Error)]
pub enum SetFault {
    /// A growth was refused.
    #[error("Memory")]
    Memory,
    /// The text of the layout is longer than `LENGTH_LIMIT`.
    #[error("TooLarge")]
    TooLarge,
    /// The tree of the layout is deeper than `DEPTH_LIMIT`.
    #[error("TooDeep")]
    TooDeep,
}

impl From<AllocError> for SetFault {
    ghost use Rattle.std.specs.Prelude.{◌≡◌};
    ghost use Rattle.bz_layout.specs.declared.setting.SetFault.TheVariants as f;

    ghost from_gives = { λ _ fault. fault ≡ f.Memory };

    fn from(_refused: AllocError) -> SetFault {
        SetFault::Memory
    }
}

/// How deep the lines of a layout may be, below its root.
const LINE_DEPTH: usize = DEPTH_LIMIT as usize - 1;

/// Appends the layout of items to a draft, below an item where one is given. None: a growth was refused, or the tree of the layout would be
/// past the limit of depth; what was appended by then is not specified.
#[tactic(auto, using(crate::proofs::Deep::laid_out_depth, crate::proofs::Pushing::pushed_twice))]
pub fn append_items(out: &mut Draft, above: &Option<Item>, items: &[Item]) -> Option<()>
    ensures text { IfSome result (λ _. out.new ≡ pushed out.old (gap_below above.now items.now ++ layout items.now)) }
    ensures shallow { IfSome result (λ _. depth_of (laid_out items.now) ≤ depth_limit) }
{
    if !are_items_within(items, LINE_DEPTH) {
        return None;
    }
    out.push_bytes(blank_before(Lines::Counted, above.as_ref(), items))
        .ok()?;
    push_items_in(out, Lines::Counted, items).ok()?;
    Some(())
}

/// The layout of items, as text, with no tree made for it: `about` how many bytes it has, by estimate, is the room that it begins
/// with, and some more, since a text that doubles holds as much again. Errors: `TooLarge` exactly where the layout is past the limit
/// of a text, else `TooDeep` exactly where its tree would be past the limit of depth; `Memory`: a growth was refused.
pub fn text_of_items(alloc: Global, items: &[Item], about: usize) -> Result<Text, SetFault>
    ensures text { IfOk result (λ text. text ≡ layout items.now) }
    ensures short { IfOk result (λ _. length (layout items.now) ≤ limit) }
    ensures shallow { IfOk result (λ _. depth_of (laid_out items.now) ≤ depth_limit) }
    ensures too_large { result ≡ Err SetFault.TooLarge → limit < length (layout items.now) }
    ensures too_deep { result ≡ Err SetFault.TooDeep → (length (layout items.now) ≤ limit) × (depth_limit < depth_of (laid_out items.now)) }
{
    text_of_items_in(alloc, Lines::Counted, items, about)
}

/// `text_of_items` with these lines.
#[tactic(auto, using(crate::proofs::Deep::laid_out_depth))]
pub fn text_of_items_in(
    alloc: Global,
    lines: Lines,
    items: &[Item],
    about: usize,
) -> Result<Text, SetFault>
    ensures text { IfOk result (λ text. text ≡ layout_in lines items.now) }
    ensures short { IfOk result (λ _. length (layout_in lines items.now) ≤ limit) }
    ensures shallow { IfOk result (λ _. depth_of (laid_out_in lines items.now) ≤ depth_limit) }
    ensures too_large { result ≡ Err SetFault.TooLarge → limit < length (layout_in lines items.now) }
    ensures too_deep { result ≡ Err SetFault.TooDeep → (length (layout_in lines items.now) ≤ limit) × (depth_limit < depth_of (laid_out_in lines items.now)) }
{
    let room = Vec::with_capacity(alloc, about.saturating_add(about / 4))?;
    let mut out = Draft::new(room, LENGTH_LIMIT);
    push_items_in(&mut out, lines, items)?;
    let bytes = out.into_bytes().ok_or(SetFault::TooLarge)?;
    if !are_items_within(items, LINE_DEPTH) {
        return Err(SetFault::TooDeep);
    }
    Ok(Text::from_vec(bytes))
}
