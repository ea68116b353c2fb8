//! What of the layout's text is another where items came in the place of others.
ghost use Rattle.std.specs.Prelude.{◌≡◌, ◌<◌, ◌≤◌, [], length, List, IfOk, MatchOption, Err};
ghost use Rattle.std.specs.List.{flat_map};
ghost use Rattle.bz_layout.specs.Words.{AreThere, with_windows, PartWindow, depth_limit, depth_of, limit, spell_node, spell_part, AreBuild, AreOver, AreWithin, Item};
ghost use Rattle.bz_layout.specs.LaidOut.{laid_out, lines_from};
ghost use Rattle.bz_layout.specs.Windows.{AreTextsOf, IsLayoutOf};
ghost use Rattle.bz_layout.specs.Written.{layout};
ghost use Rattle.bz_layout.specs.private.Reached.{IsPut, gone_length};

use crate::depth::are_windows_within;
use crate::line_windows::{all_as_one, old_count, old_lines};
use crate::setting::SetFault;
use crate::writer::{TextWindow, Writer, cut_parts, go_over};
use bz_grammar::{DEPTH_LIMIT, LENGTH_LIMIT, Part, Tree, length_with};
use bz_items::{Items, Memory};
use bz_value::{File, Item, Window};
use std::alloc::Global;

/// The text windows of a change, and how long the whole new text is.
#[derive(Drop)]
pub struct Laid {
    pub windows: Items<TextWindow>,
    /// In bytes.
    pub length: usize,
}

/// How many bytes the parts spell that windows take the place of.
fn length_gone(parts: &[Part], windows: &[TextWindow]) -> usize
    requires { length (flat_map spell_part parts.now) ≤ limit }
    ensures { result ≡ gone_length windows.now parts.now }
{
    let mut total = 0;
    let mut rest = parts;
    for window in windows {
        let (_stay, others) = cut_parts(rest, window.from);
        let (gone, following) = cut_parts(others, window.gone);
        total = length_with(gone, total).unwrap();
        rest = following;
    }
    total
}

/// The text windows, where the tree is the layout of items of which those of the file came in the place of others; none where the texts
/// are longer than a text may be.
fn written(
    alloc: Global,
    file: &File,
    windows: &[Window],
    tree: &Tree,
) -> Result<Option<Writer>, Memory>
    requires within { AreWithin windows.now file.now }
    requires build { AreBuild file.now }
    ensures { IfOk result (λ made. (before : List Item) → IsLayoutOf before tree.now → AreOver windows.now before file.now
        → MatchOption made (limit < length (layout file.now)) (λ writer. IsPut tree.now.parts (lines_from [] file.now) writer.made writer.bytes writer.done)) }
{
    let items = file.items.as_slice();
    let parts = tree.root.parts.as_slice();
    let lines = parts.len().saturating_sub(1);
    // As many lines as items: none of these was a comment block.
    if old_count(windows, items.len()) == Some(lines) {
        return go_over(alloc, parts, items, windows, true);
    }
    if old_lines(items, windows) == Some(lines) {
        return go_over(alloc, parts, items, windows, false);
    }
    let one = all_as_one(items, windows, lines);
    go_over(alloc, parts, items, &[one], false)
}

/// Where the layout's text of a BUILD file is another than the one that a tree spells, if that is the layout of items of which these came in
/// the place of others: what is new, window by window, and the length of all, if the tree spells as many bytes as `old_length` says. Whole
/// lines are new: where the gap before a line is another, the line is. Errors: `TooLarge` exactly where the layout is past the limit of a
/// text, else `TooDeep` exactly where its tree would be past the limit of depth; `Memory`: a growth was refused.
pub fn text_windows(
    alloc: Global,
    file: &File,
    windows: &[Window],
    tree: &Tree,
    old_length: usize,
) -> Result<Laid, SetFault>
    requires within { AreWithin windows.now file.now }
    requires build { AreBuild file.now }
    ensures put { IfOk result (λ laid. (before : List Item) → IsLayoutOf before tree.now → AreOver windows.now before file.now
        → (new : List PartWindow) × AreTextsOf laid.windows new × AreThere new tree.now.parts × (with_windows new tree.now ≡ laid_out file.now)) }
    ensures length { IfOk result (λ laid. (before : List Item) → IsLayoutOf before tree.now → AreOver windows.now before file.now → old_length ≡ length (spell_node tree.now)
        → (laid.length ≡ length (layout file.now)) × (laid.length ≤ limit)) }
    ensures shallow { IfOk result (λ _. (before : List Item) → IsLayoutOf before tree.now → AreOver windows.now before file.now
        → depth_of tree.now ≤ depth_limit → depth_of (laid_out file.now) ≤ depth_limit) }
    ensures too_large { result ≡ Err SetFault.TooLarge → (before : List Item) → IsLayoutOf before tree.now → AreOver windows.now before file.now → old_length ≡ length (spell_node tree.now)
        → limit < length (layout file.now) }
    ensures too_deep { result ≡ Err SetFault.TooDeep → (before : List Item) → IsLayoutOf before tree.now → AreOver windows.now before file.now → old_length ≡ length (spell_node tree.now)
        → (length (layout file.now) ≤ limit) × (depth_limit < depth_of (laid_out file.now)) }
{
    let items = file.items.as_slice();
    let Some(writer) = written(alloc, file, windows, tree)? else {
        return Err(SetFault::TooLarge);
    };
    let gone = length_gone(tree.root.parts.as_slice(), writer.made.as_slice());
    let length = old_length.saturating_sub(gone).saturating_add(writer.bytes);
    if length > LENGTH_LIMIT {
        return Err(SetFault::TooLarge);
    }
    if !are_windows_within(items, windows, DEPTH_LIMIT as usize - 1) {
        return Err(SetFault::TooDeep);
    }
    Ok(Laid {
        windows: writer.made,
        length,
    })
}
