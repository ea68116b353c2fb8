//! Windows of parts, read of windows of texts.
ghost use Rattle.std.specs.Prelude.{◌≡◌, ◌⊎◌, ◌<◌, ◌≤◌, ◌+◌, ◌-◌, ◌^◌, ◌++◌, [], ◌∷◌, IfOk, IfErr, IfSome, IsTrue, List, OnOk, drop, length, take};
ghost use Rattle.bz_build_format.specs.Words.{AreWholeLines, file_with, Accepted, IsBuild, LegalBuild, Reads, limit, spell_node, bare_end, AreThere, with_windows, PartWindow, AreTextsOf};
ghost use Rattle.bz_build_format.specs.private.Lines.{AreAmong, AreRead, IsPushed, IsPutAmong, ReadAsLines, spelled_parts, text_with};

use crate::ends::{Side, rest_of_part, same, shared};
use bz_edit::PartWindow;
use bz_grammar::laws::{lines_join, lines_split, one_reading};
use bz_grammar::{Kind, LENGTH_LIMIT, Node, Part, ReadFault, Tree, copy_all, length_with};
use bz_hosts::ends_with_line;
use bz_items::{Items, Memory, Text};
use bz_layout::TextWindow;
use bz_tree::parse;
use std::alloc::{AllocError, Global};

/// Whether the parts of a file are whole lines: the last of them, if there is one, ends with a line feed.
fn are_whole_lines(parts: &[Part]) -> bool
    ensures { IsTrue result → AreWholeLines parts.now }
{
    let Some((last, _)) = parts.split_last() else {
        return true;
    };
    let Part::Node(line) = last else {
        return false;
    };
    match line.parts.as_slice().split_last() {
        Some((Part::Leaf(leaf), _)) => leaf.token.as_slice() == b"\n".as_slice(),
        _ => false,
    }
}

/// The lines that a text of whole lines reads as; none where it is another one, or a growth was refused.
fn lines_read(alloc: Global, text: &[u8]) -> Option<Items<Part>>
    ensures { IfSome result (λ lines. LegalBuild (file_with (bare_end ∷ [])) → ReadAsLines text.now lines) }
{
    lines_join();
    if text.is_empty() {
        return Some(Items::new(alloc));
    }
    let tree = parse(alloc, text).ok()?;
    if !ends_with_line(&tree) {
        return None;
    }
    let mut lines = tree.root.parts;
    lines.pop();
    Some(lines)
}

/// The beginning of a text, up to what parts at its end spell, with what the first of these spells; none where there is no part.
#[tactic(auto, using(crate::proofs::Windowed::one_less_stays))]
fn with_next<'a>(text: &'a [u8], beginning: &[u8], parts: &[Part]) -> Option<&'a [u8]>
    requires { text.now ≡ beginning.now ++ spelled_parts parts.now }
    ensures some { IfSome result (λ _. 0 < length parts.now) }
    ensures text { IfSome result (λ more. text.now ≡ more.now ++ spelled_parts (drop 1 parts.now)) }
{
    let len = length_with(parts.get(..1)?, beginning.len())?;
    text.get(..len)
}

/// The lines of a text in the place of parts from `from` as far as `reach`, but for those that it has in common with them at its beginning and at its
/// end. None where they, or the parts around them as far as `reach`, are no whole lines, or a growth was refused.
fn cut_lines(
    alloc: Global,
    parts: &[Part],
    from: usize,
    reach: usize,
    text: &[u8],
) -> Option<PartWindow>
    requires within { from ≤ reach }
    requires reach { reach < length parts.now }
    requires legal { LegalBuild (file_with parts.now) }
    ensures { IfSome result (λ new. IsPutAmong reach parts.now new (spelled_parts (take from parts.now) ++ text.now)) }
{
    lines_join();
    lines_split();
    let (at, rest) = shared(Side::Front, &parts[from..reach], text);
    let from = from + at;
    if !are_whole_lines(&parts[..from]) {
        return None;
    }
    let left = &parts[from..reach];
    let (mut count, mut middle) = shared(Side::Back, left, rest);
    // comments alone are no lines: they are read with the line below them
    for _ in 0..2 {
        let gone = left.len() - count;
        let (_, kept) = left.split_at(gone);
        if are_whole_lines(&parts[from + gone..reach])
            && let Some(lines) = lines_read(alloc, middle)
        {
            return Some(PartWindow {
                from,
                gone,
                parts: lines,
            });
        }
        middle = with_next(rest, middle, kept)?;
        count -= 1;
    }
    None
}

/// The window of a text that is read in the place of all parts from one on.
fn rest_read(
    alloc: Global,
    parts: &[Part],
    from: usize,
    text: &[u8],
) -> Result<PartWindow, ReadFault>
    requires from { from ≤ length parts.now }
    ensures ok { IfOk result (λ new. (new.from ≡ from) × (new.from + new.gone ≡ length parts.now) × Reads text.now (file_with new.parts)) }
    ensures err { IfErr result (λ fault. (Accepted text.now → ⊥) ⊎ (fault ≡ ReadFault.Memory)) }
{
    let tree = parse(alloc, text)?;
    Ok(PartWindow {
        from,
        gone: parts.len() - from,
        parts: tree.root.parts,
    })
}

/// The window of a text that takes the place of the parts of a file from `from` on, after lines: where no less of it is known by itself, of all of it.
/// The error: with those lines it isn't accepted, or a growth was refused.
fn end_window(
    alloc: Global,
    parts: &[Part],
    from: usize,
    text: &[u8],
) -> Result<PartWindow, ReadFault>
    requires from { from < length parts.now }
    requires whole { AreWholeLines (take from parts.now) }
    requires legal { LegalBuild (file_with parts.now) }
    requires short { length (spelled_parts (take from parts.now) ++ text.now) ≤ limit }
    ensures ok { IfOk result (λ new. AreRead (spelled_parts (take from parts.now) ++ text.now) (new ∷ []) parts.now) }
    ensures err { IfErr result (λ fault. (Accepted text.now → ⊥) ⊎ (fault ≡ ReadFault.Memory)) }
{
    lines_join();
    lines_split();
    let end = parts.len() - 1;
    if let Some(rest) = rest_of_part(Side::Back, &parts[end], text)
        && let Some(new) = cut_lines(alloc, parts, from, end, rest)
    {
        return Ok(new);
    }
    let (count, rest) = same(Side::Front, &parts[from..end], text);
    if are_whole_lines(&parts[..from + count])
        && let Ok(new) = rest_read(alloc, parts, from + count, rest)
    {
        return Ok(new);
    }
    let new = rest_read(alloc, parts, from, text)?;
    Ok(new)
}

/// Appends a window among the first `reach` parts that are left, of which `kept` ones before them stay, unless it changes nothing. The
/// answer: how many parts stay in front of what is left then.
fn push_window(
    read: &mut Items<PartWindow>,
    kept: usize,
    mut new: PartWindow,
    reach: usize,
) -> Result<usize, Memory>
    requires within { new.from + new.gone ≤ reach }
    requires fits { kept + reach < 2 ^ 64 }
    ensures { IfOk result (λ stay. IsPushed read.old kept new reach read.new stay) }
{
    if new.gone == 0 && new.parts.is_empty() {
        return Ok(kept + reach);
    }
    let behind = reach - new.from - new.gone;
    new.from += kept;
    read.push(new)?;
    Ok(behind)
}

/// The windows of parts, each of the text of one window. None where one isn't read by itself, or a growth was refused.
fn each_read(alloc: Global, parts: &[Part], windows: &[TextWindow]) -> Option<Items<PartWindow>>
    requires legal { LegalBuild (file_with parts.now) }
    requires among { AreAmong windows.now parts.now }
    requires short { length (text_with windows.now parts.now) ≤ limit }
    ensures { IfSome result (λ read. AreRead (text_with windows.now parts.now) read parts.now) }
{
    lines_join();
    lines_split();
    let mut read = Items::new(alloc);
    let mut kept = 0;
    let mut left = parts;
    let mut texts = windows;
    while let Some((window, others)) = texts.split_first() {
        let reach = window.from + window.gone;
        let text = window.text.as_slice();
        let (before, gone) = left.split_at(window.from);
        if reach == left.len() {
            if !others.is_empty() || gone.is_empty() || !are_whole_lines(before) {
                return None;
            }
            let new = end_window(alloc, left, window.from, text).ok()?;
            push_window(&mut read, kept, new, reach).ok()?;
            return Some(read);
        }
        let new = cut_lines(alloc, left, window.from, reach, text)?;
        kept = push_window(&mut read, kept, new, reach).ok()?;
        let (_, following) = left.split_at(reach);
        left = following;
        texts = others;
    }
    Some(read)
}

/// Appends what parts spell.
fn push_parts(out: &mut Vec<u8>, parts: &[Part]) -> Result<(), Memory>
    ensures { OnOk result (out.new.items ≡ out.old.items ++ spelled_parts parts.now) }
{
    let file = Node {
        kind: Kind::File,
        parts: copy_all(*out.allocator(), parts)?,
    };
    file.spell_into(out)?;
    Ok(())
}

/// The text of parts, with that of each window in the place of as many as it says.
fn whole_text(alloc: Global, parts: &[Part], windows: &[TextWindow]) -> Result<Text, Memory>
    requires { AreAmong windows.now parts.now }
    ensures { IfOk result (λ text. text ≡ text_with windows.now parts.now) }
{
    let mut out = Vec::new(alloc);
    let mut left = parts;
    for window in windows {
        let (before, following) = left.split_at(window.from);
        push_parts(&mut out, before)?;
        out.extend_from_slice(window.text.as_slice())?;
        let (_, behind) = following.split_at(window.gone);
        left = behind;
    }
    push_parts(&mut out, left)?;
    Ok(Text::from_vec(out))
}

/// The parts of windows of texts that take the place of parts of a BUILD file's tree: as few as differ. Required is that the texts are what some parts
/// spell, with which the tree is legal. The error: a growth was refused.
pub fn read_windows(
    alloc: Global,
    tree: &Tree,
    windows: Items<TextWindow>,
) -> Result<Items<PartWindow>, Memory>
    requires build { IsBuild tree.now }
    requires texts { (new : List PartWindow) × AreTextsOf windows new × AreThere new tree.now.parts × LegalBuild (with_windows new tree.now) × (length (spell_node (with_windows new tree.now)) ≤ limit) }
    ensures { (new : List PartWindow) → AreTextsOf windows new → AreThere new tree.now.parts → LegalBuild (with_windows new tree.now) → length (spell_node (with_windows new tree.now)) ≤ limit
        → IfOk result (λ read. AreThere read tree.now.parts × (with_windows read tree.now ≡ with_windows new tree.now)) }
{
    one_reading();
    let parts = tree.root.parts.as_slice();
    let texts = windows.as_slice();
    if let Some(read) = each_read(alloc, parts, texts) {
        return Ok(read);
    }
    let text = whole_text(alloc, parts, texts)?;
    match read_text(alloc, tree, text.as_slice()) {
        Ok(read) => Ok(read),
        Err(ReadFault::Memory) => Err(AllocError),
        Err(_) => unreachable!(),
    }
}

/// The parts that take the place of those of a BUILD file's tree with which it spells a text: as few as differ. The error: the text isn't accepted, or a
/// growth was refused.
pub fn read_text(alloc: Global, tree: &Tree, text: &[u8]) -> Result<Items<PartWindow>, ReadFault>
    requires { IsBuild tree.now }
    ensures ok { IfOk result (λ read. AreThere read tree.now.parts × Reads text.now (with_windows read tree.now)) }
    ensures err { IfErr result (λ fault. (Accepted text.now → ⊥) ⊎ (fault ≡ ReadFault.Memory)) }
{
    if text.len() > LENGTH_LIMIT {
        return Err(ReadFault::TooLarge);
    }
    let parts = tree.root.parts.as_slice();
    let new = end_window(alloc, parts, 0, text)?;
    let mut read = Items::new(alloc);
    push_window(&mut read, 0, new, parts.len())?;
    Ok(read)
}

/// Whether a text is for the most part other than the tree's at both ends.
pub fn is_mostly_other(tree: &Tree, text: &[u8]) -> bool {
    let parts = tree.root.parts.as_slice();
    let (count, rest) = same(Side::Front, parts, text);
    let (_, middle) = same(Side::Back, &parts[count..], rest);
    middle.len() > text.len() / 2
}
