//! Text windows in the making: the lines that change, and where they are among those of the tree.
ghost use Rattle.std.specs.Prelude.{◌≡◌, ◌∷◌, ◌++◌, ◌+◌, ◌-◌, ◌<◌, ◌≤◌, [], true, false, drop, length, take, slice_get, List, IfOk, IsTrue, MatchOption, OnOk};
ghost use Rattle.std.specs.List.{flat_map};
ghost use Rattle.bz_layout.specs.Words.{leaves_part, limit, spell_part, Part, IsProperBuild, AreWithin, Item};
ghost use Rattle.bz_layout.specs.Drafts.{pushed};
ghost use Rattle.bz_layout.specs.LaidOut.{left_gap, before_next, lines_from};
ghost use Rattle.bz_layout.specs.Written as written;
ghost use Rattle.bz_layout.specs.private.Reached.{AreReached, HasGap, HasNext, IsAt, IsPut, Passes, own_text};
ghost use Rattle.bz_layout.specs.private.Windows.{AreCounted, HaveLines};

use crate::breaks::Lines;
use crate::draft::Draft;
use crate::gaps::{leave_gap, pass_over, push_comments};
use crate::line_windows::{count_lines, lines_in, split_window};
use crate::texts::push_statement_in;
use bz_grammar::{LENGTH_LIMIT, Part, first_of};
use bz_items::{Items, Memory, Text};
use bz_value::{Item, Window};
use std::alloc::Global;
use std::mem;

/// The text of lines that take the place of others in a tree, counted in parts of its root.
#[derive(Drop)]
pub struct TextWindow {
    /// How many parts stay before them, since the window before or from the beginning.
    pub from: usize,
    /// How many parts give way to them.
    pub gone: usize,
    pub text: Text,
}

/// The window that is written.
#[derive(Drop)]
pub struct OpenWindow {
    /// Whole lines.
    pub text: Draft,
    /// The gap before the next line.
    pub gap: Vec<u8>,
    /// Whether anything is changed in it.
    pub is_open: bool,
}

/// The windows that are made, and the open one. The places are of parts of the tree's root.
#[derive(Drop)]
pub struct Writer {
    pub made: Items<TextWindow>,
    pub window: OpenWindow,
    /// How many bytes the texts of the windows have that are made.
    pub bytes: usize,
    /// Where the last of these ends.
    pub done: usize,
    /// Where the open window begins.
    pub base: usize,
    /// The next part.
    pub part: usize,
}

/// A writer at the beginning of a tree.
#[tactic(auto, using(crate::proofs::Staying::begun))]
pub fn new_writer(alloc: Global) -> Writer
    ensures { (parts : List Part) (before items : List Item) → lines_from [] before ≡ parts → IsProperBuild before → IsProperBuild items → AreReached parts (lines_from [] items) result before items }
{
    Writer {
        made: Items::new(alloc),
        window: OpenWindow {
            text: Draft::new(Vec::new(alloc), LENGTH_LIMIT),
            gap: Vec::new(alloc),
            is_open: false,
        },
        bytes: 0,
        done: 0,
        base: 0,
        part: 0,
    }
}

/// The parts before a place, and the others.
#[tactic(auto, using(std::proofs::lemmas::List::take_min, std::proofs::lemmas::List::drop_min))]
pub fn cut_parts(parts: &[Part], at: usize) -> (&[Part], &[Part])
    ensures front { result.0.now ≡ take at parts.now }
    ensures back { result.1.now ≡ drop at parts.now }
{
    parts.split_at(at.min(parts.len()))
}

/// The place past this many parts, or past all that are there.
fn place_past(parts: &[Part], at: usize, count: usize) -> usize
    ensures { at + count ≤ length parts.now → result ≡ at + count }
{
    at.saturating_add(count).min(parts.len())
}

/// Whether this gap is before the first of the parts.
fn has_gap(parts: &[Part], gap: &[u8]) -> bool
    ensures { IsTrue result → HasGap (slice_get (flat_map leaves_part parts.now) 0) gap.now }
{
    first_of(parts).is_some_and(|leaf| leaf.gap.as_slice() == gap)
}

/// Whether the item is a statement, and this gap with its comments is before the first of the parts.
fn has_line(alloc: Global, parts: &[Part], gap: &[u8], item: &Item) -> Result<bool, Memory>
    ensures { IfOk result (λ same. IsTrue same → (others : List Item) → HasNext gap.now (item.now ∷ others) parts.now) }
{
    let Item::Stmt(expr) = item else {
        return Ok(false);
    };
    let mut above = Vec::from_slice(alloc, gap)?;
    push_comments(&mut above, expr.comments().before())?;
    Ok(has_gap(parts, &above))
}

/// Appends the line of an item, if it has one: a statement, after its gap. To the gap what is between it and the others.
#[tactic(auto, using(crate::proofs::Pushing::pushed_none, crate::proofs::Pushing::pushed_twice))]
fn put_item(window: &mut OpenWindow, item: &Item, others: &[Item]) -> Result<(), Memory>
    ensures text { OnOk result (window.new.text ≡ pushed window.old.text (own_text window.old.gap.items item.now)) }
    ensures gap { OnOk result (window.new.gap.items ≡ left_gap window.old.gap.items item.now ++ before_next item.now others.now) }
    ensures opened { OnOk result (window.new.is_open ≡ true) }
{
    if let Item::Stmt(expr) = item {
        window.text.push_bytes(&window.gap)?;
        push_statement_in(&mut window.text, Lines::Counted, expr)?;
    }
    leave_gap(&mut window.gap, item, others)?;
    window.is_open = true;
    Ok(())
}

/// Appends the lines of the items of a window, which came.
#[tactic(auto, using(crate::proofs::Staying::came_turn))]
fn put_items(writer: &mut Writer, items: &[Item], window: &Window) -> Result<(), Memory>
    requires { window.now.from + window.now.come ≤ length items.now }
    ensures { OnOk result ((parts all : List Part) (before : List Item) → AreReached parts all writer.old before (drop window.now.from items.now)
        → AreReached parts all writer.new before (drop (window.now.from + window.now.come) items.now)) }
{
    for at in window.from..window.from + window.come {
        put_item(&mut writer.window, &items[at], &items[at + 1..])?;
    }
    Ok(())
}

/// Ends the open window, if anything is changed in it. No: the texts are longer than a text may be.
fn close(writer: &mut Writer) -> Result<bool, Memory>
    ensures closed { IfOk result (λ fits. IsTrue fits → (parts all left rest : List Part) → IsAt parts all writer.old left rest → IsAt parts all writer.new left rest) }
    ensures shut { IfOk result (λ fits. IsTrue fits → writer.new.window.is_open ≡ false) }
    ensures gap { OnOk result (writer.new.window.gap.items ≡ writer.old.window.gap.items) }
    ensures part { OnOk result (writer.new.part ≡ writer.old.part) }
    ensures long { IfOk result (λ fits. fits ≡ false → (parts all left rest : List Part) → IsAt parts all writer.old left rest → limit < length (flat_map spell_part all)) }
{
    if !writer.window.is_open {
        return Ok(true);
    }
    let next = Draft::new(Vec::new(writer.made.alloc()), LENGTH_LIMIT);
    let Some(lines) = mem::replace(&mut writer.window.text, next).into_bytes() else {
        return Ok(false);
    };
    let bytes = writer.bytes.saturating_add(lines.len());
    if bytes > LENGTH_LIMIT {
        return Ok(false);
    }
    writer.made.push(TextWindow {
        from: writer.base.saturating_sub(writer.done),
        gone: writer.part.saturating_sub(writer.base),
        text: Text::from_vec(lines),
    })?;
    writer.window.is_open = false;
    writer.bytes = bytes;
    writer.done = writer.part;
    writer.base = writer.part;
    Ok(true)
}

/// Passes over the first of the items, which stay: their lines are put again up to the first that stays as well, which ends the open
/// window. Where it is said that each item of the tree is a line, none is counted. No: the texts are longer than a text may be.
fn advance(
    writer: &mut Writer,
    parts: &[Part],
    items: &[Item],
    count: usize,
    each_is_line: bool,
) -> Result<bool, Memory>
    requires { count ≤ length items.now }
    ensures fits { IfOk result (λ fits. IsTrue fits → Passes each_is_line parts.now count count items.now writer.old writer.new) }
    ensures long { IfOk result (λ fits. fits ≡ false → (all : List Part) (before : List Item) → count ≤ length before → take count before ≡ take count items.now
        → HaveLines each_is_line before → AreReached parts.now all writer.old before items.now → limit < length (flat_map spell_part all)) }
{
    let alloc = writer.made.alloc();
    for at in 0..count {
        let item = &items[at];
        let (_before, left) = cut_parts(parts, writer.part);
        if has_line(alloc, left, &writer.window.gap, item)? {
            if !close(writer)? {
                return Ok(false);
            }
            writer.part = place_past(
                parts,
                writer.part,
                lines_in(each_is_line, &items[at..count]),
            );
            writer.base = writer.part;
            pass_over(&mut writer.window.gap, &items[at..], count - at)?;
            return Ok(true);
        }
        put_item(&mut writer.window, item, &items[at + 1..])?;
        writer.part = place_past(parts, writer.part, count_lines(&items[at..at + 1]));
    }
    Ok(true)
}

/// The end of the file, which is put again where its gap is another.
#[tactic(auto, using(crate::proofs::Staying::end_same, crate::proofs::Staying::end_put))]
fn put_end(writer: &mut Writer, parts: &[Part]) -> Result<(), Memory>
    ensures { OnOk result ((all : List Part) → AreReached parts.now all writer.old [] [] → (left : List Part) × IsAt parts.now all writer.new left left) }
{
    let (_before, left) = cut_parts(parts, writer.part);
    if has_gap(left, &writer.window.gap) {
        return Ok(());
    }
    writer.window.text.push_bytes(&writer.window.gap)?;
    writer.window.is_open = true;
    writer.part = place_past(parts, writer.part, 1);
    Ok(())
}

/// The windows of the text, where those of items count the lines that gave way; none where the texts are longer than a text may be.
/// Where it is said that each item of the tree is a line, those that stay are not counted.
pub fn go_over(
    alloc: Global,
    parts: &[Part],
    items: &[Item],
    windows: &[Window],
    each_is_line: bool,
) -> Result<Option<Writer>, Memory>
    requires { AreWithin windows.now items.now }
    ensures { IfOk result (λ made. (before : List Item) → lines_from [] before ≡ parts.now → IsProperBuild before → IsProperBuild items.now → AreCounted each_is_line windows.now before items.now
        → MatchOption made (limit < length (written.layout items.now)) (λ writer. IsPut parts.now (lines_from [] items.now) writer.made writer.bytes writer.done)) }
{
    let mut writer = new_writer(alloc);
    let mut rest = items;
    for window in windows {
        if !advance(&mut writer, parts, rest, window.from, each_is_line)? {
            return Ok(None);
        }
        writer.window.is_open = true;
        writer.part = place_past(parts, writer.part, window.gone);
        put_items(&mut writer, rest, window)?;
        rest = split_window(rest, window).2;
    }
    if !advance(&mut writer, parts, rest, rest.len(), each_is_line)? {
        return Ok(None);
    }
    put_end(&mut writer, parts)?;
    if !close(&mut writer)? {
        return Ok(None);
    }
    Ok(Some(writer))
}
