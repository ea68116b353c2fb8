//! The lines on which the statements of a file begin, where one of its parts is exchanged: those after it move.
ghost use Rattle.std.specs.Prelude.{◌≡◌, ◌++◌, ◌∷◌, [], List, ℕ, IfSome, IsTrue};
ghost use Rattle.std.specs.List.{AllByRecursion};
ghost use Rattle.std.specs.Option.{option_copied};
ghost use Rattle.bz_journal.specs.Clauses.{AreThere, HasOne, IsLike, IsLineOfOne, fronts_part, is_node, is_lone_statement, lines_of, moved, moved_from, newlines, spell_part, with_windows};

use bz_edit::PartWindow;
use bz_grammar::{LENGTH_LIMIT, Part, Tree, first_of};
use bz_items::{Gap, Items};

/// How many newlines are in a line of a file; none of a leaf, of what is longer than a text may be, or where memory is refused for the text.
#[tactic(auto, using(crate::proofs::MovedLines::spelled))]
fn newlines_of(part: &Part) -> Option<u32>
    ensures { IfSome result (λ count. count ≡ newlines (spell_part part.now)) }
{
    let Part::Node(line) = part else {
        return None;
    };
    let mut text = Vec::new(line.parts.alloc());
    if line.spell_into(&mut text).is_err() || text.len() > LENGTH_LIMIT {
        return None;
    }
    Some(text.iter().filter(|byte| **byte == b'\n').count() as u32)
}

fn is_node(part: &Part) -> bool
    ensures { result ≡ is_node part.now }
{
    matches!(part, Part::Node(_))
}

/// Whether a part is a statement in which no other one is.
fn is_lone_statement(part: &Part) -> bool
    ensures { result ≡ is_lone_statement part.now }
{
    match part {
        Part::Leaf(_) => false,
        Part::Node(node) => node.kind.is_statement_kind() && !node.kind.has_statements(),
    }
}

/// The parts of a line of a file that has one statement, and its end after it; none of any other part.
fn line_of_one(part: &Part) -> Option<&[Part]>
    ensures { IfSome (option_copied result) (λ parts. IsLineOfOne part.now parts) }
{
    let Part::Node(line) = part else {
        return None;
    };
    if line.kind.is_statement_kind() || !line.kind.has_statements() {
        return None;
    }
    let parts = line.parts.as_slice();
    if parts.len() != 2 || !is_lone_statement(&parts[0]) || is_node(&parts[1]) {
        return None;
    }
    Some(parts)
}

/// Whether a part of a file is such a line.
#[tactic(auto, unfolding(crate::specs::private::Making::HasOne))]
fn holds_one(part: &Part) -> bool
    ensures { IsTrue result → HasOne part.now }
{
    line_of_one(part).is_some()
}

/// Whether each of these parts of a file is such a line.
fn hold_one_each(parts: &[Part]) -> bool
    ensures { IsTrue result → AllByRecursion HasOne parts.now }
{
    parts.iter().all(holds_one)
}

/// The gap in front of the statement of such a line; none of any other part.
fn opening(part: &Part) -> Option<&Gap>
    ensures { IfSome (option_copied result) (λ gap. (front : List ℕ) → fronts_part front part.now ≡ (front ++ gap) ∷ []) }
{
    let parts = line_of_one(part)?;
    let leaf = first_of(&parts[..1])?;
    Some(&leaf.gap)
}

/// How many newlines are in each of two lines of a file that have one statement each, if both begin alike; else none.
fn alike(old: &Part, new: &Part) -> Option<(u32, u32)>
    ensures { IfSome result (λ counts. IsLike old.now new.now counts.0 counts.1) }
{
    let before = opening(old)?;
    let after = opening(new)?;
    if before.as_slice() != after.as_slice() {
        return None;
    }
    Some((newlines_of(old)?, newlines_of(new)?))
}

/// A line, moved; none where it would be past what a line may be.
fn moved(line: u32, gone: u32, come: u32) -> Option<u32>
    ensures { IfSome result (λ next. next ≡ moved gone come line) }
{
    line.checked_add(come)?.checked_sub(gone)
}

/// Moves the lines from a place on. None where one would be past what a line may be; some are moved then.
fn move_from(lines: &mut [u32], from: usize, gone: u32, come: u32) -> Option<()>
    ensures { IfSome result (λ _. lines.new ≡ moved_from from gone come lines.old) }
{
    for at in from..lines.len() {
        lines[at] = moved(lines[at], gone, come)?;
    }
    Some(())
}

/// The lines on which the statements of the tree with these windows begin, by those of the present one; none where they are to be counted anew.
pub(crate) fn begins_after(
    begins: Option<Items<u32>>,
    windows: &[PartWindow],
    tree: &Tree,
) -> Option<Items<u32>>
    requires begins { IfSome begins (λ begins. begins ≡ lines_of tree.now) }
    requires there { AreThere windows.now tree.now.parts }
    ensures { IfSome result (λ next. next ≡ lines_of (with_windows windows.now tree.now)) }
{
    let mut begins = begins?;
    let [window] = windows else {
        return None;
    };
    let [line] = window.parts.as_slice() else {
        return None;
    };
    if window.gone != 1 {
        return None;
    }
    let parts = tree.root.parts.as_slice();
    let place = window.from;
    let from = place + 1;
    if !hold_one_each(&parts[..from]) {
        return None;
    }
    let (gone, come) = alike(&parts[place], line)?;
    move_from(begins.as_mut_slice(), from, gone, come)?;
    Some(begins)
}
