//! The rules that a target means.
ghost use Rattle.std.specs.Prelude.{◌≡◌, ◌≤◌, ◌+◌, ◌-◌, ◌++◌, ◌∷◌, ℕ, Bool, List, IfOk, IfSome, OnOk, drop, length, take};
ghost use Rattle.std.specs.List.{list_any};
ghost use Rattle.bz_rule.specs.Index.{IsIndexOf, marked_places};
ghost use Rattle.bz_command.specs.Effect.{is_rule, item_line, lines_after_item, meant, rule_arguments};
ghost use Rattle.bz_command.specs.private.Steps.{each_meant, is_meant_at, lines_after_items};

use bz_items::Memory;
use bz_label::Which;
use bz_rule::{Names, call_of, has_name, is_named, is_rule_of_kind};
use bz_value::{Expr, Item};
use std::alloc::Global;

/// Whether the item is a rule.
#[tactic(auto, using(crate::proofs::TargetMarks::rule_of_call))]
pub(crate) fn is_rule(item: &Item) -> bool
    ensures { result ≡ is_rule item.now }
{
    match call_of(item) {
        Some(call) => is_named(call.function),
        None => false,
    }
}

/// The arguments of a rule; of any other item none.
pub(crate) fn arguments_of(item: &Item) -> &[Expr]
    ensures { result.now ≡ rule_arguments item.now }
{
    match call_of(item) {
        Some(call) if is_named(call.function) => call.arguments,
        _ => &[],
    }
}

/// The line on which an item begins, where it is on one, and the lines of the statements after it.
pub(crate) fn line_at<'a>(lines: &'a [u32], item: &Item) -> (Option<u32>, &'a [u32])
    ensures line { result.0 ≡ item_line lines.entry.now item.now }
    ensures following { result.1.now ≡ lines_after_item lines.entry.now item.now }
{
    match item {
        Item::Block(_) => (None, lines),
        Item::Stmt(_) => match lines.split_first() {
            Some((line, following)) => (Some(*line), following),
            None => (None, lines),
        },
    }
}

/// The lines of the statements after the items from one place to another.
pub(crate) fn lines_after<'a>(lines: &'a [u32], items: &[Item], from: usize, to: usize) -> &'a [u32]
    requires start { from ≤ to }
    requires end { to ≤ length items.now }
    ensures { result.now ≡ lines_after_items lines.entry.now (take (to - from) (drop from items.now)) }
{
    if lines.is_empty() {
        return lines;
    }
    let between = &items[from..to];
    let mut left = lines;
    for item in between {
        left = line_at(left, item).1;
    }
    left
}

/// Appends the place of an item, where it is marked.
fn push_marked(mark: bool, at: usize, places: &mut Vec<usize>) -> Result<(), Memory>
    ensures { (marks : List Bool) → OnOk result (places.new.items ++ marked_places (at + 1) marks ≡ places.old.items ++ marked_places at (mark ∷ marks)) }
{
    if mark {
        places.push(at)?;
    }
    Ok(())
}

/// Whether a target means an item that begins on this line, by the item alone.
fn is_meant_at(which: &Which, begins: Option<u32>, item: &Item) -> bool
    ensures { result ≡ is_meant_at which.now begins item.now }
{
    match which {
        Which::All => is_rule(item),
        Which::Kind(kind) => is_rule_of_kind(kind.as_slice(), item),
        Which::Line(line) => begins == Some(*line) && is_rule(item),
        Which::Package => is_rule_of_kind(b"package", item),
        Which::Name(name) => has_name(name.as_slice(), item),
    }
}

/// The places of the items that a target means, each by itself.
#[tactic(auto, using(crate::proofs::TargetMarks::next_meant, crate::proofs::TargetMarks::none_meant))]
fn each_meant(
    alloc: Global,
    which: &Which,
    lines: &[u32],
    items: &[Item],
) -> Result<Vec<usize>, Memory>
    ensures { IfOk result (λ places. places.items ≡ marked_places 0 (each_meant which.now lines.now items.now)) }
{
    let mut places = Vec::new(alloc);
    let mut left = lines;
    for (at, item) in items.iter().enumerate() {
        let (begins, following) = line_at(left, item);
        push_marked(is_meant_at(which, begins, item), at, &mut places)?;
        left = following;
    }
    Ok(places)
}

/// The places of the items that a target means, from 0, in their order. There may be an index of their names.
pub(crate) fn meant(
    alloc: Global,
    which: &Which,
    lines: &[u32],
    names: Option<&Names>,
    items: &[Item],
) -> Result<Vec<usize>, Memory>
    requires { IfSome names (λ index. IsIndexOf index.now items.now) }
    ensures { IfOk result (λ places. places.items ≡ marked_places 0 (meant which.now lines.now items.now)) }
{
    match which {
        Which::All | Which::Kind(_) | Which::Line(_) => each_meant(alloc, which, lines, items),
        Which::Package => {
            let mut places = each_meant(alloc, which, lines, items)?;
            places.truncate(1);
            Ok(places)
        }
        Which::Name(name) => match names {
            Some(index) => Vec::from_slice(alloc, index.places(name.as_slice())),
            None => each_meant(alloc, which, lines, items),
        },
    }
}

/// Whether there is a place.
pub(crate) fn is_any(places: &[usize]) -> bool
    ensures { (at : ℕ) (marks : List Bool) → places.now ≡ marked_places at marks → result ≡ list_any (λ mark. mark) marks }
{
    !places.is_empty()
}

/// Whether the first of these places is this one, and the places after it.
pub(crate) fn take_place(at: usize, places: &[usize]) -> (bool, &[usize])
    ensures { (mark : Bool) (marks : List Bool) → places.entry.now ≡ marked_places at (mark ∷ marks) → (result.0 ≡ mark) × (result.1.now ≡ marked_places (at + 1) marks) }
{
    match places.split_first() {
        Some((first, following)) if *first == at => (true, following),
        _ => (false, places),
    }
}
