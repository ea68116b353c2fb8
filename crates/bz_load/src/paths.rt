//! The paths from which a file loads and the local names that it loads, in a set that outlives a change: what came is added, and what is there no more stays in it.
ghost use Rattle.std.specs.Prelude.{◌≡◌, ◌||◌, List, bytes_eq, drop, take, false, IfOk, OnOk};
ghost use Rattle.std.specs.List.{list_any};
ghost use Rattle.bz_load.specs.Words.{Bytes, AreOver, Item, local_name};
ghost use Rattle.bz_load.specs.Paths.{AreListed};
ghost use Rattle.bz_load.specs.private.Known.{come_with, knows_name, mentions};

use crate::readings::{is_load, path_of, symbols_of};
use bz_attribute::{has_text, insert_text};
use bz_items::Memory;
use bz_rule::local_name;
use bz_value::{Expr, Item, Window};
use std::alloc::Global;
use std::collections::BTreeSet;
use std::marker::Model;

/// Adds the local names of symbols.
fn insert_locals(
    alloc: Global,
    symbols: &[Expr],
    texts: &mut BTreeSet<Vec<u8>>,
) -> Result<(), Memory>
    ensures { (text : Bytes) → OnOk result (knows_name texts.new text ≡ (list_any (λ x. bytes_eq text (local_name x)) symbols.now || knows_name texts.old text)) }
{
    for x in symbols {
        insert_text(alloc, texts, local_name(x))?;
    }
    Ok(())
}

/// Adds the path of a load, and the local names of its symbols.
#[tactic(auto, using(crate::proofs::PathSteps::none_mentioned, crate::proofs::PathSteps::names_alone, crate::proofs::PathSteps::path_and_names))]
fn insert_load(alloc: Global, item: &Item, texts: &mut BTreeSet<Vec<u8>>) -> Result<(), Memory>
    ensures { (text : Bytes) → OnOk result (knows_name texts.new text ≡ (mentions text item.now || knows_name texts.old text)) }
{
    if !is_load(item) {
        return Ok(());
    }
    insert_locals(alloc, symbols_of(item), texts)?;
    let Some(path) = path_of(item) else {
        return Ok(());
    };
    insert_text(alloc, texts, path)?;
    Ok(())
}

/// The same of each of the items.
fn insert_loads(alloc: Global, items: &[Item], texts: &mut BTreeSet<Vec<u8>>) -> Result<(), Memory>
    ensures { (text : Bytes) → OnOk result (knows_name texts.new text ≡ (list_any (mentions text) items.now || knows_name texts.old text)) }
{
    for item in items {
        insert_load(alloc, item, texts)?;
    }
    Ok(())
}

/// What came in the first window, and the items past it.
#[tactic(auto, using(std::proofs::lemmas::List::take_min, std::proofs::lemmas::List::drop_min))]
fn cut_window<'a>(items: &'a [Item], window: &Window) -> (&'a [Item], &'a [Item])
    ensures come { result.0.now ≡ take window.now.come (drop window.now.from items.now) }
    ensures past { result.1.now ≡ drop window.now.come (drop window.now.from items.now) }
{
    let (_stay, others) = items.split_at(window.from.min(items.len()));
    others.split_at(window.come.min(others.len()))
}

/// The same of what came in windows.
fn insert_come(
    alloc: Global,
    windows: &[Window],
    items: &[Item],
    texts: &mut BTreeSet<Vec<u8>>,
) -> Result<(), Memory>
    ensures { (text : Bytes) → OnOk result (knows_name texts.new text ≡ (come_with text windows.now items.now || knows_name texts.old text)) }
{
    let mut rest = items;
    for window in windows {
        let (come, past) = cut_window(rest, window);
        insert_loads(alloc, come, texts)?;
        rest = past;
    }
    Ok(())
}

/// Texts, at least the paths from which a file loads and the local names of what it loads.
pub struct LoadedPaths {
    texts: BTreeSet<Vec<u8>>,
}

impl Drop for LoadedPaths {
    fn drop(self) {
        let LoadedPaths { texts: _ } = self;
    }
}

impl Model for LoadedPaths {
    ghost use Rattle.bz_attribute.specs.Sets.{texts_of};
    ghost use Rattle.bz_load.specs.Paths.{Paths};

    ghost Value = { Paths };

    ghost view = { λ loaded. record { texts = texts_of loaded.texts } };
}

impl LoadedPaths {
    /// What these items load. The error: memory was refused.
    pub fn of(alloc: Global, items: &[Item]) -> Result<LoadedPaths, Memory>
        ensures { IfOk result (λ loaded. AreListed loaded items.now) }
    {
        let mut texts = BTreeSet::new(alloc);
        insert_loads(alloc, items, &mut texts)?;
        Ok(LoadedPaths { texts })
    }

    /// Adds what is needed to have what these items load, where they are other ones than those before in these windows alone, of which it
    /// had that. The error: memory was refused.
    pub fn follow_windows(
        &mut self,
        alloc: Global,
        windows: &[Window],
        items: &[Item],
    ) -> Result<(), Memory>
        ensures { (before : List Item) → AreOver windows.now before items.now → AreListed self.old before → OnOk result (AreListed self.new items.now) }
    {
        insert_come(alloc, windows, items, &mut self.texts)?;
        Ok(())
    }

    /// Whether the text is one of them; where it isn't, none of the items loads from it or has it as a local name.
    pub(crate) fn has(&self, text: &[u8]) -> bool
        ensures { (items : List Item) → AreListed self.now items → result ≡ false → list_any (mentions text.now) items ≡ false }
    {
        has_text(&self.texts, text)
    }
}
