//! Symbols that are loaded too: those that aren't loaded so yet, put into a load.
ghost use Rattle.std.specs.Prelude.{◌≡◌, ◌↔◌, ◌||◌, ◌++◌, ◌∷◌, [], codes, map, not, IfOk, IfSome, OnOk};
ghost use Rattle.std.specs.List.{list_any, position};
ghost use Rattle.bz_token.specs.declared.class.Class.TheVariants as c;
ghost use Rattle.bz_load.specs.Words.{AreOver, Symbol, mark, name, node, quoted_of, token};
ghost use Rattle.bz_load.specs.Loads.{after_loads, is_load_from as is_from, is_loaded, is_symbol, loads_symbol};
ghost use Rattle.bz_load.specs.NewLoad.{load_made, new_load, new_symbols, symbol_made, with_symbols};
ghost use Rattle.bz_load.specs.Paths.{AreListed};
ghost use Rattle.bz_load.specs.private.Known.{knows, symbol_of_key};

use crate::paths::LoadedPaths;
use crate::readings::{Loaded, both_names, count_of_blocks, load_from, place_after_loads};
use crate::windows::windows_of;
use bz_attribute::{append_to, new_token, node, sequence, token};
use bz_command_syntax::{Symbol, quoted};
use bz_grammar::{Class, Kind};
use bz_items::{Items, Memory};
use bz_value::{Expr, Item, Window};
use indexmap::IndexSet;
use std::alloc::Global;

/// A word as a string.
pub(crate) fn string(alloc: Global, word: &[u8]) -> Result<Expr, Memory>
    ensures { IfOk result (λ x. x ≡ token c.String (quoted_of word.now)) }
{
    Ok(token(Class::String, quoted(alloc, word)?))
}

/// `to = "from"` in a node of this kind.
pub(crate) fn assigned(alloc: Global, kind: Kind, names: Loaded<'_>) -> Result<Expr, Memory>
    ensures { IfOk result (λ x. x ≡ node kind (name (symbol_of_key names.entry).to ∷ mark (codes "=") ∷ token c.String (quoted_of (symbol_of_key names.entry).from) ∷ [])) }
{
    let mut parts = Vec::with_capacity(alloc, 3)?;
    parts.push_reserved(new_token(alloc, Class::Name, names.to)?);
    parts.push_reserved(new_token(alloc, Class::Mark, b"=")?);
    parts.push_reserved(string(alloc, names.from)?);
    Ok(node(alloc, kind, Items::from_vec(parts)))
}

/// The item of a load that loads the symbol: `to = "from"`, or where both names are one the string alone.
pub(crate) fn symbol_made(alloc: Global, symbol: &Symbol) -> Result<Expr, Memory>
    ensures { IfOk result (λ x. x ≡ symbol_made symbol.now) }
{
    let (to, from) = (symbol.to.as_slice(), symbol.from.as_slice());
    if to == from {
        return string(alloc, from);
    }
    let alias = assigned(alloc, Kind::Alias, Loaded { to, from })?;
    Ok(alias)
}

/// A load of these symbols from the path. The error: memory was refused.
pub(crate) fn load_of(alloc: Global, path: &[u8], symbols: &mut Vec<Expr>) -> Result<Item, Memory>
    ensures { IfOk result (λ item. item ≡ load_made path.now symbols.old.items) }
{
    let mut parts = Vec::with_capacity(alloc, 1)?;
    parts.push_reserved(new_token(alloc, Class::Keyword, b"load")?);
    let mut items = Vec::with_capacity(alloc, 1)?;
    items.push_reserved(string(alloc, path)?);
    items.append(symbols)?;
    let (parts, items) = (Items::from_vec(parts), Items::from_vec(items));
    Ok(Item::Stmt(sequence(alloc, Kind::Load, parts, items)))
}

/// Symbols that are loaded from one path.
type Known<'a> = IndexSet<Loaded<'a>>;

/// The symbol is one of them from now on. Returned: whether it was none before.
fn insert_key<'a>(key: Loaded<'a>, known: &mut Known<'a>) -> Result<bool, Memory>
    ensures new { IfOk result (λ new. new ≡ not (knows known.old.keys (symbol_of_key key.entry))) }
    ensures known { (other : Symbol) → OnOk result (knows known.new.keys other ≡ (is_symbol other (symbol_of_key key.entry) || knows known.old.keys other)) }
{
    let new = known.insert(key)?;
    Ok(new)
}

/// The symbols that these items of a load load.
fn insert_each<'a>(exprs: &'a [Expr], known: &mut Known<'a>) -> Result<(), Memory>
    ensures { (other : Symbol) → OnOk result (knows known.new.keys other ≡ (list_any (loads_symbol other) exprs.now || knows known.old.keys other)) }
{
    for x in exprs {
        if let Some(symbol) = both_names(Kind::Alias, x) {
            insert_key(symbol, known)?;
        }
    }
    Ok(())
}

/// The symbols that the items load from the path. The error: memory was refused.
fn insert_loads<'a>(path: &[u8], items: &'a [Item], known: &mut Known<'a>) -> Result<(), Memory>
    ensures { (other : Symbol) → OnOk result (knows known.new.keys other ≡ (is_loaded path.now items.now other || knows known.old.keys other)) }
{
    for item in items {
        if let Some(symbols) = load_from(path, item) {
            insert_each(symbols, known)?;
        }
    }
    Ok(())
}

/// The symbols that the items load from the path, of which the first load is at this place: without one none are looked at.
#[tactic(auto, using(crate::proofs::KnownSteps::none_loaded, crate::proofs::KnownSteps::loaded_alone))]
fn known_loads<'a>(
    alloc: Global,
    path: &[u8],
    place: Option<usize>,
    items: &'a [Item],
) -> Result<Known<'a>, Memory>
    requires { place ≡ position (is_from path.now) items.now }
    ensures { (other : Symbol) → IfOk result (λ known. knows known.keys other ≡ is_loaded path.now items.now other) }
{
    let mut known = IndexSet::new(alloc);
    let Some(_) = place else {
        return Ok(known);
    };
    insert_loads(path, items, &mut known)?;
    Ok(known)
}

/// Appends the item of a load that loads the symbol.
pub(crate) fn push_symbol(
    alloc: Global,
    symbol: &Symbol,
    made: &mut Vec<Expr>,
) -> Result<(), Memory>
    ensures { OnOk result (made.new.items ≡ made.old.items ++ symbol_made symbol.now ∷ []) }
{
    made.reserve(1)?;
    made.push_reserved(symbol_made(alloc, symbol)?);
    Ok(())
}

/// New items of a load for the symbols that are not loaded so yet, each once.
#[tactic(auto, using(crate::proofs::KnownSteps::all_known))]
fn new_symbols(
    alloc: Global,
    path: &[u8],
    symbols: &[Symbol],
    place: Option<usize>,
    items: &[Item],
) -> Result<Vec<Expr>, Memory>
    requires { place ≡ position (is_from path.now) items.now }
    ensures { IfOk result (λ made. made.items ≡ map symbol_made (new_symbols (is_loaded path.now items.now) symbols.now)) }
{
    let mut known = known_loads(alloc, path, place, items)?;
    let mut made = Vec::new(alloc);
    for symbol in symbols {
        let (to, from) = (symbol.to.as_slice(), symbol.from.as_slice());
        if insert_key(Loaded { to, from }, &mut known)? {
            push_symbol(alloc, symbol, &mut made)?;
        }
    }
    Ok(made)
}

/// The items of a file with a load that has the symbols.
#[derive(Drop)]
pub struct WithLoad {
    pub items: Items<Item>,
    /// Where they are others than those that there were.
    pub windows: Items<Window>,
}

/// Where the first load from the path is. Among paths that are those of the items it is looked up first.
pub(crate) fn place_of_load(
    path: &[u8],
    paths: Option<&LoadedPaths>,
    items: &[Item],
) -> Option<usize>
    requires { IfSome paths (λ loaded. AreListed loaded.now items.now) }
    ensures { result ≡ position (is_from path.now) items.now }
{
    if let Some(loaded) = paths {
        if !loaded.has(path) {
            return None;
        }
    }
    items
        .iter()
        .position(|item| load_from(path, item).is_some())
}

fn append_to_item(more: &mut Vec<Expr>, item: &mut Item) -> Result<(), Memory>
    ensures { OnOk result (item.new ≡ with_symbols more.old.items item.old) }
{
    match item {
        Item::Block(_) => Ok(()),
        Item::Stmt(x) => append_to(Kind::Load, more, x),
    }
}

/// The items with a new load, after the last one, or after the leading comment blocks.
#[tactic(auto, using(crate::proofs::PutSteps::put_at, crate::proofs::PutSteps::other_new))]
pub(crate) fn with_new(alloc: Global, load: Item, items: Items<Item>) -> Result<WithLoad, Memory>
    ensures items { IfOk result (λ made. made.items ≡ after_loads load items) }
    ensures windows { IfOk result (λ made. AreOver made.windows items made.items) }
    ensures same { IfOk result (λ made. (made.windows ≡ []) ↔ (made.items ≡ items)) }
{
    let mut all = items.into_vec();
    let at = place_after_loads(all.as_slice(), count_of_blocks(all.as_slice()));
    all.insert(at, load)?;
    let window = Window {
        from: at,
        gone: 0,
        come: 1,
    };
    Ok(WithLoad {
        windows: windows_of(alloc, false, window)?,
        items: Items::from_vec(all),
    })
}

/// The items, in which the symbols are loaded from the path then: those that aren't loaded so yet, each once, go to the end of
/// its first load; without such a load a new one goes after the last load, or after the leading comment blocks. All other
/// items stay and are moved. There may be the paths from which they load: from any other one no load is sought. The error:
/// memory was refused; the items are then lost.
#[tactic(auto, using(crate::proofs::PutSteps::there_within, crate::proofs::PutSteps::put_there, crate::proofs::PutSteps::put_new))]
pub fn new_load(
    alloc: Global,
    path: &[u8],
    symbols: &[Symbol],
    paths: Option<&LoadedPaths>,
    mut items: Items<Item>,
) -> Result<WithLoad, Memory>
    requires { IfSome paths (λ loaded. AreListed loaded.now items) }
    ensures items { IfOk result (λ made. made.items ≡ new_load path.now symbols.now items) }
    ensures windows { IfOk result (λ made. AreOver made.windows items made.items) }
    ensures same { IfOk result (λ made. (made.windows ≡ []) ↔ (made.items ≡ items)) }
{
    let place = place_of_load(path, paths, items.as_slice());
    let mut more = new_symbols(alloc, path, symbols, place, items.as_slice())?;
    let Some(at) = place else {
        let load = load_of(alloc, path, &mut more)?;
        let made = with_new(alloc, load, items)?;
        return Ok(made);
    };
    let same = more.is_empty();
    append_to_item(&mut more, items.at_mut(at))?;
    let window = Window {
        from: at,
        gone: 1,
        come: 1,
    };
    Ok(WithLoad {
        windows: windows_of(alloc, same, window)?,
        items,
    })
}
