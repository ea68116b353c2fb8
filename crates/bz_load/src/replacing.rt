//! Symbols that are loaded from one path, and from no other one.
ghost use Rattle.std.specs.Prelude.{◌≡◌, ◌↔◌, ◌≤◌, ◌++◌, ◌∷◌, ◌||◌, ◌&&◌, [], List, bytes_eq, false, length, take, IfOk, IfSome, IsTrue, OnOk, if◌then◌else◌};
ghost use Rattle.std.specs.List.{AllByRecursion, filter, flat_map, list_all, list_any, position};
ghost use Rattle.bz_load.specs.Words.{AreOver, Expr, Item, is_escaped, on_rest, with_comments};
ghost use Rattle.bz_load.specs.Growing.{IsGrown};
ghost use Rattle.bz_load.specs.Laws.{IsLoadedAlone, becomes_plain, loaded_symbols};
ghost use Rattle.bz_load.specs.Loads.{is_load_item, is_loaded, loads_symbol, symbols_of};
ghost use Rattle.bz_load.specs.NewLoad.{load_made, symbol_made};
ghost use Rattle.bz_load.specs.Paths.{AreListed};
ghost use Rattle.bz_load.specs.ReplaceLoad.{is_local, last_of_each, left_symbols, may_have, on_symbols, put_symbol, replace_load, replace_symbol, replaced_around, with_joined, without_symbol};
ghost use Rattle.bz_load.specs.private.Replacing.{IsUnknown, has_symbol};

use crate::adding::{WithLoad, load_of, place_of_load, push_symbol, symbol_made, with_new};
use crate::gathering::{
    Gathered, comments_around, goes, has_local, is_local, is_lost, join, loads,
};
use crate::paths::LoadedPaths;
use crate::readings::{
    after_path, copies, count_of_blocks, is_load, load_from, place_after_loads, symbols_of,
};
use crate::windows::{Growing, put_window, window_between, windows_of_both};
use bz_command_syntax::Symbol;
use bz_items::{Items, Memory};
use bz_value::{Comments, Expr, Item, Window};
use std::alloc::Global;
use std::mem;

// ---- loads that lose the symbol

/// Appends an item of a load, unless it goes.
#[tactic(auto, using(crate::proofs::ReplacedSymbols::goes_off, crate::proofs::ReplacedSymbols::stays_in))]
fn push_left(symbol: &Symbol, found: bool, x: Expr, left: &mut Items<Expr>) -> Result<(), Memory>
    ensures { (rest : List Expr) → OnOk result (left.new ++ left_symbols symbol.now (found || loads_symbol symbol.now x) rest ≡ left.old ++ left_symbols symbol.now found (x ∷ rest)) }
{
    if goes(symbol, found, &x) {
        return Ok(());
    }
    left.push(x)
}

/// Of the items of a load the path stays, and of its symbols those that don't go.
fn take_symbols(symbol: &Symbol, mut found: bool, items: &mut Items<Expr>) -> Result<(), Memory>
    ensures { OnOk result (items.new ≡ on_rest (left_symbols symbol.now found) items.old) }
{
    if items.is_empty() {
        return Ok(());
    }
    let alloc = items.alloc();
    let mut all = mem::replace(items, Items::new(alloc)).into_vec();
    items.push(all.remove(0))?;
    for x in all {
        let next = found || loads(symbol, &x);
        push_left(symbol, found, x, items)?;
        found = next;
    }
    Ok(())
}

/// The symbols that go leave a load.
fn leave(symbol: &Symbol, found: bool, item: &mut Item) -> Result<(), Memory>
    ensures { OnOk result (item.new ≡ on_symbols (left_symbols symbol.now found) item.old) }
{
    if !is_load(item) {
        return Ok(());
    }
    if let Item::Stmt(Expr::Form(form)) = item {
        take_symbols(symbol, found, &mut form.seq.items)?;
    }
    Ok(())
}

/// Appends what is left of an item, with a window where that changed.
#[tactic(auto, using(crate::proofs::ReplacedSymbols::item_lost, crate::proofs::ReplacedSymbols::item_left, crate::proofs::ReplacedSymbols::item_stays))]
fn push_without(
    symbol: &Symbol,
    mut item: Item,
    left: &mut Vec<Item>,
    growing: &mut Growing,
) -> Result<(), Memory>
    requires { growing.old.past ≤ length left.old.items }
    ensures left { OnOk result (left.new.items ≡ left.old.items ++ without_symbol symbol.now item) }
    ensures grown { (before rest : List Item) → IsGrown growing.old before (left.old.items ++ item ∷ rest) → OnOk result (IsGrown growing.new before (left.new.items ++ rest)) }
    ensures past { OnOk result (growing.new.past ≤ length left.new.items) }
{
    left.reserve(1)?;
    if !has_local(symbol, &item) {
        left.push_reserved(item);
        return Ok(());
    }
    if is_lost(symbol, &item) {
        drop(item);
        return put_window(left.len(), 1, 0, growing);
    }
    leave(symbol, true, &mut item)?;
    left.push_reserved(item);
    put_window(left.len() - 1, 1, 1, growing)
}

/// The same of each item.
fn push_each(
    symbol: &Symbol,
    items: Vec<Item>,
    left: &mut Vec<Item>,
    growing: &mut Growing,
) -> Result<(), Memory>
    requires { growing.old.past ≤ length left.old.items }
    ensures left { OnOk result (left.new.items ≡ left.old.items ++ flat_map (without_symbol symbol.now) items.items) }
    ensures grown { (before rest : List Item) → IsGrown growing.old before (left.old.items ++ (items.items ++ rest)) → OnOk result (IsGrown growing.new before (left.new.items ++ rest)) }
    ensures past { OnOk result (growing.new.past ≤ length left.new.items) }
{
    for item in items {
        push_without(symbol, item, left, growing)?;
    }
    Ok(())
}

// ---- the load that is to have it

fn set_comments(comments: Comments, x: &mut Expr)
    ensures { x.new ≡ with_comments x.old comments }
{
    match x {
        Expr::Token(token) => token.comments = comments,
        Expr::Form(form) => form.comments = comments,
    }
}

/// A host takes the comments of what went, below its own.
fn take_joined(alloc: Global, gone: &Comments, x: &mut Expr) -> Result<(), Memory>
    ensures { OnOk result (x.new ≡ with_joined gone.now x.old) }
{
    let mut all = Gathered {
        before: Items::new(alloc),
        suffix: None,
    };
    join(x.comments(), &mut all)?;
    join(gone, &mut all)?;
    set_comments(Comments::new(alloc, all.before, all.suffix)?, x);
    Ok(())
}

fn place_of(symbol: &Symbol, symbols: &[Expr]) -> Option<usize>
    ensures { result ≡ position (loads_symbol symbol.now) symbols.now }
{
    symbols.iter().position(|x| loads(symbol, x))
}

/// The item of a load that loads the symbol, or a new one at the end, takes these comments.
#[tactic(auto, using(crate::proofs::ReplacedSymbols::put_last))]
fn put_symbol(
    alloc: Global,
    symbol: &Symbol,
    gone: &Comments,
    items: &mut Items<Expr>,
) -> Result<(), Memory>
    ensures { OnOk result (items.new ≡ on_rest (put_symbol symbol.now gone.now) items.old) }
{
    if items.is_empty() {
        return Ok(());
    }
    if let Some(at) = place_of(symbol, after_path(items.as_slice())) {
        return take_joined(alloc, gone, items.at_mut(at + 1));
    }
    let mut x = symbol_made(alloc, symbol)?;
    take_joined(alloc, gone, &mut x)?;
    items.push(x)
}

/// The same in a load.
fn put_in(alloc: Global, symbol: &Symbol, gone: &Comments, load: &mut Item) -> Result<(), Memory>
    ensures { OnOk result (load.new ≡ on_symbols (put_symbol symbol.now gone.now) load.old) }
{
    if !is_load(load) {
        return Ok(());
    }
    if let Item::Stmt(Expr::Form(form)) = load {
        put_symbol(alloc, symbol, gone, &mut form.seq.items)?;
    }
    Ok(())
}

fn any_loads(symbol: &Symbol, symbols: &[Expr]) -> bool
    ensures { result ≡ list_any (loads_symbol symbol.now) symbols.now }
{
    symbols.iter().any(|x| loads(symbol, x))
}

/// Whether an item is a load from the path that loads the symbol.
fn has_symbol(path: &[u8], symbol: &Symbol, item: &Item) -> bool
    ensures { result ≡ has_symbol path.now symbol.now item.now }
{
    match load_from(path, item) {
        Some(symbols) => any_loads(symbol, symbols),
        None => false,
    }
}

fn place_having(path: &[u8], symbol: &Symbol, items: &[Item]) -> Option<usize>
    ensures { result ≡ position (has_symbol path.now symbol.now) items.now }
{
    items.iter().position(|item| has_symbol(path, symbol, item))
}

/// Where the load is that is to have the symbol. There may be the paths from which the items load.
#[tactic(auto, using(crate::proofs::ReplacedSymbols::having_first, crate::proofs::ReplacedSymbols::from_first, crate::proofs::ReplacedSymbols::none_from))]
fn place_to_have(
    path: &[u8],
    symbol: &Symbol,
    paths: Option<&LoadedPaths>,
    items: &[Item],
) -> Option<usize>
    requires { IfSome paths (λ loaded. AreListed loaded.now items.now) }
    ensures { result ≡ position (may_have path.now symbol.now items.now) items.now }
{
    let first = place_of_load(path, paths, items);
    if first.is_none() {
        return None;
    }
    let having = place_having(path, symbol, items);
    if having.is_some() {
        return having;
    }
    first
}

/// A load that is to have a symbol, with the items before it and after it.
#[derive(Drop)]
struct Around {
    front: Vec<Item>,
    load: Item,
    /// How many of it are there: none where it is new.
    there: usize,
    back: Vec<Item>,
}

/// The load that is to have the symbol, which is new where there is none from the path.
fn cut_around(
    alloc: Global,
    path: &[u8],
    symbol: &Symbol,
    paths: Option<&LoadedPaths>,
    items: Items<Item>,
) -> Result<Around, Memory>
    requires { IfSome paths (λ loaded. AreListed loaded.now items) }
    ensures replaced { IfOk result (λ around. replaced_around symbol.now around.front.items around.load around.back.items ≡ replace_symbol path.now items symbol.now) }
    ensures whole { IfOk result (λ around. around.front.items ++ (take around.there (around.load ∷ []) ++ around.back.items) ≡ items) }
    ensures there { IfOk result (λ around. around.there ≤ 1) }
{
    let place = place_to_have(path, symbol, paths, items.as_slice());
    let mut front = items.into_vec();
    if let Some(at) = place {
        let mut back = front.split_off(at)?;
        let load = back.remove(0);
        return Ok(Around {
            front,
            load,
            there: 1,
            back,
        });
    }
    let load = load_of(alloc, path, &mut Vec::new(alloc))?;
    let at = place_after_loads(front.as_slice(), count_of_blocks(front.as_slice()));
    let back = front.split_off(at)?;
    Ok(Around {
        front,
        load,
        there: 0,
        back,
    })
}

/// Appends the load that has the symbol now, with a window over as many items that were there as `there` says.
fn push_load(
    there: usize,
    load: Item,
    made: &mut Vec<Item>,
    growing: &mut Growing,
) -> Result<(), Memory>
    requires { growing.old.past ≤ length made.old.items }
    ensures made { OnOk result (made.new.items ≡ made.old.items ++ load ∷ []) }
    ensures grown { (before old rest : List Item) → length old ≡ there → IsGrown growing.old before (made.old.items ++ (old ++ rest)) → OnOk result (IsGrown growing.new before (made.new.items ++ rest)) }
    ensures past { OnOk result (growing.new.past ≤ length made.new.items) }
{
    made.reserve(1)?;
    made.push_reserved(load);
    put_window(made.len() - 1, there, 1, growing)
}

/// The load with the symbol, and the items around it without.
fn replace_around(alloc: Global, symbol: &Symbol, around: Around) -> Result<WithLoad, Memory>
    requires { around.there ≤ 1 }
    ensures items { IfOk result (λ made. made.items ≡ replaced_around symbol.now around.front.items around.load around.back.items) }
    ensures windows { IfOk result (λ made. AreOver made.windows (around.front.items ++ (take around.there (around.load ∷ []) ++ around.back.items)) made.items) }
{
    let Around {
        front,
        mut load,
        there,
        back,
    } = around;
    let gone = comments_around(alloc, symbol, front.as_slice(), &load, back.as_slice())?;
    let mut growing = Growing::new(alloc);
    let mut made = Vec::new(alloc);
    push_each(symbol, front, &mut made, &mut growing)?;
    leave(symbol, false, &mut load)?;
    put_in(alloc, symbol, &gone, &mut load)?;
    push_load(there, load, &mut made, &mut growing)?;
    push_each(symbol, back, &mut made, &mut growing)?;
    Ok(WithLoad {
        items: Items::from_vec(made),
        windows: growing.windows,
    })
}

// ---- one symbol

/// How many items of a load have the symbol's local name.
fn count_of_local(symbol: &Symbol, symbols: &[Expr]) -> usize
    ensures { result ≡ length (filter (is_local symbol.now) symbols.now) }
{
    let mut count = 0usize;
    for x in symbols {
        if is_local(symbol, x) {
            count += 1;
        }
    }
    count
}

/// The symbols of a load.
fn loaded_by(item: &Item) -> &[Expr]
    ensures { result.now ≡ (if is_load_item item.now then symbols_of item.now else []) }
{
    if is_load(item) { symbols_of(item) } else { &[] }
}

/// Whether one item alone of all loads has the symbol's local name.
fn is_local_once(symbol: &Symbol, items: &[Item]) -> bool
    ensures { IsTrue result ↔ (length (filter (is_local symbol.now) (loaded_symbols items.now)) ≡ 1) }
{
    let mut count = 0usize;
    for item in items {
        count = count
            .saturating_add(count_of_local(symbol, loaded_by(item)))
            .min(2);
    }
    count == 1
}

fn is_loaded(path: &[u8], symbol: &Symbol, items: &[Item]) -> bool
    ensures { result ≡ is_loaded path.now items.now symbol.now }
{
    items.iter().any(|item| has_symbol(path, symbol, item))
}

/// Whether a load from the path has the symbol, and no other item of a load its local name.
fn is_loaded_alone(
    path: &[u8],
    symbol: &Symbol,
    paths: Option<&LoadedPaths>,
    items: &[Item],
) -> bool
    requires { IfSome paths (λ loaded. AreListed loaded.now items.now) }
    ensures { IsTrue result ↔ IsLoadedAlone path.now items.now symbol.now }
{
    let place = place_of_load(path, paths, items);
    if place.is_none() {
        return false;
    }
    is_loaded(path, symbol, items) && is_local_once(symbol, items)
}

/// Whether the paths and local names that are known of the items have neither the path nor the symbol's local name.
fn is_unknown(path: &[u8], symbol: &Symbol, paths: Option<&LoadedPaths>, items: &[Item]) -> bool
    requires { IfSome paths (λ loaded. AreListed loaded.now items.now) }
    ensures { IsTrue result → IsUnknown path.now symbol.now items.now }
{
    match paths {
        Some(loaded) => !loaded.has(path) && !loaded.has(symbol.to.as_slice()),
        None => false,
    }
}

/// A load of one symbol.
fn load_with(alloc: Global, path: &[u8], symbol: &Symbol) -> Result<Item, Memory>
    ensures { IfOk result (λ item. item ≡ load_made path.now (symbol_made symbol.now ∷ [])) }
{
    let mut symbols = Vec::new(alloc);
    push_symbol(alloc, symbol, &mut symbols)?;
    let load = load_of(alloc, path, &mut symbols)?;
    Ok(load)
}

/// The items, in which a symbol is loaded from the path alone.
fn replace_symbol(
    alloc: Global,
    path: &[u8],
    symbol: &Symbol,
    paths: Option<&LoadedPaths>,
    items: Items<Item>,
) -> Result<WithLoad, Memory>
    requires { IfSome paths (λ loaded. AreListed loaded.now items) }
    ensures items { IfOk result (λ made. made.items ≡ replace_symbol path.now items symbol.now) }
    ensures windows { IfOk result (λ made. AreOver made.windows items made.items) }
    ensures settled { IsLoadedAlone path.now items symbol.now → IfOk result (λ made. made.windows ≡ []) }
{
    if is_unknown(path, symbol, paths, items.as_slice()) {
        let load = load_with(alloc, path, symbol)?;
        let made = with_new(alloc, load, items)?;
        return Ok(made);
    }
    if is_loaded_alone(path, symbol, paths, items.as_slice()) {
        return Ok(WithLoad {
            items,
            windows: Items::new(alloc),
        });
    }
    let around = cut_around(alloc, path, symbol, paths, items)?;
    let made = replace_around(alloc, symbol, around)?;
    Ok(made)
}

// ---- all symbols

/// Whether another symbol has its local name.
fn is_named_again(symbol: &Symbol, symbols: &[Symbol]) -> bool
    ensures { result ≡ list_any (λ other. bytes_eq symbol.now.to other.to) symbols.now }
{
    symbols
        .iter()
        .any(|other| symbol.to.as_slice() == other.to.as_slice())
}

/// The paths from which items load, where these are as they were.
fn known_still<'a>(windows: &[Window], paths: Option<&'a LoadedPaths>) -> Option<&'a LoadedPaths>
    ensures { (items : List Item) → (windows.now ≡ [] → IfSome paths.entry (λ loaded. AreListed loaded.now items)) → IfSome result (λ loaded. AreListed loaded.now items) }
{
    if windows.is_empty() { paths } else { None }
}

/// The same of a symbol more, unless there is a later one of its local name. Of the first items there were as many as `count` says.
fn replace_unless(
    later: bool,
    alloc: Global,
    path: &[u8],
    symbol: &Symbol,
    paths: Option<&LoadedPaths>,
    count: usize,
    made: WithLoad,
) -> Result<WithLoad, Memory>
    requires { made.windows ≡ [] → IfSome paths (λ loaded. AreListed loaded.now made.items) }
    ensures items { IfOk result (λ new. new.items ≡ (if later then made.items else replace_symbol path.now made.items symbol.now)) }
    ensures windows { (before : List Item) → length before ≡ count → AreOver made.windows before made.items → IfOk result (λ new. AreOver new.windows before new.items) }
    ensures settled { made.windows ≡ [] → (later ≡ false → IsLoadedAlone path.now made.items symbol.now) → IfOk result (λ new. new.windows ≡ []) }
{
    if later {
        return Ok(made);
    }
    let WithLoad { items, windows } = made;
    let between = items.len();
    let known = known_still(windows.as_slice(), paths);
    let new = replace_symbol(alloc, path, symbol, known, items)?;
    let WithLoad {
        items,
        windows: more,
    } = new;
    let counts = (count, between, items.len());
    let windows = windows_of_both(counts, windows, more)?;
    Ok(WithLoad { items, windows })
}

/// The same of all symbols, one after the other.
fn replace_each(
    alloc: Global,
    path: &[u8],
    symbols: &[Symbol],
    paths: Option<&LoadedPaths>,
    items: Items<Item>,
) -> Result<WithLoad, Memory>
    requires { IfSome paths (λ loaded. AreListed loaded.now items) }
    ensures items { IfOk result (λ made. made.items ≡ replace_load path.now symbols.now items) }
    ensures windows { IfOk result (λ made. AreOver made.windows items made.items) }
    ensures settled { AllByRecursion (IsLoadedAlone path.now items) (last_of_each symbols.now) → IfOk result (λ made. made.windows ≡ []) }
{
    let count = items.len();
    let mut made = WithLoad {
        items,
        windows: Items::new(alloc),
    };
    let mut left = symbols;
    while let Some((symbol, rest)) = left.split_first() {
        let later = is_named_again(symbol, rest);
        made = replace_unless(later, alloc, path, symbol, paths, count, made)?;
        left = rest;
    }
    Ok(made)
}

fn has_escaped(text: &[u8]) -> bool
    ensures { result ≡ list_any is_escaped text.now }
{
    text.iter().any(|byte| is_escaped(*byte))
}

fn is_plain(text: &[u8]) -> bool
    ensures { result ≡ becomes_plain text.now }
{
    !has_escaped(text)
}

fn is_escaped(byte: u8) -> bool
    ensures { result ≡ is_escaped byte }
{
    byte == b'\n' || (byte == b'"' || byte == b'\\')
}

fn are_plain(symbols: &[Symbol]) -> bool
    ensures { result ≡ list_all (λ symbol. becomes_plain symbol.from) symbols.now }
{
    symbols
        .iter()
        .all(|symbol| is_plain(symbol.from.as_slice()))
}

/// Whether the path and the names in the loaded file become plain strings.
fn are_all_plain(path: &[u8], symbols: &[Symbol]) -> bool
    ensures { result ≡ (becomes_plain path.now && list_all (λ symbol. becomes_plain symbol.from) symbols.now) }
{
    is_plain(path) && are_plain(symbols)
}

/// The items, in which each symbol is loaded from the path and from no other one: what has its local name leaves the loads, and a
/// load that loses its last symbol goes, also where it has comments; then it is in the first load from the path that has it, else in
/// the first one, else in a new one, which goes where a new load goes in the file as it was. The comments of what went are above the
/// symbol's own. Of symbols with one local name the last is meant. Items that no symbol is about stay and are moved. There may be the
/// paths from which they load: from any other one no load is sought. The error: memory was refused; the items are then lost.
pub fn replace_load(
    alloc: Global,
    path: &[u8],
    symbols: &[Symbol],
    paths: Option<&LoadedPaths>,
    items: Items<Item>,
) -> Result<WithLoad, Memory>
    requires { IfSome paths (λ loaded. AreListed loaded.now items) }
    ensures items { IfOk result (λ made. made.items ≡ replace_load path.now symbols.now items) }
    ensures windows { IfOk result (λ made. AreOver made.windows items made.items) }
    ensures same { IfOk result (λ made. (made.windows ≡ []) ↔ (made.items ≡ items)) }
{
    if are_all_plain(path, symbols) {
        let made = replace_each(alloc, path, symbols, paths, items)?;
        return Ok(made);
    }
    // What is written with a backslash is no plain string, so the same may be made again.
    let before = copies(alloc, items.as_slice())?;
    let made = replace_each(alloc, path, symbols, paths, items)?;
    let windows = window_between(alloc, before.as_slice(), made.items.as_slice())?;
    Ok(WithLoad {
        items: made.items,
        windows,
    })
}
