//! Loads and what they load, read off values, and places among the items of a file.
ghost use Rattle.std.specs.Prelude.{◌≡◌, ◌≤◌, IfOk, IfSome, is_some, length};
ghost use Rattle.std.specs.Option.{option_copied, option_map};
ghost use Rattle.bz_load.specs.Words.{Bytes, is_text, body_of};
ghost use Rattle.bz_load.specs.private.Known.{symbol_of_key};
ghost use Rattle.bz_load.specs.Loads.{after_path, is_block, is_load_from, is_load_item, leading_blocks, loads_end, both_names, symbols_of};

use bz_attribute::{body_of, first_text, has_kind, items_of, parts_of};
use bz_grammar::{Class, Kind};
use bz_items::Memory;
use bz_rule::{body, inside, is_text, text_in};
use bz_value::{Expr, Item};
use std::alloc::Global;

/// A symbol that is loaded: its name in the file that loads it, and its name in the file that is loaded.
#[derive(Clone, Copy, PartialEq, Eq, Hash)]
pub(crate) struct Loaded<'a> {
    pub(crate) to: &'a [u8],
    pub(crate) from: &'a [u8],
}

/// Whether the expression is a plain string of this body. Most strings are another text: only what is that text is looked
/// through for quote marks and backslashes.
#[tactic(auto, using(crate::proofs::PutSteps::glanced_at))]
fn is_string_of(text: &[u8], x: &Expr) -> bool
    ensures { result ≡ is_text text.now (body_of x.now) }
{
    match text_in(Class::String, x) {
        Some(token) => inside(1, token) == text && is_text(text, body(token)),
        None => false,
    }
}

/// What a load from this path has after the path.
pub(crate) fn load_from<'a>(path: &[u8], item: &'a Item) -> Option<&'a [Expr]>
    ensures there { is_some result ≡ is_load_from path.now item.now }
    ensures symbols { IfSome result (λ symbols. symbols.now ≡ symbols_of item.now) }
{
    match item {
        Item::Stmt(x) if has_kind(Kind::Load, x) => match items_of(x) {
            [first, symbols @ ..] if is_string_of(path, first) => Some(symbols),
            _ => None,
        },
        _ => None,
    }
}

/// The items of a load after the path.
pub(crate) fn after_path(items: &[Expr]) -> &[Expr]
    ensures { result.now ≡ after_path items.now }
{
    match items {
        [_, symbols @ ..] => symbols,
        [] => &[],
    }
}

/// What a load has after its path.
pub(crate) fn symbols_of(item: &Item) -> &[Expr]
    ensures { result.now ≡ symbols_of item.now }
{
    match item {
        Item::Stmt(x) => after_path(items_of(x)),
        Item::Block(_) => &[],
    }
}

/// The path of a load, where that is a plain string.
pub(crate) fn path_of(item: &Item) -> Option<&[u8]>
    ensures { (path : Bytes) → is_text path (option_copied result) ≡ is_load_from path item.now }
{
    match item {
        Item::Stmt(x) if has_kind(Kind::Load, x) => match items_of(x) {
            [first, ..] => body_of(first),
            _ => None,
        },
        _ => None,
    }
}

/// Both names: of `to = "from"` in a node of this kind, or of a plain string.
pub(crate) fn both_names(kind: Kind, x: &Expr) -> Option<Loaded<'_>>
    ensures { option_map symbol_of_key result ≡ both_names kind x.now }
{
    if !has_kind(kind, x) {
        let to = body_of(x)?;
        return Some(Loaded { to, from: to });
    }
    let to = first_text(parts_of(x));
    let [_, _, from] = parts_of(x) else {
        return None;
    };
    let from = body_of(from)?;
    Some(Loaded { to, from })
}

/// A copy of each of the items.
pub(crate) fn copies(alloc: Global, items: &[Item]) -> Result<Vec<Item>, Memory>
    ensures { IfOk result (λ made. made.items ≡ items.now) }
{
    let mut made = Vec::with_capacity(alloc, items.len())?;
    for item in items {
        made.reserve(1)?;
        made.push_reserved(item.copy()?);
    }
    Ok(made)
}

pub(crate) fn is_load(item: &Item) -> bool
    ensures { result ≡ is_load_item item.now }
{
    matches!(item, Item::Stmt(x) if has_kind(Kind::Load, x))
}

fn is_block(item: &Item) -> bool
    ensures { result ≡ is_block item.now }
{
    matches!(item, Item::Block(_))
}

/// With how many comment blocks the items begin.
pub(crate) fn count_of_blocks(items: &[Item]) -> usize
    ensures within { result ≤ length items.now }
    ensures blocks { result ≡ leading_blocks items.now }
{
    for at in 0..items.len() {
        if !is_block(&items[at]) {
            return at;
        }
    }
    items.len()
}

/// After how many items the last load is; without a load the other place.
pub(crate) fn place_after_loads(items: &[Item], other: usize) -> usize
    requires { other ≤ length items.now }
    ensures within { result ≤ length items.now }
    ensures place { result ≡ loads_end other 0 items.now }
{
    let mut place = items.len();
    while place > 0 {
        if is_load(&items[place - 1]) {
            return place;
        }
        place -= 1;
    }
    other
}
