//! Hashes of the names of the items of a file, in their order: an item that is sought by its name is found with few looks at others.
ghost use Rattle.std.specs.Prelude.{◌≡◌, ◌∷◌, [], List, IfOk, IfSome, drop, map, take};
ghost use Rattle.std.specs.List.{position};
ghost use Rattle.bz_command.specs.Words.{AreOver, Item, has_name};
ghost use Rattle.bz_command.specs.Known.{item_hash, name_hash};

use bz_items::{Items, Memory};
use bz_rule::{has_name, held_name};
use bz_value::{Item, Window};
use std::alloc::Global;

/// The greatest prime number of 32 bits.
const PRIME: u64 = 4_294_967_291;

/// The hash of a name.
fn name_hash(name: &[u8]) -> u64
    ensures { result ≡ name_hash name.now }
{
    let mut hash: u64 = 0;
    for byte in name {
        hash = (hash * 257 + *byte as u64) % PRIME;
    }
    hash
}

/// The hash of the name of an item; 0 of one that has none.
fn item_hash(item: &Item) -> u64
    ensures { result ≡ item_hash item.now }
{
    match held_name(item) {
        Some(name) => name_hash(name),
        None => 0,
    }
}

/// The hashes of the names of items, in their order. The error: memory was refused.
pub fn hashes_of(alloc: Global, items: &[Item]) -> Result<Items<u64>, Memory>
    ensures { IfOk result (λ hashes. hashes ≡ map item_hash items.now) }
{
    let mut hashes = Items::new(alloc);
    for item in items {
        hashes.push(item_hash(item))?;
    }
    Ok(hashes)
}

/// Whether an item, of whose name `own` is the hash, has this name, of which `hash` is the hash.
#[tactic(auto, using(crate::proofs::NameHashes::same_hash))]
fn has_hashed_name(name: &[u8], hash: u64, own: u64, item: &Item) -> bool
    requires hash { hash ≡ name_hash name.now }
    requires own { own ≡ item_hash item.now }
    ensures { result ≡ has_name name.now item.now }
{
    if own != hash {
        return false;
    }
    has_name(name, item)
}

/// The place of the first item of this name, by the hashes of the names of all.
#[tactic(auto, using(crate::proofs::NameHashes::none_named))]
pub(crate) fn place_among(name: &[u8], hashes: &[u64], items: &[Item]) -> Option<usize>
    requires { hashes.now ≡ map item_hash items.now }
    ensures { result ≡ position (has_name name.now) items.now }
{
    let hash = name_hash(name);
    for at in 0..items.len() {
        if has_hashed_name(name, hash, hashes[at], &items[at]) {
            return Some(at);
        }
    }
    None
}

/// The only window.
fn only(windows: &[Window]) -> Option<Window>
    ensures { IfSome result (λ window. windows.now ≡ window ∷ []) }
{
    match windows {
        [window] => Some(*window),
        _ => None,
    }
}

/// What came in a window.
#[tactic(auto, using(std::proofs::lemmas::List::take_min, std::proofs::lemmas::List::drop_min))]
fn come_in(window: Window, items: &[Item]) -> &[Item]
    ensures { result.now ≡ take window.come (drop window.from items.now) }
{
    let (_stay, others) = items.split_at(window.from.min(items.len()));
    let (come, _past) = others.split_at(window.come.min(others.len()));
    come
}

/// The hashes of the names of these items, which are other ones than those of which they are in one window alone; none where there are more
/// windows, or memory was refused.
pub fn hashes_over(
    alloc: Global,
    hashes: Items<u64>,
    windows: &[Window],
    items: &[Item],
) -> Option<Items<u64>>
    ensures { (before : List Item) → AreOver windows.now before items.now → hashes ≡ map item_hash before → IfSome result (λ new. new ≡ map item_hash items.now) }
{
    let Some(window) = only(windows) else {
        return None;
    };
    let mut hashes = hashes;
    if window.from > hashes.len() || window.gone > hashes.len() - window.from {
        return None;
    }
    let Ok(mut come) = hashes_of(alloc, come_in(window, items)) else {
        return None;
    };
    let Ok(()) = hashes.splice(window.from, window.gone, &mut come) else {
        return None;
    };
    Some(hashes)
}
