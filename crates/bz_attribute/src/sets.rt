//! Sets of texts.
ghost use Rattle.std.specs.Prelude.{◌≡◌, ◌||◌, OnOk, bytes_eq};
ghost use Rattle.std.specs.List.{list_any};
ghost use Rattle.bz_items.specs.Characters.{Bytes};
ghost use Rattle.bz_attribute.specs.Sets.{texts_of};

use bz_items::Memory;
use std::alloc::Global;
use std::collections::BTreeSet;

/// Whether the word is one of the texts.
pub fn has_text(texts: &BTreeSet<Vec<u8>>, word: &[u8]) -> bool
    ensures { result ≡ list_any (bytes_eq word.now) (texts_of texts.now) }
{
    texts.contains(word)
}

/// The text is one of them from now on.
pub fn insert_text(alloc: Global, texts: &mut BTreeSet<Vec<u8>>, text: &[u8]) -> Result<(), Memory>
    ensures { (word : Bytes) → OnOk result (list_any (bytes_eq word) (texts_of texts.new) ≡ (bytes_eq word text.now || list_any (bytes_eq word) (texts_of texts.old))) }
{
    let copy = Vec::from_slice(alloc, text)?;
    texts.insert(copy)?;
    Ok(())
}
