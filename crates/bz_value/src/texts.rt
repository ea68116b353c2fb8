//! Lists of texts.
ghost use Rattle.std.specs.Prelude.{◌≡◌, ◌↔◌, IsTrue, IfOk};

use bz_items::{Items, Memory, Text};
use std::alloc::Global;

/// Equal texts. The error: memory was refused.
pub fn copy_texts(alloc: Global, texts: &[Text]) -> Result<Items<Text>, Memory>
    ensures { IfOk result (λ copied. copied ≡ texts.now) }
{
    let mut copied = Vec::with_capacity(alloc, texts.len())?;
    for text in texts {
        copied.push(text.copy()?)?;
    }
    Ok(Items::from_vec(copied))
}

/// Whether both lists have the same texts in the same places.
pub fn same_texts(a: &[Text], b: &[Text]) -> bool
    ensures { IsTrue result ↔ (a.now ≡ b.now) }
{
    if a.len() != b.len() {
        return false;
    }
    for i in 0..a.len() {
        if !a[i].equals(&b[i]) {
            return false;
        }
    }
    true
}
