//! The last pass alone: flags.
ghost use Rattle.std.specs.Prelude.{◌≡◌, IsOkAnd};
ghost use Rattle.bz_layout.specs.Flags.{flags};

use crate::flags::settle;
use bz_items::Memory;
use bz_value::{File, Item};

fn level_items(items: &mut [Item])
    ensures { items.new ≡ flags items.old }
{
    for item in items.iter_mut() {
        if let Item::Stmt(x) = item {
            settle(x);
        }
    }
}

/// Settles the flags of a file value, suites included: each sequence, the parameters of a function too, is split exactly where the
/// layout breaks it. It takes no memory, and there is no error.
pub fn level(file: File) -> Result<File, Memory>
    ensures { IsOkAnd result (λ new. new ≡ flags file) }
{
    let File { mut items } = file;
    level_items(items.as_mut_slice());
    Ok(File { items })
}
