//! The passes in turn.
ghost use Rattle.std.specs.Prelude.{◌≡◌, IfOk, OnOk};
ghost use Rattle.bz_passes.specs.Words.{times, Bytes, IsSettled, AreBuild};
ghost use Rattle.bz_passes.specs.Passes.{passed, tidied as tidied_all};
ghost use Rattle.bz_passes.specs.Programs.{KeepsProgram};
ghost use Rattle.bz_passes.specs.Joined.{item_tidied};

use crate::flags::settle;
use crate::leveling::level;
use crate::marks::any_marked;
use crate::newer::has_newer;
use crate::quotes::quote;
use crate::runs::sort_runs;
use crate::symbols::sort_symbols;
use crate::walk::change_lists_and_arguments;
use bz_items::Memory;
use bz_value::{File, Item};
use std::alloc::Global;

/// The mark of a statement that stays as it is.
const LEAVE_ALONE: &[u8] = b"buildifier: leave-alone";

/// The passes over an item: what is no statement stays, and so does one marked `buildifier: leave-alone`, but for its flags.
fn tidy_item(alloc: Global, item: &mut Item) -> Result<(), Memory>
    ensures { OnOk result (item.new ≡ item_tidied item.old) }
{
    if let Item::Stmt(x) = item {
        if !any_marked(LEAVE_ALONE, x.comments().before()) {
            quote(alloc, x)?;
            change_lists_and_arguments(x)?;
            sort_symbols(alloc, x)?;
        }
        settle(x);
    }
    Ok(())
}

/// The passes over items that are alone. The error: memory was refused; part of an item may then be lost.
pub(crate) fn tidy_items(alloc: Global, items: &mut [Item]) -> Result<(), Memory>
    ensures { OnOk result (items.new ≡ passed items.old) }
{
    for item in items.iter_mut() {
        tidy_item(alloc, item)?;
    }
    sort_runs(alloc, items)?;
    Ok(())
}

/// The tidy file value of a BUILD file: strings take double quote marks, labels lose a repeated name, lists, arguments, symbols and loads
/// are sorted, and each sequence is split where the layout breaks it. A statement with `buildifier: leave-alone` in a comment above
/// stays, but for its flags. The program is kept. The error: memory was refused.
pub fn tidy_build(alloc: Global, file: File) -> Result<File, Memory>
    requires { AreBuild file }
    ensures tidied { IfOk result (λ new. new ≡ tidied_all file) }
    ensures settled { IfOk result (λ new. IsSettled new) }
    ensures again { IfOk result (λ new. tidied_all new ≡ new) }
    ensures comments { IfOk result (λ new. (text : Bytes) → times text new ≡ times text file) }
    ensures program { IfOk result (λ new. KeepsProgram file new) }
{
    let File { mut items } = file;
    tidy_items(alloc, items.as_mut_slice())?;
    Ok(File { items })
}

/// The tidy file value: what a BUILD file says is tidied as `tidy_build` does it; of a value with suites, or with other nodes that no
/// BUILD file has, the flags are settled, and all else stays. The error: memory was refused.
#[tactic(auto, using(crate::proofs::Cases::are_level, crate::proofs::NewerNodes::are_build))]
pub fn tidy(alloc: Global, file: File) -> Result<File, Memory>
    ensures tidied { IfOk result (λ new. new ≡ tidied_all file) }
    ensures settled { IfOk result (λ new. IsSettled new) }
    ensures again { IfOk result (λ new. tidied_all new ≡ new) }
    ensures comments { IfOk result (λ new. (text : Bytes) → times text new ≡ times text file) }
    ensures program { IfOk result (λ new. KeepsProgram file new) }
{
    if has_newer(file.items.as_slice()) {
        let new = level(file)?;
        return Ok(new);
    }
    let new = tidy_build(alloc, file)?;
    Ok(new)
}
