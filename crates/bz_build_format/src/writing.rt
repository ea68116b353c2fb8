//! Texts of new values, and trees of them.
ghost use Rattle.std.specs.Prelude.{◌≡◌, ◌⊎◌, ◌<◌, ◌≤◌, Option, IfOk, IfErr, length};
ghost use Rattle.bz_build_format.specs.Words.{Bytes, AreBuild, IsBuild, Reads, depth_limit, depth_of, limit, spell_node, view_of, flags, laid_out, layout};
ghost use Rattle.bz_build_format.specs.Meaning.{gives, refuses, written};

use bz_grammar::laws::one_bzl_reading;
use bz_grammar::{ReadFault, Tree};
use bz_items::Text;
use bz_layout::{
    SetFault, build_layout_is_build, layout_is_accepted, layout_reads_back, text_of_items,
};
use bz_passes::tidy_build;
use bz_rule::take_apart;
use bz_tree::parse_bzl;
use bz_value::{File, Refusal};
use std::alloc::Global;

/// What the tree of a BUILD file spells reads as it.
pub fn reads_back(tree: &Tree)
    requires { IsBuild tree.now }
    ensures { Reads (spell_node tree.now) tree.now }
{
    let _root = &tree.root;
}

/// The text of a new value of a BUILD file, which has about this many bytes: the layout of the value tidied. No tree is made for it.
#[tactic(auto, using(crate::proofs::Writes::written_too_large, crate::proofs::Writes::written_too_deep, crate::proofs::Writes::written_given))]
pub fn written_text(alloc: Global, file: File, about: usize) -> Result<Text, Refusal>
    requires { AreBuild file }
    ensures ok { IfOk result (λ text. (printed : Option Bytes) → written file printed ≡ gives text printed) }
    ensures err { IfErr result (λ refusal. ((printed : Option Bytes) → written file printed ≡ refuses refusal) ⊎ (refusal ≡ Refusal.Memory)) }
{
    let tidied = tidy_build(alloc, file)?;
    let text = text_of_items(alloc, tidied.items.as_slice(), about);
    take_apart(tidied);
    match text {
        Ok(text) => Ok(text),
        Err(SetFault::Memory) => Err(Refusal::Memory),
        Err(SetFault::TooLarge) => Err(Refusal::TooLarge),
        Err(SetFault::TooDeep) => Err(Refusal::TooDeep),
    }
}

/// The tree whose spelling is the layout of the file value, and whose view is the value with its flags settled: what the text of the layout reads
/// as. It is that of a BUILD file where the value is. Both limits are looked at on the value, before the tree is made. Errors: `TooLarge` exactly where the layout is past the limit of a
/// text, else `TooDeep` exactly where the tree is past the limit of depth; `Memory`: a growth was refused.
pub fn set(alloc: Global, file: &File) -> Result<Tree, SetFault>
    ensures laid_out { IfOk result (λ tree. tree ≡ laid_out file.now) }
    ensures build { IfOk result (λ tree. AreBuild file.now → IsBuild tree) }
    ensures text { IfOk result (λ tree. spell_node tree ≡ layout file.now) }
    ensures view { IfOk result (λ tree. view_of tree ≡ flags file.now) }
    ensures too_large { result ≡ Err SetFault.TooLarge → limit < length (layout file.now) }
    ensures too_deep { result ≡ Err SetFault.TooDeep → (length (layout file.now) ≤ limit) × (depth_limit < depth_of (laid_out file.now)) }
{
    one_bzl_reading();
    layout_is_accepted();
    layout_reads_back();
    build_layout_is_build();
    let text = text_of_items(alloc, file.items.as_slice(), 0)?;
    match parse_bzl(alloc, text.as_slice()) {
        Ok(tree) => Ok(tree),
        Err(fault) => match fault {
            ReadFault::Memory => Err(SetFault::Memory),
            _ => unreachable!(),
        },
    }
}
