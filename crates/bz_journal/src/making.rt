//! The lines of a new value that are other ones than in the present tree.
ghost use Rattle.std.specs.Prelude.{◌≡◌, ◌<◌, ◌≤◌, Err, IfOk, length};
ghost use Rattle.bz_journal.specs.Clauses.{AreBuild, AreLinesOf, AreLookupsOf, AreOver, IsBuild, IsSeenIn, IsWritten, MakesLines, Refusal, SetFault, depth_limit, depth_of, laid_out, layout, limit, spell_node, view_of};

use crate::answering::Lookups;
use crate::doing::Seen;
use crate::naming::{followed, hashed, outlives};
use bz_build_format::{is_mostly_other, read_text, read_windows, reads_back};
use bz_command::LoadedPaths;
use bz_edit::PartWindow;
use bz_grammar::Tree;
use bz_items::Items;
use bz_layout::{SetFault, build_layout_is_build, layout_is_accepted, text_of_items, text_windows};
use bz_passes::{build_stays, tidy_build, tidy_windows};
use bz_rule::{Names, take_apart};
use bz_value::{File, Refusal, Window};

/// The lines of a tidy value that are other ones than in a tree.
#[derive(Drop)]
pub(crate) struct Made {
    pub(crate) windows: Items<PartWindow>,
    /// The value, unless it was given up.
    pub(crate) value: Option<File>,
    /// The index of the names in the value, where that of the names before is known to be it.
    pub(crate) names: Option<Names>,
    /// The hashes of the names in the value, where those before are known.
    pub(crate) hashes: Option<Items<u64>>,
    /// The paths from which the value loads, where those before are known.
    pub(crate) paths: Option<LoadedPaths>,
    /// How many bytes its layout has.
    pub(crate) length: usize,
}

/// What is answered where a layout is refused.
fn refusal_of(fault: SetFault) -> Refusal
    ensures memory { fault ≡ SetFault.Memory → result ≡ Refusal.Memory }
    ensures too_large { fault ≡ SetFault.TooLarge → result ≡ Refusal.TooLarge }
    ensures too_deep { fault ≡ SetFault.TooDeep → result ≡ Refusal.TooDeep }
{
    match fault {
        SetFault::Memory => Refusal::Memory,
        SetFault::TooLarge => Refusal::TooLarge,
        SetFault::TooDeep => Refusal::TooDeep,
    }
}

/// The lines of a tidy value in these windows, in which alone it is another one than that of a tree, and how many bytes its layout has. The tree is
/// the layout of a tidy value, and has `len` bytes. Errors: those of a layout.
fn lines_of_windows(
    windows: &[Window],
    file: &File,
    tree: &Tree,
    len: usize,
) -> Result<(Items<PartWindow>, usize), SetFault>
    requires build { IsBuild tree.now }
    requires build_value { AreBuild file.now }
    requires over { AreOver windows.now (view_of tree.now) file.now }
    requires written { IsWritten (view_of tree.now) tree.now }
    requires len { len ≡ length (spell_node tree.now) }
    ensures lines { IfOk result (λ made. AreLinesOf made.0 tree.now file.now) }
    ensures length { IfOk result (λ made. made.1 ≡ length (layout file.now)) }
    ensures too_large { result ≡ Err SetFault.TooLarge → limit < length (layout file.now) }
    ensures too_deep { result ≡ Err SetFault.TooDeep → (length (layout file.now) ≤ limit) × (depth_limit < depth_of (laid_out file.now)) }
{
    layout_is_accepted();
    build_layout_is_build();
    reads_back(tree);
    let alloc = file.items.alloc();
    let laid = text_windows(alloc, file, windows, tree, len)?;
    let length = laid.length;
    let lines = read_windows(alloc, tree, laid.windows)?;
    Ok((lines, length))
}

/// The lines of a value that is another one than that of a tree in these windows alone: only what is in them is tidied and laid out. The tree is the
/// layout of a tidy value, and has `len` bytes; what was looked up in that value and is of use in this one goes over. Errors: `TooLarge`,
/// `TooDeep`; `Memory`: a growth was refused.
fn made_by_windows(
    mut windows: Items<Window>,
    mut file: File,
    tree: &Tree,
    len: usize,
    lookups: &mut Lookups,
) -> Result<Made, Refusal>
    requires build { IsBuild tree.now }
    requires build_value { AreBuild file }
    requires lookups { AreLookupsOf lookups.old tree.now }
    requires over { AreOver windows (view_of tree.now) file }
    requires written { IsWritten (view_of tree.now) tree.now }
    requires len { len ≡ length (spell_node tree.now) }
    ensures made { MakesLines file tree.now result }
    ensures looked { AreLookupsOf lookups.new tree.now }
{
    build_stays();
    let alloc = file.items.alloc();
    if tidy_windows(alloc, &mut file, &mut windows).is_err() {
        take_apart(file);
        return Err(Refusal::Memory);
    }
    let items = file.items.as_slice();
    let names = outlives(lookups.names.take(), windows.as_slice(), items);
    let hashes = hashed(alloc, lookups.hashes.take(), windows.as_slice(), items);
    let paths = followed(alloc, lookups.paths.take(), windows.as_slice(), items);
    match lines_of_windows(windows.as_slice(), &file, tree, len) {
        Ok((windows, length)) => Ok(Made {
            windows,
            value: Some(file),
            names,
            hashes,
            paths,
            length,
        }),
        Err(fault) => {
            take_apart(file);
            Err(refusal_of(fault))
        }
    }
}

/// How many bytes a text has at least that is compared with the tree before it is read, since the value is given up where most of it is
/// another one. The comparison takes a tenth of what a command on a shorter one does, and the value of that is not much.
const LONG: usize = 2 << 20;

/// The lines of a value that is another one than that of a tree in these windows alone, by what is kept beside that tree: where this isn't known
/// to be the layout of a tidy value, all of it is tidied and laid out. Errors: `TooLarge`, `TooDeep`; `Memory`: a growth was refused.
pub(crate) fn made_of(
    seen: &mut Seen,
    windows: Items<Window>,
    file: File,
    tree: &Tree,
) -> Result<Made, Refusal>
    requires build { IsBuild tree.now }
    requires build_value { AreBuild file }
    requires seen { IsSeenIn tree.now seen.old }
    requires over { AreOver windows (view_of tree.now) file }
    ensures made { MakesLines file tree.now result }
    ensures seen { IsSeenIn tree.now seen.new }
{
    if let Some(len) = seen.written {
        return made_by_windows(windows, file, tree, len, &mut seen.lookups);
    }
    drop(windows);
    let alloc = file.items.alloc();
    let tidy = tidy_build(alloc, file)?;
    let text = match text_of_items(alloc, tidy.items.as_slice(), tree.len()) {
        Ok(text) => text,
        Err(fault) => {
            take_apart(tidy);
            return Err(refusal_of(fault));
        }
    };
    // where most of a long text is to be read, the tree of it is not to be beside the value
    let value = if text.len() >= LONG && is_mostly_other(tree, text.as_slice()) {
        take_apart(tidy);
        None
    } else {
        Some(tidy)
    };
    let Ok(windows) = read_text(alloc, tree, text.as_slice()) else {
        drop(value);
        return Err(Refusal::Memory);
    };
    Ok(Made {
        windows,
        value,
        names: None,
        hashes: None,
        paths: None,
        length: text.len(),
    })
}
