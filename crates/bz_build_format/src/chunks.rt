//! The formatted text of a long text, made chunk by chunk: its tree and its value are never in memory as a whole.
ghost use Rattle.std.specs.Prelude.{◌≢◌, ◌≤◌, ◌<◌, Bool, Err, IfErr, IfOk, IfSome, length, not, take};
ghost use Rattle.bz_value.specs.declared.value.Item.{Item};
ghost use Rattle.bz_build_format.specs.declared.formatter.FormatFault.TheVariants.{Unread};
ghost use Rattle.bz_build_format.specs.private.Chunks.{IsAppended, IsFormattedAs, ReadsAs, of_kind};

use crate::cut::{CHUNK, TRIES, chunk_end, may_go_on};
use bz_grammar::{LENGTH_LIMIT, ReadFault};
use bz_hosts::{
    begins_bare, build_views, ends_with_line, into_front, into_view, suites_join, views_join,
};
use bz_layout::{Draft, append_items, layouts_join};
use bz_passes::{begins_with_load, tidied_apart, tidy_build};
use bz_tree::{parse, parse_bzl};
use bz_value::{File, Item};
use std::alloc::Global;

/// A kind of files.
#[derive(Clone, Copy)]
pub(crate) enum FileKind {
    /// BUILD files, which are tidied.
    Build,
    /// Files that may have suites. They are laid out the same whether they are levelled or not.
    Suites,
}

/// What a text says, settled; whether it may follow another one; and whether another one may follow it. The error: it is not read, or memory
/// was refused.
pub(crate) fn seen(
    alloc: Global,
    kind: FileKind,
    text: &[u8],
) -> Result<(File, bool, bool), ReadFault>
    ensures ok { IfOk result (λ seen. ReadsAs (of_kind kind) text.now seen.0 seen.1 seen.2) }
    ensures err { IfErr result (λ fault. fault ≢ ReadFault.Memory → (of_kind kind).formats text.now (Err (Unread fault))) }
{
    build_views();
    match kind {
        FileKind::Build => {
            let tree = parse(alloc, text)?;
            let ends = ends_with_line(&tree);
            let file = into_view(alloc, tree)?;
            // a load is sorted with the one above it
            let follows = !begins_with_load(file.items.as_slice());
            let tidied = tidy_build(alloc, file)?;
            Ok((tidied, follows, ends))
        }
        FileKind::Suites => {
            let tree = parse_bzl(alloc, text)?;
            let follows = begins_bare(&tree);
            let (file, ends) = into_front(alloc, tree)?;
            Ok((file, follows, ends))
        }
    }
}

/// What the first chunk of a text says that is read by itself, whether another one may follow it, and its length. One that none may
/// follow is taken at the end alone.
fn first_chunk(
    alloc: Global,
    kind: FileKind,
    text: &[u8],
    is_first: bool,
) -> Option<(File, bool, usize)>
    requires { 0 < length text.now }
    ensures reads { IfSome result (λ found. ReadsAs (of_kind kind) (take found.2 text.now) found.0 (not is_first) found.1) }
    ensures len { IfSome result (λ found. (0 < found.2) × (found.2 ≤ length text.now)) }
{
    for doublings in 0..TRIES {
        let bare = matches!(kind, FileKind::Suites);
        let len = chunk_end(text, CHUNK << doublings, bare);
        let chunk = &text[..len];
        let is_last = len == text.len();
        match seen(alloc, kind, chunk) {
            Ok((_, follows, _)) if !is_first && !follows => return None,
            Ok((file, _, ends)) if ends || is_last => return Some((file, ends, len)),
            Err(fault) if is_last || !may_go_on(&fault, chunk) => return None,
            _ => {} // more of the text is tried
        }
    }
    None
}

/// Appends the layout of what a chunk says, below the item above it. Its last item; none: it has no items, the limit of depth is passed, or
/// memory was refused.
fn append(out: &mut Draft, above: &Option<Item>, file: File) -> Option<Item>
    ensures { IfSome result (λ last. IsAppended out.old above.now file out.new last) }
{
    append_items(out, above, file.items.as_slice())?;
    let File { mut items } = file;
    items.pop()
}

/// The formatted text of a long text, made chunk by chunk: where it is longer than a text may be, this alone is known of it, once all chunks
/// were read. None: the text is short, it is past a limit, a chunk of it is not as simple as most, or memory was refused.
pub(crate) fn chunks_formatted(alloc: Global, kind: FileKind, text: &[u8]) -> Option<Draft>
    ensures { IfSome result (λ formatted. (last : Item) × (ends : Bool) × IsFormattedAs (of_kind kind) text.now formatted last ends) }
{
    build_views();
    views_join();
    suites_join();
    tidied_apart();
    layouts_join();
    if text.len() <= CHUNK || text.len() > LENGTH_LIMIT {
        return None;
    }
    let Ok(room) = Vec::with_capacity(alloc, text.len() + text.len() / 16) else {
        return None;
    };
    let mut out = Draft::new(room, LENGTH_LIMIT);
    let mut last = None;
    let mut ends = true;
    let mut at = 0;
    while at < text.len() {
        if !ends {
            return None;
        }
        let (file, follows, len) = first_chunk(alloc, kind, &text[at..], last.is_none())?;
        let item = append(&mut out, &last, file)?;
        last = Some(item);
        ends = follows;
        at += len;
    }
    Some(out)
}
