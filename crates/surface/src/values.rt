//! Labels and file values by the names of bz_label, bz_view and bz_tidy.
use bz_label::{
    Label, LabelFault, Target, TargetFault, Which, is_sorted, key_cmp, priority, same, shorten,
};
use bz_tidy::{level, tidy};
use bz_tree::{ReadFault, Tree, parse, parse_bzl};
use bz_view::{Expr, File, Item, Seq, SetFault, set, view};
use std::alloc::Global;
use std::cmp::Ordering;

/// Labels, a target, and the tables.
pub(crate) fn labels(alloc: Global) -> Option<String> {
    let read: Result<Label, LabelFault> = Label::read(alloc, "p", "//a/b");
    let label = read.ok()?;
    let meant: Result<Target, TargetFault> = Target::read(alloc, "//p:all");
    let target = meant.ok()?;
    let means_all = matches!(&target.which, Which::All);
    let is_less = key_cmp(b"a", b"b") == Ordering::Less;
    format!(in alloc;
        "name of {} bytes, all {means_all}, same {}, shortened to {} bytes, less {is_less}, sorted {}, place {}",
        label.name.as_slice().len(),
        same(b"p", b"//p:x", b":x"),
        shorten(b"p", b"//a/b:b").len(),
        is_sorted(b"cc_library", b"srcs"),
        priority(b"name")
    )
    .ok()
}

/// How many statements a value has.
fn statements(file: &File) -> usize {
    file.items
        .as_slice()
        .iter()
        .filter(|item| matches!(item, Item::Stmt(_)))
        .count()
}

/// The view of a text, tidied and laid out.
pub(crate) fn tidied(alloc: Global) -> Option<String> {
    let tree = parse(alloc, b"a(srcs=[\"c\",\"b\"],name='x')\n").ok()?;
    let file: File = tidy(alloc, view(alloc, &tree).ok()?).ok()?;
    let written = set(alloc, &file).ok()?;
    format!(in alloc; "{} statement, {} bytes", statements(&file), written.len()).ok()
}

/// The same of a .bzl file.
pub(crate) fn levelled(alloc: Global) -> Option<String> {
    let read: Result<Tree, ReadFault> = parse_bzl(alloc, b"def f():\n  return [1,2]\n");
    let seen: File = view(alloc, &read.ok()?).ok()?;
    let file: File = level(seen).ok()?;
    let written: Result<Tree, SetFault> = set(alloc, &file);
    format!(in alloc; "{} bytes", written.ok()?.len()).ok()
}
