//! Trees and edits by the names of bz_tree and bz_edit.
use bz_edit::{Edit, EditFault, Step, advance, exchange_node, weight};
use bz_tree::laws::one_tree;
use bz_tree::{Class, Kind, Leaf, Node, Part, ReadFault, Tree, lex, parse, parse_bzl};
use std::alloc::Global;

/// The text that the trees are read from.
const TEXT: &str = "a(name = \"x\")\n";

fn class_of(leaf: &Leaf) -> Class {
    leaf.class
}

/// The class of the last leaf of a node, where it ends with one.
fn last_class(node: &Node) -> Option<Class> {
    match node.parts.as_slice().last()? {
        Part::Leaf(leaf) => Some(class_of(leaf)),
        Part::Node(_) => None,
    }
}

/// The length of what a text of a .bzl file is read as.
fn bzl_length(read: Result<Tree, ReadFault>) -> Option<usize> {
    Some(read.ok()?.len())
}

/// A text as a tree and as tokens.
pub(crate) fn outcome(alloc: Global) -> Option<String> {
    let tree: Tree = parse(alloc, TEXT.as_bytes()).ok()?;
    one_tree(&tree, &tree);
    let mut spelling = Vec::new(alloc);
    tree.spell_into(&mut spelling).ok()?;
    let is_file = tree.root.kind == Kind::File;
    let class = last_class(&tree.root)?.number();
    let of_bzl = bzl_length(parse_bzl(alloc, b"def f():\n    pass\n"))?;
    let tokens = lex(alloc, TEXT).ok()?;
    format!(in alloc;
        "{} bytes, {} spelled, on line {}, a file {}, class {class}, {} tokens, {of_bzl} bytes of a .bzl file",
        tree.len(),
        spelling.len(),
        tree.line_of(0)?,
        is_file,
        tokens.len()
    )
    .ok()
}

/// The step between two trees, exchanged on a node; and the step of no edits, exchanged on a tree.
pub(crate) fn exchanged(alloc: Global) -> Option<String> {
    let mut tree = parse(alloc, TEXT.as_bytes()).ok()?;
    let mut root = parse(alloc, b"").ok()?.root.copy().ok()?;
    let mut step = advance(&mut tree, parse(alloc, b"").ok()?).ok()?;
    let held = weight(&step);
    let fault: Result<(), EditFault> = exchange_node(&mut root, &mut step);
    fault.ok()?;
    let edits: Vec<Edit> = Vec::new(alloc);
    let nothing = weight(&Step::new(edits)?);
    format!(in alloc;
        "{held} bytes held, {} parts again, {} bytes are left, {nothing} in no edits",
        root.parts.as_slice().len(),
        tree.len()
    )
    .ok()
}
