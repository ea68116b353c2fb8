//! Trees: what a text is read as, and where it is refused.
use crate::copying::are_equal;
use bz_grammar::{Class, Kind, Leaf, Node, Part, ReadFault, Tree};
use bz_items::Memory;
use bz_tree::{parse, parse_bzl};
use sheets::{Case, CaseFault, Page, number_of};
use std::alloc::Global;

/// Answers a question about the tree of a text. Whether it is one.
pub(crate) fn answer(case: &Case, page: &mut Page) -> Result<bool, CaseFault> {
    let alloc = case.alloc;
    let text = case.given_text(0)?;
    match case.question.as_str() {
        "tree" => page.answer(tree_of(alloc, Grammar::Build, text)?.as_bytes())?,
        "bzl" => page.answer(tree_of(alloc, Grammar::Bzl, text)?.as_bytes())?,
        "expression" => {
            let tree = tree_of(alloc, Grammar::Build, text)?;
            page.answer(within(tree.as_str(), "File(Line(Bare(", ") no_nl) end)").as_bytes())?;
        }
        "statement" => statement(alloc, text, page)?,
        "spelling" => {
            let bytes = spelled(alloc, Grammar::Build, text)?.len();
            page.answer(format!(in alloc; "{bytes} bytes")?.as_bytes())?;
        }
        "accepted" => page.answer(acceptance(alloc, text)?.as_bytes())?,
        "equal" => page.answer(equality(alloc, text, case.given_text(1)?)?.as_bytes())?,
        "lines" => page.answer(lines_of(alloc, Grammar::Build, text)?.as_bytes())?,
        "bzl_lines" => page.answer(lines_of(alloc, Grammar::Bzl, text)?.as_bytes())?,
        "kind" => page.answer(kind_of(case)?.as_bytes())?,
        _ => return Ok(false),
    }
    Ok(true)
}

/// Which grammar a text is read by.
#[derive(Clone, Copy)]
pub(crate) enum Grammar {
    Build,
    Bzl,
}

/// What was read; a fault is the answer of the case, as its number and its text.
pub(crate) fn known<T>(alloc: Global, answer: Result<T, ReadFault>) -> Result<T, CaseFault> {
    match answer {
        Ok(read) => Ok(read),
        Err(fault) => Err(unread(alloc, &fault)?),
    }
}

/// A fault of reading as the answer of a case. The error: memory was refused for that.
pub(crate) fn unread(alloc: Global, fault: &ReadFault) -> Result<CaseFault, Memory> {
    match fault {
        ReadFault::Memory => Ok(CaseFault::Memory),
        _ => Ok(CaseFault::Refused(format!(in alloc; "{} {fault}", fault.number())?)),
    }
}

/// The tree of a text, of which nothing has to be known here.
pub(crate) fn read(alloc: Global, grammar: Grammar, text: &[u8]) -> Result<Tree, CaseFault> {
    match grammar {
        Grammar::Build => known(alloc, parse(alloc, text)),
        Grammar::Bzl => known(alloc, parse_bzl(alloc, text)),
    }
}

/// Whether the tree spells the text and has its length, and so has a copy of it after what is there.
fn spells(alloc: Global, tree: &Tree, text: &[u8]) -> Result<bool, Memory> {
    let mut spelled = Vec::new(alloc);
    tree.spell_into(&mut spelled)?;
    tree.copy()?.spell_into(&mut spelled)?;
    let (first, second) = spelled.as_slice().split_at(tree.len().min(spelled.len()));
    Ok(first == text && second == text)
}

/// The tree of a text, which spells it.
fn spelled(alloc: Global, grammar: Grammar, text: &[u8]) -> Result<Tree, CaseFault> {
    let tree = read(alloc, grammar, text)?;
    if !spells(alloc, &tree, text)? {
        return Err(CaseFault::Sheet("a tree that is spelled otherwise"));
    }
    Ok(tree)
}

/// The tree of a text as a line: a node is its kind, and in brackets its parts with a space between two of them.
fn tree_of(alloc: Global, grammar: Grammar, text: &[u8]) -> Result<String, CaseFault> {
    let tree = spelled(alloc, grammar, text)?;
    let mut out = String::new(alloc);
    show_node(&tree.root, &mut out)?;
    Ok(out)
}

/// Whether a text has a tree.
fn acceptance(alloc: Global, text: &[u8]) -> Result<&'static str, CaseFault> {
    match read(alloc, Grammar::Build, text) {
        Ok(_) => Ok("accepted"),
        Err(CaseFault::Refused(_)) => Ok("refused"),
        Err(fault) => Err(fault),
    }
}

/// Whether the trees of two texts are equal.
fn equality(alloc: Global, text: &[u8], other: &[u8]) -> Result<&'static str, CaseFault> {
    let tree = read(alloc, Grammar::Build, text)?;
    let other = read(alloc, Grammar::Build, other)?;
    if are_equal(tree.root.copy()?, other.root.copy()?) {
        Ok("equal")
    } else {
        Ok("different")
    }
}

/// What is between this beginning and this end, or the whole.
fn within<'a>(shown: &'a str, begin: &str, end: &str) -> &'a str {
    match shown.strip_prefix(begin) {
        Some(following) => following.strip_suffix(end).unwrap_or(shown),
        None => shown,
    }
}

/// The tree of a line without and with its newline, which are to differ by the newline alone.
fn statement(alloc: Global, text: &[u8], page: &mut Page) -> Result<(), CaseFault> {
    let mut line = text.to_vec(alloc)?;
    line.push(b'\n').map_err(Memory::from)?;
    let bare = tree_of(alloc, Grammar::Build, text)?;
    let ended = tree_of(alloc, Grammar::Build, line.as_slice())?;
    let bare = within(bare.as_str(), "File(Line(", " no_nl) end)");
    let ended = within(ended.as_str(), "File(Line(", " nl) end)");
    page.answer(bare.as_bytes())?;
    if bare != ended {
        page.answer(ended.as_bytes())?;
    }
    Ok(())
}

/// The lines of the statements of a text.
fn lines_of(alloc: Global, grammar: Grammar, text: &[u8]) -> Result<String, CaseFault> {
    let tree = read(alloc, grammar, text)?;
    let mut lines = String::new(alloc);
    let all = tree.lines(alloc)?;
    for (place, line) in all.iter().enumerate() {
        let blank = if place == 0 { "" } else { " " };
        write!(&mut lines, "{blank}{line}")?;
        if tree.line_of(place) != Some(*line) {
            lines.push_str(" or another")?;
        }
    }
    if tree.line_of(all.len()).is_some() || tree.line_of(usize::MAX).is_some() {
        lines.push_str(" and one past the end")?;
    }
    Ok(lines)
}

/// The kind of this number, and the number of it.
fn kind_of(case: &Case) -> Result<String, CaseFault> {
    match Kind::of(number_of::<u8>(case.text(0)?)?) {
        Some(kind) => Ok(format!(in case.alloc; "{kind:?} {}", kind.number())?),
        None => Ok(String::from_str(case.alloc, "none")?),
    }
}

/// A leaf is its token: `nl` a newline, `no_nl` the empty one at the end of a text without, `end` the end.
fn show_leaf(leaf: &Leaf, out: &mut String) -> Result<(), Memory> {
    let token = leaf.token.as_slice();
    match leaf.class {
        Class::Newline if token.is_empty() => out.push_str("no_nl"),
        Class::Newline => out.push_str("nl"),
        Class::End => out.push_str("end"),
        _ => out.push_str(str::from_utf8(token).unwrap_or("no text")),
    }
}

#[cycle(show)]
fn show_part(part: &Part, out: &mut String) -> Result<(), Memory> {
    match part {
        Part::Leaf(leaf) => show_leaf(leaf, out),
        Part::Node(node) => show_node(node, out),
    }
}

#[cycle(show)]
fn show_node(node: &Node, out: &mut String) -> Result<(), Memory> {
    let kind = node.kind;
    write!(out, "{kind:?}(")?;
    let mut is_first = true;
    for part in node.parts.as_slice() {
        if !is_first {
            out.push(' ')?;
        }
        is_first = false;
        show_part(part, out)?;
    }
    out.push(')')
}
