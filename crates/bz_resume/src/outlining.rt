//! Outlines of nodes: with one, a node can be dropped before the tree is read that it is compared with.
ghost use Rattle.std.specs.Prelude.{◌≡◌, ◌∷◌, [], ◌++◌, OnOk, IfOk};
ghost use Rattle.bz_resume.specs.private.Outlines.{outline_list, marked, outline_leaf, outline_node, outline_part};

use bz_grammar::{Node, Part};
use bz_items::Memory;
use bz_lex::Leaf;

fn push_text(text: &[u8], out: &mut Vec<u8>) -> Result<(), Memory>
    ensures { OnOk result (out.new.items ≡ out.old.items ++ marked text.now) }
{
    for byte in text {
        out.extend_from_slice(&[1, *byte])?;
    }
    out.push(0)?;
    Ok(())
}

fn push_leaf(leaf: &Leaf, out: &mut Vec<u8>) -> Result<(), Memory>
    ensures { OnOk result (out.new.items ≡ out.old.items ++ outline_leaf leaf.now) }
{
    out.extend_from_slice(&[1, leaf.class.number()])?;
    push_text(leaf.gap.as_slice(), out)?;
    push_text(leaf.token.as_slice(), out)
}

#[cycle(outline)]
#[tactic(auto, using(crate::proofs::Outlined::outline_Node))]
fn push_part(part: &Part, out: &mut Vec<u8>) -> Result<(), Memory>
    ensures { OnOk result (out.new.items ≡ out.old.items ++ outline_part part.now) }
{
    match part {
        Part::Leaf(leaf) => push_leaf(leaf, out),
        Part::Node(node) => {
            out.extend_from_slice(&[2, node.kind.number()])?;
            push_all(node.parts.as_slice(), out)
        }
    }
}

#[cycle(outline)]
fn push_all(parts: &[Part], out: &mut Vec<u8>) -> Result<(), Memory>
    ensures { OnOk result (out.new.items ≡ out.old.items ++ outline_list outline_part parts.now) }
{
    for part in parts {
        out.push(1)?;
        push_part(part, out)?;
    }
    out.push(0)?;
    Ok(())
}

/// The outline of a node. The error: a growth was refused.
pub(crate) fn outline_of(node: &Node) -> Result<Vec<u8>, Memory>
    ensures { IfOk result (λ outline. outline.items ≡ outline_node node.now) }
{
    let mut outline = Vec::new(node.parts.alloc());
    outline.extend_from_slice(&[2, node.kind.number()])?;
    push_all(node.parts.as_slice(), &mut outline)?;
    Ok(outline)
}
