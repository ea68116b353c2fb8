ghost use Rattle.std.specs.Prelude.{◌≡◌, ◌++◌, ◌+◌, length, take, OnOk, OnErr, IfOk};
ghost use Rattle.std.specs.List.{flat_map};
ghost use Rattle.bz_grammar.specs.Spell.{spell_leaf, spell_node, spell_part, within_limit};

use crate::kind::Kind;
use bz_items::{Items, Memory};
use bz_lex::{LENGTH_LIMIT, Leaf};
use std::alloc::Global;
use std::marker::Model;

/// What is in a node: a token with its gap, or a node.
#[cycle(tree)]
pub enum Part {
    Leaf(Leaf),
    Node(Node),
}

impl Drop for Part {
    #[inline(always)]
    fn drop(self) {
        match self {
            Part::Leaf(_) => {}
            Part::Node(_) => {}
        }
    }
}

/// A kind and its parts from left to right. Nothing says yet that they have the shape of the kind.
#[cycle(tree)]
#[derive(Drop)]
pub struct Node {
    pub kind: Kind,
    pub parts: Items<Part>,
}

fn append_leaf(leaf: &Leaf, out: &mut Vec<u8>) -> Result<(), Memory>
    ensures ok { OnOk result (out.new.items ≡ out.old.items ++ spell_leaf leaf.now) }
    ensures err { OnErr result (take (length out.old.items) out.new.items ≡ out.old.items) }
{
    out.extend_from_slice(leaf.gap.as_slice())?;
    out.extend_from_slice(leaf.token.as_slice())?;
    Ok(())
}

impl Part {
    #[cycle(append)]
    #[tactic(auto, using(crate::proofs::Spells::spell_Node))]
    fn append_to(&self, out: &mut Vec<u8>) -> Result<(), Memory>
        ensures ok { OnOk result (out.new.items ≡ out.old.items ++ spell_part self.now) }
        ensures err { OnErr result (take (length out.old.items) out.new.items ≡ out.old.items) }
    {
        match self {
            Part::Leaf(leaf) => append_leaf(leaf, out),
            Part::Node(node) => append_all(node.parts.as_slice(), out),
        }
    }
}

#[cycle(append)]
fn append_all(parts: &[Part], out: &mut Vec<u8>) -> Result<(), Memory>
    ensures ok { OnOk result (out.new.items ≡ out.old.items ++ flat_map spell_part parts.now) }
    ensures err { OnErr result (take (length out.old.items) out.new.items ≡ out.old.items) }
{
    for part in parts {
        part.append_to(out)?;
    }
    Ok(())
}

impl Node {
    /// Appends the spelling of the node to `out`. The error: a growth was refused; `out` is then as before.
    pub fn spell_into(&self, out: &mut Vec<u8>) -> Result<(), Memory>
        ensures ok { OnOk result (out.new.items ≡ out.old.items ++ spell_node self.now) }
        ensures err { OnErr result (out.new.items ≡ out.old.items) }
    {
        let was = out.len();
        let answer = append_all(self.parts.as_slice(), out);
        if answer.is_err() {
            out.truncate(was);
        }
        answer
    }
}

/// This many bytes, where a text may have as many.
fn fitting(bytes: usize) -> Option<usize>
    ensures { result ≡ within_limit bytes }
{
    if bytes > LENGTH_LIMIT {
        return None;
    }
    Some(bytes)
}

/// This many bytes and those of a leaf; none where a text may not have as many.
fn length_with_leaf(leaf: &Leaf, bytes: usize) -> Option<usize>
    ensures { result ≡ within_limit (bytes + length (spell_leaf leaf.now)) }
{
    let with_gap = bytes.checked_add(leaf.gap.len())?;
    fitting(with_gap.checked_add(leaf.token.len())?)
}

/// This many bytes and those that a part spells; none where a text may not have as many.
#[cycle(length)]
#[tactic(auto, using(crate::proofs::Spells::spell_Node))]
fn length_with_part(part: &Part, bytes: usize) -> Option<usize>
    ensures { result ≡ within_limit (bytes + length (spell_part part.now)) }
{
    match part {
        Part::Leaf(leaf) => length_with_leaf(leaf, bytes),
        Part::Node(node) => length_with(node.parts.as_slice(), bytes),
    }
}

/// This many bytes and those that parts spell; none where a text may not have as many.
#[cycle(length)]
pub fn length_with(parts: &[Part], bytes: usize) -> Option<usize>
    ensures { result ≡ within_limit (bytes + length (flat_map spell_part parts.now)) }
{
    let mut total = fitting(bytes)?;
    for part in parts {
        total = length_with_part(part, total)?;
    }
    Some(total)
}

impl Part {
    #[cycle(copy)]
    fn copy(&self) -> Result<Part, Memory>
        ensures { IfOk result (λ part. part ≡ self.now) }
    {
        match self {
            Part::Leaf(leaf) => Ok(Part::Leaf(leaf.copy()?)),
            Part::Node(node) => Ok(Part::Node(node.copy()?)),
        }
    }
}

impl Node {
    /// An equal node. The error: a growth was refused.
    #[cycle(copy)]
    pub fn copy(&self) -> Result<Node, Memory>
        ensures { IfOk result (λ node. node ≡ self.now) }
    {
        Ok(Node {
            kind: self.kind,
            parts: copy_all(self.parts.alloc(), self.parts.as_slice())?,
        })
    }
}

/// Equal parts, in a list of just their number. The error: a growth was refused.
#[cycle(copy)]
pub fn copy_all(alloc: Global, parts: &[Part]) -> Result<Items<Part>, Memory>
    ensures { IfOk result (λ copied. copied ≡ parts.now) }
{
    let mut copied = Vec::with_capacity(alloc, parts.len())?;
    for part in parts {
        // there is room: a push that may be refused has a part to drop
        copied.reserve(1)?;
        copied.push_reserved(part.copy()?);
    }
    Ok(Items::from_vec(copied))
}

/// A legal tree of a BUILD file or a `.bzl` file, whose spelling is within the limit. Contracts see it as its root.
#[derive(Drop)]
pub struct Tree {
    pub root: Node,
}

impl Model for Tree {
    ghost use Rattle.bz_grammar.specs.contracts.tree.Part as e;
    ghost use Rattle.bz_grammar.specs.contracts.tree.Node as n;
    ghost use Rattle.std.specs.Coded.{codes};
    ghost use Rattle.bz_grammar.specs.declared.tree.Node.{Node};
    ghost use Rattle.std.specs.Prelude.{◌≤◌, length};
    ghost use Rattle.bz_grammar.specs.Spell.{spell_node, limit};
    ghost use Rattle.bz_grammar.specs.Legal.{Legal};

    ghost Value = { Node };

    ghost coded = { Prim.hlevel (codes, e.the_row.coded, n.the_row.coded) };

    ghost view = { λ tree. tree.root };

    ghost invariant = { λ tree. Legal tree.root × (length (spell_node tree.root) ≤ limit) };
}

impl Tree {
    /// How many bytes the tree spells.
    pub fn len(&self) -> usize
        ensures { result ≡ length (spell_node self.now) }
    {
        length_with(self.root.parts.as_slice(), 0).unwrap()
    }

    /// An equal tree. The error: a growth was refused.
    pub fn copy(&self) -> Result<Tree, Memory>
        ensures { IfOk result (λ tree. tree ≡ self.now) }
    {
        Ok(Tree {
            root: self.root.copy()?,
        })
    }

    /// Appends the spelling of the tree to `out`. The error: a growth was refused; `out` is then as before.
    pub fn spell_into(&self, out: &mut Vec<u8>) -> Result<(), Memory>
        ensures ok { OnOk result (out.new.items ≡ out.old.items ++ spell_node self.now) }
        ensures err { OnErr result (out.new.items ≡ out.old.items) }
    {
        self.root.spell_into(out)
    }
}
