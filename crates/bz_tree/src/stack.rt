//! The parts that are in no node yet.
ghost use Rattle.std.specs.Prelude.{◌≡◌, ◌∷◌, ◌++◌, ◌≤◌, ◌<◌, [], false, length, take, drop, vec_len, vec_capacity, Ok, Some, OnOk, IfOk, IsTrue, slice_get};
ghost use Rattle.std.specs.List.{AllByRecursion};
ghost use Rattle.std.specs.Option.{option_copied};
ghost use Rattle.bz_grammar.specs.declared.tree.Part.{Part};
ghost use Rattle.bz_grammar.specs.declared.tree.Part.TheVariants as p;
ghost use Rattle.bz_grammar.specs.Kinds.{kind_number};
ghost use Rattle.bz_grammar.specs.Legal.{IsBuildPart};
ghost use Rattle.bz_grammar.specs.Shapes.{name, has_token};
ghost use Rattle.bz_grammar.specs.Reading.{node_part};
ghost use Rattle.bz_states.specs.Tokens.{terminals_of, token_at, Fails};
ghost use Rattle.bz_tree.specs.private.Words.{Pushes};

use bz_grammar::{Kind, Node, Part, have_newer};
use bz_items::{Gap, Items, Memory, Text};
use bz_lex::{Class, Leaf};
use bz_states::{Leaves, ParseHalt, TokenSet};
use std::alloc::Global;
use std::marker::Model;
use std::mem;

/// How many parts there is room for from the beginning on.
const ROOM: usize = 64;

/// How deep what was read is.
pub(crate) type Deep = Result<u32, ParseHalt>;

/// The parts that were read and are in no node yet, in the order of the text: those of the outermost open node first.
/// One list serves all open nodes; a node takes its own off the end, in a list of just their number.
#[derive(Drop)]
pub(crate) struct Stack {
    parts: Vec<Part>,
    /// Whether a node was made of a kind that no BUILD file has.
    newer: bool,
}

impl Model for Stack {
    ghost use Rattle.std.specs.Prelude.{◌≡◌, List, false};
    ghost use Rattle.std.specs.List.{AllByRecursion};
    ghost use Rattle.std.specs.Coded.{coded_list};
    ghost use Rattle.bz_grammar.specs.declared.tree.Part.{Part};
    ghost use Rattle.bz_grammar.specs.contracts.tree.Part as e;
    ghost use Rattle.bz_grammar.specs.Legal.{IsBuildPart};

    ghost Value = { List Part };

    ghost coded = { coded_list e.the_row.coded };

    ghost view = { λ stack. stack.parts.items };

    ghost invariant = { λ stack. stack.newer ≡ false → AllByRecursion IsBuildPart stack.parts.items };
}

impl Stack {
    /// No parts, and room for those of most statements; where that is refused, no room yet.
    pub fn new(alloc: Global) -> Stack
        ensures { result ≡ [] }
    {
        let parts = match Vec::with_capacity(alloc, ROOM) {
            Ok(parts) => parts,
            Err(_) => Vec::new(alloc),
        };
        Stack {
            parts,
            newer: false,
        }
    }

    /// The parts.
    pub fn as_slice(&self) -> &[Part]
        ensures { result.now ≡ self.now }
    {
        self.parts.as_slice()
    }

    /// How many parts there are.
    pub fn len(&self) -> usize
        ensures { result ≡ length self.now }
    {
        self.parts.len()
    }

    /// The part at a place.
    pub fn get(&self, at: usize) -> Option<&Part>
        ensures { option_copied result ≡ slice_get self.now at }
    {
        self.parts.get(at)
    }

    /// Whether the part at a place is a name.
    pub fn is_name_at(&self, at: usize) -> bool
        ensures { (x : Part) → slice_get self.now at ≡ Some x → result ≡ has_token name x }
    {
        match self.get(at) {
            Some(part) => is_name(part),
            None => false,
        }
    }

    /// Whether a node is of a kind that no BUILD file has, among the parts or inside them.
    pub fn holds_newer(&self) -> bool
        ensures found { IsTrue result → AllByRecursion IsBuildPart self.now → ⊥ }
        ensures none { (result ≡ false) → AllByRecursion IsBuildPart self.now }
    {
        self.newer && have_newer(self.parts.as_slice())
    }

    /// All parts in a node of this kind, in a list of just their number: the room that their own parts took is given back.
    pub fn into_node(self, kind: Kind) -> Node
        ensures { result ≡ record { kind = kind; parts = self } }
    {
        let Stack { mut parts, .. } = self;
        parts.shrink_to_fit();
        Node {
            kind,
            parts: Items::from_vec(parts),
        }
    }

    /// Puts the parts from a place on into a node of this kind. The error: a growth was refused.
    pub fn close(&mut self, kind: Kind, from: usize) -> Result<(), Memory>
        requires { from ≤ length self.old }
        ensures { OnOk result (self.new ≡ take from self.old ++ node_part kind (drop from self.old) ∷ []) }
    {
        let _whole = self.parts.len();
        let newer = may_be_newer(self.newer, kind);
        // Of what a refused growth leaves nothing is said.
        self.newer = true;
        // The room comes first: a push that fails gives the node back, and the proof that it is dropped is long.
        let parts = Items::from_vec(take_tail(&mut self.parts, from)?);
        self.newer = newer;
        self.parts.push_reserved(Part::Node(Node { kind, parts }));
        Ok(())
    }

    /// The next leaf, where it is this token. Returns how deep it is: not at all.
    pub fn take(&mut self, token: TokenSet, leaves: &mut Leaves) -> Deep
        ensures ok { IfOk result (λ deep. Pushes (token_at (terminals_of token) leaves.old) self.old self.new leaves.new deep) }
        ensures err { Fails result (token_at (terminals_of token) leaves.old) }
    {
        let Some((front, text)) = leaves.next_leaf(token) else {
            return Err(ParseHalt::Unexpected);
        };
        let alloc = *self.parts.allocator();
        // A leaf is made where it goes: handed on in an answer, it would be copied from one to the next.
        self.parts.reserve(1)?;
        let (gap_bytes, after_gap) = text.split_at(front.gap);
        let (token_bytes, _) = after_gap.split_at(front.token);
        let gap = Gap::from_slice(alloc, gap_bytes)?;
        let token = Text::from_slice(alloc, token_bytes)?;
        let class = front.class;
        self.parts
            .push_reserved(Part::Leaf(Leaf { class, gap, token }));
        leaves.skip();
        Ok(0)
    }
}

/// From how many parts on a list is long.
const LONG: usize = 1024;

/// Takes the parts from a place on off others, and leaves room for one more. The error: a growth was refused.
#[inline(always)]
fn take_tail(parts: &mut Vec<Part>, from: usize) -> Result<Vec<Part>, Memory>
    requires { from ≤ length parts.old.items }
    ensures front { OnOk result (parts.new.items ≡ take from parts.old.items) }
    ensures room { OnOk result (vec_len parts.new < vec_capacity parts.new) }
    ensures tail { IfOk result (λ tail. tail.items ≡ drop from parts.old.items) }
{
    let len = parts.len();
    if len >= LONG && from <= len / 2 {
        let most = take_most(parts, from)?;
        return Ok(most);
    }
    parts.reserve(1)?;
    let tail = parts.split_off(from)?;
    Ok(tail)
}

/// The same, where these parts are most of a long list: they keep its room, and those in front of them move to a new one, so that no
/// second room as large is needed.
#[inline(never)]
fn take_most(parts: &mut Vec<Part>, from: usize) -> Result<Vec<Part>, Memory>
    requires { from ≤ length parts.old.items }
    ensures front { OnOk result (parts.new.items ≡ take from parts.old.items) }
    ensures room { OnOk result (vec_len parts.new < vec_capacity parts.new) }
    ensures tail { IfOk result (λ tail. tail.items ≡ drop from parts.old.items) }
{
    let len = parts.len();
    parts.rotate_left(from);
    let mut tail = parts.split_off(len - from)?;
    mem::swap(parts, &mut tail);
    parts.reserve(1)?;
    tail.shrink_to_fit();
    Ok(tail)
}

/// Whether kinds that no BUILD file has may be among parts, where another node is of this kind.
fn may_be_newer(newer: bool, kind: Kind) -> bool
    ensures before { result ≡ false → newer ≡ false }
    ensures kind { result ≡ false → kind_number kind < 35 }
{
    newer || kind.is_newer()
}

/// Whether a part is a name.
fn is_name(part: &Part) -> bool
    ensures { result ≡ has_token name part.now }
{
    match part {
        Part::Leaf(leaf) => leaf.class == Class::Name,
        Part::Node(_) => false,
    }
}
