//! The SHA-256 of the text of a tree, taken leaf by leaf: the text itself is not made.
ghost use Rattle.std.specs.Prelude.{◌≡◌, ◌++◌, List, ℕ};
ghost use Rattle.std.specs.List.{flat_map};
ghost use Rattle.bz_journal.specs.Clauses.{Holds256, sha256, spell_node, spell_part};

use bz_grammar::{Part, Tree};
use sha2::{Digest, Sha256};

/// Adds what a part spells to what is hashed.
#[cycle(hash)]
#[tactic(auto, using(crate::proofs::Hashes::node_spelled))]
fn hash_part(part: &Part, hasher: &mut Sha256)
    ensures { (m : List ℕ) → Holds256 hasher.old m → Holds256 hasher.new (m ++ spell_part part.now) }
{
    match part {
        Part::Leaf(leaf) => {
            hasher.update(leaf.gap.as_slice());
            hasher.update(leaf.token.as_slice());
        }
        Part::Node(node) => hash_parts(node.parts.as_slice(), hasher),
    }
}

/// Adds what parts spell to what is hashed.
#[cycle(hash)]
fn hash_parts(parts: &[Part], hasher: &mut Sha256)
    ensures { (m : List ℕ) → Holds256 hasher.old m → Holds256 hasher.new (m ++ flat_map spell_part parts.now) }
{
    for part in parts {
        hash_part(part, hasher);
    }
}

/// The SHA-256 of the text of a tree.
pub(crate) fn digest_of(tree: &Tree) -> [u8; 32]
    ensures { result ≡ sha256 (spell_node tree.now) }
{
    let mut hasher = Sha256::new();
    hash_parts(tree.root.parts.as_slice(), &mut hasher);
    hasher.finalize()
}
