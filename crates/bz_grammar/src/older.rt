//! Whether a part is one of a BUILD file.
ghost use Rattle.std.specs.Prelude.{◌≡◌, IsTrue, false};
ghost use Rattle.std.specs.List.{AllByRecursion};
ghost use Rattle.bz_grammar.specs.Legal.{IsBuildPart};

use crate::tree::Part;

/// Whether the part has a node of a kind that no BUILD file has.
#[cycle(older)]
fn has_newer(part: &Part) -> bool
    ensures found { IsTrue result → IsBuildPart part.now → ⊥ }
    ensures none { (result ≡ false) → IsBuildPart part.now }
{
    match part {
        Part::Leaf(_) => false,
        Part::Node(node) => node.kind.is_newer() || have_newer(node.parts.as_slice()),
    }
}

/// Whether one of the parts has a node of a kind that no BUILD file has, itself or further in.
#[cycle(older)]
pub fn have_newer(parts: &[Part]) -> bool
    ensures found { IsTrue result → AllByRecursion IsBuildPart parts.now → ⊥ }
    ensures none { (result ≡ false) → AllByRecursion IsBuildPart parts.now }
{
    for i in 0..parts.len() {
        if has_newer(&parts[i]) {
            return true;
        }
    }
    false
}
