//! Laws of labels, keys and targets: the contracts of functions that do nothing.
ghost use Rattle.std.specs.Prelude.{◌≡◌, ◌↔◌, IsTrue, List, ℕ, Some};
ghost use Rattle.std.specs.Cmp.{IsTotalOrder};
ghost use Rattle.std.specs.declared.cmp.Ordering.TheVariants.{Equal};
ghost use Rattle.bz_label.specs.Keys.{key_order};
ghost use Rattle.bz_label.specs.Labels.{IsLabel, IsSame, IsShortened, IsUnrepeated};
ghost use Rattle.bz_label.specs.Pieces.{is_joined, IsSlashSeparated};
ghost use Rattle.bz_label.specs.Read.{label_in, is_same, shortened};
ghost use Rattle.bz_label.specs.Targets.{IsTarget};
ghost use Rattle.bz_label.specs.declared.label.Label.{Label};

use crate::label::Label;
use crate::target::Target;

/// Packages and names are non-empty pieces joined by slashes: texts that are not empty, neither begin nor end with a
/// slash and hold no two in a row.
pub fn path_law()
    ensures { (path : List ℕ) → IsTrue (is_joined path) ↔ IsSlashSeparated path }
{}

/// A text is one label at most.
pub fn one_label(current: &str, text: &str, one: &Label, other: &Label)
    requires first { IsLabel current.now text.now one.now }
    requires second { IsLabel current.now text.now other.now }
    ensures { one.now ≡ other.now }
{}

/// Labels as functions: a text is the label that it is read as, texts mean the same just where they are read so, and the
/// shorter form is computed.
pub fn label_functions()
    ensures label { (current text : List ℕ) (label : Label) → IsLabel current text label ↔ (label_in current text ≡ Some label) }
    ensures same { (current one other : List ℕ) → IsTrue (is_same current one other) ↔ IsSame current one other }
    ensures shorter { (current text : List ℕ) → IsShortened current text (shortened current text) }
{}

/// A shorter form means the same as the text, and is shortened no further; the one that looks at no package does so in every package.
/// A text has one of each.
pub fn shorter_forms()
    ensures shortened { (current text short : List ℕ) → IsShortened current text short → IsSame current text short × IsShortened current short short }
    ensures unrepeated { (text short : List ℕ) → IsUnrepeated text short → ((current : List ℕ) → IsSame current text short) × IsUnrepeated short short }
    ensures one_shortened { (current text one other : List ℕ) → IsShortened current text one → IsShortened current text other → one ≡ other }
    ensures one_unrepeated { (text one other : List ℕ) → IsUnrepeated text one → IsUnrepeated text other → one ≡ other }
{}

/// The order of keys is total, and ties only equal texts.
pub fn key_laws()
    ensures total { IsTotalOrder key_order }
    ensures ties { (one other : List ℕ) → key_order one other ≡ Equal → one ≡ other }
{}

/// A text is one target at most.
pub fn one_target(text: &str, one: &Target, other: &Target)
    requires first { IsTarget text.now one.now }
    requires second { IsTarget text.now other.now }
    ensures { one.now ≡ other.now }
{}
