//! The texts of strings: double quote marks, and labels without a repeated name.
ghost use Rattle.std.specs.Prelude.{◌≡◌, ◌++◌, IfOk, OnOk};
ghost use Rattle.bz_passes.specs.Passes.{with_double, shorter_string};

use bz_items::{Memory, Text};
use bz_label::bytes::unrepeated;
use bz_rule::{body, inside, marks_of};
use std::alloc::Global;

/// A text between equal marks. The error: memory was refused.
fn in_marks(alloc: Global, marks: &[u8], text: &[u8]) -> Result<Text, Memory>
    ensures { IfOk result (λ string. string ≡ marks.now ++ (text.now ++ marks.now)) }
{
    let mut string = Vec::new(alloc);
    string.extend_from_slice(marks)?;
    string.extend_from_slice(text)?;
    string.extend_from_slice(marks)?;
    Ok(Text::from_vec(string))
}

/// Gives a string double quote marks in place of single ones, where it has no prefix and holds neither a double mark nor a
/// backslash; any other text stays, and takes no memory. The error: memory was refused; the text is then as it was.
#[tactic(auto, using(crate::proofs::Strung::marks_taken))]
pub(crate) fn double_quoted(alloc: Global, text: &mut Text) -> Result<(), Memory>
    ensures { OnOk result (text.new ≡ with_double text.old) }
{
    let old = text.as_slice();
    if matches!(old, [b'\'', ..]) && !(old.contains(&b'"') || old.contains(&b'\\')) {
        let count = marks_of(old);
        *text = in_marks(alloc, &b"\"\"\""[..count], inside(count, old))?;
    }
    Ok(())
}

/// Takes a repeated name off the label in a plain string; any other text stays, and takes no memory. The error: memory was
/// refused; the text is then as it was.
#[tactic(auto, using(crate::proofs::Strung::kept_body))]
pub(crate) fn shortened(alloc: Global, text: &mut Text) -> Result<(), Memory>
    ensures { OnOk result (text.new ≡ shorter_string text.old) }
{
    let Some(label) = body(text.as_slice()) else {
        return Ok(());
    };
    let short = unrepeated(label);
    if short.len() != label.len() {
        *text = in_marks(alloc, &text.as_slice()[..1], short)?;
    }
    Ok(())
}
