//! The texts of a session, listed.
ghost use Rattle.std.specs.Prelude.{◌≡◌, ◌+◌, ◌++◌, IfOk, OnOk, length};
ghost use Rattle.bz_journal.specs.Clauses.{lines_of_texts, noted, text_line};

use bz_items::{Memory, Text};
use bz_journal_format::{hex_digits, push_number};
use std::alloc::Global;

/// Appends a note after a space, where there is one, its newlines as `\n`. The error: a growth was refused.
fn put_note(out: &mut Vec<u8>, note: &[u8]) -> Result<(), Memory>
    ensures { OnOk result (out.new.items ≡ out.old.items ++ noted note.now) }
{
    if note.is_empty() {
        return Ok(());
    }
    out.push(b' ')?;
    for byte in note {
        match byte {
            b'\n' => out.extend_from_slice(b"\\n")?,
            other => out.push(*other)?,
        }
    }
    Ok(())
}

/// Appends the line of a text. The error: a growth was refused.
fn put_line(
    out: &mut Vec<u8>,
    is_present: bool,
    number: usize,
    digest: &[u8; 32],
    note: &[u8],
) -> Result<(), Memory>
    ensures { OnOk result (out.new.items ≡ out.old.items ++ text_line is_present number digest.now note.now) }
{
    let mark = if is_present { "* " } else { "  " };
    out.extend_from_slice(mark.as_bytes())?;
    push_number(out, number, b' ')?;
    out.extend_from_slice(hex_digits(digest).as_slice())?;
    put_note(out, note)?;
    out.push(b'\n')?;
    Ok(())
}

/// The listing of the texts that have these digests, with the notes of the steps between them. The error: a growth was refused.
pub(crate) fn listed(
    alloc: Global,
    cursor: usize,
    notes: &[Text],
    digests: &[[u8; 32]],
) -> Result<Text, Memory>
    requires { length digests.now ≡ length notes.now + 1 }
    ensures { IfOk result (λ text. text ≡ lines_of_texts cursor notes.now digests.now) }
{
    let mut out = Vec::new(alloc);
    let Some((first, rest)) = digests.split_first() else {
        return Ok(Text::from_vec(out));
    };
    put_line(&mut out, cursor == 0, 0, first, b"")?;
    for i in 0..notes.len() {
        let number = i + 1;
        let note = notes[i].as_slice();
        put_line(&mut out, number == cursor, number, &rest[i], note)?;
    }
    Ok(Text::from_vec(out))
}
