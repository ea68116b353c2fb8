//! Writing a record: each function appends what it is named for. Where a growth is refused a part of it may be there; `record_bytes`
//! writes into a list of its own.
ghost use Rattle.std.specs.Prelude.{◌≡◌, ◌++◌, ◌≤◌, length, take, IfOk, OnOk};
ghost use Rattle.std.specs.List.{flat_map};
ghost use Rattle.bz_journal_format.specs.Contents.{entries_of, entry_of, record_in};
ghost use Rattle.bz_journal_format.specs.FirstLines.{AreAllLines, AreFirstLines};
ghost use Rattle.bz_journal_format.specs.Texts.{digest_text, edit_text, entry_text, leaf_text, note_line, part_text, record_text, spaced_number};

use crate::content::{Content, Version};
use crate::fields::version_line;
use crate::kept::KeptLines;
use crate::{hex_digits, push_counted, push_number};
use bz_edit::Edit;
use bz_grammar::{Leaf, Part};
use bz_items::Memory;
use sha2::{Digest, Sha256};
use std::alloc::Global;
use std::mem;

fn push_leaf(out: &mut Vec<u8>, leaf: &Leaf) -> Result<(), Memory>
    ensures { OnOk result (out.new.items ≡ out.old.items ++ leaf_text leaf.now) }
{
    out.extend_from_slice(b"leaf ")?;
    push_number(out, leaf.class.number() as usize, b' ')?;
    push_number(out, leaf.gap.len(), b' ')?;
    push_number(out, leaf.token.len(), b'\n')?;
    out.extend_from_slice(leaf.gap.as_slice())?;
    out.extend_from_slice(leaf.token.as_slice())?;
    out.push(b'\n')?;
    Ok(())
}

#[cycle(push)]
#[tactic(auto, using(crate::proofs::Held::text_Node))]
fn push_part(out: &mut Vec<u8>, part: &Part) -> Result<(), Memory>
    ensures { OnOk result (out.new.items ≡ out.old.items ++ part_text part.now) }
{
    match part {
        Part::Leaf(leaf) => push_leaf(out, leaf),
        Part::Node(node) => {
            out.extend_from_slice(b"node ")?;
            push_number(out, node.kind.number() as usize, b' ')?;
            push_number(out, node.parts.len(), b'\n')?;
            push_parts(out, node.parts.as_slice())
        }
    }
}

#[cycle(push)]
fn push_parts(out: &mut Vec<u8>, parts: &[Part]) -> Result<(), Memory>
    ensures { OnOk result (out.new.items ≡ out.old.items ++ flat_map part_text parts.now) }
{
    'parts: for part in parts {
        push_part(out, part)?;
    }
    Ok(())
}

fn push_path(out: &mut Vec<u8>, path: &[u32]) -> Result<(), Memory>
    ensures { OnOk result (out.new.items ≡ out.old.items ++ flat_map spaced_number path.now) }
{
    'path: for entry in path {
        push_number(out, *entry as usize, b' ')?;
    }
    Ok(())
}

fn push_edit(out: &mut Vec<u8>, edit: &Edit) -> Result<(), Memory>
    ensures { OnOk result (out.new.items ≡ out.old.items ++ edit_text edit.now) }
{
    out.extend_from_slice(b"edit ")?;
    push_number(out, edit.path.len(), b' ')?;
    push_path(out, edit.path.as_slice())?;
    push_number(out, edit.at as usize, b' ')?;
    push_number(out, edit.count as usize, b' ')?;
    push_number(out, edit.held.len(), b'\n')?;
    push_parts(out, edit.held.as_slice())
}

/// The line of a note, where the version has one.
fn push_note(out: &mut Vec<u8>, version: Version, note: &[u8]) -> Result<(), Memory>
    ensures { OnOk result (out.new.items ≡ out.old.items ++ note_line version note.now) }
{
    match version {
        Version::One => Ok(()),
        Version::Two => {
            out.extend_from_slice(b"note ")?;
            push_counted(out, note, b' ')?;
            out.push(b'\n')?;
            Ok(())
        }
    }
}

fn push_entry(
    out: &mut Vec<u8>,
    version: Version,
    note: &[u8],
    edits: &[Edit],
) -> Result<(), Memory>
    ensures { OnOk result (out.new.items ≡ out.old.items ++ entry_text version (entry_of note.now edits.now)) }
{
    out.extend_from_slice(b"step ")?;
    push_number(out, edits.len(), b'\n')?;
    push_note(out, version, note)?;
    'edits: for edit in edits {
        push_edit(out, edit)?;
    }
    Ok(())
}

fn push_digest(out: &mut Vec<u8>, digest: &[u8; 32]) -> Result<(), Memory>
    ensures { OnOk result (out.new.items ≡ out.old.items ++ digest_text digest.now) }
{
    out.extend_from_slice(b"digest ")?;
    out.extend_from_slice(&hex_digits(digest))?;
    out.push(b'\n')?;
    Ok(())
}

/// Appends the lines of the digests after the first ones. The error: a growth was refused.
pub(crate) fn push_digests(
    lines: &mut Vec<u8>,
    first: usize,
    digests: &[[u8; 32]],
) -> Result<(), Memory>
    requires few { first ≤ length digests.now }
    requires lines { lines.old.items ≡ flat_map digest_text (take first digests.now) }
    ensures { OnOk result (lines.new.items ≡ flat_map digest_text digests.now) }
{
    for at in first..digests.len() {
        push_digest(lines, &digests[at])?;
    }
    Ok(())
}

/// The same of steps, each with its note.
#[tactic(auto, using(crate::proofs::Beginnings::entries_begun))]
pub(crate) fn push_entries(
    lines: &mut Vec<u8>,
    version: Version,
    first: usize,
    content: &Content,
) -> Result<(), Memory>
    requires noted { length content.now.notes.now ≡ length content.now.steps.now }
    requires few { first ≤ length content.now.steps.now }
    requires lines { lines.old.items ≡ flat_map (entry_text version) (entries_of (take first content.now.notes.now) (take first content.now.steps.now)) }
    ensures { OnOk result (lines.new.items ≡ flat_map (entry_text version) (entries_of content.now.notes.now content.now.steps.now)) }
{
    for at in first..content.steps.len() {
        let step = &content.steps[at];
        push_entry(
            lines,
            version,
            content.notes[at].as_slice(),
            step.edits.as_slice(),
        )?;
    }
    Ok(())
}

/// The bytes of a record, by the lines of all digests and steps. The error: a growth was refused.
fn joined_lines(
    alloc: Global,
    version: Version,
    content: &Content,
    lines: &KeptLines,
) -> Result<Vec<u8>, Memory>
    requires noted { length content.now.notes.now ≡ length content.now.steps.now }
    requires lines { AreAllLines version content.now.digests.now content.now.notes.now content.now.steps.now lines.now }
    ensures { IfOk result (λ bytes. bytes.items ≡ record_text version (record_in content.now)) }
{
    let mut bytes = Vec::new(alloc);
    bytes.extend_from_slice(version_line(version))?;
    bytes.extend_from_slice(b"package ")?;
    push_counted(&mut bytes, content.package, b' ')?;
    bytes.extend_from_slice(b"\ntext ")?;
    push_counted(&mut bytes, content.text, b'\n')?;
    bytes.extend_from_slice(b"\nsteps ")?;
    push_number(&mut bytes, content.steps.len(), b' ')?;
    bytes.extend_from_slice(b"now ")?;
    push_number(&mut bytes, content.cursor as usize, b' ')?;
    bytes.extend_from_slice(b"before ")?;
    push_number(&mut bytes, content.before as usize, b'\n')?;
    bytes.extend_from_slice(lines.digest_lines.as_slice())?;
    bytes.extend_from_slice(lines.step_lines.as_slice())?;
    let digits = hex_digits(&Sha256::digest(bytes.as_slice()));
    bytes.extend_from_slice(b"end ")?;
    bytes.extend_from_slice(&digits)?;
    bytes.push(b'\n')?;
    Ok(bytes)
}

/// The bytes of a record, by the lines that are kept of one that begins with the same digests and steps; all of its own are kept then.
/// Whether it is one that can be read again is no question here. The error: a growth was refused, and no lines are kept.
pub fn record_bytes(
    alloc: Global,
    version: Version,
    content: &Content,
    kept: &mut KeptLines,
) -> Result<Vec<u8>, Memory>
    requires noted { length content.now.notes.now ≡ length content.now.steps.now }
    requires first { AreFirstLines version content.now.digests.now content.now.notes.now content.now.steps.now kept.old }
    ensures ok { IfOk result (λ bytes. bytes.items ≡ record_text version (record_in content.now)) }
    ensures first { AreFirstLines version content.now.digests.now content.now.notes.now content.now.steps.now kept.new }
{
    let lines = mem::replace(kept, KeptLines::new(alloc)).with_all(version, content)?;
    let bytes = joined_lines(alloc, version, content, &lines)?;
    *kept = lines;
    Ok(bytes)
}
