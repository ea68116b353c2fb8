//! The entries of a record: their notes, and their edits, which must be steps.
ghost use Rattle.std.specs.Prelude.{◌≡◌, nat_lt, length, IfOk, MatchOption};
ghost use Rattle.std.specs.List.{AllByRecursion, list_all};
ghost use Rattle.bz_grammar.specs.Spell.{depth_limit};
ghost use Rattle.bz_resume.specs.private.Agreement.{MayLead, edits_of, notes_of};

use bz_edit::{Edit, Step};
use bz_grammar::DEPTH_LIMIT;
use bz_items::{Items, Memory, Text};
use bz_journal_format::RecordedStep;
use std::alloc::Global;

/// Whether no path is as long as a tree is deep.
fn are_short(edits: &[Edit]) -> bool
    ensures { result ≡ list_all (λ e. nat_lt (length e.path) depth_limit) edits.now }
{
    edits
        .iter()
        .all(|edit| edit.path.len() < DEPTH_LIMIT as usize)
}

/// The step of these edits, where they make one. Long paths are refused before their numbers are compared.
fn step_of(edits: Items<Edit>) -> Option<Step>
    ensures { MatchOption result (MayLead edits → ⊥) (λ step. step ≡ edits) }
{
    if !are_short(edits.as_slice()) {
        return None;
    }
    Step::new(edits.into_vec())
}

/// The notes and the steps of entries; `None`: the edits of one of them make no step. The error: a growth was refused.
pub(crate) fn split(
    alloc: Global,
    entries: Vec<RecordedStep>,
) -> Result<Option<(Vec<Text>, Vec<Step>)>, Memory>
    ensures { IfOk result (λ cut. MatchOption cut (AllByRecursion MayLead (edits_of entries.items) → ⊥)
        (λ x. (x.0.items ≡ notes_of entries.items) × (x.1.items ≡ edits_of entries.items))) }
{
    let mut notes = Vec::new(alloc);
    let mut steps = Vec::new(alloc);
    'entries: for entry in entries {
        notes.reserve(1)?;
        steps.reserve(1)?;
        let RecordedStep { note, edits } = entry;
        notes.push_reserved(note);
        let Some(step) = step_of(edits) else {
            return Ok(None);
        };
        steps.push_reserved(step);
    }
    Ok(Some((notes, steps)))
}
