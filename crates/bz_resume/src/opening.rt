//! A record opened: its text read, and its steps tested.
ghost use Rattle.std.specs.Prelude.{◌≡◌, ◌+◌, ◌≤◌, IfOk, MatchOption, length};
ghost use Rattle.bz_resume.specs.Words.{Node, Reads};
ghost use Rattle.bz_resume.specs.private.Agreement.{StepsAgreeAround, IsCounted, IsOpened, NoneAgrees};

use crate::reading::read;
use crate::replaying::{Way, agree, has_digest};
use crate::resumed::Resumed;
use crate::splitting::split;
use bz_edit::Step;
use bz_grammar::Tree;
use bz_items::{Items, Memory};
use bz_journal_format::Record;
use std::alloc::Global;

/// The tree of a text, where the steps before the cursor lead back from it, and the others forward, to texts with these digests. The
/// error: a growth was refused.
fn read_agreed(
    alloc: Global,
    text: &[u8],
    cursor: usize,
    steps: &[Step],
    digests: &[[u8; 32]],
) -> Result<Option<Tree>, Memory>
    requires within { cursor ≤ length steps.now }
    requires counted { length digests.now ≡ length steps.now + 1 }
    ensures { IfOk result (λ found. MatchOption found ((n : Node) → Reads text.now n → StepsAgreeAround n cursor steps.now digests.now → ⊥)
        (λ tree. Reads text.now tree × StepsAgreeAround tree cursor steps.now digests.now)) }
{
    if !has_digest(text, &digests[cursor]) {
        return Ok(None);
    }
    if !agree(alloc, text, Way::Back, &steps[..cursor], &digests[..cursor])? {
        return Ok(None);
    }
    let later = &digests[cursor + 1..];
    if !agree(alloc, text, Way::On, &steps[cursor..], later)? {
        return Ok(None);
    }
    read(alloc, text)
}

/// What a record says, at its cursor; `None`: its steps make no history. The error: a growth was refused.
pub(crate) fn open(alloc: Global, content: Record) -> Result<Option<Resumed>, Memory>
    requires { IsCounted content }
    ensures { IfOk result (λ opened. MatchOption opened (NoneAgrees content) (IsOpened content)) }
{
    let Record {
        package,
        text,
        cursor,
        before: _,
        digests,
        steps,
    } = content;
    let cursor = cursor as usize;
    let Some((notes, steps)) = split(alloc, steps.into_vec())? else {
        return Ok(None);
    };
    let (own, hashes) = (text.as_slice(), digests.as_slice());
    let Some(tree) = read_agreed(alloc, own, cursor, steps.as_slice(), hashes)? else {
        return Ok(None);
    };
    Ok(Some(Resumed {
        package,
        tree,
        steps: Items::from_vec(steps),
        digests,
        notes: Items::from_vec(notes),
        cursor,
    }))
}
