//! The SHA-256 of the texts of a course: of the first ones, as they were taken, or of all, taken of a copy that goes through them.
ghost use Rattle.std.specs.Prelude.{◌≡◌, IfOk, IsTrue, OnOk, map};
ghost use Rattle.bz_journal.specs.Clauses.{AreFirstDigests, listing, present, session_history, sha256};

use crate::course::Course;
use crate::digest::digest_of;
use bz_edit::laws::texts_kept;
use bz_edit::{copy_steps, go_back, go_forward};
use bz_items::{Memory, Text};
use sha2::{Digest, Sha256};
use std::alloc::Global;

/// Whether digests of the first texts of a course are those of all.
fn are_all(digests: &[[u8; 32]], course: &Course) -> bool
    requires { AreFirstDigests digests.now (session_history course.now).texts }
    ensures { IsTrue result → digests.now ≡ map sha256 (session_history course.now).texts }
{
    let count = course.steps() as usize + 1;
    digests.len() == count
}

/// The texts of a course, one line each, by the digests that are there. The error: a growth was refused.
pub(crate) fn listed_by(
    alloc: Global,
    course: &Course,
    digests: &[[u8; 32]],
) -> Result<Text, Memory>
    requires { AreFirstDigests digests.now (session_history course.now).texts }
    ensures { IfOk result (λ text. text ≡ listing (session_history course.now)) }
{
    if are_all(digests, course) {
        return course.listed(alloc, digests);
    }
    course.listed(alloc, course.hashed()?.as_slice())
}

/// Adds the digest of the present text of a course to those of the texts before it, where that text and all of these are there and memory
/// allows.
pub(crate) fn learn(course: &Course, digests: &mut Vec<[u8; 32]>, text: &Result<Vec<u8>, Memory>)
    requires first { AreFirstDigests digests.old.items (session_history course.now).texts }
    requires text { IfOk text.now (λ own. own.items ≡ present (session_history course.now)) }
    ensures { AreFirstDigests digests.new.items (session_history course.now).texts }
{
    let Ok(text) = text else {
        return;
    };
    let _tree = course.present();
    let cursor = course.cursor() as usize;
    if digests.len() != cursor || digests.reserve(1).is_err() {
        return;
    }
    digests.push(Sha256::digest(text.as_slice())).unwrap();
}

/// Makes digests of the first texts of a course those of all. The error: memory was refused; they stay then.
pub(crate) fn complete(course: &Course, digests: &mut Vec<[u8; 32]>) -> Result<(), Memory>
    requires { AreFirstDigests digests.old.items (session_history course.now).texts }
    ensures first { AreFirstDigests digests.new.items (session_history course.now).texts }
    ensures all { OnOk result (digests.new.items ≡ map sha256 (session_history course.now).texts) }
{
    if are_all(digests.as_slice(), course) {
        return Ok(());
    }
    *digests = course.hashed()?;
    Ok(())
}

impl Course {
    /// The digests of all texts, taken of a copy that goes through them from the first one on. The error: memory was refused.
    pub(crate) fn hashed(&self) -> Result<Vec<[u8; 32]>, Memory>
        ensures { IfOk result (λ digests. digests.items ≡ map sha256 (session_history self.now).texts) }
    {
        texts_kept();
        let alloc = self.alloc();
        let mut tree = self.tree.copy()?;
        let mut steps = copy_steps(alloc, self.steps.as_slice())?.into_vec();
        let steps = steps.as_mut_slice();
        let cursor = self.cursor as usize;
        go_back(&mut tree, steps, cursor, cursor)?;
        let mut digests = Vec::from_slice(alloc, &[digest_of(&tree)])?;
        for at in 0..steps.len() {
            go_forward(&mut tree, steps, at, 1)?;
            digests.push(digest_of(&tree))?;
        }
        Ok(digests)
    }
}
