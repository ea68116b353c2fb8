//! A session: the history of one file, with the SHA-256 of each text.
ghost use Rattle.std.specs.Prelude.{◌≡◌, ◌≤◌, ◌<◌, ◌+◌, ◌++◌, List, map, slice_get, option_map, vec_len, vec_capacity, Err, IfOk, OnOk, OnErr, IsOk, [], length, Result};
ghost use Rattle.bz_journal.specs.Clauses.{HasActed, HoldsState, IsSmall, IsWrittenSince, KeepsPair, MakesText, OpensText, Refusal, Reply, Runs, action_in, limit, listing, present, session_history, session_trail, sha256, spell_node};
ghost use Rattle.bz_edit.specs.Steps.{weight as weight_held};

use crate::action::{Action, Reply, is_changed};
use crate::course::{Course, MOST_NOTE, begin, text_of};
use crate::digest::digest_of;
use crate::doing::{Seen, act};
use crate::keeping::{KeepFault, Written, persist};
use crate::listing::listed;
use bz_edit::laws::{small_steps, steps_lead, texts_kept};
use bz_edit::{Step, put_after, weight};
use bz_files::Files;
use bz_grammar::laws::one_reading;
use bz_grammar::{ReadFault, Tree};
use bz_items::{Memory, Text};
use bz_journal_format::KeptLines;
use bz_value::Refusal;
use core::mem::replace_with;
use sha2::{Digest, Sha256};
use std::alloc::Global;
use std::marker::Model;

/// The texts of a BUILD file of a package, one after another, and the place in them: the tree of the present text, between
/// neighbours the step that leads from the one tree to the other, and the SHA-256 of each text. Contracts speak of its history.
#[derive(Drop)]
pub struct Session {
    /// The tree of the present text.
    pub tree: Tree,
    /// The steps between the texts, in their order: those before the present text lead back, the others forward.
    pub steps: Vec<Step>,
    /// The SHA-256 of each text.
    pub digests: Vec<[u8; 32]>,
    /// The note of each step.
    pub notes: Vec<Text>,
    /// The path of the file's package.
    pub package: String,
    /// The number of the present text, from 0.
    pub cursor: u32,
    /// The number of the one that was present before it.
    pub before: u32,
}

impl Model for Session {
    ghost use Rattle.std.specs.Prelude.{◌≡◌, map, string_bytes};
    ghost use Rattle.sha2.specs.Sha256.{sha256};
    ghost use Rattle.bz_grammar.specs.contracts.tree.Tree as t;
    ghost use Rattle.bz_edit.specs.contracts.step.Step as s;
    ghost use Rattle.bz_edit.specs.Shown.{texts_of};
    ghost use Rattle.bz_edit.specs.Trails.{trail_at};
    ghost use Rattle.bz_journal.specs.State.{SessionState, IsSession, state_code};

    ghost Value = { SessionState };

    ghost coded = { state_code t.the_row.coded s.the_row.coded };

    ghost view = { λ s. record { tree = s.tree; steps = s.steps.items; notes = s.notes.items; «package» = string_bytes s.«package»; cursor = s.cursor; before = s.before } };

    ghost invariant = { λ s. IsSession (record { tree = s.tree; steps = s.steps.items; notes = s.notes.items; «package» = string_bytes s.«package»; cursor = s.cursor; before = s.before })
        × (s.digests.items ≡ map sha256 (texts_of (trail_at s.tree s.steps.items s.cursor))) };
}

/// A session of a course, of whose texts these are the digests.
fn session_of(course: Course, digests: Vec<[u8; 32]>) -> Session
    requires { digests.items ≡ map sha256 (session_history course).texts }
    ensures { result ≡ course }
{
    Session {
        tree: course.tree,
        steps: course.steps,
        digests,
        notes: course.notes,
        package: course.package,
        cursor: course.cursor,
        before: course.before,
    }
}

impl Session {
    /// A session at the first text of a file of the package with this path, which has at most 65,536 bytes. Errors: those
    /// of reading the text: `TooLarge` past `LENGTH_LIMIT`; `NotUtf8` with the length of the longest beginning that is
    /// UTF-8; a fault with line and column where the text reads as no tree; `Memory` where a growth was refused.
    pub fn open(alloc: Global, package: &str, text: &[u8]) -> Result<Session, ReadFault>
        requires { length «package».now ≤ 65536 }
        ensures { OpensText «package».now text.now result }
    {
        let course = begin(alloc, package, text)?;
        let digests = Vec::from_slice(alloc, &[Sha256::digest(text)])?;
        Ok(session_of(course, digests))
    }

    /// The path of the file's package.
    pub fn package(&self) -> &str
        ensures { result.now ≡ (session_history self.now).«package» }
    {
        self.package.as_str()
    }

    /// The SHA-256 of each text, in the order in which these came.
    pub fn digests(&self) -> &[[u8; 32]]
        ensures { result.now ≡ map sha256 (session_history self.now).texts }
    {
        self.digests.as_slice()
    }

    /// The SHA-256 of text i; `None` past the last text.
    pub fn digest(&self, i: u32) -> Option<[u8; 32]>
        ensures { result ≡ option_map sha256 (slice_get (session_history self.now).texts i) }
    {
        bz_items::at(self.digests(), i as usize).copied()
    }

    /// The number of the present text; the first is 0.
    pub fn cursor(&self) -> u32
        ensures { result ≡ (session_history self.now).cursor }
    {
        self.cursor
    }

    /// What a session keeps. Nothing is done.
    pub(crate) fn holds(&self)
        ensures { HoldsState self.now }
    {
        one_reading();
        texts_kept();
        steps_lead();
        small_steps();
        let _tree = &self.tree;
    }

    /// How many steps there are between the first text and the last.
    pub fn steps(&self) -> u32
        ensures { result + 1 ≡ length (session_history self.now).texts }
    {
        self.holds();
        self.steps.len() as u32
    }

    /// The bytes of all gaps and tokens that the step between texts i and i + 1 holds; `None` past the last step.
    pub fn weight(&self, i: u32) -> Option<u64>
        ensures { result ≡ option_map weight_held (slice_get self.now.steps i) }
    {
        bz_items::at(self.steps.as_slice(), i as usize).map(|step| weight(step))
    }

    /// The tree of the present text.
    pub(crate) fn present(&self) -> &Tree
        ensures tree { result.now ≡ self.now.tree }
        ensures text { spell_node result.now ≡ present (session_history self.now) }
        ensures within { (session_history self.now).cursor < length (session_history self.now).texts }
    {
        self.holds();
        &self.tree
    }

    /// Appends the present text to `out`. The error: a growth was refused; `out` is then as before.
    pub fn text_into(&self, out: &mut Vec<u8>) -> Result<(), Memory>
        ensures ok { OnOk result (out.new.items ≡ out.old.items ++ present (session_history self.now)) }
        ensures err { OnErr result (out.new.items ≡ out.old.items) }
    {
        self.present().spell_into(out)
    }

    /// The texts, one line each: `*` at the present one or a space, a space, its number from 0, a space, its SHA-256 in 64 digits, and
    /// after a space the note of the step to it where there is one, newlines as `\n`. The error: a growth was refused.
    pub fn listing(&self, alloc: Global) -> Result<Text, Memory>
        ensures { IfOk result (λ text. text ≡ listing (session_history self.now)) }
    {
        self.holds();
        let notes = self.notes.as_slice();
        listed(alloc, self.cursor as usize, notes, self.digests())
    }

    /// Does an action with an empty note, as `act_noted` does.
    pub fn act(&mut self, action: &Action<'_>) -> Result<Reply, Refusal>
        ensures { HasActed (action_in action.now) [] self.old result self.new }
    {
        self.act_noted(action, "")
    }

    /// Does an action, with a note of at most 65,536 bytes for the step that it makes. At an error the history is as before. Errors:
    /// `NoteTooLong` before all others; those of the command; `TooLarge` and `TooDeep` where the new text would be past a limit; `TooFar`
    /// where there aren't this many steps; `Full` where a command or formatting would change the present text, which is 100,000 steps from
    /// the first; `Memory`: a growth was refused, never at undo and redo by no step or by steps whose edits hold as many parts as they
    /// cover. After formatting the present text is formatted: to format it once more leaves it as it is.
    pub fn act_noted(&mut self, action: &Action<'_>, note: &str) -> Result<Reply, Refusal>
        ensures { HasActed (action_in action.now) note.now self.old result self.new }
    {
        replace_with(self, (action, note), acted)
    }

    /// Does actions in order, and appends a reply for each to `replies`; a refused action doesn't stop the run.
    /// Room for all replies is taken first, unless it is there. The error: it was refused; no action has then run.
    pub fn run(
        &mut self,
        actions: &[Action<'_>],
        replies: &mut Vec<Result<Reply, Refusal>>,
    ) -> Result<(), Memory>
        ensures ok { OnOk result ((added : List (Result Reply Refusal)) × (replies.new.items ≡ replies.old.items ++ added)
            × Runs (session_history self.old) (map action_in actions.now) added (session_history self.new)) }
        ensures err { OnErr result ((replies.new.items ≡ replies.old.items) × (session_history self.new ≡ session_history self.old)) }
        ensures unmoved { OnErr result (self.new ≡ self.old) }
        ensures room { vec_len replies.old + length actions.now ≤ vec_capacity replies.old → IsOk result }
        ensures small { IsSmall (session_trail self.old) → IsSmall (session_trail self.new) }
    {
        replies.reserve(actions.len())?;
        for action in actions {
            let reply = self.act(action);
            replies.push(reply).unwrap();
        }
        Ok(())
    }

    /// Does an action with an empty note and keeps it, as `keep_noted` does.
    pub fn keep<F: Files>(
        &mut self,
        action: &Action<'_>,
        file: &str,
        files: &mut F,
    ) -> Result<Reply, KeepFault>
        ensures { KeepsPair F.Files (action_in action.now) [] file.now self.old result self.new files.old files.new }
    {
        self.keep_noted(action, "", file, files)
    }

    /// Does an action with a note, and where the present text is another one then, replaces `FILE.journal` by the session's journal
    /// and then the file by its text. The file is read again right before, and both are left where it doesn't hold the text
    /// that was present. Errors: `Refused`: those of `act_noted`, nothing was done; `Pair`: the action is done in the session,
    /// and `Memory`: a growth was refused, `Changed`: the file holds another text or isn't there, `Open`: it could not be
    /// read, and at these nothing was replaced at any moment; `Write`: one of the two could not be replaced.
    pub fn keep_noted<F: Files>(
        &mut self,
        action: &Action<'_>,
        note: &str,
        file: &str,
        files: &mut F,
    ) -> Result<Reply, KeepFault>
        ensures { KeepsPair F.Files (action_in action.now) note.now file.now self.old result self.new files.old files.new }
    {
        let standing = text_of(self.present());
        let from = self.cursor();
        let answer = self.act_noted(action, note);
        let written = self.written_since(from);
        let alloc = *self.steps.allocator();
        persist(alloc, answer, standing, &written, file, files)
    }

    /// What is written of the session, where its cursor is another one than this. The error: a growth was refused.
    fn written_since(&self, from: u32) -> Result<Option<Written>, Memory>
        ensures { IsWrittenSince self.now from result }
    {
        if self.cursor() == from {
            return Ok(None);
        }
        let text = text_of(self.present())?;
        let mut journal = Vec::new(*self.steps.allocator());
        self.save_into(&mut journal)?;
        Ok(Some(Written { journal, text }))
    }

    /// The course of a session, and the digests of its texts.
    pub(crate) fn apart(self) -> (Course, Vec<[u8; 32]>)
        ensures course { result.0 ≡ self }
        ensures digests { result.1.items ≡ map sha256 (session_history self).texts }
    {
        let kept = KeptLines::new(*self.steps.allocator());
        let course = Course {
            tree: self.tree,
            steps: self.steps,
            notes: self.notes,
            package: self.package,
            cursor: self.cursor,
            before: self.before,
            kept,
        };
        (course, self.digests)
    }
}

/// Does an action with a note in a session, and gives that back.
fn acted(session: Session, request: (&Action<'_>, &str)) -> (Session, Result<Reply, Refusal>)
    ensures { HasActed (action_in request.entry.0.now) request.entry.1.now session result.1 result.0 }
{
    let (action, note) = request;
    let (mut course, mut digests) = session.apart();
    let answer = act_hashed(&mut course, &mut digests, action, note);
    (session_of(course, digests), answer)
}

/// Does an action with a note in a course, of whose texts these are the digests: that of a new text is taken.
fn act_hashed(
    course: &mut Course,
    digests: &mut Vec<[u8; 32]>,
    action: &Action<'_>,
    note: &str,
) -> Result<Reply, Refusal>
    requires { digests.old.items ≡ map sha256 (session_history course.old).texts }
    ensures acted { HasActed (action_in action.now) note.now course.old result course.new }
    ensures digests { digests.new.items ≡ map sha256 (session_history course.new).texts }
{
    let _before = course.present();
    if note.len() > MOST_NOTE {
        return Err(Refusal::NoteTooLong);
    }
    make_room(digests, action)?;
    let answer = act(course, &mut Seen::none(), action, note);
    if !is_changed(&answer) {
        return answer;
    }
    let cursor = course.cursor() as usize;
    put_after(digests, cursor, digest_of(course.present()));
    answer
}

/// Takes room for the digest of the text that an action may make. The error: it was refused.
fn make_room(digests: &mut Vec<[u8; 32]>, action: &Action<'_>) -> Result<(), Memory>
    ensures kept { digests.new.items ≡ digests.old.items }
    ensures room { OnOk result (MakesText (action_in action.now) → vec_len digests.new < vec_capacity digests.new) }
    ensures err { OnErr result (MakesText (action_in action.now)) }
{
    match action {
        Action::Do(..) | Action::Format => digests.reserve(1),
        Action::Undo(_) | Action::Redo(_) => Ok(()),
    }
}
