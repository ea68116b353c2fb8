//! The course of a file: its texts as one tree and the steps between them, and what actions make of it.
ghost use Rattle.std.specs.Prelude.{◌≡◌, ◌≤◌, ◌<◌, ◌+◌, ◌↔◌, true, false, take, Err, None, Ok, Result, ℕ, List, IfOk, OnOk, OnErr, IsOk, IsTrue, length, string_bytes};
ghost use Rattle.bz_journal.specs.Clauses.{AreThere, EndsAt, HoldsState, IsAtOnce, IsBuild, IsSmall, IsTree, MakesOrWants, OpensText, Redo, Refusal, Undo, action_in, after_text, are_even, changed, most_steps, note_limit, opened, present, session_history, session_trail, spell_node, steps_back, steps_forward, unchanged, with_windows};

use crate::action::{Action, Reply};
use crate::staying::stay;
use bz_build_format::reads_back;
use bz_edit::laws::{small_steps, starts_small, steps_lead, texts_kept};
use bz_edit::{PartWindow, Step, go_back, go_forward, put_after, take_up};
use bz_grammar::laws::one_reading;
use bz_grammar::{ReadFault, Tree};
use bz_items::{Items, Memory, Text};
use bz_journal_format::KeptLines;
use bz_tree::parse;
use bz_value::Refusal;
use std::alloc::Global;
use std::marker::Model;

const MOST_STEPS: u32 = 100_000;

/// The most bytes of a note.
pub(crate) const MOST_NOTE: usize = 65_536;

/// The fields of a `Session`, but for the digests, and the lines that are kept for its next journal: none before the first one. Contracts
/// speak of its history.
#[derive(Drop)]
pub(crate) struct Course {
    pub(crate) tree: Tree,
    pub(crate) steps: Vec<Step>,
    pub(crate) notes: Vec<Text>,
    pub(crate) package: String,
    pub(crate) cursor: u32,
    pub(crate) before: u32,
    pub(crate) kept: KeptLines,
}

impl Model for Course {
    ghost use Rattle.std.specs.Prelude.{string_bytes};
    ghost use Rattle.bz_grammar.specs.contracts.tree.Tree as t;
    ghost use Rattle.bz_edit.specs.contracts.step.Step as s;
    ghost use Rattle.bz_journal.specs.State.{SessionState, IsSession, state_code};
    ghost use Rattle.bz_journal.specs.private.Kept.{AreKeptOf};

    ghost Value = { SessionState };

    ghost coded = { state_code t.the_row.coded s.the_row.coded };

    ghost view = { λ course. record { tree = course.tree; steps = course.steps.items; notes = course.notes.items; «package» = string_bytes course.«package»; cursor = course.cursor; before = course.before } };

    ghost invariant = { λ course. IsSession (record { tree = course.tree; steps = course.steps.items; notes = course.notes.items; «package» = string_bytes course.«package»; cursor = course.cursor; before = course.before })
        × AreKeptOf (record { tree = course.tree; steps = course.steps.items; notes = course.notes.items; «package» = string_bytes course.«package»; cursor = course.cursor; before = course.before }) course.kept };
}

/// The course of a file of the package with this path, at its first text, as `Session::open` says. The errors are those.
pub(crate) fn begin(alloc: Global, package: &str, text: &[u8]) -> Result<Course, ReadFault>
    requires { length «package».now ≤ 65536 }
    ensures { OpensText «package».now text.now result }
{
    starts_small();
    let tree = match parse(alloc, text) {
        Ok(tree) => tree,
        Err(fault) => return Err(fault),
    };
    let _root = &tree.root;
    let package = String::from_str(alloc, package)?;
    Ok(Course {
        tree,
        steps: Vec::new(alloc),
        notes: Vec::new(alloc),
        package,
        cursor: 0,
        before: 0,
        kept: KeptLines::new(alloc),
    })
}

/// The text of a tree. The error: a growth was refused.
pub(crate) fn text_of(tree: &Tree) -> Result<Vec<u8>, Memory>
    ensures { IfOk result (λ text. text.items ≡ spell_node tree.now) }
{
    let mut text = Vec::new(tree.root.parts.alloc());
    tree.spell_into(&mut text)?;
    Ok(text)
}

/// What an action with a note answers at this number of a history, with `ahead` steps after it, where nothing is done for it: too long a note
/// is refused before all else. None: it takes steps or makes a text.
pub(crate) fn at_once(
    action: &Action<'_>,
    note: &str,
    cursor: u32,
    ahead: u32,
) -> Option<Result<Reply, Refusal>>
    ensures { IsAtOnce (action_in action.now) note.now cursor ahead result }
{
    if note.len() > MOST_NOTE {
        return Some(Err(Refusal::NoteTooLong));
    }
    match *action {
        Action::Undo(0) | Action::Redo(0) => Some(Ok(Reply::Moved)),
        Action::Undo(n) if n > cursor => Some(Err(Refusal::TooFar)),
        Action::Redo(n) if n > ahead => Some(Err(Refusal::TooFar)),
        _ => None,
    }
}

impl Course {
    pub(crate) fn alloc(&self) -> Global {
        *self.steps.allocator()
    }

    /// The number of the present text; the first is 0.
    pub(crate) fn cursor(&self) -> u32
        ensures { result ≡ (session_history self.now).cursor }
    {
        self.cursor // from 0
    }

    /// What a course keeps. Nothing is done.
    pub(crate) fn holds(&self)
        ensures { HoldsState self.now }
    {
        one_reading();
        texts_kept();
        steps_lead();
        small_steps();
        let _tree = &self.tree;
    }

    /// How many steps there are between the first text and the last.
    pub(crate) fn steps(&self) -> u32
        ensures steps { result ≡ length self.now.steps }
        ensures texts { result + 1 ≡ length (session_history self.now).texts }
    {
        self.holds();
        self.steps.len() as u32
    }

    /// The tree of the present text.
    pub(crate) fn present(&self) -> &Tree
        ensures tree { result.now ≡ self.now.tree }
        ensures build { IsBuild result.now }
        ensures text { spell_node result.now ≡ present (session_history self.now) }
        ensures within { (session_history self.now).cursor < length (session_history self.now).texts }
    {
        self.holds();
        &self.tree
    }

    /// The tree of the one text of a course, and the path of its package.
    pub(crate) fn into_first(self) -> (Tree, String)
        requires { length (session_history self).texts ≡ 1 }
        ensures build { IsBuild result.0 }
        ensures first { session_history self ≡ opened (string_bytes result.1) (spell_node result.0) }
        ensures path { length (string_bytes result.1) ≤ 65536 }
    {
        self.holds();
        (self.tree, self.package)
    }

    /// Goes back by n steps.
    pub(crate) fn undo(&mut self, n: u32) -> Result<Reply, Refusal>
        requires some { 0 < n }
        requires there { n ≤ self.old.cursor }
        ensures makes { (note : List ℕ) → MakesOrWants (Undo n) note (session_history self.old) result (session_history self.new) }
        ensures unmoved { OnErr result (self.new ≡ self.old) }
        ensures even { n ≤ self.old.cursor → are_even (take n (steps_back (session_trail self.old))) ≡ true → IsOk result }
        ensures small { IsSmall (session_trail self.old) → IsSmall (session_trail self.new) }
    {
        texts_kept();
        let cursor = self.cursor;
        self.kept = KeptLines::new(self.alloc()); // the steps turn forward
        let steps = self.steps.as_mut_slice();
        go_back(&mut self.tree, steps, cursor as usize, n as usize)?;
        self.before = cursor;
        self.cursor = cursor - n;
        Ok(Reply::Moved)
    }

    /// Goes forward by n steps.
    pub(crate) fn redo(&mut self, n: u32) -> Result<Reply, Refusal>
        requires some { 0 < n }
        requires there { self.old.cursor + n ≤ length self.old.steps }
        ensures makes { (note : List ℕ) → MakesOrWants (Redo n) note (session_history self.old) result (session_history self.new) }
        ensures unmoved { OnErr result (self.new ≡ self.old) }
        ensures even { self.old.cursor + n ≤ length self.old.steps → are_even (take n (steps_forward (session_trail self.old))) ≡ true → IsOk result }
        ensures small { IsSmall (session_trail self.old) → IsSmall (session_trail self.new) }
    {
        texts_kept();
        let _steps = self.steps();
        let cursor = self.cursor;
        self.kept = KeptLines::new(self.alloc()); // the steps turn back
        let steps = self.steps.as_mut_slice();
        go_forward(&mut self.tree, steps, cursor as usize, n as usize)?;
        self.before = cursor;
        self.cursor = cursor + n;
        Ok(Reply::Moved)
    }

    /// Whether the tree with these windows spells the present text.
    fn is_present(&self, windows: &[PartWindow]) -> bool
        requires next { IsTree (with_windows windows.now self.now.tree) }
        requires there { AreThere windows.now self.now.tree.parts }
        ensures { IsTrue result ↔ (spell_node (with_windows windows.now self.now.tree) ≡ present (session_history self.now)) }
    {
        one_reading();
        let here = self.present();
        reads_back(here);
        stay(windows, here.root.parts.as_slice())
    }

    /// Takes up the tree with these windows, with a note: what it spells is the text after the present one; where it is the same one,
    /// returns what is printed. Errors: `Full`; `Memory`: a growth was refused.
    pub(crate) fn take_up(
        &mut self,
        windows: Items<PartWindow>,
        printed: Option<Text>,
        note: &str,
    ) -> Result<Reply, Refusal>
        requires short { length note.now ≤ note_limit }
        requires next { IsTree (with_windows windows self.old.tree) }
        requires there { AreThere windows self.old.tree.parts }
        ensures { EndsAt (after_text note.now (session_history self.old) (spell_node (with_windows windows self.old.tree)) printed) self.old result self.new }
    {
        texts_kept();
        if self.is_present(windows.as_slice()) {
            return Ok(unchanged(printed));
        }
        let cursor = self.cursor;
        if cursor >= MOST_STEPS {
            return Err(Refusal::Full);
        }
        let note = Text::from_slice(self.alloc(), note.as_bytes())?;
        self.notes.reserve(1)?;
        take_up(&mut self.tree, &mut self.steps, cursor as usize, windows)?;
        self.kept.drop_past(cursor);
        put_after(&mut self.notes, cursor as usize, note);
        self.before = cursor;
        self.cursor = cursor + 1;
        Ok(Reply::Changed)
    }
}

/// What is answered where the text is as it was.
pub(crate) fn unchanged(printed: Option<Text>) -> Reply
    ensures { result ≡ unchanged printed }
{
    match printed {
        None => Reply::Same,
        Some(text) => Reply::Printed(text),
    }
}
