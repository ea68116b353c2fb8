//! What a run has of a file: its texts so far, as a course, or alone once the last command on it is done.
ghost use Rattle.std.specs.Prelude.{◌≡◌, ◌≤◌, ◌++◌, true, IfOk, IfSome, OnErr, OnOk, length, string_bytes};
ghost use Rattle.bz_journal.specs.Clauses.{Action as Requested, Acts, AreFirstDigests, Bytes, Do, HasActed, IsSeenIn, Keeps, KeepsFile, MakesOrWants, SessionState, action_in, listing, note_limit, present, session_history};
ghost use Rattle.bz_journal.specs.Forms.{ActsIn, KeepsIn, OpensPast, past_history};
ghost use Rattle.bz_journal.specs.private.Courses.{HasCourse};

use crate::action::{Action, Reply, is_changed};
use crate::alone::{Alone, of_first, taken_up};
use crate::course::{Course, MOST_NOTE, begin};
use crate::digests::{learn, listed_by};
use crate::doing::{Seen, act};
use crate::keeping::{KeepFault, own_text, persist, written_since};
use crate::meaning::meant;
use crate::session::Session;
use bz_command_syntax::Command;
use bz_files::Files;
use bz_grammar::ReadFault;
use bz_items::{Memory, Text};
use bz_label::Target;
use bz_value::Refusal;
use core::mem;
use std::alloc::Global;
use std::marker::Model;

/// The two forms.
#[derive(Drop)]
pub(crate) enum Form {
    /// The tree of the present text, and the steps between the texts.
    Course(Course),
    /// The first text, and the one that the last command made of it, if any.
    Alone(Alone),
}

/// The texts of a file in a run, and what is kept of the present one from one action to the next. Where the last command on it is said to be
/// the last one, it takes neither a tree of the new text nor the step to it: only the two texts are kept, and whatever is done after all is
/// done in a course that is made of them. Of a text that was opened no digest is taken until something reads it: `keep_noted` or `listing`.
/// Contracts see the session of a course, or the history of texts alone.
pub struct Past {
    pub(crate) form: Form,
    /// The SHA-256 of each of the first texts of a course.
    digests: Vec<[u8; 32]>,
    seen: Seen,
    /// The present text of a course, where it was opened or written.
    text: Option<Vec<u8>>,
}

impl Drop for Past {
    fn drop(self) {
        let Past {
            form: _,
            digests: _,
            seen: _,
            text: _,
        } = self;
    }
}

impl Model for Past {
    ghost use Rattle.bz_journal.specs.declared.past.Form.{Form};
    ghost use Rattle.bz_journal.specs.contracts.past.Form as f;
    ghost use Rattle.bz_journal.specs.Forms.{IsPast};

    ghost Value = { Form };

    ghost coded = { f.the_row.coded };

    ghost view = { λ past. past.form };

    ghost invariant = { λ past. IsPast past.form past.digests.items past.seen past.text };
}

/// What there is of a course, of whose first texts these are the digests, and which may have this text.
fn past_of(course: Course, digests: Vec<[u8; 32]>, text: Option<Vec<u8>>) -> Past
    requires digests { AreFirstDigests digests.items (session_history course).texts }
    requires text { IfSome text (λ own. own.items ≡ present (session_history course)) }
    ensures { result ≡ Form.Course course }
{
    Past {
        form: Form::Course(course),
        digests,
        seen: Seen::none(),
        text,
    }
}

/// What is kept of a course after an action that was answered so: the value of a short text goes, and the digests of texts that a new one cut off.
fn settle(
    course: &Course,
    digests: &mut Vec<[u8; 32]>,
    seen: &mut Seen,
    answer: &Result<Reply, Refusal>,
)
    requires { IsSeenIn course.now.tree seen.old }
    ensures seen { IsSeenIn course.now.tree seen.new }
    ensures digests { (s : SessionState) (action : Requested) (note : Bytes) → HasActed action note s answer.now course.now → AreFirstDigests digests.old.items (session_history s).texts
        → AreFirstDigests digests.new.items (session_history course.now).texts }
{
    seen.let_go();
    if !is_changed(answer) {
        return;
    }
    digests.truncate(course.cursor() as usize);
}

impl Past {
    /// The first text of a file of the package with this path, as `Session::open` makes a session. The errors are those.
    pub fn open(alloc: Global, package: &str, text: &[u8]) -> Result<Past, ReadFault>
        requires { length «package».now ≤ 65536 }
        ensures { OpensPast «package».now text.now result }
    {
        let course = begin(alloc, package, text)?;
        let own = Vec::from_slice(alloc, text).ok();
        Ok(past_of(course, Vec::new(alloc), own))
    }

    /// The texts of a session, whose digests are kept.
    pub fn new(session: Session) -> Past
        ensures { result ≡ Form.Course session }
    {
        let (course, digests) = session.apart();
        past_of(course, digests, None)
    }

    /// The number of the present text; the first is 0.
    pub fn cursor(&self) -> u32
        ensures { result ≡ (past_history self.now).cursor }
    {
        match &self.form {
            Form::Course(course) => course.cursor(),
            Form::Alone(texts) => texts.cursor(),
        }
    }

    /// Appends the present text to `out`. The error: a growth was refused; `out` is then as before.
    pub fn text_into(&self, out: &mut Vec<u8>) -> Result<(), Memory>
        ensures ok { OnOk result (out.new.items ≡ out.old.items ++ present (past_history self.now)) }
        ensures err { OnErr result (out.new.items ≡ out.old.items) }
    {
        match &self.form {
            Form::Course(course) => match &self.text {
                Some(text) => out.extend_from_slice(text.as_slice()),
                None => course.present().spell_into(out),
            },
            Form::Alone(texts) => out.extend_from_slice(texts.present()),
        }
    }

    /// The texts, one line each, as `Session::listing` gives them. The error: a growth was refused.
    pub fn listing(&self, alloc: Global) -> Result<Text, Memory>
        ensures { IfOk result (λ text. text ≡ listing (past_history self.now)) }
    {
        match &self.form {
            Form::Course(course) => listed_by(alloc, course, self.digests.as_slice()),
            Form::Alone(texts) => listed_by(alloc, &texts.course()?, &[]),
        }
    }

    /// Does an action with a note, as `Session::act_noted` does. After a command that changed the text the next ones cost what they change:
    /// the value is kept, and only what is in the windows that a command gives is tidied, laid out and read. Where it is the last one, as
    /// is said, a command takes less memory and time. The errors are those of `Session::act_noted`.
    pub fn act_noted(
        &mut self,
        action: &Action<'_>,
        note: &str,
        is_last: bool,
    ) -> Result<Reply, Refusal>
        ensures acts { Acts (action_in action.now) note.now (past_history self.old) result (past_history self.new) }
        ensures form { ActsIn is_last (action_in action.now) note.now self.old result self.new }
    {
        self.make_course();
        let course = match &mut self.form {
            Form::Course(course) => course,
            Form::Alone(texts) => return texts.wanting(action, note),
        };
        let _here = course.present();
        if is_last
            && note.len() <= MOST_NOTE
            && course.steps() == 0
            && let Action::Do(command, target) = *action
        {
            let note = String::from_str(course.alloc(), note)?;
            let text = own_text(course, self.text.take())?;
            return self.act_last(text, command, target, note);
        }
        self.text = None;
        let answer = act(course, &mut self.seen, action, note);
        settle(course, &mut self.digests, &mut self.seen, &answer);
        answer
    }

    /// Does an action with a note and keeps it, as `Session::keep_noted` does. The errors are those.
    pub fn keep_noted<F: Files>(
        &mut self,
        action: &Action<'_>,
        note: &str,
        file: &str,
        files: &mut F,
    ) -> Result<Reply, KeepFault>
        ensures keeps { Keeps (action_in action.now) note.now (past_history self.old) result (past_history self.new) }
        ensures pair { KeepsFile F.Files file.now (past_history self.old) (past_history self.new) result files.old files.new }
        ensures form { KeepsIn F.Files (action_in action.now) note.now file.now self.old result self.new files.old files.new }
    {
        self.make_course();
        let course = match &mut self.form {
            Form::Course(course) => course,
            Form::Alone(texts) => return texts.wanting(action, note).map_err(KeepFault::Refused),
        };
        let standing = own_text(course, self.text.take());
        learn(course, &mut self.digests, &standing);
        let from = course.cursor();
        let answer = act(course, &mut self.seen, action, note);
        settle(course, &mut self.digests, &mut self.seen, &answer);
        let written = written_since(course, &mut self.digests, from);
        let kept = persist(course.alloc(), answer, standing, &written, file, files);
        self.text = written.ok().flatten().map(|written| written.text);
        kept
    }

    /// Makes the course of texts alone: their first text is read, and the next one taken up. Where memory is refused for that they stay.
    fn make_course(&mut self)
        ensures { HasCourse self.old self.new }
    {
        let Form::Alone(texts) = &self.form else {
            return;
        };
        let Ok(course) = texts.course() else {
            return;
        };
        let digests = Vec::new(course.alloc());
        *self = past_of(course, digests, None);
    }

    /// Does the last command on the first text of a course, which is this: its tree is given up for its value. That text alone is left, or the
    /// next one beside it. The errors are those of the command.
    fn act_last(
        &mut self,
        text: Vec<u8>,
        command: &Command,
        target: &Target,
        note: String,
    ) -> Result<Reply, Refusal>
        requires short { length (string_bytes note) ≤ note_limit }
        requires first { (course : SessionState) × (self.old ≡ Form.Course course) × (length (session_history course).texts ≡ 1) }
        requires text { text.items ≡ present (past_history self.old) }
        ensures makes { MakesOrWants (Do command.now target.now) (string_bytes note) (past_history self.old) result (past_history self.new) }
        ensures form { ActsIn true (Do command.now target.now) (string_bytes note) self.old result self.new }
    {
        let alloc = *text.allocator();
        self.seen = Seen::none();
        self.digests = Vec::new(alloc);
        let nothing = of_first(String::new(alloc), Vec::new(alloc));
        let Form::Course(course) = mem::replace(&mut self.form, Form::Alone(nothing)) else {
            unreachable!()
        };
        let (tree, package) = course.into_first();
        match meant(alloc, command, target, package.as_bytes(), tree, text.len()) {
            Ok((made, printed)) => {
                let (texts, reply) = taken_up(package, text, made, printed, note);
                self.form = Form::Alone(texts);
                Ok(reply)
            }
            Err(refusal) => {
                self.form = Form::Alone(of_first(package, text));
                Err(refusal)
            }
        }
    }
}
