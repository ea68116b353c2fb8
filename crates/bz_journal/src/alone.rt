//! The texts of a file alone: what a run has of it once the last command on it is done.
ghost use Rattle.std.specs.Prelude.{◌≡◌, ◌≢◌, ◌≤◌, ◌+◌, Ok, IfOk, length, string_bytes};
ghost use Rattle.bz_journal.specs.Clauses.{Acts, Answer, Bytes, History, IsSmall, action_in, after_text, changed, note_limit, opened, present, session_history, session_trail, text_or};

use crate::action::{Action, Reply};
use crate::course::{Course, at_once, begin, unchanged};
use bz_build_format::read_text;
use bz_items::{Memory, Text};
use bz_value::Refusal;
use std::alloc::AllocError;
use std::marker::Model;

/// A text that a command made, and the note of it.
#[derive(Drop)]
pub(crate) struct Made {
    note: String,
    text: Text,
}

/// A text of a package's file, and the one that a command made of it, where that is another one. Contracts see their history.
#[derive(Drop)]
pub(crate) struct Alone {
    package: String,
    first: Vec<u8>,
    made: Option<Made>,
}

impl Model for Alone {
    ghost use Rattle.std.specs.Prelude.{string_bytes};
    ghost use Rattle.bz_journal.specs.private.Alone.{AreTexts, history_made};
    ghost use Rattle.bz_journal.specs.History.{History};

    ghost Value = { History };

    ghost view = { λ texts. history_made (string_bytes texts.«package») texts.first.items texts.made };

    ghost invariant = { λ texts. AreTexts (string_bytes texts.«package») texts.first.items texts.made };
}

/// A text of a package's file alone.
pub(crate) fn of_first(package: String, first: Vec<u8>) -> Alone
    requires { length (string_bytes «package») ≤ 65536 }
    ensures { result ≡ opened (string_bytes «package») first.items }
{
    Alone {
        package,
        first,
        made: None,
    }
}

/// The texts after a command with a note gave this text, none where it is the first one, and what it answers.
pub(crate) fn taken_up(
    package: String,
    first: Vec<u8>,
    text: Option<Text>,
    printed: Option<Text>,
    note: String,
) -> (Alone, Reply)
    requires path { length (string_bytes «package») ≤ 65536 }
    requires short { length (string_bytes note) ≤ note_limit }
    ensures { ◌≡◌ {A = Answer × History} (Ok result.1, result.0) (after_text (string_bytes note) (opened (string_bytes «package») first.items) (text_or first.items text) printed) }
{
    let Some(text) = text else {
        return (of_first(package, first), unchanged(printed));
    };
    if text.as_slice() == first.as_slice() {
        return (of_first(package, first), unchanged(printed));
    }
    let made = Some(Made { note, text });
    let texts = Alone {
        package,
        first,
        made,
    };
    (texts, Reply::Changed)
}

impl Alone {
    /// The number of the present text, which is the last one; the first is 0.
    pub(crate) fn cursor(&self) -> u32
        ensures present { result ≡ self.now.cursor }
        ensures last { self.now.cursor + 1 ≡ length self.now.texts }
        ensures few { length self.now.texts ≤ 2 }
    {
        match &self.made {
            Some(_) => 1,
            None => 0,
        }
    }

    /// The present text.
    pub(crate) fn present(&self) -> &[u8]
        ensures { result.now ≡ present self.now }
    {
        match &self.made {
            Some(made) => made.text.as_slice(),
            None => self.first.as_slice(),
        }
    }

    /// Their course, made anew. The error: memory was refused, as what was read once reads again.
    pub(crate) fn course(&self) -> Result<Course, Memory>
        ensures made { IfOk result (λ course. session_history course ≡ self.now) }
        ensures small { IfOk result (λ course. IsSmall (session_trail course)) }
    {
        let alloc = *self.first.allocator();
        let Ok(course) = begin(alloc, self.package.as_str(), self.first.as_slice()) else {
            return Err(AllocError);
        };
        let Some(made) = &self.made else {
            return Ok(course);
        };
        let mut course = course;
        let Ok(windows) = read_text(course.alloc(), course.present(), made.text.as_slice()) else {
            return Err(AllocError);
        };
        match course.take_up(windows, None, made.note.as_str()) {
            Ok(_) => Ok(course),
            Err(_) => Err(AllocError),
        }
    }

    /// What is answered where memory was refused to make their course: `Memory`, but to an action that takes none.
    pub(crate) fn wanting(&self, action: &Action<'_>, note: &str) -> Result<Reply, Refusal>
        ensures { Acts (action_in action.now) note.now self.now result self.now }
    {
        let ahead = 0; // no step is after the last text
        match at_once(action, note, self.cursor(), ahead) {
            Some(answer) => answer,
            None => Err(Refusal::Memory),
        }
    }
}
