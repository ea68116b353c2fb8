//! Actions in a course, and what is kept beside it from one command to the next: the value of the present text, so that a command need not
//! make it anew. Where that text is the layout of a tidy value only what changes is tidied and laid out.
ghost use Rattle.std.specs.Prelude.{◌≤◌, OnOk, length};
ghost use Rattle.bz_journal.specs.Clauses.{AreBuild, AreOver, Do, EndsAt, Format, HasActed, HasMade, IsFormatted, IsSeenIn, Node, action_in, after_meaning, note_limit, present, session_history, view_of, written};

use crate::action::{Action, Reply};
use crate::answering::{Last, Lookups, answer, last_of, look_up};
use crate::course::{Course, at_once, unchanged};
use crate::laws::written_is_laid_out;
use crate::making::{Made, made_of};
use crate::meaning::{printed_answer, run_beside, value_of};
use crate::moving::begins_after;
use bz_build_format::{formatted_once, reads_back};
use bz_command_syntax::Command;
use bz_grammar::laws::one_reading;
use bz_hosts::build_views;
use bz_items::{Items, Text};
use bz_label::Target;
use bz_rule::take_apart;
use bz_value::{File, Refusal, Window};

/// The fewest items of a value that is kept from the first command on. One of fewer is made anew in less than a millisecond.
const FEWEST: usize = 500;

/// After how many commands any value is kept, so that further ones cost the same in a short file as in a long one.
const OFTEN: u32 = 16;

/// What is kept beside a course.
#[derive(Drop)]
pub(crate) struct Seen {
    /// The value of the present text, where it is kept.
    pub(crate) value: Option<File>,
    /// What was looked up in the present text.
    pub(crate) lookups: Lookups,
    /// How many bytes the present text has, where it is known to be the layout of a tidy value.
    pub(crate) written: Option<usize>,
    /// Whether the last command printed something, so that the value is worth keeping for the next one that prints.
    pub(crate) printed_last: bool,
    /// What the last command was, so that what is looked up for the next one of its kind is worth making.
    pub(crate) last: Last,
    /// How many actions were done, up to `OFTEN`.
    pub(crate) done: u32,
}

impl Seen {
    /// Nothing is kept yet.
    pub(crate) fn none() -> Seen
        ensures { (tree : Node) → IsSeenIn tree result }
    {
        Seen {
            value: None,
            lookups: Lookups::none(),
            written: None,
            printed_last: false,
            last: Last::Other,
            done: 0,
        }
    }

    /// Forgets all of the text that was present, but how many actions were done.
    fn forget(&mut self)
        ensures { (tree : Node) → IsSeenIn tree self.new }
    {
        let done = self.done;
        *self = Seen::none();
        self.done = done;
    }

    /// Drops the value of a short text after an action, and what was looked up in it, unless actions came often.
    pub(crate) fn let_go(&mut self)
        ensures { (tree : Node) → IsSeenIn tree self.old → IsSeenIn tree self.new }
    {
        if self.done >= OFTEN {
            return;
        }
        self.done += 1;
        if let Some(file) = &self.value
            && file.items.len() < FEWEST
        {
            self.value = None;
            self.lookups = Lookups::none();
        }
    }
}

/// Takes up a value that is to be written, and is another one than that of the present text in these windows alone. It is kept as the value of
/// the new text, unless it is given up. The errors are those of making its lines and of taking them up.
fn take_up(
    course: &mut Course,
    seen: &mut Seen,
    windows: Items<Window>,
    file: File,
    printed: Option<Text>,
    note: &str,
) -> Result<Reply, Refusal>
    requires short { length note.now ≤ note_limit }
    requires seen { IsSeenIn course.old.tree seen.old }
    requires build_value { AreBuild file }
    requires over { AreOver windows (view_of course.old.tree) file }
    ensures end { EndsAt (after_meaning note.now (session_history course.old) (written file printed)) course.old result course.new }
    ensures seen { IsSeenIn course.new.tree seen.new }
{
    one_reading();
    written_is_laid_out();
    let before = course.present();
    let Made {
        windows,
        value,
        names,
        hashes,
        paths,
        length,
    } = match made_of(seen, windows, file, before) {
        Ok(made) => made,
        Err(refusal) => return Err(refusal),
    };
    let lines = begins_after(seen.lookups.lines.take(), windows.as_slice(), before);
    match course.take_up(windows, printed, note) {
        Ok(reply) => {
            reads_back(course.present());
            seen.lookups = Lookups {
                names,
                lines,
                hashes,
                paths,
            };
            seen.written = Some(length);
            seen.value = value;
            Ok(reply)
        }
        Err(refusal) => {
            drop(value);
            Err(refusal)
        }
    }
}

/// Does a command with a note on the present text. At an error the course is as before. Errors: those of the command; `TooLarge` and
/// `TooDeep` where the new text would be past a limit; `Full` at the most steps; `Memory`: a growth was refused.
fn edit(
    course: &mut Course,
    seen: &mut Seen,
    command: &Command,
    target: &Target,
    note: &str,
) -> Result<Reply, Refusal>
    requires short { length note.now ≤ note_limit }
    requires seen { IsSeenIn course.old.tree seen.old }
    ensures made { HasMade (Do command.now target.now) note.now course.old result course.new }
    ensures seen { IsSeenIn course.new.tree seen.new }
{
    build_views();
    let here = course.present();
    reads_back(here);
    let last = seen.last;
    let mut file = value_of(seen.value.take(), here)?;
    let lookups = &mut seen.lookups;
    let Ok(()) = look_up(command, target, last, lookups, here, &file) else {
        take_apart(file);
        return Err(Refusal::Memory);
    };
    let current = course.package.as_bytes();
    // a look at the whole of it where its length isn't known
    let len = match seen.written {
        Some(len) => len,
        None => here.len(),
    };
    let lookups = &seen.lookups;
    match run_beside(command, target, current, lookups, len, &mut file) {
        Ok(ran) => {
            seen.last = last_of(command, target, ran.same_names);
            let printed = printed_answer(command, ran.printed);
            if ran.windows.is_empty() {
                // that of another text is kept from the second command that prints on
                seen.value = seen.written.is_some().then_some(file);
                return Ok(unchanged(printed));
            }
            take_up(course, seen, ran.windows, file, printed, note)
        }
        Err(refusal) => {
            take_apart(file);
            Err(refusal)
        }
    }
}

/// Formats the present text, with a note. Errors: `TooLarge`, `TooDeep`, `Full`; `Memory`: a growth was refused.
fn format(course: &mut Course, seen: &mut Seen, note: &str) -> Result<Reply, Refusal>
    requires short { length note.now ≤ note_limit }
    requires seen { IsSeenIn course.old.tree seen.old }
    ensures made { HasMade Format note.now course.old result course.new }
    ensures formatted { OnOk result (IsFormatted (present (session_history course.old)) (present (session_history course.new))) }
    ensures seen { IsSeenIn course.new.tree seen.new }
{
    formatted_once();
    build_views();
    let here = course.present();
    reads_back(here);
    let file = value_of(seen.value.take(), here)?;
    let windows = Items::new(course.alloc()); // the value is that of the text
    take_up(course, seen, windows, file, None, note)
}

/// Does an action with a note by what is kept beside the course, as `Session::act_noted` says. The errors are those.
pub(crate) fn act(
    course: &mut Course,
    seen: &mut Seen,
    action: &Action<'_>,
    note: &str,
) -> Result<Reply, Refusal>
    requires { IsSeenIn course.old.tree seen.old }
    ensures acted { HasActed (action_in action.now) note.now course.old result course.new }
    ensures seen { IsSeenIn course.new.tree seen.new }
{
    let _before = course.present();
    let cursor = course.cursor();
    if let Some(answer) = at_once(action, note, cursor, course.steps() - cursor) {
        return answer;
    }
    match *action {
        Action::Do(command, target) => match answer(course, seen, command, target) {
            Some(answer) => answer,
            None => edit(course, seen, command, target, note),
        },
        Action::Format => format(course, seen, note),
        Action::Undo(n) => {
            seen.forget();
            course.undo(n)
        }
        Action::Redo(n) => {
            seen.forget();
            course.redo(n)
        }
    }
}
