//! Facts about the definitions, for readers: the functions do nothing.

ghost use Rattle.bz_journal.specs.Forms.{HoldsPast};
ghost use Rattle.bz_journal.specs.Clauses.{AlikeActs, AlikeGoesOn, HoldsSteps, IsKept, StoppedIsResumed, WorkedHistories, WrittenIsLaidOut, session_history};

use crate::past::{Form, Past};
use crate::session::Session;
use bz_grammar::laws::one_reading;
use bz_layout::{build_layout_is_build, layout_is_accepted, layout_reads_back};
use bz_passes::{build_stays, proper_stays, tidy_settles, tidy_stays};

/// Worked rows: what undo, redo and new texts make of small histories.
pub fn worked_histories()
    ensures { WorkedHistories }
{}

/// Two histories that differ at most in the number of the text that was present before answer alike whatever is done, and stay so:
/// a session that was saved and resumed at its own text goes on as one that never stopped.
pub fn alike_goes_on()
    ensures act { AlikeActs }
    ensures run { AlikeGoesOn }
{}

/// A pair that was stopped at any moment while an action was kept is resumed at the text that the file holds, or memory is refused.
pub fn stopped_is_resumed()
    ensures { StoppedIsResumed }
{}

/// What the history of each session keeps.
pub fn history_kept(session: &Session)
    ensures { ∥ IsKept (session_history session.now) ∥₁ }
{
    session.holds();
}

/// What a session holds: each step leads between the trees of two texts that follow one another and differ; those of a small
/// session are the steps between them, and none that leads there weighs less. (`Session::digests` has the digests.)
pub fn session_holds(session: &Session)
    ensures { HoldsSteps session.now }
{
    session.holds();
}

/// The same of what a run has of a file, where that is a course; texts alone are two at most.
pub fn past_holds(past: &Past)
    ensures { HoldsPast past.now }
{
    match &past.form {
        Form::Course(course) => course.holds(),
        Form::Alone(texts) => {
            let _last = texts.cursor();
        }
    }
}

/// Where a value is written and the answer is no refusal, the tree of the present text is the layout of the value tidied.
pub(crate) fn written_is_laid_out()
    ensures { WrittenIsLaidOut }
{
    one_reading();
    layout_is_accepted();
    build_layout_is_build();
    layout_reads_back();
    proper_stays();
    build_stays();
    tidy_settles();
    tidy_stays();
}
