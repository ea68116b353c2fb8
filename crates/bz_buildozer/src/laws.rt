//! Facts about the definitions, for readers: the functions do nothing.
ghost use Rattle.bz_buildozer.specs.Exact.{OutcomesAreExact, OutputCutsNothingElse};
ghost use Rattle.bz_buildozer.specs.Found.{PackagesAreApart};
ghost use Rattle.bz_buildozer.specs.Journals.{HeldFilesGoOn, JournalGivesOne};
ghost use Rattle.bz_buildozer.specs.Keeps.{StillIsSame};
ghost use Rattle.bz_buildozer.specs.Opens.{FrontsAreReportedAlike};
ghost use Rattle.bz_buildozer.specs.WorkedParts.{WorkedRefusals, WorkedParts};
ghost use Rattle.bz_buildozer.specs.WorkedRuns.{WorkedUsage, WorkedWholeRuns};

use bz_grammar::laws::one_reading;

/// How refusals and faults are reported, worked out by hand.
pub fn worked_refusals()
    ensures { WorkedRefusals }
{}

/// How runs end, worked out by hand: what each part of a run gives, which words request nothing, and whole runs.
pub fn worked_runs()
    ensures parts { WorkedParts }
    ensures usage { WorkedUsage }
    ensures whole { WorkedWholeRuns }
{}

/// Words, the bytes of standard input and a folder have at most one outcome: the same output, the same status, the same folder, but for
/// names that end in `.bznew` and what journals hold where they are kept, and the same lines, but for clap's text and for which fault of a text that can't be
/// read is reported. Where `regex` refuses a pattern, that it is reported is an outcome too.
pub fn outcomes_are_exact()
    ensures { OutcomesAreExact }
{
    one_reading();
}

/// What standard output cuts leaves the folder, and was to be given the bytes, of a run of the same words that nothing cuts: files are written all the same.
pub fn output_cuts_nothing_else()
    ensures { OutputCutsNothingElse }
{}

/// A text and its first bytes, one more than a text may have, are opened or reported alike. So of a file no more has to be read.
pub fn fronts_are_reported_alike()
    ensures { FrontsAreReportedAlike }
{}

/// One thing comes of a journal at the text of a file: the history that goes on, or why none does.
#[tactic(auto, using(crate::proofs::ReadSteps::one_given))]
pub fn one_thing_comes_of_a_journal()
    ensures { JournalGivesOne }
{}

/// The files of two packages have different names, and none is the name of the other's journal, nor one under which that or the file
/// is written first; nor has its journal such a name.
pub fn packages_are_apart()
    ensures { PackagesAreApart }
{}

/// An action leaves the package of a history, and where it leaves the number of the present text it leaves the history.
#[tactic(auto, using(crate::proofs::ActSteps::still_same))]
pub fn still_is_same()
    ensures { StillIsSame }
{}

/// A file that goes on and holds an accepted text is opened, in its package and with its journal, at that text, and with all of its texts. So what a stop
/// leaves is gone on with.
pub fn held_files_go_on()
    ensures { HeldFilesGoOn }
{}
