//! Facts about the definitions, for readers: the functions do nothing.
ghost use Rattle.bz_buildifier.specs.Laws.{OutcomesAgree, CutRunsAreBegun, WholeRunsAreExact};
ghost use Rattle.bz_buildifier.specs.Worked.{WorkedFormats};

use bz_grammar::laws::one_bzl_reading;

/// What buildifier's words, modes and faults mean, worked out by hand.
pub fn worked_formats()
    ensures { WorkedFormats }
{}

/// A run of buildifier's over files that no failure cuts does exactly what the folder's files mean, and leaves the folder
/// that this gives, names that end in `.bznew` set aside.
pub fn whole_runs_are_exact()
    ensures { WholeRunsAreExact }
{}

/// A run of buildifier's over files that a failure of standard output cuts was to write by then what an exact run over some of the
/// files from the first one on writes, and writes nothing after that.
pub fn cut_runs_are_begun()
    ensures { CutRunsAreBegun }
{}

/// What buildifier does is a function of its words, standard input and the folder: two runs that no failure cuts write the same, report
/// the same but for which fault of a text, end with the same status and leave the same folder, names that end in `.bznew` set aside.
pub fn outcomes_agree()
    ensures { OutcomesAgree }
{
    one_bzl_reading();
}
