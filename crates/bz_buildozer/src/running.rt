//! The steps of lines, one after the other.
ghost use Rattle.std.specs.Prelude.{◌≡◌, ◌≤◌, length, map, true};
ghost use Rattle.std.specs.List.{All};
ghost use Rattle.bz_buildozer.specs.Words.{HasPath, requested_in};
ghost use Rattle.bz_buildozer.specs.Calls.{spot, Proceeds};
ghost use Rattle.bz_buildozer.specs.Outcome.{AreOfInput};
ghost use Rattle.bz_buildozer.specs.Run.{RunsSteps};
ghost use Rattle.bz_buildozer.specs.Steps.{all_steps};

use crate::acting::do_step;
use crate::run::Run;
use crate::step::Step;
use bz_command_line::{Options, Requested};
use bz_files::Files;
use bz_streams::{Cut, Sink, Source, first_cut};

/// Does what lines request, in order, each step on a file, and with its journal where journals are kept: all commands of a line on each of
/// its targets. A step that failed ends it, unless it is to go on.
pub(crate) fn run_lines<R: Source, F: Files, E: Sink>(
    options: Options,
    lines: &[Requested<'_>],
    run: &mut Run,
    input: &mut R,
    files: &mut F,
    err: &mut E,
) -> Cut
    requires paths { All (λ requested. All HasPath requested.targets.items) lines.now }
    requires once { run.old.once.holds ≡ true → length (all_steps (map requested_in lines.now)) ≤ 1 }
    ensures { Proceeds options.journal (AreOfInput (map requested_in lines.now)) (all_steps (map requested_in lines.now))
        (λ why world. RunsSteps why options.journal world options.keep_going (all_steps (map requested_in lines.now))) result
        (spot R.Source F.Files E.Sink run.old input.old files.old err.old) (spot R.Source F.Files E.Sink run.new input.new files.new err.new) }
{
    let mut cut = Cut::Whole;
    for line in lines {
        for target in &line.targets {
            for request in &line.commands {
                if run.failed && !options.keep_going {
                    return cut;
                }
                let step = Step { target, request };
                let later = do_step(options.journal, run, step, input, files, err);
                cut = first_cut(cut, later);
            }
        }
    }
    cut
}
