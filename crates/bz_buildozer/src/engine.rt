//! The program buildozer over any reader, writers and files.
ghost use Rattle.std.specs.Prelude.{bytes_eq, ◌≡◌, ◌≢◌, ◌⊎◌, ◌&&◌, ◌∷◌, [], List, ℕ, Option, true, map, Some, Ok, IfOk};
ghost use Rattle.std.specs.List.{All};
ghost use Rattle.bz_buildozer.specs.Words.{Folder, command_line_of, script, HasPath, script_of, requested_in};
ghost use Rattle.bz_command_line.specs.Requested as a;
ghost use Rattle.bz_buildozer.specs.Keeps.{KeepsFolder};
ghost use Rattle.bz_buildozer.specs.Calls.{ReportsLines, PrintsAll, IsStill, ReadsNothing, acts_over, world_with, world_of, EndsIn, PassesBy, IsEndedOver};
ghost use Rattle.bz_buildozer.specs.Unread.{RunActs, ActsAreAmong};
ghost use Rattle.bz_buildozer.specs.Moments.{IsMomentOfRun, IsMomentOfSteps};
ghost use Rattle.bz_buildozer.specs.Outcome.{unused, IsUnused, LineOutcome, LinesEnd, OrOutOfMemory, WordsOutcome, TextOutcome, ScriptOutcome, AreOfInputAndSome, IsText, KeepsJournals, LineGivesNothing, NamesNoFile, TakesNoFile, TakesNoInput, TakesScript};
ghost use Rattle.bz_buildozer.specs.Steps.{all_steps, input_package, names_input};
ghost use Rattle.bz_buildozer.specs.Reported.{no_journal_line};
ghost use Rattle.bz_buildozer.specs.Run.{World};

use crate::ending::{Ending, finish};
use crate::reported::{UNUSED, out_of_memory, report_unread, unused};
use crate::rooting::note_root;
use crate::run::begun;
use crate::running::run_lines;
use crate::script::{INPUT, read_bytes, reported_name, text_in};
use crate::step::{are_one_step, names_input, shows_input};
use bz_command_line::{
    Given, Options, Requested, read_group, read_line, read_script, report_line_usage,
    report_script, report_usage,
};
use bz_files::Files;
use bz_streams::{Cut, Exit, LinePiece, Sink, Source, report_fault, report_pieces};
use std::alloc::Global;
use std::convert::AsStr;
use std::slice::from_ref;

// What a run takes beside its ports: memory, and its options.
#[derive(Clone, Copy)]
struct Job {
    alloc: Global,
    options: Options,
}

// A file of lines that was read.
#[derive(Clone, Copy)]
struct ReadScript<'a> {
    name: &'a str,
    bytes: &'a [u8],
}

// Whether rules of standard input are meant where journals are kept: it has none.
#[tactic(auto, using(crate::proofs::StepLists::named_in_lines))]
fn lacks_journal(options: Options, lines: &[Requested<'_>]) -> bool
    ensures { result ≡ (options.journal && names_input (map requested_in lines.now)) }
{
    options.journal && names_input(lines)
}

// Does what lines request, on files alone or with their journals, below a note on the root, and ends the run; unless that needs a journal of
// standard input, or memory is refused to the note.
fn perform<R: Source, W: Sink, E: Sink, F: Files>(
    job: Job,
    lines: &[Requested<'_>],
    input: &mut R,
    out: &mut W,
    err: &mut E,
    files: &mut F,
) -> Exit
    requires { All (λ requested. All HasPath requested.targets.items) lines.now }
    ensures ends { (F.honest files.old ≡ true) ⊎ AreOfInputAndSome (map requested_in lines.now) → (acts : RunActs) → ActsAreAmong (F.acts files.old) (F.acts files.new) acts
        → EndsIn W.Sink E.Sink F.Files (OrOutOfMemory (world_of R.Source F.Files input.old files.old acts)
        (LinesEnd job.options (map requested_in lines.now) (world_of R.Source F.Files input.old files.old acts))) result out.old out.new err.old err.new files.new }
    ensures unread { job.options.journal ≡ true → names_input (map requested_in lines.now) ≡ true → (input.new ≡ input.old) × (out.new ≡ out.old) × (files.new ≡ files.old) }
    ensures reads_nothing { job.options.journal ≡ true → ReadsNothing R.Source result.cut input.old input.new }
    ensures unused { result.status ≡ 1 → (input.new ≡ input.old) × (out.new ≡ out.old) × (files.new ≡ files.old) }
    ensures usage { result.status ≡ 1 → (job.options.journal ≡ true) × (names_input (map requested_in lines.now) ≡ true)
        × ReportsLines E.Sink err.old err.new (no_journal_line ∷ []) }
    ensures moments { job.options.journal ≡ true → F.honest files.old ≡ true
        → PassesBy F.Files (IsMomentOfSteps (F.folder files.old) (all_steps (map requested_in lines.now)) []) files.old files.new }
    ensures sound { R.sound input.old ≡ true → result.cut ≢ Cut.Read }
    ensures status { result.cut ≢ Cut.Whole → result.status ≡ 2 }
    ensures ended { IsEndedOver R.Source W.Sink F.Files result.cut input.old input.new out.old out.new files.old files.new }
    ensures honest { F.honest files.new ≡ F.honest files.old }
{
    if lacks_journal(job.options, lines) {
        report_pieces(
            err,
            &[LinePiece::Own("buildozer: package - has no journal\n")],
        );
        return UNUSED;
    }
    let Ok(()) = note_root(job.alloc, lines, files, err) else {
        return out_of_memory(err);
    };
    let mut run = begun(job.alloc, are_one_step(lines));
    let cut = run_lines(job.options, lines, &mut run, input, files, err);
    let shown = shows_input(lines);
    let ending = Ending {
        options: job.options,
        shown,
    };
    finish(ending, run, cut, out, files, err)
}

// Whether rules of standard input are meant where the lines are read from there.
#[tactic(auto, using(crate::proofs::StepLists::named_in_lines))]
fn edits_input(name: &str, lines: &[Requested<'_>]) -> bool
    ensures { result ≡ (bytes_eq name.now input_package && names_input (map requested_in lines.now)) }
{
    name == INPUT && names_input(lines)
}

// What the text of a file of lines requests.
fn run_text<R: Source, W: Sink, E: Sink, F: Files>(
    job: Job,
    read: ReadScript<'_>,
    input: &mut R,
    out: &mut W,
    err: &mut E,
    files: &mut F,
) -> Exit
    ensures ends { F.honest files.old ≡ true → (known : Option (List ℕ)) (acts : RunActs) → (read.entry.name.now ≢ input_package → known ≡ R.remaining input.old)
        → ActsAreAmong (F.acts files.old) (F.acts files.new) acts → EndsIn W.Sink E.Sink F.Files (OrOutOfMemory (world_with F.Files files.old known acts)
        (TextOutcome job.options read.entry.name.now read.entry.bytes.now (world_with F.Files files.old known acts))) result out.old out.new err.old err.new files.new }
    ensures unused { result.status ≡ 1 → (input.new ≡ input.old) × (out.new ≡ out.old) × (files.new ≡ files.old) }
    ensures usage { result.status ≡ 1 → (line : List ℕ) × ((world : World) → TextOutcome job.options read.entry.name.now read.entry.bytes.now world (unused world.folder line))
        × ReportsLines E.Sink err.old err.new (line ∷ []) }
    ensures unread_kept { job.options.journal ≡ true → IsStill R.Source input.old input.new }
    ensures moments { job.options.journal ≡ true → F.honest files.old ≡ true → PassesBy F.Files (λ now. (lines : List a.Requested)
        × IsText read.entry.bytes.now × (script_of job.options.profile read.entry.bytes.now ≡ Ok lines) × IsMomentOfSteps (F.folder files.old) (all_steps lines) [] now) files.old files.new }
    ensures sound { R.sound input.old ≡ true → result.cut ≢ Cut.Read }
    ensures status { result.cut ≢ Cut.Whole → result.status ≡ 2 }
    ensures ended { IsEndedOver R.Source W.Sink F.Files result.cut input.old input.new out.old out.new files.old files.new }
    ensures honest { F.honest files.new ≡ F.honest files.old }
{
    let text = match text_in(read.bytes) {
        Ok(text) => text,
        Err(fault) => {
            report_fault(err, reported_name(read.name), &fault);
            return UNUSED;
        }
    };
    let lines = match read_script(job.alloc, job.options.profile, text) {
        Ok(lines) => lines,
        Err(fault) => return unused(
            report_script(job.alloc, err, reported_name(read.name), &fault),
            err,
        ),
    };
    let lines = lines.as_slice();
    if edits_input(read.name, lines) {
        report_pieces(
            err,
            &[LinePiece::Own("buildozer: package - cannot be edited beside -f -\n")],
        );
        return UNUSED;
    }
    perform(job, lines, input, out, err, files)
}

// A file of lines.
fn run_script<R: Source, W: Sink, E: Sink, F: Files>(
    job: Job,
    name: &str,
    input: &mut R,
    out: &mut W,
    err: &mut E,
    files: &mut F,
) -> Exit
    ensures ends { F.honest files.old ≡ true → EndsIn W.Sink E.Sink F.Files (OrOutOfMemory (world_of R.Source F.Files input.old files.old (acts_over F.Files files.old files.new))
        (ScriptOutcome job.options name.now (world_of R.Source F.Files input.old files.old (acts_over F.Files files.old files.new)))) result out.old out.new err.old err.new files.new }
    ensures unused { result.status ≡ 1 → out.new ≡ out.old }
    ensures unused_input { result.status ≡ 1 → name.now ≢ input_package → input.new ≡ input.old }
    ensures unused_files { result.status ≡ 1 → name.now ≡ input_package → files.new ≡ files.old }
    ensures unused_time { result.status ≡ 1 → F.honest files.old ≡ true → KeepsFolder F.Files files.old files.new }
    ensures usage { result.status ≡ 1 → result.cut ≡ Cut.Whole → (line : List ℕ)
        × IsUnused (F.honest files.old) (world_of R.Source F.Files input.old files.old (acts_over F.Files files.old files.new)) (ScriptOutcome job.options name.now) line
        × ReportsLines E.Sink err.old err.new (line ∷ []) }
    ensures unread_kept { job.options.journal ≡ true → name.now ≢ input_package → IsStill R.Source input.old input.new }
    ensures moments { job.options.journal ≡ true → F.honest files.old ≡ true
        → PassesBy F.Files (IsMomentOfRun job.options.profile (world_of R.Source F.Files input.old files.old (acts_over F.Files files.old files.new)) (script name.now)) files.old files.new }
    ensures sound { R.sound input.old ≡ true → result.cut ≢ Cut.Read }
    ensures status { result.cut ≢ Cut.Whole → (result.status ≡ 2) ⊎ (result.status ≡ 1) }
    ensures ended { IsEndedOver R.Source W.Sink F.Files result.cut input.old input.new out.old out.new files.old files.new }
    ensures honest { F.honest files.new ≡ F.honest files.old }
{
    match read_bytes(job.alloc, name, input, files) {
        Ok(bytes) => {
            let read = ReadScript {
                name,
                bytes: &bytes,
            };
            run_text(job, read, input, out, err, files)
        }
        Err(cut) => report_unread(err, reported_name(name), cut),
    }
}

/// Reads the words of a line, and does what they or a file of lines request, up to the first step that fails; with `-k`
/// all steps. A package's file is read where it is used first. After the last step `out` is given what commands printed,
/// then the text of standard input, unless each command on it prints, and with `--stdout` the text of each file that
/// changed; without it those files are written, each where it still holds what was read of it, and reported by a line on `err`
/// unless `--quiet` was given. With `--journal` each action that changes a text replaces FILE.journal and then the file, and what is
/// reported at the end is which files were written. Commands are read in the profile of `--profile`. Statuses: 1 where the words or lines request nothing, or the file of lines was not read
/// (nothing is then done); else 2 where a step or a port failed or memory was refused; else 0 where some text at the end is
/// another one than was read; else 3. Each fault is reported by a line on `err`, whose own faults are passed over.
pub fn buildozer<S: AsStr, R: Source, W: Sink, E: Sink, F: Files>(
    alloc: Global,
    words: &[S],
    input: &mut R,
    out: &mut W,
    err: &mut E,
    files: &mut F,
) -> Exit
    // Where the files are honest, or none is named, a run leaves what the words, the bytes of standard input and the folder mean, with journals
    // too: whole, or where something fails, with what was done before, the line of each failure, all that standard output is to be given
    // unless it failed itself, and each file tried.
    ensures ends { (F.honest files.old ≡ true) ⊎ NamesNoFile (map S.text words.now) → EndsIn W.Sink E.Sink F.Files
        (WordsOutcome (map S.text words.now) (world_of R.Source F.Files input.old files.old (acts_over F.Files files.old files.new))) result out.old out.new err.old err.new files.new }

    // Words that request nothing leave the input, the output and the files as they were.
    ensures unread { LineGivesNothing (command_line_of (map S.text words.now)) → (input.new ≡ input.old) × (out.new ≡ out.old) × (files.new ≡ files.old) }

    // A run of status 1 that no port cut says in one line why, with journals as without: of operands the first one that is refused.
    ensures usage { result.status ≡ 1 → result.cut ≡ Cut.Whole → (line : List ℕ)
        × IsUnused (F.honest files.old) (world_of R.Source F.Files input.old files.old (acts_over F.Files files.old files.new)) (LineOutcome (map S.text words.now) (command_line_of (map S.text words.now))) line
        × ReportsLines E.Sink err.old err.new (line ∷ []) }

    // A run of status 1 leaves the output as it was. So it leaves the input, unless lines are in it, and the files, unless lines
    // are in one; then these are no more than read, and a folder of honest ones is the same at each moment.
    ensures unused { result.status ≡ 1 → out.new ≡ out.old }
    ensures unused_input { result.status ≡ 1 → TakesNoInput (map S.text words.now) → input.new ≡ input.old }
    ensures unused_files { result.status ≡ 1 → TakesNoFile (map S.text words.now) → files.new ≡ files.old }
    ensures unused_time { result.status ≡ 1 → F.honest files.old ≡ true → KeepsFolder F.Files files.old files.new }

    // Where standard input can't be read, and no file and no package but it is named, nothing is written to standard output.
    ensures read { NamesNoFile (map S.text words.now) → result.cut ≡ Cut.Read → PrintsAll W.Sink out.old out.new [] }

    // A run with journals reads nothing of standard input, unless lines are in it.
    ensures unread_kept { KeepsJournals (map S.text words.now) → TakesNoInput (map S.text words.now) → IsStill R.Source input.old input.new }

    // Whatever cuts or stops a run with journals, each folder since it began is one at a moment of its steps: each file that it has open
    // goes on with the texts that its history has at that step or at the one before, and other names are as they were.
    ensures moments { F.honest files.old ≡ true → IfOk (command_line_of (map S.text words.now)) (λ line. line.options.journal ≡ true
        → (now : Folder) → F.since files.new (F.moment files.old) now → IsMomentOfRun line.options.profile (world_of R.Source F.Files input.old files.old (acts_over F.Files files.old files.new)) line.given now) }

    // Where standard input never fails, it cuts no run.
    ensures sound { R.sound input.old ≡ true → result.cut ≢ Cut.Read }

    // Without a file of lines each run that is cut has status 2.
    ensures status { result.cut ≢ Cut.Whole → (result.status ≡ 2) ⊎ ((result.status ≡ 1) × TakesScript (map S.text words.now)) }

    // A run is cut by a port that counted a fault; where none did it is whole, or wants memory.
    ensures ended { IsEndedOver R.Source W.Sink F.Files result.cut input.old input.new out.old out.new files.old files.new }
    ensures honest { F.honest files.new ≡ F.honest files.old }
{
    let line = match read_line(alloc, words) {
        Ok(line) => line,
        Err(fault) => return unused(report_line_usage(alloc, err, words, &fault), err),
    };
    let job = Job {
        alloc,
        options: line.options,
    };
    match &line.given {
        Given::Operands(operands) => match read_group(alloc, line.options.profile, operands) {
            Ok(requested) => perform(job, from_ref(&requested), input, out, err, files),
            Err(fault) => unused(report_usage(alloc, err, &fault), err),
        },
        Given::Script(name) => run_script(job, name, input, out, err, files),
    }
}
