//! What a run leaves after its steps.
ghost use Rattle.std.specs.Prelude.{◌≡◌, ◌≢◌, ◌⊎◌, ◌++◌, [], ◌∷◌, ℕ, List, Some, codes, true, false, map, if◌then◌else◌, IfOk, IfErr};
ghost use Rattle.std.specs.List.{All, list_any};
ghost use Rattle.bz_buildozer.specs.Sessions.{present};
ghost use Rattle.bz_buildozer.specs.Words.{Rises, Counts, first_cut, named_line};
ghost use Rattle.bz_buildozer.specs.private.ShownFiles.{opened_in, used_in};
ghost use Rattle.bz_buildozer.specs.Calls.{ReportsLine, ReportsLines, PrintsAll, PrintsSome, PrintsUntil, WorksOn};
ghost use Rattle.bz_buildozer.specs.Found as p;
ghost use Rattle.bz_buildozer.specs.Ending.{differs, has_changed, is_input, goes_out, text_out, texts_out, Writing, writing_of, name_fixed, fixed_lines, LeavesUnwritten, WritesFile, TriesFiles, status_of};
ghost use Rattle.bz_buildozer.specs.Steps.{input_package};
ghost use Rattle.bz_buildozer.specs.private.Shown.{progress_in};
ghost use Rattle.bz_buildozer.specs.Reported.{fixed_line, output_lines};
ghost use Rattle.bz_buildozer.specs.Unread.{ActsGrow};

use crate::reported::{FAILED, fail};
use crate::run::Run;
use crate::script::INPUT;
use crate::used::{Opened, Used};
use bz_command_line::Options;
use bz_files::{Files, rewrite};
use bz_items::Memory;
use bz_streams::{Cut, Exit, LinePiece, Sink, first_cut, report_pieces, write_whole};

const CHANGED: u8 = 0;

const SAME: u8 = 3;

/// The name by which standard output is reported.
const STDOUT: &str = "<stdout>";

/// What a run is to leave at its end: its options, and whether the text of standard input is shown.
#[derive(Clone, Copy)]
pub(crate) struct Ending {
    pub(crate) options: Options,
    pub(crate) shown: bool,
}

fn is_input(used: &Used) -> bool
    ensures { result ≡ is_input (used_in used.now) }
{
    used.package.as_slice() == INPUT.as_bytes()
}

// Whether a text goes to standard output.
fn goes_out(of_input: bool, shown: bool, to_stdout: bool, changed: bool) -> bool
    ensures { result ≡ goes_out of_input shown to_stdout changed }
{
    if of_input {
        shown
    } else {
        to_stdout && changed
    }
}

// Appends the text of a file. Whether it is another one than was read.
fn put_file(file: &Opened, output: &mut Vec<u8>) -> Result<bool, Memory>
    ensures { IfOk result (λ changed. (changed ≡ differs (opened_in file.now))
        × (output.new.items ≡ output.old.items ++ present (opened_in file.now).history)) }
{
    let start = output.len();
    file.past.text_into(output)?;
    Ok(&output[start..] != file.read.as_slice())
}

// Appends what a package gives to standard output. Whether its text is another one than was read.
fn put_text(used: &Used, ending: Ending, output: &mut Vec<u8>) -> Result<bool, Memory>
    ensures { IfOk result (λ changed. (changed ≡ has_changed (used_in used.now))
        × (output.new.items ≡ output.old.items ++ text_out ending.shown ending.options.to_stdout (used_in used.now))) }
{
    let Some(file) = &used.file else {
        return Ok(false);
    };
    let start = output.len();
    let changed = put_file(file, output)?;
    if !goes_out(
        is_input(used),
        ending.shown,
        ending.options.to_stdout,
        changed,
    ) {
        output.truncate(start);
    }
    Ok(changed)
}

// Appends what the packages give to standard output, in order. Whether some text is another one than was read.
fn put_texts(packages: &[Used], ending: Ending, output: &mut Vec<u8>) -> Result<bool, Memory>
    ensures { IfOk result (λ changed. (changed ≡ list_any has_changed (map used_in packages.now))
        × (output.new.items ≡ output.old.items ++ texts_out ending.shown ending.options.to_stdout (map used_in packages.now))) }
{
    let mut changed = false;
    for used in packages {
        changed |= put_text(used, ending, output)?;
    }
    Ok(changed)
}

// Writes what was printed, and the texts after it. Whether some text is another one than was read. The error, which is
// reported: memory was refused, and nothing is written; or standard output failed.
fn print_all<W: Sink, E: Sink>(
    packages: &[Used],
    ending: Ending,
    printed: Vec<u8>,
    out: &mut W,
    err: &mut E,
) -> Result<bool, Cut>
    ensures ok { IfOk result (λ changed. (changed ≡ list_any has_changed (map used_in packages.now))
        × PrintsAll W.Sink out.old out.new (printed.items ++ texts_out ending.shown ending.options.to_stdout (map used_in packages.now))
        × (W.faults out.new ≡ W.faults out.old) × (err.new ≡ err.old)) }
    ensures err { IfErr result (λ cut. ((cut ≡ Cut.Memory) × (out.new ≡ out.old)) ⊎ ((cut ≡ Cut.Write)
        × PrintsSome W.Sink out.old out.new (printed.items ++ texts_out ending.shown ending.options.to_stdout (map used_in packages.now))
        × Rises (W.faults out.old) (W.faults out.new))) }
    ensures told { IfErr result (λ cut. ReportsLines E.Sink err.old err.new (output_lines cut)) }
{
    let mut output = printed;
    let Ok(changed) = put_texts(packages, ending, &mut output) else {
        return Err(fail(err, STDOUT, "Memory", Cut::Memory));
    };
    match write_whole(out, &output) {
        Ok(()) => Ok(changed),
        Err(_) => Err(fail(err, STDOUT, "cannot write", Cut::Write)),
    }
}

// Reports that a file was written, unless the run is quiet.
fn report_written<E: Sink>(quiet: bool, name: &str, err: &mut E)
    ensures { ReportsLines E.Sink err.old err.new (if quiet then [] else fixed_line name.now ∷ []) }
{
    if !quiet {
        report_pieces(
            err,
            &[
                LinePiece::Own("fixed "),
                LinePiece::Outside(name),
                LinePiece::Own("\n"),
            ],
        );
    }
}

// Writes the file of a package, where it changed and is to be written. With its journal it was written before, which is reported.
fn write_file<F: Files, E: Sink>(options: Options, used: &Used, files: &mut F, err: &mut E) -> Cut
    ensures reported { result ≡ Cut.Whole → ReportsLines E.Sink err.old err.new
        (fixed_lines options.quiet (name_fixed options.journal options.to_stdout (used_in used.now))) }
    ensures writes { options.journal ≡ false → (F.honest files.old ≡ true) ⊎ ((used_in used.now).«package» ≡ input_package) → result ≡ Cut.Whole
        → WritesFile (writing_of options.to_stdout (used_in used.now)) (F.folder files.old) (F.folder files.new) }
    ensures unwritten { result ≡ Cut.Files → (options.journal ≡ false) × (is_input (used_in used.now) ≡ false) × ((file : Writing) × (writing_of options.to_stdout (used_in used.now) ≡ Some file)
        × ReportsLine E.Sink err.old err.new (named_line file.name (codes "cannot write"))
        × (F.honest files.old ≡ true → LeavesUnwritten file (F.folder files.old) (F.folder files.new))) }
    ensures memory { result ≡ Cut.Memory → (options.journal ≡ false) × ((file : p.Opened) × ((used_in used.now).file ≡ Some file)
        × ReportsLine E.Sink err.old err.new (named_line file.name (codes "Memory")) × (files.new ≡ files.old)) }
    ensures kept { options.journal ≡ true → files.new ≡ files.old }
    ensures works { WorksOn F.Files result files.old files.new }
    ensures grows { ActsGrow (F.acts files.old) (F.acts files.new) }
{
    let Some(file) = &used.file else {
        return Cut::Whole;
    };
    let name = file.name.as_str();
    if options.journal {
        if file.written {
            report_written(options.quiet, name, err);
        }
        return Cut::Whole;
    }
    if options.to_stdout || is_input(used) {
        return Cut::Whole;
    }
    let mut text = Vec::new(*file.name.allocator());
    let Ok(changed) = put_file(file, &mut text) else {
        return fail(err, name, "Memory", Cut::Memory);
    };
    if !changed {
        return Cut::Whole;
    }
    let Ok(()) = rewrite(files, name, file.read.as_slice(), &text) else {
        return fail(err, name, "cannot write", Cut::Files);
    };
    report_written(options.quiet, name, err);
    Cut::Whole
}

// Writes the files that changed, in order; each is tried. With journals they were written before, which is reported.
fn write_files<F: Files, E: Sink>(
    options: Options,
    packages: &[Used],
    files: &mut F,
    err: &mut E,
) -> Cut
    ensures tries { (F.honest files.old ≡ true) ⊎ All (λ used. used.«package» ≡ input_package) (map used_in packages.now) → (lines : List (List ℕ))
        × TriesFiles result options (map used_in packages.now) (F.folder files.old) lines (F.folder files.new) × ReportsLines E.Sink err.old err.new lines }
    ensures kept { options.journal ≡ true → files.new ≡ files.old }
    ensures works { WorksOn F.Files result files.old files.new }
    ensures grows { ActsGrow (F.acts files.old) (F.acts files.new) }
{
    let mut cut = Cut::Whole;
    for used in packages {
        let later = write_file(options, used, files, err);
        cut = first_cut(cut, later);
    }
    cut
}

fn ended(failed: bool, changed: bool, cut: Cut) -> Exit
    ensures cut { result.cut ≡ cut }
    ensures failed { cut ≢ Cut.Whole → result.status ≡ 2 }
    ensures whole { cut ≡ Cut.Whole → result.status ≡ (if failed then 2 else (if changed then 0 else 3)) }
    ensures used { result.status ≢ 1 }
{
    let status = if failed || cut != Cut::Whole {
        FAILED
    } else if changed {
        CHANGED
    } else {
        SAME
    };
    Exit { status, cut }
}

/// Ends a run that this failure cut, if one did: standard output is given what was printed and the texts after it, and
/// the files that changed are written, each where it still holds what was read of it; with their journals they were written before, which is
/// reported. A failure is reported, and what is left is done all the same. Of two failures it is that of the files which cuts the run.
pub(crate) fn finish<W: Sink, F: Files, E: Sink>(
    ending: Ending,
    run: Run,
    cut: Cut,
    out: &mut W,
    files: &mut F,
    err: &mut E,
) -> Exit
    ensures whole { result.cut ≡ Cut.Whole → (result.status ≡ status_of Cut.Whole (progress_in run)) × (W.faults out.new ≡ W.faults out.old)
        × (F.faults files.new ≡ F.faults files.old) }
    ensures ends { (F.honest files.old ≡ true) ⊎ All (λ used. used.«package» ≡ input_package) (progress_in run).used
        → (later : Cut) × (written : Cut) × (told : List (List ℕ))
        × TriesFiles written ending.options (progress_in run).used (F.folder files.old) told (F.folder files.new)
        × PrintsUntil W.Sink later out.old out.new ((progress_in run).printed ++ texts_out ending.shown ending.options.to_stdout (progress_in run).used)
        × ReportsLines E.Sink err.old err.new (output_lines later ++ told) × (result.cut ≡ first_cut cut (first_cut written later)) }
    ensures kept { ending.options.journal ≡ true → files.new ≡ files.old }
    ensures status { result.cut ≢ Cut.Whole → result.status ≡ 2 }
    ensures used { result.status ≢ 1 }
    ensures write { result.cut ≡ Cut.Write → cut ≢ Cut.Write → Rises (W.faults out.old) (W.faults out.new) }
    ensures cause { (result.cut ≡ cut) ⊎ ((cut ≡ Cut.Whole) × ((result.cut ≡ Cut.Memory) ⊎ (result.cut ≡ Cut.Write)
        ⊎ ((result.cut ≡ Cut.Files) × Rises (F.faults files.old) (F.faults files.new)))) }
    ensures counts { Counts (F.faults files.old) (F.faults files.new) }
    ensures grows { ActsGrow (F.acts files.old) (F.acts files.new) }
    ensures honest { F.honest files.new ≡ F.honest files.old }
{
    let Run {
        workspace,
        printed,
        failed,
        ..
    } = run;
    let packages = workspace.used();
    let output = print_all(packages, ending, printed, out, err);
    let written = write_files(ending.options, packages, files, err);
    match output {
        Ok(changed) => ended(failed, changed, first_cut(cut, written)),
        Err(later) => ended(failed, true, first_cut(cut, first_cut(written, later))),
    }
}
