//! One step.
ghost use Rattle.std.specs.Prelude.{◌≡◌, ◌≢◌, ◌⊎◌, ◌&&◌, ◌++◌, [], ◌∷◌, ℕ, List, Bool, Some, None, Err, true, false, IsSome, IfSome, OnOk, OnErr};
ghost use Rattle.bz_buildozer.specs.Words.{Folder, Reads, Node, HasPath};
ghost use Rattle.bz_buildozer.specs.Sessions.{Do, History, action_in, present};
ghost use Rattle.bz_buildozer.specs.Found as p;
ghost use Rattle.bz_buildozer.specs.Found.{file_at};
ghost use Rattle.bz_buildozer.specs.private.ShownFiles.{opened_in, used_in};
ghost use Rattle.bz_buildozer.specs.Calls.{KeepsStep, ReportsLine, ReportsLines, WorksOn, spot, Proceeds};
ghost use Rattle.bz_buildozer.specs.Keeps.{is_left_at};
ghost use Rattle.bz_buildozer.specs.Moments.{AllAreSafe};
ghost use Rattle.bz_buildozer.specs.Reported.{unkept_line};
ghost use Rattle.bz_buildozer.specs.Run.{Answers, AreHints, Does, LeadsBy, reply_notes, printed_in, reported_of};
ghost use Rattle.bz_buildozer.specs.private.Shown.{progress_in, step_in};
ghost use Rattle.bz_buildozer.specs.Steps as s;
ghost use Rattle.bz_buildozer.specs.Steps.{RunStep, input_package};
ghost use Rattle.bz_buildozer.specs.Unread.{ActsGrow};

use crate::reported::{fail, report_refusal};
use crate::run::Run;
use crate::script::INPUT;
use crate::settling::folder_of;
use crate::step::{Step, action_of, is_of_input, package_of};
use crate::used::{Opened, Used};
use crate::workspace::Workspace;
use bz_command_line::Verb;
use bz_command_syntax::Command;
use bz_files::Files;
use bz_hint::{report_hint, report_notes};
use bz_items::at;
use bz_journal::{Action, KeepFault, Reply};
use bz_label::Target;
use bz_resume::PairFault;
use bz_streams::{Cut, Sink, Source, first_cut};
use bz_value::Refusal;
use std::alloc::AllocError;

// The file of a package, which is open.
fn file_of(used: &Used) -> &Opened
    requires { IsSome (used_in used.now).file }
    ensures { (used_in used.now).file ≡ Some (opened_in result.now) }
{
    match &used.file {
        Some(file) => file,
        None => unreachable!(),
    }
}

// The open file of the package with this number.
fn open_file(workspace: &Workspace, place: usize) -> &Opened
    requires { IsSome (file_at place workspace.now) }
    ensures { file_at place workspace.now ≡ Some (opened_in result.now) }
{
    match at(workspace.used(), place) {
        Some(used) => file_of(used),
        None => unreachable!(),
    }
}

// Appends what a reply prints. The error: memory was refused for that, and nothing is appended.
fn put_printed(reply: &Reply, printed: &mut Vec<u8>) -> Result<(), AllocError>
    ensures ok { OnOk result (printed.new.items ≡ printed.old.items ++ printed_in reply.now) }
    ensures err { OnErr result ((printed.new.items ≡ printed.old.items) × ((text : List ℕ) × (reply.now ≡ Reply.Printed text))) }
{
    if let Reply::Printed(text) = reply {
        printed.extend_from_slice(text.as_slice())?;
    }
    Ok(())
}

// A command is refused, which is reported by its file, where journals are kept or not.
fn refuse<E: Sink>(
    journals: bool,
    run: &mut Run,
    place: usize,
    command: &str,
    refusal: Refusal,
    err: &mut E,
) -> Cut
    requires { IsSome (file_at place run.old.workspace) }
    ensures kinds { (result ≡ Cut.Whole) ⊎ (result ≡ Cut.Memory) }
    ensures whole { result ≡ Cut.Whole → (refusal ≢ Refusal.Memory) }
    ensures state { progress_in run.new ≡ record (progress_in run.old) { failed = true } }
    ensures reported { (file : p.Opened) → file_at place run.old.workspace ≡ Some file
        → ReportsLines E.Sink err.old err.new (reported_of journals file.name command.now (Err refusal) []) }
{
    run.failed = true;
    let name = open_file(&run.workspace, place).name.as_str();
    report_refusal(err, journals, name, command, refusal);
    match refusal {
        Refusal::Memory => Cut::Memory,
        _ => Cut::Whole,
    }
}

// The package of the labels in the file of this name, in which a target is.
fn label_package<'a>(target: &Target, name: &'a str) -> &'a [u8]
    ensures { result.now ≡ p.package_of target.now.«package» name.entry.now }
{
    if is_of_input(target) {
        return INPUT.as_bytes();
    }
    folder_of(name).as_bytes()
}

// Reports what helps below the line of a command that is refused, where its note isn't too long. Memory may be refused for that, or was to
// the command; then nothing is reported.
fn help<E: Sink>(
    run: &Run,
    place: usize,
    command: &Command,
    target: &Target,
    refusal: Refusal,
    err: &mut E,
) -> Cut
    requires { IsSome (file_at place run.now.workspace) }
    ensures kinds { (result ≡ Cut.Whole) ⊎ (result ≡ Cut.Memory) }
    ensures whole { result ≡ Cut.Whole → refusal ≢ Refusal.Memory }
    ensures hints { (file : p.Opened) → file_at place run.now.workspace ≡ Some file
        → (refusal ≢ Refusal.Memory → refusal ≢ Refusal.NoteTooLong → (n : Node) × Reads (present file.history) n)
        → (hint : List (List ℕ)) × ReportsLines E.Sink err.old err.new hint × (result ≡ Cut.Memory → hint ≡ [])
        × (result ≡ Cut.Whole → AreHints (Err refusal) (Some (Do command.now target.now)) file.name file.history hint) }
{
    match refusal {
        Refusal::Memory => return Cut::Memory,
        Refusal::NoteTooLong => return Cut::Whole,
        _ => {}
    }
    let file = open_file(&run.workspace, place);
    let alloc = *run.printed.allocator();
    let mut text = Vec::new(alloc);
    let Ok(()) = file.past.text_into(&mut text) else {
        return Cut::Memory;
    };
    let name = file.name.as_str();
    let package = label_package(target, name);
    match report_hint(alloc, err, name, &text, command, target, package, refusal) {
        Ok(()) => Cut::Whole,
        Err(_) => Cut::Memory,
    }
}

// The action of a step is refused, which is reported, and below that what helps.
fn refuse_action<E: Sink>(
    journals: bool,
    run: &mut Run,
    place: usize,
    step: Step<'_>,
    refusal: Refusal,
    err: &mut E,
) -> Cut
    requires { IsSome (file_at place run.old.workspace) }
    ensures kinds { (result ≡ Cut.Whole) ⊎ (result ≡ Cut.Memory) }
    ensures whole { result ≡ Cut.Whole → refusal ≢ Refusal.Memory }
    ensures state { progress_in run.new ≡ record (progress_in run.old) { failed = true } }
    ensures reported { (file : p.Opened) → file_at place run.old.workspace ≡ Some file
        → (refusal ≢ Refusal.Memory → (h : History) × LeadsBy (s.action_of step.entry.target.now (step_in step.entry).request.verb) step.entry.request.now.text.now h (Err refusal) file.history)
        → (hint : List (List ℕ)) × ReportsLines E.Sink err.old err.new (reported_of journals file.name step.entry.request.now.text.now (Err refusal) hint)
        × (result ≡ Cut.Memory → hint ≡ []) × (result ≡ Cut.Whole → AreHints (Err refusal) (s.action_of step.entry.target.now (step_in step.entry).request.verb) file.name file.history hint) }
{
    let cut = refuse(journals, run, place, step.request.text, refusal, err);
    match &step.request.verb {
        Verb::Do(command) => help(run, place, command, step.target, refusal, err),
        Verb::Undo(_) | Verb::Redo(_) | Verb::Journal | Verb::Format => cut,
    }
}

// Reports what is to be noted of an action that gave this reply in the open file of the package with this number. It takes no memory.
fn note<E: Sink>(run: &Run, place: usize, action: &Action<'_>, reply: &Reply, err: &mut E) -> Cut
    requires { IsSome (file_at place run.now.workspace) }
    ensures cut { result ≡ Cut.Whole }
    ensures notes { (file : p.Opened) → file_at place run.now.workspace ≡ Some file
        → ReportsLines E.Sink err.old err.new (reply_notes (Some (action_in action.now)) reply.now file.name) }
{
    let name = open_file(&run.workspace, place).name.as_str();
    if let Action::Do(command, _) = action
        && let Reply::Changed = reply
    {
        report_notes(err, name, command);
    }
    Cut::Whole
}

// Lists the texts of the open file of the package with this number.
fn list_at<E: Sink>(journals: bool, run: &mut Run, place: usize, command: &str, err: &mut E) -> Cut
    requires { IsSome (file_at place run.old.workspace) }
    ensures kinds { (result ≡ Cut.Whole) ⊎ (result ≡ Cut.Memory) }
    ensures answers { (folder : Folder) (step : RunStep) → (journals && is_left_at place run.old.workspace) ≡ false
        → s.action_of step.target step.request.verb ≡ None → step.request.text ≡ command.now → (lines : List (List ℕ))
        × Answers result journals step (Some place) folder (progress_in run.old) lines folder (progress_in run.new) × ReportsLines E.Sink err.old err.new lines }
    ensures same { run.new.workspace ≡ run.old.workspace }
{
    let alloc = *run.printed.allocator();
    let Ok(text) = open_file(&run.workspace, place).past.listing(alloc) else {
        return refuse(journals, run, place, command, Refusal::Memory, err);
    };
    match put_printed(&Reply::Printed(text), &mut run.printed) {
        Ok(()) => Cut::Whole,
        Err(_) => refuse(journals, run, place, command, Refusal::Memory, err),
    }
}

// Whether journals are kept, and the file of the package with this number is left alone, since its journal and it could not both be
// written in this run.
fn is_left_at(journals: bool, workspace: &Workspace, place: usize) -> bool
    requires { IsSome (file_at place workspace.now) }
    ensures { result ≡ (journals && is_left_at place workspace.now) }
{
    journals && open_file(workspace, place).left
}

// The journal and the file of a package were not both replaced, which is reported.
fn leave<E: Sink>(run: &mut Run, place: usize, fault: PairFault, err: &mut E) -> Cut
    requires { IsSome (file_at place run.old.workspace) }
    ensures state { progress_in run.new ≡ record (progress_in run.old) { failed = true } }
    ensures cut { ((result ≡ Cut.Whole) × (fault ≡ PairFault.Changed)) ⊎ ((result ≡ Cut.Memory) × (fault ≡ PairFault.Memory))
        ⊎ ((result ≡ Cut.Files) × ((fault ≡ PairFault.Write) ⊎ (fault ≡ PairFault.Open))) }
    ensures reported { (file : p.Opened) → file_at place run.old.workspace ≡ Some file → ReportsLine E.Sink err.old err.new (unkept_line file.name fault) }
{
    run.failed = true;
    let name = open_file(&run.workspace, place).name.as_str();
    match fault {
        PairFault::Memory => fail(err, name, "Memory", Cut::Memory),
        PairFault::Changed => fail(err, name, "cannot write", Cut::Whole),
        PairFault::Open => fail(err, name, "cannot write", Cut::Files),
        PairFault::Write => fail(err, name, "cannot write", Cut::Files),
    }
}

// Does a step in the open file of the package with this number, unless there is none or it is left alone. Where journals are kept, its
// journal and it are kept after an action. What it prints is kept too, what is to be noted is reported, and so is a refusal, and below it
// what helps.
fn act<F: Files, E: Sink>(
    journals: bool,
    run: &mut Run,
    place: Option<usize>,
    step: Step<'_>,
    files: &mut F,
    err: &mut E,
) -> Cut
    requires { IfSome place (λ at. IsSome (file_at at run.old.workspace)) }
    ensures answers { (journals ≡ true → F.honest files.old ≡ true) → (journals ≡ true → AllAreSafe (F.folder files.old) run.old.workspace) → (lines : List (List ℕ))
        × Answers result journals (step_in step.entry) place (F.folder files.old) (progress_in run.old) lines (F.folder files.new) (progress_in run.new)
        × ReportsLines E.Sink err.old err.new lines }
    ensures keeps { journals ≡ true → KeepsStep F.Files (step_in step.entry) place run.old.workspace run.new.workspace files.old files.new }
    ensures works { WorksOn F.Files result files.old files.new }
    ensures grows { ActsGrow (F.acts files.old) (F.acts files.new) }
{
    let Some(place) = place else {
        run.failed = true;
        return Cut::Whole;
    };
    if is_left_at(journals, &run.workspace, place) {
        run.failed = true;
        return Cut::Whole;
    }
    let command = step.request.text;
    let Some(action) = action_of(&step.request.verb, step.target) else {
        return list_at(journals, run, place, command, err);
    };
    let once = run.once;
    match run
        .workspace
        .act(journals, place, &action, command, once, files)
    {
        Ok(reply) => match put_printed(&reply, &mut run.printed) {
            Ok(()) => note(run, place, &action, &reply, err),
            Err(_) => refuse(journals, run, place, command, Refusal::Memory, err),
        },
        Err(KeepFault::Refused(refusal)) => {
            refuse_action(journals, run, place, step, refusal, err)
        }
        Err(KeepFault::Pair(fault)) => leave(run, place, fault, err),
    }
}

/// Does one step: opens its package, if that was not used before, and does its command there. Where journals are kept, that is done on
/// the file and its journal.
pub(crate) fn do_step<R: Source, F: Files, E: Sink>(
    journals: bool,
    run: &mut Run,
    step: Step<'_>,
    input: &mut R,
    files: &mut F,
    err: &mut E,
) -> Cut
    requires { HasPath step.target.now }
    ensures { Proceeds journals (step.entry.target.now.«package» ≡ input_package) (step_in step.entry ∷ [])
        (λ why world. Does why journals world (step_in step.entry)) result
        (spot R.Source F.Files E.Sink run.old input.old files.old err.old) (spot R.Source F.Files E.Sink run.new input.new files.new err.new) }
{
    let package = package_of(step.target);
    let opening = run.workspace.open(package, journals, input, files, err);
    let acted = act(journals, run, opening.place, step, files, err);
    first_cut(opening.cut, acted)
}
