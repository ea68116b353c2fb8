//! Commands and targets as a session takes them.
ghost use Rattle.std.specs.Prelude.{◌≡◌, ◌≤◌, length, map, not, option_map, true};
ghost use Rattle.std.specs.List.{list_any};
ghost use Rattle.bz_command_line.specs.Paths.{HasPath};
ghost use Rattle.bz_buildozer.specs.Sessions.{action_in};
ghost use Rattle.bz_buildozer.specs.Steps as s;
ghost use Rattle.bz_buildozer.specs.private.Shown.{targets_file_in, targets_input_in, prints_nothing_in, shown_in};
ghost use Rattle.bz_buildozer.specs.Steps.{all_steps, is_of_input, steps_requested};
ghost use Rattle.bz_buildozer.specs.Words.{requested_in};

use crate::script::INPUT;
use bz_command_line::{Request, Requested, Verb};
use bz_journal::Action;
use bz_label::Target;

/// A target, and a command on it.
#[derive(Clone, Copy)]
pub(crate) struct Step<'a> {
    pub(crate) target: &'a Target,
    pub(crate) request: &'a Request<'a>,
}

/// What the session of the target's file is to do; to list its texts is no action.
pub(crate) fn action_of<'a>(verb: &'a Verb, target: &'a Target) -> Option<Action<'a>>
    ensures { option_map action_in result ≡ s.action_of target.entry.now verb.entry.now }
{
    match verb {
        Verb::Do(command) => Some(Action::Do(command, target)),
        Verb::Undo(count) => Some(Action::Undo(*count)),
        Verb::Redo(count) => Some(Action::Redo(*count)),
        Verb::Journal => None,
        Verb::Format => Some(Action::Format),
    }
}

/// The path of the target's package.
pub(crate) fn package_of(target: &Target) -> &str
    requires { HasPath target.now }
    ensures { result.now ≡ target.now.«package» }
{
    str::from_utf8(target.package.as_slice()).unwrap()
}

/// Whether rules of standard input are meant.
pub(crate) fn is_of_input(target: &Target) -> bool
    ensures { result ≡ is_of_input target.now }
{
    target.package.as_slice() == INPUT.as_bytes()
}

// Whether rules of a file are meant.
fn is_of_file(target: &Target) -> bool
    ensures { result ≡ not (is_of_input target.now) }
{
    !is_of_input(target)
}

// Whether a command doesn't print.
fn prints_nothing(request: &Request<'_>) -> bool
    ensures { result ≡ prints_nothing_in request.now }
{
    !request.verb.prints()
}

// Whether rules of standard input are meant in a line.
fn targets_input(line: &Requested<'_>) -> bool
    ensures { result ≡ targets_input_in line.now }
{
    line.targets.iter().any(|target| is_of_input(target))
}

// Whether rules of a file are meant in a line.
fn targets_file(line: &Requested<'_>) -> bool
    ensures { result ≡ targets_file_in line.now }
{
    line.targets.iter().any(|target| is_of_file(target))
}

// Whether a command among them doesn't print.
fn any_prints_nothing(commands: &[Request<'_>]) -> bool
    ensures { result ≡ list_any prints_nothing_in commands.now }
{
    commands.iter().any(|request| prints_nothing(request))
}

// Whether a line has a command on rules of standard input that doesn't print.
fn is_shown(line: &Requested<'_>) -> bool
    ensures { result ≡ shown_in line.now }
{
    targets_input(line) && any_prints_nothing(&line.commands)
}

/// Whether rules of standard input are meant in one of the lines.
pub(crate) fn names_input(lines: &[Requested<'_>]) -> bool
    ensures { result ≡ list_any targets_input_in lines.now }
{
    lines.iter().any(|line| targets_input(line))
}

/// Whether rules of a file are meant in one of the lines.
pub(crate) fn names_file(lines: &[Requested<'_>]) -> bool
    ensures { result ≡ list_any targets_file_in lines.now }
{
    lines.iter().any(|line| targets_file(line))
}

/// Whether the text of standard input is shown: a command on it is not one that prints.
pub(crate) fn shows_input(lines: &[Requested<'_>]) -> bool
    ensures { result ≡ list_any shown_in lines.now }
{
    lines.iter().any(|line| is_shown(line))
}

// Whether a line is one command on one target.
fn is_one_step(line: &Requested<'_>) -> bool
    ensures { result ≡ true → length (steps_requested (requested_in line.now)) ≤ 1 }
{
    if line.commands.len() != 1 {
        return false;
    }
    line.targets.len() == 1
}

/// Whether a run is one step: then no action follows on the text that its action makes. Only `are_one_step` says so.
#[derive(Clone, Copy)]
pub(crate) struct OneStep {
    holds: bool,
}

impl OneStep {
    /// Whether it is.
    pub(crate) fn holds(self) -> bool
        ensures { result ≡ self.holds }
    {
        self.holds
    }
}

/// Whether lines are one command on one target.
pub(crate) fn are_one_step(lines: &[Requested<'_>]) -> OneStep
    ensures { result.holds ≡ true → length (all_steps (map requested_in lines.now)) ≤ 1 }
{
    match lines {
        [line] => OneStep {
            holds: is_one_step(line),
        },
        _ => OneStep { holds: false },
    }
}
