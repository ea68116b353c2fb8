//! The words of a command line: options, and where commands and targets are.
ghost use Rattle.std.specs.Prelude.{◌≡◌, false, Ok, Err, IfOk, IfErr, IfSome, map, codes};
ghost use Rattle.clap.specs.Words.{app_of, rule_of, found_of, rows_of};
ghost use Rattle.bz_streams.specs.Options.{option_hint_text};
ghost use Rattle.bz_command_line.specs.App.{buildozer_app, files_app, lines_app, flag_rule, keep_going_rule, profile_rule, script_rule, operand_rule, line_hint};
ghost use Rattle.bz_command_line.specs.Line.{is_flag_set, profile_of, options_of, given_of, with_options, line_of, command_line_of};
ghost use Rattle.bz_command_line.specs.Shown.{given_in, line_in, line_usage_in};
ghost use Rattle.bz_command_line.specs.Worked.{WorkedCommandLines};

use bz_command_syntax::Profile;
use bz_streams::{OptionHint, VERSION, argument_text, argument_texts, option_hint};
use clap::error::ErrorKind;
use clap::{Arg, ArgAction, ArgMatches, Command};
use std::alloc::{AllocError, Global};
use std::convert::AsStr;

/// How the lines are run.
#[derive(Clone, Copy)]
pub struct Options {
    /// `-k`: a line that fails doesn't keep the next ones from being run.
    pub keep_going: bool,
    /// `--stdout`: what a file becomes is written to standard output.
    pub to_stdout: bool,
    /// `--quiet`: nothing is printed of what was done.
    pub quiet: bool,
    /// `--journal`: FILE.journal is kept beside each file, so that a later run can undo.
    pub journal: bool,
    /// `--profile`: in which profile commands are read.
    pub profile: Profile,
}

/// Where commands and targets are.
pub enum Given<'a> {
    /// Among the words: these are all of them that are no option's.
    Operands(Vec<&'a str>),
    /// In a file of lines, of this name: `-f FILE`. `-` means standard input.
    Script(&'a str),
}

impl Drop for Given<'_> {
    fn drop(self) {
        match self {
            Given::Operands(_) => {}
            Given::Script(_) => {}
        }
    }
}

/// What the words of a command line say.
#[derive(Drop)]
pub struct CommandLine<'a> {
    pub options: Options,
    pub given: Given<'a>,
}

/// Why words are no line of the program's.
#[derive(Drop)]
pub enum LineFault<'a> {
    /// They don't fit the program's options, or one is there twice; clap's text says why.
    Clap(clap::Error),
    /// There is no profile of this name.
    NoProfile(&'a str),
    /// There are operands beside `-f`.
    BesideScript,
    /// `--journal` is beside `--stdout`.
    BesideStdout,
    /// A growth was refused.
    Memory,
}

const ABOUT: &str = "Applies commands to the rules of BUILD files.";

const STDOUT_HELP: &str = "Writes changed files to standard output instead of replacing them";

const JOURNAL_HELP: &str = "Keeps FILE.journal beside each file, so that a later run can undo";

const PROFILE_HELP: &str = "The meaning of commands: own, or that of bazelbuild's buildozer";

const EXAMPLES: &str =
    "An operand without a space that has a colon or begins with // is a target: //pkg:rule, //pkg:all,
//pkg:%cc_library, //pkg:__pkg__; package - is standard input. Every other operand is a command.
Each target gets all commands, in order.

Examples:
  buildozer 'add deps //lib:a' 'set testonly True' //pkg:rule
  buildozer 'print name kind deps' //pkg:all
  buildozer -- 'remove deps :old' undo redo -:rule < BUILD
  buildozer --journal 'add deps //lib:a' //pkg:rule; buildozer --journal undo //pkg:rule
  buildozer -k -f commands.txt
    with lines as: add deps :x|//pkg:a|//pkg:b";

fn keep_going<'a>(alloc: Global) -> Arg<'a>
    ensures rule { rule_of result ≡ keep_going_rule }
    ensures local { result.global ≡ false }
{
    Arg::new(alloc, "keep_going")
        .short('k')
        .action(ArgAction::SetTrue)
        .help("Continues after a command or a file that fails")
}

fn file<'a>(alloc: Global) -> Arg<'a>
    ensures rule { rule_of result ≡ script_rule }
    ensures local { result.global ≡ false }
{
    Arg::new(alloc, "file").short('f').value_name("FILE").help(
        "Reads operands from the lines of FILE, separated by |; - is standard input",
    )
}

// An option of this name without a value.
fn flag<'a>(alloc: Global, name: &'a str, help: &'a str) -> Arg<'a>
    ensures rule { rule_of result ≡ flag_rule name.entry.now }
    ensures local { result.global ≡ false }
{
    Arg::new(alloc, name)
        .long(name)
        .action(ArgAction::SetTrue)
        .help(help)
}

fn profile<'a>(alloc: Global) -> Arg<'a>
    ensures rule { rule_of result ≡ profile_rule }
    ensures local { result.global ≡ false }
{
    Arg::new(alloc, "profile")
        .long("profile")
        .value_name("PROFILE")
        .help(PROFILE_HELP)
}

fn operand<'a>(alloc: Global) -> Arg<'a>
    ensures rule { rule_of result ≡ operand_rule }
    ensures local { result.global ≡ false }
{
    Arg::new(alloc, "operand")
        .value_name("OPERAND")
        .action(ArgAction::Append)
        .help("Commands and targets")
}

// How lines are found and run.
fn lines_command<'a>(alloc: Global) -> Result<Command<'a>, AllocError>
    ensures { IfOk result (λ command. app_of command ≡ lines_app) }
{
    Command::new(alloc, "buildozer")
        .no_binary_name(true)
        .version(VERSION)
        .about(ABOUT)
        .after_help(EXAMPLES)
        .arg(operand(alloc))?
        .arg(keep_going(alloc))?
        .arg(file(alloc))
}

// And what becomes of files.
fn files_command<'a>(alloc: Global) -> Result<Command<'a>, AllocError>
    ensures { IfOk result (λ command. app_of command ≡ files_app) }
{
    lines_command(alloc)?
        .arg(flag(alloc, "stdout", STDOUT_HELP))?
        .arg(flag(alloc, "quiet", "Does not report which files were written"))?
        .arg(flag(alloc, "journal", JOURNAL_HELP))
}

fn buildozer_command<'a>(alloc: Global) -> Result<Command<'a>, AllocError>
    ensures { IfOk result (λ command. app_of command ≡ buildozer_app) }
{
    files_command(alloc)?.arg(profile(alloc))
}

fn is_flag_set(matches: &ArgMatches<'_>, id: &str) -> bool
    ensures { result ≡ is_flag_set id.now (rows_of (found_of matches.now)) }
{
    matches!(argument_text(matches, id), Some("true"))
}

// The profile that is named, or the own one. The error: `NoProfile`: there is none of this name.
fn profile_in<'a>(matches: &ArgMatches<'a>) -> Result<Profile, LineFault<'a>>
    ensures ok { IfOk result (λ profile. profile_of (rows_of (found_of matches.now)) ≡ Ok profile) }
    ensures err { IfErr result (λ fault. IfSome (line_usage_in fault) (λ usage. profile_of (rows_of (found_of matches.now)) ≡ Err usage)) }
{
    match argument_text(matches, "profile").unwrap_or("own") {
        "own" => Ok(Profile::Own),
        "bazelbuild" => Ok(Profile::Bazelbuild),
        name => Err(LineFault::NoProfile(name)),
    }
}

impl<'a> CommandLine<'a> {
    // The error: `BesideStdout`: the options say both what is kept beside files and that none is replaced.
    fn of_options(options: Options, given: Given<'a>) -> Result<CommandLine<'a>, LineFault<'a>>
        ensures ok { IfOk result (λ line. with_options options (Ok (given_in given.entry)) ≡ Ok (line_in line)) }
        ensures err { IfErr result (λ fault. IfSome (line_usage_in fault) (λ usage. with_options options (Ok (given_in given.entry)) ≡ Err usage)) }
    {
        if options.journal && options.to_stdout {
            return Err(LineFault::BesideStdout);
        }
        Ok(CommandLine { options, given })
    }

    // What clap found, in a profile. Operands beside `-f` are reported first.
    fn in_profile(
        alloc: Global,
        profile: Profile,
        matches: &ArgMatches<'a>,
    ) -> Result<CommandLine<'a>, LineFault<'a>>
        ensures ok { IfOk result (λ line. with_options (options_of profile (rows_of (found_of matches.now))) (given_of (rows_of (found_of matches.now))) ≡ Ok (line_in line)) }
        ensures err { IfErr result (λ fault. IfSome (line_usage_in fault) (λ usage.
            with_options (options_of profile (rows_of (found_of matches.now))) (given_of (rows_of (found_of matches.now))) ≡ Err usage)) }
    {
        let operands = argument_texts(alloc, matches, "operand").map_err(|_| LineFault::Memory)?;
        let options = Options {
            keep_going: is_flag_set(matches, "keep_going"),
            to_stdout: is_flag_set(matches, "stdout"),
            quiet: is_flag_set(matches, "quiet"),
            journal: is_flag_set(matches, "journal"),
            profile,
        };
        let Some(file) = argument_text(matches, "file") else {
            return CommandLine::of_options(options, Given::Operands(operands));
        };
        if !operands.is_empty() {
            return Err(LineFault::BesideScript);
        }
        CommandLine::of_options(options, Given::Script(file))
    }

    // What clap found. A text that is no profile is reported first.
    fn of_matches(alloc: Global, matches: &ArgMatches<'a>) -> Result<CommandLine<'a>, LineFault<'a>>
        ensures ok { IfOk result (λ line. line_of (rows_of (found_of matches.now)) ≡ Ok (line_in line)) }
        ensures err { IfErr result (λ fault. IfSome (line_usage_in fault) (λ usage. line_of (rows_of (found_of matches.now)) ≡ Err usage)) }
    {
        match profile_in(matches) {
            Ok(profile) => CommandLine::in_profile(alloc, profile, matches),
            Err(fault) => Err(fault),
        }
    }
}

/// What the words after the program's name say. Errors: `Clap` where clap finds a fault in them, repeated options among
/// these; else `NoProfile` where a text is no profile, else `BesideScript` where operands are beside `-f`, else `BesideStdout` where
/// `--journal` is beside `--stdout`; `Memory`: a growth was refused.
pub fn read_line<'a, S: AsStr>(
    alloc: Global,
    words: &'a [S],
) -> Result<CommandLine<'a>, LineFault<'a>>
    ensures ok { IfOk result (λ line. command_line_of (map S.text words.entry.now) ≡ Ok (line_in line)) }
    ensures err { IfErr result (λ fault. IfSome (line_usage_in fault) (λ usage. command_line_of (map S.text words.entry.now) ≡ Err usage)) }
{
    let Ok(command) = buildozer_command(alloc) else {
        return Err(LineFault::Memory);
    };
    match command.try_get_matches_from(words) {
        Ok(matches) => CommandLine::of_matches(alloc, &matches),
        Err(error) if error.kind() == ErrorKind::OutOfMemory => Err(LineFault::Memory),
        Err(error) => Err(LineFault::Clap(error)),
    }
}

/// What is printed below clap's text of words that it refuses: a line on the first word before `--` that is written as an option and is
/// none, or nothing. The error: memory was refused.
pub(crate) fn line_hint<'a, S: AsStr>(
    alloc: Global,
    words: &'a [S],
) -> Result<OptionHint<'a>, AllocError>
    ensures { IfOk result (λ hint. option_hint_text (codes "buildozer") hint ≡ line_hint (map S.text words.entry.now)) }
{
    let names = &["stdout", "quiet", "journal", "profile", "help", "version"];
    Ok(option_hint(alloc, names, b"kfhV", words)?)
}

/// A fact about the definitions, for readers: what lines of words and files of lines say, worked out by hand. It does nothing.
pub fn worked_command_lines()
    ensures { WorkedCommandLines }
{}
