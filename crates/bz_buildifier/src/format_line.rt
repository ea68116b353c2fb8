//! The words of buildifier's line.
ghost use Rattle.std.specs.Prelude.{◌≡◌, [], false, Ok, IfOk, IfErr, codes, map};
ghost use Rattle.bz_buildifier.specs.Words.{kind_of, app_of, rule_of, found_of, fault_of, matches_of, rows_of, option_hint_text};
ghost use Rattle.bz_buildifier.specs.Modes.{buildifier_app, option_rule, files_rule, format_line, is_request, clap_hint};
ghost use Rattle.bz_buildifier.specs.private.FormatShown.{seen_line, IsUsageOf};

use crate::file_type::FileType;
use crate::mode::Mode;
use bz_streams::{OptionHint, VERSION, argument_text, argument_texts, option_hint};
use clap::error::ErrorKind;
use clap::{Arg, ArgAction, ArgMatches, Command};
use std::alloc::{AllocError, Global};
use std::convert::AsStr;

/// What is to be done with texts, and where memory for that comes from.
#[derive(Clone, Copy)]
pub(crate) struct Options {
    pub(crate) alloc: Global,
    pub(crate) mode: Mode,
    pub(crate) file_type: FileType,
}

/// The options and the files of a line.
#[derive(Drop)]
pub(crate) struct FormatLine<'a> {
    pub(crate) options: Options,
    pub(crate) files: Vec<&'a str>,
}

/// Why words are no line of buildifier's.
#[derive(Drop)]
pub(crate) enum FormatUsage<'a> {
    /// A fault that clap finds; its text says why.
    Line(clap::Error),
    /// There is no mode of this name.
    NoMode(&'a str),
    /// There is no type of this name.
    NoType(&'a str),
    /// Memory was refused.
    Memory,
}

const ABOUT: &str =
    "Formats BUILD and .bzl files in one canonical layout. Without files, it formats standard input.";

const MODE_HELP: &str =
    "What to do with a file that is not formatted: fix, check or print_if_changed";

const TYPE_HELP: &str = "The type of the files: auto (by their names), build or bzl";

const EXAMPLES: &str = "Modes:
  fix               rewrites each file that is not formatted (the default)
  check             reports which files would change
  print_if_changed  writes the formatted text of each file that would change to standard output

Types:
  auto              a file whose name ends in .bzl is a .bzl file, any other a BUILD file (the default)
  build, bzl        every file is of this type, and so is standard input

Examples:
  buildifier BUILD lib/BUILD.bazel lib/rules.bzl
  buildifier --mode=check lib/BUILD
  buildifier --type=bzl < lib/rules.bzl";

fn option<'a>(alloc: Global, name: &'a str, value: &'a str, help: &'a str) -> Arg<'a>
    ensures rule { rule_of result ≡ option_rule name.entry.now }
    ensures local { result.global ≡ false }
{
    Arg::new(alloc, name)
        .long(name)
        .value_name(value)
        .help(help)
}

fn file<'a>(alloc: Global) -> Arg<'a>
    ensures rule { rule_of result ≡ files_rule }
    ensures local { result.global ≡ false }
{
    let file = Arg::new(alloc, "file").value_name("FILE");
    file.action(ArgAction::Append)
        .help("BUILD and .bzl files, as paths")
}

fn buildifier_command<'a>(alloc: Global) -> Result<Command<'a>, AllocError>
    ensures { IfOk result (λ command. app_of command ≡ buildifier_app) }
{
    Command::new(alloc, "buildifier")
        .no_binary_name(true)
        .version(VERSION)
        .about(ABOUT)
        .after_help(EXAMPLES)
        .arg(option(alloc, "mode", "MODE", MODE_HELP))?
        .arg(option(alloc, "type", "TYPE", TYPE_HELP))?
        .arg(file(alloc))
}

fn parse<'a, S: AsStr>(alloc: Global, words: &'a [S]) -> Result<ArgMatches<'a>, FormatUsage<'a>>
    ensures ok { IfOk result (λ m. (fault_of buildifier_app (map S.text words.entry.now) ≡ [])
        × (rows_of (found_of m) ≡ matches_of buildifier_app (map S.text words.entry.now))) }
    ensures err { IfErr result (IsUsageOf (map S.text words.entry.now)) }
{
    let Ok(command) = buildifier_command(alloc) else {
        return Err(FormatUsage::Memory);
    };
    match command.try_get_matches_from(words) {
        Ok(matches) => Ok(matches),
        Err(error) if error.kind() == ErrorKind::OutOfMemory => Err(FormatUsage::Memory),
        Err(error) => Err(FormatUsage::Line(error)),
    }
}

/// The line of the words. Errors: `Line` where clap finds a fault; `NoMode` where the mode named is none, else `NoType` where
/// the type named is none; `Memory`: a growth was refused.
pub(crate) fn read_format_line<'a, S: AsStr>(
    alloc: Global,
    words: &'a [S],
) -> Result<FormatLine<'a>, FormatUsage<'a>>
    ensures ok { IfOk result (λ line. format_line (map S.text words.entry.now) ≡ Ok (seen_line line)) }
    ensures err { IfErr result (IsUsageOf (map S.text words.entry.now)) }
{
    let matches = parse(alloc, words)?;
    let name = argument_text(&matches, "mode").unwrap_or("fix");
    let Some(mode) = Mode::called(name) else {
        return Err(FormatUsage::NoMode(name));
    };
    let type_name = argument_text(&matches, "type").unwrap_or("auto");
    let Some(file_type) = FileType::called(type_name) else {
        return Err(FormatUsage::NoType(type_name));
    };
    let Ok(files) = argument_texts(alloc, &matches, "file") else {
        return Err(FormatUsage::Memory);
    };
    let options = Options {
        alloc,
        mode,
        file_type,
    };
    Ok(FormatLine { options, files })
}

// Whether help or the version was requested.
fn is_request(kind: ErrorKind) -> bool
    ensures { result ≡ is_request kind }
{
    matches!(kind, ErrorKind::DisplayHelp | ErrorKind::DisplayVersion)
}

/// What is printed below clap's text of a fault that it finds in these words: which option may have been meant, or where those of
/// other programs are listed; nothing below help and the version. The error: memory was refused.
pub(crate) fn clap_hint<'a, S: AsStr>(
    alloc: Global,
    error: &clap::Error,
    words: &'a [S],
) -> Result<OptionHint<'a>, AllocError>
    ensures { IfOk result (λ hint. option_hint_text (codes "buildifier") hint ≡ clap_hint (kind_of error.now) (map S.text words.entry.now)) }
{
    if is_request(error.kind()) {
        return Ok(OptionHint::Nothing);
    }
    option_hint(alloc, &["mode", "type", "help", "version"], b"hV", words)
}
