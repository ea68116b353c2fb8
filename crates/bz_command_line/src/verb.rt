//! What a command's text requests, and what is printed after the line of an operand that is refused.
ghost use Rattle.std.specs.Prelude.{◌≡◌, ◌⊎◌, ◌++◌, ◌||◌, codes, Ok, Err, IfOk, IfErr, map, option_map, string_bytes};
ghost use Rattle.bz_label.specs.Pieces.{has_slash, has_colon};
ghost use Rattle.bz_command_syntax.specs.Commands.{row_named};
ghost use Rattle.bz_command_syntax.specs.Proper.{AreUtf8};
ghost use Rattle.bz_streams.specs.Near.{nearest};
ghost use Rattle.bz_command_line.specs.Operands.{begins_with, verb_of, of_command, count_of, file_verb_in, steps_of, without_words};
ghost use Rattle.bz_command_line.specs.Hints.{verb_forms, fix_names, did_you_mean, bad_target_hint, target_hint, name_hint, is_fix, near_word, words_end, fields_line, form_end, form_hint, words_hint, pattern_line, hint_in, hint_for};
ghost use Rattle.bz_command_line.specs.Refused.{IsPatternFault};
ghost use Rattle.bz_command_line.specs.Shown.{refused_in, pattern_in};
ghost use Rattle.bz_command_line.specs.Verbs.{prints, operand_fault_name, operand_fault_number};

use crate::pattern::PatternFault;
use bz_command_syntax::{
    COMMAND_NAMES, Command, CommandFault, Profile, TEXT_LIMIT, as_text, command_form, read_words,
};
use bz_items::Text;
use bz_streams::nearest;
use itoa::Buffer;
use std::alloc::{AllocError, Global};

/// What a command requests.
pub enum Verb {
    /// The command, on the rules that the target means.
    Do(Command),
    /// Back by this many steps.
    Undo(u32),
    /// Forward by this many steps.
    Redo(u32),
    /// The texts of the file are listed.
    Journal,
    /// The file is formatted.
    Format,
}

impl Drop for Verb {
    fn drop(self) {
        match self {
            Verb::Do(_) => {}
            Verb::Undo(_) => {}
            Verb::Redo(_) => {}
            Verb::Journal => {}
            Verb::Format => {}
        }
    }
}

impl Verb {
    /// Whether it prints, and leaves the file as it is.
    pub fn prints(&self) -> bool
        ensures { result ≡ prints self.now }
    {
        match self {
            Verb::Do(command) => command.prints(),
            Verb::Undo(_) | Verb::Redo(_) | Verb::Format => false,
            Verb::Journal => true,
        }
    }
}

/// Why an operand is refused.
#[derive(Clone, Copy)]
pub enum OperandFault {
    /// A growth was refused.
    Memory,
    /// A text that is no target.
    BadTarget,
    /// No command: no name of one, or the number or the form of its arguments is wrong, or it is too long, or its pattern is
    /// none.
    Command(CommandFault),
}

impl OperandFault {
    /// The name by which the fault is reported.
    pub fn name(&self) -> &'static str
        ensures { result.now ≡ operand_fault_name self.now }
    {
        match self {
            OperandFault::Memory => "Memory",
            OperandFault::BadTarget => "BadTarget",
            OperandFault::Command(fault) => fault.name(),
        }
    }

    /// The number by which the fault is reported.
    pub fn number(&self) -> u8
        ensures { result ≡ operand_fault_number self.now }
    {
        match self {
            OperandFault::Memory => 8,
            OperandFault::BadTarget => 12,
            OperandFault::Command(fault) => fault.number(),
        }
    }
}

/// An operand that is refused.
#[derive(Drop)]
pub struct Refused<'a> {
    /// The profile in which it was read.
    pub profile: Profile,
    pub operand: &'a str,
    pub fault: OperandFault,
    /// Of a pattern that is refused: why, where that is known.
    pub pattern: Option<PatternFault>,
}

const WRONG_ARGUMENTS: OperandFault = OperandFault::Command(CommandFault::Arguments);

#[tactic(auto, using(crate::proofs::Counts::count_ends))]
fn read_count(word: &[u8]) -> Option<u32>
    ensures { result ≡ count_of word.now }
{
    let mut count: u64 = 0;
    let mut left = word;
    while let Some((&byte, rest)) = left.split_first() {
        if !byte.is_ascii_digit() {
            return None;
        }
        count = count * 10 + u64::from(byte - b'0');
        if count > u64::from(u32::MAX) {
            return None;
        }
        left = rest;
    }
    if count > 0 { Some(count as u32) } else { None }
}

// How many steps are requested.
fn read_steps(arguments: &[Text]) -> Result<u32, OperandFault>
    ensures { result ≡ steps_of arguments.now }
{
    match arguments {
        [] => Ok(1),
        [count] => read_count(count.as_slice()).ok_or(WRONG_ARGUMENTS),
        _ => Err(WRONG_ARGUMENTS),
    }
}

// What `undo`, `redo`, `journal` or `format` reads, where the words begin with one of them.
fn file_verb_in(words: &[Text]) -> Option<Result<Verb, OperandFault>>
    ensures { result ≡ file_verb_in words.now }
{
    let (name, arguments) = words.split_first()?;
    let name = name.as_slice();
    if name == b"undo".as_slice() {
        return Some(read_steps(arguments).map(|count| Verb::Undo(count)));
    }
    if name == b"redo".as_slice() {
        return Some(read_steps(arguments).map(|count| Verb::Redo(count)));
    }
    if name == b"journal".as_slice() {
        return Some(alone(Verb::Journal, arguments));
    }
    if name == b"format".as_slice() {
        return Some(alone(Verb::Format, arguments));
    }
    None
}

// What is requested, where no words follow.
fn alone(verb: Verb, arguments: &[Text]) -> Result<Verb, OperandFault>
    ensures { result ≡ without_words verb arguments.now }
{
    if arguments.is_empty() {
        Ok(verb)
    } else {
        Err(WRONG_ARGUMENTS)
    }
}

fn of_command(fault: CommandFault) -> OperandFault
    ensures { result ≡ of_command fault }
{
    match fault {
        CommandFault::Memory => OperandFault::Memory,
        _ => OperandFault::Command(fault),
    }
}

/// What the command of this text requests in a profile. Errors: `Command`: there is no command of that name, its arguments are wrong,
/// it is too long, or `regex` refuses its pattern; `Memory`: a growth was refused.
pub(crate) fn read_verb(alloc: Global, profile: Profile, text: &str) -> Result<Verb, OperandFault>
    ensures ok { IfOk result (λ verb. verb_of profile text.now ≡ Ok verb) }
    ensures err { IfErr result (λ fault. (verb_of profile text.now ≡ Err fault) ⊎ IsPatternFault profile text.now fault ⊎ (fault ≡ OperandFault.Memory)) }
{
    let Ok(words) = read_words(alloc, text.as_bytes()) else {
        return Err(OperandFault::Memory);
    };
    let fits = text.len() <= TEXT_LIMIT;
    match file_verb_in(&words) {
        Some(verb) if fits => verb,
        Some(_) => Err(WRONG_ARGUMENTS),
        None => match Command::of_words_in(profile, words, fits) {
            Ok(command) => Ok(Verb::Do(command)),
            Err(fault) => Err(of_command(fault)),
        },
    }
}

const HELP_HINT: &str = "buildozer: see buildozer --help, or man buildozer\n";

const TOO_LARGE: &str = "buildozer: the pattern is too large when compiled\n";

const LENGTH_HINT: &str = "buildozer: a command has at most 65,536 bytes\n";

const TARGET_HINT: &str =
    "buildozer: a target has a colon or begins with //, and contains no space\n";

const REPOSITORY_HINT: &str =
    "buildozer: a target begins with no @: to edit another repository, run buildozer in its root\n";

const TARGET_FORM: &str =
    "buildozer: the form of a target is //PACKAGE:NAME, without an empty part; a package has at most 65,536 bytes\n";

const UNKNOWN_LINE: &str =
    "buildozer: there is no command of this name: see docs/buildozer.md, or man buildozer\n";

const NAME_ALONE: &str =
    "buildozer: on a command line, put a command and its words in one pair of quotation marks\n";

const LABEL_FIELDS_LINE: &str =
    "buildozer: a field is kind, startline, rule, label or the name of an attribute; endline and path are none here\n";

const FIELDS_LINE: &str =
    "buildozer: a field is kind, startline, rule or the name of an attribute; label, endline and path are none here\n";

const FIXES_LINE: &str =
    "buildozer: there is no other fix here: buildifier puts lists in order and shortens labels\n";

/// The line on the text of a comment, of which several words are given.
pub const COMMENT_TEXT_LINE: &str =
    "buildozer: the text of a comment is one word, so put a backslash before each space of it\n";

fn joined(alloc: Global, front: &str, word: &str, back: &str) -> Result<String, AllocError>
    ensures { IfOk result (λ text. string_bytes text ≡ front.now ++ word.now ++ back.now) }
{
    let mut text = String::from_str(alloc, front)?;
    text.push_str(word)?;
    text.push_str(back)?;
    Ok(text)
}

// The word that may have been meant, or where there is none these lines.
fn did_you_mean(alloc: Global, near: Option<&str>, lines: &str) -> Result<String, AllocError>
    ensures { IfOk result (λ hint. string_bytes hint ≡ did_you_mean (option_map (λ s. s.now) near.entry) lines.now) }
{
    match near {
        Some(word) => joined(alloc, "buildozer: did you mean '", word, "'?\n"),
        None => joined(alloc, lines, "", ""),
    }
}

fn names_repository(name: &str) -> bool
    ensures { result ≡ begins_with (codes "@") name.now }
{
    name.as_bytes().strip_prefix(b"@".as_slice()).is_some()
}

fn may_be_target(name: &str) -> bool
    ensures { result ≡ (has_slash name.now || has_colon name.now) }
{
    name.as_bytes().contains(&b'/') || name.as_bytes().contains(&b':')
}

// What is printed of a target that is none.
fn bad_target_hint(target: &str) -> &'static str
    ensures { result.now ≡ bad_target_hint target.now }
{
    if names_repository(target) {
        REPOSITORY_HINT
    } else {
        TARGET_FORM
    }
}

// What has a slash or a colon may be meant as a target.
fn target_hint(name: &str) -> &'static str
    ensures { result.now ≡ target_hint name.now }
{
    if names_repository(name) {
        return REPOSITORY_HINT;
    }
    if may_be_target(name) {
        TARGET_HINT
    } else {
        UNKNOWN_LINE
    }
}

fn name_hint(alloc: Global, name: &str) -> Result<String, AllocError>
    ensures { IfOk result (λ hint. string_bytes hint ≡ name_hint name.now) }
{
    if name == "help" {
        return joined(alloc, HELP_HINT, "", "");
    }
    let mut names = Vec::from_slice(alloc, COMMAND_NAMES)?;
    names.extend_from_slice(&["undo", "redo", "journal", "format"])?;
    let near = nearest(alloc, name, &names)?;
    did_you_mean(alloc, near, target_hint(name))
}

fn is_fix(word: &str) -> bool
    ensures { result ≡ is_fix word.now }
{
    word == "unusedLoads" || word == "movePackageToTop"
}

fn nearest_fix(alloc: Global, word: &str) -> Result<Option<&'static str>, AllocError>
    ensures { IfOk result (λ near. option_map (λ s. s.now) near ≡ nearest word.now fix_names) }
{
    nearest(alloc, word, &["unusedLoads", "movePackageToTop"])
}

// What was meant by the first word after `fix` that is none of its own.
fn near_word(alloc: Global, name: &str, words: &[Text]) -> Result<Option<&'static str>, AllocError>
    requires { AreUtf8 words.now }
    ensures { IfOk result (λ near. option_map (λ s. s.now) near ≡ near_word name.now words.now) }
{
    if name != "fix" {
        return Ok(None);
    }
    for word in words {
        let word = as_text(word);
        if !is_fix(word) {
            return Ok(nearest_fix(alloc, word)?);
        }
    }
    Ok(None)
}

// The forms of the command of this name, or of the step of a history.
fn forms_of(name: &str) -> Option<&'static str>
    ensures { option_map (λ s. s.now) result ≡ row_named verb_forms name.now }
{
    match name {
        "undo" => Some("'undo [N]'"),
        "redo" => Some("'redo [N]'"),
        "journal" => Some("'journal'"),
        "format" => Some("'format'"),
        _ => command_form(name),
    }
}

// What a word of `print` may be.
fn fields_line(profile: Profile) -> &'static str
    ensures { result.now ≡ fields_line profile }
{
    match profile {
        Profile::Own => FIELDS_LINE,
        Profile::Bazelbuild => LABEL_FIELDS_LINE,
    }
}

// What is printed below the forms of the command of this name, of one word or of several.
fn words_end(profile: Profile, name: &str, several: bool) -> &'static str
    ensures { result.now ≡ words_end profile name.now several }
{
    if name == "print" {
        return fields_line(profile);
    }
    if name == "fix" {
        return FIXES_LINE;
    }
    if name == "comment" && several {
        return COMMENT_TEXT_LINE;
    }
    ""
}

// What is printed below the forms of the command of this name.
fn form_end(profile: Profile, name: &str, words: &[Text]) -> &'static str
    ensures { result.now ≡ form_end profile name.now words.now }
{
    match words {
        [] => NAME_ALONE,
        [_] => words_end(profile, name, false),
        _ => words_end(profile, name, true),
    }
}

#[tactic(auto, using(crate::proofs::Lines::three_pieces))]
fn form_hint(
    alloc: Global,
    profile: Profile,
    name: &str,
    words: &[Text],
) -> Result<String, AllocError>
    ensures { IfOk result (λ hint. string_bytes hint ≡ form_hint profile name.now words.now) }
{
    let Some(forms) = forms_of(name) else {
        return joined(alloc, "", "", "");
    };
    let mut hint = joined(alloc, "buildozer: the form is ", forms, "\n")?;
    hint.push_str(form_end(profile, name, words))?;
    Ok(hint)
}

fn words_hint(
    alloc: Global,
    profile: Profile,
    name: &str,
    words: &[Text],
) -> Result<String, AllocError>
    requires { AreUtf8 words.now }
    ensures { IfOk result (λ hint. string_bytes hint ≡ words_hint profile name.now words.now) }
{
    let near = near_word(alloc, name, words)?;
    let form = form_hint(alloc, profile, name, words)?;
    did_you_mean(alloc, near, form.as_str())
}

// The line on a pattern that is refused.
fn pattern_line(alloc: Global, fault: Option<PatternFault>) -> Result<String, AllocError>
    ensures { IfOk result (λ line. string_bytes line ≡ pattern_line (option_map pattern_in fault)) }
{
    match fault {
        Some(PatternFault::Syntax(at, reason)) => {
            let mut numbers = Buffer::new();
            let mut line = joined(
                alloc,
                "buildozer: in the pattern, at byte ",
                numbers.format(at),
                ": ",
            )?;
            line.push_str(reason)?;
            line.push_str("\n")?;
            Ok(line)
        }
        Some(PatternFault::TooLarge) => joined(alloc, TOO_LARGE, "", ""),
        None => joined(alloc, "", "", ""),
    }
}

/// What is printed after the line of an operand that is refused. Of a name that no command has: the command that is nearest, where
/// one is near, else what a target has where the name has a slash or a colon, else that there is none of the name, and where help is for
/// `help`. Of words that don't fit: the one of `fix` that is nearest to a word that it doesn't
/// know, else the forms of the command, and where it has no words, that they go with it in one pair of quotation marks; of `print` the
/// fields, of `fix` where other fixes are, and of `comment` how spaces are written in its text. Of a command that is too long: how long
/// one may be. Of a pattern: where and why it is refused. Of a target that is none: its form, or, where it begins with a repository, where
/// its packages are edited. The error: memory was refused.
pub(crate) fn hint_for(alloc: Global, refused: &Refused<'_>) -> Result<String, AllocError>
    ensures { IfOk result (λ hint. string_bytes hint ≡ hint_for (refused_in refused.now)) }
{
    match refused.fault {
        OperandFault::Command(fault) => Ok(command_hint(alloc, refused, fault)?),
        OperandFault::BadTarget => Ok(joined(alloc, bad_target_hint(refused.operand), "", "")?),
        OperandFault::Memory => Ok(String::new(alloc)),
    }
}

// The same of a command.
fn command_hint(
    alloc: Global,
    refused: &Refused<'_>,
    fault: CommandFault,
) -> Result<String, AllocError>
    ensures { IfOk result (λ hint. string_bytes hint ≡ hint_in (refused_in refused.now) fault) }
{
    let words = read_words(alloc, refused.operand.as_bytes())?;
    let Some((name, words)) = words.split_first() else {
        return Ok(joined(alloc, UNKNOWN_LINE, "", "")?);
    };
    let name = as_text(name);
    match fault {
        CommandFault::Unknown => Ok(name_hint(alloc, name)?),
        CommandFault::Arguments if refused.operand.len() <= TEXT_LIMIT => {
            Ok(words_hint(alloc, refused.profile, name, words)?)
        }
        CommandFault::Arguments => Ok(joined(alloc, LENGTH_HINT, "", "")?),
        CommandFault::BadPattern => Ok(pattern_line(alloc, refused.pattern)?),
        CommandFault::Memory => Ok(String::new(alloc)),
    }
}
