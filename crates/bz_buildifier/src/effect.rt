//! What becomes of a text that buildifier reads, and of a run over several.
ghost use Rattle.std.specs.Prelude.{◌≡◌, ◌||◌, ◌∷◌, ◌++◌, ◌==◌, [], false, codes, option_map, IfOk};
ghost use Rattle.std.specs.List.{list_any};
ghost use Rattle.bz_buildifier.specs.Words.{full_stop, first_cut, Reports, Counts, WritesUnlessClosed, named_line};
ghost use Rattle.bz_buildifier.specs.FormatRun.{Prints, IsCutBy, is_directory_name, last_part, may_be_directory, directory_words, absent_words, unopened_with, unread_file, refused, name_notes, file_out, input_out, is_rewritten, text_status, worse};
ghost use Rattle.bz_buildifier.specs.FormatRun as r;
ghost use Rattle.bz_buildifier.specs.private.FormatShown.{effect_seen};

use crate::file_type::ends_in;
use crate::mode::Mode;
use crate::{Cut, Sink};
use bz_build_format::FormatFault;
use bz_files::FileFault;
use bz_items::{Memory, Text};
use bz_streams::{
    STDIN, first_cut, odd_name_line, report_fault_in, report_named, report_note, write_whole,
};
use std::alloc::Global;

/// What becomes of one text, or of a run so far.
#[derive(Clone, Copy)]
pub(crate) struct Effect {
    /// Its part of the status.
    pub(crate) status: u8,
    /// The first failure, if there was one.
    pub(crate) cut: Cut,
    /// Standard output has failed, and nothing more is written there.
    pub(crate) closes: bool,
}

/// A run that begins.
pub(crate) const BEGUN: Effect = Effect {
    status: 0,
    cut: Cut::Whole,
    closes: false,
};

// The statuses of runs, but for usage.
const DONE: u8 = 0;

const REFUSED: u8 = 1;

const FAILED: u8 = 3;

const DIFFERS: u8 = 4;

/// 3 where one of two statuses is that, else 1, else 4, else 0.
fn worse(a: u8, b: u8) -> u8
    ensures { result ≡ worse a b }
{
    if a == FAILED || b == FAILED {
        return FAILED;
    }
    if a == REFUSED || b == REFUSED {
        return REFUSED;
    }
    if a == DIFFERS || b == DIFFERS {
        return DIFFERS;
    }
    DONE
}

/// What a run comes to by one text more.
pub(crate) fn grown(progress: Effect, effect: Effect) -> Effect
    ensures { result ≡ record { status = worse progress.status effect.status; cut = first_cut progress.cut effect.cut; closes = progress.closes || effect.closes } }
{
    Effect {
        status: worse(progress.status, effect.status),
        cut: first_cut(progress.cut, effect.cut),
        closes: progress.closes || effect.closes,
    }
}

fn effect_of(status: u8, cut: Cut) -> Effect
    ensures { result ≡ record { status = status; cut = cut; closes = false } }
{
    Effect {
        status,
        cut,
        closes: false,
    }
}

/// A failure, or a file that is absent, is reported.
pub(crate) fn fail<'a, E: Sink>(err: &mut E, name: &'a str, word: &'a str, cut: Cut) -> Effect
    ensures effect { result ≡ record { status = 3; cut = cut; closes = false } }
    ensures reported { Reports (E.faults err.old) (E.faults err.new) (E.contents err.old) (E.contents err.new) (named_line name.entry.now word.entry.now ∷ []) }
{
    report_named(err, name, word);
    effect_of(FAILED, cut)
}

// Whether no file can have a name: it ends in a slash, or is the one of this directory or of the one above.
fn is_directory_name(name: &str) -> bool
    ensures { result ≡ is_directory_name name.now }
{
    ends_in(name, "/") || name == "." || name == ".."
}

fn has_dot(name: &[u8]) -> bool
    ensures { result ≡ list_any (λ byte. byte == full_stop) (last_part name.now) }
{
    let backwards = name.iter().rev();
    backwards
        .take_while(|byte| **byte != b'/')
        .any(|byte| *byte == b'.')
}

// Whether a name's last part is like none of a BUILD file's or .bzl file's.
fn may_be_directory(name: &str) -> bool
    ensures { result ≡ may_be_directory name.now }
{
    !(has_dot(name.as_bytes())
        || (name == "BUILD" || ends_in(name, "/BUILD"))
        || (name == "WORKSPACE" || ends_in(name, "/WORKSPACE")))
}

// What is said of a directory's name.
fn directory_words(name: &str) -> Option<&'static str>
    ensures { option_map (λ s. s.now) result ≡ directory_words name.now }
{
    if is_directory_name(name) {
        return Some("names a directory: see buildifier-tree");
    }
    if may_be_directory(name) {
        return Some("if this is a directory, see buildifier-tree");
    }
    None
}

// What is said of a name that nothing has.
fn absent_words(name: &str) -> Option<&'static str>
    ensures { option_map (λ s. s.now) result ≡ absent_words name.now }
{
    if name == "-" {
        return Some("standard input is formatted where no file is named");
    }
    None
}

// Reports that a file can't be opened, and these words on its name.
fn fail_to_open<E: Sink>(err: &mut E, name: &str, cut: Cut, words: Option<&str>) -> Effect
    ensures effect { result ≡ effect_seen (unopened_with name.now cut (option_map (λ s. s.now) words.entry)) }
    ensures reported { Reports (E.faults err.old) (E.faults err.new) (E.contents err.old) (E.contents err.new)
        (unopened_with name.now cut (option_map (λ s. s.now) words.entry)).lines }
{
    let effect = fail(err, name, "cannot open", cut);
    if let Some(words) = words {
        report_named(err, name, words);
    }
    effect
}

/// Reports why a file was not read.
pub(crate) fn unread_file<E: Sink>(err: &mut E, name: &str, fault: FileFault) -> Effect
    ensures effect { result ≡ effect_seen (unread_file name.now fault) }
    ensures reported { Reports (E.faults err.old) (E.faults err.new) (E.contents err.old) (E.contents err.new) (unread_file name.now fault).lines }
{
    match fault {
        FileFault::Memory => fail(err, name, "Memory", Cut::Memory),
        FileFault::Absent => fail_to_open(err, name, Cut::Whole, absent_words(name)),
        FileFault::Open | FileFault::Write => {
            fail_to_open(err, name, Cut::Files, directory_words(name))
        }
    }
}

const TOO_LARGE: &str = "TooLarge\n    the formatted text would have more than 67,108,864 bytes";

const TOO_DEEP: &str = "TooDeep\n    the formatted text would be nested deeper than 500 levels";

/// Reports why this text has no formatted text.
pub(crate) fn refused<E: Sink>(err: &mut E, name: &str, text: &[u8], fault: &FormatFault) -> Effect
    ensures effect { result ≡ effect_seen (refused name.now text.now fault.now) }
    ensures reported { Reports (E.faults err.old) (E.faults err.new) (E.contents err.old) (E.contents err.new) (refused name.now text.now fault.now).lines }
{
    match fault {
        FormatFault::Unread(fault) => {
            report_fault_in(err, name, text, fault);
            effect_of(REFUSED, Cut::Whole)
        }
        FormatFault::TooLarge => fail(err, name, TOO_LARGE, Cut::Whole),
        FormatFault::TooDeep => fail(err, name, TOO_DEEP, Cut::Whole),
        FormatFault::Memory => fail(err, name, "Memory", Cut::Memory),
    }
}

/// Whether a file is rewritten.
pub(crate) fn is_rewritten(mode: Mode, text: &[u8], new: &[u8]) -> bool
    ensures { result ≡ is_rewritten mode text.now new.now }
{
    match mode {
        Mode::Fix => new != text,
        Mode::Check | Mode::PrintIfChanged => false,
    }
}

/// The status of a text that was formatted.
pub(crate) fn text_status(mode: Mode, text: &[u8], new: &[u8]) -> u8
    ensures { result ≡ text_status mode text.now new.now }
{
    match mode {
        Mode::Check if new != text => DIFFERS,
        _ => DONE,
    }
}

// The line of a file that differs.
fn reformat_line(alloc: Global, name: &str) -> Result<Text, Memory>
    ensures { IfOk result (λ line. line ≡ name.now ++ codes " # reformat\n") }
{
    let mut line = Vec::from_slice(alloc, name.as_bytes())?;
    line.extend_from_slice(b" # reformat\n")?;
    Ok(Text::from_vec(line))
}

/// What a file writes on standard output. The error: memory was refused.
pub(crate) fn file_out(
    alloc: Global,
    mode: Mode,
    name: &str,
    text: &[u8],
    new: Text,
) -> Result<Text, Memory>
    ensures { IfOk result (λ out. out ≡ file_out mode name.now text.now new) }
{
    let differs = new.as_slice() != text;
    match mode {
        Mode::Check if differs => reformat_line(alloc, name),
        Mode::PrintIfChanged if differs => Ok(new),
        _ => Ok(Text::from_vec(Vec::new(alloc))),
    }
}

/// What standard input writes on standard output. The error: memory was refused.
pub(crate) fn input_out(alloc: Global, mode: Mode, text: &[u8], new: Text) -> Result<Text, Memory>
    ensures { IfOk result (λ out. out ≡ input_out mode text.now new) }
{
    match mode {
        Mode::Fix => Ok(new),
        Mode::Check | Mode::PrintIfChanged => file_out(alloc, mode, STDIN, text, new),
    }
}

// What is said of a name with a character outside of ASCII.
const ODD_NAME: &str =
    "a name has a character outside of ASCII, which Bazel refuses: curly quotation marks and no-break spaces are such";

/// Notes the first line of a text that has such a name, if one has.
pub(crate) fn note_names<E: Sink>(err: &mut E, name: &str, text: &[u8])
    ensures { Reports (E.faults err.old) (E.faults err.new) (E.contents err.old) (E.contents err.new) (name_notes name.now text.now) }
{
    if let Some(line) = odd_name_line(text) {
        report_note(err, "buildifier", name, line, ODD_NAME);
    }
}

/// Notes what is odd in a text of this name, and writes these bytes on standard output, unless that has failed before; a failure is reported.
pub(crate) fn print<W: Sink, E: Sink>(
    out: &mut W,
    err: &mut E,
    closed: bool,
    name: &str,
    text: &[u8],
    bytes: &[u8],
    status: u8,
) -> Effect
    ensures step { (effect : r.Effect) × Prints closed name.now text.now bytes.now status effect × (result ≡ effect_seen effect)
        × WritesUnlessClosed closed effect.closes (W.faults out.old) (W.faults out.new) (W.contents out.old) (W.contents out.new) effect.out
        × Reports (E.faults err.old) (E.faults err.new) (E.contents err.old) (E.contents err.new) effect.lines }
    ensures cut { IsCutBy result.cut 0 0 (W.faults out.old) (W.faults out.new) }
    ensures counts { Counts (W.faults out.old) (W.faults out.new) }
{
    note_names(err, name, text);
    let done = effect_of(status, Cut::Whole);
    if closed {
        return done;
    }
    match write_whole(out, bytes) {
        Ok(()) => done,
        Err(_) => {
            let mut effect = fail(err, "<stdout>", "cannot write", Cut::Write);
            effect.closes = true;
            effect
        }
    }
}
