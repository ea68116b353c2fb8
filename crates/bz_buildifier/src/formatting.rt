//! The program buildifier over any reader, writers and files.
ghost use Rattle.std.specs.Prelude.{◌≡◌, ◌≢◌, ◌⊎◌, [], ◌∷◌, List, ℕ, true, false, IfOk, OnOk, OnErr, IsErr, Err, codes, map, option_map};
ghost use Rattle.bz_buildifier.specs.Words.{ReadsRegular, Rises, AppendsUnlessFailed, Reports, Counts, Writes, WritesUnlessClosed, named_line};
ghost use Rattle.bz_buildifier.specs.Modes as m;
ghost use Rattle.bz_buildifier.specs.Modes.{format_line, is_bzl};
ghost use Rattle.bz_buildifier.specs.FormatRun.{FormatsAs, IsCutBy, FileStep, InputStep, FormatOutcome, IsFormatUsageLine, no_word_line};
ghost use Rattle.bz_buildifier.specs.FormatRun as r;
ghost use Rattle.bz_buildifier.specs.private.FormatShown.{effect_seen, IsUsageOf};

use crate::effect::{
    BEGUN, Effect, fail, file_out, grown, input_out, is_rewritten, note_names, print, refused,
    text_status, unread_file,
};
use crate::file_type::{FileType, TYPES, type_in_place};
use crate::format_line::{FormatUsage, Options, clap_hint, read_format_line};
use crate::mode::{MODES, mode_in_place};
use crate::{Cut, Exit, Sink, Source};
use bz_build_format::{FormatFault, format, format_bzl};
use bz_files::{FileKind, Files, rewrite};
use bz_items::Text;
use bz_streams::LinePiece::{Outside, Own};
use bz_streams::{InputFault, MOST, STDIN, nearest, read_most, report_clap_hinted, report_pieces};
use std::alloc::{AllocError, Global};
use std::convert::AsStr;

// The status of words that are no line of the program's.
const USAGE: u8 = 2;

// The formatted text of the text of a file of this name.
fn format_named(options: Options, name: &str, text: &[u8]) -> Result<Text, FormatFault>
    ensures { FormatsAs (is_bzl options.file_type name.now) text.now result }
{
    if options.file_type.is_bzl(name) {
        format_bzl(options.alloc, text)
    } else {
        format(options.alloc, text)
    }
}

// Reads a file, formats it, and does what the mode wants. Of a text that is too long no more is read than the byte that shows it.
fn file_effect<F: Files, W: Sink, E: Sink>(
    options: Options,
    name: &str,
    closed: bool,
    files: &mut F,
    out: &mut W,
    err: &mut E,
) -> Effect
    ensures step { F.honest files.old ≡ true → (effect : r.Effect) × FileStep options.mode options.file_type name.now closed (F.folder files.old) effect (F.folder files.new)
        × (result ≡ effect_seen effect)
        × WritesUnlessClosed closed effect.closes (W.faults out.old) (W.faults out.new) (W.contents out.old) (W.contents out.new) effect.out
        × Reports (E.faults err.old) (E.faults err.new) (E.contents err.old) (E.contents err.new) effect.lines }
    ensures regular { ReadsRegular (F.acts files.old) (F.acts files.new) }
    ensures status { result.cut ≢ Cut.Whole → result.status ≡ 3 }
    ensures cut { IsCutBy result.cut (F.faults files.old) (F.faults files.new) (W.faults out.old) (W.faults out.new) }
    ensures files { Counts (F.faults files.old) (F.faults files.new) }
    ensures counts { Counts (W.faults out.old) (W.faults out.new) }
    ensures honest { F.honest files.new ≡ F.honest files.old }
{
    let mut text = Vec::new(options.alloc);
    match files.read_most(name, FileKind::Regular, MOST, &mut text) {
        Ok(()) => {}
        Err(fault) => return unread_file(err, name, fault),
    }
    let new = match format_named(options, name, &text) {
        Ok(new) => new,
        Err(fault) => return refused(err, name, &text, &fault),
    };
    if is_rewritten(options.mode, &text, new.as_slice()) {
        note_names(err, name, &text);
        match rewrite(files, name, &text, new.as_slice()) {
            Ok(()) => return BEGUN,
            Err(_) => return fail(err, name, "cannot write", Cut::Files),
        }
    }
    let status = text_status(options.mode, &text, new.as_slice());
    match file_out(options.alloc, options.mode, name, &text, new) {
        Ok(bytes) => print(out, err, closed, name, &text, bytes.as_slice(), status),
        Err(_) => fail(err, name, "Memory", Cut::Memory),
    }
}

// Reads standard input, formats it, and does what the mode wants.
fn input_effect<R: Source, W: Sink, E: Sink>(
    options: Options,
    input: &mut R,
    out: &mut W,
    err: &mut E,
) -> Effect
    ensures step { (effect : r.Effect) × InputStep options.mode options.file_type (R.remaining input.old) effect
        × (result ≡ effect_seen effect)
        × Writes effect.closes (W.faults out.old) (W.faults out.new) (W.contents out.old) (W.contents out.new) effect.out
        × Reports (E.faults err.old) (E.faults err.new) (E.contents err.old) (E.contents err.new) effect.lines }
    ensures status { result.cut ≢ Cut.Whole → result.status ≡ 3 }
    ensures files { result.cut ≢ Cut.Files }
    ensures unwritten { result.cut ≡ Cut.Read → out.new ≡ out.old }
    ensures read { result.cut ≡ Cut.Read → Rises (R.faults input.old) (R.faults input.new) }
    ensures write { result.cut ≡ Cut.Write → Rises (W.faults out.old) (W.faults out.new) }
    ensures sound { R.sound input.old ≡ true → result.cut ≢ Cut.Read }
    ensures reader { result.cut ≢ Cut.Read → R.faults input.new ≡ R.faults input.old }
    ensures writer { result.cut ≢ Cut.Write → W.faults out.new ≡ W.faults out.old }
{
    let text = match read_most(options.alloc, input, MOST) {
        Ok(text) => text,
        Err(InputFault::Read) => return fail(err, STDIN, "cannot open", Cut::Read),
        Err(InputFault::Memory) => return fail(err, STDIN, "Memory", Cut::Memory),
    };
    let new = match format_named(options, STDIN, &text) {
        Ok(new) => new,
        Err(fault) => return refused(err, STDIN, &text, &fault),
    };
    let status = text_status(options.mode, &text, new.as_slice());
    match input_out(options.alloc, options.mode, &text, new) {
        Ok(bytes) => print(out, err, false, STDIN, &text, bytes.as_slice(), status),
        Err(_) => fail(err, STDIN, "Memory", Cut::Memory),
    }
}

// Reports that an option has no such word, and the one that is near, if one is, else what does its work here.
fn report_no_word<'a, E: Sink>(
    err: &mut E,
    option: &'a str,
    name: &'a str,
    near: Option<&'a str>,
    place: &'a str,
)
    ensures { AppendsUnlessFailed (E.faults err.old) (E.faults err.new) (E.contents err.old) (E.contents err.new)
        (no_word_line option.entry.now name.entry.now (option_map (λ s. s.now) near.entry) place.entry.now) }
{
    let no = Own("buildifier: no ");
    let (option, colon, name) = (Own(option), Own(": "), Outside(name));
    match near {
        Some(word) => {
            let meant = Own("\nbuildifier: did you mean '--");
            let (is, word, end) = (Own("="), Own(word), Own("'?\n"));
            let pieces = &[no, option, colon, name, meant, option, is, word, end];
            report_pieces(err, pieces);
        }
        None => report_pieces(err, &[no, option, colon, name, Own("\n"), Own(place)]),
    }
}

// Reports why these words are no line of the program's. The error: memory was refused, to the words, to the text of a fault
// that clap finds, to what is below it or to the search for a word that is near; nothing is then printed.
fn report_unusable<S: AsStr, E: Sink>(
    alloc: Global,
    words: &[S],
    err: &mut E,
    fault: &FormatUsage<'_>,
) -> Result<(), AllocError>
    ensures ok { IsUsageOf (map S.text words.now) fault.now → OnOk result ((usage : m.FormatUsage) × (line : List ℕ)
        × (format_line (map S.text words.now) ≡ Err usage) × IsFormatUsageLine (map S.text words.now) usage line
        × AppendsUnlessFailed (E.faults err.old) (E.faults err.new) (E.contents err.old) (E.contents err.new) line) }
    ensures err { OnErr result (err.new ≡ err.old) }
{
    match fault {
        FormatUsage::Line(error) => {
            let hint = clap_hint(alloc, error, words)?;
            report_clap_hinted(alloc, err, error, "buildifier", hint)
        }
        FormatUsage::NoMode(name) => {
            let near = nearest(alloc, name, &MODES)?;
            report_no_word(err, "mode", name, near, mode_in_place(name));
            Ok(())
        }
        FormatUsage::NoType(name) => {
            let near = nearest(alloc, name, &TYPES)?;
            report_no_word(err, "type", name, near, type_in_place(name));
            Ok(())
        }
        FormatUsage::Memory => Err(AllocError),
    }
}

// These words are no line of the program's, or memory was refused. Each is reported.
fn unusable<S: AsStr, E: Sink>(
    alloc: Global,
    words: &[S],
    fault: &FormatUsage<'_>,
    err: &mut E,
) -> Exit
    ensures { IsUsageOf (map S.text words.now) fault.now → ((usage : m.FormatUsage) × (line : List ℕ)
        × (format_line (map S.text words.now) ≡ Err usage) × IsFormatUsageLine (map S.text words.now) usage line
        × AppendsUnlessFailed (E.faults err.old) (E.faults err.new) (E.contents err.old) (E.contents err.new) line
        × (result ≡ record { status = 2; cut = Cut.Whole }))
        ⊎ ((result ≡ record { status = 3; cut = Cut.Memory })
        × Reports (E.faults err.old) (E.faults err.new) (E.contents err.old) (E.contents err.new) (named_line (codes "buildifier") (codes "Memory") ∷ [])) }
{
    match report_unusable(alloc, words, err, fault) {
        Ok(()) => Exit {
            status: USAGE,
            cut: Cut::Whole,
        },
        Err(_) => ended(fail(err, "buildifier", "Memory", Cut::Memory)),
    }
}

/// Reads the words of a line. Without files it formats standard input, else each file in order; all are tried. Mode `fix` rewrites a
/// file that differs, where it still holds the text that was formatted, and writes the formatted text of standard input to `out`;
/// `check` writes a line there for a text that differs; `print_if_changed` writes its formatted text there. Statuses: 2 where the words
/// are no line of the program's (nothing is then read); else 3 where a file could not be opened, read or written, memory was refused, or
/// a formatted text would be past a limit or would not last; else 1 where a text is not accepted; else 4 where `check` found a
/// difference; else 0. Each fault is reported on `err`, whose faults are passed over, by one line and by what may help below it; where
/// memory is refused to the words, or to these lines on them, the line is `buildifier: Memory`. After a fault of `out` nothing more is
/// written there; files still are.
pub fn buildifier<S: AsStr, R: Source, W: Sink, E: Sink, F: Files>(
    alloc: Global,
    words: &[S],
    input: &mut R,
    out: &mut W,
    err: &mut E,
    files: &mut F,
) -> Exit
    // Where the files are honest, or none is named, a run does what the words, the bytes of standard input and the folder mean.
    ensures run { (F.honest files.old ≡ true) ⊎ IfOk (format_line (map S.text words.now)) (λ line. line.files ≡ [])
        → (run : r.Effect) × FormatOutcome (map S.text words.now) (R.remaining input.old) (F.folder files.old) run (F.folder files.new)
        × (result ≡ record { status = run.status; cut = run.cut })
        × Writes run.closes (W.faults out.old) (W.faults out.new) (W.contents out.old) (W.contents out.new) run.out
        × Reports (E.faults err.old) (E.faults err.new) (E.contents err.old) (E.contents err.new) run.lines }
    ensures status { result.cut ≢ Cut.Whole → result.status ≡ 3 }

    // Words that are no line of the program's leave all as it was; named files leave the input unread; without them no
    // file is touched, and where standard input fails nothing is written.
    ensures unread { IsErr (format_line (map S.text words.now)) → (input.new ≡ input.old) × (out.new ≡ out.old) × (files.new ≡ files.old) }
    ensures named { IfOk (format_line (map S.text words.now)) (λ line. line.files ≢ [] → input.new ≡ input.old) }
    ensures unnamed { IfOk (format_line (map S.text words.now)) (λ line. line.files ≡ [] → files.new ≡ files.old) }
    ensures unwritten { result.cut ≡ Cut.Read → out.new ≡ out.old }
    ensures regular { ReadsRegular (F.acts files.old) (F.acts files.new) }

    // A run is cut by the reader, the writer or the files where that counted a fault; where none did it is whole or wants memory.
    ensures read_cause { result.cut ≡ Cut.Read → Rises (R.faults input.old) (R.faults input.new) }
    ensures sound { R.sound input.old ≡ true → result.cut ≢ Cut.Read }
    ensures write_cause { result.cut ≡ Cut.Write → Rises (W.faults out.old) (W.faults out.new) }
    ensures files_cause { result.cut ≡ Cut.Files → Rises (F.faults files.old) (F.faults files.new) }
    ensures steady { result.cut ≡ Cut.Whole → (R.faults input.new ≡ R.faults input.old) × (W.faults out.new ≡ W.faults out.old)
        × (F.faults files.new ≡ F.faults files.old) }
    ensures honest { F.honest files.new ≡ F.honest files.old }
{
    let line = match read_format_line(alloc, words) {
        Ok(line) => line,
        Err(fault) => return unusable(alloc, words, &fault, err),
    };
    let options = line.options;
    let names = line.files.as_slice();
    if names.is_empty() {
        let effect = input_effect(options, input, out, err);
        return ended(grown(BEGUN, effect));
    }
    let mut progress = BEGUN;
    for &name in names {
        let effect = file_effect(options, name, progress.closes, files, out, err);
        progress = grown(progress, effect);
    }
    ended(progress)
}

fn ended(progress: Effect) -> Exit
    ensures { result ≡ record { status = progress.status; cut = progress.cut } }
{
    Exit {
        status: progress.status,
        cut: progress.cut,
    }
}
