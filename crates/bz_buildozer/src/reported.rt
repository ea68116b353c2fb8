//! The lines on standard error that speak of commands and of usage. Its faults are passed over.
ghost use Rattle.std.specs.Prelude.{◌≡◌, ◌++◌, ◌∷◌, [], codes, OnOk, OnErr};
ghost use Rattle.std.specs.List.{concat};
ghost use Rattle.bz_buildozer.specs.Words.{escaped_text, named_line};
ghost use Rattle.bz_buildozer.specs.Calls.{ReportsLine};
ghost use Rattle.bz_buildozer.specs.Reported.{numbered, history_hint, refusal_line, unread_line, unread_status, memory_line};

use bz_streams::{Cut, Exit, LinePiece, STDIN, Sink, report_named, report_pieces};
use bz_value::Refusal;
use itoa::Buffer;
use std::alloc::AllocError;

// The status of words that request nothing.
const USAGE: u8 = 1;

/// The status of a run of which a step or a port failed.
pub(crate) const FAILED: u8 = 2;

/// The words, or the lines of a file, request nothing, which was reported.
pub(crate) const UNUSED: Exit = Exit {
    status: USAGE,
    cut: Cut::Whole,
};

/// Reports a word on a file. Returned: why the run is cut.
pub(crate) fn fail<E: Sink>(err: &mut E, name: &str, word: &str, cut: Cut) -> Cut
    ensures cut { result ≡ cut }
    ensures reported { ReportsLine E.Sink err.old err.new (named_line name.now word.now) }
{
    report_named(err, name, word);
    cut
}

// What is printed after the line of a refusal.
fn history_hint(journals: bool, file: &str, refusal: Refusal) -> &'static str
    ensures { result.now ≡ history_hint journals file.now refusal }
{
    if refusal.number() == Refusal::TooFar.number() && (journals || file == STDIN) {
        "buildozer: there are fewer texts to go to: the command journal lists them\n"
    } else if refusal.number() == Refusal::TooFar.number() {
        "buildozer: to undo or redo what earlier runs did, give --journal, as in those runs\n"
    } else if refusal.number() == Refusal::Full.number() {
        "buildozer: a history has at most 100,000 steps: do the rest in another run, with --journal after the journal is deleted\n"
    } else {
        ""
    }
}

// Reports what is refused in a file, and a hint after its line.
fn report_numbered<'a, E: Sink>(
    err: &mut E,
    file: &'a str,
    refused: &'a str,
    name: &'a str,
    number: &'a str,
    hint: &'a str,
)
    ensures { ReportsLine E.Sink err.old err.new (concat (codes "buildozer: " ∷ escaped_text file.entry.now ∷ codes ": "
        ∷ numbered refused.entry.now name.entry.now number.entry.now ++ hint.entry.now ∷ [])) }
{
    report_pieces(
        err,
        &[
            LinePiece::Own("buildozer: "),
            LinePiece::Outside(file),
            LinePiece::Own(": "),
            LinePiece::Outside(refused),
            LinePiece::Own(": "),
            LinePiece::Own(name),
            LinePiece::Own(" ("),
            LinePiece::Own(number),
            LinePiece::Own(")\n"),
            LinePiece::Own(hint),
        ],
    );
}

/// Reports that a command is refused in a file, and a hint after its line, where journals are kept or not.
pub(crate) fn report_refusal<E: Sink>(
    err: &mut E,
    journals: bool,
    file: &str,
    command: &str,
    refusal: Refusal,
)
    ensures { ReportsLine E.Sink err.old err.new (refusal_line journals file.now command.now refusal) }
{
    let mut numbers = Buffer::new();
    let number = numbers.format(refusal.number());
    let name = refusal.name();
    let hint = history_hint(journals, file, refusal);
    report_numbered(err, file, command, name, number, hint);
}

/// Reports that memory was refused before anything was done. Returned: how the run ends.
pub(crate) fn out_of_memory<E: Sink>(err: &mut E) -> Exit
    ensures exit { result ≡ record { status = 2; cut = Cut.Memory } }
    ensures reported { ReportsLine E.Sink err.old err.new memory_line }
{
    report_pieces(err, &[LinePiece::Own("buildozer: Memory\n")]);
    Exit {
        status: FAILED,
        cut: Cut::Memory,
    }
}

/// How a run ends of words that request nothing, by whether that was reported; else memory was refused, which is reported now.
pub(crate) fn unused<E: Sink>(reported: Result<(), AllocError>, err: &mut E) -> Exit
    ensures ok { OnOk reported ((result ≡ record { status = 1; cut = Cut.Whole }) × (err.new ≡ err.old)) }
    ensures err { OnErr reported ((result ≡ record { status = 2; cut = Cut.Memory }) × ReportsLine E.Sink err.old err.new memory_line) }
{
    match reported {
        Ok(()) => UNUSED,
        Err(_) => out_of_memory(err),
    }
}

/// Reports that a file of lines by this name can't be read, and why. Returned: how the run ends.
pub(crate) fn report_unread<E: Sink>(err: &mut E, name: &str, cut: Cut) -> Exit
    ensures cut { result.cut ≡ cut }
    ensures status { result.status ≡ unread_status cut }
    ensures reported { ReportsLine E.Sink err.old err.new (unread_line name.now cut) }
{
    match cut {
        Cut::Memory => {
            report_named(err, name, "Memory");
            Exit {
                status: FAILED,
                cut,
            }
        }
        _ => {
            report_named(err, name, "cannot open");
            Exit { status: USAGE, cut }
        }
    }
}
