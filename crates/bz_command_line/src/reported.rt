//! The lines on standard error on words, operands and lines that request nothing. Its faults are passed over.
ghost use Rattle.std.specs.Prelude.{◌≡◌, ◌++◌, ◌∷◌, [], List, ℕ, map, OnOk, OnErr, IfOk, IfSome, IsSome, codes, decimal, string_bytes};
ghost use Rattle.std.specs.List.{concat};
ghost use Rattle.bz_streams.specs.Controls.{escaped_text};
ghost use Rattle.bz_command_line.specs.Reported.{ReportsLine, numbered, usage_line, IsLineUsageLine};
ghost use Rattle.bz_command_line.specs.Shown.{usage_in, script_usage_in, line_usage_in};
ghost use Rattle.bz_command_line.specs.Verbs.{operand_fault_name};

use crate::line::{LineFault, line_hint};
use crate::requested::UsageFault;
use crate::script::ScriptFault;
use crate::verb::{Refused, hint_for};
use bz_streams::{LinePiece, Sink, report_clap_hinted, report_named, report_pieces};
use itoa::Buffer;
use std::alloc::{AllocError, Global};
use std::convert::AsStr;

// Reports what is refused and its hint, and below that this place in a file.
fn report_numbered<'a, E: Sink>(
    err: &mut E,
    refused: &'a Refused<'_>,
    number: &'a str,
    hint: &'a str,
    file: &'a str,
    place: &'a str,
)
    ensures { ReportsLine E.Sink err.old err.new (concat (concat (codes "buildozer: " ∷ numbered refused.entry.now.operand.now (operand_fault_name refused.entry.now.fault) number.entry.now
        ++ hint.entry.now ∷ []) ∷ escaped_text file.entry.now ∷ place.entry.now ∷ [])) }
{
    report_pieces(
        err,
        &[
            LinePiece::Own("buildozer: "),
            LinePiece::Outside(refused.operand),
            LinePiece::Own(": "),
            LinePiece::Own(refused.fault.name()),
            LinePiece::Own(" ("),
            LinePiece::Own(number),
            LinePiece::Own(")\n"),
            LinePiece::Own(hint),
            LinePiece::Outside(file),
            LinePiece::Own(place),
        ],
    );
}

// Reports this line, and below it this place in a file.
fn report_below<'a, E: Sink>(err: &mut E, line: &'a str, file: &'a str, place: &'a str)
    ensures { ReportsLine E.Sink err.old err.new (concat (line.entry.now ∷ escaped_text file.entry.now ∷ place.entry.now ∷ [])) }
{
    report_pieces(
        err,
        &[
            LinePiece::Own(line),
            LinePiece::Outside(file),
            LinePiece::Own(place),
        ],
    );
}

// Reports why the operands of a line request nothing, and below that this place in a file.
fn report_above<E: Sink>(
    alloc: Global,
    err: &mut E,
    fault: &UsageFault<'_>,
    file: &str,
    place: &str,
) -> Result<(), AllocError>
    ensures some { OnOk result (IsSome (usage_in fault.now)) }
    ensures reported { OnOk result (IfSome (usage_in fault.now) (λ usage. ReportsLine E.Sink err.old err.new
        (concat (usage_line file.now usage ∷ escaped_text file.now ∷ place.now ∷ [])))) }
    ensures refused { OnErr result (err.new ≡ err.old) }
{
    match fault {
        UsageFault::Operand(refused) => {
            let hint = hint_for(alloc, refused)?;
            let mut numbers = Buffer::new();
            let number = numbers.format(refused.fault.number());
            report_numbered(err, refused, number, hint.as_str(), file, place);
            return Ok(());
        }
        UsageFault::NoCommand => report_below(err, "buildozer: no command\n", file, place),
        UsageFault::NoTarget => report_below(err, "buildozer: no target\n", file, place),
        UsageFault::Memory => return Err(AllocError),
    }
    Ok(())
}

/// Reports why operands request nothing. The error: memory was refused, and nothing is printed.
#[tactic(auto, using(crate::proofs::Lines::nothing_below))]
pub fn report_usage<E: Sink>(
    alloc: Global,
    err: &mut E,
    fault: &UsageFault<'_>,
) -> Result<(), AllocError>
    ensures some { OnOk result (IsSome (usage_in fault.now)) }
    ensures reported { OnOk result (IfSome (usage_in fault.now) (λ usage. ReportsLine E.Sink err.old err.new (usage_line [] usage))) }
    ensures refused { OnErr result (err.new ≡ err.old) }
{
    report_above(alloc, err, fault, "", "")?;
    Ok(())
}

// What is after the name of a file of lines on this line of it.
fn place_in_file(alloc: Global, line: usize, end: &str) -> Result<String, AllocError>
    ensures { IfOk result (λ place. string_bytes place ≡ codes ":" ++ decimal line ++ end.now) }
{
    let mut numbers = Buffer::new();
    let line = numbers.format(line);
    let mut place = String::from_str(alloc, ":")?;
    place.push_str(line)?;
    place.push_str(end)?;
    Ok(place)
}

/// Reports why a file of lines of this name requests nothing. The error: memory was refused, and nothing is printed.
pub fn report_script<E: Sink>(
    alloc: Global,
    err: &mut E,
    file: &str,
    fault: &ScriptFault<'_>,
) -> Result<(), AllocError>
    ensures some { OnOk result (IsSome (script_usage_in fault.now)) }
    ensures reported { OnOk result (IfSome (script_usage_in fault.now) (λ usage. ReportsLine E.Sink err.old err.new (usage_line file.now usage))) }
    ensures refused { OnErr result (err.new ≡ err.old) }
{
    match fault {
        ScriptFault::Line(line, fault) => {
            let place = place_in_file(alloc, *line, ": refused\n")?;
            report_above(alloc, err, fault, file, place.as_str())?;
            return Ok(());
        }
        ScriptFault::Nul(line) => {
            let place = place_in_file(alloc, *line, ": NUL\n")?;
            report_below(err, "", file, place.as_str());
            return Ok(());
        }
        ScriptFault::NoLine => report_named(err, file, "no operands"),
        ScriptFault::Memory => return Err(AllocError),
    }
    Ok(())
}

/// Reports why words are no line of the program's. The error: memory was refused, and nothing is printed.
pub fn report_line_usage<S: AsStr, E: Sink>(
    alloc: Global,
    err: &mut E,
    words: &[S],
    fault: &LineFault<'_>,
) -> Result<(), AllocError>
    ensures some { OnOk result (IsSome (line_usage_in fault.now)) }
    ensures reported { OnOk result (IfSome (line_usage_in fault.now) (λ usage. (line : List ℕ) × IsLineUsageLine (map S.text words.now) usage line
        × ReportsLine E.Sink err.old err.new line)) }
    ensures refused { OnErr result (err.new ≡ err.old) }
{
    match fault {
        LineFault::Clap(error) => {
            let hint = line_hint(alloc, words)?;
            report_clap_hinted(alloc, err, error, "buildozer", hint)?;
        }
        LineFault::NoProfile(name) => report_pieces(
            err,
            &[
                LinePiece::Own("buildozer: no profile: "),
                LinePiece::Outside(name),
                LinePiece::Own("\nbuildozer: a profile is own or bazelbuild\n"),
            ],
        ),
        LineFault::BesideScript => report_pieces(
            err,
            &[LinePiece::Own("buildozer: operands beside -f\n")],
        ),
        LineFault::BesideStdout => report_pieces(
            err,
            &[LinePiece::Own("buildozer: --stdout beside --journal\n")],
        ),
        LineFault::Memory => return Err(AllocError),
    }
    Ok(())
}
