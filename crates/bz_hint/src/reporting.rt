//! The lines below that of a command which is refused. The faults of standard error are passed over.
ghost use Rattle.std.specs.Prelude.{◌≡◌, ◌∷◌, [], ◌++◌, List, ℕ, Some, None, codes, decimal, option_map, OnOk, OnErr};
ghost use Rattle.std.specs.Str.Lossy.{utf8_lossy};
ghost use Rattle.bz_grammar.specs.Legal.{Reads};
ghost use Rattle.bz_grammar.specs.Statements.{lines_of};
ghost use Rattle.bz_grammar.specs.declared.tree.Node.{Node};
ghost use Rattle.bz_hosts.specs.View.{view_of};
ghost use Rattle.bz_streams.specs.Faults.{AppendsUnlessFailed};
ghost use Rattle.bz_streams.specs.Outputs.{Reports};
ghost use Rattle.bz_streams.specs.Controls.{escaped_text};
ghost use Rattle.bz_hint.specs.Hints.{comment_hint_lines, missing_line, missing_lines, neighbour_name, place_name, refusal_hint, refusal_sense, refusing_lines, rule_line, sense_lines, sought_lines, sought_name, target_lines, target_name};
ghost use Rattle.bz_hint.specs.Names as names;
ghost use Rattle.bz_hint.specs.Refusing as refusing;

use crate::names::nearest_rule;
use crate::refusing::refusing_rule;
use bz_command::{Command, Refusal};
use bz_command_line::COMMENT_TEXT_LINE;
use bz_command_syntax::{CommentOperation, Operation, RuleOperation, RulePlace};
use bz_items::Memory;
use bz_label::{Target, Which};
use bz_streams::{LinePiece, Sink, report_pieces};
use itoa::Buffer;
use std::alloc::Global;

// A command on a target that is refused, in a file of this name and text, and the path of the package of that file.
#[derive(Clone, Copy)]
struct Refused<'a> {
    file: &'a str,
    text: &'a [u8],
    command: &'a Command,
    target: &'a Target,
    current: &'a [u8],
    refusal: Refusal,
}

// No rule of a file has this name; after that, what is said of one that is near.
fn report_missing<'a, E: Sink>(
    err: &mut E,
    file: &'a str,
    name: &'a str,
    lead: &'a str,
    near: &'a str,
    end: &'a str,
)
    ensures { AppendsUnlessFailed (E.faults err.old) (E.faults err.new) (E.contents err.old) (E.contents err.new)
        (missing_line file.entry.now name.entry.now (lead.entry.now ++ (escaped_text near.entry.now ++ (end.entry.now ++ codes "\n")))) }
{
    report_pieces(
        err,
        &[
            LinePiece::Own("buildozer: no rule of "),
            LinePiece::Outside(file),
            LinePiece::Own(" has the name '"),
            LinePiece::Outside(name),
            LinePiece::Own("'"),
            LinePiece::Own(lead),
            LinePiece::Outside(near),
            LinePiece::Own(end),
            LinePiece::Own("\n"),
        ],
    );
}

// Reports that a file has no rule of a name, unless it is that of one, and this one, the nearest, where one is near.
fn report_nearest<'a, E: Sink>(err: &mut E, file: &'a str, name: &'a str, near: Option<&'a str>)
    ensures { Reports (E.faults err.old) (E.faults err.new) (E.contents err.old) (E.contents err.new)
        (missing_lines file.entry.now name.entry.now (option_map (λ s. s.now) near.entry)) }
{
    match near {
        Some(near) if near == name => {}
        Some(near) => report_missing(err, file, name, ": did you mean '", near, "'?"),
        None => report_missing(err, file, name, "", "", ""),
    }
}

// Reports that no rule has this name, and which one is near.
fn hint_missing<E: Sink>(
    alloc: Global,
    err: &mut E,
    refused: Refused<'_>,
    name: &[u8],
) -> Result<(), Memory>
    ensures ok { (n : Node) → Reads refused.entry.text.now n → OnOk result (Reports (E.faults err.old) (E.faults err.new) (E.contents err.old) (E.contents err.new)
        (missing_lines refused.entry.file.now (utf8_lossy name.now) (names.nearest_rule (utf8_lossy name.now) (view_of n)))) }
    ensures err { OnErr result (err.new ≡ err.old) }
{
    let name = String::from_utf8_lossy(alloc, name)?;
    let near = nearest_rule(alloc, refused.text, name.as_str())?;
    report_nearest(err, refused.file, name.as_str(), near.as_deref());
    Ok(())
}

fn place_name(place: &RulePlace) -> Option<&[u8]>
    ensures { option_map (λ s. s.now) result ≡ place_name place.now }
{
    match place {
        RulePlace::End => None,
        RulePlace::Before(rule) | RulePlace::After(rule) => Some(rule.as_slice()),
    }
}

// The name of the rule that a new one goes beside.
fn neighbour_name(operation: &Operation) -> Option<&[u8]>
    ensures { option_map (λ s. s.now) result ≡ neighbour_name operation.now }
{
    match operation {
        Operation::Rule(RuleOperation::New { place, .. }) => place_name(place),
        _ => None,
    }
}

fn target_name(which: &Which) -> Option<&[u8]>
    ensures { option_map (λ s. s.now) result ≡ target_name which.now }
{
    match which {
        Which::Name(name) => Some(name.as_slice()),
        _ => None,
    }
}

// The name of which the file is to have a rule.
fn sought_name<'a>(command: &'a Command, target: &'a Target) -> Option<&'a [u8]>
    ensures { option_map (λ s. s.now) result ≡ sought_name command.entry.now target.entry.now.which }
{
    match neighbour_name(&command.operation) {
        Some(rule) => Some(rule),
        None => target_name(&target.which),
    }
}

// Reports that no rule has the name that is sought, or, without a name, that the target means none.
fn hint_sought<E: Sink>(
    alloc: Global,
    err: &mut E,
    refused: Refused<'_>,
    name: Option<&[u8]>,
) -> Result<(), Memory>
    ensures ok { (n : Node) → Reads refused.entry.text.now n → OnOk result (Reports (E.faults err.old) (E.faults err.new) (E.contents err.old) (E.contents err.new)
        (sought_lines refused.entry.file.now (option_map (λ s. s.now) name.entry) (view_of n))) }
    ensures err { OnErr result (err.new ≡ err.old) }
{
    match name {
        Some(name) => hint_missing(alloc, err, refused, name),
        None => {
            report_pieces(err, &[LinePiece::Own(NO_RULE)]);
            Ok(())
        }
    }
}

// The rule on a line refuses; what is said of its name is after that.
fn report_refusing<'a, E: Sink>(
    err: &mut E,
    file: &'a str,
    line: &'a str,
    lead: &'a str,
    name: &'a str,
    end: &'a str,
)
    ensures { AppendsUnlessFailed (E.faults err.old) (E.faults err.new) (E.contents err.old) (E.contents err.new) (codes "buildozer: "
        ++ (escaped_text file.entry.now ++ (codes ":" ++ (line.entry.now ++ (lead.entry.now ++ (escaped_text name.entry.now ++ (end.entry.now ++ codes "\n"))))))) }
{
    report_pieces(
        err,
        &[
            LinePiece::Own("buildozer: "),
            LinePiece::Outside(file),
            LinePiece::Own(":"),
            LinePiece::Own(line),
            LinePiece::Own(lead),
            LinePiece::Outside(name),
            LinePiece::Own(end),
            LinePiece::Own("\n"),
        ],
    );
}

// Reports which rule refuses, by the file and the line.
fn report_rule<E: Sink>(err: &mut E, file: &str, line: u32, name: Option<&str>)
    ensures { AppendsUnlessFailed (E.faults err.old) (E.faults err.new) (E.contents err.old) (E.contents err.new)
        (rule_line file.now (decimal line) (option_map (λ s. s.now) name.entry)) }
{
    let mut numbers = Buffer::new();
    let line = numbers.format(line);
    match name {
        Some(name) => report_refusing(err, file, line, ": the rule '", name, "' refuses it"),
        None => report_refusing(err, file, line, "", "", ": the rule refuses it"),
    }
}

// Reports which of the rules that a target means refuses the command, if one does.
fn hint_refusing<E: Sink>(alloc: Global, err: &mut E, refused: Refused<'_>) -> Result<(), Memory>
    ensures ok { (n : Node) → Reads refused.entry.text.now n → OnOk result (Reports (E.faults err.old) (E.faults err.new) (E.contents err.old) (E.contents err.new)
        (refusing_lines refused.entry.file.now (refusing.refusing_rule refused.entry.command.now refused.entry.target.now.which refused.entry.current.now (lines_of n) (view_of n)))) }
    ensures err { OnErr result (err.new ≡ err.old) }
{
    if let Some(rule) = refusing_rule(
        alloc,
        refused.text,
        refused.command,
        refused.target,
        refused.current,
    )? {
        report_rule(err, refused.file, rule.line, rule.name.as_deref());
    }
    Ok(())
}

const NO_RULE: &str = "buildozer: the target means no rule of the file\n";

// The line of what a refusal means; none where the line above says it.
fn refusal_sense(refusal: Refusal) -> Option<&'static str>
    ensures { option_map (λ s. s.now) result ≡ refusal_sense refusal }
{
    match refusal {
        Refusal::Memory => Some("buildozer: the system refused memory\n"),
        Refusal::TooLarge => Some("buildozer: the file would have more than 67,108,864 bytes\n"),
        Refusal::TooDeep => Some("buildozer: the file would be nested deeper than 500 levels\n"),
        Refusal::NoAttribute => Some(
            "buildozer: the rule has no such attribute, or the attribute no such value\n",
        ),
        Refusal::AttributeExists => Some("buildozer: the rule has an attribute of the new name\n"),
        Refusal::NotAList => Some("buildozer: the value is no list\n"),
        Refusal::NotADict => Some("buildozer: the value is no dict that is written out\n"),
        Refusal::NoSource => Some(
            "buildozer: the rule to copy from is not there, or has no such attribute\n",
        ),
        Refusal::NameTaken => Some("buildozer: a rule of the file has that name\n"),
        Refusal::NoTarget | Refusal::TooFar | Refusal::Full | Refusal::NoteTooLong => None,
    }
}

fn report_sense<E: Sink>(err: &mut E, refusal: Refusal)
    ensures { Reports (E.faults err.old) (E.faults err.new) (E.contents err.old) (E.contents err.new) (sense_lines (refusal_sense refusal)) }
{
    if let Some(line) = refusal_sense(refusal) {
        report_pieces(err, &[LinePiece::Own(line)]);
    }
}

// Reports which rule refuses, and what the refusal means.
fn hint_refusal<E: Sink>(alloc: Global, err: &mut E, refused: Refused<'_>) -> Result<(), Memory>
    ensures ok { (n : Node) → Reads refused.entry.text.now n → OnOk result (Reports (E.faults err.old) (E.faults err.new) (E.contents err.old) (E.contents err.new)
        (refusing_lines refused.entry.file.now (refusing.refusing_rule refused.entry.command.now refused.entry.target.now.which refused.entry.current.now (lines_of n) (view_of n))
        ++ sense_lines (refusal_sense refused.entry.refusal))) }
    ensures err { OnErr result (err.new ≡ err.old) }
{
    hint_refusing(alloc, err, refused)?;
    report_sense(err, refused.refusal);
    Ok(())
}

// Reports what helps by the target of a command that is refused, and what the refusal means.
fn hint_target<E: Sink>(alloc: Global, err: &mut E, refused: Refused<'_>) -> Result<(), Memory>
    ensures ok { (n : Node) → Reads refused.entry.text.now n → OnOk result (Reports (E.faults err.old) (E.faults err.new) (E.contents err.old) (E.contents err.new)
        (target_lines refused.entry.file.now refused.entry.refusal refused.entry.command.now refused.entry.target.now.which refused.entry.current.now (lines_of n) (view_of n))) }
    ensures err { OnErr result (err.new ≡ err.old) }
{
    if refused.refusal.number() == Refusal::NoTarget.number() {
        let name = sought_name(refused.command, refused.target);
        hint_sought(alloc, err, refused, name)
    } else {
        hint_refusal(alloc, err, refused)
    }
}

// Reports how the text of a comment is written, of which the first words were read as an attribute that isn't there.
fn report_comment_text<E: Sink>(err: &mut E, command: &Command, refusal: Refusal)
    ensures { Reports (E.faults err.old) (E.faults err.new) (E.contents err.old) (E.contents err.new) (comment_hint_lines refusal command.now) }
{
    if let Operation::Comment(CommentOperation::Add { .. }) = &command.operation
        && refusal.number() == Refusal::NoAttribute.number()
    {
        report_pieces(err, &[LinePiece::Own(COMMENT_TEXT_LINE)]);
    }
}

/// Reports what helps below the line of a command that is refused in a file of this name and text, a BUILD file's: where no rule has the name
/// of the target, or of the rule that a new one goes beside, that, and the name that is near; where the target means several rules or is a name, which one refuses it; what the
/// refusal means; where a comment is put on an attribute that isn't there, how its text is written. `current` is the path of the file's package. The error: memory was refused, and nothing is reported.
pub fn report_hint<E: Sink>(
    alloc: Global,
    err: &mut E,
    file: &str,
    text: &[u8],
    command: &Command,
    target: &Target,
    current: &[u8],
    refusal: Refusal,
) -> Result<(), Memory>
    ensures ok { (n : Node) → Reads text.now n → OnOk result (Reports (E.faults err.old) (E.faults err.new) (E.contents err.old) (E.contents err.new)
        (refusal_hint file.now refusal command.now target.now.which current.now (lines_of n) (view_of n))) }
    ensures err { OnErr result (err.new ≡ err.old) }
{
    let refused = Refused {
        file,
        text,
        command,
        target,
        current,
        refusal,
    };
    hint_target(alloc, err, refused)?;
    report_comment_text(err, command, refusal);
    Ok(())
}
