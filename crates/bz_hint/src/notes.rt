//! The lines on a file that a command changed. The faults of standard error are passed over, and no memory is taken.
ghost use Rattle.std.specs.Prelude.{◌≡◌, ◌++◌, codes};
ghost use Rattle.std.specs.Char.{is_ascii_digit};
ghost use Rattle.std.specs.List.{list_all, list_any};
ghost use Rattle.bz_streams.specs.Faults.{AppendsUnlessFailed};
ghost use Rattle.bz_streams.specs.Outputs.{Reports};
ghost use Rattle.bz_streams.specs.Controls.{escaped_text};
ghost use Rattle.bz_command_syntax.specs.Patterns.{has_escaped_digit, missing_group};
ghost use Rattle.bz_hint.specs.Hints.{change_notes, escaped_digit_lines, has_leading_zero, is_odd_number, is_quoted, leading_zero_lines, missing_group_lines, quoted_lines, setting_lines, template_lines};

use bz_command::Command;
use bz_command_syntax::{
    AttributeOperation, DictOperation, LoadOperation, Operation, Pattern, ValueOperation,
    has_escaped_digit,
};
use bz_items::Text;
use bz_label::bytes::is_list_attribute;
use bz_streams::{LinePiece, Sink, report_pieces};

// Reports a note on a file.
fn report_note<'a, E: Sink>(err: &mut E, file: &'a str, lead: &'a str, name: &'a str, end: &'a str)
    ensures { AppendsUnlessFailed (E.faults err.old) (E.faults err.new) (E.contents err.old) (E.contents err.new)
        (codes "buildozer: note: " ++ (escaped_text file.entry.now ++ (lead.entry.now ++ (escaped_text name.entry.now ++ (end.entry.now ++ codes "\n"))))) }
{
    report_pieces(
        err,
        &[
            LinePiece::Own("buildozer: note: "),
            LinePiece::Outside(file),
            LinePiece::Own(lead),
            LinePiece::Outside(name),
            LinePiece::Own(end),
            LinePiece::Own("\n"),
        ],
    );
}

// What is noted of a group that a pattern lacks, after its name.
const MISSING: &str =
    "', and nothing is put there: before a letter, a digit or _ a group is written ${1}";

const ESCAPED: &str =
    ": a backslash before a digit is put there as it is: a group is written $1 or ${1}";

fn note_missing_group<E: Sink>(err: &mut E, file: &str, pattern: &Pattern, template: &[u8])
    ensures { Reports (E.faults err.old) (E.faults err.new) (E.contents err.old) (E.contents err.new)
        (missing_group_lines file.now (missing_group pattern.now template.now)) }
{
    if let Some(name) = pattern.missing_group(template) {
        report_note(err, file, ": the pattern has no group '", name, MISSING);
    }
}

fn note_escaped_digit<E: Sink>(err: &mut E, file: &str, template: &[u8])
    ensures { Reports (E.faults err.old) (E.faults err.new) (E.contents err.old) (E.contents err.new)
        (escaped_digit_lines file.now (has_escaped_digit template.now)) }
{
    if has_escaped_digit(template) {
        report_note(err, file, "", "", ESCAPED);
    }
}

// Reports what is to be noted of a pattern and its template.
fn note_template<E: Sink>(err: &mut E, file: &str, pattern: &Pattern, template: &[u8])
    ensures { Reports (E.faults err.old) (E.faults err.new) (E.contents err.old) (E.contents err.new) (template_lines file.now pattern.now template.now) }
{
    note_missing_group(err, file, pattern, template);
    note_escaped_digit(err, file, template);
}

const QUOTED: &str =
    ": the quotation marks of a word are part of the string now: a value is written without them";

const LEADING_ZERO: &str = ": Bazel refuses a number that begins with a zero";

fn is_quoted(word: &[u8]) -> bool
    ensures { result ≡ is_quoted word.now }
{
    if word.len() <= 1 {
        return false;
    }
    let first = word[0];
    (first == b'"' || first == b'\'') && word[word.len() - 1] == first
}

fn has_quoted(words: &[Text]) -> bool
    ensures { result ≡ list_any is_quoted words.now }
{
    words.iter().any(|word| is_quoted(word.as_slice()))
}

fn note_quoted<E: Sink>(err: &mut E, file: &str, is_there: bool)
    ensures { Reports (E.faults err.old) (E.faults err.new) (E.contents err.old) (E.contents err.new) (quoted_lines file.now is_there) }
{
    if is_there {
        report_note(err, file, "", "", QUOTED);
    }
}

fn are_digits(word: &[u8]) -> bool
    ensures { result ≡ list_all is_ascii_digit word.now }
{
    word.iter().all(u8::is_ascii_digit)
}

fn has_leading_zero(word: &[u8]) -> bool
    ensures { result ≡ has_leading_zero word.now }
{
    if word.len() <= 1 {
        return false;
    }
    word[0] == b'0' && are_digits(word)
}

// Whether the words that an attribute was set to are a number that begins with a zero.
fn is_odd_number(attribute: &[u8], words: &[Text]) -> bool
    ensures { result ≡ is_odd_number attribute.now words.now }
{
    match words {
        [] => false,
        [word] => !is_list_attribute(attribute) && has_leading_zero(word.as_slice()),
        [_, _, ..] => false,
    }
}

fn note_leading_zero<E: Sink>(err: &mut E, file: &str, is_there: bool)
    ensures { Reports (E.faults err.old) (E.faults err.new) (E.contents err.old) (E.contents err.new) (leading_zero_lines file.now is_there) }
{
    if is_there {
        report_note(err, file, "", "", LEADING_ZERO);
    }
}

// Reports what is to be noted of the words that an attribute was set to.
fn note_setting<E: Sink>(err: &mut E, file: &str, attribute: &[u8], words: &[Text])
    ensures { Reports (E.faults err.old) (E.faults err.new) (E.contents err.old) (E.contents err.new) (setting_lines file.now attribute.now words.now) }
{
    note_quoted(err, file, has_quoted(words));
    note_leading_zero(err, file, is_odd_number(attribute, words));
}

/// Reports what is to be noted of a command that changed the file of this name: a template that names a group which its pattern lacks, or that
/// has a backslash before a digit; a value in quotation marks, which are part of the string then; a number that begins with a zero. It takes no memory.
pub fn report_notes<E: Sink>(err: &mut E, file: &str, command: &Command)
    ensures { Reports (E.faults err.old) (E.faults err.new) (E.contents err.old) (E.contents err.new) (change_notes file.now command.now) }
{
    match &command.operation {
        Operation::Attribute(AttributeOperation::Set { attribute, values }) => {
            note_setting(err, file, attribute.as_slice(), values.as_slice());
        }
        Operation::Attribute(AttributeOperation::SetIfAbsent { attribute, values }) => {
            note_setting(err, file, attribute.as_slice(), values.as_slice());
        }
        Operation::Value(ValueOperation::Add { values, .. }) => {
            note_quoted(err, file, has_quoted(values.as_slice()));
        }
        Operation::Dict(DictOperation::ListAdd { values, .. }) => {
            note_quoted(err, file, has_quoted(values.as_slice()));
        }
        Operation::Value(ValueOperation::Replace { new, .. }) => {
            note_quoted(err, file, is_quoted(new.as_slice()));
        }
        Operation::Value(
            ValueOperation::Substitute {
                pattern,
                template,
                ..
            },
        )
        | Operation::Load(LoadOperation::Substitute { pattern, template }) => {
            note_template(err, file, pattern, template.as_slice());
        }
        _ => {}
    }
}
