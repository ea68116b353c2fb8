//! What is printed below clap's text of a word that is written as an option and is none.
ghost use Rattle.std.specs.Prelude.{◌≡◌, ◌++◌, IfOk, codes, map, option_map};
ghost use Rattle.bz_streams.specs.Options.{has_front, after_dashes, option_name, is_among, is_no_option, strange_option, option_hint, option_hint_text};
ghost use Rattle.bz_streams.specs.Faults.{AppendsUnlessFailed};
ghost use Rattle.bz_items.specs.Characters.{Bytes};

use crate::beginning::is_one_of;
use crate::{LinePiece, Sink, nearest, report_pieces};
use std::alloc::{AllocError, Global};
use std::convert::AsStr;

/// What helps with words that clap refuses.
#[derive(Clone, Copy)]
pub enum OptionHint<'a> {
    /// No word is written as an option and is none.
    Nothing,
    /// The option of this name may have been meant.
    Meant(&'a str),
    /// This word is written as an option and is none, nor near one.
    Unknown(&'a str),
}

fn has_two_dashes(word: &str) -> bool
    ensures { result ≡ has_front (codes "--") word.now }
{
    word.as_bytes().strip_prefix(b"--".as_slice()).is_some()
}

// What is after two dashes, or else after one; nothing of a word that begins with none.
fn after_dashes(word: &str) -> &str
    ensures { result.now ≡ after_dashes word.now }
{
    match word.strip_prefix("--") {
        Some(text) => text,
        None => word.strip_prefix("-").unwrap_or(""),
    }
}

// What is before the value that may be after an equals sign.
fn option_name(text: &str) -> &str
    ensures { result.now ≡ option_name text.now }
{
    match text.split_once('=') {
        Some((name, _)) => name,
        None => text,
    }
}

fn is_among(table: &[&str], word: &str) -> bool
    ensures { result ≡ is_among (map (λ s. s.now) table.now) word.now }
{
    for &known in table {
        if word == known {
            return true;
        }
    }
    false
}

// Whether a word is written as an option, and is none with these names and letters.
fn is_no_option(names: &[&str], letters: &[u8], word: &str) -> bool
    ensures { result ≡ is_no_option (map (λ s. s.now) names.now) letters.now word.now }
{
    let text = after_dashes(word);
    let Some(&first) = text.as_bytes().first() else {
        return false;
    };
    if !first.is_ascii_alphabetic() {
        return false;
    }
    if has_two_dashes(word) {
        !is_among(names, option_name(text))
    } else {
        !is_one_of(letters, first)
    }
}

// The first word that is written as an option, and is none with these names and letters.
fn strange_option<'a, S: AsStr>(names: &[&str], letters: &[u8], words: &'a [S]) -> Option<&'a str>
    ensures { option_map (λ s. s.now) result ≡ strange_option (map (λ s. s.now) names.now) letters.now (map S.text words.entry.now) }
{
    for word in words {
        let word = word.as_str();
        if word == "--" {
            return None;
        }
        if is_no_option(names, letters, word) {
            return Some(word);
        }
    }
    None
}

/// Writes this text, and a hint below it, up to the first fault.
pub(crate) fn report_above_hint<'a, E: Sink>(
    err: &mut E,
    above: &'a str,
    program: &'a str,
    hint: OptionHint<'a>,
)
    ensures { AppendsUnlessFailed (E.faults err.old) (E.faults err.new) (E.contents err.old) (E.contents err.new)
        (above.entry.now ++ option_hint_text program.entry.now hint.entry) }
{
    let (above, program) = (LinePiece::Own(above), LinePiece::Own(program));
    match hint {
        OptionHint::Nothing => report_pieces(err, &[above]),
        OptionHint::Meant(name) => report_pieces(
            err,
            &[
                above,
                program,
                LinePiece::Own(": did you mean '--"),
                LinePiece::Own(name),
                LinePiece::Own("'?\n"),
            ],
        ),
        OptionHint::Unknown(word) => report_pieces(
            err,
            &[
                above,
                program,
                LinePiece::Own(": there is no option '"),
                LinePiece::Outside(word),
                LinePiece::Own("' here: see docs/COMING.md, "),
                program,
                LinePiece::Own("-tree and contrib/compat/compat.sh\n"),
            ],
        ),
    }
}

/// What is printed below clap's text of words that it refuses, where a word before `--` is written as an option and is none of a
/// program whose options have these names after two dashes and these letters after one: the option that is nearest to
/// the first such word, or else where those of other programs are listed. Nothing where there is no such word. The error: memory was
/// refused.
pub fn option_hint<'a, S: AsStr>(
    alloc: Global,
    names: &[&'a str],
    letters: &[u8],
    words: &'a [S],
) -> Result<OptionHint<'a>, AllocError>
    ensures { IfOk result (λ hint. (program : Bytes) → option_hint_text program hint
        ≡ option_hint (record { program = program; names = map (λ s. s.now) names.now; letters = letters.now }) (map S.text words.entry.now)) }
{
    let Some(word) = strange_option(names, letters, words) else {
        return Ok(OptionHint::Nothing);
    };
    match nearest(alloc, option_name(after_dashes(word)), names)? {
        Some(name) => Ok(OptionHint::Meant(name)),
        None => Ok(OptionHint::Unknown(word)),
    }
}
