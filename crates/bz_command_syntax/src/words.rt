//! The words of a command's text, and words as strings.
ghost use Rattle.std.specs.Prelude.{◌≡◌, [], ◌∷◌, ◌++◌, filter, OnOk, IfOk, IsUtf8, false};
ghost use Rattle.std.specs.List.{list_any};
ghost use Rattle.bz_token.specs.declared.class.Class.TheVariants as class;
ghost use Rattle.bz_token.specs.Lexemes.{IsLexeme};
ghost use Rattle.bz_items.specs.Characters.{quotation_mark};
ghost use Rattle.bz_command_syntax.specs.Proper.{AreUtf8};
ghost use Rattle.bz_command_syntax.specs.Quoted.{is_escaped, escaped, quoted_of};
ghost use Rattle.bz_command_syntax.specs.Words.{words_of, is_nonempty};

use bz_items::{Memory, Text};
use std::alloc::Global;
use std::mem;

// A word goes after the others, where it is not empty.
fn close(words: &mut Vec<Text>, word: Vec<u8>) -> Result<(), Memory>
    ensures { OnOk result (words.new.items ≡ words.old.items ++ filter is_nonempty (word.items ∷ [])) }
{
    if !word.is_empty() {
        words.push(Text::from_vec(word))?;
    }
    Ok(())
}

/// The words of a text: runs of spaces separate them; a space right after a backslash belongs to the word and the
/// backslash goes; other backslashes stay. The error: a growth was refused.
#[tactic(auto, using(crate::proofs::Pieces::word_ended, crate::proofs::Pieces::words_at_backslash, crate::proofs::Pieces::words_at_byte, crate::proofs::Pieces::words_begin))]
pub fn read_words(alloc: Global, text: &[u8]) -> Result<Vec<Text>, Memory>
    ensures words { IfOk result (λ words. words.items ≡ words_of text.now) }
    ensures utf8 { IsUtf8 text.now → IfOk result (λ words. AreUtf8 words.items) }
{
    let mut words = Vec::new(alloc);
    let mut word = Vec::new(alloc);
    let mut after_backslash = false;
    let mut left = text;
    while let Some((&byte, rest)) = left.split_first() {
        let separates = byte == b' ' && !after_backslash;
        after_backslash = byte == b'\\';
        left = rest;
        if separates {
            close(&mut words, mem::replace(&mut word, Vec::new(alloc)))?;
            continue;
        }
        // A backslash right before a space goes.
        if after_backslash && rest.first() == Some(&b' ') {
            continue;
        }
        word.push(byte)?;
    }
    close(&mut words, word)?;
    Ok(words)
}

fn push_escaped(text: &mut Vec<u8>, byte: u8) -> Result<(), Memory>
    ensures { OnOk result (text.new.items ≡ text.old.items ++ escaped byte) }
{
    match byte {
        b'\n' => text.extend_from_slice(b"\\n")?,
        b'"' | b'\\' => text.extend_from_slice(&[b'\\', byte])?,
        _ => text.push(byte)?,
    }
    Ok(())
}

/// The word as a string, which is a lexeme: between quotation marks, with a backslash before each quotation mark and each
/// backslash, and each newline as a backslash and `n`. The error: a growth was refused.
pub fn quoted(alloc: Global, word: &[u8]) -> Result<Text, Memory>
    ensures value { IfOk result (λ text. text ≡ quoted_of word.now) }
    ensures lexeme { IfOk result (IsLexeme class.String) }
    ensures utf8 { IsUtf8 word.now → IfOk result IsUtf8 }
    ensures plain { list_any is_escaped word.now ≡ false → IfOk result (λ text. text ≡ quotation_mark ∷ word.now ++ quotation_mark ∷ []) }
{
    let mut text = Vec::new(alloc);
    // As much as a word without escapes takes: one that grew by doubling would keep twice of it.
    text.reserve(word.len().saturating_add(2))?;
    text.push(b'"')?;
    for byte in word {
        push_escaped(&mut text, *byte)?;
    }
    text.push(b'"')?;
    Ok(Text::from_vec(text))
}
