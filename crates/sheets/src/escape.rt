//! What is between backquotes: characters that cannot be seen, bytes that are no text, and repeated texts.
use crate::case::CaseFault;
use bz_items::Memory;
use std::alloc::Global;

/// From how many equal characters on a run of them is shown by its count.
const LONG: usize = 100;

/// The bytes that a written text means.
pub(crate) fn unescaped(alloc: Global, written: &str) -> Result<Vec<u8>, CaseFault> {
    let mut bytes = Vec::new(alloc);
    let mut is_escape = false;
    for piece in written.split('`') {
        if is_escape {
            push_escape(&mut bytes, piece)?;
        } else {
            bytes.extend_from_slice(piece.as_bytes())?;
        }
        is_escape = !is_escape;
    }
    // The pieces of a text whose escapes are all closed are odd in number.
    if !is_escape {
        return Err(CaseFault::Sheet("a backquote is not closed"));
    }
    Ok(bytes)
}

/// Appends what this text between backquotes means.
fn push_escape(bytes: &mut Vec<u8>, written: &str) -> Result<(), CaseFault> {
    match written {
        "" => bytes.extend_from_slice(b"`")?,
        "n" => bytes.extend_from_slice(b"\n")?,
        "r" => bytes.extend_from_slice(b"\r")?,
        "t" => bytes.extend_from_slice(b"\t")?,
        "s" => bytes.extend_from_slice(b" ")?,
        _ => match written.split_once('*') {
            Some((count, text)) => push_times(bytes, count, text)?,
            None => push_number(bytes, written)?,
        },
    }
    Ok(())
}

/// Appends the text this many times.
fn push_times(bytes: &mut Vec<u8>, count: &str, text: &str) -> Result<(), CaseFault> {
    let Ok(count) = count.parse::<u64>() else {
        return Err(CaseFault::Sheet("no number of times"));
    };
    for _ in 0..count {
        bytes.extend_from_slice(text.as_bytes())?;
    }
    Ok(())
}

/// Appends a byte or a character by its number.
fn push_number(bytes: &mut Vec<u8>, written: &str) -> Result<(), CaseFault> {
    if let Some(digits) = written.strip_prefix('x') {
        let Ok(byte) = u8::from_str_radix(digits, 16) else {
            return Err(CaseFault::Sheet("no byte"));
        };
        bytes.extend_from_slice(&[byte])?;
        return Ok(());
    }
    let Some(character) = written.strip_prefix('u').and_then(character) else {
        return Err(CaseFault::Sheet("no such escape"));
    };
    let mut encoded = [0u8; 4];
    bytes.extend_from_slice(character.encode_utf8(&mut encoded).as_bytes())?;
    Ok(())
}

fn character(digits: &str) -> Option<char> {
    char::from_u32(u32::from_str_radix(digits, 16).ok()?)
}

/// Appends bytes as they are written: on one line, with nothing that cannot be seen.
pub(crate) fn push_escaped(written: &mut String, bytes: &[u8]) -> Result<(), Memory> {
    for chunk in bytes.utf8_chunks() {
        push_text(written, chunk.valid())?;
        for byte in chunk.invalid() {
            write!(written, "`x{byte:02x}`")?;
        }
    }
    Ok(())
}

/// The same of a text. At its end a space cannot be seen.
fn push_text(written: &mut String, text: &str) -> Result<(), Memory> {
    let (seen, end) = match text.strip_suffix(' ') {
        Some(front) => (front, "`s`"),
        None => (text, ""),
    };
    let mut last = ' ';
    let mut count = 0;
    for character in seen.chars() {
        if character != last {
            push_run(written, last, count)?;
            last = character;
            count = 0;
        }
        count = count.saturating_add(1);
    }
    push_run(written, last, count)?;
    written.push_str(end)
}

/// Appends a character this many times.
fn push_run(written: &mut String, character: char, count: usize) -> Result<(), Memory> {
    if count >= LONG && character != '`' && !is_hidden(character) {
        return write!(written, "`{count}*{character}`");
    }
    for _ in 0..count {
        push_character(written, character)?;
    }
    Ok(())
}

/// Whether a character is seen as none.
fn is_hidden(character: char) -> bool {
    matches!(
        character,
        '\u{0}'..='\u{1f}' | '\u{7f}'..='\u{9f}' | '\u{feff}'
    )
}

fn push_character(written: &mut String, character: char) -> Result<(), Memory> {
    match character {
        '`' => written.push_str("``"),
        '\n' => written.push_str("`n`"),
        '\r' => written.push_str("`r`"),
        '\t' => written.push_str("`t`"),
        _ if is_hidden(character) => {
            let number = character as u32;
            write!(written, "`u{number:x}`")
        }
        _ => written.push(character),
    }
}
