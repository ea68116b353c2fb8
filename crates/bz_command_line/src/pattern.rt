//! Why the pattern of a command is refused.
use bz_command_syntax::read_words;
use regex::{Error, Regex};
use std::alloc::Global;
use std::str;

/// Why `regex` refuses a pattern.
#[derive(Clone, Copy)]
pub enum PatternFault {
    /// It is none: the byte, from 1, where that is seen, and why.
    Syntax(usize, &'static str),
    /// It would be too large when compiled.
    TooLarge,
}

/// Why the pattern of this command is refused, which is right but for that; None where memory is refused. The pattern is the last word
/// but one. What is said of it is what `regex` says.
pub(crate) fn pattern_fault(alloc: Global, command: &str) -> Option<PatternFault> {
    let Ok(words) = read_words(alloc, command.as_bytes()) else {
        return None;
    };
    let [.., pattern, _] = words.as_slice() else {
        return None;
    };
    let Ok(source) = str::from_utf8(pattern.as_slice()) else {
        return None;
    };
    match Regex::new(alloc, source) {
        Err(Error::Syntax(error)) => {
            let at = error.span.start.saturating_add(1);
            Some(PatternFault::Syntax(at, error.kind.message()))
        }
        Err(Error::CompiledTooBig) => Some(PatternFault::TooLarge),
        _ => None,
    }
}
