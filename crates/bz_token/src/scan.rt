ghost use Rattle.std.specs.Prelude.{◌≡◌, ◌↔◌, ◌≤◌, ◌<◌, ℕ, false, IsTrue, Some, None, take, drop, length, get_or, MatchOption, IfSome, IsUtf8, IsCharBoundary};
ghost use Rattle.bz_token.specs.Lexemes.{is_keyword};
ghost use Rattle.bz_token.specs.private.Scanner.{move, longest_front, before_third, keyword_or_name};
ghost use Rattle.bz_token.specs.Tokens.{NoToken, OpensString, TokenAt};

use crate::Class;
use crate::state::{Quote, State, start_step, word_step};

/// The token at the front of a text.
#[derive(Clone, Copy, PartialEq, Eq)]
pub struct Found {
    pub class: Class,
    /// How many bytes long it is.
    pub len: usize,
}

/// The token that the text begins with; `None` where it begins with none. A gap is no token, nor are the end and a newline.
#[inline(always)]
pub fn token(text: &[u8]) -> Option<Found>
    ensures exact { MatchOption result (NoToken text.now) (λ found. TokenAt found.class found.len text.now) }
    ensures boundary { IsUtf8 text.now → IfSome result (λ found. IsCharBoundary text.now found.len) }
{
    let found = glance(text);
    if found.is_some() {
        return found;
    }
    let (state, len) = longest_front(text)?;
    if before_third(state, &text[len..]) {
        return None;
    }
    let class = keyword_or_name(state.class()?, &text[..len]);
    Some(Found { class, len })
}

/// The token that a text begins with, where it is known at a glance: a mark of one byte, a name, or a string
/// of one line between `"` without backslashes. `None` says nothing.
#[inline(always)]
fn glance(text: &[u8]) -> Option<Found>
    ensures { IfSome result (λ found. TokenAt found.class found.len text.now) }
{
    if text.is_empty() {
        return None;
    }
    match start_step(text[0]) {
        Some(State::Ended) => Some(Found {
            class: Class::Mark,
            len: 1,
        }),
        Some(State::Operator) => operator(text),
        Some(State::Word) => name(text),
        Some(State::Opened(Quote::Double)) => plain_string(text),
        _ => None,
    }
}

/// The mark of one byte that a text begins with and that may be before `=`, unless it does.
fn operator(text: &[u8]) -> Option<Found>
    requires some { 0 < length text.now }
    requires operator { move State.Start (get_or text.now 0 0) ≡ Some State.Operator }
    ensures { IfSome result (λ found. TokenAt found.class found.len text.now) }
{
    if is_before_equals(text) {
        return None;
    }
    Some(Found {
        class: Class::Mark,
        len: 1,
    })
}

/// Whether `=` is the second byte.
fn is_before_equals(text: &[u8]) -> bool
    ensures { result ≡ false → 1 < length text.now → move State.Operator (get_or text.now 1 0) ≡ None }
{
    text.len() > 1 && text[1] == b'='
}

/// The name or keyword that a text begins with, unless a byte is next that a longer one may go on with.
#[inline(always)]
fn name(text: &[u8]) -> Option<Found>
    requires some { 0 < length text.now }
    requires word { move State.Start (get_or text.now 0 0) ≡ Some State.Word }
    ensures { IfSome result (λ found. TokenAt found.class found.len text.now) }
{
    let at = run(State::Word, text, 1);
    if goes_on(text, at) {
        return None;
    }
    let class = keyword_or_name(Class::Name, &text[..at]);
    Some(Found { class, len: at })
}

/// Whether a word goes on with the byte at a place.
fn goes_on(text: &[u8], at: usize) -> bool
    ensures { result ≡ false → at < length text.now → move State.Word (get_or text.now at 0) ≡ None }
{
    at < text.len() && word_step(text[at]).is_some()
}

/// The string that a text begins with, where it is one of one line without backslashes and is not empty.
#[inline(always)]
fn plain_string(text: &[u8]) -> Option<Found>
    requires some { 0 < length text.now }
    requires opened { move State.Start (get_or text.now 0 0) ≡ Some (State.Opened Quote.Double) }
    ensures { IfSome result (λ found. TokenAt found.class found.len text.now) }
{
    let at = run(State::Short(Quote::Double), text, 1);
    if at < 2 || at >= text.len() || text[at] != b'"' {
        return None;
    }
    Some(Found {
        class: Class::String,
        len: at + 1,
    })
}

/// Whether a string begins here, its prefix first where it has one, that is not closed.
pub fn opens_string(text: &[u8]) -> bool
    ensures { IsTrue result ↔ OpensString text.now }
{
    let mut state = State::Start;
    'bytes: for byte in text {
        match state.step(*byte) {
            None => return state.is_in_string(),
            Some(next) => state = next,
        }
    }
    state.is_in_string()
}

/// Whether an empty string ends in this state and a third mark is next.
fn before_third(state: State, rest: &[u8]) -> bool
    ensures { result ≡ before_third state rest.now }
{
    match (state, rest) {
        (State::Empty(quote), [byte, ..]) => *byte == quote.byte(),
        _ => false,
    }
}

/// A Name of the table of keywords is a Keyword.
fn keyword_or_name(class: Class, text: &[u8]) -> Class
    ensures { result ≡ keyword_or_name class text.now }
{
    match class {
        Class::Name if is_keyword(text) => Class::Keyword,
        _ => class,
    }
}

/// The state after the longest lexeme at the front, and its length.
fn longest_front(text: &[u8]) -> Option<(State, usize)>
    ensures { result ≡ longest_front text.now }
{
    let mut state = State::Start;
    let mut best = None;
    let mut at = 0;
    'bytes: while at < text.len() {
        if state.may_end() {
            best = Some((state, at));
        }
        match state.step(text[at]) {
            None => return best,
            Some(next) => {
                at = run(next, text, at + 1);
                state = next;
            }
        }
    }
    if state.may_end() {
        Some((state, text.len()))
    } else {
        best
    }
}

/// The first byte from this one on with which the state does not simply stay as it is, as in a name or a string, or the end.
#[inline(always)]
fn run(state: State, text: &[u8], from: usize) -> usize
    requires { from ≤ length text.now }
    ensures above { from ≤ result }
    ensures within { result ≤ length text.now }
    ensures stays { (k : ℕ) → from ≤ k → k < result → move state (get_or text.now k 0) ≡ Some state }
{
    for at in from..text.len() {
        if !state.stays(text[at]) {
            return at;
        }
    }
    text.len()
}

fn is_keyword(text: &[u8]) -> bool
    ensures { result ≡ is_keyword text.now }
{
    text == b"and".as_slice()
        || text == b"break".as_slice()
        || text == b"continue".as_slice()
        || text == b"def".as_slice()
        || text == b"elif".as_slice()
        || text == b"else".as_slice()
        || text == b"for".as_slice()
        || text == b"if".as_slice()
        || text == b"in".as_slice()
        || text == b"lambda".as_slice()
        || text == b"load".as_slice()
        || text == b"not".as_slice()
        || text == b"or".as_slice()
        || text == b"pass".as_slice()
        || text == b"return".as_slice()
}
