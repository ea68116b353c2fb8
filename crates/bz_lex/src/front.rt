ghost use Rattle.std.specs.Prelude.{◌≡◌, ◌↔◌, ◌∷◌, ℕ, List, IsTrue, ◌≤◌, ◌+◌, length, drop, MatchOption, MatchResult, IfErr, true, false};
ghost use Rattle.bz_token.specs.Tokens.{NoToken, OpensString, TokenAt};
ghost use Rattle.bz_token.specs.Bytes.{is_quote};
ghost use Rattle.bz_lex.specs.Fronts.{IsGapFront, IsLexemeFront, IsLexemeStop, NoTokenFor, AnswersFront, front_token, after_front};
ghost use Rattle.bz_lex.specs.Gaps.{IsGap};
ghost use Rattle.bz_lex.specs.Lexing.{NoLexemes};

use crate::gap::{GapFront, gap_front};
use crate::place::Place;
use bz_items::at;
use bz_token::{Class, opens_string, token};

/// The leaf at the front of a text: its class, and how long its gap and its token are.
#[derive(Clone, Copy)]
pub struct Front {
    pub class: Class,
    pub gap: usize,
    pub token: usize,
}

impl Front {
    fn new(class: Class, gap: usize, token: usize) -> Front
        ensures { result ≡ record { class = class; gap = gap; token = token } }
    {
        Front { class, gap, token }
    }

    /// The token of the leaf.
    #[inline(always)]
    pub fn token_of(self, text: &[u8]) -> &[u8]
        requires { self.gap + self.token ≤ length text.now }
        ensures { result.now ≡ front_token self text.now }
    {
        text.split_at(self.gap).1.split_at(self.token).0
    }

    /// What is after the leaf.
    #[inline(always)]
    pub fn rest_of(self, text: &[u8]) -> &[u8]
        requires { self.gap + self.token ≤ length text.now }
        ensures { result.now ≡ after_front self text.now }
    {
        text.split_at(self.gap).1.split_at(self.token).1
    }
}

/// Why the tokens of a text stop, and how far after its start.
#[derive(Clone, Copy)]
pub(crate) struct Stop {
    pub reason: Reason,
    pub at: usize,
}

impl Stop {
    fn new(reason: Reason, at: usize) -> Stop
        ensures { result ≡ record { reason = reason; at = at } }
    {
        Stop { reason, at }
    }
}

/// Each is reported as the fault of its name.
#[derive(Clone, Copy)]
pub enum Reason {
    BadCharacter,
    OpenString,
    Indented,
    Unexpected,
}

/// The leaf at the front of a text that begins at this place.
#[inline(always)]
pub fn leaf_front(text: &[u8], place: Place) -> Option<Front>
    ensures { AnswersFront place text.now result }
{
    let gap = gap_front(text, place.newlines());
    if let Some(_at) = gap.broken_at() {
        return None;
    }
    match place {
        Place::Fresh => fresh(text, gap),
        Place::After => following(text, gap),
        Place::Inside(_) => inside(text, gap),
        Place::Last => last(text),
        Place::Over => None,
    }
}

/// Before the first token of a line, or the end.
#[inline(always)]
fn fresh(text: &[u8], gap: GapFront) -> Option<Front>
    requires { IsGapFront true gap text.now }
    ensures { AnswersFront Place.Fresh text.now result }
{
    if gap.length == text.len() {
        return Some(Front::new(Class::End, gap.length, 0));
    }
    token_front(text, gap.length)
}

/// After a token of a line: a token, a newline, or the newline that is no byte.
#[inline(always)]
fn following(text: &[u8], gap: GapFront) -> Option<Front>
    requires { IsGapFront false gap text.now }
    ensures { AnswersFront Place.After text.now result }
{
    match at(text, gap.length).copied() {
        None => Some(Front::new(Class::Newline, gap.length, 0)),
        Some(b'\n') => Some(Front::new(Class::Newline, gap.length, 1)),
        Some(_) => token_front(text, gap.length),
    }
}

/// Inside brackets: a token.
#[inline(always)]
fn inside(text: &[u8], gap: GapFront) -> Option<Front>
    requires { IsGapFront true gap text.now }
    ensures { (depth : ℕ) → AnswersFront (Place.Inside depth) text.now result }
{
    if gap.length == text.len() {
        return None;
    }
    token_front(text, gap.length)
}

/// After the newline that is no byte: the end.
fn last(text: &[u8]) -> Option<Front>
    ensures { AnswersFront Place.Last text.now result }
{
    if text.is_empty() {
        Some(Front::new(Class::End, 0, 0))
    } else {
        None
    }
}

/// The token at the front of a text without lines, after its gap; `None` where a gap is all that is left. A token at which a
/// string begins that is not closed is its prefix: the tokens stop there.
pub(crate) fn lexeme_front(text: &[u8]) -> Result<Option<Front>, Stop>
    ensures answered { MatchResult result (λ found. MatchOption found (IsGap true true text.now) (λ front. IsLexemeFront front text.now)) (λ _. NoLexemes text.now) }
    ensures stops { IfErr result (λ stop. IsLexemeStop stop text.now) }
{
    let gap = gap_front(text, true);
    if let Some(at) = gap.broken_at() {
        return Err(Stop::new(Reason::BadCharacter, at));
    }
    if gap.length == text.len() {
        return Ok(None);
    }
    let Some(front) = token_front(text, gap.length) else {
        let reason = missing(&text[gap.length..]);
        return Err(Stop::new(reason, gap.length));
    };
    if is_open_prefix(text, front) {
        return Err(Stop::new(Reason::OpenString, front.gap));
    }
    Ok(Some(front))
}

/// Whether a token is the prefix of a string that is not closed. After such a one is a quotation mark.
fn is_open_prefix(text: &[u8], front: Front) -> bool
    requires within { front.gap ≤ length text.now }
    requires token { TokenAt front.class front.token (drop front.gap text.now) }
    ensures { IsTrue result ↔ OpensString (drop front.gap text.now) }
{
    let from_token = &text[front.gap..];
    if !is_quote_at(from_token, front.token) {
        return false;
    }
    opens_string(from_token)
}

/// Whether a quotation mark is there.
fn is_quote_at(text: &[u8], index: usize) -> bool
    ensures { (result ≡ false) → (mark : ℕ) (back : List ℕ) → drop index text.now ≡ mark ∷ back → is_quote mark ≡ false }
{
    match at(text, index).copied() {
        Some(byte) => byte == b'"' || byte == b'\'',
        None => false,
    }
}

/// The token after a gap.
#[inline(always)]
fn token_front(text: &[u8], gap: usize) -> Option<Front>
    requires { gap ≤ length text.now }
    ensures { MatchOption result (NoToken (drop gap text.now)) (λ front. (front.gap ≡ gap) × TokenAt front.class front.token (drop gap text.now)) }
{
    match token(&text[gap..]) {
        Some(found) => Some(Front::new(found.class, gap, found.len)),
        None => None,
    }
}

/// Why no token begins a text.
fn missing(text: &[u8]) -> Reason
    ensures { NoTokenFor result text.now }
{
    if opens_string(text) {
        Reason::OpenString
    } else {
        Reason::BadCharacter
    }
}
