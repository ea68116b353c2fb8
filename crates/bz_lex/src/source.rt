ghost use Rattle.std.specs.Prelude.{◌≡◌, ◌≢◌, ◌⊎◌, IfErr, IfSome, MatchResult, map, true};
ghost use Rattle.bz_lex.specs.Faults.{is_lexical};
ghost use Rattle.bz_lex.specs.Fronts.{IsLexemeFront, after_front, front_token};
ghost use Rattle.bz_lex.specs.Lexing.{AreLexemes, NoLexemes};
ghost use Rattle.bz_lex.specs.Stops.{IsFaultAt};

use crate::fault::{ReadFault, fault_at};
use crate::front::{Front, lexeme_front};
use bz_items::Items;
use std::alloc::Global;

/// The tokens of a source in order, each the longest lexeme that begins at its place, as slices of the source. Between
/// them are gaps. The errors, at the first such place: `OpenString` where a string begins that is not closed, from its
/// prefix on, `BadCharacter` where nothing begins; `Memory`.
pub fn lex(alloc: Global, source: &str) -> Result<Vec<&str>, ReadFault>
    ensures answered { MatchResult result (λ tokens. AreLexemes (map (λ token. token.now) tokens.items) source.now) (λ fault. (fault ≡ ReadFault.Memory) ⊎ NoLexemes source.now) }
    ensures lexical { IfErr result (λ fault. is_lexical fault ≡ true) }
    ensures placed { IfErr result (λ fault. fault ≢ ReadFault.Memory → IsFaultAt (λ _. ⊥) source.now fault) }
{
    let mut tokens = Items::new(alloc);
    let mut rest = source;
    let length = source.len();
    'tokens: loop {
        let front = match lexeme_front(rest.as_bytes()) {
            Ok(Some(front)) => front,
            Ok(None) => return Ok(tokens.into_vec()),
            Err(stop) => {
                let from = length - rest.len();
                return Err(fault_at(source.as_bytes(), from + stop.at, stop.reason));
            }
        };
        let token = token_at(rest, front);
        tokens.push(token)?;
        rest = following(rest, front);
    }
}

/// The fault at the first place where the tokens of a text stop, if that is no later than this byte.
pub fn lexical_fault(text: &[u8], until: usize) -> Option<ReadFault>
    ensures { IfSome result (λ fault. IsFaultAt (λ _. ⊥) text.now fault) }
{
    let mut rest = text;
    'tokens: while text.len() - rest.len() <= until {
        match lexeme_front(rest) {
            Ok(Some(front)) => rest = front.rest_of(rest),
            Ok(None) => return None,
            Err(stop) => {
                let at = text.len() - rest.len() + stop.at;
                if at > until {
                    return None;
                }
                return Some(fault_at(text, at, stop.reason));
            }
        }
    }
    None
}

/// The token at the front of a text.
fn token_at(text: &str, front: Front) -> &str
    requires { IsLexemeFront front text.now }
    ensures { result.now ≡ front_token front text.now }
{
    &text[front.gap..front.gap + front.token]
}

/// What is after that token.
fn following(text: &str, front: Front) -> &str
    requires { IsLexemeFront front text.now }
    ensures { result.now ≡ after_front front text.now }
{
    &text[front.gap + front.token..]
}
