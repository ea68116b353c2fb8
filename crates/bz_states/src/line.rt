//! The lines of a text and their indents.
ghost use Rattle.std.specs.Prelude.{◌≡◌, ◌≤◌, ◌++◌, ℕ, List, IfSome, length};
ghost use Rattle.bz_lex.specs.Gaps.{indent};
ghost use Rattle.bz_lex.specs.Stops.{BeginsLine};
ghost use Rattle.bz_grammar.specs.Spell.{limit};

use bz_lex::{Class, Place, leaf_front};

/// The spaces and tabs right before the first token of a line that begins at this byte of a text, if one does.
pub fn line_indent(text: &[u8], at: usize) -> Option<&[u8]>
    requires { length text.now ≤ limit }
    ensures { IfSome result (λ blanks. (front : List ℕ) × (rest : List ℕ) × (text.now ≡ front ++ rest) × (length front ≡ at) × BeginsLine text.now rest blanks.now) }
{
    let mut place = Place::Fresh;
    let mut rest = text;
    'leaves: while let Some(front) = leaf_front(rest, place) {
        let from = text.len() - rest.len() + front.gap;
        if from > at {
            return None;
        }
        if from == at {
            let (gap, _) = rest.split_at(front.gap);
            let Place::Fresh = place else { return None };
            return match front.class {
                Class::End => None,
                _ => Some(indent_of(gap)),
            };
        }
        place = place.after_token(front.class, front.token_of(rest));
        rest = front.rest_of(rest);
    }
    None
}

/// The spaces and tabs at the end of a gap.
pub(crate) fn indent_of(gap: &[u8]) -> &[u8]
    ensures { result.now ≡ indent gap.now }
{
    let mut at = gap.len();
    'blanks: while at > 0 {
        let byte = gap[at - 1];
        if byte != b' ' && byte != b'\t' {
            return gap.split_at(at).1;
        }
        at -= 1;
    }
    gap
}
