//! Plain strings and their bodies.
ghost use Rattle.std.specs.Prelude.{◌≡◌, ◌||◌, [], ◌∷◌, ◌++◌, bytes_eq, nat_eq};
ghost use Rattle.std.specs.List.{list_any};
ghost use Rattle.std.specs.Option.{option_copied};
ghost use Rattle.bz_items.specs.Characters.{backslash};
ghost use Rattle.bz_rule.specs.Rules.{inner, is_plain_in, body};

/// Whether the text begins and ends with this quote mark.
#[tactic(auto, using(crate::proofs::Quoted::quoted))]
fn is_quoted(quote: u8, text: &[u8]) -> bool
    ensures { result ≡ bytes_eq text.now (quote ∷ inner text.now ++ quote ∷ []) }
{
    match text {
        [first, .., last] => *first == quote && *last == quote,
        _ => false,
    }
}

fn inner(text: &[u8]) -> &[u8]
    ensures { result.now ≡ inner text.now }
{
    match text {
        [_, inner @ .., _] => inner,
        _ => &[],
    }
}

fn has_mark(quote: u8, text: &[u8]) -> bool
    ensures { result ≡ list_any (λ byte. nat_eq byte quote || nat_eq byte backslash) text.now }
{
    text.iter().any(|byte| *byte == quote || *byte == b'\\')
}

fn is_plain_in(quote: u8, text: &[u8]) -> bool
    ensures { result ≡ is_plain_in quote text.now }
{
    is_quoted(quote, text) && !has_mark(quote, inner(text))
}

/// The body of a plain string: what is between its quote marks. A string with a prefix, with three quote marks at
/// each end or with a backslash is none.
pub fn body(text: &[u8]) -> Option<&[u8]>
    ensures { option_copied result ≡ body text.now }
{
    if is_plain_in(b'"', text) || is_plain_in(b'\'', text) {
        Some(inner(text))
    } else {
        None
    }
}
