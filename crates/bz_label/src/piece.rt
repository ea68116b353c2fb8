//! What labels and targets are cut into.
ghost use Rattle.std.specs.Prelude.{◌≡◌, codes, ◌++◌, ◌∷◌, ◌==◌, false, true, MatchOption, position, Bool, List, ℕ};
ghost use Rattle.std.specs.List.{list_any};
ghost use Rattle.bz_label.specs.Pieces.{has_colon, is_joined, last_piece};
ghost use Rattle.bz_label.specs.Shorter.{before_colon, after_colon};

/// Whether such a byte is in the text.
pub(crate) fn holds(text: &[u8], byte: u8) -> bool
    ensures { result ≡ list_any (λ each. each == byte) text.now }
{
    text.iter().any(|each| *each == byte)
}

/// What follows the first byte, where it is this one.
pub(crate) fn after(text: &[u8], byte: u8) -> Option<&[u8]>
    ensures { MatchOption result ((rest : List ℕ) → text.now ≡ byte ∷ rest → ⊥)
        (λ rest. text.now ≡ byte ∷ rest.now) }
{
    match text {
        [first, rest @ ..] if *first == byte => Some(rest),
        _ => None,
    }
}

/// What follows `//`.
pub(crate) fn after_slashes(text: &[u8]) -> Option<&[u8]>
    ensures { MatchOption result ((rest : List ℕ) → text.now ≡ codes "//" ++ rest → ⊥)
        (λ rest. text.now ≡ codes "//" ++ rest.now) }
{
    after(after(text, b'/')?, b'/')
}

fn place(text: &[u8], byte: u8) -> Option<usize>
    ensures { result ≡ position (λ each. each == byte) text.now }
{
    text.iter().position(|each| *each == byte)
}

/// What is before the first such byte, and what is after it.
pub(crate) fn cut(text: &[u8], byte: u8) -> Option<(&[u8], &[u8])>
    ensures { MatchOption result (list_any (λ each. each == byte) text.now ≡ false)
        (λ parts. (text.now ≡ parts.0.now ++ byte ∷ parts.1.now) × (list_any (λ each. each == byte) parts.0.now ≡ false)) }
{
    let at = place(text, byte)?;
    Some((&text[..at], &text[at + 1..]))
}

/// The same of a colon, by the definitions.
#[tactic(auto, using(crate::proofs::Colons::cut_at_colon))]
pub(crate) fn cut_colon(text: &[u8]) -> Option<(&[u8], &[u8])>
    ensures { MatchOption result (has_colon text.now ≡ false)
        (λ parts. (text.now ≡ parts.0.now ++ 58 ∷ parts.1.now) × (has_colon text.now ≡ true) × (before_colon text.now ≡ parts.0.now) × (after_colon text.now ≡ parts.1.now)) }
{
    match cut(text, b':') {
        Some(halves) => Some(halves),
        None => None,
    }
}

/// Whether the text is non-empty pieces joined by slashes.
pub(crate) fn joined(text: &[u8]) -> bool
    ensures { result ≡ is_joined text.now }
{
    text.split(|byte| *byte == b'/')
        .all(|piece| !piece.is_empty())
}

/// What is after the last slash, or the whole text.
pub(crate) fn last(text: &[u8]) -> &[u8]
    ensures { result.now ≡ last_piece text.now }
{
    let mut start = text.len();
    while start > 0 && text[start - 1] != b'/' {
        start -= 1;
    }
    &text[start..]
}
