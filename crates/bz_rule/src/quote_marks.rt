//! The quote marks of strings, what is between them, and the names of symbols.
ghost use Rattle.std.specs.Prelude.{◌≡◌, ◌≤◌};
ghost use Rattle.bz_rule.specs.QuoteMarks.{begins_thrice, marks_of, inside, between, unprefixed, local_name};
ghost use Rattle.bz_rule.specs.Values.{first_text, text_of};

use bz_grammar::Kind;
use bz_value::Expr;

fn begins_thrice(text: &[u8]) -> bool
    ensures { result ≡ begins_thrice text.now }
{
    match text {
        [first, second, third, ..] => *first == *second && *second == *third,
        _ => false,
    }
}

/// How many quote marks are at each end of a string without prefix.
pub fn marks_of(text: &[u8]) -> usize
    ensures value { result ≡ marks_of text.now }
    ensures small { result ≤ 3 }
{
    if begins_thrice(text) && text.len() >= 6 {
        3
    } else {
        1
    }
}

/// What is between this many characters at each end.
pub fn inside(count: usize, text: &[u8]) -> &[u8]
    requires { count ≤ 3 }
    ensures { result.now ≡ inside count text.now }
{
    if text.len() < 2 * count {
        return &[];
    }
    &text[count..text.len() - count]
}

/// A string after its prefix.
fn unprefixed(text: &[u8]) -> &[u8]
    ensures { result.now ≡ unprefixed text.now }
{
    let mut rest = text;
    while let [first, following @ ..] = rest {
        match *first {
            b'"' | b'\'' => return rest,
            _ => rest = following,
        }
    }
    rest
}

/// The text between the quote marks of a string.
pub fn between(text: &[u8]) -> &[u8]
    ensures { result.now ≡ between text.now }
{
    let marked = unprefixed(text);
    inside(marks_of(marked), marked)
}

/// The text of a token; of a form none.
pub fn text_of(x: &Expr) -> &[u8]
    ensures { result.now ≡ text_of x.now }
{
    match x {
        Expr::Token(token) => token.text.as_slice(),
        Expr::Form(_) => &[],
    }
}

/// The text of the first expression: of a named argument or an alias, its name.
pub fn first_text(exprs: &[Expr]) -> &[u8]
    ensures { result.now ≡ first_text exprs.now }
{
    match exprs {
        [] => &[],
        [first, ..] => text_of(first),
    }
}

/// The name that a symbol has in the file that loads it: an alias's name, else the text between the quote marks.
pub fn local_name(x: &Expr) -> &[u8]
    ensures { result.now ≡ local_name x.now }
{
    match x {
        Expr::Token(_) => between(text_of(x)),
        Expr::Form(form) => {
            if form.kind.number() != Kind::Alias.number() {
                return between(text_of(x));
            }
            first_text(form.parts.as_slice())
        }
    }
}
