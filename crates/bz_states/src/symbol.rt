//! What a token is to the grammar, decided once when it is cut off the text.
ghost use Rattle.std.specs.Prelude.{◌≡◌};
ghost use Rattle.bz_states.specs.Symbols.{known, keyword_table, later_keywords, mark_table, symbol_of_token};

use bz_lex::Class;

/// Which keyword or mark a token is, and else its class.
#[derive(Clone, Copy)]
pub(crate) enum Symbol {
    /// No token is there.
    Nothing,
    Name,
    Number,
    String,
    Newline,
    End,
    /// No keyword is other than those below.
    OtherKeyword,
    And,
    Def,
    Elif,
    Else,
    /// `break`, `continue` or `pass`.
    Flow,
    For,
    If,
    In,
    Lambda,
    Load,
    Not,
    Or,
    Return,
    /// No mark is other than those below.
    OtherMark,
    Comma,
    Equals,
    OpenRound,
    CloseRound,
    OpenSquare,
    CloseSquare,
    OpenCurly,
    CloseCurly,
    Colon,
    Dot,
    Plus,
    Minus,
    Percent,
    Star,
    DoubleStar,
    Bar,
    Semicolon,
    /// An augmented form of `=`.
    Augmented,
    /// `==`, `!=`, `<`, `>`, `<=` or `>=`.
    Order,
    /// `/` or `//`.
    Slash,
    Tilde,
    Ampersand,
    Caret,
    /// `<<` or `>>`.
    Shift,
}

impl Symbol {
    /// What a token of this class is.
    #[inline(always)]
    pub fn of(class: Class, token: &[u8]) -> Symbol
        ensures { result ≡ symbol_of_token class token.now }
    {
        match class {
            Class::Name => Symbol::Name,
            Class::Keyword => keyword(token),
            Class::Number => Symbol::Number,
            Class::String => Symbol::String,
            Class::Mark => mark(token),
            Class::Newline => Symbol::Newline,
            Class::End => Symbol::End,
        }
    }
}

fn keyword(token: &[u8]) -> Symbol
    ensures { result ≡ known keyword_table Symbol.OtherKeyword token.now }
{
    if token == b"and".as_slice() {
        Symbol::And
    } else if token == b"def".as_slice() {
        Symbol::Def
    } else if token == b"elif".as_slice() {
        Symbol::Elif
    } else if token == b"else".as_slice() {
        Symbol::Else
    } else if token == b"for".as_slice() {
        Symbol::For
    } else if token == b"if".as_slice() {
        Symbol::If
    } else if token == b"in".as_slice() {
        Symbol::In
    } else {
        later_keyword(token)
    }
}

fn later_keyword(token: &[u8]) -> Symbol
    ensures { result ≡ known later_keywords Symbol.OtherKeyword token.now }
{
    if token == b"lambda".as_slice() {
        Symbol::Lambda
    } else if token == b"load".as_slice() {
        Symbol::Load
    } else if token == b"not".as_slice() {
        Symbol::Not
    } else if token == b"or".as_slice() {
        Symbol::Or
    } else if token == b"return".as_slice() {
        Symbol::Return
    } else if token == b"break".as_slice()
        || token == b"continue".as_slice()
        || token == b"pass".as_slice()
    {
        Symbol::Flow
    } else {
        Symbol::OtherKeyword
    }
}

#[inline(always)]
fn mark(token: &[u8]) -> Symbol
    ensures { result ≡ known mark_table Symbol.OtherMark token.now }
{
    match token {
        b"," => Symbol::Comma,
        b"=" => Symbol::Equals,
        b"(" => Symbol::OpenRound,
        b")" => Symbol::CloseRound,
        b"[" => Symbol::OpenSquare,
        b"]" => Symbol::CloseSquare,
        b"{" => Symbol::OpenCurly,
        b"}" => Symbol::CloseCurly,
        b":" => Symbol::Colon,
        b"." => Symbol::Dot,
        b"+" => Symbol::Plus,
        b"-" => Symbol::Minus,
        b"%" => Symbol::Percent,
        b"*" => Symbol::Star,
        b"**" => Symbol::DoubleStar,
        b"|" => Symbol::Bar,
        b";" => Symbol::Semicolon,
        b"==" | b"!=" | b"<" | b">" | b"<=" | b">=" => Symbol::Order,
        b"+=" | b"-=" | b"*=" | b"/=" | b"//=" | b"%=" => Symbol::Augmented,
        b"&=" | b"|=" | b"^=" | b"<<=" | b">>=" => Symbol::Augmented,
        b"/" | b"//" => Symbol::Slash,
        b"~" => Symbol::Tilde,
        b"&" => Symbol::Ampersand,
        b"^" => Symbol::Caret,
        b"<<" | b">>" => Symbol::Shift,
        _ => Symbol::OtherMark,
    }
}
