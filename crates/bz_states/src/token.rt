//! The tokens that the grammar requires.
ghost use Rattle.std.specs.Prelude.{◌≡◌};
ghost use Rattle.bz_grammar.specs.Shapes.{is_one_of};
ghost use Rattle.bz_states.specs.declared.token.TokenSet.TheVariants as t;
ghost use Rattle.bz_states.specs.Symbols.{example};
ghost use Rattle.bz_states.specs.Tokens.{terminals_of};

use crate::symbol::Symbol;

/// The tokens that the grammar requires, one or several.
#[derive(Clone, Copy)]
pub enum TokenSet {
    Name,
    String,
    /// A name, a number or a string.
    Simple,
    Newline,
    End,
    OpenRound,
    CloseRound,
    OpenSquare,
    CloseSquare,
    OpenCurly,
    CloseCurly,
    Comma,
    Colon,
    Semicolon,
    Dot,
    Equals,
    /// `=` or an augmented form.
    Assigns,
    /// `*` or `**`.
    Stars,
    /// `+`, `-` or `~`.
    Signs,
    /// `==`, `!=`, `<`, `>`, `<=`, `>=` or `in`.
    Orders,
    /// What an order begins with, or `not`.
    Compares,
    /// What is after a primary: `.`, `(` or `[`.
    Suffixes,
    /// `for` or `if`.
    Clauses,
    /// What a statement begins with.
    Statements,
    /// What an expression begins with.
    Expressions,
    /// `]` or `:`.
    SliceStops,
    /// What an expression ends before, where no comma binds in it: a comma, a closing bracket, `:`, `=`, `;` or a newline.
    Ends,
    Bar,
    Caret,
    Ampersand,
    /// `<<` or `>>`.
    Shifts,
    /// `+` or `-`.
    Sums,
    /// `*`, `/`, `//` or `%`.
    Products,
    Star,
    DoubleStar,
    /// `break`, `continue` or `pass`.
    Flow,
    Def,
    Elif,
    Lambda,
    Return,
    Load,
    If,
    Else,
    Or,
    And,
    Not,
    In,
    For,
}

impl TokenSet {
    /// Whether a token is one of these.
    #[inline(always)]
    pub(crate) fn is(self, symbol: Symbol) -> bool
        ensures { result ≡ is_one_of (terminals_of self) (example symbol) }
    {
        match self {
            TokenSet::Name => matches!(symbol, Symbol::Name),
            TokenSet::String => matches!(symbol, Symbol::String),
            TokenSet::Simple => matches!(symbol, Symbol::Name | Symbol::Number | Symbol::String),
            TokenSet::Newline => matches!(symbol, Symbol::Newline),
            TokenSet::End => matches!(symbol, Symbol::End),
            TokenSet::OpenRound => matches!(symbol, Symbol::OpenRound),
            TokenSet::CloseRound => matches!(symbol, Symbol::CloseRound),
            TokenSet::OpenSquare => matches!(symbol, Symbol::OpenSquare),
            TokenSet::CloseSquare => matches!(symbol, Symbol::CloseSquare),
            TokenSet::OpenCurly => matches!(symbol, Symbol::OpenCurly),
            TokenSet::CloseCurly => matches!(symbol, Symbol::CloseCurly),
            TokenSet::Comma => matches!(symbol, Symbol::Comma),
            TokenSet::Colon => matches!(symbol, Symbol::Colon),
            TokenSet::Semicolon => matches!(symbol, Symbol::Semicolon),
            TokenSet::Dot => matches!(symbol, Symbol::Dot),
            TokenSet::Equals => matches!(symbol, Symbol::Equals),
            TokenSet::Assigns => matches!(symbol, Symbol::Equals | Symbol::Augmented),
            TokenSet::Stars => matches!(symbol, Symbol::Star | Symbol::DoubleStar),
            TokenSet::Signs => matches!(symbol, Symbol::Plus | Symbol::Minus | Symbol::Tilde),
            TokenSet::Orders => matches!(symbol, Symbol::Order | Symbol::In),
            TokenSet::Compares => matches!(symbol, Symbol::Order | Symbol::In | Symbol::Not),
            TokenSet::Suffixes => matches!(
                symbol,
                Symbol::Dot | Symbol::OpenRound | Symbol::OpenSquare
            ),
            TokenSet::Clauses => matches!(symbol, Symbol::For | Symbol::If),
            TokenSet::Statements => symbol.begins_statement(),
            TokenSet::Expressions => symbol.begins_expression(),
            TokenSet::SliceStops => matches!(symbol, Symbol::CloseSquare | Symbol::Colon),
            TokenSet::Ends => symbol.ends_expression(),
            TokenSet::Bar => matches!(symbol, Symbol::Bar),
            TokenSet::Caret => matches!(symbol, Symbol::Caret),
            TokenSet::Ampersand => matches!(symbol, Symbol::Ampersand),
            TokenSet::Shifts => matches!(symbol, Symbol::Shift),
            TokenSet::Sums => matches!(symbol, Symbol::Plus | Symbol::Minus),
            TokenSet::Products => matches!(symbol, Symbol::Star | Symbol::Slash | Symbol::Percent),
            TokenSet::Star => matches!(symbol, Symbol::Star),
            TokenSet::DoubleStar => matches!(symbol, Symbol::DoubleStar),
            TokenSet::Flow => matches!(symbol, Symbol::Flow),
            TokenSet::Def => matches!(symbol, Symbol::Def),
            TokenSet::Elif => matches!(symbol, Symbol::Elif),
            TokenSet::Lambda => matches!(symbol, Symbol::Lambda),
            TokenSet::Return => matches!(symbol, Symbol::Return),
            TokenSet::Load => matches!(symbol, Symbol::Load),
            TokenSet::If => matches!(symbol, Symbol::If),
            TokenSet::Else => matches!(symbol, Symbol::Else),
            TokenSet::Or => matches!(symbol, Symbol::Or),
            TokenSet::And => matches!(symbol, Symbol::And),
            TokenSet::Not => matches!(symbol, Symbol::Not),
            TokenSet::In => matches!(symbol, Symbol::In),
            TokenSet::For => matches!(symbol, Symbol::For),
        }
    }
}

impl Symbol {
    pub(crate) fn begins_statement(self) -> bool
        ensures { result ≡ is_one_of (terminals_of t.Statements) (example self) }
    {
        matches!(
            self,
            Symbol::Load | Symbol::Return | Symbol::Flow | Symbol::Def | Symbol::If | Symbol::For
        ) || self.begins_expression()
    }

    pub(crate) fn begins_expression(self) -> bool
        ensures { result ≡ is_one_of (terminals_of t.Expressions) (example self) }
    {
        matches!(
            self,
            Symbol::Lambda
                | Symbol::Not
                | Symbol::Plus
                | Symbol::Minus
                | Symbol::Tilde
                | Symbol::Name
                | Symbol::Number
                | Symbol::String
                | Symbol::OpenRound
                | Symbol::OpenSquare
                | Symbol::OpenCurly
        )
    }

    pub(crate) fn ends_expression(self) -> bool
        ensures { result ≡ is_one_of (terminals_of t.Ends) (example self) }
    {
        matches!(
            self,
            Symbol::Comma
                | Symbol::CloseRound
                | Symbol::CloseSquare
                | Symbol::CloseCurly
                | Symbol::Colon
                | Symbol::Equals
                | Symbol::Semicolon
                | Symbol::Newline
        )
    }
}
