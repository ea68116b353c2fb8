ghost use Rattle.std.specs.Prelude.{◌≡◌, ◌+◌, ◌≤◌, ◌↔◌, IsTrue, MatchOption, IfNone, IfSome, Some, None};
ghost use Rattle.bz_grammar.specs.Kinds.{kind_number, kind_of};
ghost use Rattle.bz_grammar.specs.Shapes.{is_kind, nonterminal_has_kind, small, stmt};
ghost use Rattle.bz_grammar.specs.Statements.{has_statements, is_statement_kind};

use bz_items::at;

/// What a node is. A tree keeps it with each node.
#[derive(Clone, Copy, Debug, PartialEq, Eq)]
pub enum Kind {
    File,
    Line,
    Bare,
    Assign,
    Load,
    Alias,
    Row,
    Cond,
    Or,
    And,
    Not,
    Compare,
    BitOr,
    Xor,
    BitAnd,
    Shift,
    Sum,
    Product,
    Unary,
    Dot,
    Call,
    Named,
    Star,
    Index,
    Slice,
    List,
    Dict,
    Entry,
    Paren,
    Tuple,
    ListComp,
    DictComp,
    For,
    If,
    Def,
    Param,
    IfStmt,
    ForStmt,
    Suite,
    Return,
    Flow,
    Lambda,
}

impl Kind {
    /// The number of the kind, from 1, as journals write it.
    pub fn number(&self) -> u8
        ensures { result ≡ kind_number self.now }
    {
        match self {
            Kind::File => 1,
            Kind::Line => 2,
            Kind::Bare => 3,
            Kind::Assign => 4,
            Kind::Load => 5,
            Kind::Alias => 6,
            Kind::Row => 7,
            Kind::Cond => 8,
            Kind::Or => 9,
            Kind::And => 10,
            Kind::Not => 11,
            Kind::Compare => 12,
            Kind::BitOr => 13,
            Kind::Xor => 14,
            Kind::BitAnd => 15,
            Kind::Shift => 16,
            Kind::Sum => 17,
            Kind::Product => 18,
            Kind::Unary => 19,
            Kind::Dot => 20,
            Kind::Call => 21,
            Kind::Named => 22,
            Kind::Star => 23,
            Kind::Index => 24,
            Kind::Slice => 25,
            Kind::List => 26,
            Kind::Dict => 27,
            Kind::Entry => 28,
            Kind::Paren => 29,
            Kind::Tuple => 30,
            Kind::ListComp => 31,
            Kind::DictComp => 32,
            Kind::For => 33,
            Kind::If => 34,
            Kind::Def => 35,
            Kind::Param => 36,
            Kind::IfStmt => 37,
            Kind::ForStmt => 38,
            Kind::Suite => 39,
            Kind::Return => 40,
            Kind::Flow => 41,
            Kind::Lambda => 42,
        }
    }

    /// Whether no BUILD file has a node of this kind: those from `Def` on.
    pub fn is_newer(&self) -> bool
        ensures { IsTrue result ↔ (35 ≤ kind_number self.now) }
    {
        self.number() >= 35
    }

    fn is(&self, other: Kind) -> bool
        ensures { result ≡ is_kind self.now other }
    {
        self.number() == other.number()
    }

    /// Whether a Line has nodes of this kind.
    fn is_small(&self) -> bool
        ensures { result ≡ nonterminal_has_kind small self.now }
    {
        self.is(Kind::Bare)
            || self.is(Kind::Assign)
            || self.is(Kind::Load)
            || self.is(Kind::Return)
            || self.is(Kind::Flow)
    }

    /// Whether a file or a suite has nodes of this kind.
    fn is_stmt(&self) -> bool
        ensures { result ≡ nonterminal_has_kind stmt self.now }
    {
        self.is(Kind::Line) || self.is(Kind::Def) || self.is(Kind::IfStmt) || self.is(Kind::ForStmt)
    }

    /// Whether nodes of this kind are statements: what a Line has, and what a file or a suite has but a Line.
    pub fn is_statement_kind(&self) -> bool
        ensures { result ≡ is_statement_kind self.now }
    {
        self.is_small() || (self.is_stmt() && !self.is(Kind::Line))
    }

    /// Whether statements may be in nodes of this kind: what a file or a suite has, and what is a suite.
    pub fn has_statements(&self) -> bool
        ensures { result ≡ has_statements self.now }
    {
        self.is_stmt() || self.is(Kind::Suite) || self.is(Kind::Line)
    }

    /// The kind of a number; `None` for a number that no kind has.
    pub fn of(number: u8) -> Option<Kind>
        ensures { result ≡ kind_of number }
    {
        if number == 0 {
            return None;
        }
        at(&ALL, number as usize - 1).copied()
    }
}

// in the order of their numbers
const ALL: [Kind; 42] = [
    Kind::File,
    Kind::Line,
    Kind::Bare,
    Kind::Assign,
    Kind::Load,
    Kind::Alias,
    Kind::Row,
    Kind::Cond,
    Kind::Or,
    Kind::And,
    Kind::Not,
    Kind::Compare,
    Kind::BitOr,
    Kind::Xor,
    Kind::BitAnd,
    Kind::Shift,
    Kind::Sum,
    Kind::Product,
    Kind::Unary,
    Kind::Dot,
    Kind::Call,
    Kind::Named,
    Kind::Star,
    Kind::Index,
    Kind::Slice,
    Kind::List,
    Kind::Dict,
    Kind::Entry,
    Kind::Paren,
    Kind::Tuple,
    Kind::ListComp,
    Kind::DictComp,
    Kind::For,
    Kind::If,
    Kind::Def,
    Kind::Param,
    Kind::IfStmt,
    Kind::ForStmt,
    Kind::Suite,
    Kind::Return,
    Kind::Flow,
    Kind::Lambda,
];
