//! The states in which a node is read, and the ranks of operators.
ghost use Rattle.std.specs.Prelude.{◌≡◌};
ghost use Rattle.bz_states.specs.States.{precedence_of, operator_of};

use crate::token::TokenSet;
use bz_grammar::Kind;

/// The alternatives of the grammar that make no node.
#[derive(Clone, Copy)]
pub enum PartNonterminal {
    /// An expression of this rank or a lower one.
    Level(u8),
    Argument,
    Entry,
    Clause,
    FirstClause,
    Loaded,
    Small,
    Line,
    Param,
}

/// The rank of a primary. Operators bind the tighter the lower their rank; a primary is no operator's node.
pub const PRIMARY: u8 = 0;

/// The rank of the nodes of signs.
pub const UNARY: u8 = 1;

pub(crate) const PRODUCT: u8 = 2;

pub(crate) const SUM: u8 = 3;

pub(crate) const SHIFT: u8 = 4;

pub(crate) const BIT_AND: u8 = 5;

pub(crate) const XOR: u8 = 6;

pub(crate) const BIT_OR: u8 = 7;

pub(crate) const COMPARE: u8 = 8;

/// The rank of the nodes of `not`.
pub const NOT: u8 = 9;

pub(crate) const AND: u8 = 10;

pub(crate) const OR: u8 = 11;

pub(crate) const CONDITION: u8 = 12;

/// A lambda: the highest rank in which no comma binds. Commas make an expression of the next one.
pub const LAMBDA: u8 = 13;

pub(crate) const ROW: u8 = 14;

/// An expression that no comma joins outside brackets.
pub const TEST: PartNonterminal = PartNonterminal::Level(LAMBDA);

/// Any expression.
pub(crate) const EXPRESSION: PartNonterminal = PartNonterminal::Level(ROW);

/// Where the parser is in a node: what is left to read of it.
#[derive(Clone, Copy)]
pub enum NodeState {
    /// Tokens and parts, one after the other, of a node of this kind.
    Rest(Kind, Tail),
    Items(ListedItems, ItemsAt),
    Operands(Operands, OperandsAt),
    /// The clauses of a comprehension of this kind, and its closing bracket.
    Clauses(Kind, TokenSet, ClausesAt),
    Names(NamesAt),
    Lambda(LambdaAt),
    /// A parameter with stars.
    Starred(StarredAt),
    /// What is before a suite.
    Header(HeaderAt),
    Slice(SliceAt),
    Round(RoundAt),
    Brackets(SquareOrCurly, BracketsAt),
    Suffix(SuffixAt),
    Statement(StatementAt),
    /// What square brackets hold: a list or a comprehension.
    Square,
    /// What curly brackets hold: a dict or a comprehension.
    Curly,
    /// A clause of a comprehension, and the first one.
    Clause,
    For,
    Entry,
    Alias,
    /// A comparison from its operator on, and from its `not` on.
    Compare,
    NotIn,
    /// A condition from its `if` on, and after it.
    Condition,
    AfterIf,
}

/// Tokens and parts, one after the other.
#[derive(Clone, Copy)]
pub enum Tail {
    Nothing,
    Token(TokenSet),
    Part(PartNonterminal),
    TokenPart(TokenSet, PartNonterminal),
    Tokens(TokenSet, TokenSet),
}

/// Parts with a separator between two of them and perhaps after the last, and a closing token.
#[derive(Clone, Copy)]
pub enum ListedItems {
    Statements,
    Arguments,
    Loaded,
    Tuple,
    List,
    Dict,
}

/// What such a row is made of.
#[derive(Clone, Copy)]
pub struct ItemRow {
    pub kind: Kind,
    pub nonterminal: PartNonterminal,
    pub separator: TokenSet,
    pub close: TokenSet,
}

/// Where the parser is in such a row.
#[derive(Clone, Copy)]
pub enum ItemsAt {
    /// None or more parts.
    Begin,
    /// One at least.
    Part,
    /// After a part: a separator or the closing token.
    After,
    Separator,
    /// The same as after a part, where the closing token is looked for first.
    More,
}

/// Parts with an operator between two of them, to the end of the node.
#[derive(Clone, Copy)]
pub enum Operands {
    Product,
    Sum,
    Shift,
    BitAnd,
    Xor,
    BitOr,
    And,
    Or,
    Row,
}

/// What such a row is made of.
#[derive(Clone, Copy)]
pub(crate) struct OperandRow {
    pub kind: Kind,
    pub nonterminal: PartNonterminal,
    pub operator: TokenSet,
}

/// Where the parser is in such a row.
#[derive(Clone, Copy)]
pub enum OperandsAt {
    Part,
    After,
    Operator,
}

/// Where the parser is in the clauses of a comprehension.
#[derive(Clone, Copy)]
pub enum ClausesAt {
    First,
    Further,
    Clause,
}

/// The names of a `for`, and what comes after them.
#[derive(Clone, Copy)]
pub enum NamesAt {
    Name,
    After,
    Comma,
}

/// A lambda from its keyword on.
#[derive(Clone, Copy)]
pub enum LambdaAt {
    Begin,
    Params,
    Param,
    After,
    Comma,
}

/// A parameter with stars.
#[derive(Clone, Copy)]
pub enum StarredAt {
    Begin,
    Star,
    Name,
}

/// A header up to its colon.
#[derive(Clone, Copy)]
pub enum HeaderAt {
    Def,
    DefName,
    DefOpen,
    Params,
    Param,
    AfterParam,
    Comma,
    For,
    Name,
    AfterName,
    NameComma,
    In,
    InExpression,
    /// `if` or `elif`.
    Test(TokenSet),
    TestColon,
    Else,
}

/// A slice from its first colon on.
#[derive(Clone, Copy)]
pub enum SliceAt {
    Colon,
    End,
    EndTest,
    AfterEnd,
    SecondColon,
    Step,
    StepTest,
}

/// What round brackets hold: a tuple, or one expression.
#[derive(Clone, Copy)]
pub enum RoundAt {
    Open,
    Item,
    Test,
    After,
}

/// What brackets hold that may be a comprehension.
#[derive(Clone, Copy)]
pub enum SquareOrCurly {
    Square,
    Curly,
}

/// What they hold: items, or a comprehension of this kind.
#[derive(Clone, Copy)]
pub(crate) struct BracketRow {
    pub items: ListedItems,
    pub kind: Kind,
    pub nonterminal: PartNonterminal,
    pub close: TokenSet,
    pub comprehension: Kind,
}

/// Where the parser is in such brackets.
#[derive(Clone, Copy)]
pub enum BracketsAt {
    Begin,
    Element,
    After,
}

/// What may be after a primary.
#[derive(Clone, Copy)]
pub enum SuffixAt {
    Begin,
    CallOrIndex,
    Call,
    Index,
    IndexItem,
    IndexExpression,
    IndexEnd,
}

/// A statement of one line.
#[derive(Clone, Copy)]
pub enum StatementAt {
    Begin,
    Load,
    LoadOpen,
    LoadString,
    NoLoad,
    Return,
    Returned,
    NoReturn,
    Expression,
    AfterExpression,
}

/// What to do in a state.
#[derive(Clone, Copy)]
pub enum Move {
    /// The node is whole, and of this kind.
    Finish(Kind),
    /// One token, and then.
    Take(TokenSet, NodeState),
    /// One part, and then.
    Read(PartNonterminal, NodeState),
    /// The first state where the next leaf is this token, else the second.
    Choose(TokenSet, NodeState, NodeState),
}

/// What makes an expression of a rank from those of the rank below.
#[derive(Clone, Copy)]
pub enum Precedence {
    /// Nothing does.
    Same,
    /// This token in front; a node that begins so.
    Prefix(TokenSet, NodeState),
    /// This token after; a node that goes on so.
    Infix(TokenSet, NodeState),
}

/// What makes an expression of the rank above this one from those of this one.
pub fn precedence_at(rank: u8) -> Precedence
    ensures { result ≡ precedence_of rank }
{
    match rank {
        PRIMARY => Precedence::Prefix(
            TokenSet::Signs,
            NodeState::Rest(
                Kind::Unary,
                Tail::TokenPart(TokenSet::Signs, PartNonterminal::Level(UNARY)),
            ),
        ),
        UNARY => operator(Operands::Product),
        PRODUCT => operator(Operands::Sum),
        SUM => operator(Operands::Shift),
        SHIFT => operator(Operands::BitAnd),
        BIT_AND => operator(Operands::Xor),
        XOR => operator(Operands::BitOr),
        BIT_OR => Precedence::Infix(TokenSet::Compares, NodeState::Compare),
        COMPARE => Precedence::Prefix(
            TokenSet::Not,
            NodeState::Rest(
                Kind::Not,
                Tail::TokenPart(TokenSet::Not, PartNonterminal::Level(NOT)),
            ),
        ),
        NOT => operator(Operands::And),
        AND => operator(Operands::Or),
        OR => Precedence::Infix(TokenSet::If, NodeState::Condition),
        CONDITION => Precedence::Prefix(TokenSet::Lambda, NodeState::Lambda(LambdaAt::Begin)),
        LAMBDA => operator(Operands::Row),
        _ => Precedence::Same,
    }
}

/// Operands with their operator between two of them.
fn operator(operands: Operands) -> Precedence
    ensures { result ≡ operator_of operands }
{
    Precedence::Infix(
        operands.row().operator,
        NodeState::Operands(operands, OperandsAt::Operator),
    )
}
