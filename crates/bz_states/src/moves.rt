//! The table of the grammar: what comes next inside a node.
ghost use Rattle.std.specs.Prelude.{◌≡◌};
ghost use Rattle.bz_grammar.specs.Reading.{finish};
ghost use Rattle.bz_states.specs.States.{plan_at, left_in_rest, row_of_items, row_of_operands, row_of_brackets, left_in_items, left_in_operands, left_of_clauses, left_of_names, left_of_lambda, left_of_starred, left_in_round, left_in_brackets, left_of_suffix, left_of_header, left_of_slice, left_of_statement, Expects, Few};

use crate::state::{
    AND, BIT_AND, BIT_OR, BracketRow, BracketsAt, ClausesAt, EXPRESSION, HeaderAt, ItemRow,
    ItemsAt, LambdaAt, ListedItems, Move, NOT, NamesAt, NodeState, OR, OperandRow, Operands,
    OperandsAt, PRIMARY, PRODUCT, PartNonterminal, RoundAt, SHIFT, SUM, SliceAt, SquareOrCurly,
    StarredAt, StatementAt, SuffixAt, TEST, Tail, UNARY, XOR,
};
use crate::token::TokenSet;
use bz_grammar::Kind;

impl NodeState {
    /// The next move: the one that what is left to read of the node requires. It is compiled into the loops that make it, where no move has to be built in memory: a twentieth of the
    /// instructions of a reading, for an eighth of a KiB of stack a level of the parser.
    #[inline(always)]
    pub fn next_move(self) -> Move
        ensures expects { Expects (plan_at self) result }
        ensures few { Few result }
    {
        match self {
            NodeState::Rest(kind, rest) => rest.next(kind),
            NodeState::Items(items, at) => at.next(items),
            NodeState::Operands(operands, at) => at.next(operands),
            NodeState::Clauses(kind, close, at) => at.next(kind, close),
            NodeState::Names(at) => at.next(),
            NodeState::Lambda(at) => at.next(),
            NodeState::Starred(at) => at.next(),
            NodeState::Header(at) => at.next(),
            NodeState::Slice(at) => at.next(),
            NodeState::Round(at) => at.next(),
            NodeState::Brackets(brackets, at) => at.next(brackets),
            NodeState::Suffix(at) => at.next(),
            NodeState::Statement(at) => at.next(),
            NodeState::Square => Move::Take(
                TokenSet::OpenSquare,
                NodeState::Brackets(SquareOrCurly::Square, BracketsAt::Begin),
            ),
            NodeState::Curly => Move::Take(
                TokenSet::OpenCurly,
                NodeState::Brackets(SquareOrCurly::Curly, BracketsAt::Begin),
            ),
            NodeState::Clause => Move::Choose(
                TokenSet::For,
                NodeState::For,
                NodeState::Rest(
                    Kind::If,
                    Tail::TokenPart(TokenSet::If, PartNonterminal::Level(OR)),
                ),
            ),
            NodeState::For => Move::Take(TokenSet::For, NodeState::Names(NamesAt::Name)),
            NodeState::Entry => Move::Read(
                TEST,
                NodeState::Rest(Kind::Entry, Tail::TokenPart(TokenSet::Colon, TEST)),
            ),
            NodeState::Alias => Move::Take(
                TokenSet::Name,
                NodeState::Rest(
                    Kind::Alias,
                    Tail::Tokens(TokenSet::Equals, TokenSet::String),
                ),
            ),
            NodeState::Compare => Move::Choose(
                TokenSet::Orders,
                NodeState::Rest(
                    Kind::Compare,
                    Tail::TokenPart(TokenSet::Orders, PartNonterminal::Level(BIT_OR)),
                ),
                NodeState::NotIn,
            ),
            NodeState::NotIn => Move::Take(
                TokenSet::Not,
                NodeState::Rest(
                    Kind::Compare,
                    Tail::TokenPart(TokenSet::In, PartNonterminal::Level(BIT_OR)),
                ),
            ),
            NodeState::Condition => Move::Take(TokenSet::If, NodeState::AfterIf),
            NodeState::AfterIf => Move::Read(
                PartNonterminal::Level(OR),
                NodeState::Rest(Kind::Cond, Tail::TokenPart(TokenSet::Else, TEST)),
            ),
        }
    }
}

impl Tail {
    fn next(self, kind: Kind) -> Move
        ensures expects { Expects (finish kind (left_in_rest self)) result }
        ensures few { Few result }
    {
        match self {
            Tail::Nothing => Move::Finish(kind),
            Tail::Token(token) => Move::Take(token, NodeState::Rest(kind, Tail::Nothing)),
            Tail::Part(nonterminal) => Move::Read(
                nonterminal,
                NodeState::Rest(kind, Tail::Nothing),
            ),
            Tail::TokenPart(token, nonterminal) => Move::Take(
                token,
                NodeState::Rest(kind, Tail::Part(nonterminal)),
            ),
            Tail::Tokens(token, other) => Move::Take(
                token,
                NodeState::Rest(kind, Tail::Token(other)),
            ),
        }
    }
}

impl ListedItems {
    /// What the row is made of.
    pub fn row(self) -> ItemRow
        ensures { result ≡ row_of_items self }
    {
        let (kind, nonterminal, separator, close) = match self {
            ListedItems::Statements => (
                Kind::Line,
                PartNonterminal::Small,
                TokenSet::Semicolon,
                TokenSet::Newline,
            ),
            ListedItems::Arguments => (
                Kind::Call,
                PartNonterminal::Argument,
                TokenSet::Comma,
                TokenSet::CloseRound,
            ),
            ListedItems::Loaded => (
                Kind::Load,
                PartNonterminal::Loaded,
                TokenSet::Comma,
                TokenSet::CloseRound,
            ),
            ListedItems::Tuple => (Kind::Tuple, TEST, TokenSet::Comma, TokenSet::CloseRound),
            ListedItems::List => (Kind::List, TEST, TokenSet::Comma, TokenSet::CloseSquare),
            ListedItems::Dict => (
                Kind::Dict,
                PartNonterminal::Entry,
                TokenSet::Comma,
                TokenSet::CloseCurly,
            ),
        };
        ItemRow {
            kind,
            nonterminal,
            separator,
            close,
        }
    }
}

impl ItemsAt {
    fn next(self, items: ListedItems) -> Move
        ensures expects { Expects (left_in_items items self) result }
        ensures few { Few result }
    {
        let row = items.row();
        let close = NodeState::Rest(row.kind, Tail::Token(row.close));
        match self {
            ItemsAt::Begin => Move::Choose(
                row.close,
                close,
                NodeState::Items(items, ItemsAt::Part),
            ),
            ItemsAt::Part => Move::Read(row.nonterminal, NodeState::Items(items, ItemsAt::After)),
            ItemsAt::After => Move::Choose(
                row.separator,
                NodeState::Items(items, ItemsAt::Separator),
                close,
            ),
            ItemsAt::Separator => Move::Take(
                row.separator,
                NodeState::Items(items, ItemsAt::Begin),
            ),
            ItemsAt::More => Move::Choose(
                row.close,
                close,
                NodeState::Items(items, ItemsAt::Separator),
            ),
        }
    }
}

impl Operands {
    pub(crate) fn row(self) -> OperandRow
        ensures { result ≡ row_of_operands self }
    {
        let (kind, nonterminal, operator) = match self {
            Operands::Product => (
                Kind::Product,
                PartNonterminal::Level(UNARY),
                TokenSet::Products,
            ),
            Operands::Sum => (Kind::Sum, PartNonterminal::Level(PRODUCT), TokenSet::Sums),
            Operands::Shift => (Kind::Shift, PartNonterminal::Level(SUM), TokenSet::Shifts),
            Operands::BitAnd => (
                Kind::BitAnd,
                PartNonterminal::Level(SHIFT),
                TokenSet::Ampersand,
            ),
            Operands::Xor => (Kind::Xor, PartNonterminal::Level(BIT_AND), TokenSet::Caret),
            Operands::BitOr => (Kind::BitOr, PartNonterminal::Level(XOR), TokenSet::Bar),
            Operands::And => (Kind::And, PartNonterminal::Level(NOT), TokenSet::And),
            Operands::Or => (Kind::Or, PartNonterminal::Level(AND), TokenSet::Or),
            Operands::Row => (Kind::Row, TEST, TokenSet::Comma),
        };
        OperandRow {
            kind,
            nonterminal,
            operator,
        }
    }
}

impl OperandsAt {
    fn next(self, operands: Operands) -> Move
        ensures expects { Expects (left_in_operands operands self) result }
        ensures few { Few result }
    {
        let row = operands.row();
        match self {
            OperandsAt::Part => Move::Read(
                row.nonterminal,
                NodeState::Operands(operands, OperandsAt::After),
            ),
            OperandsAt::After => Move::Choose(
                row.operator,
                NodeState::Operands(operands, OperandsAt::Operator),
                NodeState::Rest(row.kind, Tail::Nothing),
            ),
            OperandsAt::Operator => Move::Take(
                row.operator,
                NodeState::Operands(operands, OperandsAt::Part),
            ),
        }
    }
}

impl ClausesAt {
    fn next(self, kind: Kind, close: TokenSet) -> Move
        ensures expects { Expects (finish kind (left_of_clauses close self)) result }
        ensures few { Few result }
    {
        let further = NodeState::Clauses(kind, close, ClausesAt::Further);
        match self {
            ClausesAt::First => Move::Read(PartNonterminal::FirstClause, further),
            ClausesAt::Further => Move::Choose(
                TokenSet::Clauses,
                NodeState::Clauses(kind, close, ClausesAt::Clause),
                NodeState::Rest(kind, Tail::Token(close)),
            ),
            ClausesAt::Clause => Move::Read(PartNonterminal::Clause, further),
        }
    }
}

impl NamesAt {
    fn next(self) -> Move
        ensures expects { Expects (finish Kind.For (left_of_names self)) result }
        ensures few { Few result }
    {
        match self {
            NamesAt::Name => Move::Read(
                PartNonterminal::Level(PRIMARY),
                NodeState::Names(NamesAt::After),
            ),
            NamesAt::After => Move::Choose(
                TokenSet::Comma,
                NodeState::Names(NamesAt::Comma),
                NodeState::Rest(
                    Kind::For,
                    Tail::TokenPart(TokenSet::In, PartNonterminal::Level(OR)),
                ),
            ),
            NamesAt::Comma => Move::Take(TokenSet::Comma, NodeState::Names(NamesAt::Name)),
        }
    }
}

impl LambdaAt {
    fn next(self) -> Move
        ensures expects { Expects (finish Kind.Lambda (left_of_lambda self)) result }
        ensures few { Few result }
    {
        let body = NodeState::Rest(Kind::Lambda, Tail::TokenPart(TokenSet::Colon, TEST));
        match self {
            LambdaAt::Begin => Move::Take(TokenSet::Lambda, NodeState::Lambda(LambdaAt::Params)),
            LambdaAt::Params => Move::Choose(
                TokenSet::Colon,
                body,
                NodeState::Lambda(LambdaAt::Param),
            ),
            LambdaAt::Param => Move::Read(
                PartNonterminal::Param,
                NodeState::Lambda(LambdaAt::After),
            ),
            LambdaAt::After => Move::Choose(
                TokenSet::Comma,
                NodeState::Lambda(LambdaAt::Comma),
                body,
            ),
            LambdaAt::Comma => Move::Take(TokenSet::Comma, NodeState::Lambda(LambdaAt::Param)),
        }
    }
}

impl StarredAt {
    fn next(self) -> Move
        ensures expects { Expects (finish Kind.Param (left_of_starred self)) result }
        ensures few { Few result }
    {
        match self {
            StarredAt::Begin => Move::Choose(
                TokenSet::Star,
                NodeState::Starred(StarredAt::Star),
                NodeState::Rest(
                    Kind::Param,
                    Tail::Tokens(TokenSet::DoubleStar, TokenSet::Name),
                ),
            ),
            StarredAt::Star => Move::Take(TokenSet::Star, NodeState::Starred(StarredAt::Name)),
            StarredAt::Name => Move::Choose(
                TokenSet::Name,
                NodeState::Rest(Kind::Param, Tail::Token(TokenSet::Name)),
                NodeState::Rest(Kind::Param, Tail::Nothing),
            ),
        }
    }
}

impl RoundAt {
    fn next(self) -> Move
        ensures expects { Expects (left_in_round self) result }
        ensures few { Few result }
    {
        match self {
            RoundAt::Open => Move::Take(TokenSet::OpenRound, NodeState::Round(RoundAt::Item)),
            RoundAt::Item => Move::Choose(
                TokenSet::CloseRound,
                NodeState::Rest(Kind::Tuple, Tail::Token(TokenSet::CloseRound)),
                NodeState::Round(RoundAt::Test),
            ),
            RoundAt::Test => Move::Read(TEST, NodeState::Round(RoundAt::After)),
            RoundAt::After => Move::Choose(
                TokenSet::CloseRound,
                NodeState::Rest(Kind::Paren, Tail::Token(TokenSet::CloseRound)),
                NodeState::Items(ListedItems::Tuple, ItemsAt::Separator),
            ),
        }
    }
}

impl SquareOrCurly {
    fn row(self) -> BracketRow
        ensures { result ≡ row_of_brackets self }
    {
        match self {
            SquareOrCurly::Square => BracketRow {
                items: ListedItems::List,
                kind: Kind::List,
                nonterminal: TEST,
                close: TokenSet::CloseSquare,
                comprehension: Kind::ListComp,
            },
            SquareOrCurly::Curly => BracketRow {
                items: ListedItems::Dict,
                kind: Kind::Dict,
                nonterminal: PartNonterminal::Entry,
                close: TokenSet::CloseCurly,
                comprehension: Kind::DictComp,
            },
        }
    }
}

impl BracketsAt {
    fn next(self, brackets: SquareOrCurly) -> Move
        ensures expects { Expects (left_in_brackets brackets self) result }
        ensures few { Few result }
    {
        let row = brackets.row();
        match self {
            BracketsAt::Begin => Move::Choose(
                row.close,
                NodeState::Rest(row.kind, Tail::Token(row.close)),
                NodeState::Brackets(brackets, BracketsAt::Element),
            ),
            BracketsAt::Element => Move::Read(
                row.nonterminal,
                NodeState::Brackets(brackets, BracketsAt::After),
            ),
            BracketsAt::After => Move::Choose(
                TokenSet::For,
                NodeState::Clauses(row.comprehension, row.close, ClausesAt::First),
                NodeState::Items(row.items, ItemsAt::More),
            ),
        }
    }
}

impl SuffixAt {
    fn next(self) -> Move
        ensures expects { Expects (left_of_suffix self) result }
        ensures few { Few result }
    {
        match self {
            SuffixAt::Begin => Move::Choose(
                TokenSet::Dot,
                NodeState::Rest(Kind::Dot, Tail::Tokens(TokenSet::Dot, TokenSet::Name)),
                NodeState::Suffix(SuffixAt::CallOrIndex),
            ),
            SuffixAt::CallOrIndex => Move::Choose(
                TokenSet::OpenRound,
                NodeState::Suffix(SuffixAt::Call),
                NodeState::Suffix(SuffixAt::Index),
            ),
            SuffixAt::Call => Move::Take(
                TokenSet::OpenRound,
                NodeState::Items(ListedItems::Arguments, ItemsAt::Begin),
            ),
            SuffixAt::Index => Move::Take(
                TokenSet::OpenSquare,
                NodeState::Suffix(SuffixAt::IndexItem),
            ),
            SuffixAt::IndexItem => Move::Choose(
                TokenSet::Colon,
                NodeState::Slice(SliceAt::Colon),
                NodeState::Suffix(SuffixAt::IndexExpression),
            ),
            SuffixAt::IndexExpression => Move::Read(
                EXPRESSION,
                NodeState::Suffix(SuffixAt::IndexEnd),
            ),
            SuffixAt::IndexEnd => Move::Choose(
                TokenSet::CloseSquare,
                NodeState::Rest(Kind::Index, Tail::Token(TokenSet::CloseSquare)),
                NodeState::Slice(SliceAt::Colon),
            ),
        }
    }
}

impl HeaderAt {
    fn next(self) -> Move
        ensures expects { Expects (finish Kind.Suite (left_of_header self)) result }
        ensures few { Few result }
    {
        let close = NodeState::Rest(
            Kind::Suite,
            Tail::Tokens(TokenSet::CloseRound, TokenSet::Colon),
        );
        match self {
            HeaderAt::Def => Move::Take(TokenSet::Def, NodeState::Header(HeaderAt::DefName)),
            HeaderAt::DefName => Move::Take(TokenSet::Name, NodeState::Header(HeaderAt::DefOpen)),
            HeaderAt::DefOpen => Move::Take(
                TokenSet::OpenRound,
                NodeState::Header(HeaderAt::Params),
            ),
            HeaderAt::Params => Move::Choose(
                TokenSet::CloseRound,
                close,
                NodeState::Header(HeaderAt::Param),
            ),
            HeaderAt::Param => Move::Read(
                PartNonterminal::Param,
                NodeState::Header(HeaderAt::AfterParam),
            ),
            HeaderAt::AfterParam => Move::Choose(
                TokenSet::Comma,
                NodeState::Header(HeaderAt::Comma),
                close,
            ),
            HeaderAt::Comma => Move::Take(TokenSet::Comma, NodeState::Header(HeaderAt::Params)),
            HeaderAt::For => Move::Take(TokenSet::For, NodeState::Header(HeaderAt::Name)),
            HeaderAt::Name => Move::Read(
                PartNonterminal::Level(PRIMARY),
                NodeState::Header(HeaderAt::AfterName),
            ),
            HeaderAt::AfterName => Move::Choose(
                TokenSet::Comma,
                NodeState::Header(HeaderAt::NameComma),
                NodeState::Header(HeaderAt::In),
            ),
            HeaderAt::NameComma => Move::Take(TokenSet::Comma, NodeState::Header(HeaderAt::Name)),
            HeaderAt::In => Move::Take(TokenSet::In, NodeState::Header(HeaderAt::InExpression)),
            HeaderAt::InExpression => Move::Read(
                EXPRESSION,
                NodeState::Rest(Kind::Suite, Tail::Token(TokenSet::Colon)),
            ),
            HeaderAt::Test(token) => Move::Take(token, NodeState::Header(HeaderAt::TestColon)),
            HeaderAt::TestColon => Move::Read(
                TEST,
                NodeState::Rest(Kind::Suite, Tail::Token(TokenSet::Colon)),
            ),
            HeaderAt::Else => Move::Take(
                TokenSet::Else,
                NodeState::Rest(Kind::Suite, Tail::Token(TokenSet::Colon)),
            ),
        }
    }
}

impl SliceAt {
    fn next(self) -> Move
        ensures expects { Expects (finish Kind.Slice (left_of_slice self)) result }
        ensures few { Few result }
    {
        let close = NodeState::Rest(Kind::Slice, Tail::Token(TokenSet::CloseSquare));
        match self {
            SliceAt::Colon => Move::Take(TokenSet::Colon, NodeState::Slice(SliceAt::End)),
            SliceAt::End => Move::Choose(
                TokenSet::SliceStops,
                NodeState::Slice(SliceAt::AfterEnd),
                NodeState::Slice(SliceAt::EndTest),
            ),
            SliceAt::EndTest => Move::Read(TEST, NodeState::Slice(SliceAt::AfterEnd)),
            SliceAt::AfterEnd => Move::Choose(
                TokenSet::CloseSquare,
                close,
                NodeState::Slice(SliceAt::SecondColon),
            ),
            SliceAt::SecondColon => Move::Take(TokenSet::Colon, NodeState::Slice(SliceAt::Step)),
            SliceAt::Step => Move::Choose(
                TokenSet::CloseSquare,
                close,
                NodeState::Slice(SliceAt::StepTest),
            ),
            SliceAt::StepTest => Move::Read(TEST, close),
        }
    }
}

impl StatementAt {
    fn next(self) -> Move
        ensures expects { Expects (left_of_statement self) result }
        ensures few { Few result }
    {
        match self {
            StatementAt::Begin => Move::Choose(
                TokenSet::Load,
                NodeState::Statement(StatementAt::Load),
                NodeState::Statement(StatementAt::NoLoad),
            ),
            StatementAt::Load => Move::Take(
                TokenSet::Load,
                NodeState::Statement(StatementAt::LoadOpen),
            ),
            StatementAt::LoadOpen => Move::Take(
                TokenSet::OpenRound,
                NodeState::Statement(StatementAt::LoadString),
            ),
            StatementAt::LoadString => Move::Take(
                TokenSet::String,
                NodeState::Items(ListedItems::Loaded, ItemsAt::More),
            ),
            StatementAt::NoLoad => Move::Choose(
                TokenSet::Return,
                NodeState::Statement(StatementAt::Return),
                NodeState::Statement(StatementAt::NoReturn),
            ),
            StatementAt::Return => Move::Take(
                TokenSet::Return,
                NodeState::Statement(StatementAt::Returned),
            ),
            StatementAt::Returned => Move::Choose(
                TokenSet::Expressions,
                NodeState::Rest(Kind::Return, Tail::Part(EXPRESSION)),
                NodeState::Rest(Kind::Return, Tail::Nothing),
            ),
            StatementAt::NoReturn => Move::Choose(
                TokenSet::Flow,
                NodeState::Rest(Kind::Flow, Tail::Token(TokenSet::Flow)),
                NodeState::Statement(StatementAt::Expression),
            ),
            StatementAt::Expression => Move::Read(
                EXPRESSION,
                NodeState::Statement(StatementAt::AfterExpression),
            ),
            StatementAt::AfterExpression => Move::Choose(
                TokenSet::Assigns,
                NodeState::Rest(Kind::Assign, Tail::TokenPart(TokenSet::Assigns, EXPRESSION)),
                NodeState::Rest(Kind::Bare, Tail::Nothing),
            ),
        }
    }
}
