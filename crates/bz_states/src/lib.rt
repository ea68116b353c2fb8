//! What the grammar requires: its tokens, the leaves of a text of which the next one is known, and the states in which a node is read.
#![tactic(auto)]

mod deep;
mod leaves;
mod line;
mod moves;
mod state;
mod symbol;
mod token;

pub use deep::{deeper_at, goes_on, mark_deep_part, mark_next};
pub use leaves::{Leaves, ParseHalt};
pub use line::line_indent;
pub use state::{
    BracketsAt, ClausesAt, HeaderAt, ItemRow, ItemsAt, LAMBDA, LambdaAt, ListedItems, Move, NOT,
    NamesAt, NodeState, Operands, OperandsAt, PRIMARY, PartNonterminal, Precedence, RoundAt,
    SliceAt, SquareOrCurly, StarredAt, StatementAt, SuffixAt, TEST, Tail, UNARY, precedence_at,
};
pub use token::TokenSet;
