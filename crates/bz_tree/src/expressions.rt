//! The parser: nodes by the table of states, expressions by their ranks.
ghost use Rattle.std.specs.Prelude.{◌≡◌, ◌∷◌, ◌≤◌, ◌*◌, [], ℕ, List, IfOk, length, take, drop};
ghost use Rattle.bz_grammar.specs.Reading.{starts_with};
ghost use Rattle.bz_grammar.specs.Spell.{deepest, depth_limit};
ghost use Rattle.bz_states.specs.Tokens.{terminals_of, Fails};
ghost use Rattle.bz_tree.specs.private.Words.{IsOpen, part_at, Pushes, found_from};
ghost use Rattle.bz_states.specs.States.{nonterminal_of};
ghost use Rattle.bz_tree.specs.private.Ranks.{fitted_at, bound_at, level_at, RisesFrom, atom_at, argument_at, param_at};
ghost use Rattle.bz_grammar.specs.declared.tree.Part.{Part};

use crate::parser::Parser;
use crate::stack::Deep;
use bz_grammar::Kind;
use bz_states::{
    ClausesAt, ItemsAt, LAMBDA, LambdaAt, ListedItems, Move, NOT, NodeState, PRIMARY, ParseHalt,
    PartNonterminal, Precedence, RoundAt, StarredAt, StatementAt, SuffixAt, TEST, Tail, TokenSet,
    UNARY, goes_on, mark_deep_part, mark_next, precedence_at,
};

/// What an expression begins with: its rank, and how deep it is.
#[derive(Clone, Copy)]
struct Begun {
    rank: u8,
    deep: u32,
}

impl<'a> Parser<'a> {
    /// Whether the next leaf is one of these tokens. It is called and not compiled into the loop over moves, where each of them would
    /// have its own table of tokens.
    #[inline(never)]
    fn comes(&self, token: TokenSet) -> bool
        ensures { result ≡ starts_with (terminals_of token) self.now.leaves }
    {
        self.next_is(token)
    }

    /// What is left to read in a state of a node whose parts are on the stack from a place on. Returns how deep the node is.
    #[cycle(parser)]
    fn follow(&mut self, from: usize, deep: u32, state: NodeState, depth: u32) -> Deep
        requires { IsOpen from deep depth self.old.stack }
        ensures ok { IfOk result (λ deep. Pushes (found_from depth (drop from self.old.stack) state self.old.leaves) (take from self.old.stack) self.new.stack self.new.leaves deep) }
        ensures err { Fails result (found_from depth (drop from self.old.stack) state self.old.leaves) }
    {
        let mut deep = deep;
        let mut state = state;
        'moves: loop {
            if let NodeState::Items(listed, ItemsAt::Begin) = state {
                return self.items_of_row(from, deep, listed, depth);
            }
            if let NodeState::Items(listed, ItemsAt::More) = state {
                return self.more_of_row(from, deep, listed, depth);
            }
            if let NodeState::Rest(kind, Tail::TokenPart(token, nonterminal)) = state {
                return self.token_and_part(from, deep, kind, token, nonterminal, depth);
            }
            match state.next_move() {
                Move::Finish(kind) => {
                    self.stack.close(kind, from)?;
                    return Ok(deep + 1);
                }
                Move::Take(token, next) => {
                    deep = deep.max(self.take(token)?);
                    state = next;
                }
                Move::Read(nonterminal, next) => {
                    deep = deep.max(self.part(nonterminal, depth)?);
                    state = next;
                }
                Move::Choose(token, one, other) => {
                    state = if self.comes(token) { one } else { other };
                }
            }
        }
    }

    /// The items of a row that are left, from where one of them or the closing token is, and that token.
    #[cycle(parser)]
    fn items_of_row(&mut self, from: usize, deep: u32, listed: ListedItems, depth: u32) -> Deep
        requires { IsOpen from deep depth self.old.stack }
        ensures ok { IfOk result (λ deep. Pushes (found_from depth (drop from self.old.stack) (NodeState.Items listed ItemsAt.Begin) self.old.leaves) (take from self.old.stack) self.new.stack self.new.leaves deep) }
        ensures err { Fails result (found_from depth (drop from self.old.stack) (NodeState.Items listed ItemsAt.Begin) self.old.leaves) }
    {
        let row = listed.row();
        let mut deep = deep;
        'more: while !self.next_is(row.close) {
            deep = deep.max(self.part(row.nonterminal, depth)?);
            if !self.next_is(row.separator) {
                return self.closing_token(from, deep, row.kind, row.close, depth);
            }
            deep = deep.max(self.take(row.separator)?);
        }
        self.closing_token(from, deep, row.kind, row.close, depth)
    }

    /// What is left of a row after one of its items where the closing token is looked for first: that token, or a separator and the
    /// items after it.
    #[cycle(parser)]
    fn more_of_row(&mut self, from: usize, deep: u32, listed: ListedItems, depth: u32) -> Deep
        requires { IsOpen from deep depth self.old.stack }
        ensures ok { IfOk result (λ deep. Pushes (found_from depth (drop from self.old.stack) (NodeState.Items listed ItemsAt.More) self.old.leaves) (take from self.old.stack) self.new.stack self.new.leaves deep) }
        ensures err { Fails result (found_from depth (drop from self.old.stack) (NodeState.Items listed ItemsAt.More) self.old.leaves) }
    {
        let row = ListedItems::row(listed);
        if self.next_is(row.close) {
            return self.closing_token(from, deep, row.kind, row.close, depth);
        }
        let deep = deep.max(self.take(row.separator)?);
        self.items_of_row(from, deep, listed, depth)
    }

    /// A list or a comprehension in square brackets. Lists are in most texts, and are read without the loop over moves.
    #[cycle(parser)]
    fn square(&mut self, depth: u32) -> Deep
        requires small { depth ≤ 2 * depth_limit }
        ensures ok { IfOk result (λ deep. Pushes (found_from depth [] NodeState.Square self.old.leaves) self.old.stack self.new.stack self.new.leaves deep) }
        ensures err { Fails result (found_from depth [] NodeState.Square self.old.leaves) }
    {
        let from = self.stack.len();
        let open = self.take(TokenSet::OpenSquare)?;
        if self.next_is(TokenSet::CloseSquare) {
            return self.closing_token(from, open, Kind::List, TokenSet::CloseSquare, depth);
        }
        let deep = open.max(self.part(TEST, depth)?);
        if self.next_is(TokenSet::For) {
            let clauses = NodeState::Clauses(
                Kind::ListComp,
                TokenSet::CloseSquare,
                ClausesAt::First,
            );
            return self.follow(from, deep, clauses, depth);
        }
        self.more_of_row(from, deep, ListedItems::List, depth)
    }

    /// A node of this kind of which the closing token alone is left.
    fn closing_token(
        &mut self,
        from: usize,
        deep: u32,
        kind: Kind,
        close: TokenSet,
        depth: u32,
    ) -> Deep
        requires { IsOpen from deep depth self.old.stack }
        ensures ok { IfOk result (λ deep. Pushes (found_from depth (drop from self.old.stack) (NodeState.Rest kind (Tail.Token close)) self.old.leaves) (take from self.old.stack) self.new.stack self.new.leaves deep) }
        ensures err { Fails result (found_from depth (drop from self.old.stack) (NodeState.Rest kind (Tail.Token close)) self.old.leaves) }
    {
        let deep = deep.max(self.take(close)?);
        self.stack.close(kind, from)?;
        Ok(deep + 1)
    }

    /// A node of this kind of which a token and a part are left.
    #[cycle(parser)]
    fn token_and_part(
        &mut self,
        from: usize,
        deep: u32,
        kind: Kind,
        token: TokenSet,
        nonterminal: PartNonterminal,
        depth: u32,
    ) -> Deep
        requires { IsOpen from deep depth self.old.stack }
        ensures ok { IfOk result (λ deep. Pushes (found_from depth (drop from self.old.stack) (NodeState.Rest kind (Tail.TokenPart token nonterminal)) self.old.leaves) (take from self.old.stack) self.new.stack self.new.leaves deep) }
        ensures err { Fails result (found_from depth (drop from self.old.stack) (NodeState.Rest kind (Tail.TokenPart token nonterminal)) self.old.leaves) }
    {
        let front = deep.max(self.take(token)?);
        let whole = front.max(self.part(nonterminal, depth)?);
        self.stack.close(kind, from)?;
        Ok(whole + 1)
    }

    /// A node from its first part on.
    #[cycle(parser)]
    fn begin(&mut self, state: NodeState, depth: u32) -> Deep
        requires small { depth ≤ 2 * depth_limit }
        ensures ok { IfOk result (λ deep. Pushes (found_from depth [] state self.old.leaves) self.old.stack self.new.stack self.new.leaves deep) }
        ensures err { Fails result (found_from depth [] state self.old.leaves) }
    {
        let from = self.stack.len();
        self.follow(from, 0, state, depth)
    }

    /// A node that begins with the last part of the stack, which is at `from` and is so deep.
    #[inline(always)]
    #[cycle(parser)]
    fn go_on(&mut self, from: usize, deep: u32, state: NodeState, depth: u32) -> Deep
        requires from { from ≤ length self.old.stack }
        requires deep { deep ≡ deepest (drop from self.old.stack) }
        requires small { depth ≤ 2 * depth_limit }
        ensures ok { IfOk result (λ after. Pushes (fitted_at depth deep (drop from self.old.stack) state self.old.leaves) (take from self.old.stack) self.new.stack self.new.leaves after) }
        ensures err { Fails result (fitted_at depth deep (drop from self.old.stack) state self.old.leaves) }
    {
        if deep > depth {
            if let Some(part) = self.stack.get(from) {
                mark_deep_part(part, depth, &mut self.leaves);
            }
            return Err(ParseHalt::Unexpected);
        }
        if let NodeState::Rest(kind, Tail::TokenPart(token, nonterminal)) = state {
            return self.token_and_part(from, deep, kind, token, nonterminal, depth);
        }
        self.follow(from, deep, state, depth)
    }

    /// A part of this sort that is at most this deep. Returns how deep it is.
    #[cycle(parser)]
    pub(crate) fn part(&mut self, nonterminal: PartNonterminal, depth: u32) -> Deep
        requires small { depth ≤ 2 * depth_limit }
        ensures ok { IfOk result (λ deep. Pushes (part_at depth (nonterminal_of nonterminal) self.old.leaves) self.old.stack self.new.stack self.new.leaves deep) }
        ensures err { Fails result (part_at depth (nonterminal_of nonterminal) self.old.leaves) }
    {
        if depth == 0 {
            return self.leaf_of(nonterminal);
        }
        let inner = depth - 1;
        match nonterminal {
            PartNonterminal::Level(n) => self.expression(n, inner),
            PartNonterminal::Argument => self.argument(inner),
            PartNonterminal::Loaded => {
                if self.next_is(TokenSet::Name) {
                    self.begin(NodeState::Alias, inner)
                } else {
                    self.take(TokenSet::String)
                }
            }
            PartNonterminal::Entry => self.begin(NodeState::Entry, inner),
            PartNonterminal::Clause => self.begin(NodeState::Clause, inner),
            PartNonterminal::FirstClause => self.begin(NodeState::For, inner),
            PartNonterminal::Small => self.begin(self.small_state(), inner),
            PartNonterminal::Line => {
                let statements = NodeState::Items(ListedItems::Statements, ItemsAt::Part);
                self.begin(statements, inner)
            }
            PartNonterminal::Param => self.param(inner),
        }
    }

    /// Where a statement of one line is read from: what most of them do not begin with is passed at once.
    #[inline(always)]
    fn small_state(&self) -> NodeState
        ensures { (depth : ℕ) → found_from depth [] result self.now.leaves ≡ found_from depth [] (NodeState.Statement StatementAt.Begin) self.now.leaves }
    {
        if self.next_is(TokenSet::Load) {
            return NodeState::Statement(StatementAt::Load);
        }
        if self.next_is(TokenSet::Return) {
            return NodeState::Statement(StatementAt::Return);
        }
        if self.next_is(TokenSet::Flow) {
            return NodeState::Rest(Kind::Flow, Tail::Token(TokenSet::Flow));
        }
        NodeState::Statement(StatementAt::Expression)
    }

    /// Where what is after a primary is read from, by what it begins with.
    #[inline(always)]
    fn suffix_state(&self) -> NodeState
        ensures { (depth : ℕ) (front : List Part) → found_from depth front result self.now.leaves ≡ found_from depth front (NodeState.Suffix SuffixAt.Begin) self.now.leaves }
    {
        if self.next_is(TokenSet::Dot) {
            let name = Tail::Tokens(TokenSet::Dot, TokenSet::Name);
            return NodeState::Rest(Kind::Dot, name);
        }
        if self.next_is(TokenSet::OpenRound) {
            return NodeState::Suffix(SuffixAt::Call);
        }
        NodeState::Suffix(SuffixAt::Index)
    }

    /// A leaf of this sort.
    #[tactic(auto, unfolding(bz_states::specs::Tokens::token_at, crate::specs::private::Words::part_at))]
    fn leaf_of(&mut self, nonterminal: PartNonterminal) -> Deep
        ensures ok { IfOk result (λ deep. Pushes (part_at 0 (nonterminal_of nonterminal) self.old.leaves) self.old.stack self.new.stack self.new.leaves deep) }
        ensures err { Fails result (part_at 0 (nonterminal_of nonterminal) self.old.leaves) }
    {
        mark_next(nonterminal, &mut self.leaves);
        let at = self.leaves.next_at();
        let deep = match nonterminal {
            PartNonterminal::Level(_) | PartNonterminal::Argument => self.take(TokenSet::Simple)?,
            PartNonterminal::Loaded => self.take(TokenSet::String)?,
            PartNonterminal::Param => self.take(TokenSet::Name)?,
            _ => return Err(ParseHalt::Unexpected),
        };
        if let Some(at) = at
            && goes_on(nonterminal, &self.leaves)
        {
            self.leaves.mark_too_deep(at);
        }
        Ok(deep)
    }

    /// An expression of this rank or a lower one, of which the parts are at most so deep: what it begins with, and then the
    /// operators after it, from those that bind tightest on.
    #[cycle(parser)]
    fn expression(&mut self, n: u8, depth: u32) -> Deep
        requires small { depth ≤ 2 * depth_limit }
        ensures ok { IfOk result (λ deep. Pushes (level_at depth n self.old.leaves) self.old.stack self.new.stack self.new.leaves deep) }
        ensures err { Fails result (level_at depth n self.old.leaves) }
    {
        let from = self.stack.len();
        let first = self.operand(n, depth)?;
        let mut deep = first.deep;
        let mut rank = self.leaves.next_rank(first.rank);
        'ranks: while rank < n {
            deep = self.raised(from, deep, rank, depth)?;
            rank = self.leaves.next_rank(rank + 1);
        }
        Ok(deep)
    }

    /// What an expression of this rank begins with: a lambda, the node of `not` or of a sign, or a primary.
    #[cycle(parser)]
    fn operand(&mut self, n: u8, depth: u32) -> Result<Begun, ParseHalt>
        requires small { depth ≤ 2 * depth_limit }
        ensures ok { IfOk result (λ first. RisesFrom depth first.rank n self.old.leaves self.new.leaves self.old.stack self.new.stack first.deep) }
        ensures err { Fails result (level_at depth n self.old.leaves) }
    {
        if self.leaves.starts_from(LAMBDA, n, TokenSet::Lambda) {
            let deep = self.begin(NodeState::Lambda(LambdaAt::Begin), depth)?;
            return Ok(Begun { rank: LAMBDA, deep });
        }
        if self.leaves.starts_from(NOT, n, TokenSet::Not) {
            let state = NodeState::Rest(
                Kind::Not,
                Tail::TokenPart(TokenSet::Not, PartNonterminal::Level(NOT)),
            );
            let deep = self.begin(state, depth)?;
            return Ok(Begun { rank: NOT, deep });
        }
        if self.leaves.starts_from(UNARY, n, TokenSet::Signs) {
            let state = NodeState::Rest(
                Kind::Unary,
                Tail::TokenPart(TokenSet::Signs, PartNonterminal::Level(UNARY)),
            );
            let deep = self.begin(state, depth)?;
            return Ok(Begun { rank: UNARY, deep });
        }
        let deep = self.primary(depth)?;
        Ok(Begun {
            rank: PRIMARY,
            deep,
        })
    }

    /// The last part of the stack, which is at `from` and is so deep, or the node that the operator of this rank makes of it.
    #[cycle(parser)]
    fn raised(&mut self, from: usize, deep: u32, rank: u8, depth: u32) -> Deep
        requires from { from ≤ length self.old.stack }
        requires deep { deep ≡ deepest (drop from self.old.stack) }
        requires small { depth ≤ 2 * depth_limit }
        ensures ok { (a : Part) → drop from self.old.stack ≡ a ∷ [] → IfOk result (λ after. Pushes (bound_at depth rank a self.old.leaves) (take from self.old.stack) self.new.stack self.new.leaves after) }
        ensures err { (a : Part) → drop from self.old.stack ≡ a ∷ [] → Fails result (bound_at depth rank a self.old.leaves) }
    {
        match precedence_at(rank) {
            Precedence::Infix(token, state) => {
                if self.next_is(token) {
                    self.go_on(from, deep, state, depth)
                } else {
                    Ok(deep)
                }
            }
            Precedence::Prefix(_, _) => Ok(deep),
            Precedence::Same => Ok(deep),
        }
    }

    /// A name, a number, a string or what is in brackets, and what is after it.
    #[cycle(parser)]
    fn primary(&mut self, depth: u32) -> Deep
        requires small { depth ≤ 2 * depth_limit }
        ensures ok { IfOk result (λ deep. Pushes (level_at depth 0 self.old.leaves) self.old.stack self.new.stack self.new.leaves deep) }
        ensures err { Fails result (level_at depth 0 self.old.leaves) }
    {
        let from = self.stack.len();
        let mut deep = self.atom(depth)?;
        'suffixes: while self.next_is(TokenSet::Suffixes) {
            deep = self.go_on(from, deep, self.suffix_state(), depth)?;
        }
        Ok(deep)
    }

    /// A name, a number, a string or what is in brackets.
    #[cycle(parser)]
    fn atom(&mut self, depth: u32) -> Deep
        requires small { depth ≤ 2 * depth_limit }
        ensures ok { IfOk result (λ deep. Pushes (atom_at depth self.old.leaves) self.old.stack self.new.stack self.new.leaves deep) }
        ensures err { Fails result (atom_at depth self.old.leaves) }
    {
        if self.next_is(TokenSet::OpenRound) {
            self.begin(NodeState::Round(RoundAt::Open), depth)
        } else if self.next_is(TokenSet::OpenSquare) {
            self.square(depth)
        } else if self.next_is(TokenSet::OpenCurly) {
            self.begin(NodeState::Curly, depth)
        } else {
            self.take(TokenSet::Simple)
        }
    }

    /// An argument of a call.
    #[cycle(parser)]
    fn argument(&mut self, depth: u32) -> Deep
        requires small { depth ≤ 2 * depth_limit }
        ensures ok { IfOk result (λ deep. Pushes (argument_at depth self.old.leaves) self.old.stack self.new.stack self.new.leaves deep) }
        ensures err { Fails result (argument_at depth self.old.leaves) }
    {
        if self.next_is(TokenSet::Stars) {
            let star = NodeState::Rest(Kind::Star, Tail::TokenPart(TokenSet::Stars, TEST));
            return self.begin(star, depth);
        }
        let from = self.stack.len();
        let deep = self.expression(LAMBDA, depth)?;
        if !self.next_is(TokenSet::Equals) {
            return Ok(deep);
        }
        if !self.stack.is_name_at(from) {
            return Err(ParseHalt::Unexpected);
        }
        let named = NodeState::Rest(Kind::Named, Tail::TokenPart(TokenSet::Equals, TEST));
        self.go_on(from, deep, named, depth)
    }

    /// A parameter.
    #[cycle(parser)]
    fn param(&mut self, depth: u32) -> Deep
        requires small { depth ≤ 2 * depth_limit }
        ensures ok { IfOk result (λ deep. Pushes (param_at depth self.old.leaves) self.old.stack self.new.stack self.new.leaves deep) }
        ensures err { Fails result (param_at depth self.old.leaves) }
    {
        if self.next_is(TokenSet::Stars) {
            return self.begin(NodeState::Starred(StarredAt::Begin), depth);
        }
        let from = self.stack.len();
        let deep = self.take(TokenSet::Name)?;
        if !self.next_is(TokenSet::Equals) {
            return Ok(deep);
        }
        let valued = NodeState::Rest(Kind::Param, Tail::TokenPart(TokenSet::Equals, TEST));
        self.go_on(from, deep, valued, depth)
    }
}
