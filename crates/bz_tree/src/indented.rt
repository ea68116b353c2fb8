//! Statements and suites, by their indents.
ghost use Rattle.std.specs.Prelude.{◌≡◌, ◌∷◌, ◌++◌, ◌≤◌, ◌*◌, [], ℕ, Some, None, Ok, Err, OnOk, IfOk, IfErr, length, take, drop};
ghost use Rattle.bz_grammar.specs.declared.tree.Node.{Node};
ghost use Rattle.bz_grammar.specs.declared.tree.Part.{Part};
ghost use Rattle.bz_states.specs.declared.leaves.ParseHalt.TheVariants as h;
ghost use Rattle.bz_grammar.specs.Spell.{depth_limit};
ghost use Rattle.bz_grammar.specs.Shapes.{line};
ghost use Rattle.bz_grammar.specs.Reading.{node_part};
ghost use Rattle.bz_grammar.specs.Legal.{IsFileOf};
ghost use Rattle.bz_grammar.specs.Joined.{file_with};
ghost use Rattle.bz_grammar.specs.Suites.{read_file, is_deeper};
ghost use Rattle.bz_states.specs.Tokens.{Fails};
ghost use Rattle.bz_tree.specs.private.Words.{part_at};
ghost use Rattle.bz_states.specs.States.{plan_at};
ghost use Rattle.bz_tree.specs.private.Rows.{PutsAll, PutsOne, plan_of_header, header_at, owner_at, suite_at, statement_at, statements_at, if_at};

use crate::parser::Parser;
use crate::stack::Stack;
use bz_grammar::Kind;
use bz_lex::DEPTH_LIMIT;
use bz_states::{HeaderAt, Move, NodeState, ParseHalt, PartNonterminal, TokenSet};

/// Whether parts were read.
type Done = Result<(), ParseHalt>;

/// What is before a suite, up to its colon.
#[derive(Clone, Copy)]
pub(crate) enum Header {
    Def,
    For,
    If,
    Elif,
    Else,
}

impl Header {
    fn state(self) -> NodeState
        ensures { plan_at result ≡ plan_of_header self }
    {
        match self {
            Header::Def => NodeState::Header(HeaderAt::Def),
            Header::For => NodeState::Header(HeaderAt::For),
            Header::If => NodeState::Header(HeaderAt::Test(TokenSet::If)),
            Header::Elif => NodeState::Header(HeaderAt::Test(TokenSet::Elif)),
            Header::Else => NodeState::Header(HeaderAt::Else),
        }
    }
}

impl<'a> Parser<'a> {
    /// Reads the parts of the file within the limit of depth that the leaves are.
    ///
    /// Errors: `Unexpected` where no such file has these leaves; `Memory` where a growth was refused.
    pub fn file(&mut self) -> Done
        requires { self.old.stack ≡ [] }
        ensures ok { OnOk result (IsFileOf self.old.leaves (file_with self.new.stack)) }
        ensures err { (result ≡ Err h.Unexpected) → (file : Node) → IsFileOf self.old.leaves file → ⊥ }
    {
        self.whole(DEPTH_LIMIT - 1)
    }

    /// Reads the parts, at most so deep, of the file that all leaves are.
    fn whole(&mut self, depth: u32) -> Done
        requires first { self.old.stack ≡ [] }
        requires small { depth ≤ 2 * depth_limit }
        ensures ok { OnOk result (read_file depth self.old.leaves ≡ Some (file_with self.new.stack)) }
        ensures err { Fails result (read_file depth self.old.leaves) }
    {
        self.statements(&[], depth)?;
        let _end = self.take(TokenSet::End)?;
        if !self.leaves.is_empty() {
            return Err(ParseHalt::Unexpected);
        }
        Ok(())
    }

    /// Reads what it can of a file of which the parts are at most so deep: its statements, or where no file goes on with some leaf those
    /// in front of that one and then parts of the statement there. The error, `Memory` alone: a growth was refused.
    pub fn read_so_far(&mut self, depth: u32) -> Done
        requires { depth ≤ 2 * depth_limit }
    {
        match self.statements(&[], depth) {
            Err(ParseHalt::Memory) => Err(ParseHalt::Memory),
            _ => Ok(()),
        }
    }

    /// What is before a suite.
    fn head(&mut self, which: Header, depth: u32) -> Done
        requires small { depth ≤ 2 * depth_limit }
        ensures ok { OnOk result (PutsAll (header_at depth which self.old.leaves) self.old.stack self.new.stack self.new.leaves) }
        ensures err { Fails result (header_at depth which self.old.leaves) }
    {
        let from = self.stack.len();
        let mut state = which.state();
        'moves: loop {
            match state.next_move() {
                Move::Finish(_) => return Ok(()),
                Move::Take(token, next) => {
                    self.take(token)?;
                    state = next;
                }
                Move::Read(nonterminal, next) => {
                    self.part(nonterminal, depth)?;
                    state = next;
                }
                Move::Choose(token, one, other) => {
                    state = if self.next_is(token) { one } else { other };
                }
            }
        }
    }

    /// A line that is at most so deep.
    fn one_line(&mut self, depth: u32) -> Done
        requires small { depth ≤ 2 * depth_limit }
        ensures ok { OnOk result (PutsOne (part_at depth line self.old.leaves) self.old.stack self.new.stack self.new.leaves) }
        ensures err { Fails result (part_at depth line self.old.leaves) }
    {
        self.part(PartNonterminal::Line, depth)?;
        Ok(())
    }

    /// A header and its suite, of a statement at this indent.
    #[cycle(statements)]
    fn owner(&mut self, which: Header, indent: &[u8], depth: u32) -> Done
        requires small { depth ≤ 2 * depth_limit }
        ensures ok { OnOk result (PutsAll (owner_at depth which indent.now self.old.leaves) self.old.stack self.new.stack self.new.leaves) }
        ensures err { Fails result (owner_at depth which indent.now self.old.leaves) }
    {
        self.head(which, depth)?;
        self.suite(indent, depth)
    }

    /// What is in an IfStmt at this indent.
    #[cycle(statements)]
    fn branches(&mut self, indent: &[u8], depth: u32) -> Done
        requires small { depth ≤ 2 * depth_limit }
        ensures ok { OnOk result (PutsAll (if_at depth indent.now self.old.leaves) self.old.stack self.new.stack self.new.leaves) }
        ensures err { Fails result (if_at depth indent.now self.old.leaves) }
    {
        self.owner(Header::If, indent, depth)?;
        'branches: while self.leaves.next_stands_at(TokenSet::Elif, indent) {
            self.owner(Header::Elif, indent, depth)?;
        }
        if self.leaves.next_stands_at(TokenSet::Else, indent) {
            return self.owner(Header::Else, indent, depth);
        }
        Ok(())
    }

    /// A statement at this indent that is at most so deep.
    #[cycle(statements)]
    fn statement(&mut self, indent: &[u8], depth: u32) -> Done
        requires small { depth ≤ 2 * depth_limit }
        ensures ok { OnOk result (PutsOne (statement_at depth indent.now self.old.leaves) self.old.stack self.new.stack self.new.leaves) }
        ensures err { Fails result (statement_at depth indent.now self.old.leaves) }
    {
        if depth == 0 {
            self.leaves.mark_next_too_deep();
            return Err(ParseHalt::Unexpected);
        }
        let from = self.stack.len();
        if self.next_is(TokenSet::Def) {
            self.owner(Header::Def, indent, depth - 1)?;
            return close(Kind::Def, from, &mut self.stack);
        }
        if self.next_is(TokenSet::If) {
            self.branches(indent, depth - 1)?;
            return close(Kind::IfStmt, from, &mut self.stack);
        }
        if self.next_is(TokenSet::For) {
            self.owner(Header::For, indent, depth - 1)?;
            return close(Kind::ForStmt, from, &mut self.stack);
        }
        self.one_line(depth)
    }

    /// The suite of a statement at this indent, at most so deep.
    #[cycle(statements)]
    fn suite(&mut self, indent: &[u8], depth: u32) -> Done
        requires small { depth ≤ 2 * depth_limit }
        ensures ok { OnOk result (PutsOne (suite_at depth indent.now self.old.leaves) self.old.stack self.new.stack self.new.leaves) }
        ensures err { Fails result (suite_at depth indent.now self.old.leaves) }
    {
        if depth == 0 {
            self.leaves.mark_next_too_deep();
            return Err(ParseHalt::Unexpected);
        }
        if !self.next_is(TokenSet::Newline) {
            return self.one_line(depth);
        }
        let from = self.stack.len();
        self.take(TokenSet::Newline)?;
        let inner = self.leaves.next_indent();
        if !is_deeper(indent, inner) {
            return Err(ParseHalt::Unexpected);
        }
        if !self.next_is(TokenSet::Statements) {
            self.leaves.mark_indent(inner);
            return Err(ParseHalt::Unexpected);
        }
        self.statements(inner, depth - 1)?;
        close(Kind::Suite, from, &mut self.stack)
    }

    /// The statements at this indent, each at most so deep.
    #[cycle(statements)]
    fn statements(&mut self, indent: &[u8], depth: u32) -> Done
        requires small { depth ≤ 2 * depth_limit }
        ensures ok { OnOk result (PutsAll (statements_at depth indent.now self.old.leaves) self.old.stack self.new.stack self.new.leaves) }
        ensures err { Fails result (statements_at depth indent.now self.old.leaves) }
    {
        'rows: while self.leaves.next_stands_at(TokenSet::Statements, indent) {
            self.statement(indent, depth)?;
        }
        self.leaves.mark_indent(indent);
        Ok(())
    }
}

/// Puts the parts from a place on into a node of this kind. The error, `Memory` alone: a growth was refused.
fn close(kind: Kind, from: usize, stack: &mut Stack) -> Done
    requires { from ≤ length stack.old }
    ensures ok { OnOk result (stack.new ≡ take from stack.old ++ node_part kind (drop from stack.old) ∷ []) }
    ensures err { IfErr result (λ halt. halt ≡ h.Memory) }
{
    stack.close(kind, from)?;
    Ok(())
}

/// Whether an indent is another one followed by at least one character.
fn is_deeper(outer: &[u8], inner: &[u8]) -> bool
    ensures { result ≡ is_deeper outer.now inner.now }
{
    inner.len() > outer.len() && inner.split_at(outer.len()).0 == outer
}
