//! What the parser reads from, and where it puts what it read.
ghost use Rattle.std.specs.Prelude.{◌≡◌, ◌≤◌, [], IfOk, length};
ghost use Rattle.bz_lex.proofs.Coming.{to_come};
ghost use Rattle.bz_lex.specs.declared.place.Place.{Place};
ghost use Rattle.bz_grammar.specs.Spell.{limit};
ghost use Rattle.bz_grammar.specs.Reading.{starts_with};
ghost use Rattle.bz_states.specs.Tokens.{terminals_of, token_at, Fails};
ghost use Rattle.bz_tree.specs.private.Words.{Pushes};

use crate::stack::{Deep, Stack};
use bz_states::{Leaves, TokenSet};
use std::alloc::Global;

/// The leaves that come, and the parts that were read and are in no node yet.
#[derive(Drop)]
pub(crate) struct Parser<'a> {
    pub leaves: Leaves<'a>,
    pub stack: Stack,
}

impl<'a> Parser<'a> {
    /// A parser of a text, of which nothing was read yet.
    pub fn new(alloc: Global, text: &'a [u8]) -> Parser<'a>
        requires { length text.now ≤ limit }
        ensures leaves { result.leaves ≡ to_come Place.Fresh text.now }
        ensures stack { result.stack ≡ [] }
    {
        Parser {
            leaves: Leaves::new(alloc, text),
            stack: Stack::new(alloc),
        }
    }

    /// Whether there is a next leaf and it is one of these tokens.
    #[inline(always)]
    pub fn next_is(&self, token: TokenSet) -> bool
        ensures { result ≡ starts_with (terminals_of token) self.now.leaves }
    {
        self.leaves.next_is(token)
    }

    /// The next leaf, where it is this token. Returns how deep it is: not at all.
    #[inline(always)]
    pub fn take(&mut self, token: TokenSet) -> Deep
        ensures ok { IfOk result (λ deep. Pushes (token_at (terminals_of token) self.old.leaves) self.old.stack self.new.stack self.new.leaves deep) }
        ensures err { Fails result (token_at (terminals_of token) self.old.leaves) }
    {
        self.stack.take(token, &mut self.leaves)
    }
}
