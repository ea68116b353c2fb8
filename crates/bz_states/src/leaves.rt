//! The leaves of a text, of which the next one is known.
ghost use Rattle.std.specs.Prelude.{◌≡◌, ◌↔◌, ◌≤◌, ◌<◌, ◌+◌, ◌&&◌, ◌∷◌, [], ℕ, nat_le, false, Some, None, length, drop, MatchOption, IfSome, IsTrue};
ghost use Rattle.bz_grammar.specs.Shapes.{is_one_of};
ghost use Rattle.bz_grammar.specs.Reading.{starts_with};
ghost use Rattle.bz_grammar.specs.Indents.{first_indent};
ghost use Rattle.bz_grammar.specs.Suites.{stands_at};
ghost use Rattle.bz_lex.specs.Gaps.{indent};
ghost use Rattle.bz_states.specs.declared.token.TokenSet.TheVariants as t;
ghost use Rattle.bz_grammar.specs.declared.tree.Part.TheVariants as p;
ghost use Rattle.bz_grammar.specs.Spell.{limit};
ghost use Rattle.bz_lex.proofs.Coming.{to_come};
ghost use Rattle.bz_lex.specs.Fronts.{AnswersFront, front_leaf};
ghost use Rattle.bz_states.specs.Symbols.{example, DecidesFirst, next_of};
ghost use Rattle.bz_states.specs.Tokens.{terminals_of, token_at};
ghost use Rattle.bz_states.specs.States.{binds_at};

use crate::line::indent_of;
use crate::state::LAMBDA;
use crate::symbol::Symbol;
use crate::token::TokenSet;
use bz_lex::{Class, Front, Place, leaf_front};
use std::alloc::{AllocError, AllocFailed, Global};
use std::marker::Model;

/// Why the leaves are no file.
#[derive(Drop)]
pub enum ParseHalt {
    /// A growth was refused.
    Memory,
    /// No file goes on with the next leaf.
    Unexpected,
}

impl From<AllocError> for ParseHalt {
    ghost use Rattle.std.specs.Prelude.{◌≡◌};
    ghost use Rattle.bz_states.specs.declared.leaves.ParseHalt.TheVariants as h;

    ghost from_gives = { λ _ halt. halt ≡ h.Memory };

    fn from(_refused: AllocError) -> ParseHalt {
        ParseHalt::Memory
    }
}

impl<T: Drop> From<AllocFailed<T>> for ParseHalt {
    ghost use Rattle.std.specs.Prelude.{◌≡◌};
    ghost use Rattle.bz_states.specs.declared.leaves.ParseHalt.TheVariants as h;

    ghost from_gives = { λ _ halt. halt ≡ h.Memory };

    fn from(_refused: AllocFailed<T>) -> ParseHalt {
        ParseHalt::Memory
    }
}

/// Where a node begins that is nested too deep, and the byte after which the leaves can't go on for that reason.
#[derive(Clone, Copy, Drop)]
struct TooDeep {
    at: usize,
    until: usize,
}

/// The leaves of a text that are not in the tree yet. Each is cut off the text when it is taken; of the next one alone is
/// known what it is. A contract sees the list of leaves that come, up to where no leaf is.
#[derive(Drop)]
pub struct Leaves<'a> {
    alloc: Global,
    /// The text from the gap of the next leaf on, and where that is in a file.
    rest: &'a [u8],
    place: Place,
    /// Whether there is a next leaf, and then its front.
    is_there: bool,
    front: Front,
    symbol: Symbol,
    /// How many bytes the whole text has.
    total: usize,
    too_deep: Option<TooDeep>,
    /// How many bytes were not left when the next leaf was at an indent at which a statement may begin.
    at_indent: Option<usize>,
}

impl<'a> Model for Leaves<'a> {
    ghost use Rattle.std.specs.Prelude.{◌<◌, ◌+◌, ◌^◌, List, length};
    ghost use Rattle.std.specs.Coded.{coded_list};
    ghost use Rattle.bz_lex.specs.declared.leaf.Leaf.{Leaf};
    ghost use Rattle.bz_lex.specs.contracts.leaf.Leaf as e;
    ghost use Rattle.bz_lex.specs.Places.{open_brackets};
    ghost use Rattle.bz_lex.specs.Fronts.{AnswersFront};
    ghost use Rattle.bz_lex.proofs.Coming.{to_come};
    ghost use Rattle.bz_states.specs.Symbols.{DecidesFirst, next_of};

    ghost Value = { List Leaf };

    ghost coded = { coded_list e.the_row.coded };

    ghost view = { λ leaves. to_come leaves.place leaves.rest.now };

    ghost invariant = { λ leaves. AnswersFront leaves.place leaves.rest.now (next_of leaves.is_there leaves.front) × DecidesFirst leaves.symbol (to_come leaves.place leaves.rest.now) × (open_brackets leaves.place + length leaves.rest.now < 2 ^ 64) };
}

impl<'a> Leaves<'a> {
    /// The leaves of a text, from its first byte on, up to where no leaf is.
    pub fn new(alloc: Global, text: &'a [u8]) -> Leaves<'a>
        requires { length text.now ≤ limit }
        ensures { result ≡ to_come Place.Fresh text.now }
    {
        let mut front = Front {
            class: Class::End,
            gap: 0,
            token: 0,
        };
        let is_there = find(text, Place::Fresh, &mut front);
        Leaves {
            alloc,
            rest: text,
            place: Place::Fresh,
            is_there,
            front,
            symbol: symbol_at(next_of(is_there, front), text, Place::Fresh),
            total: text.len(),
            too_deep: None,
            at_indent: None,
        }
    }

    /// Whether no leaf comes: all of them were taken, or none is where the last one ends.
    pub fn is_empty(&self) -> bool
        ensures { IsTrue result ↔ (self.now ≡ []) }
    {
        match next_of(self.is_there, self.front) {
            Some(_) => false,
            None => true,
        }
    }

    /// Whether there is a next leaf and it is one of these tokens.
    #[inline(always)]
    pub fn next_is(&self, token: TokenSet) -> bool
        ensures { result ≡ starts_with (terminals_of token) self.now }
    {
        token.is(self.symbol)
    }

    /// The spaces and tabs right before the token of the next leaf; none where no leaf comes.
    pub fn next_indent(&self) -> &'a [u8]
        ensures { result.now ≡ first_indent self.now }
    {
        indent_at(next_of(self.is_there, self.front), self.rest, self.place)
    }

    /// Whether the next leaf is one of these tokens, at this indent.
    pub fn next_stands_at(&self, token: TokenSet, indent: &[u8]) -> bool
        ensures { result ≡ stands_at (terminals_of token) indent.now self.now }
    {
        self.next_is(token) && self.next_indent() == indent
    }

    /// Whether the next leaf is one of these tokens, and a rank is no lower than the least.
    pub fn starts_from(&self, least: u8, rank: u8, token: TokenSet) -> bool
        ensures { result ≡ (nat_le least rank && starts_with (terminals_of token) self.now) }
    {
        least <= rank && self.next_is(token)
    }

    /// The next rank, from this one on, in which the next leaf may bind as an operator: in none that is passed does it bind.
    pub fn next_rank(&self, rank: u8) -> u8
        ensures above { rank ≤ result }
        ensures passes { (j : ℕ) → rank ≤ j → j < result → binds_at j self.now ≡ false }
    {
        if rank < LAMBDA && self.next_is(TokenSet::Ends) {
            LAMBDA
        } else {
            rank
        }
    }

    /// Keeps that a node begins at this byte of the text which would be nested too deep if it went on with the next leaf. The leaves
    /// stay as they are.
    pub fn mark_too_deep(&mut self, at: usize)
        ensures { self.new ≡ self.old }
    {
        self.too_deep = Some(TooDeep {
            at,
            until: self.offset(),
        });
    }

    /// Keeps that the next leaf begins a node which would be nested too deep. The leaves stay as they are.
    pub fn mark_next_too_deep(&mut self)
        ensures { self.new ≡ self.old }
    {
        if let Some(at) = self.next_at() {
            self.mark_too_deep(at);
        }
    }

    /// Keeps whether the next leaf is at this indent, at which a statement may begin. The leaves stay as they are.
    pub fn mark_indent(&mut self, indent: &[u8])
        ensures { self.new ≡ self.old }
    {
        if self.next_indent() == indent {
            self.at_indent = Some(self.offset());
        }
    }

    /// The byte at which the node begins that keeps the next leaf from being read, since it is nested too deep.
    pub fn too_deep_at(&self) -> Option<usize> {
        let offset = self.offset();
        match self.too_deep {
            Some(TooDeep { at, until }) if until == offset => Some(at),
            _ => None,
        }
    }

    /// How many bytes of the text the leaves spell that were taken.
    pub fn offset(&self) -> usize {
        self.total.saturating_sub(self.rest.len())
    }

    /// The byte of the text at which the token of the next leaf begins; None where no leaf comes.
    pub fn next_at(&self) -> Option<usize> {
        match next_of(self.is_there, self.front) {
            Some(front) => Some(self.offset().saturating_add(front.gap)),
            None => None,
        }
    }

    /// The byte of the text up to which it was read: that of the next token; past all bytes where no leaf comes.
    pub fn halted_at(&self) -> usize {
        self.next_at().unwrap_or(usize::MAX)
    }

    /// Whether the next leaf is at an indent at which a statement may begin.
    pub fn is_at_indent(&self) -> bool {
        self.at_indent == Some(self.offset())
    }

    /// The byte at which the first token begins that no BUILD file has, among those that begin in this many bytes of the text
    /// of these leaves.
    pub fn newer_within(&mut self, until: usize) -> Option<usize> {
        for _ in 0..until {
            if self.offset() >= until || self.is_empty() {
                return None;
            }
            if self.starts_newer() {
                return self.next_at();
            }
            self.skip();
        }
        None
    }

    /// Whether no BUILD file has the next leaf here: a keyword of the newer kinds, or one that begins a line for which it has
    /// no statement.
    fn starts_newer(&self) -> bool {
        match self.symbol {
            Symbol::Def | Symbol::Elif | Symbol::Lambda | Symbol::Return | Symbol::Flow => true,
            Symbol::If | Symbol::For | Symbol::Else => matches!(self.place, Place::Fresh),
            _ => false,
        }
    }

    /// Passes over the next leaf, if there is one.
    #[inline(always)]
    pub fn skip(&mut self)
        ensures { self.new ≡ drop 1 self.old }
    {
        if let Some(front) = next_of(self.is_there, self.front) {
            let place = self
                .place
                .after_token(front.class, front.token_of(self.rest));
            let rest = front.rest_of(self.rest);
            self.is_there = find(rest, place, &mut self.front);
            self.symbol = symbol_at(next_of(self.is_there, self.front), rest, place);
            self.place = place;
            self.rest = rest;
        }
    }

    /// The front of the next leaf, and the text that it is of, if there is one.
    #[inline(always)]
    fn next_front(&self) -> Option<(Front, &'a [u8])>
        ensures { MatchOption result (self.now ≡ []) (λ next. (next.0.gap + next.0.token ≤ length next.1.now) × (self.now ≡ front_leaf next.0 next.1.now ∷ drop 1 self.now)) }
    {
        match next_of(self.is_there, self.front) {
            Some(front) => Some((front, self.rest)),
            None => None,
        }
    }

    /// The next leaf, where it is one of these tokens, as its front and the text that it is of. It is still the next one: `skip`
    /// passes over it, so that where its leaf goes is done with before the one after it is found.
    #[inline(always)]
    #[tactic(auto, unfolding(crate::specs::Tokens::token_at))]
    pub fn next_leaf(&self, token: TokenSet) -> Option<(Front, &'a [u8])>
        ensures within { IfSome result (λ next. next.0.gap + next.0.token ≤ length next.1.now) }
        ensures answered { MatchOption result (token_at (terminals_of token) self.now ≡ None) (λ next. token_at (terminals_of token) self.now ≡ Some (p.Leaf (front_leaf next.0 next.1.now), drop 1 self.now)) }
    {
        if self.next_is(token) {
            self.next_front()
        } else {
            None
        }
    }
}

/// What is known of the next leaf, where there is one.
#[inline(always)]
fn next_of(is_there: bool, front: Front) -> Option<Front>
    ensures { result ≡ next_of is_there front }
{
    if is_there { Some(front) } else { None }
}

/// Whether a leaf is where a text goes on so at a place; `front` becomes its own. Field by field: a value of several that is handed
/// on as a whole is copied with the bytes between them.
#[inline(always)]
fn find(rest: &[u8], place: Place, front: &mut Front) -> bool
    ensures { AnswersFront place rest.now (next_of result front.new) }
{
    match leaf_front(rest, place) {
        Some(found) => {
            front.class = found.class;
            front.gap = found.gap;
            front.token = found.token;
            true
        }
        None => false,
    }
}

/// What the token of the next leaf is, where a text goes on so at a place.
#[inline(always)]
fn symbol_at(next: Option<Front>, rest: &[u8], place: Place) -> Symbol
    requires { AnswersFront place rest.now next }
    ensures { DecidesFirst result (to_come place rest.now) }
{
    match next {
        Some(front) => Symbol::of(front.class, front.token_of(rest)),
        None => Symbol::Nothing,
    }
}

/// The indent of the next leaf, where a text goes on so at a place.
fn indent_at(next: Option<Front>, rest: &[u8], place: Place) -> &[u8]
    requires { AnswersFront place rest.now next }
    ensures { result.now ≡ first_indent (to_come place rest.now) }
{
    match next {
        Some(front) => indent_of(rest.split_at(front.gap).0),
        None => rest.split_at(0).0,
    }
}
