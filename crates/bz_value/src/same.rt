//! Whether values are equal. None of this takes memory.
ghost use Rattle.std.specs.Prelude.{◌≡◌, ◌↔◌, IsTrue};

use crate::texts::same_texts;
use crate::value::{Expr, File, Form, Item, Seq, Token};

impl Token {
    /// Whether the other token has the same class, text, break and comments.
    pub fn equals(&self, other: &Token) -> bool
        ensures { IsTrue result ↔ (self.now ≡ other.now) }
    {
        self.class == other.class
            && self.text.equals(&other.text)
            && self.line_break == other.line_break
            && self.comments.equals(&other.comments)
    }
}

impl Expr {
    /// Whether the other expression is the same, comments and flags included.
    #[cycle(same)]
    pub fn equals(&self, other: &Expr) -> bool
        ensures { IsTrue result ↔ (self.now ≡ other.now) }
    {
        match (self, other) {
            (Expr::Token(a), Expr::Token(b)) => a.equals(b),
            (Expr::Form(a), Expr::Form(b)) => a.equals(b),
            _ => false,
        }
    }
}

impl Seq {
    /// Whether the other sequence has the same items, end comments and split.
    #[cycle(same)]
    pub fn equals(&self, other: &Seq) -> bool
        ensures { IsTrue result ↔ (self.now ≡ other.now) }
    {
        self.split == other.split
            && same_texts(self.end.as_slice(), other.end.as_slice())
            && same_exprs(self.items.as_slice(), other.items.as_slice())
    }
}

impl Form {
    /// Whether the other form has the same kind, parts, sequence, flags and comments.
    #[cycle(same)]
    pub fn equals(&self, other: &Form) -> bool
        ensures { IsTrue result ↔ (self.now ≡ other.now) }
    {
        if !self.has_head_of(other) {
            return false;
        }
        if !same_exprs(self.parts.as_slice(), other.parts.as_slice()) {
            return false;
        }
        self.seq.equals(&other.seq)
    }

    /// Whether the two are the same but for what is in them.
    fn has_head_of(&self, other: &Form) -> bool
        ensures { IsTrue result ↔ ((self.now.kind ≡ other.now.kind) × (self.now.open_break ≡ other.now.open_break) × (self.now.comments ≡ other.now.comments)) }
    {
        self.kind == other.kind
            && self.open_break == other.open_break
            && self.comments.equals(&other.comments)
    }
}

#[cycle(same)]
fn same_exprs(a: &[Expr], b: &[Expr]) -> bool
    ensures { IsTrue result ↔ (a.now ≡ b.now) }
{
    if a.len() != b.len() {
        return false;
    }
    for i in 0..a.len() {
        if !a[i].equals(&b[i]) {
            return false;
        }
    }
    true
}

impl Item {
    /// Whether the other item is the same Block or statement.
    pub fn equals(&self, other: &Item) -> bool
        ensures { IsTrue result ↔ (self.now ≡ other.now) }
    {
        match (self, other) {
            (Item::Block(a), Item::Block(b)) => same_texts(a.as_slice(), b.as_slice()),
            (Item::Stmt(a), Item::Stmt(b)) => a.equals(b),
            _ => false,
        }
    }
}

fn same_items(a: &[Item], b: &[Item]) -> bool
    ensures { IsTrue result ↔ (a.now ≡ b.now) }
{
    if a.len() != b.len() {
        return false;
    }
    for i in 0..a.len() {
        if !a[i].equals(&b[i]) {
            return false;
        }
    }
    true
}

impl File {
    /// Whether the other file value has the same items.
    pub fn equals(&self, other: &File) -> bool
        ensures { IsTrue result ↔ (self.now ≡ other.now) }
    {
        same_items(self.items.as_slice(), other.items.as_slice())
    }
}
