//! Equal values.
ghost use Rattle.std.specs.Prelude.{◌≡◌, IfOk};

use crate::texts::copy_texts;
use crate::value::{Expr, File, Form, Item, Seq, Token};
use bz_items::{Items, Memory};
use std::alloc::Global;

impl Token {
    /// An equal token. The error: memory was refused.
    pub fn copy(&self) -> Result<Token, Memory>
        ensures { IfOk result (λ token. token ≡ self.now) }
    {
        Ok(Token {
            class: self.class,
            text: self.text.copy()?,
            line_break: self.line_break,
            comments: self.comments.copy()?,
        })
    }
}

impl Expr {
    /// An equal expression. The error: memory was refused.
    #[cycle(copy)]
    pub fn copy(&self) -> Result<Expr, Memory>
        ensures { IfOk result (λ expr. expr ≡ self.now) }
    {
        match self {
            Expr::Token(token) => Ok(Expr::Token(token.copy()?)),
            Expr::Form(form) => Ok(Expr::Form(form.copy()?)),
        }
    }
}

impl Seq {
    /// An equal sequence. The error: memory was refused.
    #[cycle(copy)]
    pub fn copy(&self) -> Result<Seq, Memory>
        ensures { IfOk result (λ seq. seq ≡ self.now) }
    {
        Ok(Seq {
            items: copy_exprs(self.items.alloc(), self.items.as_slice())?,
            end: self.end.copy()?,
            split: self.split,
        })
    }
}

impl Form {
    /// An equal form. The error: memory was refused.
    #[cycle(copy)]
    pub fn copy(&self) -> Result<Form, Memory>
        ensures { IfOk result (λ form. form ≡ self.now) }
    {
        Ok(Form {
            kind: self.kind,
            parts: copy_exprs(self.parts.alloc(), self.parts.as_slice())?,
            seq: self.seq.copy()?,
            open_break: self.open_break,
            comments: self.comments.copy()?,
        })
    }
}

#[cycle(copy)]
fn copy_exprs(alloc: Global, exprs: &[Expr]) -> Result<Items<Expr>, Memory>
    ensures { IfOk result (λ copied. copied ≡ exprs.now) }
{
    let mut copied = Vec::with_capacity(alloc, exprs.len())?;
    for expr in exprs {
        // there is room: a push that may be refused has an expression to drop
        copied.reserve(1)?;
        copied.push_reserved(expr.copy()?);
    }
    Ok(Items::from_vec(copied))
}

impl Item {
    /// An equal item. The error: memory was refused.
    pub fn copy(&self) -> Result<Item, Memory>
        ensures { IfOk result (λ item. item ≡ self.now) }
    {
        match self {
            Item::Block(lines) => Ok(Item::Block(copy_texts(lines.alloc(), lines.as_slice())?)),
            Item::Stmt(expr) => Ok(Item::Stmt(expr.copy()?)),
        }
    }
}

fn copy_items(alloc: Global, items: &[Item]) -> Result<Items<Item>, Memory>
    ensures { IfOk result (λ copied. copied ≡ items.now) }
{
    let mut copied = Vec::with_capacity(alloc, items.len())?;
    for item in items {
        // there is room: a push that may be refused has an item to drop
        copied.reserve(1)?;
        copied.push_reserved(item.copy()?);
    }
    Ok(Items::from_vec(copied))
}

impl File {
    /// An equal file value. The error: memory was refused.
    pub fn copy(&self) -> Result<File, Memory>
        ensures { IfOk result (λ file. file ≡ self.now) }
    {
        Ok(File {
            items: copy_items(self.items.alloc(), self.items.as_slice())?,
        })
    }
}
