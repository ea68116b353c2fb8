//! The types of file values.
ghost use Rattle.std.specs.Prelude.{◌≡◌, IfSome};

use crate::comments::Comments;
use crate::end_comments::EndComments;
use bz_grammar::{Class, Kind};
use bz_items::{Items, Text};
use std::marker::Model;

/// A token. `line_break`: of a binary operator, that the operand after it begins on a new line.
pub struct Token {
    pub class: Class,
    pub text: Text,
    pub line_break: bool,
    pub comments: Comments,
}

impl Drop for Token {
    fn drop(self) {
        let Token {
            class: _,
            text: _,
            line_break: _,
            comments: _,
        } = self;
    }
}

/// A statement, an item of a sequence, or a part of one.
#[cycle(expr)]
pub enum Expr {
    Token(Token),
    Form(Form),
}

impl Drop for Expr {
    #[cycle(drops)]
    fn drop(self) {
        match self {
            Expr::Token(_) => {}
            Expr::Form(_) => {}
        }
    }
}

impl Expr {
    ghost use Rattle.bz_value.specs.Commented.{with_comments};
    ghost use Rattle.bz_value.specs.Proper.{comments_of};
    ghost use Rattle.bz_value.specs.declared.value.Expr as e;

    /// The comments of the expression: none, unless it is a statement or an item of a sequence.
    pub fn comments(&self) -> &Comments
        ensures { result.now ≡ comments_of self.now }
    {
        match self {
            Expr::Token(token) => &token.comments,
            Expr::Form(form) => &form.comments,
        }
    }

    /// The same expression with these comments in place of its own.
    pub fn with_comments(self, comments: Comments) -> Expr
        ensures { result ≡ with_comments self comments }
    {
        match self {
            Expr::Token(mut token) => {
                token.comments = comments;
                Expr::Token(token)
            }
            Expr::Form(mut form) => {
                form.comments = comments;
                Expr::Form(form)
            }
        }
    }

    /// The form that the expression is, where it is one.
    #[inline(always)]
    pub fn into_form(self) -> Option<Form>
        ensures { IfSome result (λ form. self ≡ e.Form form) }
    {
        match self {
            Expr::Token(_token) => None,
            Expr::Form(form) => Some(form),
        }
    }
}

/// What is between the brackets of a call, list, dict, tuple, load or the parameters of a function, without brackets and commas: the items, the
/// comments below the last one, and whether a newline was before an item, a comma or the closing bracket.
#[cycle(expr)]
#[derive(Drop)]
pub struct Seq {
    pub items: Items<Expr>,
    pub end: EndComments,
    pub split: bool,
}

/// A node without gaps. With a sequence: `parts` is what is before its opening bracket (the function of a call, the
/// word of a load, the word and the name of a function's header). Without one: `parts` is the whole row of the node, marks
/// too, and `seq` is empty. A suite holds its header, a form of its own without the colon, as its first part; the other parts
/// are the alternatives of an `if`, suites in their turn; `seq` has its statements and its end comments, and `comments` are
/// those of the header. `open_break`: of a comprehension, that a newline was right after its bracket.
#[cycle(expr)]
pub struct Form {
    pub kind: Kind,
    pub parts: Items<Expr>,
    pub seq: Seq,
    pub open_break: bool,
    pub comments: Comments,
}

impl Drop for Form {
    #[cycle(drops)]
    fn drop(self) {
        let Form {
            kind: _,
            parts: _,
            seq: _,
            open_break: _,
            comments: _,
        } = self;
    }
}

impl Form {
    /// The parts of the form, and the items of its sequence.
    pub fn into_rows(self) -> (Items<Expr>, Items<Expr>)
        ensures parts { result.0 ≡ self.parts }
        ensures items { result.1 ≡ self.seq.items }
    {
        let Form {
            kind: _,
            parts,
            seq,
            open_break: _,
            comments: _,
        } = self;
        (parts, seq.items)
    }
}

/// An item of a file: comment lines on their own, or a statement.
#[derive(Drop)]
pub enum Item {
    Block(Items<Text>),
    Stmt(Expr),
}

/// What a file says: its items, which are proper.
#[derive(Drop)]
pub struct File {
    pub items: Items<Item>,
}

impl Model for File {
    ghost use Rattle.std.specs.Prelude.{List};
    ghost use Rattle.std.specs.Coded.{codes};
    ghost use Rattle.bz_value.specs.contracts.value.Expr as e;
    ghost use Rattle.bz_value.specs.declared.value.Item.{Item};
    ghost use Rattle.bz_value.specs.Proper.{IsProper};

    ghost Value = { List Item };

    ghost coded = { Prim.hlevel (codes, e.the_row.coded) };

    ghost view = { λ file. file.items };

    ghost invariant = { λ file. IsProper file.items };
}
