//! The comments of one expression, changed.
ghost use Rattle.std.specs.Prelude.{◌≡◌, IfOk, OnOk, IsErr};
ghost use Rattle.bz_comment.specs.Changes.{changed_by, comments_made};
ghost use Rattle.bz_comment.specs.Hosts.{comment_made};

use bz_items::{Items, Memory, Text};
use bz_value::{Comments, Expr, trim_end};
use std::alloc::Global;
use std::mem;

/// What is done to comments.
#[derive(Clone, Copy)]
pub enum Change<'a> {
    /// `#`, a space and this text, without blanks at its end, becomes the last comment above.
    Add(&'a [u8]),
    /// All comments go: those above, and the one on the last line.
    Remove,
}

/// The comment that a text becomes. The error: memory was refused.
fn comment_made(alloc: Global, text: &[u8]) -> Result<Text, Memory>
    ensures { IfOk result (λ comment. comment ≡ comment_made text.now) }
{
    let mut line = Vec::new(alloc);
    line.extend_from_slice(b"# ")?;
    line.extend_from_slice(text)?;
    Text::from_slice(alloc, trim_end(line.as_slice()))
}

/// The comments that a change makes of these. The error: memory was refused.
fn comments_made(alloc: Global, change: Change<'_>, comments: &Comments) -> Result<Comments, Memory>
    ensures { IfOk result (λ made. made ≡ comments_made change.entry comments.now) }
{
    let Change::Add(text) = change else {
        return Ok(Comments::empty());
    };
    let mut before = Vec::new(alloc);
    for comment in comments.before() {
        before.reserve(1)?;
        before.push_reserved(comment.copy()?);
    }
    before.reserve(1)?;
    before.push_reserved(comment_made(alloc, text)?);
    let suffix = comments.suffix().map(Text::copy).transpose()?;
    Comments::new(alloc, Items::from_vec(before), suffix)
}

/// Changes the comments of an expression: of a rule's statement, of a named argument or of an item. The error: memory was
/// refused, and the expression is as before.
#[tactic(auto, using(crate::proofs::HostForms::by_comments))]
pub fn change_own(alloc: Global, change: Change<'_>, x: &mut Expr) -> Result<(), Memory>
    ensures ok { OnOk result (x.new ≡ changed_by change.entry x.old) }
    ensures err { IsErr result → x.new ≡ x.old }
{
    let comments = comments_made(alloc, change, x.comments())?;
    match x {
        Expr::Token(token) => drop(mem::replace(&mut token.comments, comments)),
        Expr::Form(form) => drop(mem::replace(&mut form.comments, comments)),
    }
    Ok(())
}
