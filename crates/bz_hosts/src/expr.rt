//! The expression of a part, and the comments inside it that are in no host or sequence of its own.
ghost use Rattle.std.specs.Prelude.{◌≡◌, [], ◌∷◌, ◌++◌, ◌≤◌, map, take, drop, suc, false, IfOk, OnOk};
ghost use Rattle.bz_hosts.specs.Words.{no_comments, frame};
ghost use Rattle.bz_hosts.specs.Seen.{form_of_frame, loose_in, loose_of, plain, row_exprs, seen, seq_in};

use crate::before::{breaks_from, is_followed, is_operator_in};
use crate::commented::comment_last;
use crate::marks::{breaks_after, breaks_operator, opens, push_gap};
use bz_grammar::{Class, Kind, Node, Part};
use bz_items::{Items, Memory, Text};
use bz_value::{Comments, EndComments, Expr, Form, Seq, Token, is_binary, is_sequence, lead_of};
use std::alloc::Global;

/// The expression of a token without comments.
#[inline(always)]
pub(crate) fn token_of(class: Class, text: Text, line_break: bool) -> Expr
    ensures { result ≡ Expr.Token (record { class = class; text = text; line_break = line_break; comments = no_comments }) }
{
    Expr::Token(Token {
        class,
        text,
        line_break,
        comments: Comments::empty(),
    })
}

/// The expression of a node without comments.
#[inline(always)]
pub(crate) fn form_of(kind: Kind, parts: Items<Expr>, seq: Seq, open_break: bool) -> Expr
    ensures { result ≡ Expr.Form (record { kind = kind; parts = parts; seq = seq; open_break = open_break; comments = no_comments }) }
{
    Expr::Form(Form {
        kind,
        parts,
        seq,
        open_break,
        comments: Comments::empty(),
    })
}

/// Appends the expression of a part, without comments of its own; of a token with this break. What is loose in the part is appended to
/// `loose`. The error: memory was refused.
#[cycle(seen)]
#[inline(always)]
pub(crate) fn push_expr(
    part: &Part,
    line_break: bool,
    loose: &mut Items<Text>,
    exprs: &mut Vec<Expr>,
) -> Result<(), Memory>
    ensures exprs { OnOk result (exprs.new.items ≡ exprs.old.items ++ (seen part.now).make no_comments line_break ∷ []) }
    ensures loose { OnOk result (loose.new ≡ loose.old ++ (seen part.now).loose) }
{
    match part {
        Part::Leaf(leaf) => {
            exprs.reserve(1)?;
            let text = leaf.token.copy()?;
            exprs.push_reserved(token_of(leaf.class, text, line_break));
            Ok(())
        }
        Part::Node(node) => {
            push_form(node, loose, exprs)?;
            Ok(())
        }
    }
}

/// The same of a node.
#[cycle(seen)]
pub(crate) fn push_form(
    node: &Node,
    loose: &mut Items<Text>,
    exprs: &mut Vec<Expr>,
) -> Result<(), Memory>
    ensures exprs { OnOk result (exprs.new.items ≡ exprs.old.items ++ Expr.Form (form_of_frame (frame node.now.kind) node.now.kind (map seen node.now.parts) no_comments) ∷ []) }
    ensures loose { OnOk result (loose.new ≡ loose.old ++ loose_of (frame node.now.kind) node.now.kind (map seen node.now.parts)) }
{
    push_parts(node.kind, node.parts.as_slice(), loose, exprs)?;
    Ok(())
}

/// The same of a node of this kind with these parts.
#[cycle(seen)]
#[inline(always)]
pub(crate) fn push_parts(
    kind: Kind,
    parts: &[Part],
    loose: &mut Items<Text>,
    exprs: &mut Vec<Expr>,
) -> Result<(), Memory>
    ensures exprs { OnOk result (exprs.new.items ≡ exprs.old.items ++ Expr.Form (form_of_frame (frame kind) kind (map seen parts.now) no_comments) ∷ []) }
    ensures loose { OnOk result (loose.new ≡ loose.old ++ loose_of (frame kind) kind (map seen parts.now)) }
{
    exprs.reserve(1)?;
    if is_sequence(kind) {
        let lead = lead_of(kind);
        let head = head_of(parts, lead, loose)?;
        let seq = seq_of(loose.alloc(), parts, lead + 1)?;
        exprs.push_reserved(form_of(kind, head, seq, false));
        return Ok(());
    }
    let row = row_of(parts, is_binary(kind), loose)?;
    let seq = Seq {
        items: Items::new(loose.alloc()),
        end: EndComments::empty(),
        split: false,
    };
    exprs.push_reserved(form_of(kind, row, seq, opens(kind, parts)));
    Ok(())
}

/// All parts of a row, with the breaks of its operators where it has some.
#[cycle(seen)]
pub(crate) fn row_of(
    parts: &[Part],
    binary: bool,
    loose: &mut Items<Text>,
) -> Result<Items<Expr>, Memory>
    ensures exprs { IfOk result (λ exprs. exprs ≡ row_exprs binary false false (map seen parts.now)) }
    ensures loose { OnOk result (loose.new ≡ loose.old ++ loose_in (map seen parts.now)) }
{
    let mut exprs = Vec::with_capacity(loose.alloc(), parts.len())?;
    // the part before is a token of an operator, and a newline is before that operator
    let mut operator = false;
    let mut newline = false;
    for (at, part) in parts.iter().enumerate() {
        let inside = operator;
        operator = is_operator_in(binary, part);
        newline = breaks_operator(operator, parts, at, inside, newline);
        let line_break = breaks_after(operator, newline, parts, at + 1);
        push_expr(part, line_break, loose, &mut exprs)?;
        // what is before the first part is outside
        push_gap(parts, at + 1, loose)?;
    }
    Ok(Items::from_vec(exprs))
}

/// The parts before the opening bracket of a sequence. What is loose in them and in the bracket is appended to `loose`.
#[cycle(seen)]
pub(crate) fn head_of(
    parts: &[Part],
    lead: usize,
    loose: &mut Items<Text>,
) -> Result<Items<Expr>, Memory>
    ensures exprs { IfOk result (λ exprs. exprs ≡ map plain (take lead (map seen parts.now))) }
    ensures loose { OnOk result (loose.new ≡ loose.old ++ loose_in (take (suc lead) (map seen parts.now))) }
{
    if lead >= parts.len() {
        let exprs = row_of(parts, false, loose)?;
        return Ok(exprs);
    }
    let exprs = row_of(&parts[..lead], false, loose)?;
    if lead > 0 {
        push_gap(parts, lead, loose)?;
    }
    if let Part::Node(bracket) = &parts[lead] {
        let mut made = Vec::new(loose.alloc());
        push_form(bracket, loose, &mut made)?;
    }
    Ok(exprs)
}

/// The sequence whose items are from this index on, after the opening bracket.
#[cycle(seen)]
pub(crate) fn seq_of(alloc: Global, parts: &[Part], from: usize) -> Result<Seq, Memory>
    requires { from ≤ 3 }
    ensures { IfOk result (λ seq. seq ≡ seq_in (map seen (drop from parts.now))) }
{
    let mut items = Vec::with_capacity(alloc, parts.len() / 2)?;
    // the comments above the next item; what is loose in the item goes there too
    let mut above = Items::new(alloc);
    push_gap(parts, from, &mut above)?;
    let mut at = from;
    while is_followed(parts, at) {
        push_expr(&parts[at], false, &mut above, &mut items)?;
        comment_last(parts, at + 1, &mut above, &mut items)?;
        at += 2;
    }
    Ok(Seq {
        items: Items::from_vec(items),
        end: EndComments::new(alloc, above)?,
        split: breaks_from(parts, from),
    })
}
