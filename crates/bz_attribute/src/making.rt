//! New parts of a file value: no comments, no sequence split, no break.
//!
//! Where memory is refused, an expression that is owned is dropped by a call: a `?` drops it in place, which is a path of the proof for
//! each of its parts.
ghost use Rattle.std.specs.Prelude.{◌≡◌, IfOk, OnOk, [], ◌∷◌, ◌++◌, codes, nat_eq, position, length, ◌<◌, IfSome};
ghost use Rattle.std.specs.List.{slice_split};
ghost use Rattle.std.specs.Option.{option_map_or};
ghost use Rattle.bz_grammar.specs.declared.kind.Kind.TheVariants as kinds;
ghost use Rattle.bz_attribute.specs.Words.{full_stop, on_items, parts_of, with_parts, with_text};
ghost use Rattle.bz_attribute.specs.Made.{token, node, sequence, name, mark, string_text, string_of, list_of, binds_looser, operand, plus, function_of, argument_of, rule_made};

use crate::readings::has_kind;
use bz_command_syntax::quoted;
use bz_grammar::{Class, Kind};
use bz_items::{Items, Memory, Text};
use bz_label::bytes::{is_label_attribute, shortened};
use bz_value::{Comments, EndComments, Expr, Form, Item, Seq, Token};
use std::alloc::{AllocError, Global};
use std::mem;

/// An attribute of the rules of a package, into which words are put.
#[derive(Clone, Copy)]
pub struct Slot<'a> {
    pub alloc: Global,
    /// The path of the package.
    pub current: &'a [u8],
    pub attribute: &'a [u8],
}

impl<'a> Slot<'a> {
    pub fn new(alloc: Global, current: &'a [u8], attribute: &'a [u8]) -> Slot<'a>
        ensures current { result.current.now ≡ current.entry.now }
        ensures attribute { result.attribute.now ≡ attribute.entry.now }
    {
        Slot {
            alloc,
            current,
            attribute,
        }
    }
}

/// A token of this class and text.
pub fn token(class: Class, text: Text) -> Expr
    ensures { result ≡ token class text }
{
    Expr::Token(Token {
        class,
        text,
        line_break: false,
        comments: Comments::empty(),
    })
}

/// A node with a sequence after these parts.
pub fn sequence(alloc: Global, kind: Kind, parts: Items<Expr>, items: Items<Expr>) -> Expr
    ensures { result ≡ sequence kind parts items }
{
    Expr::Form(Form {
        kind,
        parts,
        seq: Seq {
            items,
            end: EndComments::empty(),
            split: false,
        },
        open_break: false,
        comments: Comments::empty(),
    })
}

/// A node of a row of parts.
pub fn node(alloc: Global, kind: Kind, parts: Items<Expr>) -> Expr
    ensures { result ≡ node kind parts }
{
    sequence(alloc, kind, parts, Items::new(alloc))
}

/// A token of this class and of an equal text.
pub fn new_token(alloc: Global, class: Class, text: &[u8]) -> Result<Expr, Memory>
    ensures { IfOk result (λ x. x ≡ token class text.now) }
{
    Ok(token(class, Text::from_slice(alloc, text)?))
}

/// These expressions as the parts of a node.
fn row<const N: usize>(alloc: Global, parts: [Expr; N]) -> Result<Items<Expr>, Memory>
    ensures { IfOk result (λ row. row ≡ parts.entry) }
{
    Ok(Items::from_vec(Vec::from_array(alloc, parts)?))
}

/// A node of two expressions with a sign between them.
fn joined(alloc: Global, kind: Kind, left: Expr, sign: &[u8], right: Expr) -> Result<Expr, Memory>
    ensures { IfOk result (λ x. x ≡ node kind (left ∷ mark sign.now ∷ right ∷ [])) }
{
    let Ok(sign) = new_token(alloc, Class::Mark, sign) else {
        drop(left);
        drop(right);
        return Err(AllocError);
    };
    let row = row(alloc, [left, sign, right])?;
    Ok(node(alloc, kind, row))
}

/// The string that a word becomes in an attribute: that of its short form where that is a label attribute.
pub fn string_text(slot: Slot<'_>, word: &[u8]) -> Result<Text, Memory>
    ensures { IfOk result (λ text. text ≡ string_text slot.entry.current.now slot.entry.attribute.now word.now) }
{
    if is_label_attribute(slot.attribute) {
        return Ok(quoted(slot.alloc, shortened(slot.current, word))?);
    }
    Ok(quoted(slot.alloc, word)?)
}

/// The same, as an expression.
pub fn string_of(slot: Slot<'_>, word: &[u8]) -> Result<Expr, Memory>
    ensures { IfOk result (λ x. x ≡ string_of slot.entry.current.now slot.entry.attribute.now word.now) }
{
    let text = string_text(slot, word)?;
    Ok(token(Class::String, text))
}

/// A token gets another text; a form stays.
pub fn set_text(text: Text, x: &mut Expr)
    ensures { x.new ≡ with_text text x.old }
{
    match x {
        Expr::Token(token) => token.text = text,
        Expr::Form(_) => {}
    }
}

/// Puts all of `more` after the items.
fn append(more: &mut Vec<Expr>, items: &mut Items<Expr>) -> Result<(), Memory>
    ensures { OnOk result (items.new ≡ items.old ++ more.old.items) }
{
    let alloc = items.alloc();
    let mut all = mem::replace(items, Items::new(alloc)).into_vec();
    all.append(more)?;
    *items = Items::from_vec(all);
    Ok(())
}

/// Puts all of `more` after the items of a sequence of this kind; any other expression stays.
pub fn append_to(kind: Kind, more: &mut Vec<Expr>, x: &mut Expr) -> Result<(), Memory>
    ensures { OnOk result (x.new ≡ on_items kind (λ items. items ++ more.old.items) x.old) }
{
    match x {
        Expr::Form(form) if form.kind.number() == kind.number() => {
            append(more, &mut form.seq.items)
        }
        _ => Ok(()),
    }
}

/// A list of these items.
pub fn list_of(alloc: Global, items: Items<Expr>) -> Expr
    ensures { result ≡ list_of items }
{
    sequence(alloc, Kind::List, Items::new(alloc), items)
}

/// Whether the expression binds looser than a sum.
fn binds_looser(x: &Expr) -> bool
    ensures { result ≡ binds_looser x.now }
{
    let Expr::Form(form) = x else {
        return false;
    };
    match form.kind {
        Kind::Shift
        | Kind::BitAnd
        | Kind::Xor
        | Kind::BitOr
        | Kind::Compare
        | Kind::Not
        | Kind::And
        | Kind::Or
        | Kind::Cond
        | Kind::Lambda
        | Kind::Row => true,
        _ => false,
    }
}

/// The marks around an operand.
fn brackets(alloc: Global) -> Result<(Expr, Expr), Memory>
    ensures { IfOk result (λ both. (both.0 ≡ mark (codes "(")) × (both.1 ≡ mark (codes ")"))) }
{
    let open = Text::from_slice(alloc, b"(")?;
    let close = Text::from_slice(alloc, b")")?;
    Ok((token(Class::Mark, open), token(Class::Mark, close)))
}

/// The expression as an operand of a sum: between brackets where it binds looser.
fn operand(alloc: Global, x: Expr) -> Result<Expr, Memory>
    ensures { IfOk result (λ y. y ≡ operand x) }
{
    if !binds_looser(&x) {
        return Ok(x);
    }
    let Ok((open, close)) = brackets(alloc) else {
        drop(x);
        return Err(AllocError);
    };
    let row = row(alloc, [open, x, close])?;
    Ok(node(alloc, Kind::Paren, row))
}

/// A plus sign and the operand after it.
fn further(alloc: Global, operand: Expr) -> Result<Vec<Expr>, Memory>
    ensures { IfOk result (λ row. row.items ≡ mark (codes "+") ∷ operand ∷ []) }
{
    let Ok(sign) = new_token(alloc, Class::Mark, b"+") else {
        drop(operand);
        return Err(AllocError);
    };
    Ok(Vec::from_array(alloc, [sign, operand])?)
}

/// A sum takes an expression as a further operand.
fn add_operand(alloc: Global, operand: Expr, sum: &mut Expr) -> Result<(), Memory>
    ensures { OnOk result (sum.new ≡ with_parts (parts_of sum.old ++ mark (codes "+") ∷ operand ∷ []) sum.old) }
{
    let mut more = further(alloc, operand)?;
    if let Expr::Form(form) = sum {
        append(&mut more, &mut form.parts)?;
    }
    Ok(())
}

/// A sum of a value that is none and a list.
fn summed(alloc: Global, value: Expr, list: Expr) -> Result<Expr, Memory>
    ensures { IfOk result (λ x. x ≡ node kinds.Sum (operand value ∷ mark (codes "+") ∷ list ∷ [])) }
{
    let Ok(first) = operand(alloc, value) else {
        drop(list);
        return Err(AllocError);
    };
    joined(alloc, Kind::Sum, first, b"+", list)
}

/// A value and a list: a sum takes the list as a further operand.
pub fn plus(alloc: Global, mut value: Expr, list: Expr) -> Result<Expr, Memory>
    ensures { IfOk result (λ x. x ≡ plus value list) }
{
    if !has_kind(Kind::Sum, &value) {
        return summed(alloc, value, list);
    }
    let Ok(()) = add_operand(alloc, list, &mut value) else {
        drop(value);
        return Err(AllocError);
    };
    Ok(value)
}

/// Where the first dot is.
fn dot_place(text: &[u8]) -> Option<usize>
    ensures { result ≡ position (λ byte. nat_eq byte full_stop) text.now }
{
    text.iter().position(|byte| *byte == b'.')
}

/// What is before the first dot, and what is after it.
#[tactic(auto, using(crate::proofs::MakingPieces::piece_found, crate::proofs::MakingPieces::piece_alone))]
fn cut(text: &[u8]) -> (&[u8], Option<&[u8]>)
    ensures pieces { slice_split (λ byte. nat_eq byte full_stop) text.now
        ≡ result.0.now ∷ option_map_or (λ rest. slice_split (λ byte. nat_eq byte full_stop) rest.now) result.1 [] }
    ensures shorter { IfSome result.1 (λ rest. length rest.now < length text.now) }
{
    match dot_place(text) {
        Some(at) => (&text[..at], Some(&text[at + 1..])),
        None => (text, None),
    }
}

/// The function of a call, by a kind: names joined by dots.
pub fn function_of(alloc: Global, kind: &[u8]) -> Result<Expr, Memory>
    ensures { IfOk result (λ x. x ≡ function_of kind.now) }
{
    let (first, mut rest) = cut(kind);
    let mut function = new_token(alloc, Class::Name, first)?;
    while let Some(text) = rest {
        let (piece, following) = cut(text);
        let Ok(name) = new_token(alloc, Class::Name, piece) else {
            drop(function);
            return Err(AllocError);
        };
        function = joined(alloc, Kind::Dot, function, b".", name)?;
        rest = following;
    }
    Ok(function)
}

/// `attribute = value`.
pub(crate) fn argument_of(alloc: Global, attribute: &[u8], value: Expr) -> Result<Expr, Memory>
    ensures { IfOk result (λ x. x ≡ argument_of attribute.now value) }
{
    let Ok(name) = new_token(alloc, Class::Name, attribute) else {
        drop(value);
        return Err(AllocError);
    };
    joined(alloc, Kind::Named, name, b"=", value)
}

/// `kind(name = "word")`.
pub fn rule_made(alloc: Global, kind: &[u8], word: &[u8]) -> Result<Item, Memory>
    ensures { IfOk result (λ item. item ≡ rule_made kind.now word.now) }
{
    let function = row(alloc, [function_of(alloc, kind)?])?;
    let name = token(Class::String, quoted(alloc, word)?);
    let arguments = row(alloc, [argument_of(alloc, b"name", name)?])?;
    let call = row(alloc, [sequence(alloc, Kind::Call, function, arguments)])?;
    Ok(Item::Stmt(node(alloc, Kind::Bare, call)))
}
