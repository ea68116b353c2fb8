//! Readings of values: whether they are lists, and the bodies of plain strings.
ghost use Rattle.std.specs.Prelude.{◌≡◌, codes};
ghost use Rattle.std.specs.List.{list_any, position};
ghost use Rattle.std.specs.Option.{option_and_then, option_copied};
ghost use Rattle.bz_token.specs.declared.class.Class.TheVariants as classes;
ghost use Rattle.bz_grammar.specs.declared.kind.Kind.TheVariants as kinds;
ghost use Rattle.bz_rule.specs.Values.{has_kind as is_of, has_class as is_in, parts_of as parts, items_of as items};
ghost use Rattle.bz_attribute.specs.Lists.{has_lists as has_any, is_no_list as is_none, is_empty_list as is_empty, is_select as is_selecting, body_of as plain, is_item as item, entries_in as dict_entries, entries_of as entries, is_first_dict, operands_of as operands, operands_after, operands_in as entry_operands, with_branches};
ghost use Rattle.bz_rule.specs.Rules.{is_text as is_this, only as only_of, text_in as text_there};

use bz_command_syntax::Selects;
use bz_grammar::{Class, Kind};
use bz_label::bytes::{is_label_attribute, same};
use bz_rule::{body, is_text, text_in};
use bz_value::Expr;
use std::slice;

/// Whether the expression is a node of this kind.
pub fn has_kind(kind: Kind, x: &Expr) -> bool
    ensures { result ≡ is_of kind x.now }
{
    matches!(x, Expr::Form(form) if form.kind.number() == kind.number())
}

/// Where the first expression of this kind is.
pub fn first_of_kind(kind: Kind, exprs: &[Expr]) -> Option<usize>
    ensures { result ≡ position (is_of kind) exprs.now }
{
    exprs.iter().position(|x| has_kind(kind, x))
}

/// Whether the expression is a token of this class.
fn has_class(class: Class, x: &Expr) -> bool
    ensures { result ≡ is_in class x.now }
{
    matches!(x, Expr::Token(token) if token.class == class)
}

/// The row of a node.
pub fn parts_of(x: &Expr) -> &[Expr]
    ensures { result.now ≡ parts x.now }
{
    match x {
        Expr::Token(_) => &[],
        Expr::Form(form) => form.parts.as_slice(),
    }
}

/// The items of a sequence.
pub fn items_of(x: &Expr) -> &[Expr]
    ensures { result.now ≡ items x.now }
{
    match x {
        Expr::Token(_) => &[],
        Expr::Form(form) => form.seq.items.as_slice(),
    }
}

/// The operands of a sum, or the value alone. Among them are the lists of a value where no `select` is entered.
pub fn operands_of(value: &Expr) -> &[Expr]
    ensures { result.now ≡ operands value.now }
{
    if has_kind(Kind::Sum, value) {
        return parts_of(value);
    }
    slice::from_ref(value)
}

/// Whether what is called is the name `select`.
fn is_named_select(function: &[Expr]) -> bool
    ensures { result ≡ is_this (codes "select") (option_and_then (text_there classes.Name) (only_of function.now)) }
{
    match function {
        [name] => is_text(b"select", text_in(Class::Name, name)),
        _ => false,
    }
}

/// Whether the first of the items is a dict.
fn is_first_dict(items: &[Expr]) -> bool
    ensures { result ≡ is_first_dict items.now }
{
    match items {
        [dict, ..] => has_kind(Kind::Dict, dict),
        [] => false,
    }
}

/// Whether the expression is a call of the name `select` whose first item is a dict.
pub fn is_select(x: &Expr) -> bool
    ensures { result ≡ is_selecting x.now }
{
    has_kind(Kind::Call, x) && is_named_select(parts_of(x)) && is_first_dict(items_of(x))
}

/// The entries of the first of the items.
fn entries_in(items: &[Expr]) -> &[Expr]
    ensures { result.now ≡ dict_entries items.now }
{
    match items {
        [dict, ..] => items_of(dict),
        [] => &[],
    }
}

/// The entries of the dict of a `select`; any other expression has none.
pub fn entries_of(x: &Expr) -> &[Expr]
    ensures { result.now ≡ entries x.now }
{
    if !is_select(x) {
        return &[];
    }
    entries_in(items_of(x))
}

/// The operands of what is after a key and a colon.
fn operands_after(row: &[Expr]) -> &[Expr]
    ensures { result.now ≡ operands_after row.now }
{
    match row {
        [_, _, value, ..] => operands_of(value),
        _ => &[],
    }
}

/// The operands of the value of an entry of a dict; any other expression has none.
pub fn operands_in(entry: &Expr) -> &[Expr]
    ensures { result.now ≡ entry_operands entry.now }
{
    if !has_kind(Kind::Entry, entry) {
        return &[];
    }
    operands_after(parts_of(entry))
}

/// Whether one of the expressions is a list.
fn is_any_list(exprs: &[Expr]) -> bool
    ensures { result ≡ list_any (is_of kinds.List) exprs.now }
{
    exprs.iter().any(|x| has_kind(Kind::List, x))
}

/// Whether the value of an entry is a list, or a sum with one.
fn is_list_in(entry: &Expr) -> bool
    ensures { result ≡ list_any (is_of kinds.List) (entry_operands entry.now) }
{
    is_any_list(operands_in(entry))
}

/// Whether one of the branches of a `select` is a list, or a sum with one.
fn is_list_branch(x: &Expr) -> bool
    ensures { result ≡ list_any (λ entry. list_any (is_of kinds.List) (entry_operands entry)) (entries x.now) }
{
    entries_of(x).iter().any(|entry| is_list_in(entry))
}

/// Whether an operand is a list, or one of its branches is.
#[tactic(auto, using(crate::proofs::ListsThere::any_branch))]
fn is_list_within(x: &Expr) -> bool
    ensures { result ≡ list_any (is_of kinds.List) (with_branches x.now) }
{
    has_kind(Kind::List, x) || is_list_branch(x)
}

/// The same of one of the operands.
fn is_any_within(operands: &[Expr]) -> bool
    ensures { result ≡ list_any (λ x. list_any (is_of kinds.List) (with_branches x)) operands.now }
{
    operands.iter().any(|x| is_list_within(x))
}

/// Whether the value is a list or a sum with one, or, where `select` is entered, one of its branches is.
#[tactic(auto, using(crate::proofs::ListsThere::lists_in, crate::proofs::ListsThere::lists_entered))]
pub fn has_lists(selects: Selects, value: &Expr) -> bool
    ensures { result ≡ has_any selects value.now }
{
    match selects {
        Selects::Skipped => is_any_list(operands_of(value)),
        Selects::Entered => is_any_within(operands_of(value)),
    }
}

/// Whether the value can't be taken as a list.
pub fn is_no_list(value: &Expr) -> bool
    ensures { result ≡ is_none value.now }
{
    has_class(Class::String, value)
        || has_class(Class::Number, value)
        || has_kind(Kind::Dict, value)
}

/// Whether the value is a list without items.
pub fn is_empty_list(value: &Expr) -> bool
    ensures { result ≡ is_empty value.now }
{
    has_kind(Kind::List, value) && items_of(value).is_empty()
}

/// The body of a plain string.
pub fn body_of(x: &Expr) -> Option<&[u8]>
    ensures { option_copied result ≡ plain x.now }
{
    body(text_in(Class::String, x)?)
}

/// Whether the value is an item: a plain string that means the same.
pub fn is_item(current: &[u8], attribute: &[u8], word: &[u8], x: &Expr) -> bool
    ensures { result ≡ item current.now attribute.now word.now x.now }
{
    match body_of(x) {
        Some(other) if is_label_attribute(attribute) => same(current, word, other),
        Some(other) => word == other,
        None => false,
    }
}
