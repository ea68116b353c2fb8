//! The way to what is changed: from a statement to the arguments of a rule, to the value of an attribute or of an
//! assignment, to its lists.
ghost use Rattle.std.specs.Prelude.{◌≡◌, OnOk, codes, bytes_eq};
ghost use Rattle.bz_grammar.specs.declared.kind.Kind.TheVariants as k;
ghost use Rattle.bz_passes.specs.Words.{is_text, dotted_name, on_items, on_third, on_lists};
ghost use Rattle.bz_passes.specs.Passes.{of_rule, on_attribute, on_call, on_rule_arguments};
ghost use Rattle.bz_passes.specs.Changes.{arguments_changed, attribute_changed, list_changed, lists_and_arguments};

use crate::labels::shorten_labels;
use crate::lists::sort_list;
use crate::runs::sort_runs;
use bz_grammar::Kind;
use bz_items::{Items, Memory, Text};
use bz_label::bytes::{is_label_attribute, is_sorted};
use bz_rule::{first_text, is_dotted, is_named, only};
use bz_value::Expr;
use std::alloc::Global;

/// What a list is in: its labels lose a repeated name where it is a label attribute's, and it is sorted where the comments above
/// the attribute or the assignment, the table and its items say so.
#[derive(Clone, Copy)]
struct ListPlace<'a> {
    has_labels: bool,
    outside: &'a [Text],
    by_table: bool,
}

/// Changes a list; any other expression stays.
#[tactic(auto, unfolding(crate::specs::Changes::list_changed))]
fn change_list(place: ListPlace<'_>, x: &mut Expr) -> Result<(), Memory>
    ensures { OnOk result (x.new ≡ on_items k.List (list_changed place.entry.has_labels place.entry.outside.now place.entry.by_table) x.old) }
{
    if let Expr::Form(form) = x
        && form.kind == Kind::List
    {
        shorten_labels(place.has_labels, &mut form.seq.items)?;
        sort_list(place.outside, place.by_table, &mut form.seq.items)?;
    }
    Ok(())
}

/// Changes the lists of a value: itself, or the lists among the operands of a sum.
fn change_lists(place: ListPlace<'_>, x: &mut Expr) -> Result<(), Memory>
    ensures { OnOk result (x.new ≡ on_lists (list_changed place.entry.has_labels place.entry.outside.now place.entry.by_table) x.old) }
{
    if let Expr::Form(form) = x
        && form.kind == Kind::Sum
    {
        for operand in form.parts.as_mut_slice().iter_mut() {
            change_list(place, operand)?;
        }
        return Ok(());
    }
    change_list(place, x)
}

/// Changes the lists of what is after a name or a target and its sign.
fn change_third(place: ListPlace<'_>, parts: &mut Items<Expr>) -> Result<(), Memory>
    ensures { OnOk result (parts.new ≡ on_third (on_lists (list_changed place.entry.has_labels place.entry.outside.now place.entry.by_table)) parts.old) }
{
    if let [_, _, value, ..] = parts.as_mut_slice() {
        change_lists(place, value)?;
    }
    Ok(())
}

/// Changes the value of a named argument of a rule of this kind; any other argument stays.
#[tactic(auto, unfolding(crate::specs::Changes::attribute_changed))]
fn change_attribute(kind: &[u8], x: &mut Expr) -> Result<(), Memory>
    ensures { OnOk result (x.new ≡ on_attribute (attribute_changed kind.now) x.old) }
{
    if let Expr::Form(form) = x
        && form.kind == Kind::Named
    {
        let name = first_text(form.parts.as_slice());
        let place = ListPlace {
            has_labels: is_label_attribute(name),
            outside: form.comments.before(),
            by_table: is_sorted(kind, name),
        };
        change_third(place, &mut form.parts)?;
    }
    Ok(())
}

/// What represents the kind of a rule: of all kinds the tables of attributes know genrule alone.
fn kind_of(function: &Expr) -> &'static [u8]
    ensures { bytes_eq result.now (codes "genrule") ≡ is_text (codes "genrule") (dotted_name function.now) }
{
    if is_dotted(b"genrule", function) {
        b"genrule"
    } else {
        b""
    }
}

/// Changes the values of the arguments of a call of a name, or of names joined by dots, and then sorts them; the arguments of any
/// other call stay.
fn change_called(alloc: Global, function: &Expr, arguments: &mut [Expr]) -> Result<(), Memory>
    ensures { OnOk result (arguments.new ≡ of_rule arguments_changed (dotted_name function.now) arguments.old) }
{
    if !is_named(function) {
        return Ok(());
    }
    let kind = kind_of(function);
    for x in arguments.iter_mut() {
        change_attribute(kind, x)?;
    }
    sort_runs(alloc, arguments)?;
    Ok(())
}

/// Changes the arguments of such a call; any other expression stays.
fn change_call(x: &mut Expr) -> Result<(), Memory>
    ensures { OnOk result (x.new ≡ on_call arguments_changed x.old) }
{
    if let Expr::Form(form) = x
        && form.kind == Kind::Call
        && let Some(function) = only(form.parts.as_slice())
    {
        let alloc = form.seq.items.alloc();
        change_called(alloc, function, form.seq.items.as_mut_slice())?;
    }
    Ok(())
}

/// Changes the arguments of a rule; any other statement stays.
fn change_rule(x: &mut Expr) -> Result<(), Memory>
    ensures { OnOk result (x.new ≡ on_rule_arguments arguments_changed x.old) }
{
    match x {
        Expr::Form(form) if form.kind == Kind::Bare => match form.parts.as_mut_slice() {
            [call, ..] => change_call(call),
            [] => Ok(()),
        },
        _ => Ok(()),
    }
}

/// Shortens the labels of a rule, sorts its lists or those of an assignment that are to be sorted, and sorts its arguments, all in
/// one walk. The error: memory was refused; part of the statement is then lost.
#[tactic(auto, unfolding(crate::specs::Changes::list_changed))]
pub(crate) fn change_lists_and_arguments(x: &mut Expr) -> Result<(), Memory>
    ensures { OnOk result (x.new ≡ lists_and_arguments x.old) }
{
    if let Expr::Form(form) = x
        && form.kind == Kind::Assign
    {
        let place = ListPlace {
            has_labels: false,
            outside: form.comments.before(),
            by_table: false,
        };
        return change_third(place, &mut form.parts);
    }
    change_rule(x)
}
