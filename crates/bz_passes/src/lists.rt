//! The items of one list: whether they are sorted, and sorting them.
ghost use Rattle.std.specs.Prelude.{◌≡◌, ◌++◌, not, IfOk, IsTrue, OnOk, if◌then◌else◌};
ghost use Rattle.std.specs.List.{list_all, list_any};
ghost use Rattle.bz_passes.specs.Words.{key_order, is_empty, between as between_marks, above, has_class, on_first, text_of as text_in, with_above};
ghost use Rattle.bz_token.specs.declared.class.Class.TheVariants as classes;
ghost use Rattle.bz_passes.specs.Lists.{above_first, in_order, is_taken as is_taken_in, marked_by, precedes, settled_list, sorted, without_marks, any_marked as marked_in_any, keep_marks, other_comments};
ghost use Rattle.bz_passes.specs.private.Repeats.{Climbs, is_passed};

use crate::marks::{any_marked, is_marked};
use crate::repeats::drop_repeats;
use bz_items::{Items, Memory, Text};
use bz_label::bytes::key_cmp;
use bz_rule::{between, text_of};
use bz_token::Class;
use bz_value::{Comments, Expr};
use std::alloc::Global;
use std::cmp::Ordering;
use std::mem;

/// The mark of a list that is sorted.
const KEEP_SORTED: &[u8] = b"keep sorted";

/// The mark of a list that stays as it is.
const DO_NOT_SORT: &[u8] = b"do not sort";

/// Which of two items of a list comes first: by the texts between their quote marks.
fn item_order(x: &Expr, y: &Expr) -> Ordering
    ensures { result ≡ key_order (between_marks (text_in x.now)) (between_marks (text_in y.now)) }
{
    key_cmp(between(text_of(x)), between(text_of(y)))
}

fn is_string(x: &Expr) -> bool
    ensures { result ≡ has_class classes.String x.now }
{
    matches!(x, Expr::Token(token) if token.class.number() == Class::String.number())
}

fn comments_above(items: &[Expr]) -> &[Text]
    ensures { result.now ≡ above_first items.now }
{
    match items {
        [] => &[],
        [first, ..] => first.comments().before(),
    }
}

/// Whether the mark is above the list or above its first item.
fn has_mark(mark: &[u8], outside: &[Text], items: &[Expr]) -> bool
    ensures { result ≡ marked_in_any mark.now (outside.now ++ above_first items.now) }
{
    any_marked(mark, outside) || any_marked(mark, comments_above(items))
}

fn are_strings(items: &[Expr]) -> bool
    ensures { result ≡ list_all (has_class classes.String) items.now }
{
    items.iter().all(|x| is_string(x))
}

fn is_any_commented(items: &[Expr]) -> bool
    ensures { result ≡ list_any (λ x. not (is_empty (above x))) items.now }
{
    items.iter().any(|x| !x.comments().before().is_empty())
}

/// Whether the list is sorted.
fn is_taken(outside: &[Text], by_table: bool, items: &[Expr]) -> bool
    ensures { result ≡ is_taken_in outside.now by_table items.now }
{
    !has_mark(DO_NOT_SORT, outside, items)
        && are_strings(items)
        && (has_mark(KEEP_SORTED, outside, items) || (by_table && !is_any_commented(items)))
}

/// Copies of those comments that have the mark of a list that is kept sorted, or of those that don't.
#[tactic(auto, using(crate::proofs::Listed::marks_split))]
fn split_marks(alloc: Global, comments: &[Text], marked: bool) -> Result<Items<Text>, Memory>
    ensures { IfOk result (λ copies. copies ≡ (if marked then keep_marks comments.now else other_comments comments.now)) }
{
    let mut copies = Items::new(alloc);
    for comment in comments {
        if marked == is_marked(KEEP_SORTED, comment.as_slice()) {
            copies.push(comment.copy()?)?;
        }
    }
    Ok(copies)
}

/// The item with these comments above it in place of its own.
fn set_above(before: Items<Text>, x: &mut Expr) -> Result<(), Memory>
    ensures { OnOk result (x.new ≡ with_above before x.old) }
{
    let suffix = x.comments().suffix().map(Text::copy).transpose()?;
    let comments = Comments::new(before.alloc(), before, suffix)?;
    match x {
        Expr::Token(token) => token.comments = comments,
        Expr::Form(form) => form.comments = comments,
    }
    Ok(())
}

/// Takes the marks off the first item.
fn take_marks(alloc: Global, items: &mut [Expr]) -> Result<Items<Text>, Memory>
    ensures { IfOk result (λ marks. (marks ≡ keep_marks (above_first items.old)) × (items.new ≡ on_first without_marks items.old)) }
{
    match items {
        [] => Ok(Items::new(alloc)),
        [first, ..] => {
            let marks = split_marks(alloc, first.comments().before(), true)?;
            let others = split_marks(alloc, first.comments().before(), false)?;
            set_above(others, first)?;
            Ok(marks)
        }
    }
}

/// Puts the marks above the comments above the first item.
fn put_marks(mut marks: Items<Text>, items: &mut [Expr]) -> Result<(), Memory>
    ensures { OnOk result (items.new ≡ marked_by marks items.old) }
{
    if let [first, ..] = items {
        for comment in first.comments().before() {
            marks.push(comment.copy()?)?;
        }
        set_above(marks, first)?;
    }
    Ok(())
}

/// Whether each item comes before the next one: sorted, such a list stays as it is. The last one is looked at first, as it may have been added.
fn are_rising(items: &[Expr]) -> bool
    ensures { IsTrue result → Climbs precedes items.now }
{
    if let [.., x, y] = items
        && !item_order(x, y).is_lt()
    {
        return false;
    }
    items.is_sorted_by(|x, y| item_order(x, y).is_lt())
}

/// Whether another item of the list comes before its first one, so that comments above that one may move.
fn is_first_passed(items: &[Expr]) -> bool
    ensures { result ≡ is_passed items.now }
{
    match items {
        [] => false,
        [first, others @ ..] => is_any_before(first, others),
    }
}

fn is_any_before(x: &Expr, others: &[Expr]) -> bool
    ensures { result ≡ list_any (λ other. precedes other x.now) others.now }
{
    others.iter().any(|other| item_order(other, x).is_lt())
}

/// The items in their order, without repeats. One that was added to a list in order is put in its place, and the others stay.
fn put_in_order(mut items: Vec<Expr>) -> Result<Vec<Expr>, Memory>
    ensures { IfOk result (λ ordered. ordered.items ≡ in_order items.items) }
{
    let Some(last) = items.pop() else {
        return Ok(items);
    };
    let at = items.partition_point(|x| item_order(x, &last).is_lt());
    items.insert(at, last)?;
    if are_rising(items.as_slice()) {
        return Ok(items);
    }
    let last = items.remove(at);
    items.push(last)?;
    items.sort_by(|x, y| item_order(x, y))?;
    drop_repeats(items)
}

/// The items of a list that is sorted.
#[tactic(auto, using(crate::proofs::Listed::bare_in_order, crate::proofs::Listed::unpassed_in_order))]
fn sort_taken(mut items: Vec<Expr>) -> Result<Vec<Expr>, Memory>
    ensures { IfOk result (λ taken. taken.items ≡ sorted items.items) }
{
    if comments_above(items.as_slice()).is_empty() || !is_first_passed(items.as_slice()) {
        return put_in_order(items);
    }
    let marks = take_marks(*items.allocator(), items.as_mut_slice())?;
    let mut ordered = put_in_order(items)?;
    put_marks(marks, ordered.as_mut_slice())?;
    Ok(ordered)
}

/// Sorts the items of a list, where it is taken; else it stays as it is. `outside`: the comments above the attribute or the
/// assignment; `by_table`: whether the table has the attribute. Most lists are neither in the table nor marked, which is seen first.
/// The error: a growth was refused; the items are then lost.
#[tactic(auto, using(crate::proofs::Listed::unmarked_stays, crate::proofs::Listed::rising_settled))]
pub(crate) fn sort_list(
    outside: &[Text],
    by_table: bool,
    items: &mut Items<Expr>,
) -> Result<(), Memory>
    ensures { OnOk result (items.new ≡ settled_list outside.now by_table items.old) }
{
    if !by_table && !has_mark(KEEP_SORTED, outside, items.as_slice()) {
        return Ok(());
    }
    if !are_rising(items.as_slice()) && is_taken(outside, by_table, items.as_slice()) {
        let alloc = items.alloc();
        let all = mem::replace(items, Items::new(alloc)).into_vec();
        *items = Items::from_vec(sort_taken(all)?);
    }
    Ok(())
}
