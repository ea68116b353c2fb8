//! Repeats in a list that is in order.
ghost use Rattle.std.specs.Prelude.{◌≡◌, [], ◌∷◌, IfOk, OnOk, List};
ghost use Rattle.bz_value.specs.declared.value.Expr.{Expr as Value};
ghost use Rattle.bz_passes.specs.Lists.{has_no_comment as is_bare, precedes, without_repeats};
ghost use Rattle.bz_passes.specs.private.Repeats.{AreKept, is_text_at, repeats_at, tied_places};
ghost use Rattle.bz_passes.specs.Sorting.{Rises};

use bz_items::Memory;
use bz_rule::{between, text_of};
use bz_value::Expr;

fn has_no_comment(x: &Expr) -> bool
    ensures { result ≡ is_bare x.now }
{
    let comments = x.comments();
    comments.before().is_empty() && comments.suffix().is_none()
}

fn has_text_at(kept: &[Expr], text: &[u8], place: usize) -> bool
    ensures { result ≡ is_text_at kept.now text.now place }
{
    kept.get(place).is_some_and(|x| text == text_of(x))
}

/// Whether the token is at one of these places.
fn stands(kept: &[Expr], places: &[usize], text: &[u8]) -> bool
    ensures { result ≡ repeats_at kept.now places.now text.now }
{
    places.iter().any(|place| has_text_at(kept, text, *place))
}

/// Drops the places of the last tie where an item begins another one: its token has another text between its quote marks.
fn begin_tie(kept: &[Expr], x: &Expr, places: &mut Vec<usize>)
    ensures { places.new.items ≡ tied_places kept.now x.now places.old.items }
{
    let key = between(text_of(x));
    let is_tied = kept
        .last()
        .is_some_and(|last| between(text_of(last)) == key);
    if !is_tied {
        places.clear();
    }
}

/// Keeps the next item, unless it is a repeat without comments.
fn keep(kept: &mut Vec<Expr>, places: &mut Vec<usize>, x: Expr) -> Result<(), Memory>
    ensures { (all rest : List Value) → AreKept all kept.old.items places.old.items (x ∷ rest) → OnOk result (AreKept all kept.new.items places.new.items rest) }
{
    begin_tie(kept.as_slice(), &x, places);
    if !stands(kept.as_slice(), places.as_slice(), text_of(&x)) {
        places.push(kept.len())?;
    } else if has_no_comment(&x) {
        return Ok(());
    }
    kept.push(x)?;
    Ok(())
}

/// The items of a list in order, without each one that has no comment and whose token is at an earlier one. The error:
/// a growth was refused.
pub(crate) fn drop_repeats(items: Vec<Expr>) -> Result<Vec<Expr>, Memory>
    requires { Rises precedes items.items }
    ensures { IfOk result (λ kept. kept.items ≡ without_repeats [] items.items) }
{
    let mut kept = Vec::new(*items.allocator());
    let mut places = Vec::new(*items.allocator());
    for x in items {
        keep(&mut kept, &mut places, x)?;
    }
    Ok(kept)
}
