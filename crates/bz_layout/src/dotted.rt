//! Names joined by dots, as text: forms of which each is the first part of the next one. A text has room for 32,764 of them, so no call
//! goes into them.
ghost use Rattle.std.specs.Prelude.{◌≡◌, ◌<◌, ◌++◌, ℕ, Ok, true, false, IfSome, OnOk};
ghost use Rattle.std.specs.List.{list_all};
ghost use Rattle.bz_value.specs.declared.value.Expr.TheVariants as e;
ghost use Rattle.bz_rule.specs.private.Named.{fronts};
ghost use Rattle.bz_layout.specs.Drafts.{pushed};
ghost use Rattle.bz_layout.specs.private.Spines.{past_front, is_lone_token, row_written};
ghost use Rattle.bz_layout.specs.declared.breaks.Lines.{Lines};

use crate::draft::Draft;
use crate::row_gaps::push_row_gap;
use bz_grammar::Kind;
use bz_items::Memory;
use bz_rule::{first_text, text_of};
use bz_value::{Expr, Form};

fn are_tokens(parts: &[Expr]) -> bool
    ensures { result ≡ list_all is_lone_token parts.now }
{
    parts.iter().all(|part| matches!(part, Expr::Token(_)))
}

/// The form that a row begins with, where it is of names joined by dots and tokens alone follow.
#[tactic(auto, using(crate::proofs::JoinedNames::front_row, crate::proofs::JoinedNames::front_is_less))]
fn front_of(form: &Form) -> Option<&Form>
    ensures row { IfSome result (λ front. (lines : Lines) (margin : ℕ) → row_written lines margin form.now ≡ row_written lines margin front.now ++ past_front margin form.now) }
    ensures less { IfSome result (λ front. fronts (e.Form front.now) < fronts (e.Form form.now)) }
{
    match form.parts.as_slice() {
        [Expr::Form(front), tokens @ ..]
            if front.kind.number() == Kind::Dot.number() && are_tokens(tokens) => { Some(front) }
        _ => None,
    }
}

/// Appends what follows the first part of a row, where that is tokens, each after its gap.
#[tactic(auto, using(crate::proofs::JoinedNames::past_end))]
fn push_past_front(out: &mut Draft, form: &Form, margin: usize) -> Result<(), Memory>
    ensures { OnOk result (out.new ≡ pushed out.old (past_front margin form.now)) }
{
    let row = form.parts.as_slice();
    for at in 1..row.len() {
        push_row_gap(out, form, margin, &row[at - 1], &row[at..])?;
        out.push_bytes(text_of(&row[at]))?;
    }
    Ok(())
}

/// Appends the row of names joined by dots, and says whether it is one; else nothing is appended. The error: a growth was refused.
pub fn push_dotted(out: &mut Draft, form: &Form, margin: usize) -> Result<bool, Memory>
    ensures dotted { result ≡ Ok true → (lines : Lines) → out.new ≡ pushed out.old (row_written lines margin form.now) }
    ensures other { result ≡ Ok false → out.new ≡ out.old }
{
    let mut outer = Vec::new(form.parts.alloc());
    let mut at = form;
    while let Some(front) = front_of(at) {
        outer.push(at)?;
        at = front;
    }
    let names = at.parts.as_slice();
    if !are_tokens(names) {
        return Ok(false);
    }
    out.push_bytes(first_text(names))?;
    push_past_front(out, at, margin)?;
    while let Some(next) = outer.pop() {
        push_past_front(out, next, margin)?;
    }
    Ok(true)
}
