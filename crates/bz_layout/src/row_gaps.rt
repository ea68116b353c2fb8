//! What is between two parts of a row.
ghost use Rattle.std.specs.Prelude.{◌≡◌, ◌++◌, ◌∷◌, [], ℕ, codes, IfOk, IsTrue, OnOk};
ghost use Rattle.bz_value.specs.Proper.{has_break};
ghost use Rattle.bz_layout.specs.Drafts.{pushed};
ghost use Rattle.bz_layout.specs.Layout as layout;
ghost use Rattle.bz_layout.specs.Written.{text_in};
ghost use Rattle.bz_layout.specs.private.Writings.{row_text};
ghost use Rattle.bz_layout.specs.declared.breaks.Lines.{Lines};

use crate::draft::Draft;
use crate::gaps::deeper_margin;
use crate::spaces::{has_mark, is_lone, is_spaced};
use bz_grammar::Kind;
use bz_items::Memory;
use bz_value::{Expr, Form};

fn has_break(expr: &Expr) -> bool
    ensures { result ≡ has_break expr.now }
{
    matches!(expr, Expr::Token(token) if token.line_break)
}

/// Whether these parts are a name, the sign `=` and a value on its line, as those of most rows are.
#[tactic(auto, using(crate::proofs::Writing::assignment_text))]
pub fn is_assignment(form: &Form, name: &Expr, sign: &Expr, value: &Expr) -> bool
    ensures { IsTrue result → (lines : Lines) (margin : ℕ) → row_text lines form.now.kind form.now.open_break margin margin (name.now ∷ sign.now ∷ value.now ∷ [])
        ≡ text_in lines name.now margin ++ (codes " = " ++ text_in lines value.now margin) }
{
    if form.open_break || has_break(name) || has_break(sign) {
        return false;
    }
    matches!(form.kind, Kind::Named | Kind::Assign) && has_mark(b"=", sign) && !is_lone(value)
}

/// Appends the gap after a part of a row, before the others, and gives the margin of what is after it. The error: a growth was refused,
/// or no text is that wide.
#[tactic(auto, using(crate::proofs::Pushing::pushed_none))]
pub fn push_row_gap(
    out: &mut Draft,
    form: &Form,
    margin: usize,
    part: &Expr,
    others: &[Expr],
) -> Result<usize, Memory>
    ensures gap { OnOk result (out.new ≡ pushed out.old (layout.gap_after form.now.kind form.now.open_break margin part.now others.now)) }
    ensures margin { IfOk result (λ inner. inner ≡ layout.margin_after form.now.open_break margin part.now) }
{
    if form.open_break || has_break(part) {
        let inner = deeper_margin(margin)?;
        match others {
            [] => {}
            [_] if form.open_break => out.push_new_line(margin)?,
            _ => out.push_new_line(inner)?,
        }
        return Ok(inner);
    }
    let [next, ..] = others else {
        return Ok(margin);
    };
    if is_spaced(form.kind, part, next) {
        out.push(b' ')?;
    }
    Ok(margin)
}
