//! Paths of loads in which each match of a pattern is replaced.
ghost use Rattle.std.specs.Prelude.{◌≡◌, IfOk, OnOk};
ghost use Rattle.std.specs.Option.{option_map_or};
ghost use Rattle.bz_grammar.specs.declared.kind.Kind.TheVariants as k;
ghost use Rattle.bz_load.specs.Words.{on_first, on_items, with_text};
ghost use Rattle.bz_load.specs.SubstituteLoad.{path_substituted, string_substituted, substitute_load};

use bz_attribute::{body_of, set_text};
use bz_command_syntax::{Pattern, quoted};
use bz_grammar::Kind;
use bz_items::{Items, Memory, Text};
use bz_value::{Expr, Item};
use std::alloc::Global;

/// The text that a string gets; `None` where it stays: it isn't plain, or its body stays.
#[tactic(auto, using(crate::proofs::RenamedPaths::no_body))]
fn new_text(
    alloc: Global,
    pattern: &Pattern,
    template: &[u8],
    x: &Expr,
) -> Result<Option<Text>, Memory>
    ensures { IfOk result (λ text. option_map_or (λ new. with_text new x.now) text x.now ≡ string_substituted pattern.now template.now x.now) }
{
    let Some(body) = body_of(x) else {
        return Ok(None);
    };
    let new = pattern.substituted(alloc, template, body)?;
    if new.as_slice() == body {
        return Ok(None);
    }
    Ok(Some(quoted(alloc, new.as_slice())?))
}

/// Replaces in a string.
fn in_string(alloc: Global, pattern: &Pattern, template: &[u8], x: &mut Expr) -> Result<(), Memory>
    ensures { OnOk result (x.new ≡ string_substituted pattern.now template.now x.old) }
{
    if let Some(text) = new_text(alloc, pattern, template, x)? {
        set_text(text, x);
    }
    Ok(())
}

/// Replaces in the path, which is first among the items of a load.
fn in_first(
    alloc: Global,
    pattern: &Pattern,
    template: &[u8],
    items: &mut Items<Expr>,
) -> Result<(), Memory>
    ensures { OnOk result (items.new ≡ on_first (string_substituted pattern.now template.now) items.old) }
{
    if let [path, ..] = items.as_mut_slice() {
        in_string(alloc, pattern, template, path)?;
    }
    Ok(())
}

/// Replaces in the path of a load; any other expression stays.
fn in_load(alloc: Global, pattern: &Pattern, template: &[u8], x: &mut Expr) -> Result<(), Memory>
    ensures { OnOk result (x.new ≡ on_items k.Load (on_first (string_substituted pattern.now template.now)) x.old) }
{
    match x {
        Expr::Form(form) if form.kind == Kind::Load => {
            in_first(alloc, pattern, template, &mut form.seq.items)
        }
        _ => Ok(()),
    }
}

/// A copy of the item in which that is replaced in the path of a load.
fn path_substituted(
    alloc: Global,
    pattern: &Pattern,
    template: &[u8],
    item: &Item,
) -> Result<Item, Memory>
    ensures { IfOk result (λ new. new ≡ path_substituted pattern.now template.now item.now) }
{
    let mut new = item.copy()?;
    if let Item::Stmt(x) = &mut new {
        in_load(alloc, pattern, template, x)?;
    }
    Ok(new)
}

/// A copy of the items in which each match of the pattern in the path of a load that is a plain string is replaced by the
/// template, as `regex` replaces all. Nothing else changes: loads that come to one path stay as many as they were. The error:
/// memory was refused.
pub fn substitute_load(
    alloc: Global,
    pattern: &Pattern,
    template: &[u8],
    items: &[Item],
) -> Result<Items<Item>, Memory>
    ensures { IfOk result (λ new. new ≡ substitute_load pattern.now template.now items.now) }
{
    let mut all = Vec::with_capacity(alloc, items.len())?;
    for item in items {
        all.push(path_substituted(alloc, pattern, template, item)?)?;
    }
    Ok(Items::from_vec(all))
}
