//! A file mended: the package goes after the loads, and symbols that nothing uses are loaded no more.
ghost use Rattle.std.specs.Prelude.{◌≡◌, ◌<◌, ◌||◌, IfOk, OnOk, if◌then◌else◌, not};
ghost use Rattle.std.specs.List.{filter, list_any, position};
ghost use Rattle.bz_grammar.specs.declared.kind.Kind.TheVariants as k;
ghost use Rattle.bz_load.specs.Words.{on_items, on_rest, is_empty, comments_of, Bytes};
ghost use Rattle.bz_load.specs.Fixes.{end_of, fix, has_own_comments, is_commented, is_emptied, is_package_call, is_used, move_package_to_top, has_operand, is_operand_at, path_comments, symbol_stays, unused_loads, used_alone};
ghost use Rattle.bz_load.specs.private.Known.{knows_name, operand_in};

use crate::readings::{copies, count_of_blocks, place_after_loads};
use bz_attribute::{has_kind, has_text, insert_text, items_of};
use bz_command_syntax::Fixes;
use bz_grammar::{Class, Kind};
use bz_items::{Items, Memory};
use bz_rule::{is_rule_of_kind, local_name};
use bz_value::{Expr, Item};
use std::alloc::Global;
use std::collections::BTreeSet;
use std::mem;

fn place_of_package(items: &[Item]) -> Option<usize>
    ensures { result ≡ position is_package_call items.now }
{
    items
        .iter()
        .position(|item| is_rule_of_kind(b"package", item))
}

/// Where that is wanted, the first rule of kind `package` goes right after the last load, else after the comment blocks that
/// the items begin with.
fn move_package(wanted: bool, items: &mut Vec<Item>) -> Result<(), Memory>
    ensures { OnOk result (items.new.items ≡ (if wanted then move_package_to_top items.old.items else items.old.items)) }
{
    if !wanted {
        return Ok(());
    }
    let Some(from) = place_of_package(items.as_slice()) else {
        return Ok(());
    };
    let blocks = count_of_blocks(items.as_slice());
    let package = items.remove(from);
    let to = place_after_loads(items.as_slice(), blocks);
    items.insert(to, package)?;
    Ok(())
}

/// Names, each once.
type Names = BTreeSet<Vec<u8>>;

/// Whether a name that is itself a part of a node is an operand, by its place among the parts: the value of an argument, an alias
/// or a parameter, what is before a dot, and the value of a lambda; nothing of what names a function and its parameters.
fn is_operand_at(kind: Kind, count: usize, at: usize) -> bool
    requires { at < count }
    ensures { result ≡ is_operand_at kind count at }
{
    match kind {
        Kind::Named | Kind::Alias | Kind::Param => at > 1,
        Kind::Dot => at == 0,
        Kind::Lambda => at + 1 == count,
        Kind::Def => false,
        _ => true,
    }
}

/// The names that are operands in an expression are used from now on, in suites too; where it is itself a name, only if that is
/// an operand there. The error: memory was refused.
#[cycle(uses)]
#[tactic(auto, using(crate::proofs::Operands::form_inserted))]
fn insert_operands(alloc: Global, named: bool, x: &Expr, names: &mut Names) -> Result<(), Memory>
    ensures { (text : Bytes) → OnOk result (knows_name names.new text ≡ (has_operand named text x.now || knows_name names.old text)) }
{
    match x {
        Expr::Token(token) => {
            if named && token.class == Class::Name {
                insert_text(alloc, names, token.text.as_slice())?;
            }
            Ok(())
        }
        Expr::Form(form) => {
            insert_each(alloc, form.kind, form.parts.as_slice(), names)?;
            insert_each(alloc, form.kind, form.seq.items.as_slice(), names)?;
            Ok(())
        }
    }
}

/// The same of the parts, or of the items, of a form of this kind.
#[cycle(uses)]
fn insert_each(alloc: Global, kind: Kind, exprs: &[Expr], names: &mut Names) -> Result<(), Memory>
    ensures { (text : Bytes) → OnOk result (knows_name names.new text ≡ (operand_in kind text exprs.now || knows_name names.old text)) }
{
    for at in 0..exprs.len() {
        let named = is_operand_at(kind, exprs.len(), at);
        insert_operands(alloc, named, &exprs[at], names)?;
    }
    Ok(())
}

/// The names that the items use. The error: memory was refused.
fn used_names(alloc: Global, items: &[Item]) -> Result<Names, Memory>
    ensures { IfOk result (λ names. knows_name names ≡ is_used items.now) }
{
    let mut names = BTreeSet::new(alloc);
    for item in items {
        if let Item::Stmt(x) = item {
            insert_operands(alloc, true, x, &mut names)?;
        }
    }
    Ok(names)
}

fn has_comments(x: &Expr) -> bool
    ensures { result ≡ is_commented (comments_of x.now) }
{
    !(x.comments().before().is_empty() && x.comments().suffix().is_none())
}

/// Whether there are comments below the last item of the sequence.
fn has_end(x: &Expr) -> bool
    ensures { result ≡ not (is_empty (end_of x.now)) }
{
    matches!(x, Expr::Form(form) if !form.seq.end.is_empty())
}

fn path_has_comments(items: &[Expr]) -> bool
    ensures { result ≡ path_comments items.now }
{
    items.first().is_some_and(|path| has_comments(path))
}

/// Whether a load has comments that are no symbol's: above it, after it, at its end, or the path's.
fn has_own_comments(x: &Expr) -> bool
    ensures { result ≡ has_own_comments x.now }
{
    has_comments(x) || has_end(x) || path_has_comments(items_of(x))
}

/// Whether a symbol stays: it has a comment, or its local name is used.
fn stays(names: &Names, x: &Expr) -> bool
    ensures { result ≡ symbol_stays (knows_name names.now) x.now }
{
    has_comments(x) || has_text(names, local_name(x))
}

fn any_stays(names: &Names, symbols: &[Expr]) -> bool
    ensures { result ≡ list_any (symbol_stays (knows_name names.now)) symbols.now }
{
    symbols.iter().any(|x| stays(names, x))
}

/// Of the items of a load the path stays, and of its symbols those that are to stay.
fn keep_in_items(names: &Names, items: &mut Items<Expr>) -> Result<(), Memory>
    ensures { OnOk result (items.new ≡ on_rest (filter (symbol_stays (knows_name names.now))) items.old) }
{
    if items.is_empty() {
        return Ok(());
    }
    let alloc = items.alloc();
    let mut all = mem::replace(items, Items::new(alloc)).into_vec();
    let path = all.remove(0);
    all.retain(|x| stays(names, x));
    all.insert(0, path)?;
    *items = Items::from_vec(all);
    Ok(())
}

fn keep_in_load(names: &Names, x: &mut Expr) -> Result<(), Memory>
    ensures { OnOk result (x.new ≡ on_items k.Load (on_rest (filter (symbol_stays (knows_name names.now)))) x.old) }
{
    match x {
        Expr::Form(form) if form.kind == Kind::Load => keep_in_items(names, &mut form.seq.items),
        _ => Ok(()),
    }
}

/// A load without comments of its own keeps the symbols that are to stay.
fn keep_in_item(names: &Names, item: &mut Item) -> Result<(), Memory>
    ensures { OnOk result (item.new ≡ used_alone (knows_name names.now) item.old) }
{
    match item {
        Item::Stmt(x) if !has_own_comments(x) => keep_in_load(names, x),
        _ => Ok(()),
    }
}

/// Whether the item is a load that loses its last symbol.
fn is_emptied(names: &Names, item: &Item) -> bool
    ensures { result ≡ is_emptied (knows_name names.now) item.now }
{
    match item {
        Item::Stmt(x) if has_kind(Kind::Load, x) && !has_own_comments(x) => match items_of(x) {
            [_, symbols @ ..] => !symbols.is_empty() && !any_stays(names, symbols),
            [] => false,
        },
        _ => false,
    }
}

/// Where that is wanted, symbols that nothing uses are loaded no more, and a load that loses its last one goes. After an error
/// the items are lost.
fn drop_unused(alloc: Global, wanted: bool, items: &mut Vec<Item>) -> Result<(), Memory>
    ensures { OnOk result (items.new.items ≡ (if wanted then unused_loads items.old.items else items.old.items)) }
{
    if !wanted {
        return Ok(());
    }
    let names = used_names(alloc, items.as_slice())?;
    items.retain(|item| !is_emptied(&names, item));
    for item in items.iter_mut() {
        keep_in_item(&names, item)?;
    }
    Ok(())
}

/// A copy of the items that is mended: first the package goes after the loads, then symbols that nothing uses go. The error:
/// memory was refused.
pub fn fix(alloc: Global, fixes: Fixes, items: &[Item]) -> Result<Items<Item>, Memory>
    ensures { IfOk result (λ new. new ≡ fix fixes items.now) }
{
    let mut all = copies(alloc, items)?;
    move_package(fixes.move_package_to_top, &mut all)?;
    drop_unused(alloc, fixes.unused_loads, &mut all)?;
    Ok(Items::from_vec(all))
}
