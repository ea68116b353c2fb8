//! What goes from loads where a symbol is loaded from another path, and its comments.
ghost use Rattle.std.specs.Prelude.{◌≡◌, ◌++◌, ◌&&◌, ◌∷◌, [], map, IfOk, OnOk, if◌then◌else◌};
ghost use Rattle.std.specs.List.{flat_map, list_all, list_any};
ghost use Rattle.std.specs.Option.{option_copied};
ghost use Rattle.bz_load.specs.Words.{comments_of, no_comments};
ghost use Rattle.bz_load.specs.Fixes.{end_of};
ghost use Rattle.bz_load.specs.Loads.{loads_symbol};
ghost use Rattle.bz_load.specs.Paths.{has_local};
ghost use Rattle.bz_load.specs.ReplaceLoad.{all_comments, all_comments_joined, comments_above, comments_around, comments_joined, comments_without, goes, gone_comments, gone_from, is_local, is_lost, path_lines, suffix_alone, suffix_host};
ghost use Rattle.bz_load.specs.private.Replacing.{gathered_comments};

use crate::readings::{after_path, both_names, is_load, symbols_of};
use bz_attribute::items_of;
use bz_command_syntax::Symbol;
use bz_grammar::Kind;
use bz_items::{Items, Memory, Text};
use bz_rule::local_name;
use bz_value::{Comments, Expr, Item};
use std::alloc::Global;

// ---- what goes

pub(crate) fn is_local(symbol: &Symbol, x: &Expr) -> bool
    ensures { result ≡ is_local symbol.now x.now }
{
    symbol.to.as_slice() == local_name(x)
}

/// Whether an item of a load loads the symbol.
pub(crate) fn loads(symbol: &Symbol, x: &Expr) -> bool
    ensures { result ≡ loads_symbol symbol.now x.now }
{
    match both_names(Kind::Alias, x) {
        Some(loaded) => {
            symbol.to.as_slice() == loaded.to && symbol.from.as_slice() == loaded.from
        }
        None => false,
    }
}

/// Whether an item of a load goes: it has the symbol's local name, and isn't the first that loads it in the load that is to have it.
pub(crate) fn goes(symbol: &Symbol, found: bool, x: &Expr) -> bool
    ensures { result ≡ goes symbol.now found x.now }
{
    is_local(symbol, x) && (found || !loads(symbol, x))
}

fn any_local(symbol: &Symbol, symbols: &[Expr]) -> bool
    ensures { result ≡ list_any (is_local symbol.now) symbols.now }
{
    symbols.iter().any(|x| is_local(symbol, x))
}

/// Whether an item is a load that has the symbol's local name: any other one stays.
pub(crate) fn has_local(symbol: &Symbol, item: &Item) -> bool
    ensures { result ≡ has_local symbol.now.to item.now }
{
    is_load(item) && any_local(symbol, symbols_of(item))
}

fn are_local(symbol: &Symbol, symbols: &[Expr]) -> bool
    ensures { result ≡ list_all (is_local symbol.now) symbols.now }
{
    symbols.iter().all(|x| is_local(symbol, x))
}

/// Whether an item is a load that loses its last symbol.
pub(crate) fn is_lost(symbol: &Symbol, item: &Item) -> bool
    ensures { result ≡ is_lost symbol.now item.now }
{
    let symbols = symbols_of(item);
    is_load(item) && !symbols.is_empty() && are_local(symbol, symbols)
}

// ---- its comments

/// Comments of what goes, for the symbol that takes them.
#[derive(Drop)]
pub(crate) struct Gathered {
    pub(crate) before: Items<Text>,
    pub(crate) suffix: Option<Text>,
}

/// Puts copies of comments below those that there are.
fn push_lines(lines: &[Text], before: &mut Items<Text>) -> Result<(), Memory>
    ensures { OnOk result (before.new ≡ before.old ++ lines.now) }
{
    for line in lines {
        before.push(line.copy()?)?;
    }
    Ok(())
}

/// The comments of a path, above.
fn push_path(items: &[Expr], before: &mut Items<Text>) -> Result<(), Memory>
    ensures { OnOk result (before.new ≡ before.old ++ path_lines items.now) }
{
    let Some(path) = items.first() else {
        return Ok(());
    };
    push_lines(path.comments().before(), before)?;
    if let Some(text) = path.comments().suffix() {
        before.push(text.copy()?)?;
    }
    Ok(())
}

/// A suffix: where there is one already it goes above.
#[tactic(auto, using(crate::proofs::GatheredComments::none_taken, crate::proofs::GatheredComments::suffix_above, crate::proofs::GatheredComments::suffix_taken))]
fn join_suffix(suffix: Option<&Text>, gone: &mut Gathered) -> Result<(), Memory>
    ensures { OnOk result (gathered_comments gone.new ≡ comments_joined (gathered_comments gone.old) (suffix_alone (option_copied suffix.entry))) }
{
    let Some(text) = suffix else {
        return Ok(());
    };
    let text = text.copy()?;
    if gone.suffix.is_some() {
        return gone.before.push(text);
    }
    gone.suffix = Some(text);
    Ok(())
}

/// The comments of a host that goes.
#[tactic(auto, using(crate::proofs::GatheredComments::joined_steps))]
pub(crate) fn join(comments: &Comments, gone: &mut Gathered) -> Result<(), Memory>
    ensures { OnOk result (gathered_comments gone.new ≡ comments_joined (gathered_comments gone.old) comments.now) }
{
    push_lines(comments.before(), &mut gone.before)?;
    join_suffix(comments.suffix(), gone)?;
    Ok(())
}

/// The comments above each of these.
fn push_above(exprs: &[Expr], before: &mut Items<Text>) -> Result<(), Memory>
    ensures { OnOk result (before.new ≡ before.old ++ comments_above exprs.now) }
{
    for x in exprs {
        push_lines(x.comments().before(), before)?;
    }
    Ok(())
}

/// The suffix of each of these.
fn join_suffixes(exprs: &[Expr], gone: &mut Gathered) -> Result<(), Memory>
    ensures { OnOk result (gathered_comments gone.new ≡ all_comments_joined (gathered_comments gone.old) (map suffix_host exprs.now)) }
{
    for x in exprs {
        join_suffix(x.comments().suffix(), gone)?;
    }
    Ok(())
}

/// The comments below the last item of a sequence.
fn end_of(x: &Expr) -> &[Text]
    ensures { result.now ≡ end_of x.now }
{
    match x {
        Expr::Token(_) => &[],
        Expr::Form(form) => form.seq.end.as_slice(),
    }
}

/// All comments of a load.
#[tactic(auto, using(crate::proofs::GatheredComments::load_joined))]
fn join_load(load: &Item, gone: &mut Gathered) -> Result<(), Memory>
    ensures { OnOk result (gathered_comments gone.new ≡ all_comments_joined (gathered_comments gone.old) (all_comments load.now)) }
{
    let Item::Stmt(x) = load else {
        return Ok(());
    };
    push_lines(x.comments().before(), &mut gone.before)?;
    push_path(items_of(x), &mut gone.before)?;
    push_above(after_path(items_of(x)), &mut gone.before)?;
    push_lines(end_of(x), &mut gone.before)?;
    join_suffixes(after_path(items_of(x)), gone)?;
    join_suffix(x.comments().suffix(), gone)?;
    Ok(())
}

/// The comments of a symbol, where that goes.
fn join_if(goes: bool, x: &Expr, gone: &mut Gathered) -> Result<(), Memory>
    ensures { OnOk result (gathered_comments gone.new ≡ all_comments_joined (gathered_comments gone.old) (if goes then comments_of x.now ∷ [] else [])) }
{
    if !goes {
        return Ok(());
    }
    join(x.comments(), gone)
}

/// The comments of the symbols that go.
#[tactic(auto, using(crate::proofs::ReplacedSymbols::gone_next))]
fn join_gone(
    symbol: &Symbol,
    mut found: bool,
    symbols: &[Expr],
    gone: &mut Gathered,
) -> Result<(), Memory>
    ensures { OnOk result (gathered_comments gone.new ≡ all_comments_joined (gathered_comments gone.old) (gone_comments symbol.now found symbols.now)) }
{
    for x in symbols {
        join_if(goes(symbol, found, x), x, gone)?;
        found = found || loads(symbol, x);
    }
    Ok(())
}

/// The comments of the symbols that go from an item.
#[tactic(auto, using(crate::proofs::ReplacedSymbols::gone_nothing, crate::proofs::ReplacedSymbols::gone_load))]
fn join_from(symbol: &Symbol, found: bool, item: &Item, gone: &mut Gathered) -> Result<(), Memory>
    ensures { OnOk result (gathered_comments gone.new ≡ all_comments_joined (gathered_comments gone.old) (gone_from symbol.now found item.now)) }
{
    if !has_local(symbol, item) {
        return Ok(());
    }
    join_gone(symbol, found, symbols_of(item), gone)
}

/// The comments of what goes from an item, or of the load that goes.
#[tactic(auto, using(crate::proofs::ReplacedSymbols::item_silent, crate::proofs::ReplacedSymbols::item_said, crate::proofs::ReplacedSymbols::item_gone))]
fn join_without(symbol: &Symbol, item: &Item, gone: &mut Gathered) -> Result<(), Memory>
    ensures { OnOk result (gathered_comments gone.new ≡ all_comments_joined (gathered_comments gone.old) (comments_without symbol.now item.now)) }
{
    if !has_local(symbol, item) {
        return Ok(());
    }
    if is_lost(symbol, item) {
        return join_load(item, gone);
    }
    join_gone(symbol, true, symbols_of(item), gone)
}

/// The same of each item.
fn join_without_each(symbol: &Symbol, items: &[Item], gone: &mut Gathered) -> Result<(), Memory>
    ensures { OnOk result (gathered_comments gone.new ≡ all_comments_joined (gathered_comments gone.old) (flat_map (comments_without symbol.now) items.now)) }
{
    for item in items {
        join_without(symbol, item, gone)?;
    }
    Ok(())
}

/// The comments of all that goes, from the load that is to have the symbol and from the items before it and after it.
pub(crate) fn comments_around(
    alloc: Global,
    symbol: &Symbol,
    front: &[Item],
    load: &Item,
    back: &[Item],
) -> Result<Comments, Memory>
    ensures { IfOk result (λ gone. gone ≡ all_comments_joined no_comments (comments_around symbol.now front.now load.now back.now)) }
{
    let mut gone = Gathered {
        before: Items::new(alloc),
        suffix: None,
    };
    join_without_each(symbol, front, &mut gone)?;
    join_from(symbol, false, load, &mut gone)?;
    join_without_each(symbol, back, &mut gone)?;
    let comments = Comments::new(alloc, gone.before, gone.suffix)?;
    Ok(comments)
}
