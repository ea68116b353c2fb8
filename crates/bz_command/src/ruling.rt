//! What a command makes of a rule, and of the items of a file: of the rules at some places, with a new rule, without some, and of loads.
//! Items that stay are moved.
ghost use Rattle.std.specs.Prelude.{◌≡◌, ◌⊎◌, ◌↔◌, ◌≤◌, ◌<◌, ◌+◌, ◌∷◌, ◌++◌, [], ℕ, Bool, List, codes, drop, false, length, map, slice_get, slice_set, None, Ok, Err, OnOk, IsTrue, IfOk, IfErr, IfSome, if◌then◌else◌};
ghost use Rattle.std.specs.List.{insert, list_any, position};
ghost use Rattle.std.specs.Option.{option_copied};
ghost use Rattle.bz_command.specs.Words.{Item, AreOver, IsSpliced, has_name, held_name, HaveSameNames, Bytes, AreListed, Ascend, function_of, changed_by, is_rule_of_kind};
ghost use Rattle.bz_command.specs.Effect.{is_rule, loads_changed, looks_at_rules, on_arguments, on_meant, on_rules, on_statement, new_rule_place, place_beside, source, source_of, unmarked, with_function};
ghost use Rattle.bz_command.specs.Known.{IsKnownOf, item_hash};
ghost use Rattle.bz_command.specs.private.Looks.{arguments_by, made_by, marks_by, one_made_by, places_by, says_itself};
ghost use Rattle.bz_command.specs.private.Growing.{IsCompared};
ghost use Rattle.bz_load.specs.Growing.{IsGrown};

use crate::hashes::place_among;
use crate::running::Known;
use crate::targets::{arguments_of, is_rule, take_place};
use bz_attribute::{function_of, rule_made};
use bz_change::{change_attributes, change_dicts};
use bz_command_syntax::{
    AttributeOperation, Command, CommentOperation, Host, LoadOperation, Operation, RuleOperation,
    RulePlace,
};
use bz_comment::{Change, change_comments, change_own};
use bz_items::{Items, Memory, Text};
use bz_label::Target;
use bz_list::change_values;
use bz_load::{
    Growing, LoadedPaths, WithLoad, fix, new_load, put_window, replace_load, substitute_load,
    use_repo_add, use_repo_remove, window_between, windows_of,
};
use bz_rule::{attribute, has_name, held_name, is_rule_of_kind};
use bz_value::{Expr, Item, Refusal, Window};
use std::alloc::Global;

/// A command that is run on a file.
#[derive(Clone, Copy)]
pub struct Work<'a, 'f> {
    pub alloc: Global,
    pub command: &'a Command,
    pub target: &'a Target,
    /// The path of the file's package.
    pub current: &'a [u8],
    /// The lines on which its statements begin.
    pub lines: &'a [u32],
    /// The value that is copied, once it is known.
    pub found: Option<&'f Expr>,
}

impl<'a> Work<'a, 'a> {
    /// A command on a file, before the value that it copies is known.
    pub fn new(
        alloc: Global,
        command: &'a Command,
        target: &'a Target,
        current: &'a [u8],
        lines: &'a [u32],
    ) -> Work<'a, 'a>
        ensures { result ≡ record { alloc = alloc; command = command.entry; target = target.entry; current = current.entry; lines = lines.entry; found = None } }
    {
        Work {
            alloc,
            command,
            target,
            current,
            lines,
            found: None,
        }
    }
}

/// The items that a command makes of those of a file, and where they are others.
#[derive(Drop)]
pub struct Changed {
    pub items: Items<Item>,
    /// None where they are the same.
    pub windows: Items<Window>,
    /// Whether each is known to have the name that it had, or none where it had none.
    pub same_names: bool,
}

/// Whether an operation says itself whether it changes a rule.
fn says_itself(operation: &Operation) -> bool
    ensures { result ≡ says_itself operation.now }
{
    matches!(operation, Operation::Value(operation) if bz_list::tells_change(operation))
}

/// What a command makes of the arguments of a rule that it is meant for. The answer: whether they are known to stay the same.
fn change(
    work: Work<'_, '_>,
    operation: &Operation,
    list: &mut Items<Expr>,
) -> Result<bool, Refusal>
    ensures ok { OnOk result (arguments_by operation.now work.entry list.old ≡ Ok list.new) }
    ensures same { IsTrue (says_itself operation.now) → IfOk result (λ same. IsTrue same ↔ (arguments_by operation.now work.entry list.old ≡ Ok list.old)) }
    ensures err { IfErr result (λ refusal. (arguments_by operation.now work.entry list.old ≡ Err refusal) ⊎ (refusal ≡ Refusal.Memory)) }
{
    let (alloc, current) = (work.alloc, work.current);
    match operation {
        Operation::Attribute(operation) => {
            change_attributes(alloc, operation, current, work.found, list)?;
            Ok(false)
        }
        Operation::Value(operation) => change_values(alloc, operation, current, list),
        Operation::Dict(operation) => {
            change_dicts(alloc, operation, current, list)?;
            Ok(false)
        }
        Operation::Comment(CommentOperation::Add { host, text }) => {
            change_comments(alloc, current, host, Change::Add(text.as_slice()), list)?;
            Ok(false)
        }
        Operation::Comment(CommentOperation::Remove { host }) => {
            change_comments(alloc, current, host, Change::Remove, list)?;
            Ok(false)
        }
        Operation::Comment(CommentOperation::Print { .. })
        | Operation::Rule(_)
        | Operation::Load(_)
        | Operation::Print { .. } => Ok(true),
    }
}

/// What a command makes of a rule by changing its arguments; what is no rule stays. The answer: whether it is known to stay the same.
fn change_rule(work: Work<'_, '_>, operation: &Operation, item: &mut Item) -> Result<bool, Refusal>
    ensures ok { OnOk result (on_arguments (arguments_by operation.now work.entry) item.old ≡ Ok item.new) }
    ensures same { IsTrue (says_itself operation.now) → IfOk result (λ same. IsTrue same ↔ (on_arguments (arguments_by operation.now work.entry) item.old ≡ Ok item.old)) }
    ensures err { IfErr result (λ refusal. (on_arguments (arguments_by operation.now work.entry) item.old ≡ Err refusal) ⊎ (refusal ≡ Refusal.Memory)) }
{
    if !is_rule(item) {
        return Ok(true);
    }
    if let Item::Stmt(Expr::Form(form)) = item {
        if let [call, ..] = form.parts.as_mut_slice() {
            if let Expr::Form(call) = call {
                return Ok(change(work, operation, &mut call.seq.items)?);
            }
        }
    }
    Ok(true)
}

/// The rule's kind becomes this one; what is no rule stays.
fn set_kind(alloc: Global, kind: &Text, item: &mut Item) -> Result<(), Refusal>
    ensures ok { OnOk result (item.new ≡ (if is_rule item.old then with_function (function_of kind.now) item.old else item.old)) }
    ensures err { IfErr result (λ refusal. refusal ≡ Refusal.Memory) }
{
    if !is_rule(item) {
        return Ok(());
    }
    let mut parts = Items::new(alloc);
    parts.push(function_of(alloc, kind.as_slice())?)?;
    if let Item::Stmt(Expr::Form(form)) = item {
        if let [call, ..] = form.parts.as_mut_slice() {
            if let Expr::Form(call) = call {
                call.parts = parts;
            }
        }
    }
    Ok(())
}

/// The comments of a statement, changed.
fn change_statement(alloc: Global, change: Change<'_>, item: &mut Item) -> Result<(), Refusal>
    ensures ok { OnOk result (item.new ≡ on_statement (changed_by change.entry) item.old) }
    ensures err { IfErr result (λ refusal. refusal ≡ Refusal.Memory) }
{
    match item {
        Item::Block(_) => Ok(()),
        Item::Stmt(x) => Ok(change_own(alloc, change, x)?),
    }
}

/// What a command makes of a rule that it is meant for. The answer: whether it is known to stay the same.
pub(crate) fn on_one(
    work: Work<'_, '_>,
    operation: &Operation,
    item: &mut Item,
) -> Result<bool, Refusal>
    ensures ok { OnOk result (made_by operation.now work.entry item.old ≡ Ok item.new) }
    ensures same { IsTrue (says_itself operation.now) → IfOk result (λ same. IsTrue same ↔ (made_by operation.now work.entry item.old ≡ Ok item.old)) }
    ensures err { IfErr result (λ refusal. (made_by operation.now work.entry item.old ≡ Err refusal) ⊎ (refusal ≡ Refusal.Memory)) }
{
    let alloc = work.alloc;
    match operation {
        Operation::Rule(RuleOperation::SetKind { kind }) => {
            set_kind(alloc, kind, item)?;
            Ok(false)
        }
        Operation::Comment(CommentOperation::Add { host, text }) => match host {
            Host::Rule => {
                change_statement(alloc, Change::Add(text.as_slice()), item)?;
                Ok(false)
            }
            Host::Attribute(_) | Host::Item { .. } => change_rule(work, operation, item),
        },
        Operation::Comment(CommentOperation::Remove { host }) => match host {
            Host::Rule => {
                change_statement(alloc, Change::Remove, item)?;
                Ok(false)
            }
            Host::Attribute(_) | Host::Item { .. } => change_rule(work, operation, item),
        },
        Operation::Rule(RuleOperation::New { .. } | RuleOperation::Delete)
        | Operation::Comment(CommentOperation::Print { .. })
        | Operation::Attribute(_)
        | Operation::Value(_)
        | Operation::Dict(_)
        | Operation::Load(_)
        | Operation::Print { .. } => change_rule(work, operation, item),
    }
}

/// The same, and exactly whether it stays the same: where the operation doesn't say it, the rule is compared with a copy.
fn on_one_compared(
    work: Work<'_, '_>,
    operation: &Operation,
    item: &mut Item,
) -> Result<bool, Refusal>
    ensures ok { OnOk result (made_by operation.now work.entry item.old ≡ Ok item.new) }
    ensures same { IfOk result (λ same. IsTrue same ↔ (item.new ≡ item.old)) }
    ensures err { IfErr result (λ refusal. (made_by operation.now work.entry item.old ≡ Err refusal) ⊎ (refusal ≡ Refusal.Memory)) }
{
    if says_itself(operation) {
        return on_one(work, operation, item);
    }
    let before = item.copy()?;
    on_one(work, operation, item)?;
    Ok(item.equals(&before))
}

/// A copy of the name of an item, where it has one.
fn copied_name(alloc: Global, item: &Item) -> Result<Option<Text>, Memory>
    ensures { IfOk result (λ name. name ≡ held_name item.now) }
{
    match held_name(item) {
        Some(name) => Ok(Some(Text::from_slice(alloc, name)?)),
        None => Ok(None),
    }
}

/// Whether an item has this name, or none where this is none.
fn has_this_name(name: Option<Text>, item: &Item) -> bool
    ensures { IsTrue result → held_name item.now ≡ name }
{
    match (held_name(item), &name) {
        (Some(held), Some(name)) => held == name.as_slice(),
        (None, None) => true,
        _ => false,
    }
}

/// A window more, unless the item at a place is the same.
fn note(same: bool, at: usize, growing: &mut Growing) -> Result<(), Memory>
    requires past { growing.old.past ≤ at }
    requires room { at + 1 ≤ usize.MAX }
    ensures grown { (before after changed : List Item) → IsGrown growing.old before after → (IsTrue same → changed ≡ after) → IsSpliced at 1 1 after changed → OnOk result (IsGrown growing.new before changed) }
    ensures none { OnOk result (IsTrue same → growing.new.windows ≡ growing.old.windows) }
    ensures left { (before after changed : List Item) → drop growing.old.past after ≡ drop growing.old.past before → (IsTrue same → changed ≡ after) → drop (at + 1) changed ≡ drop (at + 1) before
        → OnOk result (drop growing.new.past changed ≡ drop growing.new.past before) }
    ensures order { (end : ℕ) (places : List ℕ) → Ascend growing.old.past end (at ∷ places) → OnOk result (Ascend growing.new.past end places) }
{
    if same {
        return Ok(());
    }
    put_window(at, 1, 1, growing)
}

/// What a command makes of the items that it is meant for, which are at these places, where they are others then, and whether each
/// has the name that it had. The first that refuses decides.
fn on_meant(
    work: Work<'_, '_>,
    places: &[usize],
    items: &mut [Item],
) -> Result<(Items<Window>, bool), Refusal>
    requires { places.now ≡ places_by work items.old }
    ensures ok { OnOk result (on_meant (one_made_by work.entry) (marks_by work.entry items.old) items.old ≡ Ok items.new) }
    ensures windows { IfOk result (λ made. AreOver made.0 items.old items.new) }
    ensures same { IfOk result (λ made. (made.0 ≡ []) ↔ (items.new ≡ items.old)) }
    ensures names { IfOk result (λ made. IsTrue made.1 → HaveSameNames items.old items.new) }
    ensures err { IfErr result (λ refusal. (on_meant (one_made_by work.entry) (marks_by work.entry items.old) items.old ≡ Err refusal) ⊎ (refusal ≡ Refusal.Memory)) }
{
    let command = work.command;
    let mut growing = Growing::new(work.alloc);
    let mut same_names = true;
    for at in places {
        let item = &mut items[*at];
        let name = copied_name(work.alloc, item)?;
        let same = on_one_compared(work, &command.operation, item)?;
        same_names &= has_this_name(name, item);
        note(same, *at, &mut growing)?;
    }
    Ok((growing.windows, same_names))
}

/// The value that an attribute has in the first rule of a name.
fn source<'a>(name: &[u8], rule: &[u8], items: &'a [Item]) -> Option<&'a Expr>
    ensures { option_copied result ≡ source name.now rule.now items.now }
{
    for item in items {
        if has_name(rule, item) {
            return attribute(name, arguments_of(item));
        }
    }
    None
}

/// The value that is copied, from the items as they are.
pub(crate) fn source_of<'a>(operation: &Operation, items: &'a [Item]) -> Option<&'a Expr>
    ensures { option_copied result ≡ source_of operation.now items.now }
{
    let Operation::Attribute(
        AttributeOperation::Copy { attribute, rule }
        | AttributeOperation::CopyNoOverwrite { attribute, rule },
    ) = operation
    else {
        return None;
    };
    source(attribute.as_slice(), rule.as_slice(), items)
}

/// A copy of it, as it is before anything changes.
fn copied_source(operation: &Operation, items: &[Item]) -> Result<Option<Expr>, Memory>
    ensures { IfOk result (λ found. found ≡ source_of operation.now items.now) }
{
    match source_of(operation, items) {
        Some(value) => Ok(Some(value.copy()?)),
        None => Ok(None),
    }
}

/// What a command makes of each of the items that it is meant for, which are at these places.
#[tactic(auto, unfolding(crate::specs::private::Looks::one_made))]
fn on_found(
    work: Work<'_, '_>,
    places: &[usize],
    mut items: Items<Item>,
) -> Result<Changed, Refusal>
    requires { places.now ≡ places_by work items }
    ensures ok { IfOk result (λ changed. on_meant (made_by work.entry.command.now work.entry) (marks_by work.entry items) items ≡ Ok changed.items) }
    ensures compared { IfOk result (IsCompared items) }
    ensures err { IfErr result (λ refusal. (on_meant (made_by work.entry.command.now work.entry) (marks_by work.entry items) items ≡ Err refusal) ⊎ (refusal ≡ Refusal.Memory)) }
{
    let (windows, same_names) = on_meant(work, places, items.as_mut_slice())?;
    Ok(Changed {
        items,
        windows,
        same_names,
    })
}

/// Appends an item; where it is marked there is a window more, of one item that is there no more.
fn push_unmarked(
    mark: bool,
    item: Item,
    kept: &mut Vec<Item>,
    growing: &mut Growing,
) -> Result<(), Memory>
    requires { growing.old.past ≤ length kept.old.items }
    ensures stay { (marks : List Bool) (rest : List Item) → OnOk result (kept.new.items ++ unmarked marks rest ≡ kept.old.items ++ unmarked (mark ∷ marks) (item ∷ rest)) }
    ensures grown { (before rest : List Item) → IsGrown growing.old before (kept.old.items ++ item ∷ rest) → OnOk result (IsGrown growing.new before (kept.new.items ++ rest)) }
    ensures none { OnOk result (length kept.new.items ≡ length kept.old.items + 1 → growing.new.windows ≡ growing.old.windows) }
    ensures count { OnOk result (length kept.new.items ≤ length kept.old.items + 1) }
    ensures past { OnOk result (growing.new.past ≤ length kept.new.items) }
{
    if mark {
        drop(item);
        return put_window(kept.len(), 1, 0, growing);
    }
    kept.push(item)?;
    Ok(())
}

/// The items that a command isn't meant for, in their order: all but those at the places.
fn delete(work: Work<'_, '_>, places: &[usize], items: Items<Item>) -> Result<Changed, Memory>
    requires { places.now ≡ places_by work items }
    ensures items { IfOk result (λ changed. changed.items ≡ unmarked (marks_by work.entry items) items) }
    ensures compared { IfOk result (IsCompared items) }
{
    let _count = items.len();
    let mut kept = Vec::new(work.alloc);
    let mut growing = Growing::new(work.alloc);
    let mut left = places;
    for (at, item) in items.into_vec().into_iter().enumerate() {
        let (mark, following) = take_place(at, left);
        push_unmarked(mark, item, &mut kept, &mut growing)?;
        left = following;
    }
    Ok(Changed {
        items: Items::from_vec(kept),
        windows: growing.windows,
        same_names: false,
    })
}

/// The place of the first rule of this name. There may be the hashes of the names of all items.
#[tactic(auto, using(crate::proofs::RunningItems::rule_within))]
fn place_of_rule(name: &[u8], hashes: Option<&[u64]>, items: &[Item]) -> Option<usize>
    requires { IfSome hashes (λ hashes. hashes.now ≡ map item_hash items.now) }
    ensures place { result ≡ position (has_name name.now) items.now }
    ensures within { IfSome result (λ at. at < length items.now) }
{
    match hashes {
        Some(hashes) => place_among(name, hashes, items),
        None => items.iter().position(|item| has_name(name, item)),
    }
}

/// The place of the first rule of kind `package`.
#[tactic(auto, using(crate::proofs::RunningItems::rule_within))]
fn place_of_package(items: &[Item]) -> Option<usize>
    ensures place { result ≡ position (is_rule_of_kind (codes "package")) items.now }
    ensures within { IfSome result (λ at. at < length items.now) }
{
    items
        .iter()
        .position(|item| is_rule_of_kind(b"package", item))
}

/// The place of the first rule of this name; where there is none, `__pkg__` means the first rule of kind `package`.
fn place_beside(name: &[u8], hashes: Option<&[u64]>, items: &[Item]) -> Option<usize>
    requires { IfSome hashes (λ hashes. hashes.now ≡ map item_hash items.now) }
    ensures place { result ≡ place_beside name.now items.now }
    ensures within { IfSome result (λ at. at < length items.now) }
{
    let named = place_of_rule(name, hashes, items);
    if named.is_none() && name == b"__pkg__".as_slice() {
        return place_of_package(items);
    }
    named
}

/// Where a new rule goes: after how many items. `None`: the rule beside which it goes isn't there.
#[tactic(auto, using(crate::proofs::RunningItems::at_most))]
fn place_of_new(place: &RulePlace, hashes: Option<&[u64]>, items: &[Item]) -> Option<usize>
    requires { IfSome hashes (λ hashes. hashes.now ≡ map item_hash items.now) }
    ensures place { result ≡ new_rule_place place.now items.now }
    ensures within { IfSome result (λ at. at ≤ length items.now) }
{
    match place {
        RulePlace::End => Some(items.len()),
        RulePlace::Before(rule) => place_beside(rule.as_slice(), hashes, items),
        RulePlace::After(rule) => match place_beside(rule.as_slice(), hashes, items) {
            Some(at) => Some(at + 1),
            None => None,
        },
    }
}

/// Whether an item is a rule of this name.
#[tactic(auto, using(crate::proofs::RunningItems::any_by_place))]
fn is_taken(name: &[u8], hashes: Option<&[u64]>, items: &[Item]) -> bool
    requires { IfSome hashes (λ hashes. hashes.now ≡ map item_hash items.now) }
    ensures { result ≡ list_any (has_name name.now) items.now }
{
    place_of_rule(name, hashes, items).is_some()
}

/// The items with a new one at this place.
fn inserted(alloc: Global, at: usize, new: Item, items: Items<Item>) -> Result<Changed, Memory>
    requires { at ≤ length items }
    ensures items { IfOk result (λ changed. changed.items ≡ insert items at new) }
    ensures compared { IfOk result (IsCompared items) }
{
    let mut all = items.into_vec();
    all.insert(at, new)?;
    let window = Window {
        from: at,
        gone: 0,
        come: 1,
    };
    Ok(Changed {
        windows: windows_of(alloc, false, window)?,
        items: Items::from_vec(all),
        same_names: false,
    })
}

/// Whether a command puts a new rule among the items; the hashes of their names say beside which one.
pub fn puts_rule(command: &Command) -> bool {
    matches!(
        &command.operation,
        Operation::Rule(RuleOperation::New { .. })
    )
}

/// Whether a command looks for loads among the items; the paths from which they load, and what these load, say where there is none.
pub fn looks_for_load(command: &Command) -> bool {
    matches!(
        &command.operation,
        Operation::Load(LoadOperation::New { .. } | LoadOperation::Replace { .. })
    )
}

/// Items that were made of others, and where they are others.
fn compared(alloc: Global, new: Items<Item>, items: &[Item]) -> Result<Changed, Memory>
    ensures items { IfOk result (λ changed. changed.items ≡ new) }
    ensures compared { IfOk result (IsCompared items.now) }
{
    Ok(Changed {
        windows: window_between(alloc, items, new.as_slice())?,
        items: new,
        same_names: false,
    })
}

/// Items that were made of others by a command on their loads.
fn with_load(made: WithLoad) -> Changed
    ensures items { result.items ≡ made.items }
    ensures compared { (before : List Item) → AreOver made.windows before made.items → (made.windows ≡ []) ↔ (made.items ≡ before) → IsCompared before result }
{
    Changed {
        items: made.items,
        windows: made.windows,
        same_names: false,
    }
}

/// What an operation on what the file loads makes of its items, of which there may be the paths from which they load.
fn on_loads(
    work: Work<'_, '_>,
    operation: &LoadOperation,
    paths: Option<&LoadedPaths>,
    items: Items<Item>,
) -> Result<Changed, Refusal>
    requires { IfSome paths (λ loaded. AreListed loaded.now items) }
    ensures ok { IfOk result (λ changed. loads_changed operation.now work.entry.current.now items ≡ Ok changed.items) }
    ensures compared { IfOk result (IsCompared items) }
    ensures err { IfErr result (λ refusal. (loads_changed operation.now work.entry.current.now items ≡ Err refusal) ⊎ (refusal ≡ Refusal.Memory)) }
{
    let (alloc, current) = (work.alloc, work.current);
    match operation {
        LoadOperation::New { path, symbols } => {
            let made = new_load(alloc, path.as_slice(), symbols.as_slice(), paths, items)?;
            Ok(with_load(made))
        }
        LoadOperation::Replace { path, symbols } => {
            let made = replace_load(alloc, path.as_slice(), symbols.as_slice(), paths, items)?;
            Ok(with_load(made))
        }
        LoadOperation::Fix { fixes } => {
            let new = fix(alloc, *fixes, items.as_slice())?;
            Ok(compared(alloc, new, items.as_slice())?)
        }
        LoadOperation::Substitute { pattern, template } => {
            let new = substitute_load(alloc, pattern, template.as_slice(), items.as_slice())?;
            Ok(compared(alloc, new, items.as_slice())?)
        }
        LoadOperation::AddRepos { usages, repos } => {
            let new = use_repo_add(alloc, current, usages, repos.as_slice(), items.as_slice())?;
            Ok(compared(alloc, new, items.as_slice())?)
        }
        LoadOperation::RemoveRepos { usages, repos } => {
            let new = use_repo_remove(alloc, current, usages, repos.as_slice(), items.as_slice())?;
            Ok(compared(alloc, new, items.as_slice())?)
        }
    }
}

/// What a command makes of the items, of which more may be known; a command on rules is meant for those at the places.
pub fn on_rules(
    work: Work<'_, '_>,
    known: Known<'_>,
    places: &[usize],
    items: Items<Item>,
) -> Result<Changed, Refusal>
    requires known { IsKnownOf known items }
    requires places { IsTrue (looks_at_rules work.command.now) → places.now ≡ places_by work items }
    ensures ok { IfOk result (λ changed. on_rules work.entry.command.now work.entry.current.now (marks_by work.entry items) items ≡ Ok changed.items) }
    ensures compared { IfOk result (IsCompared items) }
    ensures err { IfErr result (λ refusal. (on_rules work.entry.command.now work.entry.current.now (marks_by work.entry items) items ≡ Err refusal) ⊎ (refusal ≡ Refusal.Memory)) }
{
    let (alloc, command) = (work.alloc, work.command);
    match &command.operation {
        Operation::Rule(RuleOperation::New { kind, name, place }) => {
            let Some(at) = place_of_new(place, known.hashes, items.as_slice()) else {
                return Err(Refusal::NoTarget);
            };
            if is_taken(name.as_slice(), known.hashes, items.as_slice()) {
                return Err(Refusal::NameTaken);
            }
            let rule = rule_made(alloc, kind.as_slice(), name.as_slice())?;
            Ok(inserted(alloc, at, rule, items)?)
        }
        Operation::Rule(RuleOperation::Delete) => Ok(delete(work, places, items)?),
        Operation::Load(operation) => on_loads(work, operation, known.paths, items),
        Operation::Rule(RuleOperation::SetKind { .. })
        | Operation::Attribute(_)
        | Operation::Value(_)
        | Operation::Dict(_)
        | Operation::Comment(_) => {
            // The value that is copied is as it is before anything changes.
            let found = copied_source(&command.operation, items.as_slice())?;
            let work = Work {
                found: found.as_ref(),
                ..work
            };
            on_found(work, places, items)
        }
        Operation::Print { .. } => Ok(Changed {
            items,
            windows: Items::new(alloc),
            same_names: true,
        }),
    }
}
