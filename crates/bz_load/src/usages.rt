//! Usages of module extensions in a MODULE.bazel file, and the repositories that are imported from them.
ghost use Rattle.std.specs.Prelude.{◌≡◌, ◌⊎◌, ◌&&◌, ◌∷◌, [], Ok, Err, IfErr, IfOk, OnOk, bytes_eq, codes, map, not, if◌then◌else◌};
ghost use Rattle.std.specs.List.{filter, list_any, position};
ghost use Rattle.std.specs.Option.{option_copied};
ghost use Rattle.bz_grammar.specs.declared.kind.Kind.TheVariants as k;
ghost use Rattle.bz_load.specs.Words.{first_text, items_of, on_first, on_items, on_row, text_of};
ghost use Rattle.bz_load.specs.Usages.{argument_stays, use_arguments, assigns_to, begins_with_name, call_made, is_call_to, ends_positional, is_extension, is_extension_file, is_imported, is_meant_usage, is_repo, is_shared, is_statement_of, is_tag_of, is_true, is_use, is_use_of, loses_last, on_call_arguments, repos_added, repos_removed, row_of, usage_of_row, use_repo_add, use_repo_remove, variables, with_import, with_repo, without_repos, word_import};
ghost use Rattle.bz_load.specs.private.Imports.{IsLast, changed_imports, is_side, is_sought_import};
ghost use Rattle.bz_load.specs.private.Known.{symbol_of_key};

use crate::adding::{assigned, string};
use crate::readings::{Loaded, both_names, copies};
use bz_attribute::{body_of, first_text, has_kind, items_of, new_token, node, parts_of, sequence};
use bz_command_syntax::{Repo, Usages};
use bz_grammar::{Class, Kind};
use bz_items::{Items, Memory, Text};
use bz_label::bytes::same;
use bz_rule::{attribute, call_of, is_text, text_in, text_of};
use bz_value::{Expr, Item, Refusal};
use std::alloc::Global;
use std::mem;

// ---- usages

/// The row of a statement of this kind; of any other item none.
fn row_of(kind: Kind, item: &Item) -> &[Expr]
    ensures { result.now ≡ row_of kind item.now }
{
    match item {
        Item::Stmt(x) if has_kind(kind, x) => parts_of(x),
        _ => &[],
    }
}

fn is_sign(x: &Expr) -> bool
    ensures { result ≡ bytes_eq (text_of x.now) (codes "=") }
{
    text_of(x) == b"=".as_slice()
}

/// Whether this is the row of `variable = ..`.
fn assigns(variable: &[u8], parts: &[Expr]) -> bool
    ensures { result ≡ assigns_to variable.now parts.now }
{
    match parts {
        [left, sign, _] => is_text(variable, text_in(Class::Name, left)) && is_sign(sign),
        _ => false,
    }
}

/// Whether it is `function(..)`.
fn calls(function: &[u8], x: &Expr) -> bool
    ensures { result ≡ is_call_to function.now x.now }
{
    has_kind(Kind::Call, x) && first_text(parts_of(x)) == function
}

/// Whether the first argument of this name is `True`.
fn is_true(own: &[u8], arguments: &[Expr]) -> bool
    ensures { result ≡ is_true own.now arguments.now }
{
    match attribute(own, arguments) {
        Some(value) => text_of(value) == b"True".as_slice(),
        None => false,
    }
}

/// Whether a plain string means the same as a file's label.
fn is_file(current: &[u8], file: &[u8], x: &Expr) -> bool
    ensures { result ≡ is_extension_file current.now file.now x.now }
{
    match body_of(x) {
        Some(body) => same(current, file, body),
        None => false,
    }
}

/// Whether these arguments name the extension of this name in this file.
fn is_extension(current: &[u8], file: &[u8], extension: &[u8], arguments: &[Expr]) -> bool
    ensures { result ≡ is_extension current.now file.now extension.now arguments.now }
{
    match arguments {
        [first, second, ..] => is_file(current, file, first) && is_text(extension, body_of(second)),
        _ => false,
    }
}

/// Whether a usage is a development one.
fn is_as_wanted(dev: bool, arguments: &[Expr]) -> bool
    ensures { result ≡ (if dev then is_true (codes "dev_dependency") arguments.now else not (is_true (codes "dev_dependency") arguments.now)) }
{
    let is_dev = is_true(b"dev_dependency", arguments);
    if dev { is_dev } else { !is_dev }
}

/// Whether it is so as wanted, and not isolated.
fn is_shared(dev: bool, arguments: &[Expr]) -> bool
    ensures { result ≡ is_shared dev arguments.now }
{
    is_as_wanted(dev, arguments) && !is_true(b"isolate", arguments)
}

/// Whether the usage of a variable, with these arguments, is meant.
fn is_meant(current: &[u8], usages: &Usages, variable: &[u8], arguments: &[Expr]) -> bool
    ensures { result ≡ is_meant_usage current.now usages.now variable.now arguments.now }
{
    match usages {
        Usages::Extension { dev, file, name } => {
            is_extension(current, file.as_slice(), name.as_slice(), arguments)
                && is_shared(*dev, arguments)
        }
        Usages::Variable(own) => variable == own.as_slice(),
    }
}

/// Whether this is the value of a usage that is meant.
fn is_usage(current: &[u8], usages: &Usages, variable: &[u8], value: &Expr) -> bool
    ensures { result ≡ (is_call_to (codes "use_extension") value.now && is_meant_usage current.now usages.now variable.now (items_of value.now)) }
{
    calls(b"use_extension", value) && is_meant(current, usages, variable, items_of(value))
}

/// The variable of a usage that is meant.
fn usage_in<'a>(current: &[u8], usages: &Usages, parts: &'a [Expr]) -> Option<&'a [u8]>
    ensures { option_copied result ≡ usage_of_row current.now usages.now parts.now }
{
    match parts {
        [left, sign, value] if is_sign(sign) && is_usage(current, usages, text_of(left), value) => {
            text_in(Class::Name, left)
        }
        _ => None,
    }
}

/// The variables of the usages that are meant. The error: memory was refused.
fn variables(
    alloc: Global,
    current: &[u8],
    usages: &Usages,
    items: &[Item],
) -> Result<Items<Text>, Memory>
    ensures { IfOk result (λ made. made ≡ variables current.now usages.now items.now) }
{
    let mut made = Items::new(alloc);
    for item in items {
        if let Some(variable) = usage_in(current, usages, row_of(Kind::Assign, item)) {
            made.push(Text::from_slice(alloc, variable)?)?;
        }
    }
    Ok(made)
}

// ---- imports

fn arguments_of(item: &Item) -> &[Expr]
    ensures { result.now ≡ use_arguments item.now }
{
    match row_of(Kind::Bare, item) {
        [call, ..] => items_of(call),
        [] => &[],
    }
}

/// Whether the name comes first.
fn begins_with(variable: &[u8], arguments: &[Expr]) -> bool
    ensures { result ≡ begins_with_name variable.now arguments.now }
{
    match arguments {
        [first, ..] => is_text(variable, text_in(Class::Name, first)),
        [] => false,
    }
}

/// Whether an item is `use_repo(variable, ..)`.
fn is_use_of(variable: &[u8], item: &Item) -> bool
    ensures { result ≡ is_use_of variable.now item.now }
{
    match row_of(Kind::Bare, item) {
        [call] => calls(b"use_repo", call) && begins_with(variable, items_of(call)),
        _ => false,
    }
}

/// The same of one of the variables.
fn is_use(variables: &[Text], item: &Item) -> bool
    ensures { result ≡ is_use variables.now item.now }
{
    variables
        .iter()
        .any(|variable| is_use_of(variable.as_slice(), item))
}

/// One side of an import.
#[derive(Clone, Copy)]
enum Side<'a> {
    To(&'a [u8]),
    From(&'a [u8]),
}

/// Whether this is the side of what an argument imports.
fn has_side(side: Side<'_>, x: &Expr) -> bool
    ensures { result ≡ is_side side.entry x.now }
{
    match (both_names(Kind::Named, x), side) {
        (Some(found), Side::To(own)) => found.to == own,
        (Some(found), Side::From(repo)) => found.from == repo,
        (None, _) => false,
    }
}

fn any_has_side(side: Side<'_>, arguments: &[Expr]) -> bool
    ensures { result ≡ list_any (is_side side.entry) arguments.now }
{
    arguments.iter().any(|x| has_side(side, x))
}

/// Whether a call for one of the variables has an import with this side.
fn is_imported(side: Side<'_>, variables: &[Text], items: &[Item]) -> bool
    ensures { result ≡ is_imported (is_side side.entry) variables.now items.now }
{
    items.iter().any(|item| is_use(variables, item) && any_has_side(side, arguments_of(item)))
}

// ---- use_repo_add

/// What a word requests: to a name, from a repository.
fn word_import(repo: &Repo) -> Loaded<'_>
    ensures { symbol_of_key result ≡ word_import repo.now }
{
    match repo {
        Repo::Plain(repo) => Loaded {
            to: repo.as_slice(),
            from: repo.as_slice(),
        },
        Repo::Named { name, repo } => Loaded {
            to: name.as_slice(),
            from: repo.as_slice(),
        },
    }
}

fn ends_positional(x: &Expr) -> bool
    ensures { result ≡ ends_positional x.now }
{
    has_kind(Kind::Named, x) || has_kind(Kind::Star, x)
}

fn place_after_positional(arguments: &[Expr]) -> Option<usize>
    ensures { result ≡ position ends_positional arguments.now }
{
    arguments.iter().position(|x| ends_positional(x))
}

/// Puts an import among arguments: a string after the positional ones, `to = "from"` last.
#[tactic(auto, using(crate::proofs::ImportSteps::string_put))]
fn put_import(alloc: Global, word: Loaded<'_>, arguments: &mut Items<Expr>) -> Result<(), Memory>
    ensures { OnOk result (arguments.new ≡ with_import (symbol_of_key word.entry) arguments.old) }
{
    if word.to != word.from {
        arguments.push(assigned(alloc, Kind::Named, word)?)?;
        return Ok(());
    }
    let new = string(alloc, word.from)?;
    let mut all = mem::replace(arguments, Items::new(alloc)).into_vec();
    let at = place_after_positional(all.as_slice()).unwrap_or(all.len());
    all.insert(at, new)?;
    *arguments = Items::from_vec(all);
    Ok(())
}

/// What is done to the arguments of a call.
#[derive(Clone, Copy)]
enum Change<'a> {
    /// An import more.
    Put(Loaded<'a>),
    /// No import of these.
    Keep(&'a [Repo]),
}

fn change_arguments(
    alloc: Global,
    change: Change<'_>,
    arguments: &mut Items<Expr>,
) -> Result<(), Memory>
    ensures { OnOk result (arguments.new ≡ changed_imports change.entry arguments.old) }
{
    match change {
        Change::Put(word) => put_import(alloc, word, arguments),
        Change::Keep(repos) => {
            keep_others(repos, arguments);
            Ok(())
        }
    }
}

fn change_in_call(alloc: Global, change: Change<'_>, x: &mut Expr) -> Result<(), Memory>
    ensures { OnOk result (x.new ≡ on_items k.Call (changed_imports change.entry) x.old) }
{
    match x {
        Expr::Form(form) if form.kind == Kind::Call => {
            change_arguments(alloc, change, &mut form.seq.items)
        }
        _ => Ok(()),
    }
}

fn change_in_first(alloc: Global, change: Change<'_>, parts: &mut Items<Expr>) -> Result<(), Memory>
    ensures { OnOk result (parts.new ≡ on_first (on_items k.Call (changed_imports change.entry)) parts.old) }
{
    if let [call, ..] = parts.as_mut_slice() {
        change_in_call(alloc, change, call)?;
    }
    Ok(())
}

fn change_in_bare(alloc: Global, change: Change<'_>, x: &mut Expr) -> Result<(), Memory>
    ensures { OnOk result (x.new ≡ on_row k.Bare (on_first (on_items k.Call (changed_imports change.entry))) x.old) }
{
    match x {
        Expr::Form(form) if form.kind == Kind::Bare => {
            change_in_first(alloc, change, &mut form.parts)
        }
        _ => Ok(()),
    }
}

/// Changes the arguments of a statement that is a call.
fn change_call(alloc: Global, change: Change<'_>, item: &mut Item) -> Result<(), Memory>
    ensures { OnOk result (item.new ≡ on_call_arguments (changed_imports change.entry) item.old) }
{
    match item {
        Item::Stmt(x) => change_in_bare(alloc, change, x),
        Item::Block(_) => Ok(()),
    }
}

/// A row of one expression.
fn row(alloc: Global, x: Expr) -> Result<Items<Expr>, Memory>
    ensures { IfOk result (λ row. row ≡ x ∷ []) }
{
    Ok(Items::from_vec(Vec::from_array(alloc, [x])?))
}

/// `use_repo(variable, ..)` with one import.
fn call_made(alloc: Global, variable: &[u8], word: Loaded<'_>) -> Result<Item, Memory>
    ensures { IfOk result (λ item. item ≡ call_made variable.now (symbol_of_key word.entry)) }
{
    let mut arguments = row(alloc, new_token(alloc, Class::Name, variable)?)?;
    put_import(alloc, word, &mut arguments)?;
    let function = row(alloc, new_token(alloc, Class::Name, b"use_repo")?)?;
    let call = row(alloc, sequence(alloc, Kind::Call, function, arguments))?;
    Ok(Item::Stmt(node(alloc, Kind::Bare, call)))
}

/// Whether an item is `variable.TAG(..)`.
fn is_tag_of(variable: &[u8], item: &Item) -> bool
    ensures { result ≡ is_tag_of variable.now item.now }
{
    match call_of(item) {
        Some(call) => {
            has_kind(Kind::Dot, call.function) && first_text(parts_of(call.function)) == variable
        }
        None => false,
    }
}

/// Whether an item is `variable = ..`, or one of its tags.
fn is_statement_of(variable: &[u8], item: &Item) -> bool
    ensures { result ≡ is_statement_of variable.now item.now }
{
    assigns(variable, row_of(Kind::Assign, item)) || is_tag_of(variable, item)
}

/// What is sought among the items.
#[derive(Clone, Copy)]
enum Sought {
    /// A call for the variable.
    Use,
    /// A statement of the variable.
    Statement,
}

fn is_sought(sought: Sought, variable: &[u8], item: &Item) -> bool
    ensures { result ≡ is_sought_import sought variable.now item.now }
{
    match sought {
        Sought::Use => is_use_of(variable, item),
        Sought::Statement => is_statement_of(variable, item),
    }
}

/// The place of the last item that is sought.
#[tactic(auto, using(crate::proofs::ImportSteps::none_before))]
fn last_sought(sought: Sought, variable: &[u8], items: &[Item]) -> Option<usize>
    ensures { IsLast (is_sought_import sought variable.now) items.now result }
{
    let mut end = items.len();
    while end > 0 {
        if is_sought(sought, variable, &items[end - 1]) {
            return Some(end - 1);
        }
        end -= 1;
    }
    None
}

/// The items with an import in the last call for the variable; without one in a new call after its last statement. The error: memory
/// was refused; the items are then lost.
#[tactic(auto, using(crate::proofs::ImportSteps::last_within, crate::proofs::ImportSteps::into_call, crate::proofs::ImportSteps::below_last, crate::proofs::ImportSteps::neither))]
fn with_repo(
    alloc: Global,
    variable: &[u8],
    word: Loaded<'_>,
    mut items: Items<Item>,
) -> Result<Items<Item>, Memory>
    ensures { IfOk result (λ new. new ≡ with_repo variable.now (symbol_of_key word.entry) items) }
{
    if let Some(at) = last_sought(Sought::Use, variable, items.as_slice()) {
        change_call(alloc, Change::Put(word), items.at_mut(at))?;
        return Ok(items);
    }
    let Some(at) = last_sought(Sought::Statement, variable, items.as_slice()) else {
        return Ok(items);
    };
    let call = call_made(alloc, variable, word)?;
    let mut all = items.into_vec();
    all.insert(at + 1, call)?;
    Ok(Items::from_vec(all))
}

/// The items with each repository that no call for one of the variables imports yet, one after the other.
fn repos_added(
    alloc: Global,
    variables: &[Text],
    variable: &[u8],
    repos: &[Repo],
    mut items: Items<Item>,
) -> Result<Items<Item>, Refusal>
    ensures ok { IfOk result (λ new. repos_added variables.now variable.now repos.now items ≡ Ok new) }
    ensures err { IfErr result (λ refusal. (repos_added variables.now variable.now repos.now items ≡ Err refusal) ⊎ (refusal ≡ Refusal.Memory)) }
{
    for repo in repos {
        let word = word_import(repo);
        if is_imported(Side::From(word.from), variables, items.as_slice()) {
            continue;
        }
        if is_imported(Side::To(word.to), variables, items.as_slice()) {
            return Err(Refusal::NameTaken);
        }
        items = with_repo(alloc, variable, word, items)?;
    }
    Ok(items)
}

/// A copy of the items in which the repositories are imported from the usages that are meant: those that no call of `use_repo` for
/// one of them imports go into the last one for the first variable, or into a new one. `current` is the path of the file's package.
/// Errors: `NoSource`: no usage is meant; `NameTaken`: another repository is imported under the name; `Memory`: memory was refused.
pub fn use_repo_add(
    alloc: Global,
    current: &[u8],
    usages: &Usages,
    repos: &[Repo],
    items: &[Item],
) -> Result<Items<Item>, Refusal>
    ensures ok { IfOk result (λ new. use_repo_add current.now usages.now repos.now items.now ≡ Ok new) }
    ensures err { IfErr result (λ refusal. (use_repo_add current.now usages.now repos.now items.now ≡ Err refusal) ⊎ (refusal ≡ Refusal.Memory)) }
{
    let variables = variables(alloc, current, usages, items)?;
    let [variable, ..] = variables.as_slice() else {
        return Err(Refusal::NoSource);
    };
    let copied = Items::from_vec(copies(alloc, items)?);
    let new = repos_added(
        alloc,
        variables.as_slice(),
        variable.as_slice(),
        repos,
        copied,
    )?;
    Ok(new)
}

// ---- use_repo_remove

/// Whether an import is that of a word.
fn is_repo(found: Loaded<'_>, repo: &Repo) -> bool
    ensures { result ≡ is_repo (symbol_of_key found.entry) repo.now }
{
    match repo {
        Repo::Plain(repo) => found.from == repo.as_slice(),
        Repo::Named { name, repo } => {
            found.to == name.as_slice() && found.from == repo.as_slice()
        }
    }
}

fn is_some_repo(found: Loaded<'_>, repos: &[Repo]) -> bool
    ensures { result ≡ list_any (is_repo (symbol_of_key found.entry)) repos.now }
{
    repos.iter().any(|repo| is_repo(found, repo))
}

/// Whether an argument imports none of the repositories.
fn argument_stays(repos: &[Repo], x: &Expr) -> bool
    ensures { result ≡ argument_stays repos.now x.now }
{
    match both_names(Kind::Named, x) {
        Some(found) => !is_some_repo(found, repos),
        None => true,
    }
}

fn any_stays(repos: &[Repo], arguments: &[Expr]) -> bool
    ensures { result ≡ list_any (argument_stays repos.now) arguments.now }
{
    arguments.iter().any(|x| argument_stays(repos, x))
}

/// The arguments that import none of the repositories stay.
fn keep_others(repos: &[Repo], arguments: &mut Items<Expr>)
    ensures { arguments.new ≡ filter (argument_stays repos.now) arguments.old }
{
    let alloc = arguments.alloc();
    let mut all = mem::replace(arguments, Items::new(alloc)).into_vec();
    all.retain(|x| argument_stays(repos, x));
    *arguments = Items::from_vec(all);
}

/// Whether an item is a call that loses its last repository.
fn loses_last(variables: &[Text], repos: &[Repo], item: &Item) -> bool
    ensures { result ≡ loses_last variables.now repos.now item.now }
{
    match arguments_of(item) {
        [_, imports @ ..] if is_use(variables, item) => {
            !imports.is_empty() && !any_stays(repos, imports)
        }
        _ => false,
    }
}

/// A call for one of the variables loses its imports of these repositories.
fn drop_repos(
    alloc: Global,
    variables: &[Text],
    repos: &[Repo],
    item: &mut Item,
) -> Result<(), Memory>
    ensures { OnOk result (item.new ≡ without_repos variables.now repos.now item.old) }
{
    if !is_use(variables, item) {
        return Ok(());
    }
    change_call(alloc, Change::Keep(repos), item)
}

/// A copy of the items without the imports of these repositories; a call that loses its last one goes. The error: memory was refused.
fn repos_removed(
    alloc: Global,
    variables: &[Text],
    repos: &[Repo],
    items: &[Item],
) -> Result<Items<Item>, Memory>
    ensures { IfOk result (λ new. new ≡ repos_removed variables.now repos.now items.now) }
{
    let mut all = copies(alloc, items)?;
    all.retain(|item| !loses_last(variables, repos, item));
    for item in all.iter_mut() {
        drop_repos(alloc, variables, repos, item)?;
    }
    Ok(Items::from_vec(all))
}

/// A copy of the items in which the calls of `use_repo` for the usages that are meant import none of the repositories; a call that
/// loses its last one goes. Errors: `NoSource`: no usage is meant; `Memory`: memory was refused.
pub fn use_repo_remove(
    alloc: Global,
    current: &[u8],
    usages: &Usages,
    repos: &[Repo],
    items: &[Item],
) -> Result<Items<Item>, Refusal>
    ensures ok { IfOk result (λ new. use_repo_remove current.now usages.now repos.now items.now ≡ Ok new) }
    ensures err { IfErr result (λ refusal. (use_repo_remove current.now usages.now repos.now items.now ≡ Err refusal) ⊎ (refusal ≡ Refusal.Memory)) }
{
    let variables = variables(alloc, current, usages, items)?;
    let [_, ..] = variables.as_slice() else {
        return Err(Refusal::NoSource);
    };
    let new = repos_removed(alloc, variables.as_slice(), repos, items)?;
    Ok(new)
}
