//! Hosts among the arguments of a rule: an attribute, or an item of its lists, found, and its comments changed and printed.
ghost use Rattle.std.specs.Prelude.{◌≡◌, ◌⊎◌, ◌++◌, Ok, Err, IfOk, OnOk, IfErr};
ghost use Rattle.std.specs.List.{find, flat_map, position};
ghost use Rattle.std.specs.Option.{option_copied};
ghost use Rattle.bz_grammar.specs.declared.kind.Kind.TheVariants as kinds;
ghost use Rattle.bz_command_syntax.specs.declared.command.Selects.TheVariants.{Entered, Skipped};
ghost use Rattle.bz_comment.specs.Words.{on_first, on_items, on_first_that, items_in, listed};
ghost use Rattle.bz_comment.specs.Changes.{changed_by, changed_comments, is_sought, printed_as, selects_of};
ghost use Rattle.bz_comment.specs.Hosts.{branch_items, comment_line, comment_text as text_of, found_comments, has_branch_item, has_item, items_at, on_branch, on_first_at, on_first_branch, on_first_item, on_first_listed, on_first_operand, print_comment, printed_comments};

use crate::changing::{Change, change_own};
use bz_attribute::{
    entries_of, has_kind, has_lists, is_attribute, is_item, is_select, items_of, operands_in,
    operands_of, set_value, take_value,
};
use bz_command_syntax::{Host, Selects};
use bz_grammar::Kind;
use bz_items::{Items, Memory, Text};
use bz_value::{Comments, Expr, Refusal};
use std::alloc::Global;

/// A host that is sought, in the current package.
#[derive(Clone, Copy)]
pub(crate) struct Sought<'a> {
    pub(crate) current: &'a [u8],
    pub(crate) host: &'a Host,
}

/// Whether an argument, or an item of the attribute's lists, is the host.
fn is_sought(sought: Sought<'_>, x: &Expr) -> bool
    ensures { result ≡ is_sought sought.entry x.now }
{
    match sought.host {
        Host::Rule => false,
        Host::Attribute(name) => is_attribute(name.as_slice(), x),
        Host::Item {
            attribute,
            value,
            ..
        } => { is_item(sought.current, attribute.as_slice(), value.as_slice(), x) }
    }
}

/// Whether the branches of a `select` are looked at for the host.
fn selects_of(host: &Host) -> Selects
    ensures { result ≡ selects_of host.now }
{
    match host {
        Host::Rule | Host::Attribute(_) => Selects::Skipped,
        Host::Item { selects, .. } => *selects,
    }
}

/// The first of the expressions that is the host.
fn first_in<'a>(sought: Sought<'_>, exprs: &'a [Expr]) -> Option<&'a Expr>
    ensures { option_copied result ≡ find (is_sought sought.entry) exprs.now }
{
    exprs.iter().find(|x| is_sought(sought, x))
}

/// Where that is.
fn place_in(sought: Sought<'_>, exprs: &[Expr]) -> Option<usize>
    ensures { result ≡ position (is_sought sought.entry) exprs.now }
{
    exprs.iter().position(|x| is_sought(sought, x))
}

/// The first item of a list that is the host; any other expression has none.
fn first_in_list<'a>(sought: Sought<'_>, x: &'a Expr) -> Option<&'a Expr>
    ensures { option_copied result ≡ find (is_sought sought.entry) (listed x.now) }
{
    if !has_kind(Kind::List, x) {
        return None;
    }
    first_in(sought, items_of(x))
}

/// The first item of the lists among these expressions that is the host.
fn first_in_lists<'a>(sought: Sought<'_>, operands: &'a [Expr]) -> Option<&'a Expr>
    ensures { option_copied result ≡ find (is_sought sought.entry) (flat_map listed operands.now) }
{
    for x in operands {
        if let Some(found) = first_in_list(sought, x) {
            return Some(found);
        }
    }
    None
}

/// The first item of the lists of a branch that is the host.
fn first_in_branch<'a>(sought: Sought<'_>, entry: &'a Expr) -> Option<&'a Expr>
    ensures { option_copied result ≡ find (is_sought sought.entry) (branch_items entry.now) }
{
    first_in_lists(sought, operands_in(entry))
}

/// The first item of the lists of these branches that is the host.
fn first_in_branches<'a>(sought: Sought<'_>, entries: &'a [Expr]) -> Option<&'a Expr>
    ensures { option_copied result ≡ find (is_sought sought.entry) (flat_map branch_items entries.now) }
{
    for entry in entries {
        if let Some(found) = first_in_branch(sought, entry) {
            return Some(found);
        }
    }
    None
}

/// The first item that is the host, of a list, or of the branches of a `select`.
#[tactic(auto, using(crate::proofs::HostForms::sought_listed, crate::proofs::HostForms::sought_in_branches))]
fn first_entered<'a>(sought: Sought<'_>, x: &'a Expr) -> Option<&'a Expr>
    ensures { option_copied result ≡ find (is_sought sought.entry) (items_at Entered x.now) }
{
    if let Some(found) = first_in_list(sought, x) {
        return Some(found);
    }
    first_in_branches(sought, entries_of(x))
}

/// The same, where the branches are looked at for the host; else of a list alone.
fn first_at<'a>(sought: Sought<'_>, x: &'a Expr) -> Option<&'a Expr>
    ensures { option_copied result ≡ find (is_sought sought.entry) (items_at (selects_of sought.entry.host.now) x.now) }
{
    match selects_of(sought.host) {
        Selects::Skipped => first_in_list(sought, x),
        Selects::Entered => first_entered(sought, x),
    }
}

/// The first item of a value's lists that is the host.
fn first_in_value<'a>(sought: Sought<'_>, value: &'a Expr) -> Option<&'a Expr>
    ensures { option_copied result ≡ find (is_sought sought.entry) (items_in (selects_of sought.entry.host.now) value.now) }
{
    for x in operands_of(value) {
        if let Some(found) = first_at(sought, x) {
            return Some(found);
        }
    }
    None
}

/// Whether one of these is the host: the items of a list, or of the branches of a `select` that is entered.
fn has_item(sought: Sought<'_>, x: &Expr) -> bool
    ensures { result ≡ has_item (selects_of sought.entry.host.now) (is_sought sought.entry) x.now }
{
    first_at(sought, x).is_some()
}

/// Where the first operand is that has such an item.
fn place_of_operand(sought: Sought<'_>, operands: &[Expr]) -> Option<usize>
    ensures { result ≡ position (has_item (selects_of sought.entry.host.now) (is_sought sought.entry)) operands.now }
{
    operands.iter().position(|x| has_item(sought, x))
}

/// Whether an item of a list is the host.
fn is_in_list(sought: Sought<'_>, x: &Expr) -> bool
    ensures { result ≡ has_item Skipped (is_sought sought.entry) x.now }
{
    first_in_list(sought, x).is_some()
}

/// Where the first list is with such an item.
fn place_of_list(sought: Sought<'_>, operands: &[Expr]) -> Option<usize>
    ensures { result ≡ position (has_item Skipped (is_sought sought.entry)) operands.now }
{
    operands.iter().position(|x| is_in_list(sought, x))
}

/// Whether an item of the lists of a branch is the host.
fn is_in_branch(sought: Sought<'_>, entry: &Expr) -> bool
    ensures { result ≡ has_branch_item (is_sought sought.entry) entry.now }
{
    first_in_branch(sought, entry).is_some()
}

/// Where the first branch is with such an item.
fn place_of_branch(sought: Sought<'_>, entries: &[Expr]) -> Option<usize>
    ensures { result ≡ position (has_branch_item (is_sought sought.entry)) entries.now }
{
    entries.iter().position(|entry| is_in_branch(sought, entry))
}

/// The comments of what was found.
fn comments_of(found: Option<&Expr>) -> Result<&Comments, Refusal>
    ensures { printed_as result ≡ found_comments (option_copied found.entry) }
{
    match found {
        Some(x) => Ok(x.comments()),
        None => Err(Refusal::NoAttribute),
    }
}

/// The comments of the host; `own` are those of the rule itself.
fn comments_at<'a>(
    sought: Sought<'_>,
    own: &'a Comments,
    arguments: &'a [Expr],
) -> Result<&'a Comments, Refusal>
    ensures { printed_as result ≡ print_comment sought.entry.current.now sought.entry.host.now own.now arguments.now }
{
    match sought.host {
        Host::Rule => Ok(own),
        Host::Attribute(_) => comments_of(first_in(sought, arguments)),
        Host::Item { attribute, .. } => match bz_rule::attribute(attribute.as_slice(), arguments) {
            Some(value) if has_lists(selects_of(sought.host), value) => {
                comments_of(first_in_value(sought, value))
            }
            Some(_) => Err(Refusal::NotAList),
            None => Err(Refusal::NoAttribute),
        },
    }
}

impl Change<'_> {
    /// Changes the comments of the first of the expressions that is the host.
    #[tactic(auto, using(crate::proofs::HostForms::changed_there, crate::proofs::HostForms::changed_nowhere))]
    fn on_first(self, sought: Sought<'_>, exprs: &mut Items<Expr>) -> Result<(), Memory>
        ensures { OnOk result (exprs.new ≡ on_first_that (is_sought sought.entry) (changed_by self.entry) exprs.old) }
    {
        if let Some(at) = place_in(sought, exprs.as_slice()) {
            let alloc = exprs.alloc();
            change_own(alloc, self, exprs.at_mut(at))?;
        }
        Ok(())
    }

    /// The same of the items of a list; any other expression stays.
    fn on_list(self, sought: Sought<'_>, x: &mut Expr) -> Result<(), Memory>
        ensures { OnOk result (x.new ≡ on_first_listed (is_sought sought.entry) (changed_by self.entry) x.old) }
    {
        match x {
            Expr::Form(form) if form.kind == Kind::List => {
                self.on_first(sought, &mut form.seq.items)
            }
            _ => Ok(()),
        }
    }

    /// The same of the first of the operands that is a list with the host.
    #[tactic(auto, using(crate::proofs::HostForms::changed_there))]
    fn on_first_list(self, sought: Sought<'_>, operands: &mut Items<Expr>) -> Result<(), Memory>
        ensures { OnOk result (operands.new ≡ on_first_that (has_item Skipped (is_sought sought.entry)) (on_first_listed (is_sought sought.entry) (changed_by self.entry)) operands.old) }
    {
        if let Some(at) = place_of_list(sought, operands.as_slice()) {
            self.on_list(sought, operands.at_mut(at))?;
        }
        Ok(())
    }

    /// The same of the lists of a value; no `select` is entered.
    fn on_lists(self, sought: Sought<'_>, value: &mut Expr) -> Result<(), Memory>
        ensures { OnOk result (value.new ≡ on_first_operand (has_item Skipped (is_sought sought.entry)) (on_first_listed (is_sought sought.entry) (changed_by self.entry)) value.old) }
    {
        match value {
            Expr::Form(form) if form.kind == Kind::Sum => {
                self.on_first_list(sought, &mut form.parts)
            }
            _ => self.on_list(sought, value),
        }
    }

    /// The same of the value of an entry; any other expression stays.
    fn on_branch(self, sought: Sought<'_>, entry: &mut Expr) -> Result<(), Memory>
        ensures { OnOk result (entry.new ≡ on_branch (is_sought sought.entry) (changed_by self.entry) entry.old) }
    {
        if !has_kind(Kind::Entry, entry) {
            return Ok(());
        }
        if let Expr::Form(form) = entry {
            if let [_, _, value, ..] = form.parts.as_mut_slice() {
                self.on_lists(sought, value)?;
            }
        }
        Ok(())
    }

    /// The same of the first of the entries that has the host in its value.
    #[tactic(auto, using(crate::proofs::HostForms::changed_there))]
    fn on_first_entry(self, sought: Sought<'_>, entries: &mut Items<Expr>) -> Result<(), Memory>
        ensures { OnOk result (entries.new ≡ on_first_that (has_branch_item (is_sought sought.entry)) (on_branch (is_sought sought.entry) (changed_by self.entry)) entries.old) }
    {
        if let Some(at) = place_of_branch(sought, entries.as_slice()) {
            self.on_branch(sought, entries.at_mut(at))?;
        }
        Ok(())
    }

    /// The same of a dict; any other expression stays.
    fn on_dict(self, sought: Sought<'_>, x: &mut Expr) -> Result<(), Memory>
        ensures { OnOk result (x.new ≡ on_items kinds.Dict (on_first_that (has_branch_item (is_sought sought.entry)) (on_branch (is_sought sought.entry) (changed_by self.entry))) x.old) }
    {
        match x {
            Expr::Form(form) if form.kind == Kind::Dict => {
                self.on_first_entry(sought, &mut form.seq.items)
            }
            _ => Ok(()),
        }
    }

    /// The same of the dict that the first of these items is.
    fn on_first_dict(self, sought: Sought<'_>, items: &mut Items<Expr>) -> Result<(), Memory>
        ensures { OnOk result (items.new ≡ on_first (on_items kinds.Dict (on_first_that (has_branch_item (is_sought sought.entry)) (on_branch (is_sought sought.entry) (changed_by self.entry)))) items.old) }
    {
        if let [dict, ..] = items.as_mut_slice() {
            self.on_dict(sought, dict)?;
        }
        Ok(())
    }

    /// The same of a call with such a dict; any other expression stays.
    fn on_call(self, sought: Sought<'_>, x: &mut Expr) -> Result<(), Memory>
        ensures { OnOk result (x.new ≡ on_first_branch (is_sought sought.entry) (changed_by self.entry) x.old) }
    {
        match x {
            Expr::Form(form) if form.kind == Kind::Call => {
                self.on_first_dict(sought, &mut form.seq.items)
            }
            _ => Ok(()),
        }
    }

    /// The same of a list, or of a `select`.
    fn on_entered(self, sought: Sought<'_>, x: &mut Expr) -> Result<(), Memory>
        ensures { OnOk result (x.new ≡ on_first_at Entered (is_sought sought.entry) (changed_by self.entry) x.old) }
    {
        if is_select(x) {
            return self.on_call(sought, x);
        }
        self.on_list(sought, x)
    }

    /// The same, where the branches are looked at for the host; else of a list alone.
    fn on_operand(self, sought: Sought<'_>, x: &mut Expr) -> Result<(), Memory>
        ensures { OnOk result (x.new ≡ on_first_at (selects_of sought.entry.host.now) (is_sought sought.entry) (changed_by self.entry) x.old) }
    {
        match selects_of(sought.host) {
            Selects::Skipped => self.on_list(sought, x),
            Selects::Entered => self.on_entered(sought, x),
        }
    }

    /// The same of the first of the operands that has the host.
    #[tactic(auto, using(crate::proofs::HostForms::changed_there))]
    fn on_first_operand(self, sought: Sought<'_>, operands: &mut Items<Expr>) -> Result<(), Memory>
        ensures { OnOk result (operands.new ≡ on_first_that (has_item (selects_of sought.entry.host.now) (is_sought sought.entry)) (on_first_at (selects_of sought.entry.host.now) (is_sought sought.entry) (changed_by self.entry)) operands.old) }
    {
        if let Some(at) = place_of_operand(sought, operands.as_slice()) {
            self.on_operand(sought, operands.at_mut(at))?;
        }
        Ok(())
    }

    /// Changes the comments of the first item of a value's lists that is the host.
    fn on_value(self, sought: Sought<'_>, value: &mut Expr) -> Result<(), Memory>
        ensures { OnOk result (value.new ≡ on_first_item (selects_of sought.entry.host.now) (is_sought sought.entry) (changed_by self.entry) value.old) }
    {
        if !has_kind(Kind::Sum, value) {
            return self.on_operand(sought, value);
        }
        if let Expr::Form(form) = value {
            self.on_first_operand(sought, &mut form.parts)?;
        }
        Ok(())
    }
}

/// Changes the comments of a host among the arguments of a rule, of which `own` are the comments.
fn change_host(
    alloc: Global,
    sought: Sought<'_>,
    own: &Comments,
    change: Change<'_>,
    arguments: &mut Items<Expr>,
) -> Result<(), Refusal>
    ensures ok { OnOk result (changed_comments change.entry sought.entry.current.now sought.entry.host.now arguments.old ≡ Ok arguments.new) }
    ensures err { IfErr result (λ refusal. (changed_comments change.entry sought.entry.current.now sought.entry.host.now arguments.old ≡ Err refusal) ⊎ (refusal ≡ Refusal.Memory)) }
{
    comments_at(sought, own, arguments.as_slice())?;
    match sought.host {
        Host::Rule => Ok(()),
        Host::Attribute(_) => Ok(change.on_first(sought, arguments)?),
        Host::Item { attribute, .. } => {
            let name = attribute.as_slice();
            let Some(mut value) = take_value(alloc, name, arguments) else {
                return Err(Refusal::NoAttribute);
            };
            if let Err(_) = change.on_value(sought, &mut value) {
                drop(value);
                return Err(Refusal::Memory);
            }
            set_value(name, value, arguments);
            Ok(())
        }
    }
}

/// Changes the comments of a host among the arguments of a rule; the rule itself is no part of them. The errors: the attribute isn't
/// there, or no item of its lists is the value (`NoAttribute`); it has no list, also none in the branches of a `select` that is entered
/// (`NotAList`); memory was refused, and part of the arguments may be lost.
pub fn change_comments(
    alloc: Global,
    current: &[u8],
    host: &Host,
    change: Change<'_>,
    arguments: &mut Items<Expr>,
) -> Result<(), Refusal>
    ensures ok { OnOk result (changed_comments change.entry current.now host.now arguments.old ≡ Ok arguments.new) }
    ensures err { IfErr result (λ refusal. (changed_comments change.entry current.now host.now arguments.old ≡ Err refusal) ⊎ (refusal ≡ Refusal.Memory)) }
{
    let own = Comments::empty();
    let changed = change_host(alloc, Sought { current, host }, &own, change, arguments);
    drop(own);
    changed
}

/// A comment without its mark, and without one space after it.
fn comment_text(comment: &[u8]) -> &[u8]
    ensures { result.now ≡ text_of comment.now }
{
    match comment {
        [_, b' ', rest @ ..] => rest,
        [_, rest @ ..] => rest,
        [] => &[],
    }
}

/// Appends the line of a comment. The error: memory was refused.
fn push_line(comment: &[u8], text: &mut Vec<u8>) -> Result<(), Memory>
    ensures { OnOk result (text.new.items ≡ text.old.items ++ comment_line comment.now) }
{
    text.extend_from_slice(comment_text(comment))?;
    text.push(b'\n')?;
    Ok(())
}

/// The lines of all comments. The error: memory was refused.
fn printed(alloc: Global, comments: &Comments) -> Result<Text, Memory>
    ensures { IfOk result (λ text. text ≡ printed_comments comments.now) }
{
    let mut text = Vec::new(alloc);
    for comment in comments.before() {
        push_line(comment.as_slice(), &mut text)?;
    }
    if let Some(comment) = comments.suffix() {
        push_line(comment.as_slice(), &mut text)?;
    }
    Ok(Text::from_vec(text))
}

/// The comments of a host, one a line: those above, then the one on the last line; `own` are those of the rule itself. The
/// errors: the attribute isn't there, or no item of its lists is the value (`NoAttribute`); it has no list, also none in the
/// branches of a `select` that is entered (`NotAList`); memory was refused.
pub fn print_comments(
    alloc: Global,
    current: &[u8],
    host: &Host,
    own: &Comments,
    arguments: &[Expr],
) -> Result<Text, Refusal>
    ensures ok { IfOk result (λ text. print_comment current.now host.now own.now arguments.now ≡ Ok text) }
    ensures err { IfErr result (λ refusal. (print_comment current.now host.now own.now arguments.now ≡ Err refusal) ⊎ (refusal ≡ Refusal.Memory)) }
{
    let comments = comments_at(Sought { current, host }, own, arguments)?;
    Ok(printed(alloc, comments)?)
}
