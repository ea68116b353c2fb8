//! The effect of a command on a file value.
ghost use Rattle.std.specs.Prelude.{◌≡◌, ◌⊎◌, ◌↔◌, [], false, None, Ok, Err, IfOk, IfErr, IfSome, IsTrue, OnOk};
ghost use Rattle.std.specs.Option.{unwrap_or};
ghost use Rattle.bz_command.specs.Words.{HaveSameNames, IsIndexOf, AreOver};
ghost use Rattle.bz_command.specs.Effect.{effect, looks_at_rules, printed};
ghost use Rattle.bz_command.specs.Known.{IsKnownOf};
ghost use Rattle.bz_command.specs.private.Looks.{IsChange, IsLook, effect_by, printed_for};

use crate::laws::effects_stay_proper;
use crate::outcome::{Outcome, Ran};
use crate::printing::print_rules;
use crate::ruling::{Work, on_rules};
use crate::targets::{is_any, meant};
use bz_command_syntax::{Command, Operation, RuleOperation};
use bz_items::{Items, Text};
use bz_label::{Target, Which};
use bz_load::LoadedPaths;
use bz_rule::{Names, take_apart};
use bz_value::{File, Item, Refusal};
use std::alloc::Global;
use std::mem;

/// What was looked up in a file before a command.
#[derive(Clone, Copy)]
pub struct Known<'a> {
    /// The lines on which its statements begin, from 1.
    pub lines: &'a [u32],
    /// The index of the names of its rules: with it a target that is a name is not sought among the items.
    pub names: Option<&'a Names>,
    /// The hashes of the names of its items, in their order: with them a new rule goes beside another with few looks at items.
    pub hashes: Option<&'a [u64]>,
    /// The paths from which it loads: with them a load from another one is not sought.
    pub paths: Option<&'a LoadedPaths>,
}

/// What is known of a command on a file before anything changes.
#[derive(Drop)]
enum Look {
    /// The items stay, and this is printed.
    Stays(Text),
    /// The items may change, and nothing is printed. Of a command on rules: the places of those that it is meant for.
    Changes(Vec<usize>),
}

/// Whether an operation is meant for rules.
fn looks_at_rules(operation: &Operation) -> bool
    ensures { result ≡ looks_at_rules operation.now }
{
    match operation {
        Operation::Rule(RuleOperation::New { .. }) | Operation::Load(_) => false,
        _ => true,
    }
}

/// Looks at a file before a command changes it; there may be an index of the names of its rules.
fn look_at(work: Work<'_, '_>, names: Option<&Names>, items: &[Item]) -> Result<Look, Refusal>
    requires { IfSome names (λ index. IsIndexOf index.now items.now) }
    ensures ok { IfOk result (IsLook work.entry items.now) }
    ensures err { IfErr result (λ refusal. (effect_by work.entry items.now ≡ Err refusal) ⊎ (refusal ≡ Refusal.Memory)) }
{
    let command = work.command;
    let which = &work.target.which;
    if !looks_at_rules(&command.operation) {
        return Ok(Look::Changes(Vec::new(work.alloc)));
    }
    let places = meant(work.alloc, which, work.lines, names, items)?;
    if !is_any(places.as_slice()) {
        return match which {
            Which::All | Which::Kind(_) => Ok(Look::Stays(Text::from_vec(Vec::new(work.alloc)))),
            Which::Line(_) | Which::Package | Which::Name(_) => Err(Refusal::NoTarget),
        };
    }
    if command.prints() {
        return Ok(Look::Stays(print_rules(work, places.as_slice(), items)?));
    }
    Ok(Look::Changes(places))
}

/// What a command that prints nothing makes of a file, of which more may be known; of a command on rules, of those at the places.
fn change(
    work: Work<'_, '_>,
    known: Known<'_>,
    places: &[usize],
    file: &mut File,
) -> Result<Ran, Refusal>
    requires change { IsChange work file.old places.now }
    requires known { IsKnownOf known file.old }
    ensures ok { OnOk result (effect_by work.entry file.old ≡ Ok file.new) }
    ensures printed { IfOk result (λ ran. printed_for work.entry file.old ≡ Ok ran.printed) }
    ensures windows { IfOk result (λ ran. AreOver ran.windows file.old file.new) }
    ensures same { IfOk result (λ ran. (ran.windows ≡ []) ↔ (file.new ≡ file.old)) }
    ensures names { IfOk result (λ ran. IsTrue ran.same_names → HaveSameNames file.old file.new) }
    ensures err { IfErr result (λ refusal. (effect_by work.entry file.old ≡ Err refusal) ⊎ (refusal ≡ Refusal.Memory)) }
{
    effects_stay_proper();
    // What is read of the command, so that its words are known to be proper.
    let command = work.command;
    let _ = &command.operation;
    let before = mem::replace(&mut file.items, Items::new(work.alloc));
    let changed = on_rules(work, known, places, before)?;
    file.items = changed.items;
    Ok(Ran {
        windows: changed.windows,
        same_names: changed.same_names,
        printed: Text::from_vec(Vec::new(work.alloc)),
    })
}

/// The effect of a command on the rules that the target means, on a file in place, where its items differ then, and whether each is known to
/// have the name that it had.
/// `current` is the path of the file's package.
/// Errors: the effect's refusal; `Memory`: a growth was refused. After an error the file may have lost its items.
pub fn run_in(
    alloc: Global,
    command: &Command,
    target: &Target,
    current: &[u8],
    known: Known<'_>,
    file: &mut File,
) -> Result<Ran, Refusal>
    requires { IsKnownOf known file.old }
    ensures ok { OnOk result (effect command.now target.now current.now known.entry.lines.now file.old ≡ Ok file.new) }
    ensures printed { IfOk result (λ ran. printed command.now target.now current.now known.entry.lines.now file.old ≡ Ok ran.printed) }
    ensures windows { IfOk result (λ ran. AreOver ran.windows file.old file.new) }
    ensures same { IfOk result (λ ran. (ran.windows ≡ []) ↔ (file.new ≡ file.old)) }
    ensures names { IfOk result (λ ran. IsTrue ran.same_names → HaveSameNames file.old file.new) }
    ensures err { IfErr result (λ refusal. (effect command.now target.now current.now known.entry.lines.now file.old ≡ Err refusal) ⊎ (refusal ≡ Refusal.Memory)) }
{
    let work = Work::new(alloc, command, target, current, known.lines);
    match look_at(work, known.names, file.items.as_slice())? {
        Look::Stays(printed) => Ok(Ran {
            windows: Items::new(alloc),
            same_names: true,
            printed,
        }),
        Look::Changes(places) => change(work, known, places.as_slice(), file),
    }
}

/// The effect of a command on the rules that the target means, on a copy of the file where it may change.
/// `current` is the path of the file's package, `lines` the lines on which its statements begin, from 1. The outcome holds no
/// file exactly where the effect is the same value, and what is printed of the rules where the command prints.
/// Errors: the effect's refusal; `Memory`: a growth was refused.
pub fn run(
    alloc: Global,
    command: &Command,
    target: &Target,
    current: &[u8],
    lines: &[u32],
    file: &File,
) -> Result<Outcome, Refusal>
    ensures ok { IfOk result (λ outcome. effect command.now target.now current.now lines.now file.now ≡ Ok (unwrap_or outcome.file file.now)) }
    ensures unchanged { IfOk result (λ outcome. (outcome.file ≡ None) ↔ (effect command.now target.now current.now lines.now file.now ≡ Ok file.now)) }
    ensures printed { IfOk result (λ outcome. printed command.now target.now current.now lines.now file.now ≡ Ok outcome.printed) }
    ensures err { IfErr result (λ refusal. (effect command.now target.now current.now lines.now file.now ≡ Err refusal) ⊎ (refusal ≡ Refusal.Memory)) }
{
    let known = Known {
        lines,
        names: None,
        hashes: None,
        paths: None,
    };
    run_named(alloc, command, target, current, known, file)
}

/// The same of a file in which more than the lines may be looked up.
pub fn run_named(
    alloc: Global,
    command: &Command,
    target: &Target,
    current: &[u8],
    known: Known<'_>,
    file: &File,
) -> Result<Outcome, Refusal>
    requires { IsKnownOf known file.now }
    ensures ok { IfOk result (λ outcome. effect command.now target.now current.now known.entry.lines.now file.now ≡ Ok (unwrap_or outcome.file file.now)) }
    ensures unchanged { IfOk result (λ outcome. (outcome.file ≡ None) ↔ (effect command.now target.now current.now known.entry.lines.now file.now ≡ Ok file.now)) }
    ensures printed { IfOk result (λ outcome. printed command.now target.now current.now known.entry.lines.now file.now ≡ Ok outcome.printed) }
    ensures err { IfErr result (λ refusal. (effect command.now target.now current.now known.entry.lines.now file.now ≡ Err refusal) ⊎ (refusal ≡ Refusal.Memory)) }
{
    let work = Work::new(alloc, command, target, current, known.lines);
    let places = match look_at(work, known.names, file.items.as_slice())? {
        Look::Stays(printed) => {
            return Ok(Outcome {
                file: None,
                printed,
            });
        }
        Look::Changes(places) => places,
    };
    let mut new = file.copy()?;
    let Ran {
        windows,
        same_names: _,
        printed,
    } = change(work, known, places.as_slice(), &mut new)?;
    if windows.is_empty() {
        take_apart(new);
        return Ok(Outcome {
            file: None,
            printed,
        });
    }
    Ok(Outcome {
        file: Some(new),
        printed,
    })
}
