//! What a command makes of the value of a tree.
ghost use Rattle.std.specs.Prelude.{◌≡◌, ◌⊎◌, Ok, IfOk, IfErr, IfSome, map};
ghost use Rattle.bz_journal.specs.Clauses.{AreBuild, AreListed, IsBuild, IsIndexOf, Means, Refusal, RunsIn, effect, gives, item_hash, lines_begun, printed, printed_answer, refuses, spell_node, text_or, view_of};

use crate::answering::{Lookups, look_up_lines};
use crate::filling::overfills;
use bz_build_format::{reads_back, written_text};
use bz_command::{Ran, Work, effects_stay_proper, run_in};
use bz_command_syntax::Command;
use bz_grammar::Tree;
use bz_hosts::{build_views, into_view, view};
use bz_items::{Memory, Text};
use bz_label::Target;
use bz_rule::take_apart;
use bz_value::{File, Refusal, build_values_are_proper};
use std::alloc::Global;

/// What is answered beside the text: of a command that prints, what it prints.
pub(crate) fn printed_answer(command: &Command, printed: Text) -> Option<Text>
    ensures { result ≡ printed_answer command.now (Ok printed) }
{
    command.prints().then_some(printed)
}

/// The value of a tree: the one that is kept, or one that is made. The error: memory was refused.
pub(crate) fn value_of(kept: Option<File>, tree: &Tree) -> Result<File, Memory>
    requires kept { IfSome kept (λ items. items ≡ view_of tree.now) }
    ensures { IfOk result (λ file. file ≡ view_of tree.now) }
{
    match kept {
        Some(file) => Ok(file),
        None => view(tree.root.parts.alloc(), tree),
    }
}

/// What a command makes of the value of a BUILD file is one.
#[tactic(auto, using(crate::proofs::Edited::made_build))]
fn makes_build(command: &Command, target: &Target, current: &[u8], lines: &[u32], file: &File)
    requires { AreBuild file.now }
    ensures { IfOk (effect command.now target.now current.now lines.now file.now) AreBuild }
{
    effects_stay_proper();
    build_values_are_proper();
    // what is read of both, so that they are known to be proper
    let _operation = &command.operation;
    let _items = &file.items;
}

/// Runs a command on the value of a BUILD file, in place, by what was looked up; the value is that of a text of about `len` bytes. Its pattern,
/// where it has one, is compiled once for all rules. Errors: those of the command; `TooLarge` where what it makes is seen to be past the limit
/// before it is made.
pub(crate) fn run_beside(
    command: &Command,
    target: &Target,
    current: &[u8],
    lookups: &Lookups,
    len: usize,
    file: &mut File,
) -> Result<Ran, Refusal>
    requires names { IfSome lookups.now.names (λ index. IsIndexOf index file.old) }
    requires hashes { IfSome lookups.now.hashes (λ hashes. hashes ≡ map item_hash file.old) }
    requires paths { IfSome lookups.now.paths (λ loaded. AreListed loaded file.old) }
    requires build { AreBuild file.old }
    ensures { RunsIn (effect command.now target.now current.now (lines_begun lookups.now) file.old) (printed command.now target.now current.now (lines_begun lookups.now) file.old) file.old result file.new }
{
    match command.prepared(file.items.alloc())? {
        Some(prepared) => run_prepared(&prepared, target, current, lookups, len, file),
        None => run_prepared(command, target, current, lookups, len, file),
    }
}

/// The same of a command of which the pattern is compiled already, where it has one.
fn run_prepared(
    command: &Command,
    target: &Target,
    current: &[u8],
    lookups: &Lookups,
    len: usize,
    file: &mut File,
) -> Result<Ran, Refusal>
    requires names { IfSome lookups.now.names (λ index. IsIndexOf index file.old) }
    requires hashes { IfSome lookups.now.hashes (λ hashes. hashes ≡ map item_hash file.old) }
    requires paths { IfSome lookups.now.paths (λ loaded. AreListed loaded file.old) }
    requires build { AreBuild file.old }
    ensures { RunsIn (effect command.now target.now current.now (lines_begun lookups.now) file.old) (printed command.now target.now current.now (lines_begun lookups.now) file.old) file.old result file.new }
{
    let alloc = file.items.alloc();
    let lines = lookups.begins();
    makes_build(command, target, current, lines, file);
    if overfills(Work::new(alloc, command, target, current, lines), len, file)? {
        return Err(Refusal::TooLarge);
    }
    run_in(alloc, command, target, current, lookups.known(), file)
}

/// What a command means on the text of a tree, which has this many bytes and is given up for its value: the text after it, none where the
/// value stays as it was, and what is printed. Errors: those of the command; `TooLarge` and `TooDeep` where the new text would be past a limit; `Memory`.
pub(crate) fn meant(
    alloc: Global,
    command: &Command,
    target: &Target,
    current: &[u8],
    tree: Tree,
    len: usize,
) -> Result<(Option<Text>, Option<Text>), Refusal>
    requires { IsBuild tree }
    ensures ok { IfOk result (λ meant. Means command.now target.now current.now (spell_node tree) (gives (text_or (spell_node tree) meant.0) meant.1)) }
    ensures err { IfErr result (λ refusal. Means command.now target.now current.now (spell_node tree) (refuses refusal) ⊎ (refusal ≡ Refusal.Memory)) }
{
    reads_back(&tree);
    build_views();
    let mut lookups = Lookups::none();
    look_up_lines(command, target, &mut lookups, &tree)?;
    let mut file = into_view(alloc, tree)?;
    match run_beside(command, target, current, &lookups, len, &mut file) {
        Ok(ran) => {
            let printed = printed_answer(command, ran.printed);
            if ran.windows.is_empty() {
                take_apart(file);
                return Ok((None, printed));
            }
            Ok((Some(written_text(alloc, file, len)?), printed))
        }
        Err(refusal) => {
            take_apart(file);
            Err(refusal)
        }
    }
}
