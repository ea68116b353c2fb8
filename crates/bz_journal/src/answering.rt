//! Commands that leave the present text as it is, answered by the value beside a session.
ghost use Rattle.std.specs.Prelude.{◌≡◌, IfSome, List, OnOk, map};
ghost use Rattle.bz_command.specs.Known.{IsKnownOf};
ghost use Rattle.bz_journal.specs.Clauses.{AreListed, AreLookupsOf, Bytes, Do, GivesAlike, HasMade, IsIndexOf, IsSeenIn, Item, Node, item_hash, lines_begun, lines_of, view_of};

use crate::action::Reply;
use crate::course::{Course, unchanged};
use crate::doing::Seen;
use crate::meaning::{printed_answer, value_of};
use bz_build_format::reads_back;
use bz_command::{
    Known, LoadedPaths, hashes_of, lines_matter, looks_at_lines, looks_for_load, puts_rule,
    run_named,
};
use bz_command_syntax::Command;
use bz_grammar::Tree;
use bz_items::{Items, Memory};
use bz_label::{Target, Which};
use bz_rule::Names;
use bz_value::{File, Refusal};

/// What is looked up in a text that stays, each made when a command needs it.
pub(crate) struct Lookups {
    /// The index of the names of its rules.
    pub(crate) names: Option<Names>,
    /// The lines on which its statements begin.
    pub(crate) lines: Option<Items<u32>>,
    /// The hashes of the names of its items, in their order.
    pub(crate) hashes: Option<Items<u64>>,
    /// The paths from which it loads.
    pub(crate) paths: Option<LoadedPaths>,
}

impl Drop for Lookups {
    fn drop(self) {
        let Lookups {
            names: _,
            lines: _,
            hashes: _,
            paths: _,
        } = self;
    }
}

impl Lookups {
    /// Nothing was needed yet.
    pub(crate) fn none() -> Lookups
        ensures { (tree : Node) → AreLookupsOf result tree }
    {
        Lookups {
            names: None,
            lines: None,
            hashes: None,
            paths: None,
        }
    }

    /// The lines on which statements begin, where they were looked up.
    pub(crate) fn begins(&self) -> &[u32]
        ensures { result.now ≡ lines_begun self.now }
    {
        match &self.lines {
            Some(lines) => lines.as_slice(),
            None => &[],
        }
    }

    /// What a command is handed of it.
    pub(crate) fn known(&self) -> Known<'_>
        ensures lines { result.lines.now ≡ lines_begun self.now }
        ensures own { (items : List Item) → IfSome self.now.names (λ index. IsIndexOf index items) → IfSome self.now.hashes (λ hashes. hashes ≡ map item_hash items)
            → IfSome self.now.paths (λ loaded. AreListed loaded items) → IsKnownOf result items }
    {
        Known {
            lines: self.begins(),
            names: self.names.as_ref(),
            hashes: match &self.hashes {
                Some(hashes) => Some(hashes.as_slice()),
                None => None,
            },
            paths: self.paths.as_ref(),
        }
    }
}

/// Looks up the lines on which the statements of a tree begin, where a command or its target looks at them and they aren't there yet. The
/// error: memory was refused.
pub(crate) fn look_up_lines(
    command: &Command,
    target: &Target,
    lookups: &mut Lookups,
    tree: &Tree,
) -> Result<(), Memory>
    requires { AreLookupsOf lookups.old tree.now }
    ensures looked { AreLookupsOf lookups.new tree.now }
    ensures alike { OnOk result (GivesAlike command.now target.now (lines_begun lookups.new) (lines_of tree.now)) }
{
    lines_matter();
    if lookups.lines.is_some() || !looks_at_lines(command, target) {
        return Ok(());
    }
    lookups.lines = Some(Items::from_vec(tree.lines(tree.root.parts.alloc())?));
    Ok(())
}

/// What a command was, where the next one of its kind has use of what is looked up for it.
#[derive(Clone, Copy)]
pub(crate) enum Last {
    /// It was for a rule by its name, and left all names.
    Named,
    /// It looked for a load from a path.
    Loads,
    /// It put a new rule among the others.
    Puts,
    Other,
}

/// Whether a target means rules by their name.
fn is_by_name(target: &Target) -> bool {
    matches!(target.which, Which::Name(_))
}

/// What a command was, after which each item has the name that it had, if that is said.
pub(crate) fn last_of(command: &Command, target: &Target, same_names: bool) -> Last {
    if looks_for_load(command) {
        Last::Loads
    } else if puts_rule(command) {
        Last::Puts
    } else if same_names && is_by_name(target) {
        Last::Named
    } else {
        Last::Other
    }
}

/// Looks up what a command and its target need of a tree and its value, and isn't there yet: the index of names, the hashes of these and the
/// paths of loads where the last command was of the same kind. The error: memory was refused.
pub(crate) fn look_up(
    command: &Command,
    target: &Target,
    last: Last,
    lookups: &mut Lookups,
    tree: &Tree,
    file: &File,
) -> Result<(), Memory>
    requires lookups { AreLookupsOf lookups.old tree.now }
    requires value { file.now ≡ view_of tree.now }
    ensures looked { AreLookupsOf lookups.new tree.now }
    ensures alike { OnOk result (GivesAlike command.now target.now (lines_begun lookups.new) (lines_of tree.now)) }
{
    look_up_lines(command, target, lookups, tree)?;
    let alloc = file.items.alloc();
    let items = file.items.as_slice();
    match last {
        Last::Named if is_by_name(target) && lookups.names.is_none() => {
            lookups.names = Some(Names::of(alloc, items)?);
            Ok(())
        }
        Last::Loads if looks_for_load(command) && lookups.paths.is_none() => {
            lookups.paths = Some(LoadedPaths::of(alloc, items)?);
            Ok(())
        }
        Last::Puts if puts_rule(command) && lookups.hashes.is_none() => {
            lookups.hashes = Some(hashes_of(alloc, items)?);
            Ok(())
        }
        _ => Ok(()),
    }
}

/// What a command that prints answers by the value of the present text, which is kept with what is looked up; none where it would change the
/// text, or where the value isn't worth keeping: not that of a layout, and the command before printed nothing.
pub(crate) fn answer(
    course: &Course,
    seen: &mut Seen,
    command: &Command,
    target: &Target,
) -> Option<Result<Reply, Refusal>>
    requires { IsSeenIn course.now.tree seen.old }
    ensures made { IfSome result (λ answer. (note : Bytes) → HasMade (Do command.now target.now) note course.now answer course.now) }
    ensures seen { IsSeenIn course.now.tree seen.new }
{
    let is_kept = seen.written.is_some() || seen.printed_last;
    seen.printed_last = command.prints();
    if !seen.printed_last || !is_kept {
        return None;
    }
    let here = course.present();
    reads_back(here);
    let Ok(file) = value_of(seen.value.take(), here) else {
        return Some(Err(Refusal::Memory));
    };
    let Ok(()) = look_up(command, target, Last::Named, &mut seen.lookups, here, &file) else {
        return Some(Err(Refusal::Memory));
    };
    let alloc = course.alloc();
    let current = course.package.as_bytes();
    let lookups = &seen.lookups;
    let known = lookups.known();
    let ran = run_named(alloc, command, target, current, known, &file);
    seen.value = Some(file);
    match ran {
        Ok(outcome) => {
            if outcome.file.is_some() {
                return None;
            }
            Some(Ok(unchanged(printed_answer(command, outcome.printed))))
        }
        Err(refusal) => Some(Err(refusal)),
    }
}
