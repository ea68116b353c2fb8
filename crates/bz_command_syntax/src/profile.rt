//! Profiles, and what they make of the commands of the table.
ghost use Rattle.std.specs.Prelude.{◌≡◌};
ghost use Rattle.std.specs.List.{list_any};
ghost use Rattle.bz_command_syntax.specs.Commands as c;

use crate::command::{CommentOperation, Field, Host, Operation, Selects, ValueOperation};
use crate::fault::CommandFault;
use crate::forms::{Read, ensure};

/// What commands mean where programs differ.
#[derive(Clone, Copy)]
pub enum Profile {
    /// The profile of a run without an option.
    Own,
    /// That of bazelbuild's buildozer: `remove`, `replace`, `substitute` and the commands on comments enter the branches of `select`, and
    /// `print` has the field `label`.
    Bazelbuild,
}

fn is_label(field: &Field) -> bool
    ensures { result ≡ c.is_label field.now }
{
    matches!(field, Field::Label)
}

fn has_label(fields: &[Field]) -> bool
    ensures { result ≡ list_any c.is_label fields.now }
{
    fields.iter().any(|field| is_label(field))
}

fn prints_label(operation: &Operation) -> bool
    ensures { result ≡ c.prints_label operation.now }
{
    match operation {
        Operation::Print { fields } => has_label(fields.as_slice()),
        _ => false,
    }
}

fn enter_host(host: &mut Host)
    ensures { host.new ≡ c.entering_host host.old }
{
    if let Host::Item { selects, .. } = host {
        *selects = Selects::Entered;
    }
}

// The branches of `select` are entered.
fn enter(operation: &mut Operation)
    ensures { operation.new ≡ c.entering operation.old }
{
    match operation {
        Operation::Value(ValueOperation::Remove { selects, .. }) => *selects = Selects::Entered,
        Operation::Value(ValueOperation::Replace { selects, .. }) => *selects = Selects::Entered,
        Operation::Value(ValueOperation::Substitute { selects, .. }) => *selects = Selects::Entered,
        Operation::Comment(CommentOperation::Add { host, .. }) => enter_host(host),
        Operation::Comment(CommentOperation::Print { host }) => enter_host(host),
        Operation::Comment(CommentOperation::Remove { host }) => enter_host(host),
        _ => {}
    }
}

/// What a profile makes of a command of the table. The error: `Arguments`: the own profile has no field `label`.
pub(crate) fn by_profile(profile: Profile, mut operation: Operation) -> Read<Operation>
    ensures { result ≡ c.by_profile profile operation }
{
    match profile {
        Profile::Own => ensure!(!prints_label(&operation)),
        Profile::Bazelbuild => enter(&mut operation),
    }
    Ok(operation)
}
