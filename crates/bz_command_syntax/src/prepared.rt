//! Commands of which the pattern is compiled once, for all the rules and loads that they are meant for.
ghost use Rattle.std.specs.Prelude.{◌≡◌, IfOk, IfSome};

use crate::command::{Attributes, Command, LoadOperation, Operation, ValueOperation};
use bz_items::Memory;
use std::alloc::Global;

impl Attributes {
    // An equal value. The error: a growth was refused.
    fn copy(&self) -> Result<Attributes, Memory>
        ensures { IfOk result (λ attributes. attributes ≡ self.now) }
    {
        match self {
            Attributes::All => Ok(Attributes::All),
            Attributes::Named(name) => Ok(Attributes::Named(name.copy()?)),
        }
    }
}

// An equal operation of which the pattern is compiled; none where it has no pattern, or that is compiled already. The error: a growth was refused.
fn with_compiled(alloc: Global, operation: &Operation) -> Result<Option<Operation>, Memory>
    ensures { IfOk result (λ made. IfSome made (λ other. other ≡ operation.now)) }
{
    match operation {
        Operation::Value(
            ValueOperation::Substitute {
                attributes,
                pattern,
                template,
                selects,
            },
        ) => {
            let Some(pattern) = pattern.prepared(alloc)? else {
                return Ok(None);
            };
            let template = template.copy()?;
            let attributes = attributes.copy()?;
            Ok(Some(Operation::Value(ValueOperation::Substitute {
                attributes,
                pattern,
                template,
                selects: *selects,
            })))
        }
        Operation::Load(LoadOperation::Substitute { pattern, template }) => {
            let Some(pattern) = pattern.prepared(alloc)? else {
                return Ok(None);
            };
            let template = template.copy()?;
            Ok(Some(Operation::Load(LoadOperation::Substitute { pattern, template })))
        }
        _ => Ok(None),
    }
}

fn release(operation: &mut Operation)
    ensures { operation.new ≡ operation.old }
{
    match operation {
        Operation::Value(ValueOperation::Substitute { pattern, .. }) => pattern.release(),
        Operation::Load(LoadOperation::Substitute { pattern, .. }) => pattern.release(),
        _ => {}
    }
}

impl Command {
    /// An equal command of which the pattern is compiled, so that it isn't compiled for each string; none where it has no pattern, or that is compiled
    /// already. The error: a growth was refused.
    pub fn prepared(&self, alloc: Global) -> Result<Option<Command>, Memory>
        ensures { IfOk result (λ made. IfSome made (λ command. command ≡ self.now)) }
    {
        match with_compiled(alloc, &self.operation)? {
            Some(operation) => Ok(Some(Command { operation })),
            None => Ok(None),
        }
    }

    /// Drops what the command's pattern was compiled to, where it has one.
    pub fn release(&mut self)
        ensures { self.new ≡ self.old }
    {
        release(&mut self.operation);
    }
}
