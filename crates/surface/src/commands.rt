//! Commands by the names of bz_command.
use bz_command::{Command, CommandFault, Outcome, Refusal, run};
use bz_label::Target;
use bz_tree::parse;
use bz_view::view;
use std::alloc::Global;

/// A command, read and run.
pub(crate) fn outcome(alloc: Global) -> Option<String> {
    let read: Result<Command, CommandFault> = Command::read(alloc, "set size small");
    let command = read.ok()?;
    let target = Target::read(alloc, "//p:x").ok()?;
    let file = view(alloc, &parse(alloc, b"a(name = \"x\")\n").ok()?).ok()?;
    let ran: Result<Outcome, Refusal> = run(alloc, &command, &target, b"p", &[1], &file);
    let outcome = ran.ok()?;
    let is_changed = outcome.file.is_some();
    format!(in alloc;
        "changed {is_changed}, {} bytes printed",
        outcome.printed.as_slice().len()
    )
    .ok()
}
