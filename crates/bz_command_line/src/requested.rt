//! What the operands of one line request: its commands and its targets.
ghost use Rattle.std.specs.Prelude.{◌≡◌, ◌≢◌, ◌⊎◌, None, Ok, Err, IfOk, IfErr, IfSome, OnOk, map};
ghost use Rattle.std.specs.List.{All};
ghost use Rattle.bz_command_line.specs.Requested as a;
ghost use Rattle.bz_command_line.specs.Operands.{is_target};
ghost use Rattle.bz_command_line.specs.Paths.{HasPath};
ghost use Rattle.bz_command_line.specs.Refused.{IsGroupFault, IsOperandFault};
ghost use Rattle.bz_command_line.specs.Shown.{refused_in, requested_in, usage_in};

use crate::pattern::pattern_fault;
use crate::verb::{OperandFault, Refused, Verb, read_verb};
use bz_command_syntax::{CommandFault, Profile};
use bz_label::{Target, TargetFault};
use std::alloc::Global;

/// The most commands of a run of which the pattern is kept compiled: that of any other is compiled for each of its targets.
pub(crate) const MOST_COMPILED: usize = 16;

/// A command, and its text.
#[derive(Drop)]
pub struct Request<'a> {
    pub verb: Verb,
    pub text: &'a str,
}

/// The commands and the targets of a line, each in order. One line has at least one of each.
#[derive(Drop)]
pub struct Requested<'a> {
    pub commands: Vec<Request<'a>>,
    pub targets: Vec<Target>,
}

/// Why operands request nothing.
#[derive(Drop)]
pub enum UsageFault<'a> {
    /// The first operand that is refused.
    Operand(Refused<'a>),
    /// There is no command.
    NoCommand,
    /// There is no target.
    NoTarget,
    /// A growth was refused.
    Memory,
}

// Whether an operand is a target: it has no space, and it holds a colon or begins with two slashes. Every other
// operand is a command.
fn is_target(operand: &[u8]) -> bool
    ensures { result ≡ is_target operand.now }
{
    !operand.contains(&b' ')
        && (operand.contains(&b':') || operand.strip_prefix(b"//".as_slice()).is_some())
}

// Drops what the pattern of a command was compiled to.
fn release(verb: &mut Verb)
    ensures { verb.new ≡ verb.old }
{
    if let Verb::Do(command) = verb {
        command.release();
    }
}

// Appends what the operand of this text requests; a pattern is kept compiled where fewer commands than `kept` are there. The room comes first: a
// push that fails gives its value back, and the proof that it is dropped is long.
fn add<'a>(
    alloc: Global,
    profile: Profile,
    requested: &mut Requested<'a>,
    text: &'a str,
    kept: usize,
) -> Result<(), OperandFault>
    ensures ok { OnOk result (a.joined_operands (Ok (requested_in requested.old)) (a.requested_by profile text.entry.now) ≡ Ok (requested_in requested.new)) }
    ensures err { IfErr result (λ fault. IsOperandFault profile text.entry.now fault ⊎ (fault ≡ OperandFault.Memory)) }
    ensures paths { All HasPath requested.old.targets.items → OnOk result (All HasPath requested.new.targets.items) }
{
    if is_target(text.as_bytes()) {
        if requested.targets.reserve(1).is_err() {
            return Err(OperandFault::Memory);
        }
        match Target::read(alloc, text) {
            Ok(target) => requested.targets.push_reserved(target),
            Err(TargetFault::BadTarget) => return Err(OperandFault::BadTarget),
            Err(TargetFault::Memory) => return Err(OperandFault::Memory),
        }
        return Ok(());
    }
    if requested.commands.reserve(1).is_err() {
        return Err(OperandFault::Memory);
    }
    let mut verb = read_verb(alloc, profile, text)?;
    if requested.commands.len() >= kept {
        release(&mut verb);
    }
    requested.commands.push_reserved(Request { verb, text });
    Ok(())
}

// An operand that is refused in a profile for this fault, of a pattern with the reason.
fn with_reason<'a>(
    alloc: Global,
    profile: Profile,
    operand: &'a str,
    fault: OperandFault,
) -> Refused<'a>
    ensures profile { (refused_in result).profile ≡ profile }
    ensures seen { (refused_in result).operand ≡ operand.entry.now }
    ensures fault { (refused_in result).fault ≡ fault }
    ensures other { fault ≢ OperandFault.Command CommandFault.BadPattern → (refused_in result).pattern ≡ None }
{
    let pattern = match fault {
        OperandFault::Command(CommandFault::BadPattern) => pattern_fault(alloc, operand),
        _ => None,
    };
    Refused {
        profile,
        operand,
        fault,
        pattern,
    }
}

/// What the operands of one line request in a profile: commands and targets, at least one of each, in order. The package of each target
/// is text in UTF-8, of at most 65,536 bytes. Errors, in this order: `Operand` where one is refused, which is the first
/// such; `NoCommand`; `NoTarget`; and `Memory` where a growth was refused.
pub fn read_group<'a>(
    alloc: Global,
    profile: Profile,
    operands: &[&'a str],
) -> Result<Requested<'a>, UsageFault<'a>>
    ensures ok { IfOk result (λ requested. a.operand_group profile (map (λ s. s.now) operands.now) ≡ Ok (requested_in requested)) }
    ensures err { IfErr result (λ fault. IfSome (usage_in fault) (IsGroupFault profile (map (λ s. s.now) operands.now))) }
    ensures paths { IfOk result (λ requested. All HasPath requested.targets.items) }
{
    match group_of(alloc, profile, operands, MOST_COMPILED) {
        Ok(requested) => Ok(requested),
        Err(fault) => Err(fault),
    }
}

/// The same, and the patterns of the first commands are kept compiled, of as many as `kept` says.
pub(crate) fn group_of<'a>(
    alloc: Global,
    profile: Profile,
    operands: &[&'a str],
    kept: usize,
) -> Result<Requested<'a>, UsageFault<'a>>
    ensures ok { IfOk result (λ requested. a.operand_group profile (map (λ s. s.now) operands.now) ≡ Ok (requested_in requested)) }
    ensures err { IfErr result (λ fault. IfSome (usage_in fault) (IsGroupFault profile (map (λ s. s.now) operands.now))) }
    ensures paths { IfOk result (λ requested. All HasPath requested.targets.items) }
{
    let mut requested = Requested {
        commands: Vec::new(alloc),
        targets: Vec::new(alloc),
    };
    for &operand in operands {
        match add(alloc, profile, &mut requested, operand, kept) {
            Ok(()) => {}
            Err(fault) => match fault {
                OperandFault::Memory => return Err(UsageFault::Memory),
                fault => return Err(UsageFault::Operand(with_reason(
                    alloc, profile, operand, fault,
                ))),
            },
        }
    }
    if requested.commands.is_empty() {
        return Err(UsageFault::NoCommand);
    }
    if requested.targets.is_empty() {
        return Err(UsageFault::NoTarget);
    }
    Ok(requested)
}
