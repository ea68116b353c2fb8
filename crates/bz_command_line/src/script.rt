//! A file of lines.
ghost use Rattle.std.specs.Prelude.{◌≡◌, ◌<◌, length, position, Ok, IfOk, IfErr, IfSome, map};
ghost use Rattle.std.specs.List.{All};
ghost use Rattle.bz_command_line.specs.Paths.{HasPath};
ghost use Rattle.bz_command_line.specs.Refused.{IsFirstFault, IsScriptFault};
ghost use Rattle.bz_command_line.specs.Script.{has_nul, is_read, line_with_nul, operands_in, operand_groups, script_lines, script_of};
ghost use Rattle.bz_command_line.specs.Shown.{requested_in, script_usage_in};

use crate::requested::{MOST_COMPILED, Requested, UsageFault, group_of};
use bz_command_syntax::Profile;
use std::alloc::{AllocError, Global};

/// Why the lines of a file request nothing.
#[derive(Drop)]
pub enum ScriptFault<'a> {
    /// This line, from 1, is the first one that is refused.
    Line(usize, UsageFault<'a>),
    /// There is no line of operands.
    NoLine,
    /// This line, from 1, is the first one with a NUL byte.
    Nul(usize),
    /// A growth was refused.
    Memory,
}

// A line that is not passed over.
fn is_read(line: &str) -> bool
    ensures { result ≡ is_read line.now }
{
    matches!(line.as_bytes(), [first, ..] if *first != b'#')
}

// The lines of a text, after a byte order mark.
fn script_lines<'a>(alloc: Global, script: &'a str) -> Result<Vec<&'a str>, AllocError>
    ensures { IfOk result (λ all. map (λ s. s.now) all.items ≡ script_lines script.entry.now) }
{
    let script = script.strip_prefix("\u{feff}").unwrap_or(script);
    script.lines().collect(alloc)
}

fn has_nul(line: &str) -> bool
    ensures { result ≡ has_nul line.now }
{
    line.as_bytes().contains(&0)
}

// The place of the first line with a NUL byte, from 0.
fn place_of_nul(all: &[&str]) -> Option<usize>
    ensures place { result ≡ position (λ line. has_nul line.now) all.now }
    ensures within { IfSome result (λ at. at < length all.now) }
{
    all.iter().position(|line| has_nul(line))
}

// The first line with a NUL byte, from 1.
fn line_with_nul(all: &[&str]) -> Option<usize>
    ensures { result ≡ line_with_nul (map (λ s. s.now) all.now) }
{
    match place_of_nul(all) {
        Some(at) => Some(at + 1),
        None => None,
    }
}

fn operands_in<'a>(alloc: Global, line: &'a str) -> Result<Vec<&'a str>, AllocError>
    ensures { IfOk result (λ operands. map (λ s. s.now) operands.items ≡ operands_in line.entry.now) }
{
    line.split('|').collect(alloc)
}

// What the lines request that are not passed over.
fn read_groups<'a>(
    alloc: Global,
    profile: Profile,
    lines: &[&'a str],
) -> Result<Vec<Requested<'a>>, ScriptFault<'a>>
    ensures ok { IfOk result (λ groups. operand_groups profile 1 (map (λ s. s.now) lines.now) ≡ Ok (map requested_in groups.items)) }
    ensures err { IfErr result (λ fault. IfSome (script_usage_in fault) (IsFirstFault profile (map (λ s. s.now) lines.now))) }
    ensures paths { IfOk result (λ groups. All (λ requested. All HasPath requested.targets.items) groups.items) }
{
    let mut groups = Vec::new(alloc);
    let mut kept = MOST_COMPILED;
    for (at, &line) in lines.iter().enumerate() {
        if !is_read(line) {
            continue;
        }
        if groups.reserve(1).is_err() {
            return Err(ScriptFault::Memory);
        }
        let Ok(operands) = operands_in(alloc, line) else {
            return Err(ScriptFault::Memory);
        };
        match group_of(alloc, profile, &operands, kept) {
            Ok(group) => {
                kept = kept.saturating_sub(group.commands.len());
                groups.push_reserved(group);
            }
            Err(fault) => return Err(ScriptFault::Line(at + 1, fault)),
        }
    }
    Ok(groups)
}

/// What the lines of a file request in a profile, in order. Its lines end at newlines alone, and one carriage return right before a
/// newline goes with it; a byte order mark at the beginning is passed over. Lines that are empty or begin with `#` are
/// passed over; `|` separates the operands of a line. Packages are as `read_group` gives them. Errors, in this order: `Nul`
/// where some line has a NUL byte; `Line` where one is refused, which is the first such, as `read_group` reports it; `NoLine`
/// where there is no line of operands; and `Memory`, alone or of a line, where a growth was refused.
pub fn read_script<'a>(
    alloc: Global,
    profile: Profile,
    script: &'a str,
) -> Result<Vec<Requested<'a>>, ScriptFault<'a>>
    ensures ok { IfOk result (λ groups. script_of profile script.entry.now ≡ Ok (map requested_in groups.items)) }
    ensures err { IfErr result (λ fault. IfSome (script_usage_in fault) (IsScriptFault profile script.entry.now)) }
    ensures paths { IfOk result (λ groups. All (λ requested. All HasPath requested.targets.items) groups.items) }
{
    let Ok(lines) = script_lines(alloc, script) else {
        return Err(ScriptFault::Memory);
    };
    if let Some(line) = line_with_nul(&lines) {
        return Err(ScriptFault::Nul(line));
    }
    let groups = match read_groups(alloc, profile, &lines) {
        Ok(groups) => groups,
        Err(fault) => return Err(fault),
    };
    if groups.is_empty() {
        return Err(ScriptFault::NoLine);
    }
    Ok(groups)
}
