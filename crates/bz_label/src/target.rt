//! Targets.
ghost use Rattle.std.specs.Prelude.{◌≡◌, ◌↔◌, ◌&&◌, Err, None, Some, IfOk, true, ◌^◌, ◌-◌, min, nat_le, length};
ghost use Rattle.std.specs.List.{list_all};
ghost use Rattle.std.specs.Option.{option_and_then};
ghost use Rattle.std.specs.Char.{is_ascii_digit};
ghost use Rattle.bz_label.specs.Pieces.{is_present};
ghost use Rattle.bz_label.specs.Targets.{decimal, which_of, target_of, after_percent, is_package, IsTarget};
ghost use Rattle.bz_label.specs.Faults.{target_fault_number};
ghost use Rattle.bz_label.specs.TargetRead.{target_if, target_in};
ghost use Rattle.bz_label.specs.declared.target.Target.{Target};

use crate::piece::{after_slashes, cut_colon, holds, joined, last};
use bz_items::{Memory, Text};
use std::alloc::Global;
use thiserror::Error;

/// Which rules of a package's file are meant.
pub enum Which {
    /// All rules: `all` or `*`.
    All,
    /// The rules of this kind: `%kind`.
    Kind(Text),
    /// The rules that begin on this line, from 1: `%N`. A number past the greatest `u32` is that one, a line that no
    /// text within the limit has.
    Line(u32),
    /// The first rule of kind `package`: `__pkg__`.
    Package,
    /// The rules of this name.
    Name(Text),
}

impl Drop for Which {
    fn drop(self) {
        match self {
            Which::All => {}
            Which::Kind(_) => {}
            Which::Line(_) => {}
            Which::Package => {}
            Which::Name(_) => {}
        }
    }
}

/// What a command is meant for: a package, and rules of its file.
#[derive(Drop)]
pub struct Target {
    /// The package's path, empty for the root package and `-` for standard input.
    pub package: Text,
    pub which: Which,
}

/// Why a text gave no target.
#[derive(Debug, Drop, Error)]
pub enum TargetFault {
    /// The text is not a target, or its package's name is too long.
    #[error("BadTarget")]
    BadTarget,
    /// Memory was refused.
    #[error("Memory")]
    Memory,
}

impl From<Memory> for TargetFault {
    ghost use Rattle.bz_label.specs.declared.target.TargetFault.TheVariants as fault;

    ghost from_gives = { λ _ made. made ≡ fault.Memory };

    fn from(_refused: Memory) -> TargetFault {
        TargetFault::Memory
    }
}

impl TargetFault {
    /// The fault's number in messages: 12 or 8.
    pub fn number(&self) -> u8
        ensures { result ≡ target_fault_number self.now }
    {
        match self {
            TargetFault::BadTarget => 12,
            TargetFault::Memory => 8,
        }
    }
}

/// The most bytes of a package's name.
const PACKAGE_LIMIT: usize = 65_536;

fn line(digits: &[u8]) -> u32
    requires { list_all is_ascii_digit digits.now ≡ true }
    ensures { result ≡ min (decimal digits.now) (2 ^ 32 - 1) }
{
    let mut line: u32 = 0;
    for digit in digits {
        line = line
            .saturating_mul(10)
            .saturating_add(u32::from(*digit - b'0'));
    }
    line
}

fn digits(word: &[u8]) -> bool
    ensures { result ≡ list_all is_ascii_digit word.now }
{
    word.iter().all(u8::is_ascii_digit)
}

#[tactic(auto, using(crate::proofs::Empty::present_by_length))]
fn percent(alloc: Global, word: &[u8]) -> Result<Which, Memory>
    ensures { IfOk result (λ which. which ≡ after_percent word.now) }
{
    if !word.is_empty() && digits(word) {
        Ok(Which::Line(line(word)))
    } else {
        Ok(Which::Kind(Text::from_slice(alloc, word)?))
    }
}

fn which_rules(alloc: Global, word: &[u8]) -> Result<Which, Memory>
    ensures { IfOk result (λ which. which ≡ which_of word.now) }
{
    match word {
        b"all" | b"*" => Ok(Which::All),
        b"__pkg__" => Ok(Which::Package),
        [b'%', rest @ ..] => percent(alloc, rest),
        _ => Ok(Which::Name(Text::from_slice(alloc, word)?)),
    }
}

/// Whether the text may be a package, and what follows it is there.
#[tactic(auto, using(crate::proofs::Empty::empty_by_length, crate::proofs::Empty::present_by_length))]
fn fits(path: &[u8], word: &[u8]) -> bool
    ensures { result ≡ (is_package path.now && nat_le (length path.now) 65536 && is_present word.now) }
{
    (path.is_empty() || joined(path))
        && !holds(path, b':')
        && path.len() <= PACKAGE_LIMIT
        && !word.is_empty()
}

/// The package and what follows it, before either is tested.
#[tactic(auto, using(crate::proofs::TargetReadings::plain_cut, crate::proofs::TargetReadings::plain_uncut, crate::proofs::TargetReadings::slashed_cut, crate::proofs::TargetReadings::slashed_uncut))]
fn halves(text: &[u8]) -> Option<(&[u8], &[u8])>
    ensures { option_and_then (λ halves. target_if halves.0.now halves.1.now) result ≡ target_in text.now }
{
    let Some(rest) = after_slashes(text) else {
        return cut_colon(text);
    };
    match cut_colon(rest) {
        Some((path, word)) => Some((path, word)),
        None => Some((rest, last(rest))),
    }
}

fn copied(alloc: Global, path: &[u8], word: &[u8]) -> Result<Target, Memory>
    ensures { IfOk result (λ target. target ≡ target_of path.now word.now) }
{
    Ok(Target {
        package: Text::from_slice(alloc, path)?,
        which: which_rules(alloc, word)?,
    })
}

impl Target {
    /// The target that the text is. `BadTarget` exactly where it is none, or where its package's name is longer than
    /// 65,536 bytes; `Memory` where room for the package or the word was refused.
    #[tactic(auto, using(crate::proofs::TargetReadings::target_answered, crate::proofs::TargetReadings::no_target))]
    pub fn read(alloc: Global, text: &str) -> Result<Target, TargetFault>
        ensures ok { IfOk result (IsTarget text.now) }
        ensures read { IfOk result (λ target. target_in text.now ≡ Some target) }
        ensures none { result ≡ Err TargetFault.BadTarget → target_in text.now ≡ None }
        ensures bad { (result ≡ Err TargetFault.BadTarget)
            ↔ ((target : Target) → IsTarget text.now target → ⊥) }
    {
        let Some((path, word)) = halves(text.as_bytes()) else {
            return Err(TargetFault::BadTarget);
        };
        if !fits(path, word) {
            return Err(TargetFault::BadTarget);
        }
        Ok(copied(alloc, path, word)?)
    }
}
