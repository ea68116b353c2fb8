//! Does one piece of work on a text, for the scripts of bench/. `copy` copies the bytes, `lex` cuts the text into its
//! tokens, `tree` makes its tree and `parse` also spells it: each prints how many bytes or tokens that gives; `view` makes its
//! file value, `set` the layout of that, and `format` the formatted text. `time` prints the nanoseconds of the fastest of
//! several rounds of `copy`, `lex`, `tree`, `parse`, `view`, `set` and `format`; `peak WORK` does a work once and prints how many KiB of
//! memory the process took at most. `spell` writes what the tree spells to standard output, and `layout` what it is laid out
//! as, or the fault of a text that has none to standard error. `copies` prints of each of several texts whether all that it says is copied.
use crate::copying::answer_copies;
use bz_build_format::{format, set};
use bz_grammar::Tree;
use bz_hosts::view;
use bz_lex::lex;
use bz_tree::parse;
use std::alloc::Global;
use std::fs;
use std::io::Write;
use std::time::Instant;

/// How often `time` does a piece of work.
const ROUNDS: u32 = 9;

/// The works that `time` does.
const TIMED: [&str; 7] = ["copy", "lex", "tree", "parse", "view", "set", "format"];

/// Does the work of this name once. What it writes goes to `out`, where nobody can leave it out.
fn count(work: &str, alloc: Global, bytes: &[u8], out: &mut Vec<u8>) -> Option<usize> {
    out.clear();
    match work {
        "copy" => {
            out.extend_from_slice(bytes).ok()?;
            Some(out.len())
        }
        "lex" => Some(lex(alloc, str::from_utf8(bytes).ok()?).ok()?.len()),
        "tree" => Some(parse(alloc, bytes).ok()?.len()),
        "parse" => {
            parse(alloc, bytes).ok()?.spell_into(out).ok()?;
            Some(out.len())
        }
        "view" => Some(view(alloc, &parse(alloc, bytes).ok()?).ok()?.items.len()),
        "set" => {
            let tree = laid_out(alloc, &parse(alloc, bytes).ok()?)?;
            tree.spell_into(out).ok()?;
            Some(out.len())
        }
        "format" => Some(format(alloc, bytes).ok()?.len()),
        _ => None,
    }
}

/// The tree of the layout of a tree.
fn laid_out(alloc: Global, tree: &Tree) -> Option<Tree> {
    set(alloc, &view(alloc, tree).ok()?).ok()
}

/// The nanoseconds of the fastest round.
fn fastest(rt: &HostRuntime, work: &str, bytes: &[u8], out: &mut Vec<u8>) -> Option<u128> {
    let mut best = u128::MAX;
    for _ in 0..ROUNDS {
        let start = Instant::now(rt).ok()?;
        let _count = count(work, rt.alloc(), bytes, out)?;
        best = best.min(start.elapsed(rt).ok()?.as_nanos());
    }
    Some(best)
}

fn timed(rt: &HostRuntime, bytes: &[u8]) -> Option<()> {
    let mut out = Vec::new(rt.alloc());
    for work in TIMED {
        let best = fastest(rt, work, bytes, &mut out)?;
        println!(rt; "{work} {best}").ok()?;
    }
    Some(())
}

/// The KiB of memory that the process has taken at most, as the system reports them.
fn peak(rt: &HostRuntime) -> Option<u64> {
    let status = fs::read_to_string(rt, "/proc/self/status").ok()?;
    for line in status.as_str().lines() {
        if let Some(rest) = line.strip_prefix("VmHWM:") {
            return rest.split_whitespace().next()?.parse().ok();
        }
    }
    None
}

fn spelled(rt: &HostRuntime, tree: &Tree) -> Option<()> {
    let mut out = Vec::new(rt.alloc());
    tree.spell_into(&mut out).ok()?;
    rt.stdout().write_all(out.as_slice()).ok()
}

/// The tree of a text, or the fault that is reported of it.
fn read(rt: &HostRuntime, bytes: &[u8]) -> Option<Tree> {
    match parse(rt.alloc(), bytes) {
        Ok(tree) => Some(tree),
        Err(fault) => {
            let _read_fault_text = eprintln!(rt; "{fault}");
            None
        }
    }
}

/// Does the work that a word names once, and returns what it counts.
fn counted(rt: &HostRuntime, word: &str, bytes: &[u8]) -> Option<usize> {
    let mut out = Vec::new(rt.alloc());
    count(word, rt.alloc(), bytes, &mut out)
}

/// Does on a text what the first word names; the second is the work of `peak`. None: there is no such work, the text is
/// refused, or something failed.
pub(crate) fn measure(
    rt: &HostRuntime,
    word: &str,
    further: Option<String>,
    bytes: &[u8],
) -> Option<()> {
    match word {
        "time" => timed(rt, bytes),
        "copies" => answer_copies(rt, bytes),
        "spell" => spelled(rt, &read(rt, bytes)?),
        "layout" => spelled(rt, &laid_out(rt.alloc(), &read(rt, bytes)?)?),
        "peak" => {
            let _count = counted(rt, further?.as_str(), bytes)?;
            let most = peak(rt)?;
            println!(rt; "{most}").ok()
        }
        name => {
            let count = counted(rt, name, bytes)?;
            println!(rt; "{count}").ok()
        }
    }
}
