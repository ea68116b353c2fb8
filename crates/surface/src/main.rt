//! Uses each promised name by the crate that it is promised in, and prints what comes of it: while this program is built, one that
//! is written over these names goes on working.
#![tactic(auto)]

mod commands;
mod engines;
mod sessions;
mod trees;
mod values;

use std::io;

// A line of the answer: the crates, and what came of their calls; without it memory was refused.
fn show(rt: &HostRuntime, crates: &str, outcome: Option<String>) -> io::Result<()> {
    let outcome = outcome.as_ref().map_or("Memory", |text| text.as_str());
    println!(rt; "{crates}: {outcome}")
}

fn main(rt: HostRuntime) -> io::Result<()> {
    let alloc = rt.alloc();
    show(&rt, "bz_tree", trees::outcome(alloc))?;
    show(&rt, "bz_edit", trees::exchanged(alloc))?;
    show(&rt, "bz_label", values::labels(alloc))?;
    show(&rt, "bz_view, bz_tidy", values::tidied(alloc))?;
    show(
        &rt,
        "bz_view, bz_tidy over .bzl files",
        values::levelled(alloc),
    )?;
    show(&rt, "bz_command", commands::outcome(alloc))?;
    show(&rt, "bz_journal", sessions::outcome(alloc))?;
    show(&rt, "bz_tools", engines::outcome(alloc))
}
