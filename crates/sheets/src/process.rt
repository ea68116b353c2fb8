//! A process that answers the sheet on its standard input.
use crate::sheet::{Questions, answer_sheet};
use anyhow::Result;
use std::io;
use std::io::{Read, Write};

/// Standard input, up to its end. Errors: it could not be read, or a growth was refused.
pub fn input(rt: &HostRuntime) -> io::Result<Vec<u8>> {
    let mut bytes = Vec::new(rt.alloc());
    rt.stdin().read_to_end(&mut bytes)?;
    Ok(bytes)
}

/// Answers the sheet that is standard input, and writes it to standard output. Errors: one of both failed, the sheet is not UTF-8,
/// or a growth was refused.
pub fn answer<Q: Questions>(rt: &HostRuntime, questions: Q) -> Result<()> {
    let sheet = input(rt)?;
    let page = answer_sheet(rt.alloc(), str::from_utf8(&sheet)?, questions)?;
    rt.stdout().write_all(page.as_bytes())?;
    Ok(())
}
