//! What is written on standard output: the sheet, with the answers put in.
use crate::escape::push_escaped;
use bz_items::Memory;
use std::alloc::Global;

/// The lines that are written so far.
#[derive(Drop)]
pub struct Page {
    lines: String,
}

impl Page {
    /// A page without lines.
    pub fn new(alloc: Global) -> Page {
        Page {
            lines: String::new(alloc),
        }
    }

    pub fn as_bytes(&self) -> &[u8] {
        self.lines.as_bytes()
    }

    /// A line of the sheet, as it is there.
    pub fn copy(&mut self, line: &str) -> Result<(), Memory> {
        self.lines.push_str(line)?;
        self.lines.push_str("\n")
    }

    /// A line with a mark in front, and with escapes.
    pub fn line(&mut self, mark: &str, bytes: &[u8]) -> Result<(), Memory> {
        self.lines.push_str(mark)?;
        if !bytes.is_empty() {
            self.lines.push_str(" ")?;
            push_escaped(&mut self.lines, bytes)?;
        }
        self.lines.push_str("\n")
    }

    /// An answer on one line.
    pub fn answer(&mut self, bytes: &[u8]) -> Result<(), Memory> {
        self.line("=", bytes)
    }

    /// The answer to what either holds or doesn't.
    pub fn yes_or_no(&mut self, holds: bool) -> Result<(), Memory> {
        self.answer(if holds { b"yes" } else { b"no" })
    }

    /// A text with its newlines, the mark in front of its first line.
    pub fn text(&mut self, mark: &str, bytes: &[u8]) -> Result<(), Memory> {
        let mut is_first = true;
        for line in bytes.split(|byte| *byte == b'\n') {
            if is_first {
                self.line(mark, line)?;
            } else {
                self.line("|", line)?;
            }
            is_first = false;
        }
        Ok(())
    }

    /// Lines that each end in a newline, with the mark in front of each; the last one may lack it, which is then said.
    pub fn text_lines(&mut self, mark: &str, bytes: &[u8]) -> Result<(), Memory> {
        let Some(lines) = bytes.strip_suffix(b"\n") else {
            self.text(mark, bytes)?;
            return self.line("?", b"no newline at the end");
        };
        for line in lines.split(|byte| *byte == b'\n') {
            self.line(mark, line)?;
        }
        Ok(())
    }
}
