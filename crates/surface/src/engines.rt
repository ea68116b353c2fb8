//! Both programs by the names of bz_tools.
use bz_tools::{Cut, Exit, MemoryFiles, MemorySink, MemorySource, buildifier, buildozer};
use std::alloc::Global;

/// The text that both programs read.
const TEXT: &[u8] = b"a(name='x')\n";

/// A run of each program over standard input.
pub(crate) fn outcome(alloc: Global) -> Option<String> {
    let mut files = MemoryFiles::new(alloc);
    let mut out = MemorySink::new(alloc, 4096, 0);
    let mut err = MemorySink::new(alloc, 4096, 0);
    let mut input = MemorySource::new(TEXT, 4096, 0);
    let edited: Exit = buildozer(
        alloc,
        &["--", "set size small", "-:x"],
        &mut input,
        &mut out,
        &mut err,
        &mut files,
    );
    let mut again = MemorySource::new(TEXT, 4096, 0);
    let words: [&str; 0] = [];
    let formatted: Exit = buildifier(alloc, &words, &mut again, &mut out, &mut err, &mut files);
    let are_whole = edited.cut == Cut::Whole && formatted.cut == Cut::Whole;
    format!(in alloc;
        "whole {are_whole}, status {} and {}, {} bytes",
        edited.status,
        formatted.status,
        out.bytes().len()
    )
    .ok()
}
