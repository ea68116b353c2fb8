//! buildifier: lays out BUILD files in one canonical form.
#![tactic(auto)]

use bz_buildifier::buildifier;
use bz_files::DiskFiles;
use bz_streams::{Device, process_words, report_named};
use std::process::ExitCode;

// The status of words that are no text, and of memory that is refused before the run.
const USAGE: u8 = 2;

const FAILED: u8 = 3;

// The status is that of a run over the words, the input, the outputs and the files of the process.
fn main(rt: HostRuntime) -> ExitCode {
    let mut err = Device::new(rt.stderr());
    let words = match process_words(&rt, "buildifier", &mut err) {
        Ok(Some(words)) => words,
        Ok(None) => return ExitCode::from(USAGE),
        Err(_) => {
            report_named(&mut err, "buildifier", "Memory");
            return ExitCode::from(FAILED);
        }
    };
    let alloc = rt.alloc();
    let mut input = Device::new(rt.stdin());
    let mut out = Device::new(rt.stdout());
    let mut files = DiskFiles::new(alloc, &rt);
    let exit = buildifier(alloc, &words, &mut input, &mut out, &mut err, &mut files);
    ExitCode::from(exit.status)
}
