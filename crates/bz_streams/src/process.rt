//! The words of a process.
ghost use Rattle.std.specs.Prelude.{◌≡◌, IfOk, OnErr, MatchOption, codes};
ghost use Rattle.bz_streams.specs.Faults.{AppendsUnlessFailed};
ghost use Rattle.bz_streams.specs.Reported.{named_line};

use crate::{Sink, report_named};
use std::alloc::AllocError;
use std::env;
use std::io::ErrorKind;
use std::rt::Env;

/// The words of the process, its own name left out. Where one is no text, that is reported of the program of this name, and none
/// are given. The error: memory was refused, and nothing is printed.
pub fn process_words<R: Env + AllocGlobal, E: Sink>(
    rt: &R,
    program: &str,
    err: &mut E,
) -> Result<Option<Vec<String>>, AllocError>
    ensures ok { IfOk result (λ words. MatchOption words (AppendsUnlessFailed (E.faults err.old) (E.faults err.new)
        (E.contents err.old) (E.contents err.new) (named_line program.now (codes "an argument is not UTF-8"))) (λ _. err.new ≡ err.old)) }
    ensures err { OnErr result (err.new ≡ err.old) }
{
    match env::args(rt) {
        Ok(words) => Ok(Some(words.skip(1).collect(rt.alloc())?)),
        Err(fault) if fault.kind() == ErrorKind::OutOfMemory => Err(AllocError),
        Err(_) => {
            report_named(err, program, "an argument is not UTF-8");
            Ok(None)
        }
    }
}
