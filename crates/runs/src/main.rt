//! Answers cases of runs: words of a command line, standard input and files, and what the engines of both programs leave of
//! them over readers, writers and files in memory. A new case is a line or two of data, and costs no proof.
//!
//! Standard input is a sheet of cases, which is copied to standard output with the answers put in: the file `stdin` beside
//! `src` holds the cases, and `stdout` the same sheet with the answers that are wanted, worked out by hand. The library
//! `sheets` says how a sheet is written.
//!
//! The questions, with what they are about and what is answered:
//!
//! | Question | About | Answer |
//! |---|---|---|
//! | `buildifier WORDS`, `buildozer WORDS` | standard input, and files, each after a line with its name | status, standard error, standard output, and each file that is changed |
//! | `words` | words of buildozer, standard input, and files | the same |
//! | `status` | the same | the status, on which of the two outputs something is written, and each file that is changed |
//! | `laws` | nothing | that all laws of the engines were called |
//!
//! Each run is then made again with each call of its devices failing in turn (failing.rt). What is left wrongly is a line with `?` in
//! front, which says what failed and what is wrong; where nothing is, nothing is written.
//!
//! Words are separated by spaces; one that is empty or holds spaces is in double quotes.
#![tactic(auto)]

mod failing;
mod runs;

use anyhow::Result;
use sheets::{Case, CaseFault, Page, Questions, answer};

/// The questions of the sheet.
#[derive(Clone, Copy)]
struct RunQuestions;

impl Questions for RunQuestions {
    fn answer(self, case: &Case, page: &mut Page) -> Result<(), CaseFault> {
        if case.question.as_str() == "laws" {
            call_laws();
            return Ok(page.answer(b"called")?);
        }
        runs::answer(case, page)
    }
}

/// Calls each law: functions that do nothing, whose contracts say something of all runs.
fn call_laws() {
    bz_streams::lines_are_whole();
    bz_buildozer::worked_refusals();
    bz_buildozer::worked_runs();
    bz_buildozer::outcomes_are_exact();
    bz_buildifier::worked_formats();
    bz_buildifier::whole_runs_are_exact();
    bz_buildifier::cut_runs_are_begun();
    bz_buildifier::outcomes_agree();
}

fn main(rt: HostRuntime) -> Result<()> {
    answer(&rt, RunQuestions)
}
