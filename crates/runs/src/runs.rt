//! Runs of the programs over readers and writers in memory.
use crate::failing::{Failure, SOUND, Trial, Way};
use bz_buildifier::{Cut, Exit, MemorySink, MemorySource, buildifier};
use bz_buildozer::buildozer;
use bz_files::MemoryFiles;
use bz_items::Memory;
use sheets::{Case, CaseFault, Page, utf8_of};
use std::alloc::Global;

/// A run that is wanted: of which program, by which words, over which standard input and files.
#[derive(Clone, Copy)]
pub(crate) struct Task<'a> {
    pub(crate) alloc: Global,
    is_buildifier: bool,
    words: &'a [&'a str],
    pub(crate) input: &'a [u8],
    pub(crate) given: &'a [(&'a str, &'a [u8])],
}

/// What a run leaves.
#[derive(Drop)]
pub(crate) struct Left {
    pub(crate) exit: Exit,
    pub(crate) out: MemorySink,
    pub(crate) err: MemorySink,
    pub(crate) files: MemoryFiles,
    // How many moments the files had before the run.
    pub(crate) moments: usize,
}

/// Writes what a run leaves over the standard input and the files of the case; then each file that it changed.
pub(crate) fn answer(case: &Case, page: &mut Page) -> Result<(), CaseFault> {
    let alloc = case.alloc;
    let question = case.question.as_str();
    let (line, place) = match question {
        "buildifier" | "buildozer" => (case.argument()?, 0),
        "words" | "status" => (case.text(0)?, 1),
        _ => return Err(CaseFault::Sheet("no such question")),
    };
    let words = words_of(alloc, line)?;
    let given = files_of(case, place + 1)?;
    let task = Task {
        alloc,
        is_buildifier: question == "buildifier",
        words: words.as_slice(),
        input: case.given_text(place)?,
        given: given.as_slice(),
    };
    let left = task.run(task.given, SOUND)?;
    if question == "status" {
        left.show_status(alloc, page)?;
    } else {
        left.show(alloc, page)?;
    }
    show_changed(task.given, &left.files, page)?;
    Trial::new(task, left)?.try_all(page)
}

impl Task<'_> {
    /// A run over these files, in which this call fails. The error: memory was refused for the files.
    pub(crate) fn run(self, given: &[(&str, &[u8])], failure: Failure) -> Result<Left, Memory> {
        let mut files = MemoryFiles::of(self.alloc, given)?;
        match failure.way {
            Way::FileBefore => files.fail_at(failure.call),
            Way::FileAfter => files.fail_after(failure.call),
            Way::FilesFrom => files.stop_at(failure.call),
            Way::Read | Way::Write | Way::Report => {}
        }
        Ok(self.end(failure, files))
    }

    /// The run of the program, of which nothing has to be known here.
    fn end(self, failure: Failure, mut files: MemoryFiles) -> Left {
        let moments = files.moments();
        let (step, call) = failure.of(Way::Read);
        let mut source = MemorySource::new(self.input, step, call);
        let (step, call) = failure.of(Way::Write);
        let mut out = MemorySink::new(self.alloc, step, call);
        let (step, call) = failure.of(Way::Report);
        let mut err = MemorySink::new(self.alloc, step, call);
        let (alloc, words) = (self.alloc, self.words);
        let exit = if self.is_buildifier {
            buildifier(alloc, words, &mut source, &mut out, &mut err, &mut files)
        } else {
            buildozer(alloc, words, &mut source, &mut out, &mut err, &mut files)
        };
        Left {
            exit,
            out,
            err,
            files,
            moments,
        }
    }

    /// The status of a run in which something failed.
    pub(crate) fn status_of_failure(self) -> u8 {
        if self.is_buildifier { 3 } else { 2 }
    }

    pub(crate) fn has_word(self, wanted: &str) -> bool {
        self.words.iter().any(|word| *word == wanted)
    }
}

/// A file of a case: its text after a line with its name.
fn file_of(text: &[u8]) -> Result<(&str, &[u8]), CaseFault> {
    match text.iter().position(|byte| *byte == b'\n') {
        Some(end) => Ok((utf8_of(&text[..end])?, &text[end + 1..])),
        None => Err(CaseFault::Sheet("a file has no name")),
    }
}

/// The files of a case: its texts from this place on.
fn files_of(case: &Case, place: usize) -> Result<Vec<(&str, &[u8])>, CaseFault> {
    let mut files = Vec::new(case.alloc);
    for text in case.texts.as_slice().iter().skip(place) {
        let file = file_of(text.as_slice())?;
        files.push(file).map_err(Memory::from)?;
    }
    Ok(files)
}

/// Writes each file that is another one than was given.
fn show_changed(
    given: &[(&str, &[u8])],
    files: &MemoryFiles,
    page: &mut Page,
) -> Result<(), CaseFault> {
    for &(name, before) in given {
        let after = files.bytes_at(name).unwrap_or_default();
        if after != before {
            page.answer(name.as_bytes())?;
            page.text("<", after)?;
        }
    }
    Ok(())
}

/// The words of a line: what is between spaces, and what is between double quotes.
fn words_of(alloc: Global, line: &str) -> Result<Vec<&str>, Memory> {
    let mut words = Vec::new(alloc);
    let mut is_quoted = false;
    for piece in line.split('"') {
        if is_quoted {
            words.push(piece)?;
        } else {
            for word in piece.split_whitespace() {
                words.push(word)?;
            }
        }
        is_quoted = !is_quoted;
    }
    Ok(words)
}

impl Left {
    /// Whether a file held these bytes at some moment from the beginning of the run on.
    pub(crate) fn has_held(&self, name: &str, bytes: Option<&[u8]>) -> bool {
        (self.moments..self.files.moments().saturating_add(1)).any(|moment| self
            .files
            .bytes_then(moment, name)
            == bytes)
    }

    /// Writes the status, and where the run was cut.
    fn shown_exit(&self, alloc: Global) -> Result<String, Memory> {
        let status = self.exit.status;
        match self.exit.cut {
            Cut::Whole => format!(in alloc; "{status}"),
            cut => format!(in alloc; "{status} cut by {cut:?}"),
        }
    }

    fn show(&self, alloc: Global, page: &mut Page) -> Result<(), Memory> {
        page.answer(self.shown_exit(alloc)?.as_bytes())?;
        if !self.err.bytes().is_empty() {
            page.text_lines("!", self.err.bytes())?;
        }
        if !self.out.bytes().is_empty() {
            page.text("<", self.out.bytes())?;
        }
        Ok(())
    }

    /// Writes whether something is on standard error and standard output, not what.
    fn show_status(&self, alloc: Global, page: &mut Page) -> Result<(), Memory> {
        let mut line = self.shown_exit(alloc)?;
        if !self.err.bytes().is_empty() {
            line.push_str(", something on standard error")?;
        }
        if !self.out.bytes().is_empty() {
            line.push_str(", something on standard output")?;
        }
        page.answer(line.as_bytes())
    }
}
