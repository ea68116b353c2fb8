//! Runs in which a call of a device fails: each call in turn, and what is wrong with what is left.
use crate::runs::{Left, Task};
use bz_buildifier::Cut;
use bz_items::Memory;
use sheets::{CaseFault, Page};
use std::alloc::Global;

/// How many bytes a reader gives and a writer takes at a time, where it is not a byte a call.
const STEP: usize = 1_048_576;

/// Texts of at most this many bytes are also read and written a byte a call.
const SHORT: usize = 200;

/// Of longer standard input only the first reads are made to fail.
const LONG: usize = 65_536;

/// The number of the last call that is tried of long standard input, and of any other device.
const FEW: u64 = 4;

const MOST: u64 = 1000;

/// What fails.
#[derive(Clone, Copy, PartialEq, Eq)]
pub(crate) enum Way {
    /// A read of standard input.
    Read,
    /// A write to standard output.
    Write,
    /// A write to standard error.
    Report,
    /// A call of the files before its work.
    FileBefore,
    /// A call of the files when its work is done.
    FileAfter,
    /// All calls of the files from one on.
    FilesFrom,
}

/// Which call fails, from 1 (at 0 none does), and how many bytes its device gives or takes a call.
#[derive(Clone, Copy)]
pub(crate) struct Failure {
    pub(crate) way: Way,
    pub(crate) call: u64,
    step: usize,
}

/// No call fails.
pub(crate) const SOUND: Failure = Failure {
    way: Way::Read,
    call: 0,
    step: STEP,
};

/// What is said below the name of what is there and can't be opened.
const DIRECTORY_HINT: &[u8] = b": if this is a directory, see buildifier-tree";

/// What may be left of a task in which something fails.
#[derive(Drop)]
pub(crate) struct Trial<'a> {
    task: Task<'a>,
    sound: Left,
    // What a run leaves that doesn't find one of the files, of each of them.
    without: Vec<Left>,
    // The files that are looked at, and the journals beside them.
    names: Vec<String>,
}

impl Way {
    /// By what a run is cut in which this fails.
    fn cut(self) -> Cut {
        match self {
            Way::Read => Cut::Read,
            Way::Write => Cut::Write,
            Way::Report => Cut::Whole,
            Way::FileBefore | Way::FileAfter | Way::FilesFrom => Cut::Files,
        }
    }

    fn name(self) -> &'static str {
        match self {
            Way::Read => "a read of standard input fails",
            Way::Write => "a write to standard output fails",
            Way::Report => "a write to standard error fails",
            Way::FileBefore => "a call of the files fails before its work",
            Way::FileAfter => "a call of the files fails behind its work",
            Way::FilesFrom => "the calls of the files fail from one on",
        }
    }
}

impl Failure {
    fn new(way: Way, call: u64, step: usize) -> Failure {
        Failure { way, call, step }
    }

    /// The step of the device that fails in this way, and the number of the call; the other ones are sound.
    pub(crate) fn of(self, way: Way) -> (usize, u64) {
        if self.way == way {
            (self.step, self.call)
        } else {
            (STEP, 0)
        }
    }

    /// Whether its device takes a byte a call.
    fn is_bytewise(self) -> bool {
        self.step == 1
    }

    /// How many calls came before.
    fn before(self) -> usize {
        (self.call as usize).saturating_sub(1)
    }
}

/// Whether a line is among those of a text.
fn has_line(text: &[u8], line: &[u8]) -> bool {
    text.split(|byte| *byte == b'\n').any(|other| other == line)
}

/// Whether the lines of a text occur in another one, in their order.
fn is_within(part: &[u8], whole: &[u8]) -> bool {
    if part.is_empty() {
        return true;
    }
    let part = part.strip_suffix(b"\n").unwrap_or(part);
    let mut lines = part.split(|byte| *byte == b'\n');
    let mut wanted = lines.next();
    for line in whole.split(|byte| *byte == b'\n') {
        if wanted == Some(line) {
            wanted = lines.next();
        }
    }
    wanted.is_none()
}

/// Whether a text is another one that lacks the end of a line from this place on.
fn is_cut_at(part: &[u8], whole: &[u8], place: usize) -> bool {
    let (Some(front), Some(back)) = (part.get(..place), part.get(place..)) else {
        return false;
    };
    match whole.strip_suffix(back) {
        Some(rest) => {
            rest.len() > front.len() && rest.starts_with(front) && rest.ends_with(b"\n")
        }
        None => false,
    }
}

/// Whether a text is another one that lacks the end of a line.
fn is_cut_once(part: &[u8], whole: &[u8]) -> bool {
    (0..part.len().saturating_add(1)).any(|place| is_cut_at(part, whole, place))
}

/// Whether a line says what a package is, or what formats a directory or standard input: that depends on why a file can't be opened.
fn is_hint(line: &[u8]) -> bool {
    line.starts_with(b"buildozer: a package is ")
        || line.starts_with(b"buildozer: ... is ")
        || line.ends_with(DIRECTORY_HINT)
        || line.ends_with(b": standard input is formatted where no file is named")
}

/// Whether each line of a text but such hints is one of another.
fn says_no_more(text: &[u8], other: &[u8]) -> bool {
    text.split(|byte| *byte == b'\n')
        .all(|line| is_hint(line) || has_line(other, line))
}

/// Whether two texts have the same lines but for such hints.
fn are_alike_but_hints(text: &[u8], other: &[u8]) -> bool {
    says_no_more(text, other) && says_no_more(other, text)
}

/// Whether a line says that a device or a file failed.
fn is_fault_line(line: &[u8]) -> bool {
    line.ends_with(b": cannot open") || line.ends_with(b": cannot write")
}

/// The given files but the one at this place.
fn others<'a>(
    alloc: Global,
    given: &[(&'a str, &'a [u8])],
    place: usize,
) -> Result<Vec<(&'a str, &'a [u8])>, Memory> {
    let mut files = Vec::new(alloc);
    for (i, &file) in given.iter().enumerate() {
        if i != place {
            files.push(file)?;
        }
    }
    Ok(files)
}

/// The names of the files, and of the journals beside them.
fn names_of(alloc: Global, given: &[(&str, &[u8])]) -> Result<Vec<String>, Memory> {
    let mut names = Vec::new(alloc);
    for &(name, _) in given {
        names.push(String::from_str(alloc, name)?)?;
        names.push(format!(in alloc; "{name}.journal")?)?;
    }
    Ok(names)
}

impl<'a> Trial<'a> {
    /// The task, of which this is what its sound run left.
    pub(crate) fn new(task: Task<'a>, sound: Left) -> Result<Trial<'a>, Memory> {
        let mut without = Vec::new(task.alloc);
        for place in 0..task.given.len() {
            let given = others(task.alloc, task.given, place)?;
            without.push(task.run(given.as_slice(), SOUND)?)?;
        }
        let names = names_of(task.alloc, task.given)?;
        Ok(Trial {
            task,
            sound,
            without,
            names,
        })
    }

    /// Runs the task with each call failing, and writes what is wrong with what is left.
    pub(crate) fn try_all(&self, page: &mut Page) -> Result<(), CaseFault> {
        if self.task.input.len() > LONG {
            self.sweep(Way::Read, STEP, FEW, page)?;
            return Ok(());
        }
        self.sweep(Way::Read, STEP, MOST, page)?;
        self.sweep(Way::Write, STEP, MOST, page)?;
        self.sweep(Way::Report, STEP, MOST, page)?;
        let calls = self.sweep(Way::FileBefore, STEP, MOST, page)?;
        for call in 1..calls.saturating_add(1) {
            self.try_call(Failure::new(Way::FileAfter, call, STEP), page)?;
            self.try_call(Failure::new(Way::FilesFrom, call, STEP), page)?;
        }
        self.bytewise(Way::Read, self.task.input, page)?;
        self.bytewise(Way::Write, self.sound.out.bytes(), page)?;
        self.bytewise(Way::Report, self.sound.err.bytes(), page)
    }

    /// The same of a device that takes a byte a call, where its text is short: there are as many calls as bytes, and one more
    /// that reads the end.
    fn bytewise(&self, way: Way, text: &[u8], page: &mut Page) -> Result<(), CaseFault> {
        if text.len() > SHORT {
            return Ok(());
        }
        let calls = self.sweep(way, 1, MOST, page)?;
        let is_whole = if way == Way::Read {
            calls == 0 || calls == (text.len() as u64).saturating_add(1)
        } else {
            calls == text.len() as u64
        };
        if !is_whole {
            let failure = Failure::new(way, calls, 1);
            self.report(failure, "there were not as many calls as bytes", page)?;
        }
        Ok(())
    }

    /// Makes each call of a device fail, up to the first that a run doesn't meet or the last that is to be tried. How many were met.
    fn sweep(&self, way: Way, step: usize, last: u64, page: &mut Page) -> Result<u64, CaseFault> {
        let mut met = 0;
        for call in 1..last {
            if !self.try_call(Failure::new(way, call, step), page)? {
                return Ok(met);
            }
            met = call;
        }
        Ok(met)
    }

    /// A run in which this call fails. Whether it met that call.
    fn try_call(&self, failure: Failure, page: &mut Page) -> Result<bool, CaseFault> {
        let left = self.task.run(self.task.given, failure)?;
        let is_met = self.is_met(failure.way, &left);
        let wrong = if is_met {
            self.wrong(failure, &left)
        } else {
            self.change(&left)
        };
        if let Some(wrong) = wrong {
            self.report(failure, wrong, page)?;
        }
        Ok(is_met)
    }

    /// Whether something failed in a run: it is then cut, or something is missing on standard error.
    fn is_met(&self, way: Way, left: &Left) -> bool {
        if way == Way::Report {
            left.err.bytes() != self.sound.err.bytes()
        } else {
            left.exit.cut != Cut::Whole
        }
    }

    /// Writes what is wrong with what a run left.
    fn report(&self, failure: Failure, wrong: &str, page: &mut Page) -> Result<(), CaseFault> {
        let Failure { way, call, step } = failure;
        let way = way.name();
        let line = format!(in self.task.alloc; "{way}, call {call}, bytes a call {step}: {wrong}")?;
        Ok(page.line("?", line.as_bytes())?)
    }

    /// Whether a run left in its files what the sound one did.
    fn has_sound_files(&self, left: &Left) -> bool {
        self.names.iter().all(|name| {
            left.files.bytes_at(name.as_str()) == self.sound.files.bytes_at(name.as_str())
        })
    }

    /// Whether all but standard error is as in the sound run, and but what it was cut by.
    fn is_sound_beside(&self, left: &Left) -> bool {
        left.exit.status == self.sound.exit.status
            && left.out.bytes() == self.sound.out.bytes()
            && self.has_sound_files(left)
    }

    /// What is wrong where nothing failed.
    fn change(&self, left: &Left) -> Option<&'static str> {
        if self.is_sound_beside(left) && left.err.bytes() == self.sound.err.bytes() {
            None
        } else {
            Some("something is not as in the sound run")
        }
    }

    /// What is wrong where something failed.
    fn wrong(&self, failure: Failure, left: &Left) -> Option<&'static str> {
        if left.exit.cut != failure.way.cut() {
            return Some("the run is not cut by what failed");
        }
        if failure.way == Way::Report {
            return self.wrong_report(failure, left);
        }
        if !self.is_failed(failure.way, left.exit.status) {
            return Some("the status is not that of a failure");
        }
        if !self.is_output(failure, left.out.bytes()) {
            return Some("standard output is not what was to be written before");
        }
        if !self.are_files(left) {
            return Some("a file holds bytes that no sound run gives it");
        }
        if self.is_written(failure.way, left) {
            return Some("a file is told as not written, and was");
        }
        self.wrong_lines(left)
    }

    /// A fault of standard error is passed over.
    fn wrong_report(&self, failure: Failure, left: &Left) -> Option<&'static str> {
        if !self.is_sound_beside(left) {
            return Some("something is not as in the sound run");
        }
        let (reported, whole) = (left.err.bytes(), self.sound.err.bytes());
        let is_cut = if failure.is_bytewise() {
            is_cut_at(reported, whole, failure.before())
        } else {
            is_cut_once(reported, whole)
        };
        if is_cut {
            None
        } else {
            Some("standard error lacks more than the end of a line")
        }
    }

    /// Whether a status is that of a failure. A file of lines that can't be read is a fault of usage.
    fn is_failed(&self, way: Way, status: u8) -> bool {
        status == self.task.status_of_failure()
            || status == 1 && way != Way::Write && self.task.has_word("-f")
    }

    /// Whether this may be on standard output.
    fn is_output(&self, failure: Failure, out: &[u8]) -> bool {
        let whole = self.sound.out.bytes();
        if failure.way == Way::Write {
            return whole.starts_with(out)
                && (!failure.is_bytewise() || out.len() == failure.before());
        }
        if failure.way == Way::Read && self.task.given.is_empty() {
            return out.is_empty();
        }
        is_within(out, whole)
            || self
                .without
                .iter()
                .any(|other| is_within(out, other.out.bytes()))
    }

    /// Whether each file holds at each moment of the run what it held before, or at some moment of a sound run.
    fn are_files(&self, left: &Left) -> bool {
        for moment in left.moments..left.files.moments().saturating_add(1) {
            for name in self.names.as_slice() {
                let name = name.as_str();
                if !self.may_hold(name, left.files.bytes_then(moment, name)) {
                    return false;
                }
            }
        }
        true
    }

    fn may_hold(&self, name: &str, bytes: Option<&[u8]>) -> bool {
        let sound = &self.sound;
        if bytes == sound.files.bytes_then(sound.moments, name) {
            return true;
        }
        bytes.is_some()
            && (sound.has_held(name, bytes)
                || self.without.iter().any(|other| other.has_held(name, bytes)))
    }

    /// Whether a file was written that is reported as not written, where no call went well after the failure and no call wrote before.
    fn is_written(&self, way: Way, left: &Left) -> bool {
        if way != Way::FilesFrom || self.task.has_word("--journal") {
            return false;
        }
        self.task.given.iter().any(|&(name, before)| {
            left.files.bytes_at(name) != Some(before) && reports_unwritten(left.err.bytes(), name)
        })
    }

    /// Whether a sound run prints this line, or it says that there is no text to go back to, after one that was not opened, or is its hint.
    fn is_known(&self, line: &[u8]) -> bool {
        line.ends_with(b": TooFar (61)")
            || line.ends_with(DIRECTORY_HINT)
            || line.starts_with(b"buildozer: to undo or redo ")
            || line.starts_with(b"buildozer: there are fewer texts ")
            || has_line(self.sound.err.bytes(), line)
            || self
                .without
                .iter()
                .any(|other| has_line(other.err.bytes(), line))
    }

    /// Whether all is as in the sound run, but for hints.
    fn is_unchanged(&self, left: &Left) -> bool {
        self.is_sound_beside(left) && are_alike_but_hints(left.err.bytes(), self.sound.err.bytes())
    }

    /// Each line is one of a sound run or says what failed, and one says what failed unless that changed nothing.
    fn wrong_lines(&self, left: &Left) -> Option<&'static str> {
        let mut is_reported = false;
        for line in left.err.bytes().split(|byte| *byte == b'\n') {
            if is_fault_line(line) {
                is_reported = is_reported || !has_line(self.sound.err.bytes(), line);
            } else if !self.is_known(line) {
                return Some("a line on standard error says something else");
            }
        }
        if is_reported || self.is_unchanged(left) {
            None
        } else {
            Some("nothing says what failed")
        }
    }
}

/// Whether a line says that this file was not written.
fn reports_unwritten(text: &[u8], name: &str) -> bool {
    text.split(|byte| *byte == b'\n').any(|line| line.strip_suffix(b": cannot write")
        == Some(name.as_bytes()))
}
