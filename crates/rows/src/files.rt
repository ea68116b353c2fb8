//! The programs over files in memory: when they write one, and what they do where one fails.
use crate::run::{Program, SOUND, run};
use bz_buildifier::Cut;
use bz_files::MemoryFiles;
use std::alloc::{AllocError, Global};
use std::test::Fail;

/// Which calls of the files fail, counted from 1.
#[derive(Clone, Copy)]
enum Failure {
    Nothing,
    At(u64),
    /// Each read of the file f, and each call from this one on.
    RefusedAndFrom(u64),
}

/// A run over files, and what it leaves.
#[derive(Clone, Copy)]
struct Row {
    why: &'static str,
    program: Program,
    words: &'static [&'static str],
    before: &'static [(&'static str, &'static [u8])],
    failure: Failure,
    cut: Cut,
    status: u8,
    after: &'static [(&'static str, &'static [u8])],
    // How many files were written.
    written: usize,
}

const ODD: &[u8] = b"x=1";

const FORMATTED: &[u8] = b"x = 1\n";

const RULE: &[u8] = b"f(name=\"x\")\n";

/// A run of buildifier in which a call fails, and the second file is formatted nevertheless.
const GOES_ON: Row = Row {
    why: "",
    program: Program::Buildifier,
    words: &["f", "g"],
    before: &[("f", ODD), ("g", ODD)],
    failure: Failure::Nothing,
    cut: Cut::Files,
    status: 3,
    after: &[("f", ODD), ("g", FORMATTED)],
    written: 1,
};

/// A run of buildifier in which no call fails, and which leaves both files formatted.
const FORMATS: Row = Row {
    cut: Cut::Whole,
    status: 0,
    after: &[("f", FORMATTED), ("g", FORMATTED)],
    ..GOES_ON
};

/// A run of buildozer in which a call fails, and the package stays.
const STAYS: Row = Row {
    program: Program::Buildozer,
    words: &["delete", "//a:x"],
    before: &[("a/BUILD", RULE)],
    status: 2,
    after: &[("a/BUILD", RULE)],
    written: 0,
    ..GOES_ON
};

static ROWS: [Row; 12] = [
    Row {
        why: "check writes none",
        words: &["--mode=check", "f", "g"],
        before: &[("f", ODD), ("g", FORMATTED)],
        status: 4,
        after: &[("f", ODD), ("g", FORMATTED)],
        written: 0,
        ..FORMATS
    },
    Row {
        why: "a file that differs is written once",
        before: &[("f", ODD), ("g", FORMATTED)],
        ..FORMATS
    },
    Row {
        why: "formatted files are left",
        before: &[("f", FORMATTED), ("g", FORMATTED)],
        written: 0,
        ..FORMATS
    },
    Row {
        why: "behind a read that fails the run goes on",
        failure: Failure::At(1),
        ..GOES_ON
    },
    Row {
        why: "behind a second read that fails the run goes on",
        failure: Failure::At(2),
        ..GOES_ON
    },
    Row {
        why: "behind a write that fails the run goes on",
        failure: Failure::At(5),
        ..GOES_ON
    },
    Row {
        why: "a run makes six calls where the first is refused",
        failure: Failure::RefusedAndFrom(7),
        ..GOES_ON
    },
    Row {
        why: "the sixth of them writes",
        failure: Failure::RefusedAndFrom(6),
        after: &[("f", ODD), ("g", ODD)],
        written: 0,
        ..GOES_ON
    },
    Row {
        why: "a package of which BUILD.bazel fails is edited in BUILD",
        failure: Failure::At(1),
        after: &[("a/BUILD", b"")],
        written: 1,
        ..STAYS
    },
    Row {
        why: "a package that is not read stays",
        failure: Failure::At(2),
        ..STAYS
    },
    Row {
        why: "a package that is not read again stays",
        failure: Failure::At(3),
        ..STAYS
    },
    Row {
        why: "a package that is not written stays",
        failure: Failure::At(6),
        ..STAYS
    },
];

impl Failure {
    fn plan(self, files: &mut MemoryFiles) -> Result<(), AllocError> {
        match self {
            Failure::Nothing => {}
            Failure::At(call) => files.fail_at(call),
            Failure::RefusedAndFrom(call) => {
                files.refuse("f")?;
                files.stop_at(call);
            }
        }
        Ok(())
    }
}

/// Whether these files have these bytes, and there is no other one beside the package's.
fn stand(files: &MemoryFiles, texts: &[(&str, &[u8])]) -> bool {
    let is_there = |&(name, bytes): &(&str, &[u8])| files.bytes_at(name) == Some(bytes);
    texts.iter().all(is_there) && files.bytes_at("a/BUILD.bazel").is_none()
}

/// Whether a run over the row's files leaves what is in the row.
fn holds(alloc: Global, row: &Row) -> Result<bool, AllocError> {
    let mut files = MemoryFiles::of(alloc, row.before)?;
    row.failure.plan(&mut files)?;
    let left = run(alloc, row.program, row.words, b"", SOUND, &mut files);
    Ok(
        left.ended(row.cut, row.status)
            && files.moments().checked_sub(row.before.len()) == Some(row.written)
            && stand(&files, row.after),
    )
}

#[test]
fn rows(rt: HostRuntime) -> Result<(), Fail> {
    for row in &ROWS {
        assert!(rt; holds(rt.alloc(), row)?, "{}", row.why);
    }
    Ok(())
}
