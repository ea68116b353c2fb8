//! The rows that buildozer was worked out by: delete, undo and redo over standard input.
use crate::run::{BYTEWISE, Devices, SOUND, edit};
use bz_buildifier::Cut;
use std::alloc::Global;

/// Words, the devices of a run of them on `INPUT`, and what it leaves.
struct Row {
    words: &'static [&'static str],
    devices: Devices,
    output: &'static str,
    status: u8,
    // None: clap says what is wrong.
    errors: Option<&'static str>,
}

pub(crate) const INPUT: &str = "cc_library( name=\"x\" )\n# keep\ncc_binary( name=\"y\" )\n";

pub(crate) const WITHOUT_X: &str = "# keep\ncc_binary(name = \"y\")\n";

const NO_TARGET: &str =
    "buildozer: <stdin>: delete: NoTarget (41)\nbuildozer: the target means no rule of the file\n";

const UNKNOWN: &str =
    "buildozer: grow: Unknown (31)\nbuildozer: there is no command of this name: see docs/buildozer.md, or man buildozer\n";

const TOO_FAR: &str =
    "buildozer: <stdin>: undo 2: TooFar (61)\nbuildozer: there are fewer texts to go to: the command journal lists them\n";

const NO_RULE: &str =
    "buildozer: <stdin>: delete: NoTarget (41)\nbuildozer: no rule of <stdin> has the name 'z': did you mean 'x'?\n";

static ROWS: [Row; 9] = [
    Row {
        words: &["--", "delete", "undo", "redo", "-:x"],
        devices: SOUND,
        output: WITHOUT_X,
        status: 0,
        errors: Some(""),
    },
    Row {
        words: &["--", "delete", "undo", "-:x"],
        devices: SOUND,
        output: INPUT,
        status: 3,
        errors: Some(""),
    },
    Row {
        words: &["--", "delete", "undo 2", "-:x"],
        devices: SOUND,
        output: WITHOUT_X,
        status: 2,
        errors: Some(TOO_FAR),
    },
    Row {
        words: &["--", "delete", "-:z"],
        devices: SOUND,
        output: INPUT,
        status: 2,
        errors: Some(NO_RULE),
    },
    Row {
        words: &["--", "delete", "-:__pkg__"],
        devices: SOUND,
        output: INPUT,
        status: 2,
        errors: Some(NO_TARGET),
    },
    Row {
        words: &["delete", "-:x"],
        devices: SOUND,
        output: "",
        status: 1,
        errors: None,
    },
    Row {
        words: &["--", "grow", "-:x"],
        devices: SOUND,
        output: "",
        status: 1,
        errors: Some(UNKNOWN),
    },
    // A fault of standard error is passed over: its second byte is not taken, and the line ends there; the next one is whole.
    Row {
        words: &["--", "delete", "-:__pkg__"],
        devices: Devices {
            error: 2,
            ..BYTEWISE
        },
        output: INPUT,
        status: 2,
        errors: Some("bbuildozer: the target means no rule of the file\n"),
    },
    // Words that are no line of the program's leave the reader and standard output alone, which would fail at once.
    Row {
        words: &["delete", "-:x"],
        devices: Devices {
            read: 1,
            write: 1,
            ..BYTEWISE
        },
        output: "",
        status: 1,
        errors: None,
    },
];

/// Whether a run of the words leaves what is in the row.
fn holds(alloc: Global, row: &Row) -> bool {
    let left = edit(alloc, row.words, INPUT, row.devices);
    left.is(Cut::Whole, row.status, row.output.as_bytes())
        && match row.errors {
            Some(errors) => left.errors() == errors.as_bytes(),
            None => !left.errors().is_empty(),
        }
}

#[test]
fn rows(rt: HostRuntime) {
    for row in &ROWS {
        assert!(rt; holds(rt.alloc(), row), "in {:?}", row.words);
    }
}
