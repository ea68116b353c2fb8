//! Files of lines.
ghost use Rattle.std.specs.Prelude.{◌≡◌, ◌≢◌, None, true, IfOk, IfErr};
ghost use Rattle.bz_streams.specs.Outputs.{Counts};
ghost use Rattle.bz_buildozer.specs.Calls.{acts_over, world_of, AreCutOver};
ghost use Rattle.bz_buildozer.specs.Unread.{ActsGrow};
ghost use Rattle.bz_buildozer.specs.Keeps.{KeepsFolder};
ghost use Rattle.bz_buildozer.specs.Outcome.{IsScript, IsScriptFront, IsText, IsTextFault, reported_name};
ghost use Rattle.bz_buildozer.specs.Steps.{input_package};

use bz_files::{FileFault, FileKind, Files};
use bz_lex::{LENGTH_LIMIT, ReadFault};
use bz_streams::{Cut, InputFault, MOST, STDIN, Source, read_most};
use std::alloc::Global;

/// The name of the file of lines, and the path of the package, that means standard input.
pub(crate) const INPUT: &str = "-";

/// The name by which a file of lines is reported.
pub(crate) fn reported_name(name: &str) -> &str
    ensures { result.now ≡ reported_name name.now }
{
    if name == INPUT { STDIN } else { name }
}

/// The first bytes of a file of lines: all of standard input for `-`, else of a file, or one more than a text may have where there are more.
/// The error: why the run is cut, whole where there is no such file.
pub(crate) fn read_bytes<R: Source, F: Files>(
    alloc: Global,
    name: &str,
    input: &mut R,
    files: &mut F,
) -> Result<Vec<u8>, Cut>
    ensures ok { IfOk result (λ bytes. (F.honest files.old ≡ true
        → IsScriptFront (world_of R.Source F.Files input.old files.old (acts_over F.Files files.old files.new)) name.now bytes.items)
        × (R.faults input.new ≡ R.faults input.old) × (F.faults files.new ≡ F.faults files.old)) }
    ensures err { IfErr result (λ cut. (cut ≡ Cut.Whole → F.honest files.old ≡ true
        → IsScript (world_of R.Source F.Files input.old files.old (acts_over F.Files files.old files.new)) name.now None)
        × (cut ≢ Cut.Write) × AreCutOver R.Source F.Files cut input.old input.new files.old files.new) }
    ensures absent { IfErr result (λ cut. cut ≡ Cut.Whole → name.now ≢ input_package) }
    ensures works { R.sound input.old ≡ true → IfErr result (λ cut. cut ≢ Cut.Read) }
    ensures sound { R.sound input.new ≡ R.sound input.old }
    ensures input { name.now ≢ input_package → input.new ≡ input.old }
    ensures files { name.now ≡ input_package → files.new ≡ files.old }
    ensures folder { F.honest files.old ≡ true → F.folder files.new ≡ F.folder files.old }
    ensures time { F.honest files.old ≡ true → KeepsFolder F.Files files.old files.new }
    ensures counts { Counts (F.faults files.old) (F.faults files.new) }
    ensures grows { ActsGrow (F.acts files.old) (F.acts files.new) }
    ensures honest { F.honest files.new ≡ F.honest files.old }
{
    if name == INPUT {
        match read_most(alloc, input, MOST) {
            Ok(bytes) => Ok(bytes),
            Err(InputFault::Read) => Err(Cut::Read),
            Err(InputFault::Memory) => Err(Cut::Memory),
        }
    } else {
        let mut bytes = Vec::new(alloc);
        match files.read_most(name, FileKind::Any, MOST, &mut bytes) {
            Ok(()) => Ok(bytes),
            Err(FileFault::Absent) => Err(Cut::Whole),
            Err(FileFault::Memory) => Err(Cut::Memory),
            Err(FileFault::Open | FileFault::Write) => Err(Cut::Files),
        }
    }
}

/// The text of a file of lines. Errors: `TooLarge`, where it is longer than a text may be; else `NotUtf8`, with the length of the longest
/// beginning that is.
pub(crate) fn text_in(bytes: &[u8]) -> Result<&str, ReadFault>
    ensures ok { IfOk result (λ text. (text.now ≡ bytes.now) × IsText bytes.now) }
    ensures err { IfErr result (IsTextFault bytes.now) }
{
    if bytes.len() > LENGTH_LIMIT {
        return Err(ReadFault::TooLarge);
    }
    match str::from_utf8(bytes) {
        Ok(text) => Ok(text),
        Err(fault) => {
            let at = fault.valid_up_to();
            Err(ReadFault::NotUtf8 { at })
        }
    }
}
