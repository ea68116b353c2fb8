//! The engines of both programs, with the readers, writers and files that they run over. The work is in the crates below; this one
//! has their names in one place.
#![tactic(auto)]

pub use bz_buildifier::buildifier;
pub use bz_buildozer::buildozer;
pub use bz_files::{DiskFiles, FileFault, FileKind, Files, MemoryFiles};
pub use bz_streams::{Cut, Device, Exit, MemorySink, MemorySource, PortFault, Sink, Source};
