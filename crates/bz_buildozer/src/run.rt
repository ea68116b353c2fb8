//! How far a run has come.
ghost use Rattle.std.specs.Prelude.{◌≡◌};
ghost use Rattle.bz_buildozer.specs.Run.{nothing_done};
ghost use Rattle.bz_buildozer.specs.private.Shown.{progress_in};

use crate::step::OneStep;
use crate::workspace::Workspace;
use std::alloc::Global;

/// The packages used, what was printed, and whether a step has failed.
#[derive(Drop)]
pub(crate) struct Run {
    pub(crate) workspace: Workspace,
    pub(crate) printed: Vec<u8>,
    pub(crate) failed: bool,
    /// Whether it is a run of one step.
    pub(crate) once: OneStep,
}

/// A run that begins, of one step or of any.
pub(crate) fn begun(alloc: Global, once: OneStep) -> Run
    ensures begins { progress_in result ≡ nothing_done }
    ensures once { result.once ≡ once }
{
    Run {
        workspace: Workspace::new(alloc),
        printed: Vec::new(alloc),
        failed: false,
        once,
    }
}
