//! The modes of buildifier.
ghost use Rattle.std.specs.Prelude.{◌≡◌};
ghost use Rattle.bz_buildifier.specs.Modes.{mode_called, mode_in_place};

/// What buildifier does with a text that formatting changes.
#[derive(Clone, Copy, PartialEq, Eq)]
pub(crate) enum Mode {
    /// The file is rewritten; the formatted text of standard input goes to standard output.
    Fix,
    /// Its name is printed.
    Check,
    /// The formatted text goes to standard output.
    PrintIfChanged,
}

/// All names of modes.
pub(crate) const MODES: [&str; 3] = ["fix", "check", "print_if_changed"];

/// The line of what does the work of a mode of bazelbuild's buildifier that is none here; nothing of any other text.
pub(crate) fn mode_in_place(name: &str) -> &'static str
    ensures { result.now ≡ mode_in_place name.now }
{
    match name {
        "diff" => "buildifier: buildifier-tree --mode=diff FILE.. shows what would change\n",
        _ => "",
    }
}

impl Mode {
    /// The mode of this name, if it is one.
    pub(crate) fn called(name: &str) -> Option<Mode>
        ensures { result ≡ mode_called name.now }
    {
        match name {
            "fix" => Some(Mode::Fix),
            "check" => Some(Mode::Check),
            "print_if_changed" => Some(Mode::PrintIfChanged),
            _ => None,
        }
    }
}
