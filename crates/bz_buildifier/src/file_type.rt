//! How the files of a run are read.
ghost use Rattle.std.specs.Prelude.{◌≡◌, eqb};
ghost use Rattle.std.specs.List.{ends_with};
ghost use Rattle.bz_buildifier.specs.Modes.{is_bzl, type_called, type_in_place};

/// What the files of a run are, standard input among them.
#[derive(Clone, Copy, PartialEq, Eq)]
pub(crate) enum FileType {
    /// .bzl files where their names end in `.bzl`, else BUILD files.
    Auto,
    /// BUILD files, whatever their names are.
    Build,
    /// .bzl files, whatever their names are.
    Bzl,
}

/// All names of types.
pub(crate) const TYPES: [&str; 3] = ["auto", "build", "bzl"];

/// The line of what does the work of a type of bazelbuild's buildifier that is none here; nothing of any other text.
pub(crate) fn type_in_place(name: &str) -> &'static str
    ensures { result.now ≡ type_in_place name.now }
{
    match name {
        "module" | "workspace" => "buildifier: such files are read with --type=build\n",
        "default" => "buildifier: Starlark of any kind is read with --type=bzl\n",
        _ => "",
    }
}

/// Whether a name ends in this.
pub(crate) fn ends_in(name: &str, end: &str) -> bool
    ensures { result ≡ ends_with eqb name.now end.now }
{
    name.ends_with(end)
}

impl FileType {
    /// The type of this name, if it is one.
    pub(crate) fn called(name: &str) -> Option<FileType>
        ensures { result ≡ type_called name.now }
    {
        match name {
            "auto" => Some(FileType::Auto),
            "build" => Some(FileType::Build),
            "bzl" => Some(FileType::Bzl),
            _ => None,
        }
    }

    /// Whether a file of this name is a .bzl file.
    pub(crate) fn is_bzl(self, name: &str) -> bool
        ensures { result ≡ is_bzl self name.now }
    {
        match self {
            FileType::Auto => ends_in(name, ".bzl"),
            FileType::Build => false,
            FileType::Bzl => true,
        }
    }
}
