ghost use Rattle.std.specs.Prelude.{◌≡◌};
ghost use Rattle.bz_value.specs.Refusals.{refusal_name, refusal_number};

use std::alloc::AllocError;
use std::error::Error;
use std::fmt;

/// Why an action on a BUILD file is refused. The file is then as before.
#[derive(Clone, Copy, Debug)]
pub enum Refusal {
    /// A growth was refused.
    Memory,
    /// The new text would be longer than `LENGTH_LIMIT`.
    TooLarge,
    /// The new tree would be deeper than `DEPTH_LIMIT`.
    TooDeep,
    /// The target means no rule, or the rule beside which a new one goes isn't there.
    NoTarget,
    /// The named attribute isn't there.
    NoAttribute,
    /// `rename` to an attribute that is there.
    AttributeExists,
    /// The attribute's value can't be taken as a list.
    NotAList,
    /// The attribute's value is no dict.
    NotADict,
    /// `copy` from a rule or an attribute that isn't there.
    NoSource,
    /// `new` with a name that a rule has.
    NameTaken,
    /// Undo or redo by more steps than there are.
    TooFar,
    /// A command would change the text after which there are 100,000 steps.
    Full,
    /// The note of an action is longer than 65,536 bytes.
    NoteTooLong,
}

impl Refusal {
    /// The name by which the refusal is reported.
    pub fn name(&self) -> &'static str
        ensures { result.now ≡ refusal_name self.now }
    {
        match self {
            Refusal::Memory => "Memory",
            Refusal::TooLarge => "TooLarge",
            Refusal::TooDeep => "TooDeep",
            Refusal::NoTarget => "NoTarget",
            Refusal::NoAttribute => "NoAttribute",
            Refusal::AttributeExists => "AttributeExists",
            Refusal::NotAList => "NotAList",
            Refusal::NotADict => "NotADict",
            Refusal::NoSource => "NoSource",
            Refusal::NameTaken => "NameTaken",
            Refusal::TooFar => "TooFar",
            Refusal::Full => "Full",
            Refusal::NoteTooLong => "NoteTooLong",
        }
    }

    /// The number by which the refusal is reported.
    pub fn number(&self) -> u8
        ensures { result ≡ refusal_number self.now }
    {
        match self {
            Refusal::Memory => 8,
            Refusal::TooLarge => 21,
            Refusal::TooDeep => 22,
            Refusal::NoTarget => 41,
            Refusal::NoAttribute => 42,
            Refusal::AttributeExists => 43,
            Refusal::NotAList => 44,
            Refusal::NotADict => 45,
            Refusal::NoSource => 46,
            Refusal::NameTaken => 47,
            Refusal::TooFar => 61,
            Refusal::Full => 62,
            Refusal::NoteTooLong => 63,
        }
    }
}

// The refusal's name.
impl fmt::Display for Refusal {
    ghost use Rattle.std.specs.Prelude.{Some};

    ghost output = { λ refusal. Some (refusal_name refusal) };

    fn fmt<W: fmt::Write>(&self, f: &mut fmt::Formatter<W>) -> fmt::Result {
        f.write_str(self.name())
    }
}

impl Error for Refusal {}

impl From<AllocError> for Refusal {
    ghost use Rattle.std.specs.Prelude.{◌≡◌};
    ghost use Rattle.bz_value.specs.declared.refusal.Refusal.TheVariants as r;

    ghost from_gives = { λ _ refusal. refusal ≡ r.Memory };

    fn from(_refused: AllocError) -> Refusal {
        Refusal::Memory
    }
}
