ghost use Rattle.std.specs.Prelude.{◌≡◌};
ghost use Rattle.bz_command_syntax.specs.Faults.{command_fault_name, command_fault_number};

use bz_items::Memory;
use thiserror::Error;

/// Why a text gave no command.
#[derive(Clone, Copy, Debug, Error)]
pub enum CommandFault {
    /// There is no command of that name.
    #[error("Unknown")]
    Unknown,
    /// The number or the form of the command's arguments is wrong, or the text is longer than 65,536 bytes.
    #[error("Arguments")]
    Arguments,
    /// `regex` refuses the command's pattern for another cause than memory, and nothing else is wrong.
    #[error("BadPattern")]
    BadPattern,
    /// A growth was refused.
    #[error("Memory")]
    Memory,
}

impl CommandFault {
    /// The name by which the fault is reported.
    pub fn name(&self) -> &'static str
        ensures { result.now ≡ command_fault_name self.now }
    {
        match self {
            CommandFault::Unknown => "Unknown",
            CommandFault::Arguments => "Arguments",
            CommandFault::BadPattern => "BadPattern",
            CommandFault::Memory => "Memory",
        }
    }

    /// The number by which the fault is reported.
    pub fn number(&self) -> u8
        ensures { result ≡ command_fault_number self.now }
    {
        match self {
            CommandFault::Unknown => 31,
            CommandFault::Arguments => 32,
            CommandFault::BadPattern => 33,
            CommandFault::Memory => 8,
        }
    }
}

impl From<Memory> for CommandFault {
    ghost use Rattle.std.specs.Prelude.{◌≡◌};
    ghost use Rattle.bz_command_syntax.specs.declared.fault.CommandFault.TheVariants as fault;

    ghost from_gives = { λ _ made. made ≡ fault.Memory };

    fn from(_refused: Memory) -> CommandFault {
        CommandFault::Memory
    }
}
