//! How a command ends.

ghost use Rattle.std.specs.Prelude.{◌≡◌};

use hh_base::value::Pos;
use module_compile::fault::ModuleFault;

/// Why a command ended as it did.
#[derive(Clone, Copy, PartialEq, Eq, Debug)]
pub enum Cause {
    /// What the command does was done, and all of its text was written.
    Fine,
    /// A read failed.
    ReadFault,
    /// The words are no command.
    Usage,
    /// The module text was refused.
    Module(ModuleFault),
    /// The host stores no hook for the body that is declared at this position.
    NoHook(Pos),
    /// This line of the scenario was refused, counted from 1.
    Scenario(u64),
    /// Memory ran out.
    NoMemory,
    /// A write failed.
    WriteFault,
    /// The input has more bytes than `INPUT_LIMIT`.
    TooLong,
}

impl Cause {
    ghost use Rattle.hiphop_main.specs.Status as spec;

    /// The exit status that stands for the cause.
    pub fn status(self) -> u8
        ensures { result ≡ spec.status_of self }
    {
        match self {
            Cause::Fine => 0,
            Cause::ReadFault => 1,
            Cause::Usage => 2,
            Cause::Module(_) | Cause::NoHook(_) => 3,
            Cause::Scenario(_) => 4,
            Cause::NoMemory => 5,
            Cause::WriteFault => 6,
            Cause::TooLong => 8,
        }
    }
}
