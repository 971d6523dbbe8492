//! Why a module text is no program.

ghost use Rattle.std.specs.Prelude.{◌≡◌};
ghost use Rattle.module_compile.specs.FaultForms as spec;

use hh_base::value::Pos;
use kernel_expand::fault::ExpandFault;
use link_faults::fault::{LinkFault, LinkKind};
use module_reader::fault::ReadFault;

/// Why a module text is no program, by the step that refuses it. A later step refuses only what the earlier
/// ones take.
#[derive(Clone, Copy, PartialEq, Eq, Debug)]
pub enum ModuleFault {
    /// The first byte that is not UTF-8.
    NotUtf8(Pos),
    Read(ReadFault),
    Link(LinkFault),
    Expand(ExpandFault),
}

/// Why a module text was not compiled.
#[derive(Clone, Copy, PartialEq, Eq, Debug)]
pub enum CompileError {
    Fault(ModuleFault),
    NoMemory,
}

fn link_word(kind: LinkKind) -> &'static str
    ensures { result.now ≡ spec.link_word kind }
{
    match kind {
        LinkKind::TwiceDeclared => "TwiceDeclared",
        LinkKind::UnknownSignal => "UnknownSignal",
        LinkKind::UnknownModule => "UnknownModule",
        LinkKind::UnknownTrap => "UnknownTrap",
        LinkKind::UnknownBody => "UnknownBody",
        LinkKind::KindWrong => "KindWrong",
        LinkKind::EmitsInput => "EmitsInput",
        LinkKind::BadBinding => "BadBinding",
        LinkKind::RunCycle => "RunCycle",
    }
}

fn expand_word(fault: ExpandFault) -> &'static str
    ensures { result.now ≡ spec.expand_word fault }
{
    match fault {
        ExpandFault::TooLarge(_) => "TooLarge",
        ExpandFault::TooDeep(_) => "TooDeep",
        ExpandFault::TrapsDeep(_) => "TrapsDeep",
        ExpandFault::ManyAsyncs(_) => "ManyAsyncs",
        ExpandFault::CopyLarge(_) => "CopyLarge",
        ExpandFault::InstantLoop(_) => "InstantLoop",
        ExpandFault::NoMemory => "NoMemory",
    }
}

fn expand_place(fault: ExpandFault) -> u32
    ensures { result ≡ spec.expand_place fault }
{
    match fault {
        ExpandFault::InstantLoop(pos) => pos.0,
        _ => 0,
    }
}

impl ModuleFault {
    /// The word of its kind in output.
    pub fn word(self) -> &'static str
        ensures { result.now ≡ spec.word_of self }
    {
        match self {
            ModuleFault::NotUtf8(_) => "NotUtf8",
            ModuleFault::Read(fault) => fault.word(),
            ModuleFault::Link(fault) => link_word(fault.kind),
            ModuleFault::Expand(fault) => expand_word(fault),
        }
    }

    /// The number of bytes of the text before it. The five counted kinds, and that there is no module, stand
    /// at 0.
    pub fn place(self) -> u32
        ensures { result ≡ spec.place_of self }
    {
        match self {
            ModuleFault::NotUtf8(pos) => pos.0,
            ModuleFault::Read(fault) => fault.place(),
            ModuleFault::Link(fault) => fault.pos.0,
            ModuleFault::Expand(fault) => expand_place(fault),
        }
    }

    /// The number that passes a limit, of the five counted kinds.
    pub fn number(self) -> Option<u64>
        ensures { result ≡ spec.number_of self }
    {
        match self {
            ModuleFault::Expand(
                ExpandFault::TooLarge(n)
                | ExpandFault::TooDeep(n)
                | ExpandFault::TrapsDeep(n)
                | ExpandFault::ManyAsyncs(n)
                | ExpandFault::CopyLarge(n),
            ) => Some(n),
            _ => None,
        }
    }
}
