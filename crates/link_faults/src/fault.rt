//! The faults of names, kinds and runs.

ghost use Rattle.std.specs.Prelude.{◌≡◌, ◌↔◌, IsTrue};
ghost use Rattle.link_faults.specs.Faults.{rank_of, earlier, is_before};

use hh_base::value::Pos;
use thiserror::Error;

/// What is wrong with a text. At one position the kind that is listed first is answered.
#[derive(Clone, Copy, PartialEq, Eq, Debug, Error)]
pub enum LinkKind {
    #[error("TwiceDeclared")]
    TwiceDeclared,
    #[error("UnknownSignal")]
    UnknownSignal,
    #[error("UnknownModule")]
    UnknownModule,
    #[error("UnknownTrap")]
    UnknownTrap,
    #[error("UnknownBody")]
    UnknownBody,
    #[error("KindWrong")]
    KindWrong,
    #[error("EmitsInput")]
    EmitsInput,
    #[error("BadBinding")]
    BadBinding,
    #[error("RunCycle")]
    RunCycle,
}

/// A fault and where the text has it.
#[derive(Clone, Copy, PartialEq, Eq, Debug, Error)]
#[error("{kind} at byte {}", .pos.0)]
pub struct LinkFault {
    pub pos: Pos,
    pub kind: LinkKind,
}

impl LinkKind {
    fn rank(self) -> u8
        ensures { result ≡ rank_of self }
    {
        match self {
            LinkKind::TwiceDeclared => 0,
            LinkKind::UnknownSignal => 1,
            LinkKind::UnknownModule => 2,
            LinkKind::UnknownTrap => 3,
            LinkKind::UnknownBody => 4,
            LinkKind::KindWrong => 5,
            LinkKind::EmitsInput => 6,
            LinkKind::BadBinding => 7,
            LinkKind::RunCycle => 8,
        }
    }
}

impl LinkFault {
    /// Whether it stands before the other one, or at its position and is listed before it.
    fn is_before(&self, other: &LinkFault) -> bool
        ensures { result ≡ is_before self.now other.now }
    {
        self.pos.0 < other.pos.0
            || (self.pos.0 == other.pos.0 && self.kind.rank() < other.kind.rank())
    }
}

/// The first of two faults.
pub fn earlier(a: Option<LinkFault>, b: Option<LinkFault>) -> Option<LinkFault>
    ensures { result ≡ earlier a b }
{
    match (a, b) {
        (Some(a), Some(b)) => Some(if b.is_before(&a) { b } else { a }),
        (Some(a), None) => Some(a),
        (None, b) => b,
    }
}
