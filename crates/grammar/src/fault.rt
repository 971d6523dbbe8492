//! Why a text is not read.
/// What is wrong at a token that a step of the cursor does not take. Two faults at one token are answered
/// in the order
/// `Unexpected` and `EndOfText`, `Deep`, `Large`.
#[derive(Clone, Copy, PartialEq, Eq, Debug)]
pub enum Fault {
    /// No text of the grammar goes on with this token.
    Unexpected,
    /// No text of the grammar ends here.
    EndOfText,
    /// One bracket more than may be open at once.
    Deep,
    /// One leaf or operator more than an outermost expression may have.
    Large,
}

/// A fault and its place: that of its token, or that of the end of the text.
#[derive(Clone, Copy, PartialEq, Eq, Debug)]
pub struct Refusal {
    pub place: u32,
    pub fault: Fault,
}
