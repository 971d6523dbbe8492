//! The keywords of the language.
ghost use Rattle.std.specs.Prelude.{◌≡◌};
ghost use Rattle.hh_base.specs.Keyword.{keyword_text, keyword_among, keyword_of};

/// A word of the language that is no name of a signal, a module, a body, a host or a trap.
#[derive(Clone, Copy, PartialEq, Eq, Debug)]
pub enum Keyword {
    Module,
    In,
    Out,
    Inout,
    Body,
    Host,
    Signal,
    Nothing,
    Pause,
    Halt,
    Emit,
    Sustain,
    If,
    Else,
    Loop,
    Fork,
    Par,
    Await,
    Every,
    Do,
    Abort,
    WeakAbort,
    Suspend,
    Immediate,
    Count,
    Trap,
    Break,
    Run,
    Async,
    Call,
    Kill,
    Resume,
    Combine,
    Pure,
    Int,
    Bool,
    Text,
    True,
    False,
}

/// Each keyword once.
pub const KEYWORDS: [Keyword; 39] = [
    Keyword::Module,
    Keyword::In,
    Keyword::Out,
    Keyword::Inout,
    Keyword::Body,
    Keyword::Host,
    Keyword::Signal,
    Keyword::Nothing,
    Keyword::Pause,
    Keyword::Halt,
    Keyword::Emit,
    Keyword::Sustain,
    Keyword::If,
    Keyword::Else,
    Keyword::Loop,
    Keyword::Fork,
    Keyword::Par,
    Keyword::Await,
    Keyword::Every,
    Keyword::Do,
    Keyword::Abort,
    Keyword::WeakAbort,
    Keyword::Suspend,
    Keyword::Immediate,
    Keyword::Count,
    Keyword::Trap,
    Keyword::Break,
    Keyword::Run,
    Keyword::Async,
    Keyword::Call,
    Keyword::Kill,
    Keyword::Resume,
    Keyword::Combine,
    Keyword::Pure,
    Keyword::Int,
    Keyword::Bool,
    Keyword::Text,
    Keyword::True,
    Keyword::False,
];

impl Keyword {
    /// How it is written.
    pub fn text(self) -> &'static str
        ensures { result.now ≡ keyword_text self }
    {
        match self {
            Keyword::Module => "module",
            Keyword::In => "in",
            Keyword::Out => "out",
            Keyword::Inout => "inout",
            Keyword::Body => "body",
            Keyword::Host => "host",
            Keyword::Signal => "signal",
            Keyword::Nothing => "nothing",
            Keyword::Pause => "pause",
            Keyword::Halt => "halt",
            Keyword::Emit => "emit",
            Keyword::Sustain => "sustain",
            Keyword::If => "if",
            Keyword::Else => "else",
            Keyword::Loop => "loop",
            Keyword::Fork => "fork",
            Keyword::Par => "par",
            Keyword::Await => "await",
            Keyword::Every => "every",
            Keyword::Do => "do",
            Keyword::Abort => "abort",
            Keyword::WeakAbort => "weakabort",
            Keyword::Suspend => "suspend",
            Keyword::Immediate => "immediate",
            Keyword::Count => "count",
            Keyword::Trap => "trap",
            Keyword::Break => "break",
            Keyword::Run => "run",
            Keyword::Async => "async",
            Keyword::Call => "call",
            Keyword::Kill => "kill",
            Keyword::Resume => "resume",
            Keyword::Combine => "combine",
            Keyword::Pure => "pure",
            Keyword::Int => "int",
            Keyword::Bool => "bool",
            Keyword::Text => "text",
            Keyword::True => "true",
            Keyword::False => "false",
        }
    }
}

fn keyword_among(keywords: &[Keyword], word: &str) -> Option<Keyword>
    ensures { result ≡ keyword_among keywords.now word.now }
{
    match keywords {
        [] => None,
        [first, others @ ..] => {
            if word == first.text() {
                return Some(*first);
            }
            keyword_among(others, word)
        }
    }
}

// The keywords by their length, so that a word is compared with few.
const TWO_LETTERS: [Keyword; 3] = [Keyword::In, Keyword::If, Keyword::Do];

const THREE_LETTERS: [Keyword; 4] = [Keyword::Out, Keyword::Par, Keyword::Run, Keyword::Int];

const FOUR_LETTERS: [Keyword; 14] = [
    Keyword::Body,
    Keyword::Host,
    Keyword::Halt,
    Keyword::Emit,
    Keyword::Else,
    Keyword::Loop,
    Keyword::Fork,
    Keyword::Trap,
    Keyword::Call,
    Keyword::Kill,
    Keyword::Pure,
    Keyword::Bool,
    Keyword::Text,
    Keyword::True,
];

const FIVE_LETTERS: [Keyword; 9] = [
    Keyword::Inout,
    Keyword::Pause,
    Keyword::Await,
    Keyword::Every,
    Keyword::Abort,
    Keyword::Count,
    Keyword::Break,
    Keyword::Async,
    Keyword::False,
];

const SIX_LETTERS: [Keyword; 3] = [Keyword::Module, Keyword::Signal, Keyword::Resume];

const SEVEN_LETTERS: [Keyword; 4] = [
    Keyword::Nothing,
    Keyword::Sustain,
    Keyword::Suspend,
    Keyword::Combine,
];

const NINE_LETTERS: [Keyword; 2] = [Keyword::WeakAbort, Keyword::Immediate];

/// The keyword that the word is, byte for byte; None where it is no keyword.
pub fn keyword_of(word: &str) -> Option<Keyword>
    ensures { result ≡ keyword_of word.now }
{
    match word.len() {
        2 => keyword_among(&TWO_LETTERS, word),
        3 => keyword_among(&THREE_LETTERS, word),
        4 => keyword_among(&FOUR_LETTERS, word),
        5 => keyword_among(&FIVE_LETTERS, word),
        6 => keyword_among(&SIX_LETTERS, word),
        7 => keyword_among(&SEVEN_LETTERS, word),
        9 => keyword_among(&NINE_LETTERS, word),
        _ => None,
    }
}
