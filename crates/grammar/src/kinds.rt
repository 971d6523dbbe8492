//! Kinds of tokens.
ghost use Rattle.std.specs.Prelude.{◌≡◌};
ghost use Rattle.grammar.specs.Tokens.{Alphabet};

/// Kinds of tokens, told apart by their numbers.
pub trait Kinds: Copy + Drop {
    ghost alphabet: { Alphabet Self };

    /// The number of this kind.
    fn class(self) -> u8
        ensures { result ≡ alphabet.class self };

    /// How many leaves and operators an outermost expression may have.
    fn most_counted() -> u32
        ensures { result ≡ alphabet.most_counted };
}
