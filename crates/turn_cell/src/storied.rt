//! What a value stands for, and jobs that are done on it in a turn.
ghost use Rattle.std.specs.Prelude.{◌≡◌, List};

/// A value that stands for a history, a list of entries, which begins from a start.
pub trait Storied {
    type Entry;

    type Start;

    ghost story: { Self → List Self.Entry };

    ghost begins: { Self → Self.Start };
}

/// A job on a value. It keeps the start, and the history grows by no entry or by one.
pub trait TurnJob<T: Storied> {
    ghost use Rattle.turn_cell.specs.Lists.{GrowsByOneAtMost};

    type Out;

    /// What the job asks of the start of the value.
    ghost asks: { Self → T.Start → Type 0 };

    /// What the job does, by the start, the history before and after it, and its answer.
    ghost does: { Self → T.Start → List T.Entry → List T.Entry → Self.Out → Type 0 };

    fn run(self, value: &mut T) -> Self::Out
        requires { asks self (T.begins value.old) }
        ensures start { T.begins value.new ≡ T.begins value.old }
        ensures grows { GrowsByOneAtMost (T.story value.old) (T.story value.new) }
        ensures job { does self (T.begins value.old) (T.story value.old) (T.story value.new) result };
}
