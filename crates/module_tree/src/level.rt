//! The levels of expressions.

ghost use Rattle.std.specs.Prelude.{◌≡◌};
ghost use Rattle.module_tree.specs.Parentheses.{tightness_of, is_looser, level_of_op, right_of_op};

use host_expr::expr::Op;

/// How tightly an expression binds, from the loosest to the tightest.
#[derive(Clone, Copy, PartialEq, Eq, Debug)]
pub enum Level {
    Expression,
    Either,
    Both,
    Comparison,
    Sum,
    Product,
    Factor,
    Operand,
}

impl Level {
    fn tightness(self) -> u8
        ensures { result ≡ tightness_of self }
    {
        match self {
            Level::Expression => 0,
            Level::Either => 1,
            Level::Both => 2,
            Level::Comparison => 3,
            Level::Sum => 4,
            Level::Product => 5,
            Level::Factor => 6,
            Level::Operand => 7,
        }
    }

    /// Whether an expression of this level needs parentheses in a place that takes `least` and tighter ones.
    pub fn is_looser(self, least: Level) -> bool
        ensures { result ≡ is_looser self least }
    {
        self.tightness() < least.tightness()
    }

    /// The level of an arithmetic expression, which is also that of its left operand at least.
    pub fn of_op(op: Op) -> Level
        ensures { result ≡ level_of_op op }
    {
        match op {
            Op::Add | Op::Sub => Level::Sum,
            Op::Mul | Op::Div | Op::Rem => Level::Product,
        }
    }

    /// The level that the right operand of an arithmetic expression has at least.
    pub fn right_of_op(op: Op) -> Level
        ensures { result ≡ right_of_op op }
    {
        match op {
            Op::Add | Op::Sub => Level::Product,
            Op::Mul | Op::Div | Op::Rem => Level::Factor,
        }
    }
}
