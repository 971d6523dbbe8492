//! Expressions on the edges of their operators: tables of operands, an operator and what it gives.

use hh_base::memory::NoMemory;
use hh_base::text::Text;
use hh_base::value::{FaultKind, Kind, Pos, Tri, Value};
use host_expr::cell::{Cell, Cells, Scope, SigCell};
use host_expr::check::{TypeFault, check};
use host_expr::eval::eval;
use host_expr::expr::{Expr, ExprNode, Op, Rel, copy_expr, same_expr};
use sqlite_items::Boxed;
use std::alloc::Global;
use std::test::Fail;

/// A node of an expression that is written operands first. It stands at the position that is its place in
/// the list.
#[derive(Clone, Copy)]
enum Step {
    Int(i64),
    Flag(bool),
    /// A text of so many letters.
    Letters(usize),
    Now(u32),
    Pre(u32),
    NowVal(u32),
    PreVal(u32),
    Arg(u32),
    Not,
    Neg,
    Arith(Op),
    Compare(Rel),
    And,
    Or,
    Choose,
}

/// What was answered; a text by its length.
#[derive(Clone, Copy, PartialEq, Eq, Debug)]
enum Outcome {
    Unknown,
    Unit,
    Int(i64),
    Flag(bool),
    Letters(usize),
    Fault(u32, FaultKind),
}

fn letters(alloc: Global, count: usize) -> Result<Text, NoMemory> {
    let bytes = vec![in alloc; b'a'; count]?;
    Ok(Text::read(alloc, &bytes).unwrap_or(Text::empty(alloc)))
}

fn leaf(alloc: Global, step: Step) -> Result<ExprNode<u32>, NoMemory> {
    Ok(match step {
        Step::Int(number) => ExprNode::Int(number),
        Step::Flag(truth) => ExprNode::Bool(truth),
        Step::Letters(count) => ExprNode::Text(letters(alloc, count)?),
        Step::Now(signal) => ExprNode::Now(signal),
        Step::Pre(signal) => ExprNode::Pre(signal),
        Step::NowVal(signal) => ExprNode::NowVal(signal),
        Step::PreVal(signal) => ExprNode::PreVal(signal),
        Step::Arg(place) => ExprNode::Arg(place),
        _ => ExprNode::Bool(false),
    })
}

fn operand(alloc: Global, stack: &mut Vec<Expr<u32>>) -> Result<Boxed<Expr<u32>>, NoMemory> {
    let none = Expr {
        pos: Pos(0),
        node: ExprNode::Bool(false),
    };
    Ok(Boxed::new(alloc, stack.pop().unwrap_or(none))?)
}

fn pair(step: Step, a: Boxed<Expr<u32>>, b: Boxed<Expr<u32>>) -> ExprNode<u32> {
    match step {
        Step::Arith(op) => ExprNode::Arith(op, a, b),
        Step::Compare(rel) => ExprNode::Compare(rel, a, b),
        Step::And => ExprNode::And(a, b),
        _ => ExprNode::Or(a, b),
    }
}

fn node(alloc: Global, step: Step, stack: &mut Vec<Expr<u32>>) -> Result<ExprNode<u32>, NoMemory> {
    match step {
        Step::Not => Ok(ExprNode::Not(operand(alloc, stack)?)),
        Step::Neg => Ok(ExprNode::Neg(operand(alloc, stack)?)),
        Step::Choose => {
            let c = operand(alloc, stack)?;
            let b = operand(alloc, stack)?;
            Ok(ExprNode::Choose(operand(alloc, stack)?, b, c))
        }
        Step::Arith(_) | Step::Compare(_) | Step::And | Step::Or => {
            let b = operand(alloc, stack)?;
            Ok(pair(step, operand(alloc, stack)?, b))
        }
        _ => leaf(alloc, step),
    }
}

fn build(alloc: Global, steps: &[Step; 4]) -> Result<Boxed<Expr<u32>>, NoMemory> {
    let mut stack = Vec::new(alloc);
    for (place, step) in steps.iter().enumerate() {
        let node = node(alloc, *step, &mut stack)?;
        let pos = Pos(u32::try_from(place).unwrap_or(0));
        stack.push(Expr { pos, node })?;
    }
    operand(alloc, &mut stack)
}

fn seen(cell: &Cell) -> Outcome {
    match cell {
        Cell::Unknown => Outcome::Unknown,
        Cell::Known(Value::Unit) => Outcome::Unit,
        Cell::Known(Value::Int(number)) => Outcome::Int(*number),
        Cell::Known(Value::Bool(truth)) => Outcome::Flag(*truth),
        Cell::Known(Value::Text(text)) => Outcome::Letters(text.len()),
        Cell::Faulted(pos, kind) => Outcome::Fault(pos.0, *kind),
    }
}

/// Signal 0 is unknown, was present before and had the value 3. Signal 1 is present with the number 4, and
/// had the value 6. The values of signals 2 and 3 are faults at 9 and 8. Parameter 0 is 8.
fn cells(alloc: Global) -> Result<Cells, NoMemory> {
    let mut signals = Vec::new(alloc);
    for (status, value, pre, before) in [
        (Tri::Unknown, Cell::Unknown, true, 3),
        (Tri::One, Cell::Known(Value::Int(4)), false, 6),
        (Tri::One, Cell::Faulted(Pos(9), FaultKind::Divide), false, 0),
        (
            Tri::Zero,
            Cell::Faulted(Pos(8), FaultKind::Overflow),
            false,
            0,
        ),
    ] {
        let preval = Value::Int(before);
        signals.push(SigCell {
            status,
            value,
            pre,
            preval,
        })?;
    }
    let mut args = Vec::new(alloc);
    args.push(Value::Int(8))?;
    Ok(Cells { signals, args })
}

const NONE: Step = Step::Flag(true);

const OVERFLOW: Outcome = Outcome::Fault(3, FaultKind::Overflow);

const DIVIDE: Outcome = Outcome::Fault(3, FaultKind::Divide);

const NUMBERS: [(Op, i64, i64, Outcome); 20] = [
    (Op::Add, i64::MAX, 0, Outcome::Int(i64::MAX)),
    (Op::Add, i64::MAX, 1, OVERFLOW),
    (Op::Add, i64::MIN, -1, OVERFLOW),
    (Op::Sub, -1, i64::MIN, Outcome::Int(i64::MAX)),
    (Op::Sub, 0, i64::MIN, OVERFLOW),
    (
        Op::Mul,
        4_294_967_296,
        -2_147_483_648,
        Outcome::Int(i64::MIN),
    ),
    (Op::Mul, 4_294_967_296, 2_147_483_648, OVERFLOW),
    (Op::Mul, i64::MIN, -1, OVERFLOW),
    (Op::Div, 7, 2, Outcome::Int(3)),
    (Op::Div, -7, 2, Outcome::Int(-3)),
    (Op::Div, 7, -2, Outcome::Int(-3)),
    (Op::Div, -7, -2, Outcome::Int(3)),
    (Op::Div, i64::MIN, -1, OVERFLOW),
    (Op::Div, 0, 0, DIVIDE),
    (Op::Rem, 7, 2, Outcome::Int(1)),
    (Op::Rem, -7, 2, Outcome::Int(-1)),
    (Op::Rem, 7, -2, Outcome::Int(1)),
    (Op::Rem, -7, -2, Outcome::Int(-1)),
    (Op::Rem, i64::MIN, -1, OVERFLOW),
    (Op::Rem, i64::MIN, 0, DIVIDE),
];

// The operator stands at 3. A fault within an operand is at 9 or 8.
const EVALUATED: [([Step; 4], Outcome); 28] = [
    ([NONE, NONE, Step::Int(i64::MIN), Step::Neg], OVERFLOW),
    ([NONE, NONE, Step::PreVal(1), Step::Neg], Outcome::Int(-6)),
    (
        [NONE, Step::NowVal(1), Step::PreVal(1), Step::Arith(Op::Add)],
        Outcome::Int(10),
    ),
    (
        [NONE, Step::Int(1), Step::NowVal(0), Step::Arith(Op::Add)],
        Outcome::Unknown,
    ),
    (
        [NONE, Step::NowVal(2), Step::NowVal(3), Step::Arith(Op::Add)],
        Outcome::Fault(9, FaultKind::Divide),
    ),
    (
        [NONE, Step::NowVal(3), Step::NowVal(2), Step::Arith(Op::Add)],
        Outcome::Fault(8, FaultKind::Overflow),
    ),
    (
        [
            NONE,
            Step::Letters(4000),
            Step::Letters(96),
            Step::Arith(Op::Add),
        ],
        Outcome::Letters(4096),
    ),
    (
        [
            NONE,
            Step::Letters(4096),
            Step::Letters(1),
            Step::Arith(Op::Add),
        ],
        Outcome::Fault(3, FaultKind::TextLong),
    ),
    (
        [NONE, Step::Int(-1), Step::Int(-1), Step::Compare(Rel::Eq)],
        Outcome::Flag(true),
    ),
    (
        [NONE, Step::Int(1), Step::Int(-1), Step::Compare(Rel::Eq)],
        Outcome::Flag(false),
    ),
    (
        [
            NONE,
            Step::Letters(2),
            Step::Letters(3),
            Step::Compare(Rel::Eq),
        ],
        Outcome::Flag(false),
    ),
    (
        [
            NONE,
            Step::Flag(true),
            Step::Flag(false),
            Step::Compare(Rel::Ne),
        ],
        Outcome::Flag(true),
    ),
    (
        [
            NONE,
            Step::Letters(3),
            Step::Letters(3),
            Step::Compare(Rel::Ne),
        ],
        Outcome::Flag(false),
    ),
    (
        [
            NONE,
            Step::Int(i64::MIN),
            Step::Int(i64::MAX),
            Step::Compare(Rel::Lt),
        ],
        Outcome::Flag(true),
    ),
    (
        [NONE, Step::Int(2), Step::Int(2), Step::Compare(Rel::Lt)],
        Outcome::Flag(false),
    ),
    (
        [NONE, Step::Int(2), Step::Int(2), Step::Compare(Rel::Le)],
        Outcome::Flag(true),
    ),
    (
        [NONE, Step::Int(0), Step::Int(-5), Step::Compare(Rel::Gt)],
        Outcome::Flag(true),
    ),
    (
        [NONE, Step::Int(-3), Step::Int(2), Step::Compare(Rel::Ge)],
        Outcome::Flag(false),
    ),
    (
        [NONE, Step::Flag(false), Step::NowVal(2), Step::And],
        Outcome::Flag(false),
    ),
    (
        [NONE, Step::Flag(true), Step::NowVal(2), Step::And],
        Outcome::Fault(9, FaultKind::Divide),
    ),
    (
        [NONE, Step::Flag(true), Step::NowVal(2), Step::Or],
        Outcome::Flag(true),
    ),
    (
        [NONE, Step::Flag(false), Step::NowVal(2), Step::Or],
        Outcome::Fault(9, FaultKind::Divide),
    ),
    (
        [NONE, Step::Flag(false), Step::Now(0), Step::And],
        Outcome::Unknown,
    ),
    (
        [Step::Now(1), Step::Int(2), Step::Int(3), Step::Choose],
        Outcome::Int(2),
    ),
    (
        [Step::Pre(1), Step::Int(2), Step::Int(3), Step::Choose],
        Outcome::Int(3),
    ),
    (
        [Step::Pre(0), Step::PreVal(0), Step::Int(4), Step::Choose],
        Outcome::Int(3),
    ),
    (
        [Step::Now(1), Step::Int(2), Step::NowVal(0), Step::Choose],
        Outcome::Unknown,
    ),
    (
        [Step::Now(1), Step::Arg(0), Step::NowVal(2), Step::Choose],
        Outcome::Int(8),
    ),
];

#[test]
fn evaluates(rt: HostRuntime) -> Result<(), Fail> {
    let cells = cells(rt.alloc())?;
    for (op, left, right, want) in NUMBERS {
        let steps = [NONE, Step::Int(left), Step::Int(right), Step::Arith(op)];
        let expr = build(rt.alloc(), &steps)?;
        assert_eq!(rt; seen(&eval(rt.alloc(), expr.get(), &cells)?), want);
    }
    for (steps, want) in EVALUATED {
        let expr = build(rt.alloc(), &steps)?;
        assert_eq!(rt; seen(&eval(rt.alloc(), expr.get(), &cells)?), want);
    }
    Ok(())
}

/// Signal 0 is pure, signal 1 an int, and parameter 0 a text.
fn scope(alloc: Global) -> Result<Scope, NoMemory> {
    let mut signals = Vec::new(alloc);
    signals.push(Kind::Pure)?;
    signals.push(Kind::Int)?;
    let mut args = Vec::new(alloc);
    args.push(Kind::Text)?;
    Ok(Scope { signals, args })
}

const INT: Step = Step::Int(1);

const TEXT: Step = Step::Letters(1);

// The kind, or the place of the first misfit.
const CHECKED: [([Step; 4], Result<Kind, u32>); 32] = [
    ([NONE, NONE, NONE, INT], Ok(Kind::Int)),
    ([NONE, NONE, NONE, NONE], Ok(Kind::Bool)),
    ([NONE, NONE, NONE, TEXT], Ok(Kind::Text)),
    ([NONE, NONE, NONE, Step::Now(0)], Ok(Kind::Bool)),
    ([NONE, NONE, NONE, Step::Pre(2)], Err(3)),
    ([NONE, NONE, NONE, Step::NowVal(1)], Ok(Kind::Int)),
    ([NONE, NONE, NONE, Step::NowVal(0)], Err(3)),
    ([NONE, NONE, NONE, Step::PreVal(2)], Err(3)),
    ([NONE, NONE, NONE, Step::Arg(0)], Ok(Kind::Text)),
    ([NONE, INT, INT, Step::Arith(Op::Rem)], Ok(Kind::Int)),
    ([NONE, TEXT, TEXT, Step::Arith(Op::Add)], Ok(Kind::Text)),
    ([NONE, TEXT, TEXT, Step::Arith(Op::Sub)], Err(3)),
    ([NONE, TEXT, INT, Step::Arith(Op::Add)], Err(3)),
    ([NONE, NONE, NONE, Step::Arith(Op::Add)], Err(3)),
    ([NONE, TEXT, TEXT, Step::Compare(Rel::Eq)], Ok(Kind::Bool)),
    ([NONE, NONE, NONE, Step::Compare(Rel::Ne)], Ok(Kind::Bool)),
    ([NONE, INT, NONE, Step::Compare(Rel::Eq)], Err(3)),
    ([NONE, INT, INT, Step::Compare(Rel::Lt)], Ok(Kind::Bool)),
    ([NONE, TEXT, TEXT, Step::Compare(Rel::Le)], Err(3)),
    ([NONE, NONE, NONE, Step::And], Ok(Kind::Bool)),
    ([NONE, NONE, INT, Step::And], Err(3)),
    ([NONE, TEXT, NONE, Step::Or], Err(3)),
    ([NONE, INT, INT, Step::Not], Err(3)),
    ([NONE, INT, NONE, Step::Not], Ok(Kind::Bool)),
    ([NONE, INT, NONE, Step::Neg], Err(3)),
    ([NONE, NONE, INT, Step::Neg], Ok(Kind::Int)),
    ([NONE, TEXT, TEXT, Step::Choose], Ok(Kind::Text)),
    ([NONE, TEXT, INT, Step::Choose], Err(3)),
    ([INT, TEXT, TEXT, Step::Choose], Err(3)),
    ([Step::NowVal(0), Step::Arg(7), INT, Step::Choose], Err(0)),
    ([NONE, Step::Arg(7), Step::Arg(8), Step::Choose], Err(1)),
    ([INT, TEXT, Step::Arg(8), Step::Choose], Err(2)),
];

#[test]
fn checks(rt: HostRuntime) -> Result<(), Fail> {
    let scope = scope(rt.alloc())?;
    for (steps, want) in CHECKED {
        let expr = build(rt.alloc(), &steps)?;
        let found = match check(expr.get(), &scope) {
            Ok(kind) => Ok(kind),
            Err(fault) => Err(fault.pos.0),
        };
        assert_eq!(rt; found, want);
    }
    let shown = format!(in rt.alloc(); "{}", TypeFault { pos: Pos(7) })?;
    assert_eq!(rt; shown.as_str(), "the kinds do not fit at byte 7");
    Ok(())
}

/// `-(1 + 1 + ..)` with 1,024 leaves and operators.
fn deep(alloc: Global) -> Result<Expr<u32>, NoMemory> {
    let one = Expr {
        pos: Pos(0),
        node: ExprNode::Int(1),
    };
    let mut sum = copy_expr(alloc, &one)?;
    for place in 1..512 {
        let left = Boxed::new(alloc, sum)?;
        let right = Boxed::new(alloc, copy_expr(alloc, &one)?)?;
        sum = Expr {
            pos: Pos(place),
            node: ExprNode::Arith(Op::Add, left, right),
        };
    }
    Ok(Expr {
        pos: Pos(512),
        node: ExprNode::Neg(Boxed::new(alloc, sum)?),
    })
}

#[test]
fn deep_expressions(rt: HostRuntime) -> Result<(), Fail> {
    let expr = deep(rt.alloc())?;
    let cells = cells(rt.alloc())?;
    assert_eq!(rt; seen(&eval(rt.alloc(), &expr, &cells)?), Outcome::Int(-512));
    assert!(rt; matches!(check(&expr, &scope(rt.alloc())?), Ok(Kind::Int)));
    let copy = copy_expr(rt.alloc(), &expr)?;
    assert!(rt; same_expr(&expr, &copy));
    let ExprNode::Neg(sum) = &expr.node else {
        panic!(rt; "the outermost operator is a minus");
    };
    assert!(rt; !same_expr(sum.get(), &copy));
    Ok(())
}
