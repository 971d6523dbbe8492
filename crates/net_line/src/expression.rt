//! Expressions in prefix form.
ghost use Rattle.std.specs.Prelude.{◌≡◌, IfOk};
ghost use Rattle.net_line.specs.ExpressionReading.{at_pos, constant, constant_of, accessed, of_one, of_two};
ghost use Rattle.net_line.specs.ExpressionReading.{of_three, one_operand, two_operands, three_operands};
ghost use Rattle.net_line.specs.ExpressionReading.{node_word};
ghost use Rattle.net_line.specs.ExpressionReading.{with_operands, expression};
ghost use Rattle.net_line.specs.ExpressionTaken.{TakesExpression};
ghost use Rattle.net_line.specs.Literals.{literal_of};
ghost use Rattle.net_line.specs.Reading.{Decodes, Reads};

use crate::fault::LineFault;
use crate::literal::literal_of;
use crate::unread::Unread;
use crate::word::{Access, Binary, NodeWord, Unary, node_word};
use hh_base::value::{NoMemory, Pos, Value};
use host_expr::expr::{Expr, ExprNode};
use sqlite_items::Boxed;
use std::alloc::Global;

fn at(place: u32, node: ExprNode<u32>) -> Expr<u32>
    ensures { result ≡ at_pos place node }
{
    Expr {
        pos: Pos(place),
        node,
    }
}

/// The leaf of a value that is not that of a pure signal.
fn constant(value: Value) -> Result<Expr<u32>, LineFault>
    ensures { Decodes (constant value) result }
{
    match value {
        Value::Unit => Err(LineFault::Formless),
        Value::Int(number) => Ok(at(0, ExprNode::Int(number))),
        Value::Bool(truth) => Ok(at(0, ExprNode::Bool(truth))),
        Value::Text(text) => Ok(at(0, ExprNode::Text(text))),
    }
}

fn constant_of(alloc: Global, part: &[u8]) -> Result<Expr<u32>, LineFault>
    ensures { Decodes (constant_of (literal_of part.now)) result }
{
    let value = literal_of(alloc, part)?;
    constant(value)
}

fn accessed(access: Access, place: u32) -> Expr<u32>
    ensures { result ≡ accessed access place }
{
    match access {
        Access::Now => at(0, ExprNode::Now(place)),
        Access::Pre => at(0, ExprNode::Pre(place)),
        Access::NowVal => at(0, ExprNode::NowVal(place)),
        Access::PreVal => at(0, ExprNode::PreVal(place)),
        Access::Arg => at(0, ExprNode::Arg(place)),
    }
}

fn of_one(alloc: Global, word: Unary, a: Expr<u32>) -> Result<Expr<u32>, NoMemory>
    ensures { IfOk result (λ e. e ≡ of_one word a) }
{
    let a = Boxed::new(alloc, a)?;
    match word {
        Unary::Not => Ok(at(0, ExprNode::Not(a))),
        Unary::Neg(place) => Ok(at(place, ExprNode::Neg(a))),
    }
}

fn of_two(alloc: Global, word: Binary, a: Expr<u32>, b: Expr<u32>) -> Result<Expr<u32>, NoMemory>
    ensures { IfOk result (λ e. e ≡ of_two word a b) }
{
    let a = Boxed::new(alloc, a)?;
    let b = Boxed::new(alloc, b)?;
    match word {
        Binary::Arith(op, place) => Ok(at(place, ExprNode::Arith(op, a, b))),
        Binary::Compare(rel) => Ok(at(0, ExprNode::Compare(rel, a, b))),
        Binary::And => Ok(at(0, ExprNode::And(a, b))),
        Binary::Or => Ok(at(0, ExprNode::Or(a, b))),
    }
}

fn of_three(alloc: Global, a: Expr<u32>, b: Expr<u32>, c: Expr<u32>) -> Result<Expr<u32>, NoMemory>
    ensures { IfOk result (λ e. e ≡ of_three a b c) }
{
    let a = Boxed::new(alloc, a)?;
    let b = Boxed::new(alloc, b)?;
    let c = Boxed::new(alloc, c)?;
    Ok(at(0, ExprNode::Choose(a, b, c)))
}

impl<'a> Unread<'a> {
    /// Takes an expression that nests at most so deep and has at most so many leaves and operators, and tells
    /// how many more there might be.
    #[cycle(expression)]
    #[tactic(auto, using(crate::proofs::Nodes::deeper, crate::proofs::Nodes::too_deep, crate::proofs::Nodes::too_large))]
    fn operand(&mut self, depth: u32, room: u32) -> Result<(Expr<u32>, u32), LineFault>
        ensures { Reads (expression depth room self.old) result self.new }
    {
        if depth == 0 || room == 0 {
            return Err(LineFault::Formless);
        }
        let part = self.part()?;
        self.node(part, depth - 1, room - 1)
    }

    #[cycle(expression)]
    fn node(&mut self, part: &[u8], depth: u32, room: u32) -> Result<(Expr<u32>, u32), LineFault>
        ensures { Reads (with_operands (expression depth) (node_word part.now) part.now room self.old) result
            self.new }
    {
        match node_word(part) {
            NodeWord::Literal => {
                let leaf = constant_of(self.alloc, part)?;
                Ok((leaf, room))
            }
            NodeWord::Reads(access) => {
                let place = self.number()?;
                Ok((accessed(access, place), room))
            }
            NodeWord::Unary(word) => self.unary(word, depth, room),
            NodeWord::Binary(word) => self.binary(word, depth, room),
            NodeWord::Choose => self.choose(depth, room),
        }
    }

    #[cycle(expression)]
    fn unary(&mut self, word: Unary, depth: u32, room: u32) -> Result<(Expr<u32>, u32), LineFault>
        ensures { Reads (one_operand (expression depth) word room self.old) result self.new }
    {
        let (a, room) = self.operand(depth, room)?;
        let whole = of_one(self.alloc, word, a)?;
        Ok((whole, room))
    }

    #[cycle(expression)]
    fn binary(&mut self, word: Binary, depth: u32, room: u32) -> Result<(Expr<u32>, u32), LineFault>
        ensures { Reads (two_operands (expression depth) word room self.old) result self.new }
    {
        let (a, room) = self.operand(depth, room)?;
        let (b, room) = self.operand(depth, room)?;
        let whole = of_two(self.alloc, word, a, b)?;
        Ok((whole, room))
    }

    #[cycle(expression)]
    fn choose(&mut self, depth: u32, room: u32) -> Result<(Expr<u32>, u32), LineFault>
        ensures { Reads (three_operands (expression depth) room self.old) result self.new }
    {
        let (a, room) = self.operand(depth, room)?;
        let (b, room) = self.operand(depth, room)?;
        let (c, room) = self.operand(depth, room)?;
        let whole = of_three(self.alloc, a, b, c)?;
        Ok((whole, room))
    }

    /// Takes an expression that has at most so many leaves and operators, and tells how many more there might
    /// be.
    #[tactic(auto, using(crate::proofs::Trees::takes_expression))]
    pub fn expression(&mut self, size: u32) -> Result<(Expr<u32>, u32), LineFault>
        ensures reads { Reads (expression size size self.old) result self.new }
        ensures takes { TakesExpression size self.old result self.new }
    {
        self.operand(size, size)
    }
}
