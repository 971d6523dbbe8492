//! Writing expressions, with exactly the parentheses that they need.

ghost use Rattle.std.specs.Prelude.{◌≡◌, ◌∷◌};
ghost use Rattle.module_tree.specs.Parentheses.{at};
ghost use Rattle.module_printer.specs.ExpressionTokens.{in_parentheses, token_of_op, token_of_rel};
ghost use Rattle.module_printer.specs.ExpressionTokens.{token_of_truth, tokens_of_read, tokens_of_expression};
ghost use Rattle.module_printer.specs.ExpressionTokens.{written, written_node};
ghost use Rattle.module_printer.specs.SourceTokens.{tokens_of_outermost};
ghost use Rattle.module_printer.specs.Printed.{Writes};

use crate::print::printer::{Printable, Printer};
use hh_base::memory::NoMemory;
use hh_base::name::Name;
use host_expr::expr::{Expr, ExprNode, Op, Rel};
use module_tree::level::Level;
use module_tree::source::ExprAt;

fn op_token(op: Op) -> &'static str
    ensures { result.now ≡ token_of_op op }
{
    match op {
        Op::Add => "+",
        Op::Sub => "-",
        Op::Mul => "*",
        Op::Div => "/",
        Op::Rem => "%",
    }
}

fn rel_token(rel: Rel) -> &'static str
    ensures { result.now ≡ token_of_rel rel }
{
    match rel {
        Rel::Eq => "==",
        Rel::Ne => "!=",
        Rel::Lt => "<",
        Rel::Le => "<=",
        Rel::Gt => ">",
        Rel::Ge => ">=",
    }
}

/// The keyword of a truth value.
pub fn truth_token(truth: bool) -> &'static str
    ensures { result.now ≡ token_of_truth truth }
{
    if truth { "true" } else { "false" }
}

fn level_of(node: &ExprNode<Name>) -> Level
    ensures { result ≡ (written_node node.now).level }
{
    match node {
        ExprNode::Choose(_, _, _) => Level::Expression,
        ExprNode::Or(_, _) => Level::Either,
        ExprNode::And(_, _) => Level::Both,
        ExprNode::Compare(_, _, _) => Level::Comparison,
        ExprNode::Arith(op, _, _) => Level::of_op(*op),
        ExprNode::Not(_) | ExprNode::Neg(_) => Level::Factor,
        _ => Level::Operand,
    }
}

impl Printer {
    fn read(&mut self, signal: &Name, word: &str) -> Result<(), NoMemory>
        ensures { Writes result self.old self.new (tokens_of_read signal.now word.now) }
    {
        self.token(signal.as_str())?;
        self.token(".")?;
        self.token(word)
    }

    /// Writes an operand in a place that takes this level and tighter ones.
    #[cycle(expression)]
    fn operand(&mut self, least: Level, expr: &Expr<Name>) -> Result<(), NoMemory>
        ensures { Writes result self.old self.new (at in_parentheses least (written expr.now)) }
    {
        if !level_of(&expr.node).is_looser(least) {
            return self.expression_node(&expr.node);
        }
        self.token("(")?;
        self.expression_node(&expr.node)?;
        self.token(")")
    }

    /// Writes an operator and the operand behind it.
    #[cycle(expression)]
    fn operand_behind(
        &mut self,
        token: &str,
        least: Level,
        expr: &Expr<Name>,
    ) -> Result<(), NoMemory>
        ensures { Writes result self.old self.new
            (token.now ∷ at in_parentheses least (written expr.now)) }
    {
        self.token(token)?;
        self.operand(least, expr)
    }

    #[cycle(expression)]
    fn expression_node(&mut self, node: &ExprNode<Name>) -> Result<(), NoMemory>
        ensures { Writes result self.old self.new (written_node node.now).value }
    {
        match node {
            ExprNode::Int(number) => self.integer(*number),
            ExprNode::Bool(truth) => self.token(truth_token(*truth)),
            ExprNode::Text(text) => self.text(text),
            ExprNode::Now(signal) => self.read(signal, "now"),
            ExprNode::Pre(signal) => self.read(signal, "pre"),
            ExprNode::NowVal(signal) => self.read(signal, "nowval"),
            ExprNode::PreVal(signal) => self.read(signal, "preval"),
            ExprNode::Arg(name) => self.token(name.as_str()),
            ExprNode::Not(a) => self.operand_behind("!", Level::Operand, a.get()),
            ExprNode::Neg(a) => self.operand_behind("-", Level::Operand, a.get()),
            ExprNode::Arith(op, a, b) => {
                self.operand(Level::of_op(*op), a.get())?;
                self.operand_behind(op_token(*op), Level::right_of_op(*op), b.get())
            }
            ExprNode::Compare(rel, a, b) => {
                self.operand(Level::Sum, a.get())?;
                self.operand_behind(rel_token(*rel), Level::Sum, b.get())
            }
            ExprNode::And(a, b) => {
                self.operand(Level::Both, a.get())?;
                self.operand_behind("&&", Level::Comparison, b.get())
            }
            ExprNode::Or(a, b) => {
                self.operand(Level::Either, a.get())?;
                self.operand_behind("||", Level::Both, b.get())
            }
            ExprNode::Choose(a, b, c) => {
                self.operand(Level::Either, a.get())?;
                self.operand_behind("?", Level::Either, b.get())?;
                self.operand_behind(":", Level::Either, c.get())
            }
        }
    }

    /// Writes an expression, with no parentheses round the whole.
    pub fn expression(&mut self, expr: &Expr<Name>) -> Result<(), NoMemory>
        ensures { Writes result self.old self.new (tokens_of_expression expr.now) }
    {
        self.expression_node(&expr.node)
    }
}

impl Printable for ExprAt<Name> {
    ghost tokens = { tokens_of_outermost };

    fn print(&self, printer: &mut Printer) -> Result<(), NoMemory> {
        printer.expression(&self.expr)
    }
}
