//! Expressions.
ghost use Rattle.std.specs.Prelude.{◌≡◌};
ghost use Rattle.grammar.specs.Parser as parser;
ghost use Rattle.grammar.specs.Parser.{Reads};
ghost use Rattle.expression_reader.specs.Refusals.{as_refusal};
ghost use Rattle.expression_reader.specs.Reference as rule;

use crate::cursor::{Reader, whole_list};
use crate::fault::StepError;
use crate::operator::{Access, Grouping, Operator, apply, choose, node};
use crate::terminal::Terminal;
use hh_base::keyword::Keyword;
use hh_base::name::Name;
use hh_base::value::Pos;
use host_expr::expr::{Expr, ExprNode, Op, Rel};
use module_token::punct::Punct;
use module_tree::source::ExprAt;
use sqlite_items::{Boxed, Items};

impl<'a> Reader<'a> {
    // ---- leaves

    #[tactic(auto, unfolding(crate::specs::Reference::number_leaf))]
    fn number_leaf(&mut self) -> Result<Expr<Name>, StepError>
        ensures { Reads as_refusal (rule.number_leaf self.old) result self.new }
    {
        let (pos, value) = self.counted_number()?;
        Ok(node(pos, ExprNode::Int(value as i64)))
    }

    #[tactic(auto, unfolding(crate::specs::Reference::truth_leaf))]
    fn truth_leaf(&mut self, word: Keyword, value: bool) -> Result<Expr<Name>, StepError>
        ensures { Reads as_refusal (rule.truth_leaf word value self.old) result self.new }
    {
        let pos = self.counted_token(Terminal::Keyword(word))?;
        Ok(node(pos, ExprNode::Bool(value)))
    }

    #[tactic(auto, unfolding(crate::specs::Reference::text_leaf))]
    fn text_leaf(&mut self) -> Result<Expr<Name>, StepError>
        ensures { Reads as_refusal (rule.text_leaf self.old) result self.new }
    {
        let (pos, text) = self.counted_quoted()?;
        Ok(node(pos, ExprNode::Text(text)))
    }

    fn access_by(&mut self, word: Terminal, access: Access) -> Result<Access, StepError>
        ensures { Reads as_refusal (rule.access_by word access self.old) result self.new }
    {
        self.take(word)?;
        Ok(access)
    }

    #[tactic(auto, unfolding(crate::specs::Reference::access))]
    fn access(&mut self) -> Result<Access, StepError>
        ensures { Reads as_refusal (rule.access self.old) result self.new }
    {
        if self.sees(Terminal::Now) {
            return self.access_by(Terminal::Now, Access::Now);
        }
        if self.sees(Terminal::Pre) {
            return self.access_by(Terminal::Pre, Access::Pre);
        }
        if self.sees(Terminal::NowVal) {
            return self.access_by(Terminal::NowVal, Access::NowVal);
        }
        self.access_by(Terminal::PreVal, Access::PreVal)
    }

    /// What is read of a name, by the word behind its dot.
    #[tactic(auto, unfolding(crate::specs::Reference::behind_name))]
    fn behind_name(&mut self) -> Result<Access, StepError>
        ensures { Reads as_refusal (rule.behind_name self.old) result self.new }
    {
        if !self.sees_punct(Punct::Dot) {
            return Ok(Access::Parameter);
        }
        self.punct(Punct::Dot)?;
        self.access()
    }

    /// A name with its dot and word is one leaf.
    #[tactic(auto, unfolding(crate::specs::Reference::name_leaf))]
    fn name_leaf(&mut self) -> Result<Expr<Name>, StepError>
        ensures { Reads as_refusal (rule.name_leaf self.old) result self.new }
    {
        let (pos, name) = self.counted_name()?;
        let access = self.behind_name()?;
        Ok(node(pos, access.of(name)))
    }

    // ---- operators

    #[tactic(auto, unfolding(crate::specs::Reference::binary))]
    fn binary(&mut self, sign: Punct, operator: Operator) -> Result<(u32, Operator), StepError>
        ensures { Reads as_refusal (rule.binary sign operator self.old) result self.new }
    {
        let pos = self.counted_token(Terminal::Punct(sign))?;
        Ok((pos, operator))
    }

    #[tactic(auto, unfolding(crate::specs::Reference::operator))]
    fn operator(&mut self, grouping: Grouping) -> Result<(u32, Operator), StepError>
        ensures { Reads as_refusal (rule.operator grouping self.old) result self.new }
    {
        match grouping {
            Grouping::Either => self.binary(Punct::Or, Operator::Or),
            Grouping::Both => self.binary(Punct::And, Operator::And),
            Grouping::Sum => self.sum_operator(),
            Grouping::Product => self.product_operator(),
        }
    }

    #[tactic(auto, unfolding(crate::specs::Reference::operator))]
    fn sum_operator(&mut self) -> Result<(u32, Operator), StepError>
        ensures { Reads as_refusal (rule.operator Grouping.Sum self.old) result self.new }
    {
        if self.sees_punct(Punct::Plus) {
            return self.binary(Punct::Plus, Operator::Arith(Op::Add));
        }
        self.binary(Punct::Minus, Operator::Arith(Op::Sub))
    }

    #[tactic(auto, unfolding(crate::specs::Reference::operator))]
    fn product_operator(&mut self) -> Result<(u32, Operator), StepError>
        ensures { Reads as_refusal (rule.operator Grouping.Product self.old) result self.new }
    {
        if self.sees_punct(Punct::Star) {
            return self.binary(Punct::Star, Operator::Arith(Op::Mul));
        }
        if self.sees_punct(Punct::Slash) {
            return self.binary(Punct::Slash, Operator::Arith(Op::Div));
        }
        self.binary(Punct::Percent, Operator::Arith(Op::Rem))
    }

    #[tactic(auto, unfolding(crate::specs::Reference::relation))]
    fn relation(&mut self) -> Result<(u32, Operator), StepError>
        ensures { Reads as_refusal (rule.relation self.old) result self.new }
    {
        if self.sees_punct(Punct::EqualEqual) {
            return self.binary(Punct::EqualEqual, Operator::Compare(Rel::Eq));
        }
        if self.sees_punct(Punct::NotEqual) {
            return self.binary(Punct::NotEqual, Operator::Compare(Rel::Ne));
        }
        if self.sees_punct(Punct::Less) {
            return self.binary(Punct::Less, Operator::Compare(Rel::Lt));
        }
        if self.sees_punct(Punct::LessEqual) {
            return self.binary(Punct::LessEqual, Operator::Compare(Rel::Le));
        }
        if self.sees_punct(Punct::Greater) {
            return self.binary(Punct::Greater, Operator::Compare(Rel::Gt));
        }
        self.binary(Punct::GreaterEqual, Operator::Compare(Rel::Ge))
    }

    #[tactic(auto, unfolding(grammar::specs::Parser::sees))]
    fn sees_operator(&self, grouping: Grouping) -> bool
        ensures { result ≡ parser.sees (rule.operates grouping) self.now }
    {
        match self.kind() {
            None => false,
            Some(next) => operates(grouping, next),
        }
    }

    #[tactic(auto, unfolding(grammar::specs::Parser::sees))]
    fn sees_relation(&self) -> bool
        ensures { result ≡ parser.sees rule.relates self.now }
    {
        match self.kind() {
            None => false,
            Some(next) => relates(next),
        }
    }

    // ---- expressions, where so many brackets may still be opened

    #[cycle(expression)]
    #[tactic(auto, unfolding(crate::specs::Reference::operand))]
    fn operand(&mut self, room: u8) -> Result<Expr<Name>, StepError>
        ensures { Reads as_refusal (rule.operand (rule.inside room) self.old) result self.new }
    {
        match self.kind() {
            Some(Terminal::Number) => self.number_leaf(),
            Some(Terminal::Keyword(Keyword::True)) => self.truth_leaf(Keyword::True, true),
            Some(Terminal::Keyword(Keyword::False)) => self.truth_leaf(Keyword::False, false),
            Some(Terminal::Quoted) => self.text_leaf(),
            None | Some(Terminal::Keyword(_)) | Some(Terminal::Punct(_)) => self.inside(room),
            Some(_) => self.name_leaf(),
        }
    }

    #[cycle(expression)]
    #[tactic(auto, unfolding(crate::specs::Reference::negated))]
    fn negated(&mut self, room: u8) -> Result<Expr<Name>, StepError>
        ensures { Reads as_refusal (rule.negated (rule.inside room) self.old) result self.new }
    {
        let pos = self.counted_token(Terminal::Punct(Punct::Not))?;
        let operand = self.operand(room)?;
        let operand = Boxed::new(self.alloc, operand)?;
        Ok(node(pos, ExprNode::Not(operand)))
    }

    #[cycle(expression)]
    #[tactic(auto, unfolding(crate::specs::Reference::negative))]
    fn negative(&mut self, room: u8) -> Result<Expr<Name>, StepError>
        ensures { Reads as_refusal (rule.negative (rule.inside room) self.old) result self.new }
    {
        let pos = self.counted_token(Terminal::Punct(Punct::Minus))?;
        let operand = self.operand(room)?;
        let operand = Boxed::new(self.alloc, operand)?;
        Ok(node(pos, ExprNode::Neg(operand)))
    }

    #[cycle(expression)]
    #[tactic(auto, unfolding(crate::specs::Reference::factor))]
    fn factor(&mut self, room: u8) -> Result<Expr<Name>, StepError>
        ensures { Reads as_refusal (rule.factor (rule.inside room) self.old) result self.new }
    {
        if self.sees_punct(Punct::Not) {
            return self.negated(room);
        }
        if self.sees_punct(Punct::Minus) {
            return self.negative(room);
        }
        self.operand(room)
    }

    /// What stands between the operators of a level.
    #[cycle(expression)]
    fn between(&mut self, grouping: Grouping, room: u8) -> Result<Expr<Name>, StepError>
        ensures { Reads as_refusal (rule.between grouping (rule.inside room) self.old) result self.new }
    {
        match grouping {
            Grouping::Either => self.chain(Grouping::Both, room),
            Grouping::Both => self.comparison(room),
            Grouping::Sum => self.chain(Grouping::Product, room),
            Grouping::Product => self.factor(room),
        }
    }

    /// An operator of a level, and the operand behind it.
    #[cycle(expression)]
    #[tactic(auto, unfolding(crate::specs::Reference::term))]
    fn term(
        &mut self,
        grouping: Grouping,
        room: u8,
    ) -> Result<((u32, Operator), Expr<Name>), StepError>
        ensures { Reads as_refusal (rule.term (rule.operator grouping)
            (rule.between grouping (rule.inside room)) self.old) result self.new }
    {
        let operator = self.operator(grouping)?;
        let operand = self.between(grouping, room)?;
        Ok((operator, operand))
    }

    /// Operands with operators of a level between them, which group to the left.
    #[cycle(expression)]
    #[tactic(auto, unfolding(crate::specs::Reference::chain))]
    fn chain(&mut self, grouping: Grouping, room: u8) -> Result<Expr<Name>, StepError>
        ensures { Reads as_refusal (rule.chain grouping
            (rule.between grouping (rule.inside room)) self.old) result self.new }
    {
        let mut left = self.between(grouping, room)?;
        'terms: while self.sees_operator(grouping) {
            let (operator, right) = self.term(grouping, room)?;
            left = apply(self.alloc, left, operator, right)?;
        }
        Ok(left)
    }

    /// A relation, and the sum behind it.
    #[cycle(expression)]
    #[tactic(auto, unfolding(crate::specs::Reference::term))]
    fn related(&mut self, room: u8) -> Result<((u32, Operator), Expr<Name>), StepError>
        ensures { Reads as_refusal (rule.term rule.relation
            (rule.sum (rule.inside room)) self.old) result self.new }
    {
        let operator = self.relation()?;
        let operand = self.chain(Grouping::Sum, room)?;
        Ok((operator, operand))
    }

    #[cycle(expression)]
    #[tactic(auto, unfolding(crate::specs::Reference::comparison))]
    fn comparison(&mut self, room: u8) -> Result<Expr<Name>, StepError>
        ensures { Reads as_refusal (rule.comparison (rule.inside room) self.old) result self.new }
    {
        let left = self.chain(Grouping::Sum, room)?;
        if !self.sees_relation() {
            return Ok(left);
        }
        let (operator, right) = self.related(room)?;
        let applied = apply(self.alloc, left, operator, right)?;
        Ok(applied)
    }

    /// `?` with its place, and the two expressions behind it.
    #[cycle(expression)]
    #[tactic(auto, unfolding(crate::specs::Reference::branches))]
    fn branches(&mut self, room: u8) -> Result<(u32, Expr<Name>, Expr<Name>), StepError>
        ensures { Reads as_refusal (rule.branches (rule.inside room) self.old) result self.new }
    {
        let pos = self.counted_token(Terminal::Punct(Punct::Question))?;
        let then = self.chain(Grouping::Either, room)?;
        self.punct(Punct::Colon)?;
        let other = self.chain(Grouping::Either, room)?;
        Ok((pos, then, other))
    }

    #[cycle(expression)]
    #[tactic(auto, unfolding(crate::specs::Reference::expression))]
    fn expression(&mut self, room: u8) -> Result<Expr<Name>, StepError>
        ensures { Reads as_refusal (rule.expression (rule.inside room) self.old) result self.new }
    {
        let test = self.chain(Grouping::Either, room)?;
        if !self.sees_punct(Punct::Question) {
            return Ok(test);
        }
        let (pos, then, other) = self.branches(room)?;
        let chosen = choose(self.alloc, test, pos, then, other)?;
        Ok(chosen)
    }

    /// An expression in round brackets.
    #[cycle(expression)]
    #[tactic(auto, using(crate::proofs::Closings::inside_opened), unfolding(crate::specs::Reference::in_round, grammar::specs::Parser::opened))]
    fn inside(&mut self, room: u8) -> Result<Expr<Name>, StepError>
        ensures { Reads as_refusal (rule.inside room self.old) result self.new }
    {
        let (_, left) = self.open(Punct::LeftParen, room)?;
        let expr = self.expression(left)?;
        self.punct(Punct::RightParen)?;
        Ok(expr)
    }

    /// An outermost expression, and the place of its first token.
    #[tactic(auto, unfolding(crate::specs::Reference::outermost, grammar::specs::Parser::placed))]
    pub fn outermost(&mut self, room: u8) -> Result<ExprAt<Name>, StepError>
        ensures { Reads as_refusal (rule.outermost room self.old) result self.new }
    {
        self.begin_outermost();
        let pos = Pos(self.place());
        let expr = self.expression(room)?;
        Ok(ExprAt { pos, expr })
    }

    /// An outermost expression in round brackets.
    #[tactic(auto, unfolding(crate::specs::Reference::bracketed_test, crate::specs::Reference::in_round, grammar::specs::Parser::opened))]
    pub fn test(&mut self, room: u8) -> Result<ExprAt<Name>, StepError>
        ensures { Reads as_refusal (rule.bracketed_test room self.old) result self.new }
    {
        let (_, left) = self.open(Punct::LeftParen, room)?;
        let expr = self.outermost(left)?;
        self.punct(Punct::RightParen)?;
        Ok(expr)
    }

    fn next_outermost(&mut self, room: u8) -> Result<ExprAt<Name>, StepError>
        ensures { Reads as_refusal (rule.behind_comma (rule.outermost room) self.old) result self.new }
    {
        self.punct(Punct::Comma)?;
        self.outermost(room)
    }

    /// One or more.
    #[tactic(auto, unfolding(crate::specs::Reference::listed))]
    fn exprs(&mut self, room: u8) -> Result<Items<ExprAt<Name>>, StepError>
        ensures { Reads as_refusal (rule.listed (rule.outermost room) self.old) result self.new }
    {
        let first = self.outermost(room)?;
        let mut list = self.start_list();
        list.push(first)?;
        'each: while self.sees_punct(Punct::Comma) {
            let item = self.next_outermost(room)?;
            list.push(item)?;
        }
        Ok(whole_list(list))
    }

    /// The same, or none.
    #[tactic(auto, unfolding(crate::specs::Reference::listed_or_none))]
    fn exprs_or_none(&mut self, room: u8) -> Result<Items<ExprAt<Name>>, StepError>
        ensures { Reads as_refusal (rule.listed_or_none (rule.outermost room) self.old) result self.new }
    {
        if self.sees_in_round() {
            self.exprs(room)
        } else {
            Ok(self.empty_list())
        }
    }

    /// The arguments of a call, in round brackets.
    #[tactic(auto, unfolding(crate::specs::Reference::in_round, grammar::specs::Parser::opened))]
    pub fn arguments(&mut self, room: u8) -> Result<Items<ExprAt<Name>>, StepError>
        ensures { Reads as_refusal (rule.in_round rule.arguments room self.old) result self.new }
    {
        let (_, left) = self.open(Punct::LeftParen, room)?;
        let list = self.exprs_or_none(left)?;
        self.punct(Punct::RightParen)?;
        Ok(list)
    }
}

fn operates(grouping: Grouping, terminal: Terminal) -> bool
    ensures { result ≡ rule.operates grouping terminal }
{
    match (grouping, terminal) {
        (Grouping::Either, Terminal::Punct(Punct::Or)) => true,
        (Grouping::Both, Terminal::Punct(Punct::And)) => true,
        (Grouping::Sum, Terminal::Punct(Punct::Plus | Punct::Minus)) => true,
        (Grouping::Product, Terminal::Punct(Punct::Star | Punct::Slash | Punct::Percent)) => true,
        _ => false,
    }
}

fn relates(terminal: Terminal) -> bool
    ensures { result ≡ rule.relates terminal }
{
    matches!(
        terminal,
        Terminal::Punct(
            Punct::EqualEqual
                | Punct::NotEqual
                | Punct::Less
                | Punct::LessEqual
                | Punct::Greater
                | Punct::GreaterEqual
        )
    )
}
