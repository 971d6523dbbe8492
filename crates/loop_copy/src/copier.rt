//! The walk over a statement that writes its copy.

ghost use Rattle.std.specs.Prelude.{◌≡◌, ◌<◌, IfOk, length};
ghost use Rattle.hh_term.specs.ProgramView.{kernel_of};
ghost use Rattle.hh_term.specs.Statement.{Async, Local, Loop};
ghost use Rattle.hh_term.specs.Views.{node_statement, statement_of};
ghost use Rattle.loop_copy.specs.Numbered.{numbered, Copies, Declares};
ghost use Rattle.loop_copy.specs.Within.{LiesWithin};

use crate::renaming::{number_in, renumbered, renumbered_site, renumbered_value};
use hh_base::value::{NoMemory, Pos};
use hh_term::program::{Program, SignalDecl, Site};
use hh_term::term::{Term, TermNode};
use std::alloc::Global;

/// The number of what stands at this place of a list: numbers have 32 bits.
pub fn number(place: usize) -> Result<u32, NoMemory>
    ensures { IfOk result (λ n. n ≡ place) }
{
    match u32::try_from(place) {
        Ok(number) => Ok(number),
        Err(_) => Err(NoMemory),
    }
}

/// The numbers of the signals of a program in its copy, and the signals and async sites of the copy so far.
#[derive(Drop)]
pub struct Copier {
    pub numbers: Vec<u32>,
    pub signals: Vec<SignalDecl>,
    pub sites: Vec<Site>,
}

impl Copier {
    /// Declares a local signal more, as this one of the program, and answers its number.
    fn declare(&mut self, alloc: Global, program: &Program, signal: u32) -> Result<u32, NoMemory>
        requires lies { signal < length (kernel_of program.now).signals }
        requires known { length self.old.numbers.items ≡ length (kernel_of program.now).signals }
        ensures { IfOk result
            (λ n. Declares (kernel_of program.now) signal n (numbered self.old) (numbered self.new)) }
    {
        let signals = program.signals();
        let copy = signals[signal as usize].copy(alloc)?;
        let number = number(self.signals.len())?;
        self.signals.push(copy)?;
        self.numbers[signal as usize] = number;
        Ok(number)
    }

    /// Adds an async site, as this one of the program, and answers its number.
    fn site(&mut self, alloc: Global, program: &Program, site: u32) -> Result<u32, NoMemory>
        requires { site < length (kernel_of program.now).sites }
        ensures { IfOk result (λ n. Copies (kernel_of program.now) (numbered self.old) (numbered self.new)
            (Async site) (Async n)) }
    {
        let sites = program.sites();
        let copy = renumbered_site(alloc, &sites[site as usize], &self.numbers)?;
        let number = number(self.sites.len())?;
        self.sites.push(copy)?;
        Ok(number)
    }

    /// The copy of a statement.
    #[cycle(copy)]
    pub fn statement(
        &mut self,
        alloc: Global,
        program: &Program,
        term: &Term,
    ) -> Result<Term, NoMemory>
        requires lies { LiesWithin (length (kernel_of program.now).signals)
            (length (kernel_of program.now).sites)
            (statement_of term.now) }
        requires known { length self.old.numbers.items ≡ length (kernel_of program.now).signals }
        ensures { IfOk result (λ t. Copies (kernel_of program.now) (numbered self.old) (numbered self.new)
            (statement_of term.now) (statement_of t)) }
    {
        let node = self.node(alloc, program, term.pos, &term.node)?;
        Ok(Term {
            pos: term.pos,
            node,
        })
    }

    /// The copy of a local signal's scope.
    #[cycle(copy)]
    fn scope(
        &mut self,
        alloc: Global,
        program: &Program,
        signal: u32,
        body: &Term,
    ) -> Result<(u32, Term), NoMemory>
        requires lies { LiesWithin (length (kernel_of program.now).signals)
            (length (kernel_of program.now).sites)
            (Local signal (statement_of body.now)) }
        requires known { length self.old.numbers.items ≡ length (kernel_of program.now).signals }
        ensures { IfOk result (λ r. Copies (kernel_of program.now) (numbered self.old) (numbered self.new)
            (Local signal (statement_of body.now)) (Local r.0 (statement_of r.1))) }
    {
        let outer = number_in(&self.numbers, signal);
        let number = self.declare(alloc, program, signal)?;
        let body = self.statement(alloc, program, body)?;
        self.numbers[signal as usize] = outer;
        Ok((number, body))
    }

    /// The copy of a loop's body, twice.
    #[cycle(copy)]
    fn twice(
        &mut self,
        alloc: Global,
        program: &Program,
        at: Pos,
        body: &Term,
    ) -> Result<Term, NoMemory>
        requires lies { LiesWithin (length (kernel_of program.now).signals)
            (length (kernel_of program.now).sites)
            (statement_of body.now) }
        requires known { length self.old.numbers.items ≡ length (kernel_of program.now).signals }
        ensures { IfOk result (λ t. Copies (kernel_of program.now) (numbered self.old) (numbered self.new)
            (Loop (statement_of body.now)) (Loop (statement_of t))) }
    {
        let first = self.statement(alloc, program, body)?;
        let second = self.statement(alloc, program, body)?;
        let first = Box::new(alloc, first)?;
        let second = Box::new(alloc, second)?;
        Ok(Term {
            pos: at,
            node: TermNode::Seq(first, second),
        })
    }

    #[cycle(copy)]
    fn node(
        &mut self,
        alloc: Global,
        program: &Program,
        at: Pos,
        node: &TermNode,
    ) -> Result<TermNode, NoMemory>
        requires lies { LiesWithin (length (kernel_of program.now).signals)
            (length (kernel_of program.now).sites)
            (node_statement node.now) }
        requires known { length self.old.numbers.items ≡ length (kernel_of program.now).signals }
        ensures { IfOk result (λ t. Copies (kernel_of program.now) (numbered self.old) (numbered self.new)
            (node_statement node.now) (node_statement t)) }
    {
        match node {
            TermNode::Nothing => Ok(TermNode::Nothing),
            TermNode::Pause => Ok(TermNode::Pause),
            TermNode::Exit(level) => Ok(TermNode::Exit(*level)),
            TermNode::Emit(signal, value) => {
                let value = renumbered_value(alloc, value, &self.numbers)?;
                Ok(TermNode::Emit(number_in(&self.numbers, *signal), value))
            }
            TermNode::Async(site) => Ok(TermNode::Async(self.site(alloc, program, *site)?)),
            TermNode::If(test, p, q) => {
                let test = renumbered(alloc, test, &self.numbers)?;
                let p = Box::new(alloc, self.statement(alloc, program, p)?)?;
                let q = Box::new(alloc, self.statement(alloc, program, q)?)?;
                Ok(TermNode::If(test, p, q))
            }
            TermNode::Suspend(guard, p) => {
                let guard = renumbered(alloc, guard, &self.numbers)?;
                let p = Box::new(alloc, self.statement(alloc, program, p)?)?;
                Ok(TermNode::Suspend(guard, p))
            }
            TermNode::Seq(p, q) => {
                let p = Box::new(alloc, self.statement(alloc, program, p)?)?;
                let q = Box::new(alloc, self.statement(alloc, program, q)?)?;
                Ok(TermNode::Seq(p, q))
            }
            TermNode::Par(p, q) => {
                let p = Box::new(alloc, self.statement(alloc, program, p)?)?;
                let q = Box::new(alloc, self.statement(alloc, program, q)?)?;
                Ok(TermNode::Par(p, q))
            }
            TermNode::Loop(p) => {
                let body = Box::new(alloc, self.twice(alloc, program, at, p)?)?;
                Ok(TermNode::Loop(body))
            }
            TermNode::Trap(p) => {
                let p = Box::new(alloc, self.statement(alloc, program, p)?)?;
                Ok(TermNode::Trap(p))
            }
            TermNode::Local(signal, p) => {
                let (number, p) = self.scope(alloc, program, *signal, p)?;
                let p = Box::new(alloc, p)?;
                Ok(TermNode::Local(number, p))
            }
        }
    }
}
