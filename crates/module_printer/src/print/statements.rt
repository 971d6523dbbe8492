//! Writing statements.

ghost use Rattle.std.specs.Prelude.{◌∷◌, ◌++◌, [], codes, map};
ghost use Rattle.module_printer.specs.SourceTokens.{one_after_another, separated, comma_separated};
ghost use Rattle.module_printer.specs.SourceTokens.{tokens_of_signal, tokens_of_test, tokens_of_later};
ghost use Rattle.module_printer.specs.SourceTokens.{tokens_of_delay, tokens_of_answer, tokens_of_call};
ghost use Rattle.module_printer.specs.SourceTokens.{tokens_of_handlers, tokens_of_async, tokens_of_emission};
ghost use Rattle.module_printer.specs.SourceTokens.{tokens_of_run, immediate_word, if_there};
ghost use Rattle.module_printer.specs.SourceTokens.{tokens_of_statement, tokens_of_node, tokens_of_block};
ghost use Rattle.module_printer.specs.Printed.{Writes};

use crate::print::printer::Printer;
use hh_base::memory::NoMemory;
use hh_base::name::Name;
use module_tree::source::{
    AsyncNode, Binding, BlockNode, Delay, ExprAt, Later, NameAt, SignalNode, Statement,
    StatementNode,
};
use sqlite_items::Boxed;

impl Printer {
    /// Writes an expression in parentheses.
    fn test(&mut self, test: &ExprAt<Name>) -> Result<(), NoMemory>
        ensures { Writes result self.old self.new (tokens_of_test test.now) }
    {
        self.token("(")?;
        self.expression(&test.expr)?;
        self.token(")")
    }

    fn later(&mut self, later: &Later<Name>) -> Result<(), NoMemory>
        ensures { Writes result self.old self.new (tokens_of_later later.now) }
    {
        match later {
            Later::Once(test) => self.test(test),
            Later::Count(times, test) => {
                self.token("count")?;
                self.token("(")?;
                self.number(*times as u64)?;
                self.token(",")?;
                self.expression(&test.expr)?;
                self.token(")")
            }
        }
    }

    fn delay(&mut self, delay: &Delay<Name>) -> Result<(), NoMemory>
        ensures { Writes result self.old self.new (tokens_of_delay delay.now) }
    {
        match delay {
            Delay::Later(later) => self.later(later),
            Delay::Immediate(test) => {
                self.token("immediate")?;
                self.test(test)
            }
        }
    }

    fn emitted(&mut self, value: &Option<ExprAt<Name>>) -> Result<(), NoMemory>
        ensures { Writes result self.old self.new (if_there tokens_of_test value.now) }
    {
        match value {
            None => Ok(()),
            Some(value) => self.test(value),
        }
    }

    /// Writes a statement that emits: `emit` or `sustain`.
    fn emission(
        &mut self,
        word: &str,
        signal: &NameAt<Name>,
        value: &Option<ExprAt<Name>>,
    ) -> Result<(), NoMemory>
        ensures { Writes result self.old self.new
            (tokens_of_emission word.now signal.now value.now) }
    {
        self.token(word)?;
        self.token(signal.name.as_str())?;
        self.emitted(value)?;
        self.token(";")
    }

    fn run(&mut self, callee: &NameAt<Name>, bindings: &[Binding<Name>]) -> Result<(), NoMemory>
        ensures { Writes result self.old self.new (tokens_of_run callee.now bindings.now) }
    {
        self.token("run")?;
        self.token(callee.name.as_str())?;
        self.parenthesized(bindings)?;
        self.token(";")
    }

    fn answered(&mut self, signal: &Option<NameAt<Name>>) -> Result<(), NoMemory>
        ensures { Writes result self.old self.new (if_there tokens_of_answer signal.now) }
    {
        match signal {
            None => Ok(()),
            Some(signal) => {
                self.token("(")?;
                self.token(signal.name.as_str())?;
                self.token(")")
            }
        }
    }

    fn handlers(&mut self, node: &AsyncNode<Name>) -> Result<(), NoMemory>
        ensures { Writes result self.old self.new (tokens_of_handlers node.now) }
    {
        self.handler("kill", &node.kill)?;
        self.handler("suspend", &node.suspend)?;
        self.handler("resume", &node.resume)
    }

    fn call(&mut self, node: &AsyncNode<Name>) -> Result<(), NoMemory>
        ensures { Writes result self.old self.new (tokens_of_call node.now) }
    {
        self.token("call")?;
        self.token(node.body.name.as_str())?;
        self.parenthesized(node.args.as_slice())
    }

    fn asynchronous(&mut self, node: &AsyncNode<Name>) -> Result<(), NoMemory>
        ensures { Writes result self.old self.new (tokens_of_async node.now) }
    {
        self.token("async")?;
        self.answered(&node.signal)?;
        self.call(node)?;
        self.handlers(node)?;
        self.token(";")
    }

    /// Writes a statement of one word.
    fn word(&mut self, word: &str) -> Result<(), NoMemory>
        ensures { Writes result self.old self.new (word.now ∷ codes ";" ∷ []) }
    {
        self.token(word)?;
        self.token(";")
    }

    fn immediate(&mut self, immediate: bool) -> Result<(), NoMemory>
        ensures { Writes result self.old self.new (immediate_word immediate) }
    {
        if immediate {
            self.token("immediate")
        } else {
            Ok(())
        }
    }

    fn wait(&mut self, delay: &Delay<Name>) -> Result<(), NoMemory>
        ensures { Writes result self.old self.new
            (codes "await" ∷ (tokens_of_delay delay.now ++ codes ";" ∷ [])) }
    {
        self.token("await")?;
        self.delay(delay)?;
        self.token(";")
    }

    /// Writes `break TRAP ;`.
    fn leave(&mut self, trap: &NameAt<Name>) -> Result<(), NoMemory>
        ensures { Writes result self.old self.new (codes "break" ∷ trap.now.name ∷ codes ";" ∷ []) }
    {
        self.token("break")?;
        self.word(trap.name.as_str())
    }

    #[cycle(statement)]
    fn branches(&mut self, blocks: &[BlockNode<Name>]) -> Result<(), NoMemory>
        ensures { Writes result self.old self.new
            (separated (codes "par") (map tokens_of_block blocks.now)) }
    {
        let Some((first, others)) = blocks.split_first() else {
            return Ok(());
        };
        self.block(first)?;
        for block in others {
            self.token("par")?;
            self.block(block)?;
        }
        Ok(())
    }

    #[cycle(statement)]
    fn when(&mut self, test: &Boxed<ExprAt<Name>>, then: &BlockNode<Name>) -> Result<(), NoMemory>
        ensures { Writes result self.old self.new
            (codes "if" ∷ (tokens_of_test test.now ++ tokens_of_block then.now)) }
    {
        self.token("if")?;
        self.test(test.get())?;
        self.block(then)
    }

    #[cycle(statement)]
    fn otherwise(&mut self, block: &BlockNode<Name>) -> Result<(), NoMemory>
        ensures { Writes result self.old self.new (codes "else" ∷ tokens_of_block block.now) }
    {
        self.token("else")?;
        self.block(block)
    }

    /// Writes a statement that a delay restarts or ends: `every`, `abort` or `weakabort`.
    #[cycle(statement)]
    fn delayed(
        &mut self,
        word: &str,
        delay: &Delay<Name>,
        block: &BlockNode<Name>,
    ) -> Result<(), NoMemory>
        ensures { Writes result self.old self.new
            (word.now ∷ (tokens_of_delay delay.now ++ tokens_of_block block.now)) }
    {
        self.token(word)?;
        self.delay(delay)?;
        self.block(block)
    }

    #[cycle(statement)]
    fn do_every(&mut self, block: &BlockNode<Name>, later: &Later<Name>) -> Result<(), NoMemory>
        ensures { Writes result self.old self.new
            ((codes "do" ∷ tokens_of_block block.now) ++ (codes "every" ∷ tokens_of_later later.now)
            ++ codes ";" ∷ []) }
    {
        self.token("do")?;
        self.block(block)?;
        self.token("every")?;
        self.later(later)?;
        self.token(";")
    }

    #[cycle(statement)]
    fn suspended(
        &mut self,
        immediate: bool,
        test: &ExprAt<Name>,
        block: &BlockNode<Name>,
    ) -> Result<(), NoMemory>
        ensures { Writes result self.old self.new
            (codes "suspend" ∷ (immediate_word immediate ++ tokens_of_test test.now
            ++ tokens_of_block block.now)) }
    {
        self.token("suspend")?;
        self.immediate(immediate)?;
        self.test(test)?;
        self.block(block)
    }

    #[cycle(statement)]
    fn local(&mut self, signals: &[SignalNode], block: &BlockNode<Name>) -> Result<(), NoMemory>
        ensures { Writes result self.old self.new
            (codes "signal" ∷ (comma_separated (map tokens_of_signal signals.now)
            ++ tokens_of_block block.now)) }
    {
        self.token("signal")?;
        self.list(signals)?;
        self.block(block)
    }

    #[cycle(statement)]
    fn trap(&mut self, name: &Name, block: &BlockNode<Name>) -> Result<(), NoMemory>
        ensures { Writes result self.old self.new
            (codes "trap" ∷ name.now ∷ tokens_of_block block.now) }
    {
        self.token("trap")?;
        self.token(name.as_str())?;
        self.block(block)
    }

    #[cycle(statement)]
    fn loop_of(&mut self, block: &BlockNode<Name>) -> Result<(), NoMemory>
        ensures { Writes result self.old self.new (codes "loop" ∷ tokens_of_block block.now) }
    {
        self.token("loop")?;
        self.block(block)
    }

    #[cycle(statement)]
    fn fork(&mut self, blocks: &[BlockNode<Name>]) -> Result<(), NoMemory>
        ensures { Writes result self.old self.new
            (codes "fork" ∷ separated (codes "par") (map tokens_of_block blocks.now)) }
    {
        self.token("fork")?;
        self.branches(blocks)
    }

    /// Writes a statement, with its blocks and its semicolon.
    #[cycle(statement)]
    pub fn statement(&mut self, statement: &Statement<Name>) -> Result<(), NoMemory>
        ensures { Writes result self.old self.new (tokens_of_statement statement.now) }
    {
        match statement {
            Statement::Nothing => self.word("nothing"),
            Statement::Pause => self.word("pause"),
            Statement::Halt => self.word("halt"),
            Statement::Emit(signal, value) => self.emission("emit", signal, value),
            Statement::Sustain(signal, value) => self.emission("sustain", signal, value),
            Statement::If(test, then, None) => self.when(test, then),
            Statement::If(test, then, Some(other)) => {
                self.when(test, then)?;
                self.otherwise(other)
            }
            Statement::Loop(block) => self.loop_of(block),
            Statement::Fork(blocks) => self.fork(blocks.as_slice()),
            Statement::Block(block) => self.block(block),
            Statement::Await(delay) => self.wait(delay),
            Statement::Every(delay, block) => self.delayed("every", delay, block),
            Statement::DoEvery(block, later) => self.do_every(block, later),
            Statement::Abort(delay, block) => self.delayed("abort", delay, block),
            Statement::WeakAbort(delay, block) => self.delayed("weakabort", delay, block),
            Statement::Suspend(immediate, test, block) => self.suspended(*immediate, test, block),
            Statement::Signal(signals, block) => self.local(signals.as_slice(), block),
            Statement::Trap(name, block) => self.trap(name, block),
            Statement::Break(trap) => self.leave(trap),
            Statement::Run(callee, bindings) => self.run(callee, bindings.as_slice()),
            Statement::Async(node) => self.asynchronous(node.get()),
        }
    }

    #[cycle(statement)]
    fn node(&mut self, node: &StatementNode<Name>) -> Result<(), NoMemory>
        ensures { Writes result self.old self.new (tokens_of_node node.now) }
    {
        self.statement(&node.what)
    }

    #[cycle(statement)]
    fn nodes(&mut self, nodes: &[StatementNode<Name>]) -> Result<(), NoMemory>
        ensures { Writes result self.old self.new (one_after_another (map tokens_of_node nodes.now)) }
    {
        for node in nodes {
            self.node(node)?;
        }
        Ok(())
    }

    /// Writes a block with its braces.
    #[cycle(statement)]
    pub fn block(&mut self, block: &BlockNode<Name>) -> Result<(), NoMemory>
        ensures { Writes result self.old self.new (tokens_of_block block.now) }
    {
        self.token("{")?;
        self.nodes(block.statements.as_slice())?;
        self.token("}")
    }
}
