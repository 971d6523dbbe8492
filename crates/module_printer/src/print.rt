//! Printing a tree as a module text.

ghost use Rattle.std.specs.Prelude.{◌≡◌, ◌∷◌, ◌++◌, [], codes, map, IfOk};
ghost use Rattle.module_printer.specs.ExpressionTokens.{in_parentheses};
ghost use Rattle.module_printer.specs.SourceTokens.{comma_separated, tokens_of_outermost, tokens_of_body};
ghost use Rattle.module_printer.specs.SourceTokens.{tokens_of_host, tokens_of_module, tokens_of_part};
ghost use Rattle.module_printer.specs.Printed.{spaced, line_of, printed, Appends, Writes};

mod declarations;
mod expressions;
mod printer;
mod statements;

use crate::print::printer::{Printable, Printer};
use hh_base::memory::NoMemory;
use hh_base::name::Name;
use module_tree::source::{BodyNode, ExprAt, HostNode, ModuleNode, Modules, Part};
use std::alloc::Global;

impl Printer {
    /// Begins a line with the word of a declaration, its name and its list.
    fn heading<T: Printable>(
        &mut self,
        word: &str,
        name: &Name,
        items: &[T],
    ) -> Result<(), NoMemory>
        ensures { Appends result self.old self.new
            (word.now ++ spaced (name.now ∷ in_parentheses (comma_separated (map T.tokens items.now)))) }
    {
        self.begin_line(word)?;
        self.token(name.as_str())?;
        self.parenthesized(items)
    }

    fn braced(&mut self, expr: &ExprAt<Name>) -> Result<(), NoMemory>
        ensures { Writes result self.old self.new
            (codes "{" ∷ (tokens_of_outermost expr.now ++ codes "}" ∷ [])) }
    {
        self.token("{")?;
        self.expression(&expr.expr)?;
        self.token("}")
    }

    fn body(&mut self, body: &BodyNode<Name>) -> Result<(), NoMemory>
        ensures { Appends result self.old self.new (line_of (tokens_of_body body.now)) }
    {
        self.heading("body", &body.name, body.parameters.as_slice())?;
        self.typed(body.answer)?;
        self.braced(&body.expr)?;
        self.end_line()
    }

    fn host(&mut self, host: &HostNode) -> Result<(), NoMemory>
        ensures { Appends result self.old self.new (line_of (tokens_of_host host.now)) }
    {
        self.heading("host", &host.name, host.parameters.as_slice())?;
        self.typed(host.answer)?;
        self.token(";")?;
        self.end_line()
    }

    fn module(&mut self, node: &ModuleNode<Name>) -> Result<(), NoMemory>
        ensures { Appends result self.old self.new (line_of (tokens_of_module node.now)) }
    {
        self.heading("module", &node.name, node.interface.as_slice())?;
        self.block(&node.block)?;
        self.end_line()
    }

    fn part(&mut self, part: &Part<Name>) -> Result<(), NoMemory>
        ensures { Appends result self.old self.new (line_of (tokens_of_part part.now)) }
    {
        match part {
            Part::Body(body) => self.body(body),
            Part::Host(host) => self.host(host),
            Part::Module(module) => self.module(module),
        }
    }

    fn parts(&mut self, parts: &[Part<Name>]) -> Result<(), NoMemory>
        ensures { Appends result self.old self.new (printed parts.now) }
    {
        for part in parts {
            self.part(part)?;
        }
        Ok(())
    }
}

/// The text of a tree: a line for each declaration, with one space between neighbouring tokens and only those
/// parentheses that are needed.
pub fn print(alloc: Global, modules: &Modules) -> Result<Vec<u8>, NoMemory>
    ensures { IfOk result (λ v. v.items ≡ printed modules.now) }
{
    let mut printer = Printer::new(alloc);
    printer.parts(modules.parts())?;
    Ok(printer.into_bytes())
}
