//! Writing the parts of declarations.

ghost use Rattle.std.specs.Prelude.{◌≡◌, ◌∷◌, [], codes};
ghost use Rattle.module_printer.specs.SourceTokens.{token_of_kind, token_of_combine, tokens_of_kind};
ghost use Rattle.module_printer.specs.SourceTokens.{tokens_of_dir, tokens_of_type, tokens_of_first};
ghost use Rattle.module_printer.specs.SourceTokens.{tokens_of_combine, tokens_of_signal, tokens_of_interface};
ghost use Rattle.module_printer.specs.SourceTokens.{tokens_of_parameter, tokens_of_binding, if_there};
ghost use Rattle.module_printer.specs.ExpressionTokens.{tokens_of_value};
ghost use Rattle.module_printer.specs.Printed.{Writes};

use crate::print::expressions::truth_token;
use crate::print::printer::{Printable, Printer};
use hh_base::memory::NoMemory;
use hh_base::name::Name;
use hh_base::value::{CombineWord, Dir, Kind, Value};
use module_tree::source::{Binding, InterfaceNode, ParameterNode, SignalNode};

fn kind_token(kind: Kind) -> &'static str
    ensures { result.now ≡ token_of_kind kind }
{
    match kind {
        Kind::Pure => "pure",
        Kind::Int => "int",
        Kind::Bool => "bool",
        Kind::Text => "text",
    }
}

fn combine_token(word: CombineWord) -> &'static str
    ensures { result.now ≡ token_of_combine word }
{
    match word {
        CombineWord::Plus => "plus",
        CombineWord::Min => "min",
        CombineWord::Max => "max",
        CombineWord::And => "and",
        CombineWord::Or => "or",
    }
}

impl Printer {
    /// Writes `: KIND`.
    pub fn typed(&mut self, kind: Kind) -> Result<(), NoMemory>
        ensures { Writes result self.old self.new (codes ":" ∷ token_of_kind kind ∷ []) }
    {
        self.token(":")?;
        self.token(kind_token(kind))
    }

    fn signal_type(&mut self, kind: Kind) -> Result<(), NoMemory>
        ensures { Writes result self.old self.new (tokens_of_type kind) }
    {
        match kind {
            Kind::Pure => Ok(()),
            _ => self.typed(kind),
        }
    }

    fn value(&mut self, value: &Value) -> Result<(), NoMemory>
        ensures { Writes result self.old self.new (tokens_of_value value.now) }
    {
        match value {
            Value::Unit => self.token("unit"),
            Value::Int(number) => self.integer(*number),
            Value::Bool(truth) => self.token(truth_token(*truth)),
            Value::Text(text) => self.text(text),
        }
    }

    fn first_value(&mut self, first: &Option<Value>) -> Result<(), NoMemory>
        ensures { Writes result self.old self.new (if_there tokens_of_first first.now) }
    {
        match first {
            None => Ok(()),
            Some(value) => {
                self.token("=")?;
                self.value(value)
            }
        }
    }

    fn combine(&mut self, combine: Option<CombineWord>) -> Result<(), NoMemory>
        ensures { Writes result self.old self.new (if_there tokens_of_combine combine) }
    {
        match combine {
            None => Ok(()),
            Some(word) => {
                self.token("combine")?;
                self.token(combine_token(word))
            }
        }
    }

    fn direction(&mut self, dir: Dir) -> Result<(), NoMemory>
        ensures { Writes result self.old self.new (tokens_of_dir dir) }
    {
        match dir {
            Dir::Input => self.token("in"),
            Dir::Output => self.token("out"),
            Dir::Both => self.token("inout"),
            Dir::Local => Ok(()),
        }
    }
}

impl Printable for Kind {
    ghost tokens = { tokens_of_kind };

    fn print(&self, printer: &mut Printer) -> Result<(), NoMemory> {
        printer.token(kind_token(*self))
    }
}

impl Printable for ParameterNode {
    ghost tokens = { tokens_of_parameter };

    fn print(&self, printer: &mut Printer) -> Result<(), NoMemory> {
        printer.token(self.name.as_str())?;
        printer.typed(self.kind)
    }
}

impl Printable for SignalNode {
    ghost tokens = { tokens_of_signal };

    fn print(&self, printer: &mut Printer) -> Result<(), NoMemory> {
        printer.token(self.name.as_str())?;
        printer.signal_type(self.kind)?;
        printer.first_value(&self.first)?;
        printer.combine(self.combine)
    }
}

impl Printable for InterfaceNode {
    ghost tokens = { tokens_of_interface };

    fn print(&self, printer: &mut Printer) -> Result<(), NoMemory> {
        printer.direction(self.dir)?;
        self.signal.print(printer)
    }
}

impl Printable for Binding<Name> {
    ghost tokens = { tokens_of_binding };

    fn print(&self, printer: &mut Printer) -> Result<(), NoMemory> {
        printer.token(self.left.name.as_str())?;
        printer.token("=")?;
        printer.token(self.right.name.as_str())
    }
}
