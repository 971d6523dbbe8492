//! Writing tokens.

ghost use Rattle.std.specs.Prelude.{◌≡◌, ◌∷◌, [], ℕ, List, codes, map};
ghost use Rattle.std.specs.Fmt.{decimal};
ghost use Rattle.hh_base.specs.Bytes.{line_feed};
ghost use Rattle.hh_base.specs.Literal.{quoted};
ghost use Rattle.module_printer.specs.ExpressionTokens.{in_parentheses, tokens_of_integer};
ghost use Rattle.module_printer.specs.SourceTokens.{behind, comma_separated, tokens_of_handler};
ghost use Rattle.module_printer.specs.Printed.{Appends, Writes};

use hh_base::literal::quote;
use hh_base::memory::NoMemory;
use hh_base::text::Text;
use std::alloc::Global;
use std::marker::Model;

/// The text that is printed so far: tokens, each behind a space. Contracts see its bytes.
#[derive(Drop)]
pub struct Printer {
    alloc: Global,
    out: Vec<u8>,
}

impl Model for Printer {
    ghost use Rattle.std.specs.Prelude.{List, ℕ};

    ghost Value = { List ℕ };

    ghost view = { λ p. p.out.items };
}

/// A part of a text that is written as tokens.
pub trait Printable {
    ghost tokens: { Self → List (List ℕ) };

    fn print(&self, printer: &mut Printer) -> Result<(), NoMemory>
        ensures { Writes result printer.old printer.new (tokens self.now) };
}

impl Printer {
    /// A printer that has written nothing.
    pub fn new(alloc: Global) -> Printer
        ensures { result ≡ [] }
    {
        Printer {
            alloc,
            out: Vec::new(alloc),
        }
    }

    /// The text that was written, as bytes.
    pub fn into_bytes(self) -> Vec<u8>
        ensures { result.items ≡ self }
    {
        self.out
    }

    /// Writes the first token of a line.
    pub fn begin_line(&mut self, text: &str) -> Result<(), NoMemory>
        ensures { Appends result self.old self.new text.now }
    {
        self.out.extend_from_slice(text.as_bytes())?;
        Ok(())
    }

    /// Ends a line by an LF.
    pub fn end_line(&mut self) -> Result<(), NoMemory>
        ensures { Appends result self.old self.new (line_feed ∷ []) }
    {
        self.out.push(b'\n')?;
        Ok(())
    }

    /// Writes a token, given its text.
    pub fn token(&mut self, text: &str) -> Result<(), NoMemory>
        ensures { Writes result self.old self.new (text.now ∷ []) }
    {
        self.out.push(b' ')?;
        self.out.extend_from_slice(text.as_bytes())?;
        Ok(())
    }

    /// Writes a number in decimal digits.
    pub fn number(&mut self, number: u64) -> Result<(), NoMemory>
        ensures { Writes result self.old self.new (decimal number ∷ []) }
    {
        let digits = number.to_string(self.alloc)?;
        self.token(digits.as_str())
    }

    /// Writes a number with its sign, which is a token of its own.
    pub fn integer(&mut self, number: i64) -> Result<(), NoMemory>
        ensures { Writes result self.old self.new (tokens_of_integer number) }
    {
        if number < 0 {
            self.token("-")?;
        }
        self.number(number.unsigned_abs())
    }

    /// Writes a text between quotes, with its escapes.
    pub fn text(&mut self, text: &Text) -> Result<(), NoMemory>
        ensures { Writes result self.old self.new (quoted text.now ∷ []) }
    {
        let quoted = quote(self.alloc, text.as_bytes())?;
        self.out.push(b' ')?;
        self.out.extend_from_slice(&quoted)?;
        Ok(())
    }

    /// Writes a handler of an async statement, if there is one.
    pub fn handler(&mut self, word: &str, text: &Option<Text>) -> Result<(), NoMemory>
        ensures { Writes result self.old self.new (tokens_of_handler word.now text.now) }
    {
        match text {
            None => Ok(()),
            Some(text) => {
                self.token(word)?;
                self.text(text)
            }
        }
    }

    fn behind_commas<T: Printable>(&mut self, items: &[T]) -> Result<(), NoMemory>
        ensures { Writes result self.old self.new (behind (codes ",") (map T.tokens items.now)) }
    {
        for item in items {
            self.token(",")?;
            item.print(self)?;
        }
        Ok(())
    }

    /// Writes the items with a comma between neighbours.
    pub fn list<T: Printable>(&mut self, items: &[T]) -> Result<(), NoMemory>
        ensures { Writes result self.old self.new (comma_separated (map T.tokens items.now)) }
    {
        match items.split_first() {
            None => Ok(()),
            Some((first, others)) => {
                first.print(self)?;
                self.behind_commas(others)
            }
        }
    }

    /// Writes the items in parentheses, with a comma between neighbours.
    pub fn parenthesized<T: Printable>(&mut self, items: &[T]) -> Result<(), NoMemory>
        ensures { Writes result self.old self.new
            (in_parentheses (comma_separated (map T.tokens items.now))) }
    {
        self.token("(")?;
        self.list(items)?;
        self.token(")")
    }
}
