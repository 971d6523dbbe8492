//! The lines of signals.
ghost use Rattle.std.specs.Prelude.{◌≡◌, Some, None, MatchResult, option_map};
ghost use Rattle.net_line.specs.declared.fault.LineFault.TheVariants.{Formless as formless};
ghost use Rattle.net_line.specs.Decoding.{dir_of, kind_of, combine_of};
ghost use Rattle.net_line.specs.Formed.{first_fits, IsSignalForm};
ghost use Rattle.net_line.specs.Literals.{first_of, handler_of, name_of};
ghost use Rattle.net_line.specs.Reading.{part_as, Reads};
ghost use Rattle.net_line.specs.SignalReading.{signal_row, named};
ghost use Rattle.net_line.specs.Taken.{IsTaken, IsRefused};
ghost use Rattle.net_text.specs.Lines.{signal_line};

use crate::decode::{combine_of, dir_of, kind_of};
use crate::fault::LineFault;
use crate::literal::{first_of, handler_of, name_of};
use crate::unread::Unread;
use hh_base::text::Text;
use hh_base::value::{CombineWord, Kind, Pos, Value};
use hh_term::program::SignalDecl;
use net_list::record::NetSignal;

/// Whether a first value stands where the signal is valued, and there alone.
fn first_fits(kind: Kind, first: &Value) -> bool
    ensures { result ≡ first_fits kind first.now }
{
    match (kind, first) {
        (Kind::Pure, Value::Unit) => true,
        (Kind::Pure, _) => false,
        (_, Value::Unit) => false,
        (_, _) => true,
    }
}

impl<'a> Unread<'a> {
    /// Takes a space and what stands for a name, or for none.
    pub fn name(&mut self) -> Result<Option<&'a [u8]>, LineFault>
        ensures { MatchResult result
            (λ o. part_as name_of self.old ≡ Some (option_map (λ w. w.now) o, self.new))
            (λ e. e ≡ formless → part_as name_of self.old ≡ None) }
    {
        let part = self.part()?;
        name_of(part)
    }

    /// Takes a space and a kind.
    pub fn kind(&mut self) -> Result<Kind, LineFault>
        ensures { Reads (part_as kind_of self.old) result self.new }
    {
        let part = self.part()?;
        match kind_of(part) {
            Some(kind) => Ok(kind),
            None => Err(LineFault::Formless),
        }
    }

    fn combine(&mut self) -> Result<Option<CombineWord>, LineFault>
        ensures { Reads (part_as combine_of self.old) result self.new }
    {
        let part = self.part()?;
        match combine_of(part) {
            Some(word) => Ok(word),
            None => Err(LineFault::Formless),
        }
    }

    fn first(&mut self) -> Result<Value, LineFault>
        ensures { Reads (part_as first_of self.old) result self.new }
    {
        let part = self.part()?;
        first_of(self.alloc, part)
    }

    /// Takes a space and the text of a handler, or what stands for none.
    pub fn handler(&mut self) -> Result<Option<Text>, LineFault>
        ensures { Reads (part_as handler_of self.old) result self.new }
    {
        let part = self.part()?;
        handler_of(self.alloc, part)
    }

    fn signal_row(&mut self) -> Result<(Option<&'a [u8]>, NetSignal), LineFault>
        ensures { MatchResult result
            (λ s. signal_row self.old ≡ Some (named s.1 (option_map (λ w. w.now) s.0), self.new))
            (λ e. e ≡ formless → signal_row self.old ≡ None) }
    {
        let Some(dir) = dir_of(self.word()) else {
            return Err(LineFault::Formless);
        };
        let name = self.name()?;
        let kind = self.kind()?;
        let first = self.first()?;
        let combine = self.combine()?;
        let pos = Pos(self.number()?);
        let status = self.number()?;
        let pre = self.number()?;
        let sel = self.number()?;
        self.line_end()?;
        if !first_fits(kind, &first) {
            return Err(LineFault::Formless);
        }
        let decl = SignalDecl {
            name: None,
            dir,
            kind,
            first,
            combine,
            pos,
        };
        Ok((
            name,
            NetSignal {
                decl,
                status,
                pre,
                sel,
            },
        ))
    }

    /// Takes the line of a signal, and what stands there for its name: it may be no name.
    pub fn signal(&mut self) -> Result<(Option<&'a [u8]>, NetSignal), LineFault>
        ensures reads { MatchResult result
            (λ s. signal_row self.old ≡ Some (named s.1 (option_map (λ w. w.now) s.0), self.new))
            (λ e. e ≡ formless → signal_row self.old ≡ None) }
        ensures takes { MatchResult result
            (λ s. IsTaken signal_line IsSignalForm self.old (named s.1 (option_map (λ w. w.now) s.0))
            self.new)
            (λ e. e ≡ formless → IsRefused signal_line IsSignalForm self.old) }
    {
        self.signal_row()
    }
}
