//! The lines that refusals write.

ghost use Rattle.std.specs.Prelude.{◌≡◌, IfOk};
ghost use Rattle.std.specs.String.{string_bytes};
ghost use Rattle.hiphop_main.specs.Ends.{Ends};
ghost use Rattle.hiphop_main.specs.Status as spec;

use crate::ending::Cause;
use hh_base::memory::NoMemory;
use hh_io::fault::SinkFault;
use hh_io::sink::{Sink, put_all};
use module_compile::fault::ModuleFault;
use std::alloc::Global;

/// The line of a refused module text.
fn module_line(alloc: Global, fault: ModuleFault) -> Result<String, NoMemory>
    ensures { IfOk result (λ t. string_bytes t ≡ spec.refusal_line (Cause.Module fault)) }
{
    let at = fault.place();
    let word = fault.word();
    Ok(match fault.number() {
        Some(number) => format!(in alloc; "! module {at} {word} {number}\n")?,
        None => format!(in alloc; "! module {at} {word}\n")?,
    })
}

/// The line that a refusal writes, with its LF; nothing for the causes that refuse nothing.
fn refusal_line(alloc: Global, cause: Cause) -> Result<String, NoMemory>
    ensures { IfOk result (λ t. string_bytes t ≡ spec.refusal_line cause) }
{
    let text = match cause {
        Cause::Usage => String::from_str(
            alloc,
            "! usage: hiphop play, compile, play_net, serve [--workers N], gen --seed N --size N\n",
        )?,
        Cause::Module(fault) => module_line(alloc, fault)?,
        Cause::NoHook(pos) => {
            let at = pos.0;
            format!(in alloc; "! module {at} NoHook\n")?
        }
        Cause::Scenario(line) => format!(in alloc; "! scenario {line}\n")?,
        Cause::TooLong => String::from_str(alloc, "! input TooLong\n")?,
        Cause::Fine | Cause::ReadFault | Cause::NoMemory | Cause::WriteFault => String::new(alloc),
    };
    Ok(text)
}

/// Writes the line of a refusal, and answers how that ended: by the cause itself where the line is whole.
pub fn refuse<K: Sink>(alloc: Global, sink: &mut K, cause: Cause) -> Cause
    ensures { Ends cause (spec.refusal_line cause) (K.state sink.old) (K.state sink.new) result }
{
    let Ok(line) = refusal_line(alloc, cause) else {
        return Cause::NoMemory;
    };
    match put_all(sink, line.as_bytes()) {
        Ok(()) => cause,
        Err(SinkFault::Failed) => Cause::WriteFault,
        Err(SinkFault::NoMemory) => Cause::NoMemory,
    }
}
