//! The program `hiphop`: its words, standard input and standard output, and the hooks that it is shipped
//! with, given to the library's call.
#![tactic(auto)]

ghost use Rattle.std.specs.Prelude.{◌≡◌, IfOk};
ghost use Rattle.hh_base.specs.declared.value.Kind.TheVariants as kind;
ghost use Rattle.host_hooks.specs.Law.{IsAllowedBy, kinds_of};
ghost use Rattle.host_hooks.specs.Shipped.{one_text, size_law, two_texts};
ghost use Rattle.shipped_hooks.specs.Shipping.{IsSameText};

use hh_base::command_line::CommandLine;
use hh_base::memory::NoMemory;
use hh_base::value::Value;
use hh_io::standard::{StdSink, StdSource};
use hiphop_main::command::hiphop;
use hiphop_main::ending::Cause;
use host_hooks::shipped::text_size;
use host_hooks::table::HookTable;
use shipped_hooks::store::{compare, store_same_text, store_text_size};
use std::process::ExitCode;
use std::rt::Env;
use std::{env, io};

/// The words behind the program's name. Words that are not UTF-8 are no command, so they are left out whole.
fn words_of(rt: &(impl Env + AllocGlobal)) -> Result<CommandLine, NoMemory> {
    let mut words = CommandLine::new(rt.alloc());
    let args = match env::args(rt) {
        Ok(args) => args,
        Err(error) if error.kind() == io::ErrorKind::OutOfMemory => return Err(NoMemory),
        Err(_) => return Ok(words),
    };
    for arg in args.skip(1) {
        words.push(rt.alloc(), arg.as_str())?;
    }
    Ok(words)
}

/// Does what the words ask for, with the hooks that the program is shipped with.
fn run(rt: HostRuntime) -> Result<Cause, NoMemory> {
    let alloc = rt.alloc();
    let words = words_of(&rt)?;
    let mut hooks = HookTable::new(alloc);
    let size = Box::new(
        alloc,
        |args: &[Value]| -> Result<Value, NoMemory>
            requires { kinds_of args.now ≡ one_text }
            ensures { IfOk result (λ v. ∥ IsAllowedBy size_law kind.Int args.now v ∥₁) }
        { Ok(text_size(args)) },
    )?;
    store_text_size(alloc, &mut hooks, size)?;
    let same = Box::new(
        alloc,
        |args: &[Value]| -> Result<Value, NoMemory>
            requires { kinds_of args.now ≡ two_texts }
            ensures { IfOk result (λ v. ∥ IsSameText args.now v ∥₁) }
        { Ok(compare(args)) },
    )?;
    store_same_text(alloc, &mut hooks, same)?;
    let mut source = StdSource::new(rt.reader());
    let mut sink = StdSink::new(io::writer(&rt));
    Ok(hiphop(alloc, &words, &hooks, &mut source, &mut sink))
}

fn main(rt: HostRuntime) -> ExitCode {
    let cause = match run(rt) {
        Ok(cause) => cause,
        Err(NoMemory) => Cause::NoMemory,
    };
    ExitCode::from(cause.status())
}
