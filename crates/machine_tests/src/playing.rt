//! Scripts that are played on a machine, and the print of its replies.

ghost use Rattle.std.specs.Prelude.{◌↔◌, IsTrue};
ghost use Rattle.std.specs.List.{AllByRecursion};
ghost use Rattle.reaction_run.specs.Reacting.{EventFits};

use crate::programs::compiled;
use crate::scripts::events;
use hh_term::program::{Program, SignalDecl};
use reaction_run::event::Event;
use reaction_run::interface::inputs_fit;
use reaction_run::log::Entry;
use reaction_run::reactor::{Reactor, run};
use reaction_run::reply::Reply;
use scenario_print::print::print_entry;
use std::alloc::Global;
use std::test::Fail;
use term_reactor::machine::TermMachine;

fn fits(interface: &[SignalDecl], event: &Event) -> bool
    ensures { IsTrue result ↔ EventFits interface.now event.now }
{
    match event {
        Event::React(inputs, _) => inputs_fit(interface, inputs.as_slice()),
        Event::Pump(_) => true,
        Event::Reset => true,
    }
}

fn all_fit(interface: &[SignalDecl], events: &[Event]) -> bool
    ensures { IsTrue result ↔ AllByRecursion (EventFits interface.now) events.now }
{
    events.iter().all(|event| fits(interface, event))
}

/// The lines of the replies, with ` / ` between them.
fn printed(
    alloc: Global,
    program: &Program,
    events: Vec<Event>,
    replies: Vec<Reply>,
) -> Result<String, Fail> {
    let mut lines = Vec::new(alloc);
    let mut number = 1u64;
    for (event, reply) in events.into_iter().zip(replies) {
        if number >= 1 << 32 {
            return Err(Fail::new("too many reactions"));
        }
        let entry = Entry { event, reply };
        number = print_entry(
            &entry,
            number,
            program.signals(),
            program.bodies(),
            &mut lines,
        )?;
    }
    let mut text = String::new(alloc);
    for line in String::from_utf8(lines)?.as_str().split('\n') {
        if !line.is_empty() {
            let parting = if text.is_empty() { "" } else { " / " };
            write!(text, "{parting}{line}")?;
        }
    }
    Ok(text)
}

/// The lines of a machine of this program that takes the events of a script, where `last` is the last id
/// before.
pub fn played(alloc: Global, text: &str, last: u64, script: &str) -> Result<String, Fail> {
    let program = compiled(alloc, text)?;
    let mut machine = TermMachine::boot(alloc, compiled(alloc, text)?, last)?;
    let events = events(alloc, machine.interface(), script)?;
    if !all_fit(machine.interface(), &events) {
        return Err(Fail::new("inputs do not fit"));
    }
    let replies = run(alloc, &mut machine, &events)?;
    printed(alloc, &program, events, replies)
}

/// Plays each script, and compares the lines with those behind it.
pub fn play_each(alloc: Global, rows: &[(&str, &str, &str)]) -> Result<(), Fail> {
    for (text, script, want) in rows {
        let found = played(alloc, text, 0, script)?;
        if found.as_str() != *want {
            return Err(Fail::new(format!(in alloc; "{found} and not {want}")?));
        }
    }
    Ok(())
}
