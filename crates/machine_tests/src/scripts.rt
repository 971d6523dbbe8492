//! Events, read from one line: `react A V=5 / more 1 5 / notify 1 6 / pump / reset`. A reaction or a pump takes
//! the answers before it.

use crate::programs::name_of;
use exec_instance::answer::{Answer, Answers};
use hh_base::literal::read_literal;
use hh_base::value::Value;
use hh_term::program::SignalDecl;
use reaction_run::event::{Event, Input, Inputs};
use std::alloc::Global;
use std::mem;
use std::test::Fail;

fn signal_named(interface: &[SignalDecl], name: &str) -> Result<u32, Fail> {
    for (place, signal) in interface.iter().enumerate() {
        if name_of(signal) == name {
            return Ok(u32::try_from(place)?);
        }
    }
    Err(Fail::new("no signal of the interface"))
}

fn input(alloc: Global, interface: &[SignalDecl], word: &str) -> Result<Input, Fail> {
    let (name, value) = match word.split_once('=') {
        Some((name, literal)) => (name, read_literal(alloc, literal)?),
        None => (word, Value::Unit),
    };
    Ok(Input {
        signal: signal_named(interface, name)?,
        value,
    })
}

fn inputs(alloc: Global, interface: &[SignalDecl], words: &str) -> Result<Inputs, Fail> {
    let mut inputs = Vec::new(alloc);
    for word in words.split(' ') {
        if !word.is_empty() {
            inputs.push(input(alloc, interface, word)?)?;
        }
    }
    Ok(Inputs::from_vec(inputs))
}

fn answer(alloc: Global, words: &str, last: bool) -> Result<Answer, Fail> {
    let (id, literal) = words.split_once(' ').unwrap_or((words, ""));
    Ok(Answer {
        id: id.parse()?,
        value: read_literal(alloc, literal)?,
        last,
    })
}

fn event(
    alloc: Global,
    interface: &[SignalDecl],
    line: &str,
    took: &mut Answers,
) -> Result<Option<Event>, Fail> {
    let (word, behind) = line.split_once(' ').unwrap_or((line, ""));
    match word {
        "more" => took.push(answer(alloc, behind, false)?)?,
        "notify" => took.push(answer(alloc, behind, true)?)?,
        "reset" => return Ok(Some(Event::Reset)),
        "pump" => return Ok(Some(Event::Pump(mem::replace(took, Answers::new(alloc))))),
        "react" => {
            let inputs = inputs(alloc, interface, behind)?;
            return Ok(Some(Event::React(inputs, mem::replace(took, Answers::new(alloc)))));
        }
        _ => return Err(Fail::new("no event")),
    }
    Ok(None)
}

pub fn events(alloc: Global, interface: &[SignalDecl], script: &str) -> Result<Vec<Event>, Fail> {
    let mut took = Answers::new(alloc);
    let mut events = Vec::new(alloc);
    for line in script.split(" / ") {
        if let Some(event) = event(alloc, interface, line, &mut took)? {
            events.push(event)?;
        }
    }
    Ok(events)
}
