//! The print of replies and effects.
ghost use Rattle.std.specs.Prelude.{◌≡◌, ◌+◌, ◌<◌, ◌^◌, ◌++◌, IfOk, OnOk, OnErr, codes, decimal};
ghost use Rattle.std.specs.List.{flat_map};
ghost use Rattle.reaction_run.specs.declared.reply.Reply.{Reply as AReply};
ghost use Rattle.hh_base.specs.Literal.{printed as literal};
ghost use Rattle.scenario_print.specs.Print.{action_text, argument_behind, arguments_text, body_name, carried};
ghost use Rattle.scenario_print.specs.Print.{effect_line, effect_lines, effect_text, fault_word};
ghost use Rattle.scenario_print.specs.Print.{line_end, name_at, number_after, output_text, reason_word};
ghost use Rattle.scenario_print.specs.Print.{reply_lines, spaced};

use exec_instance::effect::{Effect, Reason};
use hh_base::literal::{print_literal, quote};
use hh_base::name::Name;
use hh_base::text::Text;
use hh_base::value::{FaultKind, NoMemory, Pos, Value};
use hh_term::program::{BodyDecl, SignalDecl};
use reaction_run::log::Entry;
use reaction_run::reply::{Done, Reply};

/// Adds a number.
fn print_number(number: u64, out: &mut Vec<u8>) -> Result<(), NoMemory>
    ensures { OnOk result (out.new.items ≡ out.old.items ++ decimal number) }
{
    let text = format!(in *out.allocator(); "{number}")?;
    out.extend_from_slice(text.as_bytes())?;
    Ok(())
}

/// Adds a space and a part.
fn print_part(part: &[u8], out: &mut Vec<u8>) -> Result<(), NoMemory>
    ensures { OnOk result (out.new.items ≡ out.old.items ++ spaced part.now) }
{
    out.push(b' ')?;
    out.extend_from_slice(part)?;
    Ok(())
}

/// The bytes of the name that the signal has, or none.
fn signal_name(signals: &[SignalDecl], signal: u32) -> &[u8]
    ensures { result.now ≡ name_at signals.now signal }
{
    match signals.get(signal as usize) {
        Some(
            SignalDecl {
                name: Some(name),
                ..
            },
        ) => name.as_bytes(),
        _ => &[],
    }
}

/// The bytes of the name that the body has, or none.
fn body_name(bodies: &[BodyDecl], body: u32) -> &[u8]
    ensures { result.now ≡ body_name bodies.now body }
{
    match bodies.get(body as usize) {
        Some(body) => body.name.as_bytes(),
        None => &[],
    }
}

/// Adds the value of a present signal, which a pure one has not.
fn print_carried(value: &Value, out: &mut Vec<u8>) -> Result<(), NoMemory>
    ensures { OnOk result (out.new.items ≡ out.old.items ++ carried value.now) }
{
    if let Value::Unit = value {
        return Ok(());
    }
    out.push(b'=')?;
    print_literal(*out.allocator(), value, out)
}

/// Adds a present output.
fn print_output(
    output: &(u32, Value),
    signals: &[SignalDecl],
    out: &mut Vec<u8>,
) -> Result<(), NoMemory>
    ensures { OnOk result (out.new.items ≡ out.old.items ++ output_text signals.now output.now) }
{
    print_part(signal_name(signals, output.0), out)?;
    print_carried(&output.1, out)
}

fn print_outputs(
    outputs: &[(u32, Value)],
    signals: &[SignalDecl],
    out: &mut Vec<u8>,
) -> Result<(), NoMemory>
    ensures { OnOk result (out.new.items ≡ out.old.items ++ flat_map (output_text signals.now) outputs.now) }
{
    for output in outputs {
        print_output(output, signals, out)?;
    }
    Ok(())
}

/// Adds a space and a name.
fn print_name(name: &Name, out: &mut Vec<u8>) -> Result<(), NoMemory>
    ensures { OnOk result (out.new.items ≡ out.old.items ++ spaced name.now) }
{
    print_part(name.as_bytes(), out)
}

fn print_names(names: &[Name], out: &mut Vec<u8>) -> Result<(), NoMemory>
    ensures { OnOk result (out.new.items ≡ out.old.items ++ flat_map spaced names.now) }
{
    for name in names {
        print_name(name, out)?;
    }
    Ok(())
}

/// Adds a word and an id.
fn print_id(word: &[u8], id: u64, out: &mut Vec<u8>) -> Result<(), NoMemory>
    ensures { OnOk result (out.new.items ≡ out.old.items ++ (word.now ++ decimal id)) }
{
    out.extend_from_slice(word)?;
    print_number(id, out)
}

/// Adds a space and the literal of a value.
fn print_value(value: &Value, out: &mut Vec<u8>) -> Result<(), NoMemory>
    ensures { OnOk result (out.new.items ≡ out.old.items ++ spaced (literal value.now)) }
{
    out.push(b' ')?;
    print_literal(*out.allocator(), value, out)
}

/// Adds the action that an async names, if it names one.
fn print_action(action: &Option<Text>, out: &mut Vec<u8>) -> Result<(), NoMemory>
    ensures { OnOk result (out.new.items ≡ out.old.items ++ action_text action.now) }
{
    match action {
        Some(text) => {
            let literal = quote(*out.allocator(), text.as_bytes())?;
            print_part(&literal, out)
        }
        None => Ok(()),
    }
}

/// Adds an argument behind the first one.
fn print_other(value: &Value, out: &mut Vec<u8>) -> Result<(), NoMemory>
    ensures { OnOk result (out.new.items ≡ out.old.items ++ argument_behind value.now) }
{
    out.extend_from_slice(b", ")?;
    print_literal(*out.allocator(), value, out)
}

/// Adds the arguments behind the first one.
fn print_others(values: &[Value], out: &mut Vec<u8>) -> Result<(), NoMemory>
    ensures { OnOk result (out.new.items ≡ out.old.items ++ flat_map argument_behind values.now) }
{
    for value in values {
        print_other(value, out)?;
    }
    Ok(())
}

fn print_arguments(values: &[Value], out: &mut Vec<u8>) -> Result<(), NoMemory>
    ensures { OnOk result (out.new.items ≡ out.old.items ++ arguments_text values.now) }
{
    let Some((first, others)) = values.split_first() else {
        return Ok(());
    };
    print_literal(*out.allocator(), first, out)?;
    print_others(others, out)
}

fn reason_word(reason: Reason) -> &'static [u8]
    ensures { result.now ≡ reason_word reason }
{
    match reason {
        Reason::Stale => b"stale",
        Reason::Unknown => b"unknown",
        Reason::Repeated => b"repeated",
        Reason::Mistyped => b"mistyped",
    }
}

fn fault_word(fault: FaultKind) -> &'static [u8]
    ensures { result.now ≡ fault_word fault }
{
    match fault {
        FaultKind::Divide => b"divide",
        FaultKind::Overflow => b"overflow",
        FaultKind::TextLong => b"textlong",
    }
}

/// Adds the text of an effect.
fn print_effect(effect: &Effect, bodies: &[BodyDecl], out: &mut Vec<u8>) -> Result<(), NoMemory>
    ensures { OnOk result (out.new.items ≡ out.old.items ++ effect_text bodies.now effect.now) }
{
    match effect {
        Effect::Dropped(id, reason) => {
            print_id(b"!drop ", *id, out)?;
            print_part(reason_word(*reason), out)
        }
        Effect::More(id, value) => {
            print_id(b"!more ", *id, out)?;
            print_value(value, out)
        }
        Effect::Ended(id, value) => {
            print_id(b"!end ", *id, out)?;
            print_value(value, out)
        }
        Effect::Killed(id, action) => {
            print_id(b"!kill ", *id, out)?;
            print_action(action, out)
        }
        Effect::Suspended(id, action) => {
            print_id(b"!suspend ", *id, out)?;
            print_action(action, out)
        }
        Effect::Resumed(id, action) => {
            print_id(b"!resume ", *id, out)?;
            print_action(action, out)
        }
        Effect::Started(id, body, args) => {
            print_id(b"!start ", *id, out)?;
            print_part(body_name(bodies, *body), out)?;
            out.push(b'(')?;
            print_arguments(args.as_slice(), out)?;
            out.push(b')')?;
            Ok(())
        }
    }
}

/// Adds the line of an effect.
fn print_effect_line(
    effect: &Effect,
    bodies: &[BodyDecl],
    out: &mut Vec<u8>,
) -> Result<(), NoMemory>
    ensures { OnOk result (out.new.items ≡ out.old.items ++ effect_line bodies.now effect.now) }
{
    print_effect(effect, bodies, out)?;
    out.push(b'\n')?;
    Ok(())
}

/// Adds a line for each effect.
fn print_effects(effects: &[Effect], bodies: &[BodyDecl], out: &mut Vec<u8>) -> Result<(), NoMemory>
    ensures { OnOk result (out.new.items ≡ out.old.items ++ effect_lines bodies.now effects.now) }
{
    for effect in effects {
        print_effect_line(effect, bodies, out)?;
    }
    Ok(())
}

fn print_done(
    done: &Done,
    number: u64,
    signals: &[SignalDecl],
    bodies: &[BodyDecl],
    out: &mut Vec<u8>,
) -> Result<(), NoMemory>
    ensures { OnOk result (out.new.items ≡ out.old.items ++ reply_lines signals.now bodies.now number
        (AReply.Done done.now)) }
{
    print_number(number, out)?;
    out.push(b':')?;
    print_outputs(done.outs.as_slice(), signals, out)?;
    if done.ended {
        out.extend_from_slice(b" done")?;
    }
    out.push(b'\n')?;
    print_effects(done.effects.as_slice(), bodies, out)
}

fn print_fault(pos: Pos, fault: FaultKind, out: &mut Vec<u8>) -> Result<(), NoMemory>
    ensures { OnOk result (out.new.items ≡ out.old.items ++ (codes "-: fault " ++ decimal pos.0 ++ spaced
        (fault_word fault) ++ line_end)) }
{
    print_id(b"-: fault ", u64::from(pos.0), out)?;
    print_part(fault_word(fault), out)?;
    out.push(b'\n')?;
    Ok(())
}

fn print_causality(names: &[Name], out: &mut Vec<u8>) -> Result<(), NoMemory>
    ensures { OnOk result (out.new.items ≡ out.old.items
        ++ (codes "-: causality" ++ flat_map spaced names.now ++ line_end)) }
{
    out.extend_from_slice(b"-: causality")?;
    print_names(names, out)?;
    out.push(b'\n')?;
    Ok(())
}

fn print_multiple(name: &Name, out: &mut Vec<u8>) -> Result<(), NoMemory>
    ensures { OnOk result (out.new.items ≡ out.old.items
        ++ (codes "-: multiple" ++ spaced name.now ++ line_end)) }
{
    out.extend_from_slice(b"-: multiple")?;
    print_name(name, out)?;
    out.push(b'\n')?;
    Ok(())
}

/// Adds the lines of a reply.
fn print_reply(
    reply: &Reply,
    number: u64,
    signals: &[SignalDecl],
    bodies: &[BodyDecl],
    out: &mut Vec<u8>,
) -> Result<(), NoMemory>
    ensures { OnOk result (out.new.items ≡ out.old.items ++ reply_lines signals.now bodies.now number
        reply.now) }
{
    match reply {
        Reply::Done(done) => print_done(done, number, signals, bodies, out),
        Reply::Causality(names) => print_causality(names.as_slice(), out),
        Reply::Multiple(name) => print_multiple(name, out),
        Reply::Fault(pos, fault) => print_fault(*pos, *fault, out),
        Reply::Worn(id) => {
            print_id(b"-: worn ", *id, out)?;
            out.push(b'\n')?;
            Ok(())
        }
        Reply::Idle => Ok(()),
        Reply::Reset(kills) => {
            out.extend_from_slice(b"reset\n")?;
            print_effects(kills.as_slice(), bodies, out)
        }
    }
}

/// Adds the lines of an entry, where `number` is that of the next accepted reaction, and answers the number
/// of the one after it. Where memory ran out, nothing was added.
pub fn print_entry(
    entry: &Entry,
    number: u64,
    signals: &[SignalDecl],
    bodies: &[BodyDecl],
    out: &mut Vec<u8>,
) -> Result<u64, NoMemory>
    requires { number < 2 ^ 63 }
    ensures lines { OnOk result (out.new.items ≡ out.old.items ++ reply_lines signals.now bodies.now number
        entry.now.reply) }
    ensures next { IfOk result (λ next. next ≡ number_after number entry.now.reply) }
    ensures err { OnErr result (out.new.items ≡ out.old.items) }
{
    let mut lines = Vec::new(*out.allocator());
    print_reply(&entry.reply, number, signals, bodies, &mut lines)?;
    out.extend_from_slice(&lines)?;
    Ok(match entry.reply {
        Reply::Done(_) => number + 1,
        _ => number,
    })
}
