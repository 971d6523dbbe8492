//! What the words of `gen` ask for, read by `clap`.

ghost use Rattle.std.specs.Prelude.{◌≡◌, ◌≢◌, ◌≤◌, ◌<◌, ◌^◌, ℕ, Some, [], map, length, slice_get, IfOk};
ghost use Rattle.std.specs.Prelude.{IsErrOf, IsSomeAnd};
ghost use Rattle.clap.specs.Words.{IsParsedFrom, app_of, fault_of, found_of, kind_of, rule_of};
ghost use Rattle.clap.specs.declared.error.kind.ErrorKind.TheVariants.{OutOfMemory};
ghost use Rattle.clap.specs.declared.parser.matches.ArgMatches.{ArgMatches as TheMatches};
ghost use Rattle.gen_words.specs.Options.{HasBoth, HasNumber, HasText, IsOption, IsParse};
ghost use Rattle.gen_words.specs.Words as spec;

use clap::builder::ValueParser;
use clap::error::ErrorKind;
use clap::{Arg, ArgAction, ArgMatches, Command, Error};
use hh_base::command_line::CommandLine;
use hh_base::memory::NoMemory;
use std::alloc::Global;

/// The seed and the size of a program.
#[derive(Clone, Copy, PartialEq, Eq, Debug)]
pub struct Order {
    pub seed: u32,
    pub size: u32,
}

/// Why words give no order.
#[derive(Clone, Copy, PartialEq, Eq, Debug)]
pub enum OrderFault {
    /// The command does not take the words, or they ask for help.
    Refused,
    NoMemory,
}

/// An option that has to be given, with a number from the least to the most.
fn numbered<'a>(alloc: Global, name: &'a str, least: u32, most: u32) -> Arg<'a>
    ensures rule { rule_of result ≡ spec.numbered name.now least most }
    ensures is_option { IsOption name.now least most result }
{
    Arg::new(alloc, name)
        .long(name)
        .required(true)
        .action(ArgAction::Set)
        .value_parser(ValueParser::signed(i64::from(least), i64::from(most)))
}

/// The command that reads the words.
fn command<'a>(alloc: Global) -> Result<Command<'a>, NoMemory>
    ensures app { IfOk result (λ c. app_of c ≡ spec.command) }
    ensures has_both { IfOk result (λ c. (m : TheMatches) → IsParsedFrom c m → HasBoth m) }
{
    let seed = numbered(alloc, "seed", 0, 4_294_967_295);
    let size = numbered(alloc, "size", 1, 1_000);
    let one = Command::new(alloc, "gen").arg(seed)?;
    Ok(one.arg(size)?)
}

fn order_fault(error: &Error) -> OrderFault
    ensures { result ≡ OrderFault.Refused → kind_of error.now ≢ OutOfMemory }
{
    match error.kind() {
        ErrorKind::OutOfMemory => OrderFault::NoMemory,
        _ => OrderFault::Refused,
    }
}

/// What the command makes of the words.
fn parse<'a>(alloc: Global, words: &'a [&'a str]) -> Result<ArgMatches<'a>, OrderFault>
    ensures taken { IfOk result (IsParse (map (λ word. word.now) words.entry.now)) }
    ensures refused { IsErrOf result OrderFault.Refused →
        fault_of spec.command (map (λ word. word.now) words.entry.now) ≢ [] }
{
    let Ok(command) = command(alloc) else {
        return Err(OrderFault::NoMemory);
    };
    match command.try_get_matches_from(words) {
        Ok(matches) => Ok(matches),
        Err(error) => Err(order_fault(&error)),
    }
}

/// The number of an option.
fn number(matches: &ArgMatches<'_>, name: &str) -> Option<u32>
    ensures { (least most : ℕ) → most < 2 ^ 32 → HasText (found_of matches.now) name.now least most
        → IsSomeAnd result (λ n. HasNumber (found_of matches.now) name.now n × (n ≤ most)) }
{
    matches.get_one::<u32>(name)
}

/// The word at a place.
fn word_at(words: &CommandLine, at: usize) -> &str
    requires { at < length words.now }
    ensures { slice_get words.now at ≡ Some result.now }
{
    match words.get(at) {
        Some(word) => word,
        None => "",
    }
}

/// The words in a list.
fn word_list<'a>(alloc: Global, words: &'a CommandLine) -> Result<Vec<&'a str>, NoMemory>
    ensures { IfOk result (λ v. map (λ word. word.now) v.items ≡ words.now) }
{
    let mut list = Vec::new(alloc);
    'words: for at in 0..words.len() {
        list.push(word_at(words, at))?;
    }
    Ok(list)
}

/// What the words ask for. The first word is passed over, as that of the command.
///
/// # Errors
/// `Refused` where `clap` refuses the words, also by a request for help.
pub fn read_order(alloc: Global, words: &CommandLine) -> Result<Order, OrderFault>
    ensures order { IfOk result (λ o. spec.IsOrder words.now o.seed o.size) }
    ensures few { IfOk result (λ o. o.size ≤ 1000) }
    ensures refused { IsErrOf result OrderFault.Refused → fault_of spec.command words.now ≢ [] }
{
    let Ok(list) = word_list(alloc, words) else {
        return Err(OrderFault::NoMemory);
    };
    let matches = parse(alloc, list.as_slice())?;
    let Some(seed) = number(&matches, "seed") else {
        return Err(OrderFault::Refused);
    };
    let Some(size) = number(&matches, "size") else {
        return Err(OrderFault::Refused);
    };
    Ok(Order { seed, size })
}
