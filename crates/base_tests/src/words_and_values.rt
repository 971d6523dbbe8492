//! Each call that takes memory, once on its happy path.

use hh_base::command_line::CommandLine;
use hh_base::item::{Item, Queue};
use hh_base::keyword::{KEYWORDS, Keyword, keyword_of};
use hh_base::literal::{LiteralFault, print_literal, read_literal};
use hh_base::memory::NoMemory;
use hh_base::name::{NAME_LIMIT, Name, NameFault, same_name};
use hh_base::text::{TEXT_LIMIT, Text, TextFault, same_text};
use hh_base::value::{Kind, Value, copy_values, default_of, same_value};
use std::alloc::{AllocError, Global};
use std::test::Fail;

/// The keywords, as docs/LANGUAGE.md lists them.
const WORDS: &str =
    "module in out inout body host signal nothing pause halt emit sustain if else loop fork par \
await every do abort weakabort suspend immediate count trap break run async call kill resume combine pure int \
bool text true false";

/// A text of so many letters.
fn letters(alloc: Global, count: usize) -> Result<String, AllocError> {
    let mut text = String::new(alloc);
    for _ in 0..count {
        text.push('a')?;
    }
    Ok(text)
}

fn text_is_copied(alloc: Global, text: &Text, want: &str) -> Result<bool, NoMemory> {
    let copy = text.copy(alloc)?;
    Ok(same_text(text, &copy) && copy.as_str() == want)
}

/// Whether the text, joined with nothing, is this.
fn text_is_joined(alloc: Global, text: &Text, want: &str) -> Result<bool, NoMemory> {
    let empty = Text::empty(alloc);
    if text.len() + empty.len() > TEXT_LIMIT {
        return Ok(false);
    }
    Ok(text.join(alloc, &empty)?.as_str() == want)
}

#[test]
fn texts(rt: HostRuntime) -> Result<(), Fail> {
    let text = Text::read(rt.alloc(), b"tea\t\n")?;
    assert!(rt; text_is_copied(rt.alloc(), &text, "tea\t\n")?);
    assert!(rt; text_is_joined(rt.alloc(), &text, "tea\t\n")?);
    Ok(())
}

#[test]
fn text_faults(rt: HostRuntime) -> Result<(), Fail> {
    let long = letters(rt.alloc(), TEXT_LIMIT + 1)?;
    for (bytes, want) in [
        (b"\xff\x01".as_slice(), TextFault::NotUtf8),
        (b"\x01".as_slice(), TextFault::BadByte),
        (long.as_bytes(), TextFault::TextLong),
    ] {
        assert_eq!(rt; Text::read(rt.alloc(), bytes).err(), Some(want));
    }
    Ok(())
}

fn name_is_copied(alloc: Global, name: &Name, want: &str) -> Result<bool, NoMemory> {
    let copy = name.copy(alloc)?;
    Ok(same_name(name, &copy) && copy.as_str() == want)
}

#[test]
fn names(rt: HostRuntime) -> Result<(), Fail> {
    let name = Name::read(rt.alloc(), "_größe2")?;
    assert!(rt; name_is_copied(rt.alloc(), &name, "_größe2")?);
    Ok(())
}

#[test]
fn name_faults(rt: HostRuntime) -> Result<(), Fail> {
    let long = letters(rt.alloc(), NAME_LIMIT + 1)?;
    for (text, want) in [
        ("2go", NameFault::NotName),
        ("", NameFault::NotName),
        (long.as_str(), NameFault::NameLong),
    ] {
        assert_eq!(rt; Name::read(rt.alloc(), text).err(), Some(want));
    }
    Ok(())
}

#[test]
fn keywords(rt: HostRuntime) {
    let mut words = WORDS.split(' ');
    for keyword in KEYWORDS {
        assert_eq!(rt; words.next(), Some(keyword.text()));
    }
    assert_eq!(rt; words.next(), None);
    assert_eq!(rt; keyword_of("weakabort"), Some(Keyword::WeakAbort));
    assert_eq!(rt; keyword_of("unit"), None);
}

fn words_are_kept(alloc: Global, line: &mut CommandLine) -> Result<bool, NoMemory> {
    line.push(alloc, "play")?;
    line.push(alloc, "")?;
    Ok(line.get(0) == Some("play") && line.get(2).is_none())
}

fn values_are_copied(alloc: Global) -> Result<bool, NoMemory> {
    let values = [Value::Int(-3), default_of(alloc, Kind::Text)];
    Ok(copy_values(alloc, &values)?.len() == 2)
}

fn is_five(item: Option<Item>) -> bool {
    match item {
        Some(item) => item.last && matches!(item.value, Value::Int(5)),
        None => false,
    }
}

fn items_are_copied(alloc: Global) -> Result<bool, NoMemory> {
    let mut queue = Queue::new(alloc);
    let value = Value::Int(5);
    let pushed = queue.try_push(Item { value, last: true }).is_ok();
    let mut copy = queue.copy(alloc)?;
    Ok(pushed && is_five(copy.pop()) && copy.is_empty())
}

#[test]
fn lists(rt: HostRuntime) -> Result<(), Fail> {
    let mut line = CommandLine::new(rt.alloc());
    assert!(rt; words_are_kept(rt.alloc(), &mut line)?);
    assert!(rt; values_are_copied(rt.alloc())? && items_are_copied(rt.alloc())?);
    Ok(())
}

fn literal_is_copied(alloc: Global, literal: &str) -> Result<bool, LiteralFault> {
    let value = read_literal(alloc, literal)?;
    let copy = value.copy(alloc)?;
    Ok(same_value(&value, &copy))
}

/// Prints the literal behind what was printed before.
fn print(alloc: Global, literal: &str, out: &mut Vec<u8>) -> Result<(), LiteralFault> {
    let value = read_literal(alloc, literal)?;
    Ok(print_literal(alloc, &value, out)?)
}

#[test]
fn literals(rt: HostRuntime) -> Result<(), Fail> {
    let mut out = Vec::new(rt.alloc());
    for (literal, want) in [("-007", "-7"), ("\"a\\\"\\n\"", "-7\"a\\\"\\n\"")] {
        print(rt.alloc(), literal, &mut out)?;
        assert_eq!(rt; out.as_slice(), want.as_bytes());
        assert!(rt; literal_is_copied(rt.alloc(), literal)?);
    }
    Ok(())
}

#[test]
fn literal_faults(rt: HostRuntime) {
    for literal in ["+1", "9223372036854775808"] {
        let fault = read_literal(rt.alloc(), literal).err();
        assert_eq!(rt; fault, Some(LiteralFault::NotLiteral));
    }
}
