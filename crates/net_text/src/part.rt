//! Parts of lines.
ghost use Rattle.std.specs.Prelude.{◌≡◌, ◌++◌, decimal, OnOk};
ghost use Rattle.std.specs.List.{flat_map};
ghost use Rattle.hh_base.specs.Literal.{printed};
ghost use Rattle.net_text.specs.Parts.{spaced, number, dir_word, kind_word, kind_part, combine_word};
ghost use Rattle.net_text.specs.Parts.{combine_or_nothing, name_or_nothing, first_or_nothing};
ghost use Rattle.net_text.specs.Parts.{text_or_nothing, number_or_nothing, counted};

use hh_base::literal::{print_literal, quote};
use hh_base::name::Name;
use hh_base::text::Text;
use hh_base::value::{CombineWord, Dir, Kind, NoMemory, Value};
use itoa::Buffer;

/// Adds a number.
pub(crate) fn write_first_number(first: u32, out: &mut Vec<u8>) -> Result<(), NoMemory>
    ensures { OnOk result (out.new.items ≡ out.old.items ++ decimal first) }
{
    let mut buffer = Buffer::new();
    out.extend_from_slice(buffer.format(first).as_bytes())?;
    Ok(())
}

/// Adds a space and a number.
pub(crate) fn write_number(next: u32, out: &mut Vec<u8>) -> Result<(), NoMemory>
    ensures { OnOk result (out.new.items ≡ out.old.items ++ number next) }
{
    out.push(b' ')?;
    write_first_number(next, out)
}

/// Adds a space and a count.
pub(crate) fn write_count(count: usize, out: &mut Vec<u8>) -> Result<(), NoMemory>
    ensures { OnOk result (out.new.items ≡ out.old.items ++ number count) }
{
    let mut buffer = Buffer::new();
    out.push(b' ')?;
    out.extend_from_slice(buffer.format(count).as_bytes())?;
    Ok(())
}

/// Adds a space and a number for each.
pub(crate) fn write_numbers(numbers: &[u32], out: &mut Vec<u8>) -> Result<(), NoMemory>
    ensures { OnOk result (out.new.items ≡ out.old.items ++ flat_map number numbers.now) }
{
    for next in numbers {
        write_number(*next, out)?;
    }
    Ok(())
}

/// Adds a space and a part.
pub(crate) fn write_part(part: &[u8], out: &mut Vec<u8>) -> Result<(), NoMemory>
    ensures { OnOk result (out.new.items ≡ out.old.items ++ spaced part.now) }
{
    out.push(b' ')?;
    out.extend_from_slice(part)?;
    Ok(())
}

/// Adds a space and a literal.
pub(crate) fn write_literal(value: &Value, out: &mut Vec<u8>) -> Result<(), NoMemory>
    ensures { OnOk result (out.new.items ≡ out.old.items ++ spaced (printed value.now)) }
{
    out.push(b' ')?;
    print_literal(*out.allocator(), value, out)
}

pub(crate) fn dir_word(dir: Dir) -> &'static [u8]
    ensures { result.now ≡ dir_word dir }
{
    match dir {
        Dir::Input => b"in",
        Dir::Output => b"out",
        Dir::Both => b"inout",
        Dir::Local => b"local",
    }
}

fn kind_word(kind: Kind) -> &'static [u8]
    ensures { result.now ≡ kind_word kind }
{
    match kind {
        Kind::Pure => b"pure",
        Kind::Int => b"int",
        Kind::Bool => b"bool",
        Kind::Text => b"text",
    }
}

/// Adds a space and a kind.
pub(crate) fn write_kind(kind: Kind, out: &mut Vec<u8>) -> Result<(), NoMemory>
    ensures { OnOk result (out.new.items ≡ out.old.items ++ kind_part kind) }
{
    write_part(kind_word(kind), out)
}

fn write_each_kind(kinds: &[Kind], out: &mut Vec<u8>) -> Result<(), NoMemory>
    ensures { OnOk result (out.new.items ≡ out.old.items ++ flat_map kind_part kinds.now) }
{
    for kind in kinds {
        write_kind(*kind, out)?;
    }
    Ok(())
}

/// Adds how many kinds there are, and the kinds.
pub(crate) fn write_kinds(kinds: &[Kind], out: &mut Vec<u8>) -> Result<(), NoMemory>
    ensures { OnOk result (out.new.items ≡ out.old.items ++ counted kind_part kinds.now) }
{
    write_count(kinds.len(), out)?;
    write_each_kind(kinds, out)
}

fn combine_word(word: CombineWord) -> &'static [u8]
    ensures { result.now ≡ combine_word word }
{
    match word {
        CombineWord::Plus => b"plus",
        CombineWord::Min => b"min",
        CombineWord::Max => b"max",
        CombineWord::And => b"and",
        CombineWord::Or => b"or",
    }
}

/// Adds a space and a combine word, if there is one.
pub(crate) fn write_combine(word: Option<CombineWord>, out: &mut Vec<u8>) -> Result<(), NoMemory>
    ensures { OnOk result (out.new.items ≡ out.old.items ++ spaced (combine_or_nothing word)) }
{
    match word {
        Some(word) => write_part(combine_word(word), out),
        None => write_part(b"-", out),
    }
}

/// Adds a space and a name, if there is one.
pub(crate) fn write_name(name: &Option<Name>, out: &mut Vec<u8>) -> Result<(), NoMemory>
    ensures { OnOk result (out.new.items ≡ out.old.items ++ spaced (name_or_nothing name.now)) }
{
    match name {
        Some(name) => write_part(name.as_bytes(), out),
        None => write_part(b"-", out),
    }
}

/// Adds a space and the first value of a signal, if it is valued.
pub(crate) fn write_first(value: &Value, out: &mut Vec<u8>) -> Result<(), NoMemory>
    ensures { OnOk result (out.new.items ≡ out.old.items ++ spaced (first_or_nothing value.now)) }
{
    match value {
        Value::Unit => write_part(b"-", out),
        _ => write_literal(value, out),
    }
}

/// Adds a space and the text of a handler, if there is one.
pub(crate) fn write_handler(text: &Option<Text>, out: &mut Vec<u8>) -> Result<(), NoMemory>
    ensures { OnOk result (out.new.items ≡ out.old.items ++ spaced (text_or_nothing text.now)) }
{
    match text {
        Some(text) => {
            let literal = quote(*out.allocator(), text.as_bytes())?;
            write_part(&literal, out)
        }
        None => write_part(b"-", out),
    }
}

/// Adds a space and the number of a signal, if there is one.
pub(crate) fn write_signal_or_none(signal: Option<u32>, out: &mut Vec<u8>) -> Result<(), NoMemory>
    ensures { OnOk result (out.new.items ≡ out.old.items ++ spaced (number_or_nothing signal)) }
{
    match signal {
        Some(signal) => write_number(signal, out),
        None => write_part(b"-", out),
    }
}
