//! What a part of a line means.
ghost use Rattle.std.specs.Prelude.{◌≡◌, ◌≤◌, ◌↔◌, IsTrue, decimal};
ghost use Rattle.net_list.specs.Form.{GREATEST};
ghost use Rattle.net_line.specs.Decoding.{number_of, dir_of, kind_of, combine_of};

use hh_base::value::{CombineWord, Dir, Kind};
use itoa::Buffer;
use std::str;

/// Whether the text is what is written for the number.
fn writes(number: u32, text: &str) -> bool
    ensures same { IsTrue result ↔ (text.now ≡ decimal number) }
    ensures small { number ≤ GREATEST }
{
    let mut buffer = Buffer::new();
    buffer.format(number).as_bytes() == text.as_bytes()
}

/// The number that a text is, where it is written so.
#[tactic(auto, using(crate::proofs::Numbers::number_is, crate::proofs::Numbers::not_parsed, crate::proofs::Numbers::otherwise_written))]
fn number_in(text: &str) -> Option<u32>
    ensures { result ≡ number_of text.now }
{
    let Ok(number) = text.parse::<u32>() else {
        return None;
    };
    if !writes(number, text) {
        return None;
    }
    Some(number)
}

/// The number that the part is: it has no leading zeros and fits 32 bits.
#[tactic(auto, using(crate::proofs::Numbers::not_text))]
pub fn number_of(part: &[u8]) -> Option<u32>
    ensures { result ≡ number_of part.now }
{
    match str::from_utf8(part) {
        Ok(text) => number_in(text),
        Err(_) => None,
    }
}

/// The direction that the part names.
pub fn dir_of(part: &[u8]) -> Option<Dir>
    ensures { result ≡ dir_of part.now }
{
    if part == b"in".as_slice() {
        return Some(Dir::Input);
    }
    if part == b"out".as_slice() {
        return Some(Dir::Output);
    }
    if part == b"inout".as_slice() {
        return Some(Dir::Both);
    }
    if part == b"local".as_slice() {
        return Some(Dir::Local);
    }
    None
}

/// The kind that the part names.
pub fn kind_of(part: &[u8]) -> Option<Kind>
    ensures { result ≡ kind_of part.now }
{
    if part == b"pure".as_slice() {
        return Some(Kind::Pure);
    }
    if part == b"int".as_slice() {
        return Some(Kind::Int);
    }
    if part == b"bool".as_slice() {
        return Some(Kind::Bool);
    }
    if part == b"text".as_slice() {
        return Some(Kind::Text);
    }
    None
}

/// The combine word that the part is, or that there is none.
pub fn combine_of(part: &[u8]) -> Option<Option<CombineWord>>
    ensures { result ≡ combine_of part.now }
{
    if part == b"-".as_slice() {
        return Some(None);
    }
    if part == b"plus".as_slice() {
        return Some(Some(CombineWord::Plus));
    }
    if part == b"min".as_slice() {
        return Some(Some(CombineWord::Min));
    }
    if part == b"max".as_slice() {
        return Some(Some(CombineWord::Max));
    }
    if part == b"and".as_slice() {
        return Some(Some(CombineWord::And));
    }
    if part == b"or".as_slice() {
        return Some(Some(CombineWord::Or));
    }
    None
}
