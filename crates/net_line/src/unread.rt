//! What is left of a text.
ghost use Rattle.std.specs.Prelude.{◌≡◌, ◌≤◌, Some, None, [], false, length, IsTrue, ◌↔◌, MatchResult};
ghost use Rattle.net_line.specs.declared.fault.LineFault.TheVariants.{Formless as formless};
ghost use Rattle.net_line.specs.Reading.{ends, word_len, quoted_len, part_len, word, part, line_end, Reads};
ghost use Rattle.net_line.specs.GateReading.{spaces};

use crate::fault::LineFault;
use std::alloc::Global;
use std::marker::Model;

/// What is left of a text that is read from its front. Contracts see the bytes.
#[derive(Drop)]
pub struct Unread<'a> {
    pub(crate) alloc: Global,
    rest: &'a [u8],
}

impl<'a> Model for Unread<'a> {
    ghost use Rattle.std.specs.Prelude.{List, ℕ};

    ghost Value = { List ℕ };

    ghost view = { λ u. u.rest.now };
}

fn ends(byte: u8) -> bool
    ensures { result ≡ ends byte }
{
    byte == b' ' || byte == b'\n'
}

/// How many bytes stand before the first space or LF.
fn word_len(text: &[u8]) -> usize
    ensures len { result ≡ word_len text.now }
    ensures within { result ≤ length text.now }
{
    let mut len = 0;
    let mut rest = text;
    while let Some((byte, behind)) = rest.split_first() {
        if ends(*byte) {
            break;
        }
        len += 1;
        rest = behind;
    }
    len
}

/// How many bytes stand up to the quote that ends what is quoted.
fn quoted_len(text: &[u8]) -> usize
    ensures len { result ≡ quoted_len false text.now }
    ensures within { result ≤ length text.now }
{
    let mut escaped = false;
    let mut len = 0;
    let mut rest = text;
    while let Some((byte, behind)) = rest.split_first() {
        len += 1;
        if *byte == b'"' && !escaped {
            break;
        }
        escaped = *byte == b'\\' && !escaped;
        rest = behind;
    }
    len
}

/// How many bytes the part has that stands in front.
fn part_len(text: &[u8]) -> usize
    ensures len { result ≡ part_len text.now }
    ensures within { result ≤ length text.now }
{
    match text.split_first() {
        Some((b'"', behind)) => 1 + quoted_len(behind),
        _ => word_len(text),
    }
}

/// How many spaces stand up to the end of the line.
fn spaces(text: &[u8]) -> usize
    ensures { result ≡ spaces text.now }
{
    let mut count = 0;
    let mut rest = text;
    while let Some((byte, behind)) = rest.split_first() {
        if *byte == b'\n' {
            break;
        }
        count += (*byte == b' ') as usize;
        rest = behind;
    }
    count
}

impl<'a> Unread<'a> {
    /// The whole of a text.
    pub fn new(alloc: Global, text: &'a [u8]) -> Unread<'a>
        ensures { result ≡ text.now }
    {
        Unread { alloc, rest: text }
    }

    /// Whether nothing is left.
    pub fn is_empty(&self) -> bool
        ensures { IsTrue result ↔ (self.now ≡ []) }
    {
        self.rest.is_empty()
    }

    /// How many spaces stand up to the end of the line.
    pub(crate) fn spaces(&self) -> usize
        ensures { result ≡ spaces self.now }
    {
        spaces(self.rest)
    }

    /// Takes the first part of a line.
    pub fn word(&mut self) -> &'a [u8]
        ensures { word self.old ≡ Some (result.now, self.new) }
    {
        let (word, rest) = self.rest.split_at(word_len(self.rest));
        self.rest = rest;
        word
    }

    /// Takes a space and the part behind it.
    pub fn part(&mut self) -> Result<&'a [u8], LineFault>
        ensures { MatchResult result (λ w. part self.old ≡ Some (w.now, self.new))
            (λ e. e ≡ formless → part self.old ≡ None) }
    {
        let Some((b' ', behind)) = self.rest.split_first() else {
            return Err(LineFault::Formless);
        };
        let (part, rest) = behind.split_at(part_len(behind));
        self.rest = rest;
        Ok(part)
    }

    /// Takes the end of a line.
    pub fn line_end(&mut self) -> Result<(), LineFault>
        ensures { Reads (line_end self.old) result self.new }
    {
        match self.rest.split_first() {
            Some((b'\n', behind)) => {
                self.rest = behind;
                Ok(())
            }
            _ => Err(LineFault::Formless),
        }
    }
}
