//! A source and a sink in memory that never fail.
ghost use Rattle.std.specs.Prelude.{◌≡◌, ℕ, List, Some, None, [], ◌+◌, ◌-◌, ◌<◌, ◌≤◌, ◌++◌, length, take};
ghost use Rattle.std.specs.Prelude.{drop, vec_len, IfOk, OnOk, IsErrOf};

use crate::fault::{Failed, ReadEnd, SinkFault};
use crate::sink::{Sink, put_all};
use crate::source::{Source, read_all};
use std::alloc::Global;
use std::marker::Model;

/// Copies the bytes at a place to the front of the buffer, at most so many at once, and answers how many.
fn copy_front(bytes: &[u8], at: usize, most: usize, buf: &mut [u8]) -> usize
    requires place { at ≤ length bytes.now }
    requires some { 0 < most }
    ensures bound { result ≤ length buf.new }
    ensures within { at + result ≤ length bytes.now }
    ensures front { drop at bytes.now ≡ take result buf.new ++ drop (at + result) bytes.now }
    ensures end { result ≡ 0 → 0 < length buf.new → at ≡ length bytes.now }
{
    let count = (bytes.len() - at).min(buf.len()).min(most);
    buf[..count].copy_from_slice(&bytes[at..at + count]);
    count
}

/// Bytes in memory as a source that never fails. Contracts see the bytes still to come.
#[derive(Drop)]
pub struct SureSource {
    bytes: Vec<u8>,
    at: usize,
    most: usize,
}

impl Model for SureSource {
    ghost use Rattle.std.specs.Prelude.{ℕ, List, drop, vec_len, ◌<◌, ◌≤◌};

    ghost Value = { List ℕ };

    ghost view = { λ s. drop s.at s.bytes.items };

    ghost invariant = { λ s. (s.at ≤ vec_len s.bytes) × (0 < s.most) };
}

impl SureSource {
    /// A source that gives as many bytes as are asked for.
    pub fn new(bytes: Vec<u8>) -> SureSource
        ensures { result ≡ bytes.items }
    {
        SureSource::in_steps(bytes, usize::MAX)
    }

    /// A source that gives at most so many bytes at one read.
    pub fn in_steps(bytes: Vec<u8>, most: usize) -> SureSource
        requires { 0 < most }
        ensures { result ≡ bytes.items }
    {
        SureSource { bytes, at: 0, most }
    }
}

impl Source for SureSource {
    ghost state = { λ s. record { rest = Some s; ends = None; faults = 0 } };

    fn read(&mut self, buf: &mut [u8]) -> Result<usize, Failed> {
        let came = copy_front(&self.bytes, self.at, self.most, buf);
        self.at += came;
        Ok(came)
    }
}

/// A sink in memory that never fails, but that memory may run out. Contracts see what was written.
#[derive(Drop)]
pub struct SureSink {
    written: Vec<u8>,
    most: usize,
}

impl Model for SureSink {
    ghost use Rattle.std.specs.Prelude.{ℕ, List, ◌<◌};

    ghost Value = { List ℕ };

    ghost view = { λ s. s.written.items };

    ghost invariant = { λ s. 0 < s.most };
}

impl SureSink {
    /// A sink that takes each piece whole.
    pub fn new(alloc: Global) -> SureSink
        ensures { result ≡ [] }
    {
        SureSink::in_steps(alloc, usize::MAX)
    }

    /// A sink that takes at most so many bytes at one write.
    pub fn in_steps(alloc: Global, most: usize) -> SureSink
        requires { 0 < most }
        ensures { result ≡ [] }
    {
        SureSink {
            written: Vec::new(alloc),
            most,
        }
    }

    /// What was written.
    pub fn as_bytes(&self) -> &[u8]
        ensures { result.now ≡ self.now }
    {
        &self.written
    }

    /// What was written, without a copy.
    pub fn into_bytes(self) -> Vec<u8>
        ensures { result.items ≡ self }
    {
        self.written
    }
}

impl Sink for SureSink {
    ghost state = { λ s. record { written = Some s; faults = 0 } };

    fn write(&mut self, piece: &[u8]) -> Result<usize, SinkFault> {
        let count = piece.len().min(self.most);
        self.written.extend_from_slice(&piece[..count])?;
        Ok(count)
    }
}

/// Reads a source that never fails. Its count of faults stands, so the answer is never a fault.
pub fn read_surely(alloc: Global, source: &mut SureSource, limit: usize) -> Result<Vec<u8>, ReadEnd>
    ensures whole { IfOk result (λ bytes. bytes.items ≡ source.old) }
    ensures within { OnOk result (length source.old ≤ limit) }
    ensures too_long { IsErrOf result ReadEnd.TooLong → limit < length source.old }
    ensures no_fault { IsErrOf result ReadEnd.Fault → ⊥ }
{
    read_all(alloc, source, limit)
}

/// Writes to a sink that never fails. Its count of faults stands, so the answer is never a fault.
pub fn put_surely(sink: &mut SureSink, bytes: &[u8]) -> Result<(), SinkFault>
    ensures whole { OnOk result (sink.new ≡ sink.old ++ bytes.now) }
    ensures no_fault { IsErrOf result SinkFault.Failed → ⊥ }
{
    put_all(sink, bytes)
}
