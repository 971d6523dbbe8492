//! A source and a sink in memory that fail at given calls.
ghost use Rattle.std.specs.Prelude.{◌≡◌, ℕ, List, Ok, [], ◌+◌, ◌-◌, ◌<◌, ◌≤◌, ◌↔◌, length, take, IfOk, IfErr};
ghost use Rattle.std.specs.Prelude.{OnErr, IsErr, IsErrOf, Contains, ◌++◌, is_err};
ghost use Rattle.hh_io.specs.SourceState.{Gives, GivesAll, FailsReading};
ghost use Rattle.hh_io.specs.SinkState.{Puts, CutsOff};
ghost use Rattle.hh_io.specs.Memory.{after_call, first_call, is_failed, sink_state, source_state};

use crate::calls::FailingCalls;
use crate::fault::{Failed, SinkFault};
use crate::sink::Sink;
use crate::source::Source;
use crate::sure::{SureSink, SureSource};
use std::alloc::Global;
use std::marker::Model;

/// Bytes in memory as a source that fails at given calls. A call that fails takes nothing. Contracts see
/// the bytes still to come and the calls.
#[derive(Drop)]
pub struct MemSource {
    source: SureSource,
    ends: u64,
    calls: FailingCalls,
}

impl Model for MemSource {
    ghost use Rattle.hh_io.specs.Memory.{Reading};

    ghost Value = { Reading };

    ghost view = { λ s. record { rest = s.source; ends = s.ends; calls = s.calls } };
}

impl MemSource {
    /// `fails` lists the numbers of the calls that fail, counted from 0.
    pub fn new(bytes: Vec<u8>, fails: Vec<u64>) -> MemSource
        ensures { result ≡ record { rest = bytes.items; ends = 0; calls = first_call fails.items } }
    {
        MemSource {
            source: SureSource::new(bytes),
            ends: 0,
            calls: FailingCalls::new(fails),
        }
    }

    /// The same, but that one read gives at most so many bytes.
    pub fn in_steps(bytes: Vec<u8>, fails: Vec<u64>, most: usize) -> MemSource
        requires { 0 < most }
        ensures { result ≡ record { rest = bytes.items; ends = 0; calls = first_call fails.items } }
    {
        MemSource {
            source: SureSource::in_steps(bytes, most),
            ends: 0,
            calls: FailingCalls::new(fails),
        }
    }

    /// How often it has told its end.
    pub fn ends(&self) -> u64
        ensures { result ≡ self.now.ends }
    {
        self.ends
    }

    /// How often a read has failed.
    pub fn faults(&self) -> u64
        ensures { result ≡ self.now.calls.faults }
    {
        self.calls.faults()
    }
}

impl Source for MemSource {
    ghost state = { source_state };

    fn read(&mut self, buf: &mut [u8]) -> Result<usize, Failed>
        requires { 0 < length buf.old }
        ensures bound { IfOk result (λ n. n ≤ length buf.new) }
        ensures given { IfOk result (λ n. 0 < n →
            Gives (source_state self.old) (source_state self.new) (take n buf.new)) }
        ensures ended { result ≡ Ok 0 → GivesAll (source_state self.old) (source_state self.new) [] }
        ensures failed { OnErr result
            (FailsReading (source_state self.old) (source_state self.new) (length buf.new)) }

        // A call that fails takes nothing.
        ensures listed { IsErr result ↔ Contains self.old.calls.fails self.old.calls.next }
        ensures kept { OnErr result (self.new.rest ≡ self.old.rest) }
        ensures counted { self.new.calls ≡ after_call (is_err result) self.old.calls }
    {
        if self.calls.fails_now() {
            return Err(Failed);
        }
        let came = self.source.read(buf)?;
        if came == 0 {
            self.ends = self.ends.saturating_add(1);
        }
        Ok(came)
    }
}

/// A sink in memory that fails at given calls. A call that fails writes nothing. Contracts see what was
/// written and the calls.
#[derive(Drop)]
pub struct MemSink {
    sink: SureSink,
    calls: FailingCalls,
}

impl Model for MemSink {
    ghost use Rattle.hh_io.specs.Memory.{Writing};

    ghost Value = { Writing };

    ghost view = { λ s. record { written = s.sink; calls = s.calls } };
}

impl MemSink {
    /// `fails` lists the numbers of the calls that fail, counted from 0.
    pub fn new(alloc: Global, fails: Vec<u64>) -> MemSink
        ensures { result ≡ record { written = []; calls = first_call fails.items } }
    {
        MemSink {
            sink: SureSink::new(alloc),
            calls: FailingCalls::new(fails),
        }
    }

    /// The same, but that one write takes at most so many bytes.
    pub fn in_steps(alloc: Global, fails: Vec<u64>, most: usize) -> MemSink
        requires { 0 < most }
        ensures { result ≡ record { written = []; calls = first_call fails.items } }
    {
        MemSink {
            sink: SureSink::in_steps(alloc, most),
            calls: FailingCalls::new(fails),
        }
    }

    /// What was written.
    pub fn as_bytes(&self) -> &[u8]
        ensures { result.now ≡ self.now.written }
    {
        self.sink.as_bytes()
    }

    /// What was written, without a copy.
    pub fn into_bytes(self) -> Vec<u8>
        ensures { result.items ≡ self.written }
    {
        self.sink.into_bytes()
    }

    /// How often a write has failed.
    pub fn faults(&self) -> u64
        ensures { result ≡ self.now.calls.faults }
    {
        self.calls.faults()
    }
}

impl Sink for MemSink {
    ghost state = { sink_state };

    fn write(&mut self, piece: &[u8]) -> Result<usize, SinkFault>
        requires { 0 < length piece.now }
        ensures bound { IfOk result (λ n. n ≤ length piece.now) }
        ensures some { IfOk result (λ n. 0 < n) }
        ensures added { IfOk result (λ n. Puts (sink_state self.old) (sink_state self.new) (take n piece.now)) }
        ensures cut_off { IfErr result (CutsOff (sink_state self.old) (sink_state self.new) piece.now) }

        // A call that fails takes nothing.
        ensures listed { IsErrOf result SinkFault.Failed ↔ Contains self.old.calls.fails self.old.calls.next }
        ensures kept { IsErrOf result SinkFault.Failed → self.new.written ≡ self.old.written }
        ensures counted { self.new.calls ≡ after_call (is_failed result) self.old.calls }
    {
        if self.calls.fails_now() {
            return Err(SinkFault::Failed);
        }
        self.sink.write(piece)
    }
}
