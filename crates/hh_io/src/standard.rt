//! Readers and writers of std as sources and sinks.
ghost use Rattle.std.specs.Prelude.{◌≡◌, ℕ, List, None, ◌+◌, ◌<◌, ◌≤◌, length};

use crate::fault::{Failed, SinkFault};
use crate::sink::Sink;
use crate::source::Source;
use std::io::{Read, Write};

/// A reader of std as a source. Each error of the reader counts as one fault.
#[derive(Drop)]
pub struct StdSource<R: Read> {
    reader: R,
    faults: u64,
}

impl<R: Read> StdSource<R> {
    /// No read has failed yet.
    pub fn new(reader: R) -> StdSource<R>
        ensures { ⟦<StdSource<R> as Source>⟧.state result ≡
            record { rest = R.remaining reader; ends = None; faults = 0 } }
    {
        StdSource { reader, faults: 0 }
    }

    /// How often the reader has failed.
    pub fn faults(&self) -> u64
        ensures { result ≡ (⟦<StdSource<R> as Source>⟧.state self.now).faults }
    {
        self.faults
    }
}

impl<R: Read> Source for StdSource<R> {
    ghost state = { λ s. record { rest = R.remaining s.reader; ends = None; faults = s.faults } };

    fn read(&mut self, buf: &mut [u8]) -> Result<usize, Failed> {
        match self.reader.read(buf) {
            Ok(came) => Ok(came),
            Err(_) => {
                self.faults = self.faults.saturating_add(1);
                Err(Failed)
            }
        }
    }
}

/// A writer of std as a sink. Each error of the writer counts as one fault, and so does a write that
/// takes nothing.
#[derive(Drop)]
pub struct StdSink<W: Write> {
    writer: W,
    faults: u64,
}

impl<W: Write> StdSink<W> {
    /// No write has failed yet.
    pub fn new(writer: W) -> StdSink<W>
        ensures { ⟦<StdSink<W> as Sink>⟧.state result ≡ record { written = W.contents writer; faults = 0 } }
    {
        StdSink { writer, faults: 0 }
    }

    /// How often the writer has failed, or taken nothing.
    pub fn faults(&self) -> u64
        ensures { result ≡ (⟦<StdSink<W> as Sink>⟧.state self.now).faults }
    {
        self.faults
    }

    /// The writer, with all that was written to it.
    pub fn into_writer(self) -> W
        ensures { W.contents result ≡ (⟦<StdSink<W> as Sink>⟧.state self).written }
    {
        self.writer
    }
}

impl<W: Write> Sink for StdSink<W> {
    ghost state = { λ s. record { written = W.contents s.writer; faults = s.faults } };

    fn write(&mut self, piece: &[u8]) -> Result<usize, SinkFault> {
        match self.writer.write(piece) {
            Ok(taken) if taken > 0 => Ok(taken),
            _ => {
                self.faults = self.faults.saturating_add(1);
                Err(SinkFault::Failed)
            }
        }
    }
}
