//! Where bytes go.
ghost use Rattle.std.specs.Prelude.{◌≡◌, ℕ, List, [], ◌<◌, ◌≤◌, length, take, vec_len, Ok, IfOk, IfErr, OnOk};
ghost use Rattle.hh_io.specs.SinkState.{SinkState, Puts, CutsOff};

use crate::fault::SinkFault;

/// What takes bytes, and may fail.
pub trait Sink {
    // The bytes that it was given, where it tells them, and how often a write has failed.
    ghost state: { Self → SinkState };

    /// Takes a front of a piece that is not empty, and answers how many bytes it took. A sink that takes
    /// none has failed.
    fn write(&mut self, piece: &[u8]) -> Result<usize, SinkFault>
        requires { 0 < length piece.now }
        ensures bound { IfOk result (λ n. n ≤ length piece.now) }
        ensures some { IfOk result (λ n. 0 < n) }
        ensures added { IfOk result (λ n. Puts (state self.old) (state self.new) (take n piece.now)) }
        ensures cut_off { IfErr result (CutsOff (state self.old) (state self.new) piece.now) };
}

/// Writes all of the bytes, in as many writes as the sink needs; none for no bytes.
pub fn put_all<K: Sink>(sink: &mut K, bytes: &[u8]) -> Result<(), SinkFault>
    ensures whole { OnOk result (Puts (K.state sink.old) (K.state sink.new) bytes.now) }
    ensures cut_off { IfErr result (CutsOff (K.state sink.old) (K.state sink.new) bytes.now) }

    // No bytes: the sink is left alone.
    ensures nothing { bytes.now ≡ [] → (result ≡ Ok tt) × (K.state sink.new ≡ K.state sink.old) }
{
    let mut put = 0;
    while put < bytes.len() {
        put += sink.write(&bytes[put..])?;
    }
    Ok(())
}

/// How many bytes of text go on waiting at most for more of it: fewer than this, 64 KiB.
pub const WAITING_LIMIT: usize = 65_536;

/// Writes the text that waits, and empties it, once it has `WAITING_LIMIT` bytes. A shorter one goes on
/// waiting, so that a program that adds line after line does not make a write for each.
pub fn put_waiting<K: Sink>(sink: &mut K, waiting: &mut Vec<u8>) -> Result<(), SinkFault>
    // Below the limit the sink is left alone.
    ensures short { vec_len waiting.old < WAITING_LIMIT →
        (result ≡ Ok tt) × (waiting.new ≡ waiting.old) × (K.state sink.new ≡ K.state sink.old) }

    // From the limit on all of the text is written.
    ensures long { WAITING_LIMIT ≤ vec_len waiting.old →
        OnOk result (Puts (K.state sink.old) (K.state sink.new) waiting.old.items) }
    ensures emptied { WAITING_LIMIT ≤ vec_len waiting.old → OnOk result (waiting.new.items ≡ []) }
    ensures cut_off { IfErr result (CutsOff (K.state sink.old) (K.state sink.new) waiting.old.items) }
{
    if waiting.len() >= WAITING_LIMIT {
        put_all(sink, waiting)?;
        waiting.clear();
    }
    Ok(())
}
