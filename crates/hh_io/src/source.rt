//! Where bytes come from.
ghost use Rattle.std.specs.Prelude.{◌≡◌, ℕ, List, [], ◌+◌, ◌-◌, ◌<◌, ◌≤◌, length, take, true, false, Ok};
ghost use Rattle.std.specs.Prelude.{IfOk, OnOk, OnErr, IsErrOf, vec_len, ◌++◌};
ghost use Rattle.hh_io.specs.SourceState.{SourceState, Gives, GivesAll, GivesCount, GivesAtMost, FailsReading};

use crate::fault::{Failed, ReadEnd};
use std::alloc::{AllocError, Global};

/// What gives bytes until it ends, and may fail.
pub trait Source {
    // The bytes still to come and how often the end was told, where it tells them, and how often a read
    // has failed.
    ghost state: { Self → SourceState };

    /// Reads into the front of a buffer that is not empty, and answers how many bytes came. None tells
    /// that the input has ended.
    fn read(&mut self, buf: &mut [u8]) -> Result<usize, Failed>
        requires { 0 < length buf.old }
        ensures bound { IfOk result (λ n. n ≤ length buf.new) }
        ensures given { IfOk result (λ n. 0 < n → Gives (state self.old) (state self.new) (take n buf.new)) }
        ensures ended { result ≡ Ok 0 → GivesAll (state self.old) (state self.new) [] }

        // What a read that failed lost is at most what was asked for.
        ensures failed { OnErr result (FailsReading (state self.old) (state self.new) (length buf.new)) };
}

/// The most bytes that one read asks for.
const PIECE: usize = 65_536;

/// Reads once, and appends what came. Answers whether the source has ended.
fn read_piece<S: Source>(
    source: &mut S,
    piece: &mut [u8],
    bytes: &mut Vec<u8>,
    limit: usize,
) -> Result<bool, ReadEnd>
    requires room { vec_len bytes.old ≤ limit }
    requires asked { 0 < length piece.old }
    requires one_more { length piece.old ≤ limit - vec_len bytes.old + 1 }
    ensures within { OnOk result (vec_len bytes.new ≤ limit) }
    ensures goes_on { result ≡ Ok false → vec_len bytes.old < vec_len bytes.new }
    ensures given { result ≡ Ok false → (came : List ℕ) × (bytes.new.items ≡ bytes.old.items ++ came)
        × Gives (S.state source.old) (S.state source.new) came }
    ensures same { result ≡ Ok true → bytes.new.items ≡ bytes.old.items }
    ensures ended { result ≡ Ok true → GivesAll (S.state source.old) (S.state source.new) [] }
    ensures too_long { IsErrOf result ReadEnd.TooLong
        → GivesCount (S.state source.old) (S.state source.new) (limit - vec_len bytes.old + 1) }
    ensures no_memory { IsErrOf result ReadEnd.NoMemory
        → GivesAtMost (S.state source.old) (S.state source.new) (limit - vec_len bytes.old + 1) }
    ensures failed { IsErrOf result ReadEnd.Fault
        → FailsReading (S.state source.old) (S.state source.new) (limit - vec_len bytes.old + 1) }
{
    let came = source.read(piece)?;
    if came == 0 {
        return Ok(true);
    }
    if came > limit - bytes.len() {
        return Err(ReadEnd::TooLong);
    }
    bytes.extend_from_slice(&piece[..came])?;
    Ok(false)
}

/// What one read reads into.
fn new_buffer(alloc: Global) -> Result<Vec<u8>, AllocError>
    ensures { IfOk result (λ buffer. 0 < vec_len buffer) }
{
    vec![in alloc; 0u8; PIECE]
}

/// Reads a source to its end, and asks no more once that was told. Asks for at most one byte more than
/// `limit`, which is in bytes.
pub fn read_all<S: Source>(alloc: Global, source: &mut S, limit: usize) -> Result<Vec<u8>, ReadEnd>
    // What was read is all that the source had, and no more than the limit.
    ensures within { IfOk result (λ bytes. vec_len bytes ≤ limit) }
    ensures whole { IfOk result (λ bytes. GivesAll (S.state source.old) (S.state source.new) bytes.items) }

    // One byte more than the limit came.
    ensures too_long { IsErrOf result ReadEnd.TooLong →
        GivesCount (S.state source.old) (S.state source.new) (limit + 1) }
    ensures no_memory { IsErrOf result ReadEnd.NoMemory →
        GivesAtMost (S.state source.old) (S.state source.new) (limit + 1) }
    ensures failed { IsErrOf result ReadEnd.Fault →
        FailsReading (S.state source.old) (S.state source.new) (limit + 1) }
{
    let mut bytes = Vec::new(alloc);
    let mut buffer = new_buffer(alloc)?;
    loop {
        let asked = (limit - bytes.len()).min(buffer.len() - 1) + 1;
        if read_piece(source, &mut buffer[..asked], &mut bytes, limit)? {
            return Ok(bytes);
        }
    }
}
