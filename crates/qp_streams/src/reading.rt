//! Reading to the end.

ghost use Rattle.std.specs.Prelude.{◌≡◌, ◌+◌, ◌-◌, ◌<◌, ◌≤◌, ◌^◌, drop, length, vec_len, IfOk, OnOk, OnErr, IfSome, IsErrOf, IsTrue, ◌↔◌, Some};
ghost use Rattle.std.specs.Io.KnownBytes.{Consumes, IsAtEnd};
ghost use Rattle.qp_io.specs.Causes.{Rose};
ghost use Rattle.qp_streams.specs.Streams.{Moves};

use qp_io::{Failed, Source};
use std::alloc::{AllocError, Global};

/// Why no whole text was read.
#[derive(Clone, Copy, Debug, PartialEq, Eq)]
pub enum ReadStop {
    Memory,
    /// The source failed.
    Fault,
    /// There are more bytes than are read.
    Long,
}

/// The most bytes that are asked for in one call of a source.
const BLOCK: usize = 65536;

/// A block of so many bytes.
fn block_of(alloc: Global, size: usize) -> Result<Vec<u8>, ReadStop>
    requires { size < 2 ^ 63 }
    ensures size { IfOk result (λ block. vec_len block ≡ size) }
    ensures memory { OnErr result (IsErrOf result ReadStop.Memory) }
{
    match vec![in alloc; 0u8; size] {
        Ok(block) => Ok(block),
        Err(AllocError) => Err(ReadStop::Memory),
    }
}

/// Reads one piece of at most `room` bytes into the block, and puts it at the end of the text. `Ok(0)` is the end of the input.
fn read_piece<S: Source>(
    source: &mut S,
    block: &mut [u8],
    text: &mut Vec<u8>,
    room: usize,
) -> Result<usize, ReadStop>
    requires room { 0 < room }
    requires block { 0 < length block.old }
    ensures moved { OnOk result (Moves (S.left source.old) (S.left source.new) text.old.items text.new.items) }
    ensures count { IfOk result (λ n. (n ≤ room) × (vec_len text.new ≡ vec_len text.old + n)) }
    ensures end { IfOk result (λ n. n ≡ 0 → IsAtEnd (S.left source.new)) }
    ensures fault { IsErrOf result ReadStop.Fault → Rose (S.faults source.old) (S.faults source.new) }
    ensures short { IsErrOf result ReadStop.Long → ⊥ }
    ensures kept { OnOk result (S.faults source.new ≡ S.faults source.old) }
    ensures kept_memory { IsErrOf result ReadStop.Memory → S.faults source.new ≡ S.faults source.old }
    ensures later { S.faults source.old ≤ S.faults source.new }
{
    let size = room.min(block.len());
    let count = match source.read(&mut block[..size]) {
        Ok(count) => count,
        Err(Failed) => return Err(ReadStop::Fault),
    };
    match text.extend_from_slice(&block[..count]) {
        Ok(()) => Ok(count),
        Err(AllocError) => Err(ReadStop::Memory),
    }
}

/// The whole input, which has at most `limit` bytes. Of a longer input it takes one byte past the limit, and no more.
pub fn read_all<S: Source>(alloc: Global, source: &mut S, limit: usize) -> Result<Vec<u8>, ReadStop>
    requires { limit < 2 ^ 63 }
    ensures whole { IfOk result (λ text. IfSome (S.left source.old) (λ bytes. text.items ≡ bytes)) }
    ensures end { OnOk result (IsAtEnd (S.left source.new)) }
    ensures within { IfOk result (λ text. vec_len text ≤ limit) }
    ensures long { IsErrOf result ReadStop.Long → IfSome (S.left source.old) (λ bytes. limit < length bytes) }
    ensures taken { IsErrOf result ReadStop.Long → IfSome (S.left source.old) (λ bytes. S.left source.new ≡ Some (drop (limit + 1) bytes)) }
    ensures fault { IsErrOf result ReadStop.Fault → Rose (S.faults source.old) (S.faults source.new) }
    ensures kept { OnOk result (S.faults source.new ≡ S.faults source.old) }
    ensures kept_long { IsErrOf result ReadStop.Long → S.faults source.new ≡ S.faults source.old }
    ensures kept_memory { IsErrOf result ReadStop.Memory → S.faults source.new ≡ S.faults source.old }
    ensures later { S.faults source.old ≤ S.faults source.new }
{
    let mut block = block_of(alloc, BLOCK)?;
    let mut text = Vec::new(alloc);
    while text.len() <= limit {
        let room = limit - text.len() + 1;
        if read_piece(source, &mut block, &mut text, room)? == 0 {
            return Ok(text);
        }
    }
    Err(ReadStop::Long)
}
