//! Sources, a sink and a shelf in memory, which fail where they are told to.

ghost use Rattle.std.specs.Prelude.{ℕ, ◌≡◌, ◌≤◌, ◌<◌, ◌+◌, ◌↔◌, ◌⊎◌, ◌++◌, [], List, min, drop, length, Some, IfOk, OnOk, OnErr, IsOk, IsTrue, IsErr, is_err, is_ok, vec_len, vec_capacity, if◌then◌else◌};
ghost use Rattle.std.specs.Result.{result_unwrap_or};

use crate::calls::Calls;
pub use crate::stored::MemShelf;
use crate::{Failed, Gate, Sink, Source};
use std::alloc::{AllocError, Global};

/// Gives bytes in pieces, and never fails.
#[derive(Debug, Drop)]
pub struct SureSource {
    bytes: Vec<u8>,
    given: usize,
    piece: usize,
    ghost within: { given ≤ vec_len bytes },
    ghost goes_on: { 1 ≤ piece },
}

impl SureSource {
    ghost use Rattle.zir_outside.specs.Memory.{sure_given, sure_piece};

    /// Gives these bytes, at most `piece` of them in a call.
    pub fn new(bytes: Vec<u8>, piece: usize) -> SureSource
        requires { 1 ≤ piece }
        ensures left { ⟦<SureSource as Source>⟧.left result ≡ Some bytes.items }
        ensures faults { ⟦<SureSource as Source>⟧.faults result ≡ 0 }
        ensures given { sure_given result ≡ 0 }
        ensures piece { sure_piece result ≡ piece }
    {
        SureSource {
            bytes,
            given: 0,
            piece,
        }
    }
}

impl Source for SureSource {
    ghost use Rattle.zir_outside.specs.Causes.{HasCause};
    ghost use Rattle.zir_outside.specs.Memory.{sure_given, sure_left, sure_piece};
    ghost use Rattle.zir_outside.specs.Reads.{Reads};

    ghost left = { λ s. Some (sure_left s) };

    ghost faults = { λ _. 0 };

    fn read(&mut self, into: &mut [u8]) -> Result<usize, Failed>
        ensures within { IfOk result (λ n. n ≤ length into.old) }
        ensures taken { Reads (Some (sure_left self.old)) (Some (sure_left self.new)) into.new result }
        ensures cause { HasCause 0 0 result }
        // It never fails, and how much it gives.
        ensures sure { IsOk result }
        ensures amount { IfOk result (λ n. n ≡ min (sure_piece self.old) (min (length into.old) (length (sure_left self.old)))) }
        ensures given { sure_given self.new ≡ sure_given self.old + result_unwrap_or result 0 }
        ensures piece { sure_piece self.new ≡ sure_piece self.old }
    {
        let rest = &self.bytes[self.given..];
        let n = rest.len().min(self.piece).min(into.len());
        into[..n].copy_from_slice(&rest[..n]);
        self.given += n;
        Ok(n)
    }
}

/// Gives bytes in pieces, and fails at the calls that are listed.
#[derive(Debug, Drop)]
pub struct MemSource {
    source: SureSource,
    calls: Calls,
}

impl MemSource {
    ghost use Rattle.zir_outside.specs.Calls.{IsFresh};
    ghost use Rattle.zir_outside.specs.Memory.{given_of, piece_of, source_calls};

    /// Gives these bytes, at most `piece` of them in a call. The calls listed in `failing`, counted from 1, fail.
    pub fn new(bytes: Vec<u8>, piece: usize, failing: Vec<u64>) -> MemSource
        requires { 1 ≤ piece }
        ensures left { ⟦<MemSource as Source>⟧.left result ≡ Some bytes.items }
        ensures faults { ⟦<MemSource as Source>⟧.faults result ≡ 0 }
        ensures given { given_of result ≡ 0 }
        ensures piece { piece_of result ≡ piece }
        ensures calls { IsFresh (source_calls result) failing.items }
    {
        MemSource {
            source: SureSource::new(bytes, piece),
            calls: Calls::new(failing),
        }
    }

    /// How many bytes it gave.
    pub fn given(&self) -> usize
        ensures { result ≡ given_of self.now }
    {
        self.source.given
    }
}

impl Source for MemSource {
    ghost use Rattle.zir_outside.specs.Calls.{is_next_listed, MadeOne};
    ghost use Rattle.zir_outside.specs.Causes.{HasCause};
    ghost use Rattle.zir_outside.specs.Memory.{unread, given_of, piece_of, source_calls};
    ghost use Rattle.zir_outside.specs.Reads.{Reads};

    ghost left = { λ s. Some (unread s) };

    ghost faults = { λ s. s.calls.faults };

    fn read(&mut self, into: &mut [u8]) -> Result<usize, Failed>
        ensures within { IfOk result (λ n. n ≤ length into.old) }
        ensures taken { Reads (Some (unread self.old)) (Some (unread self.new)) into.new result }
        ensures cause { HasCause (source_calls self.old).faults (source_calls self.new).faults result }
        // Whether a call fails, and how much it gives.
        ensures listed { is_err result ≡ is_next_listed (source_calls self.old) }
        ensures counted { MadeOne (source_calls self.old) (source_calls self.new) (is_err result) }
        ensures amount { IfOk result (λ n. n ≡ min (piece_of self.old) (min (length into.old) (length (unread self.old)))) }
        ensures given { given_of self.new ≡ given_of self.old + result_unwrap_or result 0 }
        ensures piece { piece_of self.new ≡ piece_of self.old }
    {
        if self.calls.next_fails() {
            return Err(Failed);
        }
        self.source.read(into)
    }
}

/// Holds the bytes that are put to it, up to its room, and fails at the calls that are listed.
#[derive(Debug, Drop)]
pub struct MemSink {
    bytes: Vec<u8>,
    room: usize,
    calls: Calls,
    ghost has_room: { room ≤ vec_capacity bytes },
    ghost within: { vec_len bytes ≤ room },
}

impl MemSink {
    ghost use Rattle.zir_outside.specs.Calls.{IsFresh};
    ghost use Rattle.zir_outside.specs.Memory.{held, room_of, sink_calls};

    /// Takes memory for `room` bytes at once. The calls listed in `failing`, counted from 1, fail.
    pub fn new(alloc: Global, room: usize, failing: Vec<u64>) -> Result<MemSink, AllocError>
        ensures held { IfOk result (λ sink. held sink ≡ []) }
        ensures faults { IfOk result (λ sink. ⟦<MemSink as Sink>⟧.faults sink ≡ 0) }
        ensures room { IfOk result (λ sink. room_of sink ≡ room) }
        ensures calls { IfOk result (λ sink. IsFresh (sink_calls sink) failing.items) }
    {
        Ok(MemSink {
            bytes: Vec::with_capacity(alloc, room)?,
            room,
            calls: Calls::new(failing),
        })
    }

    /// The bytes that it holds.
    pub fn bytes(&self) -> &[u8]
        ensures holds { result.now ≡ held self.now }
        ensures stands_for { ⟦<MemSink as Sink>⟧.stands_for self.now result.now }
    {
        &self.bytes
    }
}

impl Sink for MemSink {
    ghost use Rattle.zir_outside.specs.Calls.{is_next_listed, MadeOne};
    ghost use Rattle.zir_outside.specs.Causes.{HasCause};
    ghost use Rattle.zir_outside.specs.Memory.{held, room_of, sink_calls};
    ghost use Rattle.zir_outside.specs.Sinks.{Grew, GrewPart, Tells};

    ghost stands_for = { λ s h. h ≡ held s };

    ghost faults = { λ s. s.calls.faults };

    fn put(&mut self, piece: &[u8]) -> Result<(), Failed>
        ensures ok { OnOk result (Grew (λ h. h ≡ held self.old) (λ h. h ≡ held self.new) piece.now) }
        ensures failed { OnErr result (GrewPart piece.now (λ h. h ≡ held self.old) (λ h. h ≡ held self.new)) }
        ensures untold { Tells (λ h. h ≡ held self.new) → Tells (λ h. h ≡ held self.old) }
        ensures cause { HasCause (sink_calls self.old).faults (sink_calls self.new).faults result }
        // Whether a call fails, and what the sink then holds.
        ensures fails { IsErr result ↔ (IsTrue (is_next_listed (sink_calls self.old)) ⊎ (room_of self.old < length (held self.old) + length piece.now)) }
        ensures counted { MadeOne (sink_calls self.old) (sink_calls self.new) (is_err result) }
        ensures held { held self.new ≡ (if is_ok result then held self.old ++ piece.now else held self.old) }
        ensures room { room_of self.new ≡ room_of self.old }
    {
        if self.calls.next_fails() {
            return Err(Failed);
        }
        if self.room - self.bytes.len() < piece.len() {
            self.calls.raise();
            return Err(Failed);
        }
        self.bytes.extend_from_slice(piece).unwrap();
        Ok(())
    }
}

/// The gate that does nothing.
#[derive(Clone, Copy, Debug)]
pub struct Open;

impl Gate for Open {
    fn pass(&self, _stage: usize, _round: u64) {}
}
