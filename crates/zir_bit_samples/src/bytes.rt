//! Bytes of a source, one at a time.

ghost use Rattle.std.specs.Prelude.{◌≡◌, ◌≢◌, ◌≤◌, [], length, IfOk, IsTrue, false, is_err};
ghost use Rattle.zir_outside.specs.Causes.{HasCause};
ghost use Rattle.zir_bit_samples.specs.Reading.{GivesByte, is_end, no_bytes};

use crate::PIECE;
use std::alloc::{AllocError, Global};
use std::marker::Model;
use zir_outside::{Failed, Source};

/// A piece of the input, of which the bytes from `at` to `filled` were not given yet.
#[derive(Debug, Drop)]
pub struct ByteReader {
    piece: Vec<u8>,
    at: usize,
    filled: usize,
    ended: bool,
    failed: bool,
}

impl Model for ByteReader {
    ghost use Rattle.std.specs.Prelude.{◌+◌, ◌≡◌, ◌≤◌, IsTrue, length, slice_range};
    ghost use Rattle.zir_bit_samples.specs.Reading.{KeptBytes};

    ghost Value = { KeptBytes };

    ghost view = { λ r. record { bytes = slice_range r.piece.items r.at r.filled; ended = r.ended; failed = r.failed } };

    ghost invariant = { λ r. (length r.piece.items ≡ 4096) × (r.at ≤ r.filled) × (r.filled ≤ 4096) × (r.filled ≤ r.at + 4095) × (IsTrue r.ended → r.at ≡ r.filled) };
}

impl ByteReader {
    /// Takes a buffer of one piece, which is empty.
    pub fn open(alloc: Global) -> Result<ByteReader, AllocError>
        ensures { IfOk result (λ reader. reader ≡ no_bytes) }
    {
        Ok(ByteReader {
            piece: vec![in alloc; 0; PIECE]?,
            at: 0,
            filled: 0,
            ended: false,
            failed: false,
        })
    }

    /// The next byte of the input, or None at its end. It reads only where it keeps no byte, and no more once the
    /// input has ended.
    pub fn next<S: Source>(&mut self, source: &mut S) -> Result<Option<u8>, Failed>
        requires { self.old.failed ≡ false }
        ensures bytes { GivesByte self.old (S.left source.old) self.new (S.left source.new) result }
        ensures ended { self.new.ended ≡ is_end result }
        ensures failed { self.new.failed ≡ is_err result }
        ensures cause { HasCause (S.faults source.old) (S.faults source.new) result }
        ensures kept { self.old.bytes ≢ [] → source.new ≡ source.old }
        ensures over { IsTrue self.old.ended → source.new ≡ source.old }
        ensures within { length self.new.bytes ≤ 4095 }
    {
        if self.at < self.filled {
            let byte = self.piece[self.at];
            self.at += 1;
            return Ok(Some(byte));
        }
        if self.ended {
            return Ok(None);
        }
        match source.read(&mut self.piece) {
            Ok(0) => {
                self.ended = true;
                Ok(None)
            }
            Ok(n) => {
                self.at = 1;
                self.filled = n;
                Ok(Some(self.piece[0]))
            }
            Err(failed) => {
                self.failed = true;
                Err(failed)
            }
        }
    }
}
