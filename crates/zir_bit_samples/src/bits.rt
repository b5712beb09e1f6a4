//! Bits of a source, one at a time.

ghost use Rattle.std.specs.Prelude.{◌≡◌, ◌≢◌, ◌<◌, [], length, IfOk, IsTrue, false, is_err};
ghost use Rattle.zir_outside.specs.Causes.{HasCause};
ghost use Rattle.zir_bit_samples.specs.Reading.{GivesBit, is_end, no_bits};

use crate::bytes::ByteReader;
use std::alloc::{AllocError, Global};
use std::marker::Model;
use zir_outside::{Failed, Source};

/// Reads the bits of the input, the least significant of a byte first. `next` is called once for each bit of a run:
/// mostly the bit is the lowest of the byte at hand, which is then halved.
#[derive(Debug, Drop)]
pub struct BitReader {
    byte: u8,
    count: u8,
    bytes: ByteReader,
}

impl Model for BitReader {
    ghost use Rattle.std.specs.Prelude.{◌≡◌, ◌≤◌, ◌++◌, IsTrue, length};
    ghost use Rattle.zir_bit_meaning.specs.Samples.{bits_of, low_bits};
    ghost use Rattle.zir_bit_samples.specs.Reading.{KeptBits};

    ghost Value = { KeptBits };

    ghost view = { λ r. record { bits = low_bits r.count r.byte ++ bits_of r.bytes.bytes; ended = r.bytes.ended; failed = r.bytes.failed } };

    ghost invariant = { λ r. (r.count ≤ 7) × (length r.bytes.bytes ≤ 4095) × (IsTrue r.bytes.ended → r.count ≡ 0) };
}

impl BitReader {
    /// Takes a buffer of 4,096 bytes. It keeps no bit.
    pub fn open(alloc: Global) -> Result<BitReader, AllocError>
        ensures { IfOk result (λ reader. reader ≡ no_bits) }
    {
        Ok(BitReader {
            byte: 0,
            count: 0,
            bytes: ByteReader::open(alloc)?,
        })
    }

    /// The next bit of the input, or None at its end. It reads only where it keeps no bit, at most 4,096 bytes at
    /// once, and no more once the input has ended. After `Failed` it is not called again.
    pub fn next<S: Source>(&mut self, source: &mut S) -> Result<Option<bool>, Failed>
        requires { self.old.failed ≡ false }
        ensures bits { GivesBit self.old (S.left source.old) self.new (S.left source.new) result }
        ensures ended { self.new.ended ≡ is_end result }
        ensures failed { self.new.failed ≡ is_err result }
        ensures cause { HasCause (S.faults source.old) (S.faults source.new) result }
        ensures kept { self.old.bits ≢ [] → source.new ≡ source.old }
        ensures over { IsTrue self.old.ended → source.new ≡ source.old }
        ensures within { length self.new.bits < 32768 }
    {
        if self.count > 0 {
            let bit = self.byte % 2 == 1;
            self.byte /= 2;
            self.count -= 1;
            return Ok(Some(bit));
        }
        let Some(byte) = self.bytes.next(source)? else {
            return Ok(None);
        };
        self.byte = byte / 2;
        self.count = 7;
        Ok(Some(byte % 2 == 1))
    }
}
