//! Bits put into a sink.

ghost use Rattle.std.specs.Prelude.{suc, ◌≡◌, ◌<◌, ◌≤◌, ◌^◌, ◌++◌, ◌∷◌, [], true, false, length, IfOk, OnOk, OnErr, vec_capacity};
ghost use Rattle.zir_bit_meaning.specs.Samples.{low_bits, spell_bits};
ghost use Rattle.zir_outside.specs.Causes.{HasCause};
ghost use Rattle.zir_outside.specs.Sinks.{Grew, GrewPart, Tells};
ghost use Rattle.zir_bit_samples.specs.Writing.{Puts};

use crate::PIECE;
use std::alloc::{AllocError, Global};
use std::marker::Model;
use zir_outside::{Failed, Sink};

/// Writes bits, eight to a byte, the first the least significant. It puts a piece as soon as it has 4,096 bytes.
/// `push` is called once for each bit of a run.
#[derive(Debug, Drop)]
pub struct BitWriter {
    piece: Vec<u8>,
    byte: u8,
    count: u8,
}

// Clauses see the bits that were pushed and not put yet.
impl Model for BitWriter {
    ghost use Rattle.std.specs.Prelude.{List, Bool};
    ghost use Rattle.zir_bit_samples.specs.Writing.{pending, IsWritten};

    ghost Value = { List Bool };

    ghost view = { λ w. pending w.piece.items w.count w.byte };

    ghost use Rattle.std.specs.Prelude.{◌≤◌, vec_capacity};

    ghost invariant = { λ w. (IsWritten w.piece.items w.count w.byte) × (4096 ≤ vec_capacity w.piece) };
}

impl BitWriter {
    /// Takes memory for 4,096 bytes. No other call takes memory.
    pub fn open(alloc: Global) -> Result<BitWriter, AllocError>
        ensures { IfOk result (λ writer. writer ≡ []) }
    {
        Ok(BitWriter {
            piece: Vec::with_capacity(alloc, PIECE)?,
            byte: 0,
            count: 0,
        })
    }

    /// Writes a bit. After `Failed` the writer holds nothing.
    pub fn push<K: Sink>(&mut self, bit: bool, sink: &mut K) -> Result<(), Failed>
        ensures ok { OnOk result (Puts K.stands_for sink.old sink.new (self.old ++ bit ∷ []) self.new) }
        ensures failed { OnErr result (GrewPart (spell_bits false (self.old ++ bit ∷ [])) (K.stands_for sink.old) (K.stands_for sink.new)) }
        ensures spent { OnErr result (self.new ≡ []) }
        ensures within { length self.new < 32768 }
        ensures untold { Tells (K.stands_for sink.new) → Tells (K.stands_for sink.old) }
        ensures cause { HasCause (K.faults sink.old) (K.faults sink.new) result }
    {
        let byte = with_bit(self.byte, self.count, bit);
        if self.count < 7 {
            self.byte = byte;
            self.count += 1;
            return Ok(());
        }
        self.piece.push(byte).unwrap();
        self.byte = 0;
        self.count = 0;
        if self.piece.len() < PIECE {
            return Ok(());
        }
        put_piece(&mut self.piece, sink)
    }

    /// Writes what is left, the last byte padded with zero bits. Afterwards the writer holds nothing.
    pub fn finish<K: Sink>(&mut self, sink: &mut K) -> Result<(), Failed>
        ensures ok { OnOk result (Grew (K.stands_for sink.old) (K.stands_for sink.new) (spell_bits true self.old)) }
        ensures failed { OnErr result (GrewPart (spell_bits true self.old) (K.stands_for sink.old) (K.stands_for sink.new)) }
        ensures spent { self.new ≡ [] }
        ensures nothing { spell_bits true self.old ≡ [] → sink.new ≡ sink.old }
        ensures untold { Tells (K.stands_for sink.new) → Tells (K.stands_for sink.old) }
        ensures cause { HasCause (K.faults sink.old) (K.faults sink.new) result }
    {
        self.put_rest(true, sink)
    }

    /// Writes the whole bytes of what is left, and drops the bits behind them. Afterwards the writer holds nothing.
    pub fn flush_whole<K: Sink>(&mut self, sink: &mut K) -> Result<(), Failed>
        ensures ok { OnOk result (Grew (K.stands_for sink.old) (K.stands_for sink.new) (spell_bits false self.old)) }
        ensures failed { OnErr result (GrewPart (spell_bits false self.old) (K.stands_for sink.old) (K.stands_for sink.new)) }
        ensures spent { self.new ≡ [] }
        ensures nothing { spell_bits false self.old ≡ [] → sink.new ≡ sink.old }
        ensures untold { Tells (K.stands_for sink.new) → Tells (K.stands_for sink.old) }
        ensures cause { HasCause (K.faults sink.old) (K.faults sink.new) result }
    {
        self.put_rest(false, sink)
    }

    // Puts what is left, with a last byte that is not whole only where it is padded.
    fn put_rest<K: Sink>(&mut self, padded: bool, sink: &mut K) -> Result<(), Failed>
        ensures ok { OnOk result (Grew (K.stands_for sink.old) (K.stands_for sink.new) (spell_bits padded self.old)) }
        ensures failed { OnErr result (GrewPart (spell_bits padded self.old) (K.stands_for sink.old) (K.stands_for sink.new)) }
        ensures spent { self.new ≡ [] }
        ensures nothing { spell_bits padded self.old ≡ [] → sink.new ≡ sink.old }
        ensures untold { Tells (K.stands_for sink.new) → Tells (K.stands_for sink.old) }
        ensures cause { HasCause (K.faults sink.old) (K.faults sink.new) result }
    {
        if padded && self.count > 0 {
            self.piece.push(self.byte).unwrap();
        }
        self.byte = 0;
        self.count = 0;
        put_piece(&mut self.piece, sink)
    }
}

// A byte with a bit above its lowest ones.
fn with_bit(byte: u8, count: u8, bit: bool) -> u8
    requires few { count ≤ 7 }
    requires low { byte < 2 ^ count }
    ensures bits { low_bits (suc count) result ≡ low_bits count byte ++ bit ∷ [] }
    ensures low { result < 2 ^ suc count }
{
    byte + (u8::from(bit) << count)
}

// Puts a piece, unless it is empty, and empties it.
fn put_piece<K: Sink>(piece: &mut Vec<u8>, sink: &mut K) -> Result<(), Failed>
    ensures ok { OnOk result (Grew (K.stands_for sink.old) (K.stands_for sink.new) piece.old.items) }
    ensures failed { OnErr result (GrewPart piece.old.items (K.stands_for sink.old) (K.stands_for sink.new)) }
    ensures empty { piece.new.items ≡ [] }
    ensures room { vec_capacity piece.new ≡ vec_capacity piece.old }
    ensures nothing { piece.old.items ≡ [] → sink.new ≡ sink.old }
    ensures untold { Tells (K.stands_for sink.new) → Tells (K.stands_for sink.old) }
    ensures cause { HasCause (K.faults sink.old) (K.faults sink.new) result }
{
    if piece.is_empty() {
        return Ok(());
    }
    let put = sink.put(piece);
    piece.clear();
    put
}
