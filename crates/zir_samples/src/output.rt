//! Bits and bytes that are put into a sink in pieces.

ghost use Rattle.std.specs.Prelude.{suc, ◌≡◌, ◌<◌, ◌≤◌, ◌*◌, ◌%◌, ◌^◌, ◌++◌, ◌∷◌, [], true, false, length, All, IfOk, OnOk, OnErr, vec_capacity};
ghost use Rattle.zir_meaning.specs.Samples.{bits_of, low_bits, spell_bits};
ghost use Rattle.zir_outside.specs.Causes.{HasCause};
ghost use Rattle.zir_outside.specs.Sinks.{Grew, GrewPart, Tells};
ghost use Rattle.zir_samples.specs.Output.{Puts};

use std::alloc::{AllocError, Global};
use std::marker::Model;
use zir_outside::{Failed, Sink};

/// The bytes of a piece.
const PIECE: usize = 4096;

/// Bits on their way into a sink, eight to a byte, the first the least significant. A piece is put as soon as it has 4,096
/// bytes. Contracts see the bits that were not put yet.
#[derive(Debug, Drop)]
pub struct Output {
    piece: Vec<u8>,
    byte: u8,
    count: u8,
}

impl Model for Output {
    ghost use Rattle.std.specs.Prelude.{List, Bool, ◌≤◌, vec_capacity};
    ghost use Rattle.zir_samples.specs.Output.{pending, IsWritten};

    ghost Value = { List Bool };

    ghost view = { λ w. pending w.piece.items w.count w.byte };

    ghost invariant = { λ w. (IsWritten w.piece.items w.count w.byte) × (4096 ≤ vec_capacity w.piece) };
}

impl Output {
    /// Takes memory for a piece. No other call takes memory.
    pub fn open(alloc: Global) -> Result<Output, AllocError>
        ensures { IfOk result (λ output. output ≡ []) }
    {
        Ok(Output {
            piece: Vec::with_capacity(alloc, PIECE)?,
            byte: 0,
            count: 0,
        })
    }

    /// Adds a bit. After `Failed` no bit is kept.
    pub fn push_bit<K: Sink>(&mut self, bit: bool, sink: &mut K) -> Result<(), Failed>
        ensures ok { OnOk result (Puts K.stands_for sink.old sink.new (self.old ++ bit ∷ []) self.new) }
        ensures failed { OnErr result (GrewPart (spell_bits false (self.old ++ bit ∷ [])) (K.stands_for sink.old) (K.stands_for sink.new)) }
        ensures spent { OnErr result (self.new ≡ []) }
        ensures untold { Tells (K.stands_for sink.new) → Tells (K.stands_for sink.old) }
        ensures cause { HasCause (K.faults sink.old) (K.faults sink.new) result }
    {
        let byte = with_bit(self.byte, self.count, bit);
        if self.count < 7 {
            self.byte = byte;
            self.count += 1;
            return Ok(());
        }
        self.byte = 0;
        self.count = 0;
        add_byte(&mut self.piece, byte, sink)
    }

    /// Adds a byte behind whole bytes. After `Failed` nothing is kept.
    pub fn push_byte<K: Sink>(&mut self, byte: u8, sink: &mut K) -> Result<(), Failed>
        requires whole { length self.old % 8 ≡ 0 }
        ensures ok { OnOk result (Puts K.stands_for sink.old sink.new (self.old ++ low_bits 8 byte) self.new) }
        ensures failed { OnErr result (GrewPart (spell_bits false (self.old ++ low_bits 8 byte)) (K.stands_for sink.old) (K.stands_for sink.new)) }
        ensures spent { OnErr result (self.new ≡ []) }
        ensures whole { length self.new % 8 ≡ 0 }
        ensures untold { Tells (K.stands_for sink.new) → Tells (K.stands_for sink.old) }
        ensures cause { HasCause (K.faults sink.old) (K.faults sink.new) result }
    {
        self.byte = 0;
        self.count = 0;
        add_byte(&mut self.piece, byte, sink)
    }

    /// Adds bytes behind whole bytes. After `Failed` nothing is kept.
    pub fn push_bytes<K: Sink>(&mut self, bytes: &[u8], sink: &mut K) -> Result<(), Failed>
        requires whole { length self.old % 8 ≡ 0 }
        ensures ok { OnOk result (Puts K.stands_for sink.old sink.new (self.old ++ bits_of bytes.now) self.new) }
        ensures failed { OnErr result (GrewPart (spell_bits false (self.old ++ bits_of bytes.now)) (K.stands_for sink.old) (K.stands_for sink.new)) }
        ensures spent { OnErr result (self.new ≡ []) }
        ensures whole { length self.new % 8 ≡ 0 }
        ensures untold { Tells (K.stands_for sink.new) → Tells (K.stands_for sink.old) }
        ensures cause { HasCause (K.faults sink.old) (K.faults sink.new) result }
    {
        for byte in bytes {
            self.push_byte(*byte, sink)?;
        }
        Ok(())
    }

    /// Adds a number of so many bytes, the least significant first, behind whole bytes. After `Failed` nothing is kept.
    pub fn push_number<K: Sink>(
        &mut self,
        number: u64,
        count: usize,
        sink: &mut K,
    ) -> Result<(), Failed>
        requires whole { length self.old % 8 ≡ 0 }
        ensures ok { OnOk result (Puts K.stands_for sink.old sink.new (self.old ++ low_bits (8 * count) number) self.new) }
        ensures failed { OnErr result (GrewPart (spell_bits false (self.old ++ low_bits (8 * count) number)) (K.stands_for sink.old) (K.stands_for sink.new)) }
        ensures spent { OnErr result (self.new ≡ []) }
        ensures whole { length self.new % 8 ≡ 0 }
        ensures untold { Tells (K.stands_for sink.new) → Tells (K.stands_for sink.old) }
        ensures cause { HasCause (K.faults sink.old) (K.faults sink.new) result }
    {
        let mut left = number;
        for _i in 0..count {
            self.push_byte((left % 256) as u8, sink)?;
            left /= 256;
        }
        Ok(())
    }

    /// Puts what is kept, with a last byte that is not whole only where it is padded with zero bits. Afterwards nothing is
    /// kept.
    pub fn put_rest<K: Sink>(&mut self, padded: bool, sink: &mut K) -> Result<(), Failed>
        ensures ok { OnOk result (Grew (K.stands_for sink.old) (K.stands_for sink.new) (spell_bits padded self.old)) }
        ensures failed { OnErr result (GrewPart (spell_bits padded self.old) (K.stands_for sink.old) (K.stands_for sink.new)) }
        ensures spent { self.new ≡ [] }
        ensures nothing { spell_bits padded self.old ≡ [] → sink.new ≡ sink.old }
        ensures untold { Tells (K.stands_for sink.new) → Tells (K.stands_for sink.old) }
        ensures cause { HasCause (K.faults sink.old) (K.faults sink.new) result }
    {
        if padded && self.count > 0 {
            self.piece.push(self.byte).unwrap();
        }
        self.byte = 0;
        self.count = 0;
        put_piece(&mut self.piece, sink)
    }
}

// A byte with a bit above its lowest ones.
fn with_bit(byte: u8, count: u8, bit: bool) -> u8
    requires few { count ≤ 7 }
    requires low { byte < 2 ^ count }
    ensures bits { low_bits (suc count) result ≡ low_bits count byte ++ bit ∷ [] }
    ensures low { result < 2 ^ suc count }
{
    byte + (u8::from(bit) << count)
}

// Adds a byte to a piece, and puts the piece where it is full.
fn add_byte<K: Sink>(piece: &mut Vec<u8>, byte: u8, sink: &mut K) -> Result<(), Failed>
    requires short { length piece.old.items ≤ 4095 }
    requires room { 4096 ≤ vec_capacity piece.old }
    ensures ok { OnOk result (Puts K.stands_for sink.old sink.new (bits_of (piece.old.items ++ byte ∷ [])) (bits_of piece.new.items)) }
    ensures failed { OnErr result (GrewPart (piece.old.items ++ byte ∷ []) (K.stands_for sink.old) (K.stands_for sink.new)) }
    ensures spent { OnErr result (piece.new.items ≡ []) }
    ensures short { length piece.new.items ≤ 4095 }
    ensures whole { All (λ b. b < 256) piece.new.items }
    ensures room { 4096 ≤ vec_capacity piece.new }
    ensures untold { Tells (K.stands_for sink.new) → Tells (K.stands_for sink.old) }
    ensures cause { HasCause (K.faults sink.old) (K.faults sink.new) result }
{
    piece.push(byte).unwrap();
    if piece.len() < PIECE {
        return Ok(());
    }
    put_piece(piece, sink)
}

// Puts a piece, unless it is empty, and empties it.
fn put_piece<K: Sink>(piece: &mut Vec<u8>, sink: &mut K) -> Result<(), Failed>
    ensures ok { OnOk result (Grew (K.stands_for sink.old) (K.stands_for sink.new) piece.old.items) }
    ensures failed { OnErr result (GrewPart piece.old.items (K.stands_for sink.old) (K.stands_for sink.new)) }
    ensures empty { piece.new.items ≡ [] }
    ensures room { vec_capacity piece.new ≡ vec_capacity piece.old }
    ensures nothing { piece.old.items ≡ [] → sink.new ≡ sink.old }
    ensures untold { Tells (K.stands_for sink.new) → Tells (K.stands_for sink.old) }
    ensures cause { HasCause (K.faults sink.old) (K.faults sink.new) result }
{
    if piece.is_empty() {
        return Ok(());
    }
    let put = sink.put(piece);
    piece.clear();
    put
}
