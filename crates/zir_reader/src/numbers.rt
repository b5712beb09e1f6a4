//! Numbers of a format, which are read out of a source one after the other.

ghost use Rattle.std.specs.Prelude.{◌≡◌, ◌≤◌, ◌<◌, ◌+◌, ◌-◌, ◌⊎◌, drop, length, slice_range, take, true, false, IfOk, OnOk};
ghost use Rattle.zir_meaning.specs.Items.{width as width_of};
ghost use Rattle.zir_outside.specs.Causes.{HasCause, Rose};
ghost use Rattle.zir_outside.specs.Reads.{Reads};
ghost use Rattle.zir_reader.specs.Numbers.{after, bytes_taken, Decides, DecidesBits, Fills, GivesNext, nothing_held};

use std::alloc::{AllocError, Global};
use std::marker::Model;
use zir_outside::{Failed, Source};
use zir_samples::{Front, number_from, read_item, width};
use zir_tree::format::Format;
use zir_tree::types::Base;

/// The most bytes that are held.
const ROOM: usize = 4096;

/// What is given of a source.
#[derive(Clone, Copy, Debug)]
pub enum Given {
    /// A number, and how many bits of the binary format or bytes of a text it takes.
    Number(i64, usize),
    /// The end of the input.
    End,
    Malformed,
    Failed,
}

/// A piece of the input. Of its bytes those from `at` to `filled` were not given yet, the first of them from a bit on.
#[derive(Debug, Drop)]
pub struct Numbers {
    format: Format,
    base: Base,
    piece: Vec<u8>,
    at: usize,
    filled: usize,
    bit: u8,
    ended: bool,
}

impl Model for Numbers {
    ghost use Rattle.std.specs.Prelude.{◌≡◌, ◌≤◌, ◌<◌, length, slice_range};
    ghost use Rattle.zir_meaning.specs.Items.{width};
    ghost use Rattle.zir_reader.specs.Numbers.{Held};

    ghost Value = { Held };

    ghost view = { λ r. record { format = r.format; base = r.base; bytes = slice_range r.piece.items r.at r.filled; bit = r.bit; ended = r.ended } };

    ghost invariant = { λ r. (0 < width r.base) × (length r.piece.items ≡ 4096) × (r.at ≤ r.filled) × (r.filled ≤ 4096) × (r.bit < 8) };
}

/// What stands in the binary format from a bit of the first byte on.
fn first_bits(base: Base, bytes: &[u8], bit: u8) -> Front
    requires stream { 0 < width_of base }
    requires near { bit < 8 }
    requires most { length bytes.now ≤ 4096 }
    ensures { DecidesBits base bytes.now bit result }
{
    let size = width(base);
    let first = usize::from(bit);
    if 8 * bytes.len() < first + size {
        return Front::Nothing;
    }
    Front::Item(number_from(base, bytes, first), size)
}

// Moves the bytes from one place to another one to the front.
fn move_front(piece: &mut [u8], at: usize, filled: usize)
    requires order { at ≤ filled }
    requires within { filled ≤ length piece.old }
    ensures len { length piece.new ≡ length piece.old }
    ensures moved { take (filled - at) piece.new ≡ slice_range piece.old at filled }
{
    piece.copy_within(at..filled, 0);
}

// Reads bytes behind those that are held.
fn read_behind<S: Source>(source: &mut S, piece: &mut [u8], held: usize) -> Result<usize, Failed>
    requires { held ≤ length piece.old }
    ensures len { length piece.new ≡ length piece.old }
    ensures within { IfOk result (λ n. held + n ≤ length piece.old) }
    ensures front { take held piece.new ≡ take held piece.old }
    ensures read { Reads (S.left source.old) (S.left source.new) (drop held piece.new) result }
    ensures cause { HasCause (S.faults source.old) (S.faults source.new) result }
{
    source.read(&mut piece[held..])
}

impl Numbers {
    /// Takes a buffer, which is empty.
    pub fn open(alloc: Global, format: Format, base: Base) -> Result<Numbers, AllocError>
        requires { 0 < width_of base }
        ensures { IfOk result (λ numbers. numbers ≡ nothing_held format base) }
    {
        Ok(Numbers {
            format,
            base,
            piece: vec![in alloc; 0; ROOM]?,
            at: 0,
            filled: 0,
            bit: 0,
            ended: false,
        })
    }

    /// The next number of the input. It reads only where the bytes held decide nothing, once at a time, and no more once
    /// the input has ended. After `Failed` it goes on as before.
    pub fn next<S: Source>(&mut self, source: &mut S) -> Given
        ensures gives { GivesNext self.old (S.left source.old) self.new (S.left source.new) result }
        ensures cause { result ≡ Given.Failed → Rose (S.faults source.old) (S.faults source.new) }
        ensures later { S.faults source.old ≤ S.faults source.new }
    {
        loop {
            match self.first() {
                Front::Item(number, size) => {
                    self.skip(size);
                    return Given::Number(number, size);
                }
                Front::Malformed => return Given::Malformed,
                Front::Nothing => {}
            }
            if self.ended {
                return Given::End;
            }
            if self.fill(source).is_err() {
                return Given::Failed;
            }
        }
    }

    /// What the bytes held begin with.
    fn first(&self) -> Front
        ensures { Decides self.now result }
    {
        let held = &self.piece[self.at..self.filled];
        match self.format {
            Format::Binary => first_bits(self.base, held, self.bit),
            Format::Text => read_item(self.base, held, self.ended),
        }
    }

    /// Leaves out a number of so many bits or bytes.
    fn skip(&mut self, size: usize)
        requires within { bytes_taken self.old.format self.old.bit size ≤ length self.old.bytes }
        requires small { size ≤ 64 }
        ensures { self.new ≡ after self.old size }
    {
        match self.format {
            Format::Binary => {
                let place = usize::from(self.bit) + size;
                self.at += place / 8;
                self.bit = (place % 8) as u8;
            }
            Format::Text => self.at += size,
        }
    }

    /// Reads more bytes behind those held, or learns that there are none.
    fn fill<S: Source>(&mut self, source: &mut S) -> Result<(), Failed>
        requires open { self.old.ended ≡ false }
        requires room { length self.old.bytes ≤ 64 }
        ensures fills { Fills self.old (S.left source.old) self.new (S.left source.new) }
        ensures more { OnOk result ((self.new.ended ≡ true) ⊎ (length self.old.bytes < length self.new.bytes)) }
        ensures cause { HasCause (S.faults source.old) (S.faults source.new) result }
    {
        move_front(&mut self.piece, self.at, self.filled);
        self.filled -= self.at;
        self.at = 0;
        let count = read_behind(source, &mut self.piece, self.filled)?;
        self.filled += count;
        self.ended = count == 0;
        Ok(())
    }
}
