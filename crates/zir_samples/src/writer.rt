//! Elements that are written into a sink.

ghost use Rattle.std.specs.Prelude.{◌≡◌, ◌<◌, ◌%◌, ◌++◌, ◌∷◌, [], true, false, if◌then◌else◌, codes, length, IfOk, OnOk, OnErr};
ghost use Rattle.zir_tree.specs.declared.format.Format.TheVariants.{Binary, Text};
ghost use Rattle.zir_tree.specs.declared.types.Base.TheVariants.{Unit};
ghost use Rattle.zir_meaning.specs.Items.{width as width_of};
ghost use Rattle.zir_meaning.specs.Samples.{bits_at, bits_of, spell_bits};
ghost use Rattle.zir_outside.specs.Causes.{HasCause};
ghost use Rattle.zir_outside.specs.Sinks.{Grew, GrewPart, Tells};
ghost use Rattle.zir_samples.specs.Finding.{IsStreamType};
ghost use Rattle.zir_samples.specs.Output.{Puts};
ghost use Rattle.zir_samples.specs.Writing.{added, IsWhole, nothing_kept, PutsPart, PutsRest, Wrote};

use crate::bits::{width, without_sign};
use crate::output::Output;
use itoa::Buffer;
use std::alloc::{AllocError, Global};
use std::marker::Model;
use zir_outside::{Failed, Sink};
use zir_tree::format::Format;
use zir_tree::types::{Base, Ty};

/// Writes elements of a type. It puts a piece as soon as it has 4,096 bytes. After a call has answered `Failed`, and after
/// `finish` or `flush_whole`, no other call comes.
#[derive(Debug, Drop)]
pub struct Writer {
    format: Format,
    base: Base,
    output: Output,
    some: bool,
}

impl Model for Writer {
    ghost use Rattle.std.specs.Prelude.{◌<◌};
    ghost use Rattle.zir_meaning.specs.Items.{width};
    ghost use Rattle.zir_samples.specs.Writing.{IsWhole, Kept};

    ghost Value = { Kept };

    ghost view = { λ w. record { format = w.format; base = w.base; bits = w.output; some = w.some } };

    ghost invariant = { λ w. (IsWhole w.format w.base w.output) × (0 < width w.base) };
}

impl Writer {
    /// Takes memory for a piece. No other call takes memory.
    pub fn open(alloc: Global, format: Format, ty: &Ty) -> Result<Writer, AllocError>
        requires stream { IsStreamType ty.now }
        ensures { IfOk result (λ writer. writer ≡ nothing_kept format ty.now.base) }
    {
        Ok(Writer {
            format,
            base: ty.base,
            output: Output::open(alloc)?,
            some: false,
        })
    }

    /// Writes an element.
    pub fn push<K: Sink>(&mut self, element: &[i64], sink: &mut K) -> Result<(), Failed>
        ensures ok { OnOk result (Wrote K.stands_for sink.old sink.new self.old self.new element.now) }
        ensures failed { OnErr result (PutsPart K.stands_for sink.old sink.new self.old element.now false) }
        ensures untold { Tells (K.stands_for sink.new) → Tells (K.stands_for sink.old) }
        ensures cause { HasCause (K.faults sink.old) (K.faults sink.new) result }
    {
        for number in element {
            self.push_number(*number, sink)?;
        }
        Ok(())
    }

    /// Writes what ends the output: the padding of the last byte or the last newline, and the last piece.
    pub fn finish<K: Sink>(&mut self, sink: &mut K) -> Result<(), Failed>
        ensures ok { OnOk result (PutsRest K.stands_for sink.old sink.new self.old [] true) }
        ensures failed { OnErr result (PutsPart K.stands_for sink.old sink.new self.old [] true) }
        ensures untold { Tells (K.stands_for sink.new) → Tells (K.stands_for sink.old) }
        ensures cause { HasCause (K.faults sink.old) (K.faults sink.new) result }
    {
        match self.format {
            Format::Binary => self.output.put_rest(true, sink),
            Format::Text => finish_text(&mut self.output, self.some, sink),
        }
    }

    /// Writes the whole bytes of what was pushed, without what ends the output.
    pub fn flush_whole<K: Sink>(&mut self, sink: &mut K) -> Result<(), Failed>
        ensures ok { OnOk result (PutsRest K.stands_for sink.old sink.new self.old [] false) }
        ensures failed { OnErr result (PutsPart K.stands_for sink.old sink.new self.old [] false) }
        ensures untold { Tells (K.stands_for sink.new) → Tells (K.stands_for sink.old) }
        ensures cause { HasCause (K.faults sink.old) (K.faults sink.new) result }
    {
        self.output.put_rest(false, sink)
    }

    // Adds a number.
    fn push_number<K: Sink>(&mut self, number: i64, sink: &mut K) -> Result<(), Failed>
        ensures ok { OnOk result (Puts K.stands_for sink.old sink.new (self.old.bits ++ added self.old.format self.old.base self.old.some number) self.new.bits) }
        ensures failed { OnErr result (GrewPart (spell_bits false (self.old.bits ++ added self.old.format self.old.base self.old.some number)) (K.stands_for sink.old) (K.stands_for sink.new)) }
        ensures format { self.new.format ≡ self.old.format }
        ensures base { self.new.base ≡ self.old.base }
        ensures some { self.new.some ≡ true }
        ensures untold { Tells (K.stands_for sink.new) → Tells (K.stands_for sink.old) }
        ensures cause { HasCause (K.faults sink.old) (K.faults sink.new) result }
    {
        let some = self.some;
        self.some = true;
        match self.format {
            Format::Binary => push_binary(&mut self.output, self.base, number, sink),
            Format::Text => push_text(&mut self.output, some, number, sink),
        }
    }
}

// Adds a number of a type in the binary format.
fn push_binary<K: Sink>(
    output: &mut Output,
    base: Base,
    number: i64,
    sink: &mut K,
) -> Result<(), Failed>
    requires stream { 0 < width_of base }
    requires whole { IsWhole Binary base output.old }
    ensures ok { OnOk result (Puts K.stands_for sink.old sink.new (output.old ++ bits_at base number) output.new) }
    ensures failed { OnErr result (GrewPart (spell_bits false (output.old ++ bits_at base number)) (K.stands_for sink.old) (K.stands_for sink.new)) }
    ensures whole { IsWhole Binary base output.new }
    ensures untold { Tells (K.stands_for sink.new) → Tells (K.stands_for sink.old) }
    ensures cause { HasCause (K.faults sink.old) (K.faults sink.new) result }
{
    match base {
        Base::Bit => output.push_bit(without_sign(1, number) % 2 == 1, sink),
        _ => {
            let width = width(base);
            output.push_number(without_sign(width, number), width / 8, sink)
        }
    }
}

// Adds a number to a text, behind a comma where there are some before it.
fn push_text<K: Sink>(
    output: &mut Output,
    some: bool,
    number: i64,
    sink: &mut K,
) -> Result<(), Failed>
    requires whole { length output.old % 8 ≡ 0 }
    ensures ok { OnOk result (Puts K.stands_for sink.old sink.new (output.old ++ added Text Unit some number) output.new) }
    ensures failed { OnErr result (GrewPart (spell_bits false (output.old ++ added Text Unit some number)) (K.stands_for sink.old) (K.stands_for sink.new)) }
    ensures whole { length output.new % 8 ≡ 0 }
    ensures untold { Tells (K.stands_for sink.new) → Tells (K.stands_for sink.old) }
    ensures cause { HasCause (K.faults sink.old) (K.faults sink.new) result }
{
    push_mark(output, some, b',', sink)?;
    output.push_bytes(Buffer::new().format(number).as_bytes(), sink)
}

// Puts what a text keeps, with a newline behind it where there are numbers.
fn finish_text<K: Sink>(output: &mut Output, some: bool, sink: &mut K) -> Result<(), Failed>
    requires whole { length output.old % 8 ≡ 0 }
    ensures ok { OnOk result (Grew (K.stands_for sink.old) (K.stands_for sink.new) (spell_bits true (output.old ++ bits_of (if some then codes "\n" else [])))) }
    ensures failed { OnErr result (GrewPart (spell_bits true (output.old ++ bits_of (if some then codes "\n" else []))) (K.stands_for sink.old) (K.stands_for sink.new)) }
    ensures whole { length output.new % 8 ≡ 0 }
    ensures untold { Tells (K.stands_for sink.new) → Tells (K.stands_for sink.old) }
    ensures cause { HasCause (K.faults sink.old) (K.faults sink.new) result }
{
    push_mark(output, some, b'\n', sink)?;
    output.put_rest(true, sink)
}

// Adds a byte to a text where it is wanted.
fn push_mark<K: Sink>(
    output: &mut Output,
    wanted: bool,
    mark: u8,
    sink: &mut K,
) -> Result<(), Failed>
    requires whole { length output.old % 8 ≡ 0 }
    ensures ok { OnOk result (Puts K.stands_for sink.old sink.new (output.old ++ bits_of (if wanted then mark ∷ [] else [])) output.new) }
    ensures failed { OnErr result (GrewPart (spell_bits false (output.old ++ bits_of (if wanted then mark ∷ [] else []))) (K.stands_for sink.old) (K.stands_for sink.new)) }
    ensures whole { length output.new % 8 ≡ 0 }
    ensures untold { Tells (K.stands_for sink.new) → Tells (K.stands_for sink.old) }
    ensures cause { HasCause (K.faults sink.old) (K.faults sink.new) result }
{
    if wanted {
        output.push_byte(mark, sink)
    } else {
        Ok(())
    }
}
