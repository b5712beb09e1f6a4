//! Elements of bytes, which are read out of a source one after the other.

ghost use Rattle.std.specs.Prelude.{ℕ, List, ◌≡◌, ◌≤◌, IfOk, length};
ghost use Rattle.std.proofs.Common.{refl, ◌∙◌};
ghost use Rattle.zir_meaning.specs.Elements.{numbers_in};
ghost use Rattle.zir_outside.specs.Causes.{Rose};
ghost use Rattle.zir_reader.specs.Inputs.{Gets};
ghost use Rattle.zir_reader.specs.Reading.{element_size, input_left, left_with, spelled};
ghost use Rattle.zir_samples.specs.Finding.{IsStreamType};

use crate::elements::{ElementSource, Next};
use crate::gatherer::Gatherer;
use crate::numbers::{Given, Numbers};
use std::alloc::{AllocError, Global};
use zir_outside::Source;
use zir_tree::format::Format;
use zir_tree::types::Ty;

/// Reads the elements of a type in one of the formats. It reads only where an element is asked for that the bytes read
/// before do not hold, and keeps at most 4,096 bytes and one element.
#[derive(Debug, Drop)]
pub struct Reader {
    numbers: Numbers,
    gatherer: Gatherer,
}

impl Reader {
    /// Takes memory for a piece and an element. No other call takes memory.
    pub fn open(alloc: Global, format: Format, ty: &Ty) -> Result<Reader, AllocError>
        requires { IsStreamType ty.now }
        ensures left { IfOk result (λ reader. (bytes : List ℕ) → input_left reader bytes ≡ spelled format ty.now bytes) }
        ensures size { IfOk result (λ reader. element_size reader ≡ numbers_in ty.now) }
    {
        Ok(Reader {
            numbers: Numbers::open(alloc, format, ty.base)?,
            gatherer: Gatherer::open(alloc, ty)?,
        })
    }

    /// Puts the cells of the next element into `into`, if there is one. After the end of the input, or where it is malformed,
    /// it answers the same again and reads no more. After `Failed` it goes on as before.
    pub fn next<S: Source>(&mut self, source: &mut S, into: &mut [i64]) -> Next
        requires { length into.old ≡ element_size self.old }
        ensures gets { Gets (left_with self.old (S.left source.old)) (left_with self.new (S.left source.new)) into.new result }
        ensures size { element_size self.new ≡ element_size self.old }
        ensures later { S.faults source.old ≤ S.faults source.new }
        ensures cause { result ≡ Next.Failed → Rose (S.faults source.old) (S.faults source.new) }
    {
        loop {
            match self.numbers.next(source) {
                Given::Number(number, size) => {
                    if self.gatherer.push(number, size) {
                        into.copy_from_slice(&self.gatherer.cells);
                        return Next::Element;
                    }
                }
                Given::End => return Next::End,
                Given::Malformed => return Next::Malformed(self.gatherer.start),
                Given::Failed => return Next::Failed,
            }
        }
    }
}

/// The elements that a reader reads out of a source.
#[derive(Debug, Drop)]
pub struct SourceElements<'a, S> {
    reader: &'a mut Reader,
    source: &'a mut S,
}

impl<'a, S: Source> SourceElements<'a, S> {
    /// Reads from this source on.
    pub fn new(reader: &'a mut Reader, source: &'a mut S) -> SourceElements<'a, S>
        ensures reader { result.reader.now ≡ reader.old }
        ensures source { result.source.now ≡ source.old }
        ensures same_reader { result.reader.ghost_name ≡ reader.entry.ghost_name }
        ensures same_source { result.source.ghost_name ≡ source.entry.ghost_name }
    {
        SourceElements { reader, source }
    }
}

impl<'a, S: Source> ElementSource for SourceElements<'a, S> {
    ghost size = { λ e. element_size e.reader.now };

    ghost left = { λ e. left_with e.reader.now (S.left e.source.now) };

    ghost faults = { λ e. S.faults e.source.now };

    ghost keeps = { λ old new. (new.reader.ghost_name ≡ old.reader.ghost_name) × (new.source.ghost_name ≡ old.source.ghost_name) };

    ghost keeps_same = { λ e. (refl, refl) };

    ghost keeps_on = { λ one two three p q. (q.0 ∙ p.0, q.1 ∙ p.1) };

    fn next(&mut self, into: &mut [i64]) -> Next {
        self.reader.next(self.source, into)
    }
}
