//! Chunks of stamped elements, as one stage hands them to the next.
//! A chunk is filled and read once per element, and cleared and filled again for the whole of a run, so it keeps the
//! cells of its elements in one flat vector and takes all its memory when it is opened.
#![tactic(auto)]

ghost use Rattle.std.specs.Prelude.{◌≡◌, ◌<◌, ◌≤◌, ◌↔◌, ◌+◌, ◌*◌, ◌++◌, ◌∷◌, [], length, Some, None, IfOk, IfSome, IsTrue, slice_get};
ghost use Rattle.zir_chunk.specs.Contents.{AtMost, HasRoom, IsLawful, IsSmall, blank, cells_of, last_stamp, stamps_of};

use std::alloc::{AllocError, Global};
use std::marker::Model;
use zir_tree::ends::{EndMark, Stamp};

/// The most cells of a chunk.
pub const CELLS: usize = 4096;

/// The most elements of a chunk.
pub const ELEMENTS: usize = 256;

const NOTHING: Stamp = Stamp { taken: 0, ticks: 0 };

/// Elements of one size in cells, each with its stamp; how far their producer had run; and the end that stands behind
/// them, if one does. It holds at most 4,096 cells and 256 elements.
#[derive(Debug, Drop)]
pub struct Chunk {
    size: u32,
    cells: Vec<i64>,
    stamps: Vec<Stamp>,
    reached: Stamp,
    end: Option<(EndMark, Stamp)>,
}

impl Model for Chunk {
    ghost use Rattle.zir_chunk.specs.Contents.{Contents};

    ghost Value = { Contents };

    ghost use Rattle.zir_chunk.specs.Parts.{contents_of, IsKept};

    ghost view = { contents_of };

    ghost invariant = { IsKept };
}

impl Chunk {
    /// Takes memory for 4,096 cells and 256 stamps. The chunk is empty, for elements of one cell; no other call takes
    /// memory.
    pub fn open(alloc: Global) -> Result<Chunk, AllocError>
        ensures { IfOk result (λ chunk. chunk ≡ blank 1) }
    {
        Ok(Chunk {
            size: 1,
            cells: Vec::with_capacity(alloc, CELLS)?,
            stamps: Vec::with_capacity(alloc, ELEMENTS)?,
            reached: NOTHING,
            end: None,
        })
    }

    /// Empties it for elements of so many cells.
    pub fn clear(&mut self, size: u32)
        requires some { 1 ≤ size }
        requires fits { size ≤ 4096 }
        ensures { self.new ≡ blank size }
    {
        self.size = size;
        self.cells.clear();
        self.stamps.clear();
        self.reached = NOTHING;
        self.end = None;
    }

    /// Whether one more element fits. None does behind an end mark.
    pub fn room(&self) -> bool
        ensures { IsTrue result ↔ HasRoom self.now }
    {
        self.end.is_none()
            && self.stamps.len() < ELEMENTS
            && self.cells.len() + self.size as usize <= CELLS
    }

    /// Appends an element. Its stamp is not below the last one in either part.
    pub fn push(&mut self, element: &[i64], stamp: Stamp)
        requires room { HasRoom self.old }
        requires size { length element.now ≡ self.old.size }
        requires rising { AtMost (last_stamp self.old) stamp }
        requires small { IsSmall stamp }
        ensures pushed { self.new ≡ record self.old { elements = self.old.elements ++ record { cells = element.now; stamp = stamp } ∷ [] } }
        ensures last { last_stamp self.new ≡ stamp }
    {
        self.cells.extend_from_slice(element).unwrap();
        self.stamps.push(stamp).unwrap();
    }

    /// The number of its elements.
    pub fn len(&self) -> usize
        ensures value { result ≡ length self.now.elements }
        ensures within { result ≤ 256 }
    {
        self.stamps.len()
    }

    pub fn is_empty(&self) -> bool
        ensures { IsTrue result ↔ (self.now.elements ≡ []) }
    {
        self.stamps.is_empty()
    }

    /// The cells of an element, counted from 0.
    pub fn element(&self, i: usize) -> &[i64]
        requires { i < length self.now.elements }
        ensures value { slice_get (cells_of self.now) i ≡ Some result.now }
        ensures size { length result.now ≡ self.now.size }
    {
        let size = self.size as usize;
        let start = i * size;
        &self.cells[start..start + size]
    }

    /// The stamp of an element, counted from 0.
    pub fn stamp(&self, i: usize) -> Stamp
        requires { i < length self.now.elements }
        ensures value { slice_get (stamps_of self.now) i ≡ Some result }
        ensures small { IsSmall result }
    {
        self.stamps[i]
    }

    /// The number of cells of each element.
    pub fn size(&self) -> u32
        ensures value { result ≡ self.now.size }
        ensures some { 1 ≤ result }
        ensures fits { result ≤ 4096 }
    {
        self.size
    }

    /// How far its producer had run when it was sealed last; nothing taken and no tick before that.
    pub fn reached(&self) -> Stamp
        ensures value { result ≡ self.now.reached }
        ensures small { IsSmall result }
    {
        self.reached
    }

    /// The end that stands behind the elements, and its stamp.
    pub fn end(&self) -> Option<(EndMark, Stamp)>
        ensures value { result ≡ self.now.end }
        ensures small { IfSome result (λ mark. IsSmall mark.1) }
        ensures last { IfSome result (λ mark. AtMost (last_stamp self.now) mark.1) }
    {
        self.end
    }

    /// Says how far the producer had run.
    pub fn seal(&mut self, reached: Stamp)
        requires rising { AtMost (last_stamp self.old) reached }
        requires small { IsSmall reached }
        ensures { self.new ≡ record self.old { reached = reached } }
    {
        self.reached = reached;
    }

    /// Puts an end behind the elements.
    pub fn mark(&mut self, end: EndMark, at: Stamp)
        requires unmarked { self.old.end ≡ None }
        requires rising { AtMost (last_stamp self.old) at }
        requires small { IsSmall at }
        ensures { self.new ≡ record self.old { end = Some (end, at) } }
    {
        self.end = Some((end, at));
    }

    /// What is true of every chunk, for a caller's proof; it does nothing.
    pub fn facts(&self)
        ensures { IsLawful self.now }
    {
        let _ = &self.size;
    }
}

#[cfg(test)]
mod tests;
