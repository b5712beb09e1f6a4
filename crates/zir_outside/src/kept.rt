// The texts that a shelf in memory holds.

ghost use Rattle.std.specs.Prelude.{◌≡◌, ◌≤◌, ◌<◌, ◌+◌, ◌↔◌, [], IfOk, OnErr, OnOk, IsErr, length, map, string_bytes, string_capacity, vec_len, vec_capacity};
ghost use Rattle.zir_outside.specs.Texts.{empty_entry, entry_with, longer};

use crate::Failed;
use std::alloc::{AllocError, Global};

/// The most bytes that the name of a text has that is made.
pub const LONGEST_NAME: usize = 255;

/// A text with its name, and how many bytes it may still get.
#[derive(Debug, Drop)]
pub struct Kept {
    pub name: String,
    pub bytes: Vec<u8>,
    pub spare: usize,
    ghost has_room: { vec_len bytes + spare ≤ vec_capacity bytes },
}

impl Kept {
    ghost use Rattle.zir_outside.specs.Memory.{entry};

    /// Each text with its name, and memory for `spare` bytes behind it.
    pub fn all(
        alloc: Global,
        texts: Vec<(String, Vec<u8>)>,
        spare: usize,
    ) -> Result<Vec<Kept>, AllocError>
        ensures { IfOk result (λ all. map entry all.items ≡ map (entry_with spare) texts.items) }
    {
        let mut all = Vec::new(alloc);
        for (name, bytes) in texts {
            all.push(Kept::new(name, bytes, spare)?)?;
        }
        Ok(all)
    }

    /// Takes memory for `spare` bytes behind the text.
    pub fn new(name: String, bytes: Vec<u8>, spare: usize) -> Result<Kept, AllocError>
        ensures { IfOk result (λ text. entry text ≡ entry_with spare (name, bytes)) }
    {
        let mut bytes = bytes;
        bytes.reserve(spare)?;
        Ok(Kept { name, bytes, spare })
    }

    /// Puts a piece behind the text, where there is room for it.
    pub fn append(&mut self, piece: &[u8]) -> Result<(), Failed>
        ensures full { IsErr result ↔ (self.old.spare < length piece.now) }
        ensures ok { OnOk result (entry self.new ≡ longer (entry self.old) piece.now) }
        ensures err { OnErr result (self.new ≡ self.old) }
    {
        if self.spare < piece.len() {
            return Err(Failed);
        }
        self.spare -= piece.len();
        self.bytes.extend_from_slice(piece).unwrap();
        Ok(())
    }
}

/// Memory for one more text, of at most `room` bytes.
#[derive(Debug, Drop)]
pub struct Blank {
    name: String,
    bytes: Vec<u8>,
    pub room: usize,
    ghost for_name: { 255 ≤ string_capacity name },
    ghost unnamed: { string_bytes name ≡ [] },
    ghost empty: { bytes.items ≡ [] },
    ghost has_room: { room ≤ vec_capacity bytes },
}

impl Blank {
    ghost use Rattle.zir_outside.specs.Memory.{entry};

    /// Takes memory for the text and its name.
    pub fn new(alloc: Global, room: usize) -> Result<Blank, AllocError>
        ensures { IfOk result (λ blank. blank.room ≡ room) }
    {
        Ok(Blank {
            name: String::with_capacity(alloc, LONGEST_NAME)?,
            bytes: Vec::with_capacity(alloc, room)?,
            room,
        })
    }

    /// A text with this name and this piece.
    pub fn filled(self, name: &str, piece: &[u8]) -> Kept
        requires short { length name.now ≤ 255 }
        requires fits { length piece.now ≤ self.room }
        ensures { entry result ≡ longer (empty_entry name.now self.room) piece.now }
    {
        let Blank {
            name: mut named,
            mut bytes,
            room,
        } = self;
        named.push_str(name).unwrap();
        bytes.extend_from_slice(piece).unwrap();
        Kept {
            name: named,
            bytes,
            spare: room - piece.len(),
        }
    }
}
