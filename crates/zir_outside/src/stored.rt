// A shelf in memory.

ghost use Rattle.std.specs.Prelude.{◌≢◌, All, None, IsNone, IsErrOf, string_bytes, ◌≡◌, ◌≤◌, ◌<◌, ◌↔◌, ◌⊎◌, [], length, map, Some, IfOk, OnOk, OnErr, MatchOption, IsTrue, IsErr, is_err, is_ok, vec_len, vec_capacity, if◌then◌else◌};
ghost use Rattle.std.specs.Option.{ForSome, option_map, unwrap_or};

use crate::calls::Calls;
use crate::kept::{Blank, Kept, LONGEST_NAME};
use crate::{Failed, LONGEST_TEXT, LoadError, Shelf};
use std::alloc::{AllocError, Global};

/// Holds texts with names, and fails at the calls that are listed.
#[derive(Debug, Drop)]
pub struct MemShelf {
    texts: Vec<Kept>,
    blank: Option<Blank>,
    calls: Calls,
    ghost has_place: { ForSome blank (λ _. vec_len texts < vec_capacity texts) },
}

impl MemShelf {
    ghost use Rattle.zir_outside.specs.Calls.{IsFresh};
    ghost use Rattle.zir_outside.specs.Memory.{IsFirst, IsUnnamed, shelf_calls, stock_of};
    ghost use Rattle.zir_outside.specs.Texts.{entry_with, IsTooSmall, NamesDiffer, room_in, stock_with, text_in};

    /// Holds these texts under their names, and takes memory for `room` bytes more of each and for one more text of as many
    /// bytes. The calls listed in `failing`, counted from 1, fail.
    pub fn new(
        alloc: Global,
        texts: Vec<(String, Vec<u8>)>,
        room: usize,
        failing: Vec<u64>,
    ) -> Result<MemShelf, AllocError>
        requires { NamesDiffer texts.items }
        ensures texts { IfOk result (λ shelf. ⟦<MemShelf as Shelf>⟧.texts shelf ≡ Some (text_in (map (entry_with room) texts.items))) }
        ensures each { All (λ t. text_in (map (entry_with room) texts.items) (string_bytes t.0) ≡ Some t.1.items) texts.items }
        ensures stock { IfOk result (λ shelf. stock_of shelf ≡ record { entries = map (entry_with room) texts.items; fresh = Some room }) }
        ensures faults { IfOk result (λ shelf. ⟦<MemShelf as Shelf>⟧.faults shelf ≡ 0) }
        ensures calls { IfOk result (λ shelf. IsFresh (shelf_calls shelf) failing.items) }
    {
        let mut texts = Kept::all(alloc, texts, room)?;
        texts.reserve(1)?;
        Ok(MemShelf {
            texts,
            blank: Some(Blank::new(alloc, room)?),
            calls: Calls::new(failing),
        })
    }

    /// The text with this name.
    pub fn text(&self, name: &str) -> Option<&[u8]>
        ensures text { option_map (λ text. text.now) result ≡ text_in (stock_of self.now).entries name.now }
        ensures none { IsNone result ↔ All (λ e. e.name ≢ name.now) (stock_of self.now).entries }
    {
        match self.place(name) {
            Some(place) => Some(self.texts[place].bytes.as_slice()),
            None => None,
        }
    }

    /// The place of the first text with this name.
    fn place(&self, name: &str) -> Option<usize>
        ensures { MatchOption result (IsUnnamed self.now.texts.items name.now) (λ place. IsFirst self.now.texts.items name.now place) }
    {
        for (place, text) in self.texts.iter().enumerate() {
            if text.name.as_str() == name {
                return Some(place);
            }
        }
        None
    }

    /// Puts a piece behind the text of this name, which is made where it is absent, if there is room for it.
    fn put(&mut self, name: &str, piece: &[u8]) -> Result<(), Failed>
        ensures full { IsErr result ↔ IsTooSmall (room_in (stock_of self.old).fresh (stock_of self.old).entries name.now) (length piece.now) }
        ensures stock { stock_of self.new ≡ (if is_ok result then stock_with (stock_of self.old) name.now piece.now else stock_of self.old) }
        ensures calls { shelf_calls self.new ≡ shelf_calls self.old }
    {
        match self.place(name) {
            Some(place) => self.texts[place].append(piece),
            None => self.make(name, piece),
        }
    }

    /// Makes the text of this name, which is absent, if there is room for it.
    fn make(&mut self, name: &str, piece: &[u8]) -> Result<(), Failed>
        requires { IsUnnamed self.old.texts.items name.now }
        ensures full { IsErr result ↔ IsTooSmall (room_in (stock_of self.old).fresh (stock_of self.old).entries name.now) (length piece.now) }
        ensures stock { stock_of self.new ≡ (if is_ok result then stock_with (stock_of self.old) name.now piece.now else stock_of self.old) }
        ensures calls { shelf_calls self.new ≡ shelf_calls self.old }
    {
        if name.len() > LONGEST_NAME || piece.len() > self.blank_room() {
            return Err(Failed);
        }
        let Some(blank) = self.blank.take() else {
            return Err(Failed);
        };
        self.texts.push(blank.filled(name, piece)).unwrap();
        Ok(())
    }

    /// How many bytes one more text may have.
    fn blank_room(&self) -> usize
        ensures { result ≡ unwrap_or (stock_of self.now).fresh 0 }
    {
        match &self.blank {
            Some(blank) => blank.room,
            None => 0,
        }
    }
}

impl Shelf for MemShelf {
    ghost use Rattle.zir_outside.specs.Calls.{is_next_listed, MadeOne};
    ghost use Rattle.zir_outside.specs.Causes.{HasCause, Rose};
    ghost use Rattle.zir_outside.specs.Lengthens.{Lengthens};
    ghost use Rattle.zir_outside.specs.Loads.{Loads, IsAbsent};
    ghost use Rattle.zir_outside.specs.Memory.{shelf_calls, stock_of, texts_of};
    ghost use Rattle.zir_outside.specs.Texts.{IsTooSmall, room_in, stock_with};

    ghost texts = { λ s. Some (texts_of s) };

    ghost faults = { λ s. s.calls.faults };

    fn load(&mut self, name: &str, into: &mut Vec<u8>) -> Result<(), LoadError>
        ensures short { OnOk result (length into.new.items ≤ 65536) }
        ensures loaded { Loads (Some (texts_of self.old)) name.now into.new.items result }
        ensures refused { OnErr result (into.new.items ≡ []) }
        ensures same { Some (texts_of self.new) ≡ Some (texts_of self.old) }
        ensures later { (shelf_calls self.old).faults ≤ (shelf_calls self.new).faults }
        ensures cause { IsErrOf result LoadError.Failed → Rose (shelf_calls self.old).faults (shelf_calls self.new).faults ⊎ IsAbsent (Some (texts_of self.old)) name.now }
        // Whether a call fails, and that nothing else is a fault.
        ensures failed { IsErrOf result LoadError.Failed ↔ (IsTrue (is_next_listed (shelf_calls self.old)) ⊎ (texts_of self.old name.now ≡ None)) }
        ensures counted { MadeOne (shelf_calls self.old) (shelf_calls self.new) (is_next_listed (shelf_calls self.old)) }
        ensures stock { stock_of self.new ≡ stock_of self.old }
    {
        into.clear();
        if self.calls.next_fails() {
            return Err(LoadError::Failed);
        }
        let Some(text) = self.text(name) else {
            return Err(LoadError::Failed);
        };
        if text.len() > LONGEST_TEXT {
            return Err(LoadError::TooLong);
        }
        into.extend_from_slice(text)?;
        Ok(())
    }

    fn append(&mut self, name: &str, piece: &[u8]) -> Result<(), Failed>
        ensures lengthens { Lengthens (Some (texts_of self.old)) (Some (texts_of self.new)) name.now piece.now result }
        ensures cause { HasCause (shelf_calls self.old).faults (shelf_calls self.new).faults result }
        // Whether a call fails, and what the shelf then holds.
        ensures fails { IsErr result ↔ (IsTrue (is_next_listed (shelf_calls self.old)) ⊎ IsTooSmall (room_in (stock_of self.old).fresh (stock_of self.old).entries name.now) (length piece.now)) }
        ensures counted { MadeOne (shelf_calls self.old) (shelf_calls self.new) (is_err result) }
        ensures stock { stock_of self.new ≡ (if is_ok result then stock_with (stock_of self.old) name.now piece.now else stock_of self.old) }
    {
        if self.calls.next_fails() {
            return Err(Failed);
        }
        let put = self.put(name, piece);
        if put.is_err() {
            self.calls.raise();
        }
        put
    }
}
