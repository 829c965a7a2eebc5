//! A text that is put together up to a limit.
ghost use Rattle.std.specs.Prelude.{◌≡◌, ◌≤◌, ◌-◌, ℕ, List, [], pos, take, drop, length, cond, OnOk};
ghost use Rattle.ot_written.specs.Bytes.{line_bytes};
ghost use Rattle.ot_written.specs.Written.{Numeral, Spelled, Order};
ghost use Rattle.ot_write.specs.Bytes.{Writes};
ghost use Rattle.ot_write.specs.Limited.{Bytes, Full, put, limited};
ghost use Rattle.ot_logic.specs.RanOut.{ran_out};

use crate::lines::{push_key, push_name, push_number, push_word};
use ot_logic::{Cmd, Memory, Name};
use std::alloc::Global;

/// Why an article isn't written.
#[derive(Clone, Copy)]
pub enum WriteRefusal {
    /// It has more bytes than the limit allows.
    TooLarge,
    Memory(Memory),
}

impl From<Memory> for WriteRefusal {
    ghost use Rattle.std.specs.Prelude.{◌≡◌};
    ghost use Rattle.ot_write.specs.declared.text.WriteRefusal.TheVariants.{Memory as OutOfMemory};

    ghost from_gives = { λ _ e. e ≡ OutOfMemory ran_out };

    fn from(memory: Memory) -> WriteRefusal {
        WriteRefusal::Memory(memory)
    }
}

/// A text in the making, for at most so many bytes. Once it would have more, nothing more is kept of it.
#[derive(Drop)]
pub(crate) struct Text {
    bytes: Vec<u8>,
    // How many bytes the limit still allows.
    room: u64,
    // Whether it has more bytes than the limit allows.
    is_full: bool,
}

impl Text {
    /// An empty text, for at most `max` bytes.
    pub(crate) fn new(alloc: Global, max: u64) -> Text
        ensures { limited result ≡ Bytes [] max }
    {
        Text {
            bytes: Vec::new(alloc),
            room: max,
            is_full: false,
        }
    }

    /// Puts a line that holds a word at the end.
    pub(crate) fn put_word(&mut self, word: Cmd) -> Result<(), Memory>
        ensures { OnOk result (limited self.new ≡ put (line_bytes (Order word)) (limited self.old)) }
    {
        if !self.is_full {
            let len = self.bytes.len();
            push_word(word, &mut self.bytes)?;
            self.count(len);
        }
        Ok(())
    }

    /// Puts a line that holds a number at the end.
    pub(crate) fn put_number(&mut self, number: i64) -> Result<(), Memory>
        ensures { OnOk result (limited self.new ≡ put (line_bytes (Numeral number)) (limited self.old)) }
    {
        if !self.is_full {
            let len = self.bytes.len();
            push_number(number, &mut self.bytes)?;
            self.count(len);
        }
        Ok(())
    }

    /// Puts a line that holds a name at the end.
    pub(crate) fn put_name(&mut self, name: &Name) -> Result<(), Memory>
        ensures { OnOk result (limited self.new ≡ put (line_bytes (Spelled name.now)) (limited self.old)) }
    {
        if !self.is_full {
            let len = self.bytes.len();
            push_name(name, &mut self.bytes)?;
            self.count(len);
        }
        Ok(())
    }

    /// Puts a line that holds a key at the end.
    pub(crate) fn put_key(&mut self, key: u64) -> Result<(), Memory>
        ensures { OnOk result (limited self.new ≡ put (line_bytes (Numeral (pos key))) (limited self.old)) }
    {
        if !self.is_full {
            let len = self.bytes.len();
            push_key(key, &mut self.bytes)?;
            self.count(len);
        }
        Ok(())
    }

    /// Takes the bytes behind the first `len` from the room.
    fn count(&mut self, len: usize)
        requires { len ≤ length self.old.bytes.items }
        ensures { limited self.new ≡ put (drop len self.old.bytes.items)
            (cond self.old.is_full Full (Bytes (take len self.old.bytes.items) self.old.room)) }
    {
        let added = (self.bytes.len() - len) as u64;
        if added > self.room {
            self.is_full = true;
        } else {
            self.room -= added;
        }
    }

    /// Appends the whole text. Where nothing stands before it, its bytes aren't copied.
    pub(crate) fn append_to(self, out: &mut Vec<u8>) -> Result<(), WriteRefusal>
        ensures { (x : List ℕ) (max : ℕ) → limited self ≡ put x (Bytes [] max)
            → Writes result x max out.old.items out.new.items }
    {
        if self.is_full {
            return Err(WriteRefusal::TooLarge);
        }
        if out.is_empty() {
            *out = self.bytes;
            return Ok(());
        }
        match out.extend_from_slice(self.bytes.as_slice()) {
            Ok(()) => Ok(()),
            Err(refused) => Err(WriteRefusal::Memory(Memory::from(refused))),
        }
    }
}
