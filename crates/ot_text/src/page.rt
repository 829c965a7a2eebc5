//! A page on which a text is put, piece by piece.
ghost use Rattle.std.specs.Prelude.{◌≡◌, [], Some, OnOk, OnErr, Err};
ghost use Rattle.ot_logic.specs.Names.{spelled};
ghost use Rattle.ot_text.specs.Texts.{number_text};
ghost use Rattle.ot_text.specs.Pages.{Bytes, Full, IsPut, is_stopped as is_stopped_at};
ghost use Rattle.ot_text.specs.Pages.{stopped, HasRoom, IsCopied, printed};
ghost use Rattle.ot_text.specs.Separated.{separator as separator_text};

use crate::fault::PrintFault;
use itoa::Buffer;
use ot_logic::{Memory, Name};
use std::alloc::Global;

/// A text in the making. After a fault nothing more is put on it.
#[derive(Drop)]
pub struct Page {
    bytes: Vec<u8>,
    // How many bytes the limit still allows.
    room: usize,
    fault: Option<PrintFault>,
}

impl Page {
    /// An empty page for at most `max` bytes.
    pub fn new(alloc: Global, max: usize) -> Page
        ensures { printed result ≡ Bytes [] max }
    {
        Page {
            bytes: Vec::new(alloc),
            room: max,
            fault: None,
        }
    }

    /// Whether nothing more is put on the page.
    pub fn is_stopped(&self) -> bool
        ensures { result ≡ is_stopped_at (printed self.now) }
    {
        self.fault.is_some()
    }

    /// How many bytes more the limit allows, where the page isn't stopped.
    pub fn room(&self) -> usize
        ensures { HasRoom (printed self.now) result }
    {
        self.room
    }

    /// Stops the page, which isn't stopped yet.
    pub fn stop(&mut self, fault: PrintFault)
        ensures { printed self.new ≡ stopped (Some fault) (printed self.old) }
    {
        self.fault = Some(fault);
    }

    /// Puts bytes at the end.
    pub fn put(&mut self, text: &[u8])
        ensures { IsPut text.now (printed self.old) (printed self.new) }
    {
        if self.fault.is_some() {
            return;
        }
        if text.len() > self.room {
            self.fault = Some(PrintFault::TooLarge);
            return;
        }
        match self.bytes.extend_from_slice(text) {
            Ok(()) => self.room -= text.len(),
            Err(refused) => self.fault = Some(PrintFault::Memory(Memory::from(refused))),
        }
    }

    /// Puts a separator at the end, unless the part that comes is the first.
    pub fn separate(&mut self, is_first: bool, separator: &[u8])
        ensures { IsPut (separator_text is_first separator.now) (printed self.old) (printed self.new) }
    {
        if !is_first {
            self.put(separator);
        }
    }

    /// Puts a name's spelling at the end.
    pub fn put_name(&mut self, name: &Name)
        ensures { IsPut (spelled name.now) (printed self.old) (printed self.new) }
    {
        if self.fault.is_some() {
            return;
        }
        let len = self.bytes.len();
        if let Err(memory) = name.spell(&mut self.bytes) {
            self.fault = Some(PrintFault::Memory(memory));
            return;
        }
        let added = self.bytes.len() - len;
        if added > self.room {
            self.fault = Some(PrintFault::TooLarge);
            return;
        }
        self.room -= added;
    }

    /// Puts a number in decimal digits at the end.
    pub fn put_number(&mut self, number: usize)
        ensures { IsPut (number_text number) (printed self.old) (printed self.new) }
    {
        let mut buffer = Buffer::new();
        self.put(buffer.format(number).as_bytes());
    }

    /// Appends the text, if there is one.
    pub fn finish(self, out: &mut Vec<u8>) -> Result<(), PrintFault>
        ensures ok { OnOk result (IsCopied (printed self) out.old.items out.new.items) }
        ensures too_large { result ≡ Err PrintFault.TooLarge → printed self ≡ Full }
        ensures err { OnErr result (out.new.items ≡ out.old.items) }
    {
        if let Some(fault) = self.fault {
            return Err(fault);
        }
        // A long text isn't held twice where nothing stands before it.
        if out.is_empty() {
            *out = self.bytes;
            return Ok(());
        }
        match out.extend_from_slice(self.bytes.as_slice()) {
            Ok(()) => Ok(()),
            Err(refused) => Err(PrintFault::Memory(Memory::from(refused))),
        }
    }
}
