//! Memory: bytes in pages, a table with an entry for each page number and the pages one after
//! another. A look-up takes the same time whatever the memory holds.
ghost use Rattle.std.specs.Prelude.{◌≡◌, ℕ, ◌+◌, ◌*◌, ◌/◌, ◌^◌, ◌%◌, ◌<◌, ◌≤◌, Some, None, length, IsOk, OnOk, OnErr, IsTrue, ◌↔◌, if◌then◌else◌, ◌==◌, slice_index_or, ◌-◌};
ghost use Rattle.x86_memory.specs.Kept.{byte_at, bytes_in, IsOpen};
ghost use Rattle.x86_memory.specs.Bytes.{IsSound, IsAligned, is_in, written, view, word_at, word_write, zeros};

use crate::buffer::Write;
use std::alloc::Global;
use std::marker::Model;
use tso_words::NoMemory;
use x86_steps::access::Size;

/// The bytes of a page.
const PAGE: usize = 16_384;

/// The pages of all addresses.
const TABLE: usize = 262_144;

/// The byte at each address; one that was never written is 0.
#[derive(Drop)]
pub struct Memory {
    /// The place of a page among the pages, by its number.
    table: Vec<Option<u32>>,
    /// The pages, one after another.
    bytes: Vec<u8>,
    /// How many pages there are.
    count: u32,
}

impl Model for Memory {
    ghost use Rattle.std.specs.Vec.{vec_len, vec_capacity};
    ghost use Rattle.x86_memory.specs.Kept.{Kept, ArePages, page_room};

    ghost Value = { Kept };

    ghost view = { λ m. record { table = m.table.items; bytes = m.bytes.items; spare = page_room (vec_len m.bytes) (vec_capacity m.bytes) m.count (vec_len m.table) } };

    ghost invariant = { λ m. ArePages m.table.items m.bytes.items m.count };
}

impl Memory {
    /// Zeros alone.
    pub fn new(alloc: Global) -> Memory
        ensures { bytes_in result ≡ zeros }
    {
        Memory {
            table: Vec::new(alloc),
            bytes: Vec::new(alloc),
            count: 0,
        }
    }

    /// The byte at an address.
    pub fn byte(&self, x: u32) -> u8
        ensures { result ≡ byte_at self.now x }
    {
        let number = (x as usize) / PAGE;
        if number >= self.table.len() {
            return 0;
        }
        match self.table[number] {
            None => 0,
            Some(page) => self.bytes[page as usize * PAGE + (x as usize) % PAGE],
        }
    }

    // Whether the page of the address is there.
    fn is_open(&self, x: u32) -> bool
        ensures { IsTrue result ↔ IsOpen self.now x }
    {
        let number = (x as usize) / PAGE;
        number < self.table.len() && self.table[number].is_some()
    }

    // Gives the table an entry for each page number.
    fn fill_table(&mut self) -> Result<(), NoMemory>
        ensures entries { (i : ℕ) → slice_index_or self.new.table i None ≡ slice_index_or self.old.table i None }
        ensures bytes { self.new.bytes ≡ self.old.bytes }
        ensures whole { OnOk result (262144 ≤ length self.new.table) }
        ensures room { 1 ≤ self.old.spare → IsOk result }
        ensures spare { self.old.spare ≤ self.new.spare }
    {
        if self.table.len() < TABLE {
            self.table.resize(TABLE, None)?;
        }
        Ok(())
    }

    // Makes the page of the address, where there is none.
    fn open(&mut self, x: u32) -> Result<(), NoMemory>
        ensures same { (y : ℕ) → byte_at self.new y ≡ byte_at self.old y }
        ensures opened { OnOk result (IsOpen self.new x) }
        ensures room { 1 ≤ self.old.spare → IsOk result }
    {
        if self.is_open(x) {
            return Ok(());
        }
        self.fill_table()?;
        if self.count == u32::MAX {
            return Err(NoMemory);
        }
        self.bytes.resize(self.bytes.len() + PAGE, 0)?;
        self.table[(x as usize) / PAGE] = Some(self.count);
        self.count += 1;
        Ok(())
    }

    // Makes room for the table and one more page.
    fn reserve_page(&mut self) -> Result<(), NoMemory>
        ensures same { (y : ℕ) → byte_at self.new y ≡ byte_at self.old y }
        ensures spare { OnOk result (1 ≤ self.new.spare) }
    {
        self.fill_table()?;
        if self.count == u32::MAX {
            return Err(NoMemory);
        }
        self.bytes.reserve(PAGE)?;
        Ok(())
    }

    // Writes a byte into a page that is there.
    fn set(&mut self, x: u32, byte: u8)
        requires { IsOpen self.old x }
        ensures written { (y : ℕ) → byte_at self.new y ≡ (if y == x then byte else byte_at self.old y) }
        ensures table { self.new.table ≡ self.old.table }
    {
        let number = (x as usize) / PAGE;
        if let Some(page) = self.table[number] {
            self.bytes[page as usize * PAGE + (x as usize) % PAGE] = byte;
        }
    }
}

impl Memory {
    /// Sees to it that one more write needs no memory.
    pub fn reserve(&mut self) -> Result<(), NoMemory>
        ensures same { bytes_in self.new ≡ bytes_in self.old }
        ensures spare { OnOk result (1 ≤ self.new.spare) }
    {
        self.reserve_page()
    }

    /// Writes the low bytes of a value, the lowest first.
    pub fn put(&mut self, write: Write) -> Result<(), NoMemory>
        requires { IsSound write }
        ensures ok { OnOk result (bytes_in self.new ≡ written (bytes_in self.old) write) }
        ensures err { OnErr result (bytes_in self.new ≡ bytes_in self.old) }
        ensures room { 1 ≤ self.old.spare → IsOk result }
    {
        self.put_bytes(write)
    }

    /// Writes two words, the second one behind the first; both or, where memory lacks, none.
    pub fn put_pair(&mut self, address: u32, first: u32, second: u32) -> Result<(), NoMemory>
        requires multiple { address % 8 ≡ 0 }
        requires fits { address + 8 ≤ 2 ^ 32 }
        ensures ok { OnOk result (bytes_in self.new ≡ written (written (bytes_in self.old) (word_write address first)) (word_write (address + 4) second)) }
        ensures err { OnErr result (bytes_in self.new ≡ bytes_in self.old) }
    {
        self.put_words(address, first, second)
    }

    // The same, byte by byte.
    fn put_words(&mut self, x: u32, first: u32, second: u32) -> Result<(), NoMemory>
        requires multiple { x % 8 ≡ 0 }
        requires fits { x + 8 ≤ 2 ^ 32 }
        ensures ok { OnOk result ((y : ℕ) → byte_at self.new y ≡ written (written (bytes_in self.old) (word_write x first)) (word_write (x + 4) second) y) }
        ensures err { OnErr result ((y : ℕ) → byte_at self.new y ≡ byte_at self.old y) }
    {
        self.open(x)?;
        self.put_word(x, first);
        self.put_word(x + 4, second);
        Ok(())
    }

    // The same of one write.
    fn put_bytes(&mut self, write: Write) -> Result<(), NoMemory>
        requires { IsSound write }
        ensures ok { OnOk result ((y : ℕ) → byte_at self.new y ≡ written (bytes_in self.old) write y) }
        ensures err { OnErr result ((y : ℕ) → byte_at self.new y ≡ byte_at self.old y) }
        ensures room { 1 ≤ self.old.spare → IsOk result }
    {
        self.open(write.address)?;
        match write.size {
            Size::Byte => self.put_byte(write.address, write.value),
            Size::Half => self.put_half(write.address, write.value),
            Size::Word => self.put_word(write.address, write.value),
        }
        Ok(())
    }

    fn put_byte(&mut self, x: u32, value: u32)
        requires { IsOpen self.old x }
        ensures { (y : ℕ) → byte_at self.new y ≡ (if is_in x 1 y then value / 256 ^ (y - x) % 256 else byte_at self.old y) }
    {
        self.set(x, (value % 256) as u8);
    }

    fn put_half(&mut self, x: u32, value: u32)
        requires aligned { IsAligned x Size.Half }
        requires open { IsOpen self.old x }
        ensures { (y : ℕ) → byte_at self.new y ≡ (if is_in x 2 y then value / 256 ^ (y - x) % 256 else byte_at self.old y) }
    {
        self.set(x, (value % 256) as u8);
        self.set(x + 1, (value / 256 % 256) as u8);
    }

    fn put_word(&mut self, x: u32, value: u32)
        requires aligned { IsAligned x Size.Word }
        requires open { IsOpen self.old x }
        ensures written { (y : ℕ) → byte_at self.new y ≡ (if is_in x 4 y then value / 256 ^ (y - x) % 256 else byte_at self.old y) }
        ensures table { self.new.table ≡ self.old.table }
    {
        self.set(x, (value % 256) as u8);
        self.set(x + 1, (value / 256 % 256) as u8);
        self.set(x + 2, (value / 65536 % 256) as u8);
        self.set(x + 3, (value / 16777216) as u8);
    }

    // The byte at an address that a thread with these writes in its buffer sees: that of the newest
    // write of it.
    fn seen(&self, writes: &[Write], x: u32) -> u8
        ensures { result ≡ view (bytes_in self.now) writes.now x }
    {
        let mut count = writes.len();
        while count > 0 {
            count -= 1;
            match writes[count].byte(x) {
                Some(byte) => return byte,
                None => {}
            }
        }
        self.byte(x)
    }

    /// The word that a thread with these writes in its buffer loads, extended by zeros.
    pub fn load(&self, writes: &[Write], size: Size, address: u32) -> u32
        requires { IsAligned address size }
        ensures { result ≡ word_at (view (bytes_in self.now) writes.now) size address }
    {
        match size {
            Size::Byte => u32::from(self.seen(writes, address)),
            Size::Half => self.load_half(writes, address),
            Size::Word => self.load_half(writes, address)
                + 65536 * self.load_half(writes, address + 2),
        }
    }

    fn load_half(&self, writes: &[Write], address: u32) -> u32
        requires { address + 2 ≤ 2 ^ 32 }
        ensures value { result ≡ word_at (view (bytes_in self.now) writes.now) Size.Half address }
        ensures half { result < 65536 }
    {
        u32::from(self.seen(writes, address)) + 256 * u32::from(self.seen(writes, address + 1))
    }
}
