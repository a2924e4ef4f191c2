//! The cells of memory in pages: a table with an entry for each page number, and the pages one
//! after another. A look-up takes the same time whatever the memory holds.
ghost use Rattle.std.specs.Prelude.{◌≡◌, ℕ, ◌+◌, ◌*◌, ◌/◌, ◌^◌, ◌-◌, ◌%◌, ◌<◌, ◌≤◌, Some, None, length, IsOk, OnOk, IsTrue, ◌↔◌, if◌then◌else◌, ◌==◌, slice_index_or, nat_lt, nat_le, ◌&&◌};
ghost use Rattle.tso_memory.specs.Kept.{written_at, IsOpen};
ghost use Rattle.tso_words.specs.declared.value.Cell.TheVariants.{Blank};
ghost use Rattle.tso_memory.specs.Memory.{IsSound, is_in};

use std::alloc::Global;
use std::marker::Model;
use tso_words::{Cell, NoMemory};

/// The cells of a page.
const PAGE: usize = 16_384;

/// The pages of all addresses.
const TABLE: usize = 262_144;

/// Cells that were written, by their addresses.
#[derive(Drop)]
pub struct Pages {
    /// The place of a page among the pages, by its number.
    table: Vec<Option<u32>>,
    /// The pages, one after another.
    cells: Vec<Option<Cell>>,
    /// How many pages there are.
    count: u32,
}

impl Model for Pages {
    ghost use Rattle.std.specs.Vec.{vec_len, vec_capacity};
    ghost use Rattle.tso_memory.specs.Kept.{KeptPages, ArePages, page_room};

    ghost Value = { KeptPages };

    ghost view = { λ p. record { table = p.table.items; cells = p.cells.items; spare = page_room (vec_len p.cells) (vec_capacity p.cells) p.count (vec_len p.table) } };

    ghost invariant = { λ p. ArePages p.table.items p.cells.items p.count };
}

impl Pages {
    /// No page.
    pub fn new(alloc: Global) -> Pages
        ensures { (x : ℕ) → written_at result x ≡ None }
    {
        Pages {
            table: Vec::new(alloc),
            cells: Vec::new(alloc),
            count: 0,
        }
    }

    /// The cell that was written at the address, if one was.
    pub fn at(&self, x: u32) -> Option<Cell>
        ensures { result ≡ written_at self.now x }
    {
        let number = (x as usize) / PAGE;
        if number >= self.table.len() {
            return None;
        }
        match self.table[number] {
            None => None,
            Some(page) => self.cells[page as usize * PAGE + (x as usize) % PAGE],
        }
    }

    /// Whether the page of the address is there.
    fn is_open(&self, x: u32) -> bool
        ensures { IsTrue result ↔ IsOpen self.now x }
    {
        let number = (x as usize) / PAGE;
        number < self.table.len() && self.table[number].is_some()
    }

    /// Gives the table an entry for each page number.
    fn fill_table(&mut self) -> Result<(), NoMemory>
        ensures entries { (i : ℕ) → slice_index_or self.new.table i None ≡ slice_index_or self.old.table i None }
        ensures cells { self.new.cells ≡ self.old.cells }
        ensures whole { OnOk result (262144 ≤ length self.new.table) }
        ensures room { 1 ≤ self.old.spare → IsOk result }
        ensures spare { self.old.spare ≤ self.new.spare }
    {
        if self.table.len() < TABLE {
            self.table.resize(TABLE, None)?;
        }
        Ok(())
    }

    /// Makes the page of the address, where there is none.
    pub fn open(&mut self, x: u32) -> Result<(), NoMemory>
        ensures same { (y : ℕ) → written_at self.new y ≡ written_at self.old y }
        ensures opened { OnOk result (IsOpen self.new x) }
        ensures room { 1 ≤ self.old.spare → IsOk result }
    {
        if self.is_open(x) {
            return Ok(());
        }
        self.fill_table()?;
        if self.count == u32::MAX {
            return Err(NoMemory);
        }
        self.cells.resize(self.cells.len() + PAGE, None)?;
        self.table[(x as usize) / PAGE] = Some(self.count);
        self.count += 1;
        Ok(())
    }

    /// Sees to it that one more page needs no memory.
    pub fn reserve(&mut self) -> Result<(), NoMemory>
        ensures same { (y : ℕ) → written_at self.new y ≡ written_at self.old y }
        ensures spare { OnOk result (1 ≤ self.new.spare) }
    {
        self.fill_table()?;
        if self.count == u32::MAX {
            return Err(NoMemory);
        }
        self.cells.reserve(PAGE)?;
        Ok(())
    }

    /// Writes a cell into a page that is there.
    pub fn set(&mut self, x: u32, cell: Cell)
        requires { IsOpen self.old x }
        ensures written { (y : ℕ) → written_at self.new y ≡ (if y == x then Some cell else written_at self.old y) }
        ensures table { self.new.table ≡ self.old.table }
    {
        let number = (x as usize) / PAGE;
        if let Some(page) = self.table[number] {
            self.cells[page as usize * PAGE + (x as usize) % PAGE] = Some(cell);
        }
    }

    /// Writes cells one after another into a page that is there.
    pub fn set_all(&mut self, x: u32, cells: &[Cell])
        requires open { IsOpen self.old x }
        requires in_page { x % 16384 + length cells.now ≤ 16384 }
        requires fits { x + length cells.now ≤ 2 ^ 32 }
        ensures { (y : ℕ) → written_at self.new y ≡ (if is_in x (length cells.now) y then Some (slice_index_or cells.now (y - x) Blank) else written_at self.old y) }
    {
        for k in 0..cells.len() {
            self.set(x + k as u32, cells[k]);
        }
    }

    /// Forgets what was written into the cells of a range.
    pub fn forget(&mut self, base: u32, size: u32)
        requires { IsSound base size }
        ensures { (y : ℕ) → written_at self.new y ≡ (if is_in base size y then None else written_at self.old y) }
    {
        let base = base as usize;
        let end = base + size as usize;
        for number in base / PAGE..(end - 1) / PAGE + 1 {
            self.forget_in(number, base, end);
        }
    }

    /// Forgets what was written into the cells of a range that lie in one page.
    fn forget_in(&mut self, number: usize, base: usize, end: usize)
        requires room { end ≤ 2 ^ 32 }
        requires met { (base < number * 16384 + 16384) × (number * 16384 < end) × (base < end) }
        ensures { (y : ℕ) → written_at self.new y ≡ (if (y / 16384 == number) && (nat_le base y && nat_lt y end) then None else written_at self.old y) }
    {
        if number >= self.table.len() {
            return;
        }
        if let Some(page) = self.table[number] {
            let first = number * PAGE;
            let start = page as usize * PAGE;
            let low = base.max(first) - first;
            let high = end.min(first + PAGE) - first;
            blank(&mut self.cells, start + low, start + high);
        }
    }
}

/// Empties the cells from `from` up to `to`.
fn blank(cells: &mut [Option<Cell>], from: usize, to: usize)
    requires { (from ≤ to) × (to ≤ length cells.old) }
    ensures { (k : ℕ) → slice_index_or cells.new k None ≡ (if nat_le from k && nat_lt k to then None else slice_index_or cells.old k None) }
{
    for k in from..to {
        cells[k] = None;
    }
}
