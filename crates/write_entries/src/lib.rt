// Sections 3 and 4 of a sheet for the machine of a table (document 01, "The sheet"): an array of 256 numbers, cleared
// first, maps stored entry numbers to sheet numbers while rows are walked. Entries are distinct by row number and
// flags, not by stored number.
#![tactic(auto)]

ghost use Rattle.std.specs.Prelude.{◌≡◌, ◌+◌, ◌*◌, ◌≤◌, ◌<◌, ◌^◌, length, get_or, replicate};
ghost use Rattle.std.proofs.lemmas.List.Edits.{sets};
ghost use Rattle.encoding.specs.Codes.{many};
ghost use Rattle.encoding.specs.Distinct.{index};
ghost use Rattle.meaning.specs.Discrete.{Entry-discrete};
ghost use Rattle.meaning.specs.Sheet.{entry_code};
ghost use Rattle.encoding.specs.Tests.{Says};
ghost use Rattle.machine.specs.Cells.{class_count, state_array, entry_at};
ghost use Rattle.write_entries.specs.Entries.{stored_at, stored_entries, entry_bytes, NumberedEntries, cell_bytes, Covers};

use types::Entry;

// The cells of a machine: its table, the place from which its offsets count, where its state array stands, and how many
// cells there are.
#[derive(Clone, Copy)]
struct Cells<'a> {
    table: &'a [u8],
    here: usize,
    array: usize,
    count: usize,
    ghost near: { (here < 2 ^ 32) × ((array < 2 ^ 33) × (count < 2 ^ 32)) },
    ghost classes: { 0 < class_count table.now here },
    ghost array_is: { array ≡ state_array table.now here },
}

impl Cells<'_> {
    // The stored number of a cell.
    fn stored_at(&self, i: usize) -> u8
        requires { i < self.now.count }
        ensures { result ≡ get_or (stored_at self.now.table.now self.now.here self.now.count) i 0 }
    {
        fields::u8_at(self.table, self.array + i) as u8
    }

    // The entry with a stored number.
    fn entry_at(&self, stored: u8) -> Entry
        ensures { result ≡ entry_at self.now.table.now self.now.here stored }
    {
        machine::entry_at(self.table, self.here, usize::from(stored))
    }

    // The index of the first of these stored numbers that names the entry of `stored`, or how many there are.
    fn index_of(&self, firsts: &[u8], stored: u8) -> usize
        ensures { result ≡ index Entry-discrete (entry_at self.now.table.now self.now.here stored) (stored_entries self.now.table.now self.now.here firsts.now) }
    {
        let entry = self.entry_at(stored);
        for (i, first) in firsts.iter().enumerate() {
            if same_entry(self.entry_at(*first), entry) {
                return i;
            }
        }
        firsts.len()
    }

    // Numbers the entries of the cells, and answers how many distinct ones there are.
    fn number_entries(&self, firsts: &mut [u8; 256], sheet: &mut [Option<u8>; 256]) -> usize
        requires { sheet.old ≡ replicate 256 None }
        ensures { NumberedEntries self.now.table.now self.now.here self.now.count firsts.new sheet.new result }
    {
        let mut k: usize = 0;
        for i in 0..self.count {
            let stored = self.stored_at(i);
            let at = usize::from(stored);
            if sheet[at].is_some() {
                continue;
            }
            let n = self.index_of(&firsts[..k], stored);
            sheet[at] = Some(n as u8);
            if n < k {
                continue;
            }
            firsts[k] = stored;
            k += 1;
        }
        k
    }

    // Stores the entries of these stored numbers.
    fn put_entries(&self, firsts: &[u8], out: &mut [u8], to: usize)
        requires { to + 4 * length firsts.now < 2 ^ 60 }
        ensures { out.new ≡ sets out.old to (many entry_code (stored_entries self.now.table.now self.now.here firsts.now)) }
    {
        for (i, stored) in firsts.iter().enumerate() {
            put_entry(out, to + 4 * i, self.entry_at(*stored));
        }
    }

    // Stores the number of each cell, one byte each.
    fn put_cells(&self, sheet: &[Option<u8>; 256], out: &mut [u8], to: usize)
        requires near { to < 2 ^ 60 }
        requires covers { Covers sheet.now (stored_at self.now.table.now self.now.here self.now.count) self.now.count }
        ensures { out.new ≡ sets out.old to (cell_bytes sheet.now (stored_at self.now.table.now self.now.here self.now.count)) }
    {
        for i in 0..self.count {
            let number = sheet[usize::from(self.stored_at(i))];
            fields::put_u8(out, to + i, number.unwrap());
        }
    }

    // Stores sections 3 and 4, from the numbering of the entries, and answers where they end.
    fn put_numbered(
        &self,
        firsts: &[u8],
        sheet: &[Option<u8>; 256],
        out: &mut [u8],
        to: usize,
    ) -> usize
        requires near { to < 2 ^ 40 }
        requires numbered { NumberedEntries self.now.table.now self.now.here self.now.count firsts.now sheet.now (length firsts.now) }
        ensures { (result ≡ to + length (entry_bytes self.now.table.now self.now.here self.now.count)) × (result ≤ to + 1032 + self.now.count)
            × (out.new ≡ sets out.old to (entry_bytes self.now.table.now self.now.here self.now.count)) }
    {
        let k = firsts.len();
        fields::put_u32(out, to, k as u32);
        self.put_entries(firsts, out, to + 4);
        let at = to + 4 + 4 * k;
        fields::put_u32(out, at, self.count as u32);
        self.put_cells(sheet, out, at + 4);
        at + 4 + self.count
    }
}

fn same_entry(a: Entry, b: Entry) -> bool
    ensures { Says result (a ≡ b) }
{
    a == b
}

// An entry's flags, put together again from their parts.
fn together(flags: u16) -> u16
    ensures { result ≡ flags }
{
    let sets_mark = units::sets_mark(flags);
    let stays = units::stays_put(flags);
    let mark = units::mark_class(flags);
    let current = units::current_class(flags);
    units::entry_flags(sets_mark, stays, mark, current)
}

// Stores an entry.
fn put_entry(out: &mut [u8], to: usize, entry: Entry)
    requires { to < 2 ^ 62 }
    ensures { out.new ≡ sets out.old to (entry_code entry) }
{
    let flags = together(entry.flags);
    fields::put_u16(out, to, entry.row);
    fields::put_u16(out, to + 2, flags);
}

// Stores sections 3 and 4, for `count` cells, and answers where they end.
pub fn put_entry_sections(
    table: &[u8],
    here: usize,
    count: usize,
    out: &mut [u8],
    to: usize,
) -> usize
    requires { (here < 2 ^ 32) × ((count < 2 ^ 32) × ((to < 2 ^ 40) × (0 < class_count table.now here))) }
    ensures { (result ≡ to + length (entry_bytes table.now here count)) × (result ≤ to + 1032 + count)
        × (out.new ≡ sets out.old to (entry_bytes table.now here count)) }
{
    let array = machine::state_array(table, here);
    let cells = Cells {
        table,
        here,
        array,
        count,
    };
    let mut firsts = [0u8; 256];
    let mut sheet = [None; 256];
    let k = cells.number_entries(&mut firsts, &mut sheet);
    cells.put_numbered(&firsts[..k], &sheet, out, to)
}
