// Sections 3 and 4 of a direction of a sheet (document 01, "The sheet"): the distinct entries of the machine's cells,
// and each cell as its entry's number. Read out of bytes at a position.
#![tactic(auto)]

ghost use Rattle.std.specs.Prelude.{◌≡◌, ◌+◌, ◌*◌, ◌≤◌, ◌<◌, ◌^◌, length};
ghost use Rattle.encoding.specs.Codes.{counted, items_at};
ghost use Rattle.encoding.specs.Distinct.{index, InOrder};
ghost use Rattle.encoding.specs.Sections.{byte, numbered};
ghost use Rattle.encoding.specs.Tests.{Says};
ghost use Rattle.sheet_sections.specs.Section.{Parses};
ghost use Rattle.meaning.specs.Discrete.{Entry-discrete};
ghost use Rattle.meaning.specs.Sheet.{entry_code};
ghost use Rattle.sheet_cells.specs.Cells.{entry_at, NewEntry, OkEntries, OkNumbers, OkCells};

use types::Entry;

// The entry at a position.
pub fn entry_at(bytes: &[u8], at: usize) -> Entry
    requires { at + 4 ≤ length bytes.now }
    ensures { result ≡ entry_at bytes.now at }
{
    Entry {
        row: fields::u16_at(bytes, at) as u16,
        flags: fields::u16_at(bytes, at + 2) as u16,
    }
}

// Whether an entry is one of `count` from a position on.
fn has_entry(bytes: &[u8], at: usize, count: usize, entry: Entry) -> bool
    requires { at + 4 * count ≤ length bytes.now }
    ensures { Says result (index Entry-discrete entry (items_at entry_at 4 bytes.now at count) < count) }
{
    (0..count).any(|i| entry_at(bytes, at + 4 * i) == entry)
}

// Whether entry i from a position on leads below `rows`, and is none of those before it.
fn is_new(bytes: &[u8], at: usize, i: usize, rows: usize) -> bool
    requires { at + 4 * (i + 1) ≤ length bytes.now }
    ensures { Says result (NewEntry rows bytes.now at i) }
{
    let entry = entry_at(bytes, at + 4 * i);
    usize::from(entry.row) < rows && !has_entry(bytes, at, i, entry)
}

// Whether `count` entries from a position on lead below `rows`, and no two are equal.
fn good_entries(bytes: &[u8], at: usize, count: usize, rows: usize) -> bool
    requires { (at + 4 * count ≤ length bytes.now) × (count ≤ 256) }
    ensures { Says result (OkEntries rows (items_at entry_at 4 bytes.now at count)) }
{
    (0..count).all(|i| is_new(bytes, at, i, rows))
}

// Whether numbers are those below `count`, all of them, in order of first use.
fn in_order(numbers: &[u8], count: usize) -> bool
    requires { length numbers.now < 2 ^ 32 }
    ensures { Says result (InOrder count 0 numbers.now) }
{
    let mut used: usize = 0;
    for number in numbers {
        let number = usize::from(*number);
        if used < number {
            return false;
        }
        used = sheet_sections::used_after(number, used);
    }
    used == count
}

// Section 3: distinct entries that lead below `rows`.
fn read_entries(bytes: &[u8], at: usize, rows: usize) -> Option<usize>
    requires { rows ≤ 256 }
    ensures { Parses (counted entry_code) (OkEntries rows) bytes.now at result }
{
    let count = sheet_sections::count_at(bytes, at, 4)?;
    if 256 < count {
        return None;
    }
    if !good_entries(bytes, at + 4, count, rows) {
        return None;
    }
    Some(at + 4 + 4 * count)
}

// Section 4: a byte for each of `total` cells, the number of one of `count` entries.
fn read_numbers(bytes: &[u8], at: usize, total: usize, count: usize) -> Option<usize>
    requires { total < 2 ^ 32 }
    ensures { Parses (counted byte) (OkNumbers total count) bytes.now at result }
{
    if sheet_sections::count_at(bytes, at, 1)? != total {
        return None;
    }
    let end = at + 4 + total;
    if !in_order(&bytes[at + 4..end], count) {
        return None;
    }
    Some(end)
}

// Sections 3 and 4: `total` cells that lead below `rows`; where they end, if they are there.
pub fn read_cells(bytes: &[u8], at: usize, rows: usize, total: usize) -> Option<usize>
    requires { (rows ≤ 256) × (total < 2 ^ 32) }
    ensures { Parses (numbered Entry-discrete entry_code) (OkCells rows total) bytes.now at result }
{
    let end = read_entries(bytes, at, rows)?;
    read_numbers(bytes, end, total, fields::u32_at(bytes, at))
}
