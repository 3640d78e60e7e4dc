// The class machine of a table (document 01, "The table", Machine): its first fault (refusals 4 and 7), its row
// count S, a glyph's class, and what a cell holds. `here` is the place after the machine's 8-byte header, from
// which the machine's offsets count.
#![tactic(auto, using(fields::proofs::Walk::walk_steps), unfolding(fields::specs::Faults::earlier, fields::specs::Faults::rule, crate::specs::Cells::entry_at, crate::specs::Cells::cell_at, crate::specs::Rows::entry_fault, crate::specs::Rows::cell_fault, crate::specs::Rows::unless, crate::specs::Rows::row_count, crate::specs::Machine::head_fault, crate::specs::Machine::class_fault, crate::specs::Machine::class_table_fault, crate::specs::Machine::machine_fault))]

ghost use Rattle.std.specs.Prelude.{◌≡◌, true, ℕ, ◌+◌, ◌<◌, ◌^◌, max, IfSome};
ghost use Rattle.fields.specs.Faults.{Clear};
ghost use Rattle.machine.specs.Cells.{class_count, class_table, array_offset, state_array, entry_table, class_at, entry_at, cell_at};
ghost use Rattle.machine.specs.Classes.{Near, ClassesAt};
ghost use Rattle.machine.specs.Rows.{cell_place, entry_place, entry_fault, cell_fault, row_fault, raised_by, unless, rows_of, row_count, Small, GridAt, Met};
ghost use Rattle.machine.specs.Machine.{head_fault, class_fault, classes_fault, covered, class_table_fault, machine_fault};

use fields::{Fault, Refusal};
use types::Entry;

// A class table: where it stands, its first glyph and its count of glyphs.
#[derive(Clone, Copy)]
pub struct ClassTable {
    pub at: usize,
    pub first: usize,
    pub count: usize,
}

// What the cells of every row are read by: the class count, the offset of the state array, and where the entry table stands.
#[derive(Clone, Copy)]
struct Grid {
    classes: usize,
    array: usize,
    entries: usize,
}

// The bytes at a machine's offset that are not read; past them stands `here`, its class count, from which its offsets are.
pub const UNREAD: usize = 8;

// Where the offsets of class table, state array and entry table stand, after the class count.
const CLASS_TABLE: usize = 2;

const STATE_ARRAY: usize = 4;

const ENTRY_TABLE: usize = 6;

// The class count.
pub fn class_count(table: &[u8], here: usize) -> usize
    ensures { (result ≡ class_count table.now here) × (result < 2 ^ 16) }
{
    fields::u16_at(table, here)
}

// Where the class table stands.
fn class_table_at(table: &[u8], here: usize) -> usize
    requires { here < 2 ^ 32 }
    ensures { (result ≡ class_table table.now here) × (result < here + 2 ^ 16) }
{
    here + fields::u16_at(table, here + CLASS_TABLE)
}

// The offset of the state array, from `here` as those of new rows.
fn array_offset(table: &[u8], here: usize) -> usize
    requires { here < 2 ^ 32 }
    ensures { (result ≡ array_offset table.now here) × (result < 2 ^ 16) }
{
    fields::u16_at(table, here + STATE_ARRAY)
}

// Where the state array stands.
pub fn state_array(table: &[u8], here: usize) -> usize
    requires { here < 2 ^ 32 }
    ensures { (result ≡ state_array table.now here) × (result < here + 2 ^ 16) }
{
    here + array_offset(table, here)
}

// Where the entry table stands.
pub fn entry_table(table: &[u8], here: usize) -> usize
    requires { here < 2 ^ 32 }
    ensures { (result ≡ entry_table table.now here) × (result < here + 2 ^ 16) }
{
    here + fields::u16_at(table, here + ENTRY_TABLE)
}

// Where a cell's byte stands.
fn cell_place(table: &[u8], here: usize, row: usize, class: usize) -> usize
    requires { (here < 2 ^ 32) × ((row < 2 ^ 16) × (class < 2 ^ 16)) }
    ensures { (result ≡ cell_place table.now here row class) × (result < 2 ^ 34) }
{
    let classes = class_count(table, here);
    state_array(table, here) + row * classes + class
}

// Where the entry with a stored number stands.
fn entry_place(table: &[u8], here: usize, number: usize) -> usize
    requires { (here < 2 ^ 32) × (number < 2 ^ 8) }
    ensures { (result ≡ entry_place table.now here number) × (result < 2 ^ 33) }
{
    entry_table(table, here) + 4 * number
}

// The entry with a stored number.
pub fn entry_at(table: &[u8], here: usize, number: usize) -> Entry
    requires { (here < 2 ^ 32) × ((number < 2 ^ 8) × (0 < class_count table.now here)) }
    ensures { result ≡ entry_at table.now here number }
{
    let at = entry_place(table, here, number);
    let past = fields::u16_at(table, at).saturating_sub(array_offset(table, here));
    let row = past / class_count(table, here);
    Entry {
        row: row as u16,
        flags: fields::u16_at(table, at + 2) as u16,
    }
}

// What the cell of a row and a class holds.
pub fn cell(table: &[u8], here: usize, row: usize, class: usize) -> Entry
    requires { (here < 2 ^ 32) × ((row < 2 ^ 16) × ((class < 2 ^ 16) × (0 < class_count table.now here))) }
    ensures { result ≡ cell_at table.now here row class }
{
    let at = cell_place(table, here, row, class);
    entry_at(table, here, fields::u8_at(table, at))
}

// Where a machine's class table stands, its first glyph and its count of glyphs.
pub fn class_table(table: &[u8], here: usize) -> ClassTable
    requires { here < 2 ^ 32 }
    ensures { ClassesAt table.now here result }
{
    let at = class_table_at(table, here);
    ClassTable {
        at,
        first: fields::u16_at(table, at),
        count: fields::u16_at(table, at + 2),
    }
}

// A glyph's class by a class table; that a deleted glyph is class 2 is the walk's to say.
pub fn class_by(table: &[u8], classes: ClassTable, glyph: u16) -> u8
    requires { Near classes }
    ensures { (here : ℕ) → ClassesAt table.now here classes → result ≡ class_at table.now here glyph }
{
    let first = classes.first;
    let asked = usize::from(glyph);
    if asked < first || first + classes.count <= asked {
        return 1;
    }
    fields::u8_at(table, classes.at + 4 + (asked - first)) as u8
}

// A glyph's class by the machine's class table.
pub fn class_of(table: &[u8], here: usize, glyph: u16) -> u8
    requires { here < 2 ^ 32 }
    ensures { result ≡ class_at table.now here glyph }
{
    class_by(table, class_table(table, here), glyph)
}

// The class count and the three offsets.
fn head_fault(table: &[u8], here: usize) -> Result<(), Fault>
    requires { here < 2 ^ 32 }
    ensures { result ≡ head_fault table.now here }
{
    fields::in_table(table, here, 2)?;
    let count = class_count(table, here);
    fields::ruled(4 <= count, Refusal::BadMachine, here)?;
    fields::ruled(count <= 255, Refusal::BadMachine, here)?;
    fields::in_table(table, here + CLASS_TABLE, 2)?;
    fields::in_table(table, here + STATE_ARRAY, 2)?;
    fields::in_table(table, here + ENTRY_TABLE, 2)
}

// The class byte at a position.
fn class_fault(table: &[u8], here: usize, at: usize) -> Result<(), Fault>
    ensures { result ≡ class_fault table.now here at }
{
    fields::in_table(table, at, 1)?;
    let low = fields::u8_at(table, at) < class_count(table, here);
    fields::ruled(low, Refusal::BadMachine, at)
}

// Whether `count` class bytes are seen to be without fault: most are, and a chain of fields is slower.
fn classes_are_clear(table: &[u8], here: usize, first: usize, count: usize) -> bool
    requires { (first < 2 ^ 34) × (count < 2 ^ 16) }
    ensures { result ≡ true → classes_fault table.now here count first ≡ Clear }
{
    let classes = class_count(table, here);
    let end = first + count;
    if table.len() < end {
        return false;
    }
    table[first..end]
        .iter()
        .all(|class| usize::from(*class) < classes)
}

// `count` class bytes. This stands by itself: in the middle of a direction's judging, which keeps more at hand than there are
// registers, what each byte is compared with would come from memory.
#[inline(never)]
fn classes_fault(table: &[u8], here: usize, first: usize, count: usize) -> Result<(), Fault>
    requires { (first < 2 ^ 34) × (count < 2 ^ 16) }
    ensures { result ≡ classes_fault table.now here count first }
{
    if classes_are_clear(table, here, first, count) {
        return Ok(());
    }
    for past in 0..count {
        class_fault(table, here, first + past)?;
    }
    Ok(())
}

// The class table, for the glyphs below `glyphs`.
fn class_table_fault(table: &[u8], glyphs: usize, here: usize) -> Result<(), Fault>
    requires { here < 2 ^ 32 }
    ensures { result ≡ class_table_fault table.now glyphs here }
{
    let classes = class_table(table, here);
    fields::in_table(table, classes.at, 2)?;
    fields::in_table(table, classes.at + 2, 2)?;
    let count = classes.count.min(glyphs.saturating_sub(classes.first));
    classes_fault(table, here, classes.at + 4, count)
}

// An entry: its new row, then its flags.
fn entry_fault(table: &[u8], here: usize, number: usize) -> Result<(), Fault>
    requires { (here < 2 ^ 32) × ((number < 2 ^ 8) × (0 < class_count table.now here)) }
    ensures { result ≡ entry_fault table.now here number }
{
    let at = entry_place(table, here, number);
    fields::in_table(table, at, 2)?;
    let to = fields::u16_at(table, at);
    let array = array_offset(table, here);
    fields::ruled(array <= to, Refusal::BadMachine, at)?;
    let whole = to.saturating_sub(array) % class_count(table, here) == 0;
    fields::ruled(whole, Refusal::BadMachine, at)?;
    let next = entry_at(table, here, number);
    fields::ruled(next.row <= 255, Refusal::BadMachine, at)?;
    fields::in_table(table, at + 2, 2)
}

// A cell: its byte, then its entry.
fn cell_fault(table: &[u8], here: usize, row: usize, class: usize) -> Result<(), Fault>
    requires { (here < 2 ^ 32) × ((row < 2 ^ 16) × ((class < 2 ^ 16) × (0 < class_count table.now here))) }
    ensures { result ≡ cell_fault table.now here row class }
{
    let at = cell_place(table, here, row, class);
    fields::in_table(table, at, 1)?;
    entry_fault(table, here, fields::u8_at(table, at))
}

// The first fault of a row, or the row count `s` as far as the row raises it.
#[tactic(auto, using(crate::proofs::Steps::cell_steps))]
fn row_cells(table: &[u8], here: usize, row: usize, s: usize) -> Result<usize, Fault>
    requires { (here < 2 ^ 32) × (row < 2 ^ 16) }
    ensures { result ≡ unless (row_fault table.now here row) (raised_by table.now here row s) }
{
    let classes = class_count(table, here);
    let mut rows = s;
    for class in 0..classes {
        cell_fault(table, here, row, class)?;
        let next = cell(table, here, row, class);
        rows = rows.max(usize::from(next.row) + 1);
    }
    Ok(rows)
}

// What the machine's cells are read by.
fn grid_of(table: &[u8], here: usize) -> Grid
    requires { here < 2 ^ 32 }
    ensures { GridAt table.now here result }
{
    Grid {
        classes: class_count(table, here),
        array: array_offset(table, here),
        entries: entry_table(table, here),
    }
}

// The row that the entry with a stored number leads to, where the entry is seen to be without fault.
fn clear_row(table: &[u8], grid: Grid, number: usize) -> Option<usize>
    requires { Small grid × (0 < grid.classes) × (number < 2 ^ 8) }
    ensures { IfSome result (λ next. (next < 2 ^ 8) × ((here : ℕ) → GridAt table.now here grid → (entry_fault table.now here number ≡ Clear) × (next ≡ (entry_at table.now here number).row))) }
{
    let at = grid.entries + 4 * number;
    if table.len() < at + 4 {
        return None;
    }
    let to = fields::u16_at(table, at);
    if to < grid.array {
        return None;
    }
    let past = to - grid.array;
    let row = past / grid.classes;
    if past % grid.classes != 0 || 255 < row {
        return None;
    }
    Some(row)
}

// The row count `s` as far as the cell whose byte stands at `at` raises it, where the cell is seen to be without fault. What
// entries were seen to be so is kept in `met`: they are not judged again, and the row count is above the rows that they lead to.
fn clear_cell(table: &[u8], grid: Grid, at: usize, s: usize, met: &mut [bool; 256]) -> Option<usize>
    requires { Small grid × (0 < grid.classes) }
    ensures { (here row class : ℕ) → GridAt table.now here grid → at ≡ cell_place table.now here row class → Met table.now here s met.old → IfSome result (λ count. (cell_fault table.now here row class ≡ Clear) × (count ≡ max s ((cell_at table.now here row class).row + 1))) × Met table.now here (max s ((cell_at table.now here row class).row + 1)) met.new }
{
    if table.len() <= at {
        return None;
    }
    let number = fields::u8_at(table, at);
    if met[number] {
        return Some(s);
    }
    let next = clear_row(table, grid, number)?;
    met[number] = true;
    Some(s.max(next + 1))
}

// The row count `s` as far as a row raises it, where the row is seen to be without fault.
fn clear_count(
    table: &[u8],
    here: usize,
    row: usize,
    s: usize,
    met: &mut [bool; 256],
) -> Option<usize>
    requires near { (here < 2 ^ 32) × (row < 2 ^ 16) }
    requires met_clear { Met table.now here s met.old }
    ensures { IfSome result (λ count. Ok count ≡ unless (row_fault table.now here row) (raised_by table.now here row s)) × Met table.now here (raised_by table.now here row s) met.new }
{
    let grid = grid_of(table, here);
    let first = cell_place(table, here, row, 0);
    let mut rows = s;
    for class in 0..grid.classes {
        rows = clear_cell(table, grid, first + class, rows, met)?;
    }
    Some(rows)
}

// The first fault of a row, or the row count: most rows have none, and a chain of fields is slower.
fn row_scan(
    table: &[u8],
    here: usize,
    row: usize,
    s: usize,
    met: &mut [bool; 256],
) -> Result<usize, Fault>
    requires near { (here < 2 ^ 32) × (row < 2 ^ 16) }
    requires met_clear { Met table.now here s met.old }
    ensures { (result ≡ unless (row_fault table.now here row) (raised_by table.now here row s)) × Met table.now here (raised_by table.now here row s) met.new }
{
    if let Some(count) = clear_count(table, here, row, s, met) {
        return Ok(count);
    }
    row_cells(table, here, row, s)
}

// The first fault of the rows, or the row count, with room for what entries were met.
#[tactic(auto, using(crate::proofs::Steps::row_steps))]
fn rows_from(table: &[u8], here: usize, met: &mut [bool; 256]) -> Result<usize, Fault>
    requires near { here < 2 ^ 32 }
    requires met_clear { Met table.now here 2 met.old }
    ensures { result ≡ rows_of table.now here }
{
    let mut row: usize = 0;
    let mut s: usize = 2;
    // The row count grows on the way, so this is no count up to a number that is known before.
    while row < s {
        s = row_scan(table, here, row, s, met)?;
        row += 1;
    }
    Ok(s)
}

// The first fault of the rows, or the row count.
fn rows_of(table: &[u8], here: usize) -> Result<usize, Fault>
    requires { here < 2 ^ 32 }
    ensures { result ≡ rows_of table.now here }
{
    let mut met = [false; 256];
    rows_from(table, here, &mut met)
}

// The first fault of the machine, for a font of `glyphs` glyphs.
pub fn machine_fault(table: &[u8], glyphs: usize, here: usize) -> Result<(), Fault>
    requires { here < 2 ^ 32 }
    ensures { result ≡ machine_fault table.now glyphs here }
{
    head_fault(table, here)?;
    class_table_fault(table, glyphs, here)?;
    rows_of(table, here)?;
    Ok(())
}

// The row count S; 0 where the rows are at fault.
pub fn row_count(table: &[u8], here: usize) -> usize
    requires { here < 2 ^ 32 }
    ensures { result ≡ row_count table.now here }
{
    rows_of(table, here).unwrap_or(0)
}
