// The parts of a sheet's meaning (document 01, "The sheet"), asked for one at a time. The calls named `ask_..` take any bytes: they are
// judged first, and refused with 17 where they are not a sheet. What answers them is asked of bytes that were accepted.
#![tactic(auto)]

ghost use Rattle.std.specs.Prelude.{◌≡◌, ◌%◌, ◌<◌, ◌^◌, Ok};
ghost use Rattle.sheet_ask.specs.Places.{MachineIn, CellIn, ItemOf, RecordIn, ActionIn};
ghost use Rattle.sheet_ask.specs.Parts.{CountOf, SizesOf, ClassOf, CellOf, RecordOf, ActionOf};
ghost use Rattle.meaning.specs.Ask.{glyph_count, along, sizes, class, cell, width};
ghost use Rattle.answers.specs.Says.{says_count, says_sizes, says_class, says_cell, says_record};
ghost use Rattle.sheet_ask.specs.Calls.{SheetReply, ActionReply};

use answers::Sizes;
use fields::Fault;
use sheet_items::Sort;
use types::{Direction, Entry, HeldAction, Pair};

// N.
fn glyph_count(bytes: &[u8]) -> u32
    ensures { CountOf bytes.now (Ok result) }
{
    fields::u32_at(bytes, 0) as u32
}

// Where a direction's machine stands, if section 1 has one.
fn machine_at(bytes: &[u8], direction: Direction) -> Option<usize>
    ensures { MachineIn bytes.now direction result }
{
    let at = sheet_seek::side_at(bytes, direction);
    if !sheet_sections::has_room(bytes, at, 12) {
        return None;
    }
    if fields::u32_at(bytes, at) == 0 {
        return None;
    }
    Some(at)
}

// A size fits 16 bits.
fn narrow(size: usize) -> u16
    ensures { result ≡ size % 2 ^ 16 }
{
    (size % 65536) as u16
}

// S and class count.
fn sizes_of(bytes: &[u8], direction: Direction) -> Option<Sizes>
    ensures { SizesOf bytes.now direction (Ok result) }
{
    let at = machine_at(bytes, direction)?;
    let rows = fields::u32_at(bytes, at + 4);
    let classes = fields::u32_at(bytes, at + 8);
    Some(Sizes {
        rows: narrow(rows),
        classes: narrow(classes),
    })
}

// A glyph's class.
fn class_of(bytes: &[u8], direction: Direction, glyph: u16) -> Option<u8>
    ensures { ClassOf bytes.now direction glyph (Ok result) }
{
    let glyph = usize::from(glyph);
    if fields::u32_at(bytes, 0) <= glyph {
        return None;
    }
    let at = machine_at(bytes, direction)?;
    let runs = sheet_seek::classes_at(bytes, at);
    let class = sheet_seek::value_of(bytes, runs, glyph).unwrap_or(1);
    // A class fits 8 bits.
    Some((class % 256) as u8)
}

// The cell with a number, counted row by row, of sections 3 and 4 at a position.
fn cell_in(bytes: &[u8], at: usize, cell: usize) -> Option<Entry>
    requires { cell < 2 ^ 62 }
    ensures { CellIn bytes.now at cell result }
{
    let count = sheet_sections::count_at(bytes, at, 4)?;
    let cells = at + 4 + 4 * count;
    if !sheet_sections::has_room(bytes, cells, cell + 5) {
        return None;
    }
    let number = fields::u8_at(bytes, cells + 4 + cell);
    let place = at + 4 + 4 * number;
    if !sheet_sections::has_room(bytes, place, 4) {
        return None;
    }
    Some(sheet_cells::entry_at(bytes, place))
}

// The cell of a row and a class.
fn cell_of(bytes: &[u8], direction: Direction, row: u16, class: u16) -> Option<Entry>
    ensures { CellOf bytes.now direction row class (Ok result) }
{
    let (row, class) = (usize::from(row), usize::from(class));
    let at = machine_at(bytes, direction)?;
    if fields::u32_at(bytes, at + 4) <= row {
        return None;
    }
    let classes = fields::u32_at(bytes, at + 8);
    if classes <= class {
        return None;
    }
    let entries = sheet_seek::entries_at(bytes, at);
    cell_in(bytes, entries, row * classes + class)
}

// Where the cluster, or the action list, of a glyph stands.
fn item_of(bytes: &[u8], direction: Direction, sort: Sort, glyph: u16) -> Option<usize>
    ensures { ItemOf bytes.now direction sort glyph result }
{
    let at = sheet_seek::items_at(bytes, direction, sort);
    let runs = sheet_seek::item_place(bytes, at, sort, fields::u32_at(bytes, at));
    let number = sheet_seek::value_of(bytes, runs, usize::from(glyph))?;
    Some(sheet_seek::item_place(bytes, at, sort, number))
}

// The record of a class in the cluster at a position, which stands there as in a table.
fn record_in(bytes: &[u8], at: usize, class: u8) -> Option<Pair>
    ensures { RecordIn bytes.now at class result }
{
    cluster::record_of(bytes.get(at..)?, 0, class)
}

// The width record of a glyph and a class.
fn record_of(bytes: &[u8], direction: Direction, glyph: u16, class: u8) -> Option<Pair>
    ensures { RecordOf bytes.now direction glyph class (Ok result) }
{
    let at = item_of(bytes, direction, Sort::Clusters, glyph)?;
    record_in(bytes, at, class)
}

// The action with a number in the list at a position. Its fields and its data stand there as in a table.
fn action_in(bytes: &[u8], at: usize, number: usize) -> Option<HeldAction>
    ensures { ActionIn bytes.now at number result }
{
    if fields::u32_at(bytes, at) <= number {
        return None;
    }
    let place = sheet_seek::action_place(bytes, at, number);
    Some(actions::action_at(bytes.get(place..)?, 0))
}

// The action of a glyph and a number.
fn action_of(bytes: &[u8], direction: Direction, glyph: u16, number: u16) -> Option<HeldAction>
    ensures { ActionOf bytes.now direction glyph number (Ok result) }
{
    let at = item_of(bytes, direction, Sort::Lists, glyph)?;
    action_in(bytes, at, usize::from(number))
}

// N.
pub fn ask_count(bytes: &[u8]) -> Result<u32, Fault>
    ensures { SheetReply bytes.now glyph_count (says_count result) }
{
    sheet_check::check_sheet(bytes)?;
    Ok(glyph_count(bytes))
}

// S and class count.
pub fn ask_sizes(bytes: &[u8], direction: Direction) -> Result<Option<Sizes>, Fault>
    ensures { SheetReply bytes.now (along direction sizes) (says_sizes result) }
{
    sheet_check::check_sheet(bytes)?;
    Ok(sizes_of(bytes, direction))
}

// A glyph's class.
pub fn ask_class(bytes: &[u8], direction: Direction, glyph: u16) -> Result<Option<u8>, Fault>
    ensures { SheetReply bytes.now (along direction (class glyph)) (says_class result) }
{
    sheet_check::check_sheet(bytes)?;
    Ok(class_of(bytes, direction, glyph))
}

// The cell of a row and a class.
pub fn ask_cell(
    bytes: &[u8],
    direction: Direction,
    row: u16,
    class: u16,
) -> Result<Option<Entry>, Fault>
    ensures { SheetReply bytes.now (along direction (cell row class)) (says_cell result) }
{
    sheet_check::check_sheet(bytes)?;
    Ok(cell_of(bytes, direction, row, class))
}

// The width record of a glyph and a class.
pub fn ask_record(
    bytes: &[u8],
    direction: Direction,
    glyph: u16,
    class: u8,
) -> Result<Option<Pair>, Fault>
    ensures { SheetReply bytes.now (along direction (width glyph class)) (says_record result) }
{
    sheet_check::check_sheet(bytes)?;
    Ok(record_of(bytes, direction, glyph, class))
}

// The action of a glyph and a number.
pub fn ask_action(
    bytes: &[u8],
    direction: Direction,
    glyph: u16,
    number: u16,
) -> Result<Option<HeldAction>, Fault>
    ensures { ActionReply bytes.now direction glyph number result }
{
    sheet_check::check_sheet(bytes)?;
    Ok(action_of(bytes, direction, glyph, number))
}
