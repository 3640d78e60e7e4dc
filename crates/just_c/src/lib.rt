// The library for programs in C and other languages: each call with numbers, slices (a pointer, then a length) and
// structs of C layout. A refusal is its number, 0 for none, and its offset. A direction is 0 for horizontal, any other number for
// vertical. specs/InC.antt says what each struct holds.
#![tactic(auto)]

ghost use Rattle.std.specs.Prelude.{◌≡◌};
ghost use Rattle.types.specs.InC.{direction_in};
ghost use Rattle.lookup_targets.specs.InC.{kind_in};
ghost use Rattle.meaning.specs.Ask.{ask, glyph_count, along, sizes, class, cell, width, action};
ghost use Rattle.answers.specs.Says.{judged_by, unless_bad, says_count, says_sizes, says_class, says_cell, says_record, no_action};
ghost use Rattle.table.specs.Table.{table_fault};
ghost use Rattle.table.specs.Means.{meaning_of};
ghost use Rattle.table_ask.specs.Components.{components_of};
ghost use Rattle.table_find.specs.Values.{value_asked, units_asked};
ghost use Rattle.table_find.specs.ValuesInC.{value_in, units_out};
ghost use Rattle.font_open.specs.Opened.{font_opened};
ghost use Rattle.font_open.specs.OpenedInC.{font_in};
ghost use Rattle.sheet_write.specs.Written.{says_length, sheet_length, written};
ghost use Rattle.just_c.specs.InC.{checked_in, count_in, sizes_in, class_in, cell_in, record_in, no_pair, action_in, action_out, stretch_in};
ghost use Rattle.just_c.specs.SheetInC.{SheetNumber, Given};
ghost use Rattle.just_c.specs.WriterInC.{length_in, OutcomeInC, outcome_in};
ghost use Rattle.diff_call.specs.Calls.{differences_counted, differences_listed};
ghost use Rattle.just_c.specs.DiffInC.{ListedInC, listed_in};

use answers::Sizes;
use fields::Fault;
use font_open::JustFont;
use lookup_targets::Kind;
use table_find::{JustUnits, JustValue};
use types::{Direction, Entry, Flags, HeldAction, Limits, Pair};

#[repr(C)]
#[derive(Clone, Copy)]
pub struct JustChecked {
    pub refusal: u32,
    pub offset: u64,
}

#[repr(C)]
#[derive(Clone, Copy)]
pub struct JustCount {
    pub refusal: u32,
    pub offset: u64,
    pub count: u32,
}

#[repr(C)]
#[derive(Clone, Copy)]
pub struct JustSizes {
    pub refusal: u32,
    pub offset: u64,
    pub found: bool,
    pub rows: u16,
    pub classes: u16,
}

#[repr(C)]
#[derive(Clone, Copy)]
pub struct JustClass {
    pub refusal: u32,
    pub offset: u64,
    pub found: bool,
    pub class: u8,
}

#[repr(C)]
#[derive(Clone, Copy)]
pub struct JustCell {
    pub refusal: u32,
    pub offset: u64,
    pub found: bool,
    pub entry: Entry,
}

#[repr(C)]
#[derive(Clone, Copy)]
pub struct JustRecord {
    pub refusal: u32,
    pub offset: u64,
    pub found: bool,
    pub pair: Pair,
}

#[repr(C)]
#[derive(Clone, Copy)]
pub struct JustAction {
    pub refusal: u32,
    pub offset: u64,
    pub found: bool,
    pub action: HeldAction,
}

#[repr(C)]
#[derive(Clone, Copy)]
pub struct JustStretch {
    pub offset: usize,
    pub length: usize,
}

#[repr(C)]
#[derive(Clone, Copy)]
pub struct JustLength {
    pub refusal: u32,
    pub offset: u64,
    pub length: u32,
}

// The answers as structs of C layout.

impl From<Result<(), Fault>> for JustChecked {
    ghost from_gives = { λ answer reply. reply ≡ checked_in (judged_by answer) };

    fn from(answer: Result<(), Fault>) -> JustChecked {
        match answer {
            Ok(()) => JustChecked {
                refusal: 0,
                offset: 0,
            },
            Err(fault) => JustChecked {
                refusal: u32::from(fault.refusal),
                offset: fault.at as u64,
            },
        }
    }
}

impl From<Result<u32, Fault>> for JustCount {
    ghost from_gives = { λ answer reply. reply ≡ count_in (says_count answer) };

    fn from(answer: Result<u32, Fault>) -> JustCount {
        match answer {
            Ok(count) => JustCount {
                refusal: 0,
                offset: 0,
                count,
            },
            Err(fault) => JustCount {
                refusal: u32::from(fault.refusal),
                offset: fault.at as u64,
                count: 0,
            },
        }
    }
}

impl From<Result<Option<Sizes>, Fault>> for JustSizes {
    ghost from_gives = { λ answer reply. reply ≡ sizes_in (says_sizes answer) };

    fn from(answer: Result<Option<Sizes>, Fault>) -> JustSizes {
        match answer {
            Ok(Some(sizes)) => JustSizes {
                refusal: 0,
                offset: 0,
                found: true,
                rows: sizes.rows,
                classes: sizes.classes,
            },
            Ok(None) => JustSizes {
                refusal: 0,
                offset: 0,
                found: false,
                rows: 0,
                classes: 0,
            },
            Err(fault) => JustSizes {
                refusal: u32::from(fault.refusal),
                offset: fault.at as u64,
                found: false,
                rows: 0,
                classes: 0,
            },
        }
    }
}

impl From<Result<Option<u8>, Fault>> for JustClass {
    ghost from_gives = { λ answer reply. reply ≡ class_in (says_class answer) };

    fn from(answer: Result<Option<u8>, Fault>) -> JustClass {
        match answer {
            Ok(Some(class)) => JustClass {
                refusal: 0,
                offset: 0,
                found: true,
                class,
            },
            Ok(None) => JustClass {
                refusal: 0,
                offset: 0,
                found: false,
                class: 0,
            },
            Err(fault) => JustClass {
                refusal: u32::from(fault.refusal),
                offset: fault.at as u64,
                found: false,
                class: 0,
            },
        }
    }
}

impl From<Result<Option<Entry>, Fault>> for JustCell {
    ghost from_gives = { λ answer reply. reply ≡ cell_in (says_cell answer) };

    fn from(answer: Result<Option<Entry>, Fault>) -> JustCell {
        match answer {
            Ok(Some(entry)) => JustCell {
                refusal: 0,
                offset: 0,
                found: true,
                entry,
            },
            Ok(None) => JustCell {
                refusal: 0,
                offset: 0,
                found: false,
                entry: Entry { row: 0, flags: 0 },
            },
            Err(fault) => JustCell {
                refusal: u32::from(fault.refusal),
                offset: fault.at as u64,
                found: false,
                entry: Entry { row: 0, flags: 0 },
            },
        }
    }
}

// A width record of zeros, where there is none.
fn no_pair() -> Pair
    ensures { result ≡ no_pair }
{
    Pair {
        class: 0,
        before: Limits { grow: 0, shrink: 0 },
        after: Limits { grow: 0, shrink: 0 },
        flags: Flags { grow: 0, shrink: 0 },
    }
}

impl From<Result<Option<Pair>, Fault>> for JustRecord {
    ghost from_gives = { λ answer reply. reply ≡ record_in (says_record answer) };

    fn from(answer: Result<Option<Pair>, Fault>) -> JustRecord {
        match answer {
            Ok(Some(pair)) => JustRecord {
                refusal: 0,
                offset: 0,
                found: true,
                pair,
            },
            Ok(None) => JustRecord {
                refusal: 0,
                offset: 0,
                found: false,
                pair: no_pair(),
            },
            Err(fault) => JustRecord {
                refusal: u32::from(fault.refusal),
                offset: fault.at as u64,
                found: false,
                pair: no_pair(),
            },
        }
    }
}

// An action of zeros, where there is none.
fn no_action() -> HeldAction
    ensures { result ≡ no_action }
{
    HeldAction {
        class: 0,
        ty: 0,
        size: 0,
        bytes: [0u8; 76],
    }
}

impl From<Result<Option<HeldAction>, Fault>> for JustAction {
    ghost from_gives = { λ answer reply. reply ≡ action_out answer };

    fn from(answer: Result<Option<HeldAction>, Fault>) -> JustAction {
        match answer {
            Ok(Some(action)) => JustAction {
                refusal: 0,
                offset: 0,
                found: true,
                action,
            },
            Ok(None) => JustAction {
                refusal: 0,
                offset: 0,
                found: false,
                action: no_action(),
            },
            Err(fault) => JustAction {
                refusal: u32::from(fault.refusal),
                offset: fault.at as u64,
                found: false,
                action: no_action(),
            },
        }
    }
}

impl From<Result<u32, Fault>> for JustLength {
    ghost from_gives = { λ answer reply. reply ≡ length_in (says_length answer) };

    fn from(answer: Result<u32, Fault>) -> JustLength {
        match answer {
            Ok(length) => JustLength {
                refusal: 0,
                offset: 0,
                length,
            },
            Err(fault) => JustLength {
                refusal: u32::from(fault.refusal),
                offset: fault.at as u64,
                length: 0,
            },
        }
    }
}

// Whether a table is accepted with a glyph count, or the number and the offset of its first fault.
#[unsafe(no_mangle)]
pub extern "C" fn just_check_table(table: &[u8], glyphs: u32) -> JustChecked
    ensures { result ≡ checked_in (judged_by (table_fault table.now glyphs)) }
{
    JustChecked::from(table::table_fault(table, glyphs))
}

// The glyph count of an accepted table.
#[unsafe(no_mangle)]
pub extern "C" fn just_table_count(table: &[u8], glyphs: u32) -> JustCount
    ensures { result ≡ count_in (unless_bad (table_fault table.now glyphs) (ask (meaning_of table.now glyphs) glyph_count)) }
{
    JustCount::from(table_ask::ask_count(table, glyphs))
}

// The row count and the class count of a direction's machine.
#[unsafe(no_mangle)]
pub extern "C" fn just_table_sizes(table: &[u8], glyphs: u32, direction: u32) -> JustSizes
    ensures { result ≡ sizes_in (unless_bad (table_fault table.now glyphs) (ask (meaning_of table.now glyphs) (along (direction_in direction) sizes))) }
{
    JustSizes::from(table_ask::ask_sizes(table, glyphs, Direction::from(direction)))
}

// The class of a glyph.
#[unsafe(no_mangle)]
pub extern "C" fn just_table_class(
    table: &[u8],
    glyphs: u32,
    direction: u32,
    glyph: u16,
) -> JustClass
    ensures { result ≡ class_in (unless_bad (table_fault table.now glyphs) (ask (meaning_of table.now glyphs) (along (direction_in direction) (class glyph)))) }
{
    JustClass::from(table_ask::ask_class(table, glyphs, Direction::from(direction), glyph))
}

// What the cell of a row and a class holds.
#[unsafe(no_mangle)]
pub extern "C" fn just_table_cell(
    table: &[u8],
    glyphs: u32,
    direction: u32,
    row: u16,
    class: u16,
) -> JustCell
    ensures { result ≡ cell_in (unless_bad (table_fault table.now glyphs) (ask (meaning_of table.now glyphs) (along (direction_in direction) (cell row class)))) }
{
    JustCell::from(table_ask::ask_cell(table, glyphs, Direction::from(direction), row, class))
}

// The width record of a glyph and a class.
#[unsafe(no_mangle)]
pub extern "C" fn just_table_record(
    table: &[u8],
    glyphs: u32,
    direction: u32,
    glyph: u16,
    class: u8,
) -> JustRecord
    ensures { result ≡ record_in (unless_bad (table_fault table.now glyphs) (ask (meaning_of table.now glyphs) (along (direction_in direction) (width glyph class)))) }
{
    JustRecord::from(table_ask::ask_record(table, glyphs, Direction::from(direction), glyph, class))
}

// The value of a glyph in a lookup, and how many units a find of it looks at; 0 is the width lookup, any other number the
// action lookup.
#[unsafe(no_mangle)]
pub extern "C" fn just_table_value(
    table: &[u8],
    glyphs: u32,
    direction: u32,
    lookup: u32,
    glyph: u16,
) -> JustValue
    ensures { result ≡ value_in (value_asked table.now glyphs (direction_in direction) (kind_in lookup) glyph) }
{
    let along = Direction::from(direction);
    let kind = Kind::from(lookup);
    JustValue::from(table_find::ask_value(table, glyphs, along, kind, glyph))
}

// How many units a lookup has for a find, and the bound on a find's looks there.
#[unsafe(no_mangle)]
pub extern "C" fn just_table_units(
    table: &[u8],
    glyphs: u32,
    direction: u32,
    lookup: u32,
) -> JustUnits
    ensures { result ≡ units_out (units_asked table.now glyphs (direction_in direction) (kind_in lookup)) }
{
    let along = Direction::from(direction);
    let kind = Kind::from(lookup);
    JustUnits::from(table_find::ask_units(table, glyphs, along, kind))
}

// The action of a glyph and a number.
#[unsafe(no_mangle)]
pub extern "C" fn just_table_action(
    table: &[u8],
    glyphs: u32,
    direction: u32,
    glyph: u16,
    number: u16,
) -> JustAction
    ensures { result ≡ action_in (unless_bad (table_fault table.now glyphs) (ask (meaning_of table.now glyphs) (along (direction_in direction) (action glyph number)))) }
{
    JustAction::from(table_ask::ask_action(
        table,
        glyphs,
        Direction::from(direction),
        glyph,
        number,
    ))
}

// Where a component list stands in the table: the offset of its first glyph, and its length in bytes, 0 where there
// is none.
#[unsafe(no_mangle)]
pub extern "C" fn just_table_components(
    table: &[u8],
    glyphs: u32,
    direction: u32,
    glyph: u16,
    number: u16,
) -> JustStretch
    ensures { result ≡ stretch_in (components_of table.now glyphs (direction_in direction) glyph number) }
{
    let stretch = table_ask::component_stretch(
        table,
        glyphs,
        Direction::from(direction),
        glyph,
        number,
    );
    JustStretch {
        offset: stretch.from,
        length: stretch.to.saturating_sub(stretch.from),
    }
}

// Where the 'just' table of a whole font stands, its length and the font's glyph count: every call for a table takes that
// stretch of the font with that count.
#[unsafe(no_mangle)]
pub extern "C" fn just_open_font(font: &[u8]) -> JustFont
    ensures { result ≡ font_in (font_opened font.now) }
{
    JustFont::from(font_open::open_font(font))
}

// How long the sheet of a table is, in bytes: as much room as writing it needs.
#[unsafe(no_mangle)]
pub extern "C" fn just_table_sheet_length(table: &[u8], glyphs: u32) -> JustLength
    ensures { result ≡ length_in (sheet_length table.now glyphs) }
{
    JustLength::from(sheet_write::sheet_length(table, glyphs))
}

// Writes the sheet of a table into the first bytes of the room; a refusal changes nothing.
#[unsafe(no_mangle)]
pub extern "C" fn just_table_write_sheet(table: &[u8], glyphs: u32, room: &mut [u8]) -> JustLength
    ensures { record { answer = result; room = room.new } ≡ outcome_in (written table.now glyphs room.old) }
{
    JustLength::from(sheet_write::write_sheet(table, glyphs, room))
}

// Whether bytes are a sheet, or 17.
#[unsafe(no_mangle)]
pub extern "C" fn just_check_sheet(sheet: &[u8]) -> JustChecked
    ensures { SheetNumber sheet.now result }
{
    JustChecked::from(sheet_check::check_sheet(sheet))
}

// The glyph count of a sheet.
#[unsafe(no_mangle)]
pub extern "C" fn just_sheet_count(sheet: &[u8]) -> JustCount
    ensures { Given sheet.now glyph_count count_in result }
{
    JustCount::from(sheet_ask::ask_count(sheet))
}

// The row count and the class count of a direction's machine.
#[unsafe(no_mangle)]
pub extern "C" fn just_sheet_sizes(sheet: &[u8], direction: u32) -> JustSizes
    ensures { Given sheet.now (along (direction_in direction) sizes) sizes_in result }
{
    JustSizes::from(sheet_ask::ask_sizes(sheet, Direction::from(direction)))
}

// The class of a glyph.
#[unsafe(no_mangle)]
pub extern "C" fn just_sheet_class(sheet: &[u8], direction: u32, glyph: u16) -> JustClass
    ensures { Given sheet.now (along (direction_in direction) (class glyph)) class_in result }
{
    JustClass::from(sheet_ask::ask_class(sheet, Direction::from(direction), glyph))
}

// What the cell of a row and a class holds.
#[unsafe(no_mangle)]
pub extern "C" fn just_sheet_cell(sheet: &[u8], direction: u32, row: u16, class: u16) -> JustCell
    ensures { Given sheet.now (along (direction_in direction) (cell row class)) cell_in result }
{
    JustCell::from(sheet_ask::ask_cell(sheet, Direction::from(direction), row, class))
}

// The width record of a glyph and a class.
#[unsafe(no_mangle)]
pub extern "C" fn just_sheet_record(
    sheet: &[u8],
    direction: u32,
    glyph: u16,
    class: u8,
) -> JustRecord
    ensures { Given sheet.now (along (direction_in direction) (width glyph class)) record_in result }
{
    JustRecord::from(sheet_ask::ask_record(sheet, Direction::from(direction), glyph, class))
}

// The action of a glyph and a number.
#[unsafe(no_mangle)]
pub extern "C" fn just_sheet_action(
    sheet: &[u8],
    direction: u32,
    glyph: u16,
    number: u16,
) -> JustAction
    ensures { Given sheet.now (along (direction_in direction) (action glyph number)) action_in result }
{
    JustAction::from(sheet_ask::ask_action(sheet, Direction::from(direction), glyph, number))
}

// How many differences two tables have that are read with one glyph count.
#[unsafe(no_mangle)]
pub extern "C" fn just_difference_count<'a>(
    one: &'a [u8],
    other: &'a [u8],
    glyphs: u32,
) -> JustCount
    ensures { result ≡ count_in (differences_counted one.now other.now glyphs) }
{
    JustCount::from(diff_call::difference_count(one, other, glyphs))
}

// Lists the differences of two tables, five numbers each, and answers how many; or answers a refusal and changes nothing.
#[unsafe(no_mangle)]
pub extern "C" fn just_differences<'a>(
    one: &'a [u8],
    other: &'a [u8],
    glyphs: u32,
    list: &mut [u16],
) -> JustCount
    ensures { record { answer = result; room = list.new } ≡ listed_in (differences_listed one.now other.now glyphs list.old) }
{
    JustCount::from(diff_call::differences(one, other, glyphs, list))
}
