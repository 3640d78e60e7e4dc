// The class walk of a line (document 01, "The class walk"), by the machine in a table's bytes.
#![tactic(auto)]

ghost use Rattle.std.specs.Prelude.{◌≡◌, cond, ℕ, ◌+◌, ◌*◌, ◌<◌, ◌^◌, length, get_or, replicate, IfSome};
ghost use Rattle.std.specs.Option.{option_or};
ghost use Rattle.fields.specs.Field.{u16_at};
ghost use Rattle.machine.specs.Classes.{Near, ClassesAt};
ghost use Rattle.units.specs.Flags.{sets_mark, stays, mark_class, current_class};
ghost use Rattle.class_walk.specs.Walk.{give, column_at, current, walked};
ghost use Rattle.class_walk.specs.Line.{machine_at, line_of, line_column, line_columns, HandedOut, row_place, SoundMachine, Columns};

use machine::ClassTable;

// An entry as the table has it: where its new row stands, and its flags.
#[derive(Clone, Copy)]
struct Met {
    pub base: usize,
    pub flags: u16,
}

// A machine has at most so many rows.
const ROWS: usize = 256;

// The machine's class of a glyph: 2 for a deleted one.
fn line_column(table: &[u8], classes: ClassTable, glyph: u16) -> u8
    requires { Near classes }
    ensures { (here : ℕ) → ClassesAt table.now here classes → result ≡ line_column table.now here glyph }
{
    if glyph == 0xFFFF {
        return 2;
    }
    machine::class_by(table, classes, glyph)
}

// Where the row stands in which a line's walk begins: the first row where the line starts the text, else the second.
fn first_base(table: &[u8], here: usize, starts: bool) -> usize
    requires { here < 2 ^ 32 }
    ensures { (result ≡ row_place table.now here (cond starts 0 1)) × (result < 2 ^ 34) }
{
    let array = machine::state_array(table, here);
    if starts {
        return array;
    }
    array + machine::class_count(table, here)
}

// The entry that the cell at a position names; entries stand from `entries` on.
fn entry_by(table: &[u8], here: usize, entries: usize, at: usize) -> Met
    requires { (here < 2 ^ 32) × (entries < 2 ^ 33) }
    ensures row { (result.base ≡ here + u16_at table.now (entries + 4 * get_or table.now at 0)) × (result.base < 2 ^ 34) }
    ensures flags { result.flags ≡ u16_at table.now (entries + 4 * get_or table.now at 0 + 2) }
{
    let entry = fields::u32_at(table, entries + 4 * fields::u8_at(table, at));
    Met {
        base: here + entry / 65536,
        flags: (entry % 65536) as u16,
    }
}

// The machine's class at a place, the end position after the last glyph among them.
fn column_at(table: &[u8], classes: ClassTable, glyphs: &[u16], place: usize, ends: bool) -> usize
    requires { Near classes }
    ensures { (here : ℕ) → ClassesAt table.now here classes → result ≡ column_at (line_columns table.now here glyphs.now) ends place }
{
    if place < glyphs.len() {
        return usize::from(line_column(table, classes, glyphs[place]));
    }
    if ends { 0 } else { 3 }
}

// The current glyph, by its place, in a line of so many: none at the end position.
fn current(glyphs: usize, place: usize) -> Option<usize>
    ensures value { result ≡ current glyphs place }
    ensures within { IfSome result (λ at. at < glyphs) }
{
    if place < glyphs { Some(place) } else { None }
}

// The marked glyph after an entry with these flags, by the current glyph.
fn mark_after(flags: u16, glyph: Option<usize>, mark: Option<usize>) -> Option<usize>
    ensures { result ≡ cond (sets_mark flags) (option_or glyph mark) mark }
{
    if units::sets_mark(flags) {
        glyph.or(mark)
    } else {
        mark
    }
}

// Gives a class to a glyph, unless the class is 0 or there is no glyph.
fn give_class(classes: &mut [u8], glyph: Option<usize>, class: u8)
    requires { IfSome glyph (λ at. at < length classes.old) }
    ensures { classes.new ≡ give glyph class classes.old }
{
    let Some(place) = glyph else {
        return;
    };
    if class != 0 {
        classes[place] = class;
    }
}

// Gives the mark class to the marked glyph, then the current class to the current glyph.
fn give_classes(classes: &mut [u8], mark: Option<usize>, glyph: Option<usize>, flags: u16)
    requires { IfSome mark (λ at. at < length classes.old) × IfSome glyph (λ at. at < length classes.old) }
    ensures { classes.new ≡ give glyph (current_class flags) (give mark (mark_class flags) classes.old) }
{
    give_class(classes, mark, units::mark_class(flags));
    give_class(classes, glyph, units::current_class(flags));
}

// The walk of a line by the machine, which stores the glyphs' classes as it gives them: the count of the entries that it takes, or
// nothing where it never ends. A row is known by where it stands. Once 256 entries have stayed at one place, the row that comes
// next was met there before, since there are no more rows, so the walk never leaves the place.
pub fn walk_line(
    table: &[u8],
    here: usize,
    glyphs: &[u16],
    starts: bool,
    ends: bool,
    classes: &mut [u8],
) -> Option<u32>
    requires sound_machine { SoundMachine table.now here × Columns table.now here (line_columns table.now here glyphs.now) }
    requires zeros { classes.old ≡ replicate (length glyphs.now) 0 }
    ensures { HandedOut (walked (machine_at table.now here) (line_of (line_columns table.now here glyphs.now) starts ends)) result classes.new }
{
    let columns = machine::class_table(table, here);
    let entries = machine::entry_table(table, here);
    let mut base = first_base(table, here, starts);
    let mut place: usize = 0;
    let mut column = column_at(table, columns, glyphs, 0, ends);
    let mut mark: Option<usize> = None;
    let mut spent: usize = 0;
    let mut count: u32 = 0;
    // No count of turns: what is spent begins anew at each place.
    while spent < ROWS {
        let met = entry_by(table, here, entries, base + column);
        let glyph = current(glyphs.len(), place);
        let marked = mark_after(met.flags, glyph, mark);
        give_classes(classes, mark, glyph, met.flags);
        base = met.base;
        mark = marked;
        count += 1;
        if units::stays_put(met.flags) {
            spent += 1;
            continue;
        }
        if glyph.is_none() {
            return Some(count);
        }
        place += 1;
        column = column_at(table, columns, glyphs, place, ends);
        spent = 0;
    }
    None
}
