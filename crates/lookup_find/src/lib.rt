// A find in a lookup by halves (document 02, 9/14), and how many units it looked at. The lookup is one without a fault, so
// that its units rise and all lie inside the table.
#![tactic(auto, unfolding(lookup::specs::Units::unit_size, lookup::specs::Units::first_of, lookup::specs::Find::unit_value, lookup::specs::Find::trimmed_value, lookup::specs::Find::value_from, lookup::specs::Find::value_of, crate::specs::Halves::closes, crate::specs::Halves::open_of, crate::specs::Halves::head_at))]

ghost use Rattle.std.specs.Prelude.{◌≡◌, ◌+◌, ◌*◌, ◌≤◌, ◌<◌, ◌^◌, length};
ghost use Rattle.fields.specs.Faults.{Clear};
ghost use Rattle.fields.specs.Field.{u16_at};
ghost use Rattle.lookup.specs.Units.{unit_size, units_fault};
ghost use Rattle.lookup.specs.Find.{unit_value, units_value, value_of};
ghost use Rattle.lookup_find.specs.Halves.{unit_of, closes, open_of, head_at, Searchable, looks_in, looks_of};

// The head of a lookup, which is read once for many finds: its format, and how many units a find can look at.
#[derive(Clone, Copy)]
pub struct Head {
    pub format: usize,
    pub units: usize,
}

// What a find gives: the value, and how many units it looked at.
#[derive(Clone, Copy)]
pub struct Looked {
    pub found: Option<u16>,
    pub looks: usize,
}

// A deleted glyph, and what a closing unit begins and ends at.
const DELETED: usize = 65535;

// The place of the unit with number `k`, of units from `p` on.
fn unit_of(format: usize, p: usize, k: usize) -> usize
    requires { p + 6 * k < 2 ^ 41 }
    ensures { (result ≡ unit_of format p k) × (result ≤ p + 6 * k) }
{
    if format == 6 {
        return p + 4 * k;
    }
    p + 6 * k
}

// Whether the unit at `p` is the closing one.
fn is_closing(table: &[u8], format: usize, p: usize) -> bool
    requires { p < 2 ^ 41 }
    ensures { result ≡ closes table.now format p }
{
    let closes = fields::u16_at(table, p) == DELETED;
    if format == 6 {
        return closes;
    }
    closes && fields::u16_at(table, p + 2) == DELETED
}

// How many of `units` counted units from `start` on a find can look at.
fn open_of(table: &[u8], format: usize, start: usize, units: usize) -> usize
    requires { start + 6 * units < 2 ^ 40 }
    ensures { result ≡ open_of table.now format start units }
{
    let before = units.saturating_sub(1);
    if is_closing(table, format, unit_of(format, start, before)) {
        return before;
    }
    units
}

// The head of the lookup at `at`.
pub fn head_at(table: &[u8], at: usize) -> Head
    requires { at < 2 ^ 32 }
    ensures { result ≡ head_at table.now at }
{
    let format = fields::u16_at(table, at);
    let units = lookup::unit_count(table, format, at);
    Head {
        format,
        units: open_of(table, format, at + 12, units),
    }
}

// What the unit at `p`, in the lookup at `at`, gives a glyph that it covers.
fn unit_value(table: &[u8], format: usize, at: usize, glyph: usize, p: usize) -> u16
    requires { (at < 2 ^ 32) × ((glyph < 2 ^ 16) × (p + unit_size format ≤ length table.now)) }
    ensures { result ≡ unit_value table.now format at glyph p }
{
    if format == 2 {
        return fields::u16_in(table, p + 4) as u16;
    }
    if format == 4 {
        let offset = fields::u16_in(table, p + 4);
        let index = glyph.saturating_sub(fields::u16_in(table, p + 2));
        return fields::u16_at(table, at + offset + 2 * index) as u16;
    }
    fields::u16_in(table, p + 2) as u16
}

// Finds a glyph among `count` units from `start` on, by halves.
fn halved(
    table: &[u8],
    format: usize,
    at: usize,
    glyph: usize,
    count: usize,
    start: usize,
) -> Looked
    requires near { (at < 2 ^ 32) × ((glyph < 2 ^ 16) × (start + 6 * count < 2 ^ 40)) }
    requires clear { units_fault table.now format count start 0 ≡ Clear }
    ensures { (result.looks ≡ looks_in table.now format glyph count start count) × (result.found ≡ units_value table.now format at glyph count start) }
{
    let mut p = start;
    let mut left = count;
    let mut looks: usize = 0;
    // A search by halves: what is left shrinks from either side, so no index counts.
    while 0 < left {
        let half = (left - 1) / 2;
        let middle = unit_of(format, p, half);
        looks += 1;
        if glyph < lookup::first_of(table, format, middle) {
            left = half;
            continue;
        }
        if glyph <= fields::u16_in(table, middle) {
            let value = unit_value(table, format, at, glyph, middle);
            return Looked {
                found: Some(value),
                looks,
            };
        }
        p = unit_of(format, middle, 1);
        left = left - 1 - half;
    }
    Looked { found: None, looks }
}

// The value at a glyph in the lookup at `at`, of a format with units, and the looks that it took.
fn find_units(table: &[u8], glyphs: usize, at: usize, head: Head, glyph: u16) -> Looked
    requires searchable { Searchable table.now glyphs at head }
    requires with_units { (head.format ≡ 0 → ⊥) × (head.format ≡ 8 → ⊥) }
    ensures { (result.looks ≡ looks_of table.now at glyph) × (result.found ≡ value_of table.now glyphs at glyph) }
{
    let number = glyph as usize;
    if number == DELETED {
        return Looked {
            found: None,
            looks: 0,
        };
    }
    let looked = halved(table, head.format, at, number, head.units, at + 12);
    if glyphs <= number {
        return Looked {
            found: None,
            looks: looked.looks,
        };
    }
    looked
}

// The value at a glyph in the lookup at `at`, of format 2, which fonts have most: the search is compiled for it alone.
pub fn find_range(table: &[u8], glyphs: usize, at: usize, head: Head, glyph: u16) -> Option<u16>
    requires { Searchable table.now glyphs at head × (head.format ≡ 2) }
    ensures { result ≡ value_of table.now glyphs at glyph }
{
    let number = glyph as usize;
    if glyphs <= number {
        return None;
    }
    let looked = halved(table, 2, at, number, head.units, at + 12);
    looked.found
}

// The value at a glyph in format 0.
fn array_value(table: &[u8], glyphs: usize, at: usize, glyph: usize) -> Option<u16>
    requires { (at < 2 ^ 32) × ((glyph < 2 ^ 16) × (u16_at table.now at ≡ 0)) }
    ensures { result ≡ value_of table.now glyphs at glyph }
{
    if glyphs <= glyph {
        return None;
    }
    Some(fields::u16_at(table, at + 2 + 2 * glyph) as u16)
}

// The value at a glyph in format 8.
fn trimmed_value(table: &[u8], glyphs: usize, at: usize, glyph: usize) -> Option<u16>
    requires { (at < 2 ^ 32) × ((glyph < 2 ^ 16) × (u16_at table.now at ≡ 8)) }
    ensures { result ≡ value_of table.now glyphs at glyph }
{
    if glyphs <= glyph {
        return None;
    }
    let first = fields::u16_at(table, at + 2);
    let count = fields::u16_at(table, at + 4);
    if glyph < first || first + count <= glyph {
        return None;
    }
    Some(fields::u16_at(table, at + 6 + 2 * (glyph - first)) as u16)
}

// The value at a glyph in the lookup at `at`, for a font of `glyphs` glyphs, and the looks that it took.
pub fn find_by(table: &[u8], glyphs: usize, at: usize, head: Head, glyph: u16) -> Looked
    requires { Searchable table.now glyphs at head }
    ensures { (result.looks ≡ looks_of table.now at glyph) × (result.found ≡ value_of table.now glyphs at glyph) }
{
    match head.format {
        0 => Looked {
            found: array_value(table, glyphs, at, glyph as usize),
            looks: 0,
        },
        8 => Looked {
            found: trimmed_value(table, glyphs, at, glyph as usize),
            looks: 0,
        },
        _ => find_units(table, glyphs, at, head, glyph),
    }
}
