// A lookup from glyphs to 16-bit values, formats 0, 2, 4, 6 and 8 (document 01, "The table"): its first fault, and a pass
// over glyphs upward that looks at each unit once. One glyph's value is found in crate `lookup_find`.
#![tactic(auto, using(fields::proofs::Walk::walk_steps, crate::proofs::Laws::lookup_steps), unfolding(fields::specs::Faults::earlier, fields::specs::Faults::rule, crate::specs::Units::unit_size, crate::specs::Units::first_of, crate::specs::Units::range_fault, crate::specs::Units::single_fault, crate::specs::Units::unit_fault, crate::specs::Units::unit_array_fault, crate::specs::Lookup::counted_fault, crate::specs::Lookup::segments_fault, crate::specs::Lookup::trimmed_fault, crate::specs::Lookup::format_fault, crate::specs::Lookup::lookup_fault, crate::specs::Find::has_units, crate::specs::Find::unit_count))]

ghost use Rattle.std.specs.Prelude.{◌≡◌, ℕ, ◌+◌, ◌*◌, ◌≤◌, ◌<◌, ◌^◌, length, IfSome};
ghost use Rattle.fields.specs.Faults.{Clear};
ghost use Rattle.fields.specs.Field.{u16_at};
ghost use Rattle.lookup.specs.Units.{unit_size, first_of, range_fault, single_fault, unit_fault, units_fault, array_fault, unit_array_fault, arrays_fault, glyphs_below};
ghost use Rattle.lookup.specs.Lookup.{counted_fault, segments_fault, trimmed_fault, lookup_fault};
ghost use Rattle.lookup.specs.Find.{has_units, unit_count};
ghost use Rattle.lookup.specs.Pass.{Serves};

use fields::{Fault, Refusal};

// Where a pass over glyphs upward stands: the next unit, and how many counted units are left from it on.
#[derive(Clone, Copy)]
pub struct Cursor {
    pub at: usize,
    pub left: usize,
}

// How many glyphs from `first` on, up to but not with `end`, are below `glyphs`.
fn glyphs_below(glyphs: usize, first: usize, end: usize) -> usize
    ensures { result ≡ glyphs_below glyphs first end }
{
    end.min(glyphs).saturating_sub(first)
}

// The bytes of a unit.
pub fn unit_size(format: usize) -> usize
    ensures { (result ≡ unit_size format) × (result ≤ 6) }
{
    if format == 6 { 4 } else { 6 }
}

// The first glyph of a unit that stands inside the table.
pub fn first_of(table: &[u8], format: usize, p: usize) -> usize
    requires { p + unit_size format ≤ length table.now }
    ensures { (result ≡ first_of table.now format p) × (result < 2 ^ 16) }
{
    if format == 6 {
        return fields::u16_in(table, p);
    }
    fields::u16_in(table, p + 2)
}

// The glyph after the last of a unit of formats 2 and 4, where the unit is seen to be without fault.
fn clear_range(table: &[u8], p: usize, least: usize) -> Option<usize>
    requires { p < 2 ^ 40 }
    ensures { IfSome result (λ next. (range_fault table.now p least ≡ Clear) × (next ≡ u16_at table.now p + 1)) }
{
    if table.len() < p + 6 {
        return None;
    }
    let last = fields::u16_at(table, p);
    let first = fields::u16_at(table, p + 2);
    if first < least || last < first {
        return None;
    }
    Some(last + 1)
}

// A unit of formats 2 and 4, whose first glyph has to be `least` or more.
fn range_fault(table: &[u8], p: usize, least: usize) -> Result<(), Fault>
    requires { p < 2 ^ 40 }
    ensures { result ≡ range_fault table.now p least }
{
    fields::in_table(table, p, 2)?;
    fields::in_table(table, p + 2, 2)?;
    let last = fields::u16_at(table, p);
    let first = fields::u16_at(table, p + 2);
    fields::ruled(least <= first, Refusal::BadLookup, p + 2)?;
    fields::ruled(first <= last, Refusal::BadLookup, p + 2)?;
    fields::in_table(table, p + 4, 2)
}

// The glyph after that of a unit of format 6, where the unit is seen to be without fault.
fn clear_single(table: &[u8], p: usize, least: usize) -> Option<usize>
    requires { p < 2 ^ 40 }
    ensures { IfSome result (λ next. (single_fault table.now p least ≡ Clear) × (next ≡ u16_at table.now p + 1)) }
{
    if table.len() < p + 4 {
        return None;
    }
    let glyph = fields::u16_at(table, p);
    if glyph < least {
        return None;
    }
    Some(glyph + 1)
}

// A unit of format 6.
fn single_fault(table: &[u8], p: usize, least: usize) -> Result<(), Fault>
    requires { p < 2 ^ 40 }
    ensures { result ≡ single_fault table.now p least }
{
    fields::in_table(table, p, 2)?;
    fields::ruled(least <= fields::u16_at(table, p), Refusal::BadLookup, p)?;
    fields::in_table(table, p + 2, 2)
}

// The glyph after the last of a unit, where the unit is seen to be without fault.
fn clear_unit(table: &[u8], format: usize, p: usize, least: usize) -> Option<usize>
    requires { p < 2 ^ 40 }
    ensures { IfSome result (λ next. (unit_fault table.now format p least ≡ Clear) × (next ≡ u16_at table.now p + 1)) }
{
    if format == 6 {
        return clear_single(table, p, least);
    }
    clear_range(table, p, least)
}

fn unit_fault(table: &[u8], format: usize, p: usize, least: usize) -> Result<(), Fault>
    requires { p < 2 ^ 40 }
    ensures { result ≡ unit_fault table.now format p least }
{
    if format == 6 {
        return single_fault(table, p, least);
    }
    range_fault(table, p, least)
}

// `count` units from `start` on, each past the last glyph of the one before, the first at `from` or past it.
fn each_fault(
    table: &[u8],
    format: usize,
    count: usize,
    start: usize,
    from: usize,
) -> Result<(), Fault>
    requires { start + 6 * count < 2 ^ 40 }
    ensures { result ≡ units_fault table.now format count start from }
{
    let size = unit_size(format);
    let mut least = from;
    for unit in 0..count {
        let p = start + size * unit;
        unit_fault(table, format, p, least)?;
        least = fields::u16_at(table, p) + 1;
    }
    Ok(())
}

// `count` units from `start` on: most have no fault, and a chain of fields is slower, so it is built from the first unit on that is
// not seen to be without fault.
fn units_fault(table: &[u8], format: usize, count: usize, start: usize) -> Result<(), Fault>
    requires { start + 6 * count < 2 ^ 40 }
    ensures { result ≡ units_fault table.now format count start 0 }
{
    let size = unit_size(format);
    let mut p = start;
    let mut least: usize = 0;
    for unit in 0..count {
        let Some(next) = clear_unit(table, format, p, least) else {
            return each_fault(table, format, count - unit, p, least);
        };
        least = next;
        p += size;
    }
    Ok(())
}

// unit_size, nUnits and the counted units of formats 2, 4 and 6.
fn counted_fault(table: &[u8], format: usize, at: usize) -> Result<(), Fault>
    requires { at < 2 ^ 32 }
    ensures { result ≡ counted_fault table.now format at }
{
    fields::in_table(table, at + 2, 2)?;
    let sized = fields::u16_at(table, at + 2) == unit_size(format);
    fields::ruled(sized, Refusal::BadLookup, at + 2)?;
    fields::in_table(table, at + 4, 2)?;
    units_fault(table, format, fields::u16_at(table, at + 4), at + 12)
}

// An array of values needs no walk: the first value that is not inside stands past as many as there is room for.
fn array_fault(table: &[u8], count: usize, start: usize) -> Result<(), Fault>
    requires { start < 2 ^ 40 }
    ensures { result ≡ array_fault table.now count start }
{
    let room = table.len().saturating_sub(start) / 2;
    fields::ruled(count <= room, Refusal::Outside, start + 2 * room)
}

// The array of format 4's unit at `p`, in the lookup at `at`.
fn unit_array_fault(table: &[u8], glyphs: usize, at: usize, p: usize) -> Result<(), Fault>
    requires { (at < 2 ^ 32) × (p < 2 ^ 40) }
    ensures { result ≡ unit_array_fault table.now glyphs at p }
{
    let last = fields::u16_at(table, p);
    let first = fields::u16_at(table, p + 2);
    let offset = fields::u16_at(table, p + 4);
    array_fault(table, glyphs_below(glyphs, first, last + 1), at + offset)
}

// The arrays of `count` units of format 4 from `start` on.
fn arrays_fault(
    table: &[u8],
    glyphs: usize,
    at: usize,
    count: usize,
    start: usize,
) -> Result<(), Fault>
    requires { (at < 2 ^ 32) × (start + 6 * count < 2 ^ 40) }
    ensures { result ≡ arrays_fault table.now glyphs at count start }
{
    for unit in 0..count {
        unit_array_fault(table, glyphs, at, start + 6 * unit)?;
    }
    Ok(())
}

// Format 4.
fn segments_fault(table: &[u8], glyphs: usize, at: usize) -> Result<(), Fault>
    requires { at < 2 ^ 32 }
    ensures { result ≡ segments_fault table.now glyphs at }
{
    counted_fault(table, 4, at)?;
    arrays_fault(table, glyphs, at, fields::u16_at(table, at + 4), at + 12)
}

// Format 8.
fn trimmed_fault(table: &[u8], glyphs: usize, at: usize) -> Result<(), Fault>
    requires { at < 2 ^ 32 }
    ensures { result ≡ trimmed_fault table.now glyphs at }
{
    fields::in_table(table, at + 2, 2)?;
    fields::in_table(table, at + 4, 2)?;
    let first = fields::u16_at(table, at + 2);
    let count = fields::u16_at(table, at + 4);
    array_fault(table, glyphs_below(glyphs, first, first + count), at + 6)
}

// The first fault of the lookup at `at`, for a font of `glyphs` glyphs. A format is the number that its field has, which may be
// any: definitions go by it, here and above.
pub fn lookup_fault(table: &[u8], glyphs: usize, at: usize) -> Result<(), Fault>
    requires { at < 2 ^ 32 }
    ensures { result ≡ lookup_fault table.now glyphs at }
{
    fields::in_table(table, at, 2)?;
    match fields::u16_at(table, at) {
        0 => array_fault(table, glyphs, at + 2),
        2 => counted_fault(table, 2, at),
        4 => segments_fault(table, glyphs, at),
        6 => counted_fault(table, 6, at),
        8 => trimmed_fault(table, glyphs, at),
        _ => Err(Fault {
            refusal: Refusal::BadLookup,
            at,
        }),
    }
}

// Formats 2, 4 and 6 have units.
fn has_units(format: usize) -> bool
    ensures { result ≡ has_units format }
{
    format == 2 || format == 4 || format == 6
}

// How many units the lookup at `at`, whose format was read, counts.
pub fn unit_count(table: &[u8], format: usize, at: usize) -> usize
    requires { (at < 2 ^ 32) × (format ≡ u16_at table.now at) }
    ensures { (result ≡ unit_count table.now at) × (result < 2 ^ 16) }
{
    if has_units(format) {
        return fields::u16_at(table, at + 4);
    }
    0
}

// A pass over the lookup at `at` begins: at its first counted unit.
pub fn begin(table: &[u8], at: usize) -> Cursor
    requires { at < 2 ^ 32 }
    ensures { (result ≡ record { at = at + 12; left = unit_count table.now at }) × ((glyphs : ℕ) → lookup_fault table.now glyphs at ≡ Clear → Serves table.now at 0 result) }
{
    let format = fields::u16_at(table, at);
    Cursor {
        at: at + 12,
        left: unit_count(table, format, at),
    }
}
