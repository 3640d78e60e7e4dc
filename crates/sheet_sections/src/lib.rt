// The counted sections of a sheet (document 01, "The sheet"), read out of bytes at a position: maximal runs of glyphs of one
// class (section 2), and runs of glyphs of one cluster or one action list, each with its number (sections 6 and 8). There numbers
// come in order of first use, none is left unused; here they count from 1 on, 0 is a glyph with none, and the bytes hold a number
// less one.
#![tactic(auto)]

ghost use Rattle.std.specs.Prelude.{◌≡◌, ◌+◌, ◌*◌, ◌≤◌, ◌<◌, ◌^◌, length};
ghost use Rattle.encoding.specs.Codes.{items_at, counted};
ghost use Rattle.encoding.specs.Sections.{run_section, run_less_code};
ghost use Rattle.encoding.specs.Tests.{Says};
ghost use Rattle.sheet_sections.specs.Section.{Parses, Counts};
ghost use Rattle.sheet_sections.specs.RunSection.{run_at, MayFollow, GoodRuns, Below};
ghost use Rattle.sheet_sections.specs.Pool.{number_run_at, NumbersFrom, NumberRuns, used_after};

// Whether `size` bytes stand at a position.
pub fn has_room(bytes: &[u8], at: usize, size: usize) -> bool
    ensures { Says result (at + size ≤ length bytes.now) }
{
    at <= bytes.len() && size <= bytes.len() - at
}

// The 32-bit count at a position, where as many items of `width` bytes follow it.
pub fn count_at(bytes: &[u8], at: usize, width: usize) -> Option<usize>
    requires { width ≤ 2 ^ 16 }
    ensures { Counts width bytes.now at result }
{
    let room = bytes.len().checked_sub(at)?.checked_sub(4)?;
    let count = fields::u32_at(bytes, at);
    if room < width * count {
        return None;
    }
    Some(count)
}

// Whether a run may stand after one that ended before `from` with the value `held`: among `glyphs` elements, with a
// value below `limit` other than `skip`, and not a part of that run.
// Plain numbers: a struct of a run would be made in its two callers to be taken apart here.
pub fn follows(
    first: usize,
    last: usize,
    value: usize,
    from: usize,
    held: usize,
    glyphs: usize,
    limit: usize,
    skip: usize,
) -> bool
    ensures { Says result (MayFollow glyphs limit skip from held (record { first = first; last = last; value = value })) }
{
    from <= first
        && first <= last
        && last < glyphs
        && value < limit
        && value != skip
        && (first != from || value != held)
}

// Whether `count` runs from a position on are the maximal runs of some `glyphs` values below `limit`.
fn good_runs(
    bytes: &[u8],
    at: usize,
    count: usize,
    glyphs: usize,
    limit: usize,
    skip: usize,
) -> bool
    requires { (at + 6 * count ≤ length bytes.now) × (glyphs < 2 ^ 16) }
    ensures { Says result (GoodRuns glyphs limit skip 0 skip (items_at run_at 6 bytes.now at count)) }
{
    let mut from: usize = 0;
    let mut held = skip;
    for i in 0..count {
        let place = at + 6 * i;
        let first = fields::u16_at(bytes, place);
        let last = fields::u16_at(bytes, place + 2);
        let value = fields::u16_at(bytes, place + 4);
        if !follows(first, last, value, from, held, glyphs, limit, skip) {
            return false;
        }
        from = last + 1;
        held = value;
    }
    true
}

// The section of the maximal runs of `glyphs` values below `limit`, of values other than `skip`: where it ends, if it is there.
pub fn read_runs(bytes: &[u8], at: usize, glyphs: usize, limit: usize, skip: usize) -> Option<usize>
    requires { (glyphs < 2 ^ 16) × (limit ≤ 2 ^ 16) × (skip < limit) }
    ensures { Parses (run_section skip) (Below glyphs limit) bytes.now at result }
{
    let count = count_at(bytes, at, 6)?;
    if !good_runs(bytes, at + 4, count, glyphs, limit, skip) {
        return None;
    }
    Some(at + 4 + 6 * count)
}

// How many numbers are used after one more, `used` being the next new number before it.
pub fn used_after(number: usize, used: usize) -> usize
    requires { used < 2 ^ 32 }
    ensures { result ≡ used_after number used }
{
    if number == used { used + 1 } else { used }
}

// Whether `count` runs from a position on give the numbers of `items` items to `glyphs` glyphs.
fn good_numbers(bytes: &[u8], at: usize, count: usize, glyphs: usize, items: usize) -> bool
    requires { (at + 6 * count ≤ length bytes.now) × (glyphs < 2 ^ 16) × (items < 2 ^ 16) }
    ensures { Says result (NumbersFrom glyphs items 0 0 1 (items_at number_run_at 6 bytes.now at count)) }
{
    let mut from: usize = 0;
    let mut held: usize = 0;
    let mut used: usize = 1;
    for i in 0..count {
        let place = at + 6 * i;
        let first = fields::u16_at(bytes, place);
        let last = fields::u16_at(bytes, place + 2);
        let number = fields::u16_at(bytes, place + 4) + 1;
        // A number is one of those used before, or the next new one.
        if !follows(first, last, number, from, held, glyphs, used + 1, 0) {
            return false;
        }
        from = last + 1;
        held = number;
        used = used_after(number, used);
    }
    used == items + 1
}

// Section 6 or 8: the runs that give the numbers of `items` items to `glyphs` glyphs; where it ends, if it is there.
pub fn read_number_runs(bytes: &[u8], at: usize, glyphs: usize, items: usize) -> Option<usize>
    requires { (glyphs < 2 ^ 16) × (items < 2 ^ 16) }
    ensures { Parses (counted run_less_code) (NumberRuns glyphs items) bytes.now at result }
{
    let count = count_at(bytes, at, 6)?;
    if !good_numbers(bytes, at + 4, count, glyphs, items) {
        return None;
    }
    Some(at + 4 + 6 * count)
}
