// A pass over the glyphs of a lookup that have a value (document 01, "Numbers of refusal": clusters and lists go by
// glyph): a run of glyphs at a time, upward, whose values are one field or an array. Glyphs without a value cost nothing.
#![tactic(auto, unfolding(lookup::specs::Units::unit_size, crate::specs::Runs::unit_place, crate::specs::Runs::trimmed_from, crate::specs::Runs::trimmed_run, crate::specs::Runs::units_run, crate::specs::Runs::next_run))]

ghost use Rattle.std.specs.Prelude.{◌≡◌, ℕ, ◌+◌, ◌*◌, ◌≤◌, ◌<◌, ◌^◌, length};
ghost use Rattle.fields.specs.Field.{u16_at};
ghost use Rattle.lookup.specs.Units.{unit_size};
ghost use Rattle.lookup.specs.Pass.{Serves};
ghost use Rattle.lookup_runs.specs.Runs.{unit_place, no_run, trimmed_run, units_run, next_run, Follows};

use lookup::Cursor;

// The next glyphs that have a value: those from `from` on and before `until`. Their values stand at `place`, one for each
// of them in an array, else one for all. The cursor serves the glyphs after them. Where no glyph is left that has a value,
// the run is past the last glyph there can be.
#[derive(Clone, Copy)]
pub struct Run {
    pub from: usize,
    pub until: usize,
    pub place: usize,
    pub array: bool,
    pub cursor: Cursor,
}

// As many glyphs as there can be.
const ALL_GLYPHS: usize = 65536;

// No glyph is left that has a value. This is a run and no Option: a run may begin past the font's last glyph, so that callers
// look at where it begins anyway, and one that begins past every glyph needs no other answer.
fn no_run(cursor: Cursor) -> Run
    ensures { result ≡ no_run cursor }
{
    Run {
        from: ALL_GLYPHS,
        until: ALL_GLYPHS + 1,
        place: 0,
        array: false,
        cursor,
    }
}

// Format 8.
fn trimmed_run(table: &[u8], at: usize, cursor: Cursor, glyph: usize) -> Run
    requires { (at < 2 ^ 32) × ((glyph < 2 ^ 16) × ((u16_at table.now at ≡ 8) × Serves table.now at glyph cursor)) }
    ensures run { result ≡ trimmed_run table.now at cursor glyph }
    ensures follows { Follows table.now at glyph result }
{
    let first = fields::u16_in(table, at + 2);
    let count = fields::u16_in(table, at + 4);
    let from = first.max(glyph);
    if first + count <= from {
        return no_run(cursor);
    }
    Run {
        from,
        until: first + count,
        place: at + 6 + 2 * (from - first),
        array: true,
        cursor,
    }
}

// Where the value of the first glyph of the unit at `p` stands, which is inside the table.
fn unit_place(table: &[u8], format: usize, at: usize, p: usize) -> usize
    requires { (at < 2 ^ 32) × ((p < 2 ^ 40) × (p + unit_size format ≤ length table.now)) }
    ensures { (result ≡ unit_place table.now format at p) × (result < 2 ^ 41) }
{
    match format {
        2 => p + 4,
        4 => at + fields::u16_in(table, p + 4),
        _ => p + 2,
    }
}

// Formats 2, 4 and 6: the glyphs of the next unit.
fn units_run(table: &[u8], format: usize, at: usize, cursor: Cursor) -> Run
    requires near { (at < 2 ^ 32) × ((format ≡ u16_at table.now at) × (cursor.at + 6 * cursor.left < 2 ^ 40)) }
    requires with_units { (format ≡ 0 → ⊥) × ((format ≡ 8 → ⊥) × (0 < cursor.left → cursor.at + unit_size format ≤ length table.now)) }
    ensures run { result ≡ units_run table.now format at cursor }
    ensures follows { (glyph : ℕ) → glyph < 2 ^ 16 → Serves table.now at glyph cursor → Follows table.now at glyph result }
{
    let p = cursor.at;
    if cursor.left == 0 {
        return no_run(cursor);
    }
    Run {
        from: lookup::first_of(table, format, p),
        until: fields::u16_in(table, p) + 1,
        place: unit_place(table, format, at, p),
        array: format == 4,
        cursor: Cursor {
            at: p + lookup::unit_size(format),
            left: cursor.left - 1,
        },
    }
}

// The next run of the lookup at `at`, whose format was read, from `glyph` on.
pub fn next_run(table: &[u8], format: usize, at: usize, cursor: Cursor, glyph: usize) -> Run
    requires { (at < 2 ^ 32) × ((glyph < 2 ^ 16) × ((format ≡ u16_at table.now at) × Serves table.now at glyph cursor)) }
    ensures { (result ≡ next_run table.now at cursor glyph) × Follows table.now at glyph result }
{
    match format {
        0 => Run {
            from: glyph,
            until: ALL_GLYPHS,
            place: at + 2 + 2 * glyph,
            array: true,
            cursor,
        },
        8 => trimmed_run(table, at, cursor, glyph),
        _ => units_run(table, format, at, cursor),
    }
}
