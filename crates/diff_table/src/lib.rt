// What differs between two accepted tables (document 02, 6/14), direction by direction, stored into lent numbers; and how many
// numbers that takes.
#![tactic(auto)]

ghost use Rattle.std.specs.Prelude.{◌≡◌, ◌+◌, ◌≤◌, ◌<◌, ◌^◌, length};
ghost use Rattle.fields.specs.Faults.{Clear};
ghost use Rattle.table.specs.Table.{table_fault};
ghost use Rattle.table.specs.Means.{meaning_of};
ghost use Rattle.diff_rule.specs.Differences.{differences};
ghost use Rattle.diff_rule.specs.Order.{all_numbers, Stores};
ghost use Rattle.diff_glyphs.specs.Glyphs.{Comparable};
ghost use Rattle.diff_table.specs.Sides.{GoodSides, sides_of, sources_of, machines_in, glyphs_in, sides_in};

use diff_stretches::Sources;
use lookup_targets::Kind;
use types::Direction;

// A direction of two tables that are read with one glyph count, and its offset in each, 0 where it is absent, as the
// header has it.
#[derive(Clone, Copy)]
struct DirectionPair {
    direction: Direction,
    glyphs: usize,
    first: usize,
    second: usize,
}

// A direction of two accepted tables.
fn sides_of<'a>(
    one: &'a [u8],
    other: &'a [u8],
    glyphs: usize,
    direction: Direction,
) -> DirectionPair
    requires { (table_fault one.now glyphs ≡ Clear) × (table_fault other.now glyphs ≡ Clear) }
    ensures { (result ≡ sides_of one.now other.now glyphs direction) × GoodSides one.now other.now result }
{
    DirectionPair {
        direction,
        glyphs,
        first: table::direction_at(one, direction),
        second: table::direction_at(other, direction),
    }
}

// Where the glyphs' clusters, or their lists, come from.
fn sources_of<'a>(one: &'a [u8], other: &'a [u8], sides: DirectionPair, kind: Kind) -> Sources
    requires { GoodSides one.now other.now sides }
    ensures { (result ≡ sources_of one.now other.now sides kind) × Comparable one.now other.now result }
{
    Sources {
        kind,
        glyphs: sides.glyphs,
        first: table::source_at(one, sides.first, kind),
        second: table::source_at(other, sides.second, kind),
    }
}

// Stores their differences, and answers where they end.
fn put_kind<'a>(
    one: &'a [u8],
    other: &'a [u8],
    sides: DirectionPair,
    kind: Kind,
    list: &mut [u16],
    to: usize,
) -> usize
    requires { GoodSides one.now other.now sides × (to < 2 ^ 56) }
    ensures { Stores list.old list.new to result (glyphs_in one.now other.now sides kind) × (result ≤ to + 2 ^ 26) }
{
    let direction = sides.direction;
    let sources = sources_of(one, other, sides, kind);
    diff_glyphs::put_items(one, other, sources, direction, list, to)
}

// Stores the differences of the machines, and answers where they end.
fn put_side_machines<'a>(
    one: &'a [u8],
    other: &'a [u8],
    sides: DirectionPair,
    list: &mut [u16],
    to: usize,
) -> usize
    requires { GoodSides one.now other.now sides × (to < 2 ^ 55) }
    ensures { Stores list.old list.new to result (machines_in one.now other.now sides) × (result ≤ to + 2 ^ 37) }
{
    let direction = sides.direction;
    let first = table::machine_place(one, sides.first);
    let second = table::machine_place(other, sides.second);
    diff_machine::put_machines(one, other, first, second, sides.glyphs, direction, list, to)
}

// Stores the differences of one direction, and answers where they end.
fn put_side<'a>(
    one: &'a [u8],
    other: &'a [u8],
    sides: DirectionPair,
    list: &mut [u16],
    to: usize,
) -> usize
    requires { GoodSides one.now other.now sides × (to < 2 ^ 54) }
    ensures { Stores list.old list.new to result (sides_in one.now other.now sides) × (result ≤ to + 2 ^ 40) }
{
    let machines = put_side_machines(one, other, sides, list, to);
    let widths = put_kind(one, other, sides, Kind::Clusters, list, machines);
    put_kind(one, other, sides, Kind::Lists, list, widths)
}

// Stores the differences of two accepted tables, and answers where they end.
pub fn put_all<'a>(one: &'a [u8], other: &'a [u8], glyphs: usize, list: &mut [u16]) -> usize
    requires { (table_fault one.now glyphs ≡ Clear) × (table_fault other.now glyphs ≡ Clear) }
    ensures { Stores list.old list.new 0 result (differences (meaning_of one.now glyphs) (meaning_of other.now glyphs)) }
{
    let horizontal = sides_of(one, other, glyphs, Direction::Horizontal);
    let vertical = sides_of(one, other, glyphs, Direction::Vertical);
    let end = put_side(one, other, horizontal, list, 0);
    put_side(one, other, vertical, list, end)
}

// How many numbers the differences of two accepted tables take: where they would end in a room of no length. A table that was
// not touched is told at once, since two that are the same byte for byte mean the same.
pub fn size_all<'a>(one: &'a [u8], other: &'a [u8], glyphs: usize) -> usize
    requires { (table_fault one.now glyphs ≡ Clear) × (table_fault other.now glyphs ≡ Clear) }
    ensures { (result ≡ length (all_numbers (differences (meaning_of one.now glyphs) (meaning_of other.now glyphs)))) × (result < 2 ^ 30) }
{
    if one == other {
        return 0;
    }
    let mut none = [0u16; 0];
    put_all(one, other, glyphs, &mut none)
}
