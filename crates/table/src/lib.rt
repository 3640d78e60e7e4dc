// A 'just' table read with a glyph count (document 01, "The table" and "Numbers of refusal"): its first fault,
// refusals 1 to 8 in their order, and whether it is accepted.
#![tactic(auto, unfolding(fields::specs::Faults::earlier, fields::specs::Faults::rule, lookup_targets::specs::Values::values_fault, crate::specs::Table::present, crate::specs::Table::machine_place, crate::specs::Table::source_at, crate::specs::Table::offsets_fault, crate::specs::Table::machine_part, crate::specs::Table::header_fault, crate::specs::Table::action_part, crate::specs::Table::direction_fault, crate::specs::Table::table_fault))]

ghost use Rattle.std.specs.Prelude.{◌≡◌, ℕ, ◌+◌, ◌≤◌, ◌<◌, ◌^◌, length};
ghost use Rattle.fields.specs.Faults.{◌then◌};
ghost use Rattle.types.specs.declared.Direction.TheVariants.{Horizontal, Vertical};
ghost use Rattle.lookup_targets.specs.Values.{source_fault, NearSource, Judged};
ghost use Rattle.table.specs.Table.{direction_at, machine_place, list_source, source_at, header_fault, offsets_fault, machine_part, direction_fault, table_fault};

use fields::{Fault, Refusal};
use lookup_targets::{Kind, Source};
use types::Direction;

// Where a direction's offsets stand; 0 for an absent one: offsets here and above are what the fields hold, where 0 itself is none.
pub fn direction_at(table: &[u8], direction: Direction) -> usize
    ensures { (result ≡ direction_at table.now direction) × (result < 2 ^ 16) }
{
    match direction {
        Direction::Horizontal => fields::u16_at(table, 6),
        Direction::Vertical => fields::u16_at(table, 8),
    }
}

// The offset of the machine of the direction at `at`; 0 for none.
pub fn machine_place(table: &[u8], at: usize) -> usize
    ensures { (result ≡ machine_place table.now at) × (result < 2 ^ 16) }
{
    if at == 0 {
        return 0;
    }
    fields::u16_at(table, at)
}

// Where the lists come from that an action lookup at an offset leads to, 0 for none.
fn list_source(offset: usize) -> Option<Source>
    requires { offset < 2 ^ 16 }
    ensures { (result ≡ list_source offset) × NearSource result }
{
    if offset == 0 {
        return None;
    }
    Some(Source {
        at: offset,
        base: offset,
    })
}

// Where the clusters, or the lists, of the direction at `at` come from.
pub fn source_at(table: &[u8], at: usize, kind: Kind) -> Option<Source>
    requires { at < 2 ^ 16 }
    ensures { (result ≡ source_at table.now at kind) × NearSource result }
{
    if at == 0 {
        return None;
    }
    match kind {
        Kind::Clusters => Some(Source {
            at: at + 6,
            base: fields::u16_at(table, at + 2),
        }),
        Kind::Lists => list_source(fields::u16_at(table, at + 4)),
    }
}

// The machine at an offset, 0 for none.
fn machine_part(table: &[u8], glyphs: usize, offset: usize) -> Result<(), Fault>
    requires { offset < 2 ^ 16 }
    ensures { result ≡ machine_part table.now glyphs offset }
{
    if offset == 0 {
        return Ok(());
    }
    machine::machine_fault(table, glyphs, offset + machine::UNREAD)
}

// The lookup of a source, and the clusters or lists that its values lead to.
fn source_fault(
    table: &[u8],
    glyphs: usize,
    kind: Kind,
    source: Option<Source>,
    judged: &mut [u8],
) -> Result<(), Fault>
    requires near_source { NearSource source × (glyphs < 2 ^ 16) }
    requires true_notes { Judged table.now glyphs judged.old }
    ensures { (result ≡ source_fault table.now glyphs kind source) × Judged table.now glyphs judged.new }
{
    let Some(source) = source else {
        return Ok(());
    };
    lookup_targets::values_fault(table, glyphs, kind, source.at, source.base, judged)
}

// The three offsets of the direction at `at`.
fn offsets_fault(table: &[u8], at: usize) -> Result<(), Fault>
    requires { at < 2 ^ 16 }
    ensures { result ≡ offsets_fault table.now at }
{
    fields::in_table(table, at, 2)?;
    fields::in_table(table, at + 2, 2)?;
    fields::in_table(table, at + 4, 2)
}

// The first fault of the direction at `at`, 0 for none. What was found without fault is noted in `judged`.
fn direction_fault(table: &[u8], glyphs: usize, at: usize, judged: &mut [u8]) -> Result<(), Fault>
    requires at_bound { (at < 2 ^ 16) × (glyphs < 2 ^ 16) }
    requires true_notes { Judged table.now glyphs judged.old }
    ensures { (result ≡ direction_fault table.now glyphs at) × Judged table.now glyphs judged.new }
{
    if at == 0 {
        return Ok(());
    }
    offsets_fault(table, at)?;
    machine_part(table, glyphs, machine_place(table, at))?;
    let clusters = source_at(table, at, Kind::Clusters);
    source_fault(table, glyphs, Kind::Clusters, clusters, judged)?;
    let lists = source_at(table, at, Kind::Lists);
    source_fault(table, glyphs, Kind::Lists, lists, judged)
}

// Length, glyph count, version and format.
fn header_fault(table: &[u8], count: u32) -> Result<(), Fault>
    ensures { result ≡ header_fault table.now count }
{
    fields::ruled(10 <= table.len(), Refusal::TableLength, 0)?;
    fields::ruled(table.len() <= 32768, Refusal::TableLength, 0)?;
    fields::ruled(1 <= count, Refusal::GlyphCount, 0)?;
    fields::ruled(count <= 65535, Refusal::GlyphCount, 0)?;
    fields::ruled(fields::u32_at(table, 0) == 65536, Refusal::Version, 0)?;
    fields::ruled(fields::u16_at(table, 4) == 0, Refusal::Version, 0)
}

// The first fault of the two directions, horizontal first. What both lead to is judged once, and so is a direction that is
// both.
fn directions_fault(table: &[u8], glyphs: usize, judged: &mut [u8]) -> Result<(), Fault>
    requires glyphs_bound { glyphs < 2 ^ 16 }
    requires true_notes { Judged table.now glyphs judged.old }
    ensures { (result ≡ (direction_fault table.now glyphs (direction_at table.now Horizontal) then direction_fault table.now glyphs (direction_at table.now Vertical))) × Judged table.now glyphs judged.new }
{
    let first = direction_at(table, Direction::Horizontal);
    direction_fault(table, glyphs, first, judged)?;
    let second = direction_at(table, Direction::Vertical);
    if second == 0 || second == first {
        return Ok(());
    }
    direction_fault(table, glyphs, second, judged)
}

// The first fault of a table read with a glyph count, by notes that are lent: one for each position of the table, blank or left
// by judging the same table with the same count. Where there are fewer, more is judged twice. It stands inside the
// function of each room: an answer that may hold a fault is slow to hand back, and is handed back once less.
#[inline(always)]
fn fault_by(table: &[u8], count: u32, judged: &mut [u8]) -> Result<(), Fault>
    requires { Judged table.now count judged.old }
    ensures { (result ≡ table_fault table.now count) × Judged table.now count judged.new }
{
    header_fault(table, count)?;
    directions_fault(table, count as usize, judged)
}

// The first fault of a table read with a glyph count, with room for so many notes. Rooms of one size have a function of their own,
// so that the small ones are not held up by the memory of the large ones.
#[inline(never)]
fn fault_with_room<const NOTES: usize>(table: &[u8], count: u32) -> Result<(), Fault>
    requires { NOTES < 2 ^ 63 }
    ensures { result ≡ table_fault table.now count }
{
    let mut judged = [0u8; NOTES];
    fault_by(table, count, &mut judged)
}

// The first fault of a table read with a glyph count; a table without one is accepted. There is a note for each position of the
// table, which has at most 32,768 bytes if its length is not refused; less room is sooner cleared.
pub fn table_fault(table: &[u8], count: u32) -> Result<(), Fault>
    ensures { result ≡ table_fault table.now count }
{
    match table.len() {
        0..=512 => fault_with_room::<512>(table, count),
        513..=4096 => fault_with_room::<4096>(table, count),
        4097..=8192 => fault_with_room::<8192>(table, count),
        _ => fault_with_room::<32768>(table, count),
    }
}
