// The parts of a table's meaning (document 01, "The sheet"), asked for one at a time, and a component list as that
// very stretch of the table ("The table"). What is named ask_.. judges the table first, and may refuse; a component
// list is never refused, but empty. What serves the line besides (machine_in, lookup_in, spot_by) reads a table that
// was judged before.
#![tactic(auto, unfolding(crate::specs::Places::machine_in, crate::specs::Places::lookup_in, crate::specs::Places::spot_in, crate::specs::Places::action_spot, crate::specs::Components::components_of))]

ghost use Rattle.std.specs.Prelude.{◌≡◌, ℕ, ◌<◌, ◌^◌, Ok};
ghost use Rattle.meaning.specs.Ask.{maybe, pair, record_of, ask, glyph_count, sizes, class, cell, width, action, along};
ghost use Rattle.answers.specs.Says.{given, unless_bad, says_count, says_sizes, says_class, says_cell, says_record, says_action, room_of, room_after};
ghost use Rattle.fields.specs.Faults.{Clear};
ghost use Rattle.cluster.specs.Pairs.{cluster_at, sought_pair};
ghost use Rattle.actions.specs.Actions.{SpotBelow};
ghost use Rattle.table.specs.Table.{table_fault};
ghost use Rattle.table.specs.Means.{meaning_of};
ghost use Rattle.table_ask.specs.Places.{machine_in, lookup_in, lookup_by, Readable, Sound, spot_by, spot_from, spot_in, action_spot, cut};
ghost use Rattle.table_ask.specs.Components.{components_of, stretch, place_in};

use actions::Stretch;
use answers::Sizes;
use fields::Fault;
use lookup_find::Head;
use lookup_targets::Kind;
use types::{Direction, Entry, HeldAction, Pair};

// A direction's source of one kind (`lookup_targets::Source`), with the lookup's head, read once.
#[derive(Clone, Copy)]
pub struct Lookup {
    pub at: usize,
    pub base: usize,
    pub head: Head,
}

// The offset of a direction's machine; 0 for none, as the field has it.
pub fn machine_in(table: &[u8], direction: Direction) -> usize
    ensures { (result ≡ machine_in table.now direction) × (result < 2 ^ 16) }
{
    table::machine_place(table, table::direction_at(table, direction))
}

// The row count and the class count of a direction's machine.
fn sizes_of(table: &[u8], count: u32, direction: Direction) -> Option<Sizes>
    ensures { says_sizes (Ok result) ≡ given (ask (meaning_of table.now count) (along direction sizes)) }
{
    let offset = machine_in(table, direction);
    if offset == 0 {
        return None;
    }
    let here = offset + machine::UNREAD;
    Some(Sizes {
        rows: machine::row_count(table, here) as u16,
        classes: machine::class_count(table, here) as u16,
    })
}

// The class of a glyph in a direction.
fn class_of(table: &[u8], count: u32, direction: Direction, glyph: u16) -> Option<u8>
    ensures { says_class (Ok result) ≡ given (ask (meaning_of table.now count) (along direction (class glyph))) }
{
    if count <= u32::from(glyph) {
        return None;
    }
    let offset = machine_in(table, direction);
    if offset == 0 {
        return None;
    }
    Some(machine::class_of(table, offset + machine::UNREAD, glyph))
}

// What the cell of a row and a class holds in a direction.
fn cell_of(table: &[u8], count: u32, direction: Direction, row: u16, class: u16) -> Option<Entry>
    ensures { says_cell (Ok result) ≡ given (ask (meaning_of table.now count) (along direction (cell row class))) }
{
    let offset = machine_in(table, direction);
    if offset == 0 {
        return None;
    }
    let here = offset + machine::UNREAD;
    if machine::row_count(table, here) <= row as usize {
        return None;
    }
    if machine::class_count(table, here) <= class as usize {
        return None;
    }
    Some(machine::cell(table, here, row as usize, class as usize))
}

// A direction's lookup of a kind.
pub fn lookup_in(table: &[u8], direction: Direction, kind: Kind) -> Option<Lookup>
    ensures { (result ≡ lookup_in table.now direction kind) × Readable table.now result }
{
    let source = table::source_at(table, table::direction_at(table, direction), kind)?;
    Some(Lookup {
        at: source.at,
        base: source.base,
        head: lookup_find::head_at(table, source.at),
    })
}

// Past every place to which a base and a value lead.
const FAR: usize = 131072;

// A spot by a plain number.
fn spot_from(place: usize) -> Option<usize>
    ensures { (result ≡ spot_from place) × SpotBelow (2 ^ 17) result }
{
    if place < FAR {
        return Some(place);
    }
    None
}

// A spot as a plain number.
fn plain_spot(spot: Option<usize>) -> usize
    requires { SpotBelow (2 ^ 17) spot }
    ensures { spot_from result ≡ spot }
{
    spot.unwrap_or(FAR)
}

// Where a glyph's cluster or list stands, by a lookup of that kind and of any format. It is told in plain numbers and tells one,
// so that a loop that calls it keeps the lookup in registers.
fn place_by(
    table: &[u8],
    count: u32,
    kind: Kind,
    at: usize,
    base: usize,
    format: usize,
    units: usize,
    glyph: u16,
) -> usize
    requires { Readable table.now (lookup_by at base format units) × Sound table.now count (lookup_by at base format units) }
    ensures { spot_from result ≡ spot_by table.now count kind (lookup_by at base format units) glyph }
{
    let looked = lookup_find::find_by(table, count as usize, at, Head { format, units }, glyph);
    plain_spot(lookup_targets::spot_of(kind, base, looked.found))
}

// Where a glyph's cluster or list stands, by a direction's lookup of that kind. A line asks this of each glyph, mostly by
// format 2. The other formats are called for each kind, which keeps them out of the loops into which this is compiled.
pub fn spot_by(
    table: &[u8],
    count: u32,
    kind: Kind,
    lookup: Option<Lookup>,
    glyph: u16,
) -> Option<usize>
    requires { Readable table.now lookup × Sound table.now count lookup }
    ensures { (result ≡ spot_by table.now count kind lookup glyph) × SpotBelow (2 ^ 17) result }
{
    let Lookup { at, base, head } = lookup?;
    let Head { format, units } = head;
    if format == 2 {
        let found = lookup_find::find_range(table, count as usize, at, head, glyph);
        return lookup_targets::spot_of(kind, base, found);
    }
    let place = match kind {
        Kind::Clusters => place_by(table, count, Kind::Clusters, at, base, format, units, glyph),
        Kind::Lists => place_by(table, count, Kind::Lists, at, base, format, units, glyph),
    };
    spot_from(place)
}

// Where a glyph's cluster or list stands in a direction.
fn spot_in(table: &[u8], count: u32, direction: Direction, kind: Kind, glyph: u16) -> Option<usize>
    requires { table_fault table.now count ≡ Clear }
    ensures { (result ≡ spot_in table.now count direction kind glyph) × SpotBelow (2 ^ 17) result }
{
    let lookup = lookup_in(table, direction, kind);
    spot_by(table, count, kind, lookup, glyph)
}

// The width record of a glyph and a class in a direction.
fn record_of(table: &[u8], count: u32, direction: Direction, glyph: u16, class: u8) -> Option<Pair>
    requires { table_fault table.now count ≡ Clear }
    ensures { says_record (Ok result) ≡ given (ask (meaning_of table.now count) (along direction (width glyph class))) }
{
    let at = spot_in(table, count, direction, Kind::Clusters, glyph)?;
    cluster::record_of(table, at, class)
}

// Where the action of a glyph with a number stands in a direction.
fn action_spot(
    table: &[u8],
    count: u32,
    direction: Direction,
    glyph: u16,
    number: u16,
) -> Option<usize>
    requires { table_fault table.now count ≡ Clear }
    ensures { (result ≡ action_spot table.now count direction glyph number) × SpotBelow (2 ^ 50) result }
{
    let at = spot_in(table, count, direction, Kind::Lists, glyph)?;
    actions::spot_in_list(table, at, number)
}

// The action of a glyph with a number in a direction. Data of more than 76 bytes, which no action of an accepted
// table has, is cut there.
fn action_of(
    table: &[u8],
    count: u32,
    direction: Direction,
    glyph: u16,
    number: u16,
) -> Option<HeldAction>
    requires { table_fault table.now count ≡ Clear }
    ensures { (says_action (Ok result) ≡ given (cut (ask (meaning_of table.now count) (along direction (action glyph number))))) × (room_of (Ok result) ≡ room_after (given (cut (ask (meaning_of table.now count) (along direction (action glyph number)))))) }
{
    let at = action_spot(table, count, direction, glyph, number)?;
    Some(actions::action_at(table, at))
}

// The glyph count of an accepted table.
pub fn ask_count(table: &[u8], count: u32) -> Result<u32, Fault>
    ensures { says_count result ≡ unless_bad (table_fault table.now count) (ask (meaning_of table.now count) glyph_count) }
{
    table::table_fault(table, count)?;
    Ok(count)
}

// The row count and the class count, of an accepted table.
pub fn ask_sizes(table: &[u8], count: u32, direction: Direction) -> Result<Option<Sizes>, Fault>
    ensures { says_sizes result ≡ unless_bad (table_fault table.now count) (ask (meaning_of table.now count) (along direction sizes)) }
{
    table::table_fault(table, count)?;
    Ok(sizes_of(table, count, direction))
}

// The class of a glyph, of an accepted table.
pub fn ask_class(
    table: &[u8],
    count: u32,
    direction: Direction,
    glyph: u16,
) -> Result<Option<u8>, Fault>
    ensures { says_class result ≡ unless_bad (table_fault table.now count) (ask (meaning_of table.now count) (along direction (class glyph))) }
{
    table::table_fault(table, count)?;
    Ok(class_of(table, count, direction, glyph))
}

// What a cell holds, of an accepted table.
pub fn ask_cell(
    table: &[u8],
    count: u32,
    direction: Direction,
    row: u16,
    class: u16,
) -> Result<Option<Entry>, Fault>
    ensures { says_cell result ≡ unless_bad (table_fault table.now count) (ask (meaning_of table.now count) (along direction (cell row class))) }
{
    table::table_fault(table, count)?;
    Ok(cell_of(table, count, direction, row, class))
}

// The width record of a glyph and a class, of an accepted table.
pub fn ask_record(
    table: &[u8],
    count: u32,
    direction: Direction,
    glyph: u16,
    class: u8,
) -> Result<Option<Pair>, Fault>
    ensures { says_record result ≡ unless_bad (table_fault table.now count) (ask (meaning_of table.now count) (along direction (width glyph class))) }
{
    table::table_fault(table, count)?;
    Ok(record_of(table, count, direction, glyph, class))
}

// The action of a glyph with a number, of an accepted table.
pub fn ask_action(
    table: &[u8],
    count: u32,
    direction: Direction,
    glyph: u16,
    number: u16,
) -> Result<Option<HeldAction>, Fault>
    ensures { (says_action result ≡ unless_bad (table_fault table.now count) (ask (meaning_of table.now count) (along direction (action glyph number)))) × (room_of result ≡ room_after (unless_bad (table_fault table.now count) (ask (meaning_of table.now count) (along direction (action glyph number))))) }
{
    table::table_fault(table, count)?;
    Ok(action_of(table, count, direction, glyph, number))
}

// The stretch of no component list.
const NO_COMPONENTS: Stretch = Stretch { from: 0, to: 0 };

// Where the component list stands that direction, glyph and number name; an empty stretch where that is no type 0
// action of an accepted table.
pub fn component_stretch(
    table: &[u8],
    count: u32,
    direction: Direction,
    glyph: u16,
    number: u16,
) -> Stretch
    ensures { result ≡ components_of table.now count direction glyph number }
{
    let judged = table::table_fault(table, count);
    if judged.is_err() {
        return NO_COMPONENTS;
    }
    match action_spot(table, count, direction, glyph, number) {
        Some(at) => actions::components_at(table, at),
        None => NO_COMPONENTS,
    }
}

// That component list, as a part of the lent table.
pub fn components(table: &[u8], count: u32, direction: Direction, glyph: u16, number: u16) -> &[u8]
    ensures { (result.now ≡ stretch table.now (components_of table.now count direction glyph number)) × (result.ref_ptr ≡ place_in table.entry.ref_ptr (components_of table.now count direction glyph number)) }
{
    let list = component_stretch(table, count, direction, glyph, number);
    &table[list.from..list.to]
}
