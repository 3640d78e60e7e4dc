// What the glyphs have, clusters or action lists, numbered in order of first use (document 01, "The sheet", sections 5 to
// 8), in one pass over the lookup: by stretches of glyphs that have the same.
#![tactic(auto)]

ghost use Rattle.std.specs.Prelude.{◌≡◌, ◌+◌, ◌*◌, ◌≤◌, ◌<◌, ◌^◌, length};
ghost use Rattle.fields.specs.Faults.{Clear};
ghost use Rattle.fields.specs.Field.{u16_at};
ghost use Rattle.lookup.specs.Lookup.{lookup_fault};
ghost use Rattle.encoding.specs.Tests.{Says};
ghost use Rattle.write_numbers.specs.Numbered.{Blank, KnownAs};
ghost use Rattle.lookup.specs.Pass.{Serves};
ghost use Rattle.write_glyphs.specs.Places.{value_place, run_place, Agree, Lead, OneItem, AlikeUpto, PassRooms, PassedOver};

use lookup::Cursor;
use lookup_runs::Run;
use lookup_targets::Kind;

// The place that the value at `p` leads to; 65,535 for none: places are kept in rooms of 16-bit numbers, where no table has one
// so far on.
#[tactic(auto, unfolding(crate::specs::Places::value_place))]
fn value_place(table: &[u8], kind: Kind, base: usize, p: usize) -> u16
    requires { base < 2 ^ 16 }
    ensures { result ≡ value_place kind table.now base p }
{
    let value = fields::u16_at(table, p) as u16;
    match lookup_targets::spot_of(kind, base, Some(value)) {
        Some(at) => at.min(65535) as u16,
        None => 65535,
    }
}

// The place of what a glyph has that stands in a run, or before it and has none. The run begins at the glyph `from`, and
// its values stand at `place`.
#[tactic(auto, unfolding(crate::specs::Places::run_place))]
pub fn run_place(
    table: &[u8],
    kind: Kind,
    base: usize,
    from: usize,
    place: usize,
    array: bool,
    glyph: usize,
) -> u16
    requires { (base < 2 ^ 16) × ((glyph < 2 ^ 16) × (place < 2 ^ 41)) }
    ensures { result ≡ run_place kind table.now base from place array glyph }
{
    if glyph < from {
        return 65535;
    }
    if array {
        return value_place(table, kind, base, place + 2 * (glyph - from));
    }
    value_place(table, kind, base, place)
}

// A lookup over the glyphs of a font, whose values lead to clusters or to lists: the table, how many glyphs there are, what
// the values lead to, where the lookup stands, from where its values count, and its format.
#[derive(Clone, Copy)]
pub struct GlyphLookup<'a> {
    pub table: &'a [u8],
    pub glyphs: usize,
    pub kind: Kind,
    pub at: usize,
    pub base: usize,
    pub format: usize,
    pub ghost short: { length table.now ≤ 2 ^ 15 },
    pub ghost near: { (at < 2 ^ 32) × ((base < 2 ^ 16) × (glyphs < 2 ^ 16)) },
    pub ghost clear: { lookup_fault table.now glyphs at ≡ Clear },
    pub ghost format_is: { format ≡ u16_at table.now at },
}

// The rooms that a pass works in, the first four with an element for each stretch of glyphs that have the same item: where
// each ends, and the number of its item, 0 for none; the places of the distinct items; which of those found their slot taken.
// Then the slots, and by a value's position the number that was found there, and how many values from there on lead to one item.
#[derive(Drop)]
pub struct Rooms<'a> {
    pub ends: &'a mut [u16],
    pub nums: &'a mut [u16],
    pub firsts: &'a mut [u16],
    pub others: &'a mut [u16],
    pub slots: &'a mut [u16],
    pub seen: &'a mut [u16],
    pub alike: &'a mut [u8],
    pub ghost enough: { PassRooms (length ends.now) (length nums.now) (length firsts.now) (length others.now) (length slots.now) },
}

// How far a pass over the glyphs came: how many stretches of glyphs that have the same item it found, how many distinct
// items, and the first glyph after them.
#[derive(Clone, Copy)]
pub struct Pass {
    pub stretches: usize,
    pub items: usize,
    pub glyph: usize,
}

// Where a pass stands: how far it came, and the cursor for the glyphs after that.
#[derive(Clone, Copy)]
struct Way {
    pass: Pass,
    cursor: Cursor,
}

impl<'a> GlyphLookup<'a> {
    // The lookup at a place, of the format that stands there.
    pub fn new(
        table: &'a [u8],
        glyphs: usize,
        kind: Kind,
        at: usize,
        base: usize,
    ) -> GlyphLookup<'a>
        requires sound { (at < 2 ^ 32) × ((base < 2 ^ 16) × ((glyphs < 2 ^ 16) × (lookup_fault table.now glyphs at ≡ Clear))) }
        requires short { length table.now ≤ 2 ^ 15 }
        ensures table { (result.table.now ≡ table.now) × ((result.glyphs ≡ glyphs) × (result.kind ≡ kind)) }
        ensures place { (result.at ≡ at) × (result.base ≡ base) }
    {
        GlyphLookup {
            table,
            glyphs,
            kind,
            at,
            base,
            format: fields::u16_at(table, at),
        }
    }
}

impl GlyphLookup<'_> {
    ghost use Rattle.write_glyphs.specs.Passing.{StandsAt, OneItemAt, SameRooms};

    // Whether the value at `p` leads to the item that is known to have this number.
    fn leads(&self, seen: &[u16], p: usize, number: u16) -> bool
        ensures { Says result (KnownAs self.now.table.now seen.now (value_place self.now.kind self.now.table.now self.now.base p) number) }
    {
        let place = value_place(self.table, self.kind, self.base, p);
        write_numbers::is_known(self.table, seen, place, number)
    }

    // How many of `count` values from `place` on lead, one after the other, to the item that is known to have this number. Many
    // units of format 4 may share them: `alike` has by a value's position how many values from there on are known to lead to
    // one item, and those are passed in one turn.
    fn known_values(
        &self,
        seen: &[u16],
        alike: &[u8],
        place: usize,
        count: usize,
        number: u16,
    ) -> usize
        requires near { place + 2 * count < 2 ^ 42 }
        requires one_item { OneItem self.now.kind self.now.table.now self.now.base alike.now }
        ensures { (result ≤ count) × Lead self.now.kind self.now.table.now self.now.base seen.now place number result }
    {
        let mut values: usize = 0;
        // No count: each turn passes all values that are known to lead to one item.
        while values < count {
            let p = place + 2 * values;
            if self.leads(seen, p, number) {
                let more = fields::u8_at(alike, p).max(1);
                values += more.min(count - values);
            } else {
                return values;
            }
        }
        values
    }

    // The same, and notes it for the next unit that shares these values.
    fn same_values(
        &self,
        seen: &[u16],
        alike: &mut [u8],
        place: usize,
        count: usize,
        number: u16,
    ) -> usize
        requires near { place + 2 * count < 2 ^ 42 }
        requires agree { Agree self.now.kind self.now.table.now seen.now × OneItem self.now.kind self.now.table.now self.now.base alike.old }
        ensures { (result ≤ count) × Lead self.now.kind self.now.table.now self.now.base seen.now place number result
            × OneItem self.now.kind self.now.table.now self.now.base alike.new }
    {
        let led = self.known_values(seen, alike, place, count, number);
        lookup_targets::note_values(place, led, alike);
        led
    }

    // How far the item with this number goes that `glyph` has, which stands in a run or before it: to the run's start or end, or
    // as far as the values of its array are known to lead to the same.
    fn stretch_end(
        &self,
        run: &Run,
        glyph: usize,
        seen: &[u16],
        alike: &mut [u8],
        number: u16,
    ) -> usize
        requires near { (run.now.until < 2 ^ 16) × ((run.now.place < 2 ^ 41) × (glyph < run.now.until)) }
        requires agree { Agree self.now.kind self.now.table.now seen.now × OneItem self.now.kind self.now.table.now self.now.base alike.old }
        ensures { AlikeUpto self.now.kind self.now.table.now self.now.base run.now.from run.now.until run.now.place run.now.array glyph seen.now number result
            × OneItem self.now.kind self.now.table.now self.now.base alike.new }
    {
        if glyph < run.from {
            return run.from.min(run.until);
        }
        if !run.array {
            return run.until;
        }
        let next = glyph + 1;
        let place = run.place + 2 * (next - run.from);
        next + self.same_values(seen, alike, place, run.until - next, number)
    }

    // Numbers what the glyphs before the next run and those of it have, or as many of them as there is room for.
    fn number_run(&self, start: Way, rooms: &mut Rooms) -> Way
        requires stands { StandsAt self.now rooms.old start.pass }
        requires one_item { OneItemAt self.now rooms.old }
        requires more { (start.pass.glyph < self.now.glyphs) × ((start.pass.stretches < length rooms.old.ends.now) × Serves self.now.table.now self.now.at start.pass.glyph start.cursor) }
        ensures stands { StandsAt self.now rooms.new result.pass }
        ensures one_item { OneItemAt self.now rooms.new }
        ensures further { start.pass.glyph < result.pass.glyph }
        ensures serves { result.pass.stretches < length rooms.old.ends.now → result.pass.glyph < self.now.glyphs → Serves self.now.table.now self.now.at result.pass.glyph result.cursor }
        ensures same_rooms { SameRooms rooms.old rooms.new }
    {
        let ends = &mut *rooms.ends;
        let nums = &mut *rooms.nums;
        let firsts = &mut *rooms.firsts;
        let others = &mut *rooms.others;
        let slots = &mut *rooms.slots;
        let seen = &mut *rooms.seen;
        let alike = &mut *rooms.alike;
        let mut pass = start.pass;
        let next = lookup_runs::next_run(
            self.table,
            self.format,
            self.at,
            start.cursor,
            pass.glyph,
        );
        let run = Run {
            until: next.until.min(self.glyphs),
            ..next
        };
        // No count: each turn passes a whole stretch of glyphs.
        while pass.glyph < run.until && pass.stretches < ends.len() {
            let place = run_place(
                self.table, self.kind, self.base, run.from, run.place, run.array, pass.glyph,
            );
            let number = write_numbers::item_number(
                self.table, self.kind, firsts, others, slots, seen, pass.items, place,
            );
            let end = self.stretch_end(&run, pass.glyph, seen, alike, number as u16);
            pass = Pass {
                stretches: write_runs::extend(
                    ends,
                    nums,
                    pass.stretches,
                    end as u16,
                    number as u16,
                ),
                items: pass.items.max(number),
                glyph: end,
            };
        }
        Way {
            pass,
            cursor: run.cursor,
        }
    }

    // Numbers what the lookup gives the glyphs: the stretches' ends and the numbers of their items, 0 for none, and the places of
    // the distinct items. The pass stops where the room for stretches is full.
    pub fn number_glyphs(&self, rooms: &mut Rooms) -> Pass
        requires { Blank rooms.old.others.now × (Blank rooms.old.slots.now × (Blank rooms.old.seen.now × Blank rooms.old.alike.now)) }
        ensures passed { PassedOver self.now.kind self.now.table.now self.now.glyphs self.now.at self.now.base rooms.new.ends.now rooms.new.nums.now rooms.new.firsts.now result }
        ensures same_rooms { SameRooms rooms.old rooms.new }
    {
        let mut way = Way {
            pass: Pass {
                stretches: 0,
                items: 0,
                glyph: 0,
            },
            cursor: lookup::begin(self.table, self.at),
        };
        // No count: each turn passes a whole run of glyphs.
        while way.pass.glyph < self.glyphs && way.pass.stretches < rooms.ends.len() {
            way = self.number_run(way, rooms);
        }
        way.pass
    }
}
