// Sections 5 and 6, or 7 and 8, of a sheet for a table (document 01, "The sheet"): the glyphs' clusters or lists are
// numbered by stretches of glyphs that have the same, and stored from the numbers. What would stand past the end of
// the lent bytes is dropped, so that the sections are sized by storing them into nothing.
#![tactic(auto)]

ghost use Rattle.std.specs.Prelude.{◌≡◌, ◌++◌, ◌+◌, ◌*◌, ◌%◌, ◌≤◌, ◌<◌, ◌^◌, length};
ghost use Rattle.std.proofs.lemmas.List.Edits.{sets};
ghost use Rattle.fields.specs.Field.{u16_at, be32};
ghost use Rattle.encoding.specs.Codes.{All, many};
ghost use Rattle.encoding.specs.Tests.{Says};
ghost use Rattle.write_item.specs.Items.{item_code};
ghost use Rattle.write_numbers.specs.Numbered.{placed, Blank};
ghost use Rattle.write_glyphs.specs.Passing.{SameRooms};
ghost use Rattle.write_runs.specs.Spread.{Stretches};
ghost use Rattle.write_pool.specs.Pool.{sections, Short, Short-prop, items_by, Numberable, PlacedSections, PlacedBy, TriedBy};

use lookup_targets::{Kind, Source};
use write_glyphs::{GlyphLookup, Rooms};

// What is stored: the sections of what a lookup gives the glyphs, and from where on.
#[derive(Clone, Copy)]
struct Pool<'a> {
    lookup: GlyphLookup<'a>,
    to: usize,
    ghost near: { to < 2 ^ 38 },
    ghost short: { All (Short lookup.kind) (items_by lookup) } by { Short-prop lookup.kind (items_by lookup) },
}

impl Pool<'_> {
    // Stores the items at these places, and answers where they end.
    fn put_items(&self, firsts: &[u16], out: &mut [u8], to: usize) -> usize
        requires short { (length firsts.now < 2 ^ 16) × All (Short self.now.lookup.kind) (placed self.now.lookup.kind self.now.lookup.table.now firsts.now) }
        requires near { to < 2 ^ 39 }
        ensures { (result ≡ to + length (many (item_code self.now.lookup.kind) (placed self.now.lookup.kind self.now.lookup.table.now firsts.now))) × (result ≤ to + 5380 * length firsts.now)
            × (out.new ≡ sets out.old to (many (item_code self.now.lookup.kind) (placed self.now.lookup.kind self.now.lookup.table.now firsts.now))) }
    {
        let table = self.lookup.table;
        let kind = self.lookup.kind;
        let mut end = to;
        for place in firsts {
            write_item::put_item(table, kind, *place, out, end);
            end += write_item::item_size(table, kind, *place);
        }
        end
    }

    // Stores the two sections, from a numbering, and answers where they end.
    fn put_sections(&self, firsts: &[u16], ends: &[u16], nums: &[u16], out: &mut [u8]) -> usize
        requires short { (length firsts.now < 2 ^ 16) × All (Short self.now.lookup.kind) (placed self.now.lookup.kind self.now.lookup.table.now firsts.now) }
        requires stretches { Stretches ends.now nums.now }
        ensures { (result ≡ self.now.to + length (sections self.now.lookup.kind self.now.lookup.table.now firsts.now ends.now nums.now)) × (result < self.now.to + 2 ^ 29)
            × (out.new ≡ sets out.old self.now.to (sections self.now.lookup.kind self.now.lookup.table.now firsts.now ends.now nums.now)) }
    {
        fields::put_u32(out, self.to, firsts.len() as u32);
        let end = self.put_items(firsts, out, self.to + 4);
        write_runs::put_runs(ends, nums, out, end)
    }

    // Stores the two sections, and answers where they end; or, where the rooms do not hold all stretches of glyphs that have the
    // same, stores nothing.
    fn put_with(&self, rooms: &mut Rooms, out: &mut [u8]) -> Option<usize>
        requires { Blank rooms.old.others.now × (Blank rooms.old.slots.now × (Blank rooms.old.seen.now × Blank rooms.old.alike.now)) }
        ensures tried { TriedBy self.now.lookup (length rooms.old.ends.now) out.old out.new self.now.to result }
        ensures same_rooms { SameRooms rooms.old rooms.new }
    {
        let pass = self.lookup.number_glyphs(rooms);
        if pass.glyph < self.lookup.glyphs {
            return None;
        }
        let firsts = &rooms.firsts[..pass.items];
        let ends = &rooms.ends[..pass.stretches];
        let nums = &rooms.nums[..pass.stretches];
        Some(self.put_sections(firsts, ends, nums, out))
    }

    // The same with rooms for this many stretches, and as many slots, places and notes of shared values as are asked for. Rooms
    // of one size have a function of their own, so that the small ones are not held up by the memory of the large ones.
    #[inline(never)]
    fn put_sized<
        const STRETCHES: usize,
        const SLOTS: usize,
        const PLACES: usize,
        const NOTES: usize,
    >(&self, out: &mut [u8]) -> Option<usize>
        requires { (STRETCHES ≤ 2 ^ 16) × ((0 < SLOTS) × ((SLOTS ≤ 2 ^ 16) × ((PLACES ≤ 2 ^ 16) × (NOTES ≤ 2 ^ 16)))) }
        ensures { TriedBy self.now.lookup STRETCHES out.old out.new self.now.to result }
    {
        let mut rooms = Rooms {
            ends: &mut [0u16; STRETCHES],
            nums: &mut [0u16; STRETCHES],
            firsts: &mut [0u16; STRETCHES],
            others: &mut [0u16; STRETCHES],
            slots: &mut [0u16; SLOTS],
            seen: &mut [0u16; PLACES],
            alike: &mut [0u8; NOTES],
        };
        self.put_with(&mut rooms, out)
    }

    // With rooms for a stretch of each glyph.
    fn put_large(&self, out: &mut [u8]) -> usize
        ensures { PlacedBy self.now.lookup out.old out.new self.now.to result }
    {
        self.put_sized::<65536, 8191, 32768, 32768>(out).unwrap()
    }

    // With rooms for 4,096 stretches. Only units of format 4 can share values, of which is noted what they have in common.
    fn put_medium(&self, out: &mut [u8]) -> Option<usize>
        ensures { TriedBy self.now.lookup 4096 out.old out.new self.now.to result }
    {
        if self.lookup.format == 4 {
            return self.put_sized::<4096, 8191, 32768, 32768>(out);
        }
        self.put_sized::<4096, 8191, 32768, 0>(out)
    }

    // Whether the lookup, of format 2 or 6, has so many units that medium rooms seldom hold their stretches, two for each.
    fn has_many_units(&self) -> bool
        ensures { Says result ((u16_at self.now.lookup.table.now self.now.lookup.at % 4 ≡ 2) × (2040 < u16_at self.now.lookup.table.now (self.now.lookup.at + 4))) }
    {
        if self.lookup.format % 4 != 2 {
            return false;
        }
        2040 < fields::u16_at(self.lookup.table, self.lookup.at + 4)
    }

    // With medium rooms if they are large enough.
    fn put_looked(&self, out: &mut [u8]) -> usize
        ensures { PlacedBy self.now.lookup out.old out.new self.now.to result }
    {
        if self.has_many_units() {
            return self.put_large(out);
        }
        if let Some(end) = self.put_medium(out) {
            return end;
        }
        self.put_large(out)
    }

    // With rooms for few stretches, and for a table of at most 512 bytes, if they are large enough.
    fn put_lookup(&self, out: &mut [u8]) -> usize
        ensures { PlacedBy self.now.lookup out.old out.new self.now.to result }
    {
        if let Some(end) = self.put_sized::<128, 251, 512, 512>(out) {
            return end;
        }
        self.put_looked(out)
    }
}

// Stores two counts of 0.
fn put_none(out: &mut [u8], to: usize)
    requires { to < 2 ^ 40 }
    ensures { out.new ≡ sets out.old to (be32 0 ++ be32 0) }
{
    fields::put_u32(out, to, 0);
    fields::put_u32(out, to + 4, 0);
}

// Stores the two sections, and answers where they end.
pub fn put_pool(
    table: &[u8],
    glyphs: usize,
    kind: Kind,
    source: Option<Source>,
    out: &mut [u8],
    to: usize,
) -> usize
    requires { Numberable kind table.now glyphs source × (to < 2 ^ 38) }
    ensures { PlacedSections kind table.now glyphs source out.old out.new to result }
{
    let Some(Source { at, base }) = source else {
        put_none(out, to);
        return to + 8;
    };
    let lookup = GlyphLookup::new(table, glyphs, kind, at, base);
    let pool = Pool { lookup, to };
    if 512 < table.len() {
        return pool.put_looked(out);
    }
    pool.put_lookup(out)
}
