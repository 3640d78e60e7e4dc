// The clusters and the action lists of a direction of a sheet (document 01, "The sheet", sections 5 and 6, 7 and 8),
// read out of bytes at a position: the distinct items, and the runs of glyphs that have one of them.
#![tactic(auto)]

ghost use Rattle.std.specs.Prelude.{◌≤◌, ◌<◌, ◌^◌, min, length};
ghost use Rattle.fields.specs.Field.{u32_at, Bytes};
ghost use Rattle.encoding.specs.Codes.{counted};
ghost use Rattle.sheet_sections.specs.Section.{Parses};
ghost use Rattle.sheet_sections.specs.Pool.{Items};
ghost use Rattle.sheet_distinct.specs.Scan.{Scans};
ghost use Rattle.sheet_distinct.specs.Slots.{DistinctRooms};
ghost use Rattle.sheet_items.specs.Items.{item-discrete, item_code, SomeItem, pool_bytes, OkPool};

use sheet_items::Sort;

// What is read: clusters, or action lists, of `glyphs` glyphs.
#[derive(Clone, Copy)]
struct Reader<'a> {
    bytes: &'a [u8],
    sort: Sort,
    glyphs: usize,
    ghost are_bytes: { Bytes bytes.now },
    ghost few: { glyphs < 2 ^ 16 },
}

impl<'a> Reader<'a> {
    // A cluster, or a list of actions.
    fn item(&self, at: usize) -> Option<usize>
        ensures { Parses (item_code self.now.sort) (SomeItem self.now.sort self.now.glyphs) self.now.bytes.now at result }
    {
        match self.sort {
            Sort::Clusters => sheet_cluster::read_cluster(self.bytes, at),
            Sort::Lists => sheet_list::read_list(self.bytes, at, self.glyphs),
        }
    }

    // `count` items one after the other; the offsets are set to where each begins and where the last ends.
    fn scan(&self, at: usize, count: usize, offsets: &mut [usize]) -> Option<usize>
        requires { (at ≤ length self.now.bytes.now) × (count < length offsets.old) }
        ensures { Scans (item_code self.now.sort) (SomeItem self.now.sort self.now.glyphs) self.now.bytes.now at count result offsets.new }
    {
        offsets[0] = at;
        let mut place = at;
        for i in 0..count {
            place = self.item(place)?;
            offsets[i + 1] = place;
        }
        Some(place)
    }

    // Section 5 or 7, with rooms for the offsets and to compare. Each item is some glyph's, so there are no more of them than
    // glyphs.
    fn items(
        &self,
        at: usize,
        offsets: &mut [usize],
        numbers: &mut [u16],
        firsts: &mut [u16],
    ) -> Option<usize>
        requires { (min self.now.glyphs (u32_at self.now.bytes.now at) < length offsets.old) × DistinctRooms (min self.now.glyphs (u32_at self.now.bytes.now at)) numbers.old firsts.old }
        ensures { Parses (counted (item_code self.now.sort)) (Items (item-discrete self.now.sort) (SomeItem self.now.sort self.now.glyphs) self.now.glyphs) self.now.bytes.now at result }
    {
        // A count; what it counts is read item by item.
        let count = sheet_sections::count_at(self.bytes, at, 0)?;
        if self.glyphs < count {
            return None;
        }
        let end = self.scan(at + 4, count, offsets)?;
        if !sheet_distinct::distinct(self.bytes, offsets, count, numbers, firsts) {
            return None;
        }
        Some(end)
    }

    // The same in rooms for fewer than `N` items. Each size is a function of its own that is never inlined: the stack of a longer
    // one is not touched where it is not called.
    #[inline(never)]
    fn items_in<const N: usize, const SLOTS: usize>(&self, at: usize) -> Option<usize>
        requires items_fit { min self.now.glyphs (u32_at self.now.bytes.now at) < N }
        requires rooms_in { (N ≤ 2 ^ 16) × (N ≤ SLOTS) × (SLOTS ≤ 2 ^ 17) }
        ensures { Parses (counted (item_code self.now.sort)) (Items (item-discrete self.now.sort) (SomeItem self.now.sort self.now.glyphs) self.now.glyphs) self.now.bytes.now at result }
    {
        let mut offsets = [0usize; N];
        let mut numbers = [0u16; N];
        let mut firsts = [0u16; SLOTS];
        self.items(at, &mut offsets, &mut numbers, &mut firsts)
    }

    // Section 5 or 7: at most as many distinct items as there are glyphs. In rooms as long as the count needs: clearing
    // longer ones would be most of the time that few items take.
    fn distinct(&self, at: usize) -> Option<usize>
        ensures { Parses (counted (item_code self.now.sort)) (Items (item-discrete self.now.sort) (SomeItem self.now.sort self.now.glyphs) self.now.glyphs) self.now.bytes.now at result }
    {
        let count = fields::u32_at(self.bytes, at);
        if count <= 64 {
            return self.items_in::<65, 256>(at);
        }
        if count <= 2048 {
            return self.items_in::<2049, 8192>(at);
        }
        self.items_in::<65536, 131072>(at)
    }
}

// Sections 5 and 6, or 7 and 8: the clusters, or the action lists, of `glyphs` glyphs; where they end, if they are there.
pub fn read_pool(bytes: &[u8], at: usize, sort: Sort, glyphs: usize) -> Option<usize>
    requires { glyphs < 2 ^ 16 }
    ensures { Parses (pool_bytes sort) (OkPool sort glyphs) bytes.now at result }
{
    let reader = Reader {
        bytes,
        sort,
        glyphs,
    };
    let end = reader.distinct(at)?;
    sheet_sections::read_number_runs(bytes, end, glyphs, fields::u32_at(bytes, at))
}
