// The clusters or the lists at some places, numbered in order of first use (document 01, "The sheet", sections 5 to 8),
// without a heap: an array by position has the number of what was found there, an array of positions the distinct ones.
// The item at a position that is seen for the first time is looked for in a slot that its hash tells: `slots` has the number
// of the first item whose slot it is. Those that find their slot taken are listed in `others`, which has how many they are and then
// their indices, sorted as words in a dictionary, and searched by halves: many items of one slot cost little more.
// In `slots` and `seen` 0 is for none: an Option of 16 bits would take twice the memory, which is fixed and blanked for each table.
#![tactic(auto)]

ghost use Rattle.std.specs.Prelude.{◌≡◌, ◌+◌, ◌%◌, ◌≤◌, ◌<◌, ◌^◌, max, length, get_or, set};
ghost use Rattle.fields.specs.Field.{u32_at};
ghost use Rattle.encoding.specs.Tests.{Says};
ghost use Rattle.write_item.specs.Items.{item_at, item_hash};
ghost use Rattle.write_numbers.specs.Numbered.{other_of, SortedOthers, Ranked, Inserted, Kept, Entered, KnownAs, Seen};

use lookup_targets::Kind;

// The items that found their slot taken: the places of all items, and the indices of those that are listed, after how many they are.
#[derive(Clone, Copy)]
struct Others<'a> {
    table: &'a [u8],
    kind: Kind,
    firsts: &'a [u16],
    list: &'a [u16],
    ghost short: { length table.now ≤ 2 ^ 15 },
    ghost counted: { get_or list.now 0 0 < length list.now },
}

impl Others<'_> {
    // The `s`-th place, counted from 0, of those listed.
    fn place(&self, s: usize) -> u16
        requires { (s < get_or self.now.list.now 0 0) × (get_or self.now.list.now (s + 1) 0 < length self.now.firsts.now) }
        ensures { result ≡ get_or self.now.firsts.now (get_or self.now.list.now (s + 1) 0) 0 }
    {
        let index = self.list[s + 1] as usize;
        self.firsts[index]
    }

    // How many of the items listed come before the item at `place`, found by halves.
    fn earlier_count(&self, place: u16) -> usize
        requires sorted { SortedOthers self.now.kind self.now.table.now self.now.firsts.now self.now.list.now (length self.now.firsts.now) }
        ensures { Ranked self.now.kind self.now.table.now self.now.firsts.now self.now.list.now (item_at self.now.kind self.now.table.now place) result }
    {
        let mut low: usize = 0;
        let mut high = self.list[0] as usize;
        // A search by halves: either end moves, and neither counts.
        while low < high {
            let middle = low + (high - low) / 2;
            if write_item::is_earlier(self.table, self.kind, self.place(middle), place) {
                low = middle + 1;
            } else {
                high = middle;
            }
        }
        low
    }

    // Whether more than `s` items are listed, and the `s`-th, counted from 0, is the item at `place`.
    fn has_at(&self, s: usize, place: u16) -> bool
        requires sorted { SortedOthers self.now.kind self.now.table.now self.now.firsts.now self.now.list.now (length self.now.firsts.now) }
        ensures { Says result ((s < get_or self.now.list.now 0 0) × (other_of self.now.kind self.now.table.now self.now.firsts.now self.now.list.now s ≡ item_at self.now.kind self.now.table.now place)) }
    {
        s < usize::from(self.list[0])
            && write_item::same_item(self.table, self.kind, self.place(s), place)
    }
}

// Lists an index in `others` after the first `n`; the later ones move up.
fn insert(others: &mut [u16], n: usize, index: u16)
    requires { (n ≤ get_or others.old 0 0) × ((get_or others.old 0 0 + 1 < length others.old) × (get_or others.old 0 0 < 65535)) }
    ensures { Inserted others.old others.new n index }
{
    let count = others[0];
    for i in (n + 1..count as usize + 1).rev() {
        others[i + 1] = others[i];
    }
    others[n + 1] = index;
    others[0] = count + 1;
}

// The slot of the item at `place`, of `count` slots.
fn slot_of(table: &[u8], kind: Kind, count: usize, place: u16) -> usize
    requires { (length table.now ≤ 2 ^ 15) × (0 < count) }
    ensures { (result ≡ item_hash kind (item_at kind table.now place) % count) × (result < count) }
{
    write_item::item_hash(table, kind, place) % count
}

// The number of the item at `place`, which is not none, among those at the first `k` of `firsts`; it joins them if it
// is not there.
fn enter(
    table: &[u8],
    kind: Kind,
    firsts: &mut [u16],
    others: &mut [u16],
    slots: &mut [u16],
    k: usize,
    place: u16,
) -> usize
    requires kept { (length table.now ≤ 2 ^ 15) × ((u32_at table.now place ≡ 0 → ⊥) × Kept kind table.now firsts.old others.old slots.old k) }
    requires room { (k < 65535) × ((k < length firsts.old) × ((k < length others.old) × (0 < length slots.old))) }
    ensures { Entered kind table.now firsts.old firsts.new others.new slots.new k place result }
{
    let at = slot_of(table, kind, slots.len(), place);
    let Some(held) = slots[at].checked_sub(1) else {
        firsts[k] = place;
        slots[at] = (k + 1) as u16;
        return k + 1;
    };
    let held = held as usize;
    if write_item::same_item(table, kind, firsts[held], place) {
        return held + 1;
    }
    let listed = Others {
        table,
        kind,
        firsts,
        list: others,
    };
    let n = listed.earlier_count(place);
    if listed.has_at(n, place) {
        return others[n + 1] as usize + 1;
    }
    insert(others, n, k as u16);
    firsts[k] = place;
    k + 1
}

// What is noted at a place, 0 past the end.
fn known_at(seen: &[u16], place: u16) -> u16
    ensures { result ≡ get_or seen.now place 0 }
{
    seen.get(place as usize).copied().unwrap_or(0)
}

// Notes a place's number; nothing past the end.
fn note_number(seen: &mut [u16], place: u16, number: u16)
    ensures { seen.new ≡ set seen.old place number }
{
    let at = place as usize;
    if at < seen.len() {
        seen[at] = number;
    }
}

// Whether what is noted tells that the item at `place` has this number; none, which has the number 0, is not noted.
pub fn is_known(table: &[u8], seen: &[u16], place: u16, number: u16) -> bool
    ensures { Says result (KnownAs table.now seen.now place number) }
{
    known_at(seen, place) == number && (number != 0 || fields::u32_at(table, place as usize) == 0)
}

// The number of the item at `place` among those at the first `k` of `firsts`, none having 0; an item that is not there
// joins them. A place is looked at once: its number is noted.
pub fn item_number(
    table: &[u8],
    kind: Kind,
    firsts: &mut [u16],
    others: &mut [u16],
    slots: &mut [u16],
    seen: &mut [u16],
    k: usize,
    place: u16,
) -> usize
    requires kept { (length table.now ≤ 2 ^ 15) × (Kept kind table.now firsts.old others.old slots.old k × Seen kind table.now firsts.old seen.old k) }
    requires room { (k < 65535) × ((k < length firsts.old) × ((k < length others.old) × (0 < length slots.old))) }
    ensures { Entered kind table.now firsts.old firsts.new others.new slots.new k place result
        × Seen kind table.now firsts.new seen.new (max k result) × (result ≤ k + 1) }
{
    let known = known_at(seen, place);
    if known != 0 {
        return known as usize;
    }
    if fields::u32_at(table, place as usize) == 0 {
        return 0;
    }
    let number = enter(table, kind, firsts, others, slots, k, place);
    note_number(seen, place, number as u16);
    number
}
