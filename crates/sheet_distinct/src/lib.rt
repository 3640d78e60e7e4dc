// Whether no two of many items are alike (document 01, "The sheet", sections 5 and 7: distinct as written). The items
// are stretches of bytes between offsets. The bytes of an item tell its slot, so that items alike share one. An item that
// finds its slot taken is compared with the first that took it, and set aside; those set aside get slots once more, told
// otherwise, and the numbers of those set aside again are sorted by content, and neighbours compared. The cost stays near
// the bytes' and, whatever the items are, not near the square of their count.
#![tactic(auto)]

ghost use Rattle.std.specs.Prelude.{◌≡◌, ◌/◌, ◌-◌, ◌≤◌, ◌<◌, ◌^◌, length, take};
ghost use Rattle.std.specs.Ordering.{nat_cmp};
ghost use Rattle.std.specs.Cmp.Lexicographic.{slice_cmp};
ghost use Rattle.encoding.specs.Tests.{Says};
ghost use Rattle.sheet_distinct.specs.Order.{stretch, Apart, up_from};
ghost use Rattle.sheet_distinct.specs.Slots.{mixed_by, slot_of, slot_by, edge, Unused, DistinctRooms, Thinned, Under, ThinnedAgain};

use std::cmp::Ordering;

// Odd factors that carry a word's low bits up: the second tells apart what the first does not.
const FACTOR: u32 = 2654435761;

const SECOND_FACTOR: u32 = 2246822519;

// So many, and one more for so many slots, are sorted without more ado, since the slots have to be cleared before they
// serve again.
const FEW: usize = 20;

const SLOTS_FOR_ONE: usize = 1024;

// Words of 32 bits, one after the other, mixed into 32 bits by a factor.
fn mix(words: &[u8], factor: u32) -> u32
    ensures { result ≡ mixed_by factor words.now (length words.now / 4) 0 0 }
{
    let mut sum: u32 = 0;
    for i in 0..words.len() / 4 {
        let word = fields::u32_in(words, 4 * i) as u32;
        sum = sum.wrapping_add(word).wrapping_mul(factor);
    }
    sum
}

// Items that stand one after the other in bytes: each is the stretch from one offset to the next.
#[derive(Clone, Copy)]
struct Stretches<'a> {
    bytes: &'a [u8],
    offsets: &'a [usize],
}

impl<'a> Stretches<'a> {
    // Offset i, or the end of the bytes where it lies past them; 0 where there is none.
    fn offset(&self, i: usize) -> usize
        ensures { (result ≡ edge self.now.bytes.now self.now.offsets.now i) × (result ≤ length self.now.bytes.now) }
    {
        let offset = self.offsets.get(i).copied().unwrap_or(0);
        offset.min(self.bytes.len())
    }

    // Stretch k.
    fn get(&self, k: u16) -> &'a [u8]
        ensures { result.now ≡ stretch self.now.bytes.now self.now.offsets.now k }
    {
        let from = self.offset(usize::from(k));
        let to = self.offset(usize::from(k) + 1);
        if to < from {
            return &[];
        }
        &self.bytes[from..to]
    }

    // The slot, of `slots`, of stretch k by a factor: the upper bits of its words mixed. What stands before them, up to three
    // bytes of the count with which an item begins, is left out.
    fn slot_told(&self, factor: u32, k: u16, slots: usize) -> usize
        requires { (0 < slots) × (slots ≤ 2 ^ 17) }
        ensures { (result ≡ slot_by factor slots (stretch self.now.bytes.now self.now.offsets.now k)) × (result < slots) }
    {
        let stretch = self.get(k);
        let words = &stretch[stretch.len() % 4..];
        mix(words, factor) as usize * slots / 4294967296
    }

    // The slot of stretch k when all get one.
    fn slot(&self, k: u16, slots: usize) -> usize
        requires { (0 < slots) × (slots ≤ 2 ^ 17) }
        ensures { (result ≡ slot_of slots (stretch self.now.bytes.now self.now.offsets.now k)) × (result < slots) }
    {
        self.slot_told(FACTOR, k, slots)
    }

    // Which of two stretches comes first, as words in a dictionary.
    fn order(&self, x: u16, y: u16) -> Ordering
        ensures { result ≡ slice_cmp nat_cmp (stretch self.now.bytes.now self.now.offsets.now x) (stretch self.now.bytes.now self.now.offsets.now y) }
    {
        self.get(x).cmp(&self.get(y))
    }

    // Whether no two of the numbers stand for the same bytes: each, once they are sorted, has to come later than the one before.
    fn apart(&self, numbers: &mut [u16]) -> bool
        ensures { Says result (Apart (stretch self.now.bytes.now self.now.offsets.now) numbers.old) }
    {
        numbers.sort_unstable_by(|x, y| self.order(*x, *y));
        numbers.is_sorted_by(|x, y| self.order(*x, *y).is_lt())
    }

    // Leaves the numbers, of the first `count` stretches, that are still to be compared with each other, and says how many.
    // `firsts` holds the number, plus one, of the first stretch of each slot; 0 is a slot with none, since an Option takes twice
    // the room, which is cleared for each section. Where one is like the first of its slot, those two are left alone.
    fn thin(&self, count: usize, numbers: &mut [u16], firsts: &mut [u16]) -> usize
        requires { (count < 2 ^ 16) × DistinctRooms count numbers.old firsts.old }
        ensures { Thinned (stretch self.now.bytes.now self.now.offsets.now) count result numbers.new × Under (2 ^ 16 - 1) (take result numbers.new) }
    {
        let mut left: usize = 0;
        for k in 0..count {
            let number = k as u16;
            let slot = self.slot(number, firsts.len());
            let first = firsts[slot];
            if first == 0 {
                firsts[slot] = number + 1;
            } else if self.get(first - 1) == self.get(number) {
                numbers[0] = first - 1;
                numbers[1] = number;
                return 2;
            } else {
                numbers[left] = number;
                left += 1;
            }
        }
        left
    }

    // The same of these numbers alone, by the second factor; none where two of them are alike.
    fn thin_again(&self, numbers: &mut [u16], firsts: &mut [u16]) -> Option<usize>
        requires { Under (2 ^ 16 - 1) numbers.old × (0 < length firsts.old) × (length firsts.old ≤ 2 ^ 17) × Unused firsts.old }
        ensures { ThinnedAgain (stretch self.now.bytes.now self.now.offsets.now) numbers.old result numbers.new }
    {
        let mut left: usize = 0;
        for i in 0..numbers.len() {
            let number = numbers[i];
            let slot = self.slot_told(SECOND_FACTOR, number, firsts.len());
            let first = firsts[slot];
            if first == 0 {
                firsts[slot] = number + 1;
            } else if self.get(first - 1) == self.get(number) {
                return None;
            } else {
                numbers[left] = number;
                left += 1;
            }
        }
        Some(left)
    }
}

// Whether no two of the first `count` stretches between offsets are alike; `numbers` and `firsts` are rooms to work in.
pub fn distinct(
    bytes: &[u8],
    offsets: &[usize],
    count: usize,
    numbers: &mut [u16],
    firsts: &mut [u16],
) -> bool
    requires { (count < 2 ^ 16) × DistinctRooms count numbers.old firsts.old }
    ensures { Says result (Apart (stretch bytes.now offsets.now) (up_from 0 count)) }
{
    if count < 2 {
        return true;
    }
    let stretches = Stretches { bytes, offsets };
    let left = stretches.thin(count, numbers, firsts);
    if left <= FEW + firsts.len() / SLOTS_FOR_ONE {
        return stretches.apart(&mut numbers[..left]);
    }
    firsts.fill(0);
    let Some(last) = stretches.thin_again(&mut numbers[..left], firsts) else {
        return false;
    };
    stretches.apart(&mut numbers[..last])
}
