// What differs in the glyphs' clusters, or in their action lists, in two tables (document 02, 6/14), stored into lent numbers
// by stretches of glyphs that have one place in each table; past the end of the room a stretch is only counted, by a product.
// Two places are compared once for a stretch, and not again where the next stretch has them too, or where they are kept as
// holding the same.
#![tactic(auto)]

ghost use Rattle.std.specs.Prelude.{◌≡◌, ℕ, ◌+◌, ◌-◌, ◌*◌, ◌%◌, ◌≤◌, ◌<◌, ◌^◌, length, get_or, set, replicate, Option, Some, None, IsTrue, IfSome};
ghost use Rattle.std.proofs.lemmas.List.Edits.{sets};
ghost use Rattle.meaning.specs.Discrete.{list-discrete};
ghost use Rattle.actions.specs.Actions.{list_at};
ghost use Rattle.write_item.specs.Items.{item_at};
ghost use Rattle.diff_stretches.specs.declared.Both.{Both};
ghost use Rattle.diff_rule.specs.Differences.{mark_of, some_list, list_differs};
ghost use Rattle.diff_rule.specs.Order.{Stores};
ghost use Rattle.diff_rule.specs.Again.{again_through};
ghost use Rattle.diff_glyphs.specs.Glyphs.{places_differ, glyphs_differ, Rises, Comparable, LastCompared, SamePairs};

use diff_rule::{Aspect, Mark};
use diff_stretches::{Both, Sources};
use lookup_targets::Kind;
use types::Direction;

// The numbers of a glyph's differences, at most 128 of five numbers each.
const BLOCK: usize = 640;

// How many pairs of places are kept that hold the same: each has its slot, told by the first of the two.
const KEPT: usize = 64;

// Two places that were compared, and how many differences a glyph has that has them.
#[derive(Clone, Copy)]
struct Compared {
    places: Both<u16>,
    each: usize,
}

// How the lists at two places differ.
fn compare_lists<'a>(one: &'a [u8], other: &'a [u8], places: Both<u16>) -> Option<Mark>
    requires { (length one.now ≤ 2 ^ 15) × (length other.now ≤ 2 ^ 15) }
    ensures { result ≡ mark_of list-discrete (some_list (list_at one.now places.first)) (some_list (list_at other.now places.second)) }
{
    if write_list::same_list(one, other, places.first, places.second) {
        return None;
    }
    if fields::u32_at(one, places.first as usize) == 0 {
        return Some(Mark::OnlySecond);
    }
    if fields::u32_at(other, places.second as usize) == 0 {
        return Some(Mark::OnlyFirst);
    }
    Some(Mark::Changed)
}

// Stores the difference of glyph 0, if its lists stand at two places, and answers where that ends.
fn put_changed_list<'a>(
    one: &'a [u8],
    other: &'a [u8],
    places: Both<u16>,
    direction: Direction,
    block: &mut [u16],
) -> usize
    requires { (length one.now ≤ 2 ^ 15) × (length other.now ≤ 2 ^ 15) }
    ensures { Stores block.old block.new 0 result (list_differs direction 0 (list_at one.now places.first) (list_at other.now places.second)) }
{
    let mark = compare_lists(one, other, places);
    diff_rule::put_noted(block, 0, direction, Aspect::Actions, 0, 0, mark)
}

// Stores the differences of glyph 0, if its clusters or its lists stand at two places, and answers where they end.
fn put_places<'a>(
    one: &'a [u8],
    other: &'a [u8],
    kind: Kind,
    places: Both<u16>,
    direction: Direction,
    block: &mut [u16],
) -> usize
    requires { (length one.now ≤ 2 ^ 15) × (length other.now ≤ 2 ^ 15) × Rises kind (item_at kind one.now places.first) × Rises kind (item_at kind other.now places.second) }
    ensures { Stores block.old block.new 0 result (places_differ kind direction one.now other.now places 0) }
{
    match kind {
        Kind::Clusters => diff_clusters::put_records(
            one,
            other,
            places.first,
            places.second,
            direction,
            0,
            block,
            0,
        ),
        Kind::Lists => put_changed_list(one, other, places, direction, block),
    }
}

// Whether two places are kept as holding the same.
fn is_kept(same: &[Option<Both<u16>>], places: Both<u16>) -> bool
    requires { 64 ≤ length same.now }
    ensures { IsTrue result → get_or same.now (places.first % 64) None ≡ Some places }
{
    same[places.first as usize % KEPT] == Some(places)
}

// Keeps two places as holding the same.
fn keep(same: &mut [Option<Both<u16>>], places: Both<u16>)
    requires { 64 ≤ length same.old }
    ensures { same.new ≡ set same.old (places.first % 64) (Some places) }
{
    same[places.first as usize % KEPT] = Some(places);
}

// Compares two places, unless they were compared last or are kept as holding the same; the block has the differences afterwards.
fn compare_places<'a>(
    one: &'a [u8],
    other: &'a [u8],
    kind: Kind,
    places: Both<u16>,
    direction: Direction,
    last: Option<Compared>,
    block: &mut [u16],
    same: &mut [Option<Both<u16>>],
) -> Compared
    requires { (length one.now ≤ 2 ^ 15) × (length other.now ≤ 2 ^ 15) × Rises kind (item_at kind one.now places.first) × Rises kind (item_at kind other.now places.second)
        × (5 * 128 ≤ length block.old) × IfSome last (LastCompared kind direction one.now other.now block.old) × SamePairs kind direction one.now other.now same.old }
    ensures { (result.places ≡ places) × LastCompared kind direction one.now other.now block.new result
        × SamePairs kind direction one.now other.now same.new }
{
    if let Some(last) = last
        && last.places == places
    {
        return last;
    }
    if is_kept(same, places) {
        return Compared { places, each: 0 };
    }
    let size = put_places(one, other, kind, places, direction, block);
    if size == 0 {
        keep(same, places);
    }
    Compared {
        places,
        each: size / diff_rule::NUMBERS,
    }
}

// Stores the differences of the glyphs from `glyph` on and before `end`: each has `count`, whose numbers `block` begins with.
// Nothing to do where a glyph has none, and only counted where the list ended before.
fn put_stretch(
    block: &[u16],
    count: usize,
    glyph: usize,
    end: usize,
    list: &mut [u16],
    to: usize,
) -> usize
    requires { (5 * count ≤ length block.now) × (count ≤ 128) × (to < 2 ^ 57) × (glyph ≤ end) × (end < 2 ^ 16) }
    ensures { (list.new ≡ sets list.old to (again_through count block.now (end - glyph) glyph))
        × (result ≡ to + length (again_through count block.now (end - glyph) glyph)) × (result ≤ to + 640 * (end - glyph)) }
{
    if count == 0 {
        return to;
    }
    if list.len() <= to {
        return to + (end - glyph) * (diff_rule::NUMBERS * count);
    }
    let mut at = to;
    for g in glyph..end {
        at = diff_rule::put_again(block, count, g as u16, list, at);
    }
    at
}

// Stores the differences of the glyphs, with a block for those of one, and answers where they end.
fn put_by<'a>(
    one: &'a [u8],
    other: &'a [u8],
    sources: Sources,
    direction: Direction,
    block: &mut [u16],
    same: &mut [Option<Both<u16>>],
    list: &mut [u16],
    to: usize,
) -> usize
    requires { Comparable one.now other.now sources × (5 * 128 ≤ length block.old) × (same.old ≡ replicate {A = Option (Both ℕ)} 64 None) × (to < 2 ^ 56) }
    ensures { Stores list.old list.new to result (glyphs_differ direction one.now other.now sources) × (result ≤ to + 2 ^ 26) }
{
    let mut runs = diff_stretches::begin_both(one, other, sources);
    let mut last = None;
    let mut glyph: usize = 0;
    let mut at = to;
    // By stretches, each as long as the two tables have it.
    while glyph < sources.glyphs {
        let kind = sources.kind;
        let next = diff_stretches::next_stretch(one, other, sources, runs, glyph);
        let compared = compare_places(one, other, kind, next.places, direction, last, block, same);
        at = put_stretch(block, compared.each, glyph, next.end, list, at);
        last = Some(compared);
        runs = next.runs;
        glyph = next.end;
    }
    at
}

// Stores the differences of the glyphs, and answers where they end.
pub fn put_items<'a>(
    one: &'a [u8],
    other: &'a [u8],
    sources: Sources,
    direction: Direction,
    list: &mut [u16],
    to: usize,
) -> usize
    requires { Comparable one.now other.now sources × (to < 2 ^ 56) }
    ensures { Stores list.old list.new to result (glyphs_differ direction one.now other.now sources) × (result ≤ to + 2 ^ 26) }
{
    let mut block = [0u16; BLOCK];
    let mut same = [None; KEPT];
    put_by(
        one, other, sources, direction, &mut block, &mut same, list, to,
    )
}
