// What a line's call works out before its verdicts (document 01, "The class walk" and "Sharing the gap"), from an
// accepted table: the classes of the line's glyphs, the part of each glyph, and the movements of its two sides.
#![tactic(auto)]

ghost use Rattle.std.specs.Prelude.{◌≡◌, cond, ◌+◌, ◌*◌, ◌≤◌, ◌<◌, pos, nat_abs, length, replicate};
ghost use Rattle.std.specs.Int.Signed.{lt_z};
ghost use Rattle.fields.specs.Faults.{Clear};
ghost use Rattle.meaning.specs.Limits.{em_limit};
ghost use Rattle.meaning.specs.Ask.{side_of};
ghost use Rattle.cluster.specs.Pairs.{sought_pair};
ghost use Rattle.lookup_targets.specs.declared.Kind.TheVariants.{Clusters};
ghost use Rattle.table.specs.Table.{table_fault};
ghost use Rattle.table.specs.Means.{meaning_of};
ghost use Rattle.table_ask.specs.Places.{lookup_in, Readable};
ghost use Rattle.class_walk.specs.Line.{HandedOut};
ghost use Rattle.line_rule.specs.Line.{walk_of, record_for, part_by, part_of, parts_of};
ghost use Rattle.line_rule.specs.Shape.{line_in};
ghost use Rattle.line_input.specs.Input.{KnownGlyphs};
ghost use Rattle.line_moves.specs.Parts.{Small, IsLimit, glyph_of, Layable, Laying, LaidOut, Sharable, SharedGap};

use line_rule::LineView;
use lookup_targets::Kind;
use share::Totals;
use table_ask::Lookup;
use types::{Direction, Pair};
use units::{Ems, Units};

// A glyph's part in the sharing of the gap: its stage priority, 1 where it is unlimited and else 0, and the factors of
// its before and its after side.
#[derive(Clone, Copy)]
struct GlyphPart {
    pub priority: u8,
    pub extra: u8,
    pub before: Units,
    pub after: Units,
}

// The priority of a glyph that has no record, and takes no part: no stage.
const APART: u8 = 15;

// The walk of a line by the machine of a direction, which stores the glyphs' classes over zeros; with no machine, every
// class 0 and no entry taken. Answers the count of entries, unless the walk never ends.
pub fn line_walk(table: &[u8], count: u32, line: LineView<'_>, classes: &mut [u8]) -> Option<u32>
    requires judged { table_fault table.now count ≡ Clear }
    requires short { length line.glyphs.now ≤ 1024 }
    requires known { KnownGlyphs count line.glyphs.now }
    requires zeros { classes.old ≡ replicate (length line.glyphs.now) 0 }
    ensures { HandedOut (walk_of (side_of line.entry.shape.direction (meaning_of table.now count)).machine (line_in line.entry)) result classes.new }
{
    let shape = line.shape;
    let offset = table_ask::machine_in(table, shape.direction);
    if offset == 0 {
        return Some(0);
    }
    let here = offset + machine::UNREAD;
    class_walk::walk_line(table, here, line.glyphs, shape.starts, shape.ends, classes)
}

// The limit of a width record.
fn limit_of(limit: u32) -> Ems
    requires { limit ≤ em_limit }
    ensures { result.0 ≡ pos limit }
{
    Ems(i64::from(limit))
}

// A glyph's part by the flags and limits of one direction of the gap.
#[tactic(auto, using(crate::proofs::Parts::factor_size))]
fn part_by(size: u32, flags: u16, before: Ems, after: Ems) -> GlyphPart
    requires { IsLimit before.0 × IsLimit after.0 }
    ensures { glyph_of result ≡ part_by size flags (nat_abs before.0) (nat_abs after.0) }
{
    GlyphPart {
        priority: units::priority(flags),
        extra: u8::from(units::is_unlimited(flags)),
        before: units::factor(before, size),
        after: units::factor(after, size),
    }
}

// The part of a glyph with this width record, or with none.
fn part_of(shrink: bool, size: u32, sought: Option<Pair>) -> GlyphPart
    requires { Small (sought_pair sought) }
    ensures { glyph_of result ≡ part_of shrink size (sought_pair sought) }
{
    let Some(pair) = sought else {
        return GlyphPart {
            priority: APART,
            extra: 0,
            before: Units(0),
            after: Units(0),
        };
    };
    if shrink {
        let before = limit_of(pair.before.shrink);
        part_by(size, pair.flags.shrink, before, limit_of(pair.after.shrink))
    } else {
        let before = limit_of(pair.before.grow);
        part_by(size, pair.flags.grow, before, limit_of(pair.after.grow))
    }
}

// Whether a line with this gap shrinks.
pub fn shrinks(gap: Units) -> bool
    ensures { result ≡ lt_z gap.0 (pos 0) }
{
    gap.0 < 0
}

// A glyph's width record for its class, by the lookup of its direction's clusters.
fn record_for(
    table: &[u8],
    count: u32,
    direction: Direction,
    clusters: Option<Lookup>,
    glyph: u16,
    class: u8,
) -> Option<Pair>
    requires judged { table_fault table.now count ≡ Clear }
    requires looked_up { (clusters ≡ lookup_in table.now direction Clusters) × Readable table.now clusters }
    ensures { (sought_pair result ≡ record_for (side_of direction (meaning_of table.now count)) glyph class) × Small (sought_pair result) }
{
    let at = table_ask::spot_by(table, count, Kind::Clusters, clusters, glyph)?;
    table_reader::record_by(table, at as u32, class)
}

// One glyph's part, stored at its place: its two sides and their factors. Answers the two factors together.
fn lay_part(part: GlyphPart, place: usize, sides: &mut [u8], factors: &mut [u64]) -> u64
    requires layable { Layable (glyph_of part) }
    requires room { (2 * place + 1 < length sides.old) × (2 * place + 1 < length factors.old) }
    ensures { Laying (glyph_of part) place sides.old factors.old result sides.new factors.new }
{
    sides[2 * place] = share::side_number(part.priority, 0);
    sides[2 * place + 1] = share::side_number(part.priority, part.extra);
    let before = part.before.0.unsigned_abs();
    let after = part.after.0.unsigned_abs();
    factors[2 * place] = before;
    factors[2 * place + 1] = after;
    before + after
}

// The parts of a line's glyphs, each at its own size, side by side; answers the totals of the stages. Two factors a glyph, none
// above 1,073,741,824, and 1,024 glyphs: no sum passes 2 to the power 41.
fn lay_parts(
    table: &[u8],
    count: u32,
    line: LineView<'_>,
    shrink: bool,
    classes: &[u8],
    sides: &mut [u8],
    factors: &mut [u64],
) -> Totals
    requires sharable { Sharable table.now count line.sizes.now line.glyphs.now classes.now }
    requires room { (length sides.old ≡ 2 * length line.glyphs.now) × (length factors.old ≡ 2 * length line.glyphs.now) }
    ensures { LaidOut (parts_of (side_of line.entry.shape.direction (meaning_of table.now count)) shrink line.entry.sizes.now line.entry.glyphs.now classes.now) result sides.new factors.new }
{
    let direction = line.shape.direction;
    let sizes = line.sizes;
    let glyphs = line.glyphs;
    let clusters = table_ask::lookup_in(table, direction, Kind::Clusters);
    let mut sums = [0u64; share::PRIORITIES as usize];
    for i in 0..glyphs.len() {
        let sought = record_for(table, count, direction, clusters, glyphs[i], classes[i]);
        let part = part_of(shrink, sizes[i], sought);
        let priority = part.priority;
        sums[priority as usize] += lay_part(part, i, sides, factors);
    }
    Totals { sums }
}

// A gap shared over the sides of a line's glyphs, unless refusal 15 bars it, with room for their parts: the sizes of
// their movements go into `moves`, which are all 0; the answer is what remains, with the gap's sign.
fn share_parts(
    table: &[u8],
    count: u32,
    line: LineView<'_>,
    gap: Units,
    classes: &[u8],
    sides: &mut [u8],
    factors: &mut [u64],
    moves: &mut [u64],
) -> Option<Units>
    requires sharable { Sharable table.now count line.sizes.now line.glyphs.now classes.now × (nat_abs gap.0 ≤ 1073741823) }
    requires room { (length sides.old ≡ 2 * length line.glyphs.now) × (length factors.old ≡ 2 * length line.glyphs.now) × (moves.old ≡ replicate (2 * length line.glyphs.now) 0) }
    ensures { SharedGap gap.0 (side_of line.entry.shape.direction (meaning_of table.now count)) (line_in line.entry) classes.now moves.old result moves.new }
{
    let shrink = shrinks(gap);
    let totals = lay_parts(table, count, line, shrink, classes, sides, factors);
    if !share::totals_fit(totals) {
        return None;
    }
    let back = line_rule::goes_back(line.shape.edition);
    let left = share::share_line(back, gap.0.unsigned_abs(), totals, sides, factors, moves);
    Some(Units(i64::from(share::signed(shrink, left))))
}

// The same, with room of its own for the parts of glyphs with so many sides.
fn share_sized<const SIDES: usize>(
    table: &[u8],
    count: u32,
    line: LineView<'_>,
    gap: Units,
    classes: &[u8],
    factors: &mut [u64],
    moves: &mut [u64],
) -> Option<Units>
    requires enough { (2 * length line.glyphs.now ≤ SIDES) × (SIDES ≤ 2048) }
    requires sharable { Sharable table.now count line.sizes.now line.glyphs.now classes.now × (nat_abs gap.0 ≤ 1073741823) }
    requires lent { (length factors.old ≡ 2 * length line.glyphs.now) × (moves.old ≡ replicate (2 * length line.glyphs.now) 0) }
    ensures { SharedGap gap.0 (side_of line.entry.shape.direction (meaning_of table.now count)) (line_in line.entry) classes.now moves.old result moves.new }
{
    let mut sides = [0u8; SIDES];
    let m = 2 * line.glyphs.len();
    share_parts(
        table,
        count,
        line,
        gap,
        classes,
        &mut sides[..m],
        factors,
        moves,
    )
}

// A gap shared over the sides of a line's glyphs, unless refusal 15 bars it: the sizes of their movements go into `moves`,
// which are all 0. `factors` is room for the factors of the sides.
pub fn share_glyphs(
    table: &[u8],
    count: u32,
    line: LineView<'_>,
    gap: Units,
    classes: &[u8],
    factors: &mut [u64],
    moves: &mut [u64],
) -> Option<Units>
    requires sharable { Sharable table.now count line.sizes.now line.glyphs.now classes.now × (nat_abs gap.0 ≤ 1073741823) }
    requires lent { (length factors.old ≡ 2 * length line.glyphs.now) × (moves.old ≡ replicate (2 * length line.glyphs.now) 0) }
    ensures { SharedGap gap.0 (side_of line.entry.shape.direction (meaning_of table.now count)) (line_in line.entry) classes.now moves.old result moves.new }
{
    // Most lines are short, and less room is sooner cleared.
    if line.glyphs.len() <= 128 {
        return share_sized::<256>(table, count, line, gap, classes, factors, moves);
    }
    share_sized::<2048>(table, count, line, gap, classes, factors, moves)
}
