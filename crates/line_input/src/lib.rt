// Whether a line's input may be (document 01, "Numbers of refusal", 9 to 13, and 18 of document 02). `input_fault` judges the table, the
// lengths of the slices, the number of glyphs, the edition and the point sizes; the advances with the target, which give the gap, and the
// glyphs are judged after it, by `gap_of` and `all_known`.
#![tactic(auto)]

ghost use Rattle.std.specs.Prelude.{◌≡◌, ◌||◌, [], ◌∷◌, eqb, ltb};
ghost use Rattle.line_rule.specs.Shape.{line_in};
ghost use Rattle.line_input.specs.Input.{all_long, good_size, good_sizes, all_known};
ghost use Rattle.line_input.specs.Steps.{input_fault, sum_in, gap_in};

use fields::{Fault, Refusal};
use line_rule::LineView;
use units::Units;

// The most units that advances may sum to, and the most that a target may be.
const MOST_UNITS: u64 = 1073741823;

// The most glyphs of a line.
const LONGEST: usize = 1024;

// The most units of a point size: 1,024 points.
const LARGEST: u32 = 67108864;

// Refusal 9's test.
fn equal_lengths(glyphs: usize, lengths: [usize; 5]) -> bool
    ensures { result ≡ all_long glyphs lengths }
{
    lengths.iter().all(|length| *length == glyphs)
}

// Whether a size is within its bounds.
fn good_size(size: u32) -> bool
    ensures { result ≡ good_size size }
{
    1 <= size && size <= LARGEST
}

// Refusal 11's test.
fn good_sizes(sizes: &[u32]) -> bool
    ensures { result ≡ good_sizes sizes.now }
{
    sizes.iter().all(|size| good_size(*size))
}

// The table's refusals, then 9, 10, 18 and 11; `classes`, `before` and `after` are the lengths of what is lent for them.
#[tactic(auto, unfolding(fields::specs::Faults::earlier, crate::specs::Steps::input_fault))]
pub fn input_fault(
    table: &[u8],
    count: u32,
    line: LineView<'_>,
    classes: usize,
    before: usize,
    after: usize,
) -> Result<(), Fault>
    ensures { result ≡ input_fault table.now count (line_in line.entry)
        (classes ∷ before ∷ after ∷ []) }
{
    table::table_fault(table, count)?;
    let n = line.glyphs.len();
    let sizes = line.sizes.len();
    let advances = line.advances.len();
    let equal = equal_lengths(n, [sizes, advances, classes, before, after]);
    fields::ruled(equal, Refusal::UnequalLengths, 0)?;
    fields::ruled(n <= LONGEST, Refusal::LongLine, 0)?;
    let known = line_rule::known_edition(line.shape.edition);
    fields::ruled(known, Refusal::UnknownEdition, 0)?;
    fields::ruled(good_sizes(line.sizes), Refusal::PointSize, 0)
}

// The sum of advances of which none is negative, if it is at most the most that it may be.
#[tactic(auto, using(crate::proofs::Gaps::added_start))]
fn sum_of(advances: &[i32]) -> Option<Units>
    ensures { result ≡ sum_in advances.now }
{
    let mut sum: u64 = 0;
    for advance in advances {
        if *advance < 0 {
            return None;
        }
        sum += *advance as u64;
        if MOST_UNITS < sum {
            return None;
        }
    }
    Some(Units(sum as i64))
}

// The gap, negative where the line shrinks, unless refusal 12 bars the line.
#[tactic(auto, using(crate::proofs::Gaps::gap_by_sum))]
pub fn gap_of(line: LineView<'_>) -> Option<Units>
    ensures { result ≡ gap_in (line_in line.entry) }
{
    let sum = sum_of(line.advances)?;
    let target = line.shape.target;
    if target < 0 {
        return None;
    }
    if MOST_UNITS < target as u64 {
        return None;
    }
    Some(Units(i64::from(target) - sum.0))
}

// Whether a glyph is one of the font's, or deleted.
fn known(count: u32, glyph: u16) -> bool
    ensures { result ≡ (ltb glyph count || eqb glyph 0xFFFF) }
{
    u32::from(glyph) < count || glyph == 0xFFFF
}

// Refusal 13's test.
pub fn all_known(count: u32, glyphs: &[u16]) -> bool
    ensures { result ≡ all_known count glyphs.now }
{
    glyphs.iter().all(|glyph| known(count, *glyph))
}
