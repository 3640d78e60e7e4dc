// What is worked out of a line by the meaning of one direction (document 01, "The class walk", "Sharing the gap"
// and "Verdicts"). The definitions stand in specs/; here is only what a line's call is told in numbers, and which of the
// rule's editions it names.
#![tactic(auto)]

ghost use Rattle.std.specs.Prelude.{◌≡◌};
ghost use Rattle.line_rule.specs.Line.{goes_back, known_edition};

use types::Direction;

// A line but for its glyphs, their point sizes and advances: its direction, whether it starts and ends the text, its
// target, in units, and the edition of the rule. It goes by value from the call to where each is used. The edition is a
// number and no enum: one that is neither is handed in too, and refused in its turn (18).
#[derive(Clone, Copy)]
pub struct LineShape {
    pub direction: Direction,
    pub starts: bool,
    pub ends: bool,
    pub target: i32,
    pub edition: u32,
}

// A line as it is lent: beside its shape its glyphs, and the point size and the advance of each. It goes by value too.
#[derive(Clone, Copy)]
pub struct LineView<'a> {
    pub shape: LineShape,
    pub sizes: &'a [u32],
    pub glyphs: &'a [u16],
    pub advances: &'a [i32],
}

// The edition that goes back with what the stages leave, and the one that stops at the limits.
const GOING_BACK: u32 = 1;

const STOPPING: u32 = 2;

pub fn goes_back(edition: u32) -> bool
    ensures { result ≡ goes_back edition }
{
    edition == GOING_BACK
}

// Refusal 18's test.
pub fn known_edition(edition: u32) -> bool
    ensures { result ≡ known_edition edition }
{
    goes_back(edition) || edition == STOPPING
}
