// The call for a line for programs in C and other languages (document 01, demand 2), in the conventions of `just_c`:
// numbers, slices (a pointer, then a length) and structs of C layout; a refusal is its number, 0 for none, and its offset; a direction
// is 0 for horizontal, any other number for vertical. specs/LineInC.antt says what the struct holds.
#![tactic(auto)]

ghost use Rattle.std.specs.Prelude.{◌≡◌};
ghost use Rattle.line_call.specs.Justified.{says_line, justified};
ghost use Rattle.line_rule.specs.Shape.{line_by};
ghost use Rattle.line_call.specs.Settle.{lent_by};
ghost use Rattle.just_line.specs.LineInC.{shape_in, line_in, called_in, called_is};

use fields::Fault;
use line_call::Justified;
use line_rule::LineShape;
use types::{Direction, Verdict};

// The remainder in units, the count of entries that the class walk took, and the count of verdicts.
#[repr(C)]
#[derive(Clone, Copy)]
pub struct JustLine {
    pub refusal: u32,
    pub offset: u64,
    pub remainder: i32,
    pub entries: u32,
    pub verdicts: u32,
}

// What is handed in of a line beside its glyphs, their sizes and advances.
fn shape_in(direction: u32, starts: bool, ends: bool, edition: u32, target: i32) -> LineShape
    ensures { result ≡ shape_in direction starts ends edition target }
{
    LineShape {
        direction: Direction::from(direction),
        starts,
        ends,
        target,
        edition,
    }
}

impl From<Result<Justified, Fault>> for JustLine {
    ghost from_gives = { λ answer line. line ≡ line_in (says_line answer) };

    fn from(answer: Result<Justified, Fault>) -> JustLine {
        match answer {
            Ok(justified) => JustLine {
                refusal: 0,
                offset: 0,
                remainder: justified.remainder,
                entries: justified.entries,
                verdicts: justified.verdicts,
            },
            Err(fault) => JustLine {
                refusal: u32::from(fault.refusal),
                offset: fault.at as u64,
                remainder: 0,
                entries: 0,
                verdicts: 0,
            },
        }
    }
}

// One call for a line: its classes, movements, remainder and verdicts, or the refusal.
#[unsafe(no_mangle)]
pub extern "C" fn just_justify<'a, 'v>(
    table: &'a [u8],
    count: u32,
    direction: u32,
    starts: bool,
    ends: bool,
    edition: u32,
    sizes: &'a [u32],
    glyphs: &'a [u16],
    advances: &'a [i32],
    target: i32,
    classes: &'a mut [u8],
    before: &'a mut [i32],
    after: &'a mut [i32],
    verdicts: &'v mut [Verdict],
) -> JustLine
    ensures { called_is result classes.new before.new after.new verdicts.new
        ≡ called_in (justified table.now count
        (line_by (shape_in direction starts ends edition target) sizes.now glyphs.now advances.now)
        (lent_by classes.old before.old after.old verdicts.old)) }
{
    let shape = shape_in(direction, starts, ends, edition, target);
    let answer = line_justify::justify(
        table, count, shape, sizes, glyphs, advances, classes, before, after, verdicts,
    );
    JustLine::from(answer)
}
