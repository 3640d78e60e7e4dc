// Verdicts in a lent list of records (document 01, "Verdicts" and "What form to use where"): one thin function stores
// a record; which verdicts there are is found while they are counted, and kept as bits in a room until they are stored.
#![tactic(auto)]

ghost use Rattle.std.specs.Prelude.{◌≡◌, ◌<◌, length, set};
ghost use Rattle.line_verdicts.specs.Bits.{told};
ghost use Rattle.line_call.specs.Justified.{justified};
ghost use Rattle.line_call.specs.Settle.{SameSlices, BitRoom, lent_by, lent_with};
ghost use Rattle.line_rule.specs.Shape.{line_by, line_in};
ghost use Rattle.line_justify.specs.Outcome.{outcome_is, outcome_of};
ghost use Rattle.line_justify.specs.Stored.{filled_with, Storable};

use fields::Fault;
use line_call::{Justified, Lent};
use line_rule::{LineShape, LineView};
use line_verdicts::VerdictCursor;
use types::Verdict;

// The one place where a record is stored.
fn store(list: &mut [Verdict], at: usize, verdict: Verdict)
    requires { at < length list.old }
    ensures { list.new ≡ set list.old at verdict }
{
    list[at] = verdict;
}

// The first n verdicts that the bits tell go into the list.
fn fill(list: &mut [Verdict], bits: &[u64], n: usize)
    requires { Storable bits.now n (length list.old) }
    ensures { list.new ≡ filled_with (told bits.now) n list.old }
{
    let mut cursor = VerdictCursor::start();
    for at in 0..n {
        store(list, at, cursor.next_verdict(bits));
    }
}

// The call, over room for two numbers of each glyph.
fn justify_in(
    table: &[u8],
    count: u32,
    line: LineView<'_>,
    lent: &mut Lent<'_>,
    verdicts: &mut [Verdict],
    work: &mut [u64],
) -> Result<Justified, Fault>
    requires { BitRoom (length line.glyphs.now) work.old }
    ensures same { SameSlices lent.old lent.new }
    ensures outcome { outcome_of result lent.new verdicts.new ≡ justified table.now count (line_in line.entry) (lent_with lent.old verdicts.old) }
{
    let justified = line_call::settle(table, count, line, verdicts.len(), lent, work)?;
    fill(verdicts, work, justified.verdicts as usize);
    Ok(justified)
}

// One call for a line: its classes, movements, remainder and verdicts, or the refusal.
pub fn justify<'a, 'v>(
    table: &'a [u8],
    count: u32,
    shape: LineShape,
    sizes: &'a [u32],
    glyphs: &'a [u16],
    advances: &'a [i32],
    classes: &'a mut [u8],
    before: &'a mut [i32],
    after: &'a mut [i32],
    verdicts: &'v mut [Verdict],
) -> Result<Justified, Fault>
    ensures { outcome_is result classes.new before.new after.new verdicts.new
        ≡ justified table.now count
        (line_by shape sizes.now glyphs.now advances.now)
        (lent_by classes.old before.old after.old verdicts.old) }
{
    let line = LineView {
        shape,
        sizes,
        glyphs,
        advances,
    };
    let mut lent = Lent {
        classes,
        before,
        after,
    };
    // Most lines are short, and less room is sooner cleared.
    if glyphs.len() <= 128 {
        let mut work = [0u64; 256];
        return justify_in(table, count, line, &mut lent, verdicts, &mut work);
    }
    let mut work = [0u64; 2048];
    justify_in(table, count, line, &mut lent, verdicts, &mut work)
}
