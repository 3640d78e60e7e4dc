// One call for a line (document 01, demand 2): its classes, movements, remainder and verdicts, or the refusal.
// Here: all of it but the storing of the verdicts, whose bits `settle` leaves in a lent room. No lent class or movement is written before every refusal is judged.
#![tactic(auto)]

ghost use Rattle.std.specs.Prelude.{◌≡◌, List, ◌*◌, ◌≤◌, length};
ghost use Rattle.types.specs.declared.Verdict.{Verdict};
ghost use Rattle.line_rule.specs.Line.{verdicts_of};
ghost use Rattle.line_rule.specs.Shape.{line_in};
ghost use Rattle.line_call.specs.Justified.{side_for, justified};
ghost use Rattle.line_call.specs.Settle.{SameSlices, lent_with, settlement_of, settlement_in, stored_by, BitRoom, Tells};
ghost use Rattle.line_call.specs.Steps.{Admitted, work_fault, WorkedOut, Counted, WorkRoom, RoomIn, Deliverable, Delivered, SettledCall};

use fields::{Fault, Refusal};
use line_rule::LineView;

// What a line's call answers where nothing bars the line: the remainder in units, the count of entries that the class walk took,
// and the count of verdicts.
#[derive(Clone, Copy)]
pub struct Justified {
    pub remainder: i32,
    pub entries: u32,
    pub verdicts: u32,
}

// The slices that a line's call fills: a class, a before and an after movement for each glyph.
#[derive(Drop)]
pub struct Lent<'a> {
    pub classes: &'a mut [u8],
    pub before: &'a mut [i32],
    pub after: &'a mut [i32],
}

// What is left to say of a line that is worked out: whether it shrinks, the remainder in units, the count of entries that the
// class walk took, and the count of verdicts.
#[derive(Clone, Copy)]
struct Tally {
    shrink: bool,
    remainder: i32,
    entries: u32,
    verdicts: usize,
}

// What one of a line's own refusals bars it by: the offset of each is 0.
fn barred(refusal: Refusal) -> Fault
    ensures { result ≡ record { refusal = refusal; at = 0 } }
{
    Fault { refusal, at: 0 }
}

// Refusals 12 to 15; where nothing bars the line, `held` gets its classes and `moves` its movements without their sign, and no
// verdict is found yet. `factors` is room for the factors of its sides.
fn share_out(
    table: &[u8],
    count: u32,
    line: LineView<'_>,
    held: &mut [u8],
    moves: &mut [u64],
    factors: &mut [u64],
) -> Result<Tally, Fault>
    requires { Admitted table.now count line.sizes.now line.glyphs.now × WorkRoom (length line.glyphs.now) held.old moves.old factors.old }
    ensures { let s = side_for table.now count (line_in line.entry) in WorkedOut (work_fault s count (line_in line.entry)) 0 s (line_in line.entry) result held.new moves.new }
{
    let gap = line_input::gap_of(line).ok_or(barred(Refusal::Advances))?;
    let known = line_input::all_known(count, line.glyphs);
    fields::ruled(known, Refusal::UnknownGlyph, 0)?;
    let walked = line_moves::line_walk(table, count, line, held);
    let entries = walked.ok_or(barred(Refusal::EndlessWalk))?;
    let shared = line_moves::share_glyphs(table, count, line, gap, held, factors, moves);
    let left = shared.ok_or(barred(Refusal::StageTotal))?;
    Ok(Tally {
        shrink: line_moves::shrinks(gap),
        remainder: left.0 as i32,
        entries,
        verdicts: 0,
    })
}

// Refusals 12 to 16; where nothing bars the line, `work` gets the bits of its verdicts, for which there is `room`.
fn work_out(
    table: &[u8],
    count: u32,
    line: LineView<'_>,
    room: usize,
    held: &mut [u8],
    moves: &mut [u64],
    work: &mut [u64],
) -> Result<Tally, Fault>
    requires { Admitted table.now count line.sizes.now line.glyphs.now × WorkRoom (length line.glyphs.now) held.old moves.old work.old }
    ensures { Counted (side_for table.now count (line_in line.entry)) count (line_in line.entry) room result held.new moves.new work.new }
{
    let tally = share_out(table, count, line, held, moves, work)?;
    let verdicts = line_verdicts::keep_verdicts(
        table,
        count,
        line,
        tally.shrink,
        held,
        moves,
        work,
    );
    fields::ruled(verdicts <= room, Refusal::ShortRoom, 0)?;
    Ok(Tally { verdicts, ..tally })
}

// The classes go into the lent slice. One by one: a copy whose length is known only when it runs would have the archive ask for
// memmove, which it needs for nothing else.
fn put_classes(held: &[u8], classes: &mut [u8])
    requires { length held.now ≡ length classes.old }
    ensures { classes.new ≡ held.now }
{
    for i in 0..held.len() {
        classes[i] = held[i];
    }
}

// What is worked out of a line goes into the lent slices: the classes, and the movements with their sign.
fn deliver(tally: Tally, held: &[u8], moves: &[u64], lent: &mut Lent<'_>) -> Justified
    requires { Deliverable tally held.now moves.now × RoomIn (length held.now) lent.old }
    ensures same { SameSlices lent.old lent.new }
    ensures delivered { Delivered tally held.now moves.now result lent.new.classes.now lent.new.before.now lent.new.after.now }
{
    put_classes(held, lent.classes);
    share::copy_signed(tally.shrink, moves, lent.before, lent.after);
    Justified {
        remainder: tally.remainder,
        entries: tally.entries,
        verdicts: tally.verdicts as u32,
    }
}

// Refusals 12 to 16, over zeros for the classes and the movements; where nothing bars the line, they are delivered.
fn settle_in(
    table: &[u8],
    count: u32,
    line: LineView<'_>,
    room: usize,
    held: &mut [u8],
    moves: &mut [u64],
    lent: &mut Lent<'_>,
    work: &mut [u64],
) -> Result<Justified, Fault>
    requires { Admitted table.now count line.sizes.now line.glyphs.now × WorkRoom (length line.glyphs.now) held.old moves.old work.old × RoomIn (length line.glyphs.now) lent.old }
    ensures same { SameSlices lent.old lent.new }
    ensures settled { SettledCall table.now count (line_in line.entry) room lent.old result lent.new work.new }
{
    let tally = work_out(table, count, line, room, held, moves, work)?;
    Ok(deliver(tally, held, moves, lent))
}

// The same, with room of its own for the classes and movements of so many glyphs, which have so many sides.
fn settle_sized<const GLYPHS: usize, const SIDES: usize>(
    table: &[u8],
    count: u32,
    line: LineView<'_>,
    room: usize,
    lent: &mut Lent<'_>,
    work: &mut [u64],
) -> Result<Justified, Fault>
    requires enough { (length line.glyphs.now ≤ GLYPHS) × (2 * length line.glyphs.now ≤ SIDES) × (GLYPHS ≤ 1024) × (SIDES ≤ 2048) }
    requires admitted { Admitted table.now count line.sizes.now line.glyphs.now × (length work.old ≡ 2 * length line.glyphs.now) × RoomIn (length line.glyphs.now) lent.old }
    ensures same { SameSlices lent.old lent.new }
    ensures settled { SettledCall table.now count (line_in line.entry) room lent.old result lent.new work.new }
{
    let n = line.glyphs.len();
    let m = 2 * n;
    let mut held = [0u8; GLYPHS];
    let mut moves = [0u64; SIDES];
    settle_in(
        table,
        count,
        line,
        room,
        &mut held[..n],
        &mut moves[..m],
        lent,
        work,
    )
}

// The same, in the smaller of two rooms where that is enough: most lines are short, and less room is sooner cleared.
fn settle_with_room(
    table: &[u8],
    count: u32,
    line: LineView<'_>,
    room: usize,
    lent: &mut Lent<'_>,
    work: &mut [u64],
) -> Result<Justified, Fault>
    requires { Admitted table.now count line.sizes.now line.glyphs.now × (length work.old ≡ 2 * length line.glyphs.now) × RoomIn (length line.glyphs.now) lent.old }
    ensures same { SameSlices lent.old lent.new }
    ensures settled { SettledCall table.now count (line_in line.entry) room lent.old result lent.new work.new }
{
    if line.glyphs.len() <= 128 {
        return settle_sized::<128, 256>(table, count, line, room, lent, work);
    }
    settle_sized::<1024, 2048>(table, count, line, room, lent, work)
}

// All of a line's call but the storing of its verdicts, for which there is `room`: their bits are left in `work`.
pub fn settle(
    table: &[u8],
    count: u32,
    line: LineView<'_>,
    room: usize,
    lent: &mut Lent<'_>,
    work: &mut [u64],
) -> Result<Justified, Fault>
    requires { BitRoom (length line.glyphs.now) work.old }
    ensures same { SameSlices lent.old lent.new }
    ensures settled { ((verdicts : List Verdict) → length verdicts ≡ room →
        settlement_of result lent.new
        ≡ settlement_in (justified table.now count (line_in line.entry) (lent_with lent.old verdicts)))
        × Tells (stored_by result) (verdicts_of (side_for table.now count (line_in line.entry)) (line_in line.entry)) work.new }
{
    line_input::input_fault(
        table,
        count,
        line,
        lent.classes.len(),
        lent.before.len(),
        lent.after.len(),
    )?;
    let m = 2 * line.glyphs.len();
    settle_with_room(table, count, line, room, lent, &mut work[..m])
}
