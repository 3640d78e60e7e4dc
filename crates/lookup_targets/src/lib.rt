// What the values of a direction's two lookups lead to (document 01, "The table"): clusters of width records and
// lists of actions. The lookup is judged first, then, glyphs upward, what each value leads to (refusals 4 to 6 and 8).
#![tactic(auto, using(fields::proofs::Walk::walk_steps), unfolding(fields::specs::Faults::earlier, crate::specs::Values::place_fault, crate::specs::Values::target_fault, crate::specs::Values::values_fault, crate::specs::Values::note_at))]

ghost use Rattle.std.specs.Prelude.{◌≡◌, true, cond, ℕ, ◌+◌, ◌-◌, ◌*◌, ◌≤◌, ◌<◌, ◌^◌, min, Some};
ghost use Rattle.fields.specs.Faults.{Clear};
ghost use Rattle.fields.specs.Field.{u16_at};
ghost use Rattle.fields.specs.Walk.{each};
ghost use Rattle.lookup.specs.Lookup.{lookup_fault};
ghost use Rattle.lookup.specs.Pass.{Serves};
ghost use Rattle.actions.specs.Actions.{SpotBelow};
ghost use Rattle.lookup_targets.specs.InC.{kind_in};
ghost use Rattle.lookup_targets.specs.Values.{spot_of, item_fault, place_fault, target_fault, from_glyph, values_fault, NoteTells, besides, Judged, FirstUntold, Told, Ahead, note_at, note_each, note_along};

use fields::Fault;
use lookup::Cursor;
use lookup_runs::Run;

// What a lookup's values lead to.
#[derive(Clone, Copy, PartialEq, Eq)]
pub enum Kind {
    Clusters,
    Lists,
}

// Where the glyphs' clusters or lists come from: a lookup, whose values are offsets from `base`.
#[derive(Clone, Copy)]
pub struct Source {
    pub at: usize,
    pub base: usize,
}

// The lookup that a number names, for programs in C and other languages.
impl From<u32> for Kind {
    ghost from_gives = { λ number kind. kind ≡ kind_in number };

    fn from(number: u32) -> Kind {
        if number == 0 {
            return Kind::Clusters;
        }
        Kind::Lists
    }
}

// Where the list stands that an action value leads to, an offset from `base`; 0 leads nowhere.
fn list_spot(base: usize, value: u16) -> Option<usize>
    requires { base < 2 ^ 16 }
    ensures { (result ≡ spot_of Kind.Lists base (Some value)) × SpotBelow (2 ^ 17) result }
{
    if value == 0 {
        return None;
    }
    Some(base + usize::from(value))
}

// Where the cluster or the list stands that a value leads to, an offset from `base`.
pub fn spot_of(kind: Kind, base: usize, found: Option<u16>) -> Option<usize>
    requires { base < 2 ^ 16 }
    ensures { (result ≡ spot_of kind base found) × SpotBelow (2 ^ 17) result }
{
    let value = found?;
    match kind {
        Kind::Clusters => Some(base + usize::from(value)),
        Kind::Lists => list_spot(base, value),
    }
}

// The functions below hand on table, glyph count, kind, base and the notes apart: in a struct the notes would be lent anew at each
// step, and their contracts would say what stays the same of each part besides.

// The first fault of the cluster or the list at `at`.
fn item_fault(
    table: &[u8],
    glyphs: usize,
    kind: Kind,
    at: usize,
    judged: &mut [u8],
) -> Result<(), Fault>
    requires { Judged table.now glyphs judged.old }
    ensures { (result ≡ item_fault table.now glyphs kind at) × Judged table.now glyphs judged.new }
{
    match kind {
        Kind::Clusters => cluster::cluster_fault(table, at),
        Kind::Lists => actions::list_fault(table, glyphs, at, judged),
    }
}

// Whether a note tells that the cluster or the list there has no fault.
fn tells(kind: Kind, note: usize) -> bool
    ensures { result ≡ true → NoteTells kind note }
{
    match kind {
        Kind::Clusters => note / 2 % 2 == 1,
        Kind::Lists => note % 2 == 1,
    }
}

// A note that tells it besides what it told.
fn note_of(kind: Kind, note: usize) -> u8
    requires { note < 2 ^ 8 }
    ensures { result ≡ besides kind note }
{
    match kind {
        Kind::Clusters => (note / 4 * 4 + (2 + note % 2)) as u8,
        Kind::Lists => (note / 2 * 2 + 1) as u8,
    }
}

// The first fault of the cluster or the list at `at`; where none is found, that is noted in `judged`, so that it is judged
// once.
fn judge(table: &[u8], glyphs: usize, kind: Kind, at: usize, judged: &mut [u8]) -> Result<(), Fault>
    requires { Judged table.now glyphs judged.old }
    ensures { (result ≡ item_fault table.now glyphs kind at) × Judged table.now glyphs judged.new }
{
    item_fault(table, glyphs, kind, at, judged)?;
    let note = note_of(kind, fields::u8_at(judged, at));
    fields::put_u8(judged, at, note);
    Ok(())
}

// Where the cluster or the list stands that the value at `place` leads to.
fn spot_at(table: &[u8], kind: Kind, base: usize, place: usize) -> Option<usize>
    requires { base < 2 ^ 16 }
    ensures { result ≡ spot_of kind base (Some (u16_at table.now place)) }
{
    spot_of(kind, base, Some(fields::u16_at(table, place) as u16))
}

// The first fault of what the value at `place` leads to. It stands inside the loops over values: handing back an answer that
// may hold a fault is slow beside the judging of a small cluster.
#[inline(always)]
fn judge_value(
    table: &[u8],
    glyphs: usize,
    kind: Kind,
    base: usize,
    place: usize,
    judged: &mut [u8],
) -> Result<(), Fault>
    requires base_bound { base < 2 ^ 16 }
    requires true_notes { Judged table.now glyphs judged.old }
    ensures { (result ≡ place_fault table.now glyphs kind base place) × Judged table.now glyphs judged.new }
{
    match spot_at(table, kind, base, place) {
        Some(at) => judge(table, glyphs, kind, at, judged),
        None => Ok(()),
    }
}

// Whether the notes tell that what the value at `place` leads to has no fault.
fn is_judged(table: &[u8], kind: Kind, base: usize, place: usize, judged: &[u8]) -> bool
    requires { base < 2 ^ 16 }
    ensures { result ≡ true → Told table.now kind base judged.now place }
{
    match spot_at(table, kind, base, place) {
        Some(at) => tells(kind, fields::u8_at(judged, at)),
        None => true,
    }
}

// The first fault of what the value at `place` leads to, by the notes where they tell it.
fn value_fault(
    table: &[u8],
    glyphs: usize,
    kind: Kind,
    base: usize,
    place: usize,
    judged: &mut [u8],
) -> Result<(), Fault>
    requires base_bound { base < 2 ^ 16 }
    requires true_notes { Judged table.now glyphs judged.old }
    ensures { (result ≡ place_fault table.now glyphs kind base place) × Judged table.now glyphs judged.new }
{
    if is_judged(table, kind, base, place, judged) {
        return Ok(());
    }
    judge_value(table, glyphs, kind, base, place, judged)
}

// The first of the values from number `from` on, of `count` that stand from `place` on, of which the notes tell nothing. Most
// values are passed here, where nothing is written.
fn first_untold(
    table: &[u8],
    kind: Kind,
    base: usize,
    place: usize,
    from: usize,
    count: usize,
    judged: &[u8],
) -> Option<usize>
    requires { (base < 2 ^ 16) × ((from ≤ count) × (place + 2 * count < 2 ^ 50)) }
    ensures { FirstUntold table.now kind base judged.now place from count result }
{
    for value in from..count {
        if !is_judged(table, kind, base, place + 2 * value, judged) {
            return Some(value);
        }
    }
    None
}

// The first fault of what `count` values, which stand from `place` on, lead to: value by value.
fn stretch_fault(
    table: &[u8],
    glyphs: usize,
    kind: Kind,
    base: usize,
    place: usize,
    count: usize,
    judged: &mut [u8],
) -> Result<(), Fault>
    requires base_bound { (base < 2 ^ 16) × (place + 2 * count < 2 ^ 50) }
    requires true_notes { Judged table.now glyphs judged.old }
    ensures { (result ≡ each (place_fault table.now glyphs kind base) (λ p. p + 2) count place) × Judged table.now glyphs judged.new }
{
    let mut value: usize = 0;
    // No count: each turn passes all values of which the notes tell.
    while let Some(untold) = first_untold(table, kind, base, place, value, count, judged) {
        judge_value(table, glyphs, kind, base, place + 2 * untold, judged)?;
        value = untold + 1;
    }
    Ok(())
}

// How many of `count` values, which stand from `place` on, come before one of which `ahead` tells; it is not asked of the first.
fn untold(place: usize, count: usize, ahead: &[u8]) -> usize
    requires { (0 < count) × (place + 2 * count < 2 ^ 50) }
    ensures { (0 < result) × (result ≤ count) }
{
    for passed in 1..count {
        if 0 < fields::u8_at(ahead, place + 2 * passed) {
            return passed;
        }
    }
    count
}

// Notes at `place` that `count` values from there on have something in common: as many as a byte tells, where that is more than
// it told. In the check it is that they lead to nothing with a fault, in the writer that they lead to one item.
fn note_at(place: usize, count: usize, ahead: &mut [u8])
    ensures { ahead.new ≡ note_at place count ahead.old }
{
    let told = count.min(255);
    if told <= fields::u8_at(ahead, place) {
        return;
    }
    fields::put_u8(ahead, place, told as u8);
}

// The same at each of the values, of which ever fewer are left.
fn note_each(place: usize, count: usize, ahead: &mut [u8])
    requires { place + 2 * count < 2 ^ 50 }
    ensures { ahead.new ≡ note_each place count ahead.old }
{
    for value in 0..count {
        note_at(place + 2 * value, count - value, ahead);
    }
}

// Notes it at the first value, at the one to which what was told there leads, and so on to the end. Whoever asks at one of these
// next is led to the end at once; the values between them are left as they were.
pub fn note_values(place: usize, count: usize, ahead: &mut [u8])
    requires { place + 2 * count < 2 ^ 50 }
    ensures { ahead.new ≡ note_along count place count ahead.old }
{
    let mut p = place;
    let mut left = count;
    // No count: each turn passes as many values as were told at one.
    while 0 < left {
        let told = fields::u8_at(ahead, p).max(1);
        note_at(p, left, ahead);
        let part = told.min(left);
        p += 2 * part;
        left -= part;
    }
}

// The first fault of what `count` values, which stand from `place` on and which units may share, lead to. `ahead` tells of each
// position how many values from there on are known to lead to nothing with a fault: these are passed.
fn places_fault(
    table: &[u8],
    glyphs: usize,
    kind: Kind,
    base: usize,
    place: usize,
    count: usize,
    judged: &mut [u8],
    ahead: &mut [u8],
) -> Result<(), Fault>
    requires base_bound { (base < 2 ^ 16) × (place + 2 * count < 2 ^ 42) }
    requires true_notes { Judged table.now glyphs judged.old × Ahead table.now glyphs kind base ahead.old }
    ensures { (result ≡ each (place_fault table.now glyphs kind base) (λ p. p + 2) count place) × (Judged table.now glyphs judged.new × Ahead table.now glyphs kind base ahead.new) }
{
    let mut p = place;
    let mut left = count;
    // No count: each turn passes the values that are known, or judges those up to the next that are.
    while 0 < left {
        let known = fields::u8_at(ahead, p);
        if 0 < known {
            let part = known.min(left);
            p += 2 * part;
            left -= part;
        } else {
            let part = untold(p, left, ahead);
            stretch_fault(table, glyphs, kind, base, p, part, judged)?;
            note_each(p, part, ahead);
            p += 2 * part;
            left -= part;
        }
    }
    note_values(place, count, ahead);
    Ok(())
}

// How many values an array has for the glyphs of a run: those below `glyphs`.
fn value_count(glyphs: usize, from: usize, until: usize) -> usize
    requires { (from < until) × (from < glyphs) }
    ensures { (result ≡ min until glyphs - from) × (result ≤ glyphs) }
{
    until.min(glyphs) - from
}

// The first fault of what the values of a run lead to: one for all its glyphs, or those of an array, which only units of
// format 4 can share.
fn run_fault(
    table: &[u8],
    glyphs: usize,
    kind: Kind,
    base: usize,
    format: usize,
    run: Run,
    judged: &mut [u8],
    ahead: &mut [u8],
) -> Result<(), Fault>
    requires base_bound { (base < 2 ^ 16) × ((glyphs < 2 ^ 16) × ((run.from < run.until) × ((run.from < glyphs) × (run.place < 2 ^ 41)))) }
    requires true_notes { Judged table.now glyphs judged.old × Ahead table.now glyphs kind base ahead.old }
    ensures { (result ≡ each (place_fault table.now glyphs kind base) (λ p. p + 2) (cond run.array (min run.until glyphs - run.from) 1) run.place) × (Judged table.now glyphs judged.new × Ahead table.now glyphs kind base ahead.new) }
{
    if !run.array {
        // In format 2 what the notes tell of was passed, after a lookup's first run.
        if format == 2 {
            return judge_value(table, glyphs, kind, base, run.place, judged);
        }
        return value_fault(table, glyphs, kind, base, run.place, judged);
    }
    let count = value_count(glyphs, run.from, run.until);
    if format != 4 {
        return stretch_fault(table, glyphs, kind, base, run.place, count, judged);
    }
    places_fault(table, glyphs, kind, base, run.place, count, judged, ahead)
}

// Where a pass over a lookup's runs has come: the cursor serves the glyphs from `glyph` on.
#[derive(Clone, Copy)]
struct PassPlace {
    cursor: Cursor,
    glyph: usize,
}

// Passes the runs after a run whose values lead to what the notes tell of. Only in format 2, which fonts have most: the loop is
// compiled for it alone.
fn pass_told(
    table: &[u8],
    format: usize,
    glyphs: usize,
    kind: Kind,
    at: usize,
    base: usize,
    run: Run,
    judged: &[u8],
) -> PassPlace
    requires at_bound { (at < 2 ^ 32) × ((base < 2 ^ 16) × ((glyphs < 2 ^ 16) × (format ≡ u16_at table.now at))) }
    requires true_notes { Judged table.now glyphs judged.now × Serves table.now at run.until run.cursor }
    ensures { (run.until ≤ result.glyph) × (Serves table.now at result.glyph result.cursor × (from_glyph table.now glyphs kind at base run.until ≡ from_glyph table.now glyphs kind at base result.glyph)) }
{
    let mut cursor = run.cursor;
    let mut glyph = run.until;
    if format != 2 {
        return PassPlace { cursor, glyph };
    }
    // No count: each turn passes the glyphs of a run.
    while glyph < glyphs {
        let next = lookup_runs::next_run(table, 2, at, cursor, glyph);
        if glyphs <= next.from {
            return PassPlace { cursor, glyph };
        }
        if next.array {
            return PassPlace { cursor, glyph };
        }
        if !is_judged(table, kind, base, next.place, judged) {
            return PassPlace { cursor, glyph };
        }
        cursor = next.cursor;
        glyph = next.until;
    }
    PassPlace { cursor, glyph }
}

// The first fault of what the values of the lookup at `at`, which has none itself, lead to.
fn targets_fault(
    table: &[u8],
    glyphs: usize,
    kind: Kind,
    at: usize,
    base: usize,
    judged: &mut [u8],
    ahead: &mut [u8],
) -> Result<(), Fault>
    requires at_bound { (at < 2 ^ 32) × ((base < 2 ^ 16) × ((glyphs < 2 ^ 16) × (lookup_fault table.now glyphs at ≡ Clear))) }
    requires true_notes { Judged table.now glyphs judged.old × Ahead table.now glyphs kind base ahead.old }
    ensures { (result ≡ each (target_fault table.now glyphs kind at base) (λ g. g + 1) glyphs 0) × Judged table.now glyphs judged.new }
{
    let format = fields::u16_at(table, at);
    let mut cursor = lookup::begin(table, at);
    let mut glyph: usize = 0;
    // No count: each turn passes the glyphs of a run and of those that follow it and are told.
    while glyph < glyphs {
        let run = lookup_runs::next_run(table, format, at, cursor, glyph);
        if glyphs <= run.from {
            return Ok(());
        }
        run_fault(table, glyphs, kind, base, format, run, judged, ahead)?;
        let passed = pass_told(table, format, glyphs, kind, at, base, run, judged);
        cursor = passed.cursor;
        glyph = passed.glyph;
    }
    Ok(())
}

// The same with room to note what is known of values that units share.
fn shared_fault<const NOTES: usize>(
    table: &[u8],
    glyphs: usize,
    kind: Kind,
    at: usize,
    base: usize,
    judged: &mut [u8],
) -> Result<(), Fault>
    requires notes_fit { NOTES < 2 ^ 63 }
    requires at_bound { (at < 2 ^ 32) × ((base < 2 ^ 16) × ((glyphs < 2 ^ 16) × (lookup_fault table.now glyphs at ≡ Clear))) }
    requires true_notes { Judged table.now glyphs judged.old }
    ensures { (result ≡ each (target_fault table.now glyphs kind at base) (λ g. g + 1) glyphs 0) × Judged table.now glyphs judged.new }
{
    let mut ahead = [0u8; NOTES];
    targets_fault(table, glyphs, kind, at, base, judged, &mut ahead)
}

// The first fault of the lookup at `at`, and of what its values, offsets from `base`, lead to. `judged` is lent, so that
// what two lookups lead to is judged once: it has a note for each position of the table, past which nothing without fault
// stands.
pub fn values_fault(
    table: &[u8],
    glyphs: usize,
    kind: Kind,
    at: usize,
    base: usize,
    judged: &mut [u8],
) -> Result<(), Fault>
    requires at_bound { (at < 2 ^ 32) × ((base < 2 ^ 16) × (glyphs < 2 ^ 16)) }
    requires true_notes { Judged table.now glyphs judged.old }
    ensures { (result ≡ values_fault table.now glyphs kind at base) × Judged table.now glyphs judged.new }
{
    lookup::lookup_fault(table, glyphs, at)?;
    // Only units of format 4 can share values; then there is a note for each position of the table, which has at most 32,768 bytes.
    if fields::u16_at(table, at) != 4 {
        return shared_fault::<0>(table, glyphs, kind, at, base, judged);
    }
    match table.len() {
        0..=512 => shared_fault::<512>(table, glyphs, kind, at, base, judged),
        513..=4096 => shared_fault::<4096>(table, glyphs, kind, at, base, judged),
        _ => shared_fault::<32768>(table, glyphs, kind, at, base, judged),
    }
}
