// An action list (document 01, "The table"): a 32-bit count, 0 to 64, then actions that say their own lengths: class,
// type, length, data. Here: its first fault, where an action of it stands, and what is read from an action.
#![tactic(auto, using(fields::proofs::Walk::walk_steps, crate::proofs::Steps::ends), unfolding(fields::specs::Faults::earlier, fields::specs::Faults::rule, crate::specs::Faults::glyph_fault, crate::specs::Faults::added_fault, crate::specs::Faults::count_fault, crate::specs::Faults::type0_fault, crate::specs::Faults::type2_fault, crate::specs::Faults::type4_fault, crate::specs::Faults::type5_fault, crate::specs::Faults::data_fault, crate::specs::Faults::length_fault, crate::specs::Faults::action_fault, crate::specs::Faults::list_fault, crate::specs::Actions::spot_in_list, crate::specs::Actions::components_at))]

ghost use Rattle.std.specs.Prelude.{◌≡◌, true, ◌+◌, ◌≤◌, ◌<◌, ◌^◌, length, take, IfSome};
ghost use Rattle.fields.specs.Faults.{Clear};
ghost use Rattle.fields.specs.Field.{u32_at};
ghost use Rattle.meaning.specs.Ask.{held};
ghost use Rattle.actions.specs.Faults.{glyph_fault, added_fault, count_fault, glyphs_fault, type0_fault, type2_fault, type4_fault, type5_fault, data_fault, data_size, length_fault, action_fault, actions_fault, list_fault};
ghost use Rattle.actions.specs.Notes.{Passed, Passing};
ghost use Rattle.actions.specs.Actions.{bytes_at, content_at, action_at, place_after, spot_in_list, SpotBelow, components_at, padded, clipped};

use fields::{Fault, Refusal};
use types::HeldAction;

// A part of the table, the bytes from `from` on and before `to`.
#[derive(Clone, Copy)]
pub struct Stretch {
    pub from: usize,
    pub to: usize,
}

// How many actions that follow each other were found without fault, and how many known ones were stepped over on the way.
#[derive(Clone, Copy)]
struct SteppedOver {
    passed: usize,
    over: usize,
}

// Where an action's type, its length and its data stand, from where it begins.
const TYPE: usize = 2;

const LENGTH: usize = 4;

const DATA: usize = 8;

// So with type 0's count and glyphs, type 2's added glyph and substitute, and type 5's glyph.
const COUNT: usize = 18;

const COMPONENTS: usize = 20;

const ADDED: usize = 12;

const SUBSTITUTE: usize = 14;

const REPEATED: usize = 10;

// The most bytes of data that an action without fault has.
const MOST: usize = 76;

// What stands for no glyph where type 2 may add one.
const NO_GLYPH: usize = 65535;

fn glyph_fault(table: &[u8], glyphs: usize, at: usize) -> Result<(), Fault>
    ensures { result ≡ glyph_fault table.now glyphs at }
{
    fields::in_table(table, at, 2)?;
    fields::ruled(fields::u16_at(table, at) < glyphs, Refusal::BadActions, at)
}

fn added_fault(table: &[u8], glyphs: usize, at: usize) -> Result<(), Fault>
    ensures { result ≡ added_fault table.now glyphs at }
{
    fields::in_table(table, at, 2)?;
    let glyph = fields::u16_at(table, at);
    fields::ruled(glyph == NO_GLYPH || glyph < glyphs, Refusal::BadActions, at)
}

// The count of the type 0 action at `at`.
fn count_fault(table: &[u8], at: usize) -> Result<(), Fault>
    requires { at ≤ length table.now }
    ensures { result ≡ count_fault table.now at }
{
    fields::in_table(table, at + COUNT, 2)?;
    let count = fields::u16_at(table, at + COUNT);
    let length = fields::u32_at(table, at + LENGTH);
    fields::ruled(1 <= count, Refusal::BadActions, at + COUNT)?;
    fields::ruled(count <= 32, Refusal::BadActions, at + COUNT)?;
    fields::ruled(
        COMPONENTS + 2 * count <= length,
        Refusal::BadActions,
        at + COUNT,
    )
}

// The first fault of `count` glyphs from `first` on.
fn glyphs_fault(table: &[u8], glyphs: usize, first: usize, count: usize) -> Result<(), Fault>
    ensures { result ≡ glyphs_fault table.now glyphs count first }
{
    let mut at = first;
    for _ in 0..count {
        glyph_fault(table, glyphs, at)?;
        at += 2;
    }
    Ok(())
}

fn type0_fault(table: &[u8], glyphs: usize, at: usize) -> Result<(), Fault>
    requires { at ≤ length table.now }
    ensures { result ≡ type0_fault table.now glyphs at }
{
    fields::in_table(table, at + 8, 4)?;
    fields::in_table(table, at + 12, 4)?;
    fields::in_table(table, at + 16, 2)?;
    count_fault(table, at)?;
    glyphs_fault(
        table,
        glyphs,
        at + COMPONENTS,
        fields::u16_at(table, at + COUNT),
    )
}

fn type2_fault(table: &[u8], glyphs: usize, at: usize) -> Result<(), Fault>
    requires { at ≤ length table.now }
    ensures { result ≡ type2_fault table.now glyphs at }
{
    fields::in_table(table, at + 8, 4)?;
    added_fault(table, glyphs, at + ADDED)?;
    glyph_fault(table, glyphs, at + SUBSTITUTE)
}

fn type4_fault(table: &[u8], at: usize) -> Result<(), Fault>
    requires { at ≤ length table.now }
    ensures { result ≡ type4_fault table.now at }
{
    fields::in_table(table, at + 8, 4)?;
    fields::in_table(table, at + 12, 4)?;
    fields::in_table(table, at + 16, 4)?;
    fields::in_table(table, at + 20, 4)
}

fn type5_fault(table: &[u8], glyphs: usize, at: usize) -> Result<(), Fault>
    requires { at ≤ length table.now }
    ensures { result ≡ type5_fault table.now glyphs at }
{
    fields::in_table(table, at + 8, 2)?;
    glyph_fault(table, glyphs, at + REPEATED)
}

// The first fault in the data of the action at `at`, whose type is `ty`, 0 to 5. A type is the number that its field has, which
// may be any: rules and definitions go by it, here and above.
fn data_fault(table: &[u8], glyphs: usize, at: usize, ty: usize) -> Result<(), Fault>
    requires { at ≤ length table.now }
    ensures { result ≡ data_fault table.now glyphs at ty }
{
    match ty {
        0 => type0_fault(table, glyphs, at),
        1 => glyph_fault(table, glyphs, at + DATA),
        2 => type2_fault(table, glyphs, at),
        3 => Ok(()),
        4 => type4_fault(table, at),
        _ => type5_fault(table, glyphs, at),
    }
}

// How many bytes of data a type has, type 0's glyphs left out.
pub fn data_size(ty: usize) -> usize
    ensures { (result ≡ data_size ty) × (result ≤ 16) }
{
    match ty {
        0 => 12,
        1 => 2,
        2 => 8,
        3 => 0,
        4 => 16,
        _ => 4,
    }
}

fn length_fault(table: &[u8], at: usize) -> Result<(), Fault>
    requires { at ≤ length table.now }
    ensures { result ≡ length_fault table.now at }
{
    fields::in_table(table, at + LENGTH, 4)?;
    let length = fields::u32_at(table, at + LENGTH);
    let size = data_size(fields::u16_at(table, at + TYPE));
    fields::ruled(length % 4 == 0, Refusal::BadActions, at + LENGTH)?;
    fields::ruled(DATA + size <= length, Refusal::BadActions, at + LENGTH)
}

// The first fault of the action at `at`.
fn action_fault(table: &[u8], glyphs: usize, at: usize) -> Result<(), Fault>
    ensures { result ≡ action_fault table.now glyphs at }
{
    fields::in_table(table, at, 2)?;
    fields::ruled(fields::u16_at(table, at) <= 127, Refusal::BadActions, at)?;
    fields::in_table(table, at + TYPE, 2)?;
    let ty = fields::u16_at(table, at + TYPE);
    fields::ruled(ty <= 5, Refusal::BadActions, at + TYPE)?;
    length_fault(table, at)?;
    data_fault(table, glyphs, at, ty)
}

// The first fault of `count` actions from `first` on.
fn actions_fault(table: &[u8], glyphs: usize, first: usize, count: usize) -> Result<(), Fault>
    ensures { result ≡ actions_fault table.now glyphs count first }
{
    let mut at = first;
    for _ in 0..count {
        action_fault(table, glyphs, at)?;
        at += fields::u32_at(table, at + LENGTH);
    }
    Ok(())
}

// Whether the glyph at `at` is seen to be without fault.
fn glyph_is_clear(table: &[u8], glyphs: usize, at: usize) -> bool
    requires { at ≤ length table.now + 2 ^ 32 }
    ensures { result ≡ true → glyph_fault table.now glyphs at ≡ Clear }
{
    if table.len() < at + 2 {
        return false;
    }
    fields::u16_at(table, at) < glyphs
}

// Whether `count` glyphs from `first` on are.
fn glyphs_are_clear(table: &[u8], glyphs: usize, first: usize, count: usize) -> bool
    requires { first ≤ length table.now }
    ensures { result ≡ true → glyphs_fault table.now glyphs count first ≡ Clear }
{
    let mut at = first;
    for _ in 0..count {
        if !glyph_is_clear(table, glyphs, at) {
            return false;
        }
        at += 2;
    }
    true
}

// Whether the data of the type 0 action at `at` is, in the action's length, `size`.
fn type0_is_clear(table: &[u8], glyphs: usize, at: usize, size: usize) -> bool
    requires { (at + 8 ≤ length table.now) × (size ≡ u32_at table.now (at + 4)) }
    ensures { result ≡ true → type0_fault table.now glyphs at ≡ Clear }
{
    if table.len() < at + COMPONENTS {
        return false;
    }
    let count = fields::u16_at(table, at + COUNT);
    if count < 1 || 32 < count || size < COMPONENTS + 2 * count {
        return false;
    }
    glyphs_are_clear(table, glyphs, at + COMPONENTS, count)
}

fn type2_is_clear(table: &[u8], glyphs: usize, at: usize) -> bool
    requires { at + 8 ≤ length table.now }
    ensures { result ≡ true → type2_fault table.now glyphs at ≡ Clear }
{
    if !glyph_is_clear(table, glyphs, at + SUBSTITUTE) {
        return false;
    }
    let added = fields::u16_at(table, at + ADDED);
    added == NO_GLYPH || added < glyphs
}

// Whether the action's length, `size`, and the data of its type, 0 to 5, are.
fn data_is_clear(table: &[u8], glyphs: usize, at: usize, ty: usize, size: usize) -> bool
    requires { (at + 8 ≤ length table.now) × (size ≡ u32_at table.now (at + 4)) }
    ensures { result ≡ true → (8 + data_size ty ≤ size) × (data_fault table.now glyphs at ty ≡ Clear) }
{
    if size < DATA + data_size(ty) {
        return false;
    }
    match ty {
        0 => type0_is_clear(table, glyphs, at, size),
        1 => glyph_is_clear(table, glyphs, at + DATA),
        2 => type2_is_clear(table, glyphs, at),
        3 => true,
        4 => at + 24 <= table.len(),
        _ => glyph_is_clear(table, glyphs, at + REPEATED),
    }
}

// Where the action at `at` ends, where it is seen to be without fault.
fn clear_end(table: &[u8], glyphs: usize, at: usize) -> Option<usize>
    requires { at ≤ length table.now + 2 ^ 32 }
    ensures { IfSome result (λ end. (action_fault table.now glyphs at ≡ Clear) × (end ≡ at + u32_at table.now (at + 4)) × (end ≤ length table.now + 2 ^ 32)) }
{
    if table.len() < at + DATA {
        return None;
    }
    let class = fields::u16_at(table, at);
    let ty = fields::u16_at(table, at + TYPE);
    let size = fields::u32_at(table, at + LENGTH);
    if 127 < class || 5 < ty || !data_is_clear(table, glyphs, at, ty, size) {
        return None;
    }
    // The length is a multiple of 4.
    let end = at + size;
    if end % 4 != at % 4 {
        return None;
    }
    Some(end)
}

// Steps through actions from `first` on, up to `most`, while they are seen to be without fault. Each is noted in `judged`, so
// that it is judged once, however many lists have it. It stops where so many are known as are left, or as are `enough`.
fn step_through(
    table: &[u8],
    glyphs: usize,
    first: usize,
    most: usize,
    enough: usize,
    judged: &mut [u8],
) -> SteppedOver
    requires inside { (first ≤ length table.now) × (most ≤ 255) }
    requires known_clear { Passed table.now glyphs judged.old }
    ensures { (actions_fault table.now glyphs result.passed first ≡ Clear) × Passing table.now glyphs judged.old judged.new }
{
    let mut at = first;
    let mut over: usize = 0;
    for passed in 0..most {
        let note = fields::u8_at(judged, at);
        let known = note / 4;
        if 0 < known {
            if (most - passed).min(enough) <= known {
                let passed = passed + known;
                return SteppedOver { passed, over };
            }
            at += fields::u32_at(table, at + LENGTH);
            over += 1;
            continue;
        }
        let Some(end) = clear_end(table, glyphs, at) else {
            return SteppedOver { passed, over };
        };
        fields::put_u8(judged, at, (note + 4) as u8);
        at = end;
    }
    SteppedOver { passed: most, over }
}

// Notes at each of `count` actions from `first` on, which have no fault, how many are known from it on: as far as a note has
// room, and up to one that tells as much, since from there on those that follow do so too.
fn note_ahead(table: &[u8], glyphs: usize, first: usize, count: usize, judged: &mut [u8])
    requires all_clear { actions_fault table.now glyphs count first ≡ Clear }
    requires known_clear { Passed table.now glyphs judged.old }
    ensures { Passing table.now glyphs judged.old judged.new }
{
    let mut at = first;
    for passed in 0..count {
        let known = (count - passed).min(63);
        let note = fields::u8_at(judged, at);
        if known <= note / 4 {
            return;
        }
        fields::put_u8(judged, at, (4 * known + note % 4) as u8);
        at += fields::u32_at(table, at + LENGTH);
    }
}

// Whether `count` actions from `first` on are seen to be without fault: most are, and a chain of fields is slower. Where many
// of them were known, lists overlap: then those from `first` on, past the list's end too, are noted so that lists which
// begin on them cost a step or two.
fn actions_are_clear(
    table: &[u8],
    glyphs: usize,
    first: usize,
    count: usize,
    judged: &mut [u8],
) -> bool
    requires inside { (first ≤ length table.now) × (count ≤ 64) }
    requires known_clear { Passed table.now glyphs judged.old }
    ensures { (result ≡ true → actions_fault table.now glyphs count first ≡ Clear) × Passing table.now glyphs judged.old judged.new }
{
    let list = step_through(table, glyphs, first, count, 64, judged);
    if list.passed < count {
        return false;
    }
    if list.over < 8 {
        return true;
    }
    let ahead = step_through(table, glyphs, first, 255, 63, judged);
    note_ahead(table, glyphs, first, ahead.passed, judged);
    true
}

// The first fault of the list at `at`, in a table read with `glyphs` glyphs. `judged` has a note for each position, whose
// fourth says how many actions from there on are known to have no fault; the rest of a note is the caller's.
pub fn list_fault(table: &[u8], glyphs: usize, at: usize, judged: &mut [u8]) -> Result<(), Fault>
    requires { Passed table.now glyphs judged.old }
    ensures { (result ≡ list_fault table.now glyphs at) × Passing table.now glyphs judged.old judged.new }
{
    fields::in_table(table, at, 4)?;
    let count = fields::u32_at(table, at);
    fields::ruled(count <= 64, Refusal::BadActions, at)?;
    if actions_are_clear(table, glyphs, at + 4, count, judged) {
        return Ok(());
    }
    actions_fault(table, glyphs, at + 4, count)
}

// Where the action stands that is `count` after the one at `first`.
#[tactic(auto, using(crate::proofs::Steps::after_next, crate::proofs::Steps::after_none))]
fn place_after(table: &[u8], first: usize, count: u16) -> usize
    requires { first < 2 ^ 48 }
    ensures { (result ≡ place_after table.now count first) × (result < 2 ^ 50) }
{
    let mut at = first;
    for _ in 0..count {
        at += fields::u32_at(table, at + LENGTH);
    }
    at
}

// Where the action with a number stands, of the list at `at`.
pub fn spot_in_list(table: &[u8], at: usize, number: u16) -> Option<usize>
    requires { at < 2 ^ 40 }
    ensures { (result ≡ spot_in_list table.now at number) × SpotBelow (2 ^ 50) result }
{
    if fields::u32_at(table, at) <= number as usize {
        return None;
    }
    Some(place_after(table, at + 4, number))
}

// How many bytes of data the action at `at` has, of type `ty`; at most 76.
fn held_size(table: &[u8], at: usize, ty: usize) -> usize
    requires { at < 2 ^ 62 }
    ensures { (result ≡ length (take 76 (content_at table.now at ty))) × (result ≤ 76) }
{
    if ty != 0 {
        return data_size(ty);
    }
    let count = fields::u16_at(table, at + COUNT);
    (12 + 2 * count).min(MOST)
}

// `size` bytes of the table from `first` on, then zeros.
fn copied(table: &[u8], first: usize, size: usize) -> [u8; MOST]
    requires { (first < 2 ^ 63) × (size ≤ 76) }
    ensures { result ≡ padded (bytes_at table.now first size) }
{
    let mut bytes = [0u8; MOST];
    for i in 0..size {
        bytes[i] = fields::u8_at(table, first + i) as u8;
    }
    bytes
}

// The data of the action at `at`, of type `ty`: at most 76 bytes, then zeros.
fn content_at(table: &[u8], at: usize, ty: usize) -> [u8; MOST]
    requires { at < 2 ^ 62 }
    ensures { result ≡ padded (take 76 (content_at table.now at ty)) }
{
    let mut bytes = copied(table, at + DATA, held_size(table, at, ty));
    if ty != 5 {
        return bytes;
    }
    // the ignored flags
    bytes[0] = 0;
    bytes[1] = 0;
    bytes
}

// The action at `at`. Data of more than 76 bytes, which no action without fault has, is cut there.
pub fn action_at(table: &[u8], at: usize) -> HeldAction
    requires { at < 2 ^ 62 }
    ensures { result ≡ held (clipped (action_at table.now at)) }
{
    let class = fields::u16_at(table, at);
    let ty = fields::u16_at(table, at + TYPE);
    let size = held_size(table, at, ty);
    let bytes = content_at(table, at, ty);
    HeldAction {
        class: class as u16,
        ty: ty as u16,
        size: size as u32,
        bytes,
    }
}

// Where the glyphs of the type 0 action at `at` stand; an empty stretch for another type.
pub fn components_at(table: &[u8], at: usize) -> Stretch
    requires { at < 2 ^ 62 }
    ensures { result ≡ components_at table.now at }
{
    if fields::u16_at(table, at + TYPE) != 0 {
        return Stretch { from: 0, to: 0 };
    }
    let from = at + COMPONENTS;
    Stretch {
        from,
        to: from + 2 * fields::u16_at(table, at + COUNT),
    }
}
