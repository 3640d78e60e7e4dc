// Whether an action fires (document 01, "Verdicts"). A limit in ems and a growth in units meet only through `units::factor`.
#![tactic(auto)]

ghost use Rattle.std.specs.Prelude.{◌≡◌, ◌≤◌, length, drop};
ghost use Rattle.fields.specs.Field.{u32_at};
ghost use Rattle.units.specs.Fixed.{fixed_of};
ghost use Rattle.verdict.specs.Verdict.{below, above, breaks, adds, substitutes, stretches, type_fires};

use units::{Ems, Units};

// What an action does at a growth. Only type 2 substitutes.
#[derive(Clone, Copy)]
pub enum Fires {
    No,
    Plain,
    Substitutes,
}

// Whether the growth is below limit × size / 65,536.
fn is_below(growth: Units, bits: u32, size: u32) -> bool
    ensures { result ≡ below growth.0 (fixed_of bits) size }
{
    let limit = units::fixed(bits);
    let least = units::factor(Ems(-limit.0), size);
    growth.0 < -least.0
}

// Whether the growth is above limit × size / 65,536.
fn is_above(growth: Units, bits: u32, size: u32) -> bool
    ensures { result ≡ above growth.0 (fixed_of bits) size }
{
    let limit = units::fixed(bits);
    let most = units::factor(limit, size);
    most.0 < growth.0
}

// The Fixed number at a position of the table, as its bits.
fn limit_at(table: &[u8], at: usize) -> u32
    ensures { result ≡ u32_at table.now at }
{
    fields::u32_at(table, at) as u32
}

// Type 0, its data at `at`: outside its two limits, of which the lower stands first.
fn breaks_at(table: &[u8], at: usize, growth: Units, size: u32) -> Fires
    requires { at ≤ length table.now }
    ensures { result ≡ breaks (drop at table.now) growth.0 size }
{
    if is_below(growth, limit_at(table, at), size) {
        return Fires::Plain;
    }
    if is_above(growth, limit_at(table, at + 4), size) {
        return Fires::Plain;
    }
    Fires::No
}

// Types 1 and 5.
fn adds_at(growth: Units) -> Fires
    ensures { result ≡ adds growth.0 }
{
    if 0 < growth.0 {
        Fires::Plain
    } else {
        Fires::No
    }
}

// Type 2, its data at `at`: its threshold stands first.
fn substitutes_at(table: &[u8], at: usize, growth: Units, size: u32) -> Fires
    ensures { result ≡ substitutes (drop at table.now) growth.0 size }
{
    if growth.0 <= 0 {
        return Fires::No;
    }
    if is_below(growth, limit_at(table, at), size) {
        return Fires::Plain;
    }
    Fires::Substitutes
}

// Types 3 and 4.
fn stretches_at(growth: Units) -> Fires
    ensures { result ≡ stretches growth.0 }
{
    if growth.0 == 0 {
        Fires::No
    } else {
        Fires::Plain
    }
}

// Whether an action of this type, its data at `at`, fires for a glyph of its class.
pub fn type_fires(table: &[u8], at: usize, ty: u16, growth: Units, size: u32) -> Fires
    requires { at ≤ length table.now }
    ensures { result ≡ type_fires ty (drop at table.now) growth.0 size }
{
    match ty {
        0 => breaks_at(table, at, growth, size),
        1 | 5 => adds_at(growth),
        2 => substitutes_at(table, at, growth, size),
        3 | 4 => stretches_at(growth),
        _ => Fires::No,
    }
}
