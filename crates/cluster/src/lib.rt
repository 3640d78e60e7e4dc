// A width cluster (document 01, "The table"): a 32-bit count, 1 to 128, then pairs of 24 bytes: class, before grow,
// before shrink, after grow, after shrink, grow flags, shrink flags. Here: its first fault, and what is read from it.
#![tactic(auto, using(fields::proofs::Walk::walk_steps, crate::proofs::Steps::cluster_steps, crate::proofs::Clear::clear_steps), unfolding(fields::specs::Faults::earlier, fields::specs::Faults::rule, crate::specs::Faults::pair_class, crate::specs::Faults::pair_class_fault, crate::specs::Faults::grow_fault, crate::specs::Faults::shrink_fault, crate::specs::Faults::flags_fault, crate::specs::Faults::pair_fault, crate::specs::Faults::cluster_fault, crate::specs::Pairs::pair_at, crate::specs::Pairs::cluster_at))]

ghost use Rattle.std.specs.Prelude.{◌≡◌, true, ◌+◌, ◌*◌, ◌≤◌, ◌<◌, ◌^◌, length, IfSome, OnOk};
ghost use Rattle.fields.specs.Faults.{Clear};
ghost use Rattle.fields.specs.Field.{u16_at, u32_at};
ghost use Rattle.units.specs.Fixed.{fixed_size};
ghost use Rattle.units.specs.Flags.{kept_flags};
ghost use Rattle.meaning.specs.Ask.{record_of};
ghost use Rattle.cluster.specs.Faults.{pair_class, pair_class_fault, grow_fault, shrink_fault, flags_fault, pair_fault, pairs_fault, cluster_fault};
ghost use Rattle.cluster.specs.Pairs.{pair_at, pairs_at, cluster_at, sought_pair};

use fields::{Fault, Refusal};
use types::{Flags, Limits, Pair};

// The bytes of a pair.
const PAIR: usize = 24;

// The most pairs of a cluster.
const MOST_PAIRS: usize = 128;

// The largest limit, 16 ems.
const MOST_EMS: u32 = 1048576;

// A pair's class: the low 7 bits of its field.
pub fn pair_class(table: &[u8], at: usize) -> u32
    ensures { (result ≡ pair_class table.now at) × (result < 128) }
{
    (fields::u32_at(table, at) % 128) as u32
}

// A Fixed as its field has it.
pub fn fixed_at(table: &[u8], at: usize) -> u32
    ensures { result ≡ u32_at table.now at }
{
    fields::u32_at(table, at) as u32
}

// A Fixed without its sign.
pub fn size_at(table: &[u8], at: usize) -> u32
    ensures { result ≡ fixed_size (u32_at table.now at) }
{
    units::fixed_size(fixed_at(table, at))
}

// Grow or shrink flags as their field has them.
fn flags_field(table: &[u8], at: usize) -> u16
    ensures { result ≡ u16_at table.now at }
{
    fields::u16_at(table, at) as u16
}

// The same with the ignored bits zero.
pub fn kept_at(table: &[u8], at: usize) -> u16
    ensures { result ≡ kept_flags (u16_at table.now at) }
{
    units::kept_flags(flags_field(table, at))
}

fn pair_class_fault(table: &[u8], at: usize, least: u32) -> Result<(), Fault>
    ensures first { result ≡ pair_class_fault table.now at least }
    ensures inside { OnOk result (at + 4 ≤ length table.now) }
{
    fields::in_table(table, at, 4)?;
    fields::ruled(least <= pair_class(table, at), Refusal::BadCluster, at)
}

fn grow_fault(table: &[u8], at: usize) -> Result<(), Fault>
    ensures { result ≡ grow_fault table.now at }
{
    fields::in_table(table, at, 4)?;
    fields::ruled(fixed_at(table, at) <= MOST_EMS, Refusal::BadCluster, at)
}

fn shrink_fault(table: &[u8], at: usize) -> Result<(), Fault>
    ensures { result ≡ shrink_fault table.now at }
{
    fields::in_table(table, at, 4)?;
    fields::ruled(size_at(table, at) <= MOST_EMS, Refusal::BadCluster, at)
}

fn flags_fault(table: &[u8], at: usize) -> Result<(), Fault>
    ensures first { result ≡ flags_fault table.now at }
    ensures inside { OnOk result (at + 2 ≤ length table.now) }
{
    fields::in_table(table, at, 2)?;
    let priority = units::priority(flags_field(table, at));
    fields::ruled(priority <= 3, Refusal::BadCluster, at)
}

// The first fault of the pair at `at`, whose class must be `least` or more.
fn pair_fault(table: &[u8], at: usize, least: u32) -> Result<(), Fault>
    ensures first { result ≡ pair_fault table.now at least }
    ensures inside { OnOk result (at + 24 ≤ length table.now) }
{
    pair_class_fault(table, at, least)?;
    grow_fault(table, at + 4)?;
    shrink_fault(table, at + 8)?;
    grow_fault(table, at + 12)?;
    shrink_fault(table, at + 16)?;
    flags_fault(table, at + 20)?;
    flags_fault(table, at + 22)
}

// The first fault of `count` pairs from `first` on.
fn pairs_fault(table: &[u8], first: usize, count: usize) -> Result<(), Fault>
    ensures { result ≡ pairs_fault table.now count first 0 }
{
    let mut least: u32 = 0;
    for pair in 0..count {
        let at = first + PAIR * pair;
        pair_fault(table, at, least)?;
        least = pair_class(table, at) + 1;
    }
    Ok(())
}

// Whether the limits at `at`, grow and then shrink, are seen to be without fault.
fn limits_are_clear(table: &[u8], at: usize) -> bool
    requires { at + 8 ≤ length table.now }
    ensures { result ≡ true → (grow_fault table.now at ≡ Clear) × (shrink_fault table.now (at + 4) ≡ Clear) }
{
    let grow = fields::u32_in(table, at) as u32;
    let shrink = units::fixed_size(fields::u32_in(table, at + 4) as u32);
    grow <= MOST_EMS && shrink <= MOST_EMS
}

// Whether the flags at `at`, grow and then shrink, are.
fn flags_are_clear(table: &[u8], at: usize) -> bool
    requires { at + 4 ≤ length table.now }
    ensures { result ≡ true → (flags_fault table.now at ≡ Clear) × (flags_fault table.now (at + 2) ≡ Clear) }
{
    let grow = units::priority(fields::u16_in(table, at) as u16);
    let shrink = units::priority(fields::u16_in(table, at + 2) as u16);
    grow <= 3 && shrink <= 3
}

// The least class that may follow the pair at `at`, where that pair is seen to be without fault.
fn clear_least(table: &[u8], at: usize, least: u32) -> Option<u32>
    requires { at ≤ length table.now }
    ensures clear { IfSome result (λ next. (pair_fault table.now at least ≡ Clear) × (next ≡ pair_class table.now at + 1)) }
    ensures inside { IfSome result (λ _. at + 24 ≤ length table.now) }
{
    if table.len() - at < PAIR {
        return None;
    }
    let class = pair_class(table, at);
    if class < least
        || !limits_are_clear(table, at + 4)
        || !limits_are_clear(table, at + 12)
        || !flags_are_clear(table, at + 20)
    {
        return None;
    }
    Some(class + 1)
}

// Whether `count` pairs from `first` on are seen to be without fault: most are, and a chain of fields is slower.
fn pairs_are_clear(table: &[u8], first: usize, count: usize) -> bool
    requires { first ≤ length table.now }
    ensures { result ≡ true → pairs_fault table.now count first 0 ≡ Clear }
{
    let mut least: u32 = 0;
    for pair in 0..count {
        let Some(next) = clear_least(table, first + PAIR * pair, least) else {
            return false;
        };
        least = next;
    }
    true
}

// The first fault of the cluster at `at`.
pub fn cluster_fault(table: &[u8], at: usize) -> Result<(), Fault>
    ensures { result ≡ cluster_fault table.now at }
{
    fields::in_table(table, at, 4)?;
    let count = fields::u32_at(table, at);
    let counted = 1 <= count && count <= MOST_PAIRS;
    fields::ruled(counted, Refusal::BadCluster, at)?;
    if pairs_are_clear(table, at + 4, count) {
        return Ok(());
    }
    pairs_fault(table, at + 4, count)
}

// The pair at a position. It is read inside its callers, where its numbers need not go through memory.
#[inline(always)]
pub fn pair_at(table: &[u8], at: usize) -> Pair
    requires { at < 2 ^ 62 }
    ensures { result ≡ pair_at table.now at }
{
    Pair {
        class: pair_class(table, at),
        before: Limits {
            grow: fixed_at(table, at + 4),
            shrink: size_at(table, at + 8),
        },
        after: Limits {
            grow: fixed_at(table, at + 12),
            shrink: size_at(table, at + 16),
        },
        flags: Flags {
            grow: kept_at(table, at + 20),
            shrink: kept_at(table, at + 22),
        },
    }
}

// The first of `count` pairs from `first` on that has the class.
fn record_from(table: &[u8], first: usize, count: usize, class: u8) -> Option<Pair>
    requires { first + 24 * count < 2 ^ 62 }
    ensures { sought_pair result ≡ record_of class (pairs_at table.now count first) }
{
    for pair in 0..count {
        let at = first + PAIR * pair;
        if pair_class(table, at) == u32::from(class) {
            return Some(pair_at(table, at));
        }
    }
    None
}

// The record of a class in the cluster at `at`.
pub fn record_of(table: &[u8], at: usize, class: u8) -> Option<Pair>
    requires { at < 2 ^ 40 }
    ensures { sought_pair result ≡ record_of class (cluster_at table.now at) }
{
    record_from(table, at + 4, fields::u32_at(table, at), class)
}
