// The value of a glyph in one of a direction's two lookups, and how many units a find of it looks at; the units of such a
// lookup, and the bound on a find's looks there (document 02, 9/14). The table is judged first, and may be refused.
#![tactic(auto)]

ghost use Rattle.std.specs.Prelude.{◌≡◌, List, ℕ, Option};
ghost use Rattle.table_ask.specs.Places.{Readable, Sound};
ghost use Rattle.table_find.specs.Values.{with_looks, says_value, says_units, found_in, value_asked, units_in, least_over, units_asked};
ghost use Rattle.table_find.specs.ValuesInC.{value_in, units_out};

use fields::Fault;
use lookup_targets::Kind;
use table_ask::Lookup;
use types::Direction;

// A glyph's value in a lookup, if it has one, and how many units were looked at to find that.
#[derive(Clone, Copy)]
pub struct Find {
    pub value: Option<u16>,
    pub looks: u32,
}

// How many units a lookup has for a find, and `most`: no find there takes more looks.
#[derive(Clone, Copy)]
pub struct UnitCount {
    pub units: u32,
    pub most: u32,
}

// Both, or a refusal and its offset, as structs of C layout; crate `just_c` has the calls.

#[repr(C)]
#[derive(Clone, Copy)]
pub struct JustValue {
    pub refusal: u32,
    pub offset: u64,
    pub found: bool,
    pub value: u16,
    pub looks: u32,
}

#[repr(C)]
#[derive(Clone, Copy)]
pub struct JustUnits {
    pub refusal: u32,
    pub offset: u64,
    pub units: u32,
    pub most: u32,
}

// What a find gives in a lookup.
fn value_by(table: &[u8], count: u32, lookup: Option<Lookup>, glyph: u16) -> Find
    requires { Readable table.now lookup × Sound table.now count lookup }
    ensures { with_looks result.looks result.value ≡ found_in table.now count lookup glyph }
{
    let Some(lookup) = lookup else {
        return Find {
            value: None,
            looks: 0,
        };
    };
    let looked = lookup_find::find_by(table, count as usize, lookup.at, lookup.head, glyph);
    Find {
        value: looked.found,
        looks: looked.looks as u32,
    }
}

// The value of a glyph in a direction's lookup of a kind, of an accepted table, and how many units a find looked at.
#[tactic(auto, unfolding(crate::specs::Values::value_asked))]
pub fn ask_value(
    table: &[u8],
    count: u32,
    direction: Direction,
    kind: Kind,
    glyph: u16,
) -> Result<Find, Fault>
    ensures { says_value result ≡ value_asked table.now count direction kind glyph }
{
    table::table_fault(table, count)?;
    let lookup = table_ask::lookup_in(table, direction, kind);
    Ok(value_by(table, count, lookup, glyph))
}

// How many units a find can look at in a lookup that is kept.
fn units_in(lookup: Option<Lookup>) -> usize
    ensures { (t : List ℕ) → Readable t lookup → result ≡ units_in t lookup }
{
    match lookup {
        Some(lookup) => lookup.head.units,
        None => 0,
    }
}

// The least b for which 2 to the power b exceeds n: how many bits n has, from its highest on.
fn least_over(n: usize) -> u32
    ensures { result ≡ least_over n }
{
    usize::BITS - n.leading_zeros()
}

// How many units a direction's lookup of a kind has for a find, of an accepted table, and the bound on its looks.
#[tactic(auto, unfolding(crate::specs::Values::units_asked))]
pub fn ask_units(
    table: &[u8],
    count: u32,
    direction: Direction,
    kind: Kind,
) -> Result<UnitCount, Fault>
    ensures { says_units result ≡ units_asked table.now count direction kind }
{
    table::table_fault(table, count)?;
    let units = units_in(table_ask::lookup_in(table, direction, kind));
    Ok(UnitCount {
        units: units as u32,
        most: least_over(units),
    })
}

impl From<Result<Find, Fault>> for JustValue {
    ghost from_gives = { λ answer value. value ≡ value_in (says_value answer) };

    fn from(answer: Result<Find, Fault>) -> JustValue {
        match answer {
            Ok(find) => JustValue {
                refusal: 0,
                offset: 0,
                found: find.value.is_some(),
                value: find.value.unwrap_or(0),
                looks: find.looks,
            },
            Err(fault) => JustValue {
                refusal: u32::from(fault.refusal),
                offset: fault.at as u64,
                found: false,
                value: 0,
                looks: 0,
            },
        }
    }
}

impl From<Result<UnitCount, Fault>> for JustUnits {
    ghost from_gives = { λ answer units. units ≡ units_out (says_units answer) };

    fn from(answer: Result<UnitCount, Fault>) -> JustUnits {
        match answer {
            Ok(counted) => JustUnits {
                refusal: 0,
                offset: 0,
                units: counted.units,
                most: counted.most,
            },
            Err(fault) => JustUnits {
                refusal: u32::from(fault.refusal),
                offset: fault.at as u64,
                units: 0,
                most: 0,
            },
        }
    }
}
