// Whether bytes are a sheet (document 01, "The sheet"; refusal 17 where they are not): N, then the eight sections of
// each direction, and nothing after them. Bytes of any length may be handed in.
#![tactic(auto)]

ghost use Rattle.std.specs.Prelude.{◌<◌, ◌^◌};
ghost use Rattle.meaning.specs.Limits.{OkSide};
ghost use Rattle.meaning.specs.Sheet.{write_side, IsSheet};
ghost use Rattle.encoding.specs.Tests.{Says};
ghost use Rattle.sheet_sections.specs.Section.{Parses};
ghost use Rattle.sheet_check.specs.Whole.{values_bytes, OkValues, sides_bytes, OkSides};
ghost use Rattle.answers.specs.Says.{judged_by};
ghost use Rattle.sheet_check.specs.Check.{SheetChecked};

use fields::{Fault, Refusal};
use sheet_items::Sort;

// Sections 5 to 8: the clusters and the action lists of `glyphs` glyphs.
fn read_values(bytes: &[u8], at: usize, glyphs: usize) -> Option<usize>
    requires { glyphs < 2 ^ 16 }
    ensures { Parses values_bytes (OkValues glyphs) bytes.now at result }
{
    let end = sheet_pools::read_pool(bytes, at, Sort::Clusters, glyphs)?;
    sheet_pools::read_pool(bytes, end, Sort::Lists, glyphs)
}

// One direction: its eight sections.
fn read_side(bytes: &[u8], at: usize, glyphs: usize) -> Option<usize>
    requires { glyphs < 2 ^ 16 }
    ensures { Parses write_side (OkSide glyphs) bytes.now at result }
{
    let end = sheet_machine::read_machine(bytes, at, glyphs)?;
    read_values(bytes, end, glyphs)
}

// Both directions, horizontal first.
fn read_sides(bytes: &[u8], at: usize, glyphs: usize) -> Option<usize>
    requires { glyphs < 2 ^ 16 }
    ensures { Parses sides_bytes (OkSides glyphs) bytes.now at result }
{
    let end = read_side(bytes, at, glyphs)?;
    read_side(bytes, end, glyphs)
}

// Whether bytes are what is written for some meaning that keeps its limits.
pub fn is_sheet(bytes: &[u8]) -> bool
    ensures { Says result (IsSheet bytes.now) }
{
    if bytes.len() < 4 {
        return false;
    }
    let glyphs = fields::u32_at(bytes, 0);
    if glyphs == 0 || 65535 < glyphs {
        return false;
    }
    let Some(end) = read_sides(bytes, 4, glyphs) else {
        return false;
    };
    // Nothing follows.
    end == bytes.len()
}

// Bytes are accepted as a sheet, or refused with 17.
pub fn check_sheet(bytes: &[u8]) -> Result<(), Fault>
    ensures { SheetChecked bytes.now (judged_by result) }
{
    fields::ruled(is_sheet(bytes), Refusal::NotSheet, 0)
}
