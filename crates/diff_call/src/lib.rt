// The calls for what differs between two tables (document 02, 6/14): how many differences there are, and the list of them.
// Their number is known before one is stored, so that refusal 16 changes nothing.
#![tactic(auto)]

ghost use Rattle.std.specs.Prelude.{◌≡◌};
ghost use Rattle.answers.specs.Says.{says_count};
ghost use Rattle.diff_call.specs.Calls.{either_fault, differences_counted, differences_listed};

use fields::{Fault, Refusal};

// The first fault of two tables, the first table's before the second's.
#[tactic(auto, unfolding(fields::specs::Faults::earlier, crate::specs::Calls::either_fault))]
fn either_fault<'a>(one: &'a [u8], other: &'a [u8], count: u32) -> Result<(), Fault>
    ensures { result ≡ either_fault one.now other.now count }
{
    table::table_fault(one, count)?;
    table::table_fault(other, count)
}

// How many differences two tables have that are read with one glyph count.
#[tactic(auto, using(crate::proofs::Laws::counting))]
pub fn difference_count<'a>(one: &'a [u8], other: &'a [u8], count: u32) -> Result<u32, Fault>
    ensures { says_count result ≡ differences_counted one.now other.now count }
{
    either_fault(one, other, count)?;
    let size = diff_table::size_all(one, other, count as usize);
    Ok((size / diff_rule::NUMBERS) as u32)
}

// Lists the differences from the room's start on, five numbers each: direction, what differs, mark, and two numbers; answers
// how many, or a refusal and changes nothing.
#[tactic(auto, using(crate::proofs::Laws::listing))]
pub fn differences<'a>(
    one: &'a [u8],
    other: &'a [u8],
    count: u32,
    list: &mut [u16],
) -> Result<u32, Fault>
    ensures { record { said = says_count result; room = list.new } ≡ differences_listed one.now other.now count list.old }
{
    either_fault(one, other, count)?;
    let glyphs = count as usize;
    let size = diff_table::size_all(one, other, glyphs);
    if list.len() < size {
        return Err(Fault {
            refusal: Refusal::ShortRoom,
            at: 0,
        });
    }
    if size == 0 {
        return Ok(0);
    }
    diff_table::put_all(one, other, glyphs, list);
    Ok((size / diff_rule::NUMBERS) as u32)
}
