// The sheet of a table (document 01, "The sheet"): its length, and writing it into lent bytes. Its length is known
// before a byte is stored into them, so that refusal 16 changes nothing.
#![tactic(auto, unfolding(crate::specs::Written::sheet_length, crate::specs::Written::written, crate::specs::Written::written_by))]

ghost use Rattle.std.specs.Prelude.{◌≡◌, ◌++◌, ◌≤◌, ◌<◌, ◌^◌, length, take, drop};
ghost use Rattle.std.proofs.lemmas.List.Edits.{sets};
ghost use Rattle.std.proofs.Math.Seq.{slice};
ghost use Rattle.fields.specs.Faults.{Clear};
ghost use Rattle.table.specs.Table.{table_fault};
ghost use Rattle.sheet_write.specs.Written.{sheet_of, says_length, says_written, sheet_length, SheetOutcome, stored, written, Draft};

use fields::{Fault, Refusal};
use types::Direction;

// Stores the bytes that stand from `from` to `end` once more, after them; what would stand past the room is dropped. Byte by byte:
// a copy inside one slice would have the archives ask for memmove, which they need for nothing else.
fn put_copy(room: &mut [u8], from: usize, end: usize)
    requires { from ≤ end }
    ensures { room.new ≡ sets room.old end (slice from end room.old) }
{
    let count = (end - from).min(room.len().saturating_sub(end));
    for i in 0..count {
        room[end + i] = room[from + i];
    }
}

// Stores the sheet of an accepted table, and answers where it ends; what would stand past the room is dropped.
fn put_sheet(table: &[u8], glyphs: usize, room: &mut [u8]) -> usize
    requires { table_fault table.now glyphs ≡ Clear }
    ensures { (result ≡ length (sheet_of table.now glyphs)) × (result < 2 ^ 32)
        × (room.new ≡ sets room.old 0 (sheet_of table.now glyphs)) }
{
    fields::put_u32(room, 0, glyphs as u32);
    let first = table::direction_at(table, Direction::Horizontal);
    let end = write_direction::put_side(table, glyphs, first, room, 4);
    let second = table::direction_at(table, Direction::Vertical);
    // directions at one offset are written alike
    if first == second {
        put_copy(room, 4, end);
        return end + (end - 4);
    }
    write_direction::put_side(table, glyphs, second, room, end)
}

// The length of the sheet of an accepted table: where it ends in a room of no length.
fn length_accepted(table: &[u8], glyphs: usize) -> usize
    requires { table_fault table.now glyphs ≡ Clear }
    ensures { (result ≡ length (sheet_of table.now glyphs)) × (result < 2 ^ 32) }
{
    put_sheet(table, glyphs, &mut [])
}

// Stores the first `count` bytes of a list from the start of the room on.
fn copy_front(bytes: &[u8], count: usize, room: &mut [u8])
    requires { (count ≤ length bytes.now) × (count ≤ length room.old) }
    ensures { room.new ≡ take count bytes.now ++ drop count room.old }
{
    room[..count].copy_from_slice(&bytes[..count]);
}

// Stores the sheet, which is `size` bytes long, into a room that is long enough: from the draft, if it fits there.
#[tactic(auto, using(crate::proofs::Laws::by_draft))]
fn put_sized(table: &[u8], glyphs: usize, draft: &[u8], size: usize, room: &mut [u8])
    requires sheet { (table_fault table.now glyphs ≡ Clear) × ((size ≡ length (sheet_of table.now glyphs)) × (size ≤ length room.old)) }
    requires draft { Draft (sheet_of table.now glyphs) draft.now }
    ensures { room.new ≡ sheet_of table.now glyphs ++ drop size room.old }
{
    if size <= draft.len() {
        copy_front(draft, size, room);
    } else {
        put_sheet(table, glyphs, room);
    }
}

// Writes the sheet of an accepted table where the room is long enough. It is stored into `draft` first, which tells its
// length before a byte of the room is changed.
#[tactic(auto, using(crate::proofs::Laws::by_draft))]
fn write_by(table: &[u8], glyphs: usize, draft: &mut [u8], room: &mut [u8]) -> Result<u32, Fault>
    requires { table_fault table.now glyphs ≡ Clear }
    ensures { record { said = says_written result; room = room.new } ≡ stored (sheet_of table.now glyphs) room.old }
{
    let size = put_sheet(table, glyphs, draft);
    if room.len() < size {
        return Err(Fault {
            refusal: Refusal::ShortRoom,
            at: 0,
        });
    }
    put_sized(table, glyphs, draft, size, room);
    Ok(size as u32)
}

// With a draft of this many bytes. A sheet that is longer is numbered twice, once to learn its length and once to store it.
#[inline(never)]
fn write_sized<const DRAFT: usize>(
    table: &[u8],
    glyphs: usize,
    room: &mut [u8],
) -> Result<u32, Fault>
    requires sound { table_fault table.now glyphs ≡ Clear }
    requires few { DRAFT < 2 ^ 32 }
    ensures { record { said = says_written result; room = room.new } ≡ stored (sheet_of table.now glyphs) room.old }
{
    write_by(table, glyphs, &mut [0u8; DRAFT], room)
}

// With a draft for most sheets if that holds `most` bytes, what is expected of the sheet, else with one for long sheets.
fn write_large(table: &[u8], glyphs: usize, most: usize, room: &mut [u8]) -> Result<u32, Fault>
    requires { table_fault table.now glyphs ≡ Clear }
    ensures { record { said = says_written result; room = room.new } ≡ stored (sheet_of table.now glyphs) room.old }
{
    if most <= 32768 {
        return write_sized::<32768>(table, glyphs, room);
    }
    write_sized::<163840>(table, glyphs, room)
}

// With a draft by what is expected of the sheet: few have eight times as many bytes as their table, and one that is longer than
// the room is refused. The smallest is for most sheets of small tables.
fn write_accepted(table: &[u8], glyphs: usize, room: &mut [u8]) -> Result<u32, Fault>
    requires { table_fault table.now glyphs ≡ Clear }
    ensures { record { said = says_written result; room = room.new } ≡ stored (sheet_of table.now glyphs) room.old }
{
    if table.len() <= 512 {
        return write_sized::<1024>(table, glyphs, room);
    }
    if table.len() <= 4096 {
        return write_large(table, glyphs, 8 * table.len(), room);
    }
    write_large(table, glyphs, room.len(), room)
}

// Writes a table's sheet into the first bytes of the room, or answers a refusal and changes nothing.
pub fn write_sheet(table: &[u8], count: u32, room: &mut [u8]) -> Result<u32, Fault>
    ensures { record { said = says_written result; room = room.new } ≡ written table.now count room.old }
{
    table::table_fault(table, count)?;
    write_accepted(table, count as usize, room)
}

// The length of a table's sheet, without writing it, or the table's refusal.
pub fn sheet_length(table: &[u8], count: u32) -> Result<u32, Fault>
    ensures { says_length result ≡ sheet_length table.now count }
{
    table::table_fault(table, count)?;
    Ok(length_accepted(table, count as usize) as u32)
}
