// What the printing program writes for what it reads (document 01, "Sample lines and tables", the passage on the program).
// The text is put at the start of lent bytes, and the rest of them stays as it was.
#![tactic(auto)]

ghost use Rattle.std.specs.Prelude.{◌≡◌, ◌≤◌, ◌+◌, ◌<◌, length};
ghost use Rattle.sheet_text.specs.Stored.{Printed, Stored};
ghost use Rattle.sheet_text.specs.Text.{sheet_room, text_room, table_text, program_text};
ghost use Rattle.std.proofs.lemmas.List.Edits.{sets};
ghost use Rattle.fields.specs.Refusals.{number_of};
ghost use Rattle.sheet_text.specs.Printed.{digit_of, hex_of, hex_line, decimal_of, printed_sheet, printed_refusal};

use fields::Refusal;

// The text for a table and a glyph count; `room` is room for the sheet.
fn print_table(table: &[u8], count: u32, room: &mut [u8], out: &mut [u8]) -> usize
    requires { (length room.old ≡ sheet_room) × (text_room ≤ length out.old) }
    ensures { Printed (table_text table.now count) out.old out.new result }
{
    match sheet_write::write_sheet(table, count, room) {
        Ok(length) => print_sheet(&room[..length as usize], out),
        Err(fault) => print_refusal(fault.refusal, out),
    }
}

// The text for the program's input: two bytes of glyph count, then the table.
pub fn print_input(input: &[u8], out: &mut [u8]) -> usize
    requires { text_room ≤ length out.old }
    ensures { Printed (program_text input.now) out.old out.new result }
{
    let length = input.len();
    if length < 2 {
        return print_refusal(Refusal::TableLength, out);
    }
    if 65536 < length {
        return print_refusal(Refusal::TableLength, out);
    }
    let count = fields::u16_at(input, 0) as u32;
    let mut room = [0u8; 65536];
    print_table(&input[2..], count, &mut room, out)
}

// The bytes of a full line.
const PER_LINE: usize = 4;

// A digit below 16 in ASCII. Digits are made by hand: a library stores them into a slice of the exact length, which each call
// would have to cut out of the room.
#[tactic(auto, unfolding(crate::specs::Printed::digit_of))]
fn digit(number: u8) -> u8
    requires { number < 16 }
    ensures { result ≡ digit_of number }
{
    if number < 10 {
        b'0' + number
    } else {
        b'a' + (number - 10)
    }
}

// Stores the two hex digits of a byte.
fn put_hex(out: &mut [u8], at: usize, byte: u8)
    requires { at + 2 ≤ length out.old }
    ensures { out.new ≡ sets out.old at (hex_of byte) }
{
    out[at] = digit(byte / 16);
    out[at + 1] = digit(byte % 16);
}

// Stores a line of these bytes, and answers where it ends.
#[tactic(auto, using(crate::proofs::HexLaws::line_steps))]
fn put_line(bytes: &[u8], out: &mut [u8], at: usize) -> usize
    requires { at + length (hex_line bytes.now) ≤ length out.old }
    ensures { Stored (hex_line bytes.now) at out.old out.new result }
{
    for (i, byte) in bytes.iter().enumerate() {
        put_hex(out, at + 2 * i, *byte);
    }
    let end = at + 2 * bytes.len();
    out[end] = b'\n';
    end + 1
}

// Prints a sheet, and answers the length of the text.
pub fn print_sheet(sheet: &[u8], out: &mut [u8]) -> usize
    requires { length (printed_sheet sheet.now) ≤ length out.old }
    ensures { Printed (printed_sheet sheet.now) out.old out.new result }
{
    let mut at = 0;
    for k in 0..sheet.len().div_ceil(PER_LINE) {
        let from = PER_LINE * k;
        let end = sheet.len().min(from + PER_LINE);
        at = put_line(&sheet[from..end], out, at);
    }
    at
}

// Stores a number below 100 in decimal, and answers where it ends.
fn put_decimal(out: &mut [u8], at: usize, number: u8) -> usize
    requires { (number < 100) × (at + 2 ≤ length out.old) }
    ensures { Stored (decimal_of number) at out.old out.new result }
{
    if number < 10 {
        out[at] = digit(number);
        return at + 1;
    }
    out[at] = digit(number / 10);
    out[at + 1] = digit(number % 10);
    at + 2
}

// Prints a refusal, and answers the length of the text.
#[tactic(auto, using(crate::proofs::HexLaws::decimal_steps))]
pub fn print_refusal(refusal: Refusal, out: &mut [u8]) -> usize
    requires { 11 ≤ length out.old }
    ensures { Printed (printed_refusal (number_of refusal)) out.old out.new result }
{
    out[..8].copy_from_slice(b"refused ");
    let end = put_decimal(out, 8, u32::from(refusal) as u8);
    out[end] = b'\n';
    end + 1
}
