// The printing program (document 01, "Sample lines and tables"): reads a glyph count (two bytes) and a table from standard
// input, and prints the table's sheet or its refusal. The text is the work of `sheet_text::print_input`; this reads and writes.
// Where a read fails it prints nothing, since the bytes before the failure are another input, and says so on standard error.
#![tactic(auto)]

ghost use Rattle.std.specs.Prelude.{◌≤◌, length, IfOk};

use std::io;
use std::io::{Read, Write};

// Reads until the input ends or the lent bytes are full, and answers how many it had.
fn read_input(rt: &HostRuntime, input: &mut [u8]) -> io::Result<usize>
    ensures { IfOk result (λ count. count ≤ length input.new) }
{
    let mut at = 0;
    // Until nothing is left: how much a read brings is not known before.
    while at < input.len() {
        let more = rt.stdin().read(&mut input[at..])?;
        if more == 0 {
            break;
        }
        at += more;
    }
    Ok(at)
}

fn main(rt: HostRuntime) {
    // one byte more than the longest input, so that a longer one is told from it
    let mut input = [0u8; 65537];
    let Ok(length) = read_input(&rt, &mut input) else {
        let _ = rt
            .stderr()
            .write_all(b"sheet_print: standard input cannot be read\n");
        return;
    };
    let mut out = [0u8; 147456];
    let end = sheet_text::print_input(&input[..length], &mut out);
    if rt.stdout().write_all(&out[..end]).is_err() {
        let _ = rt
            .stderr()
            .write_all(b"sheet_print: standard output cannot be written\n");
    }
}
