// The things that a 'just' table and a sheet speak of, as plain values (document 01, "The table" and "Verdicts").
// Code and definitions use these same types, and so does the meaning, whose actions alone have their data as a list.
// A width record and an action are held as the sheet writes them: shrink limits as sizes, ignored bits zero, no
// padding.
#![tactic(auto)]

ghost use Rattle.std.specs.Prelude.{◌≡◌};
ghost use Rattle.types.specs.InC.{direction_in};

// Horizontal stands first in a table, in a sheet and in the order of faults.
#[derive(Clone, Copy, PartialEq, Eq)]
pub enum Direction {
    Horizontal,
    Vertical,
}

// What a cell of the class machine holds: the new row's number and the flags.
#[repr(C)]
#[derive(Clone, Copy, PartialEq, Eq)]
pub struct Entry {
    pub row: u16,
    pub flags: u16,
}

// A side's limits in ems (Fixed), both as sizes.
#[repr(C)]
#[derive(Clone, Copy, PartialEq, Eq, PartialOrd, Ord)]
pub struct Limits {
    pub grow: u32,
    pub shrink: u32,
}

// Of each: 0x1000 for unlimited, and the priority, 0 to 3.
#[repr(C)]
#[derive(Clone, Copy, PartialEq, Eq, PartialOrd, Ord)]
pub struct Flags {
    pub grow: u16,
    pub shrink: u16,
}

// A width record with its class.
#[repr(C)]
#[derive(Clone, Copy, PartialEq, Eq, PartialOrd, Ord)]
pub struct Pair {
    pub class: u32,
    pub before: Limits,
    pub after: Limits,
    pub flags: Flags,
}

// An action as it is handed out: its class, its type 0 to 5, and its data, which is the first `size` bytes; zeros
// follow. The longest data is type 0's with 32 components: 12 + 2 × 32 bytes.
#[repr(C)]
#[derive(Clone, Copy)]
pub struct HeldAction {
    pub class: u16,
    pub ty: u16,
    pub size: u32,
    pub bytes: [u8; 76],
}

// An action that fires: the glyph's place in the line, the action's number in its list, both from 0, and 1 where a
// type 2 action substitutes, else 0: a number, so that the record has no padding and each byte of a lent list is told.
#[repr(C)]
#[derive(Clone, Copy, PartialEq, Eq)]
pub struct Verdict {
    pub place: u16,
    pub action: u16,
    pub substitutes: u16,
}

// A direction by its number, as programs in C and other languages hand it in.
impl From<u32> for Direction {
    ghost from_gives = { λ number direction. direction ≡ direction_in number };

    fn from(number: u32) -> Direction {
        if number == 0 {
            return Direction::Horizontal;
        }
        Direction::Vertical
    }
}
