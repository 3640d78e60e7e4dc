// Distances and flags (document 01, "Numbers", and of "The table" the flags of entries and of width records).
// A distance in ems and one in points are values of two types; only `factor` joins them, with a point size.
// Flags are taken apart by shifts and masks and put together again by shifts.
#![tactic(auto, unfolding(crate::specs::Fixed::fixed_size, crate::specs::Flags::entry_flags, crate::specs::Flags::width_flags))]

ghost use Rattle.std.specs.Prelude.{◌≡◌, cond, ℕ, ◌+◌, ◌*◌, ◌/◌, ◌%◌, ◌<◌, ◌^◌};
ghost use Rattle.units.specs.Fixed.{fixed_of, fixed_size, factor_of};
ghost use Rattle.units.specs.Flags.{sets_mark, stays, mark_class, current_class, entry_flags, is_unlimited, priority_of, width_flags, kept_flags};

// A distance in ems, Fixed: 65,536 is one em.
#[derive(Clone, Copy, PartialEq, Eq)]
pub struct Ems(pub i64);

// A distance in units of 1/65,536 point.
#[derive(Clone, Copy, PartialEq, Eq)]
pub struct Units(pub i64);

// The distance that the 32 bits of a Fixed say.
pub fn fixed(bits: u32) -> Ems
    ensures { result.0 ≡ fixed_of bits }
{
    Ems(i64::from(bits.cast_signed()))
}

// The size of a Fixed, its sign left out: 2,147,483,648 for the lowest one.
pub fn fixed_size(bits: u32) -> u32
    ensures { result ≡ fixed_size bits }
{
    bits.cast_signed().unsigned_abs()
}

// limit × size / 65,536, rounded down, below zero too. A limit that is neither a Fixed nor a Fixed's negative gives 0.
pub fn factor(limit: Ems, size: u32) -> Units
    ensures { result.0 ≡ factor_of limit.0 size }
{
    let ems = limit.0;
    if ems < -2147483648 {
        return Units(0);
    }
    if 2147483648 < ems {
        return Units(0);
    }
    Units((ems * (size as i64)) >> 16)
}

// Whether an entry's flags say set mark, 0x8000.
pub fn sets_mark(flags: u16) -> bool
    ensures { result ≡ sets_mark flags }
{
    (flags >> 15) & 1 == 1
}

// Whether an entry's flags say stay, 0x4000.
pub fn stays_put(flags: u16) -> bool
    ensures { result ≡ stays flags }
{
    (flags >> 14) & 1 == 1
}

// The mark class of an entry's flags, 0x3F80.
pub fn mark_class(flags: u16) -> u8
    ensures { (result ≡ mark_class flags) × (result < 128) }
{
    ((flags >> 7) & 0x7F) as u8
}

// The current class of an entry's flags, 0x007F.
pub fn current_class(flags: u16) -> u8
    ensures { (result ≡ current_class flags) × (result < 128) }
{
    (flags & 0x7F) as u8
}

// An entry's flags put together: of each class the low 7 bits count.
pub fn entry_flags(sets_mark: bool, stays: bool, mark: u8, current: u8) -> u16
    ensures { result ≡ entry_flags sets_mark stays mark current }
{
    let high = (u16::from(sets_mark) << 15) + (u16::from(stays) << 14);
    let classes = (u16::from(mark % 128) << 7) + u16::from(current % 128);
    high + classes
}

// Whether grow or shrink flags say unlimited, 0x1000.
pub fn is_unlimited(flags: u16) -> bool
    ensures { result ≡ is_unlimited flags }
{
    (flags >> 12) & 1 == 1
}

// The priority in grow or shrink flags, 0x000F.
pub fn priority(flags: u16) -> u8
    ensures { (result ≡ priority_of flags) × (result < 16) }
{
    (flags & 0x000F) as u8
}

// Grow or shrink flags put together: of the priority the low 4 bits count.
pub fn width_flags(unlimited: bool, priority: u8) -> u16
    ensures { result ≡ width_flags unlimited priority }
{
    (u16::from(unlimited) << 12) + u16::from(priority % 16)
}

// Grow or shrink flags with the ignored bits zero.
pub fn kept_flags(flags: u16) -> u16
    ensures { result ≡ kept_flags flags }
{
    width_flags(is_unlimited(flags), priority(flags))
}
