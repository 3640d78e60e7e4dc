// The fields of a table or a sheet: numbers in lent bytes, big-endian (document 01, "Numbers"), the refusals and
// their numbers, and the fault of a field (document 01, "Numbers of refusal"): what judges fields one after the other hands
// the first fault back by `?`.
// A field is read as if zeros followed the bytes, so that reading asks nothing of its caller; whether a field
// lies inside is judged apart, by `in_table`.
#![tactic(auto, unfolding(crate::specs::Field::u16_at, crate::specs::Field::u32_at, crate::specs::Faults::rule, crate::specs::Faults::inside))]

ghost use Rattle.std.specs.Prelude.{◌≡◌, ℕ, ◌+◌, ◌≤◌, ◌<◌, ◌^◌, length, get_or, set};
ghost use Rattle.std.proofs.lemmas.List.Edits.{sets};
ghost use Rattle.fields.specs.Field.{u16_at, u32_at, be16, be32};
ghost use Rattle.fields.specs.Refusals.{number_of};
ghost use Rattle.fields.specs.Faults.{rule, inside};

// The refusals, each named by what is wrong, in the order of their numbers, 1 to 18 and 21 to 23.
#[derive(Clone, Copy, Debug, PartialEq, Eq)]
pub enum Refusal {
    TableLength,
    GlyphCount,
    Version,
    Outside,
    BadLookup,
    BadCluster,
    BadMachine,
    BadActions,
    UnequalLengths,
    LongLine,
    PointSize,
    Advances,
    UnknownGlyph,
    EndlessWalk,
    StageTotal,
    ShortRoom,
    NotSheet,
    UnknownEdition,
    FontEnds,
    MissingTable,
    WrongSum,
}

// A refusal and, for 4 to 8, the offset of the first byte of the field that was found or judged; 0 for the others.
#[derive(Clone, Copy, Debug, PartialEq, Eq)]
pub struct Fault {
    pub refusal: Refusal,
    pub at: usize,
}

// The number that documents 01 and 02 give a refusal.
impl From<Refusal> for u32 {
    ghost from_gives = { λ refusal number. number ≡ number_of refusal };

    fn from(refusal: Refusal) -> u32 {
        match refusal {
            Refusal::TableLength => 1,
            Refusal::GlyphCount => 2,
            Refusal::Version => 3,
            Refusal::Outside => 4,
            Refusal::BadLookup => 5,
            Refusal::BadCluster => 6,
            Refusal::BadMachine => 7,
            Refusal::BadActions => 8,
            Refusal::UnequalLengths => 9,
            Refusal::LongLine => 10,
            Refusal::PointSize => 11,
            Refusal::Advances => 12,
            Refusal::UnknownGlyph => 13,
            Refusal::EndlessWalk => 14,
            Refusal::StageTotal => 15,
            Refusal::ShortRoom => 16,
            Refusal::NotSheet => 17,
            Refusal::UnknownEdition => 18,
            Refusal::FontEnds => 21,
            Refusal::MissingTable => 22,
            Refusal::WrongSum => 23,
        }
    }
}

// The byte at a position, 0 past the end.
pub fn u8_at(bytes: &[u8], at: usize) -> usize
    ensures { (result ≡ get_or bytes.now at 0) × (result < 2 ^ 8) }
{
    bytes.get(at).map_or(0, |byte| usize::from(*byte))
}

// The 16-bit number at a position, all of it inside the bytes.
pub fn u16_in(bytes: &[u8], at: usize) -> usize
    requires { at + 2 ≤ length bytes.now }
    ensures { (result ≡ u16_at bytes.now at) × (result < 2 ^ 16) }
{
    usize::from(u16::from_be_bytes([bytes[at], bytes[at + 1]]))
}

// The 32-bit number at a position, all of it inside the bytes.
pub fn u32_in(bytes: &[u8], at: usize) -> usize
    requires { at + 4 ≤ length bytes.now }
    ensures { (result ≡ u32_at bytes.now at) × (result < 2 ^ 32) }
{
    let word = [bytes[at], bytes[at + 1], bytes[at + 2], bytes[at + 3]];
    u32::from_be_bytes(word) as usize
}

// The 16-bit number at a position. Where all of it is there, that is seen once, and its bytes are read as one.
pub fn u16_at(bytes: &[u8], at: usize) -> usize
    ensures { (result ≡ u16_at bytes.now at) × (result < 2 ^ 16) }
{
    if bytes.len() < 2 || bytes.len() - 2 < at {
        return u8_at(bytes, at) * 256;
    }
    u16_in(bytes, at)
}

// The 32-bit number at a position near the end or past it.
fn u32_near_end(bytes: &[u8], at: usize) -> usize
    ensures { (result ≡ u32_at bytes.now at) × (result < 2 ^ 32) }
{
    if at < bytes.len() {
        u16_at(bytes, at) * 65536 + u16_at(bytes, at + 2)
    } else {
        0
    }
}

// The 32-bit number at a position. Where all of it is there, that is seen once, and its bytes are read as one.
pub fn u32_at(bytes: &[u8], at: usize) -> usize
    ensures { (result ≡ u32_at bytes.now at) × (result < 2 ^ 32) }
{
    if bytes.len() < 4 || bytes.len() - 4 < at {
        return u32_near_end(bytes, at);
    }
    u32_in(bytes, at)
}

// Stores a byte at a position; nothing past the end.
pub fn put_u8(out: &mut [u8], at: usize, byte: u8)
    ensures { out.new ≡ set out.old at byte }
{
    if at < out.len() {
        out[at] = byte;
    }
}

// Stores a 16-bit number at a position; what would stand past the end is dropped. Where there is room for all of it, that is
// seen once, and its bytes are stored as one.
pub fn put_u16(out: &mut [u8], at: usize, number: u16)
    ensures { out.new ≡ sets out.old at (be16 number) }
{
    let bytes = number.to_be_bytes();
    if out.len() < 2 || out.len() - 2 < at {
        put_u8(out, at, bytes[0]);
        return;
    }
    out[at..at + 2].copy_from_slice(&bytes);
}

// Stores a 32-bit number at a position near the end or past it.
fn put_u32_near_end(out: &mut [u8], at: usize, number: u32)
    ensures { out.new ≡ sets out.old at (be32 number) }
{
    if at < out.len() {
        put_u16(out, at, (number / 65536) as u16);
        put_u16(out, at + 2, (number % 65536) as u16);
    }
}

// Stores a 32-bit number at a position; what would stand past the end is dropped. Where there is room for all of it, that is
// seen once, and its bytes are stored as one.
pub fn put_u32(out: &mut [u8], at: usize, number: u32)
    ensures { out.new ≡ sets out.old at (be32 number) }
{
    if out.len() < 4 || out.len() - 4 < at {
        put_u32_near_end(out, at, number);
        return;
    }
    out[at..at + 4].copy_from_slice(&number.to_be_bytes());
}

// No fault where the test holds, else the refusal at the field that was judged.
pub fn ruled(test: bool, refusal: Refusal, at: usize) -> Result<(), Fault>
    ensures { result ≡ rule test refusal at }
{
    if test {
        return Ok(());
    }
    Err(Fault { refusal, at })
}

// Refusal 4 unless `width` bytes stand at `at`.
pub fn in_table(table: &[u8], at: usize, width: usize) -> Result<(), Fault>
    ensures { result ≡ inside table.now at width }
{
    let fits = at <= table.len() && width <= table.len() - at;
    ruled(fits, Refusal::Outside, at)
}
