// The directory of a whole font, and the checksum of one of its tables (document 02, 12/14).
#![tactic(auto)]

ghost use Rattle.std.specs.Prelude.{◌≡◌, ◌+◌, ◌^◌, ◌<◌, ◌≤◌, length};
ghost use Rattle.font_directory.specs.Sum.{checksum_of};
ghost use Rattle.font_directory.specs.Directory.{directory_size, table_record_at, first_listed, table_of};

// What the directory says of a table: its checksum, where it begins in the font, and its length in bytes.
#[derive(Clone, Copy)]
pub struct TableRecord {
    pub sum: u32,
    pub offset: u32,
    pub length: u32,
}

// The header's size, and where the count of tables stands in it.
const HEADER: usize = 12;

const TABLE_COUNT: usize = 4;

// A record's size, and where checksum, offset and length stand in it, after the tag.
const RECORD: usize = 16;

const SUM: usize = 4;

const OFFSET: usize = 8;

const LENGTH: usize = 12;

// The bytes of a checksum's words.
const WORD: usize = 4;

// The sum of a table's 32-bit words, big-endian; carries out of 32 bits are thrown away.
#[tactic(auto, using(crate::proofs::Laws::word_next, crate::proofs::Laws::word_none), unfolding(crate::specs::Sum::checksum_of))]
fn checksum(table: &[u8]) -> u32
    ensures { result ≡ checksum_of table.now }
{
    let words = table.len().div_ceil(WORD);
    let mut sum: u32 = 0;
    for k in 0..words {
        let word = fields::u32_at(table, WORD * k) as u32;
        sum = sum.wrapping_add(word);
    }
    sum
}

// The bytes that a record names, which are in the font.
#[tactic(auto, unfolding(crate::specs::Directory::table_of))]
pub fn table_of(font: &[u8], place: TableRecord) -> &[u8]
    requires { place.offset + place.length ≤ length font.now }
    ensures { result.now ≡ table_of font.now place }
{
    let from = place.offset as usize;
    let to = from + place.length as usize;
    &font[from..to]
}

// The checksum of the bytes that a record names, which are in the font.
pub fn table_sum(font: &[u8], place: TableRecord) -> u32
    requires { place.offset + place.length ≤ length font.now }
    ensures { result ≡ checksum_of (table_of font.now place) }
{
    checksum(table_of(font, place))
}

// The directory's bytes.
pub fn directory_size(font: &[u8]) -> usize
    ensures { result ≡ directory_size font.now }
{
    HEADER + RECORD * fields::u16_at(font, TABLE_COUNT)
}

// What the record at `p` says.
fn table_record_at(font: &[u8], p: usize) -> TableRecord
    requires { p < 2 ^ 32 }
    ensures { result ≡ table_record_at font.now p }
{
    TableRecord {
        sum: fields::u32_at(font, p + SUM) as u32,
        offset: fields::u32_at(font, p + OFFSET) as u32,
        length: fields::u32_at(font, p + LENGTH) as u32,
    }
}

// The first record with a tag, if one is listed.
#[tactic(auto, using(crate::proofs::Laws::listed_here, crate::proofs::Laws::listed_next, crate::proofs::Laws::listed_none), unfolding(crate::specs::Directory::first_listed))]
pub fn find_record(font: &[u8], tag: usize) -> Option<TableRecord>
    ensures { result ≡ first_listed font.now tag }
{
    for k in 0..fields::u16_at(font, TABLE_COUNT) {
        let p = HEADER + RECORD * k;
        if fields::u32_at(font, p) == tag {
            return Some(table_record_at(font, p));
        }
    }
    None
}
