// A 'just' table straight from a font file (document 02, 12/14).
#![tactic(auto, using(crate::proofs::Laws::extents_clear, crate::proofs::Laws::tables_clear), unfolding(fields::specs::Faults::earlier, fields::specs::Faults::rule, crate::specs::Opened::inside_fault, crate::specs::Opened::sum_fault, crate::specs::Opened::extents_fault, crate::specs::Opened::sums_fault, crate::specs::Opened::tables_fault, crate::specs::Opened::directory_fault, crate::specs::Opened::font_opened))]

ghost use Rattle.std.specs.Prelude.{◌≡◌, Some};
ghost use Rattle.font_open.specs.Opened.{Inside, glyph_count_of, inside_fault, sum_fault, extents_fault, sums_fault, tables_fault, says_font, opened_by, directory_fault, font_opened};
ghost use Rattle.font_open.specs.OpenedInC.{font_in};

use fields::{Fault, Refusal};
use font_directory::TableRecord;

// Where 'just' stands in the font, its length in bytes and the font's glyph count.
#[derive(Clone, Copy)]
pub struct Opened {
    pub offset: u32,
    pub length: u32,
    pub count: u32,
}

// The same as a struct of C layout, or the refusal and, for 4 to 8, its offset from the start of 'just'; crate `just_c` has
// the call.
#[repr(C)]
#[derive(Clone, Copy)]
pub struct JustFont {
    pub refusal: u32,
    pub offset: u64,
    pub table_offset: u32,
    pub table_length: u32,
    pub glyph_count: u32,
}

// The tags 'just' and 'maxp'.
const JUST: usize = 0x6A757374;

const MAXP: usize = 0x6D617870;

// Where the glyph count stands in 'maxp', and the least length that holds it.
const GLYPH_COUNT: usize = 4;

const LEAST_MAXP: u32 = 6;

// Refusal 21 unless the directory is wholly in the font.
fn directory_fault(font: &[u8]) -> Result<(), Fault>
    ensures { result ≡ directory_fault font.now }
{
    fields::ruled(
        font_directory::directory_size(font) <= font.len(),
        Refusal::FontEnds,
        0,
    )
}

// Refusal 21 unless the bytes that a record names are wholly in the font.
fn inside_fault(font: &[u8], place: TableRecord) -> Result<(), Fault>
    ensures { result ≡ inside_fault font.now place }
{
    let end = place.offset as usize + place.length as usize;
    fields::ruled(end <= font.len(), Refusal::FontEnds, 0)
}

// Refusal 23 unless their checksum is the one that the record has.
fn sum_fault(font: &[u8], place: TableRecord) -> Result<(), Fault>
    requires { Inside font.now place }
    ensures { result ≡ sum_fault font.now place }
{
    let sum = font_directory::table_sum(font, place);
    fields::ruled(sum == place.sum, Refusal::WrongSum, 0)
}

// The glyph count that 'maxp' has.
fn glyph_count_of(font: &[u8], maxp: TableRecord) -> u32
    requires { Inside font.now maxp }
    ensures { result ≡ glyph_count_of font.now maxp }
{
    fields::u16_at(font_directory::table_of(font, maxp), GLYPH_COUNT) as u32
}

// Refusal 21 unless both tables are wholly in the font and 'maxp' holds the glyph count.
fn extents_fault(font: &[u8], just: TableRecord, maxp: TableRecord) -> Result<(), Fault>
    ensures { result ≡ extents_fault font.now just maxp }
{
    inside_fault(font, just)?;
    inside_fault(font, maxp)?;
    fields::ruled(LEAST_MAXP <= maxp.length, Refusal::FontEnds, 0)
}

// Refusal 23 unless both checksums agree.
fn sums_fault(font: &[u8], just: TableRecord, maxp: TableRecord) -> Result<(), Fault>
    requires { Inside font.now just × Inside font.now maxp }
    ensures { result ≡ sums_fault font.now just maxp }
{
    sum_fault(font, just)?;
    sum_fault(font, maxp)
}

// The first fault of the two tables, last that of 'just' as the reader takes it.
fn tables_fault(font: &[u8], just: TableRecord, maxp: TableRecord) -> Result<(), Fault>
    ensures { result ≡ tables_fault font.now just maxp }
{
    extents_fault(font, just, maxp)?;
    sums_fault(font, just, maxp)?;
    table::table_fault(
        font_directory::table_of(font, just),
        glyph_count_of(font, maxp),
    )
}

// What opening a font answers where the directory has both tables.
fn open_tables(font: &[u8], just: TableRecord, maxp: TableRecord) -> Result<Opened, Fault>
    ensures { says_font result ≡ opened_by font.now (Some just) (Some maxp) }
{
    tables_fault(font, just, maxp)?;
    Ok(Opened {
        offset: just.offset,
        length: just.length,
        count: glyph_count_of(font, maxp),
    })
}

// Where the 'just' table of a whole font stands and how many glyphs the font has, where the reader accepts that table.
pub fn open_font(font: &[u8]) -> Result<Opened, Fault>
    ensures { says_font result ≡ font_opened font.now }
{
    directory_fault(font)?;
    let missing = Fault {
        refusal: Refusal::MissingTable,
        at: 0,
    };
    let just = font_directory::find_record(font, JUST).ok_or(missing)?;
    let maxp = font_directory::find_record(font, MAXP).ok_or(missing)?;
    open_tables(font, just, maxp)
}

impl From<Result<Opened, Fault>> for JustFont {
    ghost from_gives = { λ answer font. font ≡ font_in (says_font answer) };

    fn from(answer: Result<Opened, Fault>) -> JustFont {
        match answer {
            Ok(opened) => JustFont {
                refusal: 0,
                offset: 0,
                table_offset: opened.offset,
                table_length: opened.length,
                glyph_count: opened.count,
            },
            Err(fault) => JustFont {
                refusal: u32::from(fault.refusal),
                offset: fault.at as u64,
                table_offset: 0,
                table_length: 0,
                glyph_count: 0,
            },
        }
    }
}
