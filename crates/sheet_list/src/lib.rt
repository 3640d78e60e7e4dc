// An action and a list of actions of a sheet (document 01, "The sheet", section 7), read out of bytes at a position.
// Data lengths are exact, and glyphs lie below N.
#![tactic(auto)]

ghost use Rattle.std.specs.Prelude.{◌+◌, ◌≤◌, length};
ghost use Rattle.encoding.specs.Codes.{many};
ghost use Rattle.encoding.specs.Tests.{Says};
ghost use Rattle.sheet_sections.specs.Section.{Parses};
ghost use Rattle.meaning.specs.Limits.{OkContent, OkAction};
ghost use Rattle.meaning.specs.Sheet.{action_code};
ghost use Rattle.sheet_list.specs.Action.{GoodAction, Exactly, list_code, SomeList};

// Type 0: lower, upper and order, a count of 1 to 32, and as many glyphs.
fn good_components(content: &[u8], glyphs: usize) -> bool
    ensures { Says result (OkContent glyphs 0 content.now) }
{
    let count = fields::u16_at(content, 10);
    if count == 0 || 32 < count {
        return false;
    }
    content.len() == 12 + 2 * count
        && (0..count).all(|k| fields::u16_at(content, 12 + 2 * k) < glyphs)
}

// Type 1: a glyph.
fn good_glyph(content: &[u8], glyphs: usize) -> bool
    ensures { Says result (OkContent glyphs 1 content.now) }
{
    content.len() == 2 && fields::u16_at(content, 0) < glyphs
}

// Type 2: a threshold, the added glyph or 0xFFFF for none, and the substitute.
fn good_substitute(content: &[u8], glyphs: usize) -> bool
    ensures { Says result (OkContent glyphs 2 content.now) }
{
    let added = fields::u16_at(content, 4);
    content.len() == 8 && (added < glyphs || added == 0xFFFF) && fields::u16_at(content, 6) < glyphs
}

// Type 5: flags, which are zero, and a glyph.
fn good_repeat(content: &[u8], glyphs: usize) -> bool
    ensures { Says result (OkContent glyphs 5 content.now) }
{
    content.len() == 4 && fields::u16_at(content, 0) == 0 && fields::u16_at(content, 2) < glyphs
}

// Whether bytes are the data of an action of a type. Type 3 has none, type 4 an axis and three Fixed.
fn good_content(content: &[u8], ty: usize, glyphs: usize) -> bool
    ensures { Says result ((ty ≤ 5) × OkContent glyphs ty content.now) }
{
    match ty {
        0 => good_components(content, glyphs),
        1 => good_glyph(content, glyphs),
        2 => good_substitute(content, glyphs),
        3 => content.is_empty(),
        4 => content.len() == 16,
        5 => good_repeat(content, glyphs),
        _ => false,
    }
}

// Whether an action with `size` bytes of data stands at a position. The size is judged before its bytes are looked for.
fn good_action(bytes: &[u8], at: usize, size: usize, glyphs: usize) -> bool
    requires { at + 8 ≤ length bytes.now }
    ensures { Says result (GoodAction glyphs bytes.now at size) }
{
    if 76 < size {
        return false;
    }
    if 128 <= fields::u16_at(bytes, at) {
        return false;
    }
    if !sheet_sections::has_room(bytes, at + 8, size) {
        return false;
    }
    let content = &bytes[at + 8..at + 8 + size];
    good_content(content, fields::u16_at(bytes, at + 2), glyphs)
}

// An action.
fn read_action(bytes: &[u8], at: usize, glyphs: usize) -> Option<usize>
    ensures { Parses action_code (OkAction glyphs) bytes.now at result }
{
    if !sheet_sections::has_room(bytes, at, 8) {
        return None;
    }
    let size = fields::u32_at(bytes, at + 4);
    if !good_action(bytes, at, size, glyphs) {
        return None;
    }
    Some(at + 8 + size)
}

// `count` actions, one after the other.
fn read_actions(bytes: &[u8], at: usize, count: usize, glyphs: usize) -> Option<usize>
    requires { at ≤ length bytes.now }
    ensures { Parses (many action_code) (Exactly count (OkAction glyphs)) bytes.now at result }
{
    let mut place = at;
    for _ in 0..count {
        place = read_action(bytes, place, glyphs)?;
    }
    Some(place)
}

// A list of 1 to 64 actions after its count; where it ends, if it is there.
pub fn read_list(bytes: &[u8], at: usize, glyphs: usize) -> Option<usize>
    ensures { Parses list_code (SomeList glyphs) bytes.now at result }
{
    let count = sheet_sections::count_at(bytes, at, 0)?;
    if count == 0 {
        return None;
    }
    if 64 < count {
        return None;
    }
    read_actions(bytes, at + 4, count, glyphs)
}
