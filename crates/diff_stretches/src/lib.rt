// A pass over what the glyphs have in two tables, clusters or action lists (document 02, 6/14): by stretches of glyphs that
// have one place in each.
#![tactic(auto)]

ghost use Rattle.std.specs.Prelude.{◌≡◌, ◌≤◌, ◌<◌, ◌^◌, length};
ghost use Rattle.write_glyphs.specs.Places.{SoundSource, run_place};
ghost use Rattle.diff_stretches.specs.Stretches.{base_of, ServesBy, RunTells, BothTell, BothSound, Even, Splits};

use lookup::Cursor;
use lookup_runs::Run;
use lookup_targets::{Kind, Source};

// What is compared of two tables: clusters or lists of `glyphs` glyphs, and where each table's come from.
#[derive(Clone, Copy)]
pub struct Sources {
    pub kind: Kind,
    pub glyphs: usize,
    pub first: Option<Source>,
    pub second: Option<Source>,
}

// What is had of each of the two tables, as a run, or the place of a cluster or a list.
#[derive(Clone, Copy, PartialEq, Eq)]
pub struct Both<T> {
    pub first: T,
    pub second: T,
}

// The glyphs before `end` have what stands at these places; the runs tell what the glyphs after them have.
#[derive(Clone, Copy)]
pub struct GlyphStretch {
    pub end: usize,
    pub places: Both<u16>,
    pub runs: Both<Run>,
}

// A run of no glyphs, before all others.
fn no_glyphs(cursor: Cursor) -> Run
    ensures { (result.from ≡ 0) × (result.until ≡ 0) × (result.place ≡ 0) × (result.cursor ≡ cursor) }
{
    Run {
        from: 0,
        until: 0,
        place: 0,
        array: false,
        cursor,
    }
}

// The run of a table that a pass begins with.
fn first_run(table: &[u8], glyphs: usize, source: Option<Source>) -> Run
    requires { SoundSource table.now glyphs source }
    ensures { (kind : Kind) → RunTells kind table.now glyphs source 0 result }
{
    match source {
        Some(source) => no_glyphs(lookup::begin(table, source.at)),
        None => no_glyphs(Cursor { at: 0, left: 0 }),
    }
}

// Where a pass begins.
pub fn begin_both<'a>(one: &'a [u8], other: &'a [u8], sources: Sources) -> Both<Run>
    requires { BothSound one.now other.now sources }
    ensures { BothTell one.now other.now sources 0 result }
{
    let source = sources.first;
    let beside = sources.second;
    Both {
        first: first_run(one, sources.glyphs, source),
        second: first_run(other, sources.glyphs, beside),
    }
}

// The run that tells what the next glyphs have. A run stands in memory where it is handed over, so that this and `onward`, which
// are asked of each glyph, stand inside the loop that asks.
#[inline(always)]
fn next_of(
    table: &[u8],
    glyphs: usize,
    kind: Kind,
    source: Option<Source>,
    cursor: Cursor,
    glyph: usize,
) -> Run
    requires { (length table.now ≤ 2 ^ 15) × (glyphs < 2 ^ 16) × (glyph < glyphs) × SoundSource table.now glyphs source × ServesBy table.now source glyph cursor }
    ensures { RunTells kind table.now glyphs source glyph result × (glyph < result.until) }
{
    match source {
        Some(source) => lookup_runs::next_run(
            table,
            fields::u16_at(table, source.at),
            source.at,
            cursor,
            glyph,
        ),
        None => Run {
            from: 65536,
            until: 65537,
            place: 0,
            array: false,
            cursor,
        },
    }
}

// The run itself where it tells what `glyph` has, else the next one. It is handed on field by field: a copy of it as a whole also
// carries the unused bytes beside its flag along, from memory to memory for each glyph, which can take longer than all the rest.
#[inline(always)]
fn onward(
    table: &[u8],
    glyphs: usize,
    kind: Kind,
    source: Option<Source>,
    run: Run,
    glyph: usize,
) -> Run
    requires { (length table.now ≤ 2 ^ 15) × (glyphs < 2 ^ 16) × (glyph < glyphs) × SoundSource table.now glyphs source × RunTells kind table.now glyphs source glyph run }
    ensures { RunTells kind table.now glyphs source glyph result × (glyph < result.until) }
{
    let cursor = run.cursor;
    if glyph < run.until {
        return Run {
            from: run.from,
            until: run.until,
            place: run.place,
            array: run.array,
            cursor,
        };
    }
    next_of(table, glyphs, kind, source, cursor, glyph)
}

// How far the glyphs of a run from `glyph` on have one place.
fn even_end(run: Run, glyph: usize) -> usize
    requires { glyph < run.until }
    ensures { Even run glyph result }
{
    if glyph < run.from {
        return run.from.min(run.until);
    }
    if run.array {
        return glyph + 1;
    }
    run.until
}

fn base_of(source: Option<Source>) -> usize
    ensures { result ≡ base_of source }
{
    match source {
        Some(source) => source.base,
        None => 0,
    }
}

// The place of what a glyph has, by its run.
fn place_by_run(table: &[u8], kind: Kind, source: Option<Source>, run: Run, glyph: usize) -> u16
    requires { (base_of source < 2 ^ 16) × (glyph < 2 ^ 16) × (run.place < 2 ^ 41) }
    ensures { result ≡ run_place kind table.now (base_of source) run.from run.place run.array glyph }
{
    let base = base_of(source);
    write_glyphs::run_place(table, kind, base, run.from, run.place, run.array, glyph)
}

// The next stretch, from `glyph` on.
pub fn next_stretch<'a>(
    one: &'a [u8],
    other: &'a [u8],
    sources: Sources,
    runs: Both<Run>,
    glyph: usize,
) -> GlyphStretch
    requires { BothSound one.now other.now sources × BothTell one.now other.now sources glyph runs × (glyph < sources.glyphs) }
    ensures { Splits one.now other.now sources glyph result }
{
    let glyphs = sources.glyphs;
    let kind = sources.kind;
    let source = sources.first;
    let beside = sources.second;
    let a = onward(one, glyphs, kind, source, runs.first, glyph);
    let b = onward(other, glyphs, kind, beside, runs.second, glyph);
    let both = even_end(a, glyph).min(even_end(b, glyph));
    GlyphStretch {
        end: both.min(glyphs),
        places: Both {
            first: place_by_run(one, kind, source, a, glyph),
            second: place_by_run(other, kind, beside, b, glyph),
        },
        runs: Both {
            first: a,
            second: b,
        },
    }
}
