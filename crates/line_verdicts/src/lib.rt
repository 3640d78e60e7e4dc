// Which actions of a line's glyphs fire (document 01, "Verdicts"): how many there are, kept as bits while they are
// counted, and then taken from the bits one verdict after the other, by place and then in list order. The table is one
// that was accepted.
#![tactic(auto)]

ghost use Rattle.std.specs.Prelude.{◌≡◌, ℕ, ◌+◌, ◌*◌, ◌≤◌, ◌<◌, ◌^◌, [], ◌∷◌, length, get_or, drop};
ghost use Rattle.fields.specs.Field.{u16_at};
ghost use Rattle.fields.specs.Faults.{Clear};
ghost use Rattle.meaning.specs.Ask.{side_of};
ghost use Rattle.actions.specs.Actions.{action_at, actions_at};
ghost use Rattle.lookup_targets.specs.declared.Kind.TheVariants.{Lists};
ghost use Rattle.verdict.specs.Verdict.{type_fires, fires_of};
ghost use Rattle.table.specs.Table.{table_fault};
ghost use Rattle.table.specs.Means.{meaning_of};
ghost use Rattle.share.specs.Line.{signed_of};
ghost use Rattle.table_ask.specs.Places.{lookup_in, Readable};
ghost use Rattle.line_verdicts.specs.Moves.{moved, HasMoves};
ghost use Rattle.line_verdicts.specs.Lines.{KeepsLine};
ghost use Rattle.line_verdicts.specs.Bits.{left_at, start_cursor, BitPairs, Serves, AtHand, Takes, no_bits, note_action, ClearList, Keeps};

use line_rule::LineView;
use lookup_targets::Kind;
use table_ask::Lookup;
use types::{Direction, Verdict};
use units::Units;
use verdict::Fires;

// Which of a glyph's actions fire, and which of those substitute, as bits, that of action k being 2^k; and how many fire.
#[derive(Clone, Copy)]
struct GlyphBits {
    pub fires: u64,
    pub substitutes: u64,
    pub firing: usize,
}

// What a glyph's actions are judged by: its class, its growth and its point size.
#[derive(Clone, Copy)]
struct Grown {
    pub class: u8,
    pub growth: Units,
    pub size: u32,
}

// How far a line's verdicts have been taken: the glyphs before `next` are begun; of the last of them the bits from the
// action with this number on are left, that one's being the lowest.
#[derive(Clone, Copy)]
pub struct VerdictCursor {
    pub next: usize,
    pub number: u16,
    pub fires: u64,
    pub substitutes: u64,
}

// What the action at `at` does for a glyph of its class.
fn own_fires(table: &[u8], at: usize, glyph: Grown) -> Fires
    requires { at + 8 ≤ length table.now }
    ensures { result ≡ type_fires (u16_at table.now (at + 2)) (drop (at + 8) table.now) glyph.growth.0 glyph.size }
{
    let ty = fields::u16_in(table, at + 2) as u16;
    verdict::type_fires(table, at + 8, ty, glyph.growth, glyph.size)
}

// The same for a glyph of any class.
fn fires_here(table: &[u8], at: usize, glyph: Grown) -> Fires
    requires { at + 8 ≤ length table.now }
    ensures { result ≡ fires_of (action_at table.now at) glyph.class glyph.growth.0 glyph.size }
{
    if fields::u16_in(table, at) != usize::from(glyph.class) {
        return Fires::No;
    }
    own_fires(table, at, glyph)
}

// What the glyph at a place grows by: its two movements, given without their sign.
fn growth_at(shrink: bool, moves: &[u64], place: usize) -> Units
    requires { (2 * place + 1 < length moves.now) × ((side : ℕ) → get_or moves.now side 0 ≤ 1073741823) }
    ensures { result.0 ≡ signed_of shrink (get_or moves.now (2 * place) 0 + get_or moves.now (2 * place + 1) 0) }
{
    let both = moves[2 * place] + moves[2 * place + 1];
    Units(share::signed(shrink, both) as i64)
}

// The bit of an action, by its number in its list.
fn bit_of(number: usize) -> u64
    requires { number < 64 }
    ensures { result ≡ 2 ^ number }
{
    1u64 << number
}

impl GlyphBits {
    // No action so far.
    fn none() -> GlyphBits
        ensures { result ≡ no_bits }
    {
        GlyphBits {
            fires: 0,
            substitutes: 0,
            firing: 0,
        }
    }

    // Notes the bit of an action beside those of the actions ahead of it, by what it does.
    fn note_action(&mut self, does: Fires, bit: u64)
        requires { (self.old.fires + bit < 2 ^ 64) × (self.old.substitutes + bit < 2 ^ 64) × (self.old.firing < 64) }
        ensures { self.new ≡ note_action does bit self.old }
    {
        match does {
            Fires::No => return,
            Fires::Plain => {}
            Fires::Substitutes => self.substitutes += bit,
        }
        self.fires += bit;
        self.firing += 1;
    }
}

// Which of the actions from `first` on, `actions` of them, fire for a glyph.
fn keep_list(table: &[u8], glyph: Grown, actions: usize, first: usize) -> GlyphBits
    requires { ClearList table.now actions first }
    ensures { Keeps glyph.class glyph.growth.0 glyph.size (actions_at table.now actions first) result }
{
    let mut noted = GlyphBits::none();
    let mut at = first;
    for number in 0..actions {
        noted.note_action(fires_here(table, at, glyph), bit_of(number));
        at += fields::u32_in(table, at + 4);
    }
    noted
}

// Which actions of a glyph fire, by its number and the lookup of its direction's lists.
fn keep_glyph(
    table: &[u8],
    count: u32,
    direction: Direction,
    lists: Option<Lookup>,
    number: u16,
    glyph: Grown,
) -> GlyphBits
    requires accepted { table_fault table.now count ≡ Clear }
    requires readable { (lists ≡ lookup_in table.now direction Lists) × Readable table.now lists }
    ensures { Keeps glyph.class glyph.growth.0 glyph.size (get_or (side_of direction (meaning_of table.now count)).lists number []) result }
{
    let Some(at) = table_ask::spot_by(table, count, Kind::Lists, lists, number) else {
        return GlyphBits::none();
    };
    keep_list(table, glyph, fields::u32_at(table, at), at + 4)
}

// How many verdicts a line has, whose movements are given without their sign; of each glyph `bits` gets the actions that fire,
// and after them those that substitute. Where the line has none, they may be left as they were.
pub fn keep_verdicts(
    table: &[u8],
    count: u32,
    line: LineView<'_>,
    shrink: bool,
    classes: &[u8],
    moves: &[u64],
    bits: &mut [u64],
) -> usize
    requires { HasMoves table.now count line.sizes.now classes.now moves.now line.glyphs.now × (length bits.old ≡ 2 * length line.glyphs.now) }
    ensures { KeepsLine (side_of line.entry.shape.direction (meaning_of table.now count)) line.entry.glyphs.now (moved shrink line.entry.sizes.now classes.now moves.now) result bits.new }
{
    let direction = line.shape.direction;
    let sizes = line.sizes;
    let glyphs = line.glyphs;
    let lists = table_ask::lookup_in(table, direction, Kind::Lists);
    if lists.is_none() {
        return 0;
    }
    let mut total: usize = 0;
    for (place, number) in glyphs.iter().enumerate() {
        let glyph = Grown {
            class: classes[place],
            growth: growth_at(shrink, moves, place),
            size: sizes[place],
        };
        let kept = keep_glyph(table, count, direction, lists, *number, glyph);
        bits[2 * place] = kept.fires;
        bits[2 * place + 1] = kept.substitutes;
        total += kept.firing;
    }
    total
}

impl VerdictCursor {
    // Nothing is taken.
    pub fn start() -> VerdictCursor
        ensures { result ≡ start_cursor }
    {
        VerdictCursor {
            next: 0,
            number: 0,
            fires: 0,
            substitutes: 0,
        }
    }

    // Goes on to the next glyph of which an action fires, unless one of the glyph at hand is left.
    fn find_glyph(&mut self, bits: &[u64])
        requires { BitPairs bits.now × Serves bits.now self.old × (0 < length (left_at bits.now self.old)) }
        ensures { (left_at bits.now self.old ≡ left_at bits.now self.new) × Serves bits.now self.new × AtHand self.new }
    {
        if self.fires != 0 {
            return;
        }
        let mut next = self.next;
        // No count to an end: a verdict is left, so a glyph is found.
        while bits[2 * next] == 0 {
            next += 1;
        }
        self.next = next + 1;
        self.number = 0;
        self.fires = bits[2 * next];
        self.substitutes = bits[2 * next + 1];
    }

    // Takes the first action that is left of the glyph at hand.
    fn first_action(&mut self) -> Verdict
        requires { AtHand self.old }
        ensures { Takes self.old result self.new }
    {
        let mut number = self.number;
        let mut fires = self.fires;
        let mut substitutes = self.substitutes;
        // No count to an end: a bit is set. `trailing_zeros` with two shifts takes a tenth longer where every action fires.
        while fires % 2 == 0 {
            fires /= 2;
            substitutes /= 2;
            number += 1;
        }
        self.number = number + 1;
        self.fires = fires / 2;
        self.substitutes = substitutes / 2;
        Verdict {
            place: (self.next - 1) as u16,
            action: number,
            substitutes: (substitutes % 2) as u16,
        }
    }

    // Takes the next verdict.
    pub fn next_verdict(&mut self, bits: &[u64]) -> Verdict
        requires { BitPairs bits.now × Serves bits.now self.old × (0 < length (left_at bits.now self.old)) }
        ensures { (left_at bits.now self.old ≡ result ∷ left_at bits.now self.new) × Serves bits.now self.new }
    {
        self.find_glyph(bits);
        self.first_action()
    }
}
