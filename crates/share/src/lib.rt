// A line's gap shared over its sides (document 01, "Sharing the gap" and refusal 15). All of it works on sizes; the sign stands in
// `signed` alone. A line is two slices with an element for each side, in line order, a glyph's before side ahead of its after side:
// its stage priority, with 16 added for its extra weight (see `side_number`), and its factor. A priority that is no stage takes no part.
#![tactic(auto)]

ghost use Rattle.std.specs.Prelude.{◌≡◌, ◌*◌, ◌≤◌, ◌<◌, length, replicate, true, cond, map};
ghost use Rattle.share.specs.Share.{total, most_total, plus, shares, stages, stage_moves, stage_left, stages_moves, stages_left, back_moves, back_left};
ghost use Rattle.share.specs.Carry.{widest, Carriable, CarriedOn};
ghost use Rattle.share.specs.Line.{evens, odds, signed_of, Narrow};
ghost use Rattle.share.specs.Inner.{Runs, CanCarry, Stepped};
ghost use Rattle.share.specs.Sides.{stage_in, extra_in, stages_in, extras_in, factors_at, extras_at, weights_at, Sides, Addable, stage_count, total_at, totals_fit, TotalsOf, Fit, moves_in, left_in, fits_in};

// The most that a stage's total may be.
const MOST_TOTAL: u64 = 8589934592;

// The stages are the priorities 0 to STAGES - 1.
const STAGES: u8 = 4;

// Flags have room for so many priorities.
pub const PRIORITIES: u8 = 16;

// What is carried past a side.
#[derive(Clone, Copy)]
pub struct Carried {
    pub quotient: u64,
    pub remainder: u64,
}

// Step 1's formula on its way from side to side: the amount, the total that it is shared over, and of the amount times the running
// total the quotient and remainder by that total. The quotient is what the sides so far have been given.
#[derive(Clone, Copy)]
pub struct Running {
    pub amount: u64,
    pub over: u64,
    pub carried: Carried,
}

// The one product of sharing: of two 32-bit numbers, so that no machine needs to multiply wider ones.
fn product(amount: u32, weight: u32) -> u64
    requires { (amount ≤ widest) × (weight ≤ widest) }
    ensures { result ≡ amount * weight }
{
    (amount as u64) * (weight as u64)
}

// One side's step over plain numbers, for every total from 1 to 4,611,686,018,427,387,904: the amount times the running total may
// be far too wide, and is never worked out. The side's own product is divided, not its sum with the remainder, so that a machine
// need not end one side's division before it begins the next one's.
pub fn carry_on(amount: u64, over: u64, weight: u64, carried: Carried) -> Carried
    requires { Carriable amount over weight carried.quotient carried.remainder }
    ensures { CarriedOn amount over weight carried.quotient carried.remainder result.quotient result.remainder }
{
    let own = product(amount as u32, weight as u32);
    let whole = carried.quotient + own / over;
    let sum = carried.remainder + own % over;
    if sum < over {
        return Carried {
            quotient: whole,
            remainder: sum,
        };
    }
    Carried {
        quotient: whole + 1,
        remainder: sum - over,
    }
}

// The state ahead of the first side.
fn start(amount: u64, over: u64) -> Running
    ensures { Runs amount over 0 result }
{
    let carried = Carried {
        quotient: 0,
        remainder: 0,
    };
    Running {
        amount,
        over,
        carried,
    }
}

impl Running {
    // One side of step 1's formula: goes past the side, and answers its share. A side of no weight has no share, and costs no division.
    fn next_share(&mut self, weight: u64) -> u64
        requires { CanCarry self.old weight }
        ensures { Stepped self.old weight result self.new }
    {
        if weight == 0 {
            return 0;
        }
        let next = carry_on(self.amount, self.over, weight, self.carried);
        let share = next.quotient - self.carried.quotient;
        self.carried = next;
        share
    }
}

// The factors of the sides of each priority together. The stages are the first of the priorities.
#[derive(Clone, Copy)]
pub struct Totals {
    pub sums: [u64; PRIORITIES as usize],
}

// A stage's total.
fn total_of(totals: Totals, stage: u8) -> u64
    requires { stage < stage_count }
    ensures { result ≡ total_at totals stage }
{
    totals.sums[stage as usize]
}

// Refusal 15's test: whether no stage's total is above the most that it may be.
pub fn totals_fit(totals: Totals) -> bool
    ensures { result ≡ totals_fit totals stages }
{
    (0..STAGES).all(|stage| total_of(totals, stage) <= MOST_TOTAL)
}

// A side of this stage priority, with extra weight 1 or 0, as one number; the weights of a stage are added up.
pub fn side_number(stage: u8, extra: u8) -> u8
    requires { (stage < 16) × (extra ≤ 1) }
    ensures { (stage_in result ≡ stage) × (extra_in result ≡ extra) }
{
    if extra == 0 {
        return stage;
    }
    stage + PRIORITIES
}

// The stage priority of a side.
fn stage_in(side: u8) -> u8
    ensures { result ≡ stage_in side }
{
    side % PRIORITIES
}

// The extra weight of a side.
fn extra_in(side: u8) -> u64
    ensures { (result ≡ extra_in side) × (result ≤ 15) }
{
    (side / PRIORITIES) as u64
}

// What a side is weighed by: its extra weight, or its factor.
fn weight_of(extras: bool, side: u8, factor: u64) -> u64
    ensures value { result ≡ cond extras (extra_in side) factor }
    ensures low { factor ≤ widest → result ≤ widest }
{
    if extras { extra_in(side) } else { factor }
}

// A line's sides: of each its number (see `side_number`) and its factor, in line order, a glyph's before side ahead of its after side.
#[derive(Clone, Copy)]
struct LineSides<'a> {
    numbers: &'a [u8],
    factors: &'a [u64],
    ghost equal: { length factors.now ≡ length numbers.now },
    ghost few: { length numbers.now ≤ 2048 },
    ghost narrow: { Narrow factors.now },
}

impl<'a> LineSides<'a> {
    // Adds to the sides of a stage their factors; answers how much extra weight they have: the number of its unlimited glyphs.
    fn give_all(self, stage: u8, moves: &mut [u64]) -> u64
        requires { Addable (total (factors_at stage self.numbers.now self.factors.now)) self.numbers.now moves.old }
        ensures value { (result ≡ total (extras_at stage self.entry.numbers.now)) × (result ≤ most_total) }
        ensures moves_after { moves.new ≡ plus moves.old (factors_at stage self.entry.numbers.now self.entry.factors.now) }
    {
        let mut unlimited: u64 = 0;
        for (i, &side) in self.numbers.iter().enumerate() {
            if stage_in(side) != stage {
                continue;
            }
            moves[i] += self.factors[i];
            unlimited += extra_in(side);
        }
        unlimited
    }

    // Adds to the sides of a stage their shares of the amount, by their extra weights or by their factors, whose total is `over`.
    fn give(self, amount: u64, over: u64, stage: u8, extras: bool, moves: &mut [u64])
        requires addable { Addable amount self.numbers.now moves.old }
        requires whole_weight { (over ≡ total (weights_at extras stage self.numbers.now self.factors.now)) × (over ≤ most_total) × (0 < over) }
        ensures { moves.new ≡ plus moves.old (shares amount (weights_at extras stage self.entry.numbers.now self.entry.factors.now)) }
    {
        let mut run = start(amount, over);
        for (i, &side) in self.numbers.iter().enumerate() {
            if stage_in(side) != stage {
                continue;
            }
            moves[i] += run.next_share(weight_of(extras, side, self.factors[i]));
        }
    }

    // Steps 1 and 2 for one stage, whose total is `over`: adds its movements; answers what is left.
    fn share_stage(self, left: u64, over: u64, stage: u8, moves: &mut [u64]) -> u64
        requires addable { Addable left self.numbers.now moves.old }
        requires stage_total { (over ≡ total (factors_at stage self.numbers.now self.factors.now)) × (over ≤ most_total) }
        ensures value { result ≡ stage_left left (factors_at stage self.entry.numbers.now self.entry.factors.now) (extras_at stage self.entry.numbers.now) }
        ensures moves_after { moves.new ≡ plus moves.old (stage_moves left (factors_at stage self.entry.numbers.now self.entry.factors.now) (extras_at stage self.entry.numbers.now)) }
    {
        if left == 0 {
            return 0;
        }
        if left <= over {
            self.give(left, over, stage, false, moves);
            return 0;
        }
        let unlimited = self.give_all(stage, moves);
        if unlimited == 0 {
            return left - over;
        }
        self.give(left - over, unlimited, stage, true, moves);
        0
    }

    // The stages in turn: adds their movements; answers what the last one leaves.
    fn share_stages(self, gap: u64, totals: Totals, moves: &mut [u64]) -> u64
        requires { Addable gap self.numbers.now moves.old × Fit totals self.numbers.now self.factors.now }
        ensures value { result ≡ stages_left (stages_in self.entry.numbers.now) self.entry.factors.now (extras_in self.entry.numbers.now) stages gap }
        ensures moves_after { moves.new ≡ plus moves.old (stages_moves (stages_in self.entry.numbers.now) self.entry.factors.now (extras_in self.entry.numbers.now) stages gap) }
    {
        let mut left = gap;
        for stage in 0..STAGES {
            left = self.share_stage(left, total_of(totals, stage), stage, moves);
        }
        left
    }

    // Step 3: adds what is left to the first stage with a total above 0; answers the remainder.
    fn go_back(self, left: u64, totals: Totals, moves: &mut [u64]) -> u64
        requires { Addable left self.numbers.now moves.old × Fit totals self.numbers.now self.factors.now }
        ensures value { result ≡ back_left (stages_in self.entry.numbers.now) self.entry.factors.now stages left }
        ensures moves_after { moves.new ≡ plus moves.old (back_moves (stages_in self.entry.numbers.now) self.entry.factors.now stages left) }
    {
        if left == 0 {
            return 0;
        }
        for stage in 0..STAGES {
            let over = total_of(totals, stage);
            if 0 < over {
                self.give(left, over, stage, false, moves);
                return 0;
            }
        }
        left
    }
}

// A line's gap, given as its size, shared over the sides of its glyphs: the size of each movement into `moves`, which are all 0;
// answers the size of the remainder. Edition 1 of the rule goes back, by step 3; edition 2 does not. The totals are those of these
// sides, and none of a stage is above the most that it may be: see `totals_fit`.
pub fn share_line(
    back: bool,
    gap: u64,
    totals: Totals,
    sides: &[u8],
    factors: &[u64],
    moves: &mut [u64],
) -> u64
    requires over_zeros { Sides sides.now factors.now × (moves.old ≡ replicate (length sides.now) 0) }
    requires gap_bound { (gap ≤ 1073741823) × TotalsOf totals sides.now factors.now × (fits_in sides.now factors.now ≡ true) }
    ensures { (result ≡ left_in back sides.now factors.now gap) × (moves.new ≡ moves_in back sides.now factors.now gap) }
{
    let line = LineSides {
        numbers: sides,
        factors,
    };
    let left = line.share_stages(gap, totals, moves);
    if back {
        return line.go_back(left, totals, moves);
    }
    left
}

// A size with the gap's sign.
pub fn signed(shrink: bool, size: u64) -> i32
    requires { size < 2147483648 }
    ensures { result ≡ signed_of shrink size }
{
    let plain = size as i32;
    if shrink { -plain } else { plain }
}

// The sizes of movements with the gap's sign, those of the before sides and those of the after sides apart.
pub fn copy_signed(shrink: bool, moves: &[u64], before: &mut [i32], after: &mut [i32])
    requires { (length moves.now ≡ 2 * length before.old) × (length after.old ≡ length before.old) × (total moves.now < 2147483648) }
    ensures { (before.new ≡ map (signed_of shrink) (evens moves.now)) × (after.new ≡ map (signed_of shrink) (odds moves.now)) }
{
    for i in 0..before.len() {
        before[i] = signed(shrink, moves[i + i]);
        after[i] = signed(shrink, moves[i + i + 1]);
    }
}
