// Maximal runs of equal neighbours as a section of the sheet (document 01, "The sheet", sections 2, 6 and 8): found
// in a list of numbers, which is given by stretches of equal ones, one value left out, and stored.
#![tactic(auto)]

ghost use Rattle.std.specs.Prelude.{◌≡◌, ℕ, ◌+◌, ◌-◌, ◌*◌, ◌≤◌, ◌<◌, ◌^◌, length, get_or, take};
ghost use Rattle.std.proofs.Math.Decide.{ℕ_discrete};
ghost use Rattle.std.proofs.lemmas.List.Edits.{sets};
ghost use Rattle.encoding.specs.Codes.{many};
ghost use Rattle.encoding.specs.Runs.{runs};
ghost use Rattle.encoding.specs.Sections.{run_code, run_less_code, number_run_section};
ghost use Rattle.encoding.specs.Tests.{Says};
ghost use Rattle.write_runs.specs.Spread.{spread, RunTo, Rise, Stretches, Extended};

// Whether the last of the first `m` stretches has this number.
fn goes_on(nums: &[u16], m: usize, number: u16) -> bool
    requires { m ≤ length nums.now }
    ensures { Says result ((0 < m) × (get_or nums.now (m - 1) 0 ≡ number)) }
{
    0 < m && nums[m - 1] == number
}

// What stands up to `end` has this number: the last of the first `m` stretches grows if it has the same, else one is
// added. Answers how many there are then. Without a heap the two lists are lent rooms of a fixed size, of which the first `m`
// places are taken.
pub fn extend(ends: &mut [u16], nums: &mut [u16], m: usize, end: u16, number: u16) -> usize
    requires { (m < length ends.old) × (length ends.old ≤ length nums.old) }
    ensures { (g : ℕ) → Rise 0 (take m ends.old) g → g < end
        → Extended ends.old nums.old ends.new nums.new m g end number result }
{
    if goes_on(nums, m, number) {
        ends[m - 1] = end;
        return m;
    }
    ends[m] = end;
    nums[m] = number;
    m + 1
}

// The end of the stretch of equal elements that begins at `first`.
fn run_end(xs: &[u16], first: usize) -> usize
    requires { first < length xs.now }
    ensures { RunTo xs.now first result }
{
    let value = xs[first];
    for end in first + 1..xs.len() {
        if xs[end] != value {
            return end;
        }
    }
    xs.len()
}

// Stores a run.
pub fn put_run(out: &mut [u8], to: usize, first: u16, last: u16, value: u16)
    requires { to < 2 ^ 62 }
    ensures { out.new ≡ sets out.old to (run_code (record { first = first; last = last; value = value })) }
{
    fields::put_u16(out, to, first);
    fields::put_u16(out, to + 2, last);
    fields::put_u16(out, to + 4, value);
}

// Stores the runs of a number other than 0, each number less one, and answers how many there are.
fn put_each(ends: &[u16], nums: &[u16], out: &mut [u8], to: usize) -> usize
    requires { Stretches ends.now nums.now × (to < 2 ^ 60) }
    ensures { (result ≡ length (runs ℕ_discrete 0 0 (spread 0 ends.now nums.now))) × (result < 2 ^ 16)
        × (out.new ≡ sets out.old to (many run_less_code (runs ℕ_discrete 0 0 (spread 0 ends.now nums.now)))) }
{
    let mut i: usize = 0;
    let mut first: u16 = 0;
    let mut count: usize = 0;
    // No index counts here: each turn takes a whole run, and how many runs there are is what is found out.
    while i < nums.len() {
        let end = run_end(nums, i);
        let value = nums[i];
        let start = first;
        let past = ends[end - 1];
        i = end;
        first = past;
        if value != 0 {
            put_run(out, to + 6 * count, start, past - 1, value - 1);
            count += 1;
        }
    }
    count
}

// Stores the section of these runs, and answers where it ends.
pub fn put_runs(ends: &[u16], nums: &[u16], out: &mut [u8], to: usize) -> usize
    requires { Stretches ends.now nums.now × (to < 2 ^ 40) }
    ensures { (result ≡ to + length (number_run_section (spread 0 ends.now nums.now))) × (result < to + 2 ^ 19)
        × (out.new ≡ sets out.old to (number_run_section (spread 0 ends.now nums.now))) }
{
    let count = put_each(ends, nums, out, to + 4);
    fields::put_u32(out, to, count as u32);
    to + 4 + 6 * count
}
