// A width cluster of a table as the sheet writes it (document 01, "The sheet", section 5): how many bytes it takes,
// whether two positions hold the same one and which comes earlier, a number that tells where to look for it, and storing
// it into lent bytes. Two clusters are the same when they are written alike, whatever their ignored bits and the signs of
// their shrink limits.
// A cluster and a list are compared, ordered, hashed and stored by functions of their own: their elements have a fixed and a stored
// length, and a trait over both would have one method for each of these functions and no code in common.
#![tactic(auto)]

ghost use Rattle.std.specs.Prelude.{◌≡◌, ◌++◌, ◌+◌, ◌*◌, ◌<◌, ◌^◌, MatchOption, length};
ghost use Rattle.std.proofs.lemmas.List.Edits.{sets};
ghost use Rattle.fields.specs.Field.{be16, be32};
ghost use Rattle.encoding.specs.Codes.{many, counted};
ghost use Rattle.meaning.specs.Sheet.{pair_code};
ghost use Rattle.encoding.specs.Dictionary.{Before, Apart};
ghost use Rattle.encoding.specs.Tests.{Says};
ghost use Rattle.cluster.specs.Pairs.{pair_at, pairs_at, cluster_at};
ghost use Rattle.write_cluster.specs.Hash.{limits_hash, pair_hash, cluster_hash};
ghost use Rattle.write_cluster.specs.Words.{pair_words};

use types::{Limits, Pair};

// Whether positions of two tables, or of one lent twice, hold the same pair. Field by field and not `==` of two pairs: where
// clusters overlap this is asked most, and the class alone tells most pairs apart.
#[tactic(auto, unfolding(cluster::specs::Pairs::pair_at))]
pub fn same_pair<'a>(one: &'a [u8], other: &'a [u8], a: usize, b: usize) -> bool
    requires { (a < 2 ^ 61) × (b < 2 ^ 61) }
    ensures { Says result (pair_at one.now a ≡ pair_at other.now b) }
{
    cluster::pair_class(one, a) == cluster::pair_class(other, b)
        && cluster::fixed_at(one, a + 4) == cluster::fixed_at(other, b + 4)
        && cluster::size_at(one, a + 8) == cluster::size_at(other, b + 8)
        && cluster::fixed_at(one, a + 12) == cluster::fixed_at(other, b + 12)
        && cluster::size_at(one, a + 16) == cluster::size_at(other, b + 16)
        && cluster::kept_at(one, a + 20) == cluster::kept_at(other, b + 20)
        && cluster::kept_at(one, a + 22) == cluster::kept_at(other, b + 22)
}

// The number of the first two pairs that differ, of `count` from `first` of one table on and from `second` of the other on.
fn first_apart<'a>(
    one: &'a [u8],
    other: &'a [u8],
    first: usize,
    second: usize,
    count: usize,
) -> Option<usize>
    requires { (first + 24 * count < 2 ^ 60) × (second + 24 * count < 2 ^ 60) }
    ensures { MatchOption result (pairs_at one.now count first ≡ pairs_at other.now count second)
        (λ i. (i < count) × Apart pair_words (pairs_at one.now count first) (pairs_at other.now count second)
        (pair_at one.now (first + 24 * i)) (pair_at other.now (second + 24 * i))) }
{
    for i in 0..count {
        if !same_pair(one, other, first + 24 * i, second + 24 * i) {
            return Some(i);
        }
    }
    None
}

// Whether the pair at `a` comes before the one at `b`. The class alone tells most pairs apart, and is read first.
#[tactic(auto, unfolding(cluster::specs::Pairs::pair_at))]
fn earlier_pair(table: &[u8], a: usize, b: usize) -> bool
    requires { (a < 2 ^ 61) × (b < 2 ^ 61) }
    ensures { Says result (Before (pair_words (pair_at table.now a)) (pair_words (pair_at table.now b))) }
{
    let class = cluster::pair_class(table, a);
    let other = cluster::pair_class(table, b);
    if class != other {
        return class < other;
    }
    cluster::pair_at(table, a) < cluster::pair_at(table, b)
}

// Whether the `count` pairs from `first` on come before those from `second` on: the first two that differ tell it.
pub fn earlier_pairs(table: &[u8], first: usize, second: usize, count: usize) -> bool
    requires { (first + 24 * count < 2 ^ 60) × (second + 24 * count < 2 ^ 60) }
    ensures { Says result (Before (many pair_words (pairs_at table.now count first)) (many pair_words (pairs_at table.now count second))) }
{
    match first_apart(table, table, first, second, count) {
        Some(i) => earlier_pair(table, first + 24 * i, second + 24 * i),
        None => false,
    }
}

// Whether positions of two tables hold the same cluster.
pub fn same_cluster<'a>(one: &'a [u8], other: &'a [u8], first: u16, second: u16) -> bool
    ensures { Says result (cluster_at one.now first ≡ cluster_at other.now second) }
{
    let a = first as usize;
    let b = second as usize;
    let count = fields::u32_at(one, a);
    count == fields::u32_at(other, b) && first_apart(one, other, a + 4, b + 4, count).is_none()
}

fn limits_hash(limits: Limits) -> usize
    ensures { (result ≡ limits_hash limits) × (result < 2 ^ 35) }
{
    limits.grow as usize + 3 * (limits.shrink as usize)
}

fn pair_hash(pair: Pair) -> usize
    ensures { (result ≡ pair_hash pair) × (result < 2 ^ 40) }
{
    let sides = limits_hash(pair.before) + 5 * limits_hash(pair.after);
    let bits = 11 * (pair.flags.grow as usize) + 13 * (pair.flags.shrink as usize);
    17 * (pair.class as usize) + sides + bits
}

// A number for the cluster at a position, the same for the same clusters: by its count and its first four pairs,
// since clusters that begin alike share few bytes of a table, their classes rising.
pub fn cluster_hash(table: &[u8], at: u16) -> usize
    ensures { (result ≡ cluster_hash (cluster_at table.now at)) × (result < 2 ^ 32) }
{
    let first = at as usize + 4;
    let count = fields::u32_at(table, at as usize);
    let mut hash = count;
    for i in 0..count.min(4) {
        hash = (31 * hash + pair_hash(cluster::pair_at(table, first + 24 * i))) % 4294967296;
    }
    hash
}

// How many bytes the cluster at a position is written in.
pub fn cluster_size(table: &[u8], at: u16) -> usize
    ensures { (result ≡ length (counted pair_code (cluster_at table.now at))) × (result < 2 ^ 40) }
{
    4 + 24 * fields::u32_at(table, at as usize)
}

fn put_limits(out: &mut [u8], to: usize, limits: Limits)
    requires { to < 2 ^ 62 }
    ensures { out.new ≡ sets out.old to (be32 limits.grow ++ be32 limits.shrink) }
{
    fields::put_u32(out, to, limits.grow);
    fields::put_u32(out, to + 4, limits.shrink);
}

// Stores a pair, in 24 bytes.
fn put_pair(pair: Pair, out: &mut [u8], to: usize)
    requires { to < 2 ^ 61 }
    ensures { out.new ≡ sets out.old to (pair_code pair) }
{
    fields::put_u32(out, to, pair.class);
    put_limits(out, to + 4, pair.before);
    put_limits(out, to + 12, pair.after);
    fields::put_u16(out, to + 20, pair.flags.grow);
    fields::put_u16(out, to + 22, pair.flags.shrink);
}

// Stores the `count` pairs from `first` on.
fn put_pairs(table: &[u8], first: usize, count: usize, out: &mut [u8], to: usize)
    requires { (first + 24 * count < 2 ^ 60) × (to + 24 * count < 2 ^ 60) }
    ensures { out.new ≡ sets out.old to (many pair_code (pairs_at table.now count first)) }
{
    for i in 0..count {
        put_pair(cluster::pair_at(table, first + 24 * i), out, to + 24 * i);
    }
}

// Stores the cluster at a position.
pub fn put_cluster(table: &[u8], at: u16, out: &mut [u8], to: usize)
    requires { to < 2 ^ 40 }
    ensures { out.new ≡ sets out.old to (counted pair_code (cluster_at table.now at)) }
{
    let place = at as usize;
    let count = fields::u32_at(table, place);
    fields::put_u32(out, to, count as u32);
    put_pairs(table, place + 4, count, out, to + 4);
}
