// A cluster of a sheet (document 01, "The sheet", section 5), read out of bytes at a position: the count of its pairs,
// and the pairs, their classes rising.
#![tactic(auto)]

ghost use Rattle.std.specs.Prelude.{◌+◌, ◌*◌, ◌≤◌, length};
ghost use Rattle.fields.specs.Field.{u16_at};
ghost use Rattle.encoding.specs.Codes.{items_at};
ghost use Rattle.meaning.specs.Limits.{OkFlags, OkLimits};
ghost use Rattle.encoding.specs.Tests.{Says};
ghost use Rattle.sheet_sections.specs.Section.{Parses};
ghost use Rattle.sheet_cluster.specs.Clusters.{limits_at, pair_at, GoodPair, GoodPairs, cluster_code, SomeCluster};

// 16 em.
const EM_LIMIT: usize = 1048576;

// Whether both limits of a side are within 16 em.
fn good_limits(bytes: &[u8], at: usize) -> bool
    requires { at + 8 ≤ length bytes.now }
    ensures { Says result (OkLimits (limits_at bytes.now at)) }
{
    fields::u32_at(bytes, at) <= EM_LIMIT && fields::u32_at(bytes, at + 4) <= EM_LIMIT
}

// Whether flags have no bit but 0x1000, unlimited, and a priority of 0 to 3.
fn good_flags(bytes: &[u8], at: usize) -> bool
    ensures { Says result (OkFlags (u16_at bytes.now at)) }
{
    let flags = fields::u16_at(bytes, at);
    flags < 0x2000 && flags % 0x1000 < 4
}

// Whether a pair keeps its limits and its class is `least` or more.
fn good_pair(bytes: &[u8], at: usize, least: usize) -> bool
    requires { at + 24 ≤ length bytes.now }
    ensures { Says result (GoodPair least (pair_at bytes.now at)) }
{
    let class = fields::u32_at(bytes, at);
    least <= class
        && class < 128
        && good_limits(bytes, at + 4)
        && good_limits(bytes, at + 12)
        && good_flags(bytes, at + 20)
        && good_flags(bytes, at + 22)
}

// Whether `count` pairs from a position on keep their limits, their classes rising.
fn good_pairs(bytes: &[u8], at: usize, count: usize) -> bool
    requires { at + 24 * count ≤ length bytes.now }
    ensures { Says result (GoodPairs 0 (items_at pair_at 24 bytes.now at count)) }
{
    let mut least: usize = 0;
    for i in 0..count {
        let place = at + 24 * i;
        if !good_pair(bytes, place, least) {
            return false;
        }
        least = fields::u32_at(bytes, place) + 1;
    }
    true
}

// A cluster of 1 to 128 pairs; where it ends, if it is there.
pub fn read_cluster(bytes: &[u8], at: usize) -> Option<usize>
    ensures { Parses cluster_code SomeCluster bytes.now at result }
{
    let count = sheet_sections::count_at(bytes, at, 24)?;
    if count == 0 {
        return None;
    }
    if 128 < count {
        return None;
    }
    if !good_pairs(bytes, at + 4, count) {
        return None;
    }
    Some(at + 4 + 24 * count)
}
