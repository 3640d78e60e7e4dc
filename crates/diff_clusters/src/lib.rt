// The width differences of one glyph (document 02, 6/14): its clusters in two tables, whose classes rise, merged class by
// class and stored into lent numbers.
#![tactic(auto)]

ghost use Rattle.std.specs.Prelude.{◌≡◌, ◌↔◌, ◌+◌, ◌-◌, ◌≤◌, ◌<◌, ◌^◌, Some, IfSome, IsNone};
ghost use Rattle.std.proofs.Math.Option.{some};
ghost use Rattle.meaning.specs.Limits.{Rising};
ghost use Rattle.meaning.specs.Discrete.{Pair-discrete};
ghost use Rattle.cluster.specs.Faults.{pair_class};
ghost use Rattle.cluster.specs.Pairs.{pair_at, cluster_at};
ghost use Rattle.diff_rule.specs.Differences.{mark_of, records_differ};
ghost use Rattle.diff_rule.specs.declared.Mark.TheVariants.{OnlyFirst, OnlySecond};
ghost use Rattle.diff_rule.specs.Order.{Stores};
ghost use Rattle.diff_clusters.specs.Merge.{pairs_in, after_first, Steps};

use diff_rule::{Aspect, Mark};
use types::Direction;

// The bytes of a pair.
const PAIR: usize = 24;

// What is left of a cluster: `count` pairs from `at` on.
#[derive(Clone, Copy)]
struct Pairs {
    at: usize,
    count: usize,
}

// The next class of two clusters, how its records differ, and what is left of each after it.
#[derive(Clone, Copy)]
struct MergeStep {
    class: u16,
    mark: Option<Mark>,
    ones: Pairs,
    others: Pairs,
}

// How two pairs differ that stand for one class.
fn compare<'a>(one: &'a [u8], other: &'a [u8], a: usize, b: usize) -> Option<Mark>
    requires { (a < 2 ^ 60) × (b < 2 ^ 60) }
    ensures { result ≡ mark_of Pair-discrete (some (pair_at one.now a)) (some (pair_at other.now b)) }
{
    if write_cluster::same_pair(one, other, a, b) {
        return None;
    }
    Some(Mark::Changed)
}

// All pairs of the cluster at `place`.
fn pairs_in(table: &[u8], place: u16) -> Pairs
    ensures { (result ≡ pairs_in table.now place) × (result.at < 2 ^ 17) × (result.count < 2 ^ 32) }
{
    Pairs {
        at: place as usize + 4,
        count: fields::u32_at(table, place as usize),
    }
}

// All but the first.
fn after(pairs: Pairs) -> Pairs
    requires { (0 < pairs.count) × (pairs.at < 2 ^ 60) }
    ensures { result ≡ after_first pairs }
{
    Pairs {
        at: pairs.at + PAIR,
        count: pairs.count - 1,
    }
}

// The class of the first, if one is left.
fn first_class(table: &[u8], pairs: Pairs) -> Option<u16>
    ensures none_left { IsNone result ↔ (pairs.count ≡ 0) }
    ensures class { IfSome result (λ c. c ≡ pair_class table.now pairs.at) }
{
    if pairs.count == 0 {
        return None;
    }
    Some(cluster::pair_class(table, pairs.at) as u16)
}

// A step to a class of the first cluster only.
fn only_first(class: u16, ones: Pairs, others: Pairs) -> MergeStep
    requires { (0 < ones.count) × (ones.at < 2 ^ 60) }
    ensures { result ≡ record { class = class; mark = Some OnlyFirst; ones = after_first ones; others = others } }
{
    MergeStep {
        class,
        mark: Some(Mark::OnlyFirst),
        ones: after(ones),
        others,
    }
}

// A step to a class of the second only.
fn only_second(class: u16, ones: Pairs, others: Pairs) -> MergeStep
    requires { (0 < others.count) × (others.at < 2 ^ 60) }
    ensures { result ≡ record { class = class; mark = Some OnlySecond; ones = ones; others = after_first others } }
{
    MergeStep {
        class,
        mark: Some(Mark::OnlySecond),
        ones,
        others: after(others),
    }
}

// The next class of what is left of two clusters, if anything is.
fn next_class<'a>(one: &'a [u8], other: &'a [u8], ones: Pairs, others: Pairs) -> Option<MergeStep>
    requires { (ones.at < 2 ^ 60) × (others.at < 2 ^ 60) }
    ensures end { IsNone result → ones.count + others.count ≡ 0 }
    ensures step { IfSome result (Steps one.now other.now ones others) }
{
    match (first_class(one, ones), first_class(other, others)) {
        (None, None) => None,
        (Some(class), None) => Some(only_first(class, ones, others)),
        (None, Some(class)) => Some(only_second(class, ones, others)),
        (Some(class), Some(beside)) if class < beside => Some(only_first(class, ones, others)),
        (Some(class), Some(beside)) if beside < class => Some(only_second(beside, ones, others)),
        (Some(class), Some(_)) => Some(MergeStep {
            class,
            mark: compare(one, other, ones.at, others.at),
            ones: after(ones),
            others: after(others),
        }),
    }
}

// Stores the width differences of a glyph whose clusters stand at two places, and answers where they end.
pub fn put_records<'a>(
    one: &'a [u8],
    other: &'a [u8],
    first: u16,
    second: u16,
    direction: Direction,
    glyph: u16,
    list: &mut [u16],
    to: usize,
) -> usize
    requires { Rising 0 (cluster_at one.now first) × Rising 0 (cluster_at other.now second) × (to < 2 ^ 58) }
    ensures { Stores list.old list.new to result (records_differ direction glyph (cluster_at one.now first) (cluster_at other.now second)) × (result ≤ to + 2 ^ 36) }
{
    let mut ones = pairs_in(one, first);
    let mut others = pairs_in(other, second);
    let mut end = to;
    // A merge of two lists of rising classes: neither index counts alone.
    while let Some(step) = next_class(one, other, ones, others) {
        end = diff_rule::put_noted(
            list,
            end,
            direction,
            Aspect::Width,
            glyph,
            step.class,
            step.mark,
        );
        ones = step.ones;
        others = step.others;
    }
    end
}
