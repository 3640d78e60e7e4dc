// What differs between the meanings of two tables (document 02, 6/14), and storing it into lent numbers.
#![tactic(auto)]

ghost use Rattle.std.specs.Prelude.{◌≡◌, ◌+◌, ◌*◌, ◌≤◌, ◌<◌, ◌^◌, length};
ghost use Rattle.std.proofs.lemmas.List.Edits.{sets};
ghost use Rattle.diff_rule.specs.Differences.{noted};
ghost use Rattle.diff_rule.specs.Again.{again};
ghost use Rattle.diff_rule.specs.Order.{direction_number, aspect_number, mark_number, numbers_of, Stores};

use types::Direction;

// What of a direction differs: the machine's sizes, the class of a glyph, a cell, a width record, a glyph's action list.
// The order is that of the list.
#[derive(Clone, Copy)]
pub enum Aspect {
    Sizes,
    Class,
    Cell,
    Width,
    Actions,
}

// How: in both and not the same, only in the first, only in the second.
#[derive(Clone, Copy)]
pub enum Mark {
    Changed,
    OnlyFirst,
    OnlySecond,
}

// A difference: its direction, what differs and how, and two numbers: a glyph; a row and a class; a glyph and a class. An
// unused one is 0.
#[derive(Clone, Copy)]
pub struct Difference {
    pub direction: Direction,
    pub aspect: Aspect,
    pub mark: Mark,
    pub subject: u16,
    pub class: u16,
}

// How many numbers a difference is stored as.
pub const NUMBERS: usize = 5;

// A direction is a type of another crate, and so has its number by a function and not by `From`.
fn direction_number(direction: Direction) -> u16
    ensures { result ≡ direction_number direction }
{
    direction as u16
}

impl From<Aspect> for u16 {
    ghost from_gives = { λ aspect number. number ≡ aspect_number aspect };

    fn from(aspect: Aspect) -> u16 {
        aspect as u16
    }
}

impl From<Mark> for u16 {
    ghost from_gives = { λ mark number. number ≡ mark_number mark };

    fn from(mark: Mark) -> u16 {
        mark as u16
    }
}

// The numbers that a difference is stored as: direction, aspect, mark, and its two numbers.
impl From<Difference> for [u16; NUMBERS] {
    ghost from_gives = { λ difference numbers. numbers ≡ numbers_of difference };

    #[tactic(auto, unfolding(crate::specs::Order::numbers_of))]
    fn from(difference: Difference) -> [u16; NUMBERS] {
        [
            direction_number(difference.direction),
            difference.aspect.into(),
            difference.mark.into(),
            difference.subject,
            difference.class,
        ]
    }
}

// Stores numbers one after the other; nothing past the end.
#[tactic(auto, using(crate::proofs::Numbers::next, crate::proofs::Numbers::next_out))]
pub fn put_numbers(list: &mut [u16], at: usize, numbers: [u16; NUMBERS])
    requires { at < 2 ^ 59 }
    ensures { list.new ≡ sets list.old at numbers }
{
    for (k, number) in numbers.iter().enumerate() {
        if at + k < list.len() {
            list[at + k] = *number;
        }
    }
}

// Stores the difference at a place, if there is one, and answers where that ends.
#[tactic(auto, unfolding(crate::specs::Order::all_numbers, crate::specs::Order::numbers_of))]
pub fn put_noted(
    list: &mut [u16],
    at: usize,
    direction: Direction,
    aspect: Aspect,
    subject: u16,
    class: u16,
    mark: Option<Mark>,
) -> usize
    requires { at < 2 ^ 59 }
    ensures { Stores list.old list.new at result (noted direction aspect subject class mark) × (result < at + 6) }
{
    let Some(mark) = mark else {
        return at;
    };
    let difference = Difference {
        direction,
        aspect,
        mark,
        subject,
        class,
    };
    put_numbers(list, at, difference.into());
    at + NUMBERS
}

// Stores the differences of another glyph that has the same: `count` of them, whose numbers `block` begins with.
pub fn put_again(block: &[u16], count: usize, glyph: u16, list: &mut [u16], to: usize) -> usize
    requires { (5 * count ≤ length block.now) × (count ≤ 128) × (to < 2 ^ 58) }
    ensures { (list.new ≡ sets list.old to (again count block.now glyph 0)) × (result ≡ to + 5 * count) }
{
    for k in 0..count {
        let p = NUMBERS * k;
        let direction = block[p];
        let aspect = block[p + 1];
        let mark = block[p + 2];
        let class = block[p + 4];
        put_numbers(list, to + p, [direction, aspect, mark, glyph, class]);
    }
    to + NUMBERS * count
}
