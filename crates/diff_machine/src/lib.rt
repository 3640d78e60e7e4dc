// The differences of the machines of one direction in two tables (document 02, 6/14), stored into lent numbers; where there
// is no room they are only counted, by where they would end.
#![tactic(auto)]

ghost use Rattle.std.specs.Prelude.{◌≡◌, ◌++◌, ℕ, ◌+◌, ◌≤◌, ◌<◌, ◌^◌, Some};
ghost use Rattle.std.proofs.Math.Option.{some};
ghost use Rattle.std.proofs.Math.Decide.{ℕ_discrete};
ghost use Rattle.meaning.specs.Discrete.{Entry-discrete};
ghost use Rattle.machine.specs.Cells.{class_count, class_at, cell_at};
ghost use Rattle.machine.specs.Classes.{Near, ClassesAt};
ghost use Rattle.machine.specs.Machine.{machine_fault};
ghost use Rattle.table.specs.Table.{machine_part};
ghost use Rattle.table.specs.Means.{machine_of};
ghost use Rattle.fields.specs.Faults.{Clear};
ghost use Rattle.diff_rule.specs.Differences.{mark_of, noted, machines_differ};
ghost use Rattle.diff_rule.specs.Order.{Stores};
ghost use Rattle.diff_machine.specs.Machines.{classes_by, row_by, cells_by, machines_by, WithClasses, SizesAt, Spans};

use diff_rule::{Aspect, Mark};
use machine::ClassTable;
use std::ops::Range;
use types::Direction;

// Where the machines of one direction stand in two tables that are read with one glyph count, and the sizes of the first.
#[derive(Clone, Copy)]
struct Machines {
    direction: Direction,
    glyphs: usize,
    first: usize,
    second: usize,
    rows: usize,
    classes: usize,
}

// How the cells of a row and a class differ.
fn compare_cells<'a>(
    one: &'a [u8],
    other: &'a [u8],
    here: usize,
    there: usize,
    row: usize,
    class: usize,
) -> Option<Mark>
    requires { (here < 2 ^ 32) × (there < 2 ^ 32) × (row < 2 ^ 16) × (class < 2 ^ 16) × (0 < class_count one.now here) × (0 < class_count other.now there) }
    ensures { result ≡ mark_of Entry-discrete (some (cell_at one.now here row class)) (some (cell_at other.now there row class)) }
{
    if machine::cell(one, here, row, class) == machine::cell(other, there, row, class) {
        return None;
    }
    Some(Mark::Changed)
}

// Stores the differences of a row's cells, and answers where they end.
fn put_row<'a>(
    one: &'a [u8],
    other: &'a [u8],
    machines: Machines,
    row: usize,
    list: &mut [u16],
    to: usize,
) -> usize
    requires { WithClasses one.now other.now machines × (row < 2 ^ 16) × (to < 2 ^ 57) }
    ensures { Stores list.old list.new to result (row_by one.now other.now machines row) × (result ≤ to + 2 ^ 20) }
{
    let mut at = to;
    for class in 0..machines.classes {
        let direction = machines.direction;
        let mark = compare_cells(one, other, machines.first, machines.second, row, class);
        at = diff_rule::put_noted(
            list,
            at,
            direction,
            Aspect::Cell,
            row as u16,
            class as u16,
            mark,
        );
    }
    at
}

// Stores the differences of the cells, row by row, and answers where they end.
fn put_cells<'a>(
    one: &'a [u8],
    other: &'a [u8],
    machines: Machines,
    list: &mut [u16],
    to: usize,
) -> usize
    requires { WithClasses one.now other.now machines × (to < 2 ^ 56) }
    ensures { Stores list.old list.new to result (cells_by one.now other.now machines) × (result ≤ to + 2 ^ 36) }
{
    let mut at = to;
    for row in 0..machines.rows {
        at = put_row(one, other, machines, row, list, at);
    }
    at
}

// The glyphs that one of two class tables covers; all others are of class 1 in both.
fn class_span(ones: ClassTable, others: ClassTable, glyphs: usize) -> Range<usize>
    requires { Near ones × Near others }
    ensures { Spans ones others glyphs result }
{
    let end = (ones.first + ones.count).max(others.first + others.count);
    let until = end.min(glyphs);
    ones.first.min(others.first).min(until)..until
}

// How a glyph's classes differ.
fn compare_classes<'a>(
    one: &'a [u8],
    other: &'a [u8],
    ones: ClassTable,
    others: ClassTable,
    glyph: u16,
) -> Option<Mark>
    requires { Near ones × Near others }
    ensures { (here there : ℕ) → ClassesAt one.now here ones → ClassesAt other.now there others
        → result ≡ mark_of ℕ_discrete (some (class_at one.now here glyph)) (some (class_at other.now there glyph)) }
{
    if machine::class_by(one, ones, glyph) == machine::class_by(other, others, glyph) {
        return None;
    }
    Some(Mark::Changed)
}

// Stores the differences of the glyphs' classes, and answers where they end.
fn put_classes<'a>(
    one: &'a [u8],
    other: &'a [u8],
    machines: Machines,
    list: &mut [u16],
    to: usize,
) -> usize
    requires { WithClasses one.now other.now machines × (to < 2 ^ 56) }
    ensures { Stores list.old list.new to result (classes_by one.now other.now machines) × (result ≤ to + 2 ^ 20) }
{
    let ones = machine::class_table(one, machines.first);
    let others = machine::class_table(other, machines.second);
    let span = class_span(ones, others, machines.glyphs);
    let mut at = to;
    for glyph in span.start..span.end {
        let direction = machines.direction;
        let mark = compare_classes(one, other, ones, others, glyph as u16);
        at = diff_rule::put_noted(list, at, direction, Aspect::Class, glyph as u16, 0, mark);
    }
    at
}

// The one difference of machines that differ in size, or of which there is one only.
fn put_sizes(mark: Mark, direction: Direction, list: &mut [u16], to: usize) -> usize
    requires { to < 2 ^ 56 }
    ensures { Stores list.old list.new to result (noted direction Aspect.Sizes 0 0 (Some mark)) × (result ≤ to + 2 ^ 37) }
{
    diff_rule::put_noted(list, to, direction, Aspect::Sizes, 0, 0, Some(mark))
}

// Stores the differences of classes and cells of two machines of one size.
fn put_parts<'a>(
    one: &'a [u8],
    other: &'a [u8],
    machines: Machines,
    list: &mut [u16],
    to: usize,
) -> usize
    requires { WithClasses one.now other.now machines × (to < 2 ^ 55) }
    ensures { Stores list.old list.new to result (classes_by one.now other.now machines ++ cells_by one.now other.now machines) × (result ≤ to + 2 ^ 37) }
{
    let middle = put_classes(one, other, machines, list, to);
    put_cells(one, other, machines, list, middle)
}

// Stores the differences of two machines.
fn put_both<'a>(
    one: &'a [u8],
    other: &'a [u8],
    machines: Machines,
    list: &mut [u16],
    to: usize,
) -> usize
    requires { (machines.first < 2 ^ 32) × (machines.second < 2 ^ 32) × (machines.glyphs < 2 ^ 16) × (to < 2 ^ 55)
        × (machine_fault one.now machines.glyphs machines.first ≡ Clear) × (machine_fault other.now machines.glyphs machines.second ≡ Clear) × SizesAt one.now machines }
    ensures { Stores list.old list.new to result (machines_by one.now other.now machines) × (result ≤ to + 2 ^ 37) }
{
    let direction = machines.direction;
    if machines.rows != machine::row_count(other, machines.second) {
        return put_sizes(Mark::Changed, direction, list, to);
    }
    if machines.classes != machine::class_count(other, machines.second) {
        return put_sizes(Mark::Changed, direction, list, to);
    }
    put_parts(one, other, machines, list, to)
}

// Stores the differences of the machines whose offsets are these, 0 for none as the table has it, and answers where they
// end.
pub fn put_machines<'a>(
    one: &'a [u8],
    other: &'a [u8],
    first: usize,
    second: usize,
    glyphs: usize,
    direction: Direction,
    list: &mut [u16],
    to: usize,
) -> usize
    requires { (first < 2 ^ 16) × (second < 2 ^ 16) × (glyphs < 2 ^ 16) × (to < 2 ^ 55) × (machine_part one.now glyphs first ≡ Clear) × (machine_part other.now glyphs second ≡ Clear) }
    ensures { Stores list.old list.new to result (machines_differ direction glyphs (machine_of one.now glyphs first) (machine_of other.now glyphs second)) × (result ≤ to + 2 ^ 37) }
{
    match (first, second) {
        (0, 0) => to,
        (0, _) => put_sizes(Mark::OnlySecond, direction, list, to),
        (_, 0) => put_sizes(Mark::OnlyFirst, direction, list, to),
        _ => {
            let here = first + machine::UNREAD;
            let machines = Machines {
                direction,
                glyphs,
                first: here,
                second: second + machine::UNREAD,
                rows: machine::row_count(one, here),
                classes: machine::class_count(one, here),
            };
            put_both(one, other, machines, list, to)
        }
    }
}
