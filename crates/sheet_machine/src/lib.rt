// Sections 1 to 4 of a direction of a sheet (document 01, "The sheet"): a machine or none. Read out of bytes at a
// position. S has to be the least number from 2 on such that rows below it lead only below it.
#![tactic(auto)]

ghost use Rattle.std.specs.Prelude.{◌≡◌, ◌+◌, ◌*◌, ◌<◌, ◌≤◌, ◌^◌, MatchOption};
ghost use Rattle.fields.specs.Field.{u32_at};
ghost use Rattle.encoding.specs.Sections.{numbered};
ghost use Rattle.encoding.specs.Tests.{Says};
ghost use Rattle.sheet_sections.specs.Section.{Parses};
ghost use Rattle.meaning.specs.Discrete.{Entry-discrete};
ghost use Rattle.meaning.specs.Limits.{OkMaybe};
ghost use Rattle.meaning.specs.Sheet.{entry_code, machine_bytes};
ghost use Rattle.sheet_cells.specs.Cells.{OkCells};
ghost use Rattle.sheet_machine.specs.Machine.{ReadableCells, LeastBy, row_at, Sizes, Stands, OfCells, OkLeast, within_bytes, OkWithin, NoMachine, OneMachine};

// A machine's row count S and its class count, within their limits.
#[derive(Clone, Copy)]
struct Grid {
    rows: usize,
    classes: usize,
    ghost within: { Sizes rows classes },
}

impl Grid {
    // Each row has a cell for each class.
    fn cells(self) -> usize
        ensures { (result ≡ self.rows * self.classes) × (result ≤ 65280) }
    {
        self.rows * self.classes
    }
}

// Whether S is the least closed number of rows, where entries stand at `entries` and the cells' numbers at `cells`. Rows below
// `reached` have to be there; once all of their cells are passed, that many rows are closed.
fn is_least(bytes: &[u8], entries: usize, cells: usize, grid: Grid) -> bool
    requires { ReadableCells bytes.now entries cells grid.classes grid.rows }
    ensures { Says result (LeastBy (row_at bytes.now entries cells) grid.classes grid.rows) }
{
    let mut reached: usize = 2;
    for cell in 0..grid.cells() {
        if cell == reached * grid.classes {
            return false;
        }
        let number = fields::u8_at(bytes, cells + cell);
        let row = fields::u16_at(bytes, entries + 4 * number);
        reached = reached.max(row + 1);
    }
    true
}

// Whether S is the least for the cells that stand at a position.
fn least_cells(bytes: &[u8], at: usize, grid: Grid) -> bool
    requires { Stands (numbered Entry-discrete entry_code) (OkCells grid.rows (grid.rows * grid.classes)) bytes.now at }
    ensures { OfCells result bytes.now at grid.rows grid.classes }
{
    let count = fields::u32_at(bytes, at);
    is_least(bytes, at + 4, at + 4 + 4 * count + 4, grid)
}

// Sections 3 and 4, S being the least.
fn read_least_cells(bytes: &[u8], at: usize, grid: Grid) -> Option<usize>
    ensures { Parses (numbered Entry-discrete entry_code) (OkLeast grid.rows grid.classes) bytes.now at result }
{
    let end = sheet_cells::read_cells(bytes, at, grid.rows, grid.cells())?;
    if !least_cells(bytes, at, grid) {
        return None;
    }
    Some(end)
}

// Sections 2 to 4 of a machine.
fn read_within(bytes: &[u8], at: usize, glyphs: usize, grid: Grid) -> Option<usize>
    requires { glyphs < 2 ^ 16 }
    ensures { Parses within_bytes (OkWithin glyphs grid.rows grid.classes) bytes.now at result }
{
    let end = sheet_sections::read_runs(bytes, at, glyphs, grid.classes, 1)?;
    read_least_cells(bytes, end, grid)
}

// Whether four sections of count 0 stand at a position: no machine.
fn no_machine(bytes: &[u8], at: usize) -> bool
    ensures { Says result (NoMachine bytes.now at) }
{
    sheet_sections::has_room(bytes, at, 16)
        && fields::u32_at(bytes, at) == 0
        && fields::u32_at(bytes, at + 4) == 0
        && fields::u32_at(bytes, at + 8) == 0
        && fields::u32_at(bytes, at + 12) == 0
}

// Whether S and class count are within a machine's limits.
fn good_counts(rows: usize, classes: usize) -> bool
    ensures { Says result (Sizes rows classes) }
{
    2 <= rows && rows <= 256 && 4 <= classes && classes <= 255
}

// S and class count, where section 1 stands at a position and has a machine.
fn grid_at(bytes: &[u8], at: usize) -> Option<Grid>
    ensures { MatchOption result (OneMachine bytes.now at → ⊥) (λ g. OneMachine bytes.now at × (g.rows ≡ u32_at bytes.now (at + 4)) × (g.classes ≡ u32_at bytes.now (at + 8))) }
{
    if !sheet_sections::has_room(bytes, at, 12) {
        return None;
    }
    if fields::u32_at(bytes, at) != 1 {
        return None;
    }
    let rows = fields::u32_at(bytes, at + 4);
    let classes = fields::u32_at(bytes, at + 8);
    if !good_counts(rows, classes) {
        return None;
    }
    Some(Grid { rows, classes })
}

// Sections 1 to 4: the machine of `glyphs` glyphs, or none; where they end, if they are there.
pub fn read_machine(bytes: &[u8], at: usize, glyphs: usize) -> Option<usize>
    requires { glyphs < 2 ^ 16 }
    ensures { Parses machine_bytes (OkMaybe glyphs) bytes.now at result }
{
    if no_machine(bytes, at) {
        return Some(at + 16);
    }
    let grid = grid_at(bytes, at)?;
    read_within(bytes, at + 12, glyphs, grid)
}
