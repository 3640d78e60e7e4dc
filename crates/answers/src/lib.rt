// The answers to the questions that a table and a sheet can be asked (document 01, "The sheet"): the part, or
// nothing, or a fault (document 02, 4/14). specs/Says.antt gives what each says.
#![tactic(auto)]

// The row count S and the class count of a machine.
#[derive(Clone, Copy)]
pub struct Sizes {
    pub rows: u16,
    pub classes: u16,
}
