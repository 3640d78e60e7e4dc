// What a sheet holds once and numbers by first use (document 01, "The sheet", sections 5 to 8): clusters and action
// lists. Both are written and read in the same way.
#![tactic(auto)]

// The sort of an item.
#[derive(Clone, Copy)]
pub enum Sort {
    Clusters,
    Lists,
}
