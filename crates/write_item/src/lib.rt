// The clusters and the action lists of a table by one name (document 01, "The sheet", sections 5 and 7): how many
// bytes one takes in the sheet, whether two positions hold the same one as written and which comes earlier, a number
// that tells where to look for it, and storing it into lent bytes. Which kind it is is read from a table, so that each function
// matches on it: a type parameter for the kind would only move the match to each caller.
#![tactic(auto)]

ghost use Rattle.std.specs.Prelude.{◌≡◌, ◌≤◌, ◌<◌, ◌^◌, length};
ghost use Rattle.std.proofs.lemmas.List.Edits.{sets};
ghost use Rattle.encoding.specs.Tests.{Says};
ghost use Rattle.write_item.specs.Items.{item_at, item_code, item_hash, Earlier};

use lookup_targets::Kind;

// How many bytes the item at a position is written in.
pub fn item_size(table: &[u8], kind: Kind, at: u16) -> usize
    requires { length table.now ≤ 2 ^ 15 }
    ensures { (result ≡ length (item_code kind (item_at kind table.now at))) × (result < 2 ^ 52) }
{
    match kind {
        Kind::Clusters => write_cluster::cluster_size(table, at),
        Kind::Lists => write_list::list_size(table, at),
    }
}

// Whether two positions hold the same item.
pub fn same_item(table: &[u8], kind: Kind, first: u16, second: u16) -> bool
    requires { length table.now ≤ 2 ^ 15 }
    ensures { Says result (item_at kind table.now first ≡ item_at kind table.now second) }
{
    match kind {
        Kind::Clusters => write_cluster::same_cluster(table, table, first, second),
        Kind::Lists => write_list::same_list(table, table, first, second),
    }
}

// Whether the first of two positions holds the item that comes earlier, as words in a dictionary: the count is the first word of
// both kinds.
pub fn is_earlier(table: &[u8], kind: Kind, first: u16, second: u16) -> bool
    requires { length table.now ≤ 2 ^ 15 }
    ensures { Says result (Earlier kind (item_at kind table.now first) (item_at kind table.now second)) }
{
    let a = first as usize;
    let b = second as usize;
    let count = fields::u32_at(table, a);
    let other = fields::u32_at(table, b);
    if count != other {
        return count < other;
    }
    match kind {
        Kind::Clusters => write_cluster::earlier_pairs(table, a + 4, b + 4, count),
        Kind::Lists => write_list::earlier_actions(table, a + 4, b + 4, count),
    }
}

// A number for the item at a position, the same for the same items.
pub fn item_hash(table: &[u8], kind: Kind, at: u16) -> usize
    requires { length table.now ≤ 2 ^ 15 }
    ensures { (result ≡ item_hash kind (item_at kind table.now at)) × (result < 2 ^ 32) }
{
    match kind {
        Kind::Clusters => write_cluster::cluster_hash(table, at),
        Kind::Lists => write_list::list_hash(table, at),
    }
}

// Stores the item at a position; past the end of the bytes there is nothing to do.
pub fn put_item(table: &[u8], kind: Kind, at: u16, out: &mut [u8], to: usize)
    requires { (length table.now ≤ 2 ^ 15) × (to < 2 ^ 40) }
    ensures { out.new ≡ sets out.old to (item_code kind (item_at kind table.now at)) }
{
    if out.len() <= to {
        return;
    }
    match kind {
        Kind::Clusters => write_cluster::put_cluster(table, at, out, to),
        Kind::Lists => write_list::put_list(table, at, out, to),
    }
}
