// One direction of a sheet for a table (document 01, "The sheet", sections 1 to 8), stored. The direction's offset in
// the table is 0 where it is absent.
#![tactic(auto)]

ghost use Rattle.std.specs.Prelude.{◌≡◌, ◌+◌, ◌<◌, ◌^◌, length};
ghost use Rattle.std.proofs.lemmas.List.Edits.{sets};
ghost use Rattle.write_direction.specs.Side.{side_bytes, ClearSide};

use lookup_targets::Kind;

// Stores the direction, and answers where it ends; what would stand past the end of the bytes is dropped.
pub fn put_side(table: &[u8], glyphs: usize, at: usize, out: &mut [u8], to: usize) -> usize
    requires { ClearSide table.now glyphs at × (to < 2 ^ 36) }
    ensures { (result ≡ to + length (side_bytes table.now glyphs at)) × (result < to + 2 ^ 30 + 2 ^ 20)
        × (out.new ≡ sets out.old to (side_bytes table.now glyphs at)) }
{
    let machine = table::machine_place(table, at);
    let machine_end = write_machine::put_machine(table, glyphs, machine, out, to);
    let widths = table::source_at(table, at, Kind::Clusters);
    let cluster_end = write_pool::put_pool(table, glyphs, Kind::Clusters, widths, out, machine_end);
    let actions = table::source_at(table, at, Kind::Lists);
    write_pool::put_pool(table, glyphs, Kind::Lists, actions, out, cluster_end)
}
