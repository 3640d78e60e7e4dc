// A reader: the lent table and a place in it (document 01, "Numbers of refusal": the reader holds both, once the same
// work stands over plain parameters). Each method takes the reader apart and leaves the work to a function over the
// table and the place. A place is a 32-bit number, as any place in a table is; past the table's end zeros are read.
#![tactic(auto)]

ghost use Rattle.std.specs.Prelude.{◌≡◌};
ghost use Rattle.meaning.specs.Ask.{record_of};
ghost use Rattle.cluster.specs.Pairs.{cluster_at, sought_pair};

use types::Pair;

#[derive(Clone, Copy)]
pub struct Reader<'a> {
    pub table: &'a [u8],
    pub place: u32,
}

// The record of a class in the cluster at a place.
fn record_at(table: &[u8], place: u32, class: u8) -> Option<Pair>
    ensures { sought_pair result ≡ record_of class (cluster_at table.now place) }
{
    cluster::record_of(table, place as usize, class)
}

impl<'a> Reader<'a> {
    // A reader at the table's start.
    pub fn new(table: &'a [u8]) -> Reader<'a>
        ensures { (result.table ≡ table.entry) × (result.place ≡ 0) }
    {
        Reader { table, place: 0 }
    }

    // The same table at another place.
    pub fn moved(self, place: u32) -> Reader<'a>
        ensures { (result.table ≡ self.entry.table) × (result.place ≡ place) }
    {
        Reader {
            table: self.table,
            place,
        }
    }

    // The record that the cluster here gives a class.
    pub fn record(self, class: u8) -> Option<Pair>
        ensures { sought_pair result ≡ record_of class (cluster_at self.entry.table.now self.entry.place) }
    {
        record_at(self.table, self.place, class)
    }
}

// The record that the cluster at a place gives a class; over plain parameters, for callers that hold no reader.
pub fn record_by(table: &[u8], place: u32, class: u8) -> Option<Pair>
    ensures { sought_pair result ≡ record_of class (cluster_at table.now place) }
{
    Reader::new(table).moved(place).record(class)
}
