// Where the parts of a sheet stand (document 01, "The sheet"): sections are passed over by their counts, clusters and
// action lists one by one. Any bytes may be handed in; only of a sheet is it known what stands at the place. Where nothing can be passed
// the end of the bytes is told: an Option would be none for no sheet, and each caller would hand on what never comes.
#![tactic(auto)]

ghost use Rattle.std.specs.Prelude.{◌≡◌, [], ◌+◌, ◌*◌, ◌≤◌, ◌^◌, length};
ghost use Rattle.encoding.specs.Codes.{items_at};
ghost use Rattle.meaning.specs.Limits.{OkMaybe, Valid};
ghost use Rattle.meaning.specs.Sheet.{action_code, write, machine_bytes};
ghost use Rattle.meaning.specs.Wide.{WideAction};
ghost use Rattle.sheet_sections.specs.RunSection.{run_at};
ghost use Rattle.sheet_items.specs.Items.{item_code, FewItem, pool_bytes, OkPool};
ghost use Rattle.sheet_seek.specs.Passes.{Passes, ItemsEnd, Reaches, Walks, ByGlyphs, after_sizes, after_classes, side_on, items_on};
ghost use Rattle.sheet_seek.specs.LookUp.{value_at, ValueIn};

use sheet_items::Sort;
use types::Direction;

// Where a section of items of `width` bytes ends.
fn after_items(bytes: &[u8], at: usize, width: usize) -> usize
    requires { width ≤ 2 ^ 16 }
    ensures { ItemsEnd width bytes.now at result }
{
    let Some(count) = sheet_sections::count_at(bytes, at, width) else {
        return bytes.len();
    };
    at + 4 + width * count
}

// Where the item with a number begins, of those after their count at a position; `after` says where the item at a place ends.
// No item is looked for past the end of the bytes.
fn reach<F: Fn(usize) -> usize>(bytes: &[u8], at: usize, number: usize, after: F) -> usize
    requires { F.IsAlwaysCallable after }
    ensures { at + 4 ≤ length bytes.now → Walks (λ p q. F.post after p q) (length bytes.now) number (at + 4) result }
{
    if !sheet_sections::has_room(bytes, at, 4) {
        return bytes.len();
    }
    let mut place = at + 4;
    for _ in 0..number {
        if bytes.len() <= place {
            return place;
        }
        place = after(place);
    }
    place
}

// Where an action ends: after its class and its type stands its data, bytes after their count.
fn after_action(bytes: &[u8], at: usize) -> usize
    ensures { Passes action_code (λ x. []) WideAction bytes.now at result }
{
    if !sheet_sections::has_room(bytes, at, 4) {
        return bytes.len();
    }
    after_items(bytes, at + 4, 1)
}

// Where the action with a number begins, of the list at a position; for the list's count, where the list ends.
pub fn action_place(bytes: &[u8], at: usize, number: usize) -> usize
    ensures { Reaches action_code WideAction number bytes.now at result }
{
    reach(bytes, at, number, |place| after_action(bytes, place))
}

// Where a cluster, or a list of actions, ends.
fn after_item(bytes: &[u8], at: usize, sort: Sort) -> usize
    ensures { Passes (item_code sort) (λ x. []) (FewItem sort) bytes.now at result }
{
    match sort {
        Sort::Clusters => after_items(bytes, at, 24),
        Sort::Lists => action_place(bytes, at, fields::u32_at(bytes, at)),
    }
}

// Where the item with a number begins, of the section of clusters, or of action lists, at a position; for the count of
// items, where the section ends.
pub fn item_place(bytes: &[u8], at: usize, sort: Sort, number: usize) -> usize
    ensures { Reaches (item_code sort) (FewItem sort) number bytes.now at result }
{
    reach(bytes, at, number, |place| after_item(bytes, place, sort))
}

// Where sections 5 and 6 end, or 7 and 8: the items, and their runs.
fn after_pool(bytes: &[u8], at: usize, sort: Sort) -> usize
    ensures { Passes (pool_bytes sort) (λ x. []) (ByGlyphs (OkPool sort)) bytes.now at result }
{
    let runs = item_place(bytes, at, sort, fields::u32_at(bytes, at));
    after_items(bytes, runs, 6)
}

// Where section 2 begins, after the machine's sizes at a position.
pub fn classes_at(bytes: &[u8], at: usize) -> usize
    ensures { Passes machine_bytes after_sizes (ByGlyphs OkMaybe) bytes.now at result }
{
    after_items(bytes, at, 8)
}

// Where section 3 begins, after the machine's sizes at a position and every glyph's class.
pub fn entries_at(bytes: &[u8], at: usize) -> usize
    ensures { Passes machine_bytes after_classes (ByGlyphs OkMaybe) bytes.now at result }
{
    after_items(bytes, classes_at(bytes, at), 6)
}

// Where section 4 ends: the machine, or none.
fn after_machine(bytes: &[u8], at: usize) -> usize
    ensures { Passes machine_bytes (λ x. []) (ByGlyphs OkMaybe) bytes.now at result }
{
    let cells = after_items(bytes, entries_at(bytes, at), 4);
    after_items(bytes, cells, 1)
}

// Where a direction begins.
pub fn side_at(bytes: &[u8], direction: Direction) -> usize
    ensures { Passes write (side_on direction) Valid bytes.now 0 result }
{
    match direction {
        Direction::Horizontal => 4,
        Direction::Vertical => {
            let clusters = after_machine(bytes, 4);
            let lists = after_pool(bytes, clusters, Sort::Clusters);
            after_pool(bytes, lists, Sort::Lists)
        }
    }
}

// Where section 5, or 7, of a direction begins.
pub fn items_at(bytes: &[u8], direction: Direction, sort: Sort) -> usize
    ensures { Passes write (items_on sort direction) Valid bytes.now 0 result }
{
    let clusters = after_machine(bytes, side_at(bytes, direction));
    match sort {
        Sort::Clusters => clusters,
        Sort::Lists => after_pool(bytes, clusters, Sort::Clusters),
    }
}

// Of `count` runs from a position on, the value of the one that a glyph is in.
fn look_up(bytes: &[u8], at: usize, count: usize, glyph: usize) -> Option<usize>
    requires { at + 6 * count ≤ length bytes.now }
    ensures { result ≡ value_at glyph (items_at run_at 6 bytes.now at count) }
{
    for i in 0..count {
        let place = at + 6 * i;
        if glyph < fields::u16_at(bytes, place) {
            return None;
        }
        if glyph <= fields::u16_at(bytes, place + 2) {
            return Some(fields::u16_at(bytes, place + 4));
        }
    }
    None
}

// The value of the run that a glyph is in, in the section of runs at a position.
pub fn value_of(bytes: &[u8], at: usize, glyph: usize) -> Option<usize>
    ensures { ValueIn bytes.now at glyph result }
{
    let count = sheet_sections::count_at(bytes, at, 6)?;
    look_up(bytes, at + 4, count, glyph)
}
