// An action list of a table as the sheet writes it (document 01, "The sheet", section 7): how many bytes it takes,
// whether two positions hold the same one and which comes earlier, a number that tells where to look for it, and storing
// it into lent bytes. Two lists are the same when they are written alike, whatever their padding and the flags of their
// type 5 actions.
// For why clusters have functions of their own see `write_cluster`.
#![tactic(auto)]

ghost use Rattle.std.specs.Prelude.{◌≡◌, ◌+◌, ◌*◌, ◌≤◌, ◌<◌, ◌^◌, ◌++◌, MatchOption, length, get_or};
ghost use Rattle.std.proofs.lemmas.List.Edits.{sets};
ghost use Rattle.encoding.specs.Codes.{many, counted};
ghost use Rattle.fields.specs.Field.{u32_at};
ghost use Rattle.meaning.specs.Sheet.{action_code};
ghost use Rattle.encoding.specs.Dictionary.{Before, Apart, listed};
ghost use Rattle.encoding.specs.Sections.{byte};
ghost use Rattle.encoding.specs.Tests.{Says};
ghost use Rattle.write_list.specs.Hash.{weight, action_hash, list_hash};
ghost use Rattle.write_list.specs.Kept.{left_out};
ghost use Rattle.write_list.specs.Words.{action_words};
ghost use Rattle.actions.specs.Actions.{bytes_at, content_at, action_at, actions_at, list_at};

// What is read of an action's data: where it stands, and how many bytes it is.
#[derive(Clone, Copy)]
struct Kept {
    at: usize,
    size: usize,
}

// Where an action of one table and an action of another stand.
#[derive(Clone, Copy)]
struct Places {
    one: usize,
    other: usize,
}

// How many bytes of data the action at `at` has, of type `ty`.
fn content_size(table: &[u8], at: usize, ty: usize) -> usize
    requires { at < 2 ^ 62 }
    ensures { (result ≡ length (content_at table.now at ty)) × (result < 2 ^ 18) }
{
    if ty == 0 {
        return 12 + 2 * fields::u16_at(table, at + 18);
    }
    actions::data_size(ty)
}

// The data of the action at `at`, of type `ty`, without the flags of type 5, which are ignored.
#[inline]
fn kept_data(table: &[u8], at: usize, ty: usize) -> Kept
    requires { at < 2 ^ 60 }
    ensures { (content_at table.now at ty ≡ left_out ty ++ bytes_at table.now result.at result.size)
        × (result.at ≤ at + 10) × (result.size < 2 ^ 18) }
{
    if ty == 5 {
        return Kept {
            at: at + 10,
            size: 2,
        };
    }
    Kept {
        at: at + 8,
        size: content_size(table, at, ty),
    }
}

// Where the action after the one at `at` stands. Past the table an action's length is 0, so no action stands much further on.
#[inline]
fn next_place(table: &[u8], at: usize) -> usize
    requires { (length table.now ≤ 2 ^ 15) × (at < 2 ^ 33) }
    ensures { (result ≡ at + u32_at table.now (at + 4)) × (result < 2 ^ 33) }
{
    at + fields::u32_at(table, at + 4)
}

// The number of the first two bytes that differ, of `count` from `first` of one table on and from `second` of the other on.
fn bytes_apart<'a>(
    one: &'a [u8],
    other: &'a [u8],
    first: usize,
    second: usize,
    count: usize,
) -> Option<usize>
    requires { (first + count < 2 ^ 62) × (second + count < 2 ^ 62) }
    ensures { MatchOption result (bytes_at one.now first count ≡ bytes_at other.now second count)
        (λ i. (i < count) × Apart byte (bytes_at one.now first count) (bytes_at other.now second count)
        (get_or one.now (first + i) 0) (get_or other.now (second + i) 0)) }
{
    for i in 0..count {
        if fields::u8_at(one, first + i) != fields::u8_at(other, second + i) {
            return Some(i);
        }
    }
    None
}

// Whether the `count` bytes from `first` of one table on are the same as those from `second` of the other on, four at a time
// while four are left.
fn same_bytes<'a>(one: &'a [u8], other: &'a [u8], first: usize, second: usize, count: usize) -> bool
    requires { (first + count < 2 ^ 62) × (second + count < 2 ^ 62) }
    ensures { Says result (bytes_at one.now first count ≡ bytes_at other.now second count) }
{
    let fours = count / 4;
    for i in 0..fours {
        if fields::u32_at(one, first + 4 * i) != fields::u32_at(other, second + 4 * i) {
            return false;
        }
    }
    let done = 4 * fours;
    bytes_apart(one, other, first + done, second + done, count - done).is_none()
}

// Whether two actions of one type, in two tables or one lent twice, have the same data.
fn same_content<'a>(one: &'a [u8], other: &'a [u8], first: usize, second: usize, ty: usize) -> bool
    requires { (first < 2 ^ 60) × (second < 2 ^ 60) }
    ensures { Says result (content_at one.now first ty ≡ content_at other.now second ty) }
{
    let a = kept_data(one, first, ty);
    let b = kept_data(other, second, ty);
    a.size == b.size && same_bytes(one, other, a.at, b.at, a.size)
}

// Whether positions of two tables hold the same action. Its class and its type stand beside each other and are read as one number;
// type 3 has no data.
fn same_action<'a>(one: &'a [u8], other: &'a [u8], first: usize, second: usize) -> bool
    requires { (first < 2 ^ 60) × (second < 2 ^ 60) }
    ensures { Says result (action_at one.now first ≡ action_at other.now second) }
{
    let head = fields::u32_at(one, first);
    if head != fields::u32_at(other, second) {
        return false;
    }
    let ty = head % 65536;
    if ty == 3 {
        return true;
    }
    same_content(one, other, first, second, ty)
}

// Where the first two actions that differ stand, of `count` from `first` of one table on and from `second` of the other on.
fn actions_apart<'a>(
    one: &'a [u8],
    other: &'a [u8],
    first: usize,
    second: usize,
    count: usize,
) -> Option<Places>
    requires { (length one.now ≤ 2 ^ 15) × (length other.now ≤ 2 ^ 15) × ((first < 2 ^ 33) × (second < 2 ^ 33)) }
    ensures { MatchOption result (actions_at one.now count first ≡ actions_at other.now count second)
        (λ places. (places.one < 2 ^ 33) × (places.other < 2 ^ 33)
        × Apart action_words (actions_at one.now count first) (actions_at other.now count second)
        (action_at one.now places.one) (action_at other.now places.other)) }
{
    let mut a = first;
    let mut b = second;
    for _ in 0..count {
        if !same_action(one, other, a, b) {
            return Some(Places { one: a, other: b });
        }
        a = next_place(one, a);
        b = next_place(other, b);
    }
    None
}

// Whether positions of two tables hold the same list.
pub fn same_list<'a>(one: &'a [u8], other: &'a [u8], first: u16, second: u16) -> bool
    requires { (length one.now ≤ 2 ^ 15) × (length other.now ≤ 2 ^ 15) }
    ensures { Says result (list_at one.now first ≡ list_at other.now second) }
{
    let a = first as usize;
    let b = second as usize;
    let count = fields::u32_at(one, a);
    count == fields::u32_at(other, b) && actions_apart(one, other, a + 4, b + 4, count).is_none()
}

// Whether the `count` bytes from `first` on come before those from `second` on: the first two that differ tell it.
fn earlier_bytes(table: &[u8], first: usize, second: usize, count: usize) -> bool
    requires { (first + count < 2 ^ 62) × (second + count < 2 ^ 62) }
    ensures { Says result (Before (many byte (bytes_at table.now first count)) (many byte (bytes_at table.now second count))) }
{
    match bytes_apart(table, table, first, second, count) {
        Some(i) => fields::u8_at(table, first + i) < fields::u8_at(table, second + i),
        None => false,
    }
}

// Whether the data of the action at `first`, after its length, comes before that of the action at `second`, both of type
// `ty`.
fn earlier_content(table: &[u8], first: usize, second: usize, ty: usize) -> bool
    requires { (first < 2 ^ 60) × (second < 2 ^ 60) }
    ensures { Says result (Before (listed byte (content_at table.now first ty)) (listed byte (content_at table.now second ty))) }
{
    let a = kept_data(table, first, ty);
    let b = kept_data(table, second, ty);
    if a.size != b.size {
        return a.size < b.size;
    }
    earlier_bytes(table, a.at, b.at, a.size)
}

// Whether the action at `first` comes before the one at `second`. No type of a fixed size holds an action whole, so its order is no
// derived one: its fields are compared where they stand.
fn earlier_action(table: &[u8], first: usize, second: usize) -> bool
    requires { (first < 2 ^ 60) × (second < 2 ^ 60) }
    ensures { Says result (Before (action_words (action_at table.now first)) (action_words (action_at table.now second))) }
{
    let class = fields::u16_at(table, first);
    let other_class = fields::u16_at(table, second);
    if class != other_class {
        return class < other_class;
    }
    let ty = fields::u16_at(table, first + 2);
    let other_type = fields::u16_at(table, second + 2);
    if ty != other_type {
        return ty < other_type;
    }
    earlier_content(table, first, second, ty)
}

// Whether the `count` actions from `first` on come before those from `second` on: the first two that differ tell it.
pub fn earlier_actions(table: &[u8], first: usize, second: usize, count: usize) -> bool
    requires { (length table.now ≤ 2 ^ 15) × ((first < 2 ^ 33) × (second < 2 ^ 33)) }
    ensures { Says result (Before (many action_words (actions_at table.now count first)) (many action_words (actions_at table.now count second))) }
{
    match actions_apart(table, table, first, second, count) {
        Some(places) => earlier_action(table, places.one, places.other),
        None => false,
    }
}

// The running sums of `count` bytes, added up.
fn weigh(table: &[u8], first: usize, count: usize) -> usize
    requires { (first < 2 ^ 61) × (count < 2 ^ 18) }
    ensures { (result ≡ weight 0 0 (bytes_at table.now first count)) × (result < 2 ^ 45) }
{
    let mut sum: usize = 0;
    let mut total: usize = 0;
    for i in 0..count {
        sum += fields::u8_at(table, first + i);
        total += sum;
    }
    total
}

// The same of the data of the action at `at`, of type `ty`.
fn content_weight(table: &[u8], at: usize, ty: usize) -> usize
    requires { at < 2 ^ 60 }
    ensures { (result ≡ weight 0 0 (content_at table.now at ty)) × (result < 2 ^ 45) }
{
    let kept = kept_data(table, at, ty);
    weigh(table, kept.at, kept.size)
}

// Class and type are read as one number, as by `same_action`.
fn action_hash(table: &[u8], at: usize) -> usize
    requires { at < 2 ^ 60 }
    ensures { (result ≡ action_hash (action_at table.now at)) × (result < 2 ^ 46) }
{
    let head = fields::u32_at(table, at);
    let ty = head % 65536;
    if ty == 3 {
        return head;
    }
    head + content_weight(table, at, ty)
}

// A number for the list at a position, the same for the same lists: by its count and its actions.
pub fn list_hash(table: &[u8], place: u16) -> usize
    requires { length table.now ≤ 2 ^ 15 }
    ensures { (result ≡ list_hash (list_at table.now place)) × (result < 2 ^ 32) }
{
    let count = fields::u32_at(table, place as usize);
    let mut at = place as usize + 4;
    let mut hash = count;
    for _ in 0..count {
        hash = (31 * hash + action_hash(table, at)) % 4294967296;
        at = next_place(table, at);
    }
    hash
}

// How many bytes the action at `at` is written in.
fn action_size(table: &[u8], at: usize) -> usize
    requires { at < 2 ^ 60 }
    ensures { (result ≡ length (action_code (action_at table.now at))) × (result < 2 ^ 19) }
{
    8 + content_size(table, at, fields::u16_at(table, at + 2))
}

// How many bytes the list at a position is written in.
pub fn list_size(table: &[u8], place: u16) -> usize
    requires { length table.now ≤ 2 ^ 15 }
    ensures { (result ≡ length (counted action_code (list_at table.now place))) × (result < 2 ^ 52) }
{
    let count = fields::u32_at(table, place as usize);
    let mut at = place as usize + 4;
    let mut size: usize = 4;
    for _ in 0..count {
        size += action_size(table, at);
        at = next_place(table, at);
    }
    size
}

// Stores `count` bytes of the table.
fn put_bytes(table: &[u8], first: usize, count: usize, out: &mut [u8], to: usize)
    requires { (first + count < 2 ^ 62) × (to + count < 2 ^ 62) }
    ensures { out.new ≡ sets out.old to (bytes_at table.now first count) }
{
    for i in 0..count {
        fields::put_u8(out, to + i, fields::u8_at(table, first + i) as u8);
    }
}

// Stores the data of the action at `at`, of type `ty`.
fn put_content(table: &[u8], at: usize, ty: usize, out: &mut [u8], to: usize)
    requires { (at < 2 ^ 60) × (to < 2 ^ 60) }
    ensures { out.new ≡ sets out.old to (content_at table.now at ty) }
{
    if ty == 5 {
        // the flags are ignored, and written as zero
        fields::put_u16(out, to, 0);
        put_bytes(table, at + 10, 2, out, to + 2);
    } else {
        put_bytes(table, at + 8, content_size(table, at, ty), out, to);
    }
}

// Stores the action at `at`.
fn put_action(table: &[u8], at: usize, out: &mut [u8], to: usize)
    requires { (at < 2 ^ 60) × (to < 2 ^ 59) }
    ensures { out.new ≡ sets out.old to (action_code (action_at table.now at)) }
{
    let ty = fields::u16_at(table, at + 2);
    let size = content_size(table, at, ty);
    fields::put_u16(out, to, fields::u16_at(table, at) as u16);
    fields::put_u16(out, to + 2, ty as u16);
    fields::put_u32(out, to + 4, size as u32);
    put_content(table, at, ty, out, to + 8);
}

// Stores the `count` actions from `first` on.
fn put_actions(table: &[u8], first: usize, count: usize, out: &mut [u8], to: usize)
    requires { (length table.now ≤ 2 ^ 15) × ((first < 2 ^ 33) × (to + 2 ^ 19 * count < 2 ^ 59)) }
    ensures { out.new ≡ sets out.old to (many action_code (actions_at table.now count first)) }
{
    let mut at = first;
    let mut end = to;
    for _ in 0..count {
        put_action(table, at, out, end);
        end += action_size(table, at);
        at = next_place(table, at);
    }
}

// Stores the list at a position.
pub fn put_list(table: &[u8], at: u16, out: &mut [u8], to: usize)
    requires { (length table.now ≤ 2 ^ 15) × (to < 2 ^ 40) }
    ensures { out.new ≡ sets out.old to (counted action_code (list_at table.now at)) }
{
    let place = at as usize;
    let count = fields::u32_at(table, place);
    fields::put_u32(out, to, count as u32);
    put_actions(table, place + 4, count, out, to + 4);
}
