// The words of a book's part, by total accessors: whatever the words are, a read gives a value and a write stays inside the part.
#![tactic(auto)]

ghost use Rattle.std.specs.Prelude.{◌≡◌, suc, max, ◌-◌, ◌≤◌, pos};
ghost use Rattle.std.specs.Int.Signed.{le_z, lt_z};
ghost use Rattle.integers.specs.Equal.{equal};
ghost use Rattle.offers.specs.Bounded.{bounded};
ghost use Rattle.table.specs.Fields.{most_slots, most_nodes};
ghost use Rattle.table.specs.Words.{word, wset, up_to};
ghost use Rattle.table.specs.Layout.{cap, spot, cell, cset, link_at, place};
ghost use Rattle.table.specs.Free.{first_free, taken, given};
ghost use Rattle.table.specs.Cells.{Placed};
ghost use Rattle.table.specs.Rep.{child_field, height_field, child_at, height_at};

mod part;

pub use part::Part;

// The header's words.
pub const CAPACITY: usize = 0;

pub const OFFERS_ROOT: usize = 1;

pub const ENVELOPE_ROOT: usize = 2;

pub const LIVE_COUNT: usize = 3;

pub const NUMBERS_ROOT: usize = 4;

pub const FIRST_FREE: usize = 5;

pub const ORDER_ROOT: usize = 6;

pub const LAST_ENTRY: usize = 7;

pub const REMEMBERED: usize = 8;

// The words of the memory, behind the slots, and of the least part.
pub const MEMORY: usize = 1_024;

pub const LEAST_PART: usize = 64 * 2 + MEMORY;

// The fields of a slot: its offer, the next free slot or, where the slot is live, its offer's rank, the first of a piece's node (its children, then
// its crossing), the crossing with the next piece and that piece, the bridge of the offers' inner node, and the pieces that stay with the inner
// node and with the leaf. `child_field` and `height_field` give the trees'.
pub const NUMBER: usize = 0;

pub const RATE: usize = 1;

pub const BASE: usize = 2;

pub const NEXT_FREE: usize = 3;

pub const RANK: usize = 3;

pub const PIECE_NODE: usize = 4;

pub const NUMERATOR: usize = 6;

pub const DENOMINATOR: usize = 7;

pub const BRIDGE_LEFT: usize = 10;

pub const BRIDGE_RIGHT: usize = 11;

pub const NEXT_PIECE: usize = 19;

pub const INNER_REST: usize = 20;

pub const LEAF_REST: usize = 21;

// The trees. Numbers, and no enum: what is said of a tree's words (`child_at`, `Tied`) is said of every number, and each function takes every one.
pub const PIECES: u8 = 0;

pub const OFFERS: u8 = 1;

pub const NUMBERS: u8 = 2;

pub const ORDER: u8 = 3;

// The most slots of a part, the highest number of a node, and a height that no balanced tree of so many leaves exceeds. A node up to
// MOST_SLOTS is the leaf of that slot, one above it an inner node. A node and a slot are words of the table, where 0 is none; so it is in what
// reads and writes them, since an Option would be the same word in a second form.
pub const MOST_SLOTS: u32 = 4096;

pub const MOST_NODES: u32 = 8192;

pub const MOST_LEVELS: u32 = 24;

// Word `at`, and 0 past the end.
pub fn word_at(part: &[i64], at: usize) -> i64
    ensures { result ≡ word part.now at }
{
    if at < part.len() {
        return part[at];
    }
    0
}

// Puts `value` into word `at`, and does nothing past the end.
pub fn set_word(part: &mut [i64], at: usize, value: i64)
    ensures { part.new ≡ wset part.old at value }
{
    if at < part.len() {
        part[at] = value;
    }
}

// A word as a number from 0 to `most`, and 0 where it is none of those.
pub fn up_to(most: u32, value: i64) -> u32
    ensures { result ≡ up_to most value }
{
    if value < 0 {
        return 0;
    }
    let number = value as u64;
    if number > most as u64 {
        return 0;
    }
    number as u32
}

// A word from `low` to `high`, and 0 for any other: no product of such values wraps.
pub fn bounded(low: i64, high: i64, value: i64) -> i64
    ensures { result ≡ bounded low high value }
{
    if value < low {
        return 0;
    }
    if high < value {
        return 0;
    }
    value
}

// Word `at` as a number from 0 to `most`, and 0 where it is none of those.
pub fn number_at(part: &[i64], at: usize, most: u32) -> u32
    ensures { result ≡ up_to most (word part.now at) }
{
    up_to(most, word_at(part, at))
}

// The capacity that word 0 tells, and 0 where there is no book: no capacity from 1 to 4,096, or a part that is cut short.
pub fn capacity(part: &[i64]) -> u32
    ensures { result ≡ cap part.now }
{
    let told = number_at(part, CAPACITY, MOST_SLOTS);
    if part.len() < 64 * (told as usize + 1) + MEMORY {
        return 0;
    }
    told
}

// The place of a slot's field in a part of capacity `c`: the one formula of the layout. The four fields of a plane stand side by side.
pub fn address(c: u32, field: usize, slot: u32) -> usize
    requires { Placed c field slot }
    ensures { result ≡ place c field slot }
{
    64 + 4 * (field / 4 * (c as usize + 1) + slot as usize) + field % 4
}

// The place of a slot's field, and the end of the words where the part has no such field. The tests are those of `capacity`, each with an
// end of its own, which costs a reader less than a capacity made 0.
fn spot(part: &[i64], field: usize, slot: u32) -> usize
    ensures { result ≡ spot part.now field slot }
{
    let c = number_at(part, CAPACITY, MOST_SLOTS);
    if part.len() < 64 * (c as usize + 1) + MEMORY {
        return part.len();
    }
    if slot < 1 {
        return part.len();
    }
    if c < slot {
        return part.len();
    }
    if 32 <= field {
        return part.len();
    }
    address(c, field, slot)
}

// A slot's field, and 0 where the part has none such.
pub fn get(part: &[i64], field: usize, slot: u32) -> i64
    ensures { result ≡ cell part.now field slot }
{
    word_at(part, spot(part, field, slot))
}

// A slot's field as the number of a node: 0 where it is none from 0 to 8,192.
pub fn link(part: &[i64], field: usize, slot: u32) -> u32
    ensures { result ≡ link_at part.now field slot }
{
    number_at(part, spot(part, field, slot), MOST_NODES)
}

// Puts `value` into a slot's field, and does nothing where the part has none such.
pub fn put(part: &mut [i64], field: usize, slot: u32, value: i64)
    ensures { part.new ≡ cset part.old field slot value }
{
    let at = spot(part, field, slot);
    set_word(part, at, value);
}

// Puts a node's number, or a height, into a slot's field.
pub fn put_link(part: &mut [i64], field: usize, slot: u32, value: u32)
    ensures { part.new ≡ cset part.old field slot (pos value) }
{
    put(part, field, slot, value as i64);
}

// The field of a child in a tree. The trees are 0 the pieces, 1 the offers, 2 the numbers, 3 the order; the sides are false left, true right.
pub fn child_field(tree: u8, side: bool) -> usize
    ensures { result ≡ child_field tree side }
{
    if side {
        return 4 + 4 * (tree as usize) + 1;
    }
    4 + 4 * (tree as usize)
}

pub fn height_field(tree: u8) -> usize
    ensures { result ≡ height_field tree }
{
    24 + tree as usize
}

// The slot that keeps inner node `x`, and 0 where `x` is no inner node.
pub fn inner_slot(x: u32) -> u32
    ensures { result ≡ x - most_slots }
{
    if x <= MOST_SLOTS {
        return 0;
    }
    x - MOST_SLOTS
}

// A child of an inner node, and 0 where `x` is none.
pub fn child(part: &[i64], tree: u8, side: bool, x: u32) -> u32
    ensures { result ≡ child_at part.now tree side x }
{
    link(part, child_field(tree, side), inner_slot(x))
}

// The height of node `x`, and 0 where it is no inner node.
pub fn height(part: &[i64], tree: u8, x: u32) -> u32
    ensures { result ≡ height_at part.now tree x }
{
    link(part, height_field(tree), inner_slot(x))
}

// The height of a node over two trees of given heights.
pub fn height_over(left: u32, right: u32) -> u32
    requires { (left ≤ most_nodes) × (right ≤ most_nodes) }
    ensures { result ≡ suc (max left right) }
{
    if left < right {
        return right + 1;
    }
    left + 1
}

// A slot's field is `key` or above.
pub fn at_least(part: &[i64], field: usize, slot: u32, key: i64) -> bool
    ensures { result ≡ le_z key (cell part.now field slot) }
{
    key <= get(part, field, slot)
}

// The same where the part's capacity `c` is known. Who writes takes it beside the words. One struct for both, as `Part` is to read, was tried: seen as a
// list it tells nothing of the words once it is gone, and with a ghost field `part.new ≡ w` becomes `part.new.words ≡ holding part.old.words w`.
fn spot_in(part: &[i64], c: u32, field: usize, slot: u32) -> usize
    requires { c ≡ cap part.now }
    ensures { result ≡ spot part.now field slot }
{
    if slot < 1 {
        return part.len();
    }
    if c < slot {
        return part.len();
    }
    if 32 <= field {
        return part.len();
    }
    address(c, field, slot)
}

// A slot's field, as `get` reads it, where the part's capacity `c` is known: who reads many fields reads it once.
pub fn get_in(part: &[i64], c: u32, field: usize, slot: u32) -> i64
    requires { c ≡ cap part.now }
    ensures { result ≡ cell part.now field slot }
{
    if slot < 1 {
        return 0;
    }
    if c < slot {
        return 0;
    }
    if 32 <= field {
        return 0;
    }
    let at = address(c, field, slot);
    part[at]
}

pub fn link_in(part: &[i64], c: u32, field: usize, slot: u32) -> u32
    requires { c ≡ cap part.now }
    ensures { result ≡ link_at part.now field slot }
{
    up_to(MOST_NODES, get_in(part, c, field, slot))
}

pub fn child_in(part: &[i64], c: u32, tree: u8, side: bool, x: u32) -> u32
    requires { c ≡ cap part.now }
    ensures { result ≡ child_at part.now tree side x }
{
    link_in(part, c, child_field(tree, side), inner_slot(x))
}

pub fn at_least_in(part: &[i64], c: u32, field: usize, slot: u32, key: i64) -> bool
    requires { c ≡ cap part.now }
    ensures { result ≡ le_z key (cell part.now field slot) }
{
    key <= get_in(part, c, field, slot)
}

pub fn height_in(part: &[i64], c: u32, tree: u8, x: u32) -> u32
    requires { c ≡ cap part.now }
    ensures { result ≡ height_at part.now tree x }
{
    link_in(part, c, height_field(tree), inner_slot(x))
}

// Puts a node's number into a slot's field.
pub fn put_link_in(part: &mut [i64], c: u32, field: usize, slot: u32, value: u32)
    requires { c ≡ cap part.old }
    ensures { part.new ≡ cset part.old field slot (pos value) }
{
    let at = spot_in(part, c, field, slot);
    set_word(part, at, value as i64);
}

pub fn put_three_in(
    part: &mut [i64],
    c: u32,
    slot: u32,
    f: usize,
    first: i64,
    g: usize,
    second: i64,
    h: usize,
    third: i64,
)
    requires { c ≡ cap part.old }
    ensures { part.new ≡ cset (cset (cset part.old f slot first) g slot second) h slot third }
{
    let x = spot_in(part, c, f, slot);
    let y = spot_in(part, c, g, slot);
    let z = spot_in(part, c, h, slot);
    set_word(part, x, first);
    set_word(part, y, second);
    set_word(part, z, third);
}

// A slot's field is `key` or below.
pub fn at_most(part: &[i64], field: usize, slot: u32, key: i64) -> bool
    ensures { result ≡ le_z (cell part.now field slot) key }
{
    get(part, field, slot) <= key
}

// A slot's field is above `key`.
pub fn is_above(part: &[i64], field: usize, slot: u32, key: i64) -> bool
    ensures { result ≡ lt_z key (cell part.now field slot) }
{
    key < get(part, field, slot)
}

// A slot's field is `key`.
pub fn is_equal(part: &[i64], field: usize, slot: u32, key: i64) -> bool
    ensures { result ≡ equal (cell part.now field slot) key }
{
    at_most(part, field, slot, key) && at_least(part, field, slot, key)
}

// Puts a number into word `at`, and does nothing past the end.
pub fn set_number(part: &mut [i64], at: usize, value: u32)
    ensures { part.new ≡ wset part.old at (pos value) }
{
    set_word(part, at, value as i64);
}

// Takes the first free slot off the chain; 0 where there is none.
pub fn take_slot(part: &mut [i64]) -> u32
    ensures is { result ≡ first_free part.old }
    ensures words { part.new ≡ taken part.old }
{
    let s = number_at(part, FIRST_FREE, MOST_NODES);
    let next = link(part, NEXT_FREE, s);
    set_number(part, FIRST_FREE, next);
    s
}

// Gives a slot back: its number becomes 0, and it goes to the front of the chain.
pub fn give_slot(part: &mut [i64], slot: u32)
    ensures { part.new ≡ given part.old slot }
{
    let next = number_at(part, FIRST_FREE, MOST_NODES);
    put_link(part, NUMBER, slot, 0);
    put_link(part, NEXT_FREE, slot, next);
    set_number(part, FIRST_FREE, slot);
}
