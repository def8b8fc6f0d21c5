// The leaves of the tree of offers, the first of each rate, whose price at a load is below a price: their slots, in order. The part is only read, and any
// words are safe.
#![tactic(auto)]

ghost use Rattle.std.specs.Prelude.{◌≡◌, length};
ghost use Rattle.std.specs.Int.Signed.{le_z, lt_z};
ghost use Rattle.table.specs.Fields.{most_levels, most_slots, rate_field};
ghost use Rattle.table.specs.Layout.{cap, cell};
ghost use Rattle.query.specs.Readings.{price_in};
ghost use Rattle.gathering.specs.Cheapest.{Cheaper, bridge_on, OnSide};
ghost use Rattle.gathering.specs.Gathers.{Put, Gathers};

// A place for each slot that a part may have.
pub const SLOTS: usize = table::MOST_SLOTS as usize;

// The place of a walk that gave up: above SLOTS, so that it leaves no room.
pub const GIVEN_UP: usize = SLOTS + 1;

// The price of the offer in a slot is strictly below `price`.
pub fn is_below(part: &[i64], slot: u32, load: i64, price: i64) -> bool
    ensures { result ≡ lt_z (price_in part.now slot load) price }
{
    query::price(part, slot, load) < price
}

// The offer in slot `a` costs at most what the one in slot `b` costs.
fn no_dearer(part: &[i64], a: u32, b: u32, load: i64) -> bool
    ensures { result ≡ le_z (price_in part.now a load) (price_in part.now b load) }
{
    query::price(part, a, load) <= query::price(part, b, load)
}

// The rate in slot `a` is below the one in slot `b`. `c` is the capacity, here and below.
fn is_later(part: &[i64], c: u32, a: u32, b: u32) -> bool
    requires { c ≡ cap part.now }
    ensures { result ≡ lt_z (cell part.now rate_field a) (cell part.now rate_field b) }
{
    table::get_in(part, c, table::RATE, a) < table::get_in(part, c, table::RATE, b)
}

// The cheaper of the offer in `slot` and the cheapest piece below `root`, which is 0 where there is none.
fn cheaper(part: &[i64], root: u32, slot: u32, load: i64) -> u32
    ensures { Cheaper part.now root slot load result }
{
    if root == 0 {
        return slot;
    }
    let other = query::descend(part, root, load).slot;
    if no_dearer(part, slot, other, load) {
        return slot;
    }
    other
}

// The field of a bridge's end on a side: left is false, right is true.
fn bridge_field(side: bool) -> usize
    ensures { result ≡ bridge_on side }
{
    if side {
        table::BRIDGE_RIGHT
    } else {
        table::BRIDGE_LEFT
    }
}

// The cheapest below the child on a side of inner node `x`, where `e` is the cheapest below `x`. Whatever the words are, on one side it is `e` itself.
// Inlined, so that each call has its side's fields and makes no call where it is.
#[inline(always)]
fn child_cheapest(part: &[i64], c: u32, side: bool, x: u32, e: u32, load: i64) -> u32
    requires { c ≡ cap part.now }
    ensures { OnSide side part.now x e load result }
{
    let m = table::inner_slot(x);
    if is_later(part, c, e, m) == side {
        return e;
    }
    let root = form::rest_in(part, c, table::child_in(part, c, table::OFFERS, side, x));
    let end = table::link_in(part, c, bridge_field(side), m);
    cheaper(part, root, end, load)
}

// Puts leaf `x` at place `at`, and returns the next place; gives up where there is no room.
fn put(x: u32, firsts: &mut [u32; SLOTS], at: usize) -> usize
    requires { length firsts.old ≡ most_slots }
    ensures { Put x firsts.old firsts.new at result }
{
    if SLOTS <= at {
        return GIVEN_UP;
    }
    firsts[at] = x;
    at + 1
}

// Puts the leaves below node `x` whose price is below `price` from place `at` on, and returns the place behind the last. `e` is the slot of a cheapest of
// them; a node whose cheapest is not below is left alone. `limit` bounds the tree's height. Words that are no book's may make it give up, which ends the whole
// walk: of an entered node one child has the cheapest `e` and is entered too, so that every entered node leads to a leaf that is put, or to giving up.
fn gather_in(
    part: &[i64],
    c: u32,
    x: u32,
    e: u32,
    load: i64,
    price: i64,
    firsts: &mut [u32; SLOTS],
    at: usize,
    limit: u32,
) -> usize
    requires { (c ≡ cap part.now) × (length firsts.old ≡ most_slots) }
    ensures { Gathers part.now x e load price limit firsts.old firsts.new at result }
{
    if SLOTS < at {
        return at;
    }
    if !is_below(part, e, load, price) {
        return at;
    }
    if x <= table::MOST_SLOTS {
        return put(x, firsts, at);
    }
    if limit == 0 {
        return GIVEN_UP;
    }
    let left = table::child_in(part, c, table::OFFERS, false, x);
    let f = child_cheapest(part, c, false, x, e, load);
    let mid = gather_in(part, c, left, f, load, price, firsts, at, limit - 1);
    let right = table::child_in(part, c, table::OFFERS, true, x);
    let g = child_cheapest(part, c, true, x, e, load);
    gather_in(part, c, right, g, load, price, firsts, mid, limit - 1)
}

// Puts the leaves of the tree of offers at `x` whose price is below `price`, and returns how many; GIVEN_UP where a walk gave up. `e` is the slot of a
// cheapest offer.
pub fn gather(
    part: &[i64],
    x: u32,
    e: u32,
    load: i64,
    price: i64,
    firsts: &mut [u32; SLOTS],
) -> usize
    requires { length firsts.old ≡ most_slots }
    ensures { Gathers part.now x e load price most_levels firsts.old firsts.new 0 result }
{
    let c = table::capacity(part);
    gather_in(part, c, x, e, load, price, firsts, 0, table::MOST_LEVELS)
}
