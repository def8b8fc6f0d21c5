// An index: a tree of the live items by a key, which a field of their slots holds. An item is added, and one is dropped by its key. Keys fall from left
// to right.
#![tactic(auto)]

ghost use Rattle.std.specs.Prelude.{◌≡◌};
ghost use Rattle.table.specs.Layout.{cap};
ghost use Rattle.index.specs.Index.{Added, Dropped};
ghost use Rattle.index.specs.Above.{least_above};
ghost use Rattle.index.specs.Growing.{Grown};
ghost use Rattle.index.specs.Thinning.{Thinned};

// No key reaches it, rank or number.
const MOST_KEY: i64 = 4_000_000_000_000_000_000;

// Adds leaf `s`, whose key is `key`, to the tree at `x`, which is not empty: the way goes right where the seam's key is `key` or more, so every seam
// stays the last leaf on its left. The tree is at most `limit` high, and `c` is the capacity.
fn add_below(
    part: &mut [i64],
    c: u32,
    tree: u8,
    field: usize,
    key: i64,
    s: u32,
    x: u32,
    limit: u32,
) -> u32
    requires { c ≡ cap part.old }
    ensures { Grown tree field key s x limit part.old part.new result }
{
    if x <= table::MOST_SLOTS {
        if table::at_least_in(part, c, field, x, key) {
            return shape::join_in(part, c, tree, x, x, s);
        }
        return shape::join_in(part, c, tree, s, s, x);
    }
    if limit == 0 {
        return 0;
    }
    let gap = table::inner_slot(x);
    let l = table::child_in(part, c, tree, false, x);
    let r = table::child_in(part, c, tree, true, x);
    if table::at_least_in(part, c, field, gap, key) {
        let more = add_below(part, c, tree, field, key, s, r, limit - 1);
        return shape::join_in(part, c, tree, gap, l, more);
    }
    let more = add_below(part, c, tree, field, key, s, l, limit - 1);
    shape::join_in(part, c, tree, gap, more, r)
}

// Adds the item in slot `s`, whose key no item of the tree has.
pub fn add(part: &mut [i64], tree: u8, field: usize, root: u32, s: u32) -> u32
    ensures { Added tree field s root part.old part.new result }
{
    if root == 0 {
        return s;
    }
    let c = table::capacity(part);
    let key = table::get_in(part, c, field, s);
    add_below(part, c, tree, field, key, s, root, table::MOST_LEVELS)
}

// The least key above a key, as far as keys go.
fn least_above(key: i64) -> i64
    ensures { result ≡ least_above key }
{
    if key < MOST_KEY {
        return key + 1;
    }
    MOST_KEY
}

// Drops the leaf at which the way down ends: it goes right where the seam's key is `least` or more. 0 where none is left. The tree is at most
// `limit` high, and `c` is the capacity.
fn drop_below(
    part: &mut [i64],
    c: u32,
    tree: u8,
    field: usize,
    least: i64,
    x: u32,
    limit: u32,
) -> u32
    requires { c ≡ cap part.old }
    ensures { Thinned tree field least x limit part.old part.new result }
{
    if x <= table::MOST_SLOTS {
        return 0;
    }
    if limit == 0 {
        return 0;
    }
    let gap = table::inner_slot(x);
    let l = table::child_in(part, c, tree, false, x);
    let r = table::child_in(part, c, tree, true, x);
    if table::at_least_in(part, c, field, gap, least) {
        let y = drop_below(part, c, tree, field, least, r, limit - 1);
        return shape::join_in(part, c, tree, gap, l, y);
    }
    let y = drop_below(part, c, tree, field, least, l, limit - 1);
    let last = descents::end_in(part, c, tree, true, y);
    shape::join_in(part, c, tree, last, y, r)
}

// Drops the item with that key, and keeps the others. A key that no item has may cost another item its leaf: find it first.
pub fn drop_key(part: &mut [i64], tree: u8, field: usize, root: u32, key: i64) -> u32
    ensures { Dropped tree field key root part.old part.new result }
{
    let least = least_above(key);
    let c = table::capacity(part);
    drop_below(part, c, tree, field, least, root, table::MOST_LEVELS)
}
