// Trees of a part, read into a scratch array and compared with what stands there. Any words are safe: every walk has a limit.
#![tactic(auto)]

ghost use Rattle.std.specs.Prelude.{◌≡◌, true, false, ℕ, ◌+◌, ◌-◌, ◌≤◌, ◌<◌, length, get_or, pos};
ghost use Rattle.std.specs.Int.Signed.{lt_z};
ghost use Rattle.offers.specs.Offers.{between, offer_in_range};
ghost use Rattle.table.specs.Fields.{most_slots};
ghost use Rattle.table.specs.Words.{word};
ghost use Rattle.table.specs.Layout.{cell};
ghost use Rattle.check_trees.specs.Scratch.{scratch_length};
ghost use Rattle.check_trees.specs.Deciding.{Decides, Every, Agree};
ghost use Rattle.check_trees.specs.Laid.{item_at};
ghost use Rattle.check_trees.specs.Loops.{FallsHere, RangedHere, PlaceOf, Moved};
ghost use Rattle.check_trees.specs.Fills.{Fills, Ended, Covers};

// A scratch array has two halves, with an entry for each slot in either: what is read first, and what is compared with it.
pub const SECOND_HALF: usize = table::MOST_SLOTS as usize;

pub const SCRATCH: usize = 2 * SECOND_HALF;

// Word `at` is that number, and not only read as such.
pub fn tells(part: &[i64], at: usize, number: u32) -> bool
    ensures { Decides result (word part.now at ≡ pos number) }
{
    table::word_at(part, at) == number as i64
}

// .. and so a slot's field.
pub fn slot_tells(part: &[i64], field: usize, slot: u32, number: u32) -> bool
    ensures { Decides result (cell part.now field slot ≡ pos number) }
{
    table::is_equal(part, field, slot, number as i64)
}

// What a walk over a tree that went through tells: the place behind the last leaf, and the tree's height.
#[derive(Drop)]
pub struct Filled {
    pub next: usize,
    pub height: u32,
}

// Entry `i` of the scratch array.
pub fn entry(scratch: &[u32; SCRATCH], i: usize) -> u32
    requires { i < scratch_length }
    ensures { result ≡ get_or scratch.now i 0 }
{
    scratch[i]
}

// Writes leaf `x` at place `at`.
fn fill_leaf(part: &[i64], x: u32, scratch: &mut [u32; SCRATCH], at: usize) -> Option<Filled>
    ensures { x ≤ most_slots → (k limit : ℕ) → Fills part.now k x limit scratch.old scratch.new at result }
{
    if x < 1 || table::capacity(part) < x {
        return None;
    }
    if SCRATCH <= at {
        return None;
    }
    scratch[at] = x;
    Some(Filled {
        next: at + 1,
        height: 0,
    })
}

// Node `x` over the trees of the two walks, the first of which ended with the leaf in the slot where `x` is kept.
fn cover(
    part: &[i64],
    tree: u8,
    x: u32,
    scratch: &[u32; SCRATCH],
    a: Filled,
    b: Filled,
) -> Option<Filled>
    requires { Ended a b }
    ensures { Covers part.now tree x scratch.now a b result }
{
    let next = a.next;
    let left = a.height;
    let right = b.height;
    let last = entry(scratch, next - 1);
    if last != table::inner_slot(x) {
        return None;
    }
    if 1 < left.abs_diff(right) {
        return None;
    }
    let height = table::height(part, tree, x);
    if height != table::height_over(left, right) {
        return None;
    }
    Some(Filled {
        next: b.next,
        height,
    })
}

// Walks the tree whose root is node `x` and writes its leaves' slots from place `at` on. `tree` is one of
// `table`'s; `limit` bounds the tree's height.
pub fn fill(
    part: &[i64],
    tree: u8,
    x: u32,
    scratch: &mut [u32; SCRATCH],
    at: usize,
    limit: u32,
) -> Option<Filled>
    ensures { Fills part.now tree x limit scratch.old scratch.new at result }
{
    if x <= table::MOST_SLOTS {
        return fill_leaf(part, x, scratch, at);
    }
    if limit == 0 {
        return None;
    }
    let left = table::child(part, tree, false, x);
    let a = fill(part, tree, left, scratch, at, limit - 1)?;
    let right = table::child(part, tree, true, x);
    let b = fill(part, tree, right, scratch, a.next, limit - 1)?;
    cover(part, tree, x, scratch, a, b)
}

// The two stretches of `count` entries from `a` and from `b` on are the same.
pub fn same(scratch: &[u32; SCRATCH], a: usize, b: usize, count: usize) -> bool
    requires { (a + count ≤ scratch_length) × (b + count ≤ scratch_length) }
    ensures { Decides result (Agree scratch.now a b count) }
{
    scratch[a..a + count] == scratch[b..b + count]
}

// The first place of `slot` from `from` up to `to`, if it has one.
pub fn place(scratch: &[u32; SCRATCH], from: usize, to: usize, slot: u32) -> Option<usize>
    requires { (from ≤ to) × (to ≤ scratch_length) }
    ensures { PlaceOf scratch.now from to slot result }
{
    let k = scratch[from..to].iter().position(|s| *s == slot)?;
    Some(from + k)
}

// Moves the `count` entries from `from` on down to `to`.
pub fn shift(scratch: &mut [u32; SCRATCH], to: usize, from: usize, count: usize)
    requires { (to ≤ from) × (from + count ≤ scratch_length) }
    ensures { Moved scratch.old scratch.new to from count }
{
    scratch.copy_within(from..from + count, to);
}

// A field falls from one slot to another.
pub fn falls(part: &[i64], field: usize, a: u32, b: u32) -> bool
    ensures { result ≡ lt_z (cell part.now field b) (cell part.now field a) }
{
    table::is_above(part, field, a, table::get(part, field, b))
}

// A field falls from slot to slot, from place `from` up to `to`.
pub fn falling(part: &[i64], field: usize, scratch: &[u32; SCRATCH], from: usize, to: usize) -> bool
    requires { (from ≤ to) × (to ≤ scratch_length) }
    ensures { Decides result (Every (FallsHere part.now field scratch.now) from (to - 1)) }
{
    scratch[from..to].is_sorted_by(|a, b| falls(part, field, *a, *b))
}

// A slot's field is from `low` to `high`.
fn within(part: &[i64], field: usize, slot: u32, low: i64, high: i64) -> bool
    ensures { result ≡ between low high (cell part.now field slot) }
{
    table::at_least(part, field, slot, low) && table::at_most(part, field, slot, high)
}

// A slot's offer is in range.
fn ranged(part: &[i64], slot: u32) -> bool
    ensures { result ≡ offer_in_range (item_at part.now slot).offer }
{
    within(part, table::NUMBER, slot, 1, 9_999)
        && within(part, table::RATE, slot, -100_000, 100_000)
        && within(part, table::BASE, slot, -1_000_000_000, 1_000_000_000)
}

// All slots from place `from` up to `to` hold offers in range.
pub fn all_ranged(part: &[i64], scratch: &[u32; SCRATCH], from: usize, to: usize) -> bool
    requires { (from ≤ to) × (to ≤ scratch_length) }
    ensures { Decides result (Every (RangedHere part.now scratch.now) from to) }
{
    scratch[from..to].iter().all(|slot| ranged(part, *slot))
}
