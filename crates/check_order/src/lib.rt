// The order of a part, its tree of all live offers by rank, and the tree of offers as the first of each rate: parts of the check of a book's
// part. Any words are safe: every loop is bounded.
#![tactic(auto)]

ghost use Rattle.std.specs.Prelude.{◌≡◌, T, ◌≤◌};
ghost use Rattle.offers.specs.Offers.{offer_in_range};
ghost use Rattle.check_trees.specs.Scratch.{scratch_length, second_half};
ghost use Rattle.check_trees.specs.Deciding.{Decides, Every};
ghost use Rattle.check_trees.specs.Loops.{RangedHere};
ghost use Rattle.check_trees.specs.Laid.{item_at};
ghost use Rattle.check_order.specs.Ranked.{rank_told, RankedHere};
ghost use Rattle.check_order.specs.OrderTrees.{Trees};
ghost use Rattle.check_order.specs.Heads.{new_rate, Heads};
ghost use Rattle.check_order.specs.OrderFound.{Header, Order};

// A slot's rank is that of its offer.
fn ranked(part: &[i64], slot: u32) -> bool
    requires { T (offer_in_range (item_at part.now slot).offer) }
    ensures { result ≡ rank_told part.now slot }
{
    let number = table::get(part, table::NUMBER, slot);
    let rate = table::get(part, table::RATE, slot);
    let base = table::get(part, table::BASE, slot);
    let rank = form::rank_of(number, rate, base);
    table::is_equal(part, table::RANK, slot, rank)
}

// .. and so for the slot at each place from `from` up to `to`.
fn all_ranked(part: &[i64], scratch: &[u32; check_trees::SCRATCH], from: usize, to: usize) -> bool
    requires { (from ≤ to) × (to ≤ scratch_length) × Every (RangedHere part.now scratch.now) from to }
    ensures { Decides result (Every (RankedHere part.now scratch.now) from to) }
{
    for slot in &scratch[from..to] {
        if !ranked(part, *slot) {
            return false;
        }
    }
    true
}

// Node `root` of the order is the root of a balanced tree of `n` offers in range, each with its rank, by falling rank. Their slots are left
// from place 4,096 on.
fn order_tree(part: &[i64], root: u32, scratch: &mut [u32; check_trees::SCRATCH], n: usize) -> bool
    requires { (n ≤ second_half) }
    ensures { Trees part.now root scratch.old scratch.new n result }
{
    let Some(f) = check_trees::fill(
        part,
        table::ORDER,
        root,
        scratch,
        check_trees::SECOND_HALF,
        table::MOST_LEVELS,
    ) else {
        return false;
    };
    let next = f.next;
    if next != check_trees::SECOND_HALF + n {
        return false;
    }
    if !check_trees::all_ranged(part, scratch, check_trees::SECOND_HALF, next) {
        return false;
    }
    if !all_ranked(part, scratch, check_trees::SECOND_HALF, next) {
        return false;
    }
    check_trees::falling(part, table::RANK, scratch, check_trees::SECOND_HALF, next)
}

// Slot `s` begins a new rate behind slot `last`, and behind 0, which is none, in any case.
fn is_new(part: &[i64], last: u32, s: u32) -> bool
    ensures { result ≡ new_rate part.now last s }
{
    if last < 1 {
        return true;
    }
    check_trees::falls(part, table::RATE, last, s)
}

// The slots at places 0 up to `m` are the first of each rate of those at places 4,096 up to 4,096 + `n`.
fn heads(part: &[i64], scratch: &[u32; check_trees::SCRATCH], m: usize, n: usize) -> bool
    requires { (m ≤ second_half) × (n ≤ second_half) }
    ensures { Decides result (Heads part.now scratch.now m n) }
{
    let mut j = 0;
    let mut last: u32 = 0;
    for s in &scratch[check_trees::SECOND_HALF..check_trees::SECOND_HALF + n] {
        if !is_new(part, last, *s) {
            continue;
        }
        if m <= j {
            return false;
        }
        if check_trees::entry(scratch, j) != *s {
            return false;
        }
        last = *s;
        j += 1;
    }
    j == m
}

// The header has the order's root at node `root`, and a live count of `n`.
fn header(part: &[i64], root: u32, n: u32) -> bool
    ensures { Decides result (Header part.now root n) }
{
    check_trees::tells(part, table::ORDER_ROOT, root)
        && check_trees::tells(part, table::LIVE_COUNT, n)
}

// The order of a part, of `n` offers, and the slots at places 0 up to `m` are the first of each rate. The slots of the order are left from
// place 0 on.
pub fn order(part: &[i64], scratch: &mut [u32; check_trees::SCRATCH], m: usize, n: u32) -> bool
    requires { (m ≤ second_half) × (n ≤ second_half) }
    ensures { Order part.now scratch.old scratch.new m n result }
{
    let root = table::number_at(part, table::ORDER_ROOT, table::MOST_NODES);
    if !header(part, root, n) {
        return false;
    }
    if root == 0 {
        return n == 0 && m == 0;
    }
    let count = n as usize;
    if !order_tree(part, root, scratch, count) {
        return false;
    }
    if !heads(part, scratch, m, count) {
        return false;
    }
    check_trees::shift(scratch, 0, check_trees::SECOND_HALF, count);
    true
}
