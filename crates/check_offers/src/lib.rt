// The offers of a part with their envelopes, as parts of the check of a book's part. Any words are safe.
#![tactic(auto)]

ghost use Rattle.std.specs.Prelude.{◌≡◌, ℕ, ◌≤◌};
ghost use Rattle.table.specs.Fields.{most_slots};
ghost use Rattle.table.specs.Words.{Words};
ghost use Rattle.check_trees.specs.Deciding.{Decides};
ghost use Rattle.check_offers.specs.OfferWalks.{Walks};
ghost use Rattle.check_offers.specs.Headers.{Header};
ghost use Rattle.check_offers.specs.Orders.{Orders};
ghost use Rattle.check_offers.specs.Envelops.{Envelops};
ghost use Rattle.check_offers.specs.OffersFound.{Offers};

// The envelope of leaf `x` is its own line.
fn single(x: u32, scratch: &mut [u32; check_trees::SCRATCH], at: usize) -> Option<usize>
    ensures { x ≤ most_slots → (w : Words) (limit : ℕ) → Walks w x limit scratch.old scratch.new at result }
{
    if check_trees::SECOND_HALF <= at {
        return None;
    }
    scratch[at] = x;
    Some(at + 1)
}

// Walks the offers from node `x` on: both children, then the merge of their envelopes. The whole envelope of `x` is left from place `at`
// on; what stands before that is not touched. `limit` bounds the tree's height.
fn walk(
    part: &[i64],
    x: u32,
    scratch: &mut [u32; check_trees::SCRATCH],
    at: usize,
    limit: u32,
) -> Option<usize>
    ensures { Walks part.now x limit scratch.old scratch.new at result }
{
    if x <= table::MOST_SLOTS {
        return single(x, scratch, at);
    }
    if limit == 0 {
        return None;
    }
    let left = table::child(part, table::OFFERS, false, x);
    let mid = walk(part, left, scratch, at, limit - 1)?;
    let right = table::child(part, table::OFFERS, true, x);
    let to = walk(part, right, scratch, mid, limit - 1)?;
    check_merge::merge(part, x, scratch, at, mid, to)
}

// The header has the offers' root at node `x`, and their envelope's at node `e`.
fn header(part: &[i64], x: u32, e: u32) -> bool
    ensures { Decides result (Header part.now x e) }
{
    check_trees::tells(part, table::OFFERS_ROOT, x)
        && check_trees::tells(part, table::ENVELOPE_ROOT, e)
}

// A tree of offers stands at node `x`: offers in range, whose rates fall.
fn ordered(part: &[i64], x: u32, scratch: &mut [u32; check_trees::SCRATCH]) -> bool
    ensures { Orders part.now x scratch.old scratch.new result }
{
    let Some(f) = check_trees::fill(part, table::OFFERS, x, scratch, 0, table::MOST_LEVELS) else {
        return false;
    };
    let next = f.next;
    if !check_trees::all_ranged(part, scratch, 0, next) {
        return false;
    }
    check_trees::falling(part, table::RATE, scratch, 0, next)
}

// Envelopes are stored with the tree of offers from node `x` on, and node `e` of the pieces is the root of the whole one.
fn enveloped(part: &[i64], x: u32, e: u32, scratch: &mut [u32; check_trees::SCRATCH]) -> bool
    ensures { Envelops part.now x e scratch.old scratch.new result }
{
    let Some(next) = walk(part, x, scratch, 0, table::MOST_LEVELS) else {
        return false;
    };
    check_merge::matches(part, e, scratch, 0, next)
}

// The tree of offers of a part, with its envelopes. The slots of its leaves are left in order from place 0 up to the one that is handed back.
pub fn offers(part: &[i64], scratch: &mut [u32; check_trees::SCRATCH]) -> Option<usize>
    ensures { Offers part.now scratch.old scratch.new result }
{
    let x = form::offers_root(part);
    let e = form::envelope_root(part);
    if !header(part, x, e) {
        return None;
    }
    if x == 0 {
        return (e == 0).then_some(0);
    }
    if !ordered(part, x, scratch) {
        return None;
    }
    if !enveloped(part, x, e, scratch) {
        return None;
    }
    // the walk wrote over the slots
    let f = check_trees::fill(part, table::OFFERS, x, scratch, 0, table::MOST_LEVELS)?;
    Some(f.next)
}
