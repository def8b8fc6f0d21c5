// Offers in a plain array, and what a scan of all of them answers. Slot i of 64 has its number at i, its rate at 64 + i and its base at
// 128 + i; a number 0 is a vacant slot. Nothing here knows how a book works.
ghost use Rattle.std.specs.Prelude.{◌≡◌};
ghost use Rattle.offers.specs.Bounded.{bounded};

pub(crate) fn number(os: &[i64; 192], i: usize) -> i64 {
    if i < 64 {
        return os[i];
    }
    0
}

pub(crate) fn rate(os: &[i64; 192], i: usize) -> i64 {
    if i < 64 {
        return os[64 + i];
    }
    0
}

pub(crate) fn base(os: &[i64; 192], i: usize) -> i64 {
    if i < 64 {
        return os[128 + i];
    }
    0
}

pub(crate) fn put(os: &mut [i64; 192], i: usize, number: i64, rate: i64, base: i64) {
    if i < 64 {
        os[i] = number;
        os[64 + i] = rate;
        os[128 + i] = base;
    }
}

// Slot i as slot j of `from` is.
pub(crate) fn copy(os: &mut [i64; 192], i: usize, from: &[i64; 192], j: usize) {
    put(os, i, number(from, j), rate(from, j), base(from, j));
}

// The slot with that number, or 64; of number 0 the first vacant one.
pub(crate) fn with_number(os: &[i64; 192], sought: i64) -> usize {
    (0..64).find(|i| number(os, *i) == sought).unwrap_or(64)
}

// Where no cause declines the call, an offer in place of the one with the number `old`; 0 is a vacant slot's.
pub(crate) fn written(
    os: [i64; 192],
    cause: i64,
    old: i64,
    number: i64,
    rate: i64,
    base: i64,
) -> [i64; 192] {
    let mut after = os;
    if cause == 0 {
        let slot = with_number(&os, old);
        put(&mut after, slot, number, rate, base);
    }
    after
}

// Some rate is from `low` to `high`.
pub(crate) fn has_rate(os: &[i64; 192], low: i64, high: i64) -> bool {
    (0..64).any(|i| number(os, i) != 0 && low <= rate(os, i) && rate(os, i) <= high)
}

pub(crate) fn count(os: &[i64; 192]) -> u32 {
    let mut n: u32 = 0;
    for i in 0..64 {
        n = n.wrapping_add((number(os, i) != 0) as u32);
    }
    n
}

// Some rate of `l` is not above some rate of `r`.
pub(crate) fn mixed(l: &[i64; 192], r: &[i64; 192]) -> bool {
    (0..64).any(|i| number(l, i) != 0 && has_rate(r, rate(l, i), 100_000))
}

// Of two slots the first where the test holds.
fn either(test: bool, i: usize, j: usize) -> usize {
    if test { i } else { j }
}

// Slot i has the rate of slot j and stands before it: by the lower base, of equal bases by the lower number.
fn is_ahead(os: &[i64; 192], i: usize, j: usize) -> bool {
    let a = base(os, i);
    let b = base(os, j);
    let lower = (a < b) | ((a == b) & (number(os, i) < number(os, j)));
    (rate(os, i) == rate(os, j)) & lower
}

// No offer of its rate stands before e.
fn is_first(os: &[i64; 192], e: usize) -> bool {
    (0..64).all(|i| number(os, i) == 0 || !is_ahead(os, i, e))
}

// ---- the cheapest

// `value` where it is from `low` to `high`, and 0 for any other: no product of such values wraps.
fn bounded(low: i64, high: i64, value: i64) -> i64
    ensures { result ≡ bounded low high value }
{
    if value < low {
        return 0;
    }
    if high < value {
        return 0;
    }
    value
}

pub(crate) fn price(os: &[i64; 192], i: usize, load: i64) -> i64 {
    let b = bounded(-1_000_000_000, 1_000_000_000, base(os, i));
    let r = bounded(-100_000, 100_000, rate(os, i));
    let q = bounded(-1_000_000, 1_000_000, load);
    b + r * q
}

// Of two slots the cheaper; of equal prices the one with the higher rate where `higher`, else the one with the lower; within a rate the first.
fn cheaper(os: &[i64; 192], load: i64, higher: bool, best: usize, i: usize) -> usize {
    let p = price(os, i, load);
    let q = price(os, best, load);
    let first = (higher & (rate(os, best) < rate(os, i)))
        | (!higher & (rate(os, i) < rate(os, best)))
        | is_ahead(os, i, best);
    let wins = (p < q) | ((p == q) & first);
    either((number(os, i) != 0) & ((best > 63) | wins), i, best)
}

// Of the offers at the least price the slot of the one with the highest rate where `higher`, else of the one with the lowest; 64 where none is live.
pub(crate) fn cheapest(os: &[i64; 192], load: i64, higher: bool) -> usize {
    (0..64).fold(64, |best, i| cheaper(os, load, higher, best, i))
}

// ---- the offers under a price

// Slot i stands before slot j: by the higher rate, within a rate by the lower base, then by the lower number.
fn stands_before(os: &[i64; 192], i: usize, j: usize) -> bool {
    (rate(os, j) < rate(os, i)) | is_ahead(os, i, j)
}

// Slot i has an offer whose price at the load is strictly below `limit`.
fn is_under(os: &[i64; 192], load: i64, limit: i64, i: usize) -> bool {
    (number(os, i) != 0) & (price(os, i, load) < limit)
}

// Of two slots the one that stands before the other, i only where it is under the limit and behind slot `last`.
fn sooner(os: &[i64; 192], load: i64, limit: i64, last: usize, best: usize, i: usize) -> usize {
    let behind = (last > 63) | stands_before(os, last, i);
    let first = (best > 63) | stands_before(os, i, best);
    either(is_under(os, load, limit, i) & behind & first, i, best)
}

// The first slot under the limit behind slot `last`, with 64 the first of all; 64 where there is none.
pub(crate) fn next_under(os: &[i64; 192], load: i64, limit: i64, last: usize) -> usize {
    (0..64).fold(64, |best, i| sooner(os, load, limit, last, best, i))
}

// ---- the pieces

#[derive(Drop)]
pub struct Ratio {
    pub numerator: i64,
    pub denominator: i64,
}

// The crossing of two offers, the one with the higher rate first.
pub(crate) fn crossing(os: &[i64; 192], i: usize, j: usize) -> Ratio {
    let a = bounded(-1_000_000_000, 1_000_000_000, base(os, i));
    let b = bounded(-1_000_000_000, 1_000_000_000, base(os, j));
    let r = bounded(-100_000, 100_000, rate(os, i));
    let s = bounded(-100_000, 100_000, rate(os, j));
    Ratio {
        numerator: b - a,
        denominator: r - s,
    }
}

// The crossing of a and b lies left of the crossing of c and d.
fn crosses_before(os: &[i64; 192], a: usize, b: usize, c: usize, d: usize) -> bool {
    let x = crossing(os, a, b);
    let y = crossing(os, c, d);
    let nn = bounded(-2_000_000_000, 2_000_000_000, x.numerator);
    let mm = bounded(-2_000_000_000, 2_000_000_000, y.numerator);
    let dd = bounded(-200_000, 200_000, x.denominator);
    let ee = bounded(-200_000, 200_000, y.denominator);
    nn * ee < mm * dd
}

// Of two offers with a higher rate than e, whether i crosses e further right; with `below`, of two with a lower rate whether further left.
fn is_nearer(os: &[i64; 192], e: usize, below: bool, best: usize, i: usize) -> bool {
    if below {
        return crosses_before(os, e, i, e, best);
    }
    crosses_before(os, best, e, i, e)
}

// The nearer of two slots, i only where its offer is on that side of e.
fn nearer(os: &[i64; 192], e: usize, below: bool, best: usize, i: usize) -> usize {
    let at = rate(os, i);
    let mid = rate(os, e);
    if (number(os, i) == 0) | (at == mid) | (below != (at < mid)) {
        return best;
    }
    either((best > 63) | is_nearer(os, e, below, best, i), i, best)
}

// The slot whose crossing with e is the nearest on that side, or 64.
fn nearest(os: &[i64; 192], e: usize, below: bool) -> usize {
    (0..64).fold(64, |best, i| nearer(os, e, below, best, i))
}

// The first of its rate, and at some rational load strictly cheaper than every offer of another: right of each crossing with a higher rate, left
// of each with a lower one.
fn is_piece(os: &[i64; 192], e: usize) -> bool {
    if (number(os, e) == 0) | !is_first(os, e) {
        return false;
    }
    let a = nearest(os, e, false);
    let c = nearest(os, e, true);
    (a > 63) | (c > 63) | crosses_before(os, a, e, e, c)
}

// Of two slots the one with the higher rate, i only where it is a piece below that rate.
fn higher(os: &[i64; 192], below: i64, best: usize, i: usize) -> usize {
    let at = rate(os, i);
    if (below <= at) | ((best < 64) & (at <= rate(os, best))) {
        return best;
    }
    either(is_piece(os, i), i, best)
}

// The piece with the highest rate below `below`, or 64.
pub(crate) fn next_piece(os: &[i64; 192], below: i64) -> usize {
    (0..64).fold(64, |best, i| higher(os, below, best, i))
}
