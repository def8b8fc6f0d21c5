// What a comparison of two envelopes reads and computes, safe whatever the words are; and where a point lies against a line, for it and for a query.
#![tactic(auto)]

ghost use Rattle.std.specs.Prelude.{◌≡◌};
ghost use Rattle.std.specs.Int.Signed.{le_z};
ghost use Rattle.prices.specs.Positions.{position_of, is_apart};
ghost use Rattle.prices.specs.Prices.{rate_at, base_at, numerator_at, denominator_at, crossing_price_at, Priced, price_in, kept_in, above_at};

use std::cmp::Ordering;
use table::Part;

pub fn rate(part: &Part<'_>, slot: u32) -> i64
    ensures { result ≡ rate_at part.now slot }
{
    table::bounded(-100_000, 100_000, part.get(table::RATE, slot))
}

pub fn base(part: &Part<'_>, slot: u32) -> i64
    ensures { result ≡ base_at part.now slot }
{
    table::bounded(-1_000_000_000, 1_000_000_000, part.get(table::BASE, slot))
}

// The crossing with the next piece: where the words hold one, its numerator and its denominator.
pub fn numerator(part: &Part<'_>, slot: u32) -> i64
    ensures { result ≡ numerator_at part.now slot }
{
    table::bounded(
        -2_000_000_000,
        2_000_000_000,
        part.get(table::NUMERATOR, slot),
    )
}

pub fn denominator(part: &Part<'_>, slot: u32) -> i64
    ensures { result ≡ denominator_at part.now slot }
{
    table::bounded(0, 200_000, part.get(table::DENOMINATOR, slot))
}

// The price of a slot's line at the load n over d, times d.
fn price(part: &Part<'_>, slot: u32, n: i64, d: i64) -> i64
    requires { Priced n d }
    ensures { result ≡ price_in part.now slot n d }
{
    base(part, slot) * d + rate(part, slot) * n
}

// The price of a slot's line at the crossing that the slot keeps, times its denominator.
pub fn crossing_price(part: &Part<'_>, slot: u32) -> i64
    ensures { result ≡ crossing_price_at part.now slot }
{
    price(part, slot, numerator(part, slot), denominator(part, slot))
}

// The one comparison of a point with a line, less where the point lies below it: by the point's price, and the line's at the point's load.
pub fn compare(point: i64, line: i64) -> Ordering
    ensures { result ≡ position_of point line }
{
    point.cmp(&line)
}

// Not on it: on it a query has its tie. This reading and the next give a test, and not three ways: where the outcome only selects a value, no branch comes
// of it.
pub fn apart(point: i64, line: i64) -> bool
    ensures { result ≡ is_apart (position_of point line) }
{
    compare(point, line).is_ne()
}

// On it or above: what the three cases of a meeting ask, and where a query goes on to the right.
pub fn on_or_above(point: i64, line: i64) -> bool
    ensures { result ≡ le_z line point }
{
    compare(point, line).is_ge()
}

// The slot in which a node is kept.
fn kept_in(x: u32) -> u32
    ensures { result ≡ kept_in x }
{
    if x <= table::MOST_SLOTS {
        return x;
    }
    x - table::MOST_SLOTS
}

// Whether the crossing that slot `p` keeps is on or above the local envelope of node `x`: at that load one of the envelope's lines is
// at most the line of slot `p`. Slot 0 stands for a missing end.
pub fn above(ours: &Part<'_>, p: u32, other: &Part<'_>, x: u32) -> bool
    ensures { result ≡ above_at ours.now p other.now x }
{
    if p < 1 {
        return false;
    }
    let n = numerator(ours, p);
    let d = denominator(ours, p);
    let y = price(ours, p, n, d);
    let s = kept_in(x);
    if on_or_above(y, price(other, s, n, d)) {
        return true;
    }
    if x <= table::MOST_SLOTS {
        return false;
    }
    let t = other.link(table::NEXT_PIECE, s);
    on_or_above(y, price(other, t, n, d))
}
