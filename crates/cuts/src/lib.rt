// Piece trees in the table, cut by rate.
#![tactic(auto)]

ghost use Rattle.std.specs.Prelude.{◌≡◌};
ghost use Rattle.table.specs.Layout.{cap};
ghost use Rattle.cuts.specs.PieceCuts.{CutAt, CutBehind, CutBefore};
ghost use Rattle.cuts.specs.Cutting.{least_rate};

// No offer's rate reaches it.
const MOST_RATE: i64 = 1_000_000;

// The least rate in front of a cut: for a strict one a rate more.
fn least_rate(strict: bool, rate: i64) -> i64
    ensures { result ≡ least_rate strict rate }
{
    if strict {
        if rate < MOST_RATE {
            return rate + 1;
        }
        return MOST_RATE;
    }
    rate
}

// Cuts a piece tree by rate: in front the pieces whose rate is at least `rate`, or above it where the cut is strict. `c` is the capacity.
pub fn cut_in(part: &mut [i64], c: u32, strict: bool, rate: i64, x: u32) -> descents::Cut
    requires { c ≡ cap part.old }
    ensures { CutAt strict rate x part.old part.new result.front result.back }
{
    let least = least_rate(strict, rate);
    descents::split_in(
        part,
        c,
        table::PIECES,
        table::RATE,
        least,
        x,
        table::MOST_LEVELS,
    )
}

// Cuts a piece tree behind the rate in slot `u`. No piece of it has a rate below that in slot `s`, so that nothing lies behind `s`.
pub fn cut_behind(part: &mut [i64], c: u32, u: u32, s: u32, x: u32) -> descents::Cut
    requires { c ≡ cap part.old }
    ensures { CutBehind u s x part.old part.new result.front result.back }
{
    if u == s {
        return descents::Cut { front: x, back: 0 };
    }
    let rate = table::get_in(part, c, table::RATE, u);
    cut_in(part, c, false, rate, x)
}

// Cuts a piece tree before the rate in slot `v`. Before its first piece, which has the highest rate, there is nothing.
pub fn cut_before(part: &mut [i64], c: u32, v: u32, x: u32) -> descents::Cut
    requires { c ≡ cap part.old }
    ensures { CutBefore v x part.old part.new result.front result.back }
{
    if v == descents::end_in(part, c, table::PIECES, false, x) {
        return descents::Cut { front: 0, back: x };
    }
    let rate = table::get_in(part, c, table::RATE, v);
    cut_in(part, c, true, rate, x)
}

pub fn cut(part: &mut [i64], strict: bool, rate: i64, x: u32) -> descents::Cut
    ensures { CutAt strict rate x part.old part.new result.front result.back }
{
    let c = table::capacity(part);
    cut_in(part, c, strict, rate, x)
}
