// What each call on a book is to answer, told by a scan of all offers.
use crate::slots;

fn is_outside(low: i64, high: i64, value: i64) -> bool {
    (value < low) | (high < value)
}

// A cause where its test holds, or else what the later tests told: with no way through the code of its own, a test costs the checker less.
fn cause(test: bool, cause: i64, later: i64) -> i64 {
    if test { cause } else { later }
}

// The number of the cause for which a post is declined, or 0.
pub(crate) fn post_cause(os: &[i64; 192], room: u32, number: i64, rate: i64, base: i64) -> i64 {
    let full = cause(room <= slots::count(os), 7, 0);
    let number_live = cause(slots::with_number(os, number) < 64, 5, full);
    let base_outside = cause(
        is_outside(-1_000_000_000, 1_000_000_000, base),
        15,
        number_live,
    );
    let rate_outside = cause(is_outside(-100_000, 100_000, rate), 14, base_outside);
    cause(is_outside(1, 9_999, number), 4, rate_outside)
}

pub(crate) fn withdraw_cause(os: &[i64; 192], number: i64) -> i64 {
    let unknown = cause(slots::with_number(os, number) > 63, 8, 0);
    cause(is_outside(1, 9_999, number), 4, unknown)
}

pub(crate) fn query_cause(is_open: bool, os: &[i64; 192], load: i64) -> i64 {
    let empty = cause(slots::count(os) < 1, 9, 0);
    let outside = cause(is_outside(-1_000_000, 1_000_000, load), 16, empty);
    cause(!is_open, 3, outside)
}

// `fits` says whether the output has room for the offers reported.
pub(crate) fn report_cause(is_open: bool, load: i64, limit: i64, fits: bool) -> i64 {
    let short = cause(!fits, 10, 0);
    let load_outside = cause(is_outside(-1_000_000, 1_000_000, load), 16, short);
    let price_outside = cause(
        is_outside(-101_000_000_000, 101_000_000_000, limit),
        4,
        load_outside,
    );
    cause(!is_open, 3, price_outside)
}

// ---- the pieces, and the offers under a price

// How many pieces or offers there are, and their words with 7 behind them.
#[derive(Drop)]
pub struct Pieces {
    pub count: u32,
    pub words: [i64; 192],
}

fn put_three(words: &mut [i64; 192], k: usize, first: i64, second: i64, third: i64) {
    if k < 64 {
        words[3 * k] = first;
        words[3 * k + 1] = second;
        words[3 * k + 2] = third;
    }
}

// Of each piece its number and its crossing with the next, 0 and 0 where there is none.
fn put_piece(words: &mut [i64; 192], k: usize, number: i64, x: slots::Ratio) {
    put_three(words, k, number, x.numerator, x.denominator);
}

// Of each offer under a price its number, its rate and its base.
fn put_offer(words: &mut [i64; 192], k: usize, os: &[i64; 192], i: usize) {
    put_three(
        words,
        k,
        slots::number(os, i),
        slots::rate(os, i),
        slots::base(os, i),
    );
}

fn end(os: &[i64; 192], i: usize, j: usize) -> slots::Ratio {
    if j > 63 {
        return slots::Ratio {
            numerator: 0,
            denominator: 0,
        };
    }
    slots::crossing(os, i, j)
}

pub(crate) fn all_pieces(os: &[i64; 192]) -> Pieces {
    let mut words = [7; 192];
    let mut i = slots::next_piece(os, 100_001);
    for k in 0..64u32 {
        if i > 63 {
            return Pieces { count: k, words };
        }
        let j = slots::next_piece(os, slots::rate(os, i));
        put_piece(&mut words, k as usize, slots::number(os, i), end(os, i, j));
        i = j;
    }
    Pieces { count: 64, words }
}

pub(crate) fn all_under(os: &[i64; 192], load: i64, limit: i64) -> Pieces {
    let mut words = [7; 192];
    let mut i = slots::next_under(os, load, limit, 64);
    for k in 0..64u32 {
        if i > 63 {
            return Pieces { count: k, words };
        }
        put_offer(&mut words, k as usize, os, i);
        i = slots::next_under(os, load, limit, i);
    }
    Pieces { count: 64, words }
}

// What an output that is all 7 has after a listing or a report.
pub(crate) fn words_listed(p: &Pieces, fits: bool) -> [i64; 192] {
    if fits { p.words } else { [7; 192] }
}

// Every word of the output, to its end.
pub(crate) fn all_same(out: &[i64], words: &[i64; 192]) -> bool {
    words.starts_with(out)
}

// ---- two books that meet

// The offers of both in one array: those of the left in slots 0 to 31, those of the right in slots 32 to 63.
pub(crate) fn both(l: &[i64; 192], r: &[i64; 192]) -> [i64; 192] {
    let mut all = [0i64; 192];
    for i in 0..32 {
        slots::copy(&mut all, i, l, i);
        slots::copy(&mut all, i + 32, r, i);
    }
    all
}

pub(crate) fn meet_cause(are_open: bool, l: &[i64; 192], r: &[i64; 192]) -> i64 {
    let mixed = cause(slots::mixed(l, r), 12, 0);
    let empty = cause((slots::count(l) < 1) | (slots::count(r) < 1), 9, mixed);
    cause(!are_open, 3, empty)
}

// The last piece of the left that has a piece of the right behind it, or 64.
pub(crate) fn seam(all: &[i64; 192]) -> usize {
    let mut i = slots::next_piece(all, 100_001);
    let most: u32 = 64;
    for k in 0..most {
        let j = slots::next_piece(all, slots::rate(all, i));
        if j > 31 {
            return i;
        }
        i = j;
    }
    64
}
