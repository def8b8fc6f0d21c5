// Reports of the offers under a price, beside a scan of all offers.
use crate::world::{Place, Tally};
use crate::{expected, makers, slots, world};

// What is asked: where, and of which load and price; `is_open` says whether there is a book at `start`.
#[derive(Clone, Copy)]
pub struct Asked {
    pub start: usize,
    pub is_open: bool,
    pub load: i64,
    pub limit: i64,
}

// Of an output that is all 7: with room for the offers it has their words and still 7 behind them, declined it is all 7.
fn report(table: &[i64], a: Asked, p: &expected::Pieces, out: &mut [i64], t: Tally) -> Tally {
    let fits = p.count as usize <= out.len() / 3;
    let cause = expected::report_cause(a.is_open, a.load, a.limit, fits);
    let words = expected::words_listed(p, cause == 0);
    let same = match book::report(table, a.start, a.load, a.limit, out) {
        Ok(n) => (cause == 0) & (n == p.count as i64),
        Err(c) => (cause != 0) & (c.number() == cause),
    };
    world::compared(t, same & expected::all_same(out, &words))
}

// The second output lacks a word for two offers.
pub(crate) fn both(table: &[i64], a: Asked, os: &[i64; 192], t: Tally) -> Tally {
    let mut out = [7i64; 192];
    let mut short = [7i64; 5];
    let p = expected::all_under(os, a.load, a.limit);
    let told = report(table, a, &p, &mut out, t);
    report(table, a, &p, &mut short, told)
}

// The price of some slot, which is not below itself; the ends of the range, and one beyond each.
fn limit(os: &[i64; 192], load: i64, j: u32) -> i64 {
    match j % 7 {
        3 => 101_000_000_001,
        4 => -101_000_000_001,
        5 => 101_000_000_000,
        6 => -101_000_000_000,
        _ => slots::price(os, j as usize, load),
    }
}

// The loads of a sweep in great leaps, those beyond the range among them: with a price that is beyond it too, and with one that is not.
fn nth(table: &[i64], p: Place, os: &[i64; 192], j: u32, t: Tally) -> Tally {
    let load = makers::load(p.kind, 28 * (j % 64) % 85);
    let asked = Asked {
        start: p.start,
        is_open: true,
        load,
        limit: limit(os, load, j),
    };
    both(table, asked, os, t)
}

pub(crate) fn all(table: &[i64], p: Place, os: &[i64; 192], t: Tally) -> Tally {
    let mut told = t;
    for j in 0..14u32 {
        told = nth(table, p, os, j, told);
    }
    told
}
