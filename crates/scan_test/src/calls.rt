// Each call on a book beside the same call on the plain slots; what differs is counted.
use crate::world::{Place, Tally, World};
use crate::{expected, slots, world};
use book::{Declined, Update};

// ---- open, post, withdraw and take_back

// An opening that is to be declined for that cause; 0 for none.
pub(crate) fn open(w: World, start: usize, room: i64, cause: i64) -> World {
    let mut words = w.words;
    let same = match book::open(&mut words, start, room) {
        Ok(()) => cause == 0,
        Err(c) => (cause != 0) & (c.number() == cause),
    };
    let told = world::counted(w.told, 0, 0, 0, same);
    let mut v = w;
    v.words = words;
    v.told = told;
    v
}

// An update that is to be declined for that cause, or where it is 0 to leave so many offers live.
fn is_same(r: Result<Update, Declined>, cause: i64, count: u32) -> bool {
    match r {
        Ok(update) => (cause == 0) & (update.live == count as i64),
        Err(c) => (cause != 0) & (c.number() == cause),
    }
}

// The world after an update of its book: the words and slots that it left.
fn updated(
    w: World,
    words: [i64; 7000],
    os: [i64; 192],
    r: Result<Update, Declined>,
    cause: i64,
) -> World {
    let other = w.other;
    let same = is_same(r, cause, slots::count(&os));
    let told = world::counted(w.told, 0, 0, 0, same);
    World {
        words,
        os,
        other,
        told,
    }
}

pub(crate) fn post(w: World, p: Place, number: i64, rate: i64, base: i64) -> World {
    let mut words = w.words;
    let os = w.os;
    let cause = expected::post_cause(&os, p.room, number, rate, base);
    let r = book::post(&mut words, p.start, number, rate, base);
    let after = slots::written(os, cause, 0, number, rate, base);
    updated(w, words, after, r, cause)
}

pub(crate) fn withdraw(w: World, start: usize, number: i64) -> World {
    let mut words = w.words;
    let os = w.os;
    let cause = expected::withdraw_cause(&os, number);
    let r = book::withdraw(&mut words, start, number);
    let after = slots::written(os, cause, number, 0, 0, 0);
    updated(w, words, after, r, cause)
}

// Takes the last update back, where there was one: the slots are those before it.
pub(crate) fn take_back(w: World, start: usize, before: [i64; 192]) -> World {
    let mut words = w.words;
    let os = w.os;
    if slots::count(&os) == slots::count(&before) {
        return w;
    }
    let r = book::take_back(&mut words, start);
    updated(w, words, before, r, 0)
}

// ---- query and listing

// `is_open` says whether there is a book at `start`.
pub(crate) fn query(
    table: &[i64],
    start: usize,
    is_open: bool,
    os: &[i64; 192],
    load: i64,
    t: Tally,
) -> Tally {
    let cause = expected::query_cause(is_open, os, load);
    let i = slots::cheapest(os, load, false);
    let j = slots::cheapest(os, load, true);
    let same = match book::query(table, start, load) {
        Ok(found) => {
            (cause == 0)
                & (found.number == slots::number(os, i))
                & (found.price == slots::price(os, i, load))
                & (found.second == slots::number(os, j))
        }
        Err(c) => (cause != 0) & (c.number() == cause),
    };
    world::counted(t, 1, 0, 0, same)
}

// Of an output that is all 7: with room for the pieces it has their words and still 7 behind them, without it is declined and all 7.
pub(crate) fn listing(
    table: &[i64],
    start: usize,
    os: &[i64; 192],
    out: &mut [i64],
    t: Tally,
) -> Tally {
    let p = expected::all_pieces(os);
    let fits = p.count as usize <= out.len() / 3;
    let words = expected::words_listed(&p, fits);
    let same = match book::listing(table, start, out) {
        Ok(n) => fits & (n == p.count as i64),
        Err(c) => !fits & (c == Declined::OutputTooShort),
    };
    world::counted(t, 0, 1, 0, same & expected::all_same(out, &words))
}
