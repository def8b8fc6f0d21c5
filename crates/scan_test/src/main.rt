// Books of many kinds, each call compared with a scan of all offers: ties, offers that only touch, hidden ones that withdrawals uncover, all
// through one point, the ends of the ranges, capacity 1, a full book, many offers at few rates, and pairs of books that meet. Prints a line for
// each.
#![tactic(auto)]

mod calls;
mod expected;
mod makers;
mod meetings;
mod reports;
mod slots;
mod world;

use std::io;
use world::{Place, Tally, World};

// ---- parts of a run

fn queries(table: &[i64], p: Place, os: &[i64; 192], t: Tally) -> Tally {
    let mut told = t;
    for j in 0..85 {
        told = calls::query(table, p.start, true, os, makers::load(p.kind, j), told);
    }
    told
}

// The second output lacks a word for two pieces.
fn listings(table: &[i64], start: usize, os: &[i64; 192], t: Tally) -> Tally {
    let mut out = [7i64; 192];
    let mut short = [7i64; 5];
    let a = calls::listing(table, start, os, &mut out, t);
    calls::listing(table, start, os, &mut short, a)
}

// The queries, the listings and the reports after each update.
fn sweep(w: World, p: Place) -> World {
    let words = w.words;
    let os = w.os;
    let a = queries(&words, p, &os, w.told);
    let b = listings(&words, p.start, &os, a);
    world::with_tally(w, reports::all(&words, p, &os, b))
}

// Posts 30 offers, with a sweep after each.
fn fill(w: World, p: Place) -> World {
    let mut v = w;
    let mut m = makers::first();
    for i in 0..30u32 {
        let o = makers::made(p.kind, m);
        v = sweep(calls::post(v, p, o.number, o.rate, o.base), p);
        m = makers::next(m);
    }
    v
}

// A withdrawal, with a sweep after it; before that it is made once and taken back, with a sweep too.
fn withdraw_twice(w: World, p: Place, number: i64) -> World {
    let before = w.os;
    let gone = calls::withdraw(w, p.start, number);
    let back = sweep(calls::take_back(gone, p.start, before), p);
    sweep(calls::withdraw(back, p.start, number), p)
}

// Withdraws `n` offers, in another order.
fn drain(w: World, p: Place, n: u32) -> World {
    let mut v = w;
    for i in 0..n {
        let number = makers::number(p.kind, 7 * (i % 64) % 30);
        v = withdraw_twice(v, p, number);
    }
    v
}

// A number, a rate or a base out of range.
fn posts_outside(w: World, p: Place) -> World {
    let a = calls::post(w, p, 0, 50, 0);
    let b = calls::post(a, p, 10_000, 50, 0);
    let c = calls::post(b, p, 77, 100_001, 0);
    let d = calls::post(c, p, 77, -100_001, 0);
    let e = calls::post(d, p, 77, 50, 1_000_000_001);
    calls::post(e, p, 77, 50, -1_000_000_001)
}

// All three entries out of range, then rate and base; then the rate with a number that may be live, and the base with such a number and rate.
fn posts_in_trial_order(w: World, p: Place) -> World {
    let a = calls::post(w, p, 0, 100_001, 1_000_000_001);
    let b = calls::post(a, p, 77, 100_001, 1_000_000_001);
    let c = calls::post(b, p, 8, -100_001, 0);
    calls::post(c, p, 8, 100, -1_000_000_001)
}

// Posts of a number that may be live and at a rate that may be; withdrawals of a number out of range, of the one just posted, of one not live.
fn refusals(w: World, p: Place) -> World {
    let outside = posts_in_trial_order(posts_outside(w, p), p);
    let a = calls::post(outside, p, 8, 51, 0);
    let b = calls::post(a, p, 77, 100, 0);
    let c = calls::withdraw(b, p.start, 0);
    let d = calls::withdraw(c, p.start, 77);
    calls::withdraw(d, p.start, 78)
}

// Two books meet in either order, one with itself, and one with no book.
fn meet_ways(table: &[i64], l: &[i64; 192], r: &[i64; 192], t: Tally) -> Tally {
    let a = meetings::meeting(table, 17, l, 3200, r, true, t);
    let b = meetings::meeting(table, 3200, r, 17, l, true, a);
    let c = meetings::meeting(table, 17, l, 17, l, true, b);
    let d = meetings::meeting(table, 17, l, 5990, r, false, c);
    let e = meetings::meeting(table, 5990, r, 17, l, false, d);
    let f = meetings::meeting(table, 17, l, 8000, r, false, e);
    meetings::meeting(table, 8000, r, 17, l, false, f)
}

fn meet_all(w: World) -> World {
    let words = w.words;
    let l = w.os;
    let r = w.other;
    let told = meet_ways(&words, &l, &r, w.told);
    world::with_tally(w, told)
}

fn meet(w: World) -> World {
    let words = w.words;
    let l = w.os;
    let r = w.other;
    let told = meetings::meeting(&words, 17, &l, 3200, &r, true, w.told);
    world::with_tally(w, told)
}

// Withdraws an offer from each book, and lets them meet after each.
fn shrink(w: World, left: u32, right: u32) -> World {
    let mut v = w;
    for i in 0..30 {
        let at = 7 * (i % 64);
        v = meet(calls::withdraw(v, 17, makers::number(left, at % 30)));
        let u = calls::withdraw(
            world::swapped(v),
            3200,
            makers::number(right, (at + 7) % 30),
        );
        v = meet(world::swapped(u));
    }
    v
}

// ---- the runs

fn say_byte(rt: &impl Print, c: u8) -> io::Result<()> {
    let byte = [c];
    rt.write_all(&byte)
}

// The name of a run, with its colon.
fn say_name(rt: &impl Print, n: u32) -> io::Result<()> {
    let names =
        b"openings:offers that touch:one point:hidden offers:ends of the ranges:no rule:ties:capacity 1:full at 20:\
        one rate:three rates:eight rates:touching offers meet:hidden offers meet:ties meet:mixed rates:three rates meet:\
        eight rates meet:";
    let mut k: u32 = 0;
    for i in 0..234 {
        let c = names[i];
        if k == n {
            say_byte(rt, c)?;
        }
        k = k.wrapping_add((c == b':') as u32);
    }
    Ok(())
}

fn say(rt: &impl Print, label: &[u8], n: u32) -> io::Result<()> {
    rt.write_all(label)?;
    rt.print(n)
}

fn summary(rt: &impl Print, t: Tally) -> io::Result<()> {
    say(rt, b" calls ", t.calls)?;
    say(rt, b", queries ", t.queries)?;
    say(rt, b", listings ", t.listings)?;
    say(rt, b", meetings ", t.meetings)?;
    say(rt, b", differences ", t.differences)?;
    say_byte(rt, b'\n')
}

// A query and a report where there is no book.
fn ask_nothing(w: World, start: usize, load: i64) -> World {
    let words = w.words;
    let os = w.os;
    let a = calls::query(&words, start, false, &os, load, w.told);
    let asked = reports::Asked {
        start,
        is_open: false,
        load,
        limit: 101_000_000_001,
    };
    world::with_tally(w, reports::both(&words, asked, &os, a))
}

// Openings that are declined, one that just fits, and queries and reports where there is no book.
fn run_openings(w: World) -> World {
    let a = calls::open(w, 17, 0, 1);
    let b = calls::open(a, 8000, 4_097, 1);
    let c = calls::open(b, 17, 4_096, 2);
    let d = calls::open(c, 8000, 1, 2);
    let e = calls::open(d, 5849, 1, 2);
    let f = calls::open(ask_nothing(e, 5849, 1_000_001), 5848, 1, 0);
    ask_nothing(f, 8000, 5)
}

// A book of one kind: filled, half emptied, filled again and emptied.
fn run(w: World, kind: u32, room: u32) -> World {
    let p = Place {
        start: 17,
        room,
        kind,
    };
    let a = fill(calls::open(w, 17, room as i64, 0), p);
    let b = drain(refusals(a, p), p, 15);
    drain(fill(b, p), p, 32)
}

// Two books in one table that meet: empty, one of them empty, in each way, and while both shrink.
fn run_pair(w: World, kind: u32) -> World {
    let p = Place {
        start: 17,
        room: 32,
        kind,
    };
    let right = makers::below(kind);
    let q = Place {
        start: 3200,
        room: 30,
        kind: right,
    };
    let a = calls::open(calls::open(w, 17, 32, 0), 3200, 30, 0);
    let b = meet(fill(meet(a), p));
    let c = world::swapped(fill(world::swapped(b), q));
    shrink(meet_all(c), kind, right)
}

// Of each run the kind of its book, or of the first of its two; and of each with one book, the room.
const KINDS: [u32; 18] = [0, 0, 1, 2, 3, 4, 5, 5, 4, 9, 7, 8, 0, 2, 5, 4, 7, 8];

const ROOMS: [u32; 12] = [0, 32, 32, 32, 32, 40, 32, 1, 20, 32, 32, 32];

fn run_nth(w: World, n: u32) -> World {
    let kind = KINDS[n as usize % 18];
    if n < 1 {
        return run_openings(w);
    }
    if n < 12 {
        return run(w, kind, ROOMS[n as usize % 12]);
    }
    run_pair(w, kind)
}

fn main(rt: HostRuntime) -> io::Result<()> {
    let mut words = [5i64; 7000];
    for n in 0..18u32 {
        let w = run_nth(world::begin(words), n);
        say_name(&rt, n)?;
        summary(&rt, w.told)?;
        let after = w.words;
        words = after;
    }
    Ok(())
}
