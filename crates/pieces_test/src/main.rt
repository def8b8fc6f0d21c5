// Builds piece trees of some hundred pieces, finds in them, cuts them, puts them together and searches their meeting, and prints beside each
// result what a plain scan of all lines gives. Line s of the left 120 crosses the next one at 2 (s + 1), and so do the right 120.
#![tactic(auto)]

ghost use Rattle.std.specs.Prelude.{◌≡◌, ◌↔◌, [], IsNone, IfSome, Contains};

use std::io;
use table::Part;

// How many lines each of the two trees has.
const HALF: usize = 120;

const LINES: usize = 2 * HALF;

// A line in a slot.
#[derive(Clone, Copy)]
struct Line {
    slot: u32,
    rate: u32,
    base: u32,
}

impl Line {
    fn price(&self, load: u32) -> u32 {
        self.base.wrapping_add(load.wrapping_mul(self.rate))
    }
}

// The lines of slots 1 to 240. The rates fall from slot to slot, and each base is the one before it and twice the number of pieces so far; the right
// envelope's bases begin anew.
fn lines() -> [Line; LINES] {
    let none = Line {
        slot: 0,
        rate: 0,
        base: 0,
    };
    let mut all = [none; LINES];
    let mut left: u32 = 0;
    let mut right: u32 = 20000;
    for i in 0..HALF {
        let slot = i as u32 + 1;
        left = left.wrapping_add(2 * slot);
        right = right.wrapping_add(2 * slot);
        all[i] = Line {
            slot,
            rate: 1000 - slot,
            base: left,
        };
        all[i + HALF] = Line {
            slot: slot + 120,
            rate: 880 - slot,
            base: right,
        };
    }
    all
}

// Puts the lines into their slots.
fn fill(part: &mut [i64], lines: &[Line]) {
    table::set_number(part, table::CAPACITY, 240);
    for line in lines {
        table::put_link(part, table::NUMBER, line.slot, 1);
        table::put_link(part, table::RATE, line.slot, line.rate);
        table::put_link(part, table::BASE, line.slot, line.base);
    }
}

// One tree of 120 slots, from the one after `before` on.
fn build(part: &mut [i64], before: u32) -> u32 {
    let mut x = 0;
    for s in 1..121 {
        x = pieces::cat(part, x, before.wrapping_add(s));
    }
    x
}

// The first of the cheapest lines.
fn cheapest(lines: &[Line], load: u32) -> Option<&Line>
    ensures empty { IsNone result ↔ (lines.now ≡ []) }
    ensures listed { IfSome result (λ l. Contains lines.now l.now) }
{
    lines.iter().min_by_key(|line| line.price(load))
}

fn say(rt: &impl Print, label: &[u8], told: u32, expected: u32) -> io::Result<()> {
    rt.write_all(label)?;
    rt.print(told)?;
    rt.write_all(b", by a scan ")?;
    rt.print(expected)?;
    rt.write_all(b"\n")
}

// The ends of a tree of the left 120, and a piece found in it.
fn ends(rt: &impl Print, part: &[i64], l: u32) -> io::Result<()> {
    say(
        rt,
        b"first piece: ",
        descents::end(part, table::PIECES, false, l),
        1,
    )?;
    say(
        rt,
        b"last piece: ",
        descents::end(part, table::PIECES, true, l),
        120,
    )?;
    say(
        rt,
        b"found by rate: ",
        descents::find(part, table::PIECES, table::RATE, 950, l),
        50,
    )
}

// The tree cut in two, and the two put together again.
fn halves(rt: &impl Print, part: &mut [i64], l: u32) -> io::Result<u32> {
    let c = cuts::cut(part, false, 950, l);
    let last = descents::end(part, table::PIECES, true, c.front);
    let first = descents::end(part, table::PIECES, false, c.back);
    say(rt, b"last in front of the cut: ", last, 50)?;
    say(rt, b"first behind it: ", first, 51)?;
    Ok(pieces::cat(part, c.front, c.back))
}

// The meeting of the two trees: the first load from 150 on at which the right is not the dearer.
fn meeting(rt: &impl Print, met: search::Met, lines: &[Line; LINES]) -> io::Result<()> {
    for load in 150..250 {
        let Some(u) = cheapest(&lines[..HALF], load) else {
            return Ok(());
        };
        let Some(v) = cheapest(&lines[HALF..], load) else {
            return Ok(());
        };
        if u.price(load) >= v.price(load) {
            say(rt, b"u of the meeting: ", met.u, u.slot)?;
            return say(rt, b"v of the meeting: ", met.v, v.slot);
        }
    }
    Ok(())
}

fn main(rt: HostRuntime) -> io::Result<()> {
    let mut words = [0i64; 16448];
    let lines = lines();
    fill(&mut words, &lines);
    let l = build(&mut words, 0);
    let r = build(&mut words, 120);
    ends(&rt, &words, l)?;
    let y = halves(&rt, &mut words, l)?;
    say(
        &rt,
        b"last of both together: ",
        descents::end(&words, 0, true, y),
        120,
    )?;
    let read = Part::of(&words);
    meeting(&rt, search::meet(&read, &read, y, r), &lines)
}
