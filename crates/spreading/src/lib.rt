// The offers of a part that are below a price, from the first of each rate on, and their words. The part is only read; any words are safe.
#![tactic(auto)]

ghost use Rattle.std.specs.Prelude.{◌≡◌, ◌≤◌, length};
ghost use Rattle.table.specs.Fields.{most_slots};
ghost use Rattle.table.specs.Layout.{cap};
ghost use Rattle.spreading.specs.Neighbours.{Behind};
ghost use Rattle.spreading.specs.Nexts.{NextBelow};
ghost use Rattle.spreading.specs.Spreads.{Spreads};
ghost use Rattle.spreading.specs.Writes.{offer_at, Copied};

// The slot of the offer behind that in slot `s` in order, and 0 behind the last one, in slot `last`. The inner node kept in slot `s` stands between the
// two: what is behind is the first leaf on its right. `c` is the capacity.
fn behind(part: &[i64], c: u32, s: u32, last: u32) -> u32
    requires { c ≡ cap part.now }
    ensures { Behind part.now s last result }
{
    if s == last {
        return 0;
    }
    let right = table::link_in(part, c, table::child_field(table::ORDER, true), s);
    descents::end_in(part, c, table::ORDER, false, right)
}

// The slot of the offer behind that in slot `s`, where it has the same rate and is below too, and 0 otherwise. Rates fall, so one that is as high is the same.
fn next_below(part: &[i64], c: u32, s: u32, last: u32, load: i64, price: i64) -> u32
    requires { c ≡ cap part.now }
    ensures { NextBelow part.now load price s last result }
{
    let b = behind(part, c, s, last);
    if b < 1 {
        return 0;
    }
    let rate = table::get_in(part, c, table::RATE, s);
    if !table::at_least_in(part, c, table::RATE, b, rate) {
        return 0;
    }
    if gathering::is_below(part, b, load, price) {
        return b;
    }
    0
}

// Puts the slots of all offers below, rate by rate: from the first of each rate, in the first `n` entries, its followers as long as they are below.
// Returns how many; more than there are slots where it gave up, which no book's words make it do.
pub fn spread(
    part: &[i64],
    firsts: &[u32; gathering::SLOTS],
    n: usize,
    load: i64,
    price: i64,
    all: &mut [u32; gathering::SLOTS],
) -> usize
    requires { (length all.old ≡ most_slots) × (n ≤ most_slots) }
    ensures { Spreads part.now load price firsts.now all.old all.new n result }
{
    let c = table::capacity(part);
    let root = table::number_at(part, table::ORDER_ROOT, table::MOST_NODES);
    let last = descents::end_in(part, c, table::ORDER, true, root);
    let mut m: usize = 0;
    for &first in &firsts[..n] {
        let mut s = first;
        loop {
            if gathering::SLOTS <= m {
                return gathering::GIVEN_UP;
            }
            all[m] = s;
            m += 1;
            s = next_below(part, c, s, last, load, price);
            if s < 1 {
                break;
            }
        }
    }
    m
}

// Number, rate and base of the offer in a slot, to the three words from `at` on.
fn put_offer(part: &[i64], slot: u32, out: &mut [i64], at: usize)
    requires { at ≤ 12_288 }
    ensures { out.new ≡ offer_at part.now slot out.old at }
{
    table::set_word(out, at, table::get(part, table::NUMBER, slot));
    table::set_word(out, at + 1, table::get(part, table::RATE, slot));
    table::set_word(out, at + 2, table::get(part, table::BASE, slot));
}

// Writes number, rate, base of the offers in the first `n` slots, where the output is long enough for all of them.
pub fn write(part: &[i64], all: &[u32; gathering::SLOTS], n: usize, out: &mut [i64])
    requires { n ≤ most_slots }
    ensures { Copied part.now all.now n out.old out.new }
{
    if out.len() < 3 * n {
        return;
    }
    for (i, &slot) in all[..n].iter().enumerate() {
        put_offer(part, slot, out, 3 * i);
    }
}
