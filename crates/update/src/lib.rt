// The tree of offers with its envelopes, in the table: rebalanced over levels that are taken apart and put together, and on that insert and
// remove, which go down and up. Every function takes any words. Left is false, right is true.
#![tactic(auto)]

ghost use Rattle.std.specs.Prelude.{◌≡◌, ℕ, ◌≤◌, int_le, int_lt};
ghost use Rattle.table.specs.Fields.{most_slots, rate_field};
ghost use Rattle.table.specs.Layout.{cell};
ghost use Rattle.update.specs.Steps.{RebalancedIn, alone_at, InsertedIn, RemovedIn};
ghost use Rattle.update.specs.Neighbours.{LoweredOn, RaisedOn};
ghost use Rattle.update.specs.Rotating.{RotatedIn};
ghost use Rattle.update.specs.Rebalancing.{RebalancedOn};
ghost use Rattle.update.specs.Inserting.{InsertedBelow};
ghost use Rattle.update.specs.Removing.{RemovedBelow, SeamFound};
ghost use Rattle.update.specs.CodeUpdates.{Rebuilt};

use levels::{Counts, Held, Lowered, Made};

// The two children from a side: the one on it, and the one off it.
#[derive(Drop)]
pub struct Opened {
    pub on: Held,
    pub off: Held,
}

fn lower_on(part: &mut [i64], side: bool, h: Held) -> Opened
    ensures { LoweredOn side h part.old part.new result }
{
    let Lowered { left, right } = levels::lower(part, h);
    if side {
        Opened {
            on: right,
            off: left,
        }
    } else {
        Opened {
            on: left,
            off: right,
        }
    }
}

// Here and in `rebalance_on` two calls: to put the two in order first is no plainer.
fn raise_on(part: &mut [i64], side: bool, gap: u32, on: Held, off: Held) -> Made
    ensures { RaisedOn side gap on off part.old part.new result }
{
    if side {
        return levels::raise(part, gap, off, on);
    }
    levels::raise(part, gap, on, off)
}

// A rotation away from the side on which `tall`, two higher than `short`, stands.
fn rotate(part: &mut [i64], side: bool, gap: u32, tall: Held, short: Held) -> Made
    ensures { RotatedIn side gap tall short part.old part.new result }
{
    let Opened { on, off } = lower_on(part, side, tall);
    let m = table::inner_slot(tall.tree);
    if table::height(part, table::OFFERS, off.tree) <= table::height(part, table::OFFERS, on.tree) {
        let near = raise_on(part, side, gap, off, short);
        let top = raise_on(part, side, m, on, near.held);
        return Made {
            held: top.held,
            counts: near.counts + top.counts,
        };
    }
    let inner = lower_on(part, side, off);
    let far = raise_on(part, side, m, on, inner.on);
    let near = raise_on(part, side, gap, inner.off, short);
    let top = raise_on(part, side, table::inner_slot(off.tree), far.held, near.held);
    Made {
        held: top.held,
        counts: far.counts + near.counts + top.counts,
    }
}

// Puts one tree over two side by side whose heights differ by at most 2.
fn rebalance(part: &mut [i64], gap: u32, l: Held, r: Held) -> Made
    ensures { RebalancedIn gap l r part.old part.new result }
{
    let c = table::capacity(part);
    let hl = table::height_in(part, c, table::OFFERS, l.tree);
    let hr = table::height_in(part, c, table::OFFERS, r.tree);
    if shape::above(hl, hr) {
        return rotate(part, false, gap, l, r);
    }
    if shape::above(hr, hl) {
        return rotate(part, true, gap, r, l);
    }
    levels::raise(part, gap, l, r)
}

fn rebalance_on(part: &mut [i64], side: bool, gap: u32, on: Held, off: Held) -> Made
    ensures { RebalancedOn side gap on off part.old part.new result }
{
    if side {
        return rebalance(part, gap, off, on);
    }
    rebalance(part, gap, on, off)
}

// The way up: what came of a child on a side is rebalanced with its sibling, and the counts are added.
fn rebuild(part: &mut [i64], side: bool, gap: u32, g: Made, off: Held) -> Made
    ensures { Rebuilt side gap g off part.old part.new result }
{
    let top = rebalance_on(part, side, gap, g.held, off);
    Made {
        held: top.held,
        counts: g.counts + top.counts,
    }
}

// The rate in slot `a` is at most the one in slot `b`.
fn at_most(part: &[i64], a: u32, b: u32) -> bool
    ensures { result ≡ int_le (cell part.now rate_field a) (cell part.now rate_field b) }
{
    table::at_least(part, table::RATE, b, table::get(part, table::RATE, a))
}

// The rate in slot `a` is below the one in slot `b`.
fn is_less(part: &[i64], a: u32, b: u32) -> bool
    ensures { result ≡ int_lt (cell part.now rate_field a) (cell part.now rate_field b) }
{
    table::is_above(part, table::RATE, b, table::get(part, table::RATE, a))
}

// The line in slot `s` alone, or at 0 nothing; nothing was searched.
pub fn alone(s: u32) -> Made
    ensures { result ≡ alone_at s }
{
    Made {
        held: Held {
            tree: s,
            envelope: s,
        },
        counts: Counts::NONE,
    }
}

// Puts the line in `slot` beside the single line `h`.
fn insert_beside(part: &mut [i64], h: Held, slot: u32) -> Made
    ensures { (limit : ℕ) → h.tree ≤ most_slots → InsertedBelow limit slot h part.old part.new result }
{
    let line = Held {
        tree: slot,
        envelope: slot,
    };
    if at_most(part, slot, h.tree) {
        return levels::raise(part, h.tree, h, line);
    }
    levels::raise(part, slot, line, h)
}

// Inserts the line in `slot` into a subtree that is at most `limit` high.
fn insert_below(part: &mut [i64], h: Held, slot: u32, limit: u32) -> Made
    ensures { InsertedBelow limit slot h part.old part.new result }
{
    if h.tree <= table::MOST_SLOTS {
        return insert_beside(part, h, slot);
    }
    if limit == 0 {
        return alone(0);
    }
    let m = table::inner_slot(h.tree);
    let side = at_most(part, slot, m);
    let Opened { on, off } = lower_on(part, side, h);
    let g = insert_below(part, on, slot, limit - 1);
    rebuild(part, side, m, g, off)
}

// The slot of the seam after a removal: on the left the last line may have left.
fn seam_after(part: &[i64], side: bool, x: u32, m: u32) -> u32
    ensures { SeamFound side part.now x m result }
{
    if side {
        return m;
    }
    descents::end(part, table::OFFERS, true, x)
}

// Removes the line in `slot` from a subtree that is at most `limit` high, and puts the line in slot `by`, if that is not 0, in its place; 0 where
// nothing is left.
fn remove_below(part: &mut [i64], h: Held, slot: u32, by: u32, limit: u32) -> Made
    ensures { RemovedBelow limit slot by h part.old part.new result }
{
    if h.tree <= table::MOST_SLOTS {
        return alone(by);
    }
    if limit == 0 {
        return alone(0);
    }
    let m = table::inner_slot(h.tree);
    let side = is_less(part, slot, m);
    let Opened { on, off } = lower_on(part, side, h);
    let g = remove_below(part, on, slot, by, limit - 1);
    if g.held.tree == 0 {
        return Made {
            held: off,
            counts: g.counts,
        };
    }
    let gap = seam_after(part, side, g.held.tree, m);
    rebuild(part, side, gap, g, off)
}

// Inserts the line in slot `s` into the offers in hand.
pub fn insert(part: &mut [i64], h: Held, s: u32) -> Made
    ensures { InsertedIn s h part.old part.new result }
{
    insert_below(part, h, s, table::MOST_LEVELS)
}

// Removes the line in slot `s` from the offers in hand, and puts the line in slot `by`, if that is not 0, in its place.
pub fn remove(part: &mut [i64], h: Held, s: u32, by: u32) -> Made
    ensures { RemovedIn s by h part.old part.new result }
{
    remove_below(part, h, s, by, table::MOST_LEVELS)
}
