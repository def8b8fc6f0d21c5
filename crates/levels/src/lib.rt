// One level of the tree of offers with its envelopes, in the table: taken apart, and put together by one search. Every function takes any words.
// Left is false, right is true.
#![tactic(auto)]

ghost use Rattle.std.specs.Prelude.{◌≡◌};
ghost use Rattle.table.specs.Fields.{bridge_left_field, bridge_right_field};
ghost use Rattle.table.specs.Layout.{cap, link_at};
ghost use Rattle.pieces.specs.Pieces.{CattedAfter, CattedBefore};
ghost use Rattle.levels.specs.Levels.{LoweredIn, RaisedIn, Summed};
ghost use Rattle.levels.specs.RaisingRests.{RestSet};

use descents::Cut;
use std::ops::Add;
use table::Part;

// A subtree in hand: its root in the tree of offers, and the root of its envelope.
#[derive(Clone, Copy)]
pub struct Held {
    pub tree: u32,
    pub envelope: u32,
}

// Searches, their steps in all, and the sum of their trees' heights.
#[derive(Clone, Copy)]
pub struct Counts {
    pub searches: u32,
    pub steps: u32,
    pub heights: u32,
}

impl Counts {
    // Nothing was searched.
    pub const NONE: Counts = Counts {
        searches: 0,
        steps: 0,
        heights: 0,
    };
}

// The counts of one operation after another. They go round at 2 ^ 32, which those of a book do not reach.
impl Add for Counts {
    type Output = Counts;

    ghost add_gives = { λ a b c. Summed a b c };

    fn add(self, other: Counts) -> Counts {
        Counts {
            searches: self.searches.wrapping_add(other.searches),
            steps: self.steps.wrapping_add(other.steps),
            heights: self.heights.wrapping_add(other.heights),
        }
    }
}

// A subtree that was made, and what its making took.
#[derive(Clone, Copy)]
pub struct Made {
    pub held: Held,
    pub counts: Counts,
}

// The two children of a subtree.
#[derive(Clone, Copy)]
pub struct Lowered {
    pub left: Held,
    pub right: Held,
}

// Keeps the root `q` of a rest with node `x`.
fn set_rest(part: &mut [i64], c: u32, x: u32, q: u32)
    requires { c ≡ cap part.old }
    ensures { RestSet x q part.old part.new }
{
    if x <= table::MOST_SLOTS {
        table::put_link_in(part, c, table::LEAF_REST, x, q);
        return;
    }
    table::put_link_in(part, c, table::INNER_REST, table::inner_slot(x), q);
}

// Puts a left child's rest `q` behind its part `front` of the envelope of the node in slot `m`. That part ends at the node's bridge, which is
// read only where there is a rest.
// Two functions for the two sides: one would choose the field, the call and the order of its trees by the side.
fn put_behind(part: &mut [i64], c: u32, m: u32, front: u32, q: u32) -> u32
    requires { c ≡ cap part.old }
    ensures { CattedAfter front q (link_at part.old bridge_left_field m) part.old part.new result }
{
    if q == 0 {
        return front;
    }
    let u = table::link_in(part, c, table::BRIDGE_LEFT, m);
    pieces::cat_after(part, c, front, q, u)
}

// Puts a right child's rest `q` in front of its part `back`, which begins with the bridge's other end.
fn put_in_front(part: &mut [i64], c: u32, m: u32, q: u32, back: u32) -> u32
    requires { c ≡ cap part.old }
    ensures { CattedBefore q back (link_at part.old bridge_right_field m) part.old part.new result }
{
    if q == 0 {
        return back;
    }
    let v = table::link_in(part, c, table::BRIDGE_RIGHT, m);
    pieces::cat_before(part, c, q, back, v)
}

// Takes an inner node apart: its envelope is cut behind the left child's last line, and each child gets its rest back. No step changes
// the capacity, so that it is read once.
pub fn lower(part: &mut [i64], h: Held) -> Lowered
    ensures { LoweredIn h part.old part.new result }
{
    let k = table::capacity(part);
    let l = table::child_in(part, k, table::OFFERS, false, h.tree);
    let r = table::child_in(part, k, table::OFFERS, true, h.tree);
    let m = table::inner_slot(h.tree);
    let rate = table::get_in(part, k, table::RATE, m);
    let Cut { front, back } = cuts::cut_in(part, k, false, rate, h.envelope);
    let ql = form::rest_in(part, k, l);
    let qr = form::rest_in(part, k, r);
    let le = put_behind(part, k, m, front, ql);
    let re = put_in_front(part, k, m, qr, back);
    Lowered {
        left: Held {
            tree: l,
            envelope: le,
        },
        right: Held {
            tree: r,
            envelope: re,
        },
    }
}

// Puts a node over two subtrees: one search finds where their envelopes meet, each is cut there, and what is cut off stays with its child.
// The line in slot `gap` has the lowest rate on the left.
pub fn raise(part: &mut [i64], gap: u32, l: Held, r: Held) -> Made
    ensures { RaisedIn gap l r part.old part.new result }
{
    let k = table::capacity(part);
    let read = Part::with_capacity(part, k);
    let m = search::meet(&read, &read, l.envelope, r.envelope);
    let heights = table::height_in(part, k, table::PIECES, l.envelope)
        + table::height_in(part, k, table::PIECES, r.envelope);
    let c = cuts::cut_behind(part, k, m.u, gap, l.envelope);
    let d = cuts::cut_before(part, k, m.v, r.envelope);
    set_rest(part, k, l.tree, c.back);
    set_rest(part, k, r.tree, d.front);
    let tree = shape::make_node_in(part, k, table::OFFERS, false, gap, l.tree, r.tree);
    table::put_link_in(part, k, table::BRIDGE_LEFT, gap, m.u);
    table::put_link_in(part, k, table::BRIDGE_RIGHT, gap, m.v);
    let envelope = pieces::cat_at(part, k, c.front, d.back, m.u, m.v);
    Made {
        held: Held { tree, envelope },
        counts: Counts {
            searches: 1,
            steps: m.steps,
            heights,
        },
    }
}
