// Balanced trees in the table. One set of functions serves the four trees and both sides.
#![tactic(auto)]

ghost use Rattle.std.specs.Prelude.{◌≡◌, suc, ◌≤◌, ltb};
ghost use Rattle.table.specs.Fields.{most_nodes};
ghost use Rattle.table.specs.Layout.{cap};
ghost use Rattle.shape.specs.Sides.{row_on, double_on, rotate_on, balance_on};
ghost use Rattle.nodes.specs.Joining.{Joined};
ghost use Rattle.shape.specs.Rows.{Rowed};
ghost use Rattle.shape.specs.Splices.{Spliced};
ghost use Rattle.shape.specs.JoinSteps.{Merged};

pub use nodes::make_node_in;
use nodes::{make_node, set_node};

// Three trees in a row: a node over the last two, and one over the first and that. `near` is the first seam's slot, `far` the second's.
fn hang(part: &mut [i64], tree: u8, side: bool, near: u32, far: u32, p: u32, m: u32, q: u32) -> u32
    ensures { Rowed (row_on side) tree side near far p m q part.old part.new result }
{
    let y = make_node(part, tree, side, far, m, q);
    make_node(part, tree, side, near, p, y)
}

// The double rotation: the middle one of three trees in a row comes up between the others.
fn double(
    part: &mut [i64],
    tree: u8,
    side: bool,
    near: u32,
    far: u32,
    p: u32,
    m: u32,
    q: u32,
) -> u32
    ensures { Rowed (double_on side) tree side near far p m q part.old part.new result }
{
    if m <= table::MOST_SLOTS {
        return hang(part, tree, side, near, far, p, m, q);
    }
    let a = table::child(part, tree, side, m);
    let b = table::child(part, tree, !side, m);
    let gap = table::inner_slot(m);
    let y = make_node(part, tree, side, near, p, a);
    hang(part, tree, side, gap, far, y, b, q)
}

// A rotation away from the side on which `p`, the higher tree, stands.
fn rotate(part: &mut [i64], tree: u8, side: bool, gap: u32, p: u32, q: u32) -> u32
    ensures { Joined (rotate_on side) tree side gap p q part.old part.new result }
{
    if p <= table::MOST_SLOTS {
        return make_node(part, tree, side, gap, p, q);
    }
    let a = table::child(part, tree, side, p);
    let m = table::child(part, tree, !side, p);
    let near = table::inner_slot(p);
    if table::height(part, tree, m) <= table::height(part, tree, a) {
        return hang(part, tree, side, near, gap, a, m, q);
    }
    double(part, tree, side, near, gap, a, m, q)
}

// One tree of two side by side whose heights differ by at most 2. `c` is the capacity.
fn balance(part: &mut [i64], c: u32, tree: u8, side: bool, gap: u32, p: u32, q: u32) -> u32
    requires { c ≡ cap part.old }
    ensures { Joined (balance_on side) tree side gap p q part.old part.new result }
{
    let hp = table::height_in(part, c, tree, p);
    let hq = table::height_in(part, c, tree, q);
    if hp > hq + 1 {
        return rotate(part, tree, side, gap, p, q);
    }
    if hq > hp + 1 {
        return rotate(part, tree, !side, gap, q, p);
    }
    set_node(part, c, tree, side, gap, p, q, table::height_over(hp, hq))
}

// One height is more than one above another.
pub fn above(h: u32, other: u32) -> bool
    requires { other ≤ most_nodes }
    ensures { result ≡ ltb (suc other) h }
{
    other + 1 < h
}

// Joins two trees along the inner spine of `p`, as long as it towers over `q`. `limit` bounds the height of `p`, `c` is the capacity.
fn splice(
    part: &mut [i64],
    c: u32,
    tree: u8,
    side: bool,
    gap: u32,
    p: u32,
    q: u32,
    limit: u32,
) -> u32
    requires { c ≡ cap part.old }
    ensures { Spliced tree side gap p q limit part.old part.new result }
{
    if limit == 0 {
        return make_node(part, tree, side, gap, p, q);
    }
    let hp = table::height_in(part, c, tree, p);
    let hq = table::height_in(part, c, tree, q);
    if above(hp, hq) {
        let a = table::child_in(part, c, tree, side, p);
        let m = table::child_in(part, c, tree, !side, p);
        let g = table::inner_slot(p);
        let y = splice(part, c, tree, side, gap, m, q, limit - 1);
        return balance(part, c, tree, side, g, a, y);
    }
    set_node(part, c, tree, side, gap, p, q, table::height_over(hp, hq))
}

// Joins two balanced trees, either of which may be empty. `gap` is the slot of the last leaf of `l`, `c` the capacity.
pub fn join_in(part: &mut [i64], c: u32, tree: u8, gap: u32, l: u32, r: u32) -> u32
    requires { c ≡ cap part.old }
    ensures { Merged tree gap l r part.old part.new result }
{
    if l == 0 {
        return r;
    }
    if r == 0 {
        return l;
    }
    let hl = table::height_in(part, c, tree, l);
    let hr = table::height_in(part, c, tree, r);
    if above(hl, hr) {
        return splice(part, c, tree, false, gap, l, r, table::MOST_LEVELS);
    }
    if above(hr, hl) {
        return splice(part, c, tree, true, gap, r, l, table::MOST_LEVELS);
    }
    set_node(part, c, tree, false, gap, l, r, table::height_over(hl, hr))
}
