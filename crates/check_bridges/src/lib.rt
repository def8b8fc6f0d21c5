// Crossings of the lines that slots hold: threads from slot to slot, and bridges between two stretches. Any words are safe.
#![tactic(auto)]

ghost use Rattle.std.specs.Prelude.{◌≡◌, true, false, ◌+◌, ◌-◌, ◌≤◌, ◌<◌, get_or};
ghost use Rattle.check_trees.specs.Scratch.{scratch_length};
ghost use Rattle.check_trees.specs.Deciding.{Decides};
ghost use Rattle.check_bridges.specs.Gaps.{base_gap, rate_gap, cross_at};
ghost use Rattle.check_bridges.specs.StoredBridges.{Bridges, Ends, linked, Threads};

use table::Part;

// The numerator of the crossing of the lines in two slots.
fn base_gap(part: &[i64], a: u32, b: u32) -> i64
    ensures { result ≡ base_gap part.now a b }
{
    let read = Part::of(part);
    prices::base(&read, b) - prices::base(&read, a)
}

// The denominator.
fn rate_gap(part: &[i64], a: u32, b: u32) -> i64
    ensures { result ≡ rate_gap part.now a b }
{
    let read = Part::of(part);
    prices::rate(&read, a) - prices::rate(&read, b)
}

// Slot `a` leads to slot `b` and keeps the crossing with its line.
fn follows(part: &[i64], a: u32, b: u32) -> bool
    ensures { result ≡ linked part.now a b }
{
    table::link(part, table::NEXT_PIECE, a) == b
        && table::is_equal(part, table::NUMERATOR, a, base_gap(part, a, b))
        && table::is_equal(part, table::DENOMINATOR, a, rate_gap(part, a, b))
}

// The slots from place `from` up to `to` lead each to the next.
pub fn threaded(part: &[i64], scratch: &[u32; check_trees::SCRATCH], from: usize, to: usize) -> bool
    requires { (from ≤ to) × (to ≤ scratch_length) }
    ensures { Threads part.now scratch.now from to result }
{
    scratch[from..to].is_sorted_by(|a, b| follows(part, *a, *b))
}

// The crossing of `a` and `b` is at that of `c` and `d` or left of it.
fn crosses(part: &[i64], a: u32, b: u32, c: u32, d: u32) -> bool
    ensures { result ≡ cross_at part.now a b c d }
{
    base_gap(part, a, b) * rate_gap(part, c, d) <= base_gap(part, c, d) * rate_gap(part, a, b)
}

// The crossing of `u` and `v` is strictly right of that of the slot before place `i` and `u`, if there is one from `from` on.
fn left_outer(
    part: &[i64],
    scratch: &[u32; check_trees::SCRATCH],
    from: usize,
    i: usize,
    u: u32,
    v: u32,
) -> bool
    requires { i < scratch_length }
    ensures { Decides result (from < i → cross_at part.now u v (get_or scratch.now (i - 1) 0) u ≡ false) }
{
    i <= from || !crosses(part, u, v, check_trees::entry(scratch, i - 1), u)
}

// It is at that of `u` and the slot behind place `i` or left of it, if there is one before `to`.
fn left_inner(
    part: &[i64],
    scratch: &[u32; check_trees::SCRATCH],
    i: usize,
    to: usize,
    u: u32,
    v: u32,
) -> bool
    requires { (i < scratch_length) × (to ≤ scratch_length) }
    ensures { Decides result (i + 1 < to → cross_at part.now u v u (get_or scratch.now (i + 1) 0) ≡ true) }
{
    to <= i + 1 || crosses(part, u, v, u, check_trees::entry(scratch, i + 1))
}

// It is at that of the slot before place `j` and `v` or right of it, if there is one from `from` on.
fn right_inner(
    part: &[i64],
    scratch: &[u32; check_trees::SCRATCH],
    from: usize,
    j: usize,
    u: u32,
    v: u32,
) -> bool
    requires { j < scratch_length }
    ensures { Decides result (from < j → cross_at part.now (get_or scratch.now (j - 1) 0) v u v ≡ true) }
{
    j <= from || crosses(part, check_trees::entry(scratch, j - 1), v, u, v)
}

// It is strictly left of that of `v` and the slot behind place `j`, if there is one before `to`.
fn right_outer(
    part: &[i64],
    scratch: &[u32; check_trees::SCRATCH],
    j: usize,
    to: usize,
    u: u32,
    v: u32,
) -> bool
    requires { (j < scratch_length) × (to ≤ scratch_length) }
    ensures { Decides result (j + 1 < to → cross_at part.now v (get_or scratch.now (j + 1) 0) u v ≡ false) }
{
    to <= j + 1 || !crosses(part, v, check_trees::entry(scratch, j + 1), u, v)
}

// The slots at places `i` and `j` bridge the stretches from `from` up to `mid` and from there up to `to`.
pub fn bridges(
    part: &[i64],
    scratch: &[u32; check_trees::SCRATCH],
    from: usize,
    mid: usize,
    to: usize,
    i: usize,
    j: usize,
) -> bool
    requires { Ends from mid to i j }
    ensures { Decides result (Bridges part.now scratch.now from mid to i j) }
{
    let u = check_trees::entry(scratch, i);
    let v = check_trees::entry(scratch, j);
    left_outer(part, scratch, from, i, u, v)
        && left_inner(part, scratch, i, mid, u, v)
        && right_inner(part, scratch, mid, j, u, v)
        && right_outer(part, scratch, j, to, u, v)
}
