// Two envelopes merged at a stored bridge, as part of the check of a book's part. Any words are safe.
#![tactic(auto)]

ghost use Rattle.std.specs.Prelude.{◌≡◌, ◌≤◌, pos};
ghost use Rattle.form.specs.RestWords.{rest_word};
ghost use Rattle.check_trees.specs.Scratch.{second_half};
ghost use Rattle.check_trees.specs.Deciding.{Decides};
ghost use Rattle.check_merge.specs.PieceTrees.{Matches};
ghost use Rattle.check_merge.specs.Rests.{Stays};
ghost use Rattle.check_merge.specs.Merges.{Two, Merges};

// Node `q` of the pieces is the root of a threaded, balanced tree over the slots from place `from` up to `to`, or 0 where there are none.
// Entries from 4,096 on are written.
pub fn matches(
    part: &[i64],
    q: u32,
    scratch: &mut [u32; check_trees::SCRATCH],
    from: usize,
    to: usize,
) -> bool
    requires { (from ≤ to) × (to ≤ second_half) }
    ensures { Matches part.now q scratch.old scratch.new from to result }
{
    if q == 0 {
        return from == to;
    }
    let Some(f) = check_trees::fill(
        part,
        table::PIECES,
        q,
        scratch,
        check_trees::SECOND_HALF,
        table::MOST_LEVELS,
    ) else {
        return false;
    };
    if f.next != check_trees::SECOND_HALF + (to - from) {
        return false;
    }
    if !check_trees::same(scratch, from, check_trees::SECOND_HALF, to - from) {
        return false;
    }
    check_bridges::threaded(part, scratch, from, to)
}

// The word of what stays with node `n` is that number, and not only read as such.
fn rest_tells(part: &[i64], n: u32, q: u32) -> bool
    ensures { Decides result (rest_word part.now n ≡ pos q) }
{
    if table::MOST_SLOTS < n {
        return check_trees::slot_tells(part, table::INNER_REST, table::inner_slot(n), q);
    }
    check_trees::slot_tells(part, table::LEAF_REST, n, q)
}

// The slots from place `from` up to `to` stay with node `n`, in a piece tree.
fn stays(
    part: &[i64],
    n: u32,
    scratch: &mut [u32; check_trees::SCRATCH],
    from: usize,
    to: usize,
) -> bool
    requires { (from ≤ to) × (to ≤ second_half) }
    ensures { Stays part.now n scratch.old scratch.new from to result }
{
    let q = form::rest(part, n);
    if !rest_tells(part, n, q) {
        return false;
    }
    matches(part, q, scratch, from, to)
}

// Merges the pieces of the children of node `x`, from `at` up to `mid` and from there up to `to`, at its bridge. What is left of both
// is compared with what stays with the children. It hands back the place behind the last slot that it leaves.
pub fn merge(
    part: &[i64],
    x: u32,
    scratch: &mut [u32; check_trees::SCRATCH],
    at: usize,
    mid: usize,
    to: usize,
) -> Option<usize>
    requires { Two at mid to }
    ensures { Merges part.now x scratch.old scratch.new at mid to result }
{
    let gap = table::inner_slot(x);
    let u = table::link(part, table::BRIDGE_LEFT, gap);
    let i = check_trees::place(scratch, at, mid, u)?;
    let v = table::link(part, table::BRIDGE_RIGHT, gap);
    let j = check_trees::place(scratch, mid, to, v)?;
    if !check_bridges::bridges(part, scratch, at, mid, to, i, j) {
        return None;
    }
    let left = table::child(part, table::OFFERS, false, x);
    if !stays(part, left, scratch, i + 1, mid) {
        return None;
    }
    let right = table::child(part, table::OFFERS, true, x);
    if !stays(part, right, scratch, mid, j) {
        return None;
    }
    check_trees::shift(scratch, i + 1, j, to - j);
    Some(i + 1 + (to - j))
}
