// Ways down the trees of a table. Each goes a limited number of levels, so that it ends on any words.
#![tactic(auto)]

ghost use Rattle.std.specs.Prelude.{◌≡◌};
ghost use Rattle.table.specs.Fields.{most_levels};
ghost use Rattle.table.specs.Layout.{cap};
ghost use Rattle.descents.specs.Cuts.{Halving};
ghost use Rattle.descents.specs.Downs.{Down};
ghost use Rattle.descents.specs.Ends.{Ended};
ghost use Rattle.descents.specs.Finds.{Found};
ghost use Rattle.descents.specs.Afters.{After};

// The roots of the two parts of a cut, 0 for an empty one.
#[derive(Drop)]
pub struct Cut {
    pub front: u32,
    pub back: u32,
}

// Cuts a tree behind its last leaf whose field is at least `least`, where these leaves stand in front. Where nothing is cut off, nothing is
// written. `c` is the capacity.
#[tactic(auto, using(crate::specs::Cuts::still_known))]
pub fn split_in(
    part: &mut [i64],
    c: u32,
    tree: u8,
    field: usize,
    least: i64,
    x: u32,
    limit: u32,
) -> Cut
    requires { c ≡ cap part.old }
    ensures { Halving tree field least x limit part.old part.new result.front result.back }
{
    if x <= table::MOST_SLOTS {
        if table::at_least_in(part, c, field, x, least) {
            return Cut { front: x, back: 0 };
        }
        return Cut { front: 0, back: x };
    }
    if limit == 0 {
        return Cut { front: 0, back: 0 };
    }
    let gap = table::inner_slot(x);
    if table::at_least_in(part, c, field, gap, least) {
        let r = table::child_in(part, c, tree, true, x);
        let Cut { front, back } = split_in(part, c, tree, field, least, r, limit - 1);
        if back == 0 {
            return Cut { front: x, back: 0 };
        }
        let l = table::child_in(part, c, tree, false, x);
        let y = shape::join_in(part, c, tree, gap, l, front);
        return Cut { front: y, back };
    }
    let l = table::child_in(part, c, tree, false, x);
    let r = table::child_in(part, c, tree, true, x);
    let Cut { front, back } = split_in(part, c, tree, field, least, l, limit - 1);
    if front == 0 {
        return Cut { front: 0, back: x };
    }
    let y = shape::join_in(part, c, tree, gap, back, r);
    Cut { front, back: y }
}

// The leaf at the end of a way down from node `x`, where `child` gives the child to go to; 0 where it is longer than any in a balanced tree.
#[tactic(auto, using(crate::specs::Downs::down_ends, crate::specs::Downs::down_goes))]
fn leaf_below<F: Fn(u32) -> u32>(x: u32, child: F) -> u32
    requires { F.IsAlwaysCallable child }
    ensures { Down (F.post child) most_levels x result }
{
    let mut y = x;
    for _ in 0..table::MOST_LEVELS + 1 {
        if y <= table::MOST_SLOTS {
            return y;
        }
        y = child(y);
    }
    0
}

// The first leaf of a balanced tree, or, on the other side, its last; 0 for an empty one. `c` is the capacity.
pub fn end_in(part: &[i64], c: u32, tree: u8, side: bool, x: u32) -> u32
    requires { c ≡ cap part.now }
    ensures { Ended part.now tree side x result }
{
    leaf_below(x, |y| table::child_in(part, c, tree, side, y))
}

pub fn end(part: &[i64], tree: u8, side: bool, x: u32) -> u32
    ensures { Ended part.now tree side x result }
{
    end_in(part, table::capacity(part), tree, side, x)
}

// The leaf of a balanced tree whose field is `key`, where fields fall from left to right; 0 where there is none.
pub fn find(part: &[i64], tree: u8, field: usize, key: i64, x: u32) -> u32
    ensures { Found part.now tree field key x result }
{
    let y = leaf_below(x, |y| {
        let right = table::is_above(part, field, table::inner_slot(y), key);
        table::child(part, tree, right, y)
    });
    if table::is_equal(part, field, y, key) {
        return y;
    }
    0
}

// The first leaf of a balanced tree whose field is below `key`, where fields fall from left to right; 0 where there is none.
pub fn after(part: &[i64], tree: u8, field: usize, key: i64, x: u32) -> u32
    ensures { After part.now tree field key x result }
{
    let y = leaf_below(x, |y| {
        let behind = table::at_least(part, field, table::inner_slot(y), key);
        table::child(part, tree, behind, y)
    });
    if table::at_least(part, field, y, key) {
        return 0;
    }
    y
}
