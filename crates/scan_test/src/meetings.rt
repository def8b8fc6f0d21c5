// Two books that meet, beside a scan of the offers of both.
use crate::world::Tally;
use crate::{expected, slots, world};

// The book at `from` with offers `l` and the one at `to` with offers `r`; `are_open` says whether there is a book at both.
pub(crate) fn meeting(
    table: &[i64],
    from: usize,
    l: &[i64; 192],
    to: usize,
    r: &[i64; 192],
    are_open: bool,
    t: Tally,
) -> Tally {
    let cause = expected::meet_cause(are_open, l, r);
    let all = expected::both(l, r);
    let i = expected::seam(&all);
    let j = slots::next_piece(&all, slots::rate(&all, i));
    let same = match meet_books::meet(table, from, table, to) {
        Ok(met) => (cause == 0)
            & (met.u == slots::number(&all, i))
            & (met.v == slots::number(&all, j)),
        Err(c) => (cause != 0) & (c.number() == cause),
    };
    world::counted(t, 0, 0, 1, same)
}
