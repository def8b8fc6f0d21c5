// Piece trees in the table: an envelope's pieces with their crossings, put together.
#![tactic(auto)]

ghost use Rattle.std.specs.Prelude.{◌≡◌};
ghost use Rattle.table.specs.Layout.{cap};
ghost use Rattle.pieces.specs.Pieces.{Catted, Seamed, CattedAfter, CattedBefore};

use table::Part;

// Puts two piece trees together, either of which may be empty, and keeps the crossing at the seam: `s` is the last piece of the left one,
// `n` the first of the right one. `c` is the capacity.
pub fn cat_at(part: &mut [i64], c: u32, l: u32, r: u32, s: u32, n: u32) -> u32
    requires { c ≡ cap part.old }
    ensures { Seamed l r s n part.old part.new result }
{
    if l == 0 {
        return r;
    }
    if r == 0 {
        return l;
    }
    let read = Part::with_capacity(part, c);
    let numerator = prices::base(&read, n) - prices::base(&read, s);
    let denominator = prices::rate(&read, s) - prices::rate(&read, n);
    table::put_three_in(
        part,
        c,
        s,
        table::NUMERATOR,
        numerator,
        table::DENOMINATOR,
        denominator,
        table::NEXT_PIECE,
        n as i64,
    );
    shape::join_in(part, c, table::PIECES, s, l, r)
}

// The same, where the two pieces are not known.
// Three functions, by which of the two are known: each asks and promises less or more than the others.
fn cat_in(part: &mut [i64], c: u32, l: u32, r: u32) -> u32
    requires { c ≡ cap part.old }
    ensures { Catted l r part.old part.new result }
{
    // before the two ways down, which are as long as the tree is high
    if l == 0 {
        return r;
    }
    if r == 0 {
        return l;
    }
    let s = descents::end_in(part, c, table::PIECES, true, l);
    let n = descents::end_in(part, c, table::PIECES, false, r);
    cat_at(part, c, l, r, s, n)
}

// The same, where `s` is known.
pub fn cat_after(part: &mut [i64], c: u32, l: u32, r: u32, s: u32) -> u32
    requires { c ≡ cap part.old }
    ensures { CattedAfter l r s part.old part.new result }
{
    let n = descents::end_in(part, c, table::PIECES, false, r);
    cat_at(part, c, l, r, s, n)
}

// The same, where `n` is known.
pub fn cat_before(part: &mut [i64], c: u32, l: u32, r: u32, n: u32) -> u32
    requires { c ≡ cap part.old }
    ensures { CattedBefore l r n part.old part.new result }
{
    let s = descents::end_in(part, c, table::PIECES, true, l);
    cat_at(part, c, l, r, s, n)
}

pub fn cat(part: &mut [i64], l: u32, r: u32) -> u32
    ensures { Catted l r part.old part.new result }
{
    let c = table::capacity(part);
    cat_in(part, c, l, r)
}
