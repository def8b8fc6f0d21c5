// Listings of a part: its pieces along the thread, counted and written. Any words are safe: every walk has a limit.
#![tactic(auto)]

ghost use Rattle.std.specs.Prelude.{◌≡◌, ◌≤◌};
ghost use Rattle.listing.specs.PieceCounts.{Counted};
ghost use Rattle.listing.specs.Listing.{crossing_word, piece_at, Written};

use table::Part;

// How many pieces a tree has, counted along the thread from its first to its last; 0 for no tree.
pub fn count(part: &[i64], root: u32) -> u32
    ensures { Counted part.now root result }
{
    let last = descents::end(part, table::PIECES, true, root);
    let mut s = descents::end(part, table::PIECES, false, root);
    if s == 0 {
        return 0;
    }
    // with the capacity read once, and not for each piece
    let read = Part::of(part);
    for n in 1..table::MOST_SLOTS + 1 {
        if s == last {
            return n;
        }
        s = read.link(table::NEXT_PIECE, s);
    }
    0
}

// A word of a piece's crossing with the next; the last piece has none.
pub fn crossing_word(part: &[i64], field: usize, slot: u32, last: bool) -> i64
    ensures { result ≡ crossing_word part.now field slot last }
{
    if last {
        return 0;
    }
    table::get(part, field, slot)
}

// Writes the number and the crossing of the piece in a slot to the three words from `at` on.
fn put_piece(part: &[i64], slot: u32, last: bool, out: &mut [i64], at: usize)
    requires { at ≤ 12_288 }
    ensures { out.new ≡ piece_at part.now slot last out.old at }
{
    table::set_word(out, at, table::get(part, table::NUMBER, slot));
    table::set_word(
        out,
        at + 1,
        crossing_word(part, table::NUMERATOR, slot, last),
    );
    table::set_word(
        out,
        at + 2,
        crossing_word(part, table::DENOMINATOR, slot, last),
    );
}

// Writes number, numerator, denominator a piece, where the output is long enough for all of them. Returns the count.
pub fn write(part: &[i64], root: u32, out: &mut [i64]) -> u32
    ensures { Written part.now root out.old out.new result }
{
    let n = count(part, root);
    if out.len() < 3 * (n as usize) {
        return n;
    }
    let mut s = descents::end(part, table::PIECES, false, root);
    for i in 0..n {
        put_piece(part, s, i + 1 == n, out, 3 * (i as usize));
        s = table::link(part, table::NEXT_PIECE, s);
    }
    n
}
