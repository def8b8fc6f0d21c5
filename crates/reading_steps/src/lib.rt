// A reading of a book's pieces: it carries the lent table along and hands out one piece at a time, as listed, then the end.
// The functions over `Reading` are thin. The work is in crate reading, in functions over a table, a start and a place.
#![tactic(auto)]

ghost use Rattle.std.specs.Prelude.{◌+◌};
ghost use Rattle.reading.specs.Promises.{Before, Hands};
ghost use Rattle.reading_steps.specs.ReadingSteps.{Begins, Advances, HandsAt};
ghost use Rattle.promises.specs.Promises.{part_of};

use causes::Declined;
use reading::Piece;

#[derive(Drop)]
pub struct Reading<'a> {
    pub table: &'a [i64],
    pub start: usize,
    // The slot of the piece to hand out next, and 0 at the end.
    pub place: u32,
}

// The place of piece `n`, counted from 0, and 0 past the last.
fn nth_place(table: &[i64], start: usize, n: u32) -> u32
    ensures { Before (part_of table.now start) n result }
{
    let mut place = reading::first_place(table, start);
    for _ in 0..n {
        if place < 1 {
            return 0;
        }
        place = reading::place_after(table, start, place);
    }
    place
}

// A reading of the book at `start`, at its first piece.
pub fn begin<'a>(table: &'a [i64], start: usize) -> Reading<'a>
    ensures { Begins table.entry start result }
{
    let place = reading::first_place(table, start);
    Reading {
        table,
        start,
        place,
    }
}

// The piece to hand out next.
pub fn piece<'a>(r: Reading<'a>) -> Result<Option<Piece>, Declined>
    ensures { Hands r.entry.start r.entry.table.now r.entry.place result }
{
    reading::piece_at(r.table, r.start, r.place)
}

// The reading one piece further on.
pub fn advance<'a>(r: Reading<'a>) -> Reading<'a>
    ensures { Advances r.entry result }
{
    Reading {
        place: reading::place_after(r.table, r.start, r.place),
        ..r
    }
}

// What a reading of the book at `start` hands out after `n` pieces. It has plain parameters, so any caller can use it.
pub fn nth_piece(table: &[i64], start: usize, n: u32) -> Result<Option<Piece>, Declined>
    ensures { HandsAt start table.now n result }
{
    let place = nth_place(table, start, n);
    piece(Reading {
        table,
        start,
        place,
    })
}
