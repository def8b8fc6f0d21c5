// The places of a reading of a book's pieces, and what stands at each: functions over a table, a start and a place.
#![tactic(auto)]

ghost use Rattle.reading.specs.Promises.{Before, Starts, Hands, Moves};
ghost use Rattle.reading.specs.PartReading.{PartMoves, PartHands};

use causes::Declined;

// A piece as listed: its offer's number, and its crossing with the next piece.
#[derive(Clone, Copy)]
pub struct Piece {
    pub number: i64,
    pub numerator: i64,
    pub denominator: i64,
}

// The place of a part's first piece.
fn part_first(part: &[i64]) -> u32
    ensures { Before part.now 0 result }
{
    let root = form::envelope_root(part);
    descents::end(part, table::PIECES, false, root)
}

// The place after a place.
fn part_after(part: &[i64], place: u32) -> u32
    ensures { PartMoves part.now place result }
{
    if place < 1 {
        return 0;
    }
    let root = form::envelope_root(part);
    if place == descents::end(part, table::PIECES, true, root) {
        return 0;
    }
    table::link(part, table::NEXT_PIECE, place)
}

// What stands at a place of a part: a piece, or the end.
fn part_piece(part: &[i64], place: u32) -> Option<Piece>
    ensures { PartHands part.now place result }
{
    if place < 1 {
        return None;
    }
    let root = form::envelope_root(part);
    let last = place == descents::end(part, table::PIECES, true, root);
    let number = table::get(part, table::NUMBER, place);
    let numerator = listing::crossing_word(part, table::NUMERATOR, place, last);
    let denominator = listing::crossing_word(part, table::DENOMINATOR, place, last);
    Some(Piece {
        number,
        numerator,
        denominator,
    })
}

// The place of the first piece of the book at `start`, and 0 where there is none. A place is a number, since C keeps it between two calls.
pub fn first_place(table: &[i64], start: usize) -> u32
    ensures { Starts start table.now result }
{
    if promises::no_book(table, start) {
        return 0;
    }
    part_first(&table[start..])
}

// The place after a place, and 0 past the last piece and where there is no book.
pub fn place_after(table: &[i64], start: usize, place: u32) -> u32
    ensures { Moves start table.now place result }
{
    if promises::no_book(table, start) {
        return 0;
    }
    part_after(&table[start..], place)
}

// What a reading at a place hands out: a piece, or the end.
pub fn piece_at(table: &[i64], start: usize, place: u32) -> Result<Option<Piece>, Declined>
    ensures { Hands start table.now place result }
{
    if promises::no_book(table, start) {
        return Err(Declined::NoBook);
    }
    Ok(part_piece(&table[start..], place))
}
