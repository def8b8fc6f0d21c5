// Chart marks of a book: open ends at both sides of its listing, and between them the crossings of neighbouring pieces.
#![tactic(auto)]

ghost use Rattle.std.specs.Prelude.{◌≡◌};
ghost use Rattle.marks.specs.MarkTold.{told};
ghost use Rattle.chart.specs.Promises.{Marks};
ghost use Rattle.chart.specs.ChartWalks.{SlotOf};
ghost use Rattle.chart.specs.Marking.{crossing_at, PartMark};

use causes::Declined;
use table::Part;

// The slot of piece `i`, counted from 0: along the thread from the first.
fn slot_of(part: &[i64], root: u32, i: u32) -> u32
    ensures { SlotOf part.now root i result }
{
    let mut s = descents::end(part, table::PIECES, false, root);
    for _ in 0..i {
        s = table::link(part, table::NEXT_PIECE, s);
    }
    s
}

// The crossing of a slot's piece with the next.
fn crossing_at(part: &[i64], slot: u32) -> marks::Mark
    ensures { told result ≡ crossing_at part.now slot }
{
    let read = Part::of(part);
    let n = prices::numerator(&read, slot);
    let d = prices::denominator(&read, slot);
    let p = prices::crossing_price(&read, slot);
    marks::crossing(n, d, p)
}

// A mark of a part.
fn part_mark(part: &[i64], index: i64) -> Result<marks::Mark, Declined>
    ensures { PartMark part.now index result }
{
    let root = form::envelope_root(part);
    let m = listing::count(part, root);
    if m < 1 {
        return Err(Declined::Empty);
    }
    if index < 0 || (m as i64) < index {
        return Err(Declined::NoSuchMark);
    }
    let i = table::up_to(table::MOST_SLOTS, index);
    if i < 1 {
        return Ok(marks::open_end(prices::rate(&Part::of(part), slot_of(part, root, 0))));
    }
    let s = slot_of(part, root, i - 1);
    if i == m {
        return Ok(marks::open_end(prices::rate(&Part::of(part), s)));
    }
    Ok(crossing_at(part, s))
}

// Mark `index` of the book at `start`: of m pieces, 0 and m are the open ends, and those between are crossings.
pub fn mark(table: &[i64], start: usize, index: i64) -> Result<marks::Mark, Declined>
    ensures { Marks start table.now index result }
{
    if promises::no_book(table, start) {
        return Err(Declined::NoBook);
    }
    part_mark(&table[start..], index)
}
