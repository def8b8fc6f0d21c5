// The meeting of two books: where the envelope of both goes over from the first book's offers to the second's. Both tables are only read,
// and they may be one table.
#![tactic(auto)]

ghost use Rattle.std.specs.Prelude.{◌≡◌, ltb};
ghost use Rattle.table.specs.Fields.{live_count_word, most_nodes};
ghost use Rattle.table.specs.Words.{word, up_to};
ghost use Rattle.meet_books.specs.Promises.{MeetsBooks};
ghost use Rattle.meet_books.specs.Apart.{SetsApart};
ghost use Rattle.meet_books.specs.Searching.{Searches, MeetsParts};

use causes::Declined;
use table::Part;

// What a meeting answers: the numbers of u's and v's offers, the steps of the search and the heights of the two trees.
#[derive(Clone, Copy)]
pub struct Meeting {
    pub u: i64,
    pub v: i64,
    pub steps: i64,
    pub hl: i64,
    pub hr: i64,
}

// No offer is live.
fn is_empty(part: &[i64]) -> bool
    ensures { result ≡ ltb (up_to most_nodes (word part.now live_count_word)) 1 }
{
    table::number_at(part, table::LIVE_COUNT, table::MOST_NODES) < 1
}

// Every rate of the left is above every rate of the right: the last of the left is above the first of the right.
fn stand_apart(left: &[i64], right: &[i64]) -> bool
    ensures { SetsApart left.now right.now result }
{
    let x = form::offers_root(left);
    let y = form::offers_root(right);
    let a = descents::end(left, table::OFFERS, true, x);
    let b = descents::end(right, table::OFFERS, false, y);
    let rate = table::get(right, table::RATE, b);
    table::is_above(left, table::RATE, a, rate)
}

// Searches the meeting of the two root envelopes.
fn search_roots(left: &[i64], right: &[i64]) -> Meeting
    ensures { Searches left.now right.now result }
{
    let l = form::envelope_root(left);
    let r = form::envelope_root(right);
    let m = search::meet(&Part::of(left), &Part::of(right), l, r);
    let u = table::get(left, table::NUMBER, m.u);
    let v = table::get(right, table::NUMBER, m.v);
    let hl = table::height(left, table::PIECES, l);
    let hr = table::height(right, table::PIECES, r);
    Meeting {
        u,
        v,
        steps: m.steps as i64,
        hl: hl as i64,
        hr: hr as i64,
    }
}

// The meeting of two parts.
fn meet_parts(left: &[i64], right: &[i64]) -> Result<Meeting, Declined>
    ensures { MeetsParts left.now right.now result }
{
    if is_empty(left) || is_empty(right) {
        return Err(Declined::Empty);
    }
    if !stand_apart(left, right) {
        return Err(Declined::RatesNotApart);
    }
    Ok(search_roots(left, right))
}

// The meeting of the book at `left_start` with the book at `right_start`, whose rates are all below the first's.
pub fn meet(
    left: &[i64],
    left_start: usize,
    right: &[i64],
    right_start: usize,
) -> Result<Meeting, Declined>
    ensures { MeetsBooks left.now left_start right.now right_start result }
{
    if promises::no_book(left, left_start) || promises::no_book(right, right_start) {
        return Err(Declined::NoBook);
    }
    meet_parts(&left[left_start..], &right[right_start..])
}
