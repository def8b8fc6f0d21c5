// The carrier book in a lent table: open, post, withdraw, take_back, query, listing, report, check.
#![tactic(auto)]

ghost use Rattle.plain.specs.Book.{post, withdraw, take_back};
ghost use Rattle.promises.specs.Promises.{Updates};

pub use asking::{listing, query};
pub use check_part::check;
pub use opening::open;
pub use promises::{Declined, Found, Update, no_book};
pub use reporting::report;

// Posts an offer to the book at `start`.
pub fn post(
    table: &mut [i64],
    start: usize,
    number: i64,
    rate: i64,
    base: i64,
) -> Result<Update, Declined>
    ensures { Updates (post number rate base) start table.old table.new result }
{
    if no_book(table, start) {
        return Err(Declined::NoBook);
    }
    recording::range_cause(number, rate, base)?;
    declining::post_cause(&table[start..], number)?;
    Ok(recording::post_kept(&mut table[start..], number, rate, base))
}

// Withdraws an offer from the book at `start`.
pub fn withdraw(table: &mut [i64], start: usize, number: i64) -> Result<Update, Declined>
    ensures { Updates (withdraw number) start table.old table.new result }
{
    if no_book(table, start) {
        return Err(Declined::NoBook);
    }
    if query::outside(1, 9_999, number) {
        return Err(Declined::OutOfRange);
    }
    let s = declining::live_slot(&table[start..], number);
    if s < 1 {
        return Err(Declined::NotLive);
    }
    Ok(recording::withdraw_kept(&mut table[start..], number, s))
}

// Undoes the last accepted post or withdrawal that has not itself been undone, of the book at `start`.
pub fn take_back(table: &mut [i64], start: usize) -> Result<Update, Declined>
    ensures { Updates take_back start table.old table.new result }
{
    if no_book(table, start) {
        return Err(Declined::NoBook);
    }
    recording::take_back_part(&mut table[start..])
}
