// What is asked of a book in a lent table: a query and a listing.
#![tactic(auto)]

ghost use Rattle.std.specs.Prelude.{◌≡◌};
ghost use Rattle.table.specs.Fields.{number_field};
ghost use Rattle.table.specs.Layout.{cell};
ghost use Rattle.promises.specs.Promises.{Queries, Lists};
ghost use Rattle.asking.specs.Asking.{Asks};
ghost use Rattle.asking.specs.Showing.{Shown};

use causes::Declined;
use promises::Found;

// The number in slot `other`. Without a tie that is `slot`, whose number is known.
fn beside(part: &[i64], slot: u32, number: i64, other: u32) -> i64
    requires { number ≡ cell part.now number_field slot }
    ensures { result ≡ cell part.now number_field other }
{
    if other == slot {
        return number;
    }
    query::number(part, other)
}

// The offers at the least price with the lowest and the highest rate, on the part's own words.
fn ask(part: &[i64], load: i64) -> Result<Found, Declined>
    ensures { Asks load part.now result }
{
    if table::number_at(part, table::LIVE_COUNT, table::MOST_NODES) < 1 {
        return Err(Declined::Empty);
    }
    let root = form::envelope_root(part);
    let p = query::descend(part, root, load);
    let number = query::number(part, p.slot);
    Ok(Found {
        number,
        price: query::price(part, p.slot, load),
        second: beside(part, p.slot, number, p.second),
        probes: p.probes as i64,
    })
}

// The cheapest offer at a load, of several the one with the lowest rate, and with it the one with the highest.
pub fn query(table: &[i64], start: usize, load: i64) -> Result<Found, Declined>
    ensures { Queries load start table.now result }
{
    if promises::no_book(table, start) {
        return Err(Declined::NoBook);
    }
    if query::outside(-1_000_000, 1_000_000, load) {
        return Err(Declined::LoadOutOfRange);
    }
    ask(&table[start..], load)
}

// The pieces of a part.
fn show(part: &[i64], out: &mut [i64]) -> Result<i64, Declined>
    ensures { Shown part.now out.old out.new result }
{
    let room = out.len();
    let root = form::envelope_root(part);
    let n = listing::write(part, root, out);
    if room < 3 * (n as usize) {
        return Err(Declined::OutputTooShort);
    }
    Ok(n as i64)
}

// Number, numerator, denominator a piece of the lower envelope, from the first word of the output on.
pub fn listing(table: &[i64], start: usize, out: &mut [i64]) -> Result<i64, Declined>
    ensures { Lists start table.now out.old out.new result }
{
    if promises::no_book(table, start) {
        return Err(Declined::NoBook);
    }
    show(&table[start..], out)
}
