// The call `report`: every live offer under a price, into a lent output. The table is only read, and any words are safe.
#![tactic(auto)]

ghost use Rattle.promises.specs.Promises.{Reports};
ghost use Rattle.reporting.specs.Counting.{Under};
ghost use Rattle.reporting.specs.Telling.{Tells};

use causes::Declined;

// How many offers of a part are under the price. Their words are written where the output has room for them all. Where not even the cheapest is, that is
// seen at the end of a query's descent. None where a walk gave up, which no book's words make it do.
fn write_under(part: &[i64], load: i64, price: i64, out: &mut [i64]) -> u32
    ensures { Under load price part.now out.old out.new result }
{
    let x = form::offers_root(part);
    if x < 1 {
        return 0;
    }
    let root = form::envelope_root(part);
    let found = query::descend(part, root, load);
    let e = found.slot;
    if !gathering::is_below(part, e, load, price) {
        return 0;
    }
    let mut firsts = [0; gathering::SLOTS];
    let n = gathering::gather(part, x, e, load, price, &mut firsts);
    if gathering::SLOTS < n {
        return 0;
    }
    let mut all = [0; gathering::SLOTS];
    let m = spreading::spread(part, &firsts, n, load, price, &mut all);
    if gathering::SLOTS < m {
        return 0;
    }
    spreading::write(part, &all, m, out);
    m as u32
}

// The offers of a part that are under the price.
fn tell(part: &[i64], load: i64, price: i64, out: &mut [i64]) -> Result<i64, Declined>
    ensures { Tells load price part.now out.old out.new result }
{
    let room = out.len();
    let n = write_under(part, load, price, out);
    if room < 3 * (n as usize) {
        return Err(Declined::OutputTooShort);
    }
    Ok(n as i64)
}

// Number, rate, base of every live offer whose price at the load is strictly below `price`, in order, from the first word of the output on.
pub fn report(
    table: &[i64],
    start: usize,
    load: i64,
    price: i64,
    out: &mut [i64],
) -> Result<i64, Declined>
    ensures { Reports load price start table.now out.old out.new result }
{
    if promises::no_book(table, start) {
        return Err(Declined::NoBook);
    }
    if query::outside(-101_000_000_000, 101_000_000_000, price) {
        return Err(Declined::OutOfRange);
    }
    if query::outside(-1_000_000, 1_000_000, load) {
        return Err(Declined::LoadOutOfRange);
    }
    tell(&table[start..], load, price, out)
}
