// The carrier book for Rust and C: a slice is a pointer and a length there. Every answer is one number, a refusal its cause below 0.
// Rust's rules hold of what is lent: a pointer is aligned and not null, and what is written overlaps nothing else that is lent.
#![tactic(auto)]

ghost use Rattle.answers.specs.Promises.{Opened, Posted, Withdrawn, TakenBack, Queried, Listing, Report, Checked, MetBooks, MarkAsked};
ghost use Rattle.answers.specs.Promises.{Vouchered, Begun, Pieced};

// Opens an empty book at `start`: 0.
#[unsafe(no_mangle)]
pub extern "C" fn carrier_open(table: &mut [i64], start: usize, capacity: i64) -> i64
    ensures { Opened capacity start table.old table.new result }
{
    telling::opening_number(book::open(table, start, capacity))
}

// Posts an offer: the live count, and k, s and H in `counts`.
#[unsafe(no_mangle)]
pub extern "C" fn carrier_post(
    table: &mut [i64],
    start: usize,
    number: i64,
    rate: i64,
    base: i64,
    counts: &mut [i64],
) -> i64
    ensures { Posted number rate base start table.old table.new counts.old counts.new result }
{
    if counts.len() < 3 {
        return -100;
    }
    telling::tell_update(book::post(table, start, number, rate, base), counts)
}

// Withdraws an offer: the live count, and k, s and H in `counts`.
#[unsafe(no_mangle)]
pub extern "C" fn carrier_withdraw(
    table: &mut [i64],
    start: usize,
    number: i64,
    counts: &mut [i64],
) -> i64
    ensures { Withdrawn number start table.old table.new counts.old counts.new result }
{
    if counts.len() < 3 {
        return -100;
    }
    telling::tell_update(book::withdraw(table, start, number), counts)
}

// Undoes the last accepted post or withdrawal that has not itself been undone: the live count, and k, s and H in `counts`.
#[unsafe(no_mangle)]
pub extern "C" fn carrier_take_back(table: &mut [i64], start: usize, counts: &mut [i64]) -> i64
    ensures { TakenBack start table.old table.new counts.old counts.new result }
{
    if counts.len() < 3 {
        return -100;
    }
    telling::tell_update(book::take_back(table, start), counts)
}

// The cheapest offer at a load, of several the one with the lowest rate: its number; and in `found` its price, the number of the one with the highest
// rate, and the probes.
#[unsafe(no_mangle)]
pub extern "C" fn carrier_query(table: &[i64], start: usize, load: i64, found: &mut [i64]) -> i64
    ensures { Queried load start table.now found.old found.new result }
{
    if found.len() < 3 {
        return -100;
    }
    telling::tell_found(book::query(table, start, load), found)
}

// Writes the pieces, three words each: how many.
#[unsafe(no_mangle)]
pub extern "C" fn carrier_listing(table: &[i64], start: usize, out: &mut [i64]) -> i64
    ensures { Listing start table.now out.old out.new result }
{
    telling::count_number(book::listing(table, start, out))
}

// Writes the offers whose price at the load is strictly below `price`, three words each: how many.
#[unsafe(no_mangle)]
pub extern "C" fn carrier_report(
    table: &[i64],
    start: usize,
    load: i64,
    price: i64,
    out: &mut [i64],
) -> i64
    ensures { Report load price start table.now out.old out.new result }
{
    telling::count_number(book::report(table, start, load, price, out))
}

// Whether the words from `start` on pass the check: 1 or 0.
#[unsafe(no_mangle)]
pub extern "C" fn carrier_check(table: &[i64], start: usize) -> i64
    ensures { Checked start table.now result }
{
    if book::check(table, start) {
        return 1;
    }
    0
}

// The meeting of two books, the first's rates above the second's: u's offer, and v's offer, the steps and both heights in `met`.
#[unsafe(no_mangle)]
pub extern "C" fn carrier_meet(
    first: &[i64],
    first_start: usize,
    second: &[i64],
    second_start: usize,
    met: &mut [i64],
) -> i64
    ensures { MetBooks first.now first_start second.now second_start met.old met.new result }
{
    if met.len() < 4 {
        return -100;
    }
    telling_more::tell_met(
        meet_books::meet(first, first_start, second, second_start),
        met,
    )
}

// Chart mark `index`: 0 for an open end, with its rate in `mark`, and 1 for a crossing, with its load and price.
#[unsafe(no_mangle)]
pub extern "C" fn carrier_mark(table: &[i64], start: usize, index: i64, mark: &mut [f64]) -> i64
    ensures { MarkAsked start table.now index mark.old mark.new result }
{
    if mark.len() < 2 {
        return -100;
    }
    telling_more::tell_mark(chart::mark(table, start, index), mark)
}

// A price in whole units of 100 cents: 0, and the units in `units`.
#[unsafe(no_mangle)]
pub extern "C" fn carrier_voucher(price: i64, units: &mut [i64]) -> i64
    ensures { Vouchered price units.old units.new result }
{
    if units.len() < 1 {
        return -100;
    }
    telling_more::tell_voucher(vouchers::voucher_price(price), units)
}

// The place of the first piece, from which a reading goes on by carrier_piece; 0 where there is none.
#[unsafe(no_mangle)]
pub extern "C" fn carrier_begin(table: &[i64], start: usize) -> i64
    ensures { Begun start table.now result }
{
    let place = reading::first_place(table, start);
    telling_more::place_number(reading::piece_at(table, start, place), place)
}

// Hands out the piece at a place: the place of the next, 0 past the last, and the piece's three words in `piece`.
#[unsafe(no_mangle)]
pub extern "C" fn carrier_piece(table: &[i64], start: usize, place: i64, piece: &mut [i64]) -> i64
    ensures { Pieced start table.now place piece.old piece.new result }
{
    if piece.len() < 3 {
        return -100;
    }
    let at = table::up_to(4_294_967_295, place);
    let next = reading::place_after(table, start, at);
    telling_more::tell_piece(reading::piece_at(table, start, at), next, piece)
}
