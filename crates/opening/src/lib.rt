// A book opened in a lent table: its part laid out empty.
#![tactic(auto)]

ghost use Rattle.std.specs.Prelude.{◌≤◌, length};
ghost use Rattle.plain.specs.Book.{part_length};
ghost use Rattle.table.specs.Fields.{most_slots};
ghost use Rattle.promises.specs.Promises.{Opens};
ghost use Rattle.opening.specs.Starting.{Heading, Lays, Starts};

use causes::Declined;

const MOST_CAPACITY: i64 = table::MOST_SLOTS as i64;

// The header of an empty book.
fn begin(part: &mut [i64], capacity: u32)
    ensures { Heading capacity part.old part.new }
{
    table::set_number(part, table::CAPACITY, capacity);
    table::set_number(part, table::OFFERS_ROOT, 0);
    table::set_number(part, table::ENVELOPE_ROOT, 0);
    table::set_number(part, table::LIVE_COUNT, 0);
    table::set_number(part, table::NUMBERS_ROOT, 0);
    table::set_number(part, table::FIRST_FREE, 1);
    table::set_number(part, table::ORDER_ROOT, 0);
}

// Each slot is free, and the next free one follows it.
fn lay(part: &mut [i64], capacity: u32)
    requires { (1 ≤ capacity) × (capacity ≤ most_slots) }
    ensures { Lays capacity part.old part.new }
{
    for n in 1..capacity {
        table::put_link(part, table::NUMBER, n, 0);
        table::put_link(part, table::NEXT_FREE, n, n + 1);
    }
    table::put_link(part, table::NUMBER, capacity, 0);
    table::put_link(part, table::NEXT_FREE, capacity, 0);
}

// An empty book on words enough for it.
fn start_book(part: &mut [i64], capacity: u32)
    requires { (1 ≤ capacity) × (capacity ≤ most_slots) × (part_length capacity ≤ length part.old) }
    ensures { Starts capacity part.old part.new }
{
    begin(part, capacity);
    lay(part, capacity);
    memory::empty(part);
}

// Opens an empty book at `start`.
pub fn open(table: &mut [i64], start: usize, capacity: i64) -> Result<(), Declined>
    ensures { Opens capacity start table.old table.new result }
{
    if query::outside(1, MOST_CAPACITY, capacity) {
        return Err(Declined::Capacity);
    }
    let c = table::up_to(table::MOST_SLOTS, capacity);
    if table.len() < start {
        return Err(Declined::NoRoom);
    }
    if table.len() - start < 64 * (c as usize + 1) + table::MEMORY {
        return Err(Declined::NoRoom);
    }
    start_book(&mut table[start..], c);
    Ok(())
}
