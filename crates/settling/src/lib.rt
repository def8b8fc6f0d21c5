// The steps by which an offer comes into a book's part or leaves it: a slot filled, both indexes, the tree of offers with a leaf per rate. Filing makes
// an update of them.
#![tactic(auto)]

ghost use Rattle.std.specs.Prelude.{◌≡◌, T};
ghost use Rattle.offers.specs.Offers.{offer_in_range};
ghost use Rattle.table.specs.Fields.{offer_tree, rate_field};
ghost use Rattle.table.specs.Free.{first_free};
ghost use Rattle.descents.specs.Finds.{Found};
ghost use Rattle.settling.specs.Indexes.{Entered, Struck};
ghost use Rattle.settling.specs.Settling.{idle, Joined, Left};
ghost use Rattle.settling.specs.Following.{FollowedAt};
ghost use Rattle.settling.specs.Writing.{filling, roots_of, rooting};

use levels::{Counts, Held, Made};

// Puts an offer with its rank into the first free slot.
pub fn fill(part: &mut [i64], number: i64, rate: i64, base: i64) -> u32
    requires { T (offer_in_range (record { number = number; rate = rate; base = base })) }
    ensures is { result ≡ first_free part.old }
    ensures words { part.new ≡ filling (record { number = number; rate = rate; base = base }) result part.old }
{
    let s = table::take_slot(part);
    table::put(part, table::NUMBER, s, number);
    table::put(part, table::RATE, s, rate);
    table::put(part, table::BASE, s, base);
    table::put(part, table::RANK, s, form::rank_of(number, rate, base));
    s
}

// Enters the item in slot `s` in the index whose root is at word `at`.
pub fn enter(part: &mut [i64], tree: u8, field: usize, at: usize, s: u32)
    ensures { Entered tree field at s part.old part.new }
{
    let root = table::number_at(part, at, table::MOST_NODES);
    let y = index::add(part, tree, field, root, s);
    table::set_number(part, at, y);
}

// Not one function with `enter`: they differ in a call, not in a value.
// Strikes the item with that key out of the index whose root is at word `at`.
pub fn strike(part: &mut [i64], tree: u8, field: usize, at: usize, key: i64)
    ensures { Struck tree field at key part.old part.new }
{
    let root = table::number_at(part, at, table::MOST_NODES);
    let y = index::drop_key(part, tree, field, root, key);
    table::set_number(part, at, y);
}

// The roots that the header tells: of the offers and of their envelope.
pub fn roots(part: &[i64]) -> Held
    ensures { result ≡ roots_of part.now }
{
    Held {
        tree: form::offers_root(part),
        envelope: form::envelope_root(part),
    }
}

// The slot of the first offer of that rate, and 0 where none has it.
pub fn find_rate(part: &[i64], root: u32, rate: i64) -> u32
    ensures { Found part.now offer_tree rate_field rate root result }
{
    descents::find(part, table::OFFERS, table::RATE, rate, root)
}

// The slot of the offer behind that in slot `s`, where it has the same rate, and 0 otherwise.
pub fn follower(part: &[i64], s: u32) -> u32
    ensures { FollowedAt s part.now result }
{
    let root = table::number_at(part, table::ORDER_ROOT, table::MOST_NODES);
    let rank = table::get(part, table::RANK, s);
    let b = descents::after(part, table::ORDER, table::RANK, rank, root);
    if b < 1 {
        return 0;
    }
    if table::is_equal(part, table::RATE, b, table::get(part, table::RATE, s)) {
        return b;
    }
    0
}

// The tree in hand as it is: nothing was searched.
fn idle(held: Held) -> Made
    ensures { result ≡ idle held }
{
    Made {
        held,
        counts: Counts::NONE,
    }
}

// Joins the item in slot `s` to the offers in hand; that in slot `f` is the first of its rate, 0 for none. It stands alone, is inserted, or takes
// the place of that one where it goes ahead of it.
pub fn join_offers(part: &mut [i64], held: Held, s: u32, f: u32) -> Made
    ensures { Joined s f held part.old part.new result }
{
    if f < 1 {
        if held.tree < 1 {
            return update::alone(s);
        }
        return update::insert(part, held, s);
    }
    if table::is_above(part, table::RANK, s, table::get(part, table::RANK, f)) {
        return update::remove(part, held, f, s);
    }
    idle(held)
}

// Takes the item in slot `s` out of the offers in hand where that in slot `f`, the first of its rate, is itself; that in slot `by`, if it is not 0,
// comes in its place.
pub fn leave_offers(part: &mut [i64], held: Held, s: u32, f: u32, by: u32) -> Made
    ensures { Left s f by held part.old part.new result }
{
    if f != s {
        return idle(held);
    }
    update::remove(part, held, s, by)
}

// Sets the roots of the offers and of their envelope, and the live count.
pub fn set_roots(part: &mut [i64], held: Held, n: u32)
    ensures { part.new ≡ rooting held n part.old }
{
    table::set_number(part, table::OFFERS_ROOT, held.tree);
    table::set_number(part, table::ENVELOPE_ROOT, held.envelope);
    table::set_number(part, table::LIVE_COUNT, n);
}
