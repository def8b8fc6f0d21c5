// A book's part as its calls change it: an offer posted, an offer withdrawn. What declines them is tried before, by declining; the calls
// themselves, with their guards, are book's.
#![tactic(auto)]

ghost use Rattle.std.specs.Prelude.{T};
ghost use Rattle.offers.specs.Offers.{offer_in_range};
ghost use Rattle.filing.specs.PartUpdates.{PostDone, WithdrawDone};

use levels::Counts;

// The live count after an update, and what its searches took.
#[derive(Drop)]
pub struct Told {
    pub live: u32,
    pub counts: Counts,
}

// On words too few for a part nothing is done. A caller has seen that they are enough; said here again, the tests of each word read need not be made.
fn nothing() -> Told {
    Told {
        live: 0,
        counts: Counts::NONE,
    }
}

// A post that is not declined.
pub fn post_part(part: &mut [i64], number: i64, rate: i64, base: i64) -> Told
    requires { T (offer_in_range (record { number = number; rate = rate; base = base })) }
    ensures { PostDone (record { number = number; rate = rate; base = base }) part.old part.new result }
{
    if part.len() < table::LEAST_PART {
        return nothing();
    }
    let held = settling::roots(part);
    let n = table::number_at(part, table::LIVE_COUNT, table::MOST_NODES);
    let f = settling::find_rate(part, held.tree, rate);
    let s = settling::fill(part, number, rate, base);
    settling::enter(part, table::NUMBERS, table::NUMBER, table::NUMBERS_ROOT, s);
    settling::enter(part, table::ORDER, table::RANK, table::ORDER_ROOT, s);
    let joined = settling::join_offers(part, held, s, f);
    let live = n + 1;
    settling::set_roots(part, joined.held, live);
    Told {
        live,
        counts: joined.counts,
    }
}

// A withdrawal that is not declined, of the offer in slot `s`.
pub fn withdraw_part(part: &mut [i64], number: i64, s: u32) -> Told
    ensures { WithdrawDone number s part.old part.new result }
{
    if part.len() < table::LEAST_PART {
        return nothing();
    }
    let held = settling::roots(part);
    let n = table::number_at(part, table::LIVE_COUNT, table::MOST_NODES);
    let rank = table::get(part, table::RANK, s);
    let f = settling::find_rate(part, held.tree, table::get(part, table::RATE, s));
    let by = settling::follower(part, s);
    settling::strike(
        part,
        table::NUMBERS,
        table::NUMBER,
        table::NUMBERS_ROOT,
        number,
    );
    settling::strike(part, table::ORDER, table::RANK, table::ORDER_ROOT, rank);
    let rest = settling::leave_offers(part, held, s, f, by);
    let live = n.saturating_sub(1);
    settling::set_roots(part, rest.held, live);
    table::give_slot(part, s);
    Told {
        live,
        counts: rest.counts,
    }
}
