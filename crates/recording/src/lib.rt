// The updates of a part with its memory: a post and a withdrawal are remembered, and the last of them is taken back.
#![tactic(auto)]

ghost use Rattle.std.specs.Prelude.{◌≡◌, T};
ghost use Rattle.offers.specs.Offers.{offer_in_range};
ghost use Rattle.plain.specs.Book.{post, unpost, restore};
ghost use Rattle.recording.specs.Ranges.{RangeCause};
ghost use Rattle.recording.specs.Recording.{update_of, PostKept, WithdrawKept, Undoes, TakesBack};

use causes::Declined;
use promises::Update;

// An update's answer.
fn done(told: filing::Told) -> Update
    ensures { result ≡ update_of told }
{
    Update {
        live: told.live as i64,
        k: told.counts.searches as i64,
        s: told.counts.steps as i64,
        h: told.counts.heights as i64,
    }
}

// The first of an offer's number, rate and base that is out of range, where one is.
pub fn range_cause(number: i64, rate: i64, base: i64) -> Result<(), Declined>
    ensures { RangeCause (post number rate base) result }
{
    if query::outside(1, 9_999, number) {
        return Err(Declined::OutOfRange);
    }
    if query::outside(-100_000, 100_000, rate) {
        return Err(Declined::RateOutOfRange);
    }
    if query::outside(-1_000_000_000, 1_000_000_000, base) {
        return Err(Declined::BaseOutOfRange);
    }
    Ok(())
}

// A post that is not declined, remembered.
pub fn post_kept(part: &mut [i64], number: i64, rate: i64, base: i64) -> Update
    requires { T (offer_in_range (record { number = number; rate = rate; base = base })) }
    ensures { PostKept (record { number = number; rate = rate; base = base }) part.old part.new result }
{
    let told = filing::post_part(part, number, rate, base);
    memory::remember(part, memory::POSTED, number, rate, base);
    done(told)
}

// A withdrawal that is not declined, of the offer in slot `s`, remembered: its rate and base are read before the slot is given back.
pub fn withdraw_kept(part: &mut [i64], number: i64, s: u32) -> Update
    ensures { WithdrawKept number s part.old part.new result }
{
    let rate = table::get(part, table::RATE, s);
    let base = table::get(part, table::BASE, s);
    let told = filing::withdraw_part(part, number, s);
    memory::remember(part, memory::WITHDRAWN, number, rate, base);
    done(told)
}

// The last update was a post: its offer goes out again. In a book it is live; on words of any content it may not be, and nothing is taken back.
fn undo_post(part: &mut [i64], number: i64) -> Result<Update, Declined>
    ensures { Undoes (unpost number) part.old part.new result }
{
    let s = declining::live_slot(part, number);
    if s < 1 {
        return Err(Declined::NothingToTakeBack);
    }
    let told = filing::withdraw_part(part, number, s);
    memory::forget(part);
    Ok(done(told))
}

// It was a withdrawal: its offer comes back. In a book nothing is in its way.
fn undo_withdrawal(part: &mut [i64], number: i64, rate: i64, base: i64) -> Result<Update, Declined>
    ensures { Undoes (restore (record { number = number; rate = rate; base = base })) part.old part.new result }
{
    if range_cause(number, rate, base).is_err() || declining::post_cause(part, number).is_err() {
        return Err(Declined::NothingToTakeBack);
    }
    let told = filing::post_part(part, number, rate, base);
    memory::forget(part);
    Ok(done(told))
}

// Undoes the last update that is remembered.
pub fn take_back_part(part: &mut [i64]) -> Result<Update, Declined>
    ensures { TakesBack part.old part.new result }
{
    let last = memory::last(part);
    match last.done {
        memory::POSTED => undo_post(part, last.number),
        memory::WITHDRAWN => undo_withdrawal(part, last.number, last.rate, last.base),
        _ => Err(Declined::NothingToTakeBack),
    }
}
