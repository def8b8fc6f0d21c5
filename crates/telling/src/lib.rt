// The answers of an opening, an update, a query, a listing and a report for Rust and C: each is one number, a refusal its cause below 0, and what goes with
// it is written over the first words of a lent output.
#![tactic(auto)]

ghost use Rattle.std.specs.Prelude.{◌≡◌, ◌≤◌, length};
ghost use Rattle.answers.specs.Promises.{refusal, opening_number, update_number, found_number, count_number, counts_of, found_of, Tells};

use causes::Declined;
use promises::{Found, Update};

// A cause, below 0.
pub fn below_zero(cause: i64) -> i64
    ensures { result ≡ refusal cause }
{
    if 0 < cause {
        return -cause;
    }
    cause
}

// An opening's answer.
pub fn opening_number(o: Result<(), Declined>) -> i64
    ensures { result ≡ opening_number o }
{
    match o {
        Ok(()) => 0,
        Err(cause) => below_zero(cause.number()),
    }
}

// A listing's answer, or a report's.
pub fn count_number(m: Result<i64, Declined>) -> i64
    ensures { result ≡ count_number m }
{
    match m {
        Ok(count) => count,
        Err(cause) => below_zero(cause.number()),
    }
}

// An update's answer; k, s and H go into `counts`.
pub fn tell_update(u: Result<Update, Declined>, counts: &mut [i64]) -> i64
    requires { 3 ≤ length counts.old }
    ensures { Tells (update_number u) (counts_of u) counts.old counts.new result }
{
    match u {
        Ok(Update { live, k, s, h }) => {
            counts[0] = k;
            counts[1] = s;
            counts[2] = h;
            live
        }
        Err(cause) => below_zero(cause.number()),
    }
}

// A query's answer; the price, the second offer's number and the probes go into `found`.
pub fn tell_found(f: Result<Found, Declined>, found: &mut [i64]) -> i64
    requires { 3 ≤ length found.old }
    ensures { Tells (found_number f) (found_of f) found.old found.new result }
{
    match f {
        Ok(offer) => {
            found[0] = offer.price;
            found[1] = offer.second;
            found[2] = offer.probes;
            offer.number
        }
        Err(cause) => below_zero(cause.number()),
    }
}
