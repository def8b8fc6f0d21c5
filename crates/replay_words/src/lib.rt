// Calls and answers as words: a call is read from four words, and an answer is written over five.
#![tactic(auto)]

ghost use Rattle.std.specs.Prelude.{◌≡◌, ◌++◌, ◌∷◌, ◌≤◌, length, drop};
ghost use Rattle.replay_words.specs.Encoding.{short_call, call_of, next_call, fitting, refusal_words, update_words, found_words, count_words};
ghost use Rattle.replay_words.specs.Decoding.{asked};

use promises::{Declined, Found, Update};

// A call that four words encode.
#[derive(Clone, Copy)]
pub enum Call {
    Post { number: i64, rate: i64, base: i64 },
    Withdraw(i64),
    Query(i64),
    Listing(usize),
    TakeBack,
    Report { load: i64, price: i64, room: usize },
}

// ---- calls read

// A call with one argument at most. A listing's room is no number below 0.
fn read_short(code: i64, a: i64) -> Option<Call>
    ensures { asked result ≡ short_call code a }
{
    match code {
        2 => Some(Call::Withdraw(a)),
        3 => Some(Call::Query(a)),
        4 if a >= 0 => Some(Call::Listing(a as usize)),
        5 if a == 0 => Some(Call::TakeBack),
        _ => None,
    }
}

// The call that four words encode. A post and a report use all of them; of another the last two are 0.
fn read_call(code: i64, a: i64, b: i64, c: i64) -> Option<Call>
    ensures { asked result ≡ call_of code a b c }
{
    match code {
        1 => Some(Call::Post {
            number: a,
            rate: b,
            base: c,
        }),
        6 if c >= 0 => Some(Call::Report {
            load: a,
            price: b,
            room: c as usize,
        }),
        _ if b == 0 && c == 0 => read_short(code, a),
        _ => None,
    }
}

// The first call, where there are four words and they encode one.
pub fn next_call(calls: &[i64]) -> Option<Call>
    ensures { asked result ≡ next_call calls.now }
{
    match calls {
        &[code, a, b, c, ..] => read_call(code, a, b, c),
        _ => None,
    }
}

// There is a call, and `room` words are enough for its answer: tested without the sum of five and the call's own room, which might not fit.
pub fn fits(next: Option<Call>, room: usize) -> bool
    ensures { result ≡ fitting (asked next) room }
{
    let words = match next {
        Some(Call::Listing(words)) | Some(Call::Report { room: words, .. }) => words,
        Some(_) => 0,
        None => return false,
    };
    5 <= room && words <= room - 5
}

// ---- answers written

// Writes an answer's five words.
fn put(out: &mut [i64], words: [i64; 5])
    requires { 5 ≤ length out.old }
    ensures { out.new ≡ words ++ drop 5 out.old }
{
    out[..5].copy_from_slice(&words);
}

// A refusal's answer: its number, and no value.
fn tell_refusal(out: &mut [i64], cause: Declined)
    requires { 5 ≤ length out.old }
    ensures { out.new ≡ refusal_words cause ++ drop 5 out.old }
{
    put(out, [cause.number(), 0, 0, 0, 0]);
}

// An update's answer: 0, the live count, k, s and H; or the refusal's number.
pub fn tell_update(out: &mut [i64], told: Result<Update, Declined>)
    requires { 5 ≤ length out.old }
    ensures { out.new ≡ update_words told ++ drop 5 out.old }
{
    match told {
        Ok(u) => put(out, [0, u.live, u.k, u.s, u.h]),
        Err(cause) => tell_refusal(out, cause),
    }
}

// A query's answer: 0, the offer's number, the price, the second offer's number and the probes; or the refusal's number.
pub fn tell_found(out: &mut [i64], told: Result<Found, Declined>)
    requires { 5 ≤ length out.old }
    ensures { out.new ≡ found_words told ++ drop 5 out.old }
{
    match told {
        Ok(f) => put(out, [0, f.number, f.price, f.second, f.probes]),
        Err(cause) => tell_refusal(out, cause),
    }
}

// A listing's answer or a report's: 0 and the count of pieces or offers; or the refusal's number.
pub fn tell_count(out: &mut [i64], told: Result<i64, Declined>)
    requires { 5 ≤ length out.old }
    ensures { out.new ≡ count_words told ++ drop 5 out.old }
{
    match told {
        Ok(count) => put(out, [0, count, 0, 0, 0]),
        Err(cause) => tell_refusal(out, cause),
    }
}
