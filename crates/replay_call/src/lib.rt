// One encoded call on a book: made, and its answer written.
#![tactic(auto)]

ghost use Rattle.std.specs.Prelude.{◌≡◌, ◌+◌, ◌≤◌, length};
ghost use Rattle.plain.specs.Book.{post, withdraw, query, listing, take_back, report};
ghost use Rattle.replay_words.specs.Encoding.{stretch};
ghost use Rattle.replay_words.specs.Decoding.{meant};
ghost use Rattle.replay_call.specs.OneCall.{Performed, Step};

use replay_words::Call;

fn do_post(table: &mut [i64], start: usize, number: i64, rate: i64, base: i64, out: &mut [i64])
    requires { 5 ≤ length out.old }
    ensures { Performed (post number rate base) start table.old table.new out.old out.new }
{
    let told = book::post(table, start, number, rate, base);
    replay_words::tell_update(out, told);
}

fn do_withdraw(table: &mut [i64], start: usize, number: i64, out: &mut [i64])
    requires { 5 ≤ length out.old }
    ensures { Performed (withdraw number) start table.old table.new out.old out.new }
{
    let told = book::withdraw(table, start, number);
    replay_words::tell_update(out, told);
}

fn do_query(table: &[i64], start: usize, load: i64, out: &mut [i64])
    requires { 5 ≤ length out.old }
    ensures { Performed (query load) start table.now table.now out.old out.new }
{
    let told = book::query(table, start, load);
    replay_words::tell_found(out, told);
}

// The output lent is the `room` words behind the answer's five.
fn do_listing(table: &[i64], start: usize, room: usize, out: &mut [i64])
    requires { 5 + room ≤ length out.old }
    ensures { Performed (listing room) start table.now table.now out.old out.new }
{
    let end = 5 + room;
    let told = book::listing(table, start, &mut out[5..end]);
    replay_words::tell_count(out, told);
}

// The output lent is as a listing's.
fn do_report(table: &[i64], start: usize, load: i64, price: i64, room: usize, out: &mut [i64])
    requires { 5 + room ≤ length out.old }
    ensures { Performed (report load price room) start table.now table.now out.old out.new }
{
    let last = 5 + room;
    let told = book::report(table, start, load, price, &mut out[5..last]);
    replay_words::tell_count(out, told);
}

fn do_take_back(table: &mut [i64], start: usize, out: &mut [i64])
    requires { 5 ≤ length out.old }
    ensures { Performed take_back start table.old table.new out.old out.new }
{
    let told = book::take_back(table, start);
    replay_words::tell_update(out, told);
}

// Makes a call whose answer fits. Returns how many words that takes.
fn perform(table: &mut [i64], start: usize, call: Call, out: &mut [i64]) -> usize
    requires { stretch (meant call) ≤ length out.old }
    ensures tells { Performed (meant call) start table.old table.new out.old out.new }
    ensures used { result ≡ stretch (meant call) }
{
    match call {
        Call::Post { number, rate, base } => {
            do_post(table, start, number, rate, base, out);
            5
        }
        Call::Withdraw(number) => {
            do_withdraw(table, start, number, out);
            5
        }
        Call::Query(load) => {
            do_query(table, start, load, out);
            5
        }
        Call::Listing(room) => {
            do_listing(table, start, room, out);
            5 + room
        }
        Call::TakeBack => {
            do_take_back(table, start, out);
            5
        }
        Call::Report {
            load,
            price,
            room: words,
        } => {
            do_report(table, start, load, price, words, out);
            5 + words
        }
    }
}

// Makes the first call, where it can be read and its answer fits. Returns how many words the answer takes, and 0 where there is no such call:
// `Step` says it of that number, and no answer takes 0.
pub fn one_call(table: &mut [i64], start: usize, calls: &[i64], out: &mut [i64]) -> usize
    ensures { Step start table.old table.new calls.now out.old out.new result }
{
    let next = replay_words::next_call(calls);
    match next {
        Some(call) if replay_words::fits(next, out.len()) => perform(table, start, call, out),
        _ => 0,
    }
}
