// The lines of the book's answers, as the counter prints them.
#![tactic(auto)]

ghost use Rattle.std.specs.Prelude.{◌≡◌, ◌+◌, ◌*◌, ◌≤◌, length, pos};
ghost use Rattle.table.specs.Words.{up_to};
ghost use Rattle.counter_print.specs.Printed.{Answers};
ghost use Rattle.promises.specs.Promises.{update_answer, found_answer, listing_answer};
ghost use Rattle.counter_reply.specs.Replies.{Replies};
ghost use Rattle.counter_reply.specs.PieceLines.{PieceLine, PiecesTo};

use promises::{Declined, Found, Update};

// The bytes of a line.
pub const LINE: usize = 39;

// The most that an answer takes: the lines of 64 pieces and the listing's own.
pub const MOST: usize = 2_535;

// No envelope has more pieces.
const MOST_PIECES: u32 = 64;

// Writes a line, and tells its bytes.
fn line(out: &mut [u8], letter: u8, refusal: i64, offer: i64, value: i64, second: i64) -> usize
    requires { LINE ≤ length out.old }
    ensures written { Answers letter refusal offer value second out.old out.new }
    ensures count { result ≡ LINE }
{
    counter_print::answer_line(out, letter, refusal, offer, value, second);
    LINE
}

// The line of a post's or a withdrawal's answer.
pub fn update_line(out: &mut [u8], letter: u8, number: i64, told: Result<Update, Declined>) -> usize
    requires { LINE ≤ length out.old }
    ensures { Replies letter number (update_answer told) out.old out.new result }
{
    match told {
        Ok(update) => line(out, letter, 0, number, update.live, 0),
        Err(cause) => line(out, letter, cause.number(), 0, 0, 0),
    }
}

// The line of a query's answer.
pub fn found_line(out: &mut [u8], told: Result<Found, Declined>) -> usize
    requires { LINE ≤ length out.old }
    ensures { Replies 81 (pos 0) (found_answer told) out.old out.new result }
{
    match told {
        Ok(found) => line(out, b'Q', 0, found.number, found.price, found.second),
        Err(cause) => line(out, b'Q', cause.number(), 0, 0, 0),
    }
}

// The line of piece `i`, behind those of the pieces before it.
fn piece_line(pieces: &[i64], i: usize, out: &mut [u8])
    requires { (LINE * i + LINE ≤ length out.old) × (i ≤ MOST_PIECES) }
    ensures { PieceLine pieces.now i out.old out.new }
{
    let number = table::word_at(pieces, 3 * i);
    let numerator = table::word_at(pieces, 3 * i + 1);
    let denominator = table::word_at(pieces, 3 * i + 2);
    counter_print::answer_line(
        &mut out[LINE * i..],
        b'E',
        0,
        number,
        numerator,
        denominator,
    );
}

// The lines of `count` pieces.
fn piece_lines(pieces: &[i64], count: usize, out: &mut [u8])
    requires { (length pieces.now ≡ 3 * count) × (LINE * count ≤ length out.old) × (count ≤ MOST_PIECES) }
    ensures { PiecesTo pieces.now out.old out.new count }
{
    for i in 0..count {
        piece_line(pieces, i, out);
    }
}

// The pieces that a listing tells, at most 64.
fn piece_count(told: i64) -> usize
    ensures is { result ≡ up_to MOST_PIECES told }
    ensures few { result ≤ MOST_PIECES }
{
    table::up_to(MOST_PIECES, told) as usize
}

// The lines of a listing's answer: its pieces, and its own line.
pub fn listed_lines(out: &mut [u8], told: Result<i64, Declined>, pieces: &[i64]) -> usize
    requires { (MOST ≤ length out.old) × (length pieces.now ≡ 192) }
    ensures { Replies 76 (pos 0) (listing_answer told pieces.now) out.old out.new result }
{
    match told {
        Ok(count) => {
            let n = piece_count(count);
            piece_lines(&pieces[..3 * n], n, out);
            LINE * n + line(&mut out[LINE * n..], b'L', 0, 0, count, 0)
        }
        Err(cause) => line(out, b'L', cause.number(), 0, 0, 0),
    }
}
