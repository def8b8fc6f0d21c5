// The answers of a meeting, a mark, a voucher and a reading for Rust and C, told as telling does.
#![tactic(auto)]

ghost use Rattle.std.specs.Prelude.{◌≡◌, ◌≤◌, length};
ghost use Rattle.answers.specs.Promises.{refusal, meet_number, mark_number, place_number, met_of, piece_of, Tells};
ghost use Rattle.meet_books.specs.Promises.{meet_answer};
ghost use Rattle.chart.specs.Promises.{told as mark_told};
ghost use Rattle.vouchers.specs.VoucherTold.{told as voucher_told};
ghost use Rattle.reading.specs.Promises.{told as piece_told};

use causes::Declined;
use marks::Mark;
use meet_books::Meeting;
use reading::Piece;
use telling::below_zero;

// A meeting's answer, u's offer; v's offer, the steps and the two heights go into `met`.
pub fn tell_met(m: Result<Meeting, Declined>, met: &mut [i64]) -> i64
    requires { 4 ≤ length met.old }
    ensures { Tells (meet_number (meet_answer m)) (met_of (meet_answer m)) met.old met.new result }
{
    match m {
        Ok(meeting) => {
            met[0] = meeting.v;
            met[1] = meeting.steps;
            met[2] = meeting.hl;
            met[3] = meeting.hr;
            meeting.u
        }
        Err(cause) => below_zero(cause.number()),
    }
}

// The number of an open end, and of a crossing, as a mark's answer.
const OPEN_END: i64 = 0;

const CROSSING: i64 = 1;

// A mark's answer: 0 for an open end, whose rate goes into `mark`, and 1 for a crossing, whose load and price do.
pub fn tell_mark(m: Result<Mark, Declined>, mark: &mut [f64]) -> i64
    requires { 2 ≤ length mark.old }
    ensures { Tells (mark_number (mark_told m).number (mark_told m).values) (mark_told m).values mark.old mark.new result }
{
    match m {
        Ok(Mark::OpenEnd(rate)) => {
            mark[0] = rate;
            OPEN_END
        }
        Ok(Mark::Crossing(point)) => {
            mark[0] = point.load;
            mark[1] = point.price;
            CROSSING
        }
        Err(cause) => below_zero(cause.number()),
    }
}

// A voucher's answer; the units go into `units`.
pub fn tell_voucher(v: Result<i64, Declined>, units: &mut [i64]) -> i64
    requires { 1 ≤ length units.old }
    ensures { Tells (refusal (voucher_told v).number) (voucher_told v).values units.old units.new result }
{
    match v {
        Ok(u) => {
            units[0] = u;
            0
        }
        Err(cause) => below_zero(cause.number()),
    }
}

// The place at which a reading stands that hands out `h` there.
pub fn place_number(h: Result<Option<Piece>, Declined>, place: u32) -> i64
    ensures { result ≡ place_number place (piece_told h) }
{
    match h {
        Ok(_) => place as i64,
        Err(cause) => below_zero(cause.number()),
    }
}

// A step of a reading, the place of the next; what it hands out goes into `piece`.
pub fn tell_piece(h: Result<Option<Piece>, Declined>, next: u32, piece: &mut [i64]) -> i64
    requires { 3 ≤ length piece.old }
    ensures { Tells (place_number next (piece_told h)) (piece_of (piece_told h)) piece.old piece.new result }
{
    match h {
        Ok(Some(handed)) => {
            piece[0] = handed.number;
            piece[1] = handed.numerator;
            piece[2] = handed.denominator;
            next as i64
        }
        Ok(None) => next as i64,
        Err(cause) => below_zero(cause.number()),
    }
}
