// The counter: a line of text is answered on the book that stands at the table's beginning, as lines of text.
#![tactic(auto)]

ghost use Rattle.std.specs.Prelude.{◌≤◌, length};
ghost use Rattle.counter_line.specs.Answering.{ListsLines};
ghost use Rattle.counter_line.specs.Promises.{Counts};

use counter_columns::Command;
use counter_reply::{LINE, MOST};

// The number that an unreadable line is declined with.
const UNREADABLE: i64 = 11;

// The words of 64 pieces, three each.
const ROOM: usize = 192;

// The lines of a listing.
fn list(table: &[i64], out: &mut [u8]) -> usize
    requires { MOST ≤ length out.old }
    ensures { ListsLines table.now out.old out.new result }
{
    let mut pieces = [0; ROOM];
    let told = book::listing(table, 0, &mut pieces);
    counter_reply::listed_lines(out, told, &pieces)
}

// Answers a line, without its newline, and tells how many bytes of `out` that took. An output that is too short for some line gets nothing.
pub fn answer(table: &mut [i64], line: &[u8], out: &mut [u8]) -> usize
    ensures { Counts line.now table.old table.new out.old out.new result }
{
    if out.len() < MOST {
        return 0;
    }
    let Some(command) = counter_columns::parse(line) else {
        counter_print::answer_line(out, b'?', UNREADABLE, 0, 0, 0);
        return LINE;
    };
    match command {
        Command::Post(number, rate, base) => {
            let told = book::post(table, 0, number, rate, base);
            counter_reply::update_line(out, b'P', number, told)
        }
        Command::Withdraw(number) => {
            let told = book::withdraw(table, 0, number);
            counter_reply::update_line(out, b'W', number, told)
        }
        Command::Query(load) => {
            let told = book::query(table, 0, load);
            counter_reply::found_line(out, told)
        }
        Command::List => list(table, out),
    }
}
