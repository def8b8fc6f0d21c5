// The columns of the counter program: a call's line is read.
#![tactic(auto)]

ghost use Rattle.std.specs.Prelude.{◌≡◌, length};
ghost use Rattle.counter_columns.specs.CallLines.{letter};
ghost use Rattle.counter_columns.specs.Commands.{LastRead, Parsed};

use counter_field::read_field;

// The bytes of a line, without its newline.
const LINE_LENGTH: usize = 27;

// A call of the book, as a line tells it.
#[derive(Drop)]
pub enum Command {
    Post(i64, i64, i64),
    Withdraw(i64),
    Query(i64),
    List,
}

// The number in the last 12 of a line's columns, where those between it and the letter are blank.
fn last_columns(line: &[u8]) -> Option<i64>
    requires { length line.now ≡ 27 }
    ensures { LastRead line.now result }
{
    if line[1..15].iter().all(|byte| *byte == b' ') {
        read_field(&line[15..27])
    } else {
        None
    }
}

// A line that begins with P.
fn parse_post(line: &[u8]) -> Option<Command>
    requires { (length line.now ≡ 27) × (letter line.now ≡ 80) }
    ensures { Parsed line.now result }
{
    let number = read_field(&line[1..7])?;
    let rate = read_field(&line[7..15])?;
    let base = read_field(&line[15..27])?;
    Some(Command::Post(number, rate, base))
}

// The command that a line tells, without its newline.
pub fn parse(line: &[u8]) -> Option<Command>
    ensures { Parsed line.now result }
{
    if line.len() != LINE_LENGTH {
        return None;
    }
    match line[0] {
        b'P' => parse_post(line),
        b'W' => last_columns(line).map(Command::Withdraw),
        b'Q' => last_columns(line).map(Command::Query),
        b'L' => (last_columns(line)? == 0).then_some(Command::List),
        _ => None,
    }
}
