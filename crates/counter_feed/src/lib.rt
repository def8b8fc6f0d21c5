// The counter's input, byte by byte: a line is kept up to its newline, and then answered.
#![tactic(auto)]

ghost use Rattle.counter_feed.specs.Input.{CountsFront, CountsKept, Feeds, Finishes};

use counter_keep::Line;

// Answers the line in the first `length` of some bytes.
fn answer_front(table: &mut [i64], bytes: &[u8], length: usize, out: &mut [u8]) -> usize
    ensures { CountsFront bytes.now length table.old table.new out.old out.new result }
{
    if bytes.len() < length {
        return 0;
    }
    counter_line::answer(table, &bytes[..length], out)
}

// Answers the line that was kept.
fn answer_kept(table: &mut [i64], line: Line, out: &mut [u8]) -> usize
    ensures { CountsKept line table.old table.new out.old out.new result }
{
    let bytes = line.bytes;
    answer_front(table, &bytes, line.length, out)
}

// The line after a byte of the input, and how many bytes of `out` were printed.
#[derive(Drop)]
pub struct Fed {
    pub line: Line,
    pub printed: usize,
}

// Takes in one byte of the input: at a newline the line is answered, and the next one begins.
pub fn feed(table: &mut [i64], line: Line, byte: u8, out: &mut [u8]) -> Fed
    ensures { Feeds byte line result.line table.old table.new out.old out.new result.printed }
{
    if byte != b'\n' {
        let longer = counter_keep::push(line, byte);
        return Fed {
            line: longer,
            printed: 0,
        };
    }
    let printed = answer_kept(table, line, out);
    let next = counter_keep::no_line();
    Fed {
        line: next,
        printed,
    }
}

// At the end of the input: a last line may lack its newline.
pub fn finish(table: &mut [i64], line: Line, out: &mut [u8]) -> usize
    ensures { Finishes line table.old table.new out.old out.new result }
{
    if line.length == 0 {
        return 0;
    }
    answer_kept(table, line, out)
}
