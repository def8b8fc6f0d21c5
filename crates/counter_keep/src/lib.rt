// A line of the counter's input, kept byte by byte.
#![tactic(auto)]

ghost use Rattle.std.specs.Prelude.{[]};
ghost use Rattle.counter_keep.specs.KeptBytes.{Keeps, Pushes};

// A line so far: its first 28 bytes, and how many those are. No line of more than 27 bytes can be read, so the later ones do not matter.
// A buffer with its length, and no invariant: `Feeds` and `Finishes` promise `within` and `outside` of every such line, a longer count too.
#[derive(Clone, Copy)]
pub struct Line {
    pub bytes: [u8; 28],
    pub length: usize,
}

pub fn no_line() -> Line
    ensures { Keeps result [] }
{
    Line {
        bytes: [0u8; 28],
        length: 0,
    }
}

// One more byte of the line.
pub fn push(line: Line, byte: u8) -> Line
    ensures { Pushes line byte result }
{
    let at = line.length;
    // changed in place, since each copy of a line waits for the byte that was put in last
    let mut longer = line;
    if 28 <= at {
        return longer;
    }
    longer.bytes[at] = byte;
    longer.length = at + 1;
    longer
}
