// The counter: reads calls from standard input, a line each, and prints the book's answers. The book has room for 64 offers.
#![tactic(auto)]

use std::io;
use std::io::Read;

// The most bytes that a line prints: 64 pieces and the listing's own line.
const MOST_PRINTED: usize = 2535;

// The whole input, block by block. A proved loop has to end, and nothing says that an input does: it counts up to a number that no run reaches.
fn answer_all(
    rt: &impl Print,
    input: &mut impl Read,
    table: &mut [i64],
    out: &mut [u8],
) -> io::Result<()> {
    let mut line = counter_keep::no_line();
    let mut block = [0u8; 4096];
    for _ in 0..u64::MAX {
        let n = input.read(&mut block)?;
        if n == 0 {
            break;
        }
        for &byte in &block[..n] {
            let fed = counter_feed::feed(table, line, byte, out);
            line = fed.line;
            // most bytes end no line and print nothing
            if 0 < fed.printed {
                rt.write_all(&out[..fed.printed])?;
            }
        }
    }
    let printed = counter_feed::finish(table, line, out);
    rt.write_all(&out[..printed])
}

fn main(rt: HostRuntime) -> io::Result<()> {
    let mut table = [0i64; 5184];
    let mut out = [0u8; MOST_PRINTED];
    // The table is as long as a book of capacity 64 takes, so that the opening is accepted.
    let _ = book::open(&mut table, 0, 64);
    answer_all(&rt, &mut rt.stdin(), &mut table, &mut out)
}
