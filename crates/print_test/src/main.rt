// Prints numbers in columns of 20, a line each: the ends of a signed word, and of every count of digits the least number below 0 and the least above it.
#![tactic(auto)]

use std::io;

fn show(rt: &impl Print, value: i64) -> io::Result<()> {
    let mut line = [b'\n'; 21];
    counter_print::justify(&mut line[..20], value);
    rt.write_all(&line)
}

fn show_nines(rt: &impl Print) -> io::Result<()> {
    show(rt, -9)?;
    show(rt, -99)?;
    show(rt, -999)?;
    show(rt, -9999)?;
    show(rt, -99999)?;
    show(rt, -999999)?;
    show(rt, -9999999)?;
    show(rt, -99999999)?;
    show(rt, -999999999)?;
    show(rt, -9999999999)?;
    show(rt, -99999999999)?;
    show(rt, -999999999999)?;
    show(rt, -9999999999999)?;
    show(rt, -99999999999999)?;
    show(rt, -999999999999999)?;
    show(rt, -9999999999999999)?;
    show(rt, -99999999999999999)?;
    show(rt, -999999999999999999)
}

fn show_powers(rt: &impl Print) -> io::Result<()> {
    show(rt, 1)?;
    show(rt, 10)?;
    show(rt, 100)?;
    show(rt, 1000)?;
    show(rt, 10000)?;
    show(rt, 100000)?;
    show(rt, 1000000)?;
    show(rt, 10000000)?;
    show(rt, 100000000)?;
    show(rt, 1000000000)?;
    show(rt, 10000000000)?;
    show(rt, 100000000000)?;
    show(rt, 1000000000000)?;
    show(rt, 10000000000000)?;
    show(rt, 100000000000000)?;
    show(rt, 1000000000000000)?;
    show(rt, 10000000000000000)?;
    show(rt, 100000000000000000)?;
    show(rt, 1000000000000000000)
}

fn main(rt: HostRuntime) -> io::Result<()> {
    show(&rt, -9223372036854775808)?;
    show_nines(&rt)?;
    show(&rt, 0)?;
    show_powers(&rt)?;
    show(&rt, 9223372036854775807)
}
