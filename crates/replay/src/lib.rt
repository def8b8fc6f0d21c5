// Encoded calls on a book, run one after the other.
#![tactic(auto)]

ghost use Rattle.replay.specs.Promises.{Resumes, Replays};
ghost use Rattle.replay.specs.Running.{Ended};

pub use book::Declined;

// How many calls were run: all of them, or those before one that is unreadable or whose answer does not fit any more.
#[derive(Clone, Copy)]
pub enum Replayed {
    Ran(usize),
    Stopped(usize),
}

// Makes one call after the other, up to the first that is unreadable or whose answer does not fit any more. Returns how many.
fn run(table: &mut [i64], start: usize, calls: &[i64], answers: &mut [i64]) -> usize
    ensures { Ended start table.old table.new calls.now answers.old answers.new result }
{
    let mut n: usize = 0;
    let mut at: usize = 0;
    // No `for` over the calls: what ends the run is an answer of `one_call`, and a `for` would have a second way out, which returns the same count.
    loop {
        let used = replay_call::one_call(table, start, &calls[4 * n..], &mut answers[at..]);
        if used < 1 {
            return n;
        }
        n += 1;
        at += used;
    }
}

// Makes encoded calls on the book at `start`, and writes each answer.
pub fn resume(table: &mut [i64], start: usize, calls: &[i64], answers: &mut [i64]) -> Replayed
    ensures { Resumes start table.old table.new calls.now answers.old answers.new (Ok result) }
{
    let n = run(table, start, calls, answers);
    if calls.len() <= 4 * n {
        Replayed::Ran(n)
    } else {
        Replayed::Stopped(n)
    }
}

// Opens a book at `start`, makes encoded calls on it, and writes each answer.
pub fn replay(
    table: &mut [i64],
    start: usize,
    capacity: i64,
    calls: &[i64],
    answers: &mut [i64],
) -> Result<Replayed, Declined>
    ensures { Replays capacity start table.old table.new calls.now answers.old answers.new result }
{
    book::open(table, start, capacity)?;
    Ok(resume(table, start, calls, answers))
}
