// Whether what a part remembers can be undone, as a part of the check. Any words are safe: the ring is gone through at most once.
#![tactic(auto)]

ghost use Rattle.std.specs.Prelude.{◌≡◌, ◌≤◌, ◌<◌, pos};
ghost use Rattle.offers.specs.Offers.{Offer, between};
ghost use Rattle.plain.specs.Book.{unpost, restore, most_remembered};
ghost use Rattle.table.specs.Fields.{most_nodes, most_slots};
ghost use Rattle.table.specs.Words.{word};
ghost use Rattle.table.specs.Layout.{part_end};
ghost use Rattle.check_trees.specs.Scratch.{second_half};
ghost use Rattle.check_trees.specs.Deciding.{Decides};
ghost use Rattle.check_memory.specs.Flags.{Marks};
ghost use Rattle.check_memory.specs.Trying.{Ready, Undoing};
ghost use Rattle.check_memory.specs.Entries.{Restorable, Tries};
ghost use Rattle.check_memory.specs.Walks.{Walked};
ghost use Rattle.check_memory.specs.Recalls.{Recalls};

// A flag for each number of an offer, and one for 0, which is no offer's.
const FLAGS: usize = 10_000;

const MOST_NUMBER: u32 = 9_999;

// Raises the flags of the offers in the slots at places 0 up to `n`. A number out of range raises flag 0, which nobody reads.
fn mark(part: &[i64], scratch: &[u32; check_trees::SCRATCH], n: usize, live: &mut [bool; FLAGS])
    requires { n ≤ second_half }
    ensures { Marks part.now scratch.now n live.old live.new }
{
    for slot in &scratch[..n] {
        let number = table::up_to(MOST_NUMBER, table::get(part, table::NUMBER, *slot)) as usize;
        live[number] = true;
    }
}

// A posted offer goes out again, where one with its number is live. It hands back how many more offers there is room for then.
fn take_out(live: &mut [bool; FLAGS], room: u32, number: u32) -> Option<u32>
    requires { Ready number room }
    ensures { Undoing live.old live.new room (unpost (pos number)) result }
{
    let k = number as usize;
    if !live[k] {
        return None;
    }
    live[k] = false;
    Some(room + 1)
}

// A withdrawn offer comes back, where none with its number is live and there is room.
fn bring_back(live: &mut [bool; FLAGS], room: u32, number: u32) -> Option<u32>
    requires { Ready number room }
    ensures { (o : Offer) → o.number ≡ pos number → Undoing live.old live.new room (restore o) result }
{
    if room < 1 {
        return None;
    }
    let k = number as usize;
    if live[k] {
        return None;
    }
    live[k] = true;
    Some(room - 1)
}

// Word `at` is from `low` to `high`.
fn within(part: &[i64], at: usize, low: i64, high: i64) -> bool
    ensures { result ≡ between low high (word part.now at) }
{
    let value = table::word_at(part, at);
    low <= value && value <= high
}

// The words from `at` on are the entry of a withdrawal, rate and base in range.
fn restorable(part: &[i64], at: usize) -> bool
    requires { at < part_end most_slots }
    ensures { Decides result (Restorable part.now at) }
{
    check_trees::tells(part, at, memory::WITHDRAWN)
        && within(part, at + memory::ENTRY_RATE, -100_000, 100_000)
        && within(part, at + memory::ENTRY_BASE, -1_000_000_000, 1_000_000_000)
}

// Undoes the entry at place `i`, on the flags alone: neither rates nor bases matter once they are in range. It hands back how many more
// offers there is room for then, if the entry can be undone.
fn undo(part: &[i64], live: &mut [bool; FLAGS], room: u32, i: u32) -> Option<u32>
    requires { (i < most_remembered) × (room ≤ most_nodes) }
    ensures { Tries part.now i live.old live.new room result }
{
    let at = memory::entry_at(part, i);
    let number = table::number_at(part, at + memory::ENTRY_NUMBER, MOST_NUMBER);
    if number < 1 {
        return None;
    }
    if check_trees::tells(part, at, memory::POSTED) {
        return take_out(live, room, number);
    }
    if !restorable(part, at) {
        return None;
    }
    bring_back(live, room, number)
}

// From place `last` back, `count` entries can be undone one after the other.
fn all_undone(part: &[i64], live: &mut [bool; FLAGS], room: u32, last: u32, count: u32) -> bool
    requires { (room ≤ most_slots) × (last < most_remembered) × (count ≤ most_remembered) }
    ensures { Walked part.now live.old room last count result }
{
    let mut left = room;
    let mut i = last;
    for _ in 0..count {
        let Some(more) = undo(part, live, left, i) else {
            return false;
        };
        left = more;
        i = memory::before(i);
    }
    true
}

// The memory's entries can be undone, last first, from the live offers, whose slots stand at places 0 up to `n`. The two words of the header
// are compared, since words outside their range are read as 0 too.
pub fn memory(part: &[i64], scratch: &[u32; check_trees::SCRATCH], n: usize) -> bool
    requires { n ≤ second_half }
    ensures { Recalls part.now scratch.now n result }
{
    let last = table::number_at(part, table::LAST_ENTRY, memory::LAST_PLACE);
    if !check_trees::tells(part, table::LAST_ENTRY, last) {
        return false;
    }
    let count = table::number_at(part, table::REMEMBERED, memory::ENTRIES);
    if !check_trees::tells(part, table::REMEMBERED, count) {
        return false;
    }
    let c = table::capacity(part);
    let used = n as u32;
    if c < used {
        return false;
    }
    let mut live = [false; FLAGS];
    mark(part, scratch, n, &mut live);
    all_undone(part, &mut live, c - used, last, count)
}
