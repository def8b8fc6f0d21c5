// The memory of a part: a ring of 256 entries behind the slots, each of them four words that tell how to take one update back.
#![tactic(auto)]

ghost use Rattle.std.specs.Prelude.{◌≡◌};
ghost use Rattle.form.specs.Memory.{entry_at, earlier};
ghost use Rattle.memory.specs.Ring.{LastOf, Emptying, Remembering, Forgetting};

// What was done, as an entry tells it.
pub const POSTED: u32 = 1;

pub const WITHDRAWN: u32 = 2;

// The most entries that are remembered: as many as the ring has places.
pub const ENTRIES: u32 = 256;

pub const LAST_PLACE: u32 = ENTRIES - 1;

// The words of an entry.
const ENTRY_WORDS: usize = 4;

pub const DONE: usize = 0;

pub const ENTRY_NUMBER: usize = 1;

pub const ENTRY_RATE: usize = 2;

pub const ENTRY_BASE: usize = 3;

// An entry: what was done, and the offer. `done` is 0 where there is none, or the word tells neither.
#[derive(Drop)]
pub struct Entry {
    pub done: u32,
    pub number: i64,
    pub rate: i64,
    pub base: i64,
}

// Where the entry at place `i` of the ring stands.
pub fn entry_at(part: &[i64], i: u32) -> usize
    ensures { result ≡ entry_at part.now i }
{
    64 * (table::capacity(part) as usize + 1) + ENTRY_WORDS * (i as usize)
}

// The place before place `i`: before place 0 is the last.
pub fn before(i: u32) -> u32
    ensures { result ≡ earlier i }
{
    i.checked_sub(1).unwrap_or(LAST_PLACE)
}

// Nothing is remembered: the first entry will stand at place 0.
pub fn empty(part: &mut [i64])
    ensures { Emptying part.old part.new }
{
    table::set_number(part, table::LAST_ENTRY, LAST_PLACE);
    table::set_number(part, table::REMEMBERED, 0);
}

// The last entry.
pub fn last(part: &[i64]) -> Entry
    ensures { LastOf part.now result }
{
    if table::number_at(part, table::REMEMBERED, ENTRIES) < 1 {
        return Entry {
            done: 0,
            number: 0,
            rate: 0,
            base: 0,
        };
    }
    let i = table::number_at(part, table::LAST_ENTRY, LAST_PLACE);
    let at = entry_at(part, i);
    Entry {
        done: table::number_at(part, at + DONE, WITHDRAWN),
        number: table::word_at(part, at + ENTRY_NUMBER),
        rate: table::word_at(part, at + ENTRY_RATE),
        base: table::word_at(part, at + ENTRY_BASE),
    }
}

// One entry more; where there are 256 already, it takes the place of the oldest. `done` is a number: `Remembering` is said of every one.
pub fn remember(part: &mut [i64], done: u32, number: i64, rate: i64, base: i64)
    ensures { Remembering done number rate base part.old part.new }
{
    let last = table::number_at(part, table::LAST_ENTRY, LAST_PLACE);
    let next = (last + 1) % ENTRIES;
    let count = table::number_at(part, table::REMEMBERED, ENTRIES);
    let more = (count + 1).min(ENTRIES);
    let at = entry_at(part, next);
    table::set_number(part, at + DONE, done);
    table::set_word(part, at + ENTRY_NUMBER, number);
    table::set_word(part, at + ENTRY_RATE, rate);
    table::set_word(part, at + ENTRY_BASE, base);
    table::set_number(part, table::LAST_ENTRY, next);
    table::set_number(part, table::REMEMBERED, more);
}

// The last entry is remembered no more.
pub fn forget(part: &mut [i64])
    ensures { Forgetting part.old part.new }
{
    let last = table::number_at(part, table::LAST_ENTRY, LAST_PLACE);
    let previous = before(last);
    let count = table::number_at(part, table::REMEMBERED, ENTRIES);
    let less = count.saturating_sub(1);
    table::set_number(part, table::LAST_ENTRY, previous);
    table::set_number(part, table::REMEMBERED, less);
}
