// What goes from call to call, by value: a reference that is lent for change costs the checker far more than a struct that is passed on.

// The calls made, all but the reports, and those of all that differ from the scan.
#[derive(Clone, Copy)]
pub struct Tally {
    pub calls: u32,
    pub queries: u32,
    pub listings: u32,
    pub meetings: u32,
    pub differences: u32,
}

// The table lent to the books, and the same offers in plain slots: those of the book at hand and those of the other one.
#[derive(Drop)]
pub struct World {
    pub words: [i64; 7000],
    pub os: [i64; 192],
    pub other: [i64; 192],
    pub told: Tally,
}

// Where a book starts, how many offers it has room for, and the rule by which its offers are made.
#[derive(Clone, Copy)]
pub struct Place {
    pub start: usize,
    pub room: u32,
    pub kind: u32,
}

// No offer, and no call made; the table stays.
pub(crate) fn begin(words: [i64; 7000]) -> World {
    World {
        words,
        os: [0i64; 192],
        other: [0i64; 192],
        told: Tally {
            calls: 0,
            queries: 0,
            listings: 0,
            meetings: 0,
            differences: 0,
        },
    }
}

// The other book at hand.
pub(crate) fn swapped(w: World) -> World {
    let os = w.other;
    let other = w.os;
    let mut v = w;
    v.os = os;
    v.other = other;
    v
}

pub(crate) fn with_tally(w: World, t: Tally) -> World {
    let mut v = w;
    v.told = t;
    v
}

// A report: its difference is counted, and the call is none of those of the printed line.
pub(crate) fn compared(t: Tally, same: bool) -> Tally {
    let mut told = t;
    told.differences = t.differences.wrapping_add(!same as u32);
    told
}

// One call more, of which so many queries, listings and meetings.
pub(crate) fn counted(t: Tally, queries: u32, listings: u32, meetings: u32, same: bool) -> Tally {
    Tally {
        calls: t.calls.wrapping_add(1),
        queries: t.queries.wrapping_add(queries),
        listings: t.listings.wrapping_add(listings),
        meetings: t.meetings.wrapping_add(meetings),
        differences: t.differences.wrapping_add(!same as u32),
    }
}
