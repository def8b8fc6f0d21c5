// Offers made one after the other, by a rule for each kind of book.

// The count of offers so far, its square, and a number that goes its own way.
#[derive(Clone, Copy)]
pub struct Maker {
    pub i: u32,
    pub square: u32,
    pub x: u32,
}

pub(crate) fn first() -> Maker {
    Maker {
        i: 0,
        square: 0,
        x: 12_345,
    }
}

pub(crate) fn next(m: Maker) -> Maker {
    let odd = m.i.wrapping_add(m.i.wrapping_add(1));
    Maker {
        i: m.i.wrapping_add(1),
        square: m.square.wrapping_add(odd),
        x: (m.x % 20_011 * 106 + 7) % 20_011,
    }
}

fn less(a: u32, b: u32) -> i64 {
    a as i64 - b as i64
}

// a less b, or where n is odd the other way round.
fn turned(n: u32, a: u32, b: u32) -> i64 {
    if n % 2 < 1 {
        return less(a, b);
    }
    less(b, a)
}

// Kinds 0 and 2 touch the parabola's chain of tangents, 1 goes through one point, 3 to the ends of the ranges, 4 goes its own way, 5 has
// small bases and so many ties, and 6 has all its rates below those of 0, 2 and 5. Kind 7 has three rates, 8 eight, 9 one, 10 five that are
// below those of 7 and 8; all four have few bases, so that several offers have both in common.
pub(crate) fn rate(kind: u32, m: Maker) -> i64 {
    let i = m.i % 64;
    match kind {
        1 => less(300, 10 * i),
        3 => turned(i, 100_000, i),
        4 => less(106 * i % 601, 300),
        5 => less(15, i),
        6 => less(0, 20 + 2 * i),
        7 => less(i % 3, 1),
        8 => less(4 * (i % 8), 14),
        9 => less(5, 0),
        10 => less(0, 20 + i % 5),
        _ => less(100, 2 * i),
    }
}

// Of eight rates, four apart, bases with which each is listed: its lines touch a parabola.
const TANGENTS: [u32; 8] = [840, 624, 440, 288, 168, 80, 24, 0];

pub(crate) fn base(kind: u32, m: Maker) -> i64 {
    let i = m.i % 64;
    let square = m.square % 4_096;
    match kind {
        0 => less(square + i % 2, 0),
        1 => less(7 + 50 * i, 1_500),
        3 => turned(i / 2, 1_000_000_000, i),
        4 => less(m.x, 10_000),
        5 => less(m.x % 12, 0),
        6 => less(square + m.x % 50, 0),
        7 => less(m.x % 4, 0),
        8 => less(TANGENTS[i as usize % 8], 224 - m.x % 3),
        9 => less(m.x % 4, 0),
        10 => less(m.x % 6, 0),
        _ => less(square + 40 * (i % 3), 0),
    }
}

// The kind whose rates are all below those of `kind`, for one that has such.
pub(crate) fn below(kind: u32) -> u32 {
    if (kind == 7) | (kind == 8) {
        return 10;
    }
    6
}

// Number i + 1; those of kinds 6 and 10 are above 100.
pub(crate) fn number(kind: u32, i: u32) -> i64 {
    if (kind == 6) | (kind == 10) {
        return less(101 + i % 64, 0);
    }
    less(1 + i % 64, 0)
}

// The loads of a sweep: 81 in a row, the ends of the range, and one beyond each.
pub(crate) fn load(kind: u32, j: u32) -> i64 {
    match j {
        81 => 1_000_000,
        82 => -1_000_000,
        83 => 1_000_001,
        84 => -1_000_001,
        _ => {
            let k = j % 81;
            if kind == 3 {
                return less(25_000 * k, 1_000_000);
            }
            less(k, 8)
        }
    }
}

#[derive(Drop)]
pub struct Offer {
    pub number: i64,
    pub rate: i64,
    pub base: i64,
}

pub(crate) fn made(kind: u32, m: Maker) -> Offer {
    Offer {
        number: number(kind, m.i),
        rate: rate(kind, m),
        base: base(kind, m),
    }
}
