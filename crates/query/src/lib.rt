// Queries on a part. Any words are safe: what a word tells is brought into its range, and every walk has a limit.
#![tactic(auto)]

ghost use Rattle.std.specs.Prelude.{◌≡◌, not};
ghost use Rattle.offers.specs.Offers.{between};
ghost use Rattle.table.specs.Fields.{number_field};
ghost use Rattle.table.specs.Layout.{cap, cell};
ghost use Rattle.table.specs.Rep.{bit};
ghost use Rattle.prices.specs.Positions.{position_of, on_or_above};
ghost use Rattle.query.specs.Readings.{kept_at, Turns, Stepped, kept_else, price_in};
ghost use Rattle.query.specs.Descent.{Descended};

// The highest number of a leaf, and of a node, in the widths that a descent counts in.
const LEAVES: usize = table::MOST_SLOTS as usize;

const HIGHEST_NODE: i64 = table::MOST_NODES as i64;

// Whether `value` is below `low` or above `high`.
pub fn outside(low: i64, high: i64, value: i64) -> bool
    ensures { result ≡ not (between low high value) }
{
    value < low || high < value
}

// The way on from a crossing: to the left, 0, or to the right, 1; and what is kept in mind then.
#[derive(Drop)]
struct Turn {
    side: usize,
    kept: u32,
}

fn side_of(point: i64, line: i64) -> usize
    ensures { result ≡ bit (on_or_above (position_of point line)) }
{
    prices::on_or_above(point, line) as usize
}

fn kept_at(point: i64, line: i64, slot: u32, before: u32) -> u32
    ensures { result ≡ kept_at (position_of point line) slot before }
{
    if prices::apart(point, line) {
        before
    } else {
        slot
    }
}

// The way on from the crossing n / d that `slot` keeps: where the piece on its left, at the load, lies against the next one. Both prices are taken less
// the left one's base and the next one's rate times the load.
fn turn_at(load: i64, n: i64, d: i64, slot: u32, before: u32) -> Turn
    ensures { Turns load n d slot before result }
{
    let point = table::bounded(-1_000_000, 1_000_000, load) * table::bounded(-200_000, 200_000, d);
    Turn {
        side: side_of(point, n),
        kept: kept_at(point, n, slot, before),
    }
}

// A step to a child, with what a tie keeps in mind.
#[derive(Drop)]
struct Step {
    child: usize,
    kept: u32,
}

// Where the crossing stands in the group of a piece's node.
const ITS_NUMERATOR: usize = table::NUMERATOR - table::PIECE_NODE;

const ITS_DENOMINATOR: usize = table::DENOMINATOR - table::PIECE_NODE;

// From inner node `x` to its child on the load's side: one group of four words is read. None where they tell no node of a tree of pieces. `c` is the part's
// capacity, `before` what was kept in mind so far.
fn toward(part: &[i64], c: u32, x: usize, load: i64, before: u32) -> Option<Step>
    requires { c ≡ cap part.now }
    ensures { Stepped part.now x load before result }
{
    if x <= LEAVES {
        return None;
    }
    if c as usize + LEAVES < x {
        return None;
    }
    let slot = (x - LEAVES) as u32;
    let at = table::address(c, table::PIECE_NODE, slot);
    let d = part[at + ITS_DENOMINATOR];
    if outside(-200_000, 200_000, d) {
        return None;
    }
    let turn = turn_at(load, part[at + ITS_NUMERATOR], d, slot, before);
    let z = part[at + turn.side];
    if outside(0, HIGHEST_NODE, z) {
        return None;
    }
    Some(Step {
        child: table::up_to(table::MOST_NODES, z) as usize,
        kept: turn.kept,
    })
}

// Where a query ends: the slot of the offer named first, that of the second offer, and how many nodes it passed.
#[derive(Drop)]
pub struct Probe {
    pub slot: u32,
    pub second: u32,
    pub probes: u32,
}

// No tree of pieces led on.
fn astray(probes: u32) -> Probe
    ensures { (result.slot ≡ 0) × (result.second ≡ 0) × (result.probes ≡ probes) }
{
    Probe {
        slot: 0,
        second: 0,
        probes,
    }
}

// What is kept in mind, and where it is nothing, 0, `slot`.
fn kept_else(kept: u32, slot: u32) -> u32
    ensures { result ≡ kept_else kept slot }
{
    if kept < 1 { slot } else { kept }
}

// From the root to the piece with the lowest rate of those that are the cheapest at the load. There are two where the load is at a crossing: the inner
// node passed there is kept in the slot of the last piece on its left, which has the highest rate.
pub fn descend(part: &[i64], root: u32, load: i64) -> Probe
    ensures { Descended part.now root load result.slot result.second result.probes }
{
    let c = table::capacity(part);
    // no tree stands in words of no capacity; with this test the compiler computes the capacity once for a whole call
    if c < 1 {
        return astray(0);
    }
    let mut x = root as usize;
    let mut second: u32 = 0;
    for probes in 0..table::MOST_LEVELS + 1 {
        if x <= LEAVES {
            let slot = x as u32;
            return Probe {
                slot,
                second: kept_else(second, slot),
                probes,
            };
        }
        let Some(step) = toward(part, c, x, load, second) else {
            return astray(probes);
        };
        x = step.child;
        second = step.kept;
    }
    astray(table::MOST_LEVELS)
}

// The number of the offer in a slot, 0 where the part has no such slot: what `table::get` reads, without its test of the length, which always passes.
pub fn number(part: &[i64], slot: u32) -> i64
    ensures { result ≡ cell part.now number_field slot }
{
    let c = table::capacity(part);
    if slot < 1 || c < slot {
        return 0;
    }
    part[table::address(c, table::NUMBER, slot)]
}

// The price of the offer in a slot.
pub fn price(part: &[i64], slot: u32, load: i64) -> i64
    ensures { result ≡ price_in part.now slot load }
{
    let c = table::capacity(part);
    if slot < 1 || c < slot {
        return 0;
    }
    let at = table::address(c, table::NUMBER, slot);
    let base = table::bounded(-1_000_000_000, 1_000_000_000, part[at + table::BASE]);
    let rate = table::bounded(-100_000, 100_000, part[at + table::RATE]);
    base + rate * table::bounded(-1_000_000, 1_000_000, load)
}
