// What a part's words tell of its trees: their roots, and what stays with a node of the tree of offers. All else in this crate is what a
// book's words mean (specs).
#![tactic(auto)]

ghost use Rattle.std.specs.Prelude.{◌≡◌, T};
ghost use Rattle.offers.specs.Offers.{offer_in_range};
ghost use Rattle.offers.specs.Ranks.{rank};
ghost use Rattle.table.specs.Layout.{cap};
ghost use Rattle.form.specs.RestWords.{rest_at};
ghost use Rattle.form.specs.Roots.{envelope_root, offers_root};

// What a base and a rate weigh in a rank: one more than the span of a number, and than that of all that stands behind a rate.
const BASE_WEIGHT: i64 = 10_000;

const RATE_WEIGHT: i64 = 20_000_000_010_000;

// The rank of an offer, which falls along the order of offers.
pub fn rank_of(number: i64, rate: i64, base: i64) -> i64
    requires { T (offer_in_range (record { number = number; rate = rate; base = base })) }
    ensures { result ≡ rank (record { number = number; rate = rate; base = base }) }
{
    let behind = base * BASE_WEIGHT + number;
    rate * RATE_WEIGHT - behind
}

// The root of the book's envelope, its tree of pieces.
pub fn envelope_root(part: &[i64]) -> u32
    ensures { result ≡ envelope_root part.now }
{
    table::number_at(part, table::ENVELOPE_ROOT, table::MOST_NODES)
}

// The root of the tree of offers.
pub fn offers_root(part: &[i64]) -> u32
    ensures { result ≡ offers_root part.now }
{
    table::number_at(part, table::OFFERS_ROOT, table::MOST_NODES)
}

// The root of the pieces that stay with node `n`. `c` is the capacity.
pub fn rest_in(part: &[i64], c: u32, n: u32) -> u32
    requires { c ≡ cap part.now }
    ensures { result ≡ rest_at part.now n }
{
    if table::MOST_SLOTS < n {
        return table::link_in(part, c, table::INNER_REST, table::inner_slot(n));
    }
    table::link_in(part, c, table::LEAF_REST, n)
}

pub fn rest(part: &[i64], n: u32) -> u32
    ensures { result ≡ rest_at part.now n }
{
    rest_in(part, table::capacity(part), n)
}
