// Chart marks: the doubles of open ends and crossings.
#![tactic(auto)]

ghost use Rattle.std.specs.Prelude.{◌≡◌};
ghost use Rattle.marks.specs.Quotient.{Doubled};
ghost use Rattle.marks.specs.MarkTold.{told, at_point, open_end, crossing, PointOf};

// Where two pieces cross.
#[derive(Drop)]
pub struct Point {
    pub load: f64,
    pub price: f64,
}

#[derive(Drop)]
pub enum Mark {
    // An end of the chart, with its piece's rate.
    OpenEnd(f64),
    Crossing(Point),
}

// An integer as a double: exact up to 2^53 either way. Further out, where the doubles have gaps, it is 0.
fn to_double(value: i64) -> f64
    ensures { Doubled value result }
{
    if value < -9_007_199_254_740_992 || 9_007_199_254_740_992 < value {
        return 0.0;
    }
    value as f64
}

// The point of a crossing at n over d, whose price times d is p.
fn crossing_point(n: i64, d: i64, p: i64) -> Point
    ensures { PointOf n d p result }
{
    let divisor = to_double(d);
    let load = to_double(n) / divisor;
    let price = to_double(p) / divisor;
    Point { load, price }
}

pub fn open_end(rate: i64) -> Mark
    ensures { told result ≡ open_end rate }
{
    Mark::OpenEnd(to_double(rate))
}

// The mark of a point.
fn point_mark(point: Point) -> Mark
    ensures { told result ≡ at_point point }
{
    Mark::Crossing(point)
}

pub fn crossing(n: i64, d: i64, p: i64) -> Mark
    ensures { told result ≡ crossing n d p }
{
    point_mark(crossing_point(n, d, p))
}
