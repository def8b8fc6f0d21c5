// Voucher prices: a price in whole units of 100 cents.
#![tactic(auto)]

ghost use Rattle.vouchers.specs.Rule.{Rounded};
ghost use Rattle.vouchers.specs.VoucherTold.{Vouches};

use causes::Declined;

// A unit in cents, and half of it.
const UNIT: i64 = 100;

const HALF: i64 = 50;

// The least rest that is nearer to the next unit than to this one.
const ABOVE_HALF: i64 = HALF + 1;

// Half to even: the division goes toward zero, and a rest that is enough leads one unit further out. Half a unit is enough only from an
// odd number of units, so that it ends at an even one.
fn whole_units(price: i64) -> i64
    ensures { Rounded price result }
{
    let units = price / UNIT;
    let rest = price % UNIT;
    let enough = if units % 2 == 0 { ABOVE_HALF } else { HALF };
    if enough <= rest {
        return units + 1;
    }
    if rest <= -enough {
        return units - 1;
    }
    units
}

// The voucher of a price from −101,000,000,000 to 101,000,000,000 cents, in whole units.
pub fn voucher_price(price: i64) -> Result<i64, Declined>
    ensures { Vouches price result }
{
    if price < -101_000_000_000 || 101_000_000_000 < price {
        return Err(Declined::OutOfRange);
    }
    Ok(whole_units(price))
}
