// Printing: numbers right-justified in columns, and the lines of the counter's answers.
#![tactic(auto)]

ghost use Rattle.std.specs.Prelude.{◌≡◌, ◌+◌, ◌*◌, ◌^◌, ◌≤◌, ◌<◌, length, nat_abs};
ghost use Rattle.counter_print.specs.Texts.{justified};
ghost use Rattle.counter_print.specs.Decimals.{sign};
ghost use Rattle.counter_print.specs.Powers.{PowersOfTen, most_digits};
ghost use Rattle.counter_print.specs.Places.{places, CountsDigits, LeadDigit};
ghost use Rattle.counter_print.specs.Printed.{Justifies, Puts, Answers};

// No signed word has more digits: 2^63 has so many.
const MOST_DIGITS: usize = 19;

// The powers of ten, one for each place. A table still, since printing subtracts its entries and does not divide (docs/REQUIREMENTS.md, 14.3).
const POWERS: [u64; MOST_DIGITS] = [
    1,
    10,
    100,
    1000,
    10000,
    100000,
    1000000,
    10000000,
    100000000,
    1000000000,
    10000000000,
    100000000000,
    1000000000000,
    10000000000000,
    100000000000000,
    1000000000000000,
    10000000000000000,
    100000000000000000,
    1000000000000000000,
];

// The digit at a place, and what is left of the number below that place.
#[derive(Drop)]
struct Lead {
    digit: u8,
    rest: u64,
}

// The table, with its rule proved over all of it.
fn powers_of_ten() -> [u64; MOST_DIGITS]
    ensures { PowersOfTen result }
{
    POWERS
}

// How many digits a number has: 0 has one.
fn digit_count(powers: &[u64], number: u64) -> usize
    requires { PowersOfTen powers.now × (number < 10 ^ most_digits) }
    ensures { CountsDigits number result }
{
    powers
        .iter()
        .take_while(|power| **power <= number)
        .count()
        .max(1)
}

// The highest digit: how often the power of its place goes in, and what is left once it is subtracted that often. All nine multiples are compared,
// since a branch on what a digit is would mostly be mispredicted; those that do not go in are taken off, since of a sum of tests the compiler makes a
// vector, which takes half as long again.
fn lead_digit(number: u64, power: u64) -> Lead
    requires { (number < 10 * power) × (10 * power < 2 ^ 64) }
    ensures { LeadDigit number power result }
{
    let mut digit = 9;
    for times in 1..10 {
        digit -= (number < times * power) as u64;
    }
    Lead {
        digit: digit as u8,
        rest: number - digit * power,
    }
}

// Fills columns with a number's digits, the highest first, zeros before them where there are more columns.
fn put_digits(column: &mut [u8], powers: &[u64], number: u64)
    requires { PowersOfTen powers.now × (length column.old ≤ most_digits) × (number < 10 ^ length column.old) }
    ensures { column.new ≡ places (length column.old) number }
{
    let width = column.len();
    let mut rest = number;
    for at in 0..width {
        let lead = lead_digit(rest, powers[width - 1 - at]);
        column[at] = b'0' + lead.digit;
        rest = lead.rest;
    }
}

// Fills the columns before the digits: spaces, and a minus in the last one where there is one.
fn put_sign(column: &mut [u8], minus: bool)
    requires { length (sign minus) ≤ length column.old }
    ensures { column.new ≡ justified (length column.old) (sign minus) }
{
    column.fill(b' ');
    if minus {
        let last = column.len() - 1;
        column[last] = b'-';
    }
}

// Writes a number's decimal text into a column, spaces before. A column that is too narrow is left, which the contract does not promise.
pub fn justify(column: &mut [u8], value: i64)
    ensures { Justifies value column.old column.new }
{
    let powers = powers_of_ten();
    let number = value.unsigned_abs();
    let minus = value < 0;
    let count = digit_count(&powers, number);
    let width = column.len();
    if width < count + minus as usize {
        return;
    }
    let from = width - count;
    put_sign(&mut column[..from], minus);
    put_digits(&mut column[from..], &powers, number);
}

// The same in the `width` columns from `from`; the other bytes stay.
fn put_number(out: &mut [u8], from: usize, width: usize, value: i64)
    requires { from + width ≤ length out.old }
    ensures { Puts from width value out.old out.new }
{
    let to = from + width;
    justify(&mut out[from..to], value);
}

// Writes an answer's line with its newline into the first 39 bytes.
pub fn answer_line(out: &mut [u8], letter: u8, refusal: i64, offer: i64, value: i64, second: i64)
    requires { 39 ≤ length out.old }
    ensures { Answers letter refusal offer value second out.old out.new }
{
    out[0] = letter;
    put_number(out, 1, 3, refusal);
    put_number(out, 4, 6, offer);
    put_number(out, 10, 14, value);
    put_number(out, 24, 14, second);
    out[38] = b'\n';
}
