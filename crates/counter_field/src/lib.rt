// A number in some columns of a line.
#![tactic(auto)]

ghost use Rattle.std.specs.Prelude.{◌≡◌, ◌^◌, ◌≤◌, ◌<◌, length};
ghost use Rattle.counter_field.specs.Values.{taken, value_from, told};
ghost use Rattle.counter_field.specs.Reading.{FieldRead};

// One more byte of a number: a digit counts, and any other byte is passed over.
#[tactic(auto, unfolding(crate::specs::Values::taken))]
fn with_byte(value: u64, byte: u8) -> u64
    requires { value < 10 ^ 18 }
    ensures { result ≡ taken value byte }
{
    if byte.is_ascii_digit() {
        10 * value + (byte - b'0') as u64
    } else {
        value
    }
}

// What the digits of a text say.
fn value_in(text: &[u8]) -> u64
    requires { length text.now ≤ 18 }
    ensures { (result ≡ value_from 0 text.now) × (result < 10 ^ 18) }
{
    let mut value = 0;
    for &byte in text {
        value = with_byte(value, byte);
    }
    value
}

// The only number that a text can be the decimal of.
fn number_in(text: &[u8]) -> i64
    requires { length text.now ≤ 18 }
    ensures { result ≡ told text.now }
{
    let value = value_in(text) as i64;
    if text.contains(&b'-') { -value } else { value }
}

// The number whose justified decimal fills the columns: the only candidate is printed and compared.
pub fn read_field(columns: &[u8]) -> Option<i64>
    requires { length columns.now ≤ 18 }
    ensures { FieldRead columns.now result }
{
    let width = columns.len();
    if width == 0 {
        return None;
    }
    let number = number_in(columns);
    let mut text = [0u8; 18];
    counter_print::justify(&mut text[..width], number);
    if columns == &text[..width] {
        Some(number)
    } else {
        None
    }
}
