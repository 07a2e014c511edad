// Decimal numbers without leading zeros, read from bytes and written to them. A number is read up to a maximum and to the byte that ends
// it, so that a long run of digits cannot overflow anything; specs/Decimal.antt says what is found, and proofs/Reading.antt that this is just
// what is spelled there.
#![tactic(auto)]

ghost use Rattle.std.specs.Prelude.{◌≡◌, ◌+◌, ◌<◌, ◌≤◌, length};
ghost use Rattle.decimal.specs.Decimal.{decimal, digit_char, digit_of, up_to, with_digit, read_decimal};
ghost use Rattle.decimal.specs.Buffer.{written_at};

// A number that was found, and the place after the byte that ends it.
#[derive(Clone, Copy)]
pub struct Number {
    pub value: u32,
    pub next: usize,
}

// The digit that a byte is the character of, if it is one.
#[tactic(auto, unfolding(crate::specs::Decimal::digit_of))]
pub fn digit_of(b: u8) -> Option<u32>
    ensures { result ≡ digit_of b }
{
    match b {
        b'0'..=b'9' => Some(u32::from(b - b'0')),
        _ => None,
    }
}

// A number that is at most `max`.
fn up_to(max: u32, n: u32) -> Option<u32>
    ensures { result ≡ up_to max n }
{
    (n <= max).then_some(n)
}

// The number so far with one more digit, which may not follow a 0 and may not lead past `max`.
fn with_digit(max: u32, value: u32, b: u8) -> Option<u32>
    ensures { result ≡ with_digit max value b }
{
    let d = digit_of(b)?;
    if value == 0 {
        return None;
    }
    up_to(max, value.checked_mul(10)?.checked_add(d)?)
}

// The number that stands at a place of some bytes, at most `max` and ended by the byte `end`, and the place after it. It is
// handed all bytes and a place: the place after the number counts from the start of all, and the readers above go on there.
pub fn read_decimal(s: &[u8], at: usize, max: u32, end: u8) -> Option<Number>
    ensures { result ≡ read_decimal max end s.now at }
{
    let first = *s.get(at)?;
    let mut value = up_to(max, digit_of(first)?)?;
    for i in at + 1..s.len() {
        if s[i] == end {
            return Some(Number { value, next: i + 1 });
        }
        value = with_digit(max, value, s[i])?;
    }
    None
}

// How many digits a number has.
pub fn decimal_len(n: u32) -> usize
    ensures { result ≡ length (decimal n) }
{
    match n.checked_ilog10() {
        Some(k) => k as usize + 1,
        None => 1,
    }
}

// The character of a digit.
fn digit_char(d: u32) -> u8
    requires { d < 10 }
    ensures { result ≡ digit_char d }
{
    b'0' + d as u8
}

// Writes a number to a buffer from the place `at` on, where there is room for its digits, and gives the place after them.
// The last digit is written first.
pub fn write_decimal(n: u32, out: &mut [u8], at: usize) -> usize
    requires { at + length (decimal n) ≤ length out.old }
    ensures { (result ≡ at + length (decimal n)) × (out.new ≡ written_at out.old at (decimal n)) }
{
    let end = at + decimal_len(n);
    let mut v = n;
    for i in (at..end).rev() {
        out[i] = digit_char(v % 10);
        v /= 10;
    }
    end
}
