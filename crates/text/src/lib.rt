// Decimals, lower-case hex pairs and keys: put into a lent slice, and taken off a text. Every function answers for every place (specs/Stored.antt):
// storing past the end is no change, and a place stops at the largest number that a place can be.
#![tactic(auto)]

ghost use Rattle.std.specs.Prelude.{◌≡◌, [], ◌∷◌, ◌<◌, ◌≤◌, ◌^◌, drop, length, nat_abs};
ghost use Rattle.text.specs.Stored.{Wrote, Took};
ghost use Rattle.text.specs.Written.{decimal, signed_decimal, hex_digit, hex};
ghost use Rattle.text.specs.Found.{after_key, digit, grown, number, hex_value, pair_value, pairs};

// Stores an item, as a byte of a text or a word of a table: the next place.
pub fn put<T: Copy>(slice: &mut [T], at: usize, item: T) -> usize
    ensures { Wrote slice.old at (item ∷ []) result slice.new }
{
    if at < slice.len() {
        slice[at] = item;
    }
    at.saturating_add(1)
}

// Stores bytes, as those of a key.
pub fn put_bytes(text: &mut [u8], at: usize, bytes: &[u8]) -> usize
    ensures { Wrote text.old at bytes.now result text.new }
{
    let mut next = at;
    for &byte in bytes {
        next = put(text, next, byte);
    }
    next
}

// A number in decimal at the end of ten bytes, its last digit first: the place of the first digit. A 32-bit number has at most ten.
fn decimal_in(digits: &mut [u8], n: u32) -> usize
    requires { length digits.old ≡ 10 }
    ensures { (result ≤ 10) × (drop result digits.new ≡ decimal n) }
{
    let mut rest = n;
    let mut first: usize = 10;
    // Not by `for` over the ten places (iv): that would need an answer after its last turn too, which no number comes to.
    while 10 <= rest {
        first -= 1;
        digits[first] = (48 + rest % 10) as u8;
        rest /= 10;
    }
    first -= 1;
    digits[first] = (48 + rest) as u8;
    first
}

// Stores a number in decimal.
pub fn put_decimal(text: &mut [u8], at: usize, n: u32) -> usize
    ensures { Wrote text.old at (decimal n) result text.new }
{
    let mut digits = [0u8; 10];
    let first = decimal_in(&mut digits, n);
    put_bytes(text, at, &digits[first..])
}

// Stores a signed number in decimal, with a minus sign before a negative one.
pub fn put_signed(text: &mut [u8], at: usize, n: i32) -> usize
    ensures { Wrote text.old at (signed_decimal n) result text.new }
{
    let size = n.unsigned_abs();
    if n < 0 {
        let next = put(text, at, b'-');
        return put_decimal(text, next, size);
    }
    put_decimal(text, at, size)
}

// "all hex is lower-case"
fn hex_digit(n: u8) -> u8
    requires { n < 16 }
    ensures { result ≡ hex_digit n }
{
    if n < 10 {
        return b'0' + n;
    }
    b'a' + (n - 10)
}

// Stores bytes as hex pairs.
pub fn put_hex(text: &mut [u8], at: usize, bytes: &[u8]) -> usize
    ensures { Wrote text.old at (hex bytes.now) result text.new }
{
    let mut next = at;
    for &byte in bytes {
        next = put(text, next, hex_digit(byte / 16));
        next = put(text, next, hex_digit(byte % 16));
    }
    next
}

// The place after a key, where it stands at a place of the text.
pub fn after_key(text: &[u8], at: usize, key: &[u8]) -> Option<usize>
    ensures { result ≡ after_key key.now at (drop at text.now) }
{
    let rest = text.get(at..).unwrap_or(b"");
    if rest.starts_with(key) {
        return Some(at + key.len());
    }
    None
}

fn digit_of(byte: u8) -> Option<u64>
    ensures { result ≡ digit byte }
{
    match byte {
        b'0'..=b'9' => Some(u64::from(byte - b'0')),
        _ => None,
    }
}

// "no leading zero": after a 0 no digit may come.
fn grow(value: u64, byte: u8) -> Option<u64>
    requires { value < 2 ^ 32 }
    ensures { result ≡ grown value byte }
{
    if value == 0 {
        return None;
    }
    Some(value * 10 + digit_of(byte)?)
}

// A decimal up to the byte `end`, at most a limit: the number, and the place after the byte that ends it.
pub fn read_number(text: &[u8], at: usize, end: u8, limit: u32) -> Option<(u32, usize)>
    ensures { result ≡ number end limit at (drop at text.now) }
{
    let most = u64::from(limit);
    let mut value = digit_of(*text.get(at)?)?;
    if most < value {
        return None;
    }
    for i in at + 1..text.len() {
        let byte = text[i];
        if byte == end {
            return Some((value as u32, i + 1));
        }
        let longer = grow(value, byte)?;
        if most < longer {
            return None;
        }
        value = longer;
    }
    None
}

// "all hex is lower-case"
fn hex_value(byte: u8) -> Option<u8>
    ensures { result ≡ hex_value byte }
{
    match byte {
        b'0'..=b'9' => Some(byte - b'0'),
        b'a'..=b'f' => Some(10 + (byte - b'a')),
        _ => None,
    }
}

fn pair_value(first: u8, second: u8) -> Option<u8>
    ensures { result ≡ pair_value first second }
{
    let high = hex_value(first)?;
    let low = hex_value(second)?;
    Some(high * 16 + low)
}

// Hex pairs up to byte 10: stores the bytes that they say from the slice's start on. How many bytes they say, and the place after the line.
pub fn read_hex(text: &[u8], at: usize, bytes: &mut [u8]) -> Option<(usize, usize)>
    ensures { Took (pairs 0 at (drop at text.now)) bytes.old 0 result bytes.new }
{
    let mut n = 0;
    let mut p = at;
    for pair in text.get(at..)?.chunks(2) {
        if pair[0] == b'\n' {
            return Some((n, p + 1));
        }
        let [first, second] = pair else {
            return None;
        };
        n = put(bytes, n, pair_value(*first, *second)?);
        p += 2;
    }
    None
}
