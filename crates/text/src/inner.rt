// Numbers and bytes, for callers that show that they have room, and that a number's range cannot wrap.
ghost use Rattle.std.specs.Prelude.{false, ◌≡◌, ◌+◌, ◌-◌, ◌*◌, ◌≤◌, length, take, drop};
ghost use Rattle.lists.specs.Fill.{put};
ghost use Rattle.text.specs.Numbers.{is_digit, digits};
ghost use Rattle.text.specs.Fields.{is_end, in_range, ended_at, number_end, number_at};
ghost use Rattle.text.specs.Stored.{Stores};

use crate::Number;

// How many digits a number has; most numbers have few.
pub fn digit_count(n: usize) -> usize
    ensures { (result ≡ length (digits n)) × (result ≤ 20) }
{
    if n < 10 {
        return 1;
    }
    if n < 100 {
        return 2;
    }
    if n < 1000 {
        return 3;
    }
    if n < 10000 {
        return 4;
    }
    let mut v = n / 10000;
    let mut c = 5;
    while 10 <= v {
        v = v / 10;
        c += 1;
    }
    c
}

// Stores a number in decimal from a place on, its last digit first; answers where it ends.
pub fn put_number(n: usize, out: &mut [u8], at: usize) -> usize
    requires { at + length (digits n) ≤ length out.old }
    ensures { Stores at (digits n) out.old result out.new }
{
    let e = at + digit_count(n);
    let mut v = n;
    let mut j = e;
    while 10 <= v {
        j -= 1;
        out[j] = (48 + v % 10) as u8;
        v = v / 10;
    }
    out[at] = (48 + v) as u8;
    e
}

// Copies the bytes from a place up to an end into the entries from o on.
pub fn copy_bytes(s: &[u8], at: usize, e: usize, out: &mut [u8], o: usize)
    requires { (at ≤ e) × (e ≤ length s.now) × (o + (e - at) ≤ length out.old) }
    ensures { out.new ≡ put o (take (e - at) (drop at s.now)) out.old }
{
    let part = &mut out[o..o + (e - at)];
    lists::inner::copy_first(&s[at..e], part);
}

// Whether a byte is a digit.
fn is_digit(b: u8) -> bool
    ensures { result ≡ is_digit b }
{
    (b'0' <= b) & (b <= b'9')
}

// Whether a byte ends a field.
fn is_end(b: u8, sep: u8) -> bool
    ensures { result ≡ is_end sep b }
{
    if b == sep {
        return true;
    }
    b == b'\n'
}

// Whether a number is from 1 to `most`.
fn in_range(v: u32, most: u32) -> bool
    ensures { result ≡ in_range most v }
{
    (1 <= v) & (v <= most)
}

// The number of the value v that ends at a place.
fn ended(v: u32, i: usize, most: u32) -> Option<Number>
    ensures { result ≡ ended_at most v i }
{
    if in_range(v, most) {
        return Some(Number { value: v, next: i });
    }
    None
}

// The same where the byte behind the number, which is no digit, is b.
fn number_end(b: u8, sep: u8, v: u32, i: usize, most: u32) -> Option<Number>
    ensures { result ≡ number_end sep most b v i }
{
    if is_end(b, sep) {
        return ended(v, i, most);
    }
    None
}

// A number with one digit more.
fn with_digit(v: u32, b: u8) -> u32
    requires { (v ≤ 429496728) × (48 ≤ b) × (b ≤ 57) }
    ensures { result ≡ v * 10 + (b - 48) }
{
    v * 10 + (b - b'0') as u32
}

// The number from 1 to `most` at a place of a text, up to a separator. One that leaves the range is given up at once, so it cannot wrap; a leading zero leaves
// it at the first digit.
pub fn number_at(s: &[u8], at: usize, sep: u8, most: u32) -> Option<Number>
    requires { (is_digit sep ≡ false) × (9 ≤ most) × (most ≤ 429496728) }
    ensures { result ≡ number_at sep most s.now at }
{
    let mut v: u32 = 0;
    for i in at..s.len() {
        let b = s[i];
        if !is_digit(b) {
            return number_end(b, sep, v, i, most);
        }
        v = with_digit(v, b);
        if !in_range(v, most) {
            return None;
        }
    }
    ended(v, s.len(), most)
}
