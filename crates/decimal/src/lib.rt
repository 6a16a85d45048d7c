// Numbers in decimal, read and written. Document 01, "Messages": no plus sign, no leading zero. The table of twenty powers of ten
// serves both ways.
#![tactic(auto)]

ghost use Rattle.std.specs.Prelude.{◌≡◌, ◌^◌, ◌≤◌, ◌<◌, length, drop};
ghost use Rattle.meaning.specs.Text.{decimal};
ghost use Rattle.decimal.specs.Take.{Wrote};
ghost use Rattle.decimal.specs.Powers.{powers_of_ten};
ghost use Rattle.decimal.specs.Numbers.{numbers, ReadsNumber, Spells};

// Entry k is 10 to the power k.
static POWERS: [u64; 20] = [
    1,
    10,
    100,
    1000,
    10000,
    100000,
    1000000,
    10000000,
    100000000,
    1000000000,
    10000000000,
    100000000000,
    1000000000000,
    10000000000000,
    100000000000000,
    1000000000000000,
    10000000000000000,
    100000000000000000,
    1000000000000000000,
    10000000000000000000,
];

// The table, by its rule.
#[tactic(auto, unfolding(crate::specs::Powers::powers_of_ten, crate::specs::Powers::powers_from))]
pub fn powers() -> &'static [u64; 20]
    ensures { result.now ≡ powers_of_ten }
{
    &POWERS
}

// What stands at the place a and behind it: nothing, if the text ends before.
pub fn rest(s: &[u8], a: usize) -> &[u8]
    ensures { result.now ≡ drop a s.now }
{
    s.get(a..).unwrap_or(b"")
}

// Whether a run of n digits with the value v is how v is written: it has the length that the table gives v.
fn spelled(n: usize, v: u64, next: usize) -> Option<(u64, usize)>
    requires { v < 10 ^ n }
    ensures { Spells n v next result }
{
    if n == 1 {
        return Some((v, next));
    }
    if n == 0 || 20 < n || v < powers()[n - 1] {
        return None;
    }
    Some((v, next))
}

// The number at the place a, at most max, that no further digit follows, and the place behind it. One pass over its digits.
pub fn take_decimal(s: &[u8], a: usize, max: u64) -> Option<(u64, usize)>
    ensures { ReadsNumber (numbers 0 max) s.now a result }
{
    let rest = rest(s, a);
    let mut v: u64 = 0;
    for (n, b) in rest.iter().enumerate() {
        if !b.is_ascii_digit() {
            return spelled(n, v, a + n);
        }
        v = v.checked_mul(10)?.checked_add(u64::from(*b - b'0'))?;
        if max < v {
            return None;
        }
    }
    spelled(rest.len(), v, a + rest.len())
}

// The same, from min on.
pub fn take_between(s: &[u8], a: usize, min: u64, max: u64) -> Option<(u64, usize)>
    ensures { ReadsNumber (numbers min max) s.now a result }
{
    take_decimal(s, a, max).filter(|read| min <= read.0)
}

// How many bytes v takes. The search begins at the small powers: most numbers are short, and `partition_point` made their writing up to
// 1.8 times as slow.
pub fn decimal_size(v: u64) -> usize
    ensures { (result ≡ length (decimal v)) × (1 ≤ result) × (result ≤ 20) }
{
    let powers = powers();
    for n in 1..20 {
        if v < powers[n] {
            return n;
        }
    }
    20
}

// Writes v at the start of the buffer, from the last digit to the first; by places, since of what `iter_mut().rev()` writes no clause
// tells.
pub fn put_decimal(buf: &mut [u8], v: u64) -> usize
    requires { length (decimal v) ≤ length buf.old }
    ensures { Wrote (decimal v) buf.old buf.new result }
{
    let n = decimal_size(v);
    let mut x = v;
    for i in (0..n).rev() {
        buf[i] = b'0' + (x % 10) as u8;
        x /= 10;
    }
    n
}
