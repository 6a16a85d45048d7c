// Readers of the parts that messages, edits, sheets and the ways of reads are made of. Each takes what stands at a place of a text, and
// answers it with the place behind it, or that nothing of its kind stands there. Places of one text and no cursor: the clauses speak of
// places.
#![tactic(auto)]

mod assigned;
mod hex;

ghost use Rattle.std.specs.Prelude.{◌≡◌, ◌==◌, [], ◌∷◌, position};
ghost use Rattle.meaning.specs.Ascii.{byte};
ghost use Rattle.decimal.specs.Numbers.{ReadsNumber};
ghost use Rattle.readers.specs.Reads.{ReadsText, ReadsId, comma_numbers, ReadsCounters, ReadsInteger};
ghost use Rattle.readers.specs.Lines.{IsLine};
ghost use Rattle.readers.specs.Given.{given_integer};

pub use assigned::{take_assigned, take_plain};
use decimal::{rest, take_between, take_decimal};
pub use hex::{take_key, take_string};
use meaning::Counters;

// The greatest counter, and how many terminals there are.
pub const LAST_COUNTER: u64 = 4294967295;

pub const TERMINALS: u64 = 8;

// An integer: n, or -(n + 1).
#[derive(Clone, Copy)]
pub enum Integer {
    NonNeg(u64),
    Neg(u64),
}

// Up to 32 bytes, packed into four words, and how many they are: a string, as it is read (fixed memory, no heap).
#[derive(Clone, Copy)]
pub struct Packed {
    pub words: [u64; 4],
    pub len: u64,
}

// A key as three words: its first eight bytes, its next eight, its length. Of an element id: the id, 0 and `ELEMENT`; of `^`: 0, 0 and
// `CARET`. No enum of the three: the tables hold these words, and the theorem `words_order` (specs/Order) is that they compare as keys do.
#[derive(Clone, Copy, PartialEq, Eq, PartialOrd, Ord)]
pub struct Key {
    pub hi: u64,
    pub lo: u64,
    pub len: u64,
}

// the longest key has 16 bytes
pub const LONGEST: u64 = 16;

pub const ELEMENT: u64 = 17;

pub const CARET: u64 = 18;

// What is assigned: a plain value, or an empty map or list. Neg(m) is -(m + 1).
#[derive(Clone, Copy)]
pub enum Given {
    Null,
    True,
    False,
    NonNeg(u64),
    Neg(u64),
    String(Packed),
    Map,
    List,
}

impl From<Integer> for Given {
    ghost from_gives = { λ n g. g ≡ given_integer n };

    fn from(n: Integer) -> Given {
        match n {
            Integer::NonNeg(value) => Given::NonNeg(value),
            Integer::Neg(value) => Given::Neg(value),
        }
    }
}

// A fixed text.
pub fn take_text(s: &[u8], a: usize, text: &[u8]) -> Option<usize>
    ensures { ReadsText text.now s.now a result }
{
    if rest(s, a).starts_with(text) {
        Some(a + text.len())
    } else {
        None
    }
}

// One byte.
#[tactic(auto, using(crate::proofs::Texts::byte_lacks))]
pub fn take_byte(s: &[u8], a: usize, b: u8) -> Option<usize>
    ensures { ReadsText (b ∷ []) s.now a result }
{
    if *s.get(a)? == b { Some(a + 1) } else { None }
}

// An id c.r, as the number c * 8 + (r - 1).
#[tactic(auto, using(crate::proofs::Ids::no_counter, crate::proofs::Ids::no_point, crate::proofs::Ids::no_terminal))]
pub fn take_id(s: &[u8], a: usize) -> Option<(u64, usize)>
    ensures { ReadsId s.now a result }
{
    let (c, n) = take_between(s, a, 1, LAST_COUNTER)?;
    let m = take_byte(s, n, b'.')?;
    let (r, next) = take_between(s, m, 1, TERMINALS)?;
    Some((c * 8 + (r - 1), next))
}

// A comma and a counter.
#[tactic(auto, using(crate::proofs::Commas::no_comma, crate::proofs::Commas::behind_comma))]
fn take_comma(s: &[u8], a: usize) -> Option<(u64, usize)>
    ensures { ReadsNumber comma_numbers s.now a result }
{
    let n = take_byte(s, a, b',')?;
    take_decimal(s, n, LAST_COUNTER)
}

// Eight counters with commas.
#[tactic(auto, using(crate::proofs::Commas::none))]
pub fn take_counters(s: &[u8], a: usize) -> Option<(Counters, usize)>
    ensures { ReadsCounters s.now a result }
{
    let mut at = [0u32; 8];
    let (first, mut n) = take_decimal(s, a, LAST_COUNTER)?;
    at[0] = first as u32;
    for counter in at[1..].iter_mut() {
        let (x, next) = take_comma(s, n)?;
        *counter = x as u32;
        n = next;
    }
    Some((Counters { at }, n))
}

// An integer from -9223372036854775808 to 9223372036854775807.
#[tactic(auto, using(crate::proofs::Integers::no_number, crate::proofs::Integers::no_magnitude))]
pub fn take_integer(s: &[u8], a: usize) -> Option<(Integer, usize)>
    ensures { ReadsInteger s.now a result }
{
    let Some(n) = take_byte(s, a, b'-') else {
        let (value, next) = take_decimal(s, a, 9223372036854775807)?;
        return Some((Integer::NonNeg(value), next));
    };
    let (value, next) = take_between(s, n, 1, 9223372036854775808)?;
    Some((Integer::Neg(value - 1), next))
}

// Where the first line feed of a text stands.
fn line_feed(s: &[u8]) -> Option<usize>
    ensures { result ≡ position (λ b. b == byte "\n") s.now }
{
    s.iter().position(|b| *b == b'\n')
}

// The line at a place, without its line feed: that part of the caller's bytes itself. The line feed stands behind it if it does not reach
// to the end of s.
pub fn take_line(s: &[u8], a: usize) -> &[u8]
    ensures { IsLine s.now a result.now }
{
    let rest = rest(s, a);
    &rest[..line_feed(rest).unwrap_or(rest.len())]
}
