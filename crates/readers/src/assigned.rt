// What is assigned: plain values, empty maps and lists.
ghost use Rattle.readers.specs.Given.{ReadsPlain, ReadsAssigned, ReadsNumberValue, ReadsBytesValue};

use crate::hex::take_string;
use crate::{Given, take_integer};

// The integer behind `i`.
#[tactic(auto, unfolding(crate::specs::Given::given_of))]
fn take_number(s: &[u8], a: usize) -> Option<(Given, usize)>
    ensures { ReadsNumberValue s.now a result }
{
    let (n, next) = take_integer(s, a)?;
    Some((Given::from(n), next))
}

// The string behind `s`.
#[tactic(auto, unfolding(crate::specs::Given::given_of))]
fn take_bytes(s: &[u8], a: usize) -> Option<(Given, usize)>
    ensures { ReadsBytesValue s.now a result }
{
    let (bytes, next) = take_string(s, a)?;
    Some((Given::String(bytes), next))
}

// A plain value: n, t, f, i and a number, s and hex.
pub fn take_plain(s: &[u8], a: usize) -> Option<(Given, usize)>
    ensures { ReadsPlain s.now a result }
{
    let letter = *s.get(a)?;
    let n = a + 1;
    match letter {
        b'n' => Some((Given::Null, n)),
        b't' => Some((Given::True, n)),
        b'f' => Some((Given::False, n)),
        b'i' => take_number(s, n),
        b's' => take_bytes(s, n),
        _ => None,
    }
}

// What is assigned: a plain value, `{` or `[`.
pub fn take_assigned(s: &[u8], a: usize) -> Option<(Given, usize)>
    ensures { ReadsAssigned s.now a result }
{
    match *s.get(a)? {
        b'{' => Some((Given::Map, a + 1)),
        b'[' => Some((Given::List, a + 1)),
        _ => take_plain(s, a),
    }
}
