// Bytes in hex, as words: keys and strings.
ghost use Rattle.std.specs.Prelude.{◌≤◌};
ghost use Rattle.readers.specs.Hex.{ReadsDigit, ReadsDigitAt, ReadsWord, ReadsHex, ReadsKey, ReadsString};

use crate::{Key, Packed};

// Up to eight bytes as a word, and how many they are.
#[derive(Clone, Copy)]
struct Word {
    word: u64,
    len: u64,
}

// The value of a hex digit in lower case.
#[tactic(auto, unfolding(meaning::specs::Text::hex_digit))]
fn nibble(c: u8) -> Option<u64>
    ensures { ReadsDigit c result }
{
    match c {
        b'0'..=b'9' => Some(u64::from(c - b'0')),
        b'a'..=b'f' => Some(u64::from(c - b'a') + 10),
        _ => None,
    }
}

// The value of the hex digit at a place.
fn digit_at(s: &[u8], a: usize) -> Option<u64>
    ensures { ReadsDigitAt s.now a result }
{
    nibble(*s.get(a)?)
}

// As many bytes in hex as stand at a place, but at most eight.
fn take_word(s: &[u8], a: usize) -> Option<(Word, usize)>
    ensures { ReadsWord s.now a result }
{
    let mut word: u64 = 0;
    // the place behind the bytes taken so far, which the caller goes on from
    let mut n = a;
    for len in 0..8u64 {
        let Some(high) = digit_at(s, n) else {
            return Some((Word { word, len }, n));
        };
        let low = digit_at(s, n + 1)?;
        word += (high * 16 + low) << (56 - 8 * len);
        n += 2;
    }
    Some((Word { word, len: 8 }, n))
}

// All bytes in hex that stand at a place, at most eight for each of `count` words.
fn take_hex(s: &[u8], a: usize, count: usize) -> Option<(Packed, usize)>
    requires { count ≤ 4 }
    ensures { ReadsHex count s.now a result }
{
    let mut words = [0u64; 4];
    let mut len: u64 = 0;
    let mut n = a;
    for place in words[..count].iter_mut() {
        let (some, next) = take_word(s, n)?;
        *place = some.word;
        len += some.len;
        n = next;
        if some.len < 8 {
            return Some((Packed { words, len }, n));
        }
    }
    match digit_at(s, n) {
        Some(_) => None,
        None => Some((Packed { words, len }, n)),
    }
}

// A string: 0 to 32 bytes in hex.
pub fn take_string(s: &[u8], a: usize) -> Option<(Packed, usize)>
    ensures { ReadsString s.now a result }
{
    take_hex(s, a, 4)
}

// A key: 0 to 16 bytes in hex.
#[tactic(auto, unfolding(crate::specs::Words::words_of))]
pub fn take_key(s: &[u8], a: usize) -> Option<(Key, usize)>
    ensures { ReadsKey s.now a result }
{
    let (Packed { words, len }, next) = take_hex(s, a, 2)?;
    let [hi, lo, ..] = words;
    Some((Key { hi, lo, len }, next))
}
