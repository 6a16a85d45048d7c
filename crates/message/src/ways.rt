// The way of a message, key by key, and the ways of the three reads.
ghost use Rattle.std.specs.Prelude.{◌≡◌, ◌+◌, ◌*◌, ◌<◌, ◌↔◌, IsTrue, drop, slice_set};
ghost use Rattle.message.specs.Steps.{Finished};
ghost use Rattle.message.specs.Reads.{ReadsStep, ReadsListStep, ReadsWay, with_key};
ghost use Rattle.message.specs.Promises.{ReadsPlaceWay, ReadsKeysWay, ReadsElementWay};

use crate::Way;
use readers::{CARET, ELEMENT, Key, take_byte, take_id, take_key};

// The way of the root.
const ROOT: Way = Way {
    keys: [0u64; 24],
    n: 0,
};

// A way that was read, the third word of its last key (`ELEMENT`, `CARET`, or a map key's length: a word of the tables, as in `Key`), and
// the place behind it.
#[derive(Clone, Copy)]
pub struct WayRead {
    pub way: Way,
    pub last: u64,
    pub next: usize,
}

// The way with a key more. Word by word: a copy of an array made of the three says no more.
fn put_key(way: &mut Way, key: Key)
    requires { way.old.n < 8 }
    ensures { way.new ≡ with_key way.old key }
{
    let i = 3 * way.n;
    way.keys[i] = key.hi;
    way.keys[i + 1] = key.lo;
    way.keys[i + 2] = key.len;
    way.n += 1;
}

// Whether a way ends here: its line does, or the text.
fn ends(s: &[u8], a: usize) -> bool
    ensures { IsTrue result ↔ Finished (drop a s.now) }
{
    matches!(s.get(a), None | Some(b'\n'))
}

// The element id or `^` behind `[`.
fn take_list_step(s: &[u8], a: usize) -> Option<(Key, usize)>
    ensures { ReadsListStep s.now a result }
{
    if let Some(next) = take_byte(s, a, b'^') {
        let key = Key {
            hi: 0,
            lo: 0,
            len: CARET,
        };
        return Some((key, next));
    }
    let (id, next) = take_id(s, a)?;
    let key = Key {
        hi: id,
        lo: 0,
        len: ELEMENT,
    };
    Some((key, next))
}

// A step of a way: `{` and a key, or `[` and what follows it.
#[tactic(auto, using(crate::proofs::Steps::first_byte))]
fn take_step(s: &[u8], a: usize) -> Option<(Key, usize)>
    ensures { ReadsStep s.now a result }
{
    match *s.get(a)? {
        b'{' => take_key(s, a + 1),
        b'[' => take_list_step(s, a + 1),
        _ => None,
    }
}

// A way: one to eight keys, `^` only last. It counts its keys itself, so the loop has no index, and no `for` is plainer.
pub fn take_way(s: &[u8], a: usize) -> Option<WayRead>
    ensures { ReadsWay s.now a result }
{
    let mut way = ROOT;
    let (first, mut next) = take_key(s, a)?;
    put_key(&mut way, first);
    let mut last = first.len;
    while !ends(s, next) {
        let (key, behind) = take_step(s, next)?;
        if last == CARET || way.n == 8 {
            return None;
        }
        put_key(&mut way, key);
        last = key.len;
        next = behind;
    }
    Some(WayRead { way, last, next })
}

// The way of a place, as a read for values is given it.
pub fn take_place_way(s: &[u8]) -> Option<Way>
    ensures { ReadsPlaceWay s.now result }
{
    let w = take_way(s, 0)?;
    if w.next < s.len() || w.last == CARET {
        return None;
    }
    Some(w.way)
}

// The way of a read for keys: a place's and `{`, or no bytes for the root.
pub fn take_keys_way(s: &[u8]) -> Option<Way>
    ensures { ReadsKeysWay s.now result }
{
    if s.is_empty() {
        return Some(ROOT);
    }
    take_place_way(s.strip_suffix(b"{")?)
}

// The way of a read for an element: a place's and `[`.
pub fn take_element_way(s: &[u8]) -> Option<Way>
    ensures { ReadsElementWay s.now result }
{
    take_place_way(s.strip_suffix(b"[")?)
}
