// The reads of a replay script (docs/REPLAY.md), answered on standard output from lent tables: `keys`, `values`, `element`.
#![tactic(auto)]

use meaning::{ReadError, Reading};
use replay_text::{
    FILL, LONGEST_BUFFER, Lent, lent_of, lent_with_number, say_refused, say_short, say_written,
};
use tables::{Counts, HEADS, KEYS, VALUES};

// What is read; of an element, the one with this index. An enum and no closure: a closure that is handed on and lent a buffer asks its
// caller for clauses of its own, and these calls have none.
#[derive(Clone, Copy)]
enum Ask {
    Keys,
    Values,
    Element(u64),
}

fn say_reading(name: &[u8], r: Reading, buf: &[u8]) {
    match r {
        Ok(written) => say_written(name, 0, 0, written, buf),
        Err(ReadError::ShortBuffer { needed }) => say_short(name, needed, buf),
        Err(refusal) => say_refused(name, refusal.number(), buf),
    }
}

// Reads into a lent buffer that is full of the fill byte.
fn read_into(
    heads: &[u64; HEADS],
    keys: &[u64; KEYS],
    values: &[u64; VALUES],
    c: Counts,
    ask: Ask,
    way: &[u8],
    buf: &mut [u8],
) {
    match ask {
        Ask::Keys => {
            let r = reads::keys(heads, keys, c, way, buf);
            say_reading(b"keys ", r, buf);
        }
        Ask::Values => {
            let r = reads::values(heads, keys, values, c, way, buf);
            say_reading(b"values ", r, buf);
        }
        Ask::Element(index) => {
            let r = reads::element(heads, keys, c, way, index, buf);
            say_reading(b"element ", r, buf);
        }
    }
}

// Answers a read, and says where the next call stands.
fn read(
    heads: &[u64; HEADS],
    keys: &[u64; KEYS],
    values: &[u64; VALUES],
    c: Counts,
    ask: Ask,
    text: &[u8],
    call: Lent,
) -> usize {
    let mut space = [FILL; LONGEST_BUFFER];
    if let Some(buf) = space.get_mut(..call.room) {
        read_into(heads, keys, values, c, ask, call.block.bytes(text), buf);
    }
    call.block.next
}

// Answers the read at a place of a script, and says where the next call stands.
pub fn answer(
    heads: &[u64; HEADS],
    keys: &[u64; KEYS],
    values: &[u64; VALUES],
    c: Counts,
    text: &[u8],
    a: usize,
) -> Option<usize> {
    if let Some(call) = lent_of(text, a, b"keys ") {
        return Some(read(heads, keys, values, c, Ask::Keys, text, call));
    }
    if let Some(call) = lent_of(text, a, b"values ") {
        return Some(read(heads, keys, values, c, Ask::Values, text, call));
    }
    let (index, call) = lent_with_number(text, a, b"element ")?;
    Some(read(heads, keys, values, c, Ask::Element(index), text, call))
}
