// Document 01, "Reads": the keys of the root or of a place, the values of a place, the n-th element of a place's list, from lent tables
// into the caller's buffer. Each read takes its way apart (1), follows it in the tables (14), and gives what is listed of the place
// there (13, 0): the text fills the start of the buffer and the rest is untouched. Whatever the memory contains, each stays in bounds and
// terminates, and a refusal leaves the buffer as it was. Counts that have no room in the tables: 14, whatever the way.
#![tactic(auto)]

ghost use Rattle.reads.specs.Asks.{KeysAsked, ValuesAsked, ElementAsked};
ghost use Rattle.reads.specs.Gives.{LeadsTo};

use finder::follow;
use meaning::{ReadError, Reading};
use message::{Way, take_element_way, take_keys_way, take_place_way};
use tables::{Counts, DEEPEST, HEADS, KEYS, Position, VALUES, next_row, within};

// Follows the way of a place. 14 for what is missing, and for what has no marks.
fn place_at(heads: &[u64], keys: &[u64], rows: usize, way: &Way) -> Result<Position, ReadError>
    ensures { LeadsTo heads.now keys.now rows way.now result }
{
    if way.n as u64 > DEEPEST {
        return Err(ReadError::NotThere);
    }
    follow(heads, keys, rows, &way.keys[..3 * way.n]).or(Err(ReadError::NotThere))
}

// The keys of a way entered as a map, or of the root.
pub fn keys(
    heads: &[u64; HEADS],
    keys: &[u64; KEYS],
    c: Counts,
    way: &[u8],
    buf: &mut [u8],
) -> Reading
    ensures { KeysAsked heads.now keys.now c way.now buf.old result buf.new }
{
    if !within(c) {
        return Err(ReadError::NotThere);
    }
    let led = take_keys_way(way).ok_or(ReadError::Layout)?;
    if led.n == 0 {
        return listings::keys(buf, heads, keys, c.rows, 0, 0);
    }
    let at = place_at(heads, keys, c.rows, &led)?;
    let next = next_row(heads, at);
    listings::keys(buf, heads, keys, c.rows, next.row, led.n as u64)
}

// The values of a place.
pub fn values(
    heads: &[u64; HEADS],
    keys: &[u64; KEYS],
    values: &[u64; VALUES],
    c: Counts,
    way: &[u8],
    buf: &mut [u8],
) -> Reading
    ensures { ValuesAsked heads.now keys.now values.now c way.now buf.old result buf.new }
{
    if !within(c) {
        return Err(ReadError::NotThere);
    }
    let led = take_place_way(way).ok_or(ReadError::Layout)?;
    let at = place_at(heads, keys, c.rows, &led)?;
    listings::values(buf, heads, values, at)
}

// The id of the element of this index, from 1, among the present ones of a way entered as a list.
pub fn element(
    heads: &[u64; HEADS],
    keys: &[u64; KEYS],
    c: Counts,
    way: &[u8],
    index: u64,
    buf: &mut [u8],
) -> Reading
    ensures { ElementAsked heads.now keys.now c index way.now buf.old result buf.new }
{
    if !within(c) {
        return Err(ReadError::NotThere);
    }
    let led = take_element_way(way).ok_or(ReadError::Layout)?;
    let at = place_at(heads, keys, c.rows, &led)?;
    let next = next_row(heads, at);
    listings::element(buf, heads, keys, c.rows, next.row, led.n as u64, index)
}
