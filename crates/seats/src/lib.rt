// Where a new element comes among the rows of the document's tables. Document 01, "Applying an operation": behind its predecessor or the
// head, and on over elements with greater ids. It is safe on any memory, lent as slices of any length (docs/DECISIONS.md, 40).
#![tactic(auto)]

ghost use Rattle.seats.specs.Seats.{Seats};

use readers::{CARET, ELEMENT, Key};
use tables::{Aim, Position, Search, find, is_at, next_row};

// Where the element with this id comes, if its predecessor is there: behind the head or that, and on over elements with greater ids.
pub fn find_seat(
    heads: &[u64],
    keys: &[u64],
    rows: usize,
    from: Position,
    n: u64,
    prev: Key,
    id: u64,
) -> Option<Position>
    ensures { Seats n prev.hi prev.len id rows from heads.now keys.now result }
{
    let new = Key {
        hi: id,
        lo: 0,
        len: ELEMENT,
    };
    if prev.len == CARET {
        let first = Search {
            aim: Aim::FirstSeat,
            depth: n,
            key: new,
        };
        return Some(find(heads, keys, rows, from, first));
    }
    let w = Search {
        aim: Aim::Element,
        depth: n,
        key: Key {
            hi: prev.hi,
            lo: 0,
            len: ELEMENT,
        },
    };
    let at = find(heads, keys, rows, from, w);
    if !is_at(heads, keys, rows, at.row, w) {
        return None;
    }
    let next = next_row(heads, at);
    let seat = Search {
        aim: Aim::Seat,
        depth: n,
        key: new,
    };
    Some(find(heads, keys, rows, next, seat))
}
