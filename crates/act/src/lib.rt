// Document 01, "Applying an operation": what is done at the way's end, on the tables, in place: assign, insert, delete. Each function is
// safe on any memory, and lent only the tables that it changes (docs/DECISIONS.md, 40).
#![tactic(auto)]

ghost use Rattle.tables.specs.Holding.{four};
ghost use Rattle.deeds.specs.Deeds.{given_in};
ghost use Rattle.act.specs.Acting.{Gives, Finishes, Inserts};

use deeds::{branch_of, given_in, is_delete, kind_of, parts_of};
use message::Act;
use readers::{ELEMENT, Key};
use seats::find_seat;
use steps::WithGap;
use tables::{Counts, Position, Side, Value};

// Assigns at a row: a plain value takes the place of those that deps cover; an empty map or list clears the place. The mark is the first of
// n that are to be put in.
fn give(
    heads: &mut [u64],
    marks: &mut [u64],
    values: &mut [u64],
    c: Counts,
    s: Position,
    o: Act,
    n: usize,
) -> WithGap
    ensures { Gives o.id o.deps.at (given_in o.deed) n s c heads.old marks.old values.old result.counts result.gap
        heads.new marks.new values.new }
{
    let g = given_in(o.deed);
    let Some(side) = branch_of(g) else {
        let a = steps::mark_row(heads, marks, c, s, o.id, c.marks, n);
        let v = Value {
            id: o.id,
            kind: kind_of(g),
            words: parts_of(g),
        };
        let counts = values::set_value(heads, values, a.counts, s, o.deps, v);
        return WithGap { counts, gap: a.gap };
    };
    let a = clear::clear_block(heads, marks, values, c, s, o.deps);
    let b = steps::mark_row(heads, marks, a, s, o.id, a.marks, n);
    steps::flag_row(heads, s.row, side);
    b
}

// What the way's end says: an assign or a delete, at a row of depth n.
pub fn finish(
    heads: &mut [u64],
    marks: &mut [u64],
    values: &mut [u64],
    c: Counts,
    s: Position,
    o: Act,
    n: usize,
) -> WithGap
    ensures { Finishes o n s c heads.old marks.old values.old result.counts result.gap
        heads.new marks.new values.new }
{
    if is_delete(o.deed) {
        let counts = clear::clear_block(heads, marks, values, c, s, o.deps);
        return WithGap {
            counts,
            gap: counts.marks,
        };
    }
    give(heads, marks, values, c, s, o, n)
}

// Puts a new element in, if its predecessor is there, and assigns its value.
pub fn put_element(
    heads: &mut [u64],
    keys: &mut [u64],
    marks: &mut [u64],
    values: &mut [u64],
    c: Counts,
    from: Position,
    n: u64,
    prev: Key,
    o: Act,
) -> WithGap
    ensures { Inserts o n prev.hi prev.len from c (four heads.old keys.old marks.old values.old)
        result.counts result.gap (four heads.new keys.new marks.new values.new) }
{
    let Some(at) = find_seat(heads, keys, c.rows, from, n, prev, o.id) else {
        return WithGap {
            counts: c,
            gap: c.marks,
        };
    };
    let new = Key {
        hi: o.id,
        lo: 0,
        len: ELEMENT,
    };
    let e = steps::open_row(heads, keys, c, at.row, n, Side::List, new);
    give(heads, marks, values, e, at, o, n as usize)
}
