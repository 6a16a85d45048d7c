// Document 01, "What an operation does": an operation carried out on the tables, in place. The way is followed from the root down; what its
// end says is done first, and each place on the way is marked on the way back, so that no step moves what a later one looks for. At the end
// of the way a gap of as many words as there are marks to put in stands in the marks; it travels to the front, and no mark is moved twice.
// Each function is lent the tables that it touches, as slices of any length (docs/DECISIONS.md, 40).
#![tactic(auto)]

ghost use Rattle.std.specs.Prelude.{◌≡◌};
ghost use Rattle.tables.specs.Wants.{search_of};
ghost use Rattle.tables.specs.Holding.{four};
ghost use Rattle.deeds.specs.Deeds.{may_make};
ghost use Rattle.descend.specs.Doing.{side_by, LeadsIn, Enters, Descends};

use act::{finish, put_element};
use deeds::{inserts_here, is_delete, may_make};
use message::{Act, Deed};
use readers::{Key, LONGEST};
use steps::WithGap;
use tables::{Counts, DEEPEST, Position, Search, Side, next_row, search_of};

// The branch that a key is of, by its third word.
fn side_by(len: u64) -> Side
    ensures { result ≡ side_by len }
{
    if len > LONGEST { Side::List } else { Side::Map }
}

// The place of the row that is looked for, made if it isn't there and may be (the clause `LeadsIn` names that by a truth value), and the
// counts with it.
fn lead(
    heads: &mut [u64],
    keys: &mut [u64],
    c: Counts,
    from: Position,
    w: Search,
    make: bool,
) -> Option<(Position, Counts)>
    ensures { LeadsIn w make c from heads.old keys.old heads.new keys.new result }
{
    let at = tables::find(heads, keys, c.rows, from, w);
    if tables::is_at(heads, keys, c.rows, at.row, w) {
        return Some((at, c));
    }
    if !make {
        return None;
    }
    let counts = steps::open_row(heads, keys, c, at.row, w.depth, Side::Map, w.key);
    Some((at, counts))
}

// The row of a key of the way, among rows of depth n; `left` words of the way are left behind the key.
fn reach(
    heads: &mut [u64],
    keys: &mut [u64],
    c: Counts,
    from: Position,
    n: u64,
    key: Key,
    left: usize,
    deed: Deed,
) -> Option<(Position, Counts)>
    ensures { LeadsIn (search_of n key) (may_make key.len left deed) c from heads.old keys.old
        heads.new keys.new result }
{
    let w = search_of(n, key);
    let make = may_make(key.len, left, deed);
    lead(heads, keys, c, from, w, make)
}

// A place of depth n that the way goes on from: it is marked, unless the operation deletes, and its branch has its flag.
fn enter(
    heads: &mut [u64],
    marks: &mut [u64],
    c: Counts,
    s: Position,
    o: Act,
    side: Side,
    gap: usize,
    n: usize,
) -> WithGap
    ensures { Enters o side n s c gap heads.old marks.old result.counts result.gap heads.new
        marks.new }
{
    let row = s.row;
    if is_delete(o.deed) {
        steps::flag_row(heads, row, side);
        return WithGap { counts: c, gap };
    }
    let e = steps::mark_row(heads, marks, c, s, o.id, gap, n);
    steps::flag_row(heads, row, side);
    e
}

// Follows the way among the rows behind a place, whose children have depth n: to the row of its first key, and from there along the
// remaining keys. Unless the operation deletes, the n - 1 marks of the places above are left to be put in: the gap for them stands.
pub fn descend(
    heads: &mut [u64],
    keys: &mut [u64],
    marks: &mut [u64],
    values: &mut [u64],
    c: Counts,
    from: Position,
    n: u64,
    o: Act,
    way: &[u64],
) -> WithGap
    ensures { Descends o n way.now from c
        (four heads.old keys.old marks.old values.old) result.counts result.gap
        (four heads.new keys.new marks.new values.new) }
{
    let left = way.len();
    let gap = c.marks;
    if left < 3 || n > DEEPEST {
        return WithGap { counts: c, gap };
    }
    let key = Key {
        hi: way[0],
        lo: way[1],
        len: way[2],
    };
    if inserts_here(left, o.deed) {
        return put_element(heads, keys, marks, values, c, from, n, key, o);
    }
    let Some((at, counts)) = reach(heads, keys, c, from, n, key, left - 3, o.deed) else {
        return WithGap { counts: c, gap };
    };
    if left == 3 {
        return finish(heads, marks, values, counts, at, o, n as usize);
    }
    if left < 6 {
        return WithGap { counts, gap };
    }
    let side = side_by(way[5]);
    let p = next_row(heads, at);
    let e = descend(heads, keys, marks, values, counts, p, n + 1, o, &way[3..]);
    enter(heads, marks, e.counts, at, o, side, e.gap, n as usize)
}
