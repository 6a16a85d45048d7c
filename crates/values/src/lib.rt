// The values of a row of the document's tables: those that are covered go, and one comes. Each function is safe on any memory: a place,
// a count or a table that doesn't fit is found before the first word is written. What they promise of tables that hold rows is in
// specs/Values. Each is lent only the tables that it changes (docs/DECISIONS.md, 40). A guard that stops answers the counts as they were
// and no Option: in memory that holds rows none stops.
#![tactic(auto)]

ghost use Rattle.std.specs.Prelude.{◌+◌, ◌≤◌, ◌≡◌, ◌∷◌, length};
ghost use Rattle.words.specs.Words.{over_at};
ghost use Rattle.values.specs.Values.{Drops, Adds, HasOne, Sets};

use counters::covered;
use meaning::Counters;
use tables::{Counts, Position, VALUE_WORDS, VALUES_ROOM, Value, head_at, head_in, with_counts};
use words::{close, keep_rows, lay, open, rank_rows};

// Drops a row's values that d covers.
fn drop_values(heads: &mut [u64], values: &mut [u64], c: Counts, s: Position, d: Counters) -> Counts
    ensures { Drops s d.at c heads.old values.old result heads.new values.new }
{
    let row = s.row;
    let first = s.value;
    let live = c.values;
    if row >= heads.len()
        || live > VALUES_ROOM
        || values.len() < VALUE_WORDS * live
        || first > live
    {
        return c;
    }
    let h = heads[row];
    let head = head_in(h);
    let n = head.values;
    if n > live - first {
        return c;
    }
    let from = VALUE_WORDS * first;
    let end = keep_rows::<VALUE_WORDS>(values, from, n, from, d);
    close(values, VALUE_WORDS * live, from + n * VALUE_WORDS, end);
    let stay = (end - from) / VALUE_WORDS;
    heads[row] = with_counts(h, head.marks, stay);
    Counts {
        values: live - (n - stay),
        ..c
    }
}

// Writes a value's words.
fn write_value(values: &mut [u64], at: usize, v: Value)
    requires { at + 6 ≤ length values.old }
    ensures { values.new ≡ over_at at (v.id ∷ v.kind ∷ v.words) values.old }
{
    lay(
        values,
        at,
        &[v.id, v.kind, v.words[0], v.words[1], v.words[2], v.words[3]],
    );
}

// Puts a value among a row's values, which have none of its id.
fn add_value(heads: &mut [u64], values: &mut [u64], c: Counts, s: Position, v: Value) -> Counts
    ensures { Adds s v.id (v.kind ∷ v.words) c heads.old values.old result heads.new values.new }
{
    let row = s.row;
    let first = s.value;
    let live = c.values;
    if row >= heads.len()
        || live >= VALUES_ROOM
        || values.len() < VALUE_WORDS * live + VALUE_WORDS
        || first > live
    {
        return c;
    }
    let h = heads[row];
    let head = head_in(h);
    let n = head.values;
    if n > live - first {
        return c;
    }
    let from = VALUE_WORDS * first;
    let k = rank_rows(values, from, n, VALUE_WORDS, v.id);
    let at = from + k * VALUE_WORDS;
    open(values, VALUE_WORDS * live, at, VALUE_WORDS);
    write_value(values, at, v);
    heads[row] = with_counts(h, head.marks, n + 1);
    Counts {
        values: live + 1,
        ..c
    }
}

// Whether a row has one value, and d covers it.
fn has_one(heads: &[u64], values: &[u64], s: Position, d: Counters) -> bool
    ensures { HasOne s d.at heads.now values.now result }
{
    let first = s.value;
    if head_at(heads, s.row).values != 1
        || first >= VALUES_ROOM
        || values.len() < VALUE_WORDS * first + VALUE_WORDS
    {
        return false;
    }
    covered(&d, values[VALUE_WORDS * first])
}

// A row's values that d covers go, and a value comes, of whose id none is left. If it comes for the only one, it is written over it, and no
// other word moves.
pub fn set_value(
    heads: &mut [u64],
    values: &mut [u64],
    c: Counts,
    s: Position,
    d: Counters,
    v: Value,
) -> Counts
    ensures { Sets s d.at v.id (v.kind ∷ v.words) c heads.old values.old result heads.new
        values.new }
{
    if has_one(heads, values, s, d) {
        write_value(values, VALUE_WORDS * s.value, v);
        return c;
    }
    let left = drop_values(heads, values, c, s, d);
    add_value(heads, values, left, s, v)
}
