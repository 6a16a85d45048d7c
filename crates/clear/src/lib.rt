// Document 01, "Applying an operation": clearing a place clears each place under both its branches, and each of those its own branches
// in turn. In the tables that is one pass over the rows of the place's block: each row's marks and values that stay are moved down to
// those before them, and at the end what stands behind the block is moved once. Each is lent only the tables that it changes
// (docs/DECISIONS.md, 40). A guard that stops answers the counts as they were and no Option: in memory that holds rows none stops.
#![tactic(auto)]

ghost use Rattle.std.specs.Prelude.{◌<◌, length};
ghost use Rattle.clear.specs.Clear.{passing, In, Starts, ClearsRow, ClearsBranch, ClearsPlace, Clears};

use meaning::Counters;
use tables::{Counts, DEEPEST, Position, VALUE_WORDS, head_in, with_counts};
use words::{close, keep_rows};

// Where a pass over the rows stands: the row, in marks and in values the word to read, and the word behind the last that stays.
#[derive(Clone, Copy)]
pub struct Cursor {
    pub row: usize,
    pub mark: usize,
    pub marked: usize,
    pub value: usize,
    pub valued: usize,
}

// Clears one row, and goes on to the next.
fn clear_row(
    heads: &mut [u64],
    marks: &mut [u64],
    values: &mut [u64],
    p: Cursor,
    d: Counters,
) -> Cursor
    requires { In (passing heads.old marks.old values.old p) × (p.row < length heads.old) }
    ensures { ClearsRow d.at (passing heads.old marks.old values.old p)
        (passing heads.new marks.new values.new result) }
{
    let row = p.row;
    let next = row + 1;
    let h = heads[row];
    let head = head_in(h);
    let n = head.marks;
    let k = head.values;
    let words = k * VALUE_WORDS;
    if marks.len() - p.mark < n || values.len() - p.value < words {
        return Cursor { row: next, ..p };
    }
    let to = keep_rows::<1>(marks, p.mark, n, p.marked, d);
    let end = keep_rows::<VALUE_WORDS>(values, p.value, k, p.valued, d);
    heads[row] = with_counts(h, to - p.marked, (end - p.valued) / VALUE_WORDS);
    Cursor {
        row: next,
        mark: p.mark + n,
        marked: to,
        value: p.value + words,
        valued: end,
    }
}

// Clears the place at the cursor, which goes on behind its block. Levels are left for what hangs under it.
#[cycle(clear_branch_clear_place)]
fn clear_place(
    heads: &mut [u64],
    marks: &mut [u64],
    values: &mut [u64],
    rows: usize,
    p: Cursor,
    d: Counters,
    left: u64,
) -> Cursor
    requires { Starts rows (passing heads.old marks.old values.old p) × (p.row < rows) }
    ensures { ClearsPlace d.at rows left (passing heads.old marks.old values.old p)
        (passing heads.new marks.new values.new result) }
{
    let row = p.row;
    let n = head_in(heads[row]).depth;
    let q = clear_row(heads, marks, values, p, d);
    clear_branch(heads, marks, values, rows, q, d, n, left)
}

// Clears the places from the cursor on that are deeper than n, which are those under a place of depth n. A loop, since `clear_place` moves
// the cursor on by as many rows as its block has.
#[cycle(clear_branch_clear_place)]
fn clear_branch(
    heads: &mut [u64],
    marks: &mut [u64],
    values: &mut [u64],
    rows: usize,
    p: Cursor,
    d: Counters,
    n: u64,
    left: u64,
) -> Cursor
    requires { Starts rows (passing heads.old marks.old values.old p) }
    ensures { ClearsBranch d.at rows n left (passing heads.old marks.old values.old p)
        (passing heads.new marks.new values.new result) }
{
    if left == 0 {
        return p;
    }
    // no `for`: the cursor moves on by the block that was cleared
    let mut q = p;
    while q.row < rows {
        let row = q.row;
        if head_in(heads[row]).depth <= n {
            return q;
        }
        q = clear_place(heads, marks, values, rows, q, d, left - 1);
    }
    q
}

// Clears the place at s with all that hangs under it, and answers the counts that are left.
pub fn clear_block(
    heads: &mut [u64],
    marks: &mut [u64],
    values: &mut [u64],
    c: Counts,
    s: Position,
    d: Counters,
) -> Counts
    ensures { Clears d.at heads.old marks.old values.old c s
        heads.new marks.new values.new result }
{
    let rows = c.rows;
    let live = c.marks;
    let row = s.row;
    let mark = s.mark;
    if rows > heads.len() || row >= rows || live > marks.len() || mark > live {
        return c;
    }
    if c.values > values.len() / VALUE_WORDS || s.value > c.values {
        return c;
    }
    let words = c.values * VALUE_WORDS;
    let value = s.value * VALUE_WORDS;
    let p = Cursor {
        row,
        mark,
        marked: mark,
        value,
        valued: value,
    };
    let q = clear_place(heads, marks, values, rows, p, d, DEEPEST);
    if q.mark > live || q.value > words {
        return c;
    }
    close(marks, live, q.mark, q.marked);
    close(values, words, q.value, q.valued);
    Counts {
        marks: live - (q.mark - q.marked),
        values: (words - (q.value - q.valued)) / VALUE_WORDS,
        ..c
    }
}
