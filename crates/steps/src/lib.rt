// The single steps over the document's tables that open a row, mark it or set a flag. Each is safe on any memory: a place, a
// count or a table that doesn't fit is found before the first word is written. What they promise of tables that hold rows says specs/Steps.
// Each is lent only the tables that it changes (docs/DECISIONS.md, 40), so that no clause has to say that the others stay.
#![tactic(auto)]

ghost use Rattle.readers.specs.Hex.{words_in};
ghost use Rattle.steps.specs.Steps.{Flags, Opens, Marks};

use readers::Key;
use tables::{
    Counts, DEEPEST, MARKS_ROOM, Position, ROWS_ROOM, Side, head_in, new_head, with_flag, with_mark,
};
use words::{lay, open, rank_rows};

// Sets the flag of a row's branch.
pub fn flag_row(heads: &mut [u64], row: usize, side: Side)
    ensures { Flags side row heads.old heads.new }
{
    if row < heads.len() {
        heads[row] = with_flag(heads[row], side);
    }
}

// Opens a row without flags, marks and values before row `at`.
pub fn open_row(
    heads: &mut [u64],
    keys: &mut [u64],
    c: Counts,
    at: usize,
    depth: u64,
    side: Side,
    key: Key,
) -> Counts
    ensures { Opens at depth side (words_in key) c heads.old keys.old result heads.new keys.new }
{
    let rows = c.rows;
    if rows >= ROWS_ROOM
        || at > rows
        || depth > DEEPEST
        || heads.len() <= rows
        || keys.len() < 3 * rows + 3
    {
        return c;
    }
    open(heads, rows, at, 1);
    heads[at] = new_head(depth, side);
    open(keys, 3 * rows, 3 * at, 3);
    lay(keys, 3 * at, &[key.hi, key.lo, key.len]);
    Counts {
        rows: rows + 1,
        ..c
    }
}

// The counts of tables whose marks have a gap in them, and where it stands.
#[derive(Clone, Copy)]
pub struct WithGap {
    pub counts: Counts,
    pub gap: usize,
}

// Puts an id among a row's marks, which don't have it. The row's marks stand before a gap of g words, from `gap` on; the words between the
// new mark and the gap move up over it, so that a gap of one word less stands before the new mark.
pub fn mark_row(
    heads: &mut [u64],
    marks: &mut [u64],
    c: Counts,
    s: Position,
    id: u64,
    gap: usize,
    g: usize,
) -> WithGap
    ensures { Marks s id c gap g heads.old marks.old result.counts result.gap heads.new
        marks.new }
{
    let row = s.row;
    let from = s.mark;
    let live = c.marks;
    if row >= heads.len()
        || live >= MARKS_ROOM
        || g == 0
        || gap > marks.len()
        || g > marks.len() - gap
    {
        return WithGap { counts: c, gap };
    }
    let h = heads[row];
    let n = head_in(h).marks;
    if n >= MARKS_ROOM || from > gap || n > gap - from {
        return WithGap { counts: c, gap };
    }
    let k = rank_rows(marks, from, n, 1, id);
    let at = from + k;
    open(marks, gap, at, g);
    marks[at + g - 1] = id;
    heads[row] = with_mark(h);
    WithGap {
        counts: Counts {
            marks: live + 1,
            ..c
        },
        gap: at,
    }
}
