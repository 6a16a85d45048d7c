// What goes: the marks and values that deps cover, of a row and of a block.
ghost use Rattle.std.specs.Prelude.{◌≡◌, ◌<◌, ◌+◌};
ghost use Rattle.forecast.specs.Goes.{together, RowGone, UnderGone, BlockGone, RowDeep};

use crate::Lost;
use meaning::Counters;
use tables::{MARKS_ROOM, Position, ROWS_ROOM, VALUE_WORDS, VALUES_ROOM, head_at, next_row};
use words::covered_rows;

pub const NOTHING: Lost = Lost {
    marks: 0,
    values: 0,
};

impl Lost {
    // What goes of two parts that have no row in common. No `impl Add`: the sum has to have room.
    fn plus(self, g: Lost) -> Lost
        requires { (self.marks + g.marks < 18446744073709551616) × (self.values + g.values < 18446744073709551616) }
        ensures { result ≡ together self g }
    {
        Lost {
            marks: self.marks + g.marks,
            values: self.values + g.values,
        }
    }
}

// How many marks and values of a row d covers.
pub fn gone_row(heads: &[u64], marks: &[u64], values: &[u64], s: Position, d: Counters) -> Lost
    ensures { RowGone heads.now marks.now values.now s d.at result }
{
    let head = head_at(heads, s.row);
    if s.mark > MARKS_ROOM || s.value > VALUES_ROOM {
        return NOTHING;
    }
    if s.mark + head.marks > marks.len()
        || s.value * VALUE_WORDS + head.values * VALUE_WORDS > values.len()
    {
        return NOTHING;
    }
    Lost {
        marks: covered_rows::<1>(marks, s.mark, head.marks, d),
        values: covered_rows::<VALUE_WORDS>(values, s.value * VALUE_WORDS, head.values, d),
    }
}

// The same of the rows deeper than n, from a place on up to the first that isn't.
pub fn gone_under(
    heads: &[u64],
    marks: &[u64],
    values: &[u64],
    rows: usize,
    from: Position,
    n: u64,
    d: Counters,
) -> Lost
    ensures { UnderGone heads.now marks.now values.now rows from n d.at result }
{
    let mut at = from;
    let mut sum = NOTHING;
    if rows > ROWS_ROOM || at.row > rows || at.mark > MARKS_ROOM || at.value > VALUES_ROOM {
        return sum;
    }
    // It stays a `while`: the place moves on by what each row's head says, and the first row that isn't deeper ends it.
    while at.row < rows {
        let head = head_at(heads, at.row);
        if head.depth <= n {
            return sum;
        }
        let g = gone_row(heads, marks, values, at, d);
        sum = sum.plus(g);
        at = Position {
            row: at.row + 1,
            mark: at.mark + head.marks,
            value: at.value + head.values,
        };
    }
    sum
}

// How deep a row is.
pub fn depth_at(heads: &[u64], row: usize) -> u64
    ensures { RowDeep heads.now row result }
{
    head_at(heads, row).depth
}

// What goes of a block: of the row at s and the deeper rows behind it.
pub fn gone(
    heads: &[u64],
    marks: &[u64],
    values: &[u64],
    rows: usize,
    s: Position,
    d: Counters,
) -> Lost
    ensures { BlockGone heads.now marks.now values.now rows s d.at result }
{
    let own = gone_row(heads, marks, values, s, d);
    let next = next_row(heads, s);
    let n = depth_at(heads, s.row);
    let under = gone_under(heads, marks, values, rows, next, n, d);
    own.plus(under)
}
