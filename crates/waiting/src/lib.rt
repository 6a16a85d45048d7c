// The waiting operations in lent memory: a table of 2560 words, forty for an operation, in ascending order of their ids, then zeros. Each
// function is safe on any memory: a place, a count or a table that doesn't fit is found before a word is read or written. What they
// promise of a table that holds operations says specs/Waits. Table and count are lent one by one: `Memory`, which has both, stands above.
#![tactic(auto)]

mod row;

ghost use Rattle.waiting.specs.Waits.{TellsEarly, Tells, TellsWaits, Puts, TakesOut};

use counters::at_most;
use meaning::Counters;
use message::Operation;
use row::{counters_at, read_row, write_row};
use words::{close, open, rank_rows};

// How many words the table has, how many an operation takes, and how many operations wait at most. Contracts don't see these numbers: those
// of the same value stand in specs/Waits and specs/Rows.
pub const WAITING: usize = 2560;

pub const ROW: usize = 40;

pub const MOST: usize = 64;

// Whether the operation at i comes too early where this is what is seen: it isn't ready, and not dead by the entry of its own
// terminal. That entry alone tells it of most.
pub fn early(t: &[u64], n: usize, i: usize, seen: &Counters) -> bool
    ensures { TellsEarly t.now n i seen.now.at result }
{
    if t.len() < WAITING || n > MOST || i >= n {
        return false;
    }
    let own = (t[ROW * i] % 8) as usize;
    let last = u64::from(seen.at[own]);
    let entry = t[ROW * i + 1 + own];
    if entry < last {
        return false;
    }
    if last < entry {
        return true;
    }
    let deps = counters_at(t, ROW * i + 1);
    let ready = at_most(deps, *seen);
    !ready
}

// The operation at i, if one is there.
pub fn op_at(t: &[u64], n: usize, i: usize) -> Option<Operation>
    ensures { Tells t.now n i result }
{
    if t.len() < WAITING || n > MOST || i >= n {
        return None;
    }
    Some(read_row(t, ROW * i))
}

// Whether an operation with this id waits.
pub fn waits(t: &[u64], n: usize, id: u64) -> bool
    ensures { TellsWaits t.now n id result }
{
    if t.len() < WAITING || n > MOST {
        return false;
    }
    let k = rank_rows(t, 0, n, ROW, id);
    k < n && id == t[ROW * k]
}

// Puts an operation among those that wait, none of which has its id, and answers how many they are; or nothing is done.
pub fn put(t: &mut [u64], n: usize, op: Operation) -> Option<usize>
    ensures { Puts op t.old n t.new result }
{
    if t.len() < WAITING || n >= MOST {
        return None;
    }
    let at = ROW * rank_rows(t, 0, n, ROW, op.act.id);
    open(t, ROW * n, at, ROW);
    write_row(t, at, op);
    Some(n + 1)
}

// Takes out the operation at i, and answers how many are left; or nothing is done.
pub fn take_out(t: &mut [u64], n: usize, i: usize) -> Option<usize>
    ensures { TakesOut t.old n i t.new result }
{
    if t.len() < WAITING || n > MOST || i >= n {
        return None;
    }
    close(t, ROW * n, ROW * i + ROW, ROW * i);
    Some(n - 1)
}
