// Moves inside a lent table, each one pass over the words that it moves. A table is a run of live words, then zeros; marks are rows of one
// word, values rows of six, and of each row the first word is the id. What a function leaves is said by specs/Words and specs/Rows: words
// laid over the table from a place on, every other word as it was. The functions ask of their callers only that the words named are in the
// table, and that a row has a word.
#![tactic(auto)]

ghost use Rattle.std.specs.Prelude.{◌+◌, ◌*◌, ◌≤◌, ◌<◌, ◌≡◌, length, drop, replicate};
ghost use Rattle.meaning.specs.Ids.{uncovered};
ghost use Rattle.words.specs.Words.{over_at, opened, closed};
ghost use Rattle.words.specs.Rows.{keep_rows, rank_rows, Kept, Ranked};

use counters::covered;
use meaning::Counters;

// Moves the words from `at` up to `live` up by n places.
pub fn open(t: &mut [u64], live: usize, at: usize, n: usize)
    requires { (at ≤ live) × (live + n ≤ length t.old) }
    ensures { t.new ≡ opened live at n t.old }
{
    t.copy_within(at..live, at + n);
}

// Sets the n words from `from` on to 0.
pub fn blank(t: &mut [u64], from: usize, n: usize)
    requires { from + n ≤ length t.old }
    ensures { t.new ≡ over_at from (replicate n 0) t.old }
{
    t[from..from + n].fill(0);
}

// Moves the words from `from` up to `live` down to `to`, and sets the words that this frees to 0. If none is freed, nothing is moved.
pub fn close(t: &mut [u64], live: usize, from: usize, to: usize)
    requires { (to ≤ from) × (from ≤ live) × (live ≤ length t.old) }
    ensures { t.new ≡ closed 0 live from to t.old }
{
    if to < from {
        t.copy_within(from..live, to);
        blank(t, to + (live - from), from - to);
    }
}

// Writes the rows that d doesn't cover, of the n rows of W words from `from` on, at `to`, one behind another, and answers the place behind
// the last. A row is copied by a loop: by `copy_within` a pass over marks takes 1.7 times as long.
pub fn keep_rows<const W: usize>(
    t: &mut [u64],
    from: usize,
    n: usize,
    to: usize,
    d: Counters,
) -> usize
    requires { (0 < W) × (to ≤ from) × (from + n * W ≤ length t.old) }
    ensures { Kept to (n * W) (keep_rows W (uncovered d.at) n (drop from t.old)) t.old result t.new }
{
    let mut w = to;
    for i in 0..n {
        let at = from + i * W;
        if !covered(&d, t[at]) {
            for k in 0..W {
                t[w + k] = t[at + k];
            }
            w += W;
        }
    }
    w
}

// How many of the n rows of W words from `from` on d covers: the others are those that `keep_rows` keeps. No chain over `as_chunks::<W>()`:
// that asks of W that an array of W words fits in memory, and the closure in a generic function asks for clauses of its own.
pub fn covered_rows<const W: usize>(t: &[u64], from: usize, n: usize, d: Counters) -> usize
    requires { (0 < W) × (from + n * W ≤ length t.now) }
    ensures { result * W + length (keep_rows W (uncovered d.at) n (drop from t.now)) ≡ n * W }
{
    let mut r = 0;
    for i in 0..n {
        if covered(&d, t[from + i * W]) {
            r += 1;
        }
    }
    r
}

// How many of the n rows of w words from `from` on have a smaller id, up to the first that hasn't. No chain, as above; w may be known only
// when it runs.
pub fn rank_rows(t: &[u64], from: usize, n: usize, w: usize, id: u64) -> usize
    requires { (0 < w) × (from + n * w ≤ length t.now) }
    ensures { Ranked n (rank_rows w id n (drop from t.now)) result }
{
    for i in 0..n {
        if t[from + i * w] >= id {
            return i;
        }
    }
    n
}

// Writes words from `at` on.
pub fn lay(t: &mut [u64], at: usize, w: &[u64])
    requires { at + length w.now ≤ length t.old }
    ensures { t.new ≡ over_at at w.now t.old }
{
    t[at..at + w.len()].copy_from_slice(w);
}
