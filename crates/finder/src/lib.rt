// A place looked for in the document's tables: by its key, the step that judging an operation and following a read's way share; and by a
// read's way from the root. Nothing is written; it is safe on any memory, and if the tables hold rows, the answer is that of the rows.
// The two tables are lent as slices of any length, not as `Tables` (docs/DECISIONS.md, 40).
#![tactic(auto)]

ghost use Rattle.finder.specs.Looks.{Looks};
ghost use Rattle.finder.specs.Follows.{FollowsUnder, Follows};

use readers::Key;
use tables::{DEEPEST, Position, START, find, head_at, is_at, next_row, search_of};

// Why no place stands at a way's end: a place on it is unknown, or one is known but has no marks.
#[derive(Clone, Copy, PartialEq, Eq)]
pub enum Absence {
    Missing,
    WithoutMarks,
}

// Looks for the place under a key among the rows from a place on, of depth n; nothing is there if nothing hangs there.
pub fn look(
    heads: &[u64],
    keys: &[u64],
    rows: usize,
    from: Option<Position>,
    n: u64,
    key: Key,
) -> Option<Position>
    ensures { Looks heads.now keys.now rows from n key result }
{
    let from = from?;
    let w = search_of(n, key);
    let at = find(heads, keys, rows, from, w);
    is_at(heads, keys, rows, at.row, w).then_some(at)
}

// Follows a way from a place on: `from` is behind the place's own row, and n the depth of its children.
fn follow_under(
    heads: &[u64],
    keys: &[u64],
    rows: usize,
    from: Position,
    n: u64,
    words: &[u64],
) -> Result<Position, Absence>
    ensures { FollowsUnder heads.now keys.now rows from n words.now result }
{
    let [hi, lo, len, rest @ ..] = words else {
        return Err(Absence::Missing);
    };
    if n > DEEPEST {
        return Err(Absence::Missing);
    }
    let key = Key {
        hi: *hi,
        lo: *lo,
        len: *len,
    };
    let at = look(heads, keys, rows, Some(from), n, key).ok_or(Absence::Missing)?;
    if head_at(heads, at.row).marks == 0 {
        return Err(Absence::WithoutMarks);
    }
    if rest.is_empty() {
        return Ok(at);
    }
    let next = next_row(heads, at);
    follow_under(heads, keys, rows, next, n + 1, rest)
}

// Document 01, "Reads": follows a way from the root, by its words, three for a key. The first trouble from the root decides, and no row
// behind it is looked at. No words at all are no place's way: nothing is there.
pub fn follow(heads: &[u64], keys: &[u64], rows: usize, words: &[u64]) -> Result<Position, Absence>
    ensures { Follows heads.now keys.now rows words.now result }
{
    follow_under(heads, keys, rows, START, 1, words)
}
