// What is read of a place that stands in the tables: its keys, its values, the n-th of its elements. Document 01, "Reads". Each looks at no
// more rows than it must. The size of what is read is known before a byte is written (13), and each writer is lent the rest of the buffer
// from the bytes already written onward. Whatever the tables hold, each stays in bounds and terminates, and a refusal leaves the buffer as
// it was. Each is lent the tables that it looks at, as slices of any length (docs/DECISIONS.md, 40).
#![tactic(auto)]

mod list;
mod map;
mod plain;

ghost use Rattle.std.specs.Prelude.{◌≡◌, ◌<◌};
ghost use Rattle.meaning.specs.Read.{listed};
ghost use Rattle.listings.specs.Lists.{Answers, ListsKeys, ListsValues, ListsElement};

use lines::id_row;
use list::nth_row;
use map::{extent, keys_of};
use meaning::{ReadError, Reading};
pub use plain::{LentValues, Values, values_behind, values_of};
use tables::{Position, ROWS_ROOM, VALUES_ROOM, head_at, key_at};
use writers::Text;

// The rows of a place's map, and how many bytes its keys take.
#[derive(Clone, Copy)]
pub struct Extent {
    pub rows: usize,
    pub size: usize,
}

// The keys of a place of this depth, whose own row stands right before `from`; of the root that is depth 0 from row 0 on. One pass over the
// rows of its map finds their size and where they end, a second writes them. Of counts that have no room in the tables nothing is there.
pub fn keys(
    buf: &mut [u8],
    heads: &[u64],
    keys: &[u64],
    rows: usize,
    from: usize,
    depth: u64,
) -> Reading
    ensures { ListsKeys heads.now keys.now rows from depth buf.old result buf.new }
{
    if rows > ROWS_ROOM || from > rows {
        return Err(ReadError::NotThere);
    }
    let e = extent(heads, keys, rows, from, depth);
    let needed = e.size;
    if buf.len() < needed {
        return Err(ReadError::ShortBuffer { needed });
    }
    Ok(keys_of(heads, keys, depth, from, e.rows).put(buf))
}

// A text that is read.
fn give<T: Text>(buf: &mut [u8], x: &T) -> Reading
    requires { T.Valid x.now × (T.most x.now < 18446744073709551616) }
    ensures { Answers (listed (T.text x.now)) buf.old result buf.new }
{
    let needed = x.size();
    if buf.len() < needed {
        return Err(ReadError::ShortBuffer { needed });
    }
    Ok(x.put(buf))
}

// The values of the place whose own row stands at `at`, as many as its head says.
pub fn values(buf: &mut [u8], heads: &[u64], values: &[u64], at: Position) -> Reading
    ensures { ListsValues heads.now values.now at buf.old result buf.new }
{
    if at.value > VALUES_ROOM {
        return Err(ReadError::NotThere);
    }
    let h = head_at(heads, at.row);
    give(buf, &values_of(*b"", values, at.value, h.values))
}

// The element of this index, from 1, among the present elements of a place of this depth, whose own row stands right before `from`. The
// rows are looked at up to that element, or to the first row that isn't under the place.
pub fn element(
    buf: &mut [u8],
    heads: &[u64],
    keys: &[u64],
    rows: usize,
    from: usize,
    depth: u64,
    index: u64,
) -> Reading
    ensures { ListsElement heads.now keys.now rows from depth index buf.old result
        buf.new }
{
    if rows > ROWS_ROOM || rows > heads.len() || from > rows || index == 0 {
        return Err(ReadError::NotThere);
    }
    let row = nth_row(heads, rows, from, depth, index).ok_or(ReadError::NotThere)?;
    give(buf, &id_row(key_at(keys, row).hi))
}
