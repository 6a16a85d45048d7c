// A document's sheet, of what the tables hold, written into the caller's buffer. Document 01, "The saved sheet".
// The sheet is told once, as one text. The rows are gone over twice, by the same steps: first their sizes are summed, and only if the whole
// fits is a byte written.
#![tactic(auto)]

mod listed;
mod parts;

ghost use Rattle.std.specs.Prelude.{◌≡◌, ◌≤◌, ◌<◌};
ghost use Rattle.tables.specs.Holding.{heads_room};
ghost use Rattle.sheet.specs.Texts.{sheet_text};
ghost use Rattle.sheet.specs.Saving.{Saving};

use lines::{Line, end_line, seen_line};
use listed::{Rows, rows_of};
use meaning::{Counters, Saved, ShortBuffer};
use tables::{Counts, Tables, within};
use writers::{Decimal, Many, Text};

// The first line, what was seen, the rows, the end.
type Sheet<'a> = (
    [u8; 8],
    (Line<5, Counters>, (Many<Rows<'a>>, Line<4, Decimal>)),
);

fn sheet_of<'a>(t: &'a Tables, rows: usize, seen: Counters) -> Sheet<'a>
    requires { rows ≤ heads_room }
    ensures text { ⟦<Sheet<'a> as Text>⟧.text result ≡ sheet_text t.now rows seen.at }
    ensures valid { ⟦<Sheet<'a> as Text>⟧.Valid result }
    ensures most { ⟦<Sheet<'a> as Text>⟧.most result < 18446744073709551616 }
{
    let all = rows_of(t, rows);
    (
        *b"sheet=1\n",
        (seen_line(seen), (all, end_line(rows as u64))),
    )
}

// Saves the tables' document, which is lent in parts, since `Document` stands in a crate that isn't below this one: answers how many
// bytes were written, or, with the buffer as it was, how many are needed. Of counts that have no room in the tables no buffer is long
// enough.
pub fn save(t: &Tables, c: Counts, seen: Counters, buf: &mut [u8]) -> Saved
    ensures { Saving t.now c seen buf.old result buf.new }
{
    if !within(c) {
        return Err(ShortBuffer { needed: usize::MAX });
    }
    let sheet = sheet_of(t, c.rows, seen);
    let needed = sheet.size();
    if buf.len() < needed {
        return Err(ShortBuffer { needed });
    }
    Ok(sheet.put(buf))
}
