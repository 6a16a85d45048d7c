// The lines of marks and of rows, one after another.
ghost use Rattle.std.specs.Prelude.{ℕ, suc, List, ◌≡◌, ◌+◌, ◌*◌, ◌≤◌, ◌<◌, get_or};
ghost use Rattle.std.proofs.Common.{arith};
ghost use Rattle.tables.specs.Seek.{further};
ghost use Rattle.tables.specs.Standing.{first};
ghost use Rattle.tables.specs.Holding.{heads_room};
ghost use Rattle.sheet.specs.Texts.{mark_text, marks_text, row_text, rows_text, Near, near-on};

use crate::parts::place_of;
use lines::{Line, PlaceLine, mark_line};
use listings::{Values, values_of};
use tables::{Position, START, Tables, head_at, next_row, word};
use writers::{Id, Many, Pieces, Text};

// Marks, from one on.
#[derive(Clone, Copy)]
pub struct Marks<'a> {
    pub marks: &'a [u64],
    pub at: usize,
}

impl<'a> Pieces for Marks<'a> {
    type Piece = Line<5, Id>;

    ghost text = { λ m. mark_text m.marks.now m.at };

    ghost next = { λ m. record { marks = m.marks; at = m.at + 1 } };

    ghost each = { 47 };

    ghost Has = { λ m n. m.at + n < 1000000 };

    ghost Here = { λ m. m.at < 999999 };

    fn piece(&self) -> Line<5, Id> {
        mark_line(word(self.marks, self.at))
    }

    fn next(self) -> Marks<'a> {
        Marks {
            at: self.at + 1,
            ..self
        }
    }

    ghost onward = { λ p n h. (omega arith, omega arith) };
}

// The lines of n marks, from one on.
fn marks_of<'a>(marks: &'a [u64], from: usize, n: usize) -> Many<Marks<'a>>
    requires { from + n < 1000000 }
    ensures text { ⟦<Many<Marks<'a>> as Text>⟧.text result ≡ marks_text marks.now from n }
    ensures valid { ⟦<Many<Marks<'a>> as Text>⟧.Valid result }
    ensures most { ⟦<Many<Marks<'a>> as Text>⟧.most result ≡ 47 * n }
{
    let first = Marks { marks, at: from };
    Many { first, count: n }
}

// Rows, from one on.
#[derive(Clone, Copy)]
pub struct Rows<'a> {
    pub tables: &'a Tables,
    pub at: Position,
}

impl<'a> Pieces for Rows<'a> {
    // Its place, its marks, its values.
    type Piece = (PlaceLine, (Many<Marks<'a>>, Many<Values<'a, 6>>));

    ghost text = { λ r. row_text r.tables.now r.at };

    ghost next = { λ r. record { tables = r.tables; at = further r.at (get_or r.tables.now.heads r.at.row 0) } };

    ghost each = { 154533 };

    ghost Has = { λ r n. Near r.at n };

    ghost Here = { λ r. Near r.at 1 };

    fn piece(&self) -> (PlaceLine, (Many<Marks<'a>>, Many<Values<'a, 6>>)) {
        let t = self.tables;
        let s = self.at;
        let h = head_at(&t.heads, s.row);
        let marks = marks_of(&t.marks, s.mark, h.marks);
        let values = values_of(*b"value=", &t.values, s.value, h.values);
        (place_of(h, &t.keys, s.row), (marks, values))
    }

    fn next(self) -> Rows<'a> {
        let at = next_row(&self.tables.heads, self.at);
        Rows { at, ..self }
    }

    ghost onward = { λ p n h. near-on p.at n (get_or p.tables.now.heads p.at.row 0) h };
}

// The lines of all rows.
pub fn rows_of<'a>(t: &'a Tables, rows: usize) -> Many<Rows<'a>>
    requires { rows ≤ heads_room }
    ensures text { ⟦<Many<Rows<'a>> as Text>⟧.text result ≡ rows_text t.now first rows }
    ensures valid { ⟦<Many<Rows<'a>> as Text>⟧.Valid result }
    ensures most { ⟦<Many<Rows<'a>> as Text>⟧.most result ≡ 154533 * rows }
{
    let first = Rows {
        tables: t,
        at: START,
    };
    Many { first, count: rows }
}
