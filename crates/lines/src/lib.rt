// The lines of a sheet, what a read writes, and a message's head, each told as one text: of its pieces its size is known before a byte is
// written, and they are written in order.
#![tactic(auto)]

mod place;

ghost use Rattle.std.specs.Prelude.{◌≡◌, [], ◌∷◌, ◌≤◌};
ghost use Rattle.meaning.specs.Sheet.{line_text, seen_line, mark_line, value_line, end_line};
ghost use Rattle.writers.specs.Words.{bytes_of};
ghost use Rattle.lines.specs.Rows.{value_of, key_row, id_row, value_row, message_head};

use meaning::Counters;
pub use place::{PlaceLine, Spot};
use readers::Key;
use writers::{Decimal, Hex, Id, Plain, Text};

// A text with an LF; behind a lead too.
pub type Row<A> = (A, [u8; 1]);

pub type Line<const N: usize, A> = ([u8; N], Row<A>);

// A value as it is read: its id and the plain value.
pub type ValueRow = (Id, Line<1, Plain>);

// A message's lines ahead of `at=`.
pub type MessageHead = ([u8; 8], (Id, Line<6, Counters>));

// A key's bytes.
fn key_bytes(key: Key) -> Hex<2>
    ensures { result ≡ record { words = key.hi ∷ key.lo ∷ []; len = key.len } }
{
    let words = [key.hi, key.lo];
    Hex {
        words,
        len: key.len,
    }
}

// A key as it is read, in hex.
#[tactic(auto, unfolding(crate::specs::Rows::key_row))]
pub fn key_row(key: Key) -> Row<Hex<2>>
    requires { key.len ≤ 16 }
    ensures text { ⟦<Row<Hex<2>> as Text>⟧.text result ≡ key_row (bytes_of (key.hi ∷ key.lo ∷ []) key.len) }
    ensures valid { ⟦<Row<Hex<2>> as Text>⟧.Valid result }
{
    (key_bytes(key), *b"\n")
}

// An element id as it is read.
#[tactic(auto, unfolding(crate::specs::Rows::id_row))]
pub fn id_row(id: u64) -> Row<Id>
    ensures { ⟦<Row<Id> as Text>⟧.text result ≡ id_row id }
{
    (Id(id), *b"\n")
}

#[tactic(auto, unfolding(crate::specs::Rows::value_row))]
pub fn value_row(id: u64, value: Plain) -> ValueRow
    ensures { ⟦<ValueRow as Text>⟧.text result ≡ value_row (value_of id value.kind value.words) }
{
    (Id(id), (*b":", (value, *b"\n")))
}

// The lines of a sheet: what was seen.
#[tactic(auto, unfolding(meaning::specs::Sheet::line_text))]
pub fn seen_line(seen: Counters) -> Line<5, Counters>
    ensures { ⟦<Line<5, Counters> as Text>⟧.text result ≡ line_text (seen_line seen.at) }
{
    (*b"seen=", (seen, *b"\n"))
}

// A mark.
#[tactic(auto, unfolding(meaning::specs::Sheet::line_text))]
pub fn mark_line(id: u64) -> Line<5, Id>
    ensures { ⟦<Line<5, Id> as Text>⟧.text result ≡ line_text (mark_line id) }
{
    (*b"mark=", (Id(id), *b"\n"))
}

// The end, with the number of places.
#[tactic(auto, unfolding(meaning::specs::Sheet::line_text))]
pub fn end_line(places: u64) -> Line<4, Decimal>
    ensures { ⟦<Line<4, Decimal> as Text>⟧.text result ≡ line_text (end_line places) }
{
    (*b"end=", (Decimal(places), *b"\n"))
}

#[tactic(auto, unfolding(crate::specs::Rows::message_head))]
pub fn message_head(id: u64, deps: Counters) -> MessageHead
    ensures { ⟦<MessageHead as Text>⟧.text result ≡ message_head id deps.at }
{
    (*b"op=1\nid=", (Id(id), (*b"\ndeps=", (deps, *b"\n"))))
}
