// The document's tables in lent memory, and the single steps over them.
// Rows stand in the sheet's order. `heads` has a word a row: depth, side, flags, and how many marks and values the row has; `keys`
// three words a row; `marks` the ids that mark the rows, row after row; `values` six words a value, row after row.
#![tactic(auto)]

ghost use Rattle.std.specs.Prelude.{◌≡◌, ◌+◌, ◌*◌, ◌-◌, ◌≤◌, ◌<◌, length, get_or};
ghost use Rattle.tables.specs.Seek.{turn, passes_one, goes_over, is_sought, Passes, Searches, holds_if, sought};
ghost use Rattle.tables.specs.Words.{marks_at};
ghost use Rattle.tables.specs.Heads.{head_in, new_head, with_flag, with_mark, with_counts, key_at, value_at};
ghost use Rattle.tables.specs.Holding.{within_tables};
ghost use Rattle.tables.specs.Wants.{search_of};
ghost use Rattle.tables.specs.Stands.{FindsIn, Knows};

use readers::{Key, LONGEST};

// How many words each table has, and how many rows, marks and values have room in them. Contracts don't see these numbers: those of the
// same value stand in specs/Holding.
pub const HEADS: usize = 264;

pub const KEYS: usize = 792;

pub const MARKS: usize = 1032;

pub const VALUES: usize = 1542;

// Rows, marks and values, where the four above are words: a row's head and a mark are a word each.
pub const ROWS_ROOM: usize = 264;

pub const MARKS_ROOM: usize = 1032;

pub const VALUES_ROOM: usize = 257;

// The words of a value.
pub const VALUE_WORDS: usize = 6;

// A search goes over so many rows at most: the numbers of its places have room then.
const SEARCHED: usize = 1024;

// The deepest depth of a place.
pub const DEEPEST: u64 = 8;

// The four tables of a document, in lent memory. Arrays of words and no rows of structs: memory is fixed, a row has as many marks and
// values as it has, and equal documents have equal words (specs/Once).
#[derive(Drop)]
pub struct Tables {
    pub heads: [u64; HEADS],
    pub keys: [u64; KEYS],
    pub marks: [u64; MARKS],
    pub values: [u64; VALUES],
}

// A place in the tables: a row, and how many marks and values the rows before it have.
#[derive(Clone, Copy)]
pub struct Position {
    pub row: usize,
    pub mark: usize,
    pub value: usize,
}

// The place of the first row.
pub const START: Position = Position {
    row: 0,
    mark: 0,
    value: 0,
};

// The branch of its parent that a row hangs in.
#[derive(Clone, Copy, PartialEq, Eq)]
pub enum Side {
    Map,
    List,
}

// What a row's head says: its depth, the parent's branch that it hangs in, its flags, how many marks and values it has.
#[derive(Clone, Copy)]
pub struct Head {
    pub depth: u64,
    pub side: Side,
    pub map: bool,
    pub list: bool,
    pub marks: usize,
    pub values: usize,
}

// A value of a row, as the table holds it: its id, the number of its kind, and four words. A number and no enum: it is the table's word.
#[derive(Clone, Copy)]
pub struct Value {
    pub id: u64,
    pub kind: u64,
    pub words: [u64; 4],
}

// How many rows, marks and values the tables hold.
#[derive(Clone, Copy)]
pub struct Counts {
    pub rows: usize,
    pub marks: usize,
    pub values: usize,
}

// What is looked for: a key, an element, the seat of a new element behind its predecessor or behind the head, or the end of what hangs
// there. An enum and no closure: the clauses (`passes_one`, `is_sought`) name the aims.
#[derive(Clone, Copy)]
pub enum Aim {
    Key,
    Element,
    Seat,
    FirstSeat,
    End,
}

// What is looked for among the rows of a depth, with its key.
#[derive(Clone, Copy)]
pub struct Search {
    pub aim: Aim,
    pub depth: u64,
    pub key: Key,
}

// Whether so many rows, marks and values have room in the tables.
#[tactic(auto, unfolding(crate::specs::Holding::within_tables))]
pub fn within(c: Counts) -> bool
    ensures { result ≡ within_tables c }
{
    c.rows <= ROWS_ROOM && c.marks <= MARKS_ROOM && c.values <= VALUES_ROOM
}

// What a table has at a place, and 0 behind its end.
pub fn word(t: &[u64], i: usize) -> u64
    ensures { result ≡ get_or t.now i 0 }
{
    t.get(i).copied().unwrap_or(0)
}

// What a head's word says.
pub fn head_in(h: u64) -> Head
    ensures { result ≡ head_in h }
{
    let side = if h / 16 % 2 == 0 {
        Side::Map
    } else {
        Side::List
    };
    Head {
        depth: h % 16,
        side,
        map: h / 32 % 2 == 1,
        list: h / 64 % 2 == 1,
        marks: (h / 128 % 2048) as usize,
        values: (h / 262144 % 512) as usize,
    }
}

// What the head of a row says; behind the tables' end that of the word 0.
pub fn head_at(heads: &[u64], row: usize) -> Head
    ensures { result ≡ head_in (get_or heads.now row 0) }
{
    head_in(word(heads, row))
}

// The head's word of a row without flags, marks and values.
pub fn new_head(depth: u64, side: Side) -> u64
    requires { depth < 16 }
    ensures { result ≡ new_head depth side }
{
    match side {
        Side::Map => depth,
        Side::List => depth + 16,
    }
}

// A head's word with the flag of a branch.
pub fn with_flag(h: u64, side: Side) -> u64
    ensures { result ≡ with_flag side h }
{
    match side {
        Side::Map => { if h / 32 % 2 == 1 { h } else { h + 32 } }
        Side::List => { if h / 64 % 2 == 1 { h } else { h + 64 } }
    }
}

// A head's word with a mark more.
pub fn with_mark(h: u64) -> u64
    requires { marks_at h < 2047 }
    ensures { result ≡ with_mark h }
{
    h + 128
}

// A head's word with so many marks and values.
pub fn with_counts(h: u64, marks: usize, values: usize) -> u64
    requires { (marks < 2048) × (values < 512) }
    ensures { result ≡ with_counts h marks values }
{
    h % 128 + 128 * marks as u64 + 262144 * values as u64
}

// The key of a row; behind the tables' end that of three words 0.
pub fn key_at(keys: &[u64], row: usize) -> Key
    requires { row < 1048576 }
    ensures { result ≡ key_at keys.now row }
{
    let at = 3 * row;
    Key {
        hi: word(keys, at),
        lo: word(keys, at + 1),
        len: word(keys, at + 2),
    }
}

// A value of the table; behind the table's end that of six words 0.
pub fn value_at(values: &[u64], i: usize) -> Value
    requires { i < 1048576 }
    ensures { result ≡ value_at values.now i }
{
    let at = VALUE_WORDS * i;
    Value {
        id: word(values, at),
        kind: word(values, at + 1),
        words: [
            word(values, at + 2),
            word(values, at + 3),
            word(values, at + 4),
            word(values, at + 5),
        ],
    }
}

// The place behind a row, by the row's head. Where no row of a table can stand, that place itself.
pub fn next_row(heads: &[u64], s: Position) -> Position
    ensures { Passes heads.now s result }
{
    if s.row > 1024 || s.mark > 2097152 || s.value > 524288 {
        return s;
    }
    let h = head_at(heads, s.row);
    Position {
        row: s.row + 1,
        mark: s.mark + h.marks,
        value: s.value + h.values,
    }
}

// The search for a key or an element among the rows of depth n.
#[tactic(auto, unfolding(crate::specs::Wants::search_of))]
pub fn search_of(n: u64, k: Key) -> Search
    ensures { result ≡ search_of n k }
{
    let aim = if k.len > LONGEST {
        Aim::Element
    } else {
        Aim::Key
    };
    Search {
        aim,
        depth: n,
        key: k,
    }
}

// Of the rows of the depth that is looked at, those that are gone over.
#[tactic(auto, unfolding(crate::specs::Seek::passes_one))]
fn passes_one(w: Search, side: Side, k: Key) -> bool
    ensures { result ≡ passes_one w side k }
{
    match (w.aim, side) {
        (Aim::Key, Side::Map) => w.key > k,
        (Aim::Element, Side::List) => w.key.hi != k.hi,
        (Aim::Seat | Aim::FirstSeat, Side::List) => w.key.hi < k.hi,
        (Aim::Element | Aim::FirstSeat, Side::Map) => true,
        _ => false,
    }
}

#[tactic(auto, unfolding(crate::specs::Seek::goes_over))]
fn goes_over(w: Search, h: Head, k: Key) -> bool
    ensures { result ≡ goes_over w h k }
{
    w.depth < h.depth || h.depth == w.depth && passes_one(w, h.side, k)
}

// Whether a row is the one that is looked for.
#[tactic(auto, unfolding(crate::specs::Seek::is_sought))]
pub fn is_sought(w: Search, h: Head, k: Key) -> bool
    ensures { result ≡ is_sought w h k }
{
    h.depth == w.depth
        && match (w.aim, h.side) {
            (Aim::Key, Side::Map) => w.key == k,
            (Aim::Element, Side::List) => w.key.hi == k.hi,
            _ => false,
        }
}

// Where the search from a place on stops: before the first row that isn't gone over. The loop stays a `while`: its place moves on by what a
// row's head counts, so no range or chain gives its steps.
pub fn seek(heads: &[u64], keys: &[u64], rows: usize, from: Position, w: Search) -> Position
    requires { Searches heads.now keys.now rows from }
    ensures { result ≡ sought w heads.now keys.now rows from }
{
    let mut at = from;
    while at.row < rows {
        let row = at.row;
        let h = head_in(heads[row]);
        let k = Key {
            hi: keys[3 * row],
            lo: keys[3 * row + 1],
            len: keys[3 * row + 2],
        };
        if !goes_over(w, h, k) {
            return at;
        }
        at = Position {
            row: row + 1,
            mark: at.mark + h.marks,
            value: at.value + h.values,
        };
    }
    at
}

// Whether a search may begin there: the rows are in the tables, and the place is one of them or behind the last.
fn may_begin(heads: &[u64], keys: &[u64], rows: usize, from: Position) -> bool
    ensures { holds_if result (Searches heads.now keys.now rows from) }
{
    rows <= SEARCHED
        && rows <= heads.len()
        && 3 * rows <= keys.len()
        && from.row <= rows
        && from.mark <= 2048 * from.row
        && from.value <= 512 * from.row
}

// Where the search from a place on stops, in tables that hold rows; in others anywhere.
pub fn find(heads: &[u64], keys: &[u64], rows: usize, from: Position, w: Search) -> Position
    ensures { FindsIn heads.now keys.now rows from w result }
{
    if may_begin(heads, keys, rows, from) {
        seek(heads, keys, rows, from, w)
    } else {
        from
    }
}

// Whether the row at a place is the one that is looked for.
pub fn is_at(heads: &[u64], keys: &[u64], rows: usize, at: usize, w: Search) -> bool
    ensures { Knows heads.now keys.now rows at w result }
{
    at < rows
        && at < SEARCHED
        && at < heads.len()
        && 3 * at + 2 < keys.len()
        && is_sought(w, head_at(heads, at), key_at(keys, at))
}
