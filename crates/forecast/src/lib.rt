// The judgement of an operation on the tables, before anything is changed: how many marks and values it takes away, how many places,
// marks and values it adds, and whether each element on its way is there. Nothing is written. No function asks anything of its caller:
// if the tables hold rows, the answers are those of the rows. Tables are lent as slices of any length (docs/DECISIONS.md, 40).
#![tactic(auto)]

mod loss;
mod sums;

ghost use Rattle.readers.specs.Hex.{words_in};
ghost use Rattle.forecast.specs.Weighs.{SightGone, PlaceWeighed, WayWeighed, Weighed};

use counters::covered;
use deeds::is_delete;
use finder::look;
use loss::NOTHING;
pub use loss::{depth_at, gone, gone_row, gone_under};
use message::{Act, Deed};
use readers::{CARET, ELEMENT, Key};
use sums::{WEIGHTLESS, carry, element, gives_plain, mark, put};
use tables::{DEEPEST, Position, next_row};

// How many marks and values go.
#[derive(Clone, Copy)]
pub struct Lost {
    pub marks: usize,
    pub values: usize,
}

// What an operation comes to: how many places, marks and values come; how many go.
#[derive(Clone, Copy)]
pub struct Weight {
    pub places: usize,
    pub marks: usize,
    pub values: usize,
    pub gone_marks: usize,
    pub gone_values: usize,
}

// What an operation comes to; or, as an error, the same where an element on its way isn't there or isn't covered.
pub type Forecast = Result<Weight, Weight>;

// What goes at a place that is assigned or deleted: of its own values, if the value is a plain one, else of its block.
fn lost_at(
    heads: &[u64],
    marks: &[u64],
    values: &[u64],
    rows: usize,
    at: Option<Position>,
    o: &Act,
) -> Lost
    ensures { SightGone heads.now marks.now values.now rows at o.now.deed o.now.deps.at result }
{
    let Some(at) = at else {
        return NOTHING;
    };
    if gives_plain(o.deed) {
        let g = gone_row(heads, marks, values, at, o.deps);
        return Lost {
            marks: 0,
            values: g.values,
        };
    }
    gone(heads, marks, values, rows, at, o.deps)
}

// What an assign or a delete comes to at its place.
fn weigh_place(
    heads: &[u64],
    marks: &[u64],
    values: &[u64],
    rows: usize,
    at: Option<Position>,
    o: &Act,
) -> Weight
    ensures { PlaceWeighed heads.now marks.now values.now rows at o.now.deps.at o.now.deed result }
{
    let g = lost_at(heads, marks, values, rows, at, o);
    Weight {
        gone_marks: g.marks,
        gone_values: g.values,
        ..put(o.deed)
    }
}

// The way's last key: what an insert comes after, or the place of an assign or a delete.
fn weigh_last(
    heads: &[u64],
    keys: &[u64],
    marks: &[u64],
    values: &[u64],
    rows: usize,
    from: Option<Position>,
    n: u64,
    o: &Act,
    key: Key,
) -> Forecast
    ensures { WayWeighed heads.now keys.now marks.now values.now
        rows from n o.now.deps.at o.now.deed (words_in key) result }
{
    if let Deed::Insert(_) = o.deed {
        if key.len == CARET {
            return Ok(element(o.deed));
        }
        look(heads, keys, rows, from, n, key).ok_or(WEIGHTLESS)?;
        let u = element(o.deed);
        return covered(&o.deps, key.hi).then_some(u).ok_or(u);
    }
    let at = look(heads, keys, rows, from, n, key);
    let u = weigh_place(heads, marks, values, rows, at, o);
    carry(
        Ok(u),
        at.is_some(),
        key.len == ELEMENT,
        covered(&o.deps, key.hi),
        !is_delete(o.deed),
    )
}

// What a way comes to from a place on: `from` is behind the place's own row, if it is there, and n the depth of its children.
fn weigh_way(
    heads: &[u64],
    keys: &[u64],
    marks: &[u64],
    values: &[u64],
    rows: usize,
    from: Option<Position>,
    n: u64,
    o: &Act,
    way: &[u64],
) -> Forecast
    ensures { WayWeighed heads.now keys.now marks.now values.now
        rows from n o.now.deps.at o.now.deed way.now result }
{
    let [hi, lo, len, rest @ ..] = way else {
        return Ok(WEIGHTLESS);
    };
    if n > DEEPEST {
        return Ok(WEIGHTLESS);
    }
    let key = Key {
        hi: *hi,
        lo: *lo,
        len: *len,
    };
    if rest.is_empty() {
        return weigh_last(heads, keys, marks, values, rows, from, n, o, key);
    }
    let at = look(heads, keys, rows, from, n, key);
    let next = at.map(|at| next_row(heads, at));
    let under = weigh_way(heads, keys, marks, values, rows, next, n + 1, o, rest);
    let u = mark(under, o.deed);
    carry(
        u,
        at.is_some(),
        key.len == ELEMENT,
        covered(&o.deps, key.hi),
        true,
    )
}

// The same from the root on, of an operation that does o; the search for the way's first key stops at `top`.
pub fn weigh(
    heads: &[u64],
    keys: &[u64],
    marks: &[u64],
    values: &[u64],
    rows: usize,
    top: Position,
    o: &Act,
    way: &[u64],
) -> Forecast
    ensures { Weighed heads.now keys.now marks.now values.now
        rows top o.now way.now result }
{
    weigh_way(heads, keys, marks, values, rows, Some(top), 1, o, way)
}
