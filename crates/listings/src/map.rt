// The keys of a place, of the rows of its map.
ghost use Rattle.std.specs.Prelude.{ℕ, suc, List, ◌≡◌, ◌+◌, ◌*◌, ◌≤◌, ◌<◌, length};
ghost use Rattle.std.proofs.Common.{arith};
ghost use Rattle.tables.specs.Holding.{heads_room};
ghost use Rattle.listings.specs.Texts.{of_map, short_of, key_of, key_text, keys_from, Extends};

use crate::Extent;
use crate::list::is_listed;
use lines::{Row, key_row};
use readers::{Key, LONGEST};
use tables::{Head, Side, head_at, key_at};
use writers::{Hex, Many, Pieces, Text};

// Whether a row is one of the map of a place of this depth: it hangs right under it by a key, or deeper.
#[tactic(auto, unfolding(crate::specs::Texts::of_map))]
fn of_map(h: Head, depth: u64) -> bool
    ensures { result ≡ of_map depth h }
{
    match h.depth.checked_sub(depth) {
        None | Some(0) => false,
        Some(1) => h.side == Side::Map,
        Some(_) => true,
    }
}

// The length of a key: one that is too long counts as the empty key.
#[tactic(auto, unfolding(crate::specs::Texts::short_of))]
fn short_of(len: u64) -> u64
    ensures { (result ≡ short_of len) × (result ≤ 16) }
{
    if len > LONGEST { 0 } else { len }
}

// What is read of a row with this head: its key, or nothing.
fn key_of(h: Head, keys: &[u64], depth: u64, row: usize) -> Option<Row<Hex<2>>>
    requires { row < heads_room }
    ensures text { ⟦<Option<Row<Hex<2>>> as Text>⟧.text result ≡ key_of h keys.now depth row }
    ensures valid { ⟦<Option<Row<Hex<2>>> as Text>⟧.Valid result }
    ensures most { ⟦<Option<Row<Hex<2>>> as Text>⟧.most result ≤ 33 }
{
    if !is_listed(h, depth, Side::Map) {
        return None;
    }
    let k = key_at(keys, row);
    Some(key_row(Key {
        len: short_of(k.len),
        ..k
    }))
}

// How many rows the map has, from one on, and how many bytes their keys take. By number, since a row is told by two tables.
pub fn extent(heads: &[u64], keys: &[u64], rows: usize, from: usize, depth: u64) -> Extent
    requires { (from ≤ rows) × (rows ≤ heads_room) }
    ensures { Extends heads.now keys.now rows from depth result }
{
    let mut size: usize = 0;
    for i in from..rows {
        let h = head_at(heads, i);
        if !of_map(h, depth) {
            return Extent {
                rows: i - from,
                size,
            };
        }
        size += key_of(h, keys, depth, i).size();
    }
    Extent {
        rows: rows - from,
        size,
    }
}

// Keys, of the rows from one on.
#[derive(Clone, Copy)]
pub struct Keys<'a> {
    pub heads: &'a [u64],
    pub keys: &'a [u64],
    pub depth: u64,
    pub at: usize,
}

impl<'a> Pieces for Keys<'a> {
    type Piece = Option<Row<Hex<2>>>;

    ghost text = { λ k. key_text k.heads.now k.keys.now k.depth k.at };

    ghost next = { λ k. record { heads = k.heads; keys = k.keys; depth = k.depth; at = k.at + 1 } };

    ghost each = { 33 };

    ghost Has = { λ k n. k.at + n ≤ heads_room };

    ghost Here = { λ k. k.at < heads_room };

    fn piece(&self) -> Option<Row<Hex<2>>> {
        key_of(head_at(self.heads, self.at), self.keys, self.depth, self.at)
    }

    fn next(self) -> Keys<'a> {
        Keys {
            at: self.at + 1,
            ..self
        }
    }

    ghost onward = { λ p n h. (omega arith, omega arith) };
}

// The keys of n rows, from one on.
pub fn keys_of<'a>(
    heads: &'a [u64],
    keys: &'a [u64],
    depth: u64,
    from: usize,
    n: usize,
) -> Many<Keys<'a>>
    requires { from + n ≤ heads_room }
    ensures text { ⟦<Many<Keys<'a>> as Text>⟧.text result ≡ keys_from heads.now keys.now depth from n }
    ensures valid { ⟦<Many<Keys<'a>> as Text>⟧.Valid result }
{
    let first = Keys {
        heads,
        keys,
        depth,
        at: from,
    };
    Many { first, count: n }
}
