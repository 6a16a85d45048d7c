// A place's line.
ghost use Rattle.std.specs.Prelude.{ℕ, ◌≡◌, [], ◌∷◌, ◌++◌, ◌≤◌, length};
ghost use Rattle.meaning.specs.Ascii.{ascii};
ghost use Rattle.meaning.specs.Text.{decimal};
ghost use Rattle.meaning.specs.Sheet.{flags_text, line_text, place_line};
ghost use Rattle.decimal.specs.Take.{Wrote};
ghost use Rattle.writers.specs.Sized.{Sized};
ghost use Rattle.lines.specs.Spots.{spot_of, ShortKey};

use crate::{Line, key_bytes};
use readers::Key;
use writers::{Decimal, Id, Text};

// Where a place hangs: by a key, or by an element id.
#[derive(Clone, Copy)]
pub enum Spot {
    Key(Key),
    Element(u64),
}

// A place: its depth, where it hangs, and which branches are known of it.
#[derive(Clone, Copy)]
pub struct PlaceLine {
    pub depth: u64,
    pub spot: Spot,
    pub map: bool,
    pub list: bool,
}

// The branches that are known of a place: none, the map, the list, both.
fn flag(map: bool, list: bool) -> u8
    ensures { flags_text map list ≡ result ∷ [] }
{
    match (map, list) {
        (false, false) => b'-',
        (true, false) => b'm',
        (false, true) => b'l',
        (true, true) => b'b',
    }
}

impl PlaceLine {
    // The line, of the parent's branch and what names the place there.
    fn in_parts<A: Text>(self, branch: u8, name: A) -> Line<6, (Decimal, ([u8; 2], A))>
        ensures { (f : ℕ) × (flags_text self.map self.list ≡ f ∷ [])
            × (result ≡ (ascii "place=", ((record { 0 = self.depth }, (branch ∷ f ∷ [], name)), ascii "\n"))) }
    {
        let lead = [branch, flag(self.map, self.list)];
        (*b"place=", ((Decimal(self.depth), (lead, name)), *b"\n"))
    }
}

impl Text for PlaceLine {
    ghost text = { λ p. line_text (place_line p.depth (spot_of p.spot) p.map p.list) };

    ghost most = { λ p. 70 };

    ghost Valid = { λ p. ShortKey p.spot };

    fn size(&self) -> usize {
        match self.spot {
            Spot::Key(key) => self.in_parts(b'{', key_bytes(key)).size(),
            Spot::Element(id) => self.in_parts(b'[', Id(id)).size(),
        }
    }

    fn put(&self, buf: &mut [u8]) -> usize {
        match self.spot {
            Spot::Key(key) => self.in_parts(b'{', key_bytes(key)).put(buf),
            Spot::Element(id) => self.in_parts(b'[', Id(id)).put(buf),
        }
    }
}
