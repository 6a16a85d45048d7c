// A place line, of a row's words.
ghost use Rattle.std.specs.Prelude.{◌≡◌, ◌<◌};
ghost use Rattle.lines.specs.Spots.{ShortKey};
ghost use Rattle.tables.specs.Holding.{heads_room};
ghost use Rattle.sheet.specs.Texts.{spot_in, place_text};

use lines::{PlaceLine, Spot};
use readers::{Key, LONGEST};
use tables::{Head, Side, key_at};
use writers::Text;

// Where a row hangs, by its side and its key's words.
#[tactic(auto, unfolding(crate::specs::Texts::spot_in))]
fn spot_of(side: Side, key: Key) -> Spot
    ensures { (result ≡ spot_in side key) × ShortKey result }
{
    if side == Side::List {
        return Spot::Element(key.hi);
    }
    if LONGEST < key.len {
        return Spot::Key(Key { len: 0, ..key });
    }
    Spot::Key(key)
}

// The place line of a row, of its head and its key.
#[tactic(auto, unfolding(crate::specs::Texts::place_text))]
pub fn place_of(h: Head, keys: &[u64], row: usize) -> PlaceLine
    requires { row < heads_room }
    ensures { (⟦<PlaceLine as Text>⟧.text result ≡ place_text h keys.now row) × ShortKey result.spot }
{
    PlaceLine {
        depth: h.depth,
        spot: spot_of(h.side, key_at(keys, row)),
        map: h.map,
        list: h.list,
    }
}
