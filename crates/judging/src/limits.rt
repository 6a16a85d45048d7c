// 9 and 10, of numbers: an element's predecessor, and the room that is left.
ghost use Rattle.std.specs.Prelude.{◌≡◌};
ghost use Rattle.tables.specs.Seek.{holds_if};
ghost use Rattle.judging.specs.Judging.{Small, has_room, goes_down};

use forecast::Weight;
use message::Deed;
use readers::ELEMENT;
use tables::{Counts, MARKS_ROOM, VALUES_ROOM, within};

// Document 01, answer 10: a document has at most so many places, marks and values.
const PLACES: usize = 256;

const MARKS: usize = 1024;

const VALUES: usize = 256;

// A way of eight keys has so many words, and no operation adds more places or marks.
const WAY_WORDS: usize = 24;

// Whether the numbers are such as memory that holds a document comes to.
#[tactic(auto, unfolding(tables::specs::Holding::within_tables))]
pub fn is_small(c: Counts, w: Weight) -> bool
    ensures { holds_if result (Small c w) }
{
    within(c)
        && w.places <= WAY_WORDS
        && w.marks <= WAY_WORDS
        && w.values <= 1
        && w.gone_marks <= MARKS_ROOM + WAY_WORDS
        && w.gone_values <= VALUES_ROOM + 1
}

// 10: whether what comes has room, where what goes leaves its own.
#[tactic(auto, unfolding(crate::specs::Judging::has_room))]
pub fn has_room(c: Counts, w: Weight) -> bool
    requires { Small c w }
    ensures { result ≡ has_room c w }
{
    c.rows + w.places <= PLACES
        && c.marks + w.marks <= MARKS + w.gone_marks
        && c.values + w.values <= VALUES + w.gone_values
}

// 9: whether a new element comes after one whose id isn't smaller; the words are those of the way's last key.
#[tactic(auto, unfolding(crate::specs::Judging::goes_down))]
pub fn goes_down(deed: Deed, id: u64, hi: u64, len: u64) -> bool
    ensures { result ≡ goes_down deed id hi len }
{
    len == ELEMENT && hi >= id && deeds::is_insert(deed)
}
