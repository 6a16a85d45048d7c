// A terminal in memory: the tables hold its document, one more table its waiting operations, and beside them stands how much of each is
// live. Which memory keeps which terminal is in specs/.
#![tactic(auto)]

ghost use Rattle.std.specs.Prelude.{◌≡◌};
ghost use Rattle.keeping.specs.Keeping.{within_counts};

use meaning::Counters;
use tables::{Counts, Tables};
use waiting::{MOST, WAITING};

// A document in memory: its tables, how many rows, marks and values of them are live, and what was seen.
#[derive(Drop)]
pub struct Document {
    pub tables: Tables,
    pub counts: Counts,
    pub seen: Counters,
}

// A terminal in memory: its document, the table of the waiting operations, and how many they are (fixed memory, no heap).
#[derive(Drop)]
pub struct Memory {
    pub document: Document,
    pub waiting: [u64; WAITING],
    pub count: usize,
}

// Whether so many rows, marks and values, and so many waiting operations, have room in a terminal's memory.
#[tactic(auto, unfolding(crate::specs::Keeping::within_counts))]
pub fn within(c: Counts, count: usize) -> bool
    ensures { result ≡ within_counts c count }
{
    count <= MOST && tables::within(c)
}
