// The elements of a place, counted from 1.
ghost use Rattle.std.specs.Prelude.{◌≡◌, ◌≤◌, ◌<◌, length};
ghost use Rattle.tables.specs.Holding.{heads_room};
ghost use Rattle.listings.specs.Texts.{is_listed, IsNth};

use tables::{Head, Side, head_in};

// Whether a row hangs right under a place of this depth, in the branch of this side, and has a mark.
#[tactic(auto, unfolding(crate::specs::Texts::is_listed))]
pub fn is_listed(h: Head, depth: u64, side: Side) -> bool
    ensures { result ≡ is_listed depth side h }
{
    h.depth > depth && h.depth - depth == 1 && h.side == side && 0 < h.marks
}

// The row of the element of this index among the rows from one on.
pub fn nth_row(heads: &[u64], rows: usize, from: usize, depth: u64, index: u64) -> Option<usize>
    requires { (from ≤ rows) × (rows ≤ heads_room) × (rows ≤ length heads.now) × (0 < index) }
    ensures { IsNth heads.now rows from depth index result }
{
    let mut n = index;
    // By number, since the row's number is the answer: over the slice `heads[from..rows]` it would be counted anew, and `from` added to it.
    for i in from..rows {
        let h = head_in(heads[i]);
        if h.depth <= depth {
            return None;
        }
        if is_listed(h, depth, Side::List) {
            n -= 1;
            if n == 0 {
                return Some(i);
            }
        }
    }
    None
}
