// Messages, the lines of a local edit, and the ways of reads: read. Document 01, "Messages" and "Reads". Each public reader says what the
// bytes mean, or that they are in no such layout.
#![tactic(auto)]

mod lines;
mod ways;

ghost use Rattle.message.specs.Reads.{ReadsHead};
ghost use Rattle.message.specs.Promises.{ReadsMessage};

use lines::edit_at;
pub use lines::take_edit;
use meaning::Counters;
use readers::{Given, take_byte, take_counters, take_id, take_text};
pub use ways::{take_element_way, take_keys_way, take_place_way};

// A way as words, three for a key, and the number of its keys; that of the root has none. An array with a number beside it: memory is
// fixed, and no heap is used.
#[derive(Clone, Copy)]
pub struct Way {
    pub keys: [u64; 24],
    pub n: usize,
}

#[derive(Clone, Copy)]
pub enum Deed {
    Assign(Given),
    Insert(Given),
    Delete,
}

// What is done, and by which operation.
#[derive(Clone, Copy)]
pub struct Act {
    pub id: u64,
    pub deps: Counters,
    pub deed: Deed,
}

// An operation: what is done, and at which way's end.
#[derive(Clone, Copy)]
pub struct Operation {
    pub act: Act,
    pub way: Way,
}

// What the lines of an edit say, from `at=` on.
#[derive(Clone, Copy)]
pub struct Edit {
    pub way: Way,
    pub deed: Deed,
}

// A message's lines ahead of `at=`: its id, and what it depends on.
#[tactic(auto, using(crate::proofs::Messages::no_id, crate::proofs::Messages::no_counters))]
fn take_head(s: &[u8]) -> Option<(u64, Counters, usize)>
    ensures { ReadsHead s.now result }
{
    let n = take_text(s, 0, b"op=1\nid=")?;
    let (id, m) = take_id(s, n)?;
    let o = take_text(s, m, b"\ndeps=")?;
    let (deps, e) = take_counters(s, o)?;
    let next = take_byte(s, e, b'\n')?;
    Some((id, deps, next))
}

// A message: the operation that it says.
pub fn take_message(s: &[u8]) -> Option<Operation>
    ensures { ReadsMessage s.now result }
{
    let (id, deps, n) = take_head(s)?;
    let Edit { way, deed } = edit_at(s, n)?;
    let act = Act { id, deps, deed };
    Some(Operation { act, way })
}
