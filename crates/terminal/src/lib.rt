// Document 01, "What is answered": a terminal in memory receives messages in any order. A message that comes too early waits; after one
// that is applied the waiting ones are settled. Each function is safe on any memory.
#![tactic(auto)]

ghost use Rattle.std.specs.Prelude.{◌≡◌};
ghost use Rattle.apply.specs.Applying.{Applies};
ghost use Rattle.terminal.specs.Promises.{Empties, Awaits, Receiving};

use judging::{Judgement, Readiness};
use keeping::{Document, Memory};
use meaning::{Counters, Receipt, ReceiveError, Received};
use message::Operation;
use settling::settle_in;
use tables::{Counts, HEADS, KEYS, MARKS, Tables, VALUES};
use waiting::WAITING;

// The memory of a new terminal: every word is 0, and none is live.
#[tactic(auto, using(crate::proofs::Empty::new_empties))]
pub fn new() -> Memory
    ensures { Empties result }
{
    Memory {
        document: Document {
            tables: Tables {
                heads: [0u64; HEADS],
                keys: [0u64; KEYS],
                marks: [0u64; MARKS],
                values: [0u64; VALUES],
            },
            counts: Counts {
                rows: 0,
                marks: 0,
                values: 0,
            },
            seen: Counters { at: [0u32; 8] },
        },
        waiting: [0u64; WAITING],
        count: 0,
    }
}

// The same, in memory that is there: no word of it stays.
#[tactic(auto, using(crate::proofs::Empty::new_empties))]
pub fn reset(m: &mut Memory)
    ensures { Empties m.new }
{
    let d = &mut m.document;
    d.tables.heads.fill(0);
    d.tables.keys.fill(0);
    d.tables.marks.fill(0);
    d.tables.values.fill(0);
    d.counts = Counts {
        rows: 0,
        marks: 0,
        values: 0,
    };
    d.seen = Counters { at: [0u32; 8] };
    m.waiting.fill(0);
    m.count = 0;
}

// An operation that comes too early: 6, 7, else it waits.
#[tactic(auto, using(crate::proofs::Receiving::awaits_again))]
fn wait(m: &mut Memory, op: Operation) -> Receipt
    ensures { Awaits m.old op result m.new }
{
    if waiting::waits(&m.waiting, m.count, op.act.id) {
        return Err(ReceiveError::WaitsAlready);
    }
    m.count = waiting::put(&mut m.waiting, m.count, op).ok_or(ReceiveError::WaitingFull)?;
    Ok(Received::Waiting)
}

// Judges an operation on a document in memory, and takes it if it may be.
fn apply_in(d: &mut Document, op: Operation) -> Judgement
    ensures { Applies d.old op result d.new }
{
    let t = &mut d.tables;
    apply::apply(
        &mut t.heads,
        &mut t.keys,
        &mut t.marks,
        &mut t.values,
        &mut d.counts,
        &mut d.seen,
        op,
    )
}

// Receives a message: it is applied and the waiting ones are settled; or it waits; or it is refused, and not one word has changed. Memory
// that counts more than has room in its tables is answered 10.
#[tactic(auto, using(crate::proofs::Receiving::receives_beyond))]
pub fn receive(m: &mut Memory, bytes: &[u8]) -> Receipt
    ensures { Receiving m.old bytes.now result m.new }
{
    if !keeping::within(m.document.counts, m.count) {
        return Err(ReceiveError::NoRoom);
    }
    let op = message::take_message(bytes).ok_or(ReceiveError::Layout)?;
    let readiness = apply_in(&mut m.document, op)?;
    match readiness {
        Readiness::Ready => {
            let settled = settle_in(m);
            Ok(Received::Applied {
                applied: settled.applied + 1,
                dropped: settled.dropped,
            })
        }
        Readiness::Early => wait(m, op),
    }
}
