// Document 01, "What is answered": a local edit of a terminal in memory. It is judged once, on the document as it stands: 1, 11, 8, 9,
// 10, 13. Then its operation is applied, its message is written at the start of the caller's buffer, and the waiting messages are settled.
// A refusal changes nothing. Each function is safe on any memory.
#![tactic(auto)]

ghost use Rattle.std.specs.Prelude.{◌≤◌, ◌<◌, length};
ghost use Rattle.apply.specs.Applying.{TakesAt};
ghost use Rattle.edit.specs.Promises.{Forms, Finishes, Carries, Editing};

use keeping::{Document, Memory};
use lines::message_head;
use meaning::{Counters, EditError, Edited, Made};
use message::{Act, Edit, Operation};
use readers::{LAST_COUNTER, TERMINALS};
use tables::Position;
use writers::Text;

// The operation of a device's edit that was read: it takes what was seen as its deps, and the counter behind the largest.
fn operation_of(seen: Counters, largest: u64, device: u64, e: Edit) -> Operation
    requires { (largest < 4294967295) × (1 ≤ device) × (device ≤ 8) }
    ensures { Forms seen largest device e result }
{
    let Edit { way, deed } = e;
    let id = (largest + 1) * 8 + (device - 1);
    let act = Act {
        id,
        deps: seen,
        deed,
    };
    Operation { act, way }
}

// Takes an operation that was judged, on a document in memory, from where the search for its first key stops.
fn take_in(d: &mut Document, top: Position, op: Operation)
    ensures { TakesAt d.old top op d.new }
{
    let t = &mut d.tables;
    apply::take_at(
        &mut t.heads,
        &mut t.keys,
        &mut t.marks,
        &mut t.values,
        &mut d.counts,
        &mut d.seen,
        top,
        op,
    );
}

// An edit that may be applied, unless its message is too long for the buffer: it is applied from where the search for its first key
// stopped, its message is written, and the waiting ones are settled. The message is its head and the edit's lines, which are the caller's
// own bytes.
fn finish(m: &mut Memory, top: Position, op: Operation, lines: &[u8], buf: &mut [u8]) -> Edited
    requires { length lines.now ≤ 463 }
    ensures { Finishes m.old buf.old top op lines.now result m.new buf.new }
{
    let message = (message_head(op.act.id, op.act.deps), lines);
    let needed = message.size();
    if buf.len() < needed {
        return Err(EditError::ShortBuffer { needed });
    }
    take_in(&mut m.document, top, op);
    let written = message.put(buf);
    let settled = settling::settle_in(m);
    Ok(Made {
        applied: settled.applied + 1,
        dropped: settled.dropped,
        written,
    })
}

// An edit's operation: 8, 9, 10, 13, else it is applied.
fn carry(m: &mut Memory, op: Operation, lines: &[u8], buf: &mut [u8]) -> Edited
    requires { length lines.now ≤ 463 }
    ensures { Carries m.old buf.old op lines.now result m.new buf.new }
{
    let d = &m.document;
    let t = &d.tables;
    let top = judging::top_of(&t.heads, &t.keys, d.counts.rows, op);
    judging::judge_ready(&t.heads, &t.keys, &t.marks, &t.values, d.counts, top, op)?;
    finish(m, top, op, lines, buf)
}

// A local edit, given as the device's number and a message's lines from `at=` on. Its message fills the start of the buffer, and the rest
// is untouched. Memory that counts more than has room in its tables is answered 10.
pub fn edit(m: &mut Memory, device: u64, lines: &[u8], buf: &mut [u8]) -> Edited
    ensures { Editing m.old buf.old device lines.now result m.new buf.new }
{
    if !keeping::within(m.document.counts, m.count) {
        return Err(EditError::NoRoom);
    }
    if device == 0 || device > TERMINALS {
        return Err(EditError::Layout);
    }
    let e = message::take_edit(lines).ok_or(EditError::Layout)?;
    let seen = m.document.seen;
    let largest = counters::largest(seen);
    if largest >= LAST_COUNTER {
        return Err(EditError::LastCounter);
    }
    let op = operation_of(seen, largest, device, e);
    carry(m, op, lines, buf)
}
