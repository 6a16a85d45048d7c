// Document 01, "What is answered", last paragraph: the waiting messages of a terminal in memory are settled, in rounds. Each function is
// safe on any memory, which is lent in parts, the tables as slices of any length (docs/DECISIONS.md, 40).
#![tactic(auto)]

ghost use Rattle.std.specs.Prelude.{◌≡◌};
ghost use Rattle.settling.specs.Verdicts.{hopeless, deadly};
ghost use Rattle.settling.specs.Settling.{memory, Looks, Sweeps, Rounds, Settles};

use judging::{Judgement, Refusal, is_taken};
use keeping::Memory;
use meaning::Counters;
use tables::Counts;
use waiting::MOST;

// A round of settling: whether an operation was applied, and how many were dropped.
#[derive(Clone, Copy)]
struct Rounded {
    applied: bool,
    dropped: u64,
}

// The waiting messages are settled: how many were applied, and how many dropped.
#[derive(Clone, Copy)]
pub struct Settled {
    pub applied: u64,
    pub dropped: u64,
}

// 3, 4, 8, 9: a waiting message that is refused so is dropped.
fn is_hopeless(r: Refusal) -> bool
    ensures { result ≡ hopeless r }
{
    match r {
        Refusal::Repeat | Refusal::OwnDeps | Refusal::NoElement | Refusal::NotSmaller => true,
        Refusal::Counter | Refusal::NoRoom => false,
    }
}

fn is_dead(j: Judgement) -> bool
    ensures { result ≡ deadly j }
{
    matches!(j, Err(r) if is_hopeless(r))
}

// The verdict on the operation that waits at i, if one is there; n wait.
fn look(
    heads: &[u64],
    keys: &[u64],
    marks: &[u64],
    values: &[u64],
    waiting: &[u64],
    c: Counts,
    seen: Counters,
    n: usize,
    i: usize,
) -> Option<Judgement>
    ensures { Looks (memory heads.now keys.now marks.now values.now c seen waiting.now n) i result }
{
    let op = waiting::op_at(waiting, n, i)?;
    Some(judging::judge(heads, keys, marks, values, c, seen, op))
}

// Drops the dead, and finds the first that can be applied. Of a message that comes too early no more is read than tells it. The index
// stands still where an operation goes out of the table, so the loop is no `for`.
fn sweep(
    heads: &[u64],
    keys: &[u64],
    marks: &[u64],
    values: &[u64],
    waiting: &mut [u64],
    c: Counts,
    seen: Counters,
    count: &mut usize,
) -> Option<usize>
    ensures { Sweeps (memory heads.now keys.now marks.now values.now c seen waiting.old count.old) result
        (memory heads.now keys.now marks.now values.now c seen waiting.new count.new) }
{
    let mut able = None;
    let mut i: usize = 0;
    while i < *count {
        let n = *count;
        if waiting::early(waiting, n, i, &seen) {
            i += 1;
        } else {
            let j = look(heads, keys, marks, values, waiting, c, seen, n, i)?;
            if is_dead(j) {
                *count = waiting::take_out(waiting, n, i)?;
            } else {
                if able.is_none() && is_taken(j) {
                    able = Some(i);
                }
                i += 1;
            }
        }
    }
    able
}

// Drops the dead, and applies the first that can be applied.
fn round(
    heads: &mut [u64],
    keys: &mut [u64],
    marks: &mut [u64],
    values: &mut [u64],
    waiting: &mut [u64],
    c: &mut Counts,
    seen: &mut Counters,
    count: &mut usize,
) -> Rounded
    ensures { Rounds (memory heads.old keys.old marks.old values.old c.old seen.old waiting.old count.old) result
        (memory heads.new keys.new marks.new values.new c.new seen.new waiting.new count.new) }
{
    let before = *count;
    let able = sweep(heads, keys, marks, values, waiting, *c, *seen, count);
    let idle = Rounded {
        applied: false,
        dropped: (before - *count) as u64,
    };
    let Some(i) = able else {
        return idle;
    };
    let Some(op) = waiting::op_at(waiting, *count, i) else {
        return idle;
    };
    let Some(left) = waiting::take_out(waiting, *count, i) else {
        return idle;
    };
    *count = left;
    apply::take(heads, keys, marks, values, c, seen, op);
    Rounded {
        applied: true,
        ..idle
    }
}

// Rounds, until one applies nothing. How many there are is known behind the last, so this is no `for`.
pub fn settle(
    heads: &mut [u64],
    keys: &mut [u64],
    marks: &mut [u64],
    values: &mut [u64],
    waiting: &mut [u64],
    c: &mut Counts,
    seen: &mut Counters,
    count: &mut usize,
) -> Settled
    ensures { Settles (memory heads.old keys.old marks.old values.old c.old seen.old waiting.old count.old) result
        (memory heads.new keys.new marks.new values.new c.new seen.new waiting.new count.new) }
{
    let mut settled = Settled {
        applied: 0,
        dropped: 0,
    };
    if *count > MOST {
        return settled;
    }
    loop {
        let r = round(heads, keys, marks, values, waiting, c, seen, count);
        settled.dropped += r.dropped;
        if !r.applied {
            return settled;
        }
        settled.applied += 1;
    }
}

// The same, of a terminal's memory.
pub fn settle_in(m: &mut Memory) -> Settled
    ensures { Settles m.old result m.new }
{
    let d = &mut m.document;
    let t = &mut d.tables;
    settle(
        &mut t.heads,
        &mut t.keys,
        &mut t.marks,
        &mut t.values,
        &mut m.waiting,
        &mut d.counts,
        &mut d.seen,
        &mut m.count,
    )
}
