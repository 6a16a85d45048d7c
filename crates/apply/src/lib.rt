// Document 01, "Applying an operation" and "What is answered": an operation judged on the document as it stands, before anything is
// changed, and then carried out. The tables are lent as slices of any length, with the counts and what was seen (docs/DECISIONS.md, 40).
#![tactic(auto)]

mod carry;

ghost use Rattle.apply.specs.Applying.{held, TakesAt, TakesOn, Applies};

use carry::carry_out;
use judging::{Judgement, Readiness, judge_counters, judge_ready, top_of};
use meaning::Counters;
use message::Operation;
use tables::{Counts, Position};

// Takes an operation that was judged so, from where the search for its first key stops: carries it out, and raises seen.
pub fn take_at(
    heads: &mut [u64],
    keys: &mut [u64],
    marks: &mut [u64],
    values: &mut [u64],
    c: &mut Counts,
    seen: &mut Counters,
    top: Position,
    op: Operation,
)
    ensures { TakesAt (held heads.old keys.old marks.old values.old c.old seen.old) top op
        (held heads.new keys.new marks.new values.new c.new seen.new) }
{
    *c = carry_out(heads, keys, marks, values, *c, top, op);
    *seen = counters::raise(*seen, op.act.id);
}

// The same, where the first key is still to be looked for.
pub fn take(
    heads: &mut [u64],
    keys: &mut [u64],
    marks: &mut [u64],
    values: &mut [u64],
    c: &mut Counts,
    seen: &mut Counters,
    op: Operation,
)
    ensures { TakesOn (held heads.old keys.old marks.old values.old c.old seen.old) op
        (held heads.new keys.new marks.new values.new c.new seen.new) }
{
    let top = top_of(heads, keys, c.rows, op);
    take_at(heads, keys, marks, values, c, seen, top, op);
}

// Judges an operation, and takes it if it may be. A refusal changes nothing.
pub fn apply(
    heads: &mut [u64],
    keys: &mut [u64],
    marks: &mut [u64],
    values: &mut [u64],
    c: &mut Counts,
    seen: &mut Counters,
    op: Operation,
) -> Judgement
    ensures { Applies (held heads.old keys.old marks.old values.old c.old seen.old) op result
        (held heads.new keys.new marks.new values.new c.new seen.new) }
{
    let readiness = judge_counters(*seen, op)?;
    match readiness {
        Readiness::Ready => {
            let top = top_of(heads, keys, c.rows, op);
            judge_ready(heads, keys, marks, values, *c, top, op)?;
            take_at(heads, keys, marks, values, c, seen, top, op);
            Ok(Readiness::Ready)
        }
        Readiness::Early => Ok(Readiness::Early),
    }
}
