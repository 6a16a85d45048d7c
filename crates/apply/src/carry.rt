// An operation that is taken, carried out along its way.
ghost use Rattle.tables.specs.Holding.{four};
ghost use Rattle.apply.specs.Applying.{CarriesOut};

use message::Operation;
use tables::{Counts, Position};

// Carries an operation out, from where the search for its first key stops, and answers the counts that it leaves.
pub(crate) fn carry_out(
    heads: &mut [u64],
    keys: &mut [u64],
    marks: &mut [u64],
    values: &mut [u64],
    c: Counts,
    top: Position,
    op: Operation,
) -> Counts
    ensures { CarriesOut (four heads.old keys.old marks.old values.old) c top op result
        (four heads.new keys.new marks.new values.new) }
{
    let n = op.way.n;
    if n > 8 {
        return c;
    }
    let words = op.way.keys;
    let e = descend::descend(
        heads,
        keys,
        marks,
        values,
        c,
        top,
        1,
        op.act,
        &words[..3 * n],
    );
    e.counts
}
