// The values of a place, as the table holds them, each behind the same lead. In a read there is none, in a sheet `value=`.
ghost use Rattle.std.specs.Prelude.{ℕ, suc, List, [], ◌≡◌, ◌+◌, ◌*◌, ◌≤◌, ◌<◌, length};
ghost use Rattle.std.proofs.Common.{arith};
ghost use Rattle.listings.specs.Texts.{value_text, values_from};

use lines::{ValueRow, value_row};
use tables::value_at;
use writers::{Many, Pieces, Plain, Text};

// A value as it is read.
fn row_at(values: &[u64], i: usize) -> ValueRow
    requires { i < 1048575 }
    ensures { ⟦<ValueRow as Text>⟧.text result ≡ value_text [] values.now i }
{
    let v = value_at(values, i);
    let words = v.words;
    let plain = Plain {
        kind: v.kind,
        words,
    };
    value_row(v.id, plain)
}

// Values, from one on.
#[derive(Clone, Copy)]
pub struct Values<'a, const N: usize> {
    pub lead: [u8; N],
    pub values: &'a [u64],
    pub at: usize,
}

impl<'a, const N: usize> Pieces for Values<'a, N> {
    type Piece = ([u8; N], ValueRow);

    ghost text = { λ v. value_text v.lead v.values.now v.at };

    ghost next = { λ v. record { lead = v.lead; values = v.values; at = v.at + 1 } };

    ghost each = { N + 108 };

    ghost Has = { λ v n. v.at + n < 1048576 };

    ghost Here = { λ v. v.at < 1048575 };

    fn piece(&self) -> ([u8; N], ValueRow) {
        (self.lead, row_at(self.values, self.at))
    }

    fn next(self) -> Values<'a, N> {
        Values {
            at: self.at + 1,
            ..self
        }
    }

    ghost onward = { λ p n h. (omega arith, omega arith) };
}

// n values, from one on.
pub fn values_of<'a, const N: usize>(
    lead: [u8; N],
    values: &'a [u64],
    from: usize,
    n: usize,
) -> Many<Values<'a, N>>
    requires { from + n < 1048576 }
    ensures text { ⟦<Many<Values<'a, N>> as Text>⟧.text result ≡ values_from lead.entry values.now from n }
    ensures valid { ⟦<Many<Values<'a, N>> as Text>⟧.Valid result }
    ensures most { ⟦<Many<Values<'a, N>> as Text>⟧.most result ≡ (N + 108) * n }
{
    let first = Values {
        lead,
        values,
        at: from,
    };
    Many { first, count: n }
}

// Values behind lent bytes, which are at most N. N bounds the size alone: whoever only writes may take the greatest number for it.
#[derive(Clone, Copy)]
pub struct LentValues<'a, const N: usize> {
    pub lead: &'a [u8],
    pub values: &'a [u64],
    pub at: usize,
}

impl<'a, const N: usize> Pieces for LentValues<'a, N> {
    type Piece = (&'a [u8], ValueRow);

    ghost text = { λ v. value_text v.lead.now v.values.now v.at };

    ghost next = { λ v. record { lead = v.lead; values = v.values; at = v.at + 1 } };

    ghost each = { N + 108 };

    ghost Has = { λ v n. (v.at + n < 1048576) × (length v.lead.now ≤ N) };

    ghost Here = { λ v. (v.at < 1048575) × (length v.lead.now ≤ N) };

    fn piece(&self) -> (&'a [u8], ValueRow) {
        let row = row_at(self.values, self.at);
        (self.lead, row)
    }

    fn next(self) -> LentValues<'a, N> {
        LentValues {
            at: self.at + 1,
            ..self
        }
    }

    ghost onward = { λ p n h. ((omega arith, h.1), (omega arith, h.1)) };
}

// n values, from one on, each behind the same lent bytes.
pub fn values_behind<'a, const N: usize>(
    lead: &'a [u8],
    values: &'a [u64],
    from: usize,
    n: usize,
) -> Many<LentValues<'a, N>>
    requires { (from + n < 1048576) × (length lead.now ≤ N) }
    ensures text { ⟦<Many<LentValues<'a, N>> as Text>⟧.text result ≡ values_from lead.now values.now from n }
    ensures valid { ⟦<Many<LentValues<'a, N>> as Text>⟧.Valid result }
    ensures most { ⟦<Many<LentValues<'a, N>> as Text>⟧.most result ≡ (N + 108) * n }
{
    let first = LentValues {
        lead,
        values,
        at: from,
    };
    Many { first, count: n }
}
