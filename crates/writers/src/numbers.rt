// Numbers, ids and counters.
ghost use Rattle.std.specs.Prelude.{ℕ, List, ◌++◌, ◌≡◌, ◌∷◌, ◌+◌, ◌-◌, ◌≤◌, ◌<◌, length, get_or};
ghost use Rattle.std.proofs.Common.{arith};
ghost use Rattle.meaning.specs.Ascii.{ascii};
ghost use Rattle.meaning.specs.Text.{decimal, id_text, counters_text};
ghost use Rattle.decimal.specs.Take.{Wrote};
ghost use Rattle.writers.specs.Sized.{Sized};

use crate::Text;
use crate::many::{Many, Pieces};
use decimal::{decimal_size, put_decimal};
use meaning::Counters;

// A number in decimal.
#[derive(Clone, Copy)]
pub struct Decimal(pub u64);

impl Text for Decimal {
    ghost text = { λ x. decimal x.0 };

    ghost most = { λ x. 20 };

    ghost Valid = { λ x. Unit {0} };

    fn size(&self) -> usize {
        decimal_size(self.0)
    }

    fn put(&self, buf: &mut [u8]) -> usize {
        put_decimal(buf, self.0)
    }
}

// An id, c.r.
#[derive(Clone, Copy)]
pub struct Id(pub u64);

impl Id {
    #[tactic(auto, unfolding(meaning::specs::Text::id_text))]
    fn parts(self) -> (Decimal, ([u8; 1], Decimal))
        ensures { ⟦<(Decimal, ([u8; 1], Decimal)) as Text>⟧.text result ≡ id_text self.0 }
    {
        (Decimal(self.0 / 8), (*b".", Decimal(self.0 % 8 + 1)))
    }
}

impl Text for Id {
    ghost text = { λ x. id_text x.0 };

    ghost most = { λ x. 41 };

    ghost Valid = { λ x. Unit {0} };

    fn size(&self) -> usize {
        self.parts().size()
    }

    fn put(&self, buf: &mut [u8]) -> usize {
        self.parts().put(buf)
    }
}

// A counter behind a comma, from one on.
#[derive(Clone, Copy)]
struct Behind {
    counters: Counters,
    at: usize,
}

impl Pieces for Behind {
    type Piece = ([u8; 1], Decimal);

    ghost text = { λ c. ascii "," ++ decimal (get_or c.counters.at c.at 0) };

    ghost next = { λ c. record { counters = c.counters; at = c.at + 1 } };

    ghost each = { 21 };

    ghost Has = { λ c n. c.at + n ≤ 8 };

    ghost Here = { λ c. c.at < 8 };

    fn piece(&self) -> ([u8; 1], Decimal) {
        (*b",", Decimal(u64::from(self.counters.at[self.at])))
    }

    fn next(self) -> Behind {
        Behind {
            counters: self.counters,
            at: self.at + 1,
        }
    }

    ghost onward = { λ p n h. (omega arith, omega arith) };
}

// Eight counters with commas between them: the first, and seven behind commas.
#[tactic(auto, using(crate::proofs::Counters::counters_in_parts))]
fn in_parts(counters: Counters) -> (Decimal, Many<Behind>)
    ensures text { ⟦<(Decimal, Many<Behind>) as Text>⟧.text result ≡ counters_text counters.at }
    ensures most { ⟦<(Decimal, Many<Behind>) as Text>⟧.most result ≡ 167 }
    ensures valid { ⟦<(Decimal, Many<Behind>) as Text>⟧.Valid result }
{
    let first = Behind { counters, at: 1 };
    (Decimal(u64::from(counters.at[0])), Many { first, count: 7 })
}

impl Text for Counters {
    ghost text = { λ c. counters_text c.at };

    ghost most = { λ c. 167 };

    ghost Valid = { λ c. Unit {0} };

    fn size(&self) -> usize {
        in_parts(*self).size()
    }

    fn put(&self, buf: &mut [u8]) -> usize {
        in_parts(*self).put(buf)
    }
}
