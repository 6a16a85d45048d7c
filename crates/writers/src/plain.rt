// Plain values as the tables hold them.
ghost use Rattle.std.specs.Prelude.{ℕ, ◌≡◌, ◌≤◌, length, get_or};
ghost use Rattle.meaning.specs.Text.{plain_text};
ghost use Rattle.decimal.specs.Take.{Wrote};
ghost use Rattle.writers.specs.Sized.{Sized};
ghost use Rattle.writers.specs.Held.{kind_in, plain_of, plain_in, InBounds};

use crate::Text;
use crate::hex::Hex;
use crate::numbers::Decimal;

// The kind of a plain value as the tables hold it; a string's bytes stand in four words beside it, and this is how many they are.
// `NonNeg n` is n, and `Neg n` is -(n + 1). It isn't `readers::Given`, which has `Map` and `List` too: no place holds them.
#[derive(Clone, Copy)]
pub enum Kind {
    Null,
    True,
    False,
    NonNeg(u64),
    Neg(u64),
    String(u64),
}

// The kind of a plain value by its number, and by the first of its words, which is an integer's. A number that is no kind's counts as null.
#[tactic(auto, unfolding(crate::specs::Held::kind_in))]
fn kind_of(kind: u64, n: u64) -> Kind
    ensures { (result ≡ kind_in kind n) × InBounds result }
{
    match (kind, n) {
        (1, _) => Kind::True,
        (2, _) => Kind::False,
        (3, 0..=9223372036854775807) => Kind::NonNeg(n),
        (4, 0..=9223372036854775807) => Kind::Neg(n),
        (5..=37, _) => Kind::String(kind - 5),
        _ => Kind::Null,
    }
}

// A plain value, by the number of its kind and its four words, as a table has them. No part of `tables::Value`, and nothing of `tables`:
// `writers` and `tables` don't stand on each other, which keeps the longest chain of crates short.
#[derive(Clone, Copy)]
pub struct Plain {
    pub kind: u64,
    pub words: [u64; 4],
}

impl Text for Plain {
    ghost text = { λ x. plain_text (plain_in x.kind x.words) };

    ghost most = { λ x. 65 };

    ghost Valid = { λ x. Unit {0} };

    fn size(&self) -> usize {
        match kind_of(self.kind, self.words[0]) {
            Kind::Null | Kind::True | Kind::False => 1,
            Kind::NonNeg(n) => (*b"i", Decimal(n)).size(),
            Kind::Neg(n) => (*b"i-", Decimal(n + 1)).size(),
            Kind::String(len) => (
                *b"s",
                Hex {
                    words: self.words,
                    len,
                },
            )
                .size(),
        }
    }

    fn put(&self, buf: &mut [u8]) -> usize {
        match kind_of(self.kind, self.words[0]) {
            Kind::Null => b"n".put(buf),
            Kind::True => b"t".put(buf),
            Kind::False => b"f".put(buf),
            Kind::NonNeg(n) => (*b"i", Decimal(n)).put(buf),
            Kind::Neg(n) => (*b"i-", Decimal(n + 1)).put(buf),
            Kind::String(len) => (
                *b"s",
                Hex {
                    words: self.words,
                    len,
                },
            )
                .put(buf),
        }
    }
}
