// Many texts one behind the other, each told by where it is taken from.
ghost use Rattle.std.specs.Prelude.{ℕ, suc, List, ◌≡◌, ◌+◌, ◌*◌, ◌≤◌, length};
ghost use Rattle.decimal.specs.Take.{Wrote};
ghost use Rattle.writers.specs.Sized.{Sized};
ghost use Rattle.writers.specs.Texts.{texts};

use crate::{Text, then};

// Where a text is taken from, and how it goes on from there. No Iterator: the texts are gone over twice, for the size and for the
// writing, and the clauses have to tell each place's text without going on.
pub trait Pieces: Copy {
    type Piece: Text + Copy;

    ghost text: { Self → List ℕ };

    ghost next: { Self → Self };

    // No text has more bytes.
    ghost each: { ℕ };

    // There are so many from here on.
    ghost Has: { Self → ℕ → Type 0 };

    ghost Here: { Self → Type 0 };

    fn piece(&self) -> Self::Piece
        requires { Here self.now }
        ensures { Self.Piece.Valid result × (Self.Piece.text result ≡ text self.now) × (Self.Piece.most result ≤ each) };

    fn next(self) -> Self
        requires { Here self }
        ensures { result ≡ next self };

    ghost onward: { (p : Self) (n : ℕ) → Has p (suc n) → Here p × Has (next p) n };
}

// So many, from the first on.
#[derive(Clone, Copy)]
pub struct Many<P> {
    pub first: P,
    pub count: usize,
}

impl<P: Pieces> Text for Many<P> {
    ghost text = { λ m. texts P.text P.next m.first m.count };

    ghost most = { λ m. P.each * m.count };

    ghost Valid = { λ m. P.Has m.first m.count };

    fn size(&self) -> usize {
        let mut from = self.first;
        let mut sum = 0;
        for _ in 0..self.count {
            sum += from.piece().size();
            from = from.next();
        }
        sum
    }

    fn put(&self, buf: &mut [u8]) -> usize {
        let mut from = self.first;
        let mut at = 0;
        for _ in 0..self.count {
            at = then(buf, at, &from.piece());
            from = from.next();
        }
        at
    }
}
