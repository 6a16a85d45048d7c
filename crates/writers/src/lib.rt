// Texts that are written at the start of a lent buffer. A text says how many bytes it takes before a byte is written; its writer is lent
// the rest of the buffer from the bytes already written onward, writes the text that document 01 gives a thing, and leaves what stands
// behind it untouched. Two texts one behind the other are a text, and so are many.
#![tactic(auto)]

mod hex;
mod many;
mod numbers;
mod plain;

ghost use Rattle.std.specs.Prelude.{ℕ, List, ◌++◌, ◌≡◌, [], ◌∷◌, ◌+◌, ◌*◌, ◌≤◌, ◌<◌, length};
ghost use Rattle.decimal.specs.Take.{Wrote};
ghost use Rattle.writers.specs.Wrote.{WroteAt};
ghost use Rattle.writers.specs.Sized.{Sized};
ghost use Rattle.writers.specs.Texts.{maybe, maybe_most, MaybeValid};

pub use hex::{Hex, LentHex};
pub use many::{Many, Pieces};
pub use numbers::{Decimal, Id};
pub use plain::{Kind, Plain};

pub trait Text {
    // What is written, of a valid thing, and a number that its bytes aren't more than.
    ghost text: { Self → List ℕ };

    ghost most: { Self → ℕ };

    ghost Valid: { Self → Type 0 };

    // How many bytes it takes.
    fn size(&self) -> usize
        requires { Valid self.now × (most self.now < 18446744073709551616) }
        ensures { Sized (text self.now) (most self.now) result };

    // Writes it.
    fn put(&self, buf: &mut [u8]) -> usize
        requires { Valid self.now × (length (text self.now) ≤ length buf.old) }
        ensures { Wrote (text self.now) buf.old buf.new result };
}

// Going on at the place `at`: the rest of the buffer is lent to the writer, and the answer is the place behind the text.
pub fn then<T: Text>(buf: &mut [u8], at: usize, x: &T) -> usize
    requires { T.Valid x.now × (at + length (T.text x.now) ≤ length buf.old) }
    ensures { WroteAt (T.text x.now) at buf.old buf.new result }
{
    at + x.put(&mut buf[at..])
}

// Two texts, one behind the other.
impl<A: Text, B: Text> Text for (A, B) {
    ghost text = { λ p. A.text p.0 ++ B.text p.1 };

    ghost most = { λ p. A.most p.0 + B.most p.1 };

    ghost Valid = { λ p. A.Valid p.0 × B.Valid p.1 };

    fn size(&self) -> usize {
        self.0.size() + self.1.size()
    }

    fn put(&self, buf: &mut [u8]) -> usize {
        let at = self.0.put(buf);
        then(buf, at, &self.1)
    }
}

// Fixed bytes.
impl<const N: usize> Text for [u8; N] {
    ghost text = { λ s. s };

    ghost most = { λ s. N };

    ghost Valid = { λ s. Unit {0} };

    fn size(&self) -> usize {
        N
    }

    // A loop: `copy_from_slice` copies from memory what the loop writes as constants, which made `save` 6 % slower.
    fn put(&self, buf: &mut [u8]) -> usize {
        for i in 0..N {
            buf[i] = self[i];
        }
        N
    }
}

// Bytes that are lent.
impl<'a> Text for &'a [u8] {
    ghost text = { λ s. s.now };

    ghost most = { λ s. length s.now };

    ghost Valid = { λ s. Unit {0} };

    fn size(&self) -> usize {
        self.len()
    }

    #[tactic(auto, unfolding(meaning::specs::Text::over))]
    fn put(&self, buf: &mut [u8]) -> usize {
        buf[..self.len()].copy_from_slice(self);
        self.len()
    }
}

// A text, or nothing.
impl<A: Text> Text for Option<A> {
    ghost text = { maybe A.text };

    ghost most = { maybe_most A.most };

    ghost Valid = { MaybeValid A.Valid };

    fn size(&self) -> usize {
        match self {
            Some(x) => x.size(),
            None => 0,
        }
    }

    #[tactic(auto, unfolding(meaning::specs::Text::over))]
    fn put(&self, buf: &mut [u8]) -> usize {
        match self {
            Some(x) => x.put(buf),
            None => 0,
        }
    }
}
